// The control word of H_MULTICAST_CTRL (LoPAR, "H_MULTICAST_CTRL"): what a partition asks of a LAN unit's filters.
ghost use Rattle.std.specs.Prelude.{◌≡◌, ◌↔◌, ◌<◌, IfOk, IfErr, IsOk};
ghost use Rattle.lan_frame.specs.Control.{IsControlWord, new_reception, new_filtering, action_number, action_of};

// Says that the word gives a new reception.
const RECEPTION_IS_GIVEN: u64 = 0x80000;
// Says that the word gives a new filtering.
const FILTERING_IS_GIVEN: u64 = 0x40000;
// Holds the new reception.
const RECEPTION: u64 = 0x20000;
// Holds the new filtering.
const FILTERING: u64 = 0x10000;
// Hold the action on the filter list.
const ACTION: u64 = 0x3;
// Number the actions on the filter list.
const NOTHING: u8 = 0;

const ADD: u8 = 1;

const REMOVE: u8 = 2;
// Gathers the bits that a control word may have.
const CONTROL_BITS: u64 = RECEPTION_IS_GIVEN | RECEPTION | FILTERING_IS_GIVEN | FILTERING | ACTION;

/// What a control word asks for.
#[derive(Clone, Copy, Debug, PartialEq, Eq)]
pub struct Control {
    /// Whether frames to groups are received from now on; None leaves it as it is.
    pub reception: Option<bool>,
    /// Whether they are held against the filter list from now on; None leaves it as it is.
    pub filtering: Option<bool>,
    /// The number of the action on the filter list: 0 nothing, 1 add, 2 remove, 3 clear.
    pub action: u8,
    ghost few: { action < 4 },
}

/// What is done to the filter list.
#[derive(Clone, Copy, Debug, PartialEq, Eq)]
pub enum FilterAction {
    /// 0: the list stays as it is.
    Nothing,
    /// 1: the call's MAC address is added.
    Add,
    /// 2: the call's MAC address is removed.
    Remove,
    /// 3: every address is removed.
    Clear,
}

impl Control {
    /// The action on the filter list.
    pub fn filter_action(self) -> FilterAction
        ensures { result ≡ action_of self.action }
    {
        match self.action {
            NOTHING => FilterAction::Nothing,
            ADD => FilterAction::Add,
            REMOVE => FilterAction::Remove,
            _ => FilterAction::Clear,
        }
    }
}

/// What the control word asks for. A word with any other bit is refused, and comes back.
pub fn read_control(word: u64) -> Result<Control, u64>
    ensures ok { IsOk result ↔ IsControlWord word }
    ensures reception { IfOk result (λ control. control.reception ≡ new_reception word) }
    ensures filtering { IfOk result (λ control. control.filtering ≡ new_filtering word) }
    ensures action { IfOk result (λ control. control.action ≡ action_number word) }
    ensures refused { IfErr result (λ refused. refused ≡ word) }
{
    if word & CONTROL_BITS != word {
        return Err(word);
    }
    Ok(Control {
        reception: (word & RECEPTION_IS_GIVEN != 0).then_some(word & RECEPTION != 0),
        filtering: (word & FILTERING_IS_GIVEN != 0).then_some(word & FILTERING != 0),
        action: (word & ACTION) as u8,
    })
}
