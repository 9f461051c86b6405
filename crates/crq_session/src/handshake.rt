// The initialisation of a queue by its two ends, as a machine that reads and writes nothing.
ghost use Rattle.std.specs.Prelude.{◌≡◌};
ghost use Rattle.crq_session.specs.Handshake.{state_by, step_by, state_after, step_after, step_entry};
ghost use Rattle.crq_session.specs.declared.handshake.Handshake.TheVariants.{Down, Waiting};
ghost use Rattle.crq_session.specs.declared.handshake.Step.TheVariants.{SendInitialize};

use vio_num::{Entry, Kind};

/// How far the initialisation of a queue has come (LoPAR, "CRQ Initialization").
#[derive(Clone, Copy, Debug, PartialEq, Eq)]
pub enum Handshake {
    /// The own queue is not registered.
    Down,
    /// It is registered, and the partner has not yet answered.
    Waiting,
    /// Both ends have heard of one another.
    Up,
}

/// What an end has to send next.
#[derive(Clone, Copy, Debug, PartialEq, Eq)]
pub enum Step {
    Nothing,
    /// The entry with bytes 0xC0 0x01.
    SendInitialize,
    /// The entry with bytes 0xC0 0x02.
    SendComplete,
}

impl Handshake {
    /// The own queue was registered.
    pub fn registered(&mut self) -> Step
        ensures state { self.new ≡ Waiting }
        ensures step { result ≡ SendInitialize }
    {
        *self = Handshake::Waiting;
        Step::SendInitialize
    }

    /// The own queue was freed.
    pub fn freed(&mut self)
        ensures { self.new ≡ Down }
    {
        *self = Handshake::Down;
    }

    /// An entry came. One that is neither an initialisation nor an event changes nothing.
    pub fn got(&mut self, entry: Entry) -> Step
        ensures state { self.new ≡ state_after self.old entry }
        ensures step { result ≡ step_after self.old entry }
    {
        let (state, step) = after(*self, entry.kind(), entry.format());
        *self = state;
        step
    }
}

// Tells where an entry of this kind and byte 1 leads, and what is then to be sent.
fn after(state: Handshake, kind: Kind, byte: u8) -> (Handshake, Step)
    ensures state { result.0 ≡ state_by state kind byte }
    ensures step { result.1 ≡ step_by state kind byte }
{
    match (state, kind, byte) {
        (Handshake::Waiting | Handshake::Up, Kind::Init, 0x01) => {
            (Handshake::Up, Step::SendComplete)
        }
        (Handshake::Waiting, Kind::Init, 0x02) => (Handshake::Up, Step::Nothing),
        (Handshake::Up, Kind::Event, _) => (Handshake::Waiting, Step::Nothing),
        _ => (state, Step::Nothing),
    }
}

impl Step {
    /// The entry to be sent.
    pub fn entry(self) -> Option<Entry>
        ensures { result ≡ step_entry self }
    {
        match self {
            Step::Nothing => None,
            Step::SendInitialize => Some(Entry::INITIALIZE),
            Step::SendComplete => Some(Entry::INITIALIZATION_COMPLETE),
        }
    }
}
