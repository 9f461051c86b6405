// The windows of the units of a switch, of which each is lent while a frame is delivered to its unit.
ghost use Rattle.std.specs.Prelude.{◌≡◌, ℕ, ◌+◌, ◌*◌, ◌≤◌, Bool, Some, slice_get, IfOk, IfErr, OnErr};
ghost use Rattle.tce_window.specs.declared.piece.TheConstants.{MOST_BYTES};
ghost use Rattle.vio_num.specs.declared.TheConstants.{PAGE_BYTES};
ghost use Rattle.vio_num.specs.declared.names.UnitId.{UnitId};
ghost use Rattle.tce_window.specs.Held.{HeldValue, held_strokes, either};
ghost use Rattle.tce_window.specs.Moved.{Follows};
ghost use Rattle.tce_window.specs.Pieces.{IsRefused, IsSharedUse};
ghost use Rattle.tce_window.specs.Port.{CountsHold, NamesFound};
ghost use Rattle.tce_window.specs.PortState.{WindowFacts, port_at, Holds, HoldsNone, Lays, LaysNothing, OnlyGivesBack, OnlyHolds, places_since};
ghost use Rattle.lan_switch.specs.Map.{KeepsOthers};

use tce_window::{GuestPort, Held, HoldFault, Right, WindowPort};
use vio_num::UnitId;

/// The windows of units, of which a guest holds ranges, of one unit at a time. A unit that has no window
/// is one whose window has no page.
pub trait PortMap {
    // Whether others have a hand in the windows too.
    ghost is_shared: { Bool };

    // What is known of each unit's window.
    ghost state: { Self → UnitId → WindowFacts };

    // Whether it is the range that the last hold of the unit's window answered.
    ghost fits: { Self → UnitId → HeldValue → Type 0 };

    // Whether the last hold of the unit's window found this page in use, by this word of it.
    ghost found: { Self → UnitId → ℕ → ℕ → Type 0 };

    // Each window is named by its unit, and begins with every entry granted.
    ghost named: { (map : Self) (unit : UnitId) → (state map unit).unit ≡ unit };

    ghost begins: { (map : Self) (unit : UnitId) (e : ℕ)
        → slice_get ((state map unit).values e) 0 ≡ Some (PAGE_BYTES * e + 3) };

    /// Holds a range of the unit's window, as `GuestPort::hold` does.
    fn hold(&mut self, unit: UnitId, ioba: u64, len: u32, right: Right) -> Result<Held, HoldFault>
        requires free { (Self.state self.old unit).held_count ≡ 0 }
        requires len { (1 ≤ len) × (len ≤ MOST_BYTES) }
        ensures ok { IfOk result (Holds Self.is_shared (port_at (Self.state self.old unit)) ioba len
            right (port_at (Self.state self.new unit))) }
        ensures fits { IfOk result (λ held. fits self.new unit held) }
        ensures cause { IfErr result (λ fault. IsRefused (Self.state self.new unit).values right
            (Self.state self.old unit).size ioba len fault) }
        ensures found { IfErr result (NamesFound (found self.new unit)) }
        ensures shared { IfErr result (IsSharedUse Self.is_shared) }
        ensures err { OnErr result (HoldsNone Self.is_shared (port_at (Self.state self.old unit))
            (port_at (Self.state self.new unit))) }
        ensures nothing { LaysNothing Self.is_shared (port_at (Self.state self.old unit))
            (port_at (Self.state self.new unit)) }
        ensures counts { CountsHold result (Self.state self.old unit).in_use
            (Self.state self.new unit).in_use }
        ensures rest { OnlyHolds Self.is_shared (port_at (Self.state self.old unit))
            (port_at (Self.state self.new unit)) }
        ensures others { KeepsOthers unit (Self.state self.old) (Self.state self.new) };

    /// Gives the range of the unit's window back that its last hold answered, as `GuestPort::give_back`
    /// does.
    fn give_back(&mut self, unit: UnitId, held: Held)
        requires { fits self.old unit held }
        ensures strokes { (p : ℕ) → (Self.state self.new unit).strokes p ≡ either
            ((Self.state self.old unit).strokes p) (held_strokes held.pages p) }
        ensures laid { Lays Self.is_shared (places_since (Self.state self.old unit).taken held)
            (port_at (Self.state self.old unit)) (port_at (Self.state self.new unit)) }
        ensures free { (Self.state self.new unit).held_count ≡ 0 }
        ensures rest { OnlyGivesBack (port_at (Self.state self.old unit))
            (port_at (Self.state self.new unit)) }
        ensures others { KeepsOthers unit (Self.state self.old) (Self.state self.new) };

    // A range that was written through is still the one that is to be given back.
    ghost written_fits: { (map : Self) (unit : UnitId) (old new : HeldValue)
        → fits map unit old → Follows old new → fits map unit new };
}

/// A guest of one unit's window, as long as it borrows the map.
#[derive(Drop)]
pub struct PortWindow<'a, M: PortMap> {
    /// The windows of the units.
    pub others: &'a mut M,
    /// The unit whose window it is.
    pub unit: UnitId,
}

impl<M: PortMap> WindowPort for PortWindow<'_, M> {
    ghost use Rattle.lan_switch.specs.Map.{lent_window};

    ghost is_shared = { M.is_shared };

    ghost state = { λ window. lent_window window.others.ghost_name (M.state window.others.now) window.unit };

    ghost begins = { λ window e. M.begins window.others.now window.unit e };
}

impl<M: PortMap> GuestPort for PortWindow<'_, M> {
    ghost fits = { λ window held. M.fits window.others.now window.unit held };

    ghost found = { λ window page word. M.found window.others.now window.unit page word };

    ghost written_fits = { λ window old new fits follows.
        M.written_fits window.others.now window.unit old new fits follows };

    fn hold(&mut self, ioba: u64, len: u32, right: Right) -> Result<Held, HoldFault> {
        self.others.hold(self.unit, ioba, len, right)
    }

    fn give_back(&mut self, held: Held) {
        self.others.give_back(self.unit, held);
    }
}
