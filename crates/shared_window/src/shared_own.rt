// A window with its owner and one guest, as a unit that serves from its own window needs it: a port of both
// kinds.
ghost use Rattle.std.specs.Prelude.{◌≡◌, ◌≤◌, IfOk, IfErr};
ghost use Rattle.tce_window.specs.declared.piece.TheConstants.{MOST_BYTES};
ghost use Rattle.shared_window.specs.Opening.{IsOwnerAt, IsOwnerAt-prop};
ghost use Rattle.shared_window.specs.Ranges.{HoldsRange, RefusesHold, GivesRange};
ghost use Rattle.shared_window.specs.SharedWindow.{IsIdleAt, IsOutWith};

use crate::guest::Guest;
use crate::owner::Owner;
use crate::window::Window;
use page_slots::StrokeName;
use tce_window::{
    GetTce, GuestPort, Held, HoldFault, NamedFault, OwnFault, OwnerPort, Right, TceAnswer,
    WindowPort,
};
use vio_num::NoMemory;

/// A window with its owner and a guest, as long as it borrows them. Puts, gets and holds all go through the owner's
/// seat, so that they speak of one list of values, all that were put; the guest's seat stays idle.
#[derive(Drop)]
pub struct SharedOwn<'a> {
    pub window: &'a Window,
    pub owner: &'a mut Owner,
    pub guest: &'a mut Guest,
    ghost ours: { IsOwnerAt window.now owner.now } by { IsOwnerAt-prop window.now owner.now },
    ghost idle: { IsIdleAt window.now guest.now },
}

impl Window {
    // Holds a range by the owner's seat.
    fn hold_own(
        &self,
        owner: &mut Owner,
        ioba: u64,
        len: u32,
        right: Right,
    ) -> Result<Held, HoldFault>
        requires at { IsOwnerAt self.now owner.old }
        requires free { owner.old.seat.entries.held_count ≡ 0 }
        requires len { (1 ≤ len) × (len ≤ MOST_BYTES) }
        ensures at { IsOwnerAt self.now owner.new }
        ensures ok { IfOk result
            (HoldsRange self.now owner.old.seat ioba len right owner.new.seat) }
        ensures err { IfErr result
            (RefusesHold self.now owner.old.seat ioba len right owner.new.seat) }
        ensures rest { owner.new ≡ record owner.old { seat = owner.new.seat } }
    {
        self.hold_range(&mut owner.seat, ioba, len, right)
    }

    // Gives back the range that the owner's seat holds.
    fn give_own(&self, owner: &mut Owner, held: Held)
        requires at { IsOwnerAt self.now owner.old }
        requires out { IsOutWith self.now owner.old.seat held }
        ensures at { IsOwnerAt self.now owner.new }
        ensures gives { GivesRange self.now owner.old.seat held owner.new.seat }
        ensures rest { owner.new ≡ record owner.old { seat = owner.new.seat } }
    {
        self.give_range(&mut owner.seat, held);
    }
}

impl WindowPort for SharedOwn<'_> {
    ghost use Rattle.std.specs.Prelude.{true};
    ghost use Rattle.shared_window.specs.SharedOwnState.{own_state, own_begins};

    ghost is_shared = { true };

    ghost state = { own_state };

    ghost begins = { own_begins };
}

impl OwnerPort for SharedOwn<'_> {
    ghost use Rattle.shared_window.specs.SharedOwnState.{own_spare};

    ghost spare = { own_spare };

    fn pages(&self) -> u16 {
        self.window.pages(self.owner)
    }

    fn reserve(&mut self, puts: u32) -> Result<(), NoMemory> {
        self.window.reserve(self.owner, puts)
    }

    fn put_tce(&mut self, ioba: u64, tce: u64) -> TceAnswer {
        self.window.put_tce(self.owner, ioba, tce)
    }

    fn stuff_tce(&mut self, ioba: u64, tce: u64, count: u64) -> TceAnswer {
        self.window.stuff_tce(self.owner, ioba, tce, count)
    }

    fn put_tce_indirect(&mut self, ioba: u64, list: &[u64]) -> TceAnswer {
        self.window.put_tce_indirect(self.owner, ioba, list)
    }

    fn get_tce(&mut self, ioba: u64) -> GetTce {
        self.window.get_tce(self.owner, ioba)
    }

    fn read(&mut self, at: u64, out: &mut [u8]) -> Result<(), OwnFault> {
        self.window.read(self.owner, at, out)
    }

    fn write(&mut self, at: u64, bytes: &[u8], mark: u64) -> Result<(), OwnFault> {
        self.window.write(self.owner, at, bytes, mark)
    }

    fn read_named(&mut self, at: u64, out: &mut [u8], name: StrokeName) -> Result<(), NamedFault> {
        self.window.read_named(self.owner, at, out, name)
    }
}

impl GuestPort for SharedOwn<'_> {
    ghost use Rattle.shared_window.specs.SharedOwnState.{own_fits, own_found, own_still_fits};

    ghost fits = { own_fits };

    ghost found = { own_found };

    fn hold(&mut self, ioba: u64, len: u32, right: Right) -> Result<Held, HoldFault> {
        self.window.hold_own(self.owner, ioba, len, right)
    }

    fn give_back(&mut self, held: Held) {
        self.window.give_own(self.owner, held);
    }

    ghost written_fits = { own_still_fits };
}
