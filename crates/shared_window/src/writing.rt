// How the owner writes its region: the pages that a range touches are taken, written, and given back.
ghost use Rattle.std.specs.Prelude.{◌≡◌, length, IfErr, OnOk};
ghost use Rattle.shared_window.specs.Hand.{SawWithin};
ghost use Rattle.shared_window.specs.Opening.{IsOwnerAt};
ghost use Rattle.shared_window.specs.Writing.{WritesOwn, RefusesWrite};
ghost use Rattle.shared_window.specs.SharedWindow.{IsSeatAt};

use crate::owner::Owner;
use crate::seat::WindowSeat;
use crate::window::Window;
use page_slots::StrokeName;
use tce_window::OwnFault;

impl Window {
    // Writes the bytes over the region from the address on. Where it refuses, it lays no stroke.
    fn write_range(
        &self,
        seat: &mut WindowSeat,
        at: u64,
        bytes: &[u8],
        mark: u64,
    ) -> Result<(), OwnFault>
        requires at { IsSeatAt self.now seat.old }
        ensures at { IsSeatAt self.now seat.new }
        ensures ok { OnOk result (WritesOwn self.now seat.old at bytes.now mark seat.new) }
        ensures err { IfErr result (RefusesWrite self.now seat.old at (length bytes.now) seat.new) }
        ensures entries { seat.new.entries ≡ seat.old.entries }
        ensures within { SawWithin seat.old.pages → SawWithin seat.new.pages }
    {
        let pieces = self.take_range(seat, at, bytes.len())?;
        let name = StrokeName {
            who: self.unit,
            mark,
        };
        let answer = seat.region.write(self.alloc, name, at as usize, bytes);
        self.give_taken(seat, pieces.as_slice());
        answer?;
        Ok(())
    }

    /// Writes the bytes over the region from the address on, 1 to 65,536 of them: one stroke on each page
    /// that they touch, named by the unit and the mark. Where it refuses, it lays no stroke. A page that the
    /// owner itself holds is in use.
    pub fn write(&self, owner: &mut Owner, at: u64, bytes: &[u8], mark: u64) -> Result<(), OwnFault>
        requires at { IsOwnerAt self.now owner.old }
        ensures at { IsOwnerAt self.now owner.new }
        ensures ok { OnOk result
            (WritesOwn self.now owner.old.seat at bytes.now mark owner.new.seat) }
        ensures err { IfErr result
            (RefusesWrite self.now owner.old.seat at (length bytes.now) owner.new.seat) }
        ensures rest { owner.new ≡ record owner.old { seat = owner.new.seat } }
        ensures entries { owner.new.seat.entries ≡ owner.old.seat.entries }
    {
        self.write_range(&mut owner.seat, at, bytes, mark)
    }
}
