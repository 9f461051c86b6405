// How the owner reads what one name wrote: a range is read only if the last strokes on its pages are of that name.
ghost use Rattle.std.specs.Prelude.{◌≡◌, ℕ, ◌+◌, ◌<◌, ◌≤◌, ◌^◌, length, slice_index, IfErr, OnOk, OnErr};
ghost use Rattle.tce_window.specs.Named.{AreFresh};
ghost use Rattle.tce_window.specs.Region.{first_page, end_page, region_byte, IsInPlace};
ghost use Rattle.tce_window.specs.Window.{strokes_at};
ghost use Rattle.shared_window.specs.Hand.{SawWithin};
ghost use Rattle.shared_window.specs.Opening.{IsOwnerAt};
ghost use Rattle.shared_window.specs.Reading.{ReadsOwn, AreFreshAt, RefusesNamed, IsStaleIn};
ghost use Rattle.shared_window.specs.SharedWindow.{IsSeatAt};

use crate::owner::Owner;
use crate::seat::WindowSeat;
use crate::window::Window;
use page_slots::StrokeName;
use tce_window::{NamedFault, OwnFault, Region};

// Copies the bytes of the region from the address on, if on each page that they touch the last strokes are of this
// name and cover them. Where it refuses, `out` is as before.
fn read_fresh(
    region: &Region,
    at: usize,
    out: &mut [u8],
    name: StrokeName,
) -> Result<(), NamedFault>
    requires near { at + length out.old ≤ 2 ^ 20 }
    requires there { IsInPlace (strokes_at region.now) at (length out.old) }
    ensures bytes { OnOk result ((k : ℕ) → k < length out.new
        → slice_index out.new k ≡ region_byte (strokes_at region.now) (at + k)) }
    ensures fresh { OnOk result (AreFresh name at (length out.old) (strokes_at region.now)
        (first_page at) (end_page at (length out.old))) }
    ensures stale { IfErr result (IsStaleIn name at (length out.old) (strokes_at region.now)) }
    ensures out { OnErr result (out.new ≡ out.old) }
    ensures len { length out.new ≡ length out.old }
{
    if let Some((page, found)) = region.first_stale(at, out.len(), name) {
        return Err(NamedFault::Stale {
            page: page as u16,
            found,
        });
    }
    region.read(at, out);
    Ok(())
}

impl Window {
    // Copies the bytes of the region from the address on, if they are of this name. Where it refuses, `out` is as
    // before.
    fn read_named_range(
        &self,
        seat: &mut WindowSeat,
        at: u64,
        out: &mut [u8],
        name: StrokeName,
    ) -> Result<(), NamedFault>
        requires at { IsSeatAt self.now seat.old }
        ensures at { IsSeatAt self.now seat.new }
        ensures ok { OnOk result (ReadsOwn self.now seat.old at out.new seat.new) }
        ensures fresh { OnOk result (AreFreshAt self.now name at (length out.old) seat.new) }
        ensures err { IfErr result
            (RefusesNamed self.now seat.old name at (length out.old) seat.new) }
        ensures out { OnErr result (out.new ≡ out.old) }
        ensures entries { seat.new.entries ≡ seat.old.entries }
        ensures within { SawWithin seat.old.pages → SawWithin seat.new.pages }
    {
        let pieces = match self.take_range(seat, at, out.len()) {
            Ok(pieces) => pieces,
            Err(OwnFault::InUse { page, word }) => return Err(NamedFault::InUse { page, word }),
            Err(_) => return Err(NamedFault::Range),
        };
        let answer = read_fresh(&seat.region, at as usize, out, name);
        self.give_taken(seat, pieces.as_slice());
        answer
    }

    /// Copies the bytes of the region from the address on, 1 to 65,536 of them, if on each page that they
    /// touch the last strokes are of this name and cover them. Where it refuses, `out` is as before. A page that
    /// the owner itself holds is in use.
    pub fn read_named(
        &self,
        owner: &mut Owner,
        at: u64,
        out: &mut [u8],
        name: StrokeName,
    ) -> Result<(), NamedFault>
        requires at { IsOwnerAt self.now owner.old }
        ensures at { IsOwnerAt self.now owner.new }
        ensures ok { OnOk result (ReadsOwn self.now owner.old.seat at out.new owner.new.seat) }
        ensures fresh { OnOk result (AreFreshAt self.now name at (length out.old) owner.new.seat) }
        ensures err { IfErr result
            (RefusesNamed self.now owner.old.seat name at (length out.old) owner.new.seat) }
        ensures out { OnErr result (out.new ≡ out.old) }
        ensures rest { owner.new ≡ record owner.old { seat = owner.new.seat } }
        ensures entries { owner.new.seat.entries ≡ owner.old.seat.entries }
    {
        self.read_named_range(&mut owner.seat, at, out, name)
    }
}
