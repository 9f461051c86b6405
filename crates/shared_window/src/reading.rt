// How the owner reads its region: the pages that a range touches are taken, read, and given back.
ghost use Rattle.std.specs.Prelude.{◌≡◌, ℕ, ◌<◌, All, is_some, length, IfOk, IfErr, OnOk, OnErr};
ghost use Rattle.vio_num.specs.Counts.{risen};
ghost use Rattle.tce_window.specs.Pieces.{on_page};
ghost use Rattle.tce_window.specs.Window.{strokes_at};
ghost use Rattle.shared_window.specs.Hand.{IsEmptyFor, HasInHand, GivesHand, SawWithin};
ghost use Rattle.shared_window.specs.Opening.{IsOwnerAt};
ghost use Rattle.shared_window.specs.Reading.{ReadsOwn, RefusesRead, TakesRange};
ghost use Rattle.shared_window.specs.SharedWindow.{IsSeatAt};

use crate::hand::{FoundInUse, give_pages, take_pages};
use crate::owner::Owner;
use crate::seat::WindowSeat;
use crate::window::Window;
use arrayvec::ArrayVec;
use tce_window::{MOST_PIECES, OwnFault, Piece, pieces_over};

// Counts a page that was found in use.
fn one_more(in_use: u64) -> u64
    ensures { result ≡ risen in_use }
{
    in_use.saturating_add(1)
}

impl Window {
    /// Takes the pages that the range touches into the hand, in rising order, and gives its pieces. Where it
    /// refuses, the hand is empty.
    pub(crate) fn take_range(
        &self,
        seat: &mut WindowSeat,
        at: u64,
        len: usize,
    ) -> Result<ArrayVec<Piece, MOST_PIECES>, OwnFault>
        requires at { IsSeatAt self.now seat.old }
        ensures ok { IfOk result (λ pieces.
            TakesRange self.now seat.old at len pieces.items seat.new) }
        ensures err { IfErr result (RefusesRead self.now seat.old at len seat.new) }
        ensures at { OnErr result (IsSeatAt self.now seat.new) }
        ensures entries { seat.new.entries ≡ seat.old.entries }
        ensures within { SawWithin seat.old.pages → SawWithin seat.new.pages }
    {
        let _size = seat.region.size();
        if !seat.region.contains(at, len) {
            return Err(OwnFault::Range);
        }
        let pieces = pieces_over(self.unit, at as usize, len);
        match take_pages(
            &self.pages,
            &mut seat.pages,
            &mut seat.region,
            pieces.as_slice(),
        ) {
            Ok(()) => Ok(pieces),
            Err(FoundInUse { page, word }) => {
                seat.in_use = one_more(seat.in_use);
                Err(OwnFault::InUse { page, word })
            }
        }
    }

    /// Gives the pages of the pieces back, which are those in the hand.
    pub(crate) fn give_taken(&self, seat: &mut WindowSeat, pieces: &[Piece])
        requires hand { HasInHand self.now.pages seat.old.pages seat.old.region }
        requires there { (p : ℕ) → is_some (strokes_at seat.old.region p) ≡ on_page pieces.now p }
        requires within { All (λ piece. piece.page < self.now.pages.count) pieces.now }
        ensures given { GivesHand seat.old.pages (strokes_at seat.old.region) seat.new.pages }
        ensures empty { IsEmptyFor self.now.pages seat.new.region }
        ensures rest { seat.new ≡ record seat.old
            { pages = seat.new.pages; region = seat.new.region } }
        ensures saw { SawWithin seat.old.pages → SawWithin seat.new.pages }
    {
        give_pages(&self.pages, &mut seat.pages, &mut seat.region, pieces);
    }

    // Copies the bytes of the region from the address on. Where it refuses, `out` is as before.
    fn read_range(&self, seat: &mut WindowSeat, at: u64, out: &mut [u8]) -> Result<(), OwnFault>
        requires at { IsSeatAt self.now seat.old }
        ensures at { IsSeatAt self.now seat.new }
        ensures ok { OnOk result (ReadsOwn self.now seat.old at out.new seat.new) }
        ensures err { IfErr result (RefusesRead self.now seat.old at (length out.old) seat.new) }
        ensures out { OnErr result (out.new ≡ out.old) }
        ensures entries { seat.new.entries ≡ seat.old.entries }
        ensures within { SawWithin seat.old.pages → SawWithin seat.new.pages }
    {
        let pieces = self.take_range(seat, at, out.len())?;
        seat.region.read(at as usize, out);
        self.give_taken(seat, pieces.as_slice());
        Ok(())
    }

    /// Copies the bytes of the region from the address on, 1 to 65,536 of them. Where it refuses, `out` is
    /// as before. A page that the owner itself holds is in use.
    pub fn read(&self, owner: &mut Owner, at: u64, out: &mut [u8]) -> Result<(), OwnFault>
        requires at { IsOwnerAt self.now owner.old }
        ensures at { IsOwnerAt self.now owner.new }
        ensures ok { OnOk result (ReadsOwn self.now owner.old.seat at out.new owner.new.seat) }
        ensures err { IfErr result
            (RefusesRead self.now owner.old.seat at (length out.old) owner.new.seat) }
        ensures out { OnErr result (out.new ≡ out.old) }
        ensures rest { owner.new ≡ record owner.old { seat = owner.new.seat } }
        ensures entries { owner.new.seat.entries ≡ owner.old.seat.entries }
    {
        self.read_range(&mut owner.seat, at, out)
    }
}
