// A window that an owner and guests in several threads share (LoPAR, "Translation Control Entry"): its pages
// by turns, its entries by pins. No call takes a lock.
ghost use Rattle.std.specs.Prelude.{◌≡◌, ◌≤◌, IfOk, IfErr, length};
ghost use Rattle.tce_window.specs.declared.piece.TheConstants.{MOST_BYTES};
ghost use Rattle.shared_window.specs.Hand.{SawWithin};
ghost use Rattle.shared_window.specs.Pinning.{KeepsOwn, Releases};
ghost use Rattle.shared_window.specs.SharedWindow.{IsSeatAt, IsOutWith};
ghost use Rattle.shared_window.specs.Ranges.{HoldsRange, RefusesHold, GivesRange};

use crate::guest::Guest;
use crate::hand::{FoundInUse, give_pages, take_pages};
use crate::pinning::{pin_range, unpin_all};
use crate::placing::{place_pieces, unplaced_pieces};
use crate::seat::WindowSeat;
use entry_slots::Entries;
use page_slots::Pages;
use std::alloc::Global;
use std::marker::Model;
use tce_window::{Held, HoldFault, Right};
use vio_num::{PAGE_BYTES, UnitId};

/// A shared window: 1 to 256 pages, each with its turn word, and as many entries, each a word.
#[derive(Drop)]
pub struct Window {
    pub(crate) alloc: Global,
    pub(crate) unit: UnitId,
    pub(crate) pages: Pages,
    pub(crate) entries: Entries,
}

impl Model for Window {
    ghost use Rattle.std.specs.Prelude.{◌≡◌};
    ghost use Rattle.shared_window.specs.SharedWindow.{SharedWindowValue};

    ghost Value = { SharedWindowValue };

    ghost view = { λ window. record {
      unit = window.unit;
      pages = window.pages;
      entries = window.entries;
    } };

    ghost invariant = { λ window. record { size : window.entries.count ≡ window.pages.count } };
}

impl Window {
    /// Holds a range of 1 to 65,536 bytes for this right: pins its entries in rising order, then takes their
    /// pages in rising order, each once. Where it refuses, nothing stays held.
    pub(crate) fn hold_range(
        &self,
        seat: &mut WindowSeat,
        ioba: u64,
        len: u32,
        right: Right,
    ) -> Result<Held, HoldFault>
        requires at { IsSeatAt self.now seat.old }
        requires free { seat.old.entries.held_count ≡ 0 }
        requires len { (1 ≤ len) × (len ≤ MOST_BYTES) }
        ensures at { IsSeatAt self.now seat.new }
        ensures ok { IfOk result (HoldsRange self.now seat.old ioba len right seat.new) }
        ensures err { IfErr result (RefusesHold self.now seat.old ioba len right seat.new) }
        ensures within { SawWithin seat.old.pages → SawWithin seat.new.pages }
        ensures own { KeepsOwn seat.old.entries seat.new.entries }
    {
        let pieces = pin_range(
            &self.entries,
            &mut seat.entries,
            self.unit,
            ioba,
            len,
            right,
        )?;
        match take_pages(
            &self.pages,
            &mut seat.pages,
            &mut seat.region,
            pieces.as_slice(),
        ) {
            Ok(()) => {
                let placed = place_pieces(&seat.region, pieces.as_slice());
                let pages = seat.region.take(placed.as_slice());
                Ok(Held::of_pages(self.alloc, right, placed, pages))
            }
            Err(FoundInUse { page, word }) => {
                let first = (ioba / PAGE_BYTES) as u16;
                unpin_all(&self.entries, &mut seat.entries, first, pieces.len() as u16);
                seat.in_use = seat.in_use.saturating_add(1);
                Err(HoldFault::InUse { page, word })
            }
        }
    }

    /// Gives the range back that the last hold of this seat answered. None of its entries took a value since:
    /// the words that the releases read show it.
    pub(crate) fn give_range(&self, seat: &mut WindowSeat, held: Held)
        requires at { IsSeatAt self.now seat.old }
        requires out { IsOutWith self.now seat.old held }
        ensures at { IsSeatAt self.now seat.new }
        ensures gives { GivesRange self.now seat.old held seat.new }
        ensures kept { Releases seat.old.entries (length held.pieces) seat.new.entries }
        ensures within { SawWithin seat.old.pages → SawWithin seat.new.pages }
    {
        let pieces = unplaced_pieces(held.pieces());
        seat.region.put(held.into_pages());
        give_pages(
            &self.pages,
            &mut seat.pages,
            &mut seat.region,
            pieces.as_slice(),
        );
        if let Some(piece) = pieces.first() {
            unpin_all(
                &self.entries,
                &mut seat.entries,
                piece.entry,
                pieces.len() as u16,
            );
        }
    }

    /// Holds a range of 1 to 65,536 bytes for this right, if the guest holds nothing. Until it is given back its
    /// entries keep their values, and its pages are in the guest's hand. Where it refuses, nothing is held.
    pub fn hold(
        &self,
        guest: &mut Guest,
        ioba: u64,
        len: u32,
        right: Right,
    ) -> Result<Held, HoldFault>
        requires at { IsSeatAt self.now guest.old }
        requires free { guest.old.entries.held_count ≡ 0 }
        requires len { (1 ≤ len) × (len ≤ MOST_BYTES) }
        ensures at { IsSeatAt self.now guest.new }
        ensures ok { IfOk result (HoldsRange self.now guest.old ioba len right guest.new) }
        ensures err { IfErr result (RefusesHold self.now guest.old ioba len right guest.new) }
    {
        self.hold_range(&mut guest.seat, ioba, len, right)
    }

    /// Gives the range back that the guest's last hold answered: its entries may take values again, and its pages
    /// are in their places with all their strokes. None of its entries took a value since the hold.
    pub fn give_back(&self, guest: &mut Guest, held: Held)
        requires at { IsSeatAt self.now guest.old }
        requires out { IsOutWith self.now guest.old held }
        ensures at { IsSeatAt self.now guest.new }
        ensures gives { GivesRange self.now guest.old held guest.new }
        ensures kept { Releases guest.old.entries (length held.pieces) guest.new.entries }
    {
        self.give_range(&mut guest.seat, held);
    }
}
