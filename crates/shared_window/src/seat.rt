// What one holder of a shared window has: a seat at its pages, a seat at its entries, and a hand for pages.
ghost use Rattle.std.specs.Prelude.{◌≡◌};

use entry_slots::EntrySeat;
use page_slots::PageSeat;
use std::marker::Model;
use tce_window::Region;

/// A seat at a shared window. The region has places for the pages that are in its hand during a call. It counts
/// how often it read a page or an entry in use.
#[derive(Drop)]
pub(crate) struct WindowSeat {
    pub(crate) pages: PageSeat,
    pub(crate) entries: EntrySeat,
    pub(crate) region: Region,
    pub(crate) in_use: u64,
}

impl Model for WindowSeat {
    ghost use Rattle.shared_window.specs.SharedWindow.{WindowSeatValue};

    ghost Value = { WindowSeatValue };

    ghost view = { λ seat. record {
      pages = seat.pages;
      entries = seat.entries;
      region = seat.region;
      in_use = seat.in_use;
    } };
}
