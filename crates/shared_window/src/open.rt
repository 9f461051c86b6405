// How a shared window is opened: its pages and entries, with the owner's seats and the guests'.
ghost use Rattle.std.specs.Prelude.{◌≡◌, ◌+◌, ◌≤◌, [], All, None, length, replicate, IfOk};
ghost use Rattle.page_slots.specs.Turns.{IsFresh};
ghost use Rattle.entry_slots.specs.Entries.{IsFreshAt};
ghost use Rattle.shared_window.specs.Opening.{IsNewSeat, OpensWindow};

use crate::guest::Guest;
use crate::owner::Owner;
use crate::seat::WindowSeat;
use crate::window::Window;
use entry_slots::{Entries, EntrySeat, OpenedEntries};
use page_slots::{OpenedPages, PageSeat, Pages};
use std::alloc::Global;
use tce_window::{Region, TceTable};
use vio_num::{NoMemory, UnitId};

/// A new window with the seats of its owner and of its guests.
#[derive(Drop)]
pub struct Opened {
    pub window: Window,
    pub owner: Owner,
    pub guests: Vec<Guest>,
}

// A new seat, with places for the pages of a window of so many.
fn new_seat(
    alloc: Global,
    count: u16,
    pages: PageSeat,
    entries: EntrySeat,
) -> Result<WindowSeat, NoMemory>
    requires { (1 ≤ count) × (count ≤ 256) }
    ensures { IfOk result (λ seat. seat ≡ record
        { pages = pages; entries = entries; region = replicate count None; in_use = 0 }) }
{
    let region = Region::empty(alloc, count)?;
    Ok(WindowSeat {
        pages,
        entries,
        region,
        in_use: 0,
    })
}

impl Window {
    /// A window of 1 to 256 pages of zeros, in which entry i has the value `i * 4096 + 3`, with its owner and
    /// this many guests. No seat has made a call. For 65,535 guests there is no room.
    pub fn open(alloc: Global, unit: UnitId, pages: u16, guests: u16) -> Result<Opened, NoMemory>
        requires { (1 ≤ pages) × (pages ≤ 256) }
        ensures { IfOk result (λ opened. OpensWindow unit pages guests
            opened.window opened.owner opened.guests.items) }
    {
        let Some(seats) = guests.checked_add(1) else {
            return Err(NoMemory);
        };
        let OpenedPages {
            pages: shared,
            seats: mut places,
        } = Pages::open(alloc, pages, seats)?;
        let OpenedEntries {
            entries,
            owner,
            guests: holders,
        } = Entries::open(alloc, pages, guests)?;
        let window = Window {
            alloc,
            unit,
            pages: shared,
            entries,
        };
        let Some(place) = places.pop() else {
            unreachable!()
        };
        let owner = Owner {
            seat: new_seat(alloc, pages, place, owner)?,
            table: TceTable::open(alloc, pages)?,
        };
        let guests = window.guests_of(alloc, pages, places, holders)?;
        Ok(Opened {
            window,
            owner,
            guests,
        })
    }

    // Makes a guest of each pair of seats.
    fn guests_of(
        &self,
        alloc: Global,
        count: u16,
        mut places: Vec<PageSeat>,
        mut holders: Vec<EntrySeat>,
    ) -> Result<Vec<Guest>, NoMemory>
        requires size { (1 ≤ count) × (count ≤ 256) × (self.now.pages.count ≡ count) }
        requires places { All (IsFresh self.now.pages) places.items }
        requires holders { All (IsFreshAt self.now.entries) holders.items }
        requires pairs { length places.items ≡ length holders.items }
        ensures { IfOk result (λ list. (length list.items ≡ length holders.items)
            × All (IsNewSeat self.now) list.items) }
    {
        let mut guests = Vec::with_capacity(alloc, holders.len())?;
        while let Some(holder) = holders.pop() {
            let Some(place) = places.pop() else {
                unreachable!()
            };
            guests.push_reserved(Guest {
                seat: new_seat(alloc, count, place, holder)?,
            });
        }
        Ok(guests)
    }
}
