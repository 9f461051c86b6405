// The seats of guests, apart, and the guests of them again.
ghost use Rattle.std.specs.Prelude.{◌≡◌, ◌≤◌, ◌+◌, [], IfOk, length, vec_capacity};
ghost use Rattle.shared_window.specs.Closing.{ArePartsOf};

use crate::guest::Guest;
use crate::seat::WindowSeat;
use entry_slots::EntrySeat;
use page_slots::PageSeat;
use std::alloc::Global;
use tce_window::Region;
use vio_num::NoMemory;

/// What a guest has beside its seats at pages and entries.
#[derive(Drop)]
pub(crate) struct SeatRest {
    pub(crate) region: Region,
    pub(crate) in_use: u64,
}

/// The seats of guests, apart, each list in the order of the guests.
#[derive(Drop)]
pub(crate) struct Parts {
    pub(crate) places: Vec<PageSeat>,
    pub(crate) holders: Vec<EntrySeat>,
    pub(crate) rests: Vec<SeatRest>,
}

impl Parts {
    /// Empty lists with room for the parts of this many guests, and for the owner's seat at pages.
    pub(crate) fn with_room(alloc: Global, guests: usize) -> Result<Parts, NoMemory>
        ensures empty { IfOk result (λ parts. ArePartsOf []
            parts.places.items parts.holders.items parts.rests.items) }
        ensures room { IfOk result (λ parts. (guests + 1 ≤ vec_capacity parts.places)
            × (guests ≤ vec_capacity parts.holders) × (guests ≤ vec_capacity parts.rests)) }
    {
        let Some(seats) = guests.checked_add(1) else {
            return Err(NoMemory);
        };
        Ok(Parts {
            places: Vec::with_capacity(alloc, seats)?,
            holders: Vec::with_capacity(alloc, guests)?,
            rests: Vec::with_capacity(alloc, guests)?,
        })
    }

    /// Takes the guests apart. Their list keeps its room.
    pub(crate) fn part(&mut self, guests: &mut Vec<Guest>)
        requires empty { ArePartsOf [] self.old.places.items self.old.holders.items
            self.old.rests.items }
        requires room { (length guests.old.items + 1 ≤ vec_capacity self.old.places)
            × (length guests.old.items ≤ vec_capacity self.old.holders)
            × (length guests.old.items ≤ vec_capacity self.old.rests) }
        ensures parts { ArePartsOf guests.old.items self.new.places.items
            self.new.holders.items self.new.rests.items }
        ensures room { length guests.old.items + 1 ≤ vec_capacity self.new.places }
        ensures none { guests.new.items ≡ [] }
        ensures kept { vec_capacity guests.new ≡ vec_capacity guests.old }
    {
        guests.reverse();
        while let Some(guest) = guests.pop() {
            let WindowSeat {
                pages,
                entries,
                region,
                in_use,
            } = guest.seat;
            self.places.push_reserved(pages);
            self.holders.push_reserved(entries);
            self.rests.push_reserved(SeatRest { region, in_use });
        }
    }

    /// Makes the guests of their parts again, in the list that had them.
    pub(crate) fn rejoin(self, guests: &mut Vec<Guest>)
        requires parts { (length self.places.items ≡ length self.rests.items)
            × (length self.holders.items ≡ length self.rests.items) }
        requires none { guests.old.items ≡ [] }
        requires room { length self.rests.items ≤ vec_capacity guests.old }
        ensures { ArePartsOf guests.new.items
            self.places.items self.holders.items self.rests.items }
    {
        let Parts {
            mut places,
            mut holders,
            mut rests,
        } = self;
        while let Some(SeatRest { region, in_use }) = rests.pop() {
            let (Some(pages), Some(entries)) = (places.pop(), holders.pop()) else {
                unreachable!()
            };
            guests.push_reserved(Guest {
                seat: WindowSeat {
                    pages,
                    entries,
                    region,
                    in_use,
                },
            });
        }
        guests.reverse();
    }
}
