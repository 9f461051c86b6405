// Pages that several threads share: each stands in a slot of its own, or is in the hand of one seat. No call
// takes a lock.
ghost use Rattle.std.specs.Prelude.{◌≡◌, ℕ, ◌<◌, ◌≤◌, true, [], length, vec_capacity, IfOk, IfErr};
ghost use Rattle.std.specs.List.{All};
ghost use Rattle.page_slots.specs.PageRule.{IsUnused, blank_slots};
ghost use Rattle.vio_num.specs.Words.{Begins};
ghost use Rattle.page_slots.specs.Seats.{saw, holds};
ghost use Rattle.page_slots.specs.Turns.{OpensPages, IsFresh, TakesPage, FindsTaken, IfTaken, IfInUse, OnlyTakesTurn};
ghost use Rattle.page_slots.specs.Turns.{GivesPage, AreAll, ClosesPages};
ghost use Rattle.std.specs.Mem.Slots.{slots_items, slots_len, IsFull};
ghost use Rattle.page_slots.specs.Page.{PageValue};
ghost use Rattle.page_slots.specs.PageClosing.{StandsForAll, HasPage, ArePages};

use crate::page::Page;
use crate::seat::PageSeat;
use crate::steps::{JoinSeat, PageRule, PartSeat, ReachSlot, ReturnTurn, TakeTurn};
use crate::view::{PageView, PagesKey};
use atomic_table::{Closed, Seat, Table};
use std::alloc::Global;
use std::marker::Model;
use vio_num::NoMemory;

/// The bit of a turn word that says that the page is taken.
const TAKEN: u64 = 1;

/// Pages that several threads share, each with its turn word.
#[derive(Drop)]
pub struct Pages {
    table: Table<Option<Page>, PageView, PagesKey, PageRule, Global>,
    count: u16,
    seats: u16,
    alloc: Global,
}

impl Model for Pages {
    ghost use Rattle.std.specs.Prelude.{◌≡◌, ◌<◌, ◌≤◌};
    ghost use Rattle.page_slots.specs.Seats.{PagesValue};

    ghost Value = { PagesValue };

    ghost view = { λ pages. record {
      id = pages.table.shared.table_id;
      count = pages.count;
      seats = pages.seats;
    } };

    ghost invariant = { λ pages. record {
      some : 0 < pages.count;
      few : pages.count ≤ 256;
      seated : 0 < pages.seats;
      words : pages.table.shared.table_id.words ≡ pages.count;
      slots : pages.table.shared.table_id.slots ≡ pages.count;
      key : pages.table.shared.key ≡ record { pages = pages.count; seats = pages.seats };
    } };
}

/// New pages with all their seats.
#[derive(Drop)]
pub struct OpenedPages {
    pub pages: Pages,
    pub seats: Vec<PageSeat>,
}

/// There was no memory to close the pages. They and their seats are as before.
#[derive(Drop)]
pub struct PagesBack {
    pub pages: Pages,
    pub seats: Vec<PageSeat>,
}

/// How a take ended.
#[derive(Debug, Drop)]
pub enum Take {
    Taken(Page),
    /// The turn word that was read shows the page taken.
    InUse { word: u64 },
}

impl Pages {
    /// 1 to 256 pages of zeros, with no stroke and none spare, and the seats at them.
    pub fn open(alloc: Global, count: u16, seats: u16) -> Result<OpenedPages, NoMemory>
        requires { (1 ≤ count) × (count ≤ 256) × (1 ≤ seats) }
        ensures { IfOk result (λ opened. OpensPages count seats opened.pages opened.seats.items) }
    {
        let slots = zero_pages(alloc, count)?;
        let words = vec![in alloc; 0u64; count as usize]?;
        let key = PagesKey {
            pages: count as usize,
            seats: seats as usize,
        };
        let mut list = Vec::with_capacity(alloc, seats as usize)?;
        let Ok((table, first)) = Table::new(alloc, words.as_slice(), slots, &key) else {
            return Err(NoMemory);
        };
        let pages = Pages {
            table,
            count,
            seats,
            alloc,
        };
        pages.part_seats(first, &mut list);
        Ok(OpenedPages { pages, seats: list })
    }

    // Parts the first seat into all that it stands for.
    fn part_seats(&self, mut first: Seat<Option<Page>, PageView>, list: &mut Vec<PageSeat>)
        requires unused { IsUnused self.now.id self.now.count self.now.seats first }
        requires none { list.old.items ≡ [] }
        requires room { self.now.seats ≤ vec_capacity list.old }
        ensures all { length list.new.items ≡ self.now.seats }
        ensures fresh { All (IsFresh self.now) list.new.items }
    {
        let mut left = self.seats;
        while left > 1 {
            let seat = self.table.shared.split_seat::<PartSeat>(&mut first);
            list.push_reserved(PageSeat { seat });
            left -= 1;
        }
        list.push_reserved(PageSeat { seat: first });
    }

    /// How many pages there are.
    pub fn count(&self) -> u16
        ensures { result ≡ self.now.count }
    {
        self.count
    }

    /// Takes the page, from 0, into the hand of the seat. It takes no memory.
    pub fn take(&self, seat: &mut PageSeat, page: u16) -> Take
        requires ours { seat.old.pages ≡ self.now.id }
        requires within { page < self.now.count }
        ensures taken { IfTaken result (λ value. TakesPage seat.old page value seat.new) }
        ensures in_use { IfInUse result (λ word. FindsTaken seat.old word seat.new) }
        ensures rest { OnlyTakesTurn seat.old seat.new }
    {
        let shared = &self.table.shared;
        let at = page as usize;
        let word = shared.fetch_or::<TakeTurn>(&mut seat.seat, at, TAKEN);
        if word != 0 {
            return Take::InUse { word };
        }
        let Some(value) = shared.exchange(&mut seat.seat, at, None) else {
            unreachable!()
        };
        Take::Taken(value)
    }

    /// Gives back a page that is in the hand of the seat, which may have laid more strokes on it. It takes no
    /// memory.
    pub fn give(&self, seat: &mut PageSeat, page: u16, value: Page)
        requires ours { seat.old.pages ≡ self.now.id }
        requires within { page < self.now.count }
        requires held { holds seat.old page ≡ true }
        requires continues { Begins (saw seat.old page) value.strokes }
        ensures { GivesPage seat.old page value.strokes seat.new }
    {
        let shared = &self.table.shared;
        let at = page as usize;
        shared.load::<ReachSlot>(&mut seat.seat, at);
        let None = shared.exchange(&mut seat.seat, at, Some(value)) else {
            unreachable!()
        };
        shared.fetch_and::<ReturnTurn>(&mut seat.seat, at, !TAKEN);
    }

    /// Ends the sharing: the pages of all that their seats laid. Where there is no memory the pages and the
    /// seats come back as they were.
    pub fn close(self, seats: Vec<PageSeat>) -> Result<Vec<Page>, PagesBack>
        requires { AreAll self seats.items }
        ensures ok { IfOk result (λ list. ClosesPages self seats.items list.items) }
        ensures back { IfErr result
            (λ back. (back.pages ≡ self) × (back.seats.items ≡ seats.items)) }
    {
        let Ok(list) = Vec::with_capacity(self.alloc, self.count as usize) else {
            return Err(PagesBack { pages: self, seats });
        };
        let seat = self.join_all(seats);
        let Pages {
            table,
            count,
            seats: _,
            alloc: _,
        } = self;
        Ok(pages_of(table.close_with(seat), count, list))
    }

    // Joins all the seats into one.
    fn join_all(&self, mut seats: Vec<PageSeat>) -> Seat<Option<Page>, PageView>
        requires all { AreAll self.now seats.items }
        requires some { 0 < length seats.items }
        ensures { StandsForAll self.now seats.items result }
    {
        let Some(last) = seats.pop() else {
            unreachable!()
        };
        let PageSeat { mut seat } = last;
        while let Some(other) = seats.pop() {
            self.table
                .shared
                .join_seat::<JoinSeat>(&mut seat, other.seat);
        }
        seat
    }
}

// Takes the pages out of the slots of a closed table.
fn pages_of(mut closed: Closed<Option<Page>, Global>, count: u16, mut list: Vec<Page>) -> Vec<Page>
    requires counts { slots_len closed.slots ≡ count }
    requires full { IsFull closed.slots }
    requires there { (k : ℕ) → k < count
        → (page : PageValue) × HasPage (slots_items closed.slots) k page }
    requires room { (list.items ≡ []) × (count ≤ vec_capacity list) }
    ensures all { length result.items ≡ count }
    ensures pages { ArePages (slots_items closed.slots) count result.items }
{
    let mut k = 0;
    while k < count {
        let Some(page) = closed.take(k as usize) else {
            unreachable!()
        };
        list.push_reserved(page);
        k += 1;
    }
    closed.free();
    list
}

// Makes pages of zeros, each for a slot.
fn zero_pages(alloc: Global, count: u16) -> Result<Vec<Option<Page>>, NoMemory>
    ensures { IfOk result (λ slots. slots.items ≡ blank_slots count) }
{
    let mut slots = Vec::with_capacity(alloc, count as usize)?;
    let mut k = 0;
    while k < count {
        slots.push_reserved(Some(Page::zero(alloc)?));
        k += 1;
    }
    Ok(slots)
}
