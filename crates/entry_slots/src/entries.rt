// The entries of a window that several threads share, each a word: its pins, its version, and what its
// value grants (LoPAR, "Translation Control Entry"). No call takes a lock.
ghost use Rattle.std.specs.Prelude.{◌≡◌, ◌+◌, ◌*◌, ◌/◌, ◌^◌, IsTrue, ◌<◌, ◌≤◌, true, [], All, length, vec_capacity, IfOk};
ghost use Rattle.vio_num.specs.declared.TheConstants.{PAGE_BYTES};
ghost use Rattle.entry_slots.specs.EntryCuts.{AreFirst, IsUnopened, OpensEntries, AreGuests, StandsFor};
ghost use Rattle.entry_slots.specs.Words.{code_of, entry_word, told_in, HasRoom};
ghost use Rattle.tce_window.specs.Grant.{has_right};
ghost use Rattle.entry_slots.specs.Outcomes.{IfDone, IfRefused};
ghost use Rattle.vio_num.specs.Words.{Begins};
ghost use Rattle.entry_slots.specs.Entries.{IsFreshAt, IsNext, PinsEntry, Releases, PutsRow, RefusesRow};

use crate::put::Put;
use crate::seat::EntrySeat;
use crate::steps::{EntryRule, JoinEntrySeat, PartEntrySeat, Pin, PutValue, Unpin};
use crate::view::{EntriesKey, EntryView};
use crate::word::EntryWord;
use atomic_table::{Seat, Table};
use std::alloc::Global;
use std::marker::Model;
use tce_window::TceRow;
use vio_num::{NoMemory, PAGE_BYTES};

/// Entries that several threads share.
#[derive(Drop)]
pub struct Entries {
    table: Table<TceRow, EntryView, EntriesKey, EntryRule, Global>,
    count: u16,
    seats: u32,
}

impl Model for Entries {
    ghost use Rattle.std.specs.Prelude.{◌≡◌, ◌<◌, ◌≤◌};
    ghost use Rattle.entry_slots.specs.Entries.{EntriesValue};

    ghost Value = { EntriesValue };

    ghost view = { λ entries. record {
      id = entries.table.shared.table_id;
      count = entries.count;
      seats = entries.seats;
    } };

    ghost invariant = { λ entries. record {
      some : 0 < entries.count;
      few : entries.count ≤ 256;
      seated : 0 < entries.seats;
      words : entries.table.shared.table_id.words ≡ entries.count;
      slots : entries.table.shared.table_id.slots ≡ 0;
      key : entries.table.shared.key ≡ record { entries = entries.count; seats = entries.seats };
    } };
}

/// New entries with the owner's seat and the guests'.
#[derive(Drop)]
pub struct OpenedEntries {
    pub entries: Entries,
    pub owner: EntrySeat,
    pub guests: Vec<EntrySeat>,
}

impl Entries {
    /// 1 to 256 entries, in which entry i has the value `i * 4096 + 3` and no pins, with the owner's seat and
    /// this many for guests.
    pub fn open(alloc: Global, count: u16, guests: u16) -> Result<OpenedEntries, NoMemory>
        requires { (1 ≤ count) × (count ≤ 256) }
        ensures { IfOk result (λ opened. OpensEntries count guests
            opened.entries opened.owner opened.guests.items) }
    {
        let words = first_words(alloc, count)?;
        let mut list = Vec::with_capacity(alloc, guests as usize)?;
        let seats = u32::from(guests) + 1;
        let key = EntriesKey {
            entries: count as usize,
            seats: seats as usize,
        };
        let Ok((table, first)) = Table::of_words(alloc, words.as_slice(), &key) else {
            return Err(NoMemory);
        };
        let entries = Entries {
            table,
            count,
            seats,
        };
        let owner = entries.part_guests(first, guests, &mut list);
        Ok(OpenedEntries {
            entries,
            owner,
            guests: list,
        })
    }

    // Parts the guests' seats from the first one, which is then the owner's.
    fn part_guests(
        &self,
        mut first: Seat<TceRow, EntryView>,
        guests: u16,
        list: &mut Vec<EntrySeat>,
    ) -> EntrySeat
        requires seats { self.now.seats ≡ guests + 1 }
        requires unopened { IsUnopened self.now.id self.now.count (guests + 1) first }
        requires none { list.old.items ≡ [] }
        requires room { guests ≤ vec_capacity list.old }
        ensures all { length list.new.items ≡ guests }
        ensures fresh { All (IsFreshAt self.now) list.new.items }
        ensures owner { IsFreshAt self.now result }
        ensures owns { result.owns ≡ true }
    {
        let mut left = guests;
        while left > 0 {
            let seat = self.table.shared.split_seat::<PartEntrySeat>(&mut first);
            list.push_reserved(EntrySeat { seat });
            left -= 1;
        }
        EntrySeat { seat: first }
    }

    /// Ends the sharing. What any guest knew of the values is a front of what the owner put.
    pub fn close(self, owner: EntrySeat, guests: Vec<EntrySeat>)
        requires owner { (owner.entries ≡ self.id) × (owner.owns ≡ true) }
        requires guests { AreGuests self guests.items }
        ensures { All (λ seat. Begins seat.rows owner.rows) guests.items }
    {
        let seat = self.join_guests(owner, guests);
        let Entries {
            table,
            count: _,
            seats: _,
        } = self;
        table.close_with(seat).free();
    }

    // Joins the guests' seats to the owner's.
    fn join_guests(&self, owner: EntrySeat, mut guests: Vec<EntrySeat>) -> Seat<TceRow, EntryView>
        requires owner { owner.entries ≡ self.now.id }
        requires guests { AreGuests self.now guests.items }
        ensures { StandsFor self.now owner guests.items result }
    {
        let EntrySeat { mut seat } = owner;
        while let Some(other) = guests.pop() {
            self.table
                .shared
                .join_seat::<JoinEntrySeat>(&mut seat, other.seat);
        }
        seat
    }

    /// How many entries there are.
    pub fn count(&self) -> u16
        ensures { result ≡ self.now.count }
    {
        self.count
    }

    /// Pins the entry, behind those that the seat holds, and gives the word that was read. It takes no
    /// memory.
    pub fn pin(&self, seat: &mut EntrySeat, entry: u16) -> EntryWord
        requires ours { seat.old.entries ≡ self.now.id }
        requires within { entry < self.now.count }
        requires next { IsNext seat.old entry }
        ensures pins { PinsEntry seat.old entry result.bits seat.new }
        ensures page { IsTrue (has_right (told_in result.bits))
            → told_in result.bits / PAGE_BYTES < self.now.count }
    {
        let shared = &self.table.shared;
        let bits = shared.fetch_add::<Pin>(&mut seat.seat, entry as usize, 1);
        EntryWord { bits }
    }

    /// Releases this entry, the first that the seat holds, and gives the word that was read. It takes no
    /// memory.
    pub fn unpin(&self, seat: &mut EntrySeat, entry: u16) -> EntryWord
        requires ours { seat.old.entries ≡ self.now.id }
        requires within { entry < self.now.count }
        requires first { (seat.old.held_from ≡ entry) × (0 < seat.old.held_count) }
        ensures { Releases seat.old result.bits seat.new }
    {
        let shared = &self.table.shared;
        let bits = shared.fetch_sub::<Unpin>(&mut seat.seat, entry as usize, 1);
        EntryWord { bits }
    }

    /// Puts the row, if no seat holds its entry, whose last value is `last` of the version before. It takes
    /// no memory.
    pub fn put(&self, seat: &mut EntrySeat, last: u64, row: TceRow) -> Put
        requires owner { (seat.old.entries ≡ self.now.id) × (seat.old.owns ≡ true) }
        requires within { row.entry < self.now.count }
        requires version { (1 ≤ row.version) × (row.version < 2 ^ 31) }
        requires last { HasRoom last }
        requires page { IsTrue (has_right row.value) → row.value / PAGE_BYTES < self.now.count }
        ensures done { IfDone result (PutsRow seat.old row seat.new) }
        ensures refused { IfRefused result (λ word.
            RefusesRow seat.old last row word.bits seat.new) }
    {
        let shared = &self.table.shared;
        let entry = row.entry as usize;
        let before = word_of(last, row.version - 1);
        let after = word_of(row.value, row.version);
        let bits = shared.compare_exchange_with::<PutValue>(
            &mut seat.seat,
            entry,
            before,
            after,
            &row,
        );
        if bits == before {
            return Put::Done;
        }
        Put::Refused(EntryWord { bits })
    }
}

// Makes the words of entries as at the start.
fn first_words(alloc: Global, count: u16) -> Result<Vec<u64>, NoMemory>
    requires { count ≤ 256 }
    ensures { IfOk result (λ words. AreFirst count words.items) }
{
    let mut words = Vec::with_capacity(alloc, count as usize)?;
    let mut entry = 0;
    while entry < count {
        words.push_reserved(word_of(u64::from(entry) * PAGE_BYTES + 3, 0));
        entry += 1;
    }
    Ok(words)
}

// Makes the word of an entry without pins.
fn word_of(value: u64, version: u32) -> u64
    requires page { HasRoom value }
    requires few { version < 2 ^ 31 }
    ensures { result ≡ entry_word 0 (code_of value) version }
{
    (code(value) + 1024 * u64::from(version)) * 131_072
}

// What a word says of a value: its page and its rights, or 0 where it has no right.
fn code(value: u64) -> u64
    ensures { result ≡ code_of value }
{
    if value % 4 != 0 {
        value / PAGE_BYTES * 4 + value % 4
    } else {
        0
    }
}
