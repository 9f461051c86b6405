// The values of a window's entries: every value that was put, and beside them the last of each entry.
ghost use Rattle.std.specs.Prelude.{◌≡◌, ◌+◌, ◌*◌, ◌/◌, ◌^◌, ◌<◌, ◌≤◌, [], ◌∷◌, ◌++◌, max, length, IsOk, IsErr, IsTrue, IfOk, OnOk, OnErr};
ghost use Rattle.tce_window.specs.Answers.{gives};
ghost use Rattle.tce_window.specs.Grant.{values_of, has_right, IsCurrent, AreNumbered};
ghost use Rattle.tce_window.specs.Puts.{takes, takes_each, takes_all};

use crate::answers::{GetTce, TceRow};
use std::alloc::Global;
use std::marker::Model;
use vio_num::{NoMemory, PAGE_BYTES};

/// As many values as one call puts.
pub(crate) const MOST_PUTS: usize = 512;

/// A window takes fewer values than this.
const VALUES: usize = 1 << 31;

/// The last value of an entry.
#[derive(Clone, Copy, Debug)]
pub struct Current {
    pub version: u32,
    pub value: u64,
}

/// The values of all entries. Contracts see the number of entries, the values put, and the number of
/// values for which there is room.
#[derive(Debug, Drop)]
pub struct TceTable {
    current: Vec<Current>,
    rows: Vec<TceRow>,
    spare: u32,
}

impl Model for TceTable {
    ghost use Rattle.std.specs.Prelude.{◌+◌, ◌^◌, ◌<◌, ◌≤◌, vec_capacity, vec_len};
    ghost use Rattle.tce_window.specs.Table.{TableValue};
    ghost use Rattle.tce_window.specs.Kept.{KeepsValues};

    ghost Value = { TableValue };

    ghost view = { λ table. record { size = vec_len table.current; rows = table.rows.items; spare = table.spare } };

    ghost invariant = { λ table. record {
      kept : KeepsValues table.current.items table.rows.items;
      sized : (1 ≤ vec_len table.current) × (vec_len table.current ≤ 256);
      room : vec_len table.rows + table.spare ≤ vec_capacity table.rows;
      few : vec_len table.rows + table.spare < 2 ^ 31;
    } };
}

impl TceTable {
    /// A table in which entry i has the value `i * PAGE_BYTES + 3`.
    pub fn open(alloc: Global, entries: u16) -> Result<TceTable, NoMemory>
        requires { (1 ≤ entries) × (entries ≤ 256) }
        ensures { IfOk result (λ table. table ≡ record { size = entries; rows = []; spare = 0 }) }
    {
        let mut current = Vec::with_capacity(alloc, entries as usize)?;
        for entry in 0..entries {
            current.push_reserved(first_of(entry));
        }
        Ok(TceTable {
            current,
            rows: Vec::new(alloc),
            spare: 0,
        })
    }

    /// Makes room for at least this many values. A table has fewer than 2^31 values with those it has room
    /// for; one that would pass that is out of memory. The table is then as before.
    pub fn reserve(&mut self, puts: u32) -> Result<(), NoMemory>
        ensures rows { self.new.rows ≡ self.old.rows }
        ensures size { self.new.size ≡ self.old.size }
        ensures ok { OnOk result (self.new.spare ≡ max self.old.spare puts) }
        ensures err { OnErr result (self.new ≡ self.old) }
    {
        if puts <= self.spare {
            return Ok(());
        }
        if self.rows.len() + puts as usize >= VALUES {
            return Err(NoMemory);
        }
        self.rows.reserve(puts as usize)?;
        self.spare = puts;
        Ok(())
    }

    /// Puts the value into the entry, as its next version.
    pub fn put(&mut self, entry: usize, tce: u64)
        requires entry { entry < self.old.size }
        requires spare { 1 ≤ self.old.spare }
        requires page { IsTrue (has_right tce) → tce / PAGE_BYTES < self.old.size }
        ensures rows { self.new.rows ≡ self.old.rows ++ record
            { entry = entry; version = length (values_of self.old.rows entry); value = tce } ∷ [] }
        ensures size { self.new.size ≡ self.old.size }
        ensures spare { self.new.spare + 1 ≡ self.old.spare }
    {
        let version = self.current[entry].version + 1;
        self.current[entry] = Current {
            version,
            value: tce,
        };
        self.rows.push_reserved(TceRow {
            entry: entry as u16,
            version,
            value: tce,
        });
        self.spare -= 1;
    }

    /// The last value of the entry.
    pub fn current(&self, entry: usize) -> Current
        requires { entry < self.now.size }
        ensures current { IsCurrent (values_of self.now.rows) entry result.version result.value }
        ensures page { IsTrue (has_right result.value) → result.value / PAGE_BYTES < self.now.size }
        ensures few { length self.now.rows + self.now.spare < 2 ^ 31 }
    {
        self.current[entry]
    }

    /// The value of the entry of this address.
    pub fn get(&self, ioba: u64) -> GetTce
        ensures { gives self.now.size (values_of self.now.rows) ioba result }
    {
        let entry = ioba / PAGE_BYTES;
        if ioba % PAGE_BYTES != 0 || entry >= self.size() as u64 {
            return GetTce::Parameter;
        }
        GetTce::Value(self.current(entry as usize).value)
    }

    /// Whether the values may be put into consecutive entries from this address on: they are at most 512, and
    /// each is put at the address of an entry and grants nothing or a page of the window.
    pub fn takes_all(&self, ioba: u64, list: &[u64]) -> bool
        ensures { result ≡ takes_all self.now.size ioba list.now }
    {
        list.len() <= MOST_PUTS && self.takes_each(ioba, list)
    }

    // Tells whether each of the values may be put, from this address on.
    fn takes_each(&self, ioba: u64, list: &[u64]) -> bool
        ensures { result ≡ takes_each self.now.size ioba list.now }
    {
        let mut at = ioba;
        for tce in list {
            if !self.takes(at, *tce) {
                return false;
            }
            at += PAGE_BYTES;
        }
        true
    }

    // Tells whether the value may be put at this address.
    fn takes(&self, ioba: u64, tce: u64) -> bool
        ensures takes { result ≡ takes self.now.size ioba tce }
        ensures near { IsTrue result → ioba < 2 ^ 20 }
    {
        let pages = self.size() as u64;
        ioba % PAGE_BYTES == 0
            && ioba / PAGE_BYTES < pages
            && (tce % 4 == 0 || tce / PAGE_BYTES < pages)
    }

    /// The number of entries, 1 to 256.
    pub fn size(&self) -> usize
        ensures size { result ≡ self.now.size }
        ensures least { 1 ≤ result }
        ensures most { result ≤ 256 }
    {
        self.current.len()
    }

    /// Every value that was put, in order of time.
    pub fn rows(&self) -> &[TceRow]
        ensures rows { result.now ≡ self.now.rows }
        ensures numbered { AreNumbered self.now.size [] self.now.rows }
    {
        self.rows.as_slice()
    }
}

// Gives what an entry holds at the start: the page of its own number, with both rights.
fn first_of(entry: u16) -> Current
    requires { entry < 256 }
    ensures version { result.version ≡ 0 }
    ensures value { result.value ≡ PAGE_BYTES * entry + 3 }
{
    Current {
        version: 0,
        value: u64::from(entry) * PAGE_BYTES + 3,
    }
}
