// The values of a shared window that its owner puts and gets (LoPAR, "H_PUT_TCE", "H_STUFF_TCE",
// "H_PUT_TCE_INDIRECT", "H_GET_TCE"). An entry with pins keeps its value.
ghost use Rattle.std.specs.Prelude.{◌≡◌, ◌*◌, ◌/◌, ◌<◌, ◌≤◌, [], ◌∷◌, IsTrue, OnOk, OnErr, length, max, replicate};
ghost use Rattle.vio_num.specs.declared.TheConstants.{PAGE_BYTES};
ghost use Rattle.tce_window.specs.Answers.{gives, times_in_use};
ghost use Rattle.tce_window.specs.Grant.{has_right, values_of};
ghost use Rattle.tce_window.specs.Puts.{takes_each};
ghost use Rattle.entry_slots.specs.Outcomes.{IfDone, IfRefused};
ghost use Rattle.shared_window.specs.Opening.{IsOwnerAt};
ghost use Rattle.shared_window.specs.Putting.{IsTableOf, PutsValue, MeetsWord, PutsEach, PutsList};

use crate::owner::Owner;
use crate::window::Window;
use entry_slots::{Entries, EntrySeat, Put};
use tce_window::{GetTce, TceAnswer, TceRow, TceTable};
use vio_num::{NoMemory, PAGE_BYTES};

/// As many values as one call puts.
const MOST_PUTS: usize = 512;

impl Window {
    /// The number of pages, 1 to 256.
    pub fn pages(&self, owner: &Owner) -> u16
        requires at { IsOwnerAt self.now owner.now }
        ensures pages { result ≡ self.now.pages.count }
        ensures least { 1 ≤ result }
        ensures most { result ≤ 256 }
    {
        owner.table.size() as u16
    }

    /// Makes room for at least this many values. Those put and those for which there is room stay below
    /// 2^31; an owner that would pass that is out of memory. It is then as before.
    pub fn reserve(&self, owner: &mut Owner, puts: u32) -> Result<(), NoMemory>
        requires at { IsOwnerAt self.now owner.old }
        ensures at { IsOwnerAt self.now owner.new }
        ensures ok { OnOk result
            (owner.new ≡ record owner.old { spare = max owner.old.spare puts }) }
        ensures err { OnErr result (owner.new ≡ owner.old) }
    {
        owner.table.reserve(puts)
    }

    /// Puts the value into the entry of this address, as its next version, if the entry has no pins. It needs
    /// room for one value.
    pub fn put_tce(&self, owner: &mut Owner, ioba: u64, tce: u64) -> TceAnswer
        requires at { IsOwnerAt self.now owner.old }
        requires spare { 1 ≤ owner.old.spare }
        ensures at { IsOwnerAt self.now owner.new }
        ensures puts { PutsList self.now owner.old ioba (tce ∷ []) result owner.new }
    {
        self.put_tce_indirect(owner, ioba, &[tce])
    }

    /// Puts one value into `count` entries from this address on, up to the first one with pins. It needs room
    /// for them, if they are 512 at most.
    pub fn stuff_tce(&self, owner: &mut Owner, ioba: u64, tce: u64, count: u64) -> TceAnswer
        requires at { IsOwnerAt self.now owner.old }
        requires spare { count ≤ 512 → count ≤ owner.old.spare }
        ensures at { IsOwnerAt self.now owner.new }
        ensures puts { PutsList self.now owner.old ioba (replicate count tce) result owner.new }
    {
        if count > MOST_PUTS as u64 {
            return TceAnswer::Parameter;
        }
        let list = [tce; MOST_PUTS];
        self.put_tce_indirect(owner, ioba, &list[..count as usize])
    }

    /// Puts a list of values into consecutive entries from this address on, up to the first one with pins. It
    /// needs room for them, if they are 512 at most.
    pub fn put_tce_indirect(&self, owner: &mut Owner, ioba: u64, list: &[u64]) -> TceAnswer
        requires at { IsOwnerAt self.now owner.old }
        requires spare { length list.now ≤ 512 → length list.now ≤ owner.old.spare }
        ensures at { IsOwnerAt self.now owner.new }
        ensures puts { PutsList self.now owner.old ioba list.now result owner.new }
    {
        if !owner.table.takes_all(ioba, list) {
            return TceAnswer::Parameter;
        }
        if list.is_empty() {
            return TceAnswer::Done;
        }
        let first = (ioba / PAGE_BYTES) as usize;
        let Owner { seat, table } = owner;
        let answer = put_each(&self.entries, &mut seat.entries, table, first, list);
        seat.in_use = in_use_after(&answer, seat.in_use);
        answer
    }

    /// The value of the entry of this address.
    pub fn get_tce(&self, owner: &Owner, ioba: u64) -> GetTce
        requires at { IsOwnerAt self.now owner.now }
        ensures { gives self.now.pages.count (values_of owner.now.seat.entries.rows) ioba result }
    {
        owner.table.get(ioba)
    }
}

// Counts an answer that names an entry with pins.
fn in_use_after(answer: &TceAnswer, in_use: u64) -> u64
    ensures { result ≡ times_in_use answer.now in_use }
{
    match answer {
        TceAnswer::Busy { .. } => in_use.saturating_add(1),
        _ => in_use,
    }
}

// Puts good values into the entries from `first` on, up to the first one with pins.
fn put_each(
    entries: &Entries,
    seat: &mut EntrySeat,
    table: &mut TceTable,
    first: usize,
    list: &[u64],
) -> TceAnswer
    requires table { IsTableOf entries.now seat.old table.old }
    requires good { IsTrue (takes_each entries.now.count (first * PAGE_BYTES) list.now) }
    requires spare { length list.now ≤ table.old.spare }
    requires few { length list.now ≤ 512 }
    ensures { PutsEach seat.old table.old first list.now result seat.new table.new }
{
    let _few = entries.count();
    for (done, tce) in list.iter().enumerate() {
        let entry = (first + done) as u16;
        if let Put::Refused(word) = put_value(entries, seat, table, entry, *tce) {
            return TceAnswer::Busy {
                entry,
                pins: word.pins(),
                done: done as u32,
            };
        }
    }
    TceAnswer::Done
}

// Puts the value into the entry, unless it has pins.
fn put_value(
    entries: &Entries,
    seat: &mut EntrySeat,
    table: &mut TceTable,
    entry: u16,
    tce: u64,
) -> Put
    requires table { IsTableOf entries.now seat.old table.old }
    requires entry { entry < entries.now.count }
    requires spare { 1 ≤ table.old.spare }
    requires page { IsTrue (has_right tce) → tce / PAGE_BYTES < entries.now.count }
    ensures done { IfDone result (PutsValue seat.old table.old entry tce seat.new table.new) }
    ensures refused { IfRefused result (λ word. MeetsWord seat.old entry word.bits seat.new) }
    ensures same { IfRefused result (λ _. table.new ≡ table.old) }
{
    let _size = table.size();
    let last = table.current(entry as usize);
    let row = TceRow {
        entry,
        version: last.version + 1,
        value: tce,
    };
    let put = entries.put(seat, last.value, row);
    if let Put::Done = put {
        table.put(entry as usize, tce);
    }
    put
}
