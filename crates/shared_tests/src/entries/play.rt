// Entries of an owner and two guests: a script of pins, releases and puts, and what each of them shows.
ghost use Rattle.std.specs.Prelude.{◌≡◌, true};
ghost use Rattle.entry_slots.specs.Entries.{HoldsRange};

use super::holder::{Holder, without_range};
use entry_slots::{Entries, EntrySeat, EntryWord, OpenedEntries, Put};
use std::alloc::Global;
use std::test::Fail;
use tce_window::TceRow;

/// Whose step it is.
#[derive(Clone, Copy)]
enum Guest {
    First,
    Second,
}

/// A step of a script.
#[derive(Clone, Copy)]
enum Step {
    Pin(Guest, u16),
    /// Releases the first entry that the guest holds.
    Unpin(Guest),
    /// Puts into this entry, as this version, in place of this value, this one.
    Put(u16, u32, u64, u64),
}

/// What a step showed.
#[derive(Clone, Copy, PartialEq, Eq)]
enum Shown {
    /// The word that it read: its pins, its version and its value.
    Word(u32, u32, u64),
    /// A value was put.
    Done,
    /// The word that was read, with its pins, its version and its value, refused a value.
    Refused(u32, u32, u64),
    /// The call cannot be made.
    Unfit,
}

static ROWS: [(Step, Shown); 26] = [
    (Step::Pin(Guest::First, 0), Shown::Word(0, 0, 3)),
    (Step::Put(0, 1, 3, 0x1001), Shown::Refused(1, 0, 3)),
    (Step::Pin(Guest::Second, 0), Shown::Word(1, 0, 3)),
    (Step::Put(0, 1, 3, 0x1001), Shown::Refused(2, 0, 3)),
    (Step::Unpin(Guest::First), Shown::Word(2, 0, 3)),
    (Step::Put(0, 1, 3, 0x1001), Shown::Refused(1, 0, 3)),
    (Step::Unpin(Guest::Second), Shown::Word(1, 0, 3)),
    (Step::Put(0, 1, 3, 0x1001), Shown::Done),
    (Step::Put(0, 1, 3, 0x1001), Shown::Refused(0, 1, 0x1001)),
    (Step::Put(0, 2, 3, 0x2FFC), Shown::Refused(0, 1, 0x1001)),
    (Step::Put(0, 2, 0x1001, 0x2FFC), Shown::Done),
    (Step::Pin(Guest::Second, 0), Shown::Word(0, 2, 0)),
    (Step::Pin(Guest::Second, 1), Shown::Word(0, 0, 0x1003)),
    (Step::Pin(Guest::Second, 2), Shown::Word(0, 0, 0x2003)),
    (Step::Pin(Guest::Second, 1), Shown::Unfit),
    (Step::Pin(Guest::First, 1), Shown::Word(1, 0, 0x1003)),
    (
        Step::Put(2, 1, 0x2003, 0xFF003),
        Shown::Refused(1, 0, 0x2003),
    ),
    (Step::Unpin(Guest::Second), Shown::Word(1, 2, 0)),
    (Step::Put(0, 3, 0x2FFC, 3), Shown::Done),
    (Step::Unpin(Guest::Second), Shown::Word(2, 0, 0x1003)),
    (Step::Unpin(Guest::Second), Shown::Word(1, 0, 0x2003)),
    (Step::Unpin(Guest::Second), Shown::Unfit),
    (Step::Unpin(Guest::First), Shown::Word(1, 0, 0x1003)),
    (Step::Put(2, 1, 0x2003, 0xFF003), Shown::Done),
    (Step::Pin(Guest::First, 2), Shown::Word(0, 1, 0xFF003)),
    (Step::Unpin(Guest::First), Shown::Word(1, 1, 0xFF003)),
];

fn word(read: Option<EntryWord>) -> Shown {
    match read {
        Some(word) => Shown::Word(word.pins(), word.version(), word.value()),
        None => Shown::Unfit,
    }
}

fn put(entries: &Entries, owner: &mut EntrySeat, last: u64, row: TceRow) -> Shown
    requires { (owner.old.entries ≡ entries.now.id) × (owner.old.owns ≡ true) }
    ensures { (owner.new.entries ≡ entries.now.id) × (owner.new.owns ≡ true) }
{
    let few = 1 <= row.version && row.version < 0x8000_0000;
    let pages = last / 4096 < 256 && row.value / 4096 < u64::from(entries.count());
    if row.entry >= entries.count() || !few || !pages {
        return Shown::Unfit;
    }
    match entries.put(owner, last, row) {
        Put::Done => Shown::Done,
        Put::Refused(read) => Shown::Refused(read.pins(), read.version(), read.value()),
    }
}

fn play(
    entries: &Entries,
    owner: &mut EntrySeat,
    first: &mut Holder,
    second: &mut Holder,
    step: Step,
) -> Shown
    requires owner { (owner.old.entries ≡ entries.now.id) × (owner.old.owns ≡ true) }
    requires first { HoldsRange entries.now first.old.from first.old.count first.old.seat }
    requires second { HoldsRange entries.now second.old.from second.old.count second.old.seat }
    ensures owner { (owner.new.entries ≡ entries.now.id) × (owner.new.owns ≡ true) }
    ensures first { HoldsRange entries.now first.new.from first.new.count first.new.seat }
    ensures second { HoldsRange entries.now second.new.from second.new.count second.new.seat }
{
    match step {
        Step::Pin(Guest::First, entry) => word(first.pin(entries, entry)),
        Step::Pin(Guest::Second, entry) => word(second.pin(entries, entry)),
        Step::Unpin(Guest::First) => word(first.unpin(entries)),
        Step::Unpin(Guest::Second) => word(second.unpin(entries)),
        Step::Put(entry, version, last, value) => put(
            entries,
            owner,
            last,
            TceRow {
                entry,
                version,
                value,
            },
        ),
    }
}

// Plays the rows, and gives the number of those that showed what they say, from the first on.
fn play_each(
    entries: &Entries,
    owner: &mut EntrySeat,
    first: &mut Holder,
    second: &mut Holder,
    rows: &[(Step, Shown)],
) -> usize
    requires owner { (owner.old.entries ≡ entries.now.id) × (owner.old.owns ≡ true) }
    requires first { HoldsRange entries.now first.old.from first.old.count first.old.seat }
    requires second { HoldsRange entries.now second.old.from second.old.count second.old.seat }
    ensures owner { (owner.new.entries ≡ entries.now.id) × (owner.new.owns ≡ true) }
    ensures first { HoldsRange entries.now first.new.from first.new.count first.new.seat }
    ensures second { HoldsRange entries.now second.new.from second.new.count second.new.seat }
{
    for (k, (step, shown)) in rows.iter().enumerate() {
        if play(entries, owner, first, second, *step) != *shown {
            return k;
        }
    }
    rows.len()
}

// Plays the rows at new entries, which are closed then.
fn played(alloc: Global) -> Result<usize, Fail> {
    let OpenedEntries {
        entries,
        mut owner,
        mut guests,
    } = Entries::open(alloc, 256, 2)?;
    let (Some(second), Some(first)) = (guests.pop(), guests.pop()) else {
        return Err(Fail::new("a seat is missing"));
    };
    let mut first = without_range(first);
    let mut second = without_range(second);
    let played = play_each(&entries, &mut owner, &mut first, &mut second, &ROWS);
    if first.count != 0 || second.count != 0 {
        return Err(Fail::new("an entry is held"));
    }
    guests.push(first.seat)?;
    guests.push(second.seat)?;
    entries.close(owner, guests);
    Ok(played)
}

#[test]
fn pins_releases_and_puts(rt: HostRuntime) -> Result<(), Fail> {
    assert_eq!(rt; played(rt.alloc())?, 26);
    Ok(())
}
