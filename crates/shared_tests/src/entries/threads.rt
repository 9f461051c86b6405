// Entries that an owner and two guests use on threads of their own.
ghost use Rattle.std.specs.Prelude.{◌≡◌, ◌<◌, true};
ghost use Rattle.entry_slots.specs.Entries.{HoldsRange};

use super::holder::{Holder, without_range};
use entry_slots::{Entries, EntrySeat, EntryWord, OpenedEntries, Put};
use std::alloc::Global;
use std::test::Fail;
use std::thread::{self, Threads};
use tce_window::TceRow;

/// How often the owner tries before it gives up.
const TRIES: u32 = 100_000_000;

/// How often each works.
const ROUNDS: u16 = 1000;

// The version that a pin showed, if its release showed the same value and it did not fall.
fn risen(before: u32, pinned: Option<EntryWord>, released: Option<EntryWord>) -> Option<u32> {
    let (Some(pinned), Some(released)) = (pinned, released) else {
        return None;
    };
    if pinned.version() < before
        || released.version() != pinned.version()
        || released.value() != pinned.value()
    {
        return None;
    }
    Some(pinned.version())
}

// Pins entry 0 and releases it, this many times. Says whether each showed what it must.
fn guest(entries: &Entries, mut holder: Holder, n: u16) -> (Holder, bool)
    requires { HoldsRange entries.now holder.from holder.count holder.seat }
    ensures { HoldsRange entries.now result.0.from result.0.count result.0.seat }
{
    let mut version = 0;
    for _ in 0..n {
        let pinned = holder.pin(entries, 0);
        let released = holder.unpin(entries);
        let Some(now) = risen(version, pinned, released) else {
            return (holder, false);
        };
        version = now;
    }
    (holder, true)
}

// Puts this many values into entry 0, each tried until it is put. Says how many it put.
fn owner(entries: &Entries, mut seat: EntrySeat, n: u16) -> (EntrySeat, u16)
    requires seat { (seat.entries ≡ entries.now.id) × (seat.owns ≡ true) }
    requires some { 0 < entries.now.count }
    ensures { (result.0.entries ≡ entries.now.id) × (result.0.owns ≡ true) }
{
    let mut puts = 0;
    for _ in 0..TRIES {
        if puts >= n {
            break;
        }
        let row = TceRow {
            entry: 0,
            version: u32::from(puts) + 1,
            value: u64::from(puts % 4),
        };
        let last = u64::from(puts.wrapping_sub(1) % 4);
        match entries.put(&mut seat, last, row) {
            Put::Done => puts += 1,
            Put::Refused(_) => thread::yield_now(),
        }
    }
    (seat, puts)
}

// Has two guests work on threads of their own.
fn both<R: Threads + Sync>(
    rt: &R,
    entries: &Entries,
    a: Holder,
    b: Holder,
) -> ((Holder, bool), (Holder, bool))
    requires a { HoldsRange entries.now a.from a.count a.seat }
    requires b { HoldsRange entries.now b.from b.count b.seat }
    ensures a { HoldsRange entries.now result.0.0.from result.0.0.count result.0.0.seat }
    ensures b { HoldsRange entries.now result.1.0.from result.1.0.count result.1.0.seat }
{
    thread::join(
        rt,
        move || guest(entries, a, ROUNDS),
        move || guest(entries, b, ROUNDS),
    )
}

// How many values the owner of new entries puts while two guests work, and whether each guest saw what it must.
fn worked<R: Threads + Sync>(rt: &R, alloc: Global) -> Result<(u16, bool, bool), Fail> {
    let OpenedEntries {
        entries,
        owner: first,
        mut guests,
    } = Entries::open(alloc, 2, 2)?;
    let (Some(b), Some(a)) = (guests.pop(), guests.pop()) else {
        return Err(Fail::new("a seat is missing"));
    };
    let shared = &entries;
    let a = without_range(a);
    let b = without_range(b);
    let ((first, puts), ((a, a_rose), (b, b_rose))) = thread::join(
        rt,
        move || owner(shared, first, ROUNDS),
        move ||
            requires a { HoldsRange shared.now a.from a.count a.seat }
            requires b { HoldsRange shared.now b.from b.count b.seat }
        { both(rt, shared, a, b) },
    );
    if a.count != 0 || b.count != 0 {
        return Err(Fail::new("an entry is held"));
    }
    guests.push(a.seat)?;
    guests.push(b.seat)?;
    entries.close(first, guests);
    Ok((puts, a_rose, b_rose))
}

#[test]
fn two_guests_and_an_owner(rt: HostRuntime) -> Result<(), Fail> {
    assert_eq!(rt; worked(&rt, rt.alloc())?, (ROUNDS, true, true));
    Ok(())
}
