// Ranges that a guest holds, at each edge and under each right.
use super::{Free, Row, Seen, Step, first_other};
use std::alloc::Global;
use std::test::Fail;
use tce_window::{GetTce, HoldFault, Right, TceAnswer};
use vio_num::NoMemory;

const DONE: Seen = Seen::Answer(TceAnswer::Done);

const HELD: Seen = Seen::Held(None);

// Tells that the range touches this entry, which is the first past the window.
fn past(entry: u64) -> Seen {
    Seen::Held(Some(HoldFault::Past { entry }))
}

// Tells that this value of entry 1 does not grant the right.
fn lacks(version: u32, tce: u64) -> Seen {
    Seen::Held(Some(HoldFault::NotGranted {
        entry: 1,
        version,
        tce,
    }))
}

static BAD_ENTRIES: [Row; 19] = [
    (Step::Hold(0, 1, Right::Read), HELD),
    (Step::Hold(1, 8191, Right::Write), HELD),
    (Step::Hold(8191, 1, Right::Read), HELD),
    (
        Step::Hold(8191, 2, Right::Read),
        Seen::Held(Some(HoldFault::Past { entry: 2 })),
    ),
    (
        Step::Hold(8192, 1, Right::Read),
        Seen::Held(Some(HoldFault::Past { entry: 2 })),
    ),
    (
        Step::Hold(0, 65_536, Right::Read),
        Seen::Held(Some(HoldFault::Past { entry: 2 })),
    ),
    (
        Step::Hold(u64::MAX, 65_536, Right::Read),
        Seen::Held(Some(HoldFault::Past {
            entry: u64::MAX / 4096,
        })),
    ),
    (Step::Put(4096, 0x1001), DONE),
    (Step::Hold(4000, 4096, Right::Read), HELD),
    (
        Step::Hold(4000, 4096, Right::Write),
        Seen::Held(Some(HoldFault::NotGranted {
            entry: 1,
            version: 1,
            tce: 0x1001,
        })),
    ),
    (Step::Put(4096, 0x1FFE), DONE),
    (Step::Hold(4096, 1, Right::Write), HELD),
    (
        Step::Hold(4096, 1, Right::Read),
        Seen::Held(Some(HoldFault::NotGranted {
            entry: 1,
            version: 2,
            tce: 0x1002,
        })),
    ),
    (Step::Put(4096, 0x1FFC), DONE),
    (
        Step::Hold(4096, 1, Right::Read),
        Seen::Held(Some(HoldFault::NotGranted {
            entry: 1,
            version: 3,
            tce: 0,
        })),
    ),
    (Step::Hold(0, 1, Right::Read), HELD),
    (Step::Put(0, 0), DONE),
    (Step::Get(0), Seen::Value(GetTce::Value(0))),
    (
        Step::Hold(0, 1, Right::Read),
        Seen::Held(Some(HoldFault::NotGranted {
            entry: 0,
            version: 1,
            tce: 0,
        })),
    ),
];

#[test]
fn the_first_bad_entry_is_named(rt: HostRuntime) -> Result<(), Fail> {
    assert_eq!(rt; first_other(rt.alloc(), 2, &BAD_ENTRIES)?, None);
    Ok(())
}

/// The value put into the second entry, the same as a refusal tells it, and whether it may then be read and
/// written.
static RIGHTS: [(u64, u64, bool, bool); 6] = [
    (0x1003, 0x1003, true, true),
    (0x1001, 0x1001, true, false),
    (0x1002, 0x1002, false, true),
    (0x1000, 0, false, false),
    (0x0FFC, 0, false, false),
    (0x1FFD, 0x1001, true, false),
];

// What is seen of a hold that is granted, or refused with this value of entry 1.
fn held_or_lacks(is_granted: bool, version: u32, tce: u64) -> Seen {
    if is_granted {
        HELD
    } else {
        lacks(version, tce)
    }
}

// Puts a value, which is the second entry's of this version, and gives what is seen of a hold for each right.
fn held_with(free: &mut Free, tce: u64) -> Result<(Seen, Seen, Seen), NoMemory> {
    let put = free.step(Step::Put(4096, tce))?;
    let read = free.step(Step::Hold(4095, 2, Right::Read))?;
    let write = free.step(Step::Hold(4095, 2, Right::Write))?;
    Ok((put, read, write))
}

// Gives the number of the first row of the rights whose value grants others.
fn first_other_right(free: &mut Free) -> Result<Option<usize>, NoMemory> {
    for (row, (tce, told, read, write)) in RIGHTS.iter().enumerate() {
        let version = row as u32 + 1;
        let want_read = held_or_lacks(*read, version, *told);
        let want_write = held_or_lacks(*write, version, *told);
        if held_with(free, *tce)? != (DONE, want_read, want_write) {
            return Ok(Some(row));
        }
    }
    Ok(None)
}

// Does so at a window of two pages.
fn put_rights(alloc: Global) -> Result<Option<usize>, NoMemory> {
    let mut free = Free::open(alloc, 2)?;
    first_other_right(&mut free)
}

#[test]
fn each_right_is_tested_alone(rt: HostRuntime) -> Result<(), Fail> {
    assert_eq!(rt; put_rights(rt.alloc())?, None);
    Ok(())
}

/// An address, a length, and the first entry past a window of three pages, if the range touches one.
static RANGES: [(u64, u32, Option<u64>); 17] = [
    (0, 1, None),
    (0, 4096, None),
    (0, 12_288, None),
    (0, 12_289, Some(3)),
    (1, 12_287, None),
    (1, 12_288, Some(3)),
    (1, 65_536, Some(3)),
    (4095, 1, None),
    (4095, 8193, None),
    (4095, 8194, Some(3)),
    (4096, 4096, None),
    (12_287, 1, None),
    (12_287, 2, Some(3)),
    (12_288, 1, Some(3)),
    (1 << 63, 1, Some(1 << 51)),
    (u64::MAX, 1, Some(u64::MAX / 4096)),
    (u64::MAX, 65_536, Some(u64::MAX / 4096)),
];

// Gives the number of the first row of the ranges of which something else is seen, for either right.
fn first_other_range(free: &mut Free) -> Result<Option<usize>, NoMemory> {
    for (row, (ioba, len, entry)) in RANGES.iter().enumerate() {
        let want = match entry {
            Some(entry) => past(*entry),
            None => HELD,
        };
        let read = free.step(Step::Hold(*ioba, *len, Right::Read))?;
        let write = free.step(Step::Hold(*ioba, *len, Right::Write))?;
        if read != want || write != want {
            return Ok(Some(row));
        }
    }
    Ok(None)
}

// Does so at a window of three pages.
fn hold_ranges(alloc: Global) -> Result<Option<usize>, NoMemory> {
    let mut free = Free::open(alloc, 3)?;
    first_other_range(&mut free)
}

#[test]
fn a_range_past_the_window_names_its_first_entry_there(rt: HostRuntime) -> Result<(), Fail> {
    assert_eq!(rt; hold_ranges(rt.alloc())?, None);
    Ok(())
}
