// What the owner puts into its window's entries, and reads and writes in its region.
use super::{Free, Row, Seen, Step, UNIT, first_other, put_list, stuff};
use page_slots::StrokeName;
use std::alloc::Global;
use std::test::Fail;
use tce_window::{GetTce, NamedFault, OwnFault, OwnerPort, PlainWindow, TceAnswer};
use vio_num::NoMemory;

// Tells that a value was put; or the value of an entry.
const DONE: Seen = Seen::Answer(TceAnswer::Done);

const REFUSED: Seen = Seen::Answer(TceAnswer::Parameter);

const WRITTEN: Seen = Seen::Written(Ok(()));

// Tells that a range does not lie in the region.
const PAST: Seen = Seen::Read(Err(OwnFault::Range), [0; 6]);

const FIVE: StrokeName = StrokeName { who: UNIT, mark: 5 };

const SIX: StrokeName = StrokeName { who: UNIT, mark: 6 };

const EIGHT: StrokeName = StrokeName { who: UNIT, mark: 8 };

const NINE: StrokeName = StrokeName { who: UNIT, mark: 9 };

fn value(value: u64) -> Seen {
    Seen::Value(GetTce::Value(value))
}

static VALUES: [Row; 16] = [
    (Step::Put(0, 3), DONE),
    (Step::Put(1, 3), REFUSED),
    (Step::Put(4095, 3), REFUSED),
    (Step::Put(4096, 0x1001), DONE),
    (Step::Put(8192, 0), REFUSED),
    (Step::Put(u64::MAX, 0), REFUSED),
    (Step::Put(u64::MAX - 4095, 0), REFUSED),
    (Step::Put(0, 0x2000), DONE),
    (Step::Put(0, 0x2001), REFUSED),
    (Step::Put(0, 0x2002), REFUSED),
    (Step::Put(0, 0x1FFF), DONE),
    (Step::Get(0), Seen::Value(GetTce::Value(0x1FFF))),
    (Step::Get(1), Seen::Value(GetTce::Parameter)),
    (Step::Get(4096), Seen::Value(GetTce::Value(0x1001))),
    (Step::Get(8192), Seen::Value(GetTce::Parameter)),
    (Step::Get(u64::MAX), Seen::Value(GetTce::Parameter)),
];

// The entries, versions and values that are put.
static VERSIONS: [(u16, u32, u64); 4] = [(0, 1, 3), (1, 1, 0x1001), (0, 2, 0x2000), (0, 3, 0x1FFF)];

// Tells whether the values of a window are these, in their order.
fn has_values(window: &PlainWindow, versions: &[(u16, u32, u64)]) -> bool {
    for (row, version) in window.values().iter().zip(versions.iter()) {
        if (row.entry, row.version, row.value) != *version {
            return false;
        }
    }
    window.values().len() == versions.len()
}

// Puts the values at a window of two pages: the number of the first row of which something else is seen, the pages, and
// whether the window has the values.
fn put_values(alloc: Global) -> Result<(Option<usize>, u16, bool), NoMemory> {
    let mut free = Free::open(alloc, 2)?;
    let other = free.first_other(&VALUES)?;
    let pages = OwnerPort::pages(&free.window);
    Ok((other, pages, has_values(&free.window, &VERSIONS)))
}

#[test]
fn values_are_put_at_the_entries_of_the_window(rt: HostRuntime) -> Result<(), Fail> {
    assert_eq!(rt; put_values(rt.alloc())?, (None, 2, true));
    Ok(())
}

// Puts the list, and then as many times one value, from the first entry on.
fn put_twice(window: &mut PlainWindow, list: &[u64]) -> Result<(Seen, Seen), NoMemory> {
    let listed = put_list(window, 0, list)?;
    let stuffed = stuff(window, 0, 5, list.len() as u64)?;
    Ok((listed, stuffed))
}

// How many values there are, and what is answered.
static COUNTS: [(usize, Seen); 7] = [
    (0, DONE),
    (1, DONE),
    (256, DONE),
    (257, REFUSED),
    (511, REFUSED),
    (512, REFUSED),
    (513, REFUSED),
];

// Gives the first number of values of which something else is seen; they are the first of these.
fn first_other_count(window: &mut PlainWindow, list: &[u64]) -> Result<Option<usize>, NoMemory> {
    for (count, answer) in COUNTS.iter() {
        let list = &list[..list.len().min(*count)];
        if put_twice(window, list)? != (*answer, *answer) {
            return Ok(Some(*count));
        }
    }
    Ok(None)
}

// Tells whether no value is put behind the window, and none where more are named than it has entries.
fn are_edges_refused(window: &mut PlainWindow) -> Result<bool, NoMemory> {
    let none = stuff(window, u64::MAX, 5, 0)?;
    let most = stuff(window, 0, 5, u64::MAX)?;
    Ok(none == DONE && most == REFUSED)
}

// Tells how many values a window has, and whether the last entry's is 5.
fn last_is_five(window: &mut PlainWindow) -> (usize, bool) {
    let count = window.values().len();
    (count, super::get(window, 255 * 4096) == value(5))
}

// Puts lists of each length, and what lies at the edges.
fn put_lists(alloc: Global) -> Result<(Option<usize>, bool, (usize, bool)), NoMemory> {
    let list = vec![in alloc; 7; 513]?;
    let mut window = PlainWindow::open(alloc, UNIT, 256)?;
    let other = first_other_count(&mut window, &list)?;
    let are_refused = are_edges_refused(&mut window)?;
    Ok((other, are_refused, last_is_five(&mut window)))
}

#[test]
fn lists_of_values_are_put_up_to_512(rt: HostRuntime) -> Result<(), Fail> {
    assert_eq!(rt; put_lists(rt.alloc())?, (None, true, (514, true)));
    Ok(())
}

static READ: [Row; 12] = [
    (Step::Write(0, b"abcd", 9), WRITTEN),
    (
        Step::ReadNamed(0, 4, NINE),
        Seen::Named(Ok(()), *b"abcd\0\0"),
    ),
    (
        Step::ReadNamed(0, 4, EIGHT),
        Seen::Named(
            Err(NamedFault::Stale {
                page: 0,
                found: Some(NINE),
            }),
            [0; 6],
        ),
    ),
    (
        Step::ReadNamed(1, 4, NINE),
        Seen::Named(
            Err(NamedFault::Stale {
                page: 0,
                found: None,
            }),
            [0; 6],
        ),
    ),
    (Step::Write(4094, b"wxyz", 10), WRITTEN),
    (Step::Read(4094, 4), Seen::Read(Ok(()), *b"wxyz\0\0")),
    (Step::Read(0, 0), PAST),
    (Step::Read(8191, 1), Seen::Read(Ok(()), [0; 6])),
    (Step::Read(8191, 2), PAST),
    (Step::Read(8192, 1), PAST),
    (Step::Read(u64::MAX, 4), PAST),
    (Step::Read(0, 4), Seen::Read(Ok(()), *b"abcd\0\0")),
];

#[test]
fn the_owner_reads_what_it_wrote(rt: HostRuntime) -> Result<(), Fail> {
    assert_eq!(rt; first_other(rt.alloc(), 2, &READ)?, None);
    Ok(())
}

static COVER: [Row; 8] = [
    (Step::Write(0, b"abcd", 5), WRITTEN),
    (Step::Write(4, b"efgh", 5), WRITTEN),
    (Step::Write(3, b"ijkl", 5), WRITTEN),
    (Step::ReadNamed(1, 6, FIVE), Seen::Named(Ok(()), *b"bcijkl")),
    (Step::Write(20, b"m", 6), WRITTEN),
    (Step::Write(2, b"nopq", 5), WRITTEN),
    (
        Step::ReadNamed(1, 6, FIVE),
        Seen::Named(
            Err(NamedFault::Stale {
                page: 0,
                found: Some(SIX),
            }),
            [0; 6],
        ),
    ),
    (
        Step::ReadNamed(2, 4, FIVE),
        Seen::Named(Ok(()), *b"nopq\0\0"),
    ),
];

#[test]
fn strokes_of_one_name_cover_a_range_together(rt: HostRuntime) -> Result<(), Fail> {
    assert_eq!(rt; first_other(rt.alloc(), 1, &COVER)?, None);
    Ok(())
}
