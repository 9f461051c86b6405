// What the owner of a shared window writes and reads of its region, in tables: each row is a step and what is seen of it.
use page_slots::StrokeName;
use shared_window::{Opened, SharedOwner, Window};
use std::alloc::Global;
use std::test::Fail;
use tce_window::{NamedFault, OwnFault, OwnerPort};
use vio_num::{NoMemory, UnitId};

const UNIT: UnitId = UnitId {
    partition: 1,
    unit: 2,
};

/// A step of the owner.
#[derive(Clone, Copy)]
enum Step {
    /// These bytes are written from this address on, with this mark.
    Write(u64, &'static [u8], u64),
    /// As many bytes, 4 at most, are read from this address on.
    Read(u64, usize),
    /// The same bytes are read, if strokes of the unit with this mark lie over them.
    ReadNamed(u64, usize, u64),
}

/// What is seen of a step.
#[derive(Clone, Copy, PartialEq, Eq)]
enum Seen {
    Written,
    /// The bytes that were read, and zeros.
    Bytes([u8; 4]),
    Range,
    /// A page on which the last strokes are not of the mark, or do not cover the range, and the last other mark.
    Stale(u16, Option<u64>),
    /// There is no memory, or a page is in use.
    Other,
}

static ROWS: [(Step, Seen); 12] = [
    (Step::Read(4094, 4), Seen::Bytes([0; 4])),
    (Step::Write(4095, b"ab", 7), Seen::Written),
    (Step::Read(4094, 4), Seen::Bytes([0, b'a', b'b', 0])),
    (Step::ReadNamed(4095, 2, 7), Seen::Bytes([b'a', b'b', 0, 0])),
    (Step::ReadNamed(4094, 3, 7), Seen::Stale(0, None)),
    (Step::Write(4096, b"c", 8), Seen::Written),
    (Step::Read(4095, 2), Seen::Bytes([b'a', b'c', 0, 0])),
    (Step::ReadNamed(4095, 2, 7), Seen::Stale(1, Some(8))),
    (Step::ReadNamed(4095, 2, 8), Seen::Stale(0, Some(7))),
    (Step::Write(8191, b"de", 9), Seen::Range),
    (Step::Read(8192, 1), Seen::Range),
    (Step::ReadNamed(0, 0, 7), Seen::Range),
];

// Tells why a range was not read or written.
fn refused(fault: OwnFault) -> Seen {
    match fault {
        OwnFault::Range => Seen::Range,
        _ => Seen::Other,
    }
}

// Tells why a range was not read by a name.
fn not_named(fault: NamedFault) -> Seen {
    match fault {
        NamedFault::Range => Seen::Range,
        NamedFault::InUse { .. } => Seen::Other,
        NamedFault::Stale { page, found } => Seen::Stale(page, found.map(|name| name.mark)),
    }
}

// Writes bytes.
fn write<W: OwnerPort>(port: &mut W, at: u64, bytes: &[u8], mark: u64) -> Seen {
    match port.write(at, bytes, mark) {
        Ok(()) => Seen::Written,
        Err(fault) => refused(fault),
    }
}

// Reads bytes.
fn read<W: OwnerPort>(port: &mut W, at: u64, len: usize) -> Seen {
    let mut out = [0; 4];
    match port.read(at, &mut out[..len.min(4)]) {
        Ok(()) => Seen::Bytes(out),
        Err(fault) => refused(fault),
    }
}

// Reads bytes of the unit with this mark.
fn read_named<W: OwnerPort>(port: &mut W, at: u64, len: usize, mark: u64) -> Seen {
    let mut out = [0; 4];
    let name = StrokeName { who: UNIT, mark };
    match port.read_named(at, &mut out[..len.min(4)], name) {
        Ok(()) => Seen::Bytes(out),
        Err(fault) => not_named(fault),
    }
}

// Does a step, and tells what is seen of it.
fn done<W: OwnerPort>(port: &mut W, step: Step) -> Seen {
    match step {
        Step::Write(at, bytes, mark) => write(port, at, bytes, mark),
        Step::Read(at, len) => read(port, at, len),
        Step::ReadNamed(at, len, mark) => read_named(port, at, len, mark),
    }
}

/// Does the steps of the rows, and gives the number of the first of which something else is seen than its row says.
pub(crate) fn first_other<W: OwnerPort>(port: &mut W) -> Option<usize> {
    for (number, (step, want)) in ROWS.iter().enumerate() {
        if done(port, *step) != *want {
            return Some(number);
        }
    }
    None
}

// Does so at a new window of two pages.
fn played(alloc: Global) -> Result<Option<usize>, NoMemory> {
    let Opened {
        window,
        mut owner,
        guests: _,
    } = Window::open(alloc, UNIT, 2, 0)?;
    let mut port = SharedOwner {
        window: &window,
        owner: &mut owner,
    };
    Ok(first_other(&mut port))
}

#[test]
fn the_owner_reads_what_it_wrote(rt: HostRuntime) -> Result<(), Fail> {
    assert_eq!(rt; played(rt.alloc())?, None);
    Ok(())
}
