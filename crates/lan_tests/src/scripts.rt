// Lines of two units of one partition, in tables: each row is a line and what comes of it.
ghost use Rattle.std.specs.Prelude.{◌≡◌, true, IfSome};
ghost use Rattle.boot_text.specs.Sound.{IsInRange};
ghost use Rattle.lan_script.specs.Seats.{is_for_port};

use boot_text::{Line, Verb};
use lan_script::{Lan, LanRows, PortCall, PortSeat, PortStep};
use std::alloc::Global;
use vio_num::{Hrc, Mac, Moved, NoMemory, UnitId};
use vio_trace::{FrameRow, HarvestRow, Outcome};

// Tells the address of a station, or of a group where the first byte is odd.
fn mac(first: u8, last: u8) -> Mac {
    Mac {
        bytes: [first, 0, 0, 0, 0, last],
    }
}

// Tells the address of a group of stations that frames are sent to.
const GROUP: Mac = Mac {
    bytes: [1, 0, 0x5E, 0, 0, 3],
};

// What a unit does.
#[derive(Clone, Copy)]
enum Does {
    Open,
    Close,
    Post(u64, u64, u64),
    Send(Mac, u64, u64, u64),
    Take(u64),
    ChangeMac(Mac),
    Multicast(u64, Mac),
    Tce(u64, u64, bool, bool),
}

// What is seen of it.
#[derive(Clone, Copy, PartialEq, Eq)]
enum Seen {
    Code(Hrc),
    Posted(u32, Hrc),
    Frame(Hrc, u64),
    Took(u64),
    Range,
    // The line waits, and has done so much.
    Waits(Moved, u64),
    Other,
}

// A unit, what it does, and what is seen of it.
type Row = (u8, Does, Seen);

// The unit of this number.
fn unit(number: u8) -> UnitId
    ensures { result ≡ record { partition = 0; unit = number } }
{
    UnitId {
        partition: 0,
        unit: number,
    }
}

// Makes the line of what a unit does, if its numbers are in range.
fn line_of(number: u32, does: Does) -> Option<Line>
    ensures port { IfSome result (λ line. is_for_port line.verb ≡ true) }
    ensures ranged { IfSome result (λ line. IsInRange line.verb) }
{
    let verb = match does {
        Does::Open => Verb::Open,
        Does::Close => Verb::Close,
        Does::Post(at, len, count) if 1 <= count && count <= 1024 => Verb::Post { at, len, count },
        Does::Send(mac, len, seed, at) if 14 <= len && len <= 65_527 => {
            Verb::Send { mac, len, seed, at }
        }
        Does::Take(count) => Verb::Take { count },
        Does::ChangeMac(mac) => Verb::ChangeMac { mac },
        Does::Multicast(control, mac) => Verb::Multicast { control, mac },
        Does::Tce(entry, page, readable, writable) if page <= 1024 => Verb::Tce {
            entry,
            page,
            readable,
            writable,
        },
        _ => return None,
    };
    Some(Line {
        number,
        unit: 0,
        verb,
    })
}

// Tells what is seen of a step.
fn seen_of(step: PortStep) -> Seen {
    match step {
        PortStep::Ends(Outcome::Code(code)) => Seen::Code(code),
        PortStep::Ends(Outcome::Posted { buffers, code }) => Seen::Posted(buffers, code),
        PortStep::Ends(Outcome::Frame { code, number }) => Seen::Frame(code, number),
        PortStep::Ends(Outcome::Took(frames)) => Seen::Took(frames),
        PortStep::Ends(Outcome::Range) => Seen::Range,
        PortStep::Waits { moved, done } => Seen::Waits(moved, done),
        _ => Seen::Other,
    }
}

// Opens the units: one of 16 pages and 4 slots, one of 2 pages and 8 slots.
fn open(alloc: Global) -> Result<Lan, NoMemory> {
    let seats = [
        PortSeat {
            unit: unit(0),
            mac: mac(2, 1),
            pages: 16,
            slots: 4,
        },
        PortSeat {
            unit: unit(1),
            mac: mac(2, 2),
            pages: 2,
            slots: 8,
        },
    ];
    Lan::open(alloc, &seats)
}

// Does a line at a unit.
fn act(lan: &mut Lan, own: u8, does: Does) -> Result<Seen, NoMemory> {
    if !lan.is_port(unit(own)) {
        return Ok(Seen::Other);
    }
    match line_of(7, does) {
        Some(line) => Ok(seen_of(lan.step(unit(own), &line, 0)?)),
        None => Ok(Seen::Other),
    }
}

// Makes a raw call on a unit, and gives its code.
fn call(lan: &mut Lan, own: u8, call: PortCall) -> Result<Option<Hrc>, NoMemory> {
    if !lan.is_port(unit(own)) {
        return Ok(None);
    }
    Ok(Some(lan.call(unit(own), call)?.code))
}

// Takes what stands in a unit's receive queue.
fn take_rest(lan: &mut Lan, own: u8) -> Result<Option<Moved>, NoMemory> {
    if !lan.is_port(unit(own)) {
        return Ok(None);
    }
    Ok(Some(lan.take_rest(unit(own))?))
}

// Closes a unit's port.
fn fail(lan: &mut Lan, own: u8) -> Result<Option<bool>, NoMemory> {
    if !lan.is_port(unit(own)) {
        return Ok(None);
    }
    Ok(Some(lan.fail(unit(own))?))
}

// Does the lines of the rows, and gives the number of the first of which something else is seen than its row says.
fn first_other_at(lan: &mut Lan, rows: &[Row]) -> Result<Option<usize>, NoMemory> {
    for (number, (own, does, want)) in rows.iter().enumerate() {
        if act(lan, *own, *does)? != *want {
            return Ok(Some(number));
        }
    }
    Ok(None)
}

// Does so at new units.
fn first_other(alloc: Global, rows: &[Row]) -> Result<Option<usize>, NoMemory> {
    let mut lan = open(alloc)?;
    first_other_at(&mut lan, rows)
}

// Tells whether there are two frames: one that was read in two pieces and taken, one in one piece and dropped.
fn are_frames(frames: &[FrameRow]) -> bool {
    match frames {
        [first, second] => {
            first.code == Hrc::Success
                && first.from.as_slice().len() == 2
                && second.code == Hrc::Dropped
                && second.from.as_slice().len() == 1
        }
        _ => false,
    }
}

// Tells whether the first receive entry says this.
fn is_first_high(harvests: &[HarvestRow], high: u64) -> bool {
    match harvests.first() {
        Some(row) => row.high == high,
        None => false,
    }
}

static LINES_END_AS_THEIR_TABLE_SAYS: [Row; 19] = [
    (0, Does::Take(1), Seen::Waits(Moved::Quiet, 0)),
    (1, Does::Open, Seen::Code(Hrc::Success)),
    (0, Does::Open, Seen::Code(Hrc::Success)),
    (
        1,
        Does::ChangeMac(Mac {
            bytes: [2, 0, 0, 0, 0, 2],
        }),
        Seen::Code(Hrc::Success),
    ),
    (1, Does::Post(4096, 1000, 1), Seen::Posted(1, Hrc::Success)),
    (
        0,
        Does::Send(
            Mac {
                bytes: [2, 0, 0, 0, 0, 2],
            },
            60,
            0,
            0,
        ),
        Seen::Frame(Hrc::Success, 1),
    ),
    (0, Does::Open, Seen::Code(Hrc::Resource)),
    (0, Does::Post(4096, 100, 2), Seen::Posted(2, Hrc::Success)),
    (
        0,
        Does::Send(
            Mac {
                bytes: [2, 0, 0, 0, 0, 3],
            },
            249,
            280,
            65288,
        ),
        Seen::Range,
    ),
    (0, Does::Post(0, 256, 4), Seen::Posted(2, Hrc::Resource)),
    (
        0,
        Does::Post(4090, 65537, 1),
        Seen::Posted(0, Hrc::Parameter),
    ),
    (
        0,
        Does::Multicast(
            0x100001,
            Mac {
                bytes: [0, 0, 0, 0, 0, 0],
            },
        ),
        Seen::Code(Hrc::Parameter),
    ),
    (
        0,
        Does::Send(GROUP, 259, 38, 0),
        Seen::Frame(Hrc::Success, 2),
    ),
    (0, Does::Close, Seen::Code(Hrc::Success)),
    (0, Does::Multicast(2, GROUP), Seen::Code(Hrc::Parameter)),
    (0, Does::Take(2), Seen::Waits(Moved::Quiet, 0)),
    (1, Does::Take(1), Seen::Took(1)),
    (1, Does::Take(3), Seen::Waits(Moved::Quiet, 0)),
    (
        1,
        Does::Send(
            Mac {
                bytes: [2, 0, 0, 0, 0, 2],
            },
            1428,
            36,
            0,
        ),
        Seen::Frame(Hrc::Dropped, 1),
    ),
];

#[test]
fn lines_end_as_their_table_says(rt: HostRuntime) -> Result<(), NoMemory> {
    let other = first_other(rt.alloc(), &LINES_END_AS_THEIR_TABLE_SAYS)?;
    assert_eq!(rt; other, None);
    Ok(())
}

static BLANKS_ARE_TAKEN_AND_NOT_COUNTED: [Row; 12] = [
    (1, Does::Open, Seen::Code(Hrc::Success)),
    (0, Does::Open, Seen::Code(Hrc::Success)),
    (1, Does::Post(4096, 100, 1), Seen::Posted(1, Hrc::Success)),
    (1, Does::Post(0, 100, 2), Seen::Posted(2, Hrc::Success)),
    (1, Does::Tce(1, 1, true, false), Seen::Code(Hrc::Success)),
    (
        0,
        Does::Send(
            Mac {
                bytes: [2, 0, 0, 0, 0, 2],
            },
            60,
            0,
            0,
        ),
        Seen::Frame(Hrc::Dropped, 1),
    ),
    (
        0,
        Does::Send(
            Mac {
                bytes: [2, 0, 0, 0, 0, 2],
            },
            60,
            0,
            0,
        ),
        Seen::Frame(Hrc::Success, 2),
    ),
    (
        0,
        Does::Send(
            Mac {
                bytes: [2, 0, 0, 0, 0, 2],
            },
            60,
            0,
            0,
        ),
        Seen::Frame(Hrc::Success, 3),
    ),
    (1, Does::Take(1), Seen::Took(1)),
    (1, Does::Take(3), Seen::Waits(Moved::Moved, 1)),
    (0, Does::Tce(0, 0, false, true), Seen::Code(Hrc::Success)),
    (
        0,
        Does::Send(
            Mac {
                bytes: [2, 0, 0, 0, 0, 2],
            },
            60,
            0,
            0,
        ),
        Seen::Code(Hrc::SourceParm),
    ),
];

#[test]
fn blanks_are_taken_and_not_counted(rt: HostRuntime) -> Result<(), NoMemory> {
    let other = first_other(rt.alloc(), &BLANKS_ARE_TAKEN_AND_NOT_COUNTED)?;
    assert_eq!(rt; other, None);
    Ok(())
}

// Two frames are sent, of which the second names no station.
static DONE: [Row; 4] = [
    (0, Does::Open, Seen::Code(Hrc::Success)),
    (1, Does::Open, Seen::Code(Hrc::Success)),
    (1, Does::Post(4096, 100, 2), Seen::Posted(2, Hrc::Success)),
    (
        0,
        Does::Send(
            Mac {
                bytes: [2, 0, 0, 0, 0, 2],
            },
            60,
            1,
            4090,
        ),
        Seen::Frame(Hrc::Success, 1),
    ),
];

// Tells whether a raw call sends a frame that nobody takes.
fn is_dropped(lan: &mut Lan) -> Result<bool, NoMemory> {
    let parts = PortCall::Send {
        descriptors: [0x8000_000E_0000_0000, 0, 0, 0, 0, 0],
    };
    Ok(call(lan, 0, parts)? == Some(Hrc::Dropped))
}

// Tells whether a queue's rest is taken at once.
fn is_taken(lan: &mut Lan) -> Result<bool, NoMemory> {
    let first = take_rest(lan, 1)?;
    let second = take_rest(lan, 1)?;
    Ok(first == Some(Moved::Moved) && second == Some(Moved::Quiet))
}

// Tells whether a port is closed, and stays so.
fn is_failed(lan: &mut Lan) -> Result<bool, NoMemory> {
    let first = fail(lan, 1)?;
    let second = fail(lan, 1)?;
    Ok(first == Some(true) && second == Some(true))
}

// Does the lines and calls, and gives the number of the first line of which something else is seen, and whether the
// calls are answered so.
fn done_at(lan: &mut Lan) -> Result<(Option<usize>, bool, bool, bool), NoMemory> {
    let other = first_other_at(lan, &DONE)?;
    Ok((other, is_dropped(lan)?, is_taken(lan)?, is_failed(lan)?))
}

// Tells whether the rows are those of what was done.
fn are_rows(rows: &LanRows) -> bool {
    are_frames(&rows.frames)
        && rows.ports.len() == 2
        && rows.posts.len() == 2
        && rows.delivers.len() == 1
        && is_first_high(&rows.harvests, 0xC000_0008_0000_003C)
}

// The same of new units, and whether their rows say so.
fn done(alloc: Global) -> Result<((Option<usize>, bool, bool, bool), bool), NoMemory> {
    let mut lan = open(alloc)?;
    let done = done_at(&mut lan)?;
    let rows = lan.into_rows(alloc)?;
    Ok((done, are_rows(&rows)))
}

#[test]
fn rows_are_what_was_done(rt: HostRuntime) -> Result<(), NoMemory> {
    let want = ((None, true, true, true), true);
    assert_eq!(rt; done(rt.alloc())?, want);
    Ok(())
}
