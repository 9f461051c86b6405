// The owner's reads and writes of its region, at each edge, through any owner's port.
use super::{Free, Row, Seen, Step, UNIT, name};
use page_slots::Page;
use std::alloc::Global;
use std::test::Fail;
use tce_window::{NamedFault, OwnFault, OwnerPort, PlainWindow};
use vio_num::NoMemory;

/// An address, a length, and whether the range lies in a region of 17 pages and may be moved at once.
static RANGES: [(u64, usize, bool); 18] = [
    (0, 0, false),
    (0, 1, true),
    (0, 4096, true),
    (0, 65_536, true),
    (0, 65_537, false),
    (1, 4096, true),
    (1, 65_536, true),
    (4095, 1, true),
    (4095, 2, true),
    (4096, 65_536, true),
    (4097, 65_536, false),
    (69_631, 1, true),
    (69_631, 2, false),
    (69_632, 0, false),
    (69_632, 1, false),
    (1 << 63, 4096, false),
    (u64::MAX, 1, false),
    (u64::MAX - 65_535, 65_536, false),
];

/// What a write of the first bytes, a read as long and a read of what was written answer.
fn moved<W: OwnerPort>(
    window: &mut W,
    at: u64,
    len: usize,
    bytes: &[u8],
    out: &mut [u8],
    mark: u64,
) -> (
    Result<(), OwnFault>,
    Result<(), OwnFault>,
    Result<(), NamedFault>,
) {
    let len = len.min(bytes.len()).min(out.len());
    let out = &mut out[..len];
    let written = window.write(at, &bytes[..len], mark);
    let read = window.read(at, out);
    let named = window.read_named(at, out, name(mark));
    (written, read, named)
}

/// Whether the first bytes are this one, and the others 0.
fn is_filled(bytes: &[u8], len: usize, byte: u8) -> bool {
    bytes.iter().take(len).all(|b| *b == byte) && bytes.iter().skip(len).all(|b| *b == 0)
}

// Tells whether the answers are those of a range that lies inside or not.
fn are_answers(
    told: (
        Result<(), OwnFault>,
        Result<(), OwnFault>,
        Result<(), NamedFault>,
    ),
    inside: bool,
) -> bool {
    if inside {
        told == (Ok(()), Ok(()), Ok(()))
    } else {
        let range = Err(OwnFault::Range);
        told == (range, range, Err(NamedFault::Range))
    }
}

// Moves the ranges, each of bytes of its own, and gives the number of the first row that is answered otherwise or
// leaves other bytes.
fn first_other_range(window: &mut PlainWindow, bytes: &mut [u8], out: &mut [u8]) -> Option<usize> {
    for (row, (at, len, inside)) in RANGES.iter().enumerate() {
        let byte = row as u8 + 1;
        bytes.fill(byte);
        out.fill(0);
        let told = moved(window, *at, *len, bytes, out, row as u64);
        let (filled, byte) = if *inside { (*len, byte) } else { (0, 0) };
        if !are_answers(told, *inside) || !is_filled(out, filled, byte) {
            return Some(row);
        }
    }
    None
}

// Does so at a window of 17 pages.
fn first_other_moved(alloc: Global) -> Result<Option<usize>, NoMemory> {
    let most = 65_537;
    let mut bytes = vec![in alloc; 9; most]?;
    let mut out = vec![in alloc; 0; most]?;
    let mut window = PlainWindow::open(alloc, UNIT, 17)?;
    Ok(first_other_range(&mut window, &mut bytes, &mut out))
}

#[test]
fn ranges_inside_the_region_are_moved(rt: HostRuntime) -> Result<(), Fail> {
    assert_eq!(rt; first_other_moved(rt.alloc())?, None);
    Ok(())
}

/// Whether a page is there and has one stroke of this mark, offset and length.
fn has_stroke(page: &Option<Page>, mark: u64, offset: u16, len: usize) -> bool {
    match page {
        Some(page) => match page.strokes() {
            [stroke] => {
                let told = (stroke.name().mark, stroke.offset(), stroke.bytes().len());
                told == (mark, offset, len)
            }
            _ => false,
        },
        None => false,
    }
}

/// Whether a page is there without a stroke.
fn has_none(page: &Option<Page>) -> bool {
    match page {
        Some(page) => page.strokes().is_empty(),
        None => false,
    }
}

/// Whether there are three pages, of which the first two have the strokes of a write over their edge.
fn are_struck(pages: &[Option<Page>]) -> bool {
    match pages {
        [first, second, third] => {
            has_stroke(first, 7, 4095, 1) && has_stroke(second, 7, 0, 1) && has_none(third)
        }
        _ => false,
    }
}

static EDGES: [Row; 2] = [
    (Step::Write(4095, b"ab", 7), Seen::Written(Ok(()))),
    (
        Step::Write(12_288, b"c", 8),
        Seen::Written(Err(OwnFault::Range)),
    ),
];

#[test]
fn a_write_lays_one_stroke_on_each_page(rt: HostRuntime) -> Result<(), Fail> {
    let mut free = Free::open(rt.alloc(), 3)?;
    let other = free.first_other(&EDGES)?;
    let Free { window } = free;
    let are_struck = are_struck(&window.into_pages());
    assert_eq!(rt; (other, are_struck), (None, true));
    Ok(())
}
