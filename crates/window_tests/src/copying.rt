// Copies between plain windows: their ranges, their rights, and what they read and lay.
ghost use Rattle.std.specs.Prelude.{◌≡◌, ◌≤◌, IfOk};

mod busy;
mod pages;

use page_slots::{Stroke, StrokeName};
use rdma_copy::{CopyAnswer, copy_rdma};
use std::alloc::Global;
use tce_window::{HoldFault, PlainWindow};
use vio_num::{NoMemory, UnitId};

const SOURCE: UnitId = UnitId {
    partition: 1,
    unit: 2,
};

const TARGET: UnitId = UnitId {
    partition: 3,
    unit: 4,
};

const COPIER: StrokeName = StrokeName {
    who: UnitId {
        partition: 0,
        unit: 9,
    },
    mark: 77,
};

/// A window of so many pages, with this value in its second entry, if there is one.
fn window(
    alloc: Global,
    unit: UnitId,
    pages: u16,
    tce: Option<u64>,
) -> Result<PlainWindow, NoMemory>
    requires { (1 ≤ pages) × (pages ≤ 256) }
    ensures { IfOk result (λ window. window.held_count ≡ 0) }
{
    let mut window = PlainWindow::open(alloc, unit, pages)?;
    if let Some(tce) = tce {
        window.reserve(1)?;
        let _answer = window.put_tce(4096, tce);
    }
    Ok(window)
}

/// The strokes on this page of the window's region, if it is inside.
fn strokes_on(window: &mut PlainWindow, page: u16) -> Option<&[Stroke]> {
    let mut byte = [0];
    match window.read(page as u64 * 4096, &mut byte) {
        Ok(()) => Some(window.strokes(page)),
        Err(_fault) => None,
    }
}

/// Whether no page of the window has a stroke.
fn is_blank(window: &mut PlainWindow) -> bool {
    for page in 0..window.pages() {
        if strokes_on(window, page).is_none_or(|strokes| !strokes.is_empty()) {
            return false;
        }
    }
    true
}

/// What is seen of a copy.
#[derive(Clone, Copy, PartialEq, Eq)]
enum Seen {
    Copied,
    Source(HoldFault),
    Target(HoldFault),
    Parameter,
    Other,
}

fn seen_of(answer: &CopyAnswer) -> Seen {
    match answer {
        CopyAnswer::Copied(_) => Seen::Copied,
        CopyAnswer::SourceParm(fault) => Seen::Source(*fault),
        CopyAnswer::DestParm(fault) => Seen::Target(*fault),
        CopyAnswer::Parameter => Seen::Parameter,
        _ => Seen::Other,
    }
}

/// What is seen of a copy of as many bytes between new windows of as many pages, whose second entries have these
/// values, and whether one of them has a stroke then.
fn copied_with(
    alloc: Global,
    pages: u16,
    tces: (Option<u64>, Option<u64>),
    addresses: (u64, u64),
    len: u64,
) -> Result<(Seen, bool), NoMemory>
    requires { (1 ≤ pages) × (pages ≤ 256) }
{
    let mut source = window(alloc, SOURCE, pages, tces.0)?;
    let mut target = window(alloc, TARGET, pages, tces.1)?;
    let answer = copy_rdma(
        alloc,
        &mut source,
        addresses.0,
        &mut target,
        addresses.1,
        len,
        COPIER,
    );
    let is_struck = !is_blank(&mut source) || !is_blank(&mut target);
    Ok((seen_of(&answer), is_struck))
}

/// An address, a number of bytes, and the first entry past a window of three pages, if they touch one.
static RANGES: [(u64, u64, Option<u64>); 14] = [
    (0, 1, None),
    (1, 1, None),
    (4095, 1, None),
    (4096, 1, None),
    (12_287, 1, None),
    (12_288, 1, Some(3)),
    (u64::MAX, 1, Some(4_503_599_627_370_495)),
    (0, 4096, None),
    (1, 4096, None),
    (4095, 4096, None),
    (4096, 4096, None),
    (12_287, 4096, Some(3)),
    (12_288, 4096, Some(3)),
    (u64::MAX, 4096, Some(4_503_599_627_370_495)),
];

// What is seen where these are the first entries past the windows; the source's is named first.
fn past(source: Option<u64>, target: Option<u64>) -> Seen {
    match (source, target) {
        (Some(entry), _) => Seen::Source(HoldFault::Past { entry }),
        (None, Some(entry)) => Seen::Target(HoldFault::Past { entry }),
        (None, None) => Seen::Copied,
    }
}

// Gives the first range of a target of which something else is seen, where it is as long as a source's range, from
// this address on, whose first entry past the window is this.
fn first_other_target(
    alloc: Global,
    from: u64,
    len: u64,
    source: Option<u64>,
) -> Result<Option<u64>, NoMemory> {
    for (to, other_len, target) in RANGES.iter() {
        if len == *other_len {
            let wanted = past(source, *target);
            let seen = copied_with(alloc, 3, (None, None), (from, *to), len)?;
            if seen != (wanted, wanted == Seen::Copied) {
                return Ok(Some(*to));
            }
        }
    }
    Ok(None)
}

#[test]
fn the_first_entry_past_a_window_is_named_and_the_source_first(
    rt: HostRuntime,
) -> Result<(), NoMemory> {
    for (from, len, source) in RANGES.iter() {
        let other = first_other_target(rt.alloc(), *from, *len, *source)?;
        assert_eq!(rt; other, None, "{len} bytes from {from}");
    }
    Ok(())
}

/// The value of a second entry, what is told of it, and whether it may be read and written.
static RIGHTS: [(u64, u64, bool, bool); 4] = [
    (0x1003, 0x1003, true, true),
    (0x1001, 0x1001, true, false),
    (0x1FFE, 0x1002, false, true),
    (0x1000, 0, false, false),
];

// Tells that entry 1 does not grant the right, and has this value.
fn lacks(tce: u64) -> HoldFault {
    HoldFault::NotGranted {
        entry: 1,
        version: 1,
        tce,
    }
}

// Gives the first value of a target's entry of which something else is seen, where the source's has this value, which
// is told so, and may be read or not.
fn first_other_writable(
    alloc: Global,
    from: u64,
    from_told: u64,
    is_read: bool,
) -> Result<Option<u64>, NoMemory> {
    for (to, to_told, _, is_written) in RIGHTS.iter() {
        let wanted = match (is_read, *is_written) {
            (false, _) => Seen::Source(lacks(from_told)),
            (true, false) => Seen::Target(lacks(*to_told)),
            (true, true) => Seen::Copied,
        };
        let tces = (Some(from), Some(*to));
        let seen = copied_with(alloc, 2, tces, (4095, 4095), 2)?;
        if seen != (wanted, wanted == Seen::Copied) {
            return Ok(Some(*to));
        }
    }
    Ok(None)
}

#[test]
fn a_source_must_be_readable_and_a_target_writable(rt: HostRuntime) -> Result<(), NoMemory> {
    for (from, told, is_read, _) in RIGHTS.iter() {
        let other = first_other_writable(rt.alloc(), *from, *told, *is_read)?;
        assert_eq!(rt; other, None, "from {from:#x}");
    }
    Ok(())
}

/// A number of bytes, what is seen of their copy, and whether a stroke is laid.
static LENGTHS: [(u64, Seen, bool); 5] = [
    (0, Seen::Copied, false),
    (1, Seen::Copied, true),
    (65_536, Seen::Copied, true),
    (65_537, Seen::Parameter, false),
    (u64::MAX, Seen::Parameter, false),
];

#[test]
fn a_copy_of_more_than_65_536_bytes_is_refused(rt: HostRuntime) -> Result<(), NoMemory> {
    for (len, wanted, is_struck) in LENGTHS.iter() {
        let seen = copied_with(rt.alloc(), 17, (None, None), (1, 1), *len)?;
        assert!(rt; seen == (*wanted, *is_struck), "{len} bytes");
    }
    let tces = (None, Some(0x1001));
    let seen = copied_with(rt.alloc(), 2, tces, (0, 4000), 4096)?;
    assert!(rt; seen == (Seen::Target(lacks(0x1001)), false));
    Ok(())
}
