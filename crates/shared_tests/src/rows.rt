// Copies between shared windows, in a table: what is answered, and how many strokes the target has once it is closed.
ghost use Rattle.std.specs.Prelude.{◌≡◌, ◌≤◌};
ghost use Rattle.shared_window.specs.Opening.{IsOwnerAt};
ghost use Rattle.shared_window.specs.SharedWindow.{IsIdleAt};

use crate::guests::{Shared, UNIT, close_two, open_two};
use page_slots::StrokeName;
use rdma_copy::{CopyAnswer, copy_rdma};
use shared_window::{Guest, Owner, SharedGuest, Window};
use std::alloc::Global;
use std::test::Fail;
use tce_window::{HoldFault, PlainWindow, Right};
use vio_num::NoMemory;

/// What is seen of a copy: how many pieces were read and written, or why none was.
#[derive(Clone, Copy, PartialEq, Eq)]
enum Seen {
    Copied(usize, usize),
    Target(HoldFault),
    /// This page is in use.
    Busy(u16),
    Parameter,
    Other,
}

fn seen_of(answer: &CopyAnswer) -> Seen {
    match answer {
        CopyAnswer::Copied(copy) => Seen::Copied(copy.from.len(), copy.to.len()),
        CopyAnswer::DestParm(fault) => Seen::Target(*fault),
        CopyAnswer::Busy { page, .. } => Seen::Busy(*page),
        CopyAnswer::Parameter => Seen::Parameter,
        _ => Seen::Other,
    }
}

// Copies from window to window, by a guest of each.
fn between(
    alloc: Global,
    first: &Window,
    a: &mut Guest,
    second: &Window,
    b: &mut Guest,
    range: (u64, u64, u64),
) -> Seen
    requires a { IsIdleAt first.now a.old }
    requires b { IsIdleAt second.now b.old }
    ensures a { IsIdleAt first.now a.new }
    ensures b { IsIdleAt second.now b.new }
{
    let (from, to, len) = range;
    let mut source = SharedGuest {
        window: first,
        guest: a,
    };
    let mut target = SharedGuest {
        window: second,
        guest: b,
    };
    let name = StrokeName { who: UNIT, mark: 7 };
    let answer = copy_rdma(alloc, &mut source, from, &mut target, to, len, name);
    seen_of(&answer)
}

// Puts the value, if there is one, into the second entry.
fn put_second(window: &Window, owner: &mut Owner, tce: Option<u64>) -> Result<(), NoMemory>
    requires at { IsOwnerAt window.now owner.old }
    requires free { owner.old.seat.entries.held_count ≡ 0 }
    ensures at { IsOwnerAt window.now owner.new }
    ensures free { owner.new.seat.entries.held_count ≡ 0 }
{
    if let Some(tce) = tce {
        window.reserve(owner, 1)?;
        let _answer = window.put_tce(owner, 4096, tce);
    }
    Ok(())
}

// The number of strokes in a window.
fn strokes_in(plain: &PlainWindow) -> usize
    requires { plain.now.held_count ≡ 0 }
{
    let mut strokes = 0usize;
    for page in 0..plain.pages() {
        strokes = strokes.saturating_add(plain.strokes(page).len());
    }
    strokes
}

/// The pages of both windows, the value in the target's second entry, the addresses in both, the bytes to be copied; what
/// is seen, and the strokes in the target.
type Row = (u16, u16, Option<u64>, (u64, u64, u64), Seen, usize);

static ROWS: [Row; 5] = [
    (
        2,
        2,
        Some(0x1001),
        (4000, 4000, 4096),
        Seen::Target(HoldFault::NotGranted {
            entry: 1,
            version: 1,
            tce: 0x1001,
        }),
        0,
    ),
    (17, 17, None, (1, 1, 0), Seen::Copied(0, 0), 0),
    (17, 17, None, (1, 1, 65_536), Seen::Copied(17, 17), 17),
    (17, 17, None, (1, 1, 65_537), Seen::Parameter, 0),
    (4, 2, None, (4090, 100, 5000), Seen::Copied(3, 2), 2),
];

// Copies to a window, and closes it.
fn copied_to(
    alloc: Global,
    first: &Window,
    a: &mut Guest,
    target: Shared,
    tce: Option<u64>,
    range: (u64, u64, u64),
) -> Result<(Seen, usize), Fail>
    requires source { IsIdleAt first.now a.old }
    requires owner { IsOwnerAt target.window target.owner }
    requires free { target.owner.seat.entries.held_count ≡ 0 }
    requires guests { IsIdleAt target.window target.a × IsIdleAt target.window target.b }
    requires all { target.window.pages.seats ≡ 3 }
{
    let mut target = target;
    put_second(&target.window, &mut target.owner, tce)?;
    let seen = between(alloc, first, a, &target.window, &mut target.a, range);
    let plain = close_two(alloc, target)?;
    Ok((seen, strokes_in(&plain)))
}

// Copies between new windows of these numbers of pages.
fn copied(
    alloc: Global,
    pages: (u16, u16),
    tce: Option<u64>,
    range: (u64, u64, u64),
) -> Result<(Seen, usize), Fail>
    requires source { (1 ≤ pages.0) × (pages.0 ≤ 256) }
    requires target { (1 ≤ pages.1) × (pages.1 ≤ 256) }
{
    let target = open_two(alloc, pages.1)?;
    let mut source = open_two(alloc, pages.0)?;
    copied_to(alloc, &source.window, &mut source.a, target, tce, range)
}

#[test]
fn ranges_are_copied_whole_or_not_at_all(rt: HostRuntime) -> Result<(), Fail> {
    for (from, to, tce, range, seen, strokes) in ROWS.iter() {
        let pages = ((*from).clamp(1, 256), (*to).clamp(1, 256));
        let found = copied(rt.alloc(), pages, *tce, *range)?;
        assert!(rt; found == (*seen, *strokes), "{from} pages to {to}");
    }
    Ok(())
}

// Copies of one byte to a window and from it while another guest of it holds its first page, and one to it after. None
// where the other guest is refused.
fn meet(
    alloc: Global,
    first: &Window,
    a: &mut Guest,
    second: &Window,
    b: &mut Guest,
    other: &mut Guest,
) -> Option<(Seen, Seen, Seen)>
    requires first { IsIdleAt first.now a.old }
    requires second { IsIdleAt second.now b.old × IsIdleAt second.now other.old }
{
    let Ok(held) = second.hold(other, 0, 16, Right::Write) else {
        return None;
    };
    let to = between(alloc, first, a, second, b, (0, 0, 1));
    let from = between(alloc, second, b, first, a, (0, 0, 1));
    second.give_back(other, held);
    let after = between(alloc, first, a, second, b, (0, 0, 1));
    Some((to, from, after))
}

// The same of new windows.
fn met(alloc: Global) -> Result<Option<(Seen, Seen, Seen)>, Fail> {
    let mut source = open_two(alloc, 2)?;
    let mut target = open_two(alloc, 2)?;
    Ok(meet(
        alloc,
        &source.window,
        &mut source.a,
        &target.window,
        &mut target.a,
        &mut target.b,
    ))
}

#[test]
fn a_page_in_use_is_named_of_either_side(rt: HostRuntime) -> Result<(), Fail> {
    let found = met(rt.alloc())?;
    assert!(rt; found == Some((Seen::Busy(0), Seen::Busy(0), Seen::Copied(1, 1))));
    Ok(())
}
