// Shared pages: taken and given in any order, in use, closed, and passed between two threads.
ghost use Rattle.std.specs.Prelude.{◌≡◌, ◌<◌, ◌==◌, ℕ, true, false, IfOk, OnOk};
ghost use Rattle.vio_num.specs.Words.{Begins};
ghost use Rattle.page_slots.specs.Seats.{holds, saw};
ghost use Rattle.page_slots.specs.Turns.{IsIdle};

use page_slots::{OpenedPages, Page, PageSeat, Pages, Stroke, StrokeName, Take};
use std::alloc::Global;
use std::test::Fail;
use std::thread;
use vio_num::{NoMemory, UnitId};

/// How often a thread tries before it gives up.
const TRIES: u32 = 100_000_000;

// Writes one stroke with this mark, in room made for it.
fn mark(alloc: Global, page: &mut Page, mark: u64) -> Result<(), NoMemory>
    ensures { Begins page.old.strokes page.new.strokes }
{
    let name = StrokeName {
        who: UnitId {
            partition: 1,
            unit: 0,
        },
        mark,
    };
    page.reserve(1)?;
    page.write(Stroke::new(alloc, name, 0, b"x")?);
    Ok(())
}

// Takes a page, writes a stroke and gives the page back. Says how many strokes it had then, or
// the turn word.
fn pass(
    alloc: Global,
    pages: &Pages,
    seat: &mut PageSeat,
    page: u16,
    number: u64,
) -> Result<Result<u64, u64>, NoMemory>
    requires idle { IsIdle pages.now seat.old }
    requires within { page < pages.now.count }
    ensures { IsIdle pages.now seat.new }
{
    match pages.take(seat, page) {
        Take::Taken(mut value) => {
            let written = mark(alloc, &mut value, number);
            let strokes = value.strokes().len() as u64;
            pages.give(seat, page, value);
            written?;
            Ok(Ok(strokes))
        }
        Take::InUse { word } => Ok(Err(word)),
    }
}

// The number of strokes that a page has then, or the turn word.
type Passed = Result<u64, u64>;

// Passes two pages while a seat has the first of them in hand; how many strokes that page has.
fn pass_two_held(
    alloc: Global,
    pages: &Pages,
    holder: &mut PageSeat,
    other: &mut PageSeat,
) -> Result<Option<(usize, Passed, Passed)>, NoMemory>
    requires holder { IsIdle pages.now holder.old }
    requires other { IsIdle pages.now other.old }
    requires count { pages.now.count ≡ 3 }
{
    let Take::Taken(held) = pages.take(holder, 1) else {
        return Ok(None);
    };
    let strokes = held.strokes().len();
    let first = pass(alloc, pages, other, 1, 9)?;
    let second = pass(alloc, pages, other, 2, 9)?;
    Ok(Some((strokes, first, second)))
}

// The same of new pages; none where a seat is missing, too.
fn passed_two(alloc: Global) -> Result<Option<(usize, Passed, Passed)>, NoMemory> {
    let OpenedPages { pages, mut seats } = Pages::open(alloc, 3, 2)?;
    let (Some(mut second), Some(mut first)) = (seats.pop(), seats.pop()) else {
        return Ok(None);
    };
    pass_two_held(alloc, &pages, &mut first, &mut second)
}

#[test]
fn a_page_that_is_taken_is_in_use(rt: HostRuntime) -> Result<(), Fail> {
    let want = Some((0, Err(1), Ok(1)));
    assert_eq!(rt; passed_two(rt.alloc())?, want);
    Ok(())
}

// Passes the second page by both seats, and the third by the first.
fn pass_three(
    alloc: Global,
    pages: &Pages,
    first: &mut PageSeat,
    second: &mut PageSeat,
) -> Result<(Passed, Passed, Passed), NoMemory>
    requires first { IsIdle pages.now first.old }
    requires second { IsIdle pages.now second.old }
    requires count { pages.now.count ≡ 3 }
    ensures first { IsIdle pages.now first.new }
    ensures second { IsIdle pages.now second.new }
{
    let one = pass(alloc, pages, second, 1, 9)?;
    let two = pass(alloc, pages, first, 1, 9)?;
    let three = pass(alloc, pages, first, 2, 9)?;
    Ok((one, two, three))
}

// Tells whether the pages have these numbers of strokes.
fn have_strokes(list: &[Page], counts: &[usize]) -> bool {
    for (page, count) in list.iter().zip(counts.iter()) {
        if page.strokes().len() != *count {
            return false;
        }
    }
    list.len() == counts.len()
}

#[test]
fn a_page_given_back_is_taken_by_another_seat(rt: HostRuntime) -> Result<(), Fail> {
    let OpenedPages { pages, mut seats } = Pages::open(rt.alloc(), 3, 2)?;
    let (Some(mut second), Some(mut first)) = (seats.pop(), seats.pop()) else {
        return Err(Fail::new("a seat is missing"));
    };
    let passed = pass_three(rt.alloc(), &pages, &mut first, &mut second)?;
    seats.push(first)?;
    seats.push(second)?;
    let Ok(list) = pages.close(seats) else {
        return Err(Fail::new("out of memory"));
    };
    let are_written = have_strokes(&list, &[0, 2, 1]);
    assert_eq!(rt; (passed, are_written), ((Ok(1), Ok(2), Ok(1)), true));
    Ok(())
}

// Takes the page and writes a stroke with this mark.
fn marked(alloc: Global, pages: &Pages, seat: &mut PageSeat, page: u16) -> Result<Page, Fail>
    requires ours { seat.old.pages ≡ pages.now.id }
    requires within { page < pages.now.count }
    ensures ours { seat.new.pages ≡ pages.now.id }
    ensures held { OnOk result (holds seat.new page ≡ true) }
    ensures seen { IfOk result (λ value. Begins (saw seat.new page) value.strokes) }
    ensures others_held { (k : ℕ) → (k == page) ≡ false → holds seat.new k ≡ holds seat.old k }
    ensures others { (k : ℕ) → (k == page) ≡ false → saw seat.new k ≡ saw seat.old k }
{
    let Take::Taken(mut value) = pages.take(seat, page) else {
        return Err(Fail::new("a page is in use"));
    };
    mark(alloc, &mut value, u64::from(page))?;
    Ok(value)
}

// Takes pages 0 and 1, writes a stroke on each, and gives them back in one of the two orders.
fn two_turns(
    alloc: Global,
    pages: &Pages,
    seat: &mut PageSeat,
    last_first: bool,
) -> Result<(), Fail>
    requires idle { IsIdle pages.now seat.old }
    requires count { pages.now.count ≡ 2 }
    ensures { OnOk result (IsIdle pages.now seat.new) }
{
    let zero = marked(alloc, pages, seat, 0)?;
    let one = marked(alloc, pages, seat, 1)?;
    if last_first {
        pages.give(seat, 1, one);
        pages.give(seat, 0, zero);
    } else {
        pages.give(seat, 0, zero);
        pages.give(seat, 1, one);
    }
    Ok(())
}

// Does so four times, in both orders.
fn eight_turns(alloc: Global, pages: &Pages, seat: &mut PageSeat) -> Result<(), Fail>
    requires idle { IsIdle pages.now seat.old }
    requires count { pages.now.count ≡ 2 }
    ensures { OnOk result (IsIdle pages.now seat.new) }
{
    two_turns(alloc, pages, seat, false)?;
    two_turns(alloc, pages, seat, true)?;
    two_turns(alloc, pages, seat, true)?;
    two_turns(alloc, pages, seat, false)
}

// Tells whether each stroke on a page has this mark.
fn are_marked(page: &Page, mark: u64) -> bool {
    for stroke in page.strokes() {
        if stroke.name().mark != mark {
            return false;
        }
    }
    true
}

// Tells whether each stroke is marked with the number of its page.
fn are_marked_by_page(list: &[Page]) -> bool {
    for (k, page) in list.iter().enumerate() {
        if !are_marked(page, k as u64) {
            return false;
        }
    }
    true
}

#[test]
fn pages_go_back_in_either_order(rt: HostRuntime) -> Result<(), Fail> {
    let OpenedPages { pages, mut seats } = Pages::open(rt.alloc(), 2, 1)?;
    let Some(mut seat) = seats.pop() else {
        return Err(Fail::new("a seat is missing"));
    };
    eight_turns(rt.alloc(), &pages, &mut seat)?;
    seats.push(seat)?;
    let Ok(list) = pages.close(seats) else {
        return Err(Fail::new("out of memory"));
    };
    let are_written = (have_strokes(&list, &[4, 4]), are_marked_by_page(&list));
    assert_eq!(rt; are_written, (true, true));
    Ok(())
}

// Writes this many strokes, each tried until the page is free. Says how many it wrote.
fn work(alloc: Global, pages: &Pages, mut seat: PageSeat, n: u64) -> (PageSeat, u64)
    requires idle { IsIdle pages.now seat }
    requires some { 0 < pages.now.count }
    ensures { IsIdle pages.now result.0 }
{
    let mut k = 0;
    for _ in 0..TRIES {
        if k == n {
            break;
        }
        match pass(alloc, pages, &mut seat, 0, k) {
            Ok(Ok(_)) => k += 1,
            Ok(Err(_)) => thread::yield_now(),
            Err(NoMemory) => break,
        }
    }
    (seat, k)
}

#[test]
fn two_threads_at_one_page(rt: HostRuntime) -> Result<(), Fail> {
    let n = 1000;
    let OpenedPages { pages, mut seats } = Pages::open(rt.alloc(), 1, 2)?;
    let (Some(first), Some(second)) = (seats.pop(), seats.pop()) else {
        return Err(Fail::new("a seat is missing"));
    };
    let shared = &pages;
    let alloc = rt.alloc();
    let ((first, a), (second, b)) = thread::join(
        &rt,
        move || work(alloc, shared, first, n),
        move || work(alloc, shared, second, n),
    );
    seats.push(first)?;
    seats.push(second)?;
    let Ok(list) = pages.close(seats) else {
        return Err(Fail::new("out of memory"));
    };
    let strokes = list[0].strokes().len() as u64;
    assert_eq!(rt; (a, b, strokes), (n, n, 2 * n));
    Ok(())
}
