// Pages copied between two windows, plain and shared, and their turns alone, beside the same pages copied as plain memory.
ghost use Rattle.std.specs.Prelude.{◌≡◌, ◌≤◌, ◌<◌, IfOk, IfSome};
ghost use Rattle.page_slots.specs.Turns.{IsIdle};
ghost use Rattle.shared_window.specs.SharedWindow.{IsIdleAt};

use page_slots::{OpenedPages, PageSeat, Pages, StrokeName, Take};
use rdma_copy::{CopyAnswer, copy_rdma};
use shared_window::{Guest, Opened, SharedGuest, Window};
use std::alloc::Global;
use tce_window::{GuestPort, PlainWindow};
use vio_num::{NoMemory, PAGE_BYTES, UnitId};

/// The pages of each window; plain memory has as many.
const PAGES: u16 = 64;

const SOURCE: UnitId = UnitId {
    partition: 0,
    unit: 0,
};

const TARGET: UnitId = UnitId {
    partition: 1,
    unit: 0,
};

const NAME: StrokeName = StrokeName {
    who: SOURCE,
    mark: 1,
};

// Gives a page out of all, another one for each number.
fn page_of(k: u32) -> u64
    ensures { result < 64 }
{
    u64::from(k.wrapping_mul(2_654_435_761) / 65_536 % 64)
}

/// Copies this many pages of 4,096 bytes, from random places to random places.
pub fn copy_memory(alloc: Global, count: u32) -> Result<u32, NoMemory>
    ensures { IfOk result (λ done. done ≤ count) }
{
    let source = vec![in alloc; [1u8; 4096]; 64]?;
    let mut target = vec![in alloc; [0u8; 4096]; 64]?;
    for k in 0..count {
        let to = page_of(k.wrapping_add(7)) as usize;
        target[to].copy_from_slice(&source[page_of(k) as usize]);
    }
    Ok(if target[0][0] < 2 { count } else { 0 })
}

// Copies this many pages from window to window, up to the first that is refused, and counts those that were copied.
fn copy_each<S: GuestPort, D: GuestPort>(
    alloc: Global,
    source: &mut S,
    target: &mut D,
    count: u32,
) -> u32
    requires source { (S.state source.old).held_count ≡ 0 }
    requires target { (D.state target.old).held_count ≡ 0 }
    ensures { result ≤ count }
{
    let mut done = 0;
    while done < count {
        let from = page_of(done) * PAGE_BYTES;
        let to = page_of(done.wrapping_add(7)) * PAGE_BYTES;
        let CopyAnswer::Copied(_) = copy_rdma(alloc, source, from, target, to, PAGE_BYTES, NAME)
        else {
            break;
        };
        done += 1;
    }
    done
}

/// Copies this many pages between two plain windows.
pub fn copy_plain(alloc: Global, count: u32) -> Result<u32, NoMemory>
    ensures { IfOk result (λ done. done ≤ count) }
{
    let mut source = PlainWindow::open(alloc, SOURCE, PAGES)?;
    let mut target = PlainWindow::open(alloc, TARGET, PAGES)?;
    Ok(copy_each(alloc, &mut source, &mut target, count))
}

// Opens a window with a guest; none where the guest is missing.
fn open_shared(alloc: Global, unit: UnitId) -> Result<Option<(Window, Guest)>, NoMemory>
    ensures { IfOk result (λ opened. IfSome opened (λ pair. IsIdleAt pair.0 pair.1)) }
{
    let Opened {
        window,
        owner: _,
        mut guests,
    } = Window::open(alloc, unit, PAGES, 1)?;
    match guests.pop() {
        Some(guest) => Ok(Some((window, guest))),
        None => Ok(None),
    }
}

/// Copies this many pages between two shared windows.
pub fn copy_shared(alloc: Global, count: u32) -> Result<u32, NoMemory>
    ensures { IfOk result (λ done. done ≤ count) }
{
    let Some((first, mut reader)) = open_shared(alloc, SOURCE)? else {
        return Ok(0);
    };
    let Some((second, mut writer)) = open_shared(alloc, TARGET)? else {
        return Ok(0);
    };
    let mut source = SharedGuest {
        window: &first,
        guest: &mut reader,
    };
    let mut target = SharedGuest {
        window: &second,
        guest: &mut writer,
    };
    Ok(copy_each(alloc, &mut source, &mut target, count))
}

// Takes a page and gives it back. Tells whether it was there.
fn turn(pages: &Pages, seat: &mut PageSeat, page: u16) -> bool
    requires idle { IsIdle pages.now seat.old }
    requires within { page < pages.now.count }
    ensures { IsIdle pages.now seat.new }
{
    match pages.take(seat, page) {
        Take::Taken(value) => {
            pages.give(seat, page, value);
            true
        }
        Take::InUse { .. } => false,
    }
}

// Opens pages with a seat; none where the seat is missing.
fn open_pages(alloc: Global) -> Result<Option<(Pages, PageSeat)>, NoMemory>
    ensures { IfOk result (λ opened. IfSome opened
        (λ pair. IsIdle pair.0 pair.1 × (pair.0.count ≡ 64))) }
{
    let OpenedPages { pages, mut seats } = Pages::open(alloc, PAGES, 1)?;
    match seats.pop() {
        Some(seat) => Ok(Some((pages, seat))),
        None => Ok(None),
    }
}

// Takes and gives back this many pages of each, up to the first that is not there, and counts them.
fn turn_each(
    first: &Pages,
    reader: &mut PageSeat,
    second: &Pages,
    writer: &mut PageSeat,
    count: u32,
) -> u32
    requires reader { IsIdle first.now reader.old }
    requires writer { IsIdle second.now writer.old }
    requires counts { (first.now.count ≡ 64) × (second.now.count ≡ 64) }
    ensures { result ≤ count }
{
    let mut done = 0;
    while done < count {
        if !turn(first, reader, page_of(done) as u16)
            || !turn(second, writer, page_of(done.wrapping_add(7)) as u16)
        {
            break;
        }
        done += 1;
    }
    done
}

/// Takes and gives back this many pages of a source and as many of a target.
pub fn turn_pages(alloc: Global, count: u32) -> Result<u32, NoMemory>
    ensures { IfOk result (λ done. done ≤ count) }
{
    let Some((first, mut reader)) = open_pages(alloc)? else {
        return Ok(0);
    };
    let Some((second, mut writer)) = open_pages(alloc)? else {
        return Ok(0);
    };
    Ok(turn_each(&first, &mut reader, &second, &mut writer, count))
}
