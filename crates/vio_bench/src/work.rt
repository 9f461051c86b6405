// The works by their names.
ghost use Rattle.std.specs.Prelude.{◌≡◌, ◌≤◌, IfOk, IfSome};

use crate::{copy, link, ring, serve};
use std::alloc::Global;
use std::thread::Threads;
use vio_num::NoMemory;

/// A work is done at most so many times.
pub const MOST: u32 = 100_000_000;

/// The times that a work on one thread is done before it begins anew, with another ring, link or server, so that what is
/// kept of it lies in memory that was used before.
pub const ROUND: u32 = 512;

/// What is done over and over.
#[derive(Clone, Copy, Debug, PartialEq, Eq)]
pub enum Work {
    /// An entry is put and taken, on one thread.
    RingOne,
    /// An entry goes from one thread to another, over four slots.
    RingTwo,
    /// The same over 64 slots.
    RingTwo64,
    /// An entry is sent over a shared link and taken, on one thread.
    LinkOne,
    /// An entry is sent from one thread to another over a shared link.
    LinkTwo,
    /// 4,096 bytes are copied.
    Memcpy,
    /// A shared page is taken and given back, and another one.
    Turns,
    /// A page is copied between plain windows.
    CopyPlain,
    /// A page is copied between shared windows.
    Copy,
    /// A server unit serves a TEST UNIT READY, in a turn.
    Turn,
}

/// What is done on one thread.
#[derive(Clone, Copy, Debug, PartialEq, Eq)]
enum Alone {
    Ring,
    Link,
    Memcpy,
    Turns,
    CopyPlain,
    Copy,
    Turn,
}

impl Work {
    /// The word that names it.
    pub fn name(self) -> &'static str {
        match self {
            Work::RingOne => "ring-1",
            Work::RingTwo => "ring-2",
            Work::RingTwo64 => "ring-2-64",
            Work::LinkOne => "link-1",
            Work::LinkTwo => "link-2",
            Work::Memcpy => "memcpy",
            Work::Turns => "turns",
            Work::CopyPlain => "copy-plain",
            Work::Copy => "copy",
            Work::Turn => "turn",
        }
    }
}

/// Reads a work and a count.
pub fn work_of(name: &str, count: &str) -> Option<(Work, u32)>
    ensures { IfSome result (λ found. (1 ≤ found.1) × (found.1 ≤ MOST)) }
{
    let work = match name {
        "ring-1" => Work::RingOne,
        "ring-2" => Work::RingTwo,
        "ring-2-64" => Work::RingTwo64,
        "link-1" => Work::LinkOne,
        "link-2" => Work::LinkTwo,
        "memcpy" => Work::Memcpy,
        "turns" => Work::Turns,
        "copy-plain" => Work::CopyPlain,
        "copy" => Work::Copy,
        "turn" => Work::Turn,
        _ => return None,
    };
    let count = count.parse::<u32>().ok()?;
    if count == 0 || count > MOST {
        return None;
    }
    Some((work, count))
}

/// Does the work, and gives how often it was done; none where memory ran out.
pub fn do_work<R: Threads + Sync>(rt: &R, alloc: Global, work: Work, count: u32) -> Option<u32>
    requires { count ≤ MOST }
    ensures { IfSome result (λ done. done ≤ count) }
{
    match work {
        Work::RingOne => in_rounds(alloc, Alone::Ring, count).ok(),
        Work::RingTwo => ring::two_threads(rt, alloc, 4, count).ok(),
        Work::RingTwo64 => ring::two_threads(rt, alloc, 64, count).ok(),
        Work::LinkOne => in_rounds(alloc, Alone::Link, count).ok(),
        Work::LinkTwo => link::two_threads(rt, alloc, count).ok(),
        Work::Memcpy => in_rounds(alloc, Alone::Memcpy, count).ok(),
        Work::Turns => in_rounds(alloc, Alone::Turns, count).ok(),
        Work::CopyPlain => in_rounds(alloc, Alone::CopyPlain, count).ok(),
        Work::Copy => in_rounds(alloc, Alone::Copy, count).ok(),
        Work::Turn => in_rounds(alloc, Alone::Turn, count).ok(),
    }
}

// Does a work in rounds, up to one that is not done whole, and counts how often it was done.
fn in_rounds(alloc: Global, work: Alone, count: u32) -> Result<u32, NoMemory>
    ensures { IfOk result (λ done. done ≤ count) }
{
    let mut left = count;
    while left > 0 {
        let n = left.min(ROUND);
        let done = do_round(alloc, work, n)?;
        left -= done;
        if done < n {
            break;
        }
    }
    Ok(count - left)
}

// Does a work so many times, over a ring, a link or a server of its own.
fn do_round(alloc: Global, work: Alone, count: u32) -> Result<u32, NoMemory>
    requires { count ≤ ROUND }
    ensures { IfOk result (λ done. done ≤ count) }
{
    match work {
        Alone::Ring => ring::pass_round(alloc, count),
        Alone::Link => link::pass_round(alloc, count),
        Alone::Memcpy => copy::copy_memory(alloc, count),
        Alone::Turns => copy::turn_pages(alloc, count),
        Alone::CopyPlain => copy::copy_plain(alloc, count),
        Alone::Copy => copy::copy_shared(alloc, count),
        Alone::Turn => serve::serve_round(alloc, count),
    }
}
