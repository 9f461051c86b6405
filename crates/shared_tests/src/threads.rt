// A window that two guests write and an owner puts values into, on threads of their own.
ghost use Rattle.std.specs.Prelude.{◌≡◌, ◌<◌};
ghost use Rattle.shared_window.specs.Opening.{IsOwnerAt};
ghost use Rattle.shared_window.specs.SharedWindow.{IsIdleAt};

use crate::closing::write;
use crate::guests::{Shared, close_two, open_two};
use shared_window::{Guest, Owner, Window};
use std::alloc::Global;
use std::test::Fail;
use std::thread::{self, Threads};
use tce_window::{PlainWindow, TceAnswer};

/// How often each tries before it gives up.
const TRIES: u32 = 100_000_000;

/// How often each works.
const ROUNDS: u16 = 1000;

// Writes this many strokes through entry 0, each tried until it is written. Says how many it wrote.
fn guest(alloc: Global, window: &Window, mut guest: Guest, n: u16) -> (Guest, u16)
    requires { IsIdleAt window.now guest }
    ensures { IsIdleAt window.now result.0 }
{
    let mut written = 0;
    for _ in 0..TRIES {
        if written >= n {
            break;
        }
        match write(window, &mut guest, 0, b"x", u64::from(written)) {
            Ok(true) => written += 1,
            Ok(false) => thread::yield_now(),
            Err(_) => break,
        }
    }
    (guest, written)
}

// Puts this many values into entry 0, each tried until it is put. Says how many it put.
fn owner(window: &Window, mut owner: Owner, n: u16) -> (Owner, u16)
    requires at { IsOwnerAt window.now owner }
    requires free { owner.seat.entries.held_count ≡ 0 }
    ensures at { IsOwnerAt window.now result.0 }
    ensures free { result.0.seat.entries.held_count ≡ 0 }
{
    let mut puts = 0;
    for _ in 0..TRIES {
        if puts >= n || window.reserve(&mut owner, 1).is_err() {
            break;
        }
        match window.put_tce(&mut owner, 0, 3) {
            TceAnswer::Done => puts += 1,
            _ => thread::yield_now(),
        }
    }
    (owner, puts)
}

// Has two guests work on threads of their own.
fn both<R: Threads + Sync>(
    rt: &R,
    alloc: Global,
    window: &Window,
    a: Guest,
    b: Guest,
) -> ((Guest, u16), (Guest, u16))
    requires a { IsIdleAt window.now a }
    requires b { IsIdleAt window.now b }
    ensures a { IsIdleAt window.now result.0.0 }
    ensures b { IsIdleAt window.now result.1.0 }
{
    thread::join(
        rt,
        move || guest(alloc, window, a, ROUNDS),
        move || guest(alloc, window, b, ROUNDS),
    )
}

// Has the owner work, too.
fn all<R: Threads + Sync>(
    rt: &R,
    alloc: Global,
    window: &Window,
    first: Owner,
    a: Guest,
    b: Guest,
) -> ((Owner, u16), ((Guest, u16), (Guest, u16)))
    requires at { IsOwnerAt window.now first }
    requires free { first.seat.entries.held_count ≡ 0 }
    requires a { IsIdleAt window.now a }
    requires b { IsIdleAt window.now b }
    ensures at { IsOwnerAt window.now result.0.0 }
    ensures free { result.0.0.seat.entries.held_count ≡ 0 }
    ensures a { IsIdleAt window.now result.1.0.0 }
    ensures b { IsIdleAt window.now result.1.1.0 }
{
    thread::join(
        rt,
        move || owner(window, first, ROUNDS),
        move ||
            requires { IsIdleAt window.now a × IsIdleAt window.now b }
        { both(rt, alloc, window, a, b) },
    )
}

// The numbers of strokes on the first page of a window, and of its values.
fn counts(plain: &PlainWindow) -> (usize, usize)
    requires { plain.now.held_count ≡ 0 }
{
    let _pages = plain.pages();
    (plain.strokes(0).len(), plain.values().len())
}

// How many each of them did, and the numbers of strokes and values once the window is closed.
fn play<R: Threads + Sync>(
    rt: &R,
    alloc: Global,
) -> Result<((u16, u16, u16), (usize, usize)), Fail> {
    let Shared {
        window,
        owner: first,
        a,
        b,
    } = open_two(alloc, 1)?;
    let ((owner, puts), ((a, by_a), (b, by_b))) = all(rt, alloc, &window, first, a, b);
    let plain = close_two(
        alloc,
        Shared {
            window,
            owner,
            a,
            b,
        },
    )?;
    Ok(((puts, by_a, by_b), counts(&plain)))
}

#[test]
fn two_guests_write_while_an_owner_puts(rt: HostRuntime) -> Result<(), Fail> {
    assert_eq!(rt;
        play(&rt, rt.alloc())?,
        ((ROUNDS, ROUNDS, ROUNDS), (2000, 1000))
    );
    Ok(())
}
