// Entries that pass over a shared link, on one thread and from one thread to another.
ghost use Rattle.std.specs.Prelude.{◌≡◌, ◌+◌, ◌≤◌, ◌<◌, ◌^◌, false, IfOk, OnOk};
ghost use Rattle.crq_session.specs.LinkSeats.{IsSeatOf};

use crate::work::ROUND;
use crq_session::{CrqEnd, Link, LinkSeat, OpenedLink, PollAnswer, SendAnswer, SharedEnd};
use std::alloc::Global;
use std::thread;
use std::thread::Threads;
use vio_num::{Entry, NoMemory, PAGE_BYTES};

/// The slots of each queue, one page of them.
const SLOTS: u32 = 256;

/// How many entries lie in a queue at a time, on one thread.
const BATCH: u32 = 32;

/// How often a thread tries in vain and in success together, for each entry, before it gives up.
const TRIES: u64 = 1 << 40;

// Makes the entry of this number.
fn entry(k: u32) -> Entry {
    Entry::srp(64, u64::from(k))
}

// Sends this many entries, up to the first that is not put, and counts those that were.
fn send_batch<E: CrqEnd>(end: &mut E, n: u32) -> u32
    requires { n ≤ (E.state end.old).spare }
    ensures spare { (E.state end.old).spare ≤ (E.state end.new).spare + n }
    ensures count { result ≤ n }
{
    let mut k = 0;
    while k < n {
        let SendAnswer::Success { .. } = end.send(entry(k)) else {
            break;
        };
        k += 1;
    }
    k
}

// Takes this many entries, up to the first that is not there, and counts those that were taken.
fn poll_batch<E: CrqEnd>(end: &mut E, n: u32) -> u32
    requires { n ≤ (E.state end.old).spare }
    ensures spare { (E.state end.old).spare ≤ (E.state end.new).spare + n }
    ensures count { result ≤ n }
{
    let mut k = 0;
    while k < n {
        let PollAnswer::Got { .. } = end.poll() else {
            break;
        };
        k += 1;
    }
    k
}

// Passes this many entries in batches, up to one that does not arrive whole, and counts those that arrived.
fn pass_batches<A: CrqEnd, B: CrqEnd>(from: &mut A, to: &mut B, count: u32) -> u32
    requires sends { count ≤ (A.state from.old).spare }
    requires polls { count ≤ (B.state to.old).spare }
    ensures { result ≤ count }
{
    let mut left = count;
    while left > 0 {
        let n = left.min(BATCH);
        send_batch(from, n);
        let got = poll_batch(to, n);
        left -= got;
        if got < n {
            break;
        }
    }
    count - left
}

// Makes room for this many calls of an end and one more, with which its queue is registered.
fn register<E: CrqEnd>(end: &mut E, count: u32) -> Result<(), NoMemory>
    requires { count + 1 < 2 ^ 32 }
    ensures spare { OnOk result (count ≤ (E.state end.new).spare) }
    ensures place { (E.state end.new).place ≡ (E.state end.old).place }
{
    end.reserve(count + 1)?;
    end.register(0, PAGE_BYTES);
    Ok(())
}

/// Passes this many entries over a new link, which ends with them, and counts those that arrived.
pub fn pass_round(alloc: Global, count: u32) -> Result<u32, NoMemory>
    requires { count ≤ ROUND }
    ensures { IfOk result (λ done. done ≤ count) }
{
    let OpenedLink { link, mut a, mut b } = Link::open(alloc, SLOTS, SLOTS)?;
    let mut from = SharedEnd {
        link: &link,
        seat: &mut a,
    };
    let mut to = SharedEnd {
        link: &link,
        seat: &mut b,
    };
    register(&mut from, count)?;
    register(&mut to, count)?;
    Ok(pass_batches(&mut from, &mut to, count))
}

// Sends this many entries, each tried until it is put.
fn send_each<E: CrqEnd>(end: &mut E, count: u32) -> u32
    ensures { result ≤ count }
{
    let mut k = 0;
    for _ in 0..TRIES {
        if k == count || end.reserve(1).is_err() {
            break;
        }
        if let SendAnswer::Success { .. } = end.send(entry(k)) {
            k += 1;
        }
    }
    k
}

// Takes this many entries, each tried until it is there.
fn poll_each<E: CrqEnd>(end: &mut E, count: u32) -> u32
    ensures { result ≤ count }
{
    let mut k = 0;
    for _ in 0..TRIES {
        if k == count || end.reserve(1).is_err() {
            break;
        }
        if let PollAnswer::Got { .. } = end.poll() {
            k += 1;
        }
    }
    k
}

// Registers the queue of a seat, with room for this many calls.
fn register_seat(link: &Link, seat: &mut LinkSeat, count: u32) -> Result<(), NoMemory>
    requires ours { IsSeatOf link.now seat.old }
    requires outside { seat.old.send.inside ≡ false }
    requires few { count + 1 < 2 ^ 32 }
    ensures ours { IsSeatOf link.now seat.new }
    ensures outside { seat.new.send.inside ≡ false }
{
    let mut end = SharedEnd { link, seat };
    register(&mut end, count)
}

// Sends this many entries from a seat.
fn produce(link: &Link, mut seat: LinkSeat, count: u32) -> u32
    requires ours { IsSeatOf link.now seat }
    requires outside { seat.send.inside ≡ false }
    ensures { result ≤ count }
{
    let mut end = SharedEnd {
        link,
        seat: &mut seat,
    };
    send_each(&mut end, count)
}

// Takes this many entries at a seat.
fn consume(link: &Link, mut seat: LinkSeat, count: u32) -> u32
    requires ours { IsSeatOf link.now seat }
    requires outside { seat.send.inside ≡ false }
    ensures { result ≤ count }
{
    let mut end = SharedEnd {
        link,
        seat: &mut seat,
    };
    poll_each(&mut end, count)
}

/// Passes this many entries from one thread to another, and counts those that arrived.
pub fn two_threads<R: Threads + Sync>(rt: &R, alloc: Global, count: u32) -> Result<u32, NoMemory>
    requires { count + 1 < 2 ^ 32 }
    ensures { IfOk result (λ done. done ≤ count) }
{
    let OpenedLink { link, mut a, mut b } = Link::open(alloc, SLOTS, SLOTS)?;
    register_seat(&link, &mut a, count)?;
    register_seat(&link, &mut b, count)?;
    let shared = &link;
    let (_sent, got) = thread::join(
        rt,
        move || produce(shared, a, count),
        move || consume(shared, b, count),
    );
    Ok(got)
}
