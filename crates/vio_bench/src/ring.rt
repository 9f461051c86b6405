// Entries that pass over a ring, on one thread and from one thread to another.
ghost use Rattle.std.specs.Prelude.{◌+◌, ◌^◌, ◌<◌, ◌≤◌, IfOk};
ghost use Rattle.crq_ring.specs.declared.TheConstants.{MAX_SLOTS};
ghost use Rattle.crq_ring.specs.Ends.{MayPut, MayPoll};

use crq_ring::{OpenedRing, Poll, Put, RecvEnd, Ring, SendEnd};
use std::alloc::Global;
use std::thread;
use std::thread::Threads;
use vio_num::{Entry, NoMemory};

/// The slots of the ring on one thread, and how many entries lie in them at a time.
const SLOTS: u32 = 64;

const BATCH: u32 = 32;

/// How often a thread tries in vain and in success together, for each entry, before it gives up.
const TRIES: u64 = 1 << 40;

// Makes the entry of this number.
fn entry(k: u32) -> Entry
    ensures { 2 ^ 63 ≤ result.high }
{
    Entry::srp(64, u64::from(k))
}

// Puts this many entries, up to the first that finds its slot full, and counts those that were put.
fn put_batch(ring: &Ring, send: &mut SendEnd, n: u32) -> u32
    requires ours { MayPut ring.now send.old }
    requires spare { n ≤ send.old.spare }
    ensures ours { MayPut ring.now send.new }
    ensures spare { send.old.spare ≤ send.new.spare + n }
    ensures count { result ≤ n }
{
    let mut k = 0;
    while k < n {
        if let Put::Dropped { .. } = ring.put(send, entry(k)) {
            break;
        }
        k += 1;
    }
    k
}

// Takes this many entries, up to the first that is not there, and counts those that were taken.
fn poll_batch(ring: &Ring, recv: &mut RecvEnd, n: u32) -> u32
    requires ours { MayPoll ring.now recv.old }
    requires spare { n ≤ recv.old.spare }
    ensures ours { MayPoll ring.now recv.new }
    ensures spare { recv.old.spare ≤ recv.new.spare + n }
    ensures count { result ≤ n }
{
    let mut k = 0;
    while k < n {
        if let Poll::Empty { .. } = ring.poll(recv) {
            break;
        }
        k += 1;
    }
    k
}

// Passes this many entries in batches, up to one that does not arrive whole, and counts those that arrived.
fn pass_batches(ring: &Ring, send: &mut SendEnd, recv: &mut RecvEnd, count: u32) -> u32
    requires sends { MayPut ring.now send.old }
    requires receives { MayPoll ring.now recv.old }
    requires puts { count ≤ send.old.spare }
    requires polls { count ≤ recv.old.spare }
    ensures { result ≤ count }
{
    let mut left = count;
    while left > 0 {
        let n = left.min(BATCH);
        put_batch(ring, send, n);
        let got = poll_batch(ring, recv, n);
        left -= got;
        if got < n {
            break;
        }
    }
    count - left
}

/// Passes this many entries over a new ring, which ends with them, and counts those that arrived.
pub fn pass_round(alloc: Global, count: u32) -> Result<u32, NoMemory>
    ensures { IfOk result (λ done. done ≤ count) }
{
    let OpenedRing {
        ring,
        mut send,
        mut recv,
    } = Ring::open(alloc, SLOTS)?;
    send.reserve(count)?;
    recv.reserve(count)?;
    Ok(pass_batches(&ring, &mut send, &mut recv, count))
}

// Puts this many entries, each tried until its slot is empty.
fn produce(ring: &Ring, mut send: SendEnd, count: u32) -> u32
    requires { MayPut ring.now send }
    ensures { result ≤ count }
{
    let mut k = 0;
    for _ in 0..TRIES {
        if k == count || send.reserve(1).is_err() {
            break;
        }
        if let Put::Done { .. } = ring.put(&mut send, entry(k)) {
            k += 1;
        }
    }
    k
}

// Takes this many entries, each tried until it is there.
fn consume(ring: &Ring, mut recv: RecvEnd, count: u32) -> u32
    requires { MayPoll ring.now recv }
    ensures { result ≤ count }
{
    let mut k = 0;
    for _ in 0..TRIES {
        if k == count || recv.reserve(1).is_err() {
            break;
        }
        if let Poll::Got { .. } = ring.poll(&mut recv) {
            k += 1;
        }
    }
    k
}

/// Passes this many entries from one thread to another, and counts those that arrived.
pub fn two_threads<R: Threads + Sync>(
    rt: &R,
    alloc: Global,
    slots: u32,
    count: u32,
) -> Result<u32, NoMemory>
    requires { (1 ≤ slots) × (slots ≤ MAX_SLOTS) }
    ensures { IfOk result (λ done. done ≤ count) }
{
    let OpenedRing {
        ring,
        mut send,
        mut recv,
    } = Ring::open(alloc, slots)?;
    send.reserve(count)?;
    recv.reserve(count)?;
    let shared = &ring;
    let (_put, got) = thread::join(
        rt,
        move || produce(shared, send, count),
        move || consume(shared, recv, count),
    );
    Ok(got)
}
