// Two threads that send, free and register over each other.
ghost use Rattle.std.specs.Prelude.{◌≡◌, ◌≤◌, false, length};
ghost use Rattle.crq_session.specs.LinkSeats.{IsSeatOf};

use super::calls::{Answer, COMMAND, Call, REGISTER};
use super::sides::call_seat;
use crq_ring::{PipeRow, PlainPipe};
use crq_session::{FreeAnswer, Link, LinkSeat, OpenedLink, PlainLink, PollAnswer, SendAnswer};
use std::test::Fail;
use std::thread;

/// How often a thread tries before it gives up.
const TRIES: u32 = 100_000_000;

// Makes a call, and says whether it did what it is for: the queue was freed, an entry was put or taken.
fn does(link: &Link, seat: &mut LinkSeat, made: Call) -> bool
    requires ours { IsSeatOf link.now seat.old }
    requires outside { seat.old.send.inside ≡ false }
    ensures ours { IsSeatOf link.now seat.new }
    ensures outside { seat.new.send.inside ≡ false }
    ensures first { seat.new.first ≡ seat.old.first }
{
    match call_seat(link, seat, made) {
        Ok(
            Answer::Free(FreeAnswer::Success)
            | Answer::Send(SendAnswer::Success { .. })
            | Answer::Poll(PollAnswer::Got { .. }),
        ) => true,
        _ => false,
    }
}

// Makes a call until it does what it is for, and lets the other thread run in between.
fn does_once(link: &Link, seat: &mut LinkSeat, made: Call) -> bool
    requires ours { IsSeatOf link.now seat.old }
    requires outside { seat.old.send.inside ≡ false }
    ensures ours { IsSeatOf link.now seat.new }
    ensures outside { seat.new.send.inside ≡ false }
    ensures first { seat.new.first ≡ seat.old.first }
{
    for _ in 0..TRIES {
        if does(link, seat, made) {
            return true;
        }
        thread::yield_now();
    }
    false
}

// The calls of a session in turn: it begins, entries are sent and taken, and it ends.
fn call_of(k: u32) -> Call {
    match k % 6 {
        0 => REGISTER,
        1 | 2 => Call::Send(COMMAND + u64::from(k)),
        3 | 4 => Call::Poll,
        _ => Call::Free,
    }
}

// Registers, waits for an entry of the partner once it has sent one, and then comes and goes this many
// times.
fn come_and_go(link: &Link, mut seat: LinkSeat, n: u32) -> (LinkSeat, bool, u32)
    requires ours { IsSeatOf link.now seat }
    requires outside { seat.send.inside ≡ false }
    ensures ours { IsSeatOf link.now result.0 }
    ensures first { result.0.first ≡ seat.first }
{
    does(link, &mut seat, REGISTER);
    let met = does_once(link, &mut seat, Call::Send(COMMAND))
        && does_once(link, &mut seat, Call::Poll);
    let mut freed = 0;
    for k in 0..TRIES {
        if freed == n {
            break;
        }
        let made = call_of(k);
        let did = does(link, &mut seat, made);
        if made == Call::Free {
            if did {
                freed += 1;
            } else {
                thread::yield_now();
            }
        }
    }
    (seat, met, freed)
}

// Finds the first row from here on that is not of an earlier session. None where more than this many rows
// of one session lie before it.
fn first_of(sent: &[PipeRow], from: usize, session: u64, slots: u32) -> Option<usize>
    requires { from ≤ length sent.now }
{
    let mut left = 0u64;
    let mut of = 0;
    for (k, row) in sent[from..].iter().enumerate() {
        if row.session >= session {
            return Some(from + k);
        }
        left = if row.session == of { left + 1 } else { 1 };
        of = row.session;
        if left > u64::from(slots) {
            return None;
        }
    }
    Some(sent.len())
}

// Whether what was taken in each session is a front of what was put in it, and as many entries as there are
// slots at most were left.
fn is_handed(queue: &PlainPipe) -> bool {
    let sent = queue.sent();
    let mut at = 0;
    for row in queue.taken() {
        match first_of(sent, at, row.session, queue.slots()) {
            Some(next) if sent.get(next) == Some(row) => at = next + 1,
            _ => return false,
        }
    }
    first_of(sent, at, u64::MAX, queue.slots()).is_some()
}

// The sessions of both queues of a link, and whether both handed over what was put.
fn seen_of(ended: PlainLink) -> (u64, u64, bool) {
    let (first, second) = (ended.queue(true), ended.queue(false));
    let are_handed = is_handed(first) && is_handed(second);
    (first.session(), second.session(), are_handed)
}

#[test]
fn two_threads_come_and_go(rt: HostRuntime) -> Result<(), Fail> {
    let n = 10_000;
    let OpenedLink { link, a, b } = Link::open(rt.alloc(), 256, 256)?;
    let shared = &link;
    let ((a, met_a, freed_a), (b, met_b, freed_b)) = thread::join(
        &rt,
        move || come_and_go(shared, a, n),
        move || come_and_go(shared, b, n),
    );
    let seen = seen_of(link.close(a, b));
    assert!(rt; met_a && met_b);
    assert_eq!(rt; (freed_a, freed_b), (n, n));
    assert_eq!(rt; seen, (u64::from(n), u64::from(n), true));
    Ok(())
}
