// A transport event that finds the partner's queue full.
use super::calls::{
    Answer, COMMAND, Call, FAILED, FREE_DONE, FREED, REGISTER, REGISTERED, Row, answer_of, empty,
    got, sent,
};
use super::sides::{Sides, first_other};
use crq_ring::DropRow;
use crq_session::{EventAnswer, PlainLink, PollAnswer, RegAnswer};
use std::alloc::Global;
use std::test::Fail;
use vio_num::Entry;

pub const KEPT: Answer = Answer::Event(EventAnswer::Kept {
    number: 256,
    held: COMMAND,
});

pub const BUSY: Answer = Answer::Reg(RegAnswer::Busy {
    number: 256,
    held: COMMAND,
});

const NOTHING: Answer = Answer::Event(EventAnswer::Nothing);

const PUT: Answer = Answer::Event(EventAnswer::Put);

/// Registers both sides, has the first fill its partner's queue, and then make this call, which frees its own.
/// Tells whether each call did so.
pub fn is_filled<S: Sides>(sides: &mut S, made: Call) -> Result<bool, Fail> {
    sides.call(true, REGISTER)?;
    sides.call(false, REGISTER)?;
    for k in 0..256 {
        if sides.call(true, Call::Send(COMMAND + k))? != sent(k) {
            return Ok(false);
        }
    }
    Ok(sides.call(true, made)? == FREE_DONE)
}

/// Takes what fills the queue, but for the first entry, and the event behind it. Tells whether all was there.
pub fn is_drained<S: Sides>(sides: &mut S) -> Result<bool, Fail> {
    for k in 1..256 {
        if sides.call(false, Call::Poll)? != got(k, COMMAND + k) {
            return Ok(false);
        }
    }
    Ok(sides.call(false, Call::Poll)? == got(256, FREED))
}

// A link whose first side filled its partner's queue and made this call, and then those of the rows; with the
// number of the first other answer.
fn full_link(alloc: Global, made: Call, rows: &[Row]) -> Result<(PlainLink, Option<usize>), Fail> {
    let mut link = PlainLink::open(alloc, 256, 256)?;
    if !is_filled(&mut link, made)? {
        return Err(Fail::from("the queue is not full"));
    }
    let other = first_other(&mut link, rows)?;
    Ok((link, other))
}

static WAITS: [Row; 7] = [
    (true, Call::Push, KEPT),
    (true, REGISTER, BUSY),
    (true, REGISTER, BUSY),
    (
        true,
        Call::Register(0, 8192),
        Answer::Reg(RegAnswer::Parameter),
    ),
    (
        false,
        Call::Poll,
        Answer::Poll(PollAnswer::Got {
            number: 0,
            entry: Entry {
                high: COMMAND,
                low: 0,
            },
        }),
    ),
    (true, REGISTER, REGISTERED),
    (true, Call::Push, NOTHING),
];

// What was dropped at the full queue.
static DROPPED: [DropRow; 1] = [DropRow {
    session: 1,
    number: 256,
    held: COMMAND,
}];

// The number of the first other answer at a link that waits, whether its queue is drained and then empty, and whether
// this was dropped there.
fn waited(alloc: Global) -> Result<(Option<usize>, bool, bool), Fail> {
    let (mut link, other) = full_link(alloc, Call::Free, &WAITS)?;
    let is_empty = is_drained(&mut link)? && answer_of(&mut link, false, Call::Poll)? == empty(257);
    let is_dropped = link.queue(false).drops() == DROPPED.as_slice();
    Ok((other, is_empty, is_dropped))
}

#[test]
fn a_registration_waits_for_the_kept_event(rt: HostRuntime) -> Result<(), Fail> {
    assert_eq!(rt; waited(rt.alloc())?, (None, true, true));
    Ok(())
}

static PUSHED: [Row; 5] = [
    (true, Call::Push, KEPT),
    (
        false,
        Call::Poll,
        Answer::Poll(PollAnswer::Got {
            number: 0,
            entry: Entry {
                high: COMMAND,
                low: 0,
            },
        }),
    ),
    (true, Call::Push, PUT),
    (true, Call::Push, NOTHING),
    (true, REGISTER, REGISTERED),
];

// Whether 257 entries were put in the queue of the second side, the last of them the event.
fn has_the_event(link: &PlainLink) -> bool {
    let sent = link.queue(false).sent();
    match sent.last() {
        Some(row) => row.entry.high == FAILED && sent.len() == 257,
        None => false,
    }
}

// The number of the first other answer where the event is pushed, and whether it was put.
fn pushed(alloc: Global) -> Result<(Option<usize>, bool), Fail> {
    let (link, other) = full_link(alloc, Call::Fail, &PUSHED)?;
    Ok((other, has_the_event(&link)))
}

#[test]
fn a_kept_event_is_pushed(rt: HostRuntime) -> Result<(), Fail> {
    assert_eq!(rt; pushed(rt.alloc())?, (None, true));
    Ok(())
}

static LOST_BY_PUSH: [Row; 5] = [
    (false, Call::Free, FREE_DONE),
    (true, Call::Push, NOTHING),
    (
        false,
        REGISTER,
        Answer::Reg(RegAnswer::Closed { control: 8 }),
    ),
    (true, Call::Push, NOTHING),
    (
        false,
        Call::Poll,
        Answer::Poll(PollAnswer::Empty { number: 0 }),
    ),
];

static LOST_BY_REGISTRATION: [Row; 5] = [
    (false, Call::Free, FREE_DONE),
    (
        true,
        REGISTER,
        Answer::Reg(RegAnswer::Closed { control: 8 }),
    ),
    (false, REGISTER, REGISTERED),
    (true, Call::Push, NOTHING),
    (
        false,
        Call::Poll,
        Answer::Poll(PollAnswer::Empty { number: 0 }),
    ),
];

// The number of the first other answer at a link whose first side freed its queue.
fn first_other_freed(alloc: Global, rows: &[Row]) -> Result<Option<usize>, Fail> {
    Ok(full_link(alloc, Call::Free, rows)?.1)
}

#[test]
fn a_kept_event_is_lost_with_the_partners_queue(rt: HostRuntime) -> Result<(), Fail> {
    assert_eq!(rt; first_other_freed(rt.alloc(), &LOST_BY_PUSH)?, None);
    assert_eq!(rt; first_other_freed(rt.alloc(), &LOST_BY_REGISTRATION)?, None);
    Ok(())
}

static PRESENT: [Row; 5] = [
    (false, Call::Free, FREE_DONE),
    (
        false,
        REGISTER,
        Answer::Reg(RegAnswer::Closed { control: 8 }),
    ),
    (true, Call::Push, PUT),
    (
        false,
        Call::Poll,
        Answer::Poll(PollAnswer::Got {
            number: 0,
            entry: Entry {
                high: FREED,
                low: 0,
            },
        }),
    ),
    (
        false,
        Call::Poll,
        Answer::Poll(PollAnswer::Empty { number: 1 }),
    ),
];

#[test]
fn a_kept_event_goes_to_the_present_session(rt: HostRuntime) -> Result<(), Fail> {
    assert_eq!(rt; first_other_freed(rt.alloc(), &PRESENT)?, None);
    Ok(())
}
