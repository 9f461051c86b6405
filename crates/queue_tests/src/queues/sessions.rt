// A ring that is closed and opened: its control word, what a sender inside keeps the receiver from, and
// what a session that has ended leaves to the next.
use super::ends::{played_closed, played_open};
use super::{Does, Row, Seen, Step, entry, first_other};
use crq_ring::{DropRow, PlainPipe};
use std::alloc::Global;
use std::test::Fail;
use vio_num::NoMemory;

static INSIDE: [Row; 15] = [
    (Step::Control, Seen::Number(0)),
    (Step::Session, Seen::Session(0, false)),
    (Step::Enter, Seen::Number(0)),
    (Step::Begin, Seen::Number(1)),
    (Step::Control, Seen::Number(9)),
    (Step::Enter, Seen::Done),
    (Step::Control, Seen::Number(11)),
    (Step::End, Seen::Number(11)),
    (Step::Leave, Seen::Done),
    (Step::Control, Seen::Number(9)),
    (Step::End, Seen::Done),
    (Step::Enter, Seen::Number(8)),
    (Step::Begin, Seen::Number(2)),
    (Step::Control, Seen::Number(17)),
    (Step::Session, Seen::Session(2, true)),
];

#[test]
fn a_sender_inside_holds_the_session_open(rt: HostRuntime) -> Result<(), Fail> {
    let (other, _pipe) = played_closed(rt.alloc(), 4, &INSIDE)?;
    assert_eq!(rt; other, None);
    Ok(())
}

static ENDED: [Row; 14] = [
    (Step::Begin, Seen::Number(1)),
    (Step::Enter, Seen::Done),
    (Step::Each(Does::Put, 0, 2), Seen::Done),
    (Step::Put(2), Seen::Full(2)),
    (Step::Leave, Seen::Done),
    (Step::Keep, Seen::Done),
    (Step::End, Seen::Done),
    (Step::Begin, Seen::Number(2)),
    (Step::LearnKept, Seen::Done),
    (Step::Poll, Seen::Empty(0)),
    (Step::Enter, Seen::Done),
    (Step::Each(Does::Put, 0, 2), Seen::Done),
    (Step::Put(2), Seen::Full(2)),
    (Step::Poll, Seen::Got(0)),
];

// What was dropped in both sessions.
static DROPPED: [DropRow; 2] = [
    DropRow {
        session: 1,
        number: 2,
        held: 0x8001_0000_0000_0000,
    },
    DropRow {
        session: 2,
        number: 2,
        held: 0x8001_0000_0000_0000,
    },
];

// Whether session 2 is the last of a pipe, four entries were put and one taken, and these were dropped.
fn is_ended_once(pipe: &PlainPipe) -> bool {
    pipe.session() == 2
        && pipe.sent().len() == 4
        && pipe.taken().len() == 1
        && pipe.drops() == DROPPED.as_slice()
}

// The first row of which something else is seen, and whether the pipe is left so.
fn ended(alloc: Global) -> Result<(Option<usize>, bool), NoMemory> {
    let (other, pipe) = played_closed(alloc, 2, &ENDED)?;
    Ok((other, is_ended_once(&pipe)))
}

#[test]
fn a_session_that_ends_leaves_empty_slots(rt: HostRuntime) -> Result<(), Fail> {
    assert_eq!(rt; ended(rt.alloc())?, (None, true));
    Ok(())
}

static EARLIER: [Row; 4] = [
    (Step::Put(0), Seen::Put(0)),
    (Step::Leave, Seen::Done),
    (Step::End, Seen::Done),
    (Step::Begin, Seen::Number(2)),
];

static ANEW: [Row; 2] = [(Step::Poll, Seen::Empty(0)), (Step::Put(0), Seen::Put(0))];

// The first row of which something else is seen in the earlier session, the pipe's session and the entries that were put
// then, and the first row of which something else is seen behind it.
fn closed_earlier(alloc: Global) -> Result<(Option<usize>, (u64, usize), Option<usize>), NoMemory> {
    let (earlier, mut pipe) = played_open(alloc, 2, &EARLIER)?;
    let told = (pipe.session(), pipe.sent().len());
    Ok((earlier, told, first_other(&mut pipe, &ANEW)?))
}

#[test]
fn a_sender_of_an_earlier_session_closes_with_its_rows(rt: HostRuntime) -> Result<(), Fail> {
    assert_eq!(rt; closed_earlier(rt.alloc())?, (None, (2, 1), None));
    Ok(())
}

static BEGUN: [Row; 3] = [
    (Step::Poll, Seen::Empty(0)),
    (Step::Put(0), Seen::Put(0)),
    (Step::Put(1), Seen::Full(1)),
];

// Begins three sessions, and gives the first of which something else is seen.
fn first_other_begun(pipe: &mut PlainPipe) -> Result<Option<u64>, NoMemory> {
    for session in 1..4 {
        let begun = [(Step::Begin, Seen::Number(session))];
        if first_other(pipe, &begun)?.is_some() || first_other(pipe, &BEGUN)?.is_some() {
            return Ok(Some(session));
        }
    }
    Ok(None)
}

// Whether entry 0 was put in each of the sessions 1 to 3 and never taken, and three entries were dropped.
fn is_begun_thrice(pipe: &PlainPipe) -> bool {
    for (row, session) in pipe.sent().iter().zip(1u64..4) {
        if row.session != session || row.entry != entry(0) {
            return false;
        }
    }
    pipe.sent().len() == 3 && pipe.taken().is_empty() && pipe.drops().len() == 3
}

// The session of a new pipe, the first of three sessions of which something else is seen, and whether they leave the
// pipe so.
fn begun_anew(alloc: Global) -> Result<(u64, Option<u64>, bool), NoMemory> {
    let mut pipe = PlainPipe::closed(alloc, 1)?;
    let session = pipe.session();
    let other = first_other_begun(&mut pipe)?;
    Ok((session, other, is_begun_thrice(&pipe)))
}

#[test]
fn a_pipe_begins_anew(rt: HostRuntime) -> Result<(), Fail> {
    assert_eq!(rt; begun_anew(rt.alloc())?, (0, None, true));
    Ok(())
}
