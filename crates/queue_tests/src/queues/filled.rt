// A queue that is filled and drained, and what one end learns of the other.
use super::ends::played_open;
use super::{Does, Row, Seen, Step, first_other};
use crq_ring::{DropRow, PlainPipe};
use std::test::Fail;

static FILLED: [Row; 9] = [
    (Step::Each(Does::Put, 0, 256), Seen::Done),
    (Step::Put(256), Seen::Full(256)),
    (Step::Put(256), Seen::Full(256)),
    (Step::Put(256), Seen::Full(256)),
    (Step::Poll, Seen::Got(0)),
    (Step::Put(256), Seen::Put(256)),
    (Step::Each(Does::Poll, 1, 257), Seen::Done),
    (Step::Poll, Seen::Empty(257)),
    (Step::Poll, Seen::Empty(257)),
];

// Whether a pipe is in session 1, 257 entries were put and taken, and one was dropped.
fn is_filled_once(pipe: &PlainPipe) -> bool {
    let drops = [DropRow {
        session: 1,
        number: 256,
        held: 0x8001_0000_0000_0000,
    }];
    pipe.session() == 1
        && pipe.sent().len() == 257
        && pipe.taken().len() == 257
        && pipe.drops() == drops.as_slice()
}

#[test]
fn a_pipe_is_filled_and_drained(rt: HostRuntime) -> Result<(), Fail> {
    let mut pipe = PlainPipe::open(rt.alloc(), 256)?;
    assert_eq!(rt; first_other(&mut pipe, &FILLED)?, None);
    assert!(rt; is_filled_once(&pipe));
    Ok(())
}

#[test]
fn a_ring_is_filled_and_drained(rt: HostRuntime) -> Result<(), Fail> {
    let (other, pipe) = played_open(rt.alloc(), 256, &FILLED)?;
    assert_eq!(rt; other, None);
    assert!(rt; is_filled_once(&pipe));
    Ok(())
}

static THREE_LAPS: [Row; 1] = [(Step::Each(Does::Pass, 0, 12), Seen::Done)];

static LEARNT: [Row; 7] = [
    (Step::Each(Does::Put, 0, 2), Seen::Done),
    (Step::Keep, Seen::Done),
    (Step::Put(2), Seen::Put(2)),
    (Step::Learn, Seen::Done),
    (Step::LearnKept, Seen::Done),
    (Step::Each(Does::Poll, 0, 3), Seen::Done),
    (Step::Poll, Seen::Empty(3)),
];

static KNOWN: [Row; 5] = [
    (Step::Each(Does::Put, 0, 4), Seen::Done),
    (Step::Put(4), Seen::Full(4)),
    (Step::Poll, Seen::Got(0)),
    (Step::Know, Seen::Done),
    (Step::Put(4), Seen::Put(4)),
];

#[test]
fn a_pipe_passes_three_laps_through_the_trait(rt: HostRuntime) -> Result<(), Fail> {
    let mut pipe = PlainPipe::open(rt.alloc(), 4)?;
    assert_eq!(rt; first_other(&mut pipe, &THREE_LAPS)?, None);
    Ok(())
}

#[test]
fn a_ring_passes_entries_and_a_front_is_learnt_and_a_room_is_known(
    rt: HostRuntime,
) -> Result<(), Fail> {
    for number in 0..3 {
        let (slots, rows): (u32, &[Row]) = match number {
            0 => (1, &THREE_LAPS),
            1 => (4, &LEARNT),
            _ => (4, &KNOWN),
        };
        let (other, _pipe) = played_open(rt.alloc(), slots, rows)?;
        assert_eq!(rt; other, None, "of table {number}");
    }
    Ok(())
}
