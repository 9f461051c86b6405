// Buffers, frames and receive entries, by their lengths and numbers.
use super::{Row, Seen, Station, Step, done, first_other, posted};
use lan_buffers::{AddAnswer, Deliver, Harvest};
use std::alloc::Global;
use vio_num::NoMemory;

// Tells that entry `number` has a frame of this length, in the buffer of this correlator.
fn frame(number: u64, len: u32, correlator: u64) -> Seen {
    Seen::Read(Harvest::Frame {
        number,
        len,
        correlator,
    })
}

static FRAMES_TAKE_THE_SMALLEST_LENGTH_THAT_FITS: [Row; 20] = [
    (
        Step::Post(256, 4096),
        Seen::Posted(AddAnswer::Posted { number: 0 }),
    ),
    (
        Step::Post(256, 8192),
        Seen::Posted(AddAnswer::Posted { number: 1 }),
    ),
    (
        Step::Post(2048, 12288),
        Seen::Posted(AddAnswer::Posted { number: 2 }),
    ),
    (Step::Send(14), Seen::Sent(Deliver::Done { post: 0 })),
    (Step::Send(248), Seen::Sent(Deliver::Done { post: 1 })),
    (Step::Send(249), Seen::Sent(Deliver::Done { post: 2 })),
    (Step::Send(2041), Seen::Sent(Deliver::NoSize)),
    (Step::Drops, Seen::Number(1)),
    (
        Step::Harvest,
        Seen::Read(Harvest::Frame {
            number: 0,
            len: 14,
            correlator: 4096,
        }),
    ),
    (Step::High, Seen::Number(0xC000_0008_0000_000E)),
    (
        Step::Harvest,
        Seen::Read(Harvest::Frame {
            number: 1,
            len: 248,
            correlator: 8192,
        }),
    ),
    (
        Step::Harvest,
        Seen::Read(Harvest::Frame {
            number: 2,
            len: 249,
            correlator: 12288,
        }),
    ),
    (
        Step::Post(256, 4096),
        Seen::Posted(AddAnswer::Posted { number: 3 }),
    ),
    (Step::Send(14), Seen::Sent(Deliver::Done { post: 3 })),
    (
        Step::Harvest,
        Seen::Read(Harvest::Frame {
            number: 3,
            len: 14,
            correlator: 4096,
        }),
    ),
    (Step::High, Seen::Number(0xC000_0008_0000_000E)),
    (
        Step::Post(256, 4096),
        Seen::Posted(AddAnswer::Posted { number: 4 }),
    ),
    (Step::Send(14), Seen::Sent(Deliver::Done { post: 4 })),
    (
        Step::Harvest,
        Seen::Read(Harvest::Frame {
            number: 4,
            len: 14,
            correlator: 4096,
        }),
    ),
    (Step::High, Seen::Number(0x4000_0008_0000_000E)),
];

#[test]
fn frames_take_the_smallest_length_that_fits(rt: HostRuntime) -> Result<(), NoMemory> {
    assert_eq!(rt;
        first_other(rt.alloc(), 4, &FRAMES_TAKE_THE_SMALLEST_LENGTH_THAT_FITS)?,
        None
    );
    Ok(())
}

static BUFFERS_HAVE_THEIR_LENGTHS: [Row; 6] = [
    (Step::Post(0, 4096), Seen::Posted(AddAnswer::Parameter)),
    (Step::Post(21, 4096), Seen::Posted(AddAnswer::Parameter)),
    (
        Step::Post(22, 4096),
        Seen::Posted(AddAnswer::Posted { number: 0 }),
    ),
    (
        Step::Post(65_536, 4096),
        Seen::Posted(AddAnswer::Posted { number: 1 }),
    ),
    (Step::Post(65_537, 4096), Seen::Posted(AddAnswer::Parameter)),
    (
        Step::PostAs(0xC000_0100_0000_1000),
        Seen::Posted(AddAnswer::Posted { number: 2 }),
    ),
];

#[test]
fn buffers_have_their_lengths(rt: HostRuntime) -> Result<(), NoMemory> {
    assert_eq!(rt;
        first_other(rt.alloc(), 4, &BUFFERS_HAVE_THEIR_LENGTHS)?,
        None
    );
    Ok(())
}

// Tells what is seen of a frame of this length that comes to a new port: of a buffer for it, of the frame, and of the
// next receive entry.
fn seen_of_frame(alloc: Global, len: usize) -> Result<(Seen, Seen, Seen), NoMemory> {
    let mut station = Station::open(alloc, 4)?;
    let post = station.step(alloc, Step::Post(65_535, 4097))?;
    let sent = station.step(alloc, Step::Send(len))?;
    let read = station.step(alloc, Step::Harvest)?;
    Ok((post, sent, read))
}

#[test]
fn frames_of_every_length(rt: HostRuntime) -> Result<(), NoMemory> {
    for (len, number) in [(14, 14), (60, 60), (1_514, 1_514), (65_527, 65_527)] {
        let seen = seen_of_frame(rt.alloc(), len)?;
        assert!(rt;
            seen == (posted(0), done(0), frame(0, number, 4097)),
            "{len}"
        );
    }
    Ok(())
}

static A_SESSION_HAS_EIGHT_LENGTHS: [Row; 11] = [
    (
        Step::Post(30, 4096),
        Seen::Posted(AddAnswer::Posted { number: 0 }),
    ),
    (
        Step::Post(31, 4096),
        Seen::Posted(AddAnswer::Posted { number: 1 }),
    ),
    (
        Step::Post(32, 4096),
        Seen::Posted(AddAnswer::Posted { number: 2 }),
    ),
    (
        Step::Post(33, 4096),
        Seen::Posted(AddAnswer::Posted { number: 3 }),
    ),
    (
        Step::Post(34, 4096),
        Seen::Posted(AddAnswer::Posted { number: 4 }),
    ),
    (
        Step::Post(35, 4096),
        Seen::Posted(AddAnswer::Posted { number: 5 }),
    ),
    (
        Step::Post(36, 4096),
        Seen::Posted(AddAnswer::Posted { number: 6 }),
    ),
    (
        Step::Post(37, 4096),
        Seen::Posted(AddAnswer::Posted { number: 7 }),
    ),
    (
        Step::Post(38, 4096),
        Seen::Posted(AddAnswer::Resource {
            posted: 8,
            harvested: 0,
            sizes: 8,
        }),
    ),
    (
        Step::Post(37, 4096),
        Seen::Posted(AddAnswer::Posted { number: 8 }),
    ),
    (
        Step::Post(30, 4096),
        Seen::Posted(AddAnswer::Posted { number: 9 }),
    ),
];

#[test]
fn a_session_has_eight_lengths(rt: HostRuntime) -> Result<(), NoMemory> {
    assert_eq!(rt;
        first_other(rt.alloc(), 16, &A_SESSION_HAS_EIGHT_LENGTHS)?,
        None
    );
    Ok(())
}

static NO_MORE_POSTS_THAN_SLOTS: [Row; 8] = [
    (
        Step::Post(256, 4096),
        Seen::Posted(AddAnswer::Posted { number: 0 }),
    ),
    (
        Step::Post(256, 4096),
        Seen::Posted(AddAnswer::Posted { number: 1 }),
    ),
    (
        Step::Post(256, 4096),
        Seen::Posted(AddAnswer::Resource {
            posted: 2,
            harvested: 0,
            sizes: 1,
        }),
    ),
    (Step::Send(60), Seen::Sent(Deliver::Done { post: 0 })),
    (
        Step::Post(256, 4096),
        Seen::Posted(AddAnswer::Resource {
            posted: 2,
            harvested: 0,
            sizes: 1,
        }),
    ),
    (
        Step::Harvest,
        Seen::Read(Harvest::Frame {
            number: 0,
            len: 60,
            correlator: 4096,
        }),
    ),
    (
        Step::Post(256, 4096),
        Seen::Posted(AddAnswer::Posted { number: 2 }),
    ),
    (
        Step::Post(256, 4096),
        Seen::Posted(AddAnswer::Resource {
            posted: 3,
            harvested: 1,
            sizes: 1,
        }),
    ),
];

#[test]
fn no_more_posts_than_slots(rt: HostRuntime) -> Result<(), NoMemory> {
    assert_eq!(rt;
        first_other(rt.alloc(), 2, &NO_MORE_POSTS_THAN_SLOTS)?,
        None
    );
    Ok(())
}

static THE_TOGGLE_TURNS_AT_EACH_LAP: [Row; 14] = [
    (
        Step::Harvest,
        Seen::Read(Harvest::Nothing { number: 0, high: 0 }),
    ),
    (
        Step::Post(256, 4096),
        Seen::Posted(AddAnswer::Posted { number: 0 }),
    ),
    (Step::Send(60), Seen::Sent(Deliver::Done { post: 0 })),
    (
        Step::Harvest,
        Seen::Read(Harvest::Frame {
            number: 0,
            len: 60,
            correlator: 4096,
        }),
    ),
    (Step::High, Seen::Number(0xC000_0008_0000_003C)),
    (
        Step::Post(256, 4096),
        Seen::Posted(AddAnswer::Posted { number: 1 }),
    ),
    (Step::Send(60), Seen::Sent(Deliver::Done { post: 1 })),
    (
        Step::Harvest,
        Seen::Read(Harvest::Frame {
            number: 1,
            len: 60,
            correlator: 4096,
        }),
    ),
    (Step::High, Seen::Number(0x4000_0008_0000_003C)),
    (
        Step::Post(256, 4096),
        Seen::Posted(AddAnswer::Posted { number: 2 }),
    ),
    (Step::Send(60), Seen::Sent(Deliver::Done { post: 2 })),
    (
        Step::Harvest,
        Seen::Read(Harvest::Frame {
            number: 2,
            len: 60,
            correlator: 4096,
        }),
    ),
    (Step::High, Seen::Number(0xC000_0008_0000_003C)),
    (
        Step::Harvest,
        Seen::Read(Harvest::Nothing {
            number: 3,
            high: 0xC000_0008_0000_003C,
        }),
    ),
];

#[test]
fn the_toggle_turns_at_each_lap(rt: HostRuntime) -> Result<(), NoMemory> {
    assert_eq!(rt;
        first_other(rt.alloc(), 1, &THE_TOGGLE_TURNS_AT_EACH_LAP)?,
        None
    );
    Ok(())
}
