// Frames that are sent: to whom they are offered, and what the sender is answered.
use super::{A, B, C, D, EVERYONE, FRAME, Row, Seen, Step, first_other};
use lan_buffers::{Deliver, Harvest};
use tce_window::HoldFault;
use vio_num::{Hrc, Mac, NoMemory};

// The descriptor of a buffer of 256 bytes at address 4096.
const BUFFER: u64 = 0x8000_0100_0000_1000;

// Tells a success with no word.
const DONE: Seen = Seen::Code(Hrc::Success, 0);

static A_FRAME_TO_ONE_STATION_IS_TAKEN_OR_DROPPED: [Row; 12] = [
    (
        Step::Open(
            A,
            Mac {
                bytes: [2, 0, 0, 0, 0, 1],
            },
        ),
        DONE,
    ),
    (
        Step::Open(
            B,
            Mac {
                bytes: [2, 0, 0, 0, 0, 2],
            },
        ),
        DONE,
    ),
    (
        Step::Send(
            A,
            Mac {
                bytes: [2, 0, 0, 0, 0, 2],
            },
        ),
        Seen::Sent(Hrc::Dropped, Some(1), 60, Some(Deliver::NoSize), None),
    ),
    (Step::Drops(B), Seen::Number(1)),
    (Step::Add(B, BUFFER), DONE),
    (
        Step::Send(
            A,
            Mac {
                bytes: [2, 0, 0, 0, 0, 2],
            },
        ),
        Seen::Sent(
            Hrc::Success,
            Some(2),
            60,
            Some(Deliver::Done { post: 0 }),
            None,
        ),
    ),
    (
        Step::Send(
            A,
            Mac {
                bytes: [2, 0, 0, 0, 0, 2],
            },
        ),
        Seen::Sent(Hrc::Dropped, Some(3), 60, Some(Deliver::NoBuffer), None),
    ),
    (Step::Drops(B), Seen::Number(2)),
    (
        Step::Send(
            A,
            Mac {
                bytes: [2, 0, 0, 0, 0, 7],
            },
        ),
        Seen::Sent(Hrc::Dropped, Some(4), 60, None, None),
    ),
    (
        Step::Send(
            A,
            Mac {
                bytes: [2, 0, 0, 0, 0, 1],
            },
        ),
        Seen::Sent(Hrc::Dropped, Some(5), 60, None, None),
    ),
    (Step::Free(B), DONE),
    (
        Step::Send(
            A,
            Mac {
                bytes: [2, 0, 0, 0, 0, 2],
            },
        ),
        Seen::Sent(Hrc::Dropped, Some(6), 60, None, None),
    ),
];

#[test]
fn a_frame_to_one_station_is_taken_or_dropped(rt: HostRuntime) -> Result<(), NoMemory> {
    assert_eq!(rt;
        first_other(rt.alloc(), &A_FRAME_TO_ONE_STATION_IS_TAKEN_OR_DROPPED)?,
        None
    );
    Ok(())
}

static THE_LOWEST_PORT_TAKES_A_FRAME_TO_ONE_STATION: [Row; 6] = [
    (
        Step::Open(
            A,
            Mac {
                bytes: [2, 0, 0, 0, 0, 1],
            },
        ),
        DONE,
    ),
    (
        Step::Open(
            C,
            Mac {
                bytes: [2, 0, 0, 0, 0, 5],
            },
        ),
        DONE,
    ),
    (
        Step::Open(
            B,
            Mac {
                bytes: [2, 0, 0, 0, 0, 5],
            },
        ),
        DONE,
    ),
    (Step::Add(C, BUFFER), DONE),
    (
        Step::Send(
            A,
            Mac {
                bytes: [2, 0, 0, 0, 0, 5],
            },
        ),
        Seen::Sent(Hrc::Dropped, Some(1), 60, Some(Deliver::NoSize), None),
    ),
    (Step::Drops(C), Seen::Number(0)),
];

#[test]
fn the_lowest_port_takes_a_frame_to_one_station(rt: HostRuntime) -> Result<(), NoMemory> {
    assert_eq!(rt;
        first_other(rt.alloc(), &THE_LOWEST_PORT_TAKES_A_FRAME_TO_ONE_STATION)?,
        None
    );
    Ok(())
}

static A_FRAME_TO_A_GROUP_GOES_TO_EACH_PORT_THAT_ACCEPTS: [Row; 13] = [
    (
        Step::Open(
            A,
            Mac {
                bytes: [2, 0, 0, 0, 0, 1],
            },
        ),
        DONE,
    ),
    (
        Step::Open(
            B,
            Mac {
                bytes: [2, 0, 0, 0, 0, 2],
            },
        ),
        DONE,
    ),
    (
        Step::Open(
            C,
            Mac {
                bytes: [2, 0, 0, 0, 0, 3],
            },
        ),
        DONE,
    ),
    (
        Step::Multicast(
            A,
            0xA0000,
            Mac {
                bytes: [1, 0, 0, 0, 0, 9],
            },
        ),
        DONE,
    ),
    (
        Step::Send(
            A,
            Mac {
                bytes: [1, 0, 0, 0, 0, 9],
            },
        ),
        Seen::Sent(Hrc::Success, Some(1), 60, None, None),
    ),
    (
        Step::Multicast(
            C,
            0xF0001,
            Mac {
                bytes: [1, 0, 0, 0, 0, 9],
            },
        ),
        DONE,
    ),
    (Step::Add(C, BUFFER), DONE),
    (
        Step::Send(
            A,
            Mac {
                bytes: [1, 0, 0, 0, 0, 9],
            },
        ),
        Seen::Sent(
            Hrc::Success,
            Some(2),
            60,
            None,
            Some(Deliver::Done { post: 0 }),
        ),
    ),
    (
        Step::Multicast(
            B,
            0xA0000,
            Mac {
                bytes: [1, 0, 0, 0, 0, 9],
            },
        ),
        DONE,
    ),
    (
        Step::Send(
            A,
            Mac {
                bytes: [1, 0, 0, 0, 0, 8],
            },
        ),
        Seen::Sent(Hrc::Success, Some(3), 60, Some(Deliver::NoSize), None),
    ),
    (
        Step::Send(A, EVERYONE),
        Seen::Sent(
            Hrc::Success,
            Some(4),
            60,
            Some(Deliver::NoSize),
            Some(Deliver::NoBuffer),
        ),
    ),
    (
        Step::Multicast(
            B,
            0x80000,
            Mac {
                bytes: [1, 0, 0, 0, 0, 9],
            },
        ),
        DONE,
    ),
    (
        Step::Send(
            A,
            Mac {
                bytes: [1, 0, 0, 0, 0, 9],
            },
        ),
        Seen::Sent(Hrc::Success, Some(5), 60, None, Some(Deliver::NoBuffer)),
    ),
];

#[test]
fn a_frame_to_a_group_goes_to_each_port_that_accepts(rt: HostRuntime) -> Result<(), NoMemory> {
    assert_eq!(rt;
        first_other(
            rt.alloc(),
            &A_FRAME_TO_A_GROUP_GOES_TO_EACH_PORT_THAT_ACCEPTS
        )?,
        None
    );
    Ok(())
}

static FRAMES_HAVE_THEIR_LENGTHS: [Row; 9] = [
    (
        Step::SendParts([0x8000_0000_0000_0000 | 60 << 32, 0, 0, 0, 0, 0]),
        Seen::Sent(Hrc::Parameter, None, 0, None, None),
    ),
    (
        Step::Open(
            A,
            Mac {
                bytes: [2, 0, 0, 0, 0, 1],
            },
        ),
        DONE,
    ),
    (Step::Write(A, 0, 0xFFFF_FFFF_FFFF_FFFF), Seen::Nothing),
    (
        Step::SendParts([0x8000_0000_0000_0000 | 13 << 32, 0, 0, 0, 0, 0]),
        Seen::Sent(Hrc::Parameter, None, 0, None, None),
    ),
    (
        Step::SendParts([0x8000_0000_0000_0000 | 14 << 32, 0, 0, 0, 0, 0]),
        Seen::Sent(Hrc::Success, Some(1), 14, None, None),
    ),
    (
        Step::SendParts([0x8000_0000_0000_0000 | 65_527 << 32, 0, 0, 0, 0, 0]),
        Seen::Sent(Hrc::Success, Some(2), 65_527, None, None),
    ),
    (
        Step::SendParts([0x8000_0000_0000_0000 | 65_528 << 32, 0, 0, 0, 0, 0]),
        Seen::Sent(Hrc::Parameter, None, 0, None, None),
    ),
    (
        Step::SendParts([0; 6]),
        Seen::Sent(Hrc::Parameter, None, 0, None, None),
    ),
    (
        Step::SendParts([0, FRAME, 0, 0, 0, 0]),
        Seen::Sent(Hrc::Parameter, None, 0, None, None),
    ),
];

#[test]
fn frames_have_their_lengths(rt: HostRuntime) -> Result<(), NoMemory> {
    assert_eq!(rt; first_other(rt.alloc(), &FRAMES_HAVE_THEIR_LENGTHS)?, None);
    Ok(())
}

static A_FRAME_IS_MADE_OF_ITS_PARTS: [Row; 11] = [
    (
        Step::Open(
            A,
            Mac {
                bytes: [2, 0, 0, 0, 0, 1],
            },
        ),
        DONE,
    ),
    (
        Step::Open(
            B,
            Mac {
                bytes: [2, 0, 0, 0, 0, 2],
            },
        ),
        DONE,
    ),
    (Step::Add(B, BUFFER), DONE),
    (
        Step::Send(
            A,
            Mac {
                bytes: [2, 0, 0, 0, 0, 7],
            },
        ),
        Seen::Sent(Hrc::Dropped, Some(1), 60, None, None),
    ),
    (Step::Write(A, 4096, 0x0200_0000_0002_0000), Seen::Nothing),
    (
        Step::SendParts([
            0x8000_0006_0000_1000,
            0x8000_0000_FFFF_FFFF,
            0x8000_0036_0001_1FF0,
            0,
            FRAME,
            FRAME,
        ]),
        Seen::Sent(Hrc::SourceParm, None, 0, None, None),
    ),
    (Step::Put(A, 0x4000, 0x4002), Seen::Nothing),
    (
        Step::SendParts([
            0x8000_0006_0000_1000,
            0x8000_0000_FFFF_FFFF,
            0x8000_0036_0000_3FF0,
            0,
            FRAME,
            FRAME,
        ]),
        Seen::Sent(Hrc::SourceParm, None, 0, None, None),
    ),
    (Step::Put(A, 0x4000, 0x4001), Seen::Nothing),
    (
        Step::SendParts([
            0x8000_0006_0000_1000,
            0x8000_0000_FFFF_FFFF,
            0x8000_0036_0000_3FF0,
            0,
            FRAME,
            FRAME,
        ]),
        Seen::Sent(
            Hrc::Success,
            Some(2),
            60,
            Some(Deliver::Done { post: 0 }),
            None,
        ),
    ),
    (
        Step::Harvest(B),
        Seen::Read(Harvest::Frame {
            number: 0,
            len: 60,
            correlator: 0,
        }),
    ),
];

#[test]
fn a_frame_is_made_of_its_parts(rt: HostRuntime) -> Result<(), NoMemory> {
    assert_eq!(rt;
        first_other(rt.alloc(), &A_FRAME_IS_MADE_OF_ITS_PARTS)?,
        None
    );
    Ok(())
}

static A_REFUSED_BUFFER_DROPS_THE_FRAME: [Row; 7] = [
    (
        Step::Open(
            A,
            Mac {
                bytes: [2, 0, 0, 0, 0, 1],
            },
        ),
        DONE,
    ),
    (
        Step::Open(
            B,
            Mac {
                bytes: [2, 0, 0, 0, 0, 2],
            },
        ),
        DONE,
    ),
    (Step::Add(B, BUFFER), DONE),
    (Step::Put(B, 4096, 0x1001), Seen::Nothing),
    (
        Step::Send(
            A,
            Mac {
                bytes: [2, 0, 0, 0, 0, 2],
            },
        ),
        Seen::Sent(
            Hrc::Dropped,
            Some(1),
            60,
            Some(Deliver::Ungranted {
                post: 0,
                fault: HoldFault::NotGranted {
                    entry: 1,
                    version: 1,
                    tce: 0x1001,
                },
            }),
            None,
        ),
    ),
    (
        Step::Harvest(B),
        Seen::Read(Harvest::Blank {
            number: 0,
            correlator: 0,
        }),
    ),
    (Step::Drops(B), Seen::Number(1)),
];

#[test]
fn a_refused_buffer_drops_the_frame(rt: HostRuntime) -> Result<(), NoMemory> {
    assert_eq!(rt;
        first_other(rt.alloc(), &A_REFUSED_BUFFER_DROPS_THE_FRAME)?,
        None
    );
    Ok(())
}

static EACH_SENDER_COUNTS_ITS_OWN_FRAMES: [Row; 14] = [
    (
        Step::Send(D, EVERYONE),
        Seen::Sent(Hrc::Parameter, None, 0, None, None),
    ),
    (
        Step::Open(
            A,
            Mac {
                bytes: [2, 0, 0, 0, 0, 1],
            },
        ),
        DONE,
    ),
    (
        Step::Open(
            B,
            Mac {
                bytes: [2, 0, 0, 0, 0, 2],
            },
        ),
        DONE,
    ),
    (
        Step::Open(
            C,
            Mac {
                bytes: [2, 0, 0, 0, 0, 3],
            },
        ),
        DONE,
    ),
    (
        Step::Open(
            D,
            Mac {
                bytes: [2, 0, 0, 0, 0, 4],
            },
        ),
        DONE,
    ),
    (Step::Add(B, BUFFER), DONE),
    (Step::Add(C, BUFFER), DONE),
    (
        Step::Send(D, EVERYONE),
        Seen::Sent(
            Hrc::Success,
            Some(1),
            60,
            Some(Deliver::Done { post: 0 }),
            Some(Deliver::Done { post: 0 }),
        ),
    ),
    (
        Step::Send(A, EVERYONE),
        Seen::Sent(
            Hrc::Success,
            Some(1),
            60,
            Some(Deliver::NoBuffer),
            Some(Deliver::NoBuffer),
        ),
    ),
    (
        Step::Send(
            D,
            Mac {
                bytes: [2, 0, 0, 0, 0, 4],
            },
        ),
        Seen::Sent(Hrc::Dropped, Some(2), 60, None, None),
    ),
    (
        Step::Send(
            D,
            Mac {
                bytes: [2, 0, 0, 0, 0, 2],
            },
        ),
        Seen::Sent(Hrc::Dropped, Some(3), 60, Some(Deliver::NoBuffer), None),
    ),
    (
        Step::Send(
            A,
            Mac {
                bytes: [2, 0, 0, 0, 0, 2],
            },
        ),
        Seen::Sent(Hrc::Dropped, Some(2), 60, Some(Deliver::NoBuffer), None),
    ),
    (
        Step::Send(
            D,
            Mac {
                bytes: [2, 0, 0, 0, 0, 1],
            },
        ),
        Seen::Sent(Hrc::Dropped, Some(4), 60, None, None),
    ),
    (Step::Drops(A), Seen::Number(2)),
];

#[test]
fn each_sender_counts_its_own_frames(rt: HostRuntime) -> Result<(), NoMemory> {
    assert_eq!(rt;
        first_other(rt.alloc(), &EACH_SENDER_COUNTS_ITS_OWN_FRAMES)?,
        None
    );
    Ok(())
}
