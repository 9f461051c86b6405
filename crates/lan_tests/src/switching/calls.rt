// The calls on one port, by what they ask.
use super::{A, B, NONE, QUEUE, Row, Seen, Step, first_other};
use lan_buffers::{Deliver, Harvest};
use vio_num::{Hrc, Mac, NoMemory};

static A_REGISTRATION_HAS_ITS_PLACES_ITS_QUEUE_AND_ITS_ADDRESS: [Row; 15] = [
    (
        Step::Register(
            A,
            1,
            QUEUE,
            0,
            Mac {
                bytes: [2, 0, 0, 0, 0, 1],
            },
        ),
        Seen::Code(Hrc::Parameter, 0),
    ),
    (
        Step::Register(
            A,
            0,
            QUEUE,
            4095,
            Mac {
                bytes: [2, 0, 0, 0, 0, 1],
            },
        ),
        Seen::Code(Hrc::Parameter, 0),
    ),
    (
        Step::Register(
            A,
            0,
            QUEUE >> 1,
            0,
            Mac {
                bytes: [2, 0, 0, 0, 0, 1],
            },
        ),
        Seen::Code(Hrc::Parameter, 0),
    ),
    (
        Step::Register(
            A,
            0,
            0x8000_0030_0000_2000,
            0,
            Mac {
                bytes: [2, 0, 0, 0, 0, 1],
            },
        ),
        Seen::Code(Hrc::Parameter, 0),
    ),
    (
        Step::Register(
            A,
            0,
            0x0000_0040_0000_2000,
            0,
            Mac {
                bytes: [2, 0, 0, 0, 0, 1],
            },
        ),
        Seen::Code(Hrc::Parameter, 0),
    ),
    (
        Step::Register(
            A,
            0,
            QUEUE,
            0,
            Mac {
                bytes: [0, 0, 0, 0, 0, 0],
            },
        ),
        Seen::Code(Hrc::Parameter, 0),
    ),
    (
        Step::Register(
            A,
            0,
            QUEUE,
            0,
            Mac {
                bytes: [1, 0, 0, 0, 0, 1],
            },
        ),
        Seen::Code(Hrc::Parameter, 0),
    ),
    (
        Step::Register(A, 0, QUEUE, 0, Mac { bytes: [0xFF; 6] }),
        Seen::Code(Hrc::Parameter, 0),
    ),
    (
        Step::Register(
            NONE,
            0,
            QUEUE,
            0,
            Mac {
                bytes: [2, 0, 0, 0, 0, 1],
            },
        ),
        Seen::Code(Hrc::Parameter, 0),
    ),
    (
        Step::Register(
            A,
            4096,
            QUEUE | 0x4000_0000_0000_0000,
            8192,
            Mac {
                bytes: [2, 0, 0, 0, 0, 1],
            },
        ),
        Seen::Code(Hrc::Success, 0),
    ),
    (
        Step::Register(
            A,
            0,
            QUEUE,
            0,
            Mac {
                bytes: [2, 0, 0, 0, 0, 1],
            },
        ),
        Seen::Code(Hrc::Resource, 0),
    ),
    (Step::Free(A), Seen::Code(Hrc::Success, 0)),
    (Step::Free(A), Seen::Code(Hrc::Parameter, 0)),
    (Step::Free(NONE), Seen::Code(Hrc::Parameter, 0)),
    (
        Step::Register(
            A,
            0,
            QUEUE,
            0,
            Mac {
                bytes: [2, 0, 0, 0, 0, 1],
            },
        ),
        Seen::Code(Hrc::Success, 0),
    ),
];

#[test]
fn a_registration_has_its_places_its_queue_and_its_address(
    rt: HostRuntime,
) -> Result<(), NoMemory> {
    assert_eq!(rt;
        first_other(
            rt.alloc(),
            &A_REGISTRATION_HAS_ITS_PLACES_ITS_QUEUE_AND_ITS_ADDRESS
        )?,
        None
    );
    Ok(())
}

static A_CALL_ON_A_UNIT_THAT_IS_NO_PORT_IS_REFUSED: [Row; 6] = [
    (
        Step::ChangeMac(
            NONE,
            Mac {
                bytes: [2, 0, 0, 0, 0, 9],
            },
        ),
        Seen::Code(Hrc::Parameter, 0),
    ),
    (
        Step::Multicast(
            NONE,
            0xF0001,
            Mac {
                bytes: [1, 0, 0, 0, 0, 9],
            },
        ),
        Seen::Code(Hrc::Parameter, 0),
    ),
    (
        Step::Add(NONE, 0x8000_0100_0000_1000),
        Seen::Code(Hrc::Parameter, 0),
    ),
    (Step::Free(NONE), Seen::Code(Hrc::Parameter, 0)),
    (
        Step::ChangeMac(
            A,
            Mac {
                bytes: [2, 0, 0, 0, 0, 9],
            },
        ),
        Seen::Code(Hrc::Parameter, 0),
    ),
    (
        Step::Multicast(
            A,
            0xF0001,
            Mac {
                bytes: [1, 0, 0, 0, 0, 9],
            },
        ),
        Seen::Code(Hrc::Parameter, 0),
    ),
];

// `made` of each call excludes that a call on a unit that is no port goes further: it is refused.
#[test]
fn a_call_on_a_unit_that_is_no_port_is_refused(rt: HostRuntime) -> Result<(), NoMemory> {
    assert_eq!(rt;
        first_other(rt.alloc(), &A_CALL_ON_A_UNIT_THAT_IS_NO_PORT_IS_REFUSED)?,
        None
    );
    Ok(())
}

static ADDRESSES_ARE_CHANGED_TO_THOSE_OF_ONE_STATION: [Row; 7] = [
    (
        Step::Open(
            A,
            Mac {
                bytes: [2, 0, 0, 0, 0, 1],
            },
        ),
        Seen::Code(Hrc::Success, 0),
    ),
    (
        Step::ChangeMac(
            A,
            Mac {
                bytes: [0, 0, 0, 0, 0, 0],
            },
        ),
        Seen::Code(Hrc::Parameter, 0),
    ),
    (
        Step::ChangeMac(
            A,
            Mac {
                bytes: [1, 0, 0, 0, 0, 7],
            },
        ),
        Seen::Code(Hrc::Parameter, 0),
    ),
    (
        Step::ChangeMac(
            A,
            Mac {
                bytes: [2, 0, 0, 0, 0, 1],
            },
        ),
        Seen::Code(Hrc::Success, 0),
    ),
    (
        Step::ChangeMac(
            A,
            Mac {
                bytes: [2, 0, 0, 0, 0, 7],
            },
        ),
        Seen::Code(Hrc::Success, 0),
    ),
    (Step::Free(A), Seen::Code(Hrc::Success, 0)),
    (
        Step::ChangeMac(
            A,
            Mac {
                bytes: [2, 0, 0, 0, 0, 7],
            },
        ),
        Seen::Code(Hrc::Parameter, 0),
    ),
];

#[test]
fn addresses_are_changed_to_those_of_one_station(rt: HostRuntime) -> Result<(), NoMemory> {
    assert_eq!(rt;
        first_other(rt.alloc(), &ADDRESSES_ARE_CHANGED_TO_THOSE_OF_ONE_STATION)?,
        None
    );
    Ok(())
}

static FILTERS_ARE_CONTROLLED: [Row; 15] = [
    (
        Step::Open(
            A,
            Mac {
                bytes: [2, 0, 0, 0, 0, 1],
            },
        ),
        Seen::Code(Hrc::Success, 0),
    ),
    (
        Step::Multicast(
            A,
            0x100000,
            Mac {
                bytes: [1, 0, 0, 0, 0, 9],
            },
        ),
        Seen::Code(Hrc::Parameter, 0),
    ),
    (
        Step::Multicast(
            A,
            0x4,
            Mac {
                bytes: [1, 0, 0, 0, 0, 9],
            },
        ),
        Seen::Code(Hrc::Parameter, 0),
    ),
    (
        Step::Multicast(
            A,
            0xF0002,
            Mac {
                bytes: [1, 0, 0, 0, 0, 9],
            },
        ),
        Seen::Code(Hrc::NotFound, 0),
    ),
    (
        Step::Multicast(
            A,
            0xF0001,
            Mac {
                bytes: [2, 0, 0, 0, 0, 9],
            },
        ),
        Seen::Code(Hrc::Parameter, 0),
    ),
    (
        Step::Multicast(
            A,
            0xF0002,
            Mac {
                bytes: [2, 0, 0, 0, 0, 9],
            },
        ),
        Seen::Code(Hrc::Parameter, 0),
    ),
    (
        Step::Multicast(
            A,
            0xF0003,
            Mac {
                bytes: [2, 0, 0, 0, 0, 9],
            },
        ),
        Seen::Code(Hrc::Success, 0),
    ),
    (
        Step::Multicast(
            A,
            0xF0000,
            Mac {
                bytes: [2, 0, 0, 0, 0, 9],
            },
        ),
        Seen::Code(Hrc::Success, 0),
    ),
    (
        Step::Multicast(
            A,
            0xF0001,
            Mac {
                bytes: [1, 0, 0, 0, 0, 9],
            },
        ),
        Seen::Code(Hrc::Success, 0),
    ),
    (
        Step::Multicast(
            A,
            0x00001,
            Mac {
                bytes: [1, 0, 0, 0, 0, 9],
            },
        ),
        Seen::Code(Hrc::Success, 0),
    ),
    (
        Step::Multicast(
            A,
            0x00002,
            Mac {
                bytes: [1, 0, 0, 0, 0, 9],
            },
        ),
        Seen::Code(Hrc::Success, 0),
    ),
    (
        Step::Multicast(
            A,
            0x00002,
            Mac {
                bytes: [1, 0, 0, 0, 0, 9],
            },
        ),
        Seen::Code(Hrc::NotFound, 0),
    ),
    (
        Step::Multicast(
            A,
            0x00001,
            Mac {
                bytes: [1, 0, 0, 0, 0, 9],
            },
        ),
        Seen::Code(Hrc::Success, 0),
    ),
    (
        Step::Multicast(
            A,
            0x00003,
            Mac {
                bytes: [1, 0, 0, 0, 0, 9],
            },
        ),
        Seen::Code(Hrc::Success, 0),
    ),
    (
        Step::Multicast(
            A,
            0x00002,
            Mac {
                bytes: [1, 0, 0, 0, 0, 9],
            },
        ),
        Seen::Code(Hrc::NotFound, 0),
    ),
];

#[test]
fn filters_are_controlled(rt: HostRuntime) -> Result<(), NoMemory> {
    assert_eq!(rt; first_other(rt.alloc(), &FILTERS_ARE_CONTROLLED)?, None);
    Ok(())
}

#[test]
fn a_thirty_third_filter_has_no_place(rt: HostRuntime) -> Result<(), NoMemory> {
    for (last, want) in [(31, Hrc::Success), (32, Hrc::Success), (33, Hrc::Resource)] {
        assert_eq!(rt; super::filters_up_to(rt.alloc(), last)?, want);
    }
    Ok(())
}

static BUFFERS_ARE_POSTED_WITH_THEIR_FIRST_EIGHT_BYTES: [Row; 17] = [
    (
        Step::Add(B, 0x8000_0100_0000_1000),
        Seen::Code(Hrc::Parameter, 0),
    ),
    (
        Step::Open(
            B,
            Mac {
                bytes: [2, 0, 0, 0, 0, 2],
            },
        ),
        Seen::Code(Hrc::Success, 0),
    ),
    (
        Step::Add(B, 0x0000_0100_0000_1000),
        Seen::Code(Hrc::Parameter, 0),
    ),
    (
        Step::Add(B, 0x8000_0015_0000_1000),
        Seen::Code(Hrc::Parameter, 0),
    ),
    (
        Step::Add(B, 0x8000_0100_0001_2000),
        Seen::Code(Hrc::Parameter, 0),
    ),
    (Step::Write(B, 4096, 0x1122_3344_5566_7788), Seen::Nothing),
    (
        Step::Add(B, 0x8000_0100_0000_1000),
        Seen::Code(Hrc::Success, 0),
    ),
    (Step::Write(B, 4096, 0), Seen::Nothing),
    (
        Step::Add(B, 0x8000_0100_0000_1000),
        Seen::Code(Hrc::Success, 0),
    ),
    (
        Step::Add(B, 0x8000_0100_0000_1000),
        Seen::Code(Hrc::Success, 0),
    ),
    (
        Step::Add(B, 0x8000_0100_0000_1000),
        Seen::Code(Hrc::Success, 0),
    ),
    (
        Step::Add(B, 0x8000_0100_0000_1000),
        Seen::Code(Hrc::Resource, 0),
    ),
    (Step::Put(B, 4096, 0x1002), Seen::Nothing),
    (
        Step::Add(B, 0x8000_0100_0000_1000),
        Seen::Code(Hrc::Parameter, 0),
    ),
    (
        Step::Open(
            A,
            Mac {
                bytes: [2, 0, 0, 0, 0, 1],
            },
        ),
        Seen::Code(Hrc::Success, 0),
    ),
    (
        Step::Send(
            A,
            Mac {
                bytes: [2, 0, 0, 0, 0, 2],
            },
        ),
        Seen::Sent(
            Hrc::Success,
            Some(1),
            60,
            Some(Deliver::Done { post: 0 }),
            None,
        ),
    ),
    (
        Step::Harvest(B),
        Seen::Read(Harvest::Frame {
            number: 0,
            len: 60,
            correlator: 0x1122_3344_5566_7788,
        }),
    ),
];

#[test]
fn buffers_are_posted_with_their_first_eight_bytes(rt: HostRuntime) -> Result<(), NoMemory> {
    assert_eq!(rt;
        first_other(rt.alloc(), &BUFFERS_ARE_POSTED_WITH_THEIR_FIRST_EIGHT_BYTES)?,
        None
    );
    Ok(())
}
