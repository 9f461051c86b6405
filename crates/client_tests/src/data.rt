// The data of a command, which the server wrote under its tag.
use super::desk::{Case, Other, Row, first_other_case, play_granted};
use super::step::{Call, READ, SUBMIT, Seen, Step, TAKE};
use super::units::Unit;
use std::alloc::Global;
use vio_num::NoMemory;
use vscsi_client::{DataFault, Op};

/// A read of two blocks into page 16, in one piece.
const ONE: Op = Op { pieces: 1, ..READ };

const SUBMIT_ONE: Step = Step::Call(Call::Submit(ONE));

/// The data of the command of tag 2 are wanted.
const DATA: Step = Step::Call(Call::DataOf(2));

const UNKNOWN: Seen = Seen::NoData(DataFault::Unknown);

const STALE: Seen = Seen::NoData(DataFault::Stale { page: 16 });

static DATA_OF_ANOTHER_NAME_ARE_STALE_ROWS: [Row; 12] = [
    (SUBMIT_ONE, Seen::Sent(2)),
    (Step::Good(0, 2), Seen::Put(2)),
    (TAKE, Seen::Answer(2, 7, 0)),
    (DATA, STALE),
    (Step::Lay(16, 1, 3), Seen::Nothing),
    (DATA, STALE),
    (Step::Lay(16, 1, 2), Seen::Nothing),
    (DATA, Seen::Gave(1024, 5)),
    (Step::Write(0, Unit::Nothing), Seen::Nothing),
    (DATA, Seen::Gave(1024, 5)),
    (Step::Write(256, Unit::Nothing), Seen::Nothing),
    (DATA, STALE),
];

/// Data over which the partition wrote are stale, and so are those of another tag.
/// Excluded by the clause `given` of `data_of`: data that another name wrote.
#[test]
fn data_of_another_name_are_stale(rt: HostRuntime) {
    assert_eq!(rt;
        play_granted(rt.alloc(), 8, &DATA_OF_ANOTHER_NAME_ARE_STALE_ROWS),
        Ok(None)
    );
}

// Plays a read of 1,024 bytes that is answered with this unit, of this delta, and of whose data this is seen.
fn play_answered(alloc: Global, unit: Unit, delta: u32, seen: Seen) -> Result<Other, NoMemory> {
    let rows = [
        (SUBMIT_ONE, Seen::Sent(2)),
        (Step::Lay(16, 1, 2), Seen::Nothing),
        (Step::Answer(0, unit, 36, 2), Seen::Put(2)),
        (TAKE, Seen::Answer(2, delta, 0)),
        (DATA, seen),
    ];
    play_granted(alloc, 8, &rows)
}

/// The answers to a read of 1,024 bytes, their deltas, and what is seen of its data.
static ANSWERS: [(Unit, u32, Seen); 8] = [
    (Unit::Good(2, 9), 9, Seen::Gave(1024, 5)),
    (Unit::Short(2, 0), 1, Seen::Gave(1024, 5)),
    (Unit::Short(2, 24), 1, Seen::Gave(1000, 5)),
    (Unit::Short(2, 1023), 1, Seen::Gave(1, 5)),
    (Unit::Short(2, 1024), 1, Seen::Gave(0, 0)),
    (Unit::Short(2, 2000), 1, Seen::Gave(0, 0)),
    (Unit::Over(2, 24), 1, Seen::Gave(1024, 5)),
    (Unit::Coded(2, 24), 1, Seen::Gave(1024, 5)),
];

/// The data are all that the command names, less the residual of an underflow; none where that is larger. After a
/// response code they are all.
#[test]
fn data_are_as_long_as_the_response_says(rt: HostRuntime) {
    for (unit, delta, seen) in ANSWERS.iter() {
        assert_eq!(rt; play_answered(rt.alloc(), *unit, *delta, *seen), Ok(None));
    }
}

/// Scripts of data, each with its name.
static GIVEN: [Case; 2] = [
    // The data of a command are known once its answer is taken, and not those of another kind of request.
    Case {
        name: "data are known once the answer is taken",
        granted: Some(8),
        rows: &[
            (SUBMIT_ONE, Seen::Sent(2)),
            (SUBMIT, Seen::Sent(3)),
            (Step::Lay(16, 1, 2), Seen::Nothing),
            (DATA, UNKNOWN),
            (Step::Good(0, 2), Seen::Put(2)),
            (TAKE, Seen::Answer(2, 7, 0)),
            (DATA, Seen::Gave(1024, 5)),
            (Step::Good(1, 3), Seen::Put(3)),
            (TAKE, Seen::Answer(3, 7, 0)),
            (Step::Call(Call::DataOf(0)), UNKNOWN),
            (Step::Call(Call::DataOf(1)), UNKNOWN),
            (Step::Call(Call::DataOf(3)), UNKNOWN),
            (Step::Call(Call::DataOf(4)), UNKNOWN),
        ],
    },
    // More than 65,536 bytes are read in two parts, each of which is looked at.
    Case {
        name: "data in two parts",
        granted: Some(8),
        rows: &[
            (
                Step::Call(Call::Submit(Op { len: 70_000, ..ONE })),
                Seen::Sent(2),
            ),
            (Step::Good(0, 2), Seen::Put(2)),
            (TAKE, Seen::Answer(2, 7, 0)),
            (Step::Lay(17, 17, 2), Seen::Nothing),
            (DATA, STALE),
            (Step::Lay(16, 1, 2), Seen::Nothing),
            (DATA, Seen::Gave(70_000, 5)),
            (Step::Lay(33, 1, 3), Seen::Nothing),
            (DATA, Seen::NoData(DataFault::Stale { page: 33 })),
            (Step::Lay(33, 1, 2), Seen::Nothing),
            (Step::Lay(34, 1, 3), Seen::Nothing),
            (DATA, Seen::Gave(70_000, 5)),
        ],
    },
];

#[test]
fn data_are_given_as_their_scripts_say(rt: HostRuntime) {
    assert_eq!(rt; first_other_case(rt.alloc(), &GIVEN), Ok(None));
}
