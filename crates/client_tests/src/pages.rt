// Where data and tables lie, and how they are named.
use super::desk::{Case, Row, first_other_case, play_granted};
use super::step::{Call, NO_CREDIT, NOT_LOGGED_IN, POLL, READ, SUBMIT, Seen, Step, TAKE};
use vscsi_client::{Dir, Op, Refused};

/// A write of 256 blocks in 256 pieces, whose table lies in page 14.
const WRITE: Op = Op {
    cdb: [0x2A, 0, 0, 0, 0, 0, 0, 1, 0, 0, 0, 0, 0, 0, 0, 0],
    dir: Dir::Out,
    at: 131_072,
    len: 131_072,
    pieces: 256,
    table: Some(57_344),
};

const RANGE: Seen = Seen::Refused(Refused::Range);

static PAGES_OF_AN_OUTSTANDING_COMMAND_ROWS: [Row; 12] = [
    (Step::Call(Call::Submit(WRITE)), Seen::Sent(2)),
    (
        Step::ReadAt(57_344),
        Seen::Refused(Refused::Overlap { tag: 2 }),
    ),
    (
        Step::ReadAt(61_439),
        Seen::Refused(Refused::Overlap { tag: 2 }),
    ),
    (Step::ReadAt(61_440), Seen::Sent(3)),
    (
        Step::ReadBy(64_512),
        Seen::Refused(Refused::Overlap { tag: 3 }),
    ),
    (
        Step::ReadAt(130_049),
        Seen::Refused(Refused::Overlap { tag: 2 }),
    ),
    (Step::ReadAt(130_048), Seen::Sent(4)),
    (
        Step::ReadBy(131_072),
        Seen::Refused(Refused::Overlap { tag: 2 }),
    ),
    (
        Step::ReadBy(126_976),
        Seen::Refused(Refused::Overlap { tag: 4 }),
    ),
    (Step::Good(0, 2), Seen::Put(2)),
    (TAKE, Seen::Answer(2, 7, 0)),
    (Step::ReadAt(57_344), Seen::Sent(5)),
];

/// The pages of an outstanding command's data and of its table are its own; the oldest that has one is named.
/// Excluded by the clause `refused` of `submit`: an overlap that looks at the data alone.
#[test]
fn pages_of_an_outstanding_command(rt: HostRuntime) {
    assert_eq!(rt;
        play_granted(rt.alloc(), 8, &PAGES_OF_AN_OUTSTANDING_COMMAND_ROWS),
        Ok(None)
    );
}

/// Scripts of pieces and of places in the region, each with its name.
static PLACES: [Case; 7] = [
    // Pieces of 341, 341 and 342 bytes, and a unit of 116.
    Case {
        name: "a read in three pieces",
        granted: Some(8),
        rows: &[
            (Step::Call(Call::Submit(READ)), Seen::Sent(2)),
            (POLL, Seen::Unit(116, 0)),
            (Step::Word(0), Seen::Word(0x0200_0000_0002_0003)),
            (Step::Word(8), Seen::Word(2)),
            (Step::Word(32), Seen::Word(0x2800_0000_0000_0000)),
            (Step::Word(40), Seen::Word(0x0200_0000_0000_0000)),
            (Step::Word(56), Seen::Word(48)),
            (Step::Word(60), Seen::Word(0x0000_0030_0000_0400)),
            (Step::Word(68), Seen::Word(65_536)),
            (Step::Word(76), Seen::Word(341)),
            (Step::Word(84), Seen::Word(65_877)),
            (Step::Word(92), Seen::Word(341)),
            (Step::Word(100), Seen::Word(66_218)),
            (Step::Word(108), Seen::Word(342)),
            (Step::Word(116), Seen::Word(0)),
        ],
    },
    // A command without data is of 48 bytes, one piece without a table is a direct descriptor.
    Case {
        name: "a command without data and one of one piece",
        granted: Some(8),
        rows: &[
            (SUBMIT, Seen::Sent(2)),
            (Step::Word(0), Seen::Word(0x0200_0000_0000_0000)),
            (Step::Word(8), Seen::Word(2)),
            (Step::Word(32), Seen::Word(0)),
            (
                Step::Call(Call::Submit(Op { pieces: 1, ..READ })),
                Seen::Sent(3),
            ),
            (POLL, Seen::Unit(48, 0)),
            (POLL, Seen::Unit(64, 256)),
            (Step::Word(256), Seen::Word(0x0200_0000_0001_0000)),
            (Step::Word(304), Seen::Word(65_536)),
            (Step::Word(312), Seen::Word(1024)),
        ],
    },
    // The table of 256 pieces is written into the region, and the unit has none of them.
    Case {
        name: "two hundred and fifty six pieces",
        granted: Some(8),
        rows: &[
            (Step::Call(Call::Submit(WRITE)), Seen::Sent(2)),
            (POLL, Seen::Unit(68, 0)),
            (Step::Word(0), Seen::Word(0x0200_0000_0020_0000)),
            (Step::Word(48), Seen::Word(57_344)),
            (Step::Word(56), Seen::Word(4096)),
            (Step::Word(60), Seen::Word(0x0000_1000_0002_0000)),
            (Step::Word(57_344), Seen::Word(131_072)),
            (Step::Word(57_352), Seen::Word(512)),
            (Step::Word(57_360), Seen::Word(131_584)),
            (Step::Word(61_424), Seen::Word(261_632)),
            (Step::Word(61_432), Seen::Word(512)),
            (Step::Word(61_440), Seen::Word(0)),
        ],
    },
    // Data and tables lie from page 13 on, up to the end of the region.
    Case {
        name: "data and tables lie in their part of the region, first",
        granted: Some(8),
        rows: &[
            (Step::ReadAt(0), RANGE),
            (Step::ReadAt(53_247), RANGE),
            (Step::ReadAt(53_248), Seen::Sent(2)),
            (Step::ReadAt(261_121), RANGE),
            (Step::ReadAt(261_120), Seen::Sent(3)),
            (Step::ReadAt(u64::MAX), RANGE),
            (Step::ReadBy(53_247), RANGE),
            (Step::ReadBy(262_097), RANGE),
            (Step::ReadBy(u64::MAX), RANGE),
            (Step::ReadBy(57_344), Seen::Sent(4)),
        ],
    },
    Case {
        name: "data and tables lie in their part of the region, again",
        granted: Some(8),
        rows: &[(Step::ReadBy(262_096), Seen::Sent(2))],
    },
    // The first of the causes that stand is told: the range, the credit, the overlap.
    Case {
        name: "the first cause is told, first",
        granted: Some(2),
        rows: &[
            (Step::ReadAt(65_536), Seen::Sent(2)),
            (
                Step::ReadAt(65_536),
                Seen::Refused(Refused::Overlap { tag: 2 }),
            ),
            (SUBMIT, Seen::Sent(3)),
            (Step::ReadAt(65_536), NO_CREDIT),
            (Step::ReadAt(53_247), RANGE),
        ],
    },
    Case {
        name: "the first cause is told, again",
        granted: None,
        rows: &[
            (Step::ReadAt(53_247), RANGE),
            (Step::ReadAt(53_248), NOT_LOGGED_IN),
        ],
    },
];

#[test]
fn pieces_lie_where_their_scripts_say(rt: HostRuntime) {
    assert_eq!(rt; first_other_case(rt.alloc(), &PLACES), Ok(None));
}
