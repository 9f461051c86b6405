// Boot texts and what they say.
use boot_text::{Cause, Line, Plan, PlanFault, UnitPlan, Verb, read_plan};
use std::alloc::{AllocError, Global};
use vio_num::{Mac, UnitId};

/// The head of a text: one partition of a server unit with a queue of one page.
const HEAD: &[u8] = b"vio 1\nrounds 3\ngrant 8\npartition\nserver 1\nend\n";

/// What follows the head, and the first line that is wrong with its first cause.
static FAULTS: [(&[u8], u32, Cause); 52] = [
    (
        b"partition\nclient 0.0 pages 14 queue 1\n0 login\n",
        10,
        Cause::Place,
    ),
    (b"end\n", 7, Cause::Place),
    (b"rounds 1\n", 7, Cause::Place),
    (b"vio 1\n", 7, Cause::Place),
    (b"0 login\n", 7, Cause::Place),
    (b"partition\nend\n", 8, Cause::Place),
    (
        b"partition\nclient 0.0 pages 14 queue 1\n0 tur\nclient 0.0 pages 14 queue 1\n",
        10,
        Cause::Place,
    ),
    (b"# caf\xC3\xA9\n", 7, Cause::BadByte),
    (b"partition\t\n", 7, Cause::BadByte),
    (b"disk 1\n", 7, Cause::Word),
    (b"0x0 tur\n", 7, Cause::Word),
    (
        b"partition\nclient 0.0 pages 14 queue 1\n0 seek\n",
        9,
        Cause::Word,
    ),
    (b"partition 1\n", 7, Cause::Count),
    (b"partition\nserver\n", 8, Cause::Count),
    (b"partition\nclient 0.0 pages 14 queue\n", 8, Cause::Count),
    (b"partition\nclient 0.0 slots 14 queue 1\n", 8, Cause::Count),
    (
        b"partition\nclient 0.0 pages 14 queue 1\n0\n",
        9,
        Cause::Count,
    ),
    (
        b"partition\nclient 0.0 pages 14 queue 1\n0 login now\n",
        9,
        Cause::Count,
    ),
    (
        b"partition\nclient 0.0 pages 14 queue 1\n0 read 0 1 53248 pieces\n",
        9,
        Cause::Count,
    ),
    (
        b"partition\nclient 0.0 pages 14 queue 1\n0 read 0 1 53248 parts 2\n",
        9,
        Cause::Count,
    ),
    (
        b"partition\nclient 0.0 pages 14 queue 1\n0 cdb 00 up 53248 512\n",
        9,
        Cause::Count,
    ),
    (
        b"partition\nclient 0.0 pages 14 queue 1\n0 hcall\n",
        9,
        Cause::Count,
    ),
    (
        b"partition\nclient 0.0 pages 14 queue 1\n0 hcall 1 2 3 4 5 6 7 8 9 10 11\n",
        9,
        Cause::Count,
    ),
    (
        b"partition\nclient 0.0 pages 13 queue 1\n",
        8,
        Cause::Number,
    ),
    (
        b"partition\nclient 0.0 pages 257 queue 1\n",
        8,
        Cause::Number,
    ),
    (
        b"partition\nclient 0.0 pages 14 queue 17\n",
        8,
        Cause::Number,
    ),
    (b"partition\nclient 00 pages 14 queue 1\n", 8, Cause::Number),
    (
        b"partition\nclient 0.0 pages 14 queue 1\n18446744073709551616 tur\n",
        9,
        Cause::Number,
    ),
    (
        b"partition\nclient 0.0 pages 14 queue 1\n000000000000000000000 tur\n",
        9,
        Cause::Number,
    ),
    (
        b"partition\nclient 0.0 pages 14 queue 1\n0 read 4294967296 1 53248\n",
        9,
        Cause::Number,
    ),
    (
        b"partition\nclient 0.0 pages 14 queue 1\n0 read 0 257 53248\n",
        9,
        Cause::Number,
    ),
    (
        b"partition\nclient 0.0 pages 14 queue 1\n0 read 0 1 53248 pieces 12\n",
        9,
        Cause::Number,
    ),
    (
        b"partition\nclient 0.0 pages 14 queue 1\n0 read 0 1 53248 pieces 257 table 57344\n",
        9,
        Cause::Number,
    ),
    (
        b"partition\nclient 0.0 pages 14 queue 1\n0 cdb 00 in 53248 2 pieces 3\n",
        9,
        Cause::Number,
    ),
    (
        b"partition\nclient 0.0 pages 14 queue 1\n0 cdb 000 none\n",
        9,
        Cause::Number,
    ),
    (
        b"partition\nclient 0.0 pages 14 queue 1\n0 cdb 0000000000000000000000000000000000 none\n",
        9,
        Cause::Number,
    ),
    (
        b"partition\nclient 0.0 pages 14 queue 1\n0 task 256 1\n",
        9,
        Cause::Number,
    ),
    (
        b"partition\nclient 0.0 pages 14 queue 1\n0 tce 1 2 wr\n",
        9,
        Cause::Number,
    ),
    (
        b"partition\nclient 0.0 pages 14 queue 1\n0 tce 1 0x10000000000000 rw\n",
        9,
        Cause::Number,
    ),
    (
        b"partition\nlan 01:00:00:00:00:01 pages 1 slots 1\n",
        8,
        Cause::Number,
    ),
    (
        b"partition\nlan 00:00:00:00:00:00 pages 1 slots 1\n",
        8,
        Cause::Number,
    ),
    (
        b"partition\nlan 02:00:00:00:00:0 pages 1 slots 1\n",
        8,
        Cause::Number,
    ),
    (
        b"partition\nlan 02:00:00:00:00:01 pages 1 slots 1025\n",
        8,
        Cause::Number,
    ),
    (b"partition\nserver 1\n", 8, Cause::Link),
    (b"partition\nclient 1.0 pages 14 queue 1\n", 8, Cause::Link),
    (b"partition\nclient 0.1 pages 14 queue 1\n", 8, Cause::Link),
    (
        b"partition\nclient 99999999999999999999.0 pages 14 queue 1\n",
        8,
        Cause::Link,
    ),
    (
        b"partition\nclient 0.0 pages 14 queue 1\nclient 0.0 pages 14 queue 1\n",
        9,
        Cause::Link,
    ),
    (
        b"partition\nclient 0.0 pages 14 queue 1\n1 tur\n",
        9,
        Cause::Unit,
    ),
    (
        b"partition\nclient 0.0 pages 14 queue 1\n0 open\n",
        9,
        Cause::Unit,
    ),
    (
        b"partition\nlan 02:00:00:00:00:01 pages 1 slots 1\n0 tur\n",
        9,
        Cause::Unit,
    ),
    (
        b"partition\nlan 02:00:00:00:00:01 pages 1 slots 1\n0 post 0 64 1025\n",
        9,
        Cause::Number,
    ),
];

// The head of a text, and what follows it.
fn text_with(alloc: Global, rest: &[u8]) -> Result<Vec<u8>, AllocError> {
    let mut text = Vec::from_slice(alloc, HEAD)?;
    text.extend_from_slice(rest)?;
    Ok(text)
}

// What is wrong with a text, if anything is.
fn fault(alloc: Global, text: &[u8]) -> Option<(u32, Cause)> {
    match read_plan(alloc, text) {
        Ok(_) => None,
        Err(PlanFault::Refused { line, cause }) => Some((line, cause)),
        Err(PlanFault::NoMemory) => Some((u32::MAX, Cause::TooLong)),
    }
}

// What is wrong with a text of the head and what follows it, if anything is.
fn fault_behind(alloc: Global, rest: &[u8]) -> Result<Option<(u32, Cause)>, AllocError> {
    let text = text_with(alloc, rest)?;
    Ok(fault(alloc, &text))
}

#[test]
fn each_fault_is_told_at_its_line(rt: HostRuntime) -> Result<(), AllocError> {
    for (rest, line, cause) in &FAULTS {
        assert_eq!(rt; fault_behind(rt.alloc(), rest)?, Some((*line, *cause)));
    }
    Ok(())
}

/// Whole texts that are wrong in their first lines.
static HEADS: [(&[u8], u32, Cause); 8] = [
    (b"", 1, Cause::Header),
    (b"\nvio 1\n", 1, Cause::Header),
    (b"# a comment\nvio 1\n", 1, Cause::Header),
    (b"vio 2\n", 1, Cause::Header),
    (b"vio 1", 2, Cause::Place),
    (b"vio 1\n\n", 3, Cause::Place),
    (b"vio 1\nrounds 1048577\n", 2, Cause::Number),
    (b"vio 1\nrounds 1\ngrant 201\n", 3, Cause::Number),
];

#[test]
fn the_first_lines_are_fixed(rt: HostRuntime) {
    for (text, line, cause) in &HEADS {
        assert_eq!(rt; fault(rt.alloc(), text), Some((*line, *cause)));
    }
}

/// A script of every line that a client and a LAN port have.
const WHOLE: &[u8] =
    b"  vio   1 \nrounds 1048576\ngrant 200\n# servers\npartition\nserver 16\nend\n\npartition\n\
    client 0.0 pages 256 queue 16\nlan 02:aB:00:00:00:01 pages 1 slots 1024\n\
    0 login\n0 reset\n0 logout\n0 tur\n0 read 4294967295 256 0x10000\n\
    0 write 1 2 3 pieces 11\n0 cdb 00 none\n0 cdb 12 in 4 131072 pieces 256 table 5\n\
    0 cdb 0102 out 6 7\n0 task 255 9\n0 take 18446744073709551615\n0 data 3\n1 open\n1 close\n1 post 1 2 1024\n\
    1 send 01:00:00:00:00:01 65527 2 3\n1 mac 02:00:00:00:00:02\n1 mcast 0x50001 01:00:00:00:00:01\n\
    1 fill 1 65536 2\n0 poke 1 00fF\n1 peek 1 256\n0 tce 1 2 rw\n0 tce 1 2 -\n0 hcall 0x108 1 2 3\n1 take 1\n1 fail\nend\n";

/// The first unit of the second partition.
static CLIENT_PLAN: UnitPlan = UnitPlan::Client {
    server: UnitId {
        partition: 0,
        unit: 0,
    },
    pages: 256,
    queue: 16,
};

// Whether a plan has these rounds, this grant, and two partitions, the second with this unit first and 26 lines.
fn is_whole(plan: &Plan) -> bool {
    let [_, clients] = plan.partitions.as_slice() else {
        return false;
    };
    (plan.rounds, plan.grant) == (1_048_576, 200)
        && clients.units.as_slice().first() == Some(&CLIENT_PLAN)
        && clients.lines.len() == 26
}

#[test]
fn a_whole_text_says_its_plan(rt: HostRuntime) {
    let is_told = match read_plan(rt.alloc(), WHOLE) {
        Ok(plan) => is_whole(&plan),
        Err(_) => false,
    };
    assert!(rt; is_told);
}

/// What begins a text behind the head, a piece that stands so many times, what ends it, and what is wrong with it.
type Row = (
    &'static [u8],
    &'static [u8],
    usize,
    &'static [u8],
    Option<(u32, Cause)>,
);

const LAN: &[u8] = b"lan 02:00:00:00:00:01 pages 1 slots 1\n";

const LARGE: &[u8] = b"lan 02:00:00:00:00:01 pages 256 slots 1\n";

const LEFT: &[u8] = b"lan 02:00:00:00:00:01 pages 222 slots 1\nend";

const OVER: &[u8] = b"lan 02:00:00:00:00:01 pages 223 slots 1\nend";

const PORT: &[u8] = b"partition\nlan 02:00:00:00:00:01 pages 1 slots 1\nend\n";

const CLIENT: &[u8] = b"partition\nclient 0.0 pages 14 queue 1\n";

/// Each limit, met and passed.
static LIMITS: [Row; 18] = [
    (b"", PORT, 15, b"", None),
    (b"", PORT, 16, b"", Some((52, Cause::Limit))),
    (b"partition\n", LAN, 8, b"end\n", None),
    (b"partition\n", LAN, 9, b"end\n", Some((16, Cause::Limit))),
    (b"partition\n", LARGE, 7, LEFT, None),
    (b"partition\n", LARGE, 7, OVER, Some((15, Cause::Limit))),
    (CLIENT, b"0 fill 0 65536 1\n", 256, b"end\n", None),
    (
        CLIENT,
        b"0 fill 0 65536 1\n",
        256,
        b"0 peek 0 1\n",
        Some((265, Cause::Transfer)),
    ),
    (CLIENT, b"0 hcall 0x110 65536\n", 255, b"0 tur\nend\n", None),
    (
        CLIENT,
        b"0 hcall 0x110 65536\n",
        255,
        b"0 fill 0 257 1\n",
        Some((264, Cause::Transfer)),
    ),
    (
        CLIENT,
        b"0 cdb 00 in 0 65280\n",
        255,
        b"0 read 0 119 0\nend\n",
        None,
    ),
    (
        CLIENT,
        b"0 cdb 00 in 0 65280\n",
        255,
        b"0 read 0 120 0\n",
        Some((264, Cause::Transfer)),
    ),
    (b"", b" ", 1_024, b"\npartition\n", Some((9, Cause::Place))),
    (b"", b" ", 1_025, b"\n", Some((7, Cause::LineLength))),
    (b"#", b"~", 1_023, b"", None),
    (b"#", b"~", 1_024, b"", Some((7, Cause::LineLength))),
    (b"", b"\n", 1_048_530, b"", None),
    (b"", b"\n", 1_048_531, b"", Some((0, Cause::TooLong))),
];

// The head of a text, and what a row puts behind it.
fn text_of(alloc: Global, row: &Row) -> Result<Vec<u8>, AllocError> {
    let (front, piece, times, back, _) = *row;
    let mut text = text_with(alloc, front)?;
    for _ in 0..times {
        text.extend_from_slice(piece)?;
    }
    text.extend_from_slice(back)?;
    Ok(text)
}

#[test]
fn limits_are_met_and_not_passed(rt: HostRuntime) -> Result<(), AllocError> {
    for row in &LIMITS {
        let text = text_of(rt.alloc(), row)?;
        assert_eq!(rt; fault(rt.alloc(), &text), row.4);
    }
    Ok(())
}
