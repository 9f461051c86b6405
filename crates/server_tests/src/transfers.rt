// Data-out and data-in: pieces, tables, residuals, sizes, parts of 65,536 bytes, windows that refuse, and a device that
// fails.
use super::rig::{LOGGED_IN, first_other, play_failing};
use super::step::Step;
use super::step::Step::{
    Ask, Fault, Fill, Holds, PutTce, Row, Says, Shows, Take, TakeAny, TakeNone, Turn,
};
use super::units::Data::{At, Table};
use super::units::Unit;
use super::units::Unit::{Both, Code, Flush, Read, Write, WriteBoth};
use std::alloc::Global;
use std::test::Fail;
use vio_num::Moved::Moved;
use vio_num::{Entry, NoMemory};

// Serves a request in slot 1, and gives the first step that went otherwise: the response and the row are these.
fn served(
    alloc: Global,
    unit: Unit,
    says: (u8, u8, u32, u32),
    row: (usize, usize, usize),
) -> Result<Option<usize>, NoMemory> {
    let (status, flags, out, inn) = says;
    let script = [
        Ask(1, unit),
        Turn(Moved),
        TakeAny,
        Says(status, flags, out, inn),
        Row(0, row),
    ];
    first_other(alloc, 512, &script)
}

/// The blocks of a READ(10), the address and the bytes of its buffer, the flags and the data-in residual of its response,
/// and how many bytes are moved.
const READS: [(u16, u64, u32, u8, u32, usize); 10] = [
    (1, 65_536, 512, 0, 0, 512),
    (1, 65_536, 600, 0x20, 88, 512),
    (2, 65_536, 512, 0x10, 512, 512),
    (0, 65_536, 100, 0x20, 100, 0),
    (256, 98_303, 0, 0x10, 131_072, 0),
    (256, 98_303, 1, 0x10, 131_071, 1),
    (256, 98_303, 65_535, 0x10, 65_537, 65_535),
    (256, 98_303, 65_536, 0x10, 65_536, 65_536),
    (256, 98_303, 65_537, 0x10, 65_535, 65_537),
    (256, 98_303, 131_072, 0, 0, 131_072),
];

// The residual says what is left and what is lacking.
#[test]
fn data_in_of_each_size_come_whole(rt: HostRuntime) {
    for (blocks, at, len, flags, residual, moved) in READS {
        let unit = Read(3, 0, blocks, At(at, len));
        let other = served(rt.alloc(), unit, (0, flags, 0, residual), (0, moved, 36));
        assert_eq!(rt; other, Ok(None), "{blocks} blocks, {len} bytes");
    }
}

/// The blocks of a WRITE(10), the address and the bytes of its buffer, and the status, the flags and the data-out
/// residual of its response.
const WRITES: [(u16, u64, u32, u8, u8, u32); 9] = [
    (1, 65_536, 512, 0, 0, 0),
    (1, 65_536, 600, 0, 0x08, 88),
    (2, 65_536, 512, 2, 0x06, 512),
    (1, 98_303, 0, 2, 0x06, 512),
    (1, 98_303, 1, 2, 0x06, 511),
    (128, 98_303, 65_535, 2, 0x06, 1),
    (128, 98_303, 65_536, 0, 0, 0),
    (128, 98_303, 65_537, 0, 0x08, 1),
    (256, 98_303, 131_072, 0, 0, 0),
];

// The residual says what is left and what is lacking.
#[test]
fn data_out_of_each_size_are_fetched_whole(rt: HostRuntime) {
    for (blocks, at, len, status, flags, residual) in WRITES {
        let unit = Write(2, 0, blocks, At(at, len));
        let answer_len = if status == 0 { 36 } else { 54 };
        let row = (len as usize, 0, answer_len);
        let other = served(rt.alloc(), unit, (status, flags, residual, 0), row);
        assert_eq!(rt; other, Ok(None), "{blocks} blocks, {len} bytes");
    }
}

/// The lengths of data-out and of data-in of a command of one block, the status, the flags and both residuals of its
/// response, and how many bytes are moved each way: of READ(10).
const READS_BOTH_WAYS: [(u32, u32, u8, u8, u32, u32, usize, usize); 4] = [
    (512, 512, 0, 0x08, 512, 0, 512, 512),
    (1, 600, 0, 0x28, 1, 88, 1, 512),
    (600, 100, 0, 0x18, 600, 412, 600, 100),
    (0, 511, 0, 0x10, 0, 1, 0, 511),
];

/// The same of WRITE(10).
const WRITES_BOTH_WAYS: [(u32, u32, u8, u8, u32, u32, usize, usize); 4] = [
    (512, 100, 0, 0x20, 0, 100, 512, 0),
    (600, 1, 0, 0x28, 88, 1, 600, 0),
    (511, 100, 2, 0x26, 1, 100, 511, 0),
    (0, 0, 2, 0x06, 512, 0, 0, 0),
];

#[test]
fn data_both_ways_have_residuals_both_ways(rt: HostRuntime) {
    for (out, inn, status, flags, out_left, in_left, fetched, sent) in READS_BOTH_WAYS {
        let unit = Both(2, At(65_536, out), At(98_304, inn));
        let says = (status, flags, out_left, in_left);
        let other = served(rt.alloc(), unit, says, (fetched, sent, 36));
        assert_eq!(rt; other, Ok(None), "a read with {out} and {inn} bytes");
    }
    for (out, inn, status, flags, out_left, in_left, fetched, sent) in WRITES_BOTH_WAYS {
        let unit = WriteBoth(At(65_536, out), At(98_304, inn));
        let says = (status, flags, out_left, in_left);
        let answer_len = if status == 0 { 36 } else { 54 };
        let other = served(rt.alloc(), unit, says, (fetched, sent, answer_len));
        assert_eq!(rt; other, Ok(None), "a write with {out} and {inn} bytes");
    }
}

// A read that fails gives no data.
#[test]
fn a_device_that_fails_at_a_read_gives_no_data(rt: HostRuntime) -> Result<(), Fail> {
    for call in 0..3 {
        let script = [
            Ask(1, Read(2, 0, 3, At(98_303, 1_536))),
            Turn(Moved),
            TakeAny,
            Says(2, 0x22, 0, 1_536),
            Fault(0, call),
            Row(0, (0, 0, 54)),
            Ask(1, Read(3, 0, 3, At(98_303, 1_536))),
            Turn(Moved),
            TakeAny,
            Says(0, 0, 0, 0),
            Row(1, (0, 1_536, 36)),
        ];
        let seen = play_failing(rt.alloc(), u64::from(call), &LOGGED_IN, &script)?;
        assert_eq!(rt; seen.other, None, "call {call}");
    }
    Ok(())
}

#[test]
fn a_device_that_fails_at_a_flush_gives_a_medium_error(rt: HostRuntime) -> Result<(), Fail> {
    let script = [
        Ask(1, Flush),
        Turn(Moved),
        TakeAny,
        Says(2, 0x02, 0, 0),
        Fault(0, 0),
        Ask(1, Flush),
        Turn(Moved),
        TakeAny,
        Says(0, 0, 0, 0),
    ];
    let seen = play_failing(rt.alloc(), 0, &LOGGED_IN, &script)?;
    assert_eq!(rt; seen.other, None);
    Ok(())
}

#[test]
fn a_device_that_fails_at_a_call_gives_a_medium_error(rt: HostRuntime) -> Result<(), Fail> {
    for call in 0..3 {
        let script = [
            Ask(1, Write(2, 0, 3, At(98_303, 1_536))),
            Turn(Moved),
            TakeAny,
            Says(2, 0x02, 0, 0),
            Fault(0, call),
            Ask(1, Read(2, 0, 3, At(98_303, 1_536))),
            Turn(Moved),
            TakeAny,
            Says(0, 0, 0, 0),
        ];
        let seen = play_failing(rt.alloc(), u64::from(call), &LOGGED_IN, &script)?;
        assert_eq!(rt; seen.other, None, "call {call}");
    }
    Ok(())
}

/// The numbers of pieces, their lengths, and the lengths of their tables.
const TABLES: [(u32, u32, u32); 4] = [
    (1, 131_072, 16),
    (2, 65_536, 32),
    (16, 8_192, 256),
    (256, 512, 4_096),
];

#[test]
fn tables_of_1_to_256_pieces_are_fetched(rt: HostRuntime) {
    for (pieces, len, table_len) in TABLES {
        let script = [
            Step::Table(pieces, len),
            Ask(1, Write(2, 0, 256, Table(table_len, 131_072))),
            Turn(Moved),
            TakeAny,
            Says(0, 0, 0, 0),
            Ask(1, Read(3, 0, 256, Table(table_len, 131_072))),
            Turn(Moved),
            TakeAny,
            Says(0, 0, 0, 0),
            Row(0, (131_072, 0, 36)),
            Row(1, (0, 131_072, 36)),
        ];
        assert_eq!(rt;
            first_other(rt.alloc(), 512, &script),
            Ok(None),
            "{pieces} pieces"
        );
    }
}

static A_SHORT_WRITE_WRITES_NOTHING_SCRIPT: [Step; 8] = [
    Fill(65_536, 9),
    Ask(1, Write(2, 0, 2, At(65_536, 512))),
    Turn(Moved),
    TakeAny,
    Ask(1, Read(3, 0, 1, At(65_536, 512))),
    Turn(Moved),
    TakeAny,
    Holds(65_536, 0),
];

// Seen elsewhere: a short WRITE(10) answers good, and fills the blocks that got no data with old bytes. Here the disk
// step writes nothing (`execute` of block_disk, clauses `reply` and `image`).
#[test]
fn a_short_write_writes_nothing(rt: HostRuntime) {
    assert_eq!(rt;
        first_other(rt.alloc(), 512, &A_SHORT_WRITE_WRITES_NOTHING_SCRIPT),
        Ok(None)
    );
}

// Seen elsewhere: the length of an indirect table bounds an allocation. Here it is refused above 4,096 (`pieces_of` of srp_desc,
// clause `refusal`).
#[test]
fn a_table_of_a_bad_length_is_refused(rt: HostRuntime) {
    for (len, total) in [(0, 0), (0, 512), (8, 512), (4_112, 512), (0xFFFF_FFF0, 512)] {
        let script = [
            Ask(1, Write(2, 0, 1, Table(len, total))),
            Turn(Moved),
            TakeAny,
            Says(0, 1, 0, 0),
            Shows(1, Code(2, 2)),
        ];
        assert_eq!(rt;
            first_other(rt.alloc(), 512, &script),
            Ok(None),
            "of {len} bytes"
        );
    }
}

static DESCRIPTORS_THAT_DO_NOT_SUM_UP_ARE_REFUSED_SCRIPT: [Step; 10] = [
    Step::Table(3, 512),
    Ask(1, Write(5, 0, 3, Table(48, 1_535))),
    Turn(Moved),
    TakeAny,
    Shows(1, Code(5, 2)),
    Row(0, (0, 0, 40)),
    Ask(1, Read(6, 0, 1, At(65_536, 512))),
    Turn(Moved),
    TakeAny,
    Holds(65_536, 0),
];

#[test]
fn descriptors_that_do_not_sum_up_are_refused(rt: HostRuntime) {
    assert_eq!(rt;
        first_other(
            rt.alloc(),
            512,
            &DESCRIPTORS_THAT_DO_NOT_SUM_UP_ARE_REFUSED_SCRIPT
        ),
        Ok(None)
    );
}

static AN_ENTRY_THAT_IS_WITHDRAWN_REFUSES_A_TABLE_SCRIPT: [Step; 7] = [
    Step::Table(2, 512),
    PutTce(16_384, 0),
    Ask(1, Write(2, 0, 2, Table(32, 1_024))),
    Turn(Moved),
    TakeAny,
    Says(0, 1, 0, 0),
    Row(0, (0, 0, 40)),
];

#[test]
fn an_entry_that_is_withdrawn_refuses_a_table(rt: HostRuntime) {
    assert_eq!(rt;
        first_other(
            rt.alloc(),
            512,
            &AN_ENTRY_THAT_IS_WITHDRAWN_REFUSES_A_TABLE_SCRIPT
        ),
        Ok(None)
    );
}

static AN_ENTRY_THAT_IS_WITHDRAWN_REFUSES_DATA_OUT_BEFORE_THE_STEP_SCRIPT: [Step; 6] = [
    PutTce(65_536 + 4_096, 0),
    Ask(1, Write(2, 0, 16, At(65_536, 8_192))),
    Turn(Moved),
    TakeAny,
    Says(0, 1, 0, 0),
    Row(0, (0, 0, 40)),
];

#[test]
fn an_entry_that_is_withdrawn_refuses_data_out_before_the_step(rt: HostRuntime) {
    assert_eq!(rt;
        first_other(
            rt.alloc(),
            512,
            &AN_ENTRY_THAT_IS_WITHDRAWN_REFUSES_DATA_OUT_BEFORE_THE_STEP_SCRIPT
        ),
        Ok(None)
    );
}

static AN_ENTRY_THAT_IS_WITHDRAWN_CUTS_DATA_IN_BEHIND_THE_STEP_SCRIPT: [Step; 7] = [
    Step::Table(2, 32_768),
    PutTce(131_072, 131_073),
    Ask(1, Read(3, 0, 128, Table(32, 65_536))),
    Turn(Moved),
    TakeAny,
    Says(0, 1, 0, 0),
    Row(0, (0, 32_768, 40)),
];

#[test]
fn an_entry_that_is_withdrawn_cuts_data_in_behind_the_step(rt: HostRuntime) {
    assert_eq!(rt;
        first_other(
            rt.alloc(),
            512,
            &AN_ENTRY_THAT_IS_WITHDRAWN_CUTS_DATA_IN_BEHIND_THE_STEP_SCRIPT
        ),
        Ok(None)
    );
}

static AN_ANSWER_THAT_THE_WINDOW_REFUSES_CLOSES_SCRIPT: [Step; 6] = [
    PutTce(0, 1),
    Ask(1, Read(3, 0, 1, At(65_536, 512))),
    Turn(Moved),
    TakeNone,
    Turn(Moved),
    Take(Entry::PARTNER_FREED),
];

#[test]
fn an_answer_that_the_window_refuses_closes(rt: HostRuntime) {
    assert_eq!(rt;
        first_other(
            rt.alloc(),
            512,
            &AN_ANSWER_THAT_THE_WINDOW_REFUSES_CLOSES_SCRIPT
        ),
        Ok(None)
    );
}
