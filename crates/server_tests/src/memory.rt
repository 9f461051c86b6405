// Sessions in which a call may find no memory once, at any allocation: nothing is lost, and nothing is done twice.
// With memory there they pass as any test does; `each-allocation` has each allocation of theirs fail.
use super::rig::{NEW, Played, play, play_failing};
use super::step::Step;
use super::step::Step::{
    Ask, AskAll, Fault, Fill, Free, Holds, Register, Row, Rows, Says, Send, Settle, Take, TakeAll,
    TakeAnswer, TakeAny, TakeNone,
};
use super::units::Data::{At, Table};
use super::units::Unit::{Login, Logout, Read, Ready, Task, Write, Zeros};
use std::alloc::Global;
use std::test::Fail;
use vio_num::{Entry, NoMemory};

// Plays a script from the first turn on. Where a step of the client, or what is made before the script, found no
// memory, plays all of it once more.
fn played(alloc: Global, script: &[Step]) -> Result<Played, NoMemory> {
    let seen = play(alloc, 512, 200, &NEW, script);
    if seen.is_err() {
        return play(alloc, 512, 200, &NEW, script);
    }
    seen
}

static EACH_REQUEST: [Step; 45] = [
    Settle,
    Register,
    Send(Entry::INITIALIZE),
    Settle,
    Take(Entry::INITIALIZATION_COMPLETE),
    Ask(0, Login(1)),
    Settle,
    TakeAnswer(52, 1),
    Fill(65_536, 7),
    Ask(1, Write(2, 0, 1, At(65_536, 512))),
    Settle,
    TakeAnswer(36, 2),
    Says(0, 0, 0, 0),
    Ask(1, Read(3, 0, 1, At(98_304, 512))),
    Settle,
    TakeAnswer(36, 3),
    Says(0, 0, 0, 0),
    Holds(98_304, 7),
    Step::Table(256, 512),
    Ask(1, Write(4, 0, 256, Table(4_096, 131_072))),
    Settle,
    TakeAnswer(36, 4),
    Says(0, 0, 0, 0),
    Ask(1, Read(5, 0, 256, Table(4_096, 131_072))),
    Settle,
    TakeAnswer(36, 5),
    Says(0, 0, 0, 0),
    Ask(1, Task(6, 0, 1)),
    Settle,
    TakeAnswer(40, 6),
    Ask(1, Ready(7)),
    Ask(2, Ready(8)),
    Ask(3, Login(9)),
    Settle,
    TakeAnswer(36, 7),
    TakeAnswer(36, 8),
    TakeAnswer(32, 9),
    Ask(2, Logout(10)),
    Settle,
    TakeNone,
    Row(0, (512, 0, 36)),
    Row(1, (0, 512, 36)),
    Row(2, (131_072, 0, 36)),
    Row(3, (0, 131_072, 36)),
    Rows(7, 7),
];

#[test]
fn each_request_is_answered_once(rt: HostRuntime) -> Result<(), Fail> {
    let seen = played(rt.alloc(), &EACH_REQUEST)?;
    assert_eq!(rt; (seen.other, seen.lines, seen.copies), (None, 2, 535));
    Ok(())
}

static MANY_REQUESTS: [Step; 12] = [
    Settle,
    Register,
    Send(Entry::INITIALIZE),
    Settle,
    TakeAny,
    Ask(0, Login(1)),
    Settle,
    TakeAny,
    AskAll(40),
    Settle,
    TakeAll(40),
    Rows(40, 40),
];

#[test]
fn rows_that_grow_are_answered_once(rt: HostRuntime) -> Result<(), Fail> {
    let seen = played(rt.alloc(), &MANY_REQUESTS)?;
    assert_eq!(rt; (seen.other, seen.lines, seen.copies), (None, 1, 82));
    Ok(())
}

static CLOSINGS: [Step; 31] = [
    Settle,
    Register,
    Send(Entry::INITIALIZE),
    Settle,
    TakeAny,
    Ask(0, Login(1)),
    Settle,
    TakeAnswer(52, 1),
    Ask(1, Zeros(9, 40)),
    Ask(2, Ready(2)),
    Settle,
    Take(Entry::PARTNER_FREED),
    Take(Entry::INITIALIZE),
    TakeNone,
    Send(Entry::INITIALIZATION_COMPLETE),
    Ask(0, Login(3)),
    Settle,
    TakeAnswer(52, 3),
    Free,
    Settle,
    Register,
    Send(Entry::INITIALIZE),
    Settle,
    Take(Entry::INITIALIZATION_COMPLETE),
    Ask(0, Login(4)),
    Settle,
    TakeAnswer(52, 4),
    Ask(1, Ready(5)),
    Settle,
    TakeAnswer(36, 5),
    Rows(1, 1),
];

#[test]
fn sessions_end_once(rt: HostRuntime) -> Result<(), Fail> {
    let seen = played(rt.alloc(), &CLOSINGS)?;
    assert_eq!(rt; (seen.other, seen.lines, seen.copies), (None, 5, 9));
    Ok(())
}

static A_FAULT: [Step; 12] = [
    Settle,
    Register,
    Send(Entry::INITIALIZE),
    Settle,
    TakeAny,
    Ask(0, Login(1)),
    Settle,
    TakeAny,
    Ask(1, Write(2, 0, 3, At(98_303, 1_536))),
    Settle,
    Says(2, 0x02, 0, 0),
    Fault(0, 1),
];

#[test]
fn a_fault_of_the_device_is_counted_once(rt: HostRuntime) -> Result<(), Fail> {
    let mut seen = play_failing(rt.alloc(), 1, &NEW, &A_FAULT);
    if seen.is_err() {
        seen = play_failing(rt.alloc(), 1, &NEW, &A_FAULT);
    }
    assert_eq!(rt; seen?.other, None);
    Ok(())
}
