// The worked rows: what a unit takes and puts, what it copies, and what it keeps.
use super::rig::{LOGGED_IN, UP, first_other, first_other_from, play};
use super::step::Step;
use super::step::Step::{
    Ask, Fill, Free, Holds, Register, Row, Rows, Send, Shows, Take, TakeAnswer, TakeNone, Turn,
};
use super::units::Data::At;
use super::units::Unit::{Code, Good, Login, Logout, PastTheLast, Read, Ready, Task, Write};
use super::windows::SERVER;
use std::test::Fail;
use vio_num::Moved::{Moved, Quiet};
use vio_num::{Entry, Grant, Lapse};

static A_LOGIN_AND_A_COMMAND_ARE_ANSWERED_SCRIPT: [Step; 10] = [
    Ask(0, Login(1)),
    Turn(Moved),
    TakeAnswer(52, 1),
    Ask(1, Ready(2)),
    Turn(Moved),
    TakeAnswer(36, 2),
    Shows(1, Good(2)),
    Rows(1, 1),
    Turn(Quiet),
    Row(0, (0, 0, 36)),
];

#[test]
fn a_login_and_a_command_are_answered(rt: HostRuntime) {
    assert_eq!(rt;
        first_other_from(
            rt.alloc(),
            2048,
            8,
            &UP,
            &A_LOGIN_AND_A_COMMAND_ARE_ANSWERED_SCRIPT
        ),
        Ok(None)
    );
}

static A_SECOND_LOGIN_IS_REJECTED_AND_A_RESET_FORGETS_THE_FIRST_SCRIPT: [Step; 14] = [
    Ask(0, Login(2)),
    Turn(Moved),
    TakeAnswer(32, 2),
    Ask(1, Ready(3)),
    Turn(Moved),
    TakeAnswer(36, 3),
    Free,
    Register,
    Send(Entry::INITIALIZE),
    Turn(Moved),
    Take(Entry::INITIALIZATION_COMPLETE),
    Ask(0, Login(4)),
    Turn(Moved),
    TakeAnswer(52, 4),
];

#[test]
fn a_second_login_is_rejected_and_a_reset_forgets_the_first(rt: HostRuntime) -> Result<(), Fail> {
    let seen = play(
        rt.alloc(),
        2048,
        8,
        &LOGGED_IN,
        &A_SECOND_LOGIN_IS_REJECTED_AND_A_RESET_FORGETS_THE_FIRST_SCRIPT,
    )?;
    assert_eq!(rt; (seen.other, seen.lines), (None, 3));
    Ok(())
}

static A_TASK_AND_A_LOGOUT_ARE_SERVED_SCRIPT: [Step; 15] = [
    Ask(1, Task(3, 0, 1)),
    Turn(Moved),
    TakeAnswer(40, 3),
    Shows(1, Code(3, 0)),
    Ask(1, Task(5, 0, 4)),
    Turn(Moved),
    TakeAnswer(40, 5),
    Shows(1, Code(5, 4)),
    Ask(1, Task(6, 1, 1)),
    Turn(Moved),
    TakeAnswer(40, 6),
    Shows(1, Code(6, 2)),
    Ask(2, Logout(4)),
    Turn(Moved),
    TakeNone,
];

#[test]
fn a_task_and_a_logout_are_served(rt: HostRuntime) -> Result<(), Fail> {
    let logged_out = Grant::Lapsed {
        unit: SERVER,
        session: 1,
        login: 1,
        cause: Lapse::Logout,
        outstanding: 0,
        granted: 0,
    };
    let seen = play(
        rt.alloc(),
        2048,
        8,
        &LOGGED_IN,
        &A_TASK_AND_A_LOGOUT_ARE_SERVED_SCRIPT,
    )?;
    assert_eq!(rt; (seen.other, seen.last), (None, Some(logged_out)));
    Ok(())
}

static THREE_COMMANDS_UNDER_TWO_CREDITS_CLOSE_THE_SESSION_SCRIPT: [Step; 9] = [
    Ask(1, Ready(2)),
    Ask(2, Ready(3)),
    Ask(3, Ready(4)),
    Turn(Moved),
    TakeNone,
    Turn(Moved),
    Take(Entry::PARTNER_FREED),
    Take(Entry::INITIALIZE),
    Rows(0, 0),
];

// Seen elsewhere: more requests than there are slots are dropped without an answer. Here the one above the limit closes the
// session (`Target` of srp_credits, clauses `after` and `refused`).
#[test]
fn three_commands_under_two_credits_close_the_session(rt: HostRuntime) -> Result<(), Fail> {
    let over = Grant::Lapsed {
        unit: SERVER,
        session: 1,
        login: 1,
        cause: Lapse::OverLimit,
        outstanding: 3,
        granted: 2,
    };
    let seen = play(
        rt.alloc(),
        2048,
        2,
        &LOGGED_IN,
        &THREE_COMMANDS_UNDER_TWO_CREDITS_CLOSE_THE_SESSION_SCRIPT,
    )?;
    assert_eq!(rt; (seen.other, seen.last), (None, Some(over)));
    Ok(())
}

static DATA_GO_TO_THE_DISK_AND_COME_BACK_SCRIPT: [Step; 16] = [
    Fill(65_000, 7),
    Fill(65_512, 7),
    Ask(1, Write(2, 3, 2, At(65_000, 1024))),
    Turn(Moved),
    TakeAnswer(36, 2),
    Ask(2, Read(3, 3, 2, At(100_000, 1024))),
    Turn(Moved),
    TakeAnswer(36, 3),
    Ask(3, Read(4, 2048, 1, At(100_000, 512))),
    Turn(Moved),
    TakeAnswer(54, 4),
    Rows(3, 3),
    Holds(100_000, 7),
    Holds(100_512, 7),
    Row(0, (1024, 0, 36)),
    Row(1, (0, 1024, 36)),
];

#[test]
fn data_go_to_the_disk_and_come_back(rt: HostRuntime) {
    assert_eq!(rt;
        first_other(rt.alloc(), 2048, &DATA_GO_TO_THE_DISK_AND_COME_BACK_SCRIPT),
        Ok(None)
    );
}

static THE_LAST_BLOCK_IS_READ_AND_NONE_BEHIND_IT_SCRIPT: [Step; 7] = [
    Ask(1, Read(2, 2047, 1, At(65_536, 512))),
    Turn(Moved),
    TakeAnswer(36, 2),
    Ask(1, Read(3, 2048, 1, At(65_536, 512))),
    Turn(Moved),
    TakeAnswer(54, 3),
    Shows(1, PastTheLast),
];

#[test]
fn the_last_block_is_read_and_none_behind_it(rt: HostRuntime) {
    assert_eq!(rt;
        first_other(
            rt.alloc(),
            2048,
            &THE_LAST_BLOCK_IS_READ_AND_NONE_BEHIND_IT_SCRIPT
        ),
        Ok(None)
    );
}

static A_TASK_OVER_THE_LIMIT_CLOSES_THE_SESSION_SCRIPT: [Step; 7] = [
    Ask(1, Ready(2)),
    Ask(2, Task(3, 0, 1)),
    Ask(3, Task(4, 0, 1)),
    Turn(Moved),
    TakeNone,
    Turn(Moved),
    Take(Entry::PARTNER_FREED),
];

#[test]
fn a_task_over_the_limit_closes_the_session(rt: HostRuntime) -> Result<(), Fail> {
    let over = Grant::Lapsed {
        unit: SERVER,
        session: 1,
        login: 1,
        cause: Lapse::OverLimit,
        outstanding: 3,
        granted: 2,
    };
    let seen = play(
        rt.alloc(),
        2048,
        2,
        &LOGGED_IN,
        &A_TASK_OVER_THE_LIMIT_CLOSES_THE_SESSION_SCRIPT,
    )?;
    assert_eq!(rt; (seen.other, seen.last), (None, Some(over)));
    Ok(())
}
