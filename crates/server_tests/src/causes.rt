// The causes that close a session, each with its line, and what is left of the requests.
use super::rig::{LOGGED_IN, NEW, UP, first_other, first_other_from, play};
use super::step::Step;
use super::step::Step::{
    Ask, Register, Rows, Send, SendUnit, Shows, Take, TakeAnswer, TakeNone, Turn,
};
use super::units::Unit;
use super::units::Unit::{
    Code, CreditAnswer, CreditRequest, Good, Login, LoginAs, Logout, Ready, Rejection, Task, Zeros,
};
use super::windows::SERVER;
use std::alloc::Global;
use vio_num::Moved::Moved;
use vio_num::{Entry, Grant, Lapse, NoMemory};

/// What is seen where a session was closed: the step that went otherwise, the last line, and how many copies were made.
type Closed = (Option<usize>, Option<Grant>, usize);

// Gives what is seen where session 1 was closed, whose login of this number, or none, ended for a cause that counts
// nothing.
fn closed(login: u64, cause: Lapse, copies: usize) -> Closed {
    let line = Grant::Lapsed {
        unit: SERVER,
        session: 1,
        login,
        cause,
        outstanding: 0,
        granted: 0,
    };
    (None, Some(line), copies)
}

// Plays a script, and gives what is seen where it closes the session.
fn closing(alloc: Global, start: &[Step], script: &[Step]) -> Result<Closed, NoMemory> {
    let seen = play(alloc, 64, 8, start, script)?;
    Ok((seen.other, seen.last, seen.copies))
}

// Gives what is seen where a step closes the session, which is freed in the second turn.
fn closing_at(alloc: Global, start: &[Step], step: Step) -> Result<Closed, NoMemory> {
    let script = [
        step,
        Turn(Moved),
        Turn(Moved),
        Take(Entry::PARTNER_FREED),
        Take(Entry::INITIALIZE),
        TakeNone,
    ];
    closing(alloc, start, &script)
}

#[test]
fn a_request_before_the_handshake_is_early(rt: HostRuntime) {
    for unit in [Login(1), Ready(1), Task(1, 0, 1), Logout(1), Zeros(2, 15)] {
        let script = [
            Turn(Moved),
            Register,
            Ask(0, unit),
            Turn(Moved),
            TakeNone,
            Turn(Moved),
            Take(Entry::PARTNER_FREED),
        ];
        let seen = closing(rt.alloc(), &NEW, &script);
        assert_eq!(rt; seen, Ok(closed(0, Lapse::Early, 0)));
    }
}

#[test]
fn a_request_without_a_login_closes(rt: HostRuntime) {
    for unit in [Ready(2), Task(2, 0, 1), Logout(2)] {
        let seen = closing_at(rt.alloc(), &UP, Ask(1, unit));
        assert_eq!(rt; seen, Ok(closed(0, Lapse::NotLogin, 1)));
    }
}

// Seen elsewhere: a unit of length 0 is served as a login. Here no login is of it (`Server::turn`, clause `requests`:
// by `intake` a receipt has as many bytes as its entry names, by `judged` a login has bytes that spell it). It closes the
// session as `badiu`, which this test says.
#[test]
fn a_length_that_no_unit_has_closes_without_a_copy(rt: HostRuntime) {
    for len in [0, 257, 65_535] {
        let seen = closing_at(rt.alloc(), &LOGGED_IN, SendUnit(len, 0));
        assert_eq!(rt; seen, Ok(closed(1, Lapse::BadIu, 2)), "of {len} bytes");
    }
}

#[test]
fn a_unit_past_the_window_closes(rt: HostRuntime) {
    let seen = closing_at(rt.alloc(), &LOGGED_IN, SendUnit(64, 64 * 4096 - 1));
    assert_eq!(rt; seen, Ok(closed(1, Lapse::Refused, 2)));
}

#[test]
fn bytes_that_are_no_unit_close(rt: HostRuntime) {
    for (kind, len) in [(0x01, 15), (0x02, 15), (0x00, 63), (0x07, 64)] {
        let seen = closing_at(rt.alloc(), &LOGGED_IN, Ask(1, Zeros(kind, len)));
        assert_eq!(rt;
            seen,
            Ok(closed(1, Lapse::BadIu, 3)),
            "type {kind}, {len} bytes"
        );
    }
}

#[test]
fn bytes_that_are_no_unit_close_where_nobody_is_logged_in(rt: HostRuntime) {
    for (kind, len) in [(0x01, 15), (0x02, 15), (0x01, 16), (0x02, 16), (0x02, 47)] {
        let seen = closing_at(rt.alloc(), &UP, Ask(1, Zeros(kind, len)));
        assert_eq!(rt;
            seen,
            Ok(closed(0, Lapse::BadIu, 1)),
            "type {kind}, {len} bytes"
        );
    }
}

// Gives the first step that went otherwise where bytes of a type and of this length are answered so.
fn answered(alloc: Global, kind: u8, len: usize, answer: Unit) -> Result<Option<usize>, NoMemory> {
    let answer_len = if kind == 0x02 { 36 } else { 40 };
    let script = [
        Ask(1, Zeros(kind, len)),
        Turn(Moved),
        TakeAnswer(answer_len, 9),
        Shows(1, answer),
    ];
    first_other(alloc, 64, &script)
}

#[test]
fn a_unit_of_each_length_from_48_to_256_bytes_is_served(rt: HostRuntime) {
    for len in [48, 49, 64, 255, 256] {
        let command = answered(rt.alloc(), 0x02, len, Good(9));
        assert_eq!(rt; command, Ok(None), "a command of {len} bytes");
        let task = answered(rt.alloc(), 0x01, len, Code(9, 4));
        assert_eq!(rt; task, Ok(None), "a task of {len} bytes");
    }
}

/// The unit length, the formats and the flags that a login asks for, and the reason for which it is rejected.
const REJECTED: [(u32, u16, u8, u32); 6] = [
    (257, 0, 3, 0x0001_0002),
    (0xFFFF_FFFF, 6, 0, 0x0001_0002),
    (256, 0, 1, 0x0001_0005),
    (256, 6, 2, 0x0001_0005),
    (256, 0, 0, 0x0001_0004),
    (256, 0xFFF9, 0, 0x0001_0004),
];

#[test]
fn a_login_that_asks_for_too_much_is_rejected(rt: HostRuntime) {
    for (iu_len, formats, flags, reason) in REJECTED {
        let script = [
            Ask(1, LoginAs(iu_len, formats, flags)),
            Turn(Moved),
            TakeAnswer(32, 1),
            Shows(1, Rejection(reason)),
            Ask(1, LoginAs(0, 4, 0xFC)),
            Turn(Moved),
            TakeAnswer(52, 1),
        ];
        let other = first_other_from(rt.alloc(), 64, 8, &UP, &script);
        assert_eq!(rt; other, Ok(None), "reason {reason}");
    }
}

#[test]
fn a_command_that_cannot_be_read_is_answered_under_a_login(rt: HostRuntime) {
    for (kind, len) in [(0x01, 16), (0x02, 16), (0x02, 47), (0x01, 47)] {
        let script = [
            Ask(1, Zeros(kind, len)),
            Turn(Moved),
            TakeAnswer(40, 9),
            Shows(1, Code(9, 2)),
        ];
        let other = first_other(rt.alloc(), 64, &script);
        assert_eq!(rt; other, Ok(None), "type {kind}, {len} bytes");
    }
}

static NOTHING_IS_SERVED_BEHIND_A_CLOSING_SCRIPT: [Step; 6] = [
    Ask(1, Ready(2)),
    SendUnit(0, 0),
    Ask(2, Ready(3)),
    Turn(Moved),
    TakeNone,
    Rows(0, 0),
];

#[test]
fn nothing_is_served_behind_a_closing(rt: HostRuntime) {
    assert_eq!(rt;
        first_other(rt.alloc(), 64, &NOTHING_IS_SERVED_BEHIND_A_CLOSING_SCRIPT),
        Ok(None)
    );
}

static A_UNIT_OF_A_TARGET_IS_IGNORED_SCRIPT: [Step; 7] = [
    Ask(1, CreditAnswer(5)),
    Ask(2, CreditRequest(6)),
    Turn(Moved),
    TakeNone,
    Ask(1, Ready(7)),
    Turn(Moved),
    TakeAnswer(36, 7),
];

#[test]
fn a_unit_of_a_target_is_ignored(rt: HostRuntime) {
    assert_eq!(rt;
        first_other(rt.alloc(), 64, &A_UNIT_OF_A_TARGET_IS_IGNORED_SCRIPT),
        Ok(None)
    );
}

static A_DATAGRAM_IS_ANSWERED_WITHOUT_A_HANDSHAKE_SCRIPT: [Step; 8] = [
    Turn(Moved),
    Register,
    Send(Entry {
        high: 0x8002_0000_0000_0200,
        low: 77,
    }),
    Send(Entry {
        high: 0x8007_0000_0000_0000,
        low: 78,
    }),
    Send(Entry {
        high: 0x8100_0000_0000_0000,
        low: 79,
    }),
    Turn(Moved),
    Take(Entry {
        high: 0x8002_00F1_0000_0000,
        low: 77,
    }),
    TakeNone,
];

#[test]
fn a_datagram_is_answered_without_a_handshake(rt: HostRuntime) {
    assert_eq!(rt;
        first_other_from(
            rt.alloc(),
            64,
            8,
            &NEW,
            &A_DATAGRAM_IS_ANSWERED_WITHOUT_A_HANDSHAKE_SCRIPT
        ),
        Ok(None)
    );
}
