// A client that leaves before it is answered, and one that is there again in a later session.
use super::rig::{LOGGED_IN, UP, play};
use super::step::Step;
use super::step::Step::{Ask, Free, Register, Rows, Send, Take, TakeAnswer, TakeNone, Turn};
use super::units::Data::At;
use super::units::Unit;
use super::units::Unit::{Flush, Login, Read, Ready, Task, Write};
use super::windows::SERVER;
use std::test::Fail;
use vio_num::Moved::Moved;
use vio_num::{Entry, Grant, Lapse};

/// What a client asks that is logged in.
const REQUESTS: [Unit; 5] = [
    Ready(2),
    Task(2, 0, 1),
    Read(2, 0, 1, At(65_536, 512)),
    Write(2, 0, 1, At(65_536, 512)),
    Flush,
];

// Gives the line of a login of this number, or none, that was lost in session 1.
fn lost(login: u64) -> Grant {
    Grant::Lapsed {
        unit: SERVER,
        session: 1,
        login,
        cause: Lapse::Lost,
        outstanding: 0,
        granted: 0,
    }
}

// Gives the script of a client that asks and leaves.
fn leaving(unit: Unit) -> [Step; 4] {
    [Ask(1, unit), Free, Turn(Moved), Rows(0, 0)]
}

#[test]
fn nothing_is_served_for_a_client_that_left(rt: HostRuntime) -> Result<(), Fail> {
    let asked = play(rt.alloc(), 64, 8, &UP, &leaving(Login(1)))?;
    assert_eq!(rt; (asked.other, asked.last), (None, Some(lost(0))));
    for unit in REQUESTS {
        let seen = play(rt.alloc(), 64, 8, &LOGGED_IN, &leaving(unit))?;
        assert_eq!(rt; (seen.other, seen.last), (None, Some(lost(1))));
    }
    Ok(())
}

// Gives the script of a client that asks, leaves, and is there again before the unit's next turn.
fn coming_back(unit: Unit) -> [Step; 11] {
    [
        Ask(1, unit),
        Free,
        Register,
        Send(Entry::INITIALIZE),
        Turn(Moved),
        Take(Entry::INITIALIZATION_COMPLETE),
        TakeNone,
        Rows(0, 0),
        Ask(0, Login(4)),
        Turn(Moved),
        TakeAnswer(52, 4),
    ]
}

#[test]
fn nothing_of_a_former_session_is_answered_in_a_later_one(rt: HostRuntime) -> Result<(), Fail> {
    let asked = play(rt.alloc(), 64, 8, &UP, &coming_back(Login(1)))?;
    assert_eq!(rt; (asked.other, asked.lines), (None, 2));
    for unit in REQUESTS {
        let seen = play(rt.alloc(), 64, 8, &LOGGED_IN, &coming_back(unit))?;
        assert_eq!(rt; (seen.other, seen.lines), (None, 3));
    }
    Ok(())
}
