// The client's queue full, closed and in a later session, and what is kept then.
use super::rig::{LOGGED_IN, Played, first_other_from, play};
use super::step::Step;
use super::step::Step::{
    Ask, AskAll, Free, Rows, Send, SendAll, SendUnit, Take, TakeAll, TakeAnswer, TakeNone, Turn,
    Turns,
};
use super::units::Unit;
use super::units::Unit::{Login, Ready};
use super::windows::SERVER;
use std::alloc::Global;
use std::test::Fail;
use vio_num::Moved::{Moved, Quiet};
use vio_num::{Entry, Grant, Lapse, NoMemory};

/// A management datagram.
const DATAGRAM: Entry = Entry {
    high: 0x8002_0000_0000_0000,
    low: 5,
};

/// The answer to it.
const DATAGRAM_ANSWER: Entry = Entry {
    high: 0x8002_00F1_0000_0000,
    low: 5,
};

/// The client logs in, and its queue is then full of answers to datagrams.
const FULL: [Step; 10] = [
    Turn(Moved),
    Step::Register,
    Send(Entry::INITIALIZE),
    Turn(Moved),
    Step::TakeAny,
    Ask(0, Login(1)),
    Turn(Moved),
    Step::TakeAny,
    SendAll(256, DATAGRAM),
    Turn(Moved),
];

// Gives the first step that went otherwise where the client's queue is full.
fn first_other_full(alloc: Global, script: &[Step]) -> Result<Option<usize>, NoMemory> {
    Ok(play_full(alloc, script)?.other)
}

// Plays a script where the client's queue is full.
fn play_full(alloc: Global, script: &[Step]) -> Result<Played, NoMemory> {
    play(alloc, 64, 8, &FULL, script)
}

static AN_ANSWER_THAT_FINDS_THE_QUEUE_FULL_IS_KEPT_SCRIPT: [Step; 11] = [
    Ask(1, Ready(2)),
    Turn(Moved),
    Turn(Quiet),
    Rows(1, 0),
    Take(DATAGRAM_ANSWER),
    Turn(Moved),
    Rows(1, 1),
    Turn(Quiet),
    TakeAll(255),
    TakeAnswer(36, 2),
    TakeNone,
];

// Seen elsewhere: an answer that finds the queue full is thrown away, and its credit never returns. Here the answer is
// kept and put once (`Server::turn`, `answers` of clause `rows`).
#[test]
fn an_answer_that_finds_the_queue_full_is_kept(rt: HostRuntime) {
    assert_eq!(rt;
        first_other_full(
            rt.alloc(),
            &AN_ANSWER_THAT_FINDS_THE_QUEUE_FULL_IS_KEPT_SCRIPT
        ),
        Ok(None)
    );
}

static A_REPLY_THAT_FINDS_THE_QUEUE_FULL_ENDS_INTAKE_SCRIPT: [Step; 13] = [
    Send(DATAGRAM),
    Ask(1, Ready(2)),
    Turn(Moved),
    Turn(Quiet),
    Rows(0, 0),
    Take(DATAGRAM_ANSWER),
    Take(DATAGRAM_ANSWER),
    Turn(Moved),
    Rows(1, 1),
    TakeAll(254),
    Take(DATAGRAM_ANSWER),
    TakeAnswer(36, 2),
    TakeNone,
];

#[test]
fn a_reply_that_finds_the_queue_full_ends_intake(rt: HostRuntime) {
    assert_eq!(rt;
        first_other_full(
            rt.alloc(),
            &A_REPLY_THAT_FINDS_THE_QUEUE_FULL_ENDS_INTAKE_SCRIPT
        ),
        Ok(None)
    );
}

static A_KEPT_ANSWER_IS_DISCARDED_WHERE_THE_CLIENT_LEFT_SCRIPT: [Step; 5] = [
    Ask(1, Ready(2)),
    Turn(Moved),
    Free,
    Turn(Moved),
    Rows(1, 0),
];

#[test]
fn a_kept_answer_is_discarded_where_the_client_left(rt: HostRuntime) -> Result<(), Fail> {
    let lost = Grant::Lapsed {
        unit: SERVER,
        session: 1,
        login: 1,
        cause: Lapse::Lost,
        outstanding: 0,
        granted: 0,
    };
    let seen = play_full(
        rt.alloc(),
        &A_KEPT_ANSWER_IS_DISCARDED_WHERE_THE_CLIENT_LEFT_SCRIPT,
    )?;
    assert_eq!(rt; (seen.other, seen.last), (None, Some(lost)));
    Ok(())
}

static A_KEPT_EVENT_GOES_FIRST_SCRIPT: [Step; 8] = [
    SendUnit(0, 0),
    Turn(Moved),
    Turn(Moved),
    Turn(Quiet),
    Take(DATAGRAM_ANSWER),
    Turn(Moved),
    TakeAll(255),
    Take(Entry::PARTNER_FREED),
];

#[test]
fn a_kept_event_goes_first(rt: HostRuntime) {
    assert_eq!(rt;
        first_other_full(rt.alloc(), &A_KEPT_EVENT_GOES_FIRST_SCRIPT),
        Ok(None)
    );
}

/// The client's queue is full of answers to datagrams, and nobody is logged in.
const FULL_WITHOUT_A_LOGIN: [Step; 7] = [
    Turn(Moved),
    Step::Register,
    Send(Entry::INITIALIZE),
    Turn(Moved),
    Step::TakeAny,
    SendAll(256, DATAGRAM),
    Turn(Moved),
];

static A_GRANT_THAT_FINDS_THE_QUEUE_FULL_IS_KEPT_SCRIPT: [Step; 13] = [
    Ask(0, Login(1)),
    Turn(Moved),
    Ask(1, Ready(2)),
    Turn(Quiet),
    Take(DATAGRAM_ANSWER),
    Turn(Moved),
    TakeAll(255),
    TakeAnswer(52, 1),
    TakeNone,
    Turn(Moved),
    TakeAnswer(36, 2),
    Rows(1, 1),
    Turn(Quiet),
];

// The login is on from where its answer was put, so that the command behind it is served.
#[test]
fn a_grant_that_finds_the_queue_full_is_kept(rt: HostRuntime) {
    assert_eq!(rt;
        first_other_from(
            rt.alloc(),
            64,
            8,
            &FULL_WITHOUT_A_LOGIN,
            &A_GRANT_THAT_FINDS_THE_QUEUE_FULL_IS_KEPT_SCRIPT
        ),
        Ok(None)
    );
}

// Gives the first step that went otherwise where an entry or a request is answered by an entry that is kept.
fn first_other_kept(alloc: Global, asks: Step, answer: Step) -> Result<Option<usize>, NoMemory> {
    let script = [
        asks,
        Turn(Moved),
        Turn(Quiet),
        Take(DATAGRAM_ANSWER),
        Turn(Moved),
        TakeAll(255),
        answer,
        TakeNone,
    ];
    first_other_full(alloc, &script)
}

#[test]
fn a_rejection_and_a_handshake_that_find_the_queue_full_are_kept(rt: HostRuntime) {
    let rejection = first_other_kept(rt.alloc(), Ask(0, Login(3)), TakeAnswer(32, 3));
    assert_eq!(rt; rejection, Ok(None));
    let complete = Take(Entry::INITIALIZATION_COMPLETE);
    let handshake = first_other_kept(rt.alloc(), Send(Entry::INITIALIZE), complete);
    assert_eq!(rt; handshake, Ok(None));
}

// Gives the first step that went otherwise where the client leaves before the answer to its login, which is kept, is put,
// and is there again for another.
fn first_other_left(alloc: Global, start: &[Step], login: Unit) -> Result<Option<usize>, NoMemory> {
    let script = [
        Ask(0, login),
        Turn(Moved),
        Free,
        Turn(Moved),
        Step::Register,
        Send(Entry::INITIALIZE),
        Turn(Moved),
        Take(Entry::INITIALIZATION_COMPLETE),
        TakeNone,
        Ask(0, Login(4)),
        Turn(Moved),
        TakeAnswer(52, 4),
        TakeNone,
    ];
    first_other_from(alloc, 64, 8, start, &script)
}

// Neither the grant nor the rejection is put into the later session, and the login that is asked for there is granted.
#[test]
fn a_kept_answer_to_a_login_is_discarded_where_the_client_left(rt: HostRuntime) {
    let granted = first_other_left(rt.alloc(), &FULL_WITHOUT_A_LOGIN, Login(1));
    assert_eq!(rt; granted, Ok(None));
    let rejected = first_other_left(rt.alloc(), &FULL, Login(3));
    assert_eq!(rt; rejected, Ok(None));
}

static MANY_REQUESTS_ARE_ANSWERED_ONE_A_TURN_SCRIPT: [Step; 4] = [
    AskAll(200),
    Turns(200),
    Turn(Quiet),
    Rows(200, 200),
];

#[test]
fn many_requests_are_answered_one_a_turn(rt: HostRuntime) {
    assert_eq!(rt;
        first_other_from(
            rt.alloc(),
            64,
            200,
            &LOGGED_IN,
            &MANY_REQUESTS_ARE_ANSWERED_ONE_A_TURN_SCRIPT
        ),
        Ok(None)
    );
}
