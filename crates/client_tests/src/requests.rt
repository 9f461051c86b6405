// Commands, tasks and logouts: each refusal, what is sent, and what is taken.
use super::desk::{Case, Row, first_other_case, play_granted};
use super::in_use::WORD;
use super::step::{
    AGAIN, Act, COMPLETE, Call, FREED, LOGIN, LOGOUT, NO_CREDIT, NOT_LOGGED_IN, OUTSTANDING, POLL,
    READ, READY, SUBMIT, Seen, Step, TAKE, TASK,
};
use super::units::Unit;
use vio_num::Entry;
use vscsi_client::{LoginTurn, Op, Refused};

/// A request is refused, since the first page is in use.
const FIRST_IN_USE: Seen = Seen::Refused(Refused::InUse {
    page: 0,
    word: WORD,
});

static AS_MANY_REQUESTS_AS_GRANTED_ROWS: [Row; 13] = [
    (SUBMIT, Seen::Sent(2)),
    (TASK, Seen::Sent(3)),
    (SUBMIT, NO_CREDIT),
    (TASK, NO_CREDIT),
    (POLL, Seen::Unit(48, 0)),
    (POLL, Seen::Unit(48, 256)),
    (Step::Good(0, 2), Seen::Put(2)),
    (TAKE, Seen::Answer(2, 7, 0)),
    (SUBMIT, Seen::Sent(4)),
    (TASK, NO_CREDIT),
    (POLL, Seen::Unit(48, 0)),
    (POLL, Seen::Empty(5)),
    (OUTSTANDING, Seen::Tags(2, 3)),
];

/// A credit is used by a request alone, and each answer gives one back, whatever it grants.
/// Excluded by the clauses `sent` and `why` of `submit`: a credit that a refusal takes; by `taken` of `take_answer`:
/// two credits for an answer.
#[test]
fn as_many_requests_as_granted(rt: HostRuntime) {
    assert_eq!(rt;
        play_granted(rt.alloc(), 2, &AS_MANY_REQUESTS_AS_GRANTED_ROWS),
        Ok(None)
    );
}

static WHAT_IS_NO_ANSWER_TO_A_REQUEST_ROWS: [Row; 15] = [
    (SUBMIT, Seen::Sent(2)),
    (Step::Good(0, 99), Seen::Put(2)),
    (TAKE, Seen::Stray(99)),
    (Step::Answer(0, Unit::Nothing, 36, 2), Seen::Put(3)),
    (TAKE, Seen::Stray(2)),
    (Step::Answer(0, Unit::Good(3, 1), 36, 2), Seen::Put(4)),
    (TAKE, Seen::Stray(2)),
    (Step::Answer(0, Unit::Grant(2, 1), 36, 2), Seen::Put(5)),
    (TAKE, Seen::Stray(2)),
    (OUTSTANDING, Seen::Tags(1, 2)),
    (Step::Good(0, 2), Seen::Put(6)),
    (TAKE, Seen::Answer(2, 7, 0)),
    (Step::Good(0, 2), Seen::Put(7)),
    (TAKE, Seen::Stray(2)),
    (TAKE, Seen::Empty(8)),
];

/// What is no answer to a request leaves it outstanding: another tag, bytes that are no unit, a response to another
/// request. An answer is taken once.
/// Excluded by the clause `taken` of `take_answer` (`Judges`).
#[test]
fn what_is_no_answer_to_a_request(rt: HostRuntime) {
    assert_eq!(rt;
        play_granted(rt.alloc(), 8, &WHAT_IS_NO_ANSWER_TO_A_REQUEST_ROWS),
        Ok(None)
    );
}

/// Scripts of requests, each with its name.
static REQUESTS: [Case; 12] = [
    // Entries of the handshake and of other kinds are no answers, and an event ends the login.
    Case {
        name: "entries of other kinds",
        granted: Some(8),
        rows: &[
            (SUBMIT, Seen::Sent(2)),
            (
                Step::Partner(Act::Send(Entry {
                    high: 0x8002_0000_0000_0018,
                    low: 2,
                })),
                Seen::Put(2),
            ),
            (TAKE, Seen::Other),
            (COMPLETE, Seen::Put(3)),
            (TAKE, Seen::Other),
            (OUTSTANDING, Seen::Tags(1, 2)),
            (Step::Partner(Act::Fail), FREED),
            (TAKE, Seen::Lost),
            (OUTSTANDING, Seen::Tags(0, 0)),
            (SUBMIT, NOT_LOGGED_IN),
        ],
    },
    // Nothing is sent before a login, and nothing under a grant of none.
    Case {
        name: "without a login or a credit, first",
        granted: None,
        rows: &[
            (SUBMIT, NOT_LOGGED_IN),
            (TASK, NOT_LOGGED_IN),
            (LOGOUT, NOT_LOGGED_IN),
            (TAKE, Seen::Empty(0)),
        ],
    },
    Case {
        name: "without a login or a credit, again",
        granted: Some(0),
        rows: &[
            (SUBMIT, NO_CREDIT),
            (TASK, NO_CREDIT),
            (LOGOUT, Seen::Sent(2)),
        ],
    },
    // A logout wants that nothing is outstanding, and ends the login. Its slot stays in use until the next one.
    Case {
        name: "a logout ends the login",
        granted: Some(2),
        rows: &[
            (TASK, Seen::Sent(2)),
            (SUBMIT, Seen::Sent(3)),
            (LOGOUT, Seen::Refused(Refused::Overlap { tag: 2 })),
            (Step::Good(0, 2), Seen::Put(2)),
            (TAKE, Seen::Answer(2, 7, 0)),
            (LOGOUT, Seen::Refused(Refused::Overlap { tag: 3 })),
            (Step::Good(1, 3), Seen::Put(3)),
            (TAKE, Seen::Answer(3, 7, 0)),
            (LOGOUT, Seen::Sent(4)),
            (LOGOUT, NOT_LOGGED_IN),
            (SUBMIT, NOT_LOGGED_IN),
            (TASK, NOT_LOGGED_IN),
            (Step::Partner(Act::PollAll(3)), Seen::Unit(16, 0)),
            (LOGIN, Seen::Turned(LoginTurn::Again)),
            (POLL, Seen::Unit(64, 256)),
            (Step::Grant(1, 5, 2), Seen::Put(4)),
            (LOGIN, Seen::Turned(LoginTurn::Granted(2))),
            (SUBMIT, Seen::Sent(6)),
            (POLL, Seen::Unit(48, 0)),
        ],
    },
    // Where the partner's queue is closed, and where the own one is, nothing is sent and no tag is used.
    Case {
        name: "a queue that is closed, first",
        granted: Some(8),
        rows: &[
            (Step::Partner(Act::Free), FREED),
            (SUBMIT, Seen::Refused(Refused::Closed { control: 8 })),
            (TASK, Seen::Refused(Refused::Closed { control: 8 })),
            (LOGOUT, Seen::Refused(Refused::Closed { control: 8 })),
            (OUTSTANDING, Seen::Tags(0, 0)),
        ],
    },
    Case {
        name: "a queue that is closed, again",
        granted: Some(8),
        rows: &[
            (Step::Own(Act::Free), FREED),
            (SUBMIT, Seen::Refused(Refused::Closed { control: 0 })),
            (TASK, Seen::Refused(Refused::Closed { control: 0 })),
            (LOGOUT, Seen::Refused(Refused::Closed { control: 0 })),
            (TAKE, Seen::Empty(0)),
        ],
    },
    // An entry that finds the partner's queue full uses no tag and no credit.
    Case {
        name: "a queue that is full",
        granted: Some(1),
        rows: &[
            (Step::Own(Act::SendAll(256)), Seen::Put(257)),
            (
                SUBMIT,
                Seen::Refused(Refused::Dropped {
                    number: 258,
                    held: 0x8001_0000_0000_0010,
                }),
            ),
            (
                TASK,
                Seen::Refused(Refused::Dropped {
                    number: 258,
                    held: 0x8001_0000_0000_0010,
                }),
            ),
            (
                LOGOUT,
                Seen::Refused(Refused::Dropped {
                    number: 258,
                    held: 0x8001_0000_0000_0010,
                }),
            ),
            (OUTSTANDING, Seen::Tags(0, 0)),
            (POLL, Seen::Unit(16, 0)),
            (SUBMIT, Seen::Sent(2)),
            (TASK, NO_CREDIT),
            (Step::Partner(Act::PollAll(256)), Seen::Unit(48, 0)),
        ],
    },
    // Two hundred requests are outstanding at most, whatever is granted. A login then has the place behind all slots,
    // and the next request the slot of the one that was answered.
    Case {
        name: "two hundred requests, first",
        granted: Some(201),
        rows: &[
            (Step::Ready(200), Seen::Sent(201)),
            (SUBMIT, NO_CREDIT),
            (OUTSTANDING, Seen::Tags(200, 2)),
            (LOGIN, Seen::Turned(LoginTurn::Again)),
            (Step::Partner(Act::PollAll(201)), Seen::Unit(64, 51_200)),
            (Step::Good(101, 103), Seen::Put(2)),
            (TAKE, Seen::Answer(103, 7, 0)),
            (SUBMIT, Seen::Sent(203)),
            (POLL, Seen::Unit(48, 25_856)),
            (SUBMIT, NO_CREDIT),
        ],
    },
    Case {
        name: "two hundred requests, again",
        granted: Some(199),
        rows: &[(Step::Ready(199), Seen::Sent(200)), (SUBMIT, NO_CREDIT)],
    },
    // Where the page of its unit or of its table is in use a request is not sent, and uses no tag.
    Case {
        name: "requests whose page is in use",
        granted: Some(8),
        rows: &[
            (Step::InUse(Call::Submit(READY)), FIRST_IN_USE),
            (
                Step::InUse(Call::Submit(Op {
                    pieces: 12,
                    table: Some(57_344),
                    ..READ
                })),
                Seen::Refused(Refused::InUse {
                    page: 14,
                    word: WORD,
                }),
            ),
            (Step::InUse(Call::Task(1)), FIRST_IN_USE),
            (Step::InUse(Call::Logout), FIRST_IN_USE),
            (Step::InUse(Call::Login), AGAIN),
            (POLL, Seen::Empty(2)),
            (SUBMIT, Seen::Sent(2)),
            (LOGIN, AGAIN),
            (Step::Word(264), Seen::Word(3)),
        ],
    },
    // An entry whose page is in use is kept, until its unit can be read.
    Case {
        name: "answers whose page is in use",
        granted: Some(8),
        rows: &[
            (SUBMIT, Seen::Sent(2)),
            (Step::Good(0, 2), Seen::Put(2)),
            (Step::InUse(Call::Take), Seen::Again(0, WORD)),
            (TAKE, Seen::Answer(2, 7, 0)),
            (TAKE, Seen::Empty(3)),
        ],
    },
    // So is that of a login.
    Case {
        name: "a grant whose page is in use",
        granted: Some(8),
        rows: &[
            (LOGIN, AGAIN),
            (Step::Grant(0, 2, 4), Seen::Put(2)),
            (Step::InUse(Call::Login), AGAIN),
            (LOGIN, Seen::Turned(LoginTurn::Granted(4))),
        ],
    },
];

#[test]
fn requests_are_sent_or_refused_as_their_scripts_say(rt: HostRuntime) {
    assert_eq!(rt; first_other_case(rt.alloc(), &REQUESTS), Ok(None));
}
