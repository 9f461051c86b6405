// Logins: each way in which a turn ends.
use super::desk::{Case, Row, first_other_case, play, play_granted};
use super::step::{
    AGAIN, Act, COMPLETE, FREED, INITIALIZE, LOGIN, NO_CREDIT, NOT_LOGGED_IN, OUTSTANDING, POLL,
    REGISTER, REGISTERED, SUBMIT, Seen, Step, TAKE,
};
use super::units::Unit;
use crq_session::RegAnswer;
use vio_num::Entry;
use vscsi_client::{LoginTurn, Refused};

static A_LOGIN_IS_SENT_ONCE_THE_HANDSHAKE_IS_UP_ROWS: [Row; 12] = [
    (LOGIN, AGAIN),
    (REGISTER, REGISTERED),
    (LOGIN, AGAIN),
    (POLL, Seen::Empty(0)),
    (INITIALIZE, Seen::Put(0)),
    (LOGIN, AGAIN),
    (POLL, Seen::Entry(Entry::INITIALIZATION_COMPLETE)),
    (POLL, Seen::Unit(64, 0)),
    (LOGIN, AGAIN),
    (POLL, Seen::Empty(2)),
    (Step::Grant(0, 1, 8), Seen::Put(1)),
    (LOGIN, Seen::Turned(LoginTurn::Granted(8))),
];

/// A login waits for its partner, then for Initialize, and is sent last.
/// Excluded by the clause `turned`: a login that is sent before the initialisation (`begins`), and an Initialize
/// that is sent again after it was turned back.
#[test]
fn a_login_is_sent_once_the_handshake_is_up(rt: HostRuntime) {
    assert_eq!(rt;
        play(rt.alloc(), &A_LOGIN_IS_SENT_ONCE_THE_HANDSHAKE_IS_UP_ROWS),
        Ok(None)
    );
}

static A_REJECTION_GIVES_ITS_REASON_AND_NO_CREDIT_ROWS: [Row; 6] = [
    (LOGIN, AGAIN),
    (POLL, Seen::Unit(64, 0)),
    (
        Step::Answer(0, Unit::Reject(2, 0x0001_0000), 32, 2),
        Seen::Put(2),
    ),
    (LOGIN, Seen::Turned(LoginTurn::Rejected(0x0001_0000))),
    (SUBMIT, Seen::Sent(3)),
    (SUBMIT, NO_CREDIT),
];

/// A rejection adds nothing to the credit, and the login before it stays on.
/// Excluded by the clause `turned`: the unit is read by its type, then the field (`SaysOf`).
#[test]
fn a_rejection_gives_its_reason_and_no_credit(rt: HostRuntime) {
    assert_eq!(rt;
        play_granted(
            rt.alloc(),
            1,
            &A_REJECTION_GIVES_ITS_REASON_AND_NO_CREDIT_ROWS
        ),
        Ok(None)
    );
}

static A_PARTNER_THAT_FAILS_ENDS_THE_LOGIN_ROWS: [Row; 12] = [
    (Step::Partner(Act::Fail), FREED),
    (LOGIN, Seen::Turned(LoginTurn::Lost)),
    (TAKE, Seen::Empty(3)),
    (SUBMIT, NOT_LOGGED_IN),
    (REGISTER, REGISTERED),
    (INITIALIZE, Seen::Put(3)),
    (LOGIN, AGAIN),
    (POLL, Seen::Entry(Entry::INITIALIZATION_COMPLETE)),
    (POLL, Seen::Unit(64, 0)),
    (Step::Word(8), Seen::Word(2)),
    (Step::Grant(0, 2, 3), Seen::Put(4)),
    (LOGIN, Seen::Turned(LoginTurn::Granted(3))),
];

/// A partner that fails ends a login, whose tag is not used again.
/// Excluded by the clause `turned`: commands that go out under a login that is torn down.
#[test]
fn a_partner_that_fails_ends_the_login(rt: HostRuntime) {
    assert_eq!(rt;
        play_granted(rt.alloc(), 8, &A_PARTNER_THAT_FAILS_ENDS_THE_LOGIN_ROWS),
        Ok(None)
    );
}

/// Scripts of logins, each with its name.
static LOGINS: [Case; 8] = [
    // A client that registers last sends Initialize itself, and then waits for the answer to it.
    Case {
        name: "a client that registers last sends initialize",
        granted: None,
        rows: &[
            (REGISTER, Seen::Registered(RegAnswer::Closed { control: 0 })),
            (LOGIN, AGAIN),
            (POLL, Seen::Entry(Entry::INITIALIZE)),
            (POLL, Seen::Empty(1)),
            (COMPLETE, Seen::Put(0)),
            (LOGIN, AGAIN),
            (POLL, Seen::Unit(64, 0)),
        ],
    },
    // The request of a login is, byte for byte, one that a server in use answers with a grant of 22 requests.
    Case {
        name: "the bytes of a login request",
        granted: None,
        rows: &[
            (LOGIN, AGAIN),
            (REGISTER, REGISTERED),
            (INITIALIZE, Seen::Put(0)),
            (LOGIN, AGAIN),
            (Step::Word(0), Seen::Word(0)),
            (Step::Word(8), Seen::Word(1)),
            (Step::Word(16), Seen::Word(0x0000_0100_0000_0000)),
            (Step::Word(24), Seen::Word(0x0006_0000_0000_0000)),
            (Step::Word(32), Seen::Word(0)),
            (Step::Word(40), Seen::Word(0x0100)),
            (Step::Word(48), Seen::Word(0)),
            (Step::Word(56), Seen::Word(0)),
            (Step::Grant(0, 1, 22), Seen::Put(1)),
            (Step::Word(0), Seen::Word(0xC000_0000_0000_0016)),
            (LOGIN, Seen::Turned(LoginTurn::Granted(22))),
        ],
    },
    // Bytes that are no unit, a response, and an answer to another login are no answer to a login.
    Case {
        name: "what is no answer to a login",
        granted: Some(8),
        rows: &[
            (LOGIN, AGAIN),
            (Step::Answer(0, Unit::Nothing, 52, 2), Seen::Put(2)),
            (LOGIN, AGAIN),
            (Step::Answer(0, Unit::Good(2, 1), 36, 2), Seen::Put(3)),
            (LOGIN, AGAIN),
            (Step::Answer(0, Unit::Grant(1, 9), 52, 2), Seen::Put(4)),
            (LOGIN, AGAIN),
            (Step::Answer(0, Unit::Grant(1, 9), 52, 1), Seen::Put(5)),
            (LOGIN, AGAIN),
            (POLL, Seen::Unit(64, 0)),
            (POLL, Seen::Empty(3)),
            (Step::Grant(0, 2, 5), Seen::Put(6)),
            (LOGIN, Seen::Turned(LoginTurn::Granted(5))),
        ],
    },
    // An event that finds the partner's queue full is kept, and the own queue is not registered before it is put.
    Case {
        name: "a registration that is busy",
        granted: Some(8),
        rows: &[
            (Step::Own(Act::SendAll(256)), Seen::Put(257)),
            (Step::Freed, Seen::Nothing),
            (Step::Own(Act::Fail), FREED),
            (
                LOGIN,
                Seen::Turned(LoginTurn::Busy {
                    number: 258,
                    held: 0x8001_0000_0000_0010,
                }),
            ),
            (SUBMIT, NOT_LOGGED_IN),
            (POLL, Seen::Unit(16, 0)),
            (LOGIN, AGAIN),
            (
                Step::Partner(Act::PollAll(256)),
                Seen::Entry(Entry::PARTNER_FAILED),
            ),
            (POLL, Seen::Empty(259)),
            (LOGIN, AGAIN),
            (POLL, Seen::Entry(Entry::INITIALIZE)),
            (POLL, Seen::Empty(260)),
        ],
    },
    // Entries that find the partner's queue full are put later, in their order.
    Case {
        name: "entries that are dropped are tried again",
        granted: None,
        rows: &[
            (LOGIN, AGAIN),
            (REGISTER, REGISTERED),
            (Step::Own(Act::SendAll(256)), Seen::Put(255)),
            (INITIALIZE, Seen::Put(0)),
            (LOGIN, AGAIN),
            (POLL, Seen::Unit(16, 0)),
            (LOGIN, AGAIN),
            (POLL, Seen::Unit(16, 0)),
            (LOGIN, AGAIN),
            (LOGIN, AGAIN),
            (Step::Partner(Act::PollAll(254)), Seen::Unit(16, 0)),
            (POLL, Seen::Entry(Entry::INITIALIZATION_COMPLETE)),
            (POLL, Seen::Unit(64, 0)),
            (POLL, Seen::Empty(258)),
        ],
    },
    // A login that finds the partner's queue closed is not sent again; the event that tells of it comes later, since
    // the own queue was full.
    Case {
        name: "a login that is turned back",
        granted: Some(8),
        rows: &[
            (Step::Partner(Act::SendAll(256)), Seen::Put(257)),
            (Step::Partner(Act::Free), FREED),
            (LOGIN, AGAIN),
            (LOGIN, AGAIN),
            (REGISTER, REGISTERED),
            (POLL, Seen::Empty(0)),
            (LOGIN, Seen::Turned(LoginTurn::Lost)),
        ],
    },
    // An answer that a login kept is taken though the own queue failed since; the next turn of a login forgets what is
    // outstanding.
    Case {
        name: "answers that are kept outlive a failure",
        granted: Some(8),
        rows: &[
            (Step::Ready(2), Seen::Sent(3)),
            (Step::Answer(0, Unit::Good(2, 1), 36, 2), Seen::Put(2)),
            (LOGIN, AGAIN),
            (Step::Freed, Seen::Nothing),
            (Step::Own(Act::Fail), FREED),
            (TAKE, Seen::Answer(2, 1, 0)),
            (TAKE, Seen::Empty(0)),
            (OUTSTANDING, Seen::Tags(1, 3)),
            (LOGIN, AGAIN),
            (OUTSTANDING, Seen::Tags(0, 0)),
        ],
    },
    // An answer that a login finds is kept once, and taken before others. A grant forgets what is outstanding.
    Case {
        name: "answers that a login finds are kept",
        granted: Some(8),
        rows: &[
            (Step::Ready(2), Seen::Sent(3)),
            (LOGIN, AGAIN),
            (Step::Answer(0, Unit::Good(2, 1), 36, 2), Seen::Put(2)),
            (Step::Answer(0, Unit::Good(2, 1), 36, 2), Seen::Put(3)),
            (LOGIN, AGAIN),
            (TAKE, Seen::Answer(2, 1, 0)),
            (TAKE, Seen::Empty(4)),
            (Step::Grant(2, 4, 6), Seen::Put(4)),
            (LOGIN, Seen::Turned(LoginTurn::Granted(6))),
            (OUTSTANDING, Seen::Tags(0, 0)),
        ],
    },
];

#[test]
fn logins_end_as_their_scripts_say(rt: HostRuntime) {
    assert_eq!(rt; first_other_case(rt.alloc(), &LOGINS), Ok(None));
}
