// Whole runs of a client, call by call, with what its partner finds in its queue.
use super::desk::{Case, first_other_case};
use super::step::{
    AGAIN, Act, COMPLETE, Call, FREED, INITIALIZE, LOGIN, LOGOUT, NO_CREDIT, NOT_LOGGED_IN, POLL,
    REGISTER, REGISTERED, SUBMIT, Seen, Step, TAKE, TASK,
};
use crq_session::SendAnswer;
use vio_num::Entry;
use vscsi_client::{DataFault, Dir, LoginTurn, Op, Refused};

/// Whole runs, each with its name.
static RUNS: [Case; 5] = [
    // A login, a command, a task and a logout.
    Case {
        name: "a login and each request",
        granted: None,
        rows: &[
            (LOGIN, AGAIN),
            (REGISTER, REGISTERED),
            (INITIALIZE, Seen::Put(0)),
            (LOGIN, AGAIN),
            (POLL, Seen::Entry(Entry::INITIALIZATION_COMPLETE)),
            (POLL, Seen::Unit(64, 0)),
            (Step::Grant(0, 1, 8), Seen::Put(1)),
            (LOGIN, Seen::Turned(LoginTurn::Granted(8))),
            (SUBMIT, Seen::Sent(2)),
            (POLL, Seen::Unit(48, 0)),
            (Step::Good(0, 2), Seen::Put(2)),
            (TAKE, Seen::Answer(2, 7, 0)),
            (TASK, Seen::Sent(3)),
            (Step::Word(0), Seen::Word(0x0100_0000_0000_0000)),
            (Step::Word(8), Seen::Word(3)),
            (Step::Word(24), Seen::Word(0x0000_0000_0000_0100)),
            (Step::Word(32), Seen::Word(2)),
            (POLL, Seen::Unit(48, 0)),
            (Step::Good(0, 3), Seen::Put(3)),
            (TAKE, Seen::Answer(3, 7, 0)),
            (LOGOUT, Seen::Sent(4)),
            (Step::Word(0), Seen::Word(0x0300_0000_0000_0000)),
            (Step::Word(8), Seen::Word(4)),
            (POLL, Seen::Unit(16, 0)),
            (TAKE, Seen::Empty(4)),
        ],
    },
    // Under a grant of two, the third command finds no credit.
    Case {
        name: "three commands under a grant of two",
        granted: Some(2),
        rows: &[
            (SUBMIT, Seen::Sent(2)),
            (SUBMIT, Seen::Sent(3)),
            (SUBMIT, NO_CREDIT),
            (POLL, Seen::Unit(48, 0)),
            (POLL, Seen::Unit(48, 256)),
            (POLL, Seen::Empty(4)),
        ],
    },
    // Data over which the partition writes once they were read are stale.
    Case {
        name: "data that the partition writes over",
        granted: Some(8),
        rows: &[
            (
                Step::Call(Call::Submit(Op {
                    cdb: [0x28, 0, 0, 0, 0, 0, 0, 0, 1, 0, 0, 0, 0, 0, 0, 0],
                    dir: Dir::In,
                    at: 65_536,
                    len: 512,
                    pieces: 1,
                    table: None,
                })),
                Seen::Sent(2),
            ),
            (Step::Lay(16, 1, 2), Seen::Nothing),
            (Step::Good(0, 2), Seen::Put(2)),
            (TAKE, Seen::Answer(2, 7, 0)),
            (Step::Call(Call::DataOf(2)), Seen::Gave(512, 5)),
            (Step::Poke(65_536, 0x0506_0708_090A_0B0C), Seen::Nothing),
            (
                Step::Call(Call::DataOf(2)),
                Seen::NoData(DataFault::Stale { page: 16 }),
            ),
            (Step::Word(65_536), Seen::Word(0x0506_0708_090A_0B0C)),
        ],
    },
    // The event of a partition that fails stands last in the queue of its partner.
    Case {
        name: "a partition that fails",
        granted: Some(8),
        rows: &[
            (SUBMIT, Seen::Sent(2)),
            (Step::Freed, Seen::Nothing),
            (Step::Own(Act::Fail), FREED),
            (SUBMIT, Seen::Refused(Refused::Closed { control: 0 })),
            (POLL, Seen::Unit(48, 0)),
            (POLL, Seen::Entry(Entry::PARTNER_FAILED)),
            (POLL, Seen::Empty(4)),
        ],
    },
    // A client that frees its queue and logs in again begins with Initialize, forgets what was outstanding, and takes
    // the least slot and the next tag.
    Case {
        name: "a client that begins anew",
        granted: Some(8),
        rows: &[
            (Step::Ready(2), Seen::Sent(3)),
            (LOGIN, AGAIN),
            (Step::Partner(Act::PollAll(3)), Seen::Unit(64, 512)),
            (Step::Freed, Seen::Nothing),
            (Step::Own(Act::Free), FREED),
            (
                Step::Grant(2, 4, 6),
                Seen::NotPut(SendAnswer::Closed { control: 8 }),
            ),
            (LOGIN, AGAIN),
            (SUBMIT, NOT_LOGGED_IN),
            (POLL, Seen::Entry(Entry::PARTNER_FREED)),
            (POLL, Seen::Entry(Entry::INITIALIZE)),
            (POLL, Seen::Empty(7)),
            (COMPLETE, Seen::Put(0)),
            (LOGIN, AGAIN),
            (POLL, Seen::Unit(64, 0)),
            (Step::Word(8), Seen::Word(5)),
            (Step::Grant(0, 5, 3), Seen::Put(1)),
            (LOGIN, Seen::Turned(LoginTurn::Granted(3))),
            (SUBMIT, Seen::Sent(6)),
        ],
    },
];

#[test]
fn runs_go_as_their_rows_say(rt: HostRuntime) {
    assert_eq!(rt; first_other_case(rt.alloc(), &RUNS), Ok(None));
}
