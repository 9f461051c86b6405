// The answers of each call in every state of both ends.
ghost use Rattle.std.specs.Prelude.{◌≡◌};
ghost use Rattle.crq_session.specs.Control.{IsQueueSize};

use super::sides::first_other;
use crq_session::{CrqEnd, EventAnswer, FreeAnswer, PlainLink, PollAnswer, RegAnswer, SendAnswer};
use std::alloc::Global;
use std::test::Fail;
use vio_num::{Entry, Kind, NoMemory};

#[derive(Clone, Copy, PartialEq, Eq)]
pub enum Call {
    Register(u64, u64),
    Free,
    Fail,
    Send(u64),
    Poll,
    Push,
}

#[derive(Clone, Copy, PartialEq, Eq)]
pub enum Answer {
    Reg(RegAnswer),
    Free(FreeAnswer),
    Send(SendAnswer),
    Poll(PollAnswer),
    Event(EventAnswer),
}

pub const REGISTER: Call = Call::Register(0, 4096);

pub const COMMAND: u64 = 0x8001_0000_0000_0000;

pub const FREED: u64 = 0xFF02_0000_0000_0000;

pub const FAILED: u64 = 0xFF01_0000_0000_0000;

pub const REGISTERED: Answer = Answer::Reg(RegAnswer::Success);

pub const FREE_DONE: Answer = Answer::Free(FreeAnswer::Success);

/// Whether the first side makes a call, which call it is, and its answer.
pub type Row = (bool, Call, Answer);

pub fn sent(number: u64) -> Answer {
    Answer::Send(SendAnswer::Success { number })
}

pub fn closed(control: u64) -> Answer {
    Answer::Send(SendAnswer::Closed { control })
}

pub fn got(number: u64, high: u64) -> Answer {
    Answer::Poll(PollAnswer::Got {
        number,
        entry: Entry { high, low: 0 },
    })
}

pub fn empty(number: u64) -> Answer {
    Answer::Poll(PollAnswer::Empty { number })
}

/// Makes a call with room for it, through the trait.
pub fn make<E: CrqEnd>(end: &mut E, call: Call) -> Result<Answer, NoMemory>
    ensures { (E.state end.new).place ≡ (E.state end.old).place }
{
    end.reserve(1)?;
    Ok(match call {
        Call::Register(ioba, length) => Answer::Reg(end.register(ioba, length)),
        Call::Free => Answer::Free(end.free()),
        Call::Fail => Answer::Free(end.fail()),
        Call::Send(high) => Answer::Send(end.send(Entry { high, low: 0 })),
        Call::Poll => Answer::Poll(end.poll()),
        Call::Push => Answer::Event(end.push_event()),
    })
}

pub fn answer_of(link: &mut PlainLink, first: bool, call: Call) -> Result<Answer, Fail> {
    let mut end = link.side(first);
    Ok(make(&mut end, call)?)
}

const PARAMETER: Answer = Answer::Reg(RegAnswer::Parameter);

const RESOURCE: Answer = Answer::Reg(RegAnswer::Resource);

const NOT_FREED: Answer = Answer::Free(FreeAnswer::Parameter);

const NOT_SENT: Answer = Answer::Send(SendAnswer::NotRegistered);

const NOT_POLLED: Answer = Answer::Poll(PollAnswer::NotRegistered);

const NOTHING: Answer = Answer::Event(EventAnswer::Nothing);

/// What is told of a side: its session, the slots of its queue, and how many entries were put there and taken.
type Told = (u64, u32, usize, usize);

fn told(link: &mut PlainLink, first: bool) -> Told {
    let end = link.side(first);
    let (session, slots) = (end.session(), end.slots());
    let queue = link.queue(first);
    (session, slots, queue.sent().len(), queue.taken().len())
}

// Makes the calls of the rows on a link whose second side has this many slots: the number of the first other answer,
// and what is told of both sides then.
fn played(alloc: Global, slots: u32, rows: &[Row]) -> Result<(Option<usize>, Told, Told), Fail>
    requires { IsQueueSize slots }
{
    let mut link = PlainLink::open(alloc, 256, slots)?;
    let other = first_other(&mut link, rows)?;
    Ok((other, told(&mut link, true), told(&mut link, false)))
}

static ALONE: [Row; 24] = [
    (true, Call::Free, NOT_FREED),
    (true, Call::Fail, NOT_FREED),
    (true, Call::Send(COMMAND), NOT_SENT),
    (true, Call::Poll, NOT_POLLED),
    (true, Call::Push, NOTHING),
    (true, Call::Register(1, 4096), PARAMETER),
    (true, Call::Register(2048, 4096), PARAMETER),
    (true, Call::Register(4096, 8192), PARAMETER),
    (true, Call::Register(4096, 4097), PARAMETER),
    (true, Call::Register(4096, 0), PARAMETER),
    (
        true,
        Call::Register(4096, 4096),
        Answer::Reg(RegAnswer::Closed { control: 0 }),
    ),
    (true, Call::Register(4096, 4096), RESOURCE),
    (true, Call::Register(4096, 8192), PARAMETER),
    (
        true,
        Call::Send(COMMAND),
        Answer::Send(SendAnswer::Closed { control: 0 }),
    ),
    (
        true,
        Call::Poll,
        Answer::Poll(PollAnswer::Empty { number: 0 }),
    ),
    (true, Call::Push, NOTHING),
    (true, Call::Free, FREE_DONE),
    (true, Call::Push, NOTHING),
    (true, Call::Free, NOT_FREED),
    (
        true,
        REGISTER,
        Answer::Reg(RegAnswer::Closed { control: 0 }),
    ),
    (true, Call::Fail, FREE_DONE),
    (true, Call::Fail, NOT_FREED),
    (true, Call::Send(COMMAND), NOT_SENT),
    (
        true,
        REGISTER,
        Answer::Reg(RegAnswer::Closed { control: 0 }),
    ),
];

#[test]
fn a_side_whose_partner_was_never_there(rt: HostRuntime) -> Result<(), Fail> {
    let want = (None, (3, 256, 0, 0), (0, 512, 0, 0));
    assert_eq!(rt; played(rt.alloc(), 512, &ALONE)?, want);
    Ok(())
}

static COME_AND_GO: [Row; 25] = [
    (
        true,
        REGISTER,
        Answer::Reg(RegAnswer::Closed { control: 0 }),
    ),
    (false, REGISTER, REGISTERED),
    (
        true,
        Call::Send(COMMAND),
        Answer::Send(SendAnswer::Success { number: 0 }),
    ),
    (
        true,
        Call::Send(COMMAND + 1),
        Answer::Send(SendAnswer::Success { number: 1 }),
    ),
    (
        true,
        Call::Send(COMMAND + 2),
        Answer::Send(SendAnswer::Success { number: 2 }),
    ),
    (
        false,
        Call::Send(COMMAND + 3),
        Answer::Send(SendAnswer::Success { number: 0 }),
    ),
    (false, REGISTER, RESOURCE),
    (
        false,
        Call::Poll,
        Answer::Poll(PollAnswer::Got {
            number: 0,
            entry: Entry {
                high: COMMAND,
                low: 0,
            },
        }),
    ),
    (false, Call::Fail, FREE_DONE),
    (false, Call::Poll, NOT_POLLED),
    (
        true,
        Call::Send(COMMAND),
        Answer::Send(SendAnswer::Closed { control: 8 }),
    ),
    (
        true,
        Call::Poll,
        Answer::Poll(PollAnswer::Got {
            number: 0,
            entry: Entry {
                high: COMMAND + 3,
                low: 0,
            },
        }),
    ),
    (
        true,
        Call::Poll,
        Answer::Poll(PollAnswer::Got {
            number: 1,
            entry: Entry {
                high: FAILED,
                low: 0,
            },
        }),
    ),
    (
        true,
        Call::Poll,
        Answer::Poll(PollAnswer::Empty { number: 2 }),
    ),
    (false, REGISTER, REGISTERED),
    (
        false,
        Call::Poll,
        Answer::Poll(PollAnswer::Empty { number: 0 }),
    ),
    (
        true,
        Call::Send(COMMAND + 4),
        Answer::Send(SendAnswer::Success { number: 0 }),
    ),
    (true, Call::Free, FREE_DONE),
    (true, Call::Send(COMMAND), NOT_SENT),
    (
        false,
        Call::Send(COMMAND),
        Answer::Send(SendAnswer::Closed { control: 8 }),
    ),
    (
        false,
        Call::Poll,
        Answer::Poll(PollAnswer::Got {
            number: 0,
            entry: Entry {
                high: COMMAND + 4,
                low: 0,
            },
        }),
    ),
    (
        false,
        Call::Poll,
        Answer::Poll(PollAnswer::Got {
            number: 1,
            entry: Entry {
                high: FREED,
                low: 0,
            },
        }),
    ),
    (false, Call::Free, FREE_DONE),
    (
        true,
        REGISTER,
        Answer::Reg(RegAnswer::Closed { control: 16 }),
    ),
    (
        true,
        Call::Poll,
        Answer::Poll(PollAnswer::Empty { number: 0 }),
    ),
];

#[test]
fn two_sides_that_come_and_go(rt: HostRuntime) -> Result<(), Fail> {
    let want = (None, (2, 256, 2, 2), (2, 256, 5, 3));
    assert_eq!(rt; played(rt.alloc(), 256, &COME_AND_GO)?, want);
    Ok(())
}

static LOST: [Row; 10] = [
    (
        true,
        REGISTER,
        Answer::Reg(RegAnswer::Closed { control: 0 }),
    ),
    (false, REGISTER, REGISTERED),
    (
        false,
        Call::Send(COMMAND),
        Answer::Send(SendAnswer::Success { number: 0 }),
    ),
    (
        false,
        Call::Send(COMMAND),
        Answer::Send(SendAnswer::Success { number: 1 }),
    ),
    (
        false,
        Call::Send(COMMAND),
        Answer::Send(SendAnswer::Success { number: 2 }),
    ),
    (true, Call::Free, FREE_DONE),
    (
        false,
        Call::Poll,
        Answer::Poll(PollAnswer::Got {
            number: 0,
            entry: Entry {
                high: FREED,
                low: 0,
            },
        }),
    ),
    (
        false,
        Call::Send(COMMAND),
        Answer::Send(SendAnswer::Closed { control: 8 }),
    ),
    (true, REGISTER, REGISTERED),
    (
        true,
        Call::Poll,
        Answer::Poll(PollAnswer::Empty { number: 0 }),
    ),
];

#[test]
fn entries_that_a_free_finds_unread_are_lost(rt: HostRuntime) -> Result<(), Fail> {
    let want = (None, (2, 256, 3, 0), (1, 256, 1, 1));
    assert_eq!(rt; played(rt.alloc(), 256, &LOST)?, want);
    Ok(())
}

static BOTH: [Row; 2] = [
    (
        true,
        REGISTER,
        Answer::Reg(RegAnswer::Closed { control: 0 }),
    ),
    (false, REGISTER, REGISTERED),
];

static FIRST_BYTES: [Row; 2] = [
    (
        false,
        Call::Poll,
        Answer::Poll(PollAnswer::Got {
            number: 0,
            entry: Entry {
                high: 0x80 << 56,
                low: 0,
            },
        }),
    ),
    (
        false,
        Call::Poll,
        Answer::Poll(PollAnswer::Got {
            number: 1,
            entry: Entry {
                high: 0x81 << 56,
                low: 0,
            },
        }),
    ),
];

// Sends an entry of each first byte, and gives the first byte that has another answer.
fn first_other_byte(link: &mut PlainLink) -> Result<Option<u64>, Fail> {
    for first in 0..256u64 {
        let want = if first < 128 {
            Answer::Send(SendAnswer::Parameter)
        } else {
            sent(first - 128)
        };
        if answer_of(link, true, Call::Send(first << 56))? != want {
            return Ok(Some(first));
        }
    }
    Ok(None)
}

// What the second entry in the queue of the second side is.
fn second_kind(link: &PlainLink) -> Option<Kind> {
    Some(link.queue(false).sent().get(1)?.entry.kind())
}

// The first byte that has another answer, what the second entry is, and the first row that is answered otherwise before
// and after.
fn first_bytes(
    alloc: Global,
) -> Result<(Option<u64>, Option<Kind>, Option<usize>, Option<usize>), Fail> {
    let mut link = PlainLink::open(alloc, 256, 256)?;
    let before = first_other(&mut link, &BOTH)?;
    let byte = first_other_byte(&mut link)?;
    let kind = second_kind(&link);
    let after = first_other(&mut link, &FIRST_BYTES)?;
    Ok((byte, kind, before, after))
}

#[test]
fn each_first_byte_is_sent_or_refused(rt: HostRuntime) -> Result<(), Fail> {
    let want = (None, Some(Kind::Reserved), None, None);
    assert_eq!(rt; first_bytes(rt.alloc())?, want);
    Ok(())
}
