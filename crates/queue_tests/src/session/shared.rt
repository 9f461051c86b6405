// The scenarios of a link on its shared form.
use super::calls::{Answer, COMMAND, Call, FREE_DONE, FREED, REGISTER, REGISTERED, Row};
use super::events::{BUSY, KEPT, is_drained, is_filled};
use super::sides::{SharedSides, Sides, first_other};
use crq_ring::PlainPipe;
use crq_session::{PlainLink, PollAnswer, RegAnswer, SendAnswer};
use std::alloc::Global;
use std::test::Fail;
use vio_num::{Entry, Kind};

const PARAMETER: Answer = Answer::Reg(RegAnswer::Parameter);

const NOT_SENT: Answer = Answer::Send(SendAnswer::Parameter);

// A side whose partner was never there, what a first byte makes of an entry, and a queue that is freed with
// entries unread.
static SIDES: [Row; 17] = [
    (
        true,
        REGISTER,
        Answer::Reg(RegAnswer::Closed { control: 0 }),
    ),
    (true, REGISTER, Answer::Reg(RegAnswer::Resource)),
    (true, Call::Register(0, 8192), PARAMETER),
    (
        true,
        Call::Send(COMMAND),
        Answer::Send(SendAnswer::Closed { control: 0 }),
    ),
    (false, REGISTER, REGISTERED),
    (false, Call::Send(0x7F << 56), NOT_SENT),
    (false, Call::Send(0), NOT_SENT),
    (
        false,
        Call::Send(0x81 << 56),
        Answer::Send(SendAnswer::Success { number: 0 }),
    ),
    (
        true,
        Call::Poll,
        Answer::Poll(PollAnswer::Got {
            number: 0,
            entry: Entry {
                high: 0x81 << 56,
                low: 0,
            },
        }),
    ),
    (
        false,
        Call::Send(COMMAND),
        Answer::Send(SendAnswer::Success { number: 1 }),
    ),
    (
        false,
        Call::Send(COMMAND),
        Answer::Send(SendAnswer::Success { number: 2 }),
    ),
    (
        false,
        Call::Send(COMMAND),
        Answer::Send(SendAnswer::Success { number: 3 }),
    ),
    (true, Call::Free, FREE_DONE),
    (
        false,
        Call::Poll,
        Answer::Poll(PollAnswer::Got {
            number: 0,
            entry: Entry {
                high: FREED,
                low: 0,
            },
        }),
    ),
    (
        false,
        Call::Send(COMMAND),
        Answer::Send(SendAnswer::Closed { control: 8 }),
    ),
    (true, REGISTER, REGISTERED),
    (
        true,
        Call::Poll,
        Answer::Poll(PollAnswer::Empty { number: 0 }),
    ),
];

static EVENT_KEPT: [Row; 4] = [
    (true, Call::Push, KEPT),
    (true, REGISTER, BUSY),
    (
        false,
        Call::Poll,
        Answer::Poll(PollAnswer::Got {
            number: 0,
            entry: Entry {
                high: COMMAND,
                low: 0,
            },
        }),
    ),
    (true, REGISTER, REGISTERED),
];

// An event that finds its slot full is kept, and put before the next registration.
fn an_event_is_kept<S: Sides>(sides: &mut S) -> Result<bool, Fail> {
    Ok(
        is_filled(sides, Call::Free)?
            && first_other(sides, &EVENT_KEPT)?.is_none()
            && is_drained(sides)?,
    )
}

// The number of the first of the rows that a plain link answers otherwise, and the link.
fn plain_by_rows(alloc: Global) -> Result<(Option<usize>, PlainLink), Fail> {
    let mut plain = PlainLink::open(alloc, 256, 256)?;
    let other = first_other(&mut plain, &SIDES)?;
    Ok((other, plain))
}

// The same of a shared link, and what it leaves.
fn shared_by_rows(alloc: Global) -> Result<(Option<usize>, PlainLink), Fail> {
    let mut shared = SharedSides::open(alloc, 256, 256)?;
    let other = first_other(&mut shared, &SIDES)?;
    Ok((other, shared.close()))
}

// Whether the same was put and taken in two queues, in as many sessions.
fn are_alike(one: &PlainPipe, other: &PlainPipe) -> bool {
    one.sent() == other.sent() && one.taken() == other.taken() && one.session() == other.session()
}

// What the first entry in the queue of the first side is.
fn first_kind(link: &PlainLink) -> Option<Kind> {
    Some(link.queue(true).sent().first()?.entry.kind())
}

// Whether both queues of two links are alike.
fn are_both_alike(one: &PlainLink, other: &PlainLink) -> bool {
    are_alike(one.queue(true), other.queue(true)) && are_alike(one.queue(false), other.queue(false))
}

// The first row that each form answers otherwise, whether the queues are alike, and what the first entry is.
fn both_by_rows(alloc: Global) -> Result<([Option<usize>; 2], bool, Option<Kind>), Fail> {
    let (of_plain, plain) = plain_by_rows(alloc)?;
    let (of_shared, shared) = shared_by_rows(alloc)?;
    let others = [of_plain, of_shared];
    Ok((others, are_both_alike(&shared, &plain), first_kind(&shared)))
}

#[test]
fn both_forms_of_a_link_pass_the_same_rows(rt: HostRuntime) -> Result<(), Fail> {
    let want = ([None, None], true, Some(Kind::Reserved));
    assert_eq!(rt; both_by_rows(rt.alloc())?, want);
    Ok(())
}

// Whether a plain link keeps an event, and the link.
fn plain_with_an_event(alloc: Global) -> Result<(bool, PlainLink), Fail> {
    let mut plain = PlainLink::open(alloc, 256, 256)?;
    let is_kept = an_event_is_kept(&mut plain)?;
    Ok((is_kept, plain))
}

// The same of a shared link, and what it leaves.
fn shared_with_an_event(alloc: Global) -> Result<(bool, PlainLink), Fail> {
    let mut shared = SharedSides::open(alloc, 256, 256)?;
    let is_kept = an_event_is_kept(&mut shared)?;
    Ok((is_kept, shared.close()))
}

// Whether each form keeps an event, and the queues of the second side have the same entries and drops.
fn both_keep(alloc: Global) -> Result<(bool, bool, bool), Fail> {
    let (by_plain, plain) = plain_with_an_event(alloc)?;
    let (by_shared, shared) = shared_with_an_event(alloc)?;
    let (one, other) = (shared.queue(false), plain.queue(false));
    let is_same = one.drops() == other.drops() && one.sent() == other.sent();
    Ok((by_plain, by_shared, is_same))
}

#[test]
fn both_forms_of_a_link_keep_an_event(rt: HostRuntime) -> Result<(), Fail> {
    assert_eq!(rt; both_keep(rt.alloc())?, (true, true, true));
    Ok(())
}
