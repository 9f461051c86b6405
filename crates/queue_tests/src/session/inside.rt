// A sender that stands inside its partner's queue, which cannot be freed until it left.
use super::calls::{Answer, COMMAND, Call, FREE_DONE, REGISTER, REGISTERED};
use super::sides::{SharedSides, Sides};
use crq_session::{FreeAnswer, RegAnswer, SendAnswer};
use std::alloc::Global;
use std::test::Fail;

/// A call of one side, or a free of the first side's queue while the second stands inside; and its answer.
static INSIDE: [(Option<(bool, Call)>, Answer); 8] = [
    (
        Some((true, REGISTER)),
        Answer::Reg(RegAnswer::Closed { control: 0 }),
    ),
    (Some((false, REGISTER)), REGISTERED),
    (None, Answer::Free(FreeAnswer::Busy { control: 11 })),
    (Some((true, Call::Free)), FREE_DONE),
    (
        Some((false, Call::Send(COMMAND))),
        Answer::Send(SendAnswer::Closed { control: 8 }),
    ),
    (None, Answer::Send(SendAnswer::Closed { control: 8 })),
    (Some((true, REGISTER)), REGISTERED),
    (None, Answer::Free(FreeAnswer::Busy { control: 19 })),
];

// Makes a call of the table.
fn answer_of(sides: &mut SharedSides, made: Option<(bool, Call)>) -> Result<Answer, Fail> {
    match made {
        Some((first, call)) => sides.call(first, call),
        None => Ok(sides.free_around()?),
    }
}

// Makes the calls, and gives the number of the first that has another answer.
fn first_other(sides: &mut SharedSides) -> Result<Option<usize>, Fail> {
    for (number, (made, want)) in INSIDE.iter().enumerate() {
        if answer_of(sides, *made)? != *want {
            return Ok(Some(number));
        }
    }
    Ok(None)
}

// The same at a new link.
fn played(alloc: Global) -> Result<Option<usize>, Fail> {
    let mut sides = SharedSides::open(alloc, 256, 256)?;
    first_other(&mut sides)
}

#[test]
fn a_sender_inside_keeps_a_queue_from_being_freed(rt: HostRuntime) -> Result<(), Fail> {
    assert_eq!(rt; played(rt.alloc())?, None);
    Ok(())
}
