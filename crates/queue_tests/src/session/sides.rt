// Both sides of a link, of either form, for scenarios that both forms have to pass.
ghost use Rattle.std.specs.Prelude.{◌≡◌, true, false};
ghost use Rattle.crq_session.specs.LinkSeats.{IsSeatOf};

use super::calls::{Answer, Call, Row, answer_of, closed, make};
use crq_session::laws::Enter;
use crq_session::{Link, LinkSeat, OpenedLink, PlainLink, SharedEnd};
use std::alloc::Global;
use std::test::Fail;
use vio_num::NoMemory;

/// Both sides of a link.
pub trait Sides {
    /// Makes a call of the first side or the second.
    fn call(&mut self, first: bool, made: Call) -> Result<Answer, Fail>;
}

/// Makes the calls of the rows, and gives the number of the first that has another answer than its row says.
pub fn first_other<S: Sides>(sides: &mut S, rows: &[Row]) -> Result<Option<usize>, Fail> {
    for (number, (first, made, want)) in rows.iter().enumerate() {
        if sides.call(*first, *made)? != *want {
            return Ok(Some(number));
        }
    }
    Ok(None)
}

impl Sides for PlainLink {
    fn call(&mut self, first: bool, made: Call) -> Result<Answer, Fail> {
        answer_of(self, first, made)
    }
}

/// A shared link with both its seats in one hand.
#[derive(Drop)]
pub struct SharedSides {
    link: Link,
    a: LinkSeat,
    b: LinkSeat,
    ghost first: { a.first ≡ true },
    ghost second: { b.first ≡ false },
    ghost ours_a: { IsSeatOf link a },
    ghost ours_b: { IsSeatOf link b },
    ghost outside_a: { a.send.inside ≡ false },
    ghost outside_b: { b.send.inside ≡ false },
}

impl SharedSides {
    ghost use Rattle.crq_session.specs.Control.{IsQueueSize};

    /// Opens a link whose queues have these numbers of slots.
    pub fn open(alloc: Global, slots_a: u32, slots_b: u32) -> Result<SharedSides, NoMemory>
        requires a { IsQueueSize slots_a }
        requires b { IsQueueSize slots_b }
    {
        let OpenedLink { link, a, b } = Link::open(alloc, slots_a, slots_b)?;
        Ok(SharedSides { link, a, b })
    }

    /// Ends the link.
    pub fn close(self) -> PlainLink {
        let SharedSides { link, a, b } = self;
        link.close(a, b)
    }

    /// Frees the first side's queue while the second side stands inside, which then leaves: what the first
    /// is answered; what the second is, where the queue is closed to it.
    pub fn free_around(&mut self) -> Result<Answer, NoMemory> {
        let SharedSides { link, a, b } = self;
        match link.enter(b) {
            Enter::Inside => {
                let answer = call_seat(link, a, Call::Free);
                link.leave(b);
                answer
            }
            Enter::Closed { control } => Ok(closed(control)),
        }
    }
}

/// Makes a call of the end of a seat.
pub fn call_seat(link: &Link, seat: &mut LinkSeat, made: Call) -> Result<Answer, NoMemory>
    requires ours { IsSeatOf link.now seat.old }
    requires outside { seat.old.send.inside ≡ false }
    ensures ours { IsSeatOf link.now seat.new }
    ensures outside { seat.new.send.inside ≡ false }
    ensures first { seat.new.first ≡ seat.old.first }
{
    let mut end = SharedEnd { link, seat };
    make(&mut end, made)
}

impl Sides for SharedSides {
    fn call(&mut self, first: bool, made: Call) -> Result<Answer, Fail> {
        let SharedSides { link, a, b } = self;
        if first {
            Ok(call_seat(link, a, made)?)
        } else {
            Ok(call_seat(link, b, made)?)
        }
    }
}
