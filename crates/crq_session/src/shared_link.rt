// A link of two queues that two threads share, each with a seat of its own: no call takes a lock.
ghost use Rattle.crq_session.specs.Control.{IsQueueSize};

use crate::link::PlainLink;
use crate::seat::LinkSeat;
use crate::side::PlainSide;
use crq_ring::{OpenedRing, Ring};
use std::alloc::Global;
use vio_num::NoMemory;

/// Two queues, each of which one side polls and the other fills.
#[derive(Drop)]
pub struct Link {
    // The queue from which the first side polls, and that of the second.
    pub(crate) first: Ring,
    pub(crate) second: Ring,
    ghost first_sized: { IsQueueSize first.slots },
    ghost second_sized: { IsQueueSize second.slots },
}

/// A new link with the seats of its two sides.
#[derive(Drop)]
pub struct OpenedLink {
    pub link: Link,
    pub a: LinkSeat,
    pub b: LinkSeat,
}

impl Link {
    ghost use Rattle.std.specs.Prelude.{◌≡◌, true, false, IfOk};
    ghost use Rattle.crq_session.specs.LinkSeats.{ring_of, IsSeatOf};
    ghost use Rattle.crq_session.specs.LinkState.{OpensLink, ClosesLink};

    /// A link whose queues are closed. The first side polls a queue of `slots_a`, the second one of
    /// `slots_b`: 256 for each queue page, of which there are 1 to 16.
    pub fn open(alloc: Global, slots_a: u32, slots_b: u32) -> Result<OpenedLink, NoMemory>
        requires slots_a { IsQueueSize slots_a }
        requires slots_b { IsQueueSize slots_b }
        ensures { IfOk result (λ opened. OpensLink opened slots_a slots_b) }
    {
        let a = Ring::closed(alloc, slots_a)?;
        let b = Ring::closed(alloc, slots_b)?;
        let OpenedRing {
            ring: first,
            send: to_first,
            recv: from_first,
        } = a;
        let OpenedRing {
            ring: second,
            send: to_second,
            recv: from_second,
        } = b;
        Ok(OpenedLink {
            link: Link { first, second },
            a: LinkSeat::new(true, from_first, to_second),
            b: LinkSeat::new(false, from_second, to_first),
        })
    }

    /// The queue from which this side polls.
    pub(crate) fn queue(&self, first: bool) -> &Ring
        ensures ring { result.now ≡ ring_of self.now first }
        ensures size { IsQueueSize result.now.slots }
    {
        if first { &self.first } else { &self.second }
    }

    /// Ends the link: the plain link of exactly what its two sides put, took, dropped and keep.
    pub fn close(self, a: LinkSeat, b: LinkSeat) -> PlainLink
        requires first { a.first ≡ true }
        requires second { b.first ≡ false }
        requires a { IsSeatOf self a }
        requires b { IsSeatOf self b }
        ensures { ClosesLink self a b result }
    {
        let Link { first, second } = self;
        let LinkSeat {
            first: _,
            recv: from_first,
            send: to_second,
            kept: kept_a,
            closed: closed_a,
            in_use: _,
        } = a;
        let LinkSeat {
            first: _,
            recv: from_second,
            send: to_first,
            kept: kept_b,
            closed: closed_b,
            in_use: _,
        } = b;
        let (open_a, open_b) = (from_first.is_open(), from_second.is_open());
        let queue_a = first.close(to_first, from_first);
        let queue_b = second.close(to_second, from_second);
        PlainLink {
            first: PlainSide::of(queue_a, open_a, kept_a, closed_a),
            second: PlainSide::of(queue_b, open_b, kept_b, closed_b),
        }
    }
}
