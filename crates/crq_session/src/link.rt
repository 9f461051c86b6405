// A link of two queues, in lists.
ghost use Rattle.std.specs.Prelude.{◌≡◌, IfOk};
ghost use Rattle.crq_session.specs.Control.{IsQueueSize};

use crate::answers::{EventAnswer, FreeAnswer, PollAnswer, RegAnswer, SendAnswer};
use crate::plain_end::PlainEnd;
use crate::side::PlainSide;
use crq_ring::PlainPipe;
use std::alloc::Global;
use vio_num::{Entry, NoMemory};

/// Two queues, each of which one side polls and the other fills.
#[derive(Debug, Drop)]
pub struct PlainLink {
    pub(crate) first: PlainSide,
    pub(crate) second: PlainSide,
}

impl PlainLink {
    ghost use Rattle.std.specs.Prelude.{◌<◌, OnOk};
    ghost use Rattle.crq_ring.specs.Pipe.{HasRoom};
    ghost use Rattle.crq_session.specs.Calls.{IsRegistration, IsFree, IsSend, IsPoll, IsPush};
    ghost use Rattle.crq_session.specs.PlainState.{side_of, partner_of, IsNewLink};
    ghost use Rattle.crq_session.specs.Side.{KeepsSide};

    /// A link whose queues are not registered. The first side polls a queue of `slots_a`, the second one of
    /// `slots_b`: 256 for each queue page, of which there are 1 to 16.
    pub fn open(alloc: Global, slots_a: u32, slots_b: u32) -> Result<PlainLink, NoMemory>
        requires slots_a { IsQueueSize slots_a }
        requires slots_b { IsQueueSize slots_b }
        ensures { IfOk result (λ link. IsNewLink link slots_a slots_b) }
    {
        Ok(PlainLink {
            first: PlainSide::open(alloc, slots_a)?,
            second: PlainSide::open(alloc, slots_b)?,
        })
    }

    /// The first side or the second.
    pub fn side(&mut self, first: bool) -> PlainEnd<'_>
        ensures link { result.link.now ≡ self.old }
        ensures lender { result.link.ghost_name ≡ self.entry.ghost_name }
        ensures first { result.first ≡ first }
    {
        PlainEnd { link: self, first }
    }

    /// Whether this side's queue is registered.
    pub fn is_registered(&self, first: bool) -> bool
        ensures { result ≡ (side_of self.now first).registered }
    {
        if first {
            self.first.is_registered()
        } else {
            self.second.is_registered()
        }
    }

    /// The queue from which this side polls.
    pub fn queue(&self, first: bool) -> &PlainPipe
        ensures { result.now ≡ (side_of self.now first).queue }
    {
        if first {
            &self.first.queue
        } else {
            &self.second.queue
        }
    }

    /// Makes room for this many calls of each kind of a side.
    pub(crate) fn reserve(&mut self, first: bool, n: u32) -> Result<(), NoMemory>
        ensures own { OnOk result (HasRoom (side_of self.new first).queue n) }
        ensures partner { OnOk result (HasRoom (partner_of self.new first).queue n) }
        ensures own_rest { KeepsSide (side_of self.old first) (side_of self.new first) }
        ensures partner_rest { KeepsSide (partner_of self.old first) (partner_of self.new first) }
    {
        if first {
            self.first.reserve(&mut self.second, n)
        } else {
            self.second.reserve(&mut self.first, n)
        }
    }

    /// Registers the queue of a side.
    pub(crate) fn register(&mut self, first: bool, ioba: u64, length: u64) -> RegAnswer
        requires room { 0 < (partner_of self.old first).queue.room.puts }
        requires sessions { 0 < (side_of self.old first).queue.room.renewals }
        ensures { IsRegistration (side_of self.old first) (partner_of self.old first)
            ioba length result (side_of self.new first) (partner_of self.new first) }
    {
        if first {
            self.first.register(&mut self.second, ioba, length)
        } else {
            self.second.register(&mut self.first, ioba, length)
        }
    }

    /// Frees the queue of a side, and puts this event into the partner's.
    pub(crate) fn free(&mut self, first: bool, event: Entry) -> FreeAnswer
        requires { 0 < (partner_of self.old first).queue.room.puts }
        ensures { IsFree (side_of self.old first) (partner_of self.old first) event result
            (side_of self.new first) (partner_of self.new first) }
    {
        if first {
            self.first.free(&mut self.second, event)
        } else {
            self.second.free(&mut self.first, event)
        }
    }

    /// Sends an entry to the partner of a side.
    pub(crate) fn send(&mut self, first: bool, entry: Entry) -> SendAnswer
        requires { 0 < (partner_of self.old first).queue.room.puts }
        ensures { IsSend (side_of self.old first) (partner_of self.old first) entry result
            (side_of self.new first) (partner_of self.new first) }
    {
        if first {
            self.first.send(&mut self.second, entry)
        } else {
            self.second.send(&mut self.first, entry)
        }
    }

    /// Takes the next entry of the queue of a side.
    pub(crate) fn poll(&mut self, first: bool) -> PollAnswer
        requires { 0 < (side_of self.old first).queue.room.polls }
        ensures { IsPoll (side_of self.old first) (partner_of self.old first) result
            (side_of self.new first) (partner_of self.new first) }
    {
        if first {
            self.first.poll(&mut self.second)
        } else {
            self.second.poll(&mut self.first)
        }
    }

    /// Puts the kept event of a side, if there is one.
    pub(crate) fn push_event(&mut self, first: bool) -> EventAnswer
        requires { 0 < (partner_of self.old first).queue.room.puts }
        ensures { IsPush (side_of self.old first) (partner_of self.old first) result
            (side_of self.new first) (partner_of self.new first) }
    {
        if first {
            self.first.push_event(&mut self.second)
        } else {
            self.second.push_event(&mut self.first)
        }
    }
}
