// An end that a plain link lends: each call is that of its own side.
ghost use Rattle.std.specs.Prelude.{◌≡◌, ◌∷◌, [], false};

use crate::answers::{EventAnswer, FreeAnswer, PollAnswer, RegAnswer, SendAnswer};
use crate::end::CrqEnd;
use crate::link::PlainLink;
use vio_num::{Entry, NoMemory};

/// A side of a link, as long as it borrows the link.
#[derive(Drop)]
pub struct PlainEnd<'a> {
    pub(crate) link: &'a mut PlainLink,
    pub(crate) first: bool,
}

impl CrqEnd for PlainEnd<'_> {
    ghost use Rattle.crq_session.specs.PlainState.{state_of, heard_of};

    ghost is_shared = { false };

    ghost state = { state_of };

    ghost heard = { heard_of };

    fn slots(&self) -> u32 {
        if self.first {
            self.link.first.slots()
        } else {
            self.link.second.slots()
        }
    }

    // The rows of both queues rise, so both sides are asked.
    fn session(&self) -> u64 {
        let (first, second) = (self.link.first.session(), self.link.second.session());
        if self.first { first } else { second }
    }

    fn reserve(&mut self, n: u32) -> Result<(), NoMemory> {
        self.link.reserve(self.first, n)
    }

    fn register(&mut self, ioba: u64, length: u64) -> RegAnswer {
        self.link.register(self.first, ioba, length)
    }

    fn free(&mut self) -> FreeAnswer {
        self.link.free(self.first, Entry::PARTNER_FREED)
    }

    fn fail(&mut self) -> FreeAnswer {
        self.link.free(self.first, Entry::PARTNER_FAILED)
    }

    fn send(&mut self, entry: Entry) -> SendAnswer {
        self.link.send(self.first, entry)
    }

    fn poll(&mut self) -> PollAnswer {
        self.link.poll(self.first)
    }

    fn push_event(&mut self) -> EventAnswer {
        self.link.push_event(self.first)
    }
}
