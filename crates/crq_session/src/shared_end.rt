// An end of a shared link: each call is that of its seat.
ghost use Rattle.std.specs.Prelude.{◌≡◌, true, false};
ghost use Rattle.crq_session.specs.LinkSeats.{IsSeatOf};

use crate::answers::{EventAnswer, FreeAnswer, PollAnswer, RegAnswer, SendAnswer};
use crate::end::CrqEnd;
use crate::seat::LinkSeat;
use crate::shared_link::Link;
use vio_num::{Entry, NoMemory};

/// A side of a shared link, as long as it borrows its seat. It is outside its partner's queue between calls.
#[derive(Drop)]
pub struct SharedEnd<'a> {
    pub link: &'a Link,
    pub seat: &'a mut LinkSeat,
    ghost ours: { IsSeatOf link.now seat.now },
    ghost outside: { seat.now.send.inside ≡ false },
}

impl CrqEnd for SharedEnd<'_> {
    ghost use Rattle.crq_session.specs.LinkState.{shared_state_of, shared_heard_of};

    ghost is_shared = { true };

    ghost state = { shared_state_of };

    ghost heard = { shared_heard_of };

    fn slots(&self) -> u32 {
        self.link.queue(self.seat.first).slots()
    }

    fn session(&self) -> u64 {
        self.seat.session()
    }

    fn reserve(&mut self, n: u32) -> Result<(), NoMemory> {
        self.seat.reserve(n)
    }

    fn register(&mut self, ioba: u64, length: u64) -> RegAnswer {
        let own = self.link.queue(self.seat.first);
        let partner = self.link.queue(!self.seat.first);
        self.seat.register(own, partner, ioba, length)
    }

    fn free(&mut self) -> FreeAnswer {
        let own = self.link.queue(self.seat.first);
        let partner = self.link.queue(!self.seat.first);
        self.seat.free(own, partner, Entry::PARTNER_FREED)
    }

    fn fail(&mut self) -> FreeAnswer {
        let own = self.link.queue(self.seat.first);
        let partner = self.link.queue(!self.seat.first);
        self.seat.free(own, partner, Entry::PARTNER_FAILED)
    }

    fn send(&mut self, entry: Entry) -> SendAnswer {
        let partner = self.link.queue(!self.seat.first);
        self.seat.send(partner, entry)
    }

    fn poll(&mut self) -> PollAnswer {
        let own = self.link.queue(self.seat.first);
        self.seat.poll(own)
    }

    fn push_event(&mut self) -> EventAnswer {
        let partner = self.link.queue(!self.seat.first);
        self.seat.push_event(partner)
    }
}
