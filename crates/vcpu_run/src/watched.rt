// An end of a link that notes what its calls did.
use crq_session::{CrqEnd, EventAnswer, FreeAnswer, PollAnswer, RegAnswer, SendAnswer};
use vio_num::{Entry, Moved, NoMemory};

/// An end of a link, and whether a call of it took or put an entry, or registered or freed its queue.
#[derive(Drop)]
pub(crate) struct Watched<C: CrqEnd> {
    pub(crate) end: C,
    pub(crate) moved: bool,
}

impl<C: CrqEnd> Watched<C> {
    /// Whether a call did so.
    pub(crate) fn moved(&self) -> Moved {
        if self.moved {
            Moved::Moved
        } else {
            Moved::Quiet
        }
    }
}

impl<C: CrqEnd> CrqEnd for Watched<C> {
    ghost is_shared = { C.is_shared };

    ghost state = { λ watched. C.state watched.end };

    ghost heard = { λ watched. C.heard watched.end };

    fn slots(&self) -> u32 {
        self.end.slots()
    }

    fn session(&self) -> u64 {
        self.end.session()
    }

    fn reserve(&mut self, n: u32) -> Result<(), NoMemory> {
        self.end.reserve(n)
    }

    fn register(&mut self, ioba: u64, length: u64) -> RegAnswer {
        let answer = self.end.register(ioba, length);
        match answer {
            RegAnswer::Success | RegAnswer::Closed { control: _ } => self.moved = true,
            RegAnswer::Parameter | RegAnswer::Resource | RegAnswer::Busy { number: _, held: _ } =>
                {}
        }
        answer
    }

    fn free(&mut self) -> FreeAnswer {
        let answer = self.end.free();
        if answer == FreeAnswer::Success {
            self.moved = true;
        }
        answer
    }

    fn fail(&mut self) -> FreeAnswer {
        let answer = self.end.fail();
        if answer == FreeAnswer::Success {
            self.moved = true;
        }
        answer
    }

    fn send(&mut self, entry: Entry) -> SendAnswer {
        let answer = self.end.send(entry);
        if let SendAnswer::Success { number: _ } = answer {
            self.moved = true;
        }
        answer
    }

    fn poll(&mut self) -> PollAnswer {
        let answer = self.end.poll();
        if let PollAnswer::Got {
            number: _,
            entry: _,
        } = answer
        {
            self.moved = true;
        }
        answer
    }

    fn push_event(&mut self) -> EventAnswer {
        let answer = self.end.push_event();
        if answer == EventAnswer::Put {
            self.moved = true;
        }
        answer
    }
}
