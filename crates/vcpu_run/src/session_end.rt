// An end of a plain link that puts entries in sessions alone.
ghost use Rattle.crq_session.specs.PlainState.{state_of};
ghost use Rattle.vcpu_run.specs.Answered.{IsBehind, PutsInSessions};
ghost use Rattle.vcpu_run.specs.Gone.{IsToldOfGone};
ghost use Rattle.vcpu_run.specs.Reached.{HasBegun};

use crq_session::{CrqEnd, EventAnswer, FreeAnswer, PlainEnd, PollAnswer, RegAnswer, SendAnswer};
use vio_num::{Entry, NoMemory};

/// An end of a plain link, all whose entries were put in sessions of its partner's queue, which count from 1.
#[derive(Drop)]
pub(crate) struct SessionEnd<'a> {
    pub(crate) end: PlainEnd<'a>,
    ghost puts: { PutsInSessions (state_of end) },
    ghost behind: { IsBehind (state_of end) },
    ghost gone: { IsToldOfGone (state_of end) },
    ghost served: { HasBegun (state_of end) },
}

impl CrqEnd for SessionEnd<'_> {
    ghost use Rattle.std.specs.Prelude.{false};
    ghost use Rattle.crq_session.specs.PlainState.{state_of, heard_of};

    ghost is_shared = { false };

    ghost state = { λ own. state_of own.end };

    ghost heard = { λ own. heard_of own.end };

    fn slots(&self) -> u32 {
        self.end.slots()
    }

    fn session(&self) -> u64 {
        self.end.session()
    }

    fn reserve(&mut self, n: u32) -> Result<(), NoMemory> {
        self.end.reserve(n)
    }

    fn register(&mut self, ioba: u64, length: u64) -> RegAnswer {
        self.end.register(ioba, length)
    }

    fn free(&mut self) -> FreeAnswer {
        self.end.free()
    }

    fn fail(&mut self) -> FreeAnswer {
        self.end.fail()
    }

    fn send(&mut self, entry: Entry) -> SendAnswer {
        self.end.send(entry)
    }

    fn poll(&mut self) -> PollAnswer {
        self.end.poll()
    }

    fn push_event(&mut self) -> EventAnswer {
        self.end.push_event()
    }
}
