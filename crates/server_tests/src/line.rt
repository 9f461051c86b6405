// The queues between a unit and its client, and what the client does there.
ghost use Rattle.std.specs.Prelude.{◌≡◌, ◌<◌, [], true, vec_len};
ghost use Rattle.crq_session.specs.PlainState.{end_of};
ghost use Rattle.block_server.specs.Advances.{KeepsFreed};

use super::step::Step;
use super::windows::Windows;
use block_server::Server;
use crq_session::{CrqEnd, PlainLink, PollAnswer};
use std::alloc::Global;
use vio_io::Blocks;
use vio_num::{Entry, Moved, NoMemory};

/// Two queues of 256 slots, with the unit at the first side.
#[derive(Drop)]
pub(super) struct Line {
    link: PlainLink,
    ghost event: { KeepsFreed (end_of [] link true) },
}

impl Line {
    /// Queues that nobody registered.
    pub(super) fn open(alloc: Global) -> Result<Line, NoMemory> {
        Ok(Line {
            link: PlainLink::open(alloc, 256, 256)?,
        })
    }

    /// Has a turn of a unit at its side.
    pub(super) fn turn<B: Blocks>(
        &mut self,
        server: &mut Server<B>,
        windows: &mut Windows,
    ) -> Result<Moved, NoMemory>
        requires unit { 0 < vec_len server.old.units }
        requires partition { server.old.partition ≡ 0 }
        ensures unit { vec_len server.new.units ≡ vec_len server.old.units }
        ensures partition { server.new.partition ≡ server.old.partition }
    {
        let mut end = self.link.side(true);
        windows.turn(server, &mut end)
    }

    /// Does a step of the client at its queue, and tells whether it went so.
    pub(super) fn does(&mut self, step: Step) -> Result<bool, NoMemory> {
        match step {
            Step::Register => self.register(),
            Step::Free => self.free(),
            Step::Send(entry) => self.send(entry),
            Step::SendUnit(len, at) => self.send(Entry::srp(len, at)),
            Step::SendAll(count, entry) => self.send_all(count, entry),
            Step::Take(entry) => Ok(self.take()? == Some(entry)),
            Step::TakeAnswer(len, tag) => Ok(self.take()? == Some(Entry::srp(len, tag))),
            Step::TakeAny => Ok(self.take()?.is_some()),
            Step::TakeAll(count) => self.take_all(count),
            Step::TakeNone => Ok(self.take()?.is_none()),
            _ => Ok(false),
        }
    }

    fn register(&mut self) -> Result<bool, NoMemory> {
        let mut end = self.link.side(false);
        end.reserve(1)?;
        let _answer = end.register(0, 4096);
        Ok(true)
    }

    fn free(&mut self) -> Result<bool, NoMemory> {
        let mut end = self.link.side(false);
        end.reserve(1)?;
        let _answer = end.free();
        Ok(true)
    }

    /// Sends an entry to the unit.
    pub(super) fn send(&mut self, entry: Entry) -> Result<bool, NoMemory> {
        let mut end = self.link.side(false);
        end.reserve(1)?;
        let _answer = end.send(entry);
        Ok(true)
    }

    fn send_all(&mut self, count: u16, entry: Entry) -> Result<bool, NoMemory> {
        for _ in 0..count {
            self.send(entry)?;
        }
        Ok(true)
    }

    // Takes the next entry that the unit put.
    fn take(&mut self) -> Result<Option<Entry>, NoMemory> {
        let mut end = self.link.side(false);
        end.reserve(1)?;
        Ok(match end.poll() {
            PollAnswer::Got { entry, .. } => Some(entry),
            _ => None,
        })
    }

    // Takes this many entries, up to the first that is not there.
    fn take_all(&mut self, count: u16) -> Result<bool, NoMemory> {
        for _ in 0..count {
            if self.take()?.is_none() {
                return Ok(false);
            }
        }
        Ok(true)
    }
}
