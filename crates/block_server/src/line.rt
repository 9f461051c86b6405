// A unit's side of its link: how far the queues' initialisation has come, and the entry that found the client's
// queue full.
ghost use Rattle.crq_session.specs.Handshake.{step_entry};
ghost use Rattle.std.specs.Prelude.{◌≡◌, ◌↔◌, IfSome, IsTrue, None, Some, false};
ghost use Rattle.crq_session.specs.declared.handshake.Handshake.TheVariants.{Down, Up};
ghost use Rattle.block_server.specs.Entries.{IsPlain, MayPut};
ghost use Rattle.block_server.specs.Kept.{kept_entry};
ghost use Rattle.block_server.specs.declared.line.Kept.{Kept};

use crate::service::Outcome;
use crq_session::{Handshake, Step};
use vio_num::Entry;

/// An entry that found the client's queue full, and is put before anything else.
#[derive(Clone, Copy, Debug, PartialEq, Eq)]
pub(crate) enum Kept {
    /// An entry of the initialisation, or the answer to a management datagram.
    Reply(Entry),
    /// The answer to the request in service.
    Answer { entry: Entry, outcome: Outcome },
}

impl Kept {
    /// The entry.
    pub(crate) fn entry(self) -> Entry
        ensures { result ≡ kept_entry self }
    {
        match self {
            Kept::Reply(entry) => entry,
            Kept::Answer { entry, .. } => entry,
        }
    }
}

/// A unit's side of its link.
#[derive(Debug, Drop)]
pub(crate) struct Line {
    /// How far the initialisation has come.
    pub(crate) handshake: Handshake,
    /// Whether the session is to be freed.
    pub(crate) closing: bool,
    /// The entry that is to be put.
    pub(crate) kept: Option<Kept>,
    ghost may: { (entry : Kept) → kept ≡ Some entry → MayPut (kept_entry entry) },
}

impl Line {
    /// The queue is not registered.
    pub(crate) fn new() -> Line
        ensures handshake { result.handshake ≡ Down }
        ensures closing { result.closing ≡ false }
        ensures kept { result.kept ≡ None }
    {
        Line {
            handshake: Handshake::Down,
            closing: false,
            kept: None,
        }
    }

    /// The session was freed.
    pub(crate) fn freed(&mut self)
        ensures handshake { self.new.handshake ≡ Down }
        ensures closing { self.new.closing ≡ false }
        ensures kept { self.new.kept ≡ self.old.kept }
    {
        self.handshake.freed();
        self.closing = false;
    }

    /// Whether both sides have heard of one another.
    pub(crate) fn is_up(&self) -> bool
        ensures { IsTrue result ↔ (self.now.handshake ≡ Up) }
    {
        self.handshake == Handshake::Up
    }

    /// Whether the queue is not registered.
    pub(crate) fn is_down(&self) -> bool
        ensures { IsTrue result ↔ (self.now.handshake ≡ Down) }
    {
        self.handshake == Handshake::Down
    }
}

/// The entry that a step of the initialisation sends.
pub(crate) fn reply_of(step: Step) -> Option<Entry>
    ensures may { IfSome result (λ entry. MayPut entry) }
    ensures plain { IfSome result (λ entry. IsPlain entry) }
    ensures reply { result ≡ step_entry step }
{
    step.entry()
}
