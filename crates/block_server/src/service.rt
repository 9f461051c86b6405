// The request that is in service, and how far its service has come.
ghost use Rattle.std.specs.Prelude.{◌≡◌, ◌+◌, ◌≤◌, [], ◌++◌, true, OnErr, OnOk, length, take, vec_len, vec_capacity};
ghost use Rattle.srp_desc.specs.declared.pieces.TheConstants.{MAX_DATA_LEN};
ghost use Rattle.block_server.specs.Stage.{fits, has_answer, how_far, is_answered, is_before_step};

use crate::cursor::Cursor;
use crate::data_pieces::DataPieces;
use block_disk::ScsiReply;
use std::alloc::Global;
use std::mem;
use vio_num::{Bytes, NoMemory};

/// What the answer to a request does once its entry is put.
#[derive(Clone, Copy, Debug, PartialEq, Eq)]
pub(crate) enum Outcome {
    /// A login begins, for the request whose entry has this place in its session.
    Granted { number: u64 },
    /// A login was rejected.
    Rejected,
    /// The row of this place in the history has its answer.
    Served { row: usize },
}

/// How far the service of a request has come.
#[derive(Clone, Copy, Debug, PartialEq, Eq)]
pub(crate) enum Stage {
    /// It has not begun.
    Start,
    /// The descriptors were judged; the table of data-out is next, if it is to be fetched.
    OutTable,
    /// The table of data-in is next, if it is to be fetched.
    InTable,
    /// Data-out are copied from the client.
    DataOut(Cursor),
    /// The disk step was made, and its data-in are to be written to the unit's region.
    Given {
        row: usize,
        reply: ScsiReply,
    },
    /// Data-in are copied to the client.
    DataIn {
        row: usize,
        reply: ScsiReply,
        cursor: Cursor,
    },
    /// The answer is to be copied over the request.
    Answer(Outcome),
    /// The answer's entry is to be put.
    Entry(Outcome),
}

impl Stage {
    /// Whether the disk step of a command is still to be made.
    pub(crate) fn is_before_step(self) -> bool
        ensures { result ≡ is_before_step self }
    {
        match self {
            Stage::Start => true,
            Stage::OutTable => true,
            Stage::InTable => true,
            Stage::DataOut(_) => true,
            _ => false,
        }
    }

    /// Whether the answer is to be copied, or its entry to be put.
    pub(crate) fn is_answered(self) -> bool
        ensures { result ≡ is_answered self }
    {
        match self {
            Stage::Answer(_) => true,
            Stage::Entry(_) => true,
            _ => false,
        }
    }

    /// How far the service has come: the number of its stage, and the bytes that its copies of data moved there.
    pub(crate) fn how_far(self) -> (u8, u32)
        ensures { result ≡ how_far self }
    {
        match self {
            Stage::Start => (0, 0),
            Stage::OutTable => (1, 0),
            Stage::InTable => (2, 0),
            Stage::DataOut(cursor) => (3, cursor.done()),
            Stage::Given { .. } => (4, 0),
            Stage::DataIn { cursor, .. } => (5, cursor.done()),
            Stage::Answer(_) => (6, 0),
            Stage::Entry(_) => (7, 0),
        }
    }
}

/// The service of the oldest request.
#[derive(Debug, Drop)]
pub(crate) struct Service {
    alloc: Global,
    pub(crate) stage: Stage,
    /// The pieces of data-out and of data-in, as far as they are known.
    pub(crate) out: DataPieces,
    pub(crate) inn: DataPieces,
    /// The data-in that the disk step gave, as much as the buffer takes.
    pub(crate) given: Vec<u8>,
    /// The information unit of the answer.
    pub(crate) answer: Vec<u8>,
    ghost few: { length given.items ≤ MAX_DATA_LEN },
    ghost answered: { has_answer stage (length answer.items) ≡ true },
}

impl Service {
    ghost use Rattle.block_server.specs.Service.{IsReset};
    ghost use Rattle.srp_desc.specs.declared.pieces.TheConstants.{MAX_DATA_LEN};

    /// No service has begun.
    pub(crate) fn idle(alloc: Global) -> Service
        ensures { IsReset result }
    {
        Service {
            alloc,
            stage: Stage::Start,
            out: DataPieces::none(),
            inn: DataPieces::none(),
            given: Vec::new(alloc),
            answer: Vec::new(alloc),
        }
    }

    /// No service has begun.
    pub(crate) fn reset(&mut self)
        ensures { IsReset self.new }
    {
        self.stage = Stage::Start;
        self.out.clear();
        self.inn.clear();
        self.given.clear();
        self.answer.clear();
    }

    /// Keeps the information unit of the answer, which is then to be copied over the request.
    pub(crate) fn set_answer(&mut self, unit: &[u8], outcome: Outcome) -> Result<(), NoMemory>
        requires { fits outcome (length unit.now) ≡ true }
        ensures stage { OnOk result (self.new.stage ≡ Stage.Answer outcome) }
        ensures answer { OnOk result (self.new.answer.items ≡ unit.now) }
        ensures err { OnErr result (self.new.stage ≡ self.old.stage) }
        ensures same { OnErr result (self.new.answer.items ≡ self.old.answer.items) }
        ensures out { self.new.out ≡ self.old.out }
        ensures inn { self.new.inn ≡ self.old.inn }
        ensures given { self.new.given ≡ self.old.given }
    {
        self.answer = Vec::from_slice(self.alloc, unit)?;
        self.stage = Stage::Answer(outcome);
        Ok(())
    }

    /// Makes room for so many bytes of data-in.
    pub(crate) fn make_room(&mut self, len: u32) -> Result<(), NoMemory>
        ensures none { self.new.given.items ≡ [] }
        ensures empty { vec_len self.new.given ≡ 0 }
        ensures room { OnOk result (len ≤ vec_capacity self.new.given) }
        ensures stage { self.new.stage ≡ self.old.stage }
        ensures out { self.new.out ≡ self.old.out }
        ensures inn { self.new.inn ≡ self.old.inn }
        ensures answer { self.new.answer ≡ self.old.answer }
    {
        self.given.clear();
        self.given.reserve(len as usize)?;
        Ok(())
    }

    /// Keeps the data-in that a disk step gave, for which there is room.
    pub(crate) fn keep(&mut self, given: &[u8])
        requires empty { vec_len self.old.given ≡ 0 }
        requires room { length given.now ≤ vec_capacity self.old.given }
        requires few { length given.now ≤ MAX_DATA_LEN }
        ensures given { self.new.given.items ≡ self.old.given.items ++ given.now }
        ensures stage { self.new.stage ≡ self.old.stage }
        ensures out { self.new.out ≡ self.old.out }
        ensures inn { self.new.inn ≡ self.old.inn }
        ensures answer { self.new.answer ≡ self.old.answer }
    {
        match self.given.extend_from_slice(given) {
            Ok(()) => {}
            Err(_) => unreachable!(),
        }
    }

    /// Takes the information unit of the answer, whose service is over.
    pub(crate) fn take_answer(&mut self) -> Bytes
        ensures answer { result ≡ self.old.answer.items }
        ensures stage { self.new.stage ≡ Stage.Start }
    {
        self.stage = Stage::Start;
        Bytes::from(mem::replace(&mut self.answer, Vec::new(self.alloc)))
    }

    /// Takes the first bytes of the data-in that were given.
    pub(crate) fn take_given(&mut self, len: u32) -> Bytes
        ensures given { result ≡ take len self.old.given.items }
        ensures none { self.new.given.items ≡ [] }
        ensures stage { self.new.stage ≡ self.old.stage }
        ensures out { self.new.out ≡ self.old.out }
        ensures inn { self.new.inn ≡ self.old.inn }
        ensures answer { self.new.answer ≡ self.old.answer }
    {
        self.given.truncate(len as usize);
        Bytes::from(mem::replace(&mut self.given, Vec::new(self.alloc)))
    }
}
