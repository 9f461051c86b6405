// The rows of a trace. A row has the words of its line as fields, in their order; a word that counts
// the lines of a list is that list's length.
use crate::lan_rows::{DeliverRow, FrameRow, HarvestRow, PortRow, PostRow};
use crate::outcome::Outcome;
use crate::window_rows::{CopyRow, StrokeRow, TceValueRow};
use vio_num::{Bytes, Entry, Grant, Sequence, Served, UnitId};

/// What a run did. The lists stand in the order of the text's sections.
#[derive(Debug, Drop)]
pub struct Trace {
    /// The ended script lines, by partition and line.
    pub logs: Sequence<LogRow>,
    /// The sessions of the units' queues, by unit and session.
    pub queues: Sequence<QueueRow>,
    /// The logins that were granted and that ended, in order of time.
    pub grants: Sequence<Grant>,
    /// The requests that the server units served, in order of time.
    pub serves: Sequence<Served>,
    /// The answers that the clients took, by unit and time.
    pub answers: Sequence<AnswerRow>,
    /// The frames that were sent, by sender and number.
    pub frames: Sequence<FrameRow>,
    /// The sessions of the units' ports, by unit and session.
    pub ports: Sequence<PortRow>,
    /// The buffers that were posted, by unit, session and number.
    pub posts: Sequence<PostRow>,
    /// The buffers that were given back, by unit, session and time.
    pub delivers: Sequence<DeliverRow>,
    /// The receive entries that were taken, by unit, session and time.
    pub harvests: Sequence<HarvestRow>,
    /// The values that were put into the entries of the units' windows, by unit, entry and version.
    pub tces: Sequence<TceValueRow>,
    /// The copies between windows, by copier and time.
    pub copies: Sequence<CopyRow>,
    /// The strokes on the units' pages, by unit, page and place.
    pub strokes: Sequence<StrokeRow>,
}

/// A script line that ended.
#[derive(Debug, Drop)]
pub struct LogRow {
    /// The partition whose script it is.
    pub partition: u8,
    /// The line's number in the boot text, from 1.
    pub line: u32,
    /// How it ended.
    pub outcome: Outcome,
}

/// A session of a unit's command/response queue.
#[derive(Debug, Drop)]
pub struct QueueRow {
    /// The unit that polls the queue.
    pub unit: UnitId,
    /// The session, from 1.
    pub session: u64,
    /// The slots of the queue.
    pub slots: u32,
    /// The entries that were put, in their order.
    pub sent: Sequence<Entry>,
    /// The entries that were taken, in their order.
    pub taken: Sequence<Entry>,
    /// The entries that found every slot full, in their order.
    pub drops: Sequence<DropRow>,
}

/// An entry that found every slot of its queue full.
#[derive(Clone, Copy, Debug, PartialEq, Eq)]
pub struct DropRow {
    /// The place that the entry would have had in its session, from 0.
    pub number: u64,
    /// The high half of the entry that lay in its slot.
    pub held: u64,
}

/// An answer that a client took.
#[derive(Debug, Drop)]
pub struct AnswerRow {
    /// The client unit.
    pub unit: UnitId,
    /// The last session of the client's queue when the answer was taken.
    pub session: u64,
    /// The tag of the command or task that is answered.
    pub tag: u64,
    /// The answer's information unit in its canonical bytes.
    pub answer: Bytes,
}
