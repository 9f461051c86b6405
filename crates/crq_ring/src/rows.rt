// The rows that a pipe keeps, each with the session that it belongs to.
use vio_num::Entry;

/// An entry that was put or taken.
#[derive(Clone, Copy, Debug, PartialEq, Eq)]
pub struct PipeRow {
    /// The session, from 1.
    pub session: u64,
    pub entry: Entry,
}

/// An entry that found its slot full.
#[derive(Clone, Copy, Debug, PartialEq, Eq)]
pub struct DropRow {
    /// The session, from 1.
    pub session: u64,
    /// The place that the entry would have had in its session, from 0.
    pub number: u64,
    /// The high half of the entry that lay in its slot.
    pub held: u64,
}
