// The rows that a port keeps, each with the session that it belongs to.
use arrayvec::ArrayVec;
use page_slots::StrokeName;
use tce_window::Piece;

/// A buffer that was posted.
#[derive(Clone, Copy, Debug, PartialEq, Eq)]
pub struct PostRow {
    /// The session, from 1.
    pub session: u64,
    /// The buffer's descriptor: its length and its address.
    pub descriptor: u64,
    /// What its receive entry says in the low half.
    pub correlator: u64,
}

/// A frame that took a buffer, or a buffer that was given back blank.
#[derive(Debug, PartialEq, Eq, Drop)]
pub struct DeliverRow {
    /// The session, from 1.
    pub session: u64,
    /// The number of the post in its session, from 0.
    pub post: u64,
    /// The sender, and its number of the frame.
    pub name: StrokeName,
    /// Whether the buffer was given back with no frame.
    pub blank: bool,
    /// The pieces to which the frame was written, each with the place of its stroke; of a blank
    /// none.
    pub to: ArrayVec<Piece, 17>,
}

/// A receive entry that was read.
#[derive(Clone, Copy, Debug, PartialEq, Eq)]
pub struct HarvestRow {
    /// The session, from 1.
    pub session: u64,
    /// The toggle, whether a frame came, its offset and its length.
    pub high: u64,
    /// The correlator.
    pub low: u64,
}
