// The rows of what LAN ports do: frames and what became of them, sessions of ports, the buffers that
// were posted, filled and harvested.
use crate::window_rows::PieceRow;
use vio_num::{Bytes, Hrc, Sequence, UnitId};

/// A frame that was sent (LoPAR, "H_SEND_LOGICAL_LAN").
#[derive(Debug, Drop)]
pub struct FrameRow {
    /// The sender.
    pub unit: UnitId,
    /// The frame's number among those of its sender, from 1.
    pub number: u64,
    /// The code of its call.
    pub code: Hrc,
    /// The pieces that were read, in the order of the descriptors.
    pub from: Sequence<PieceRow>,
    /// The frame's bytes.
    pub bytes: Bytes,
    /// The ports that it was offered to, in their order.
    pub offers: Sequence<OfferRow>,
}

/// A port that a frame was offered to.
#[derive(Clone, Copy, Debug, PartialEq, Eq)]
pub struct OfferRow {
    /// The frame's sender.
    pub unit: UnitId,
    /// The frame's number.
    pub number: u64,
    /// The port's unit.
    pub port: UnitId,
    /// What became of the frame there.
    pub offered: Offered,
}

/// What became of a frame at a port that it was offered to.
#[derive(Clone, Copy, Debug, PartialEq, Eq)]
pub enum Offered {
    /// It was written to a buffer.
    Done,
    /// The buffer is not granted for writing. It was given back blank, and the frame dropped.
    Ungranted,
    /// No buffer was posted that is long enough. The frame was dropped.
    NoSize,
    /// Each buffer that is long enough was taken. The frame was dropped.
    NoBuffer,
    /// Another sender had the port's turn.
    Turn,
    /// A page of the buffer was in use.
    InUse,
    /// The port was closed.
    Closed,
}

/// A session of a unit's port.
#[derive(Clone, Copy, Debug, PartialEq, Eq)]
pub struct PortRow {
    /// The port's unit.
    pub unit: UnitId,
    /// The session, from 1.
    pub session: u64,
    /// The slots of the receive queue.
    pub slots: u32,
    /// The number of frames that were dropped.
    pub drops: u64,
}

/// A buffer that was posted (LoPAR, "H_ADD_LOGICAL_LAN_BUFFER").
#[derive(Clone, Copy, Debug, PartialEq, Eq)]
pub struct PostRow {
    /// The port's unit.
    pub unit: UnitId,
    /// The session, from 1.
    pub session: u64,
    /// The post's number in its session, from 0.
    pub number: u64,
    /// The buffer's descriptor: its length and its address.
    pub descriptor: u64,
    /// What its receive entry says in the low half.
    pub correlator: u64,
}

/// A frame that took a buffer, or a buffer that was given back blank.
#[derive(Debug, Drop)]
pub struct DeliverRow {
    /// The port's unit.
    pub unit: UnitId,
    /// The session, from 1.
    pub session: u64,
    /// The number of the post in its session, from 0.
    pub post: u64,
    /// The sender.
    pub sender: UnitId,
    /// The frame's number among those of its sender, from 1.
    pub frame: u64,
    /// How the buffer was given back.
    pub filled: Filled,
    /// The pieces to which the frame was written, each with the place of its stroke.
    pub to: Sequence<PieceRow>,
}

/// How a buffer was given back to a port's owner.
#[derive(Clone, Copy, Debug, PartialEq, Eq)]
pub enum Filled {
    /// With a frame.
    Frame,
    /// With none.
    Blank,
}

/// A receive entry that was taken.
#[derive(Clone, Copy, Debug, PartialEq, Eq)]
pub struct HarvestRow {
    /// The port's unit.
    pub unit: UnitId,
    /// The session, from 1.
    pub session: u64,
    /// The toggle, whether a frame came, its offset and its length.
    pub high: u64,
    /// The correlator.
    pub low: u64,
}
