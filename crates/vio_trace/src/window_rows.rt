// The rows of what windows and their pages keep: values of entries, copies, strokes.
use vio_num::{Bytes, Sequence, UnitId};

/// A value that was put into an entry of a unit's window (LoPAR, "Translation Control Entry").
#[derive(Clone, Copy, Debug, PartialEq, Eq)]
pub struct TceValueRow {
    /// The unit whose window it is.
    pub unit: UnitId,
    /// The entry, from 0.
    pub entry: u16,
    /// The value's place among the entry's values; 0 is the one with which the window began.
    pub version: u32,
    /// The value.
    pub value: u64,
}

/// A copy between two windows that was made (LoPAR, "H_COPY_RDMA").
#[derive(Debug, Drop)]
pub struct CopyRow {
    /// The copier.
    pub unit: UnitId,
    /// The copier's mark of it.
    pub mark: u64,
    /// The number of bytes.
    pub len: u32,
    /// The pieces that were read, in the order of their addresses.
    pub from: Sequence<PieceRow>,
    /// The pieces that were written, in the order of their addresses.
    pub to: Sequence<PieceRow>,
}

/// A piece of a range that was read or written.
#[derive(Clone, Copy, Debug, PartialEq, Eq)]
pub struct PieceRow {
    /// The unit whose window it is.
    pub unit: UnitId,
    /// The entry, from 0.
    pub entry: u16,
    /// The version of the entry's value.
    pub version: u32,
    /// The page of the unit's region that the value names.
    pub page: u16,
    /// The place of the first byte in the page.
    pub offset: u16,
    /// The number of bytes.
    pub len: u16,
    /// Of a piece that was read, the number of strokes that lay on the page; of one that was
    /// written, the place of its stroke.
    pub at: u32,
}

/// A write to a page.
#[derive(Debug, Drop)]
pub struct StrokeRow {
    /// The unit whose page it is.
    pub unit: UnitId,
    /// The page of the unit's region, from 0.
    pub page: u16,
    /// The stroke's place among those of the page, from 0.
    pub place: u32,
    /// The unit that wrote.
    pub writer: UnitId,
    /// The writer's mark of it.
    pub mark: u64,
    /// The place of the first byte in the page.
    pub offset: u16,
    /// The bytes that were written.
    pub bytes: Bytes,
}
