// A part of a held range that lies in one entry.
ghost use Rattle.std.specs.Prelude.{◌≡◌, ◌+◌, ◌≤◌};
ghost use Rattle.vio_num.specs.declared.TheConstants.{PAGE_BYTES};

use vio_num::UnitId;

/// The bytes of the longest range that is held, read or written at once.
pub const MOST_BYTES: u64 = 65_536;

/// As many entries as a range of at most `MOST_BYTES` touches.
pub const MOST_PIECES: usize = 17;

/// A part of a held range that lies in one entry: it ends at byte 4,096 of its page at most.
#[derive(Clone, Copy, Debug, PartialEq, Eq)]
pub struct Piece {
    /// The unit whose window it is.
    pub unit: UnitId,
    /// The entry, from 0.
    pub entry: u16,
    /// The version of the entry's value, from 0.
    pub version: u32,
    /// The page of the unit's region that the value names.
    pub page: u16,
    /// The place of the first byte in the page.
    pub offset: u16,
    /// The number of bytes, 1 to 4,096.
    pub len: u16,
    /// The number of strokes on the page as it was taken; after a write, the index of the piece's stroke.
    pub at: u32,
    ghost inside: { offset + len ≤ PAGE_BYTES },
}

impl Piece {
    /// Gives the piece a place among the strokes of its page.
    pub fn set_place(&mut self, at: u32)
        ensures { self.new ≡ record self.old { at = at } }
    {
        self.at = at;
    }
}

impl Default for Piece {
    fn default() -> Self {
        Piece {
            unit: UnitId {
                partition: 0,
                unit: 0,
            },
            entry: 0,
            version: 0,
            page: 0,
            offset: 0,
            len: 0,
            at: 0,
        }
    }
}
