// The pieces of the data of one direction.
ghost use Rattle.std.specs.Prelude.{◌≡◌, ◌≤◌, [], length};
ghost use Rattle.srp_desc.specs.declared.pieces.TheConstants.{MAX_DATA_LEN};
ghost use Rattle.srp_desc.specs.Pieces.{sum_of};

use arrayvec::ArrayVec;
use srp_iu::Desc;

/// The pieces that a command's buffer names, and the number of bytes that they have in all, at most 131,072.
#[derive(Debug, Drop)]
pub(crate) struct DataPieces {
    list: ArrayVec<Desc, 256>,
    total: u32,
    ghost summed: { sum_of list.items ≡ total },
    ghost small: { total ≤ MAX_DATA_LEN },
}

impl DataPieces {
    /// No piece.
    pub(crate) fn none() -> DataPieces
        ensures list { result.list.items ≡ [] }
        ensures total { result.total ≡ 0 }
    {
        DataPieces {
            list: ArrayVec::new(),
            total: 0,
        }
    }

    /// Holds no piece any more.
    pub(crate) fn clear(&mut self)
        ensures list { self.new.list.items ≡ [] }
        ensures total { self.new.total ≡ 0 }
    {
        self.list.clear();
        self.total = 0;
    }

    /// Holds these pieces in place of those of before.
    pub(crate) fn set(&mut self, list: &[Desc], total: u32)
        requires few { length list.now ≤ 256 }
        requires summed { sum_of list.now ≡ total }
        requires small { total ≤ MAX_DATA_LEN }
        ensures list { self.new.list.items ≡ list.now }
        ensures total { self.new.total ≡ total }
    {
        self.list.clear();
        match self.list.try_extend_from_slice(list) {
            Ok(()) => self.total = total,
            Err(_) => unreachable!(),
        }
    }

    /// The pieces, lent.
    pub(crate) fn as_slice(&self) -> &[Desc]
        ensures { result.now ≡ self.now.list.items }
    {
        &self.list
    }

    /// The number of their bytes.
    pub(crate) fn total(&self) -> u32
        ensures total { result ≡ self.now.total }
        ensures small { result ≤ MAX_DATA_LEN }
    {
        self.total
    }
}
