// A command as its caller names it.
ghost use Rattle.std.specs.Prelude.{◌≡◌, ◌+◌, ◌*◌, ◌<◌, ◌≤◌, ◌^◌, ◌++◌, None, length};
ghost use Rattle.srp_desc.specs.declared.pieces.TheConstants.{MAX_TABLE_LEN};
ghost use Rattle.arrayvec.specs.ArrayVec.{array_vec_len};
ghost use Rattle.vscsi_client.specs.declared.row.Row.TheVariants as rows;
ghost use Rattle.vscsi_client.specs.Spans.{in_range, op_in_range, table_in_range, data_span, table_span, span_of};
ghost use Rattle.vscsi_client.specs.Units.{IsCommand, IsBuffer, piece_of, pieces, table_bytes, FitsData, FitsOp, InLow};
ghost use Rattle.srp_iu.specs.Buffer.{written_len};
ghost use Rattle.srp_iu.specs.Command.{FitsCmd};

use crate::DATA_START;
use crate::outgoing::Span;
use crate::row::Row;
use arrayvec::ArrayVec;
use srp_iu::{Buffer, Cmd, Desc};
use vio_num::PAGE_BYTES;

/// The bytes of a descriptor.
const DESC_LEN: u32 = 16;

/// The direction of a command's data.
#[derive(Clone, Copy, Debug, PartialEq, Eq)]
pub enum Dir {
    Neither,
    In,
    Out,
}

/// A command: its descriptor block, and where its data lie in the region.
#[derive(Clone, Copy, Debug, PartialEq, Eq)]
pub struct Op {
    pub cdb: [u8; 16],
    pub dir: Dir,
    /// The address of the data in the region.
    pub at: u64,
    /// Their length in bytes: 1 to 131,072, or 0 where there are none.
    pub len: u32,
    /// The number of pieces in which they are named: 1 to 11, with a table 1 to 256, and at most `len`; 0 where
    /// there are no data.
    pub pieces: u16,
    /// The address of the region at which the driver writes the table of the pieces. Without one, one piece is
    /// a direct descriptor, and more stand in the information unit.
    pub table: Option<u64>,
}

// Tells whether a range lies in the part of a region of so many pages that is for data.
fn in_range(pages: u16, at: u64, len: u32) -> bool
    ensures { result ≡ in_range pages at len }
{
    let end = u64::from(pages) * PAGE_BYTES;
    at >= DATA_START && at <= end && u64::from(len) <= end - at
}

// Finds the pages of a range.
fn span_of(at: u64, len: u32) -> Span
    ensures { result ≡ span_of at len }
{
    Span {
        first: at / PAGE_BYTES,
        end: at / PAGE_BYTES + (at % PAGE_BYTES + u64::from(len)).div_ceil(PAGE_BYTES),
    }
}

// Tells whether a table lies in that part of the region, where there is one.
fn table_in_range(pages: u16, table: Option<u64>, count: u16) -> bool
    ensures { result ≡ table_in_range pages table count }
{
    match table {
        None => true,
        Some(at) => in_range(pages, at, DESC_LEN * u32::from(count)),
    }
}

impl Op {
    /// Whether the data and the table lie in a region of so many pages, where there are any.
    pub(crate) fn in_range(&self, pages: u16) -> bool
        ensures { result ≡ op_in_range pages self.now }
    {
        let data = match self.dir {
            Dir::Neither => true,
            Dir::In | Dir::Out => in_range(pages, self.at, self.len),
        };
        data && table_in_range(pages, self.table, self.pieces)
    }

    /// The pages of the data.
    pub(crate) fn data_span(&self) -> Span
        ensures { result ≡ data_span self.now }
    {
        match self.dir {
            Dir::Neither => Span { first: 0, end: 0 },
            Dir::In | Dir::Out => span_of(self.at, self.len),
        }
    }

    /// The pages of the table.
    pub(crate) fn table_span(&self) -> Span
        ensures { result ≡ table_span self.now }
    {
        match self.table {
            None => Span { first: 0, end: 0 },
            Some(at) => span_of(at, DESC_LEN * u32::from(self.pieces)),
        }
    }

    /// The command under this tag.
    pub(crate) fn command(&self, tag: u64) -> Cmd
        requires fits { FitsOp self.now }
        requires low { InLow self.now }
        ensures is { IsCommand tag self.now result }
        ensures fits { FitsCmd result }
    {
        let (out, inn) = match self.dir {
            Dir::Neither => (Buffer::Absent, Buffer::Absent),
            Dir::In => (Buffer::Absent, self.buffer()),
            Dir::Out => (self.buffer(), Buffer::Absent),
        };
        Cmd {
            tag,
            lun: 0,
            attribute: 0,
            cdb: self.cdb,
            more: ArrayVec::new(),
            out,
            inn,
        }
    }

    /// The row of a command's tag, which is not answered yet.
    pub(crate) fn row(&self) -> Row
        ensures { result ≡ rows.Command self.now.dir self.now.at self.now.len None }
    {
        Row::Command {
            dir: self.dir,
            at: self.at,
            len: self.len,
            said: None,
        }
    }

    // Names the data as a buffer of a command.
    fn buffer(&self) -> Buffer
        requires fits { FitsData self.now }
        requires inside { self.now.at + self.now.len ≤ 2 ^ 32 }
        ensures is { IsBuffer self.now result }
        ensures short { written_len result ≤ 196 }
    {
        let len = DESC_LEN * u32::from(self.pieces);
        match self.table {
            Some(at) => Buffer::Indirect {
                table: Desc {
                    address: at,
                    key: 0,
                    len,
                },
                total: self.len,
                list: ArrayVec::new(),
            },
            None if self.pieces == 1 => Buffer::Direct(self.piece(0)),
            None => Buffer::Indirect {
                table: Desc {
                    address: 0,
                    key: 0,
                    len,
                },
                total: self.len,
                list: self.pieces(),
            },
        }
    }

    // Names the i-th piece of the data.
    fn piece(&self, i: u16) -> Desc
        requires fits { FitsData self.now }
        requires below { i < self.now.pieces }
        requires inside { self.now.at + self.now.len ≤ 2 ^ 32 }
        ensures { result ≡ piece_of self.now i }
    {
        let each = self.len / u32::from(self.pieces);
        let before = each * u32::from(i);
        Desc {
            address: self.at + u64::from(before),
            key: 0,
            len: if i + 1 == self.pieces {
                self.len - before
            } else {
                each
            },
        }
    }

    // Names all pieces, of which there are few.
    fn pieces(&self) -> ArrayVec<Desc, 11>
        requires fits { FitsData self.now }
        requires few { self.now.pieces ≤ 11 }
        requires inside { self.now.at + self.now.len ≤ 2 ^ 32 }
        ensures { result.items ≡ pieces self.now self.now.pieces }
    {
        let mut list = ArrayVec::new();
        for i in 0..self.pieces {
            list.push(self.piece(i));
        }
        list
    }

    /// The bytes of the table: the descriptors of the pieces, 16 bytes each.
    pub(crate) fn table_bytes(&self) -> ArrayVec<u8, 4096>
        requires fits { FitsData self.now }
        requires few { self.now.pieces ≤ 256 }
        requires inside { self.now.at + self.now.len ≤ 2 ^ 32 }
        ensures bytes { result.items ≡ table_bytes self.now self.now.pieces }
        ensures long { length result.items ≡ 16 * self.now.pieces }
    {
        let mut bytes = ArrayVec::new();
        for i in 0..self.pieces {
            put(&mut bytes, &self.piece(i).to_bytes());
        }
        bytes
    }
}

// Writes bytes behind those of a table, which are at most 4,096.
fn put(table: &mut ArrayVec<u8, 4096>, bytes: &[u8])
    requires { array_vec_len table.old + length bytes.now ≤ MAX_TABLE_LEN }
    ensures { table.new.items ≡ table.old.items ++ bytes.now }
{
    match table.try_extend_from_slice(bytes) {
        Ok(()) => {}
        Err(_) => unreachable!(),
    }
}
