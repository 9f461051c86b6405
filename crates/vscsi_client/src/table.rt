// The table of a command's descriptors, which the client writes into its region.
ghost use Rattle.std.specs.Prelude.{◌≡◌};
ghost use Rattle.vscsi_client.specs.Sending.{is_same_table, is_tabled, table_of};

use crate::op::Op;

/// A table that was written: where it lies, the data that it names, and the line whose mark it has.
#[derive(Clone, Copy, Debug, PartialEq, Eq)]
pub struct Table {
    /// The address of the table in the region.
    pub address: u64,
    /// The address and the length of the data in bytes, and in how many pieces they are named.
    pub at: u64,
    pub len: u32,
    pub pieces: u16,
    pub line: u64,
}

impl Table {
    /// The table that a command has at this address.
    pub(crate) fn of(op: &Op, address: u64, line: u64) -> Table
        ensures { result ≡ table_of line op.now address }
    {
        Table {
            address,
            at: op.at,
            len: op.len,
            pieces: op.pieces,
            line,
        }
    }

    // Tells whether the two are one.
    fn is_same(self, other: Table) -> bool
        ensures { result ≡ is_same_table self other }
    {
        self.address == other.address
            && self.at == other.at
            && self.len == other.len
            && self.pieces == other.pieces
            && self.line == other.line
    }
}

/// Whether this table is the one that was written last.
pub(crate) fn is_tabled(written: Option<Table>, table: Table) -> bool
    ensures { result ≡ is_tabled written table }
{
    match written {
        None => false,
        Some(written) => written.is_same(table),
    }
}
