// What each tag was used for.
ghost use Rattle.std.specs.Prelude.{◌≡◌, ◌≤◌, length, None, Some, MatchOption};
ghost use Rattle.vscsi_client.specs.Taking.{row_answered, answered};
ghost use Rattle.vscsi_client.specs.Transferred.{transferred, data_of_row};

use crate::op::Dir;
use srp_iu::{DIUNDER, RSPVALID, Rsp};

/// What a response says of its command's data-in.
#[derive(Clone, Copy, Debug, PartialEq, Eq)]
pub struct DataIn {
    /// The flags of the response (SRP, "SRP_RSP response", byte 18).
    pub flags: u8,
    /// The bytes of data-in that were left over, or that were lacking.
    pub in_residual: u32,
}

/// What a tag was used for.
#[derive(Clone, Copy, Debug, PartialEq, Eq)]
pub enum Row {
    Login,
    Logout,
    Task,
    /// A command with data at this address of the region, of this length in bytes, and what its response said
    /// of them once it was taken.
    Command {
        dir: Dir,
        at: u64,
        len: u32,
        said: Option<DataIn>,
    },
}

/// Where data lie: an address of the region, and a length in bytes.
#[derive(Clone, Copy, Debug, PartialEq, Eq)]
pub(crate) struct Extent {
    pub at: u64,
    pub len: u32,
}

impl DataIn {
    // Tells how many of so many bytes were transferred.
    fn transferred(self, len: u32) -> u32
        ensures { result ≡ transferred len self }
    {
        if self.flags & RSPVALID != 0 || self.flags & DIUNDER == 0 {
            len
        } else {
            len.saturating_sub(self.in_residual)
        }
    }
}

impl Row {
    /// The row with what a response said of its data-in.
    pub(crate) fn answered(self, rsp: &Rsp) -> Row
        ensures { result ≡ row_answered rsp.now self }
    {
        match self {
            Row::Command {
                dir,
                at,
                len,
                said: _,
            } => Row::Command {
                dir,
                at,
                len,
                said: Some(DataIn {
                    flags: rsp.flags,
                    in_residual: rsp.in_residual,
                }),
            },
            Row::Login => Row::Login,
            Row::Logout => Row::Logout,
            Row::Task => Row::Task,
        }
    }

    /// Where the data lie, if it is of a command with data-in that was answered.
    pub(crate) fn extent(self) -> Option<Extent>
        ensures { MatchOption result (data_of_row self ≡ None)
            (λ e. data_of_row self ≡ Some (record { at = e.at; len = e.len })) }
    {
        match self {
            Row::Command {
                dir: Dir::In,
                at,
                len,
                said: Some(said),
            } => Some(Extent {
                at,
                len: said.transferred(len),
            }),
            _ => None,
        }
    }
}

/// Notes in the row of a tag what a response said of its data-in.
pub(crate) fn answer_row(rows: &mut Vec<Row>, tag: u64, rsp: &Rsp)
    requires low { 1 ≤ tag }
    requires high { tag ≤ length rows.old.items }
    ensures { rows.new.items ≡ answered tag rsp.now rows.old.items }
{
    let at = (tag - 1) as usize;
    rows[at] = rows[at].answered(rsp);
}
