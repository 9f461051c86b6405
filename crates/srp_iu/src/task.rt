// Task management requests.
ghost use Rattle.std.specs.Prelude.{◌≡◌, ◌≤◌, length, slice_index};
ghost use Rattle.srp_iu.specs.Task.{SpellsTskMgmt, CanonTskMgmt};

use crate::layout::put;
use crate::unit::TSK_MGMT;
use arrayvec::ArrayVec;
use byteorder::{BigEndian, ByteOrder};

/// A task management request (SRP, "SRP_TSK_MGMT request"), 48 bytes.
#[derive(Clone, Copy, Debug, PartialEq, Eq)]
pub struct TskMgmt {
    /// The tag that its response carries.
    pub tag: u64,
    /// The logical unit number, bytes 20 to 27.
    pub lun: u64,
    /// The task management function, byte 30.
    pub function: u8,
    /// The tag of the task to be managed.
    pub task: u64,
}

impl TskMgmt {
    /// The request that these bytes are.
    pub(crate) fn read(bytes: &[u8]) -> Self
        requires kind { slice_index bytes.now 0 ≡ 0x01 }
        requires full { 48 ≤ length bytes.now }
        ensures { SpellsTskMgmt bytes.now result }
    {
        TskMgmt {
            tag: BigEndian::read_u64(&bytes[8..]),
            lun: BigEndian::read_u64(&bytes[20..]),
            function: bytes[30],
            task: BigEndian::read_u64(&bytes[32..]),
        }
    }

    /// The canonical bytes of a request.
    pub(crate) fn write(&self) -> ArrayVec<u8, 256>
        ensures { CanonTskMgmt result.items self.now }
    {
        let mut out = ArrayVec::new();
        put(&mut out, &[TSK_MGMT, 0, 0, 0, 0, 0, 0, 0]);
        put(&mut out, &self.tag.to_be_bytes());
        put(&mut out, &[0; 4]);
        put(&mut out, &self.lun.to_be_bytes());
        put(&mut out, &[0, 0, self.function, 0]);
        put(&mut out, &self.task.to_be_bytes());
        put(&mut out, &[0; 8]);
        out
    }
}
