// Giving the data-in of a command that was answered.
ghost use Rattle.std.specs.Prelude.{◌≡◌, ◌↔◌, ◌+◌, ◌*◌, ◌<◌, ◌≤◌, ◌^◌, None, Some, IfOk, IfErr, IfSome, IsErrOf, IsTrue, OnOk, MatchOption, length};
ghost use Rattle.vio_num.specs.declared.TheConstants.{PAGE_BYTES};
ghost use Rattle.srp_desc.specs.declared.pieces.TheConstants.{MAX_DATA_LEN};
ghost use Rattle.tce_window.specs.PortState.{OnlyReads, contains};
ghost use Rattle.vscsi_client.specs.Transferred.{data_range, name_of, FitRows, GivesData, ReadsBoth, ReadsNamed, WhyNoData, WhyNotPart, WhyNotRead};

use crate::PART_BYTES;
use crate::answers::DataFault;
use crate::client::Client;
use crate::row::Extent;
use page_slots::StrokeName;
use tce_window::{NamedFault, OwnerPort};
use vio_num::Bytes;

impl Client {
    // Finds where the data of a tag lie, if a response to a command with data-in was taken under it.
    fn extent(&self, tag: u64) -> Option<Extent>
        ensures { MatchOption result (data_range self.now tag ≡ None)
            (λ e. data_range self.now tag ≡ Some (record { at = e.at; len = e.len })) }
    {
        if tag == 0 {
            return None;
        }
        match self.rows.get((tag - 1) as usize) {
            Some(row) => row.extent(),
            None => None,
        }
    }

    /// The data-in of a command that was answered, as far as the response says that they were transferred. They are
    /// read in parts of at most 65,536 bytes, if the last strokes on each page are the server's of that tag. Of a
    /// command without a byte of data no page is looked at.
    pub fn data_of<O: OwnerPort>(&mut self, own: &mut O, tag: u64) -> Result<Bytes, DataFault>
        requires rows { FitRows (O.state own.old).place.size self.old }
        ensures unknown { IsErrOf result DataFault.Unknown ↔ (data_range self.old tag ≡ None) }
        ensures given { IfOk result (λ bytes. IfSome (data_range self.old tag) (λ range.
            GivesData (name_of self.old tag) O.is_shared range
            (O.state own.old) (O.state own.new) bytes)) }
        ensures why { IfErr result (WhyNoData (name_of self.old tag) O.is_shared
            (data_range self.old tag) (O.state own.old) (O.state own.new)) }
        ensures same { self.new ≡ self.old }
        ensures rest { OnlyReads O.is_shared (O.state own.old) (O.state own.new) }
    {
        let Some(extent) = self.extent(tag) else {
            return Err(DataFault::Unknown);
        };
        let name = StrokeName {
            who: self.server,
            mark: tag,
        };
        let Ok(mut bytes) = vec![in self.alloc; 0u8; extent.len as usize] else {
            return Err(DataFault::NoMemory);
        };
        match read_data(own, extent.at, &mut bytes, name) {
            Ok(()) => Ok(Bytes::from(bytes)),
            Err(fault) => Err(fault),
        }
    }
}

// Reads a range that one name wrote last, in parts.
fn read_data<O: OwnerPort>(
    own: &mut O,
    at: u64,
    bytes: &mut [u8],
    name: StrokeName,
) -> Result<(), DataFault>
    requires inside { at + length bytes.old ≤ PAGE_BYTES * (O.state own.old).place.size }
    requires low { at + length bytes.old ≤ 2 ^ 32 }
    requires few { length bytes.old ≤ MAX_DATA_LEN }
    ensures given { OnOk result (GivesData name O.is_shared
        (record { at = at; len = length bytes.old }) (O.state own.old) (O.state own.new) bytes.new) }
    ensures why { IfErr result (WhyNotRead name O.is_shared
        (record { at = at; len = length bytes.old }) (O.state own.old) (O.state own.new)) }
    ensures rest { OnlyReads O.is_shared (O.state own.old) (O.state own.new) }
{
    if bytes.is_empty() {
        return Ok(());
    }
    if bytes.len() <= PART_BYTES as usize {
        return read_part(own, at, bytes, name);
    }
    read_both(own, at, bytes, name)
}

// Reads a range of two parts.
fn read_both<O: OwnerPort>(
    own: &mut O,
    at: u64,
    bytes: &mut [u8],
    name: StrokeName,
) -> Result<(), DataFault>
    requires inside { at + length bytes.old ≤ PAGE_BYTES * (O.state own.old).place.size }
    requires low { at + length bytes.old ≤ 2 ^ 32 }
    requires few { length bytes.old ≤ MAX_DATA_LEN }
    requires many { PART_BYTES < length bytes.old }
    ensures given { OnOk result (ReadsBoth name O.is_shared
        (record { at = at; len = length bytes.old }) (O.state own.old) (O.state own.new) bytes.new) }
    ensures why { IfErr result (WhyNotRead name O.is_shared
        (record { at = at; len = length bytes.old }) (O.state own.old) (O.state own.new)) }
    ensures rest { OnlyReads O.is_shared (O.state own.old) (O.state own.new) }
{
    let (first, second) = bytes.split_at_mut(PART_BYTES as usize);
    match read_part(own, at, first, name) {
        Ok(()) => {}
        Err(fault) => return Err(fault),
    }
    read_part(own, at + u64::from(PART_BYTES), second, name)
}

// Reads a range of 1 to 65,536 bytes.
fn read_part<O: OwnerPort>(
    own: &mut O,
    at: u64,
    out: &mut [u8],
    name: StrokeName,
) -> Result<(), DataFault>
    requires inside { IsTrue (contains (O.state own.old) at (length out.old)) }
    ensures read { OnOk result (ReadsNamed name at (length out.old) (O.state own.new) out.new) }
    ensures why { IfErr result (WhyNotPart name O.is_shared at (length out.old)
        (O.state own.old) (O.state own.new)) }
    ensures rest { OnlyReads O.is_shared (O.state own.old) (O.state own.new) }
{
    match own.read_named(at, out, name) {
        Ok(()) => Ok(()),
        Err(NamedFault::Range) => unreachable!(),
        Err(NamedFault::InUse { page, word }) => Err(DataFault::InUse { page, word }),
        Err(NamedFault::Stale { page, found: _ }) => Err(DataFault::Stale { page }),
    }
}
