// Reads a command descriptor block: which command it is, and why it is refused before any block
// moves.
ghost use Rattle.std.specs.Prelude.{◌≡◌, false, None, Some, IfOk, IfErr};
ghost use Rattle.block_disk.specs.Cdb.{command_of, range_command, is_bad_field, is_too_long, is_disk_unit, is_answered, refusal, field, short_address, short_length};

use byteorder::{BigEndian, ByteOrder};

/// A command of the disk. Blocks have 512 bytes; a maximum cuts the data that is given.
#[derive(Clone, Copy, Debug, PartialEq, Eq)]
pub enum DiskOp {
    /// TEST UNIT READY.
    Ready,
    /// INQUIRY, of the standard data.
    Inquiry { max: u32 },
    /// READ CAPACITY(10).
    Capacity10,
    /// READ CAPACITY(16).
    Capacity16 { max: u32 },
    /// REPORT LUNS.
    Luns { max: u32 },
    /// READ(6), READ(10), READ(16).
    Read { lba: u64, blocks: u32 },
    /// WRITE(6), WRITE(10), WRITE(16).
    Write { lba: u64, blocks: u32 },
    /// SYNCHRONIZE CACHE(10); 0 blocks are those up to the end.
    Sync { lba: u64, blocks: u32 },
}

/// ILLEGAL REQUEST, INVALID COMMAND OPERATION CODE.
pub(crate) const INVALID_OPCODE: [u8; 3] = [0x5, 0x20, 0x00];

/// ILLEGAL REQUEST, LOGICAL BLOCK ADDRESS OUT OF RANGE.
pub(crate) const OUT_OF_RANGE: [u8; 3] = [0x5, 0x21, 0x00];

/// ILLEGAL REQUEST, INVALID FIELD IN CDB.
pub(crate) const INVALID_FIELD: [u8; 3] = [0x5, 0x24, 0x00];

/// ILLEGAL REQUEST, LOGICAL UNIT NOT SUPPORTED.
pub(crate) const NO_SUCH_UNIT: [u8; 3] = [0x5, 0x25, 0x00];

/// MEDIUM ERROR, UNRECOVERED READ ERROR.
pub(crate) const READ_ERROR: [u8; 3] = [0x3, 0x11, 0x00];

/// MEDIUM ERROR, WRITE ERROR.
pub(crate) const WRITE_ERROR: [u8; 3] = [0x3, 0x0C, 0x00];

// The logical unit numbers under which the disk answers.
#[tactic(auto, unfolding(crate::specs::Cdb::is_disk_unit))]
pub(crate) fn is_disk_unit(lun: u64) -> bool
    ensures { result ≡ is_disk_unit lun }
{
    lun == 0 || lun == 0x8000_0000_0000_0000 || lun == 0x8100_0000_0000_0000
}

// INQUIRY and REPORT LUNS are answered at every logical unit.
#[tactic(auto, unfolding(crate::specs::Cdb::is_answered))]
fn is_answered(lun: u64, cdb: &[u8; 16]) -> bool
    ensures { result ≡ is_answered lun cdb.now }
{
    is_disk_unit(lun) || cdb[0] == 0x12 || cdb[0] == 0xA0
}

fn short_address(cdb: &[u8; 16]) -> u64
    ensures { result ≡ short_address cdb.now }
{
    u64::from(cdb[1] % 32) * 0x1_0000 + u64::from(BigEndian::read_u16(&cdb[2..]))
}

fn short_length(cdb: &[u8; 16]) -> u32
    ensures { result ≡ short_length cdb.now }
{
    if cdb[4] == 0 { 256 } else { u32::from(cdb[4]) }
}

fn ten_address(cdb: &[u8; 16]) -> u64
    ensures { result ≡ field 2 4 cdb.now }
{
    u64::from(BigEndian::read_u32(&cdb[2..]))
}

fn ten_length(cdb: &[u8; 16]) -> u32
    ensures { result ≡ field 7 2 cdb.now }
{
    u32::from(BigEndian::read_u16(&cdb[7..]))
}

fn sixteen_address(cdb: &[u8; 16]) -> u64
    ensures { result ≡ field 2 8 cdb.now }
{
    BigEndian::read_u64(&cdb[2..])
}

fn sixteen_length(cdb: &[u8; 16]) -> u32
    ensures { result ≡ field 10 4 cdb.now }
{
    BigEndian::read_u32(&cdb[10..])
}

// Reads a CDB that names a range of blocks: READ, WRITE and SYNCHRONIZE CACHE in their lengths.
#[tactic(auto, unfolding(crate::specs::Cdb::range_command))]
fn range_command(cdb: &[u8; 16]) -> Option<DiskOp>
    ensures { result ≡ range_command cdb.now }
{
    Some(match cdb[0] {
        0x08 => DiskOp::Read {
            lba: short_address(cdb),
            blocks: short_length(cdb),
        },
        0x0A => DiskOp::Write {
            lba: short_address(cdb),
            blocks: short_length(cdb),
        },
        0x28 => DiskOp::Read {
            lba: ten_address(cdb),
            blocks: ten_length(cdb),
        },
        0x2A => DiskOp::Write {
            lba: ten_address(cdb),
            blocks: ten_length(cdb),
        },
        0x35 => DiskOp::Sync {
            lba: ten_address(cdb),
            blocks: ten_length(cdb),
        },
        0x88 => DiskOp::Read {
            lba: sixteen_address(cdb),
            blocks: sixteen_length(cdb),
        },
        0x8A => DiskOp::Write {
            lba: sixteen_address(cdb),
            blocks: sixteen_length(cdb),
        },
        _ => return None,
    })
}

// Reads a CDB: its command, where the disk knows the operation code.
#[tactic(auto, unfolding(crate::specs::Cdb::command_of))]
fn command_of(cdb: &[u8; 16]) -> Option<DiskOp>
    ensures { result ≡ command_of cdb.now }
{
    match cdb[0] {
        0x00 => Some(DiskOp::Ready),
        0x12 => Some(DiskOp::Inquiry {
            max: u32::from(BigEndian::read_u16(&cdb[3..])),
        }),
        0x25 => Some(DiskOp::Capacity10),
        0x9E => Some(DiskOp::Capacity16 {
            max: sixteen_length(cdb),
        }),
        0xA0 => Some(DiskOp::Luns {
            max: BigEndian::read_u32(&cdb[6..]),
        }),
        _ => range_command(cdb),
    }
}

// A field of INQUIRY or SERVICE ACTION IN(16) that the disk does not serve.
#[tactic(auto, unfolding(crate::specs::Cdb::is_bad_field))]
fn is_bad_field(cdb: &[u8; 16]) -> bool
    ensures { result ≡ is_bad_field cdb.now }
{
    match cdb[0] {
        0x12 => cdb[1] % 2 > 0 || cdb[2] > 0,
        0x9E => cdb[1] % 32 != 0x10,
        _ => false,
    }
}

// A read or a write of more than 256 blocks.
#[tactic(auto, unfolding(crate::specs::Cdb::is_too_long))]
fn is_too_long(op: DiskOp) -> bool
    ensures { result ≡ is_too_long op }
{
    match op {
        DiskOp::Read { blocks, .. } | DiskOp::Write { blocks, .. } => blocks > 256,
        _ => false,
    }
}

/// Reads a CDB that came to a logical unit: its command, or the sense key, additional sense code
/// and qualifier of the first test that fails. Tests go in this order: logical unit, operation
/// code, fields, number of blocks.
#[tactic(auto, unfolding(crate::specs::Cdb::refusal))]
pub fn read_cdb(lun: u64, cdb: &[u8; 16]) -> Result<DiskOp, [u8; 3]>
    ensures accepted { IfOk result (λ op. refusal lun cdb.now ≡ None) }
    ensures command { IfOk result (λ op. command_of cdb.now ≡ Some op) }
    ensures short { IfOk result (λ op. is_too_long op ≡ false) }
    ensures refused { IfErr result (λ cause. refusal lun cdb.now ≡ Some cause) }
{
    if !is_answered(lun, cdb) {
        return Err(NO_SUCH_UNIT);
    }
    let Some(op) = command_of(cdb) else {
        return Err(INVALID_OPCODE);
    };
    if is_bad_field(cdb) || is_too_long(op) {
        return Err(INVALID_FIELD);
    }
    Ok(op)
}
