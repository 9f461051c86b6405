// The disk step: executes a command on an image. Tests go in this order: logical unit, operation
// code, fields, number of blocks, range, length of data-out, device.
ghost use Rattle.std.specs.Prelude.{◌≡◌, ◌+◌, ◌*◌, ◌≤◌, false, Some, IfSome, nat_lt, option_map, length, take, drop};
ghost use Rattle.block_disk.specs.Disk.{read_answer, write_answer, sync_answer, write_image, bytes_of, performed, parameter_data, data_of, changed, calls_of, read_calls, write_calls, sync_calls, device_calls, MakesCalls, reply_to, step};
ghost use Rattle.block_disk.specs.Steps.{StepOn, made_step};
ghost use Rattle.block_disk.specs.Cdb.{command_of, is_too_long};

use crate::command::{DiskOp, INVALID_FIELD, OUT_OF_RANGE, READ_ERROR, WRITE_ERROR, read_cdb};
use crate::parameters::{capacity10_data, capacity16_data, give, inquiry_data, luns_data};
use crate::reply::ScsiReply;
use crate::transfer::{read_blocks, write_blocks};
use vio_io::{Blocks, Failed};

// Whether these blocks reach past the image.
fn is_past(count: u64, lba: u64, blocks: u32) -> bool
    ensures { result ≡ nat_lt count (lba + blocks) }
{
    lba > count || blocks as u64 > count - lba
}

// READ.
fn read<B: Blocks>(
    disk: &mut B,
    count: u64,
    lba: u64,
    blocks: u32,
    data_in: &mut [u8; 131072],
) -> ScsiReply
    requires count { count ≡ (B.state disk.old).size }
    requires few { blocks ≤ 256 }
    ensures reply { result ≡ read_answer lba blocks count result.fault }
    ensures given { IfSome (B.state disk.old).blocks (λ all. take result.in_len data_in.new ≡
        take result.in_len (bytes_of (take blocks (drop lba all)))) }
    ensures room { result.in_len ≤ 131072 }
    ensures unused { result.out_used ≡ 0 }
    ensures device { MakesCalls (Some (DiskOp.Read lba blocks))
        (read_calls lba blocks count) result.fault
        (B.state disk.old) (B.state disk.new) }
    ensures content { (B.state disk.new).blocks ≡ (B.state disk.old).blocks }
{
    if is_past(count, lba, blocks) {
        return ScsiReply::refused(OUT_OF_RANGE, 0);
    }
    match read_blocks(disk, lba, blocks, data_in) {
        Ok(()) => ScsiReply::good(512 * blocks, 0),
        Err(call) => ScsiReply::failed(READ_ERROR, 0, call),
    }
}

// WRITE.
fn write<B: Blocks>(disk: &mut B, count: u64, lba: u64, blocks: u32, data_out: &[u8]) -> ScsiReply
    requires count { count ≡ (B.state disk.old).size }
    requires few { blocks ≤ 256 }
    ensures reply { result ≡ write_answer lba blocks count (length data_out.now) result.fault }
    ensures image { (B.state disk.new).blocks ≡
        option_map (write_image lba blocks data_out.now result.fault) (B.state disk.old).blocks }
    ensures nothing { result.in_len ≡ 0 }
    ensures used { result.out_used ≤ length data_out.now }
    ensures device { MakesCalls (Some (DiskOp.Write lba blocks))
        (write_calls lba blocks count (length data_out.now)) result.fault
        (B.state disk.old) (B.state disk.new) }
{
    if is_past(count, lba, blocks) {
        return ScsiReply::refused(OUT_OF_RANGE, 0);
    }
    let needed = 512 * blocks;
    if data_out.len() < needed as usize {
        return ScsiReply::refused(INVALID_FIELD, needed - data_out.len() as u32);
    }
    match write_blocks(disk, lba, blocks, data_out) {
        Ok(()) => ScsiReply::good(0, needed),
        Err(call) => ScsiReply::failed(WRITE_ERROR, needed, call),
    }
}

// SYNCHRONIZE CACHE: one flush, whatever the number of blocks.
fn sync<B: Blocks>(disk: &mut B, count: u64, lba: u64, blocks: u32) -> ScsiReply
    requires { count ≡ (B.state disk.old).size }
    ensures reply { result ≡ sync_answer lba blocks count result.fault }
    ensures nothing { result.in_len ≡ 0 }
    ensures unused { result.out_used ≡ 0 }
    ensures device { MakesCalls (Some (DiskOp.Sync lba blocks))
        (sync_calls lba blocks count) result.fault
        (B.state disk.old) (B.state disk.new) }
    ensures content { (B.state disk.new).blocks ≡ (B.state disk.old).blocks }
{
    if is_past(count, lba, blocks) {
        return ScsiReply::refused(OUT_OF_RANGE, 0);
    }
    match disk.flush() {
        Ok(()) => ScsiReply::good(0, 0),
        Err(Failed) => ScsiReply::failed(WRITE_ERROR, 0, 0),
    }
}

// A command that its CDB does not refuse.
#[tactic(auto, unfolding(crate::specs::Cdb::is_too_long))]
fn perform<B: Blocks>(
    disk: &mut B,
    count: u64,
    lun: u64,
    op: DiskOp,
    data_out: &[u8],
    data_in: &mut [u8; 131072],
) -> ScsiReply
    requires count { count ≡ (B.state disk.old).size }
    requires few { is_too_long op ≡ false }
    ensures reply { result ≡ performed op count (length data_out.now) result.fault }
    ensures parameters { IfSome (parameter_data count lun (Some op)) (λ bytes.
        take result.in_len data_in.new ≡ take result.in_len bytes) }
    ensures given { IfSome (B.state disk.old).blocks (λ all. take result.in_len data_in.new ≡
        take result.in_len (data_of all lun (Some op))) }
    ensures image { (B.state disk.new).blocks ≡
        option_map (λ all. changed (Some op) all data_out.now result.fault)
        (B.state disk.old).blocks }
    ensures room { result.in_len ≤ 131072 }
    ensures used { result.out_used ≤ length data_out.now }
    ensures device { MakesCalls (Some op) (calls_of op count (length data_out.now)) result.fault
        (B.state disk.old) (B.state disk.new) }
{
    match op {
        DiskOp::Ready => ScsiReply::good(0, 0),
        DiskOp::Inquiry { max } => give(&inquiry_data(lun), max, data_in),
        DiskOp::Capacity10 => give(&capacity10_data(count), 8, data_in),
        DiskOp::Capacity16 { max } => give(&capacity16_data(count), max, data_in),
        DiskOp::Luns { max } => give(&luns_data(), max, data_in),
        DiskOp::Read { lba, blocks } => read(disk, count, lba, blocks, data_in),
        DiskOp::Write { lba, blocks } => write(disk, count, lba, blocks, data_out),
        DiskOp::Sync { lba, blocks } => sync(disk, count, lba, blocks),
    }
}

/// Executes a command that came to a logical unit of the disk. `count` is the number of blocks that
/// the image's `count` gives. The first `in_len` bytes of `data_in` are the data that the command
/// gives; what stands behind them is not said. Device calls go in ascending order of blocks and
/// stop at the first that fails: the blocks of a write before it are changed, and no other; a read
/// then gives no data.
pub fn execute<B: Blocks>(
    disk: &mut B,
    count: u64,
    lun: u64,
    cdb: &[u8; 16],
    data_out: &[u8],
    data_in: &mut [u8; 131072],
) -> ScsiReply
    requires { count ≡ (B.state disk.old).size }
    ensures reply { result ≡ reply_to count lun cdb.now (length data_out.now) result.fault }
    ensures parameters { IfSome (parameter_data count lun (command_of cdb.now)) (λ bytes.
        take result.in_len data_in.new ≡ take result.in_len bytes) }
    ensures step { StepOn (B.state disk.old).blocks
        (made_step lun cdb.now data_out.now result data_in.new) (B.state disk.new).blocks }
    ensures image { (B.state disk.new).blocks ≡
        option_map (λ all. (step all lun cdb.now data_out.now result.fault).blocks)
        (B.state disk.old).blocks }
    ensures room { result.in_len ≤ 131072 }
    ensures used { result.out_used ≤ length data_out.now }
    ensures device { MakesCalls (command_of cdb.now)
        (device_calls count lun cdb.now (length data_out.now)) result.fault
        (B.state disk.old) (B.state disk.new) }
{
    match read_cdb(lun, cdb) {
        Ok(op) => perform(disk, count, lun, op, data_out, data_in),
        Err(cause) => ScsiReply::refused(cause, 0),
    }
}
