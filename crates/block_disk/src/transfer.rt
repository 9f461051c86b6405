// Moves blocks between an image and the buffers of a command, each once, in ascending order, and
// stops at the first device call that fails.
ghost use Rattle.std.specs.Prelude.{◌≡◌, ◌+◌, ◌*◌, ◌^◌, ◌<◌, ◌≤◌, Some, IfOk, IfErr, IfSome, OnOk, OnErr, length, take, drop, slice_get};
ghost use Rattle.vio_io.specs.Image.{FailsAfter, after_reads, after_writes, with_block};
ghost use Rattle.block_disk.specs.Disk.{bytes_of, block_at, after_written};

use vio_io::{Blocks, Failed};

// Reads block `at` into these 512 bytes.
fn read_into<B: Blocks>(disk: &mut B, at: u64, piece: &mut [u8]) -> Result<(), Failed>
    requires inside { at < (B.state disk.old).size }
    requires whole { length piece.old ≡ 512 }
    ensures block { OnOk result (IfSome (B.state disk.old).blocks
        (λ all. slice_get all at ≡ Some piece.new)) }
    ensures done { OnOk result (B.state disk.new ≡ after_reads 1 (B.state disk.old)) }
    ensures failed { OnErr result
        (FailsAfter (after_reads 1 (B.state disk.old)) (B.state disk.new)) }
{
    match piece.as_mut_array::<512>() {
        Some(block) => disk.read_block(at, block),
        None => unreachable!(),
    }
}

// Reads block `at` to the place of block `call` of the data-in. What stands before it is kept.
fn read_one<B: Blocks>(
    disk: &mut B,
    at: u64,
    data_in: &mut [u8; 131072],
    call: u32,
) -> Result<(), Failed>
    requires inside { at < (B.state disk.old).size }
    requires room { call < 256 }
    ensures block { OnOk result (IfSome (B.state disk.old).blocks
        (λ all. slice_get all at ≡ Some (block_at call data_in.new))) }
    ensures front { take (512 * call) data_in.new ≡ take (512 * call) data_in.old }
    ensures done { OnOk result (B.state disk.new ≡ after_reads 1 (B.state disk.old)) }
    ensures failed { OnErr result
        (FailsAfter (after_reads 1 (B.state disk.old)) (B.state disk.new)) }
{
    let from = 512 * call as usize;
    read_into(disk, at, &mut data_in[from..from + 512])
}

// Replaces block `at` by these 512 bytes.
fn write_from<B: Blocks>(disk: &mut B, at: u64, piece: &[u8]) -> Result<(), Failed>
    requires inside { at < (B.state disk.old).size }
    requires whole { length piece.now ≡ 512 }
    ensures done { OnOk result (B.state disk.new ≡
        with_block at piece.now (after_writes 1 (B.state disk.old))) }
    ensures failed { OnErr result
        (FailsAfter (after_writes 1 (B.state disk.old)) (B.state disk.new)) }
{
    match piece.as_array::<512>() {
        Some(block) => disk.write_block(at, block),
        None => unreachable!(),
    }
}

// Replaces block `at` by block `call` of the data-out.
fn write_one<B: Blocks>(disk: &mut B, at: u64, data_out: &[u8], call: u32) -> Result<(), Failed>
    requires inside { at < (B.state disk.old).size }
    requires sent { 512 * call + 512 ≤ length data_out.now }
    ensures done { OnOk result (B.state disk.new ≡
        with_block at (block_at call data_out.now) (after_writes 1 (B.state disk.old))) }
    ensures failed { OnErr result
        (FailsAfter (after_writes 1 (B.state disk.old)) (B.state disk.new)) }
{
    let from = 512 * call as usize;
    write_from(disk, at, &data_out[from..from + 512])
}

// Reads blocks from `lba` on to the front of `data_in`. A refusal is the index of the call that
// failed.
pub(crate) fn read_blocks<B: Blocks>(
    disk: &mut B,
    lba: u64,
    blocks: u32,
    data_in: &mut [u8; 131072],
) -> Result<(), u32>
    requires few { blocks ≤ 256 }
    requires inside { lba + blocks ≤ (B.state disk.old).size }
    requires fits { (B.state disk.old).size < 2 ^ 64 }
    ensures given { OnOk result (IfSome (B.state disk.old).blocks
        (λ all. take (512 * blocks) data_in.new ≡ bytes_of (take blocks (drop lba all)))) }
    ensures index { IfErr result (λ call. call < blocks) }
    ensures done { OnOk result (B.state disk.new ≡ after_reads blocks (B.state disk.old)) }
    ensures failed { IfErr result
        (λ call. FailsAfter (after_reads (call + 1) (B.state disk.old)) (B.state disk.new)) }
{
    for call in 0..blocks {
        match read_one(disk, lba + call as u64, data_in, call) {
            Ok(()) => {}
            Err(Failed) => return Err(call),
        }
    }
    Ok(())
}

// Writes the front of `data_out` to blocks from `lba` on. A refusal is the index of the call that
// failed; the blocks before it are written.
pub(crate) fn write_blocks<B: Blocks>(
    disk: &mut B,
    lba: u64,
    blocks: u32,
    data_out: &[u8],
) -> Result<(), u32>
    requires few { blocks ≤ 256 }
    requires inside { lba + blocks ≤ (B.state disk.old).size }
    requires fits { (B.state disk.old).size < 2 ^ 64 }
    requires sent { 512 * blocks ≤ length data_out.now }
    ensures index { IfErr result (λ call. call < blocks) }
    ensures done { OnOk result (B.state disk.new ≡
        after_written lba blocks blocks data_out.now (B.state disk.old)) }
    ensures failed { IfErr result (λ call. FailsAfter
        (after_written lba call (call + 1) data_out.now (B.state disk.old)) (B.state disk.new)) }
{
    for call in 0..blocks {
        match write_one(disk, lba + call as u64, data_out, call) {
            Ok(()) => {}
            Err(Failed) => return Err(call),
        }
    }
    Ok(())
}
