// An image in memory that no call finds failing: its count of faults is always 0.
ghost use Rattle.std.specs.Prelude.{◌≡◌, ◌^◌, ◌<◌, ◌≤◌, Some, IfOk, IsOk, length, replicate, slice_get, vec_len};
ghost use Rattle.vio_io.specs.Image.{AreWhole, no_calls, after_sizing, after_reads, after_writes, after_flush, with_block};
ghost use Rattle.vio_io.specs.Memory.{sure_image};

use crate::device_calls::DeviceCalls;
use crate::outside::{Blocks, Failed};
use std::alloc::Global;
use std::marker::Model;
use vio_num::NoMemory;

/// An image in memory. Contracts see its blocks, 1 to 2^48 of them, and the calls made on it.
#[derive(Debug, Drop)]
pub struct SureBlocks {
    blocks: Vec<[u8; 512]>,
    calls: DeviceCalls,
}

impl Model for SureBlocks {
    ghost use Rattle.std.specs.Prelude.{◌^◌, ◌≤◌, vec_len};
    ghost use Rattle.vio_io.specs.Image.{AreWhole};
    ghost use Rattle.vio_io.specs.Memory.{MemoryImage};

    ghost Value = { MemoryImage };

    ghost view = { λ image. record { blocks = image.blocks.items; calls = image.calls } };

    ghost invariant = { λ image. (1 ≤ vec_len image.blocks) × (vec_len image.blocks ≤ 2 ^ 48) × AreWhole image.blocks.items };
}

// Says of all blocks together what their type says of each.
fn know_whole(blocks: &[[u8; 512]])
    ensures { AreWhole blocks.now }
{
    for _ in blocks {}
}

impl SureBlocks {
    /// An image of these blocks.
    pub fn new(blocks: Vec<[u8; 512]>) -> SureBlocks
        requires some { 1 ≤ vec_len blocks }
        requires few { vec_len blocks ≤ 2 ^ 48 }
        ensures blocks { result.blocks ≡ blocks.items }
        ensures calls { result.calls ≡ no_calls }
    {
        know_whole(&blocks);
        SureBlocks {
            blocks,
            calls: DeviceCalls::none(),
        }
    }

    /// An image of `n` blocks of zeros.
    pub fn zeros(alloc: Global, n: u32) -> Result<SureBlocks, NoMemory>
        requires { 1 ≤ n }
        ensures blocks { IfOk result (λ image. image.blocks ≡ replicate n (replicate 512 0)) }
        ensures calls { IfOk result (λ image. image.calls ≡ no_calls) }
    {
        let blocks = vec![in alloc; [0; 512]; n as usize]?;
        Ok(SureBlocks::new(blocks))
    }

    /// The blocks, lent.
    pub fn blocks(&self) -> &[[u8; 512]]
        ensures { result.now ≡ self.now.blocks }
    {
        self.blocks.as_slice()
    }
}

impl Blocks for SureBlocks {
    ghost use Rattle.std.specs.Prelude.{refl};

    ghost state = { sure_image };

    fn count(&mut self) -> Result<u64, Failed>
        ensures count { IfOk result (λ n. n ≡ length self.old.blocks) }
        ensures range { IfOk result (λ n. (1 ≤ n) × (n ≤ 2 ^ 48)) }
        ensures whole { AreWhole self.old.blocks }
        ensures done { sure_image self.new ≡ after_sizing (sure_image self.old) }
        ensures never { IsOk result }
    {
        self.calls.count_sizing();
        Ok(self.blocks.len() as u64)
    }

    fn read_block(&mut self, at: u64, out: &mut [u8; 512]) -> Result<(), Failed>
        requires { at < length self.old.blocks }
        ensures block { slice_get self.old.blocks at ≡ Some out.new }
        ensures done { sure_image self.new ≡ after_reads 1 (sure_image self.old) }
        ensures never { IsOk result }
    {
        self.calls.count_read();
        *out = self.blocks[at as usize];
        Ok(())
    }

    fn write_block(&mut self, at: u64, block: &[u8; 512]) -> Result<(), Failed>
        requires { at < length self.old.blocks }
        ensures done { sure_image self.new ≡
            with_block at block.now (after_writes 1 (sure_image self.old)) }
        ensures never { IsOk result }
    {
        self.calls.count_write();
        self.blocks[at as usize] = *block;
        Ok(())
    }

    fn flush(&mut self) -> Result<(), Failed>
        ensures done { sure_image self.new ≡ after_flush (sure_image self.old) }
        ensures never { IsOk result }
    {
        self.calls.count_flush();
        Ok(())
    }

    ghost told = { λ _. refl };
}
