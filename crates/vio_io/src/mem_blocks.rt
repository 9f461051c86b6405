// An image in memory whose listed calls fail, so that a test can place each fault.
ghost use Rattle.std.specs.Prelude.{◌≡◌, ◌↔◌, ◌^◌, ◌<◌, ◌≤◌, Some, IsTrue, IsErr, IfOk, OnOk, OnErr, length, slice_get, vec_len, refl};
ghost use Rattle.vio_io.specs.Script.{fails, after_call, new_script, scripted_image};
ghost use Rattle.vio_io.specs.Image.{AreWhole, FailsAfter, no_calls, after_sizing, after_reads, after_writes, after_flush, with_block};

use crate::device_calls::DeviceCalls;
use crate::outside::{Blocks, Failed};
use crate::script::Script;
use crate::sure_blocks::SureBlocks;
use std::marker::Model;

/// An image in memory that fails at listed calls.
#[derive(Debug, Drop)]
pub struct MemBlocks {
    image: SureBlocks,
    calls: DeviceCalls,
    script: Script,
}

impl Model for MemBlocks {
    ghost use Rattle.vio_io.specs.Script.{ScriptedImage};

    ghost Value = { ScriptedImage };

    ghost view = { λ mem. record { blocks = mem.image.blocks; calls = mem.calls; script = mem.script } };
}

impl MemBlocks {
    /// An image of these blocks, 1 to 2^48. The calls whose numbers, from 0, are in `failing` fail.
    pub fn new(blocks: Vec<[u8; 512]>, failing: Vec<u64>) -> MemBlocks
        requires some { 1 ≤ vec_len blocks }
        requires few { vec_len blocks ≤ 2 ^ 48 }
        ensures blocks { result.blocks ≡ blocks.items }
        ensures calls { result.calls ≡ no_calls }
        ensures script { result.script ≡ new_script failing.items }
    {
        MemBlocks {
            image: SureBlocks::new(blocks),
            calls: DeviceCalls::none(),
            script: Script::new(failing),
        }
    }

    /// The blocks, lent.
    pub fn blocks(&self) -> &[[u8; 512]]
        ensures { result.now ≡ self.now.blocks }
    {
        self.image.blocks()
    }
}

impl Blocks for MemBlocks {
    ghost state = { scripted_image };

    fn count(&mut self) -> Result<u64, Failed>
        ensures count { IfOk result (λ n. n ≡ length self.old.blocks) }
        ensures range { IfOk result (λ n. (1 ≤ n) × (n ≤ 2 ^ 48)) }
        ensures whole { OnOk result (AreWhole self.old.blocks) }
        ensures done { OnOk result
            (scripted_image self.new ≡ after_sizing (scripted_image self.old)) }
        ensures failed { OnErr result
            (FailsAfter (after_sizing (scripted_image self.old)) (scripted_image self.new)) }
        ensures fails { IsErr result ↔ IsTrue (fails self.old.script) }
        ensures script { self.new.script ≡ after_call self.old.script }
    {
        self.calls.count_sizing();
        self.script.call()?;
        self.image.count()
    }

    fn read_block(&mut self, at: u64, out: &mut [u8; 512]) -> Result<(), Failed>
        requires { at < length self.old.blocks }
        ensures block { OnOk result (slice_get self.old.blocks at ≡ Some out.new) }
        ensures untouched { OnErr result (out.new ≡ out.old) }
        ensures done { OnOk result
            (scripted_image self.new ≡ after_reads 1 (scripted_image self.old)) }
        ensures failed { OnErr result
            (FailsAfter (after_reads 1 (scripted_image self.old)) (scripted_image self.new)) }
        ensures fails { IsErr result ↔ IsTrue (fails self.old.script) }
        ensures script { self.new.script ≡ after_call self.old.script }
    {
        self.calls.count_read();
        self.script.call()?;
        self.image.read_block(at, out)
    }

    fn write_block(&mut self, at: u64, block: &[u8; 512]) -> Result<(), Failed>
        requires { at < length self.old.blocks }
        ensures done { OnOk result
            (scripted_image self.new ≡ with_block at block.now (after_writes 1 (scripted_image self.old))) }
        ensures failed { OnErr result
            (FailsAfter (after_writes 1 (scripted_image self.old)) (scripted_image self.new)) }
        ensures fails { IsErr result ↔ IsTrue (fails self.old.script) }
        ensures script { self.new.script ≡ after_call self.old.script }
    {
        self.calls.count_write();
        self.script.call()?;
        self.image.write_block(at, block)
    }

    fn flush(&mut self) -> Result<(), Failed>
        ensures done { OnOk result
            (scripted_image self.new ≡ after_flush (scripted_image self.old)) }
        ensures failed { OnErr result
            (FailsAfter (after_flush (scripted_image self.old)) (scripted_image self.new)) }
        ensures fails { IsErr result ↔ IsTrue (fails self.old.script) }
        ensures script { self.new.script ≡ after_call self.old.script }
    {
        self.calls.count_flush();
        self.script.call()?;
        self.image.flush()
    }

    ghost told = { λ _. refl };
}
