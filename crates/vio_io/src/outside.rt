// What the outside answers: bytes that are read, bytes that are written, the blocks of an image, and
// the place that a worker passes. Each object counts its faults; a refusal comes only where that count
// rose in the same call.
ghost use Rattle.std.specs.Prelude.{◌≡◌, ℕ, ◌^◌, ◌<◌, ◌≤◌, List, Option, IfOk, IfSome, OnOk, OnErr, IsErrOf, slice_get, length};
ghost use Rattle.std.specs.Io.KnownBytes.{ReadConsumes, WriteAppends};
ghost use Rattle.vio_num.specs.Counts.{Rose};
ghost use Rattle.vio_io.specs.Image.{ImageState, AreWhole, FailsAfter, after_sizing, after_reads, after_writes, after_flush, with_block};

use std::alloc::AllocError;

/// The outside refused a call. The object's count of faults rose in that call.
#[derive(Clone, Copy, Debug, PartialEq, Eq)]
pub struct Failed;

/// Why a sink took nothing.
#[derive(Clone, Copy, Debug, PartialEq, Eq)]
pub enum WriteFault {
    /// The outside refused the call, and the sink's count of faults rose.
    Failed,
    /// No memory was found for the bytes; the count is as it was.
    NoMemory,
}

impl From<Failed> for WriteFault {
    ghost use Rattle.std.specs.Prelude.{◌≡◌};
    ghost use Rattle.vio_io.specs.declared.outside.WriteFault.TheVariants.{Failed as Refused};

    ghost from_gives = { λ _ fault. fault ≡ Refused };

    fn from(_failed: Failed) -> Self {
        WriteFault::Failed
    }
}

impl From<AllocError> for WriteFault {
    ghost use Rattle.std.specs.Prelude.{◌≡◌};
    ghost use Rattle.vio_io.specs.declared.outside.WriteFault.TheVariants.{NoMemory};

    ghost from_gives = { λ _ fault. fault ≡ NoMemory };

    fn from(_error: AllocError) -> Self {
        WriteFault::NoMemory
    }
}

/// Where bytes are read from, in order, each once.
pub trait Source {
    // How many calls failed so far; the count never falls, and stands still at 2^64 - 1.
    ghost faults: { Self → ℕ };

    // The bytes that are still to be read, where the source tells them.
    ghost left: { Self → Option (List ℕ) };

    /// Reads bytes into the front of `out` and answers how many: 0 for a piece that is not empty only
    /// at the end. A refused read takes nothing from the source.
    fn read(&mut self, out: &mut [u8]) -> Result<usize, Failed>
        ensures bound { IfOk result (λ n. n ≤ length out.old) }
        ensures bytes { ReadConsumes (left self.old) (left self.new) result out.new }
        ensures same { OnOk result (faults self.new ≡ faults self.old) }
        ensures failed { OnErr result (Rose (faults self.old) (faults self.new)) };
}

/// Where bytes are written to, in order.
pub trait Sink {
    // How many calls failed so far; the count never falls, and stands still at 2^64 - 1.
    ghost faults: { Self → ℕ };

    // The bytes that were taken so far, where the sink tells them.
    ghost taken: { Self → Option (List ℕ) };

    /// Takes bytes from the front of `piece` and answers how many: at least one of a piece that is not
    /// empty. A refused write takes nothing.
    fn write(&mut self, piece: &[u8]) -> Result<usize, WriteFault>
        ensures bound { IfOk result (λ n. n ≤ length piece.now) }
        ensures progress { IfOk result (λ n. 0 < length piece.now → 0 < n) }
        ensures bytes { WriteAppends (taken self.old) (taken self.new) result piece.now }
        ensures same { ¬ IsErrOf result WriteFault.Failed → faults self.new ≡ faults self.old }
        ensures failed { IsErrOf result WriteFault.Failed →
            Rose (faults self.old) (faults self.new) };
}

/// An image: blocks of 512 bytes, numbered from 0, whose number does not change.
pub trait Blocks {
    // The calls made and failed, the number of blocks, and the blocks where the image tells them.
    ghost state: { Self → ImageState };

    /// The number of blocks, 1 to 2^48.
    fn count(&mut self) -> Result<u64, Failed>
        ensures count { IfOk result (λ n. n ≡ (state self.old).size) }
        ensures range { IfOk result (λ n. (1 ≤ n) × (n ≤ 2 ^ 48)) }
        ensures whole { OnOk result (IfSome (state self.old).blocks AreWhole) }
        ensures done { OnOk result (state self.new ≡ after_sizing (state self.old)) }
        ensures failed { OnErr result
            (FailsAfter (after_sizing (state self.old)) (state self.new)) };

    /// Reads block `at` into `out`. What `out` holds after a refusal is not said.
    fn read_block(&mut self, at: u64, out: &mut [u8; 512]) -> Result<(), Failed>
        requires { at < (state self.old).size }
        ensures block { OnOk result
            (IfSome (state self.old).blocks (λ all. slice_get all at ≡ Some out.new)) }
        ensures done { OnOk result (state self.new ≡ after_reads 1 (state self.old)) }
        ensures failed { OnErr result
            (FailsAfter (after_reads 1 (state self.old)) (state self.new)) };

    /// Replaces block `at`. A refused write changes no block.
    fn write_block(&mut self, at: u64, block: &[u8; 512]) -> Result<(), Failed>
        requires { at < (state self.old).size }
        ensures done { OnOk result
            (state self.new ≡ with_block at block.now (after_writes 1 (state self.old))) }
        ensures failed { OnErr result
            (FailsAfter (after_writes 1 (state self.old)) (state self.new)) };

    /// Hands what was written on to where the image is kept.
    fn flush(&mut self) -> Result<(), Failed>
        ensures done { OnOk result (state self.new ≡ after_flush (state self.old)) }
        ensures failed { OnErr result
            (FailsAfter (after_flush (state self.old)) (state self.new)) };

    // The blocks that an image tells are as many as its size says.
    ghost told: { (image : Self) → IfSome (state image).blocks (λ all. length all ≡ (state image).size) };
}

/// Where a worker stops before each turn of a partition, so that a test can order the turns.
pub trait Gate {
    /// Returns once the worker may run turn `turn`, from 1, of the partition.
    fn pass(&self, worker: u32, partition: u32, turn: u64);
}

/// A gate that never stops a worker.
#[derive(Clone, Copy, Debug)]
pub struct FreeGate;

impl Gate for FreeGate {
    fn pass(&self, _worker: u32, _partition: u32, _turn: u64) {}
}
