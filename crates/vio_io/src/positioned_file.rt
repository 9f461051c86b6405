// A file that is read and written at a place, as the system gives it: what it may answer, so that an
// image in a file can be proved over it.
ghost use Rattle.std.specs.Prelude.{◌≡◌, ◌≤◌, true, List, ℕ, Bool, Option, IfOk, IfSome, OnOk, OnErr, length, take};
ghost use Rattle.vio_io.specs.Edge.{ReadsAt, WritesAt};

use std::io;

/// A file whose bytes are read and written at a place, in bytes from 0. A call may move fewer bytes
/// than were asked for, and a signal may interrupt it.
pub trait PositionedFile {
    // The bytes of the file, where it tells them.
    ghost bytes: { Self → Option (List ℕ) };

    // Whether all that was written was handed on to where the file is kept.
    ghost is_flushed: { Self → Bool };

    /// How many bytes the file has.
    fn size(&mut self) -> io::Result<u64>
        ensures size { IfOk result (λ n. IfSome (bytes self.old) (λ all. n ≡ length all)) }
        ensures bytes { bytes self.new ≡ bytes self.old };

    /// Reads bytes from place `at` on into the front of `out`, and answers how many.
    fn read_at(&mut self, at: u64, out: &mut [u8]) -> io::Result<usize>
        ensures bound { IfOk result (λ n. n ≤ length out.old) }
        ensures read { IfOk result (λ n. ReadsAt (bytes self.old) at (take n out.new)) }
        ensures bytes { bytes self.new ≡ bytes self.old };

    /// Writes the front of `piece` from place `at` on, and answers how many bytes. A refused write
    /// changes no byte.
    fn write_at(&mut self, at: u64, piece: &[u8]) -> io::Result<usize>
        ensures bound { IfOk result (λ n. n ≤ length piece.now) }
        ensures written { IfOk result
            (λ n. WritesAt at (take n piece.now) (bytes self.old) (bytes self.new)) }
        ensures refused { OnErr result (bytes self.new ≡ bytes self.old) };

    /// Hands what was written on to where the file is kept.
    fn flush(&mut self) -> io::Result<()>
        ensures flushed { OnOk result (is_flushed self.new ≡ true) }
        ensures bytes { bytes self.new ≡ bytes self.old };
}
