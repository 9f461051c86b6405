// A writer of std as a sink. A write is taken once it is flushed: bytes that the writer has and whose
// flush failed were not taken, and no byte goes behind them.
ghost use Rattle.std.specs.Prelude.{◌≡◌, ◌<◌, ◌≤◌, IfOk, length};
ghost use Rattle.std.specs.Io.KnownBytes.{WriteAppends, Keeps};
ghost use Rattle.vio_io.specs.Edge.{taken_of};

use crate::interrupted::settled;
use crate::outside::{Failed, Sink, WriteFault};
use std::io::Write;
use std::marker::Model;

/// A sink over a writer of std. Contracts see the writer, how many bytes it has that were not taken
/// since their flush failed, and how many calls failed. Behind such bytes each write is refused.
#[derive(Drop)]
pub struct StdSink<W> {
    writer: W,
    unflushed: usize,
    faults: u64,
}

impl<W> Model for StdSink<W> {
    ghost use Rattle.vio_io.specs.Edge.{WriterSink};

    ghost Value = { WriterSink W };

    ghost view = { λ sink. record { writer = sink.writer; unflushed = sink.unflushed; faults = sink.faults } };
}

// Writes once, and again as often as a signal interrupted the write. A writer that takes nothing of a
// piece that is not empty has failed.
fn write_uninterrupted<W: Write>(writer: &mut W, piece: &[u8]) -> Result<usize, Failed>
    ensures bound { IfOk result (λ n. n ≤ length piece.now) }
    ensures progress { IfOk result (λ n. 0 < length piece.now → 0 < n) }
    ensures bytes { WriteAppends (W.contents writer.old) (W.contents writer.new) result piece.now }
{
    for _ in 0..u64::MAX {
        match settled(writer.write(piece)) {
            Some(Ok(0)) if !piece.is_empty() => return Err(Failed),
            Some(answer) => return answer,
            None => {}
        }
    }
    Err(Failed)
}

// Hands on what the writer still holds, so that nothing is lost where the program ends after a write.
fn flush_uninterrupted<W: Write>(writer: &mut W) -> Result<(), Failed>
    ensures { Keeps (W.contents writer.old) (W.contents writer.new) }
{
    for _ in 0..u64::MAX {
        match settled(writer.flush().map(|()| 0)) {
            Some(Ok(_)) => return Ok(()),
            Some(Err(failed)) => return Err(failed),
            None => {}
        }
    }
    Err(Failed)
}

impl<W: Write> StdSink<W> {
    /// A sink that writes to `writer`. No call has failed yet.
    pub fn new(writer: W) -> StdSink<W>
        ensures writer { result.writer ≡ writer }
        ensures unflushed { result.unflushed ≡ 0 }
        ensures faults { result.faults ≡ 0 }
    {
        StdSink {
            writer,
            unflushed: 0,
            faults: 0,
        }
    }

    // Writes and flushes, and remembers what could not be flushed.
    fn write_through(&mut self, piece: &[u8]) -> Result<usize, Failed>
        ensures bound { IfOk result (λ n. n ≤ length piece.now) }
        ensures progress { IfOk result (λ n. 0 < length piece.now → 0 < n) }
        ensures bytes { WriteAppends (taken_of (W.contents self.old.writer) self.old.unflushed)
            (taken_of (W.contents self.new.writer) self.new.unflushed) result piece.now }
        ensures faults { self.new.faults ≡ self.old.faults }
    {
        if self.unflushed > 0 {
            return Err(Failed);
        }
        let n = write_uninterrupted(&mut self.writer, piece)?;
        match flush_uninterrupted(&mut self.writer) {
            Ok(()) => Ok(n),
            Err(failed) => {
                self.unflushed = n;
                Err(failed)
            }
        }
    }
}

impl<W: Write> Sink for StdSink<W> {
    ghost faults = { λ sink. sink.faults };

    ghost taken = { λ sink. taken_of (W.contents sink.writer) sink.unflushed };

    fn write(&mut self, piece: &[u8]) -> Result<usize, WriteFault> {
        match self.write_through(piece) {
            Ok(n) => Ok(n),
            Err(failed) => {
                self.faults = self.faults.saturating_add(1);
                Err(failed.into())
            }
        }
    }
}
