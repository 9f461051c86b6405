// A reader of std as a source: what the reader tells to be left is what the source tells.
ghost use Rattle.std.specs.Prelude.{◌≡◌, ◌≤◌, IfOk, length};
ghost use Rattle.std.specs.Io.KnownBytes.{ReadConsumes};

use crate::interrupted::settled;
use crate::outside::{Failed, Source};
use std::io::Read;
use std::marker::Model;

/// A source over a reader of std. Contracts see the reader and how many of its calls failed.
#[derive(Drop)]
pub struct StdSource<R> {
    reader: R,
    faults: u64,
}

impl<R> Model for StdSource<R> {
    ghost use Rattle.vio_io.specs.Edge.{ReaderSource};

    ghost Value = { ReaderSource R };

    ghost view = { λ source. record { reader = source.reader; faults = source.faults } };
}

impl<R: Read> StdSource<R> {
    /// A source that reads from `reader`. No call has failed yet.
    pub fn new(reader: R) -> StdSource<R>
        ensures reader { result.reader ≡ reader }
        ensures faults { result.faults ≡ 0 }
    {
        StdSource { reader, faults: 0 }
    }
}

// Reads once, and again as often as a signal interrupted the read.
fn read_uninterrupted<R: Read>(reader: &mut R, out: &mut [u8]) -> Result<usize, Failed>
    ensures bound { IfOk result (λ n. n ≤ length out.old) }
    ensures bytes { ReadConsumes (R.remaining reader.old) (R.remaining reader.new) result out.new }
{
    for _ in 0..u64::MAX {
        if let Some(answer) = settled(reader.read(out)) {
            return answer;
        }
    }
    Err(Failed)
}

impl<R: Read> Source for StdSource<R> {
    ghost faults = { λ source. source.faults };

    ghost left = { λ source. R.remaining source.reader };

    fn read(&mut self, out: &mut [u8]) -> Result<usize, Failed> {
        match read_uninterrupted(&mut self.reader, out) {
            Ok(n) => Ok(n),
            Err(failed) => {
                self.faults = self.faults.saturating_add(1);
                Err(failed)
            }
        }
    }
}
