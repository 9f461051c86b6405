// A sink in memory that no call finds failing: its count of faults is always 0.
ghost use Rattle.std.specs.Prelude.{◌≡◌, ◌<◌, ◌≤◌, [], min, Some, IfOk, IsErrOf, length};
ghost use Rattle.std.specs.Io.KnownBytes.{WriteAppends};

use crate::outside::{Sink, WriteFault};
use std::alloc::Global;
use std::marker::Model;

/// A sink in memory. Contracts see what it took and the most bytes of one call.
#[derive(Debug, Drop)]
pub struct SureSink {
    bytes: Vec<u8>,
    most: usize,
}

impl Model for SureSink {
    ghost use Rattle.std.specs.Prelude.{◌≤◌};
    ghost use Rattle.vio_io.specs.Memory.{SinkBytes};

    ghost Value = { SinkBytes };

    ghost view = { λ sink. record { taken = sink.bytes.items; most = sink.most } };

    ghost invariant = { λ sink. 1 ≤ sink.most };
}

impl SureSink {
    /// An empty sink, of which one call takes at most `most` bytes.
    pub fn new(alloc: Global, most: usize) -> SureSink
        requires { 1 ≤ most }
        ensures taken { result.taken ≡ [] }
        ensures most { result.most ≡ most }
    {
        SureSink {
            bytes: Vec::new(alloc),
            most,
        }
    }

    /// The bytes that were taken, lent.
    pub fn bytes(&self) -> &[u8]
        ensures { result.now ≡ self.now.taken }
    {
        self.bytes.as_slice()
    }
}

impl Sink for SureSink {
    ghost faults = { λ _. 0 };

    ghost taken = { λ sink. Some sink.taken };

    fn write(&mut self, piece: &[u8]) -> Result<usize, WriteFault>
        ensures bound { IfOk result (λ n. n ≤ length piece.now) }
        ensures progress { IfOk result (λ n. 0 < length piece.now → 0 < n) }
        ensures bytes { WriteAppends (Some self.old.taken) (Some self.new.taken) result piece.now }
        ensures never { ¬ IsErrOf result WriteFault.Failed }
        ensures moved { IfOk result (λ n. n ≡ min self.old.most (length piece.now)) }
        ensures most { self.new.most ≡ self.old.most }
    {
        let n = self.most.min(piece.len());
        self.bytes.extend_from_slice(&piece[..n])?;
        Ok(n)
    }
}
