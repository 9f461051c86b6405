// How many calls were made on an image, so that contracts can say which calls a command makes.
/// How many calls were made on an image, kind by kind, those that failed among them. Each count
/// stands still at 2^64 - 1.
#[derive(Clone, Copy, Debug, PartialEq, Eq)]
pub struct DeviceCalls {
    /// Calls that asked for the number of blocks.
    pub sizings: u64,
    /// Calls that read a block.
    pub reads: u64,
    /// Calls that wrote a block.
    pub writes: u64,
    /// Calls that flushed.
    pub flushes: u64,
}

impl DeviceCalls {
    ghost use Rattle.std.specs.Prelude.{◌≡◌};
    ghost use Rattle.vio_num.specs.Counts.{risen};
    ghost use Rattle.vio_io.specs.Image.{no_calls};

    /// No call was made yet.
    pub fn none() -> DeviceCalls
        ensures { result ≡ no_calls }
    {
        DeviceCalls {
            sizings: 0,
            reads: 0,
            writes: 0,
            flushes: 0,
        }
    }

    /// Counts a call for the number of blocks.
    pub fn count_sizing(&mut self)
        ensures { self.new ≡ record self.old { sizings = risen self.old.sizings } }
    {
        self.sizings = self.sizings.saturating_add(1);
    }

    /// Counts a read.
    pub fn count_read(&mut self)
        ensures { self.new ≡ record self.old { reads = risen self.old.reads } }
    {
        self.reads = self.reads.saturating_add(1);
    }

    /// Counts a write.
    pub fn count_write(&mut self)
        ensures { self.new ≡ record self.old { writes = risen self.old.writes } }
    {
        self.writes = self.writes.saturating_add(1);
    }

    /// Counts a flush.
    pub fn count_flush(&mut self)
        ensures { self.new ≡ record self.old { flushes = risen self.old.flushes } }
    {
        self.flushes = self.flushes.saturating_add(1);
    }
}
