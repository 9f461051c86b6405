// A sink in memory whose listed calls fail, so that a test can place each fault.
ghost use Rattle.std.specs.Prelude.{◌≡◌, ◌↔◌, ◌<◌, ◌≤◌, [], min, Some, IsTrue, IfOk, IsErrOf, length};
ghost use Rattle.std.specs.Io.KnownBytes.{WriteAppends};
ghost use Rattle.vio_num.specs.Counts.{Rose};
ghost use Rattle.vio_io.specs.Script.{fails, after_call, new_script};

use crate::outside::{Sink, WriteFault};
use crate::script::Script;
use crate::sure_sink::SureSink;
use std::alloc::Global;
use std::marker::Model;

/// A sink in memory that fails at listed calls.
#[derive(Debug, Drop)]
pub struct MemSink {
    sink: SureSink,
    script: Script,
}

impl Model for MemSink {
    ghost use Rattle.vio_io.specs.Script.{ScriptedSink};

    ghost Value = { ScriptedSink };

    ghost view = { λ mem. record { taken = mem.sink.taken; most = mem.sink.most; script = mem.script } };
}

impl MemSink {
    /// An empty sink. One call takes at most `most` bytes; the calls whose numbers, from 0, are in
    /// `failing` fail.
    pub fn new(alloc: Global, most: usize, failing: Vec<u64>) -> MemSink
        requires { 1 ≤ most }
        ensures taken { result.taken ≡ [] }
        ensures most { result.most ≡ most }
        ensures script { result.script ≡ new_script failing.items }
    {
        MemSink {
            sink: SureSink::new(alloc, most),
            script: Script::new(failing),
        }
    }

    /// The bytes that were taken, lent.
    pub fn bytes(&self) -> &[u8]
        ensures { result.now ≡ self.now.taken }
    {
        self.sink.bytes()
    }
}

impl Sink for MemSink {
    ghost faults = { λ mem. mem.script.faults };

    ghost taken = { λ mem. Some mem.taken };

    fn write(&mut self, piece: &[u8]) -> Result<usize, WriteFault>
        ensures bound { IfOk result (λ n. n ≤ length piece.now) }
        ensures progress { IfOk result (λ n. 0 < length piece.now → 0 < n) }
        ensures bytes { WriteAppends (Some self.old.taken) (Some self.new.taken) result piece.now }
        ensures same { ¬ IsErrOf result WriteFault.Failed → self.new.script.faults ≡
            self.old.script.faults }
        ensures failed { IsErrOf result WriteFault.Failed →
            Rose self.old.script.faults self.new.script.faults }
        ensures fails { IsErrOf result WriteFault.Failed ↔ IsTrue (fails self.old.script) }
        ensures script { self.new.script ≡ after_call self.old.script }
        ensures moved { IfOk result (λ n. n ≡ min self.old.most (length piece.now)) }
        ensures most { self.new.most ≡ self.old.most }
    {
        self.script.call()?;
        self.sink.write(piece)
    }
}
