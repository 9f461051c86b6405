// A source over bytes in memory whose listed calls fail, so that a test can place each fault.
ghost use Rattle.std.specs.Prelude.{◌≡◌, ◌↔◌, ◌≤◌, ◌++◌, min, Some, IsTrue, IsErr, IfOk, OnOk, OnErr, length, take, drop};
ghost use Rattle.std.specs.Io.KnownBytes.{ReadConsumes};
ghost use Rattle.vio_num.specs.Counts.{Rose};
ghost use Rattle.vio_io.specs.Script.{fails, after_call, new_script};

use crate::outside::{Failed, Source};
use crate::script::Script;
use crate::sure_source::SureSource;
use std::marker::Model;

/// A source over bytes in memory that fails at listed calls.
#[derive(Debug, Drop)]
pub struct MemSource {
    source: SureSource,
    script: Script,
}

impl Model for MemSource {
    ghost use Rattle.vio_io.specs.Script.{ScriptedSource};

    ghost Value = { ScriptedSource };

    ghost view = { λ mem. record { left = mem.source.left; most = mem.source.most; script = mem.script } };
}

impl MemSource {
    /// A source of these bytes. One call moves at most `most` of them; the calls whose numbers, from 0,
    /// are in `failing` fail.
    pub fn new(bytes: Vec<u8>, most: usize, failing: Vec<u64>) -> MemSource
        requires { 1 ≤ most }
        ensures left { result.left ≡ bytes.items }
        ensures most { result.most ≡ most }
        ensures script { result.script ≡ new_script failing.items }
    {
        MemSource {
            source: SureSource::new(bytes, most),
            script: Script::new(failing),
        }
    }
}

impl Source for MemSource {
    ghost faults = { λ mem. mem.script.faults };

    ghost left = { λ mem. Some mem.left };

    fn read(&mut self, out: &mut [u8]) -> Result<usize, Failed>
        ensures bound { IfOk result (λ n. n ≤ length out.old) }
        ensures bytes { ReadConsumes (Some self.old.left) (Some self.new.left) result out.new }
        ensures same { OnOk result (self.new.script.faults ≡ self.old.script.faults) }
        ensures failed { OnErr result (Rose self.old.script.faults self.new.script.faults) }
        ensures fails { IsErr result ↔ IsTrue (fails self.old.script) }
        ensures script { self.new.script ≡ after_call self.old.script }
        ensures moved { IfOk result
            (λ n. n ≡ min self.old.most (min (length out.old) (length self.old.left))) }
        ensures copied { IfOk result (λ n. out.new ≡ take n self.old.left ++ drop n out.old) }
        ensures rest { IfOk result (λ n. self.new.left ≡ drop n self.old.left) }
        ensures kept { OnErr result (self.new.left ≡ self.old.left) }
        ensures untouched { OnErr result (out.new ≡ out.old) }
        ensures most { self.new.most ≡ self.old.most }
    {
        self.script.call()?;
        self.source.read(out)
    }
}
