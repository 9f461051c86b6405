// Which calls on an object fail, how many were made so far, and how many of them failed.
ghost use Rattle.std.specs.Prelude.{◌≡◌, ◌↔◌, IsTrue, IsErr};
ghost use Rattle.vio_io.specs.Script.{fails, after_call, new_script};

use crate::outside::Failed;
use std::marker::Model;

/// The plan of an object's faults. Calls are numbered from 0.
#[derive(Debug, Drop)]
pub(crate) struct Script {
    failing: Vec<u64>,
    calls: u64,
    faults: u64,
}

impl Model for Script {
    ghost use Rattle.vio_io.specs.Script.{Script as Plan};

    ghost Value = { Plan };

    ghost view = { λ script. record { failing = script.failing.items; calls = script.calls; faults = script.faults } };
}

impl Script {
    /// A script by which the calls with these numbers fail.
    pub(crate) fn new(failing: Vec<u64>) -> Script
        ensures { result ≡ new_script failing.items }
    {
        Script {
            failing,
            calls: 0,
            faults: 0,
        }
    }

    /// Counts a call, and refuses it where the script says so.
    pub(crate) fn call(&mut self) -> Result<(), Failed>
        ensures fails { IsErr result ↔ IsTrue (fails self.old) }
        ensures script { self.new ≡ after_call self.old }
    {
        let fails = self.failing.contains(&self.calls);
        self.calls = self.calls.saturating_add(1);
        if fails {
            self.faults = self.faults.saturating_add(1);
            return Err(Failed);
        }
        Ok(())
    }
}
