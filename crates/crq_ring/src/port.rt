// The calls of a queue of one direction, of which the plain form and the shared form are kinds.
ghost use Rattle.std.specs.Prelude.{◌≡◌, ◌+◌, ◌^◌, ◌<◌, ◌≤◌, true};
ghost use Rattle.crq_ring.specs.Answers.{IfDone, IfDropped, IfGot, IfEmpty};
ghost use Rattle.crq_ring.specs.Port.{PortState, Puts, FindsFull, OnlyPuts, Takes, FindsNone, OnlyTakes};

use vio_num::Entry;

/// What became of an entry.
#[derive(Clone, Copy, Debug, PartialEq, Eq)]
pub enum Put {
    /// It was put, and has this place in its session, from 0.
    Done { number: u64 },
    /// It found the slot of this number full, with this high half in it. Nothing was put.
    Dropped { number: u64, held: u64 },
}

/// What a poll found.
#[derive(Clone, Copy, Debug, PartialEq, Eq)]
pub enum Poll {
    /// The entry with this place in its session, from 0.
    Got { number: u64, entry: Entry },
    /// The slot of this number is empty.
    Empty { number: u64 },
}

/// A queue of one direction, both its ends in one hand.
pub trait CrqPort {
    ghost state: { Self → PortState };

    /// Puts an entry whose first byte is at least 0x80 into the next slot, if that is empty. It is full
    /// exactly where as many entries as there are slots were put and not taken.
    fn put(&mut self, entry: Entry) -> Put
        requires ready { (state self.old).ready ≡ true }
        requires spare { 0 < (state self.old).spare_puts }
        requires used { 2 ^ 63 ≤ entry.high }
        ensures done { IfDone result
            (λ number. Puts (state self.old) number entry (state self.new)) }
        ensures dropped { IfDropped result (λ number held.
            FindsFull (state self.old) number held (state self.new)) }
        ensures spare { (state self.old).spare_puts ≤ (state self.new).spare_puts + 1 }
        ensures rest { OnlyPuts (state self.old) (state self.new) };

    /// Takes the next entry. None is found exactly where all that was put was taken.
    fn poll(&mut self) -> Poll
        requires ready { (state self.old).ready ≡ true }
        requires spare { 0 < (state self.old).spare_polls }
        ensures got { IfGot result
            (λ number entry. Takes (state self.old) number entry (state self.new)) }
        ensures empty { IfEmpty result
            (λ number. FindsNone (state self.old) number (state self.new)) }
        ensures spare { (state self.old).spare_polls ≤ (state self.new).spare_polls + 1 }
        ensures rest { OnlyTakes (state self.old) (state self.new) };
}
