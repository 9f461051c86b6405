// A guest of entries, with the range that it holds.
ghost use Rattle.std.specs.Prelude.{◌≡◌};
ghost use Rattle.entry_slots.specs.Entries.{HoldsRange};

use entry_slots::{Entries, EntrySeat, EntryWord};

/// A seat, and the range that it holds.
#[derive(Drop)]
pub(crate) struct Holder {
    pub(crate) seat: EntrySeat,
    pub(crate) from: u16,
    pub(crate) count: u16,
}

impl Holder {
    /// Pins the entry, if it is the next of the range.
    pub(crate) fn pin(&mut self, entries: &Entries, entry: u16) -> Option<EntryWord>
        requires { HoldsRange entries.now self.old.from self.old.count self.old.seat }
        ensures { HoldsRange entries.now self.new.from self.new.count self.new.seat }
    {
        if entry >= entries.count() || self.count > entry {
            return None;
        }
        if self.count == 0 {
            self.from = entry;
        }
        if self.from != entry - self.count {
            return None;
        }
        let word = entries.pin(&mut self.seat, entry);
        self.count += 1;
        Some(word)
    }

    /// Releases the first entry of the range.
    pub(crate) fn unpin(&mut self, entries: &Entries) -> Option<EntryWord>
        requires { HoldsRange entries.now self.old.from self.old.count self.old.seat }
        ensures { HoldsRange entries.now self.new.from self.new.count self.new.seat }
    {
        if self.count == 0 || self.from >= entries.count() {
            return None;
        }
        let word = entries.unpin(&mut self.seat, self.from);
        self.from += 1;
        self.count -= 1;
        Some(word)
    }
}

// A seat that holds nothing.
pub(crate) fn without_range(seat: EntrySeat) -> Holder
    requires { seat.held_count ≡ 0 }
    ensures { (result.seat ≡ seat) × (result.count ≡ 0) }
{
    Holder {
        seat,
        from: 0,
        count: 0,
    }
}
