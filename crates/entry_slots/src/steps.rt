// The rule of a table of entries, its steps, and how its seats part and join.
ghost use Rattle.entry_slots.specs.EntryCuts.{remaining, another, with_seat, spent};
ghost use Rattle.entry_slots.specs.EntrySteps.{pinned, unpinned, exchanged};

use crate::view::{EntriesKey, EntryView};
use atomic_table::{Join, Play, Split, TableRule};
use tce_window::TceRow;

/// The rule. The table is told how many entries and how many seats there are.
pub struct EntryRule;

impl TableRule<TceRow, EntryView, EntriesKey> for EntryRule {
    ghost use Rattle.entry_slots.specs.EntryRule.{holds, opened};

    ghost holds = { holds };

    ghost first = { opened };
}

/// The adding of a pin to an entry's word.
pub struct Pin;

impl Play<TceRow, EntryView> for Pin {
    ghost then = { pinned };
}

/// The taking away of a pin from an entry's word.
pub struct Unpin;

impl Play<TceRow, EntryView> for Unpin {
    ghost then = { unpinned };
}

/// The exchange of an entry's word without pins for that of its next value.
pub struct PutValue;

impl Play<TceRow, EntryView> for PutValue {
    ghost then = { exchanged };
}

/// Parts one seat from those that a seat stands for.
pub struct PartEntrySeat;

impl Split<EntryView> for PartEntrySeat {
    ghost left = { remaining };

    ghost right = { another };
}

/// Joins a seat to another.
pub struct JoinEntrySeat;

impl Join<EntryView> for JoinEntrySeat {
    ghost both = { with_seat };

    ghost spent = { spent };
}
