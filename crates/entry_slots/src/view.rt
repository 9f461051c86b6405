// What the seats at a table of entries know. These types are for the rule alone: no value of them is
// made.
use std::collections::LinkedList;
use tce_window::TceRow;

/// What a table of entries is told when it is made.
#[derive(Clone, Copy)]
pub struct EntriesKey {
    pub entries: usize,
    pub seats: usize,
}

/// What one seat knows.
pub struct EntryView {
    /// How many entries there are.
    pub entries: u64,
    /// How many of the seats that were opened it stands for: itself, and those joined to it.
    pub share: u64,
    /// Whether it puts values.
    pub owns: bool,
    /// The values known of all entries, in the order in which they were put.
    pub rows: LinkedList<TceRow>,
    /// What each seat that was joined to it had known.
    pub told: LinkedList<LinkedList<TceRow>>,
    /// The entries that it holds: so many, from this one on.
    pub held_from: u64,
    pub held_count: u64,
    /// The words that were read as entries were released, since the last entry was held.
    pub released: LinkedList<u64>,
    /// How many words it read on which an answer may rest, and the last of them.
    pub reads: u64,
    pub word: u64,
}
