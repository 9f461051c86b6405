// What became of a value to be put.
use crate::word::EntryWord;

/// What became of a value to be put.
#[derive(Clone, Copy, Debug, PartialEq, Eq)]
pub enum Put {
    /// It is the entry's last value.
    Done,
    /// The word that was read has pins, or shows another last value. The entry keeps its value.
    Refused(EntryWord),
}
