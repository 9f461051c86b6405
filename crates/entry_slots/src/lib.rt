// The entries of a translation window that several threads share without a lock, each an atomic word: its
// pins, its version, and what its value grants.
#![tactic(auto)]

mod entries;
mod put;
mod seat;
mod steps;
mod view;
mod word;

pub use entries::{Entries, OpenedEntries};
pub use put::Put;
pub use seat::EntrySeat;
pub use word::EntryWord;
