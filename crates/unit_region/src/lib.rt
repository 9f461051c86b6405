// What a script line does in a unit's own region, and raw hypervisor calls on its translation entries.
#![tactic(auto)]

mod entry_calls;
mod region;
mod step;

pub use entry_calls::{EntryCall, make as make_entry_call};
pub use region::{fill, pattern, peek, poke, put_tce};
pub use step::Step;
