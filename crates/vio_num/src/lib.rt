// Numbers, names and records that every layer of the virtual I/O server speaks of: entries of a
// command/response queue, unit names, hypervisor return codes, and the rows of a server's history.
#![tactic(auto)]

mod entry;
mod history;
mod hypervisor;
mod memory;
mod names;
mod sequence;

/// The bytes of a page, which are as many as the addresses of a translation entry (LoPAR, "TCE").
pub const PAGE_BYTES: u64 = 4096;

pub use entry::{Entry, Kind};
pub use history::{Grant, Lapse, Served};
pub use hypervisor::{Hrc, Moved};
pub use memory::NoMemory;
pub use names::{Mac, UnitId};
pub use sequence::{Bytes, Sequence};
