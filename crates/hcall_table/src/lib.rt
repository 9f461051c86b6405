// The table of hypervisor calls of virtual I/O (LoPAR, "Hypervisor Call Functions"): which row a call's number
// names, which unit its arguments name, and the one call that the row makes on the partition's units.
#![tactic(auto)]

mod hcall;
mod kind;
mod named;
mod returned;
mod table;
mod units;

pub use hcall::Hcall;
pub use kind::UnitKind;
pub use named::Named;
pub use returned::Returned;
pub use table::call;
pub use units::Units;
