// The LAN units of a run: what a script line and a raw hypervisor call do at one of them, and the rows that a trace has of
// them.
#![tactic(auto)]

mod calls;
mod frames;
mod lan;
mod lines;
mod posting;
mod rows;
mod seat;
mod sending;
mod taking;
mod windows;

pub use calls::PortCall;
pub use lan::Lan;
pub use lines::PortStep;
pub use rows::LanRows;
pub use seat::PortSeat;
