// A switch of the logical LAN (LoPAR, "Logical LAN"): the ports of its units, and the frames between them.
// This is the plain form, which serves one thread.
#![tactic(auto)]

mod answers;
mod calls;
mod map;
mod send;
mod source;
mod station;
mod switch;

pub use answers::{LanAnswer, Offer, SendRecord};
pub use map::{PortMap, PortWindow};
pub use switch::{PlainSwitch, PortPlan};

/// The switch in use; until there is a shared form it is the plain one.
pub type Switch = PlainSwitch;
