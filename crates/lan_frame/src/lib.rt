// The logical LAN's rules without memory: whom a frame is for, what a control word asks for, and which
// frames a unit accepts.
#![tactic(auto)]

mod control;
mod filter;
mod filters;
mod station;

pub use control::{Control, FilterAction, read_control};
pub use filter::accepts;
pub use filters::{FILTER_PLACES, Filters};
pub use station::{
    BROADCAST, HEADER_BYTES, MAX_FRAME, MIN_FRAME, ZERO, destination, is_broadcast, is_zero,
};
