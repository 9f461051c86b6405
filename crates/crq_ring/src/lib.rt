// A command/response queue of one direction (LoPAR, "Command/Response Queue"): its calls as a trait, and
// its plain form, which keeps lists and serves one thread; and a ring that two threads share without a lock.
#![tactic(auto)]

/// The slots of the largest queue, which has 16 pages.
pub const MAX_SLOTS: u32 = 4096;

mod control;
mod ends;
pub mod laws;
mod pipe;
mod port;
mod records;
mod ring;
mod rows;
mod shared;
mod steps;
mod view;

pub use ends::{Front, RecvEnd, Room, SendEnd};
pub use pipe::PlainPipe;
pub use port::{CrqPort, Poll, Put};
pub use ring::{OpenedRing, Ring};
pub use rows::{DropRow, PipeRow};
pub use shared::SharedPipe;
