// A link of two command/response queues (LoPAR, "Command/Response Queue"): registration, transport events
// and initialisation. The calls of an end are a trait; the plain form serves one thread.
#![tactic(auto)]

/// The slots of a queue page, each for an entry of 16 bytes.
pub const PAGE_SLOTS: u32 = 256;

mod answers;
mod end;
mod handshake;
pub mod laws;
mod link;
mod plain_end;
mod seat;
mod shared_end;
mod shared_link;
mod side;

pub use answers::{EventAnswer, FreeAnswer, PollAnswer, RegAnswer, SendAnswer};
pub use crq_ring::MAX_SLOTS;
pub use end::CrqEnd;
pub use handshake::{Handshake, Step};
pub use link::PlainLink;
pub use plain_end::PlainEnd;
pub use seat::LinkSeat;
pub use shared_end::SharedEnd;
pub use shared_link::{Link, OpenedLink};
