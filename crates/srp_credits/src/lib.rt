// The credits of an SRP login on both sides (SRP, REQUEST LIMIT DELTA): how many requests the initiator
// may send, and how many the target takes. Contracts speak of histories of events.
#![tactic(auto)]

mod fault;
mod initiator;
mod tags;
mod target;

pub use fault::CreditFault;
pub use initiator::Initiator;
pub use target::Target;
