// The disk behind a virtual SCSI server: reads a command descriptor block and executes it on an
// image, with status, sense data and the lengths from which residuals come (SPC, SBC).
#![tactic(auto)]

mod command;
mod disk;
mod parameters;
mod reply;
mod transfer;

pub use command::{DiskOp, read_cdb};
pub use disk::execute;
pub use reply::ScsiReply;
