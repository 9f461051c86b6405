// The client driver of a virtual SCSI adapter (LoPAR, "Virtual SCSI"; SRP): it logs in at a server, sends it
// commands and tasks, and takes their answers, over any end of a link and any window.
#![tactic(auto)]

mod answers;
mod client;
mod data_in;
mod found;
mod login;
mod login_put;
mod logout;
mod op;
mod outgoing;
mod putting;
mod reading;
mod row;
mod slots;
mod stage;
mod submit;
mod table;
mod taking;
mod task;
mod turning;

/// The slots for information units, of 256 bytes each, from the region's start. A login that finds none free
/// uses the place behind them.
pub const SLOTS: u64 = 200;

/// The pages that a client's region has at least.
pub const MIN_PAGES: u16 = 14;

/// The first address of the region that data and tables may have: that of page 13.
pub const DATA_START: u64 = 53_248;

/// The most bytes of data that are read at once.
pub const PART_BYTES: u32 = 65_536;

pub use answers::{DataFault, LoginTurn, Refused, Taken};
pub use client::Client;
pub use found::Found;
pub use op::{Dir, Op};
pub use outgoing::{Outgoing, Span};
pub use reading::Slot;
pub use row::{DataIn, Row};
pub use stage::{Due, Stage};
pub use table::Table;
