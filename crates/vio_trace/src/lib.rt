// What a run did, as lists of rows, and the one text that a trace has.
#![tactic(auto)]

mod fields;
mod fitting;
mod lan_lines;
mod lan_rows;
mod lan_words;
mod lines;
mod log_words;
mod outcome;
mod read;
mod read_forms;
mod read_heads;
mod read_kinds;
mod read_lines;
mod read_outcome;
mod read_rows;
mod read_words;
mod rows;
mod sections;
mod unread;
mod window_lines;
mod window_rows;
mod words;
mod write;

pub use lan_rows::{DeliverRow, Filled, FrameRow, HarvestRow, OfferRow, Offered, PortRow, PostRow};
pub use outcome::{Outcome, Shown};
pub use read::{TraceFault, read_trace};
pub use rows::{AnswerRow, DropRow, LogRow, QueueRow, Trace};
pub use window_rows::{CopyRow, PieceRow, StrokeRow, TceValueRow};
pub use write::{form_of, write_all, write_trace};
