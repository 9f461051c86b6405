// A port of the logical LAN (LoPAR, "Logical LAN"): the buffers that a partition posts for frames,
// the frames that take them, and the receive entries that the partition reads. This is the plain
// form, which serves one thread.
#![tactic(auto)]

mod answers;
mod buffer;
mod fill;
mod pools;
mod port;
mod queue;
mod rows;
mod settings;
mod told;

pub use answers::{AddAnswer, Deliver, Harvest};
pub use buffer::{FRAME_OFFSET, buffer_address, buffer_len, is_buffer, is_valid};
pub use port::PlainPort;
pub use rows::{DeliverRow, HarvestRow, PostRow};
pub use settings::Settings;
