// A window of translation entries over the pages of a unit (LoPAR, "Translation Control Entry"): the calls
// of its owner and of a guest as traits, and the plain form, which serves one thread.
#![tactic(auto)]

mod answers;
mod held;
mod held_pages;
mod laying;
mod named;
mod piece;
mod plain;
mod port;
mod reader;
mod region;
mod table;
mod window;

pub use answers::{GetTce, HoldFault, NamedFault, OwnFault, Right, TceAnswer, TceRow};
pub use held::Held;
pub use held_pages::{HeldPage, HeldPages};
pub use piece::{MOST_BYTES, MOST_PIECES, Piece};
pub use port::{GuestPort, OwnerPort, WindowPort};
pub use region::{Region, pieces_over};
pub use table::{Current, TceTable};
pub use window::PlainWindow;
