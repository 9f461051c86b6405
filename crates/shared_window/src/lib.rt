// A window of translation entries that an owner and guests in several threads share without a lock: its pages
// by turns, its entries by pins.
#![tactic(auto)]

mod close;
mod guest;
mod hand;
mod named;
mod open;
mod owner;
mod parting;
mod pinning;
mod placing;
mod putting;
mod reading;
mod seat;
mod shared_own;
mod window;
mod writing;

pub use close::WindowBack;
pub use guest::{Guest, SharedGuest};
pub use open::Opened;
pub use owner::{Owner, SharedOwner};
pub use shared_own::SharedOwn;
pub use window::Window;
