// Pages of 4,096 bytes that keep every write to them, so that what they held at any moment can be told; and
// such pages shared by several threads without a lock.
#![tactic(auto)]

mod page;
mod pages;
mod seat;
mod steps;
mod stroke;
mod view;

pub use page::Page;
pub use pages::{OpenedPages, Pages, PagesBack, Take};
pub use seat::PageSeat;
pub use stroke::{Stroke, StrokeName};
