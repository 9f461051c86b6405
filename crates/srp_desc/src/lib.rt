// The descriptor lists that the buffers of an SRP command name (ANSI INCITS 365, "Data buffer
// descriptor formats"). `pieces` in specs/Pieces.antt is what a buffer names.
#![tactic(auto)]

mod laws;
mod pieces;
mod sums;
mod table;
mod tables;

pub use laws::{fetched_table_is_read, named_pieces_sum_up};
pub use pieces::{DescFault, MAX_DATA_LEN, MAX_TABLE_LEN, Pieces, pieces_of};
pub use table::read_table;
pub use tables::tables_to_fetch;
