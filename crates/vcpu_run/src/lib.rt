// The machine: partitions that run their scripts over virtual I/O units, turn by turn, until nothing moves.
#![tactic(auto)]

mod client_call;
mod copying;
mod driver;
mod gather;
mod lines;
mod machine;
mod making;
mod op;
mod pair;
mod partition_units;
mod port_line;
mod queue_calls;
mod raw_call;
mod rounds;
mod script;
mod seat;
mod seats;
mod session_end;
mod sessions;
mod taking;
mod unit_seat;
mod units;
mod watched;
mod windows;

pub use machine::{Machine, Settled, settle_plan};
