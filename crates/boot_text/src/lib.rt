// Boot texts: lines that name the partitions of a machine, their units, and the scripts that they run.
#![tactic(auto)]

mod cause;
mod common_script;
mod cost;
mod draft;
mod judge;
mod keyword;
mod names;
mod numbers;
mod place;
mod plan;
mod port_script;
mod read;
mod said;
mod script;
mod statement;
mod transfer;
mod verb;
mod words;

pub use cause::{Cause, PlanFault};
pub use plan::{Line, Partition, Plan, SERVER_PAGES, UnitPlan};
pub use read::{MOST_LINE, MOST_TEXT, read_plan};
pub use verb::Verb;
