// What a run has to do, once its words and its source were read.

use crate::answer::Answer;
use crate::telling::Telling;
use boot_text::Plan;

/// What is to be done.
#[derive(Debug, Drop)]
pub enum Task {
    /// This answer is to be told; no plan is run.
    Tell(Answer),
    /// This plan is to be run, and so much is to be told of its run.
    Run { plan: Plan, telling: Telling },
}
