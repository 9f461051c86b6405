// What came of a step of a script line.
use vio_num::Moved;
use vio_trace::Outcome;

/// What came of a step of a script line.
#[derive(Debug, Drop)]
pub enum Step {
    /// The line ended so.
    Ends(Outcome),
    /// It is to be gone on with in the next turn.
    Waits(Moved),
}
