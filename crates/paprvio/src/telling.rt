// What is told of a run.

/// What is told of a run that was done.
#[derive(Clone, Copy, Debug, PartialEq, Eq)]
pub enum Telling {
    /// The text of its trace.
    Whole,
    /// Its summary: three lines of numbers.
    Summary,
}
