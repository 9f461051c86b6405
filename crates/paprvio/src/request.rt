// What the words ask for.

/// What the words ask for.
#[derive(Clone, Copy, Debug, PartialEq, Eq)]
pub enum Request {
    /// The boot text of the source is to be run, by this many workers, 1 to 16.
    Run { workers: u8 },
    /// The boot text of this seed is to be written.
    Generate { seed: u32 },
    /// The boot text of this seed is to be run, by this many workers, and summed up.
    Summarize { seed: u32, workers: u8 },
}
