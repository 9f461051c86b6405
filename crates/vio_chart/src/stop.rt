// Why there is no picture.

/// How the program ended, beside done.
#[derive(Clone, Copy)]
pub enum Stop {
    /// The bytes are no trace's text from this line on.
    Bad(u64),
    /// Standard input failed.
    Input,
    /// Standard output failed.
    Output,
    /// No memory was found.
    NoMemory,
}
