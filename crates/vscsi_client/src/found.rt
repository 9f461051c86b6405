// What an entry is to a login.

/// What an entry is to a login that is under way.
#[derive(Clone, Copy, Debug, PartialEq, Eq)]
pub enum Found {
    /// Its answer, which grants so many requests.
    Granted(u32),
    /// Its answer, which rejects it for this reason.
    Rejected(u32),
    /// An event.
    Lost,
    /// An entry of the handshake, or of another kind or format.
    Step,
    /// The answer to a command or a task, which is kept.
    Answer,
    /// An entry that is of no use.
    Nothing,
    /// The page of its answer is in use, by this word of it.
    InUse { page: u16, word: u64 },
}
