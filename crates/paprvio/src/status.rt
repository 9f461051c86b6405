// How a run ends, and the exit status that says so.
ghost use Rattle.std.specs.Prelude.{◌≡◌};
ghost use Rattle.paprvio.specs.Status.{status_code};

/// How a run ended.
#[derive(Clone, Copy, Debug, PartialEq, Eq)]
pub enum Status {
    /// The work is done and its text was written.
    Done,
    /// The words are not accepted; the usage was written.
    Usage,
    /// The bytes that were read say no plan that is run; the cause was written.
    Refused,
    /// The source failed; nothing was written.
    SourceFailed,
    /// The sink failed; it took a front of the text.
    SinkFailed,
    /// The image failed as its blocks were counted; nothing was written.
    ImageFailed,
    /// No memory was found; the sink took a front of the text, or nothing.
    NoMemory,
}

impl Status {
    /// The exit status of the program.
    pub fn code(self) -> u8
        ensures { result ≡ status_code self }
    {
        match self {
            Status::Done => 0,
            Status::Usage => 1,
            Status::Refused => 2,
            Status::SourceFailed => 3,
            Status::SinkFailed => 4,
            Status::ImageFailed => 5,
            Status::NoMemory => 6,
        }
    }
}
