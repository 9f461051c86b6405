// Why a run stops before it has an answer.
ghost use Rattle.std.specs.Prelude.{◌≡◌};
ghost use Rattle.paprvio.specs.Answer.{stop_status};

use crate::status::Status;

/// Why a run stopped before it had an answer.
#[derive(Clone, Copy, Debug, PartialEq, Eq)]
pub enum Stop {
    /// The source failed.
    SourceFailed,
    /// The image failed as its blocks were counted.
    ImageFailed,
    /// No memory was found.
    NoMemory,
}

impl Stop {
    /// The status of a run that stopped so.
    pub fn status(self) -> Status
        ensures { result ≡ stop_status self }
    {
        match self {
            Stop::SourceFailed => Status::SourceFailed,
            Stop::ImageFailed => Status::ImageFailed,
            Stop::NoMemory => Status::NoMemory,
        }
    }
}
