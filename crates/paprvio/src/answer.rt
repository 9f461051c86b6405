// What a run answers: its status, and the text that goes to the sink.
ghost use Rattle.std.specs.Prelude.{◌≡◌};
ghost use Rattle.paprvio.specs.Answer.{answer_status, answer_text};
ghost use Rattle.vio_trace.specs.Passing.{IsWritten};

use crate::status::Status;
use std::alloc::Global;
use vio_io::{Sink, WriteFault};
use vio_trace::{Trace, write_all, write_trace};

/// What a run has to say, once it has done its work.
#[derive(Debug, Drop)]
pub enum Answer {
    /// The words are not accepted.
    Usage,
    /// The input is longer than a boot text may be.
    TooLong,
    /// The boot text says no plan: the text names its first wrong line and the cause.
    Refused(Vec<u8>),
    /// The run's trace, whose text is made as it is written.
    Trace(Trace),
    /// The boot text of a seed.
    Generated(Vec<u8>),
    /// The summary of a run.
    Summary(Vec<u8>),
}

impl Answer {
    /// The status of a run whose answer was written whole.
    pub fn status(&self) -> Status
        ensures { result ≡ answer_status self.now }
    {
        match self {
            Answer::Usage => Status::Usage,
            Answer::TooLong | Answer::Refused(_) => Status::Refused,
            Answer::Trace(_) | Answer::Generated(_) | Answer::Summary(_) => Status::Done,
        }
    }

    /// Writes the text to the sink.
    pub fn write<S: Sink>(&self, alloc: Global, sink: &mut S) -> Result<(), WriteFault>
        ensures { IsWritten result (answer_text self.now)
            (S.taken sink.old) (S.taken sink.new) (S.faults sink.old) (S.faults sink.new) }
    {
        match self {
            Answer::Usage => write_all(sink, b"paprvio: usage\n"),
            Answer::TooLong => write_all(sink, b"paprvio: line 0: TooLong\n"),
            Answer::Trace(trace) => write_trace(alloc, trace, sink),
            Answer::Refused(text) | Answer::Generated(text) | Answer::Summary(text) => {
                write_all(sink, text)
            }
        }
    }
}
