// The call that the program makes: words, a source, an image and a sink in, a status and the image out.
ghost use Rattle.std.specs.Prelude.{◌≡◌, ◌↔◌, ◌∷◌, ◌⊎◌, [], map, string_bytes, codes, IfOk, IsErr, IsErrOf, IsTrue};
ghost use Rattle.vio_io.specs.Image.{FailsAfter, after_sizing};
ghost use Rattle.vio_num.specs.Counts.{Rose};
ghost use Rattle.vcpu_run.specs.OnDisk.{IsServed};
ghost use Rattle.paprvio.specs.Answer.{answer_status, answer_text, IsAnswerTo, WordsTask};
ghost use Rattle.paprvio.specs.Ending.{FinishesAs, outside};
ghost use Rattle.paprvio.specs.Run.{AreRun, AsksForRun, IsCounted, IsUnrun, IsUnwritten, RunEndsAs, RunEndsWith, MustEndAs, FitsWords};
ghost use Rattle.paprvio.specs.Status.{status_code};
ghost use Rattle.paprvio.specs.declared.status.Status.TheVariants.{Done, SourceFailed, ImageFailed};

use crate::answer::Answer;
use crate::answering::words_task;
use crate::running::{Answered, run_plan};
use crate::status::Status;
use crate::stop::Stop;
use crate::task::Task;
use std::alloc::Global;
use std::thread::Threads;
use vio_io::{Blocks, Gate, Sink, Source, WriteFault};

/// How a run ended, with the image that was handed in.
#[derive(Drop)]
pub struct Ended<Di> {
    /// The code of a [`Status`].
    pub status: u8,
    pub image: Di,
}

// Does what the words ask for. The image is handed on as it is unless a plan is run.
fn answer_words<So: Source, Di: Blocks + Drop>(
    alloc: Global,
    words: &[String],
    source: &mut So,
    image: Di,
) -> Answered<Di>
    ensures answer { IfOk result.answer (IsAnswerTo (map string_bytes words.now)
        (So.left source.old) (So.left source.new) (Di.state image) (Di.state result.image)) }
    ensures failed { IsErrOf result.answer Stop.SourceFailed
        → Rose (So.faults source.old) (So.faults source.new) }
    ensures same { ¬ IsErrOf result.answer Stop.SourceFailed
        → So.faults source.new ≡ So.faults source.old }
    ensures counting { IsErrOf result.answer Stop.ImageFailed
        → FailsAfter (after_sizing (Di.state image)) (Di.state result.image) }
    ensures runs { IsErrOf result.answer Stop.ImageFailed
        → AsksForRun (map string_bytes words.now) (So.left source.old) (So.left source.new) }
    ensures counted { ¬ IsErrOf result.answer Stop.ImageFailed
        → (result.image ≡ image) ⊎ IsCounted (Di.state image) }
    ensures asked { IsErrOf result.answer Stop.SourceFailed → AreRun (map string_bytes words.now) }
    ensures unread { ¬ AreRun (map string_bytes words.now) → source.new ≡ source.old }
    ensures unrun { ¬ AsksForRun (map string_bytes words.now)
        (So.left source.old) (So.left source.new) → result.image ≡ image }
    ensures told { IfOk result.answer (λ answer. ¬ (answer_status answer ≡ Done)
        → result.image ≡ image) }
    ensures stopped { IsErrOf result.answer Stop.SourceFailed → result.image ≡ image }
    ensures served { IsServed (Di.state image).blocks (Di.state result.image).blocks }
{
    match words_task(alloc, words, source) {
        Ok(Task::Tell(answer)) => Answered {
            image,
            answer: Ok(answer),
        },
        Ok(Task::Run { plan, telling }) => run_plan(alloc, &plan, telling, image),
        Err(stop) => Answered {
            image,
            answer: Err(stop),
        },
    }
}

// Writes the answer, and says how that ended.
fn finish<Si: Sink>(alloc: Global, sink: &mut Si, answer: &Answer) -> Status
    ensures { FinishesAs (answer_status answer.now) (answer_text answer.now) result
        (Si.taken sink.old) (Si.taken sink.new) (Si.faults sink.old) (Si.faults sink.new) }
{
    match answer.write(alloc, sink) {
        Ok(()) => answer.status(),
        Err(WriteFault::Failed) => Status::SinkFailed,
        Err(WriteFault::NoMemory) => Status::NoMemory,
    }
}

/// How a run ended, and the image as it was left.
#[derive(Drop)]
struct Finished<Di> {
    status: Status,
    image: Di,
}

// Does what the words ask for, and writes the answer.
fn run_words<So: Source, Di: Blocks + Drop, Si: Sink>(
    alloc: Global,
    words: &[String],
    source: &mut So,
    image: Di,
    sink: &mut Si,
) -> Finished<Di>
    ensures ends { RunEndsWith (map string_bytes words.now) result.status
        (outside (So.left source.old) (Si.taken sink.old) (So.faults source.old)
        (Si.faults sink.old) (Di.state image))
        (outside (So.left source.new) (Si.taken sink.new) (So.faults source.new)
        (Si.faults sink.new) (Di.state result.image)) }
    ensures asked { result.status ≡ SourceFailed → AreRun (map string_bytes words.now) }
    ensures runs { result.status ≡ ImageFailed
        → AsksForRun (map string_bytes words.now) (So.left source.old) (So.left source.new) }
    ensures unread { ¬ AreRun (map string_bytes words.now) → source.new ≡ source.old }
    ensures unwritten { IsUnwritten (status_code result.status) → sink.new ≡ sink.old }
    ensures unrun { ¬ AsksForRun (map string_bytes words.now)
        (So.left source.old) (So.left source.new) → result.image ≡ image }
    ensures untouched { IsUnrun (status_code result.status) → result.image ≡ image }
    ensures counted { ¬ (result.status ≡ ImageFailed)
        → (result.image ≡ image) ⊎ IsCounted (Di.state image) }
    ensures served { IsServed (Di.state image).blocks (Di.state result.image).blocks }
{
    let Answered { image, answer } = answer_words(alloc, words, source, image);
    match answer {
        Ok(answer) => Finished {
            status: finish(alloc, sink, &answer),
            image,
        },
        Err(stop) => Finished {
            status: stop.status(),
            image,
        },
    }
}

/// Runs the words over what the source holds and over the image, and writes the answer to the sink: the one call
/// that the program makes. It needs no more of the runtime than threads, and always returns.
///
/// The tests go in the order words, reading, boot text, counting the blocks of the image, running, writing, and the
/// first that fails decides the status. The image is handed back at each status; it is as it was handed in unless a
/// plan was run or its blocks were counted, and what it then has is what some commands made of it, one behind the other.
pub fn run<R: Threads + Sync, So: Source, Di: Blocks + Send + Drop, Si: Sink, G: Gate + Sync>(
    _rt: &R,
    alloc: Global,
    words: &[String],
    source: &mut So,
    image: Di,
    sink: &mut Si,
    _gate: &G,
) -> Ended<Di>
    ensures ends { RunEndsAs (map string_bytes words.now) result.status
        (outside (So.left source.old) (Si.taken sink.old) (So.faults source.old)
        (Si.faults sink.old) (Di.state image))
        (outside (So.left source.new) (Si.taken sink.new) (So.faults source.new)
        (Si.faults sink.new) (Di.state result.image)) }
    ensures must { MustEndAs (map string_bytes words.now) result.status
        (outside (So.left source.old) (Si.taken sink.old) (So.faults source.old)
        (Si.faults sink.old) (Di.state image))
        (outside (So.left source.new) (Si.taken sink.new) (So.faults source.new)
        (Si.faults sink.new) (Di.state result.image)) }
    ensures words { FitsWords (map string_bytes words.now) result.status }
    ensures runs { result.status ≡ status_code ImageFailed
        → AsksForRun (map string_bytes words.now) (So.left source.old) (So.left source.new) }
    ensures unread { ¬ AreRun (map string_bytes words.now) → source.new ≡ source.old }
    ensures unwritten { IsUnwritten result.status → sink.new ≡ sink.old }
    ensures unrun { ¬ AsksForRun (map string_bytes words.now)
        (So.left source.old) (So.left source.new) → result.image ≡ image }
    ensures untouched { IsUnrun result.status → result.image ≡ image }
    ensures counted { ¬ (result.status ≡ status_code ImageFailed)
        → (result.image ≡ image) ⊎ IsCounted (Di.state image) }
    ensures served { IsServed (Di.state image).blocks (Di.state result.image).blocks }
{
    let finished = run_words(alloc, words, source, image, sink);
    Ended {
        status: finished.status.code(),
        image: finished.image,
    }
}
