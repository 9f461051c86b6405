// What is to be done: what the words ask for, and what the source gives to do.
ghost use Rattle.std.specs.Prelude.{◌≡◌, IfOk, IsErrOf, map, string_bytes};
ghost use Rattle.vio_num.specs.Counts.{Rose};
ghost use Rattle.paprvio.specs.Answer.{BootTask, OwnTask, SourceTask, WordsTask};
ghost use Rattle.paprvio.specs.Generated.{generated};
ghost use Rattle.paprvio.specs.Run.{AreRun, IsRun};

use crate::answer::Answer;
use crate::generator::boot_text_of;
use crate::reading::{ReadFault, read_all};
use crate::refusal::refused_text;
use crate::request::Request;
use crate::stop::Stop;
use crate::task::Task;
use crate::telling::Telling;
use crate::words::read_words;
use boot_text::{PlanFault, read_plan};
use std::alloc::Global;
use vio_io::Source;
use vio_num::NoMemory;

// Reads a boot text, and says what is to be done with it.
fn boot_task(alloc: Global, boot: &[u8], telling: Telling) -> Result<Task, NoMemory>
    ensures { IfOk result (BootTask boot.now telling) }
{
    match read_plan(alloc, boot) {
        Ok(plan) => Ok(Task::Run { plan, telling }),
        Err(PlanFault::Refused { line, cause }) => {
            Ok(Task::Tell(Answer::Refused(refused_text(alloc, line, cause)?)))
        }
        Err(PlanFault::NoMemory) => Err(NoMemory),
    }
}

// Reads the source to its end, and says what is to be done with what it gave.
fn source_task<So: Source>(alloc: Global, source: &mut So) -> Result<Task, Stop>
    ensures task { IfOk result (SourceTask (So.left source.old) (So.left source.new)) }
    ensures failed { IsErrOf result Stop.SourceFailed
        → Rose (So.faults source.old) (So.faults source.new) }
    ensures same { ¬ IsErrOf result Stop.SourceFailed
        → So.faults source.new ≡ So.faults source.old }
    ensures image { ¬ IsErrOf result Stop.ImageFailed }
{
    match read_all(alloc, source) {
        Ok(boot) => match boot_task(alloc, &boot, Telling::Whole) {
            Ok(task) => Ok(task),
            Err(NoMemory) => Err(Stop::NoMemory),
        },
        Err(ReadFault::TooLong) => Ok(Task::Tell(Answer::TooLong)),
        Err(ReadFault::Failed) => Err(Stop::SourceFailed),
        Err(ReadFault::NoMemory) => Err(Stop::NoMemory),
    }
}

// Generates the boot text of a seed, whose run is to be summed up, and says what is to be done with it.
fn summary_task(alloc: Global, seed: u32) -> Result<Task, NoMemory>
    ensures { IfOk result (BootTask (generated seed) Telling.Summary) }
{
    let boot = boot_text_of(alloc, seed)?;
    boot_task(alloc, &boot, Telling::Summary)
}

// Says what is to be done where the source is not asked.
fn own_task(alloc: Global, request: Option<Request>) -> Result<Task, NoMemory>
    requires { ¬ IsRun request }
    ensures { IfOk result (OwnTask request) }
{
    match request {
        None => Ok(Task::Tell(Answer::Usage)),
        Some(Request::Run { .. }) => unreachable!(),
        Some(Request::Generate { seed }) => Ok(Task::Tell(Answer::Generated(boot_text_of(
            alloc, seed,
        )?))),
        Some(Request::Summarize { seed, .. }) => summary_task(alloc, seed),
    }
}

/// Says what the words ask for: the source is read for a run alone.
pub fn words_task<So: Source>(
    alloc: Global,
    words: &[String],
    source: &mut So,
) -> Result<Task, Stop>
    ensures task { IfOk result (WordsTask (map string_bytes words.now) (So.left source.old)
        (So.left source.new)) }
    ensures failed { IsErrOf result Stop.SourceFailed
        → Rose (So.faults source.old) (So.faults source.new) }
    ensures same { ¬ IsErrOf result Stop.SourceFailed
        → So.faults source.new ≡ So.faults source.old }
    ensures image { ¬ IsErrOf result Stop.ImageFailed }
    ensures asked { IsErrOf result Stop.SourceFailed → AreRun (map string_bytes words.now) }
    ensures unread { ¬ AreRun (map string_bytes words.now) → source.new ≡ source.old }
{
    match read_words(alloc, words) {
        Ok(Some(Request::Run { .. })) => source_task(alloc, source),
        Ok(request) => match own_task(alloc, request) {
            Ok(task) => Ok(task),
            Err(NoMemory) => Err(Stop::NoMemory),
        },
        Err(NoMemory) => Err(Stop::NoMemory),
    }
}
