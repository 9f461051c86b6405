// The run of a plan over an image: its blocks are counted, the plan is run, and what is asked of its trace is told.
ghost use Rattle.std.specs.Prelude.{◌≡◌, IfOk, IsErrOf};
ghost use Rattle.boot_text.specs.Sound.{IsSound};
ghost use Rattle.vio_trace.specs.Form.{IsInOrder};
ghost use Rattle.vio_io.specs.Image.{FailsAfter, after_sizing};
ghost use Rattle.paprvio.specs.Answer.{IsToldOfTrace, TellsOf, answer_status, answer_text};
ghost use Rattle.paprvio.specs.declared.status.Status.TheVariants.{Done};
ghost use Rattle.paprvio.specs.Run.{IsCounted};
ghost use Rattle.vcpu_run.specs.OnDisk.{IsServed};

use crate::answer::Answer;
use crate::stop::Stop;
use crate::summary::summary_text;
use crate::telling::Telling;
use boot_text::Plan;
use std::alloc::Global;
use vcpu_run::{Settled, settle_plan};
use vio_io::{Blocks, Failed};
use vio_num::NoMemory;
use vio_trace::{Trace, form_of};

/// An answer or why there is none, and the image as it was left.
#[derive(Drop)]
pub struct Answered<Di> {
    pub image: Di,
    pub answer: Result<Answer, Stop>,
}

// Tells of a trace what is to be told.
fn tell(alloc: Global, telling: Telling, trace: Trace) -> Result<Answer, NoMemory>
    requires { IsInOrder trace }
    ensures done { IfOk result (λ answer. answer_status answer ≡ Done) }
    ensures told { IfOk result (λ answer. IsToldOfTrace telling trace (answer_text answer)) }
{
    match telling {
        Telling::Whole => {
            form_of(&trace);
            Ok(Answer::Trace(trace))
        }
        Telling::Summary => Ok(Answer::Summary(summary_text(alloc, &trace)?)),
    }
}

// Runs a plan over an image of `count` blocks.
fn run_counted<Di: Blocks + Drop>(
    alloc: Global,
    plan: &Plan,
    telling: Telling,
    image: Di,
    count: u64,
) -> Answered<Di>
    requires sound { IsSound plan.now }
    requires count { count ≡ (Di.state image).size }
    ensures told { IfOk result.answer (TellsOf telling plan.now
        (Di.state image) (Di.state result.image)) }
    ensures read { ¬ IsErrOf result.answer Stop.SourceFailed }
    ensures image { ¬ IsErrOf result.answer Stop.ImageFailed }
    ensures served { IsServed (Di.state image).blocks (Di.state result.image).blocks }
{
    let Settled { image, trace } = settle_plan(alloc, plan, image, count);
    let answer = match trace {
        Some(trace) => match tell(alloc, telling, trace) {
            Ok(answer) => Ok(answer),
            Err(NoMemory) => Err(Stop::NoMemory),
        },
        None => Err(Stop::NoMemory),
    };
    Answered { image, answer }
}

/// Counts the blocks of the image, runs the plan over it, and tells what is to be told of that.
pub fn run_plan<Di: Blocks + Drop>(
    alloc: Global,
    plan: &Plan,
    telling: Telling,
    image: Di,
) -> Answered<Di>
    requires { IsSound plan.now }
    ensures told { IfOk result.answer (TellsOf telling plan.now
        (Di.state image) (Di.state result.image)) }
    ensures counted { ¬ IsErrOf result.answer Stop.ImageFailed → IsCounted (Di.state image) }
    ensures failed { IsErrOf result.answer Stop.ImageFailed
        → FailsAfter (after_sizing (Di.state image)) (Di.state result.image) }
    ensures read { ¬ IsErrOf result.answer Stop.SourceFailed }
    ensures served { IsServed (Di.state image).blocks (Di.state result.image).blocks }
{
    let mut image = image;
    match image.count() {
        Ok(count) => run_counted(alloc, plan, telling, image, count),
        Err(Failed) => Answered {
            image,
            answer: Err(Stop::ImageFailed),
        },
    }
}
