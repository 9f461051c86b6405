// One step of a script line at a LAN port.
ghost use Rattle.std.specs.Prelude.{◌≡◌, IfOk, OnOk};
ghost use Rattle.lan_script.specs.Entries.{values_at};
ghost use Rattle.unit_region.specs.LinePuts.{StepPuts};
ghost use Rattle.vcpu_run.specs.Credited.{IsFresh, StepsPort, taken_in};
ghost use Rattle.vcpu_run.specs.Ports.{IsPortOf, unit_of};
ghost use Rattle.vcpu_run.specs.PortBytes.{StepBytes};
ghost use Rattle.vcpu_run.specs.PortPosts.{StepFits};
ghost use Rattle.vcpu_run.specs.PortRegions.{LaysLogged, StepShown, StepWrites};
ghost use Rattle.vcpu_run.specs.PortReplays.{StepReplays};
ghost use Rattle.vcpu_run.specs.PortSteps.{IsBeside, StepRises};
ghost use Rattle.vcpu_run.specs.PortWords.{done_in};
ghost use Rattle.vcpu_run.specs.Works.{IsPortVerb};

use crate::script::Progress;
use boot_text::{Line, Verb};
use lan_script::{Lan, PortStep};
use unit_region::Step;
use vio_num::{NoMemory, UnitId};

/// One step of this line at the port of its unit.
pub(crate) fn step(
    lan: &mut Lan,
    partition: u8,
    line: &Line,
    progress: &mut Progress,
) -> Result<Step, NoMemory>
    requires there { IsPortOf lan.old.seats (unit_of partition line.now.unit) }
    requires verb { IsPortVerb line.now.verb }
    ensures lan { lan.new.seats ≡ lan.old.seats }
    ensures told { IfOk result (StepRises (unit_of partition line.now.unit) line.now.verb
        (done_in progress.old) (done_in progress.new) lan.old lan.new) }
    ensures replays { IfOk result (StepReplays (unit_of partition line.now.unit) line.now.verb
        (done_in progress.old) lan.old lan.new) }
    ensures fits { IfOk result (StepFits (unit_of partition line.now.unit) line.now.verb
        (done_in progress.old) (done_in progress.new) lan.old lan.new) }
    ensures bytes { IfOk result (StepBytes (unit_of partition line.now.unit) line.now.verb
        lan.old lan.new) }
    ensures puts { IfOk result (λ step. StepPuts line.now.verb step
        (values_at lan.old (unit_of partition line.now.unit))
        (values_at lan.new (unit_of partition line.now.unit))) }
    ensures shows { IfOk result (StepShown (unit_of partition line.now.unit) line.now lan.new) }
    ensures marks { OnOk result (LaysLogged (unit_of partition line.now.unit) line.now.number
        lan.old lan.new) }
    ensures writes { IfOk result (StepWrites (unit_of partition line.now.unit) line.now
        lan.old lan.new) }
    ensures beside { OnOk result (IsBeside (unit_of partition line.now.unit)
        lan.old lan.new) }
    ensures credit { StepsPort line.now.verb
        (taken_in progress.old) (taken_in progress.new) result }
{
    let unit = UnitId {
        partition,
        unit: line.unit,
    };
    match lan.step(unit, line, progress.done())? {
        PortStep::Ends(outcome) => Ok(Step::Ends(outcome)),
        PortStep::Waits { moved, done } => {
            *progress = progress_at(&line.verb, done);
            Ok(Step::Waits(moved))
        }
    }
}

// How far a line came that took, or posted, so many.
fn progress_at(verb: &Verb, done: u64) -> Progress
    ensures fresh { IsFresh verb.now (taken_in result) }
    ensures done { done_in result ≡ done }
{
    match verb {
        Verb::Take { .. } => Progress::Took(done),
        _ => Progress::Posted(done),
    }
}
