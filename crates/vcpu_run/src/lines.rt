// What a script line does at its client unit.
ghost use Rattle.std.specs.Prelude.{◌≡◌, ◌⊎◌, ◌≤◌, [], Bool, IfErr, IfOk, IsErr, None, OnOk, true, false, ℕ, Some, length};
ghost use Rattle.std.specs.List.{sum};
ghost use Rattle.srp_desc.specs.declared.pieces.TheConstants.{MAX_DATA_LEN};
ghost use Rattle.crq_session.specs.EndState.{EndState};
ghost use Rattle.vscsi_client.specs.declared.TheConstants.{MIN_PAGES};
ghost use Rattle.vscsi_client.specs.Transferred.{FitRows};
ghost use Rattle.vscsi_client.specs.Units.{FitsOp};
ghost use Rattle.boot_text.specs.declared.verb.Verb.{Verb as VerbValue};
ghost use Rattle.boot_text.specs.declared.verb.Verb.TheVariants as verbs;
ghost use Rattle.vcpu_run.specs.Acts.{ActsFor, LogsInOnce, LogsOutOnce, ReadsData, ResetsOnce, SubmitsOnce, TakesForLine, TasksOnce, acting};
ghost use Rattle.vcpu_run.specs.ClientMoments.{RegionStepped};
ghost use Rattle.vcpu_run.specs.ClientSlots.{HoldsSlots};
ghost use Rattle.vcpu_run.specs.Credited.{StepsAgreed, taken_in, uses_credit};
ghost use Rattle.unit_region.specs.Steps.{IsPlain};
ghost use Rattle.vcpu_run.specs.DataKept.{StepSends};
ghost use Rattle.vcpu_run.specs.DataRead.{StepReads};
ghost use Rattle.vcpu_run.specs.DropsShown.{IsFullBy, StepFull};
ghost use Rattle.vcpu_run.specs.ShutShown.{MeetsShut, StepShut};
ghost use Rattle.vcpu_run.specs.EventsHeard.{StepHears};
ghost use Rattle.vcpu_run.specs.EventsPut.{FreesOnce, StepMakes};
ghost use Rattle.vcpu_run.specs.Freeing.{is_reset};
ghost use Rattle.vcpu_run.specs.Holding.{IsHeldOff, StepsOpen, TurnsOpen, link_seen};
ghost use Rattle.vcpu_run.specs.Sendings.{SaysSent, SaysTurned, SaysWhy};
ghost use Rattle.vcpu_run.specs.Commands.{IsOpOf, cdb_of};
ghost use Rattle.vcpu_run.specs.LinesShow.{LogsIn, StepShows, further_of, read_by, requests, seen_by, seen_since, written_by};
ghost use Rattle.vio_num.specs.declared.names.UnitId.{UnitId as UnitValue};
ghost use Rattle.vcpu_run.specs.PlainSteps.{LogsInPlainly, StepsPlainly, own_of};
ghost use Rattle.vcpu_run.specs.Replay.{asks, ranges_of};
ghost use Rattle.vcpu_run.specs.Takings.{Gives, StepsTaken};
ghost use Rattle.vcpu_run.specs.Telling.{LeavesOut, StepsOut, StepsTold, seated};
ghost use Rattle.vcpu_run.specs.declared.script.Progress.{Progress as ProgressValue};
ghost use Rattle.vcpu_run.specs.declared.script.Progress.TheVariants as stages;
ghost use Rattle.vcpu_run.specs.ValuesPut.{StepPuts};
ghost use Rattle.vcpu_run.specs.Works.{IsUnitVerb, Works};
ghost use Rattle.unit_region.specs.Kept.{KeepsWindow};
ghost use Rattle.unit_region.specs.Marks.{LaysNoStroke};

use crate::driver::Driver;
use crate::op::op_of;
use crate::script::Progress;
use crate::watched::Watched;
use boot_text::{Line, Verb};
use crq_session::{CrqEnd, FreeAnswer};
use tce_window::OwnerPort;
use unit_region::{Step, fill, peek, poke, put_tce};
use vio_num::{Moved, NoMemory};
use vio_trace::Outcome;
use vscsi_client::{DataFault, LoginTurn, Op, Refused};

// What comes of a request that was sent, or was not.
fn sent(answer: Result<u64, Refused>) -> Result<Step, NoMemory>
    ensures sent { SaysSent answer result }
    ensures why { IfErr answer (λ why. SaysWhy why result) }
    ensures memory { IfErr answer (λ why. why ≡ Refused.NoMemory → IsErr result) }
{
    let outcome = match answer {
        Ok(tag) => Outcome::Sent(tag),
        Err(Refused::Range) => Outcome::Range,
        Err(Refused::NotLoggedIn) => Outcome::NotLoggedIn,
        Err(Refused::NoCredit { limit }) => Outcome::NoCredit(limit),
        Err(Refused::Overlap { tag }) => Outcome::Overlap(tag),
        Err(Refused::Closed { control: _ }) => Outcome::Closed,
        Err(Refused::Dropped { number, held }) => Outcome::Dropped { number, held },
        Err(Refused::InUse { page: _, word: _ }) => return Ok(Step::Waits(Moved::Quiet)),
        Err(Refused::NoMemory) => return Err(NoMemory),
    };
    Ok(Step::Ends(outcome))
}

// What comes of a turn of a login.
fn turned(turn: LoginTurn, moved: Moved) -> Step
    ensures { SaysTurned turn result }
{
    match turn {
        LoginTurn::Granted(credits) => Step::Ends(Outcome::Granted(credits)),
        LoginTurn::Rejected(reason) => Step::Ends(Outcome::Rejected(reason)),
        LoginTurn::Lost => Step::Ends(Outcome::Lost),
        LoginTurn::Again => Step::Waits(moved),
        LoginTurn::Busy { number: _, held: _ } => Step::Waits(moved),
    }
}

// Adds up the bytes of a command's data.
fn sum_of(bytes: &[u8]) -> u64
    requires { length bytes.now ≤ MAX_DATA_LEN }
    ensures { result ≡ sum bytes.now }
{
    let mut total: u64 = 0;
    for byte in bytes {
        total += u64::from(*byte);
    }
    total
}

impl Driver {
    // One turn of a login.
    fn login<C: CrqEnd, O: OwnerPort>(
        &mut self,
        crq: &mut Watched<C>,
        own: &mut O,
        line: u64,
    ) -> Result<Step, NoMemory>
        requires { MIN_PAGES ≤ (O.state own.old).place.size }
        ensures told { (p : ProgressValue) → StepsTold (O.state own.old).place.size verbs.Login
            (seated self.old.client p (C.state crq.old.end).registered)
            (seated self.new.client p (C.state crq.new.end).registered)
            result }
        ensures renewed { StepsTold (O.state own.old).place.size verbs.Reset
            (seated self.old.client stages.Freed (C.state crq.old.end).registered)
            (seated self.new.client stages.Freed (C.state crq.new.end).registered)
            result }
        ensures out { (self.old.client.granted ≡ None)
            ⊎ ((C.state crq.old.end).registered ≡ false) → LeavesOut self.new.client result }
        ensures shows { HoldsSlots self.old.client →
            (unit : UnitValue) (mark : ℕ) (verb : VerbValue) →
            requests verb ≡ false → written_by verb ≡ None → read_by verb ≡ None →
            further_of verb ≡ Some LogsIn → StepShows
            (seen_since C.is_shared (O.state own.new)
            (C.state crq.old.end) (C.state crq.new.end)) unit mark verb result }
        ensures registered { C.is_shared ≡ false → TurnsOpen
            (IsHeldOff (link_seen (C.state crq.old.end)))
            (C.state crq.new.end).registered result }
        ensures takes { StepsTaken verbs.Login 0 0 self.old self.new result }
        ensures retakes { StepsTaken verbs.Reset 0 0 self.old self.new result }
        ensures full { StepFull (IsFullBy C.is_shared (C.state crq.new.end)) result }
        ensures gives { OnOk result (Gives self.old self.new
            (C.state crq.old.end) (C.state crq.new.end)) }
        ensures hears { StepHears result self.old.client self.new.client
            (C.state crq.old.end) (C.state crq.new.end) }
        ensures works { Works false C.is_shared O.is_shared (Some line)
            (C.state crq.old.end) (C.state crq.new.end)
            (O.state own.old) (O.state own.new) self.old self.new }
        ensures values { (O.state own.new).values ≡ (O.state own.old).values }
        ensures credit { (verb : VerbValue) →
            StepsAgreed verb 0 0 self.old.client self.new.client result }
        ensures plainly { C.is_shared ≡ false → O.is_shared ≡ false → LogsInPlainly
            (own_of self.old (C.state crq.old.end) (O.state own.old))
            (own_of self.new (C.state crq.new.end) (O.state own.new)) result }
        ensures acts { IfOk result (LogsInOnce line
            (acting self.old C.is_shared (C.state crq.old.end) O.is_shared (O.state own.old))
            (acting self.new C.is_shared (C.state crq.new.end) O.is_shared (O.state own.new))) }
    {
        let turn = self.client.login_turn(crq, own, line)?;
        Ok(turned(turn, crq.moved()))
    }

    // A step of a reset: it frees the queue, and is a turn of a login once that is free.
    fn reset<C: CrqEnd, O: OwnerPort>(
        &mut self,
        crq: &mut Watched<C>,
        own: &mut O,
        line: u64,
        progress: &mut Progress,
    ) -> Result<Step, NoMemory>
        requires { MIN_PAGES ≤ (O.state own.old).place.size }
        ensures told { StepsTold (O.state own.old).place.size verbs.Reset
            (seated self.old.client progress.old (C.state crq.old.end).registered)
            (seated self.new.client progress.new (C.state crq.new.end).registered)
            result }
        ensures out { C.is_shared ≡ false → StepsOut verbs.Reset
            (seated self.old.client progress.old (C.state crq.old.end).registered)
            (seated self.new.client progress.new (C.state crq.new.end).registered)
            result }
        ensures shows { HoldsSlots self.old.client →
            (unit : UnitValue) (mark : ℕ) (verb : VerbValue) →
            requests verb ≡ false → written_by verb ≡ None → read_by verb ≡ None →
            further_of verb ≡ Some LogsIn → StepShows
            (seen_since C.is_shared (O.state own.new)
            (C.state crq.old.end) (C.state crq.new.end)) unit mark verb result }
        ensures registered { C.is_shared ≡ false → StepsOpen verbs.Reset progress.new
            (IsHeldOff (link_seen (C.state crq.old.end)))
            (C.state crq.new.end).registered result }
        ensures works { Works true C.is_shared O.is_shared (Some line)
            (C.state crq.old.end) (C.state crq.new.end)
            (O.state own.old) (O.state own.new) self.old self.new }
        ensures values { (O.state own.new).values ≡ (O.state own.old).values }
        ensures credit { StepsAgreed verbs.Reset (taken_in progress.old) (taken_in progress.new)
            self.old.client self.new.client result }
        ensures takes { StepsTaken verbs.Reset (taken_in progress.old) (taken_in progress.new)
            self.old self.new result }
        ensures full { StepFull (IsFullBy C.is_shared (C.state crq.new.end)) result }
        ensures frees { FreesOnce progress.old progress.new
            (C.state crq.old.end) (C.state crq.new.end) }
        ensures gives { OnOk result (Gives self.old self.new
            (C.state crq.old.end) (C.state crq.new.end)) }
        ensures hears { StepHears result self.old.client self.new.client
            (C.state crq.old.end) (C.state crq.new.end) }
        ensures plainly { C.is_shared ≡ false → O.is_shared ≡ false →
            StepsPlainly verbs.Reset progress.old progress.new
            (own_of self.old (C.state crq.old.end) (O.state own.old))
            (own_of self.new (C.state crq.new.end) (O.state own.new)) result }
        ensures acts { IfOk result (ResetsOnce line progress.old progress.new
            (acting self.old C.is_shared (C.state crq.old.end) O.is_shared (O.state own.old))
            (acting self.new C.is_shared (C.state crq.new.end) O.is_shared (O.state own.new))) }
    {
        if *progress == Progress::Freed {
            return self.login(crq, own, line);
        }
        crq.reserve(1)?;
        match crq.free() {
            FreeAnswer::Success => {
                self.freed();
                *progress = Progress::Freed;
                Ok(Step::Waits(Moved::Moved))
            }
            FreeAnswer::Parameter => {
                *progress = Progress::Freed;
                self.login(crq, own, line)
            }
            FreeAnswer::Busy { control: _ } => Ok(Step::Waits(Moved::Quiet)),
        }
    }

    // The data of the command with this tag.
    fn data<O: OwnerPort>(&mut self, own: &mut O, tag: u64) -> Result<Step, NoMemory>
        requires { FitRows (O.state own.old).place.size self.old.client }
        ensures window { KeepsWindow O.is_shared (O.state own.old) (O.state own.new) }
        ensures marks { LaysNoStroke O.is_shared (O.state own.old) (O.state own.new) }
        ensures values { (O.state own.new).values ≡ (O.state own.old).values }
        ensures unit { self.new.unit ≡ self.old.unit }
        ensures client { self.new.client ≡ self.old.client }
        ensures plain { IsPlain result }
        ensures answers { self.new.answers ≡ self.old.answers }
        ensures takes { StepsTaken (verbs.Data tag) 0 0 self.old self.new result }
        ensures full { (shared : Bool) (end : EndState) → StepFull (IsFullBy shared end) result }
        ensures reads { O.is_shared ≡ false → (shared : Bool) (end : EndState) →
            IfOk result (StepReads (seen_by shared (O.state own.new) end)
            self.old.client (verbs.Data tag)) }
        ensures plainly { O.is_shared ≡ false → (end : EndState) (p : ProgressValue) →
            StepsPlainly (verbs.Data tag) p p (own_of self.old end (O.state own.old))
            (own_of self.new end (O.state own.new)) result }
        ensures acts { (shared : Bool) (end : EndState) → IfOk result (ReadsData tag
            (acting self.old shared end O.is_shared (O.state own.old))
            (acting self.new shared end O.is_shared (O.state own.new))) }
    {
        match self.client.data_of(own, tag) {
            Ok(bytes) => Ok(Step::Ends(Outcome::Data {
                len: bytes.len() as u64,
                sum: sum_of(bytes.as_slice()),
            })),
            Err(DataFault::Unknown) => Ok(Step::Ends(Outcome::Unknown)),
            Err(DataFault::Stale { page }) => Ok(Step::Ends(Outcome::Stale(page))),
            Err(DataFault::InUse { page: _, word: _ }) => Ok(Step::Waits(Moved::Quiet)),
            Err(DataFault::NoMemory) => Err(NoMemory),
        }
    }

    // Sends a command.
    fn command<C: CrqEnd, O: OwnerPort>(
        &mut self,
        crq: &mut Watched<C>,
        own: &mut O,
        op: &Op,
        line: u64,
    ) -> Result<Step, NoMemory>
        requires pages { MIN_PAGES ≤ (O.state own.old).place.size }
        requires fits { FitsOp op.now }
        ensures told { (verb : VerbValue) (p : ProgressValue) → IsOpOf verb op.now →
            StepsTold (O.state own.old).place.size verb
            (seated self.old.client p (C.state crq.old.end).registered)
            (seated self.new.client p (C.state crq.new.end).registered)
            result }
        ensures shows { (verb : VerbValue) → IsOpOf verb op.now →
            op.now.cdb ≡ cdb_of verb → StepShows
            (seen_since C.is_shared (O.state own.new)
            (C.state crq.old.end) (C.state crq.new.end))
            (O.state own.old).place.unit line verb result }
        ensures works { Works false C.is_shared O.is_shared (Some line)
            (C.state crq.old.end) (C.state crq.new.end)
            (O.state own.old) (O.state own.new) self.old self.new }
        ensures values { (O.state own.new).values ≡ (O.state own.old).values }
        ensures credit { (verb : VerbValue) → uses_credit verb ≡ true →
            StepsAgreed verb 0 0 self.old.client self.new.client result }
        ensures takes { (verb : VerbValue) → IsOpOf verb op.now →
            StepsTaken verb 0 0 self.old self.new result }
        ensures inward { (verb : VerbValue) → IsOpOf verb op.now →
            IfOk result (StepSends self.new.client.rows verb) }
        ensures full { StepFull (IsFullBy C.is_shared (C.state crq.new.end)) result }
        ensures shut { (verb : VerbValue) → IsOpOf verb op.now →
            StepShut (MeetsShut C.is_shared self.old.client
            (C.state crq.old.end) (C.state crq.new.end)) verb result }
        ensures gives { OnOk result (Gives self.old self.new
            (C.state crq.old.end) (C.state crq.new.end)) }
        ensures hears { StepHears result self.old.client self.new.client
            (C.state crq.old.end) (C.state crq.new.end) }
        ensures plainly { C.is_shared ≡ false → O.is_shared ≡ false →
            (verb : VerbValue) (p : ProgressValue) → IsOpOf verb op.now → StepsPlainly verb p p
            (own_of self.old (C.state crq.old.end) (O.state own.old))
            (own_of self.new (C.state crq.new.end) (O.state own.new)) result }
        ensures acts { IfOk result (SubmitsOnce line op.now
            (acting self.old C.is_shared (C.state crq.old.end) O.is_shared (O.state own.old))
            (acting self.new C.is_shared (C.state crq.new.end) O.is_shared (O.state own.new))) }
    {
        sent(self.client.submit(crq, own, op, line))
    }

    // Sends a task management request.
    fn task<C: CrqEnd, O: OwnerPort>(
        &mut self,
        crq: &mut Watched<C>,
        own: &mut O,
        function: u8,
        tag: u64,
        line: u64,
    ) -> Result<Step, NoMemory>
        requires { MIN_PAGES ≤ (O.state own.old).place.size }
        ensures told { (verb : VerbValue) (p : ProgressValue) →
            asks verb ≡ true → ranges_of verb ≡ [] → StepsTold (O.state own.old).place.size verb
            (seated self.old.client p (C.state crq.old.end).registered)
            (seated self.new.client p (C.state crq.new.end).registered)
            result }
        ensures shows { StepShows
            (seen_since C.is_shared (O.state own.new)
            (C.state crq.old.end) (C.state crq.new.end))
            (O.state own.old).place.unit line (verbs.Task function tag) result }
        ensures works { Works false C.is_shared O.is_shared (Some line)
            (C.state crq.old.end) (C.state crq.new.end)
            (O.state own.old) (O.state own.new) self.old self.new }
        ensures values { (O.state own.new).values ≡ (O.state own.old).values }
        ensures credit { (verb : VerbValue) → uses_credit verb ≡ true →
            StepsAgreed verb 0 0 self.old.client self.new.client result }
        ensures takes { StepsTaken (verbs.Task function tag) 0 0 self.old self.new result }
        ensures full { StepFull (IsFullBy C.is_shared (C.state crq.new.end)) result }
        ensures shut { StepShut (MeetsShut C.is_shared self.old.client
            (C.state crq.old.end) (C.state crq.new.end)) (verbs.Task function tag) result }
        ensures gives { OnOk result (Gives self.old self.new
            (C.state crq.old.end) (C.state crq.new.end)) }
        ensures hears { StepHears result self.old.client self.new.client
            (C.state crq.old.end) (C.state crq.new.end) }
        ensures plainly { C.is_shared ≡ false → O.is_shared ≡ false →
            (p : ProgressValue) → StepsPlainly (verbs.Task function tag) p p
            (own_of self.old (C.state crq.old.end) (O.state own.old))
            (own_of self.new (C.state crq.new.end) (O.state own.new)) result }
        ensures acts { IfOk result (TasksOnce line function tag
            (acting self.old C.is_shared (C.state crq.old.end) O.is_shared (O.state own.old))
            (acting self.new C.is_shared (C.state crq.new.end) O.is_shared (O.state own.new))) }
    {
        sent(self.client.task(crq, own, function, tag, line))
    }

    // Sends a logout.
    fn logout<C: CrqEnd, O: OwnerPort>(
        &mut self,
        crq: &mut Watched<C>,
        own: &mut O,
        line: u64,
    ) -> Result<Step, NoMemory>
        requires { MIN_PAGES ≤ (O.state own.old).place.size }
        ensures told { (p : ProgressValue) → StepsTold (O.state own.old).place.size verbs.Logout
            (seated self.old.client p (C.state crq.old.end).registered)
            (seated self.new.client p (C.state crq.new.end).registered)
            result }
        ensures shows { StepShows
            (seen_since C.is_shared (O.state own.new)
            (C.state crq.old.end) (C.state crq.new.end))
            (O.state own.old).place.unit line verbs.Logout result }
        ensures works { Works false C.is_shared O.is_shared (Some line)
            (C.state crq.old.end) (C.state crq.new.end)
            (O.state own.old) (O.state own.new) self.old self.new }
        ensures values { (O.state own.new).values ≡ (O.state own.old).values }
        ensures credit { (verb : VerbValue) → uses_credit verb ≡ false →
            StepsAgreed verb 0 0 self.old.client self.new.client result }
        ensures takes { StepsTaken verbs.Logout 0 0 self.old self.new result }
        ensures full { StepFull (IsFullBy C.is_shared (C.state crq.new.end)) result }
        ensures shut { StepShut (MeetsShut C.is_shared self.old.client
            (C.state crq.old.end) (C.state crq.new.end)) verbs.Logout result }
        ensures gives { OnOk result (Gives self.old self.new
            (C.state crq.old.end) (C.state crq.new.end)) }
        ensures hears { StepHears result self.old.client self.new.client
            (C.state crq.old.end) (C.state crq.new.end) }
        ensures plainly { C.is_shared ≡ false → O.is_shared ≡ false →
            (p : ProgressValue) → StepsPlainly verbs.Logout p p
            (own_of self.old (C.state crq.old.end) (O.state own.old))
            (own_of self.new (C.state crq.new.end) (O.state own.new)) result }
        ensures acts { IfOk result (LogsOutOnce line
            (acting self.old C.is_shared (C.state crq.old.end) O.is_shared (O.state own.old))
            (acting self.new C.is_shared (C.state crq.new.end) O.is_shared (O.state own.new))) }
    {
        sent(self.client.logout(crq, own, line))
    }

    // A step of taking this many answers.
    fn take_on<C: CrqEnd, O: OwnerPort>(
        &mut self,
        crq: &mut Watched<C>,
        own: &mut O,
        count: u64,
        progress: &mut Progress,
    ) -> Result<Step, NoMemory>
        requires { MIN_PAGES ≤ (O.state own.old).place.size }
        ensures works { Works false C.is_shared O.is_shared None
            (C.state crq.old.end) (C.state crq.new.end)
            (O.state own.old) (O.state own.new) self.old self.new }
        ensures values { (O.state own.new).values ≡ (O.state own.old).values }
        ensures told { StepsTold (O.state own.old).place.size (verbs.Take count)
            (seated self.old.client progress.old (C.state crq.old.end).registered)
            (seated self.new.client progress.new (C.state crq.new.end).registered)
            result }
        ensures credit { StepsAgreed (verbs.Take count) (taken_in progress.old)
            (taken_in progress.new) self.old.client self.new.client result }
        ensures takes { StepsTaken (verbs.Take count) (taken_in progress.old)
            (taken_in progress.new) self.old self.new result }
        ensures full { StepFull (IsFullBy C.is_shared (C.state crq.new.end)) result }
        ensures gives { OnOk result (Gives self.old self.new
            (C.state crq.old.end) (C.state crq.new.end)) }
        ensures hears { StepHears result self.old.client self.new.client
            (C.state crq.old.end) (C.state crq.new.end) }
        ensures plainly { C.is_shared ≡ false → O.is_shared ≡ false →
            StepsPlainly (verbs.Take count) progress.old progress.new
            (own_of self.old (C.state crq.old.end) (O.state own.old))
            (own_of self.new (C.state crq.new.end) (O.state own.new)) result }
        ensures acts { IfOk result (TakesForLine count
            (taken_in progress.old) (taken_in progress.new)
            (acting self.old C.is_shared (C.state crq.old.end) O.is_shared (O.state own.old))
            (acting self.new C.is_shared (C.state crq.new.end) O.is_shared (O.state own.new))) }
    {
        let mut taken = progress.taken();
        let step = self.take(crq, own, count, &mut taken)?;
        *progress = Progress::Took(taken);
        Ok(step)
    }

    /// One step of a line of one unit.
    pub(crate) fn step<C: CrqEnd, O: OwnerPort>(
        &mut self,
        crq: &mut Watched<C>,
        own: &mut O,
        line: &Line,
        progress: &mut Progress,
    ) -> Result<Step, NoMemory>
        requires verb { IsUnitVerb line.now.verb }
        requires pages { MIN_PAGES ≤ (O.state own.old).place.size }
        requires rows { FitRows (O.state own.old).place.size self.old.client }
        requires slots { HoldsSlots self.old.client }
        ensures told { StepsTold (O.state own.old).place.size line.now.verb
            (seated self.old.client progress.old (C.state crq.old.end).registered)
            (seated self.new.client progress.new (C.state crq.new.end).registered)
            result }
        ensures out { C.is_shared ≡ false → StepsOut line.now.verb
            (seated self.old.client progress.old (C.state crq.old.end).registered)
            (seated self.new.client progress.new (C.state crq.new.end).registered)
            result }
        ensures shows { StepShows
            (seen_since C.is_shared (O.state own.new)
            (C.state crq.old.end) (C.state crq.new.end))
            (O.state own.old).place.unit line.now.number line.now.verb result }
        ensures registered { C.is_shared ≡ false → StepsOpen line.now.verb progress.new
            (IsHeldOff (link_seen (C.state crq.old.end)))
            (C.state crq.new.end).registered result }
        ensures works { Works (is_reset line.now.verb) C.is_shared O.is_shared
            (Some line.now.number) (C.state crq.old.end) (C.state crq.new.end)
            (O.state own.old) (O.state own.new) self.old self.new }
        ensures region { RegionStepped O.is_shared line.now
            (O.state own.old) (O.state own.new) result }
        ensures puts { IfOk result (λ step. StepPuts line.now.verb step
            (O.state own.old).values (O.state own.new).values) }
        ensures reads { O.is_shared ≡ false → IfOk result (StepReads
            (seen_by C.is_shared (O.state own.new) (C.state crq.new.end))
            self.old.client line.now.verb) }
        ensures inward { IfOk result (StepSends self.new.client.rows line.now.verb) }
        ensures full { StepFull (IsFullBy C.is_shared (C.state crq.new.end)) result }
        ensures shut { StepShut (MeetsShut C.is_shared self.old.client
            (C.state crq.old.end) (C.state crq.new.end)) line.now.verb result }
        ensures credit { StepsAgreed line.now.verb (taken_in progress.old)
            (taken_in progress.new) self.old.client self.new.client result }
        ensures takes { StepsTaken line.now.verb (taken_in progress.old)
            (taken_in progress.new) self.old self.new result }
        ensures frees { StepMakes (is_reset line.now.verb) progress.old progress.new
            (C.state crq.old.end) (C.state crq.new.end) }
        ensures gives { OnOk result (Gives self.old self.new
            (C.state crq.old.end) (C.state crq.new.end)) }
        ensures hears { StepHears result self.old.client self.new.client
            (C.state crq.old.end) (C.state crq.new.end) }
        ensures plainly { C.is_shared ≡ false → O.is_shared ≡ false →
            StepsPlainly line.now.verb progress.old progress.new
            (own_of self.old (C.state crq.old.end) (O.state own.old))
            (own_of self.new (C.state crq.new.end) (O.state own.new)) result }
        ensures acts { IfOk result (ActsFor line.now.number line.now.verb progress.old progress.new
            (acting self.old C.is_shared (C.state crq.old.end) O.is_shared (O.state own.old))
            (acting self.new C.is_shared (C.state crq.new.end) O.is_shared (O.state own.new))) }
    {
        let mark = u64::from(line.number);
        if let Some(op) = op_of(&line.verb) {
            return self.command(crq, own, &op, mark);
        }
        match &line.verb {
            Verb::Login => self.login(crq, own, mark),
            Verb::Reset => self.reset(crq, own, mark, progress),
            Verb::Logout => self.logout(crq, own, mark),
            Verb::Task { function, tag } => self.task(crq, own, *function as u8, *tag, mark),
            Verb::Take { count } => self.take_on(crq, own, *count, progress),
            Verb::Data { tag } => self.data(own, *tag),
            Verb::Fill { at, len, seed } => fill(self.alloc, own, *at, *len, *seed, mark),
            Verb::Poke { at, bytes } => poke(own, *at, bytes.as_slice(), mark),
            Verb::Peek { at, len } => peek(self.alloc, own, *at, *len),
            Verb::Tce {
                entry,
                page,
                readable,
                writable,
            } => { put_tce(own, *entry, *page, *readable, *writable) }
            _ => unreachable!(),
        }
    }
}
