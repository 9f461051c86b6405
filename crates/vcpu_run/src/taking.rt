// Taking answers.
ghost use Rattle.std.specs.Prelude.{◌≡◌, ◌≤◌, IfOk, None, OnOk, false};
ghost use Rattle.boot_text.specs.declared.verb.Verb.TheVariants as verbs;
ghost use Rattle.vscsi_client.specs.declared.TheConstants.{MIN_PAGES};
ghost use Rattle.vcpu_run.specs.Acts.{TakesForLine, TakesOnce, TakesRest, acting};
ghost use Rattle.vcpu_run.specs.Credited.{StepsAgreed, taken_in};
ghost use Rattle.vcpu_run.specs.DropsShown.{IsFullBy, StepFull};
ghost use Rattle.vcpu_run.specs.EventsHeard.{Hears, StepHears, lost_by};
ghost use Rattle.vcpu_run.specs.Links.{EndRests};
ghost use Rattle.vcpu_run.specs.Moves.{HandlesBy};
ghost use Rattle.vcpu_run.specs.PlainSteps.{RestsPlainly, StepsPlainly, TakesPlainly, own_of};
ghost use Rattle.vcpu_run.specs.Sendings.{TookOf};
ghost use Rattle.vcpu_run.specs.Takings.{Gives, StepsTaken, TookTaken};
ghost use Rattle.vcpu_run.specs.Telling.{StepsTold, TookTold, seated};
ghost use Rattle.vcpu_run.specs.declared.script.Progress.{Progress as ProgressValue};
ghost use Rattle.vcpu_run.specs.declared.script.Progress.TheVariants as stages;
ghost use Rattle.vcpu_run.specs.Works.{Works};

use crate::driver::Driver;
use crate::watched::Watched;
use crq_session::CrqEnd;
use tce_window::OwnerPort;
use unit_region::Step;
use vio_num::{Moved, NoMemory};
use vio_trace::Outcome;
use vscsi_client::Taken;

/// What came of taking one entry.
#[derive(Clone, Copy, Debug, PartialEq, Eq)]
enum Took {
    Answer,
    Other,
    Lost,
    Nothing,
    InUse,
}

impl Driver {
    // Takes one entry, and notes an answer.
    fn take_one<C: CrqEnd, O: OwnerPort>(
        &mut self,
        crq: &mut Watched<C>,
        own: &mut O,
    ) -> Result<Took, NoMemory>
        requires { MIN_PAGES ≤ (O.state own.old).place.size }
        ensures works { Works false C.is_shared O.is_shared None
            (C.state crq.old.end) (C.state crq.new.end)
            (O.state own.old) (O.state own.new) self.old self.new }
        ensures values { (O.state own.new).values ≡ (O.state own.old).values }
        ensures took { IfOk result (λ took. TookOf took self.old.client self.new.client) }
        ensures told { IfOk result (λ took. TookTold took self.old.client self.new.client) }
        ensures takes { IfOk result (λ took. TookTaken took self.old self.new) }
        ensures gives { OnOk result (Gives self.old self.new
            (C.state crq.old.end) (C.state crq.new.end)) }
        ensures hears { IfOk result (λ took. Hears (lost_by took) self.old.client self.new.client
            (C.state crq.old.end) (C.state crq.new.end)) }
        ensures queue { (C.state crq.new.end).registered ≡ (C.state crq.old.end).registered }
        ensures none { IfOk result (λ took. C.is_shared ≡ false → took ≡ Took.Nothing →
            EndRests (C.state crq.old.end) (C.state crq.new.end)) }
        ensures plainly { IfOk result (λ took. C.is_shared ≡ false → O.is_shared ≡ false →
            TakesPlainly took
            (own_of self.old (C.state crq.old.end) (O.state own.old))
            (own_of self.new (C.state crq.new.end) (O.state own.new))) }
        ensures acts { IfOk result (λ took. TakesOnce took
            (acting self.old C.is_shared (C.state crq.old.end) O.is_shared (O.state own.old))
            (acting self.new C.is_shared (C.state crq.new.end) O.is_shared (O.state own.new))) }
    {
        match self.client.take_answer(crq, own)? {
            Taken::Answer { tag, rsp } => {
                self.note(crq.session(), tag, rsp)?;
                Ok(Took::Answer)
            }
            Taken::Stray(_) => Ok(Took::Other),
            Taken::Other => Ok(Took::Other),
            Taken::Lost => Ok(Took::Lost),
            Taken::Again { page: _, word: _ } => Ok(Took::InUse),
            Taken::Empty { number: _ } => Ok(Took::Nothing),
        }
    }

    /// Takes entries until there is none, or as many as the queue has slots. Tells whether there was one.
    pub(crate) fn take_rest<C: CrqEnd, O: OwnerPort>(
        &mut self,
        crq: &mut Watched<C>,
        own: &mut O,
    ) -> Result<Moved, NoMemory>
        requires { MIN_PAGES ≤ (O.state own.old).place.size }
        ensures works { Works false C.is_shared O.is_shared None
            (C.state crq.old.end) (C.state crq.new.end)
            (O.state own.old) (O.state own.new) self.old self.new }
        ensures values { (O.state own.new).values ≡ (O.state own.old).values }
        ensures gives { OnOk result (Gives self.old self.new
            (C.state crq.old.end) (C.state crq.new.end)) }
        ensures queue { (C.state crq.new.end).registered ≡ (C.state crq.old.end).registered }
        ensures quiet { IfOk result (λ moved. C.is_shared ≡ false → moved ≡ Moved.Quiet →
            EndRests (C.state crq.old.end) (C.state crq.new.end)) }
        ensures moved { IfOk result (λ moved. HandlesBy moved
            (acting self.old C.is_shared (C.state crq.old.end) O.is_shared (O.state own.old))
            (acting self.new C.is_shared (C.state crq.new.end) O.is_shared (O.state own.new))) }
        ensures plainly { C.is_shared ≡ false → O.is_shared ≡ false → RestsPlainly
            (own_of self.old (C.state crq.old.end) (O.state own.old))
            (own_of self.new (C.state crq.new.end) (O.state own.new)) result }
        ensures acts { OnOk result (TakesRest
            (acting self.old C.is_shared (C.state crq.old.end) O.is_shared (O.state own.old))
            (acting self.new C.is_shared (C.state crq.new.end) O.is_shared (O.state own.new))) }
    {
        let mut moved = Moved::Quiet;
        for _taken in 0..crq.slots() {
            match self.take_one(crq, own)? {
                Took::Nothing => return Ok(moved),
                Took::InUse => return Ok(Moved::Moved),
                Took::Answer | Took::Other | Took::Lost => {}
            }
            moved = Moved::Moved;
        }
        Ok(Moved::Moved)
    }

    /// One step of taking `count` answers, of which `taken` were taken before.
    pub(crate) fn take<C: CrqEnd, O: OwnerPort>(
        &mut self,
        crq: &mut Watched<C>,
        own: &mut O,
        count: u64,
        taken: &mut u64,
    ) -> Result<Step, NoMemory>
        requires { MIN_PAGES ≤ (O.state own.old).place.size }
        ensures works { Works false C.is_shared O.is_shared None
            (C.state crq.old.end) (C.state crq.new.end)
            (O.state own.old) (O.state own.new) self.old self.new }
        ensures values { (O.state own.new).values ≡ (O.state own.old).values }
        ensures told { (p : ProgressValue) → taken_in p ≡ taken.old →
            StepsTold (O.state own.old).place.size (verbs.Take count)
            (seated self.old.client p (C.state crq.old.end).registered)
            (seated self.new.client (stages.Took taken.new) (C.state crq.new.end).registered)
            result }
        ensures credit { StepsAgreed (verbs.Take count) taken.old taken.new
            self.old.client self.new.client result }
        ensures takes { StepsTaken (verbs.Take count) taken.old taken.new
            self.old self.new result }
        ensures full { StepFull (IsFullBy C.is_shared (C.state crq.new.end)) result }
        ensures gives { OnOk result (Gives self.old self.new
            (C.state crq.old.end) (C.state crq.new.end)) }
        ensures hears { StepHears result self.old.client self.new.client
            (C.state crq.old.end) (C.state crq.new.end) }
        ensures plainly { C.is_shared ≡ false → O.is_shared ≡ false →
            (p : ProgressValue) → taken_in p ≡ taken.old →
            StepsPlainly (verbs.Take count) p (stages.Took taken.new)
            (own_of self.old (C.state crq.old.end) (O.state own.old))
            (own_of self.new (C.state crq.new.end) (O.state own.new)) result }
        ensures acts { IfOk result (TakesForLine count taken.old taken.new
            (acting self.old C.is_shared (C.state crq.old.end) O.is_shared (O.state own.old))
            (acting self.new C.is_shared (C.state crq.new.end) O.is_shared (O.state own.new))) }
    {
        if *taken >= count {
            return Ok(Step::Ends(Outcome::Took(*taken)));
        }
        for _entry in 0..crq.slots() {
            match self.take_one(crq, own)? {
                Took::Answer => {
                    *taken = taken.saturating_add(1);
                    if *taken >= count {
                        return Ok(Step::Ends(Outcome::Took(*taken)));
                    }
                }
                Took::Other => {}
                Took::Lost => return Ok(Step::Ends(Outcome::TookThenLost(*taken))),
                Took::InUse => return Ok(Step::Waits(crq.moved())),
                Took::Nothing => {
                    if self.client.outstanding().is_empty() {
                        return Ok(Step::Ends(Outcome::Took(*taken)));
                    }
                    return Ok(Step::Waits(crq.moved()));
                }
            }
        }
        Ok(Step::Waits(Moved::Moved))
    }
}
