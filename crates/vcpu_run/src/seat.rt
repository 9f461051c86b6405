// What a client partition does at one of its pairs.
ghost use Rattle.std.specs.Prelude.{◌≡◌, [], ⊤, true, false, IfOk, IsSomeAnd, OnOk, Some, length};
ghost use Rattle.crq_session.specs.PlainState.{end_of, side_of};
ghost use Rattle.vscsi_client.specs.Turned.{unlinked};
ghost use Rattle.vcpu_run.specs.Acts.{TakesRest};
ghost use Rattle.crq_ring.specs.Pipe.{IsLawfulPipe};
ghost use Rattle.vcpu_run.specs.ActsAt.{AtPair, FailsOnce, IsUnmoved, PairActs, PushesEvent};
ghost use Rattle.vcpu_run.specs.Pairs.{Drives, IsDriver};
ghost use Rattle.vcpu_run.specs.Credited.{StepsAgreed, taken_in};
ghost use Rattle.vcpu_run.specs.EventsMade.{PairCalm, PairMakes, PairShuts};
ghost use Rattle.vcpu_run.specs.Freed.{FreesNoneAt};
ghost use Rattle.vcpu_run.specs.Freeing.{is_reset};
ghost use Rattle.vcpu_run.specs.DropsShown.{PairShowsLine};
ghost use Rattle.vcpu_run.specs.ClientMoments.{PairStepped};
ghost use Rattle.vcpu_run.specs.ClientStrokes.{PairLays, PairLaysNone};
ghost use Rattle.vcpu_run.specs.Holding.{PairOpen};
ghost use Rattle.vcpu_run.specs.Links.{ClientWaits, EventWaits, PairRests, link_state};
ghost use Rattle.vcpu_run.specs.Moves.{EventMoves, PairHandlesBy};
ghost use Rattle.vcpu_run.specs.Agreed.{OnDrivers};
ghost use Rattle.hcall_table.specs.Asked.{bare};
ghost use Rattle.hcall_table.specs.Rows.{IsAnswer, may_answer};
ghost use Rattle.vcpu_run.specs.CallRows.{arguments_for, queue_arguments, queue_row, row_for};
ghost use Rattle.vcpu_run.specs.CallsAnswered.{IsReturned, unit_seen};
ghost use Rattle.vcpu_run.specs.PlainScripts.{PairFailsPlainly, PairPlainly, PairRestsPlainly, PairTalksOn};
ghost use Rattle.vcpu_run.specs.PlainSeated.{DriverPlainly, IsToldSince};
ghost use Rattle.vcpu_run.specs.PlainTalk.{TookNoMore};
ghost use Rattle.vcpu_run.specs.Sendings.{SameCredits};
ghost use Rattle.vcpu_run.specs.TakenScripts.{PairGives, PairHears, PairReads, PairTakes};
ghost use Rattle.vcpu_run.specs.Telling.{PairOut, PairTold};
ghost use Rattle.vcpu_run.specs.ValuesPut.{PairPuts, SameValues};
ghost use Rattle.vcpu_run.specs.Works.{IsUnitVerb};

use crate::client_call::{ClientCall, QueueCall};
use crate::pair::Pair;
use crate::queue_calls;
use crate::script::Progress;
use crate::watched::Watched;
use boot_text::Line;
use crq_session::{CrqEnd, EventAnswer, FreeAnswer};
use hcall_table::Returned;
use std::alloc::Global;
use unit_region::{Step, make_entry_call};
use vio_num::{Hrc, Moved, NoMemory};

/// Puts the event that the client's end keeps.
pub(crate) fn push_event(pair: &mut Pair) -> Result<Moved, NoMemory>
    ensures drives { Drives pair.old pair.new }
    ensures driver { pair.new.driver ≡ pair.old.driver }
    ensures stays { FreesNoneAt pair.old pair.new }
    ensures window { pair.new.window ≡ pair.old.window }
    ensures queue { (side_of pair.new.link false).registered
        ≡ (side_of pair.old.link false).registered }
    ensures taken { (side_of pair.new.link false).queue.taken
        ≡ (side_of pair.old.link false).queue.taken }
    ensures calm { PairCalm pair.old pair.new }
    ensures quiet { IfOk result (λ moved. moved ≡ Moved.Quiet → PairRests pair.old pair.new) }
    ensures waits { IfOk result (λ moved. moved ≡ Moved.Quiet → EventWaits pair.new) }
    ensures moved { IfOk result (λ moved. EventMoves moved pair.old pair.new) }
    ensures plainly { OnOk result (PairTalksOn pair.old pair.new) }
    ensures acts { OnOk result (AtPair PushesEvent pair.old pair.new) }
{
    let mut end = pair.link.side(false);
    end.reserve(1)?;
    match end.push_event() {
        EventAnswer::Nothing => Ok(Moved::Quiet),
        EventAnswer::Put => Ok(Moved::Moved),
        EventAnswer::Kept { number: _, held: _ } => Ok(Moved::Quiet),
    }
}

/// One step of this line at its client.
pub(crate) fn step(pair: &mut Pair, line: &Line, progress: &mut Progress) -> Result<Step, NoMemory>
    requires driver { IsSomeAnd pair.old.driver (IsDriver pair.old.window) }
    requires verb { IsUnitVerb line.now.verb }
    ensures drives { Drives pair.old pair.new }
    ensures credit { OnDrivers pair.old.driver pair.new.driver (λ a b.
        StepsAgreed line.now.verb (taken_in progress.old) (taken_in progress.new)
        a.client b.client result) }
    ensures takes { PairTakes line.now.verb progress.old progress.new
        pair.old pair.new result }
    ensures gives { OnOk result (PairGives pair.old pair.new) }
    ensures hears { PairHears pair.old pair.new result }
    ensures said { PairTold line.now.verb progress.old progress.new pair.old pair.new result }
    ensures shows { PairShowsLine line.now pair.old pair.new result }
    ensures out { PairOut line.now.verb progress.old progress.new pair.old pair.new result }
    ensures reads { PairReads line.now.verb pair.old pair.new result }
    ensures puts { PairPuts line.now.verb pair.old pair.new result }
    ensures lays { PairLays ⊤ line.now.number pair.old pair.new }
    ensures region { PairStepped line.now pair.old pair.new result }
    ensures makes { PairMakes line.now.verb progress.old progress.new pair.old pair.new }
    ensures registered { PairOpen line.now.verb progress.new pair.old pair.new result }
    ensures stays { is_reset line.now.verb ≡ false → FreesNoneAt pair.old pair.new }
    ensures plainly { PairPlainly line.now.verb progress.old progress.new
        pair.old pair.new result }
    ensures acts { IfOk result (PairActs line.now progress.old progress.new pair.old pair.new) }
    ensures still { IfOk result (λ step. step ≡ Step.Waits Moved.Quiet →
        IsUnmoved pair.old pair.new) }
    ensures lawful { IsLawfulPipe (side_of pair.old.link false).queue }
{
    let before = count(pair);
    let step = drive(pair, line, progress)?;
    took_no_more(pair);
    Ok(moved_since(step, before, count(pair)))
}

// Has the client's driver make one step of this line.
fn drive(pair: &mut Pair, line: &Line, progress: &mut Progress) -> Result<Step, NoMemory>
    requires driver { IsSomeAnd pair.old.driver (IsDriver pair.old.window) }
    requires verb { IsUnitVerb line.now.verb }
    ensures drives { Drives pair.old pair.new }
    ensures credit { OnDrivers pair.old.driver pair.new.driver (λ a b.
        StepsAgreed line.now.verb (taken_in progress.old) (taken_in progress.new)
        a.client b.client result) }
    ensures takes { PairTakes line.now.verb progress.old progress.new
        pair.old pair.new result }
    ensures gives { OnOk result (PairGives pair.old pair.new) }
    ensures hears { PairHears pair.old pair.new result }
    ensures said { PairTold line.now.verb progress.old progress.new pair.old pair.new result }
    ensures shows { PairShowsLine line.now pair.old pair.new result }
    ensures out { PairOut line.now.verb progress.old progress.new pair.old pair.new result }
    ensures reads { PairReads line.now.verb pair.old pair.new result }
    ensures puts { PairPuts line.now.verb pair.old pair.new result }
    ensures lays { PairLays ⊤ line.now.number pair.old pair.new }
    ensures region { PairStepped line.now pair.old pair.new result }
    ensures makes { PairMakes line.now.verb progress.old progress.new pair.old pair.new }
    ensures registered { PairOpen line.now.verb progress.new pair.old pair.new result }
    ensures stays { is_reset line.now.verb ≡ false → FreesNoneAt pair.old pair.new }
    ensures plainly { DriverPlainly line.now.verb progress.old progress.new
        pair.old pair.new result }
    ensures acts { IfOk result (PairActs line.now progress.old progress.new pair.old pair.new) }
{
    let Some(driver) = &mut pair.driver else {
        unreachable!()
    };
    let mut crq = Watched {
        end: pair.link.side(false),
        moved: false,
    };
    driver.step(&mut crq, &mut pair.window, line, progress)
}

// How many entries a client put, and how many it took.
#[derive(Clone, Copy)]
struct Handled {
    put: usize,
    taken: usize,
}

// Counts the entries that the client put, and those that it took from its queue, which is lawful.
fn count(pair: &Pair) -> Handled
    ensures put { result.put ≡ length (side_of pair.now.link true).queue.sent }
    ensures taken { result.taken ≡ length (side_of pair.now.link false).queue.taken }
    ensures lawful { IsLawfulPipe (side_of pair.now.link false).queue }
{
    let own = pair.link.queue(false);
    let _session = own.session();
    Handled {
        put: pair.link.queue(true).sent().len(),
        taken: own.taken().len(),
    }
}

// Of its queue's session the client took no more than was put.
fn took_no_more(pair: &Pair)
    ensures { TookNoMore (end_of [] pair.now.link false) }
{
    let _session = pair.link.queue(false).session();
}

// A step did nothing only where it put nothing and took nothing.
fn moved_since(step: Step, before: Handled, now: Handled) -> Step
    ensures { IsToldSince before.put now.put before.taken now.taken step result }
{
    match step {
        Step::Waits(Moved::Quiet) if before.put < now.put || before.taken < now.taken => {
            Step::Waits(Moved::Moved)
        }
        told => told,
    }
}

/// Takes what stands in the client's queue.
pub(crate) fn take_rest(pair: &mut Pair) -> Result<Moved, NoMemory>
    requires { IsSomeAnd pair.old.driver (IsDriver pair.old.window) }
    ensures drives { Drives pair.old pair.new }
    ensures values { SameValues pair.old pair.new }
    ensures lays { PairLaysNone pair.old pair.new }
    ensures calm { PairCalm pair.old pair.new }
    ensures gives { OnOk result (PairGives pair.old pair.new) }
    ensures stays { FreesNoneAt pair.old pair.new }
    ensures queue { (side_of pair.new.link false).registered
        ≡ (side_of pair.old.link false).registered }
    ensures quiet { IfOk result (λ moved. moved ≡ Moved.Quiet → PairRests pair.old pair.new) }
    ensures waits { IfOk result (λ moved. moved ≡ Moved.Quiet →
        ClientWaits (link_state pair.new.link)) }
    ensures moved { IfOk result (λ moved. PairHandlesBy moved pair.old pair.new) }
    ensures plainly { OnOk result (PairRestsPlainly pair.old pair.new) }
    ensures acts { OnOk result (AtPair TakesRest pair.old pair.new) }
{
    let Some(driver) = &mut pair.driver else {
        unreachable!()
    };
    let mut crq = Watched {
        end: pair.link.side(false),
        moved: false,
    };
    let moved = driver.take_rest(&mut crq, &mut pair.window);
    took_no_more(pair);
    moved
}

/// Fails the client's queue if it is registered. Tells whether it is not any more.
pub(crate) fn fail(pair: &mut Pair) -> Result<bool, NoMemory>
    requires { IsSomeAnd pair.old.driver (IsDriver pair.old.window) }
    ensures drives { Drives pair.old pair.new }
    ensures values { SameValues pair.old pair.new }
    ensures window { pair.new.window ≡ pair.old.window }
    ensures shuts { PairShuts pair.old pair.new }
    ensures down { IfOk result (λ done. done ≡ true →
        (side_of pair.new.link false).registered ≡ false) }
    ensures done { IfOk result (λ done. done ≡ true) }
    ensures gives { OnOk result (PairGives pair.old pair.new) }
    ensures credit { OnDrivers pair.old.driver pair.new.driver (λ a b.
        SameCredits a.client b.client) }
    ensures plainly { OnOk result (PairFailsPlainly pair.old pair.new) }
    ensures acts { OnOk result (AtPair FailsOnce pair.old pair.new) }
{
    let mut end = pair.link.side(false);
    end.reserve(1)?;
    match end.fail() {
        FreeAnswer::Success => {
            freed(pair);
            Ok(true)
        }
        FreeAnswer::Parameter => Ok(true),
        FreeAnswer::Busy { control: _ } => Ok(false),
    }
}

// Tells the client that its queue is free.
fn freed(pair: &mut Pair)
    requires { IsSomeAnd pair.old.driver (IsDriver pair.old.window) }
    ensures drives { Drives pair.old pair.new }
    ensures link { pair.new.link ≡ pair.old.link }
    ensures values { SameValues pair.old pair.new }
    ensures window { pair.new.window ≡ pair.old.window }
    ensures gives { PairGives pair.old pair.new }
    ensures credit { OnDrivers pair.old.driver pair.new.driver (λ a b.
        SameCredits a.client b.client) }
    ensures told { OnDrivers pair.old.driver pair.new.driver (λ a b.
        b.client ≡ unlinked a.client) }
    ensures noted { OnDrivers pair.old.driver pair.new.driver (λ a b.
        b.answers.items ≡ a.answers.items) }
{
    let Some(driver) = &mut pair.driver else {
        unreachable!()
    };
    driver.freed();
}

/// Makes a raw hypervisor call on the client. Its driver is not told.
pub(crate) fn call(alloc: Global, pair: &mut Pair, call: ClientCall) -> Result<Returned, NoMemory>
    ensures drives { Drives pair.old pair.new }
    ensures driver { pair.new.driver ≡ pair.old.driver }
    ensures lays { PairLaysNone pair.old pair.new }
    ensures answer { IfOk result (IsAnswer (row_for call)) }
    ensures returned { IfOk result (IsReturned (unit_seen (Some pair.new)) (row_for call)
        (arguments_for call)) }
{
    match call {
        ClientCall::Entry(call) => make_entry_call(alloc, &mut pair.window, call),
        ClientCall::Queue(call) => Ok(Returned::bare(queue_code(pair, call)?)),
    }
}

// Makes a call on the client's queue, or on its partner's. Where there is no client, neither is there a queue.
fn queue_code(pair: &mut Pair, call: QueueCall) -> Result<Hrc, NoMemory>
    ensures drives { Drives pair.old pair.new }
    ensures driver { pair.new.driver ≡ pair.old.driver }
    ensures window { pair.new.window ≡ pair.old.window }
    ensures code { IfOk result (λ code. may_answer (queue_row call) code ≡ true) }
    ensures returned { IfOk result (λ code. IsReturned (unit_seen (Some pair.new))
        (queue_row call) (queue_arguments call) (bare code)) }
{
    if pair.driver.is_none() {
        return Ok(Hrc::Parameter);
    }
    let is_registered = pair.link.is_registered(false);
    let mut end = pair.link.side(false);
    queue_calls::make(&mut end, is_registered, call)
}
