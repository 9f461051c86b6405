// What a partition does at its units, one after the other or at one of them.
ghost use Rattle.std.specs.Prelude.{◌≡◌, ◌⊎◌, ◌<◌, ◌≤◌, ◌∷◌, [], ⊤, ℕ, false, true, IfOk, IfSome, OnOk, Some, IsSomeAnd, length, slice_get};
ghost use Rattle.vcpu_run.specs.Acts.{TakesRest};
ghost use Rattle.vcpu_run.specs.ActsAt.{AllLead, FailsOnce, LineActs, PushesEvent, SeatActs};
ghost use Rattle.vcpu_run.specs.Agreed.{AllSame, SameBeside, SameDrivers, SameElse, StepsLine, StepsSeat};
ghost use Rattle.vcpu_run.specs.CallsSaid.{StepSaid, seen_from};
ghost use Rattle.vcpu_run.specs.ClientMoments.{LineStepped, SeatStepped};
ghost use Rattle.vcpu_run.specs.ClientStrokes.{AllLay, LineLays, NoneLay};
ghost use Rattle.vcpu_run.specs.Credited.{taken_in};
ghost use Rattle.vcpu_run.specs.EventsMade.{AllCalm, AllShut};
ghost use Rattle.vcpu_run.specs.FailedPorts.{IsClosedAt, PortsClosed};
ghost use Rattle.vcpu_run.specs.FailedShut.{AllStayShut, IsShutAt, SeatsShut, opens_if};
ghost use Rattle.vcpu_run.specs.Freed.{FreesNoneIf};
ghost use Rattle.vcpu_run.specs.Freeing.{IsSpared, is_reset};
ghost use Rattle.vcpu_run.specs.Holding.{LineOpen, SeatOpen};
ghost use Rattle.vcpu_run.specs.Links.{ClientWaits, EventWaits, EventsWait, LinksRest, SeatsRest, links_of};
ghost use Rattle.vcpu_run.specs.Moves.{EventsMove, PairsHandle, SeatHandles, SeatsHandle};
ghost use Rattle.vcpu_run.specs.Pairs.{AreDriven, IsDriver};
ghost use Rattle.vcpu_run.specs.PlainScripts.{AllFailPlainly, AllRestPlainly, AllTalkOn, LinePlainly, SeatPlainly};
ghost use Rattle.vcpu_run.specs.Ports.{HavePorts, IsPortOf};
ghost use Rattle.vcpu_run.specs.PortCalls.{EndsEntries};
ghost use Rattle.vcpu_run.specs.PortMacs.{EndsPorts};
ghost use Rattle.vcpu_run.specs.PortSteps.{AllSilent, AllTake, IsApart, IsBeside, TakesOn, TellsStep};
ghost use Rattle.vcpu_run.specs.PortWords.{done_in};
ghost use Rattle.vcpu_run.specs.PortsRest.{PortsRest, SeatTaken};
ghost use Rattle.vcpu_run.specs.Suited.{is_call, suits};
ghost use Rattle.vcpu_run.specs.ScriptTold.{SameClients};
ghost use Rattle.vcpu_run.specs.TakenScripts.{AllGive};
ghost use Rattle.vcpu_run.specs.Telling.{LineOut, LineTold, SeatOut, SeatTold};
ghost use Rattle.vcpu_run.specs.ValuesPut.{AllSameValues};
ghost use Rattle.vcpu_run.specs.Works.{HaveClients, IsLineVerb, IsPortVerb, IsUnitVerb};
ghost use Rattle.vcpu_run.specs.declared.unit_seat.Seat.TheVariants as sits;

use crate::pair::Pair;
use crate::raw_call::{RawCall, make_call};
use crate::script::Progress;
use crate::unit_seat::Seat;
use crate::{port_line, seat};
use boot_text::Line;
use lan_script::Lan;
use std::alloc::Global;
use unit_region::Step;
use vio_num::{Moved, NoMemory, UnitId};

/// Whether either did something.
pub(crate) fn either(one: Moved, other: Moved) -> Moved
    ensures one { result ≡ Moved.Quiet → one ≡ Moved.Quiet }
    ensures other { result ≡ Moved.Quiet → other ≡ Moved.Quiet }
    ensures some { result ≡ Moved.Moved → (one ≡ Moved.Moved) ⊎ (other ≡ Moved.Moved) }
{
    match one {
        Moved::Moved => Moved::Moved,
        Moved::Quiet => other,
    }
}

// Puts the event that the client of this pair keeps.
fn push_event_of(pairs: &mut [Pair], pair: usize) -> Result<Moved, NoMemory>
    requires { pair < length pairs.old }
    ensures driven { AreDriven pairs.old pairs.new }
    ensures drivers { SameDrivers pairs.old pairs.new }
    ensures others { SameBeside pair pairs.old pairs.new }
    ensures stays { FreesNoneIf (λ _. ⊤) pairs.old pairs.new }
    ensures clients { SameClients pairs.old pairs.new }
    ensures quiet { IfOk result (λ moved. moved ≡ Moved.Quiet → LinksRest pairs.old pairs.new) }
    ensures waits { IfOk result (λ moved. moved ≡ Moved.Quiet →
        IfSome (slice_get pairs.new pair) EventWaits) }
    ensures moved { IfOk result (λ moved. EventsMove moved pairs.old pairs.new) }
    ensures plainly { OnOk result (AllTalkOn pairs.old pairs.new) }
    ensures acts { OnOk result (AllLead PushesEvent pairs.old pairs.new) }
{
    seat::push_event(&mut pairs[pair])
}

// Puts the event that the unit that sits here keeps.
fn push_event_at(pairs: &mut [Pair], seat: Seat) -> Result<Moved, NoMemory>
    requires { (k : ℕ) → seat ≡ sits.Client k → k < length pairs.old }
    ensures driven { AreDriven pairs.old pairs.new }
    ensures drivers { SameDrivers pairs.old pairs.new }
    ensures others { SameElse (seat ∷ []) pairs.old pairs.new }
    ensures stays { FreesNoneIf (λ _. ⊤) pairs.old pairs.new }
    ensures clients { SameClients pairs.old pairs.new }
    ensures quiet { IfOk result (λ moved. moved ≡ Moved.Quiet → LinksRest pairs.old pairs.new) }
    ensures waits { IfOk result (λ moved. moved ≡ Moved.Quiet → (k : ℕ) → seat ≡ sits.Client k →
        IfSome (slice_get pairs.new k) EventWaits) }
    ensures moved { IfOk result (λ moved. EventsMove moved pairs.old pairs.new) }
    ensures plainly { OnOk result (AllTalkOn pairs.old pairs.new) }
    ensures acts { OnOk result (AllLead PushesEvent pairs.old pairs.new) }
{
    match seat {
        Seat::Client(pair) => push_event_of(pairs, pair),
        Seat::Server | Seat::Port => Ok(Moved::Quiet),
    }
}

/// Puts the events that the units of these seats keep.
pub(crate) fn push_events(seats: &[Seat], pairs: &mut [Pair]) -> Result<Moved, NoMemory>
    requires { HaveClients seats.now pairs.old }
    ensures driven { AreDriven pairs.old pairs.new }
    ensures drivers { SameDrivers pairs.old pairs.new }
    ensures others { SameElse seats.now pairs.old pairs.new }
    ensures stays { FreesNoneIf (λ _. ⊤) pairs.old pairs.new }
    ensures clients { SameClients pairs.old pairs.new }
    ensures quiet { IfOk result (λ moved. moved ≡ Moved.Quiet → LinksRest pairs.old pairs.new) }
    ensures waits { IfOk result (λ moved. moved ≡ Moved.Quiet → EventsWait seats.now pairs.new) }
    ensures moved { IfOk result (λ moved. EventsMove moved pairs.old pairs.new) }
    ensures plainly { OnOk result (AllTalkOn pairs.old pairs.new) }
    ensures acts { OnOk result (AllLead PushesEvent pairs.old pairs.new) }
{
    let mut moved = Moved::Quiet;
    for k in 0..seats.len() {
        let here = push_event_at(pairs, seats[k])?;
        moved = either(moved, here);
    }
    Ok(moved)
}

/// One step of this line at the client of this pair.
pub(crate) fn step_at(
    pairs: &mut [Pair],
    pair: usize,
    line: &Line,
    progress: &mut Progress,
) -> Result<Step, NoMemory>
    requires there { pair < length pairs.old }
    requires client { IsSomeAnd (slice_get pairs.old pair)
        (λ pair. IsSomeAnd pair.driver (IsDriver pair.window)) }
    requires verb { IsUnitVerb line.now.verb }
    ensures driven { AreDriven pairs.old pairs.new }
    ensures credit { StepsSeat pair line.now.verb (taken_in progress.old)
        (taken_in progress.new) pairs.old pairs.new result }
    ensures lays { AllLay (λ k. k ≡ pair) line.now.number pairs.old pairs.new }
    ensures region { SeatStepped pair line.now pairs.old pairs.new result }
    ensures said { SeatTold pair line.now progress.old progress.new
        pairs.old pairs.new result }
    ensures out { SeatOut pair line.now.verb progress.old progress.new
        pairs.old pairs.new result }
    ensures registered { SeatOpen pair line.now.verb progress.new
        pairs.old pairs.new result }
    ensures stays { FreesNoneIf (λ k. k ≡ pair → is_reset line.now.verb ≡ false)
        pairs.old pairs.new }
    ensures plainly { SeatPlainly pair line.now.verb progress.old progress.new
        pairs.old pairs.new result }
    ensures acts { IfOk result (SeatActs pair line.now progress.old progress.new
        pairs.old pairs.new) }
{
    seat::step(&mut pairs[pair], line, progress)
}

// Where a unit sits.
fn seat_at(seats: &[Seat], unit: u8) -> Seat
    requires { unit < length seats.now }
    ensures { slice_get seats.now unit ≡ Some result }
{
    seats[usize::from(unit)]
}

// One step of a line at its unit.
fn step_own(
    partition: u8,
    seats: &[Seat],
    pairs: &mut [Pair],
    lan: &mut Lan,
    line: &Line,
    progress: &mut Progress,
) -> Result<Step, NoMemory>
    requires clients { HaveClients seats.now pairs.old }
    requires ports { HavePorts partition seats.now lan.old.seats }
    requires suited { IsSomeAnd (slice_get seats.now line.now.unit) (suits line.now.verb) }
    requires no_call { is_call line.now.verb ≡ false }
    requires verb { IsLineVerb line.now.verb }
    ensures driven { AreDriven pairs.old pairs.new }
    ensures credit { StepsLine seats.now line.now (taken_in progress.old)
        (taken_in progress.new) pairs.old pairs.new result }
    ensures lays { LineLays seats.now line.now pairs.old pairs.new }
    ensures region { LineStepped seats.now line.now pairs.old pairs.new result }
    ensures said { LineTold seats.now line.now progress.old progress.new
        pairs.old pairs.new result }
    ensures out { LineOut seats.now line.now progress.old progress.new
        pairs.old pairs.new result }
    ensures registered { LineOpen seats.now line.now progress.new
        pairs.old pairs.new result }
    ensures stays { FreesNoneIf (IsSpared seats.now line.now) pairs.old pairs.new }
    ensures others { SameElse seats.now pairs.old pairs.new }
    ensures lan { lan.new.seats ≡ lan.old.seats }
    ensures told { IfOk result (TellsStep partition seats.now line.now
        (done_in progress.old) (done_in progress.new) lan.old lan.new) }
    ensures apart { OnOk result (IsApart partition lan.old lan.new) }
    ensures plainly { LinePlainly seats.now line.now progress.old progress.new
        pairs.old pairs.new result }
    ensures acts { IfOk result (LineActs seats.now line.now progress.old progress.new
        pairs.old pairs.new) }
{
    match seat_at(seats, line.unit) {
        Seat::Client(pair) => step_at(pairs, pair, line, progress),
        Seat::Port => port_line::step(lan, partition, line, progress),
        Seat::Server => unreachable!(),
    }
}

/// One step of a line at its unit, or the raw call that it makes on the units of the partition.
pub(crate) fn step_unit(
    alloc: Global,
    partition: u8,
    seats: &[Seat],
    pairs: &mut [Pair],
    lan: &mut Lan,
    line: &Line,
    progress: &mut Progress,
) -> Result<Step, NoMemory>
    requires clients { HaveClients seats.now pairs.old }
    requires ports { HavePorts partition seats.now lan.old.seats }
    requires suited { IsSomeAnd (slice_get seats.now line.now.unit) (suits line.now.verb) }
    requires verb { IsLineVerb line.now.verb }
    ensures driven { AreDriven pairs.old pairs.new }
    ensures credit { StepsLine seats.now line.now (taken_in progress.old)
        (taken_in progress.new) pairs.old pairs.new result }
    ensures lays { LineLays seats.now line.now pairs.old pairs.new }
    ensures region { LineStepped seats.now line.now pairs.old pairs.new result }
    ensures said { is_call line.now.verb ≡ false →
        LineTold seats.now line.now progress.old progress.new pairs.old pairs.new result }
    ensures out { is_call line.now.verb ≡ false →
        LineOut seats.now line.now progress.old progress.new pairs.old pairs.new result }
    ensures registered { is_call line.now.verb ≡ false →
        LineOpen seats.now line.now progress.new pairs.old pairs.new result }
    ensures drivers { is_call line.now.verb ≡ true → SameDrivers pairs.old pairs.new }
    ensures stays { FreesNoneIf (IsSpared seats.now line.now) pairs.old pairs.new }
    ensures others { SameElse seats.now pairs.old pairs.new }
    ensures lan { lan.new.seats ≡ lan.old.seats }
    ensures told { IfOk result (λ step. is_call line.now.verb ≡ false →
        TellsStep partition seats.now line.now
        (done_in progress.old) (done_in progress.new) lan.old lan.new step) }
    ensures apart { OnOk result (IsApart partition lan.old lan.new) }
    ensures ports { IfOk result (λ step. is_call line.now.verb ≡ true →
        EndsPorts partition line.now.verb lan.old lan.new step) }
    ensures entries { IfOk result (λ step. is_call line.now.verb ≡ true →
        EndsEntries partition (slice_get seats.now) line.now.verb lan.old lan.new step) }
    ensures called { IfOk result (StepSaid (seen_from partition seats.now pairs.new)
        line.now.verb) }
    ensures plainly { is_call line.now.verb ≡ false → LinePlainly seats.now line.now
        progress.old progress.new pairs.old pairs.new result }
    ensures acts { is_call line.now.verb ≡ false → IfOk result (LineActs seats.now line.now
        progress.old progress.new pairs.old pairs.new) }
{
    match RawCall::of(&line.verb) {
        Some(raw) => make_call(alloc, partition, seats, pairs, lan, &raw),
        None => step_own(partition, seats, pairs, lan, line, progress),
    }
}

// Takes what stands in the queue of the client of this pair.
fn take_rest_of(pairs: &mut [Pair], pair: usize) -> Result<Moved, NoMemory>
    requires there { pair < length pairs.old }
    requires client { IsSomeAnd (slice_get pairs.old pair)
        (λ pair. IsSomeAnd pair.driver (IsDriver pair.window)) }
    ensures driven { AreDriven pairs.old pairs.new }
    ensures gives { OnOk result (AllGive pairs.old pairs.new) }
    ensures values { AllSameValues pairs.old pairs.new }
    ensures lays { NoneLay pairs.old pairs.new }
    ensures calm { AllCalm pairs.old pairs.new }
    ensures stays_shut { AllStayShut pairs.old pairs.new }
    ensures others { SameBeside pair pairs.old pairs.new }
    ensures stays { FreesNoneIf (λ _. ⊤) pairs.old pairs.new }
    ensures still { IfOk result (λ moved. moved ≡ Moved.Quiet → LinksRest pairs.old pairs.new) }
    ensures waits { IfOk result (λ moved. moved ≡ Moved.Quiet →
        IsSomeAnd (slice_get (links_of pairs.new) pair) ClientWaits) }
    ensures moved { IfOk result (λ moved. PairsHandle moved pairs.old pairs.new) }
    ensures plainly { OnOk result (AllRestPlainly pairs.old pairs.new) }
    ensures acts { OnOk result (AllLead TakesRest pairs.old pairs.new) }
{
    seat::take_rest(&mut pairs[pair])
}

// Takes what stands in the queue of the unit that sits here.
fn take_rest_at(
    unit: UnitId,
    seat: Seat,
    pairs: &mut [Pair],
    lan: &mut Lan,
) -> Result<Moved, NoMemory>
    requires client { (k : ℕ) → seat ≡ sits.Client k → IsSomeAnd (slice_get pairs.old k)
        (λ pair. IsSomeAnd pair.driver (IsDriver pair.window)) }
    requires port { seat ≡ sits.Port → IsPortOf lan.old.seats unit }
    ensures driven { AreDriven pairs.old pairs.new }
    ensures gives { OnOk result (AllGive pairs.old pairs.new) }
    ensures values { AllSameValues pairs.old pairs.new }
    ensures lays { NoneLay pairs.old pairs.new }
    ensures calm { AllCalm pairs.old pairs.new }
    ensures stays_shut { AllStayShut pairs.old pairs.new }
    ensures others { SameElse (seat ∷ []) pairs.old pairs.new }
    ensures lan { lan.new.seats ≡ lan.old.seats }
    ensures takes { OnOk result (TakesOn lan.old lan.new unit) }
    ensures beside { OnOk result (IsBeside unit lan.old lan.new) }
    ensures stays { FreesNoneIf (λ _. ⊤) pairs.old pairs.new }
    ensures still { IfOk result (λ moved. moved ≡ Moved.Quiet → LinksRest pairs.old pairs.new) }
    ensures waits { IfOk result (λ moved. moved ≡ Moved.Quiet → (k : ℕ) → seat ≡ sits.Client k →
        IsSomeAnd (slice_get (links_of pairs.new) k) ClientWaits) }
    ensures ports { IfOk result (λ moved. moved ≡ Moved.Quiet →
        SeatTaken unit seat lan.old lan.new) }
    ensures moved { IfOk result (λ moved. SeatHandles moved unit
        pairs.old pairs.new lan.old lan.new) }
    ensures plainly { OnOk result (AllRestPlainly pairs.old pairs.new) }
    ensures acts { OnOk result (AllLead TakesRest pairs.old pairs.new) }
{
    match seat {
        Seat::Client(pair) => take_rest_of(pairs, pair),
        Seat::Port => lan.take_rest(unit),
        Seat::Server => Ok(Moved::Quiet),
    }
}

/// Takes what stands in the queues of these units.
pub(crate) fn take_rest(
    partition: u8,
    seats: &[Seat],
    pairs: &mut [Pair],
    lan: &mut Lan,
) -> Result<Moved, NoMemory>
    requires clients { HaveClients seats.now pairs.old }
    requires ports { HavePorts partition seats.now lan.old.seats }
    requires few { length seats.now ≤ 8 }
    ensures driven { AreDriven pairs.old pairs.new }
    ensures gives { OnOk result (AllGive pairs.old pairs.new) }
    ensures values { AllSameValues pairs.old pairs.new }
    ensures lays { NoneLay pairs.old pairs.new }
    ensures calm { AllCalm pairs.old pairs.new }
    ensures stays_shut { AllStayShut pairs.old pairs.new }
    ensures others { SameElse seats.now pairs.old pairs.new }
    ensures lan { lan.new.seats ≡ lan.old.seats }
    ensures takes { OnOk result (AllTake partition lan.old lan.new) }
    ensures apart { OnOk result (IsApart partition lan.old lan.new) }
    ensures stays { FreesNoneIf (λ _. ⊤) pairs.old pairs.new }
    ensures quiet { IfOk result (λ moved. moved ≡ Moved.Quiet →
        SeatsRest seats.now pairs.old pairs.new) }
    ensures ports { IfOk result (λ moved. moved ≡ Moved.Quiet →
        PortsRest partition seats.now lan.old lan.new) }
    ensures moved { IfOk result (λ moved. SeatsHandle moved partition
        pairs.old pairs.new lan.old lan.new) }
    ensures plainly { OnOk result (AllRestPlainly pairs.old pairs.new) }
    ensures acts { OnOk result (AllLead TakesRest pairs.old pairs.new) }
{
    let mut moved = Moved::Quiet;
    for k in 0..seats.len() {
        let unit = UnitId {
            partition,
            unit: k as u8,
        };
        let here = take_rest_at(unit, seats[k], pairs, lan)?;
        moved = either(moved, here);
    }
    Ok(moved)
}

// Fails the queue of the client of this pair, if it is registered. Tells whether it is not any more.
fn fail_of(pairs: &mut [Pair], pair: usize) -> Result<bool, NoMemory>
    requires there { pair < length pairs.old }
    requires client { IsSomeAnd (slice_get pairs.old pair)
        (λ pair. IsSomeAnd pair.driver (IsDriver pair.window)) }
    ensures driven { AreDriven pairs.old pairs.new }
    ensures credit { AllSame pairs.old pairs.new }
    ensures gives { OnOk result (AllGive pairs.old pairs.new) }
    ensures values { AllSameValues pairs.old pairs.new }
    ensures lays { NoneLay pairs.old pairs.new }
    ensures shut { AllShut pairs.old pairs.new }
    ensures down { IfOk result (λ done. done ≡ true →
        opens_if (slice_get pairs.new pair) ≡ 0) }
    ensures done { IfOk result (λ done. done ≡ true) }
    ensures others { SameBeside pair pairs.old pairs.new }
    ensures plainly { OnOk result (AllFailPlainly pairs.old pairs.new) }
    ensures acts { OnOk result (AllLead FailsOnce pairs.old pairs.new) }
{
    seat::fail(&mut pairs[pair])
}

// Fails the queue, or frees the port, of the unit that sits here, if it is registered. Tells whether it is not any more.
#[tactic(auto, using(crate::proofs::FailedPorts::port_closes, crate::proofs::FailedPorts::port_gives, crate::proofs::FailedPorts::port_shut, crate::proofs::PortRising::closes_beside))]
fn fail_at(unit: UnitId, seat: Seat, pairs: &mut [Pair], lan: &mut Lan) -> Result<bool, NoMemory>
    requires client { (k : ℕ) → seat ≡ sits.Client k → IsSomeAnd (slice_get pairs.old k)
        (λ pair. IsSomeAnd pair.driver (IsDriver pair.window)) }
    requires port { seat ≡ sits.Port → IsPortOf lan.old.seats unit }
    ensures driven { AreDriven pairs.old pairs.new }
    ensures credit { AllSame pairs.old pairs.new }
    ensures gives { OnOk result (AllGive pairs.old pairs.new) }
    ensures values { AllSameValues pairs.old pairs.new }
    ensures lays { NoneLay pairs.old pairs.new }
    ensures shut { AllShut pairs.old pairs.new }
    ensures down { IfOk result (λ done. done ≡ true → IsShutAt seat pairs.new) }
    ensures closes { IfOk result (λ done. done ≡ true → IsClosedAt unit seat lan.new) }
    ensures done { IfOk result (λ done. done ≡ true) }
    ensures others { SameElse (seat ∷ []) pairs.old pairs.new }
    ensures lan { lan.new.seats ≡ lan.old.seats }
    ensures idle { AllSilent lan.old lan.new }
    ensures beside { IsBeside unit lan.old lan.new }
    ensures plainly { OnOk result (AllFailPlainly pairs.old pairs.new) }
    ensures acts { OnOk result (AllLead FailsOnce pairs.old pairs.new) }
{
    match seat {
        Seat::Client(pair) => fail_of(pairs, pair),
        Seat::Port => lan.fail(unit),
        Seat::Server => Ok(true),
    }
}

/// Fails the queues and frees the ports of these units that are registered. Tells whether none is any more.
pub(crate) fn fail(
    partition: u8,
    seats: &[Seat],
    pairs: &mut [Pair],
    lan: &mut Lan,
) -> Result<bool, NoMemory>
    requires clients { HaveClients seats.now pairs.old }
    requires ports { HavePorts partition seats.now lan.old.seats }
    requires few { length seats.now ≤ 8 }
    ensures driven { AreDriven pairs.old pairs.new }
    ensures credit { AllSame pairs.old pairs.new }
    ensures gives { OnOk result (AllGive pairs.old pairs.new) }
    ensures values { AllSameValues pairs.old pairs.new }
    ensures lays { NoneLay pairs.old pairs.new }
    ensures shut { AllShut pairs.old pairs.new }
    ensures down { IfOk result (λ done. done ≡ true → SeatsShut seats.now pairs.new) }
    ensures closes { IfOk result (λ done. done ≡ true →
        PortsClosed partition seats.now lan.new) }
    ensures done { IfOk result (λ done. done ≡ true) }
    ensures others { SameElse seats.now pairs.old pairs.new }
    ensures lan { lan.new.seats ≡ lan.old.seats }
    ensures idle { AllSilent lan.old lan.new }
    ensures apart { IsApart partition lan.old lan.new }
    ensures plainly { OnOk result (AllFailPlainly pairs.old pairs.new) }
    ensures acts { OnOk result (AllLead FailsOnce pairs.old pairs.new) }
{
    for k in 0..seats.len() {
        let unit = UnitId {
            partition,
            unit: k as u8,
        };
        if !fail_at(unit, seats[k], pairs, lan)? {
            return Ok(false);
        }
    }
    Ok(true)
}
