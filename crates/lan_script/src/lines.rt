// What a script line does at a LAN unit.
ghost use Rattle.std.specs.Prelude.{◌≡◌, IfOk, IsSome, Ok, OnOk, false, true};
ghost use Rattle.boot_text.specs.Sound.{IsInRange};
ghost use Rattle.lan_script.specs.Buffers.{PostsStep};
ghost use Rattle.lan_script.specs.Correlators.{KeepsAddresses};
ghost use Rattle.lan_script.specs.Entries.{PortPuts, port_step, values_at};
ghost use Rattle.lan_script.specs.LineBytes.{PutsOn, StepsBytes};
ghost use Rattle.lan_script.specs.LineForms.{CodesAs, StepForm};
ghost use Rattle.lan_script.specs.LineSays.{SendsAs, TellsNoFrame};
ghost use Rattle.lan_script.specs.OwnMac.{StepsMac};
ghost use Rattle.lan_script.specs.PortCounts.{CountsStep, SameCounts, TellsNoCount};
ghost use Rattle.lan_script.specs.Regions.{LaysLine, PortLays, PortTold, RegionsGrow};
ghost use Rattle.lan_script.specs.Replayed.{IsFirst, Replays, SameBeside, SameReplays};
ghost use Rattle.lan_script.specs.Seats.{TellsOfPort, TellsOfRegion, is_for_port, is_in_region, seat_at};
ghost use Rattle.lan_script.specs.SendRanges.{StepRanges, TellsNoRange};
ghost use Rattle.lan_script.specs.Taking.{StaysWithin};
ghost use Rattle.lan_script.specs.Values.{NamesOwn, SameValues, SameValuesBeside, is_put, puts_other};
ghost use Rattle.unit_region.specs.Kept.{KeepsWindow};
ghost use Rattle.unit_region.specs.Marks.{LaysJust, LaysUnder};
ghost use Rattle.unit_region.specs.RegionLines.{StepTold, region_seen, written_by};

use crate::lan::Lan;
use boot_text::{Line, Verb};
use std::alloc::Global;
use tce_window::OwnerPort;
use unit_region::{Step, fill, peek, poke, put_tce};
use vio_num::{Hrc, Moved, NoMemory, UnitId};
use vio_trace::Outcome;

/// What came of a step of a line.
#[derive(Debug, Drop)]
pub enum PortStep {
    /// The line ended so.
    Ends(Outcome),
    /// It is to be gone on with in the next turn.
    Waits {
        /// Whether the step did something.
        moved: Moved,
        /// How many frames the line took, or buffers it posted.
        done: u64,
    },
}

impl PortStep {
    // A line that waits, and did nothing in this step.
    pub(crate) fn waits(done: u64) -> PortStep
        ensures told { TellsOfPort result }
        ensures still { TellsNoCount result }
        ensures none { TellsNoFrame result }
        ensures inside { TellsNoRange result }
        ensures same { result ≡ PortStep.Waits Moved.Quiet done }
    {
        PortStep::Waits {
            moved: Moved::Quiet,
            done,
        }
    }

    // A line that ends with this code, or waits where another was at work.
    pub(crate) fn coded(code: Hrc) -> PortStep
        ensures told { TellsOfPort result }
        ensures still { TellsNoCount result }
        ensures none { TellsNoFrame result }
        ensures inside { TellsNoRange result }
        ensures form { CodesAs code result }
        ensures coded { ¬ (code ≡ Hrc.Busy) → result ≡ PortStep.Ends (Outcome.Code code) }
    {
        match code {
            Hrc::Busy => PortStep::waits(0),
            code => PortStep::Ends(Outcome::Code(code)),
        }
    }

    // The same of a line in the unit's region.
    fn of(step: Step) -> PortStep
        requires { TellsOfRegion step }
        ensures same { result ≡ port_step step }
        ensures told { TellsOfPort result }
        ensures still { TellsNoCount result }
        ensures none { TellsNoFrame result }
    {
        match step {
            Step::Ends(outcome) => PortStep::Ends(outcome),
            Step::Waits(moved) => PortStep::Waits { moved, done: 0 },
        }
    }
}

impl Lan {
    /// One step of a line at a unit. `done` is how far it came in earlier turns.
    #[tactic(auto, using(crate::proofs::RegionsGrow::regions_placed, crate::proofs::RegionsGrow::regions_ok, crate::proofs::RegionMarks::marks_placed, crate::proofs::ReplayedValues::same_values, crate::proofs::ReplayedValues::same_beside, crate::proofs::ReplayedValues::values_beside_all))]
    pub fn step(&mut self, unit: UnitId, line: &Line, done: u64) -> Result<PortStep, NoMemory>
        requires there { IsSome (seat_at self.old.seats unit) }
        requires port { is_for_port line.now.verb ≡ true }
        requires ranged { IsInRange line.now.verb }
        ensures seats { self.new.seats ≡ self.old.seats }
        ensures sends { IfOk result (λ step. SendsAs unit step self.old self.new) }
        ensures counts { IfOk result (λ step.
            CountsStep unit line.now.verb done step self.old self.new) }
        ensures posts { IfOk result (λ step.
            PostsStep unit line.now.verb done step self.old self.new) }
        ensures within { IfOk result (StaysWithin line.now.verb done) }
        ensures macs { IfOk result (λ step. StepsMac unit line.now.verb step self.old self.new) }
        ensures names { puts_other line.now.verb ≡ false →
            OnOk result (NamesOwn self.old unit → NamesOwn self.new unit) }
        ensures bytes { IfOk result (λ step. NamesOwn self.old unit →
            StepsBytes unit line.now.verb step self.old self.new) }
        ensures addresses { NamesOwn self.old unit
            → OnOk result (KeepsAddresses unit self.old self.new) }
        ensures told { IfOk result TellsOfPort }
        ensures replays { IsFirst line.now.verb done → IfOk result (λ step.
            Replays unit line.now.verb step self.old self.new) }
        ensures beside { OnOk result (SameBeside unit self.old self.new) }
        ensures values { is_put line.now.verb ≡ false → OnOk result (SameValues self.old self.new) }
        ensures others { OnOk result (SameValuesBeside unit self.old self.new) }
        ensures puts { IfOk result (λ step.
            PortPuts line.now.verb step (values_at self.old unit) (values_at self.new unit)) }
        ensures regions { OnOk result (RegionsGrow self.old self.new) }
        ensures marks { OnOk result (LaysLine unit line.now.number self.old self.new) }
        ensures lays { is_in_region line.now.verb ≡ true → IfOk result (λ step.
            PortLays unit line.now.number line.now.verb step self.old self.new) }
        ensures shows { IfOk result (λ step.
            PortTold unit line.now.number line.now.verb step self.new) }
        ensures ranges { IfOk result (λ step. StepRanges unit line.now.verb step self.old.seats) }
        ensures forms { IfOk result (StepForm line.now.verb) }
    {
        let mark = u64::from(line.number);
        match &line.verb {
            Verb::Open => self.open_line(unit),
            Verb::Close => Ok(PortStep::coded(self.free(unit))),
            Verb::Post { at, len, count } => self.post_line(unit, *at, *len, *count, done, mark),
            Verb::Send { mac, len, seed, at } => self.send_line(unit, *mac, *len, *seed, *at, mark),
            Verb::Take { count } => self.take_line(unit, *count, done),
            Verb::ChangeMac { mac } => Ok(PortStep::coded(self.change_mac(unit, *mac))),
            Verb::Multicast { control, mac } => {
                Ok(PortStep::coded(self.multicast(unit, *control, *mac)))
            }
            _ => self.step_in_region(unit, line),
        }
    }

    // Registers the unit with the address of its seat.
    fn open_line(&mut self, unit: UnitId) -> Result<PortStep, NoMemory>
        requires there { IsSome (seat_at self.old.seats unit) }
        ensures seats { self.new.seats ≡ self.old.seats }
        ensures frames { self.new.frames ≡ self.old.frames }
        ensures counts { OnOk result (SameCounts self.old self.new) }
        ensures still { IfOk result TellsNoCount }
        ensures none { IfOk result TellsNoFrame }
        ensures told { IfOk result TellsOfPort }
        ensures replays { IfOk result (λ step.
            Replays unit Verb.Open step self.old self.new) }
        ensures macs { IfOk result (λ step. StepsMac unit Verb.Open step self.old self.new) }
        ensures form { IfOk result (StepForm Verb.Open) }
        ensures beside { OnOk result (SameBeside unit self.old self.new) }
        ensures places { self.new.places ≡ self.old.places }
    {
        let seat = self.seat(unit);
        let code = self.register(unit, 0, seat.queue(), 0, seat.mac)?;
        Ok(PortStep::coded(code))
    }

    // Does a line in the unit's own region.
    fn step_in_region(&mut self, unit: UnitId, line: &Line) -> Result<PortStep, NoMemory>
        requires there { IsSome (seat_at self.old.seats unit) }
        requires region { is_in_region line.now.verb ≡ true }
        requires ranged { IsInRange line.now.verb }
        ensures seats { self.new.seats ≡ self.old.seats }
        ensures frames { self.new.frames ≡ self.old.frames }
        ensures counts { SameCounts self.old self.new }
        ensures still { IfOk result TellsNoCount }
        ensures none { IfOk result TellsNoFrame }
        ensures told { IfOk result TellsOfPort }
        ensures replays { SameReplays self.old self.new }
        ensures values { is_put line.now.verb ≡ false → SameValues self.old self.new }
        ensures names { puts_other line.now.verb ≡ false →
            OnOk result (NamesOwn self.old unit → NamesOwn self.new unit) }
        ensures others { SameValuesBeside unit self.old self.new }
        ensures puts { IfOk result (λ step.
            PortPuts line.now.verb step (values_at self.old unit) (values_at self.new unit)) }
        ensures regions { RegionsGrow self.old self.new }
        ensures marks { LaysLine unit line.now.number self.old self.new }
        ensures lays { IfOk result (λ step.
            PortLays unit line.now.number line.now.verb step self.old self.new) }
        ensures shows { IfOk result (λ step.
            PortTold unit line.now.number line.now.verb step self.new) }
        ensures form { IfOk result (StepForm line.now.verb) }
    {
        let mut own = self.windows.take(unit);
        let step = step_in(self.alloc, &mut own, line);
        self.windows.put(unit, own);
        Ok(PortStep::of(step?))
    }
}

// Does a line in a region.
fn step_in<O: OwnerPort>(alloc: Global, own: &mut O, line: &Line) -> Result<Step, NoMemory>
    requires region { is_in_region line.now.verb ≡ true }
    requires ranged { IsInRange line.now.verb }
    ensures window { KeepsWindow O.is_shared (O.state own.old) (O.state own.new) }
    ensures values { is_put line.now.verb ≡ false
        → (O.state own.new).values ≡ (O.state own.old).values }
    ensures marks { LaysUnder O.is_shared line.now.number (O.state own.old) (O.state own.new) }
    ensures lays { IfOk result (λ step. LaysJust O.is_shared (O.state own.old) (O.state own.new)
        line.now.number (written_by line.now.verb) (Ok step)) }
    ensures puts { IfOk result (PutsOn line.now.verb
        (O.state own.old) (O.state own.new)) }
    ensures shows { IfOk result (StepTold (region_seen (O.state own.new).strokes)
        (O.state own.old).place.size (O.state own.old).place.unit line.now.number line.now.verb) }
    ensures told { IfOk result TellsOfRegion }
{
    let mark = u64::from(line.number);
    match &line.verb {
        Verb::Fill { at, len, seed } => fill(alloc, own, *at, *len, *seed, mark),
        Verb::Poke { at, bytes } => poke(own, *at, bytes.as_slice(), mark),
        Verb::Peek { at, len } => peek(alloc, own, *at, *len),
        Verb::Tce {
            entry,
            page,
            readable,
            writable,
        } => put_tce(own, *entry, *page, *readable, *writable),
        _ => unreachable!(),
    }
}
