// A partition: its script, and a turn of it.
ghost use Rattle.std.specs.Prelude.{[], ◌≡◌, ◌<◌, ℕ, All, IfOk, IfSome, List, Some, OnOk, false, length, slice_get, true};
ghost use Rattle.std.specs.List.{AllPairs};
ghost use Rattle.vcpu_run.specs.ActsAt.{FailsLine, GoesOnce, GoesWith, TurnActs};
ghost use Rattle.vcpu_run.specs.declared.pair.Pair.{Pair as PairValue};
ghost use Rattle.vcpu_run.specs.Agreed.{AreLoggedOut, IsCredited, IsEnded, SameElse};
ghost use Rattle.vio_trace.specs.declared.window_rows.CopyRow.{CopyRow};
ghost use Rattle.vcpu_run.specs.CopiesCounted.{AllMadeBy};
ghost use Rattle.vcpu_run.specs.ScriptLogs.{LogsLines};
ghost use Rattle.vcpu_run.specs.Credited.{taken_in};
ghost use Rattle.vcpu_run.specs.Lines.{IsOver, is_over, place_behind};
ghost use Rattle.vcpu_run.specs.Holding.{LeavesResetOpen, IsResetOpen, KeepsQueues};
ghost use Rattle.vcpu_run.specs.Links.{SeatsRest, SeatsRestWhole};
ghost use Rattle.vcpu_run.specs.Pairs.{AreDriven, AreDrivers};
ghost use Rattle.vcpu_run.specs.ClientRuns.{EndsClients};
ghost use Rattle.vcpu_run.specs.PlainScripts.{QuietsPlainly, StandsPlainly, StartsAnew, TurnsPlainly};
ghost use Rattle.vcpu_run.specs.Quietly.{OnQuiet};
ghost use Rattle.lan_script.specs.Units.{LanValue};
ghost use Rattle.vcpu_run.specs.Ports.{HasPorts};
ghost use Rattle.vcpu_run.specs.PortSteps.{AreFresh, IsApart};
ghost use Rattle.vcpu_run.specs.PortWords.{HasNoCall, TellsPorts, done_in};
ghost use Rattle.vcpu_run.specs.PortsRest.{PortsRest};
ghost use Rattle.vcpu_run.specs.Suited.{IsLineAt};
ghost use Rattle.vcpu_run.specs.ScriptTold.{IsResetOut, IsScriptTold};
ghost use Rattle.vcpu_run.specs.Scripts.{AreSeats, IsScript, OnlyRuns, are_servers};
ghost use Rattle.vcpu_run.specs.TakenScripts.{AreUntaken};
ghost use Rattle.vcpu_run.specs.Works.{fails};

use crate::pair::Pair;
use crate::seats::{either, fail, push_events, step_unit, take_rest};
use crate::unit_seat::Seat;
use boot_text::{Line, Verb};
use lan_script::Lan;
use std::alloc::Global;
use unit_region::Step;
use vio_num::{Moved, NoMemory};
use vio_trace::{LogRow, Outcome};

/// How far the line at which a script stands came in earlier turns.
#[derive(Clone, Copy, Debug, PartialEq, Eq)]
pub(crate) enum Progress {
    /// It is to begin.
    Fresh,
    /// Its queue was freed.
    Freed,
    /// It took so many answers or frames.
    Took(u64),
    /// It posted so many buffers.
    Posted(u64),
}

impl Progress {
    /// The answers that it took.
    pub(crate) fn taken(self) -> u64
        ensures { result ≡ taken_in self }
    {
        match self {
            Progress::Took(taken) => taken,
            Progress::Fresh | Progress::Freed | Progress::Posted(_) => 0,
        }
    }

    /// The answers or frames that it took, or the buffers that it posted.
    pub(crate) fn done(self) -> u64
        ensures { result ≡ done_in self }
    {
        match self {
            Progress::Took(done) | Progress::Posted(done) => done,
            Progress::Fresh | Progress::Freed => 0,
        }
    }
}

/// A partition. That of server units has no line.
#[derive(Drop)]
pub(crate) struct Script<'p> {
    alloc: Global,
    pub(crate) partition: u8,
    lines: &'p [Line],
    /// The place of the current line.
    at: usize,
    progress: Progress,
    /// Where its units sit, by unit.
    pub(crate) seats: Vec<Seat>,
    pub(crate) logs: Vec<LogRow>,
}

impl<'p> Script<'p> {
    /// A partition before its first line.
    pub(crate) fn new(
        alloc: Global,
        partition: u8,
        lines: &'p [Line],
        seats: Vec<Seat>,
    ) -> Script<'p>
        requires lines { All (IsLineAt seats.items) lines.now }
        requires in_order { AllPairs (λ a b. a.number < b.number) lines.now }
        ensures script { (pairs : List PairValue) →
            AreSeats partition seats.items pairs → IsScript pairs result }
        ensures credited { (pairs : List PairValue) → AreLoggedOut seats.items pairs →
            IsCredited pairs result }
        ensures said { (pairs : List PairValue) → AreLoggedOut seats.items pairs →
            AreUntaken pairs → IsScriptTold pairs result }
        ensures told { (lan : LanValue) → AreFresh lan → TellsPorts lan result }
        ensures fresh { result.logs.items ≡ [] }
        ensures partition { result.partition ≡ partition }
        ensures lines { result.lines.now ≡ lines.now }
        ensures seats { result.seats ≡ seats }
        ensures plainly { (granted u : ℕ) (pair : PairValue) → StartsAnew pair →
            StandsPlainly granted u result pair }
    {
        Script {
            alloc,
            partition,
            lines,
            at: 0,
            progress: Progress::Fresh,
            seats,
            logs: Vec::new(alloc),
        }
    }

    /// One turn: it pushes the kept events, and does one step of the current line; after the last line it takes
    /// what stands in its queues.
    pub(crate) fn turn(&mut self, pairs: &mut [Pair], lan: &mut Lan) -> Result<Moved, NoMemory>
        requires script { IsScript pairs.old self.old }
        requires pairs { AreDrivers pairs.old }
        requires ports { HasPorts lan.old.seats self.old }
        ensures driven { AreDriven pairs.old pairs.new }
        ensures script { IsScript pairs.new self.new }
        ensures rest { OnlyRuns self.old self.new }
        ensures others { SameElse self.old.seats.items pairs.old pairs.new }
        ensures unfreed { OnOk result (KeepsQueues pairs.old self.old →
            KeepsQueues pairs.new self.new) }
        ensures lan { lan.new.seats ≡ lan.old.seats }
        ensures told { OnOk result (TellsPorts lan.old self.old →
            TellsPorts lan.new self.new) }
        ensures apart { OnOk result (IsApart self.old.partition lan.old lan.new) }
        ensures credited { OnOk result (IsCredited pairs.old self.old →
            IsCredited pairs.new self.new) }
        ensures logged { OnOk result ((copies : ℕ → List CopyRow) → AllMadeBy copies pairs.new →
            LogsLines copies pairs.old self.old → LogsLines copies pairs.new self.new) }
        ensures said { OnOk result (HasNoCall self.old.lines.now →
            IsScriptTold pairs.old self.old → IsScriptTold pairs.new self.new) }
        ensures out { IfOk result (λ moved. moved ≡ Moved.Quiet → HasNoCall self.old.lines.now →
            IsScriptTold pairs.old self.old → IsResetOut pairs.new self.new) }
        ensures opened { IfOk result (λ moved. moved ≡ Moved.Quiet →
            LeavesResetOpen pairs.old pairs.new self.new) }
        ensures quiet { IfOk result (λ moved. moved ≡ Moved.Quiet → IsOver self.new →
            SeatsRestWhole self.old.seats.items pairs.old pairs.new) }
        ensures ports { IfOk result (λ moved. moved ≡ Moved.Quiet → IsOver self.new →
            PortsRest self.old.partition self.old.seats.items lan.old lan.new) }
        ensures plainly { OnOk result (TurnsPlainly pairs.old pairs.new self.old self.new) }
        ensures quiets { IfOk result (λ moved. moved ≡ Moved.Quiet →
            QuietsPlainly pairs.old pairs.new self.old self.new) }
        ensures acts { IfOk result (λ moved.
            TurnActs moved pairs.old pairs.new self.old self.new) }
    {
        let pushed = push_events(&self.seats, pairs)?;
        let moved = self.go_on(pairs, lan)?;
        Ok(either(pushed, moved))
    }

    // Does one step of the current line, or takes what stands in the queues where there is none.
    fn go_on(&mut self, pairs: &mut [Pair], lan: &mut Lan) -> Result<Moved, NoMemory>
        requires script { IsScript pairs.old self.old }
        requires pairs { AreDrivers pairs.old }
        requires ports { HasPorts lan.old.seats self.old }
        ensures driven { AreDriven pairs.old pairs.new }
        ensures script { IsScript pairs.new self.new }
        ensures rest { OnlyRuns self.old self.new }
        ensures others { SameElse self.old.seats.items pairs.old pairs.new }
        ensures unfreed { OnOk result (KeepsQueues pairs.old self.old →
            KeepsQueues pairs.new self.new) }
        ensures lan { lan.new.seats ≡ lan.old.seats }
        ensures told { OnOk result (TellsPorts lan.old self.old →
            TellsPorts lan.new self.new) }
        ensures apart { OnOk result (IsApart self.old.partition lan.old lan.new) }
        ensures credited { OnOk result (IsCredited pairs.old self.old →
            IsCredited pairs.new self.new) }
        ensures logged { OnOk result ((copies : ℕ → List CopyRow) → AllMadeBy copies pairs.new →
            LogsLines copies pairs.old self.old → LogsLines copies pairs.new self.new) }
        ensures said { OnOk result (HasNoCall self.old.lines.now →
            IsScriptTold pairs.old self.old → IsScriptTold pairs.new self.new) }
        ensures out { IfOk result (λ moved. moved ≡ Moved.Quiet → HasNoCall self.old.lines.now →
            IsScriptTold pairs.old self.old → IsResetOut pairs.new self.new) }
        ensures opened { IfOk result (λ moved. moved ≡ Moved.Quiet →
            LeavesResetOpen pairs.old pairs.new self.new) }
        ensures quiet { IfOk result (λ moved. moved ≡ Moved.Quiet → IsOver self.new →
            SeatsRest self.old.seats.items pairs.old pairs.new) }
        ensures ports { IfOk result (λ moved. moved ≡ Moved.Quiet → IsOver self.new →
            PortsRest self.old.partition self.old.seats.items lan.old lan.new) }
        ensures plainly { OnOk result (TurnsPlainly pairs.old pairs.new self.old self.new) }
        ensures quiets { IfOk result (λ moved. moved ≡ Moved.Quiet →
            QuietsPlainly pairs.old pairs.new self.old self.new) }
        ensures acts { IfOk result (λ moved.
            GoesOnce moved pairs.old pairs.new self.old self.new) }
    {
        let lines = self.lines;
        match lines.get(self.at) {
            Some(line) => self.step(pairs, lan, line),
            None => take_rest(self.partition, &self.seats, pairs, lan),
        }
    }

    // One step of this line, which is the current one.
    fn step(&mut self, pairs: &mut [Pair], lan: &mut Lan, line: &Line) -> Result<Moved, NoMemory>
        requires script { IsScript pairs.old self.old }
        requires pairs { AreDrivers pairs.old }
        requires ports { HasPorts lan.old.seats self.old }
        requires line { slice_get self.old.lines.now self.old.at ≡ Some line.now }
        ensures driven { AreDriven pairs.old pairs.new }
        ensures script { IsScript pairs.new self.new }
        ensures rest { OnlyRuns self.old self.new }
        ensures others { SameElse self.old.seats.items pairs.old pairs.new }
        ensures unfreed { OnOk result (KeepsQueues pairs.old self.old →
            KeepsQueues pairs.new self.new) }
        ensures lan { lan.new.seats ≡ lan.old.seats }
        ensures told { OnOk result (TellsPorts lan.old self.old →
            TellsPorts lan.new self.new) }
        ensures apart { OnOk result (IsApart self.old.partition lan.old lan.new) }
        ensures credited { OnOk result (IsCredited pairs.old self.old →
            IsCredited pairs.new self.new) }
        ensures logged { OnOk result ((copies : ℕ → List CopyRow) → AllMadeBy copies pairs.new →
            LogsLines copies pairs.old self.old → LogsLines copies pairs.new self.new) }
        ensures said { OnOk result (HasNoCall self.old.lines.now →
            IsScriptTold pairs.old self.old → IsScriptTold pairs.new self.new) }
        ensures out { IfOk result (λ moved. moved ≡ Moved.Quiet → HasNoCall self.old.lines.now →
            IsScriptTold pairs.old self.old → IsResetOut pairs.new self.new) }
        ensures opened { IfOk result (λ moved. moved ≡ Moved.Quiet →
            LeavesResetOpen pairs.old pairs.new self.new) }
        ensures quiet { IfOk result (λ moved. moved ≡ Moved.Quiet → ¬ (IsOver self.new)) }
        ensures plainly { OnOk result (TurnsPlainly pairs.old pairs.new self.old self.new) }
        ensures quiets { IfOk result (λ moved. moved ≡ Moved.Quiet →
            QuietsPlainly pairs.old pairs.new self.old self.new) }
        ensures acts { IfOk result (λ moved.
            GoesWith moved line.now pairs.old pairs.new self.old self.new) }
    {
        if let Verb::Fail = line.verb {
            return self.step_fail(pairs, lan, line);
        }
        let step = step_unit(
            self.alloc,
            self.partition,
            &self.seats,
            pairs,
            lan,
            line,
            &mut self.progress,
        )?;
        match step {
            Step::Ends(outcome) => {
                self.end(line, outcome)?;
                Ok(Moved::Moved)
            }
            Step::Waits(moved) => Ok(moved),
        }
    }

    // One step of a line that fails the partition.
    fn step_fail(
        &mut self,
        pairs: &mut [Pair],
        lan: &mut Lan,
        line: &Line,
    ) -> Result<Moved, NoMemory>
        requires fails { fails line.now.verb ≡ true }
        requires script { IsScript pairs.old self.old }
        requires pairs { AreDrivers pairs.old }
        requires ports { HasPorts lan.old.seats self.old }
        requires line { slice_get self.old.lines.now self.old.at ≡ Some line.now }
        ensures driven { AreDriven pairs.old pairs.new }
        ensures script { IsScript pairs.new self.new }
        ensures rest { OnlyRuns self.old self.new }
        ensures others { SameElse self.old.seats.items pairs.old pairs.new }
        ensures unfreed { OnOk result (KeepsQueues pairs.old self.old →
            KeepsQueues pairs.new self.new) }
        ensures lan { lan.new.seats ≡ lan.old.seats }
        ensures told { OnOk result (TellsPorts lan.old self.old →
            TellsPorts lan.new self.new) }
        ensures apart { OnOk result (IsApart self.old.partition lan.old lan.new) }
        ensures credited { OnOk result (IsCredited pairs.old self.old →
            IsCredited pairs.new self.new) }
        ensures logged { OnOk result ((copies : ℕ → List CopyRow) → AllMadeBy copies pairs.new →
            LogsLines copies pairs.old self.old → LogsLines copies pairs.new self.new) }
        ensures said { OnOk result (IsScriptTold pairs.old self.old →
            IsScriptTold pairs.new self.new) }
        ensures out { IfOk result (λ moved. moved ≡ Moved.Quiet →
            IsResetOut pairs.new self.new) }
        ensures opened { IfOk result (λ moved. moved ≡ Moved.Quiet →
            LeavesResetOpen pairs.old pairs.new self.new) }
        ensures quiet { IfOk result (λ moved. moved ≡ Moved.Quiet → ¬ (IsOver self.new)) }
        ensures plainly { OnOk result (TurnsPlainly pairs.old pairs.new self.old self.new) }
        ensures quiets { IfOk result (λ moved. moved ≡ Moved.Quiet →
            QuietsPlainly pairs.old pairs.new self.old self.new) }
        ensures acts { IfOk result (λ moved.
            FailsLine line.now pairs.old pairs.new self.old self.new
            × (moved ≡ Moved.Quiet → self.new ≡ self.old)) }
        ensures done { IfOk result (λ moved. moved ≡ Moved.Moved) }
    {
        if fail(self.partition, &self.seats, pairs, lan)? {
            self.end(line, Outcome::Done)?;
            return Ok(Moved::Moved);
        }
        Ok(Moved::Quiet)
    }

    // Logs how the current line ended, and goes to the next, if one comes behind it.
    fn end(&mut self, line: &Line, outcome: Outcome) -> Result<(), NoMemory>
        requires line { slice_get self.old.lines.now self.old.at ≡ Some line.now }
        ensures script { (pairs : List PairValue) →
            IsScript pairs self.old → IsScript pairs self.new }
        ensures rest { OnlyRuns self.old self.new }
        ensures ended { OnOk result (IsEnded line.now outcome self.old self.new) }
        ensures at { OnOk result (self.new.at ≡
            place_behind self.old.lines.now self.old.at line.now) }
        ensures fresh { OnOk result (self.new.progress ≡ Progress.Fresh) }
    {
        self.logs.push(LogRow {
            partition: self.partition,
            line: line.number,
            outcome,
        })?;
        self.at = place_behind(self.lines, self.at, line);
        self.progress = Progress::Fresh;
        Ok(())
    }

    /// Whether its units are server units.
    pub(crate) fn is_of_servers(&self) -> bool
        ensures { result ≡ are_servers self.now.seats.items }
    {
        matches!(self.seats.first(), Some(Seat::Server))
    }

    /// Whether no line is left.
    pub(crate) fn is_over(&self) -> bool
        ensures { result ≡ is_over self.now }
    {
        self.at >= self.lines.len()
    }

    /// Ends the current line if it waits for what does not come any more.
    pub(crate) fn end_waiting(&mut self) -> Result<Moved, NoMemory>
        ensures script { (pairs : List PairValue) →
            IsScript pairs self.old → IsScript pairs self.new }
        ensures rest { OnlyRuns self.old self.new }
        ensures credited { OnOk result ((pairs : List PairValue) → IsScript pairs self.old →
            IsCredited pairs self.old → IsCredited pairs self.new) }
        ensures logged { OnOk result ((pairs : List PairValue) → IsScript pairs self.old →
            (copies : ℕ → List CopyRow) → AllMadeBy copies pairs →
            LogsLines copies pairs self.old → LogsLines copies pairs self.new) }
        ensures told { OnOk result ((pairs : List PairValue) (lan : LanValue) →
            IsScript pairs self.old → TellsPorts lan self.old → TellsPorts lan self.new) }
        ensures said { OnOk result ((pairs : List PairValue) → IsScript pairs self.old →
            IsResetOut pairs self.old → IsScriptTold pairs self.old →
            IsScriptTold pairs self.new) }
        ensures unfreed { OnOk result ((pairs : List PairValue) → IsScript pairs self.old →
            IsResetOpen pairs self.old → KeepsQueues pairs self.old → KeepsQueues pairs self.new) }
        ensures quiet { OnQuiet result (self.new ≡ self.old) }
        ensures clients { OnOk result ((pairs : List PairValue) → IsScript pairs self.old →
            EndsClients pairs self.old self.new) }
    {
        let lines = self.lines;
        let Some(line) = lines.get(self.at) else {
            return Ok(Moved::Quiet);
        };
        let outcome = match line.verb {
            Verb::Login => Outcome::Unanswered,
            Verb::Reset => Outcome::Unanswered,
            Verb::Take { .. } => Outcome::Took(self.progress.taken()),
            _ => return Ok(Moved::Quiet),
        };
        self.end(line, outcome)?;
        Ok(Moved::Moved)
    }
}

// The place at which a script stands once its line at this place has ended: there is none behind one that fails the
// partition.
fn place_behind(lines: &[Line], at: usize, line: &Line) -> usize
    requires { at < length lines.now }
    ensures { result ≡ place_behind lines.now at line.now }
{
    if let Verb::Fail = line.verb {
        return lines.len();
    }
    at + 1
}
