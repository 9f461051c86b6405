// Frames: what a line writes of one, and how a frame is sent and kept.
ghost use Rattle.std.specs.Prelude.{◌≡◌, ◌≤◌, ◌-◌, IfOk, IsSome, OnOk, ◌^◌, ◌*◌, ◌+◌, false, length, IsErrOf, None, Some, true};
ghost use Rattle.boot_text.specs.declared.port_script.TheConstants.{LEAST_FRAME, MOST_FRAME};
ghost use Rattle.boot_text.specs.declared.verb.Verb.TheVariants as verbs;
ghost use Rattle.lan_buffers.specs.declared.settings.Settings.{Settings};
ghost use Rattle.lan_script.specs.declared.seat.PortSeat.{PortSeat};
ghost use Rattle.hcall_table.specs.Rows.{may_answer};
ghost use Rattle.hcall_table.specs.declared.hcall.Hcall.TheVariants as rows;
ghost use Rattle.tce_window.specs.Answers.{IfInUse};
ghost use Rattle.lan_script.specs.Invariant.{Owes};
ghost use Rattle.lan_script.specs.Regions.{LaysLine, LaysNoOwn, RegionsGrow};
ghost use Rattle.lan_script.specs.Replayed.{AddsBytes, GoesOut, GrantsAll, HasPages, HasShown, Replays, ReplaysOn, SameBeside, SameReplays, SendsShown, SentSays, Shows, replay_at};
ghost use Rattle.lan_script.specs.Seats.{TellsOfPort, seat_at};
ghost use Rattle.lan_script.specs.SendRanges.{StepRanges, TellsNoRange};
ghost use Rattle.lan_script.specs.Values.{NamesOwn, SameValues};
ghost use Rattle.lan_script.specs.LineBytes.{StepsBytes};
ghost use Rattle.lan_script.specs.LineFrame.{line_frame};
ghost use Rattle.lan_script.specs.LineForms.{SendForm, StepForm};
ghost use Rattle.lan_script.specs.LineSays.{KeepsFrame, SaysSent, SendsAs, SentAs};
ghost use Rattle.lan_script.specs.OwnMac.{SameSettings};
ghost use Rattle.lan_script.specs.PortCounts.{SameCounts, TellsNoCount};
ghost use Rattle.lan_script.specs.Targets.{OffersMade};

use crate::frames::frame_row;
use crate::lan::{Lan, place_of};
use crate::lines::PortStep;
use crate::seat::descriptor;
use lan_switch::SendRecord;
use std::alloc::Global;
use tce_window::{OwnFault, OwnerPort};
use unit_region::pattern;
use vio_num::{Hrc, Mac, NoMemory, UnitId};
use vio_trace::Outcome;

/// The code of a frame's call, and the frame's number where it has one.
#[derive(Clone, Copy, Debug, PartialEq, Eq)]
pub(crate) struct Sent {
    pub(crate) code: Hrc,
    pub(crate) number: Option<u64>,
}

/// The bytes of a frame's head: two addresses, and its type.
const HEAD: u64 = 14;

impl Lan {
    // Writes a frame of `len` bytes at an address of the region, under the mark of a line, and sends it as one part.
    #[tactic(auto, using(crate::proofs::RegionMarks::marks_placed))]
    pub(crate) fn send_line(
        &mut self,
        unit: UnitId,
        to: Mac,
        len: u64,
        seed: u64,
        at: u64,
        mark: u64,
    ) -> Result<PortStep, NoMemory>
        requires there { IsSome (seat_at self.old.seats unit) }
        requires least { LEAST_FRAME ≤ len }
        requires most { len ≤ MOST_FRAME }
        ensures seats { self.new.seats ≡ self.old.seats }
        ensures sends { IfOk result (λ step. SendsAs unit step self.old self.new) }
        ensures counts { OnOk result (SameCounts self.old self.new) }
        ensures still { IfOk result TellsNoCount }
        ensures told { IfOk result TellsOfPort }
        ensures form { IfOk result (StepForm (verbs.Send to len seed at)) }
        ensures macs { OnOk result (SameSettings unit self.old self.new) }
        ensures replays { IfOk result (λ step.
            Replays unit (verbs.Send to len seed at) step self.old self.new) }
        ensures bytes { IfOk result (λ step. NamesOwn self.old unit →
            StepsBytes unit (verbs.Send to len seed at) step self.old self.new) }
        ensures beside { OnOk result (SameBeside unit self.old self.new) }
        ensures values { OnOk result (SameValues self.old self.new) }
        ensures regions { OnOk result (RegionsGrow self.old self.new) }
        ensures marks { OnOk result (LaysLine unit mark self.old self.new) }
        ensures ranges { IfOk result (λ step.
            StepRanges unit (verbs.Send to len seed at) step self.old.seats) }
    {
        if !self.has_range(unit, at, len) {
            return Ok(PortStep::Ends(Outcome::Range));
        }
        let from = self.present(unit);
        let frame = frame_bytes(self.alloc, to, from, len, seed)?;
        match self.write(unit, at, &frame, mark) {
            Ok(()) => {}
            Err(OwnFault::Range) => return Ok(PortStep::Ends(Outcome::Range)),
            Err(OwnFault::InUse { page: _, word: _ }) => return Ok(PortStep::waits(0)),
            Err(OwnFault::NoMemory) => return Err(NoMemory),
        }
        let sent = self.send(unit, &[descriptor(at, len), 0, 0, 0, 0, 0])?;
        Ok(said(sent))
    }

    // Gives the present address of the unit: its port's, or that of its seat where the port is closed.
    fn present(&self, unit: UnitId) -> Mac
        requires there { IsSome (seat_at self.now.seats unit) }
        ensures opened { (settings : Settings) → (replay_at self.now unit).settings ≡ Some settings
            → result ≡ settings.mac }
    {
        match self.switch.settings(unit) {
            Some(settings) => settings.mac,
            None => self.seat(unit).mac,
        }
    }

    // Writes bytes into the region of the unit.
    pub(crate) fn write(
        &mut self,
        unit: UnitId,
        at: u64,
        bytes: &[u8],
        mark: u64,
    ) -> Result<(), OwnFault>
        requires there { IsSome (seat_at self.old.seats unit) }
        ensures seats { self.new.seats ≡ self.old.seats }
        ensures frames { self.new.frames ≡ self.old.frames }
        ensures counts { SameCounts self.old self.new }
        ensures inside { OnOk result (at ≤ 2 ^ 20) }
        ensures replays { SameReplays self.old self.new }
        ensures free { HasPages self.old unit → IfInUse result (λ _ _. ⊥) }
        ensures range { (seat : PortSeat) → seat_at self.old.seats unit ≡ Some seat
            → at + length bytes.now ≤ 4096 * seat.pages → 1 ≤ length bytes.now
            → length bytes.now ≤ 65536 → ¬ IsErrOf result OwnFault.Range }
        ensures grants { GrantsAll self.old unit → GrantsAll self.new unit }
        ensures values { SameValues self.old self.new }
        ensures regions { RegionsGrow self.old self.new }
        ensures marks { LaysLine unit mark self.old self.new }
        ensures shown { OnOk result (Shows self.new.places unit at bytes.now) }
    {
        let mut own = self.windows.take(unit);
        let answer = OwnerPort::write(&mut own, at, bytes, mark);
        self.windows.put(unit, own);
        answer
    }

    // Sends a frame of these parts from the unit, and keeps its row if it has a number.
    pub(crate) fn send(&mut self, unit: UnitId, parts: &[u64; 6]) -> Result<Sent, NoMemory>
        requires there { IsSome (seat_at self.old.seats unit) }
        ensures seats { self.new.seats ≡ self.old.seats }
        ensures sends { IfOk result (λ sent.
            SentAs unit sent.code sent.number self.old self.new) }
        ensures counts { OnOk result (SameCounts self.old self.new) }
        ensures code { IfOk result (λ sent. may_answer rows.SendLogicalLan sent.code ≡ true) }
        ensures replays { IfOk result (λ sent.
            ReplaysOn unit (SentSays sent.code sent.number) self.old self.new) }
        ensures goes { IfOk result (λ sent.
            GoesOut self.old unit parts.now sent.code sent.number) }
        ensures values { OnOk result (SameValues self.old self.new) }
        ensures regions { OnOk result (RegionsGrow self.old self.new) }
        ensures marks { OnOk result (LaysNoOwn self.old self.new) }
        ensures shown { IfOk result (λ sent.
            SendsShown unit parts.now sent.number self.old self.new) }
    {
        if !self.whole {
            return Err(NoMemory);
        }
        let made = self.offer(unit, parts)?;
        self.keep(unit, made)
    }

    // Passes a frame to the switch. Until its row is kept the frames are not whole.
    fn offer(&mut self, unit: UnitId, parts: &[u64; 6]) -> Result<SendRecord, NoMemory>
        requires there { IsSome (seat_at self.old.seats unit) }
        requires whole { self.old.whole ≡ true }
        ensures seats { self.new.seats ≡ self.old.seats }
        ensures frames { self.new.frames ≡ self.old.frames }
        ensures counts { OnOk result (SameCounts self.old self.new) }
        ensures short { self.new.whole ≡ false }
        ensures targets { IfOk result (OffersMade unit self.old) }
        ensures code { IfOk result (λ made. may_answer rows.SendLogicalLan made.code ≡ true) }
        ensures owes { IfOk result (Owes self.new unit) }
        ensures replays { OnOk result (SameReplays self.old self.new) }
        ensures goes { IfOk result (λ made.
            GoesOut self.old unit parts.now made.code made.frame) }
        ensures values { OnOk result (SameValues self.old self.new) }
        ensures regions { OnOk result (RegionsGrow self.old self.new) }
        ensures marks { OnOk result (LaysNoOwn self.old self.new) }
        ensures shown { IfOk result (λ made.
            IsSome made.frame → HasShown self.old unit parts.now made.bytes) }
    {
        self.whole = false;
        let mut own = self.windows.take(unit);
        let answer = self.switch.send(unit, &mut own, parts, &mut self.windows);
        self.windows.put(unit, own);
        answer
    }

    // Keeps the row of a frame, if it has a number: then the frames are whole.
    fn keep(&mut self, unit: UnitId, made: SendRecord) -> Result<Sent, NoMemory>
        requires there { IsSome (seat_at self.old.seats unit) }
        requires short { self.old.whole ≡ false }
        requires owes { Owes self.old unit made }
        ensures seats { self.new.seats ≡ self.old.seats }
        ensures keeps { OnOk result (KeepsFrame unit made made.frame self.old self.new) }
        ensures counts { OnOk result (SameCounts self.old self.new) }
        ensures code { IfOk result (λ sent. sent.code ≡ made.code) }
        ensures number { IfOk result (λ sent. sent.number ≡ made.frame) }
        ensures replays { IfOk result (λ sent.
            ReplaysOn unit (SentSays sent.code sent.number) self.old self.new) }
        ensures adds { OnOk result (AddsBytes unit made.frame made.bytes self.old self.new) }
        ensures places { self.new.places ≡ self.old.places }
    {
        let sent = Sent {
            code: made.code,
            number: made.frame,
        };
        let Some(number) = made.frame else {
            self.whole = true;
            return Ok(sent);
        };
        let row = frame_row(self.alloc, unit, number, made)?;
        let place = place_of(&self.seats, unit);
        self.frames[place].push(row)?;
        self.whole = true;
        Ok(sent)
    }
}

// Says how the line of a frame ends.
fn said(sent: Sent) -> PortStep
    ensures told { TellsOfPort result }
    ensures says { SaysSent sent.code sent.number result }
    ensures coded { sent.number ≡ None → ¬ (sent.code ≡ Hrc.Busy)
        → result ≡ PortStep.Ends (Outcome.Code sent.code) }
    ensures still { TellsNoCount result }
    ensures inside { TellsNoRange result }
    ensures form { may_answer rows.SendLogicalLan sent.code ≡ true → SendForm result }
{
    match sent.number {
        Some(number) => PortStep::Ends(Outcome::Frame {
            code: sent.code,
            number,
        }),
        None => PortStep::coded(sent.code),
    }
}

// Makes the bytes of a frame: whom it is for, whom it is from, its type, and a pattern.
fn frame_bytes(alloc: Global, to: Mac, from: Mac, len: u64, seed: u64) -> Result<Vec<u8>, NoMemory>
    requires least { LEAST_FRAME ≤ len }
    requires most { len ≤ MOST_FRAME }
    ensures len { IfOk result (λ bytes. length bytes.items ≡ len) }
    ensures bytes { IfOk result (λ bytes. bytes.items ≡ line_frame to from (len - HEAD) seed) }
{
    let mut bytes = Vec::with_capacity(alloc, len as usize)?;
    bytes.extend_from_slice(&to.bytes)?;
    bytes.extend_from_slice(&from.bytes)?;
    bytes.extend_from_slice(&[0x88, 0xB5])?;
    for i in 0..len - HEAD {
        bytes.push(pattern(seed, i))?;
    }
    Ok(bytes)
}
