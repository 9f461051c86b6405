// The line that posts receive buffers, one behind the other.
ghost use Rattle.std.specs.Prelude.{◌≡◌, ◌↔◌, ◌≤◌, ◌+◌, ◌*◌, ◌^◌, ◌<◌, Some, IfOk, IfSome, IsSome, OnOk, true};
ghost use Rattle.boot_text.specs.declared.port_script.TheConstants.{MOST_BUFFERS};
ghost use Rattle.boot_text.specs.declared.verb.Verb.TheVariants as verbs;
ghost use Rattle.hcall_table.specs.Rows.{may_answer};
ghost use Rattle.hcall_table.specs.declared.hcall.Hcall.TheVariants as rows;
ghost use Rattle.vio_trace.specs.declared.outcome.Outcome.TheVariants as outcomes;
ghost use Rattle.lan_script.specs.declared.lines.PortStep.TheVariants as steps;
ghost use Rattle.lan_script.specs.declared.seat.PortSeat.{PortSeat};
ghost use Rattle.lan_script.specs.Buffers.{AddsAt, AddsBuffer, PostsStep};
ghost use Rattle.lan_script.specs.Correlators.{KeepsAddresses, ShowsAddress};
ghost use Rattle.lan_script.specs.LineForms.{StepForm};
ghost use Rattle.lan_script.specs.LineSays.{TellsNoFrame};
ghost use Rattle.lan_script.specs.OwnMac.{SameSettings};
ghost use Rattle.lan_script.specs.PortCounts.{CountsOn, CountsStep, counts, posted_on};
ghost use Rattle.lan_buffers.specs.Buffer.{IsBuffer, buffer_address, buffer_len, is_valid};
ghost use Rattle.lan_script.specs.PortReplay.{IsBufferLen};
ghost use Rattle.lan_script.specs.Regions.{LaysLine, LaysNoOwn, RegionsGrow};
ghost use Rattle.lan_script.specs.Replayed.{AddSays, FitsOne, GrantsAll, HasPages, Replays, ReplaysOn, SameBeside};
ghost use Rattle.lan_script.specs.Seats.{TellsOfPort, seat_at};
ghost use Rattle.lan_script.specs.Values.{NamesOwn, SameValues};

use crate::lan::Lan;
use crate::lines::PortStep;
use crate::seat::descriptor;
use byteorder::{BigEndian, ByteOrder};
use tce_window::OwnFault;
use vio_num::{Hrc, Moved, NoMemory, PAGE_BYTES, UnitId};
use vio_trace::Outcome;

/// The bytes of a correlator, with which a buffer begins.
const CORRELATOR: u64 = 8;

impl Lan {
    // Posts buffers of `len` bytes from the address on, of which `done` were posted before. It stops at the first that
    // is refused.
    #[tactic(auto, using(crate::proofs::RegionsGrow::regions_placed, crate::proofs::RegionsGrow::regions_then, crate::proofs::RegionMarks::marks_placed))]
    pub(crate) fn post_line(
        &mut self,
        unit: UnitId,
        at: u64,
        len: u64,
        count: u64,
        done: u64,
        mark: u64,
    ) -> Result<PortStep, NoMemory>
        requires there { IsSome (seat_at self.old.seats unit) }
        requires some { 1 ≤ count }
        requires few { count ≤ MOST_BUFFERS }
        ensures seats { self.new.seats ≡ self.old.seats }
        ensures none { IfOk result TellsNoFrame }
        ensures frames { self.new.frames ≡ self.old.frames }
        ensures counts { IfOk result (λ step.
            CountsStep unit (verbs.Post at len count) done step self.old self.new) }
        ensures posts { IfOk result (λ step.
            PostsStep unit (verbs.Post at len count) done step self.old self.new) }
        ensures told { IfOk result TellsOfPort }
        ensures form { IfOk result (StepForm (verbs.Post at len count)) }
        ensures macs { OnOk result (SameSettings unit self.old self.new) }
        ensures replays { done ≡ 0 → IfOk result (λ step.
            Replays unit (verbs.Post at len count) step self.old self.new) }
        ensures addresses { NamesOwn self.old unit
            → OnOk result (KeepsAddresses unit self.old self.new) }
        ensures beside { OnOk result (SameBeside unit self.old self.new) }
        ensures values { OnOk result (SameValues self.old self.new) }
        ensures regions { OnOk result (RegionsGrow self.old self.new) }
        ensures marks { OnOk result (LaysLine unit mark self.old self.new) }
    {
        for posted in done..count {
            match self.post_one(unit, buffer_at(at, len, posted), len, mark)? {
                Hrc::Success => {}
                Hrc::Busy => {
                    return Ok(PortStep::Waits {
                        moved: Moved::Quiet,
                        done: posted,
                    });
                }
                code => return Ok(ended(posted, code)),
            }
        }
        Ok(ended(count, Hrc::Success))
    }

    // Posts one buffer, whose correlator, its own address, is written first.
    fn post_one(
        &mut self,
        unit: UnitId,
        address: Option<u64>,
        len: u64,
        mark: u64,
    ) -> Result<Hrc, NoMemory>
        requires there { IsSome (seat_at self.old.seats unit) }
        ensures seats { self.new.seats ≡ self.old.seats }
        ensures frames { self.new.frames ≡ self.old.frames }
        ensures counts { IfOk result (λ code.
            CountsOn unit (counts 0 0) (posted_on code) self.old self.new) }
        ensures code { IfOk result (λ code. may_answer rows.AddLogicalLanBuffer code ≡ true) }
        ensures replays { IfOk result (λ code.
            ReplaysOn unit (AddSays len (IsBufferLen len) code) self.old self.new) }
        ensures posts { IfOk result (λ code. code ≡ Hrc.Success
            → AddsAt unit address len self.old self.new) }
        ensures fits { IfSome address (λ at. FitsOne self.old unit at len
            → IfOk result (λ code. code ≡ Hrc.Success)) }
        ensures addresses { NamesOwn self.old unit
            → OnOk result (KeepsAddresses unit self.old self.new) }
        ensures grants { GrantsAll self.old unit → OnOk result (GrantsAll self.new unit) }
        ensures values { OnOk result (SameValues self.old self.new) }
        ensures regions { OnOk result (RegionsGrow self.old self.new) }
        ensures marks { OnOk result (LaysLine unit mark self.old self.new) }
    {
        let Some(address) = address else {
            return Ok(Hrc::Parameter);
        };
        if !self.has_buffer(unit, address, len) {
            return Ok(Hrc::Parameter);
        }
        let mut correlator = [0u8; 8];
        BigEndian::write_u64(&mut correlator, address);
        match self.write(unit, address, &correlator, mark) {
            Ok(()) => self.add(unit, descriptor(address, len)),
            Err(OwnFault::Range) => Ok(Hrc::Parameter),
            Err(OwnFault::InUse { page: _, word: _ }) => Ok(Hrc::Busy),
            Err(OwnFault::NoMemory) => Err(NoMemory),
        }
    }

    // Tells whether a buffer and its correlator lie in the region of the unit.
    fn has_buffer(&self, unit: UnitId, address: u64, len: u64) -> bool
        requires there { IsSome (seat_at self.now.seats unit) }
        ensures address { result ≡ true → address ≤ 2 ^ 20 }
        ensures len { result ≡ true → len ≤ 2 ^ 20 }
        ensures fits { (seat : PortSeat) → seat_at self.now.seats unit ≡ Some seat
            → IsBufferLen len → address + len ≤ 4096 * seat.pages → result ≡ true }
        ensures pages { HasPages self.now unit }
    {
        self.has_range(unit, address, len.max(CORRELATOR))
    }

    // Tells whether a range lies in the region of the unit.
    pub(crate) fn has_range(&self, unit: UnitId, address: u64, len: u64) -> bool
        requires there { IsSome (seat_at self.now.seats unit) }
        ensures range { (seat : PortSeat) → seat_at self.now.seats unit ≡ Some seat
            → ((result ≡ true) ↔ (address + len ≤ 4096 * seat.pages)) }
        ensures small { result ≡ true → address + len ≤ 2 ^ 20 }
        ensures pages { HasPages self.now unit }
    {
        lies_within(
            PAGE_BYTES * u64::from(self.windows.at(unit).pages()),
            address,
            len,
        )
    }

    // Adds a buffer of the unit.
    pub(crate) fn add(&mut self, unit: UnitId, descriptor: u64) -> Result<Hrc, NoMemory>
        requires there { IsSome (seat_at self.old.seats unit) }
        ensures seats { self.new.seats ≡ self.old.seats }
        ensures frames { self.new.frames ≡ self.old.frames }
        ensures counts { IfOk result (λ code.
            CountsOn unit (counts 0 0) (posted_on code) self.old self.new) }
        ensures posts { IfOk result (λ code. code ≡ Hrc.Success
            → AddsBuffer unit descriptor self.old self.new) }
        ensures code { IfOk result (λ code. may_answer rows.AddLogicalLanBuffer code ≡ true) }
        ensures replays { IfOk result (λ code. ReplaysOn unit
            (AddSays (buffer_len descriptor) (IsBuffer descriptor) code) self.old self.new) }
        ensures fits { is_valid descriptor ≡ true
            → FitsOne self.old unit (buffer_address descriptor) (buffer_len descriptor)
            → IfOk result (λ code. code ≡ Hrc.Success) }
        ensures addresses { NamesOwn self.old unit → ShowsAddress self.old unit descriptor
            → OnOk result (KeepsAddresses unit self.old self.new) }
        ensures grants { GrantsAll self.old unit → OnOk result (GrantsAll self.new unit) }
        ensures values { OnOk result (SameValues self.old self.new) }
        ensures regions { OnOk result (RegionsGrow self.old self.new) }
        ensures marks { OnOk result (LaysNoOwn self.old self.new) }
    {
        self.make_room(unit)?;
        let mut own = self.windows.take(unit);
        let answer = self.switch.add(unit, &mut own, descriptor);
        self.windows.put(unit, own);
        Ok(answer.code)
    }
}

// Tells whether a range lies within as many bytes.
fn lies_within(size: u64, address: u64, len: u64) -> bool
    ensures { (result ≡ true) ↔ (address + len ≤ size) }
{
    address <= size && len <= size - address
}

// Gives the address of a buffer, if it is a number of 64 bits.
fn buffer_at(at: u64, len: u64, number: u64) -> Option<u64>
    ensures some { at + len * number < 2 ^ 64 → result ≡ Some (at + len * number) }
    ensures is { IfSome result (λ address. address ≡ at + len * number) }
{
    at.checked_add(len.checked_mul(number)?)
}

// Says how many buffers were posted, and the code of the last call.
fn ended(posted: u64, code: Hrc) -> PortStep
    requires { posted ≤ MOST_BUFFERS }
    ensures told { TellsOfPort result }
    ensures none { TellsNoFrame result }
    ensures tells { result ≡ steps.Ends (outcomes.Posted posted code) }
{
    PortStep::Ends(Outcome::Posted {
        buffers: posted as u32,
        code,
    })
}
