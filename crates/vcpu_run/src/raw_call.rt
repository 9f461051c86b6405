// A line that makes a raw hypervisor call.
ghost use Rattle.std.specs.Prelude.{◌≡◌, true, false, None, IfOk, IfSome, IfNone, OnOk, length};
ghost use Rattle.boot_text.specs.declared.verb.Verb.TheVariants as verbs;
ghost use Rattle.vio_num.specs.declared.hypervisor.Hrc.TheVariants as codes;
ghost use Rattle.hcall_table.specs.Asked.{bare};
ghost use Rattle.hcall_table.specs.Named.{unit_of};
ghost use Rattle.hcall_table.specs.Rows.{IsAnswer, further, row_of};
ghost use Rattle.vcpu_run.specs.Agreed.{SameDrivers, SameElse};
ghost use Rattle.vcpu_run.specs.ClientStrokes.{NoneLay};
ghost use Rattle.vcpu_run.specs.CallRows.{gives, says};
ghost use Rattle.vcpu_run.specs.CallsAnswered.{IsReturned};
ghost use Rattle.vcpu_run.specs.CallsSaid.{EndsCall, units_seen};
ghost use Rattle.vcpu_run.specs.Credited.{is_take};
ghost use Rattle.unit_region.specs.Steps.{IsPlain, is_plain};
ghost use Rattle.vcpu_run.specs.Freed.{FreesNoneIf};
ghost use Rattle.vcpu_run.specs.Freeing.{NoneSits};
ghost use Rattle.vcpu_run.specs.Pairs.{AreDriven};
ghost use Rattle.vcpu_run.specs.PortCalls.{EndsEntries, HasAll};
ghost use Rattle.vcpu_run.specs.PortMacs.{EndsPorts};
ghost use Rattle.vcpu_run.specs.PortSteps.{IsApart};
ghost use Rattle.vcpu_run.specs.RawCalls.{CallsBy, MakesCall, PortsReturn, place_of, seat_by, seen_after};
ghost use Rattle.vcpu_run.specs.Suited.{is_call};

use crate::pair::Pair;
use crate::partition_units::PartitionUnits;
use crate::unit_seat::Seat;
use boot_text::Verb;
use hcall_table::{Hcall, Returned, call};
use lan_script::Lan;
use std::alloc::Global;
use unit_region::Step;
use vio_num::{Hrc, NoMemory};
use vio_trace::Outcome;

/// A raw hypervisor call: its number, and its arguments.
#[derive(Clone, Copy, Debug, PartialEq, Eq)]
pub(crate) struct RawCall {
    number: u64,
    arguments: [u64; 9],
}

impl RawCall {
    /// The call that a line makes, if it makes one.
    pub(crate) fn of(verb: &Verb) -> Option<RawCall>
        ensures some { IfSome result (λ _. is_take verb.now ≡ false) }
        ensures call { IfSome result (λ _. is_call verb.now ≡ true) }
        ensures none { IfNone result (is_call verb.now ≡ false) }
        ensures of_line { IfSome result (λ raw.
            verb.now ≡ verbs.Hcall raw.number raw.arguments) }
    {
        match verb {
            Verb::Hcall { number, arguments } => Some(RawCall {
                number: *number,
                arguments: *arguments,
            }),
            _ => None,
        }
    }
}

/// Makes a call on the units of a partition. It is made once, whatever it answers.
pub(crate) fn make_call(
    alloc: Global,
    partition: u8,
    seats: &[Seat],
    pairs: &mut [Pair],
    lan: &mut Lan,
    raw: &RawCall,
) -> Result<Step, NoMemory>
    ensures driven { AreDriven pairs.old pairs.new }
    ensures told { SameDrivers pairs.old pairs.new }
    ensures stays { FreesNoneIf (NoneSits seats.now) pairs.old pairs.new }
    ensures others { SameElse seats.now pairs.old pairs.new }
    ensures lays { NoneLay pairs.old pairs.new }
    ensures lan { lan.new.seats ≡ lan.old.seats }
    ensures apart { OnOk result (IsApart partition lan.old lan.new) }
    ensures ports { IfOk result (EndsPorts partition
        (verbs.Hcall raw.now.number raw.now.arguments) lan.old lan.new) }
    ensures entries { IfOk result (EndsEntries partition (seat_by partition seats.now
        (length pairs.old) lan.old.seats) (verbs.Hcall raw.now.number raw.now.arguments)
        lan.old lan.new) }
    ensures plain { IsPlain result }
    ensures said { IfOk result (EndsCall (units_seen partition (seat_by partition seats.now
        (length pairs.old) lan.old.seats) pairs.new) raw.now.number raw.now.arguments) }
{
    let mut units = PartitionUnits {
        alloc,
        partition,
        seats,
        pairs,
        lan,
    };
    let returned = call_units(&mut units, raw.number, &raw.arguments)?;
    Ok(Step::Ends(outcome_of(raw.number, returned)))
}

// Makes the call, which changes no driver.
fn call_units(
    units: &mut PartitionUnits<'_>,
    number: u64,
    arguments: &[u64; 9],
) -> Result<Returned, NoMemory>
    ensures units { MakesCall units.old units.new result }
    ensures ports { IfOk result (CallsBy units.old.partition number arguments.now
        units.old.lan.now units.new.lan.now) }
    ensures all { OnOk result (HasAll units.old.lan.now units.new.lan.now) }
    ensures entries { IfOk result (PortsReturn number arguments.now units.old units.new) }
    ensures function { row_of number ≡ None → IfOk result (λ r. r.code ≡ codes.Function) }
    ensures answer { IfSome (row_of number) (λ row. IfOk result (IsAnswer row)) }
    ensures elsewhere { IfSome (row_of number) (λ row.
        unit_of (place_of units.old) row arguments.now ≡ None →
        IfOk result (λ r. r ≡ bare codes.Parameter)) }
    ensures here { IfSome (row_of number) (λ row.
        IfSome (unit_of (place_of units.old) row arguments.now) (λ unit.
        IfOk result (IsReturned (seen_after units.old units.new unit) row
        (further row arguments.now)))) }
{
    call(units, number, arguments)
}

// What a record says of a call: the value where its row gives one, else the code.
fn outcome_of(number: u64, returned: Returned) -> Outcome
    ensures exact { result ≡ says number returned }
    ensures plain { is_plain result ≡ true }
{
    if gives(Hcall::read(number), returned.code) {
        Outcome::Value(returned.r4)
    } else {
        Outcome::Code(returned.code)
    }
}

// Whether a row gives a value with a code.
fn gives(row: Option<Hcall>, code: Hrc) -> bool
    ensures { result ≡ gives row code }
{
    match row {
        Some(Hcall::GetTce) => matches!(code, Hrc::Success),
        _ => false,
    }
}
