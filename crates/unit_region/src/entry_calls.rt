// Raw calls on the translation entries of a unit's own window.
ghost use Rattle.std.specs.Prelude.{◌≡◌, ◌≢◌, ◌↔◌, ◌≤◌, ◌*◌, ◌%◌, true, false, ◌+◌, IfErr, IfOk, OnOk, length, replicate};
ghost use Rattle.vio_num.specs.declared.TheConstants.{PAGE_BYTES};
ghost use Rattle.tce_window.specs.Answers.{gives};
ghost use Rattle.tce_window.specs.PortState.{HasAllPages, OnlyReads, Puts, Reads};
ghost use Rattle.tce_window.specs.Puts.{takes};
ghost use Rattle.vio_num.specs.declared.hypervisor.Hrc.TheVariants as codes;
ghost use Rattle.hcall_table.specs.Rows.{IsAnswer, may_answer};
ghost use Rattle.hcall_table.specs.declared.hcall.Hcall.TheVariants as rows;
ghost use Rattle.unit_region.specs.EntryAnswers.{AnswersEntry, AreValuesOf, PutsEach, PutsList, PutsValues, is_list, put_if};
ghost use Rattle.unit_region.specs.EntryRows.{answer_of, entry_row, tce_code};
ghost use Rattle.unit_region.specs.InUse.{BusyFor, FindsUse};
ghost use Rattle.unit_region.specs.Kept.{KeepsWindow};
ghost use Rattle.unit_region.specs.Marks.{LaysNoStroke};

use byteorder::{BigEndian, ByteOrder};
use hcall_table::Returned;
use std::alloc::Global;
use tce_window::{GetTce, OwnFault, OwnerPort, TceAnswer};
use vio_num::{Hrc, NoMemory, PAGE_BYTES};

/// The values that H_STUFF_TCE and H_PUT_TCE_INDIRECT put at most.
const MOST_VALUES: u64 = 512;

/// A call on a window's translation entries.
#[derive(Clone, Copy, Debug, PartialEq, Eq)]
pub enum EntryCall {
    /// H_GET_TCE.
    Get {
        address: u64,
    },
    /// H_PUT_TCE.
    Put {
        address: u64,
        value: u64,
    },
    /// H_STUFF_TCE.
    Stuff {
        address: u64,
        value: u64,
        count: u64,
    },
    /// H_PUT_TCE_INDIRECT: the list lies at this address of the region.
    PutList {
        address: u64,
        list: u64,
        count: u64,
    },
}

// The code of an answer.
fn code_of(answer: TceAnswer) -> Hrc
    ensures { result ≡ tce_code answer }
{
    match answer {
        TceAnswer::Done => Hrc::Success,
        TceAnswer::Parameter => Hrc::Parameter,
        TceAnswer::Busy {
            entry: _,
            pins: _,
            done: _,
        } => Hrc::Busy,
    }
}

// H_GET_TCE (LoPAR, "H_GET_TCE").
fn get<O: OwnerPort>(own: &mut O, address: u64) -> Returned
    ensures window { KeepsWindow O.is_shared (O.state own.old) (O.state own.new) }
    ensures marks { LaysNoStroke O.is_shared (O.state own.old) (O.state own.new) }
    ensures value { gives (O.state own.old).place.size
        (O.state own.new).values address (answer_of result) }
    ensures answer { IsAnswer rows.GetTce result }
    ensures busy { BusyFor O.is_shared (O.state own.old) (O.state own.new) result.code }
{
    match own.get_tce(address) {
        GetTce::Value(value) => Returned {
            code: Hrc::Success,
            r4: value,
        },
        GetTce::Parameter => Returned::bare(Hrc::Parameter),
    }
}

// H_PUT_TCE (LoPAR, "H_PUT_TCE").
fn put<O: OwnerPort>(own: &mut O, address: u64, value: u64) -> Result<Hrc, NoMemory>
    ensures window { KeepsWindow O.is_shared (O.state own.old) (O.state own.new) }
    ensures marks { LaysNoStroke O.is_shared (O.state own.old) (O.state own.new) }
    ensures parameter { IfOk result (λ code. (code ≡ codes.Parameter) ↔
        (takes (O.state own.old).place.size address value ≡ false)) }
    ensures put { IfOk result (λ code.
        Puts (O.state own.old) address (put_if code value) (O.state own.new)) }
    ensures code { IfOk result (λ code. may_answer rows.PutTce code ≡ true) }
    ensures busy { IfOk result (BusyFor O.is_shared (O.state own.old) (O.state own.new)) }
{
    own.reserve(1)?;
    Ok(code_of(own.put_tce(address, value)))
}

// H_STUFF_TCE (LoPAR, "H_STUFF_TCE").
fn stuff<O: OwnerPort>(own: &mut O, address: u64, value: u64, count: u64) -> Result<Hrc, NoMemory>
    ensures window { KeepsWindow O.is_shared (O.state own.old) (O.state own.new) }
    ensures marks { LaysNoStroke O.is_shared (O.state own.old) (O.state own.new) }
    ensures each { IfOk result (PutsEach (O.state own.old) (O.state own.new) address
        (replicate count value)) }
    ensures code { IfOk result (λ code. may_answer rows.StuffTce code ≡ true) }
    ensures busy { IfOk result (BusyFor O.is_shared (O.state own.old) (O.state own.new)) }
{
    if count > MOST_VALUES {
        return Ok(Hrc::Parameter);
    }
    own.reserve(count as u32)?;
    Ok(code_of(own.stuff_tce(address, value, count)))
}

// H_PUT_TCE_INDIRECT (LoPAR, "H_PUT_TCE_INDIRECT"): the list has 8 bytes for each value, and begins on a page
// of the region.
fn put_list<O: OwnerPort>(
    alloc: Global,
    own: &mut O,
    address: u64,
    list: u64,
    count: u64,
) -> Result<Hrc, NoMemory>
    ensures window { KeepsWindow O.is_shared (O.state own.old) (O.state own.new) }
    ensures marks { LaysNoStroke O.is_shared (O.state own.old) (O.state own.new) }
    ensures list { IfOk result (PutsList (O.state own.old) (O.state own.new) address list count) }
    ensures code { IfOk result (λ code. may_answer rows.PutTceIndirect code ≡ true) }
    ensures busy { IfOk result (BusyFor O.is_shared (O.state own.old) (O.state own.new)) }
{
    if !lies_at(own, list, count) {
        return Ok(Hrc::Parameter);
    }
    let mut buffer = vec![in alloc; 0u8; 8 * count as usize]?;
    let bytes: &mut [u8] = &mut buffer;
    match read_list(own, list, bytes) {
        Ok(()) => put_values(alloc, own, address, bytes),
        Err(code) => Ok(code),
    }
}

// Reads the bytes of a list, which may have none.
#[tactic(auto, using(crate::proofs::InUses::found_use))]
fn read_list<O: OwnerPort>(own: &mut O, list: u64, bytes: &mut [u8]) -> Result<(), Hrc>
    requires few { length bytes.old ≤ PAGE_BYTES }
    requires inside { list + length bytes.old ≤ PAGE_BYTES * (O.state own.old).place.size }
    ensures window { KeepsWindow O.is_shared (O.state own.old) (O.state own.new) }
    ensures marks { LaysNoStroke O.is_shared (O.state own.old) (O.state own.new) }
    ensures only { OnlyReads O.is_shared (O.state own.old) (O.state own.new) }
    ensures read { OnOk result (length bytes.old ≢ 0 → Reads (O.state own.new) list bytes.new) }
    ensures busy { IfErr result (λ code. code ≡ codes.Busy) }
    ensures cause { HasAllPages (O.state own.old) → IfErr result (λ code.
        FindsUse O.is_shared (O.state own.old) (O.state own.new)) }
    ensures count { length bytes.new ≡ length bytes.old }
{
    if bytes.is_empty() {
        return Ok(());
    }
    match own.read(list, bytes) {
        Ok(()) => Ok(()),
        Err(OwnFault::InUse { page: _, word: _ }) => Err(Hrc::Busy),
        Err(OwnFault::Range | OwnFault::NoMemory) => Err(Hrc::Parameter),
    }
}

// Puts the values of a list's bytes.
fn put_values<O: OwnerPort>(
    alloc: Global,
    own: &mut O,
    address: u64,
    bytes: &[u8],
) -> Result<Hrc, NoMemory>
    requires most { length bytes.now ≤ PAGE_BYTES }
    requires whole { length bytes.now % 8 ≡ 0 }
    ensures window { KeepsWindow O.is_shared (O.state own.old) (O.state own.new) }
    ensures marks { LaysNoStroke O.is_shared (O.state own.old) (O.state own.new) }
    ensures values { IfOk result
        (PutsValues (O.state own.old) (O.state own.new) address bytes.now) }
    ensures code { IfOk result (λ code. may_answer rows.PutTceIndirect code ≡ true) }
    ensures busy { IfOk result (BusyFor O.is_shared (O.state own.old) (O.state own.new)) }
{
    let values = values_of(alloc, bytes)?;
    own.reserve(MOST_VALUES as u32)?;
    Ok(code_of(own.put_tce_indirect(address, &values)))
}

// Whether a list of this many values lies at the address.
fn lies_at<O: OwnerPort>(own: &O, list: u64, count: u64) -> bool
    ensures lies { result ≡ is_list (O.state own.now).place.size list count }
    ensures there { HasAllPages (O.state own.now) }
{
    let size = PAGE_BYTES * u64::from(own.pages());
    count <= MOST_VALUES && list % PAGE_BYTES == 0 && list <= size && 8 * count <= size - list
}

// The values of 8 bytes each, the high byte first.
fn values_of(alloc: Global, bytes: &[u8]) -> Result<Vec<u64>, NoMemory>
    requires { length bytes.now % 8 ≡ 0 }
    ensures { IfOk result (λ values. AreValuesOf bytes.now values.items) }
{
    let mut values = vec![in alloc; 0u64; bytes.len() / 8]?;
    BigEndian::read_u64_into(bytes, &mut values);
    Ok(values)
}

/// Makes a call on the entries of a window.
pub fn make<O: OwnerPort>(alloc: Global, own: &mut O, call: EntryCall) -> Result<Returned, NoMemory>
    ensures window { KeepsWindow O.is_shared (O.state own.old) (O.state own.new) }
    ensures marks { LaysNoStroke O.is_shared (O.state own.old) (O.state own.new) }
    ensures answer { IfOk result (IsAnswer (entry_row call)) }
    ensures entry { IfOk result (AnswersEntry (O.state own.old) (O.state own.new) call) }
    ensures busy { IfOk result (λ returned.
        BusyFor O.is_shared (O.state own.old) (O.state own.new) returned.code) }
{
    match call {
        EntryCall::Get { address } => Ok(get(own, address)),
        EntryCall::Put { address, value } => Ok(Returned::bare(put(own, address, value)?)),
        EntryCall::Stuff {
            address,
            value,
            count,
        } => Ok(Returned::bare(stuff(own, address, value, count)?)),
        EntryCall::PutList {
            address,
            list,
            count,
        } => Ok(Returned::bare(put_list(alloc, own, address, list, count)?)),
    }
}
