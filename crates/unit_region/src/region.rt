// Lines that write, read and map a unit's own region.
ghost use Rattle.std.specs.Prelude.{◌≡◌, ◌<◌, ◌≤◌, IfOk, Some};
ghost use Rattle.boot_text.specs.declared.common_script.TheConstants.{MOST_FILL, MOST_PAGE, MOST_PEEK};
ghost use Rattle.tce_window.specs.PortState.{OnlyReads, OnlyWrites};
ghost use Rattle.unit_region.specs.Answers.{AnswersPut, AnswersRead, AnswersWrite, tce_of};
ghost use Rattle.unit_region.specs.Steps.{IsPlain};
ghost use Rattle.unit_region.specs.Kept.{KeepsWindow};
ghost use Rattle.unit_region.specs.Marks.{LaysJust, LaysNoStroke};
ghost use Rattle.unit_region.specs.Pattern.{pattern as filling, pattern_byte};

use crate::step::Step;
use std::alloc::Global;
use tce_window::{OwnFault, OwnerPort, TceAnswer};
use vio_num::{Bytes, Hrc, Moved, NoMemory, PAGE_BYTES};
use vio_trace::{Outcome, Shown};

/// Byte `i` of the pattern of this seed.
pub fn pattern(seed: u64, i: u64) -> u8
    requires { i < MOST_FILL }
    ensures { result ≡ pattern_byte seed i }
{
    ((seed % 256 + i + i / 256) % 256) as u8
}

/// Writes `len` bytes of a pattern under the mark of a line.
pub fn fill<O: OwnerPort>(
    alloc: Global,
    own: &mut O,
    at: u64,
    len: u64,
    seed: u64,
    line: u64,
) -> Result<Step, NoMemory>
    requires { len ≤ MOST_FILL }
    ensures window { KeepsWindow O.is_shared (O.state own.old) (O.state own.new) }
    ensures lays { LaysJust O.is_shared (O.state own.old) (O.state own.new) line
        (Some (record { at = at; bytes = filling seed len })) result }
    ensures rest { OnlyWrites (O.state own.old) (O.state own.new) }
    ensures plain { IsPlain result }
    ensures answer { IfOk result (AnswersWrite O.is_shared (O.state own.old) (O.state own.new) at
        (filling seed len) line) }
{
    let mut bytes = Vec::with_capacity(alloc, len as usize)?;
    for i in 0..len {
        bytes.push_reserved(pattern(seed, i));
    }
    poke(own, at, &bytes, line)
}

/// Writes these bytes under the mark of a line.
#[tactic(auto, using(crate::proofs::Marking::just_written, crate::proofs::Marking::just_range, crate::proofs::Marking::just_waits, crate::proofs::Marking::just_memory))]
pub fn poke<O: OwnerPort>(own: &mut O, at: u64, bytes: &[u8], line: u64) -> Result<Step, NoMemory>
    ensures window { KeepsWindow O.is_shared (O.state own.old) (O.state own.new) }
    ensures lays { LaysJust O.is_shared (O.state own.old) (O.state own.new) line
        (Some (record { at = at; bytes = bytes.now })) result }
    ensures rest { OnlyWrites (O.state own.old) (O.state own.new) }
    ensures plain { IsPlain result }
    ensures answer { IfOk result (AnswersWrite O.is_shared (O.state own.old) (O.state own.new) at
        bytes.now line) }
{
    match own.write(at, bytes, line) {
        Ok(()) => Ok(Step::Ends(Outcome::Done)),
        Err(OwnFault::Range) => Ok(Step::Ends(Outcome::Range)),
        Err(OwnFault::InUse { page: _, word: _ }) => Ok(Step::Waits(Moved::Quiet)),
        Err(OwnFault::NoMemory) => Err(NoMemory),
    }
}

/// Reads `len` bytes.
#[tactic(auto, using(crate::proofs::Marking::reads_none))]
pub fn peek<O: OwnerPort>(alloc: Global, own: &mut O, at: u64, len: u64) -> Result<Step, NoMemory>
    requires some { 1 ≤ len }
    requires few { len ≤ MOST_PEEK }
    ensures window { KeepsWindow O.is_shared (O.state own.old) (O.state own.new) }
    ensures marks { LaysNoStroke O.is_shared (O.state own.old) (O.state own.new) }
    ensures rest { OnlyReads O.is_shared (O.state own.old) (O.state own.new) }
    ensures plain { IsPlain result }
    ensures answer { IfOk result (AnswersRead (O.state own.old) (O.state own.new) at len) }
{
    let mut bytes = vec![in alloc; 0u8; len as usize]?;
    match own.read(at, &mut bytes) {
        Ok(()) => Ok(Step::Ends(Outcome::Bytes(Shown::new(Bytes::from(bytes))))),
        Err(OwnFault::Range) => Ok(Step::Ends(Outcome::Range)),
        Err(OwnFault::InUse { page: _, word: _ }) => Ok(Step::Waits(Moved::Quiet)),
        Err(OwnFault::NoMemory) => Err(NoMemory),
    }
}

/// Lets an entry name a page.
#[tactic(auto, using(crate::proofs::Taking::passes, crate::proofs::Marking::puts_none))]
pub fn put_tce<O: OwnerPort>(
    own: &mut O,
    entry: u64,
    page: u64,
    readable: bool,
    writable: bool,
) -> Result<Step, NoMemory>
    requires { page ≤ MOST_PAGE }
    ensures window { KeepsWindow O.is_shared (O.state own.old) (O.state own.new) }
    ensures marks { LaysNoStroke O.is_shared (O.state own.old) (O.state own.new) }
    ensures plain { IsPlain result }
    ensures answer { IfOk result (AnswersPut (O.state own.old) (O.state own.new) entry
        (tce_of page readable writable)) }
{
    if entry >= u64::from(own.pages()) {
        return Ok(Step::Ends(Outcome::Code(Hrc::Parameter)));
    }
    own.reserve(1)?;
    let ioba = PAGE_BYTES * entry;
    let tce = PAGE_BYTES * page + if readable { 1 } else { 0 } + if writable { 2 } else { 0 };
    match own.put_tce(ioba, tce) {
        TceAnswer::Done => Ok(Step::Ends(Outcome::Code(Hrc::Success))),
        TceAnswer::Parameter => Ok(Step::Ends(Outcome::Code(Hrc::Parameter))),
        TceAnswer::Busy {
            entry: _,
            pins: _,
            done: _,
        } => Ok(Step::Waits(Moved::Quiet)),
    }
}
