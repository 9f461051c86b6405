// The trace of a text, read section by section.
ghost use Rattle.std.specs.Prelude.{List, ℕ, ◌≡◌, ◌≤◌, ◌+◌, ◌-◌, ◌^◌, [], ◌∷◌, IfErr, IfOk, OnOk, codes, length, take};
ghost use Rattle.vio_trace.specs.Begun.{BeginsSome, BegunBefore};
ghost use Rattle.vio_trace.specs.Form.{IsInForm, IsNoText, IsTextOf};
ghost use Rattle.vio_trace.specs.Reading.{IsBad, WhereBad};
ghost use Rattle.vio_trace.specs.Shared.{NoneHasLines, NoneShares, WhereBadAt, line_ends};
ghost use Rattle.vio_trace.specs.Text.{trace_text};

use crate::read_lines::behind;
use crate::read_rows::read_section;
use crate::read_words::are_same;
use crate::rows::Trace;
use crate::unread::Fault;
use std::alloc::Global;

/// Why a text was not read as a trace.
#[derive(Clone, Copy, Debug, PartialEq, Eq)]
pub enum TraceFault {
    /// Some trace's text begins with the lines before this one, counted from 1, and none with those
    /// up to it; a text that ends too early is bad at the line behind its last, a last line without
    /// its end at that line.
    Bad { line: u64 },
    /// Memory ran out.
    NoMemory,
}

/// The trace whose text the bytes are.
pub fn read_trace(alloc: Global, bytes: &[u8]) -> Result<Trace, TraceFault>
    ensures ok { IfOk result (λ trace. IsTextOf trace bytes.now) }
    ensures refused { IfErr result (λ fault. IsBad fault → IsNoText bytes.now) }
    ensures line { IfErr result (NoneHasLines bytes.now) }
    ensures before { IfErr result (BegunBefore bytes.now) }
{
    match read_sections(alloc, bytes) {
        Ok(trace) => Ok(trace),
        Err(Fault::Bad(left)) => Err(TraceFault::Bad {
            line: line_at(bytes, left),
        }),
        Err(Fault::NoMemory) => Err(TraceFault::NoMemory),
    }
}

// The number of the line at which so many bytes are left.
fn line_at(bytes: &[u8], left: usize) -> u64
    ensures { result ≡ line_ends (take (length bytes.now - left) bytes.now) + 1 }
{
    let mut line = 1;
    let mut at = 0;
    while at < bytes.len() && left < bytes.len() - at {
        line = line_behind(line, bytes[at]);
        at += 1;
    }
    line
}

// The number of the line behind a byte of this one.
fn line_behind(line: u64, byte: u8) -> u64
    requires { line ≤ 2 ^ 63 }
    ensures { result ≡ line + line_ends (byte ∷ []) }
{
    if byte == b'\n' { line + 1 } else { line }
}

// Reads the sections in their order.
fn read_sections(alloc: Global, bytes: &[u8]) -> Result<Trace, Fault>
    ensures ok { IfOk result (λ trace. IsTextOf trace bytes.now) }
    ensures refused { IfErr result (λ fault. WhereBad fault (IsNoText bytes.now)) }
    ensures bad { IfErr result (λ fault. WhereBadAt fault (NoneShares IsNoText bytes.now)) }
    ensures begun { IfErr result (λ fault.
        WhereBadAt fault (BeginsSome trace_text IsInForm bytes.now)) }
{
    let Some(rest) = behind(bytes, b"trace 1\n") else {
        return Err(Fault::Bad(bytes.len()));
    };
    let (logs, rest) = read_section(alloc, rest)?;
    let (queues, rest) = read_section(alloc, rest)?;
    let (grants, rest) = read_section(alloc, rest)?;
    let (serves, rest) = read_section(alloc, rest)?;
    let (answers, rest) = read_section(alloc, rest)?;
    let (frames, rest) = read_section(alloc, rest)?;
    let (ports, rest) = read_section(alloc, rest)?;
    let (posts, rest) = read_section(alloc, rest)?;
    let (delivers, rest) = read_section(alloc, rest)?;
    let (harvests, rest) = read_section(alloc, rest)?;
    let (tces, rest) = read_section(alloc, rest)?;
    let (copies, rest) = read_section(alloc, rest)?;
    let (strokes, rest) = read_section(alloc, rest)?;
    read_end(rest)?;
    Ok(Trace {
        logs,
        queues,
        grants,
        serves,
        answers,
        frames,
        ports,
        posts,
        delivers,
        harvests,
        tces,
        copies,
        strokes,
    })
}

// Reads the last line, behind which nothing stands.
fn read_end(text: &[u8]) -> Result<(), Fault>
    ensures ok { OnOk result (text.now ≡ codes "end\n") }
    ensures refused { IfErr result (λ fault. WhereBad fault (¬ (text.now ≡ codes "end\n"))) }
    ensures bad { IfErr result (λ fault.
        WhereBadAt fault (NoneShares (λ rest. ¬ (rest ≡ codes "end\n")) text.now)) }
    ensures begun { IfErr result (λ fault. WhereBadAt fault
        (BeginsSome (λ last. last) (λ last. last ≡ codes "end\n") text.now)) }
{
    if are_same(text, b"end\n") {
        return Ok(());
    }
    match behind(text, b"end\n") {
        Some(rest) => Err(Fault::Bad(rest.len())),
        None => Err(Fault::Bad(text.len())),
    }
}
