// The text of a trace, written to a sink piece by piece.
ghost use Rattle.std.specs.Prelude.{◌≡◌, [], flat_map};
ghost use Rattle.vio_trace.specs.Form.{IsInForm, IsInOrder};
ghost use Rattle.vio_trace.specs.Passing.{IsPassed, IsWritten, ports_text, served_text, windows_text};
ghost use Rattle.vio_trace.specs.Text.{trace_text};

use crate::fitting::trace_fits;
use crate::lines::Lines;
use crate::rows::Trace;
use crate::words::put;
use std::alloc::Global;
use vio_io::{Sink, WriteFault};
use vio_num::NoMemory;

/// As many bytes are gathered before they are handed to the sink.
const PIECE: usize = 65_536;

/// Writes the whole text; each call of the sink is given all that is left of it.
pub fn write_all<S: Sink>(sink: &mut S, text: &[u8]) -> Result<(), WriteFault>
    ensures { IsWritten result text.now
        (S.taken sink.old) (S.taken sink.new) (S.faults sink.old) (S.faults sink.new) }
{
    let mut written = 0;
    while written < text.len() {
        written += sink.write(&text[written..])?;
    }
    Ok(())
}

// Hands on what was gathered.
fn hand_on<S: Sink>(sink: &mut S, gathered: &mut Vec<u8>) -> Result<(), WriteFault>
    ensures written { IsWritten result gathered.old.items
        (S.taken sink.old) (S.taken sink.new) (S.faults sink.old) (S.faults sink.new) }
    ensures none { gathered.new.items ≡ [] }
{
    let written = write_all(sink, gathered.as_slice());
    gathered.clear();
    written
}

// Passes bytes on as they are.
fn pass<S: Sink>(sink: &mut S, gathered: &mut Vec<u8>, bytes: &[u8]) -> Result<(), WriteFault>
    ensures { IsPassed result gathered.old.items bytes.now (S.taken sink.old) (S.taken sink.new)
        (S.faults sink.old) (S.faults sink.new) gathered.new.items }
{
    match put(gathered, bytes) {
        Ok(()) => Ok(()),
        Err(NoMemory) => Err(WriteFault::NoMemory),
    }
}

// Passes on the lines of a row.
fn pass_row<S: Sink, R: Lines>(
    sink: &mut S,
    gathered: &mut Vec<u8>,
    row: &R,
) -> Result<(), WriteFault>
    ensures { IsPassed result gathered.old.items (R.text row.now)
        (S.taken sink.old) (S.taken sink.new)
        (S.faults sink.old) (S.faults sink.new) gathered.new.items }
{
    let Ok(()) = row.put(gathered) else {
        return Err(WriteFault::NoMemory);
    };
    if gathered.len() < PIECE {
        return Ok(());
    }
    hand_on(sink, gathered)
}

// Passes on the lines of these rows.
fn pass_all<S: Sink, R: Lines>(
    sink: &mut S,
    gathered: &mut Vec<u8>,
    rows: &[R],
) -> Result<(), WriteFault>
    ensures { IsPassed result gathered.old.items (flat_map R.text rows.now)
        (S.taken sink.old) (S.taken sink.new)
        (S.faults sink.old) (S.faults sink.new) gathered.new.items }
{
    for row in rows {
        pass_row(sink, gathered, row)?;
    }
    Ok(())
}

// Passes on the rows of scripts, queues and servers.
fn pass_served<S: Sink>(
    sink: &mut S,
    gathered: &mut Vec<u8>,
    trace: &Trace,
) -> Result<(), WriteFault>
    ensures { IsPassed result gathered.old.items (served_text trace.now)
        (S.taken sink.old) (S.taken sink.new)
        (S.faults sink.old) (S.faults sink.new) gathered.new.items }
{
    pass_all(sink, gathered, trace.logs.as_slice())?;
    pass_all(sink, gathered, trace.queues.as_slice())?;
    pass_all(sink, gathered, trace.grants.as_slice())?;
    pass_all(sink, gathered, trace.serves.as_slice())?;
    pass_all(sink, gathered, trace.answers.as_slice())
}

// Passes on the rows of LAN ports.
fn pass_ports<S: Sink>(
    sink: &mut S,
    gathered: &mut Vec<u8>,
    trace: &Trace,
) -> Result<(), WriteFault>
    ensures { IsPassed result gathered.old.items (ports_text trace.now)
        (S.taken sink.old) (S.taken sink.new)
        (S.faults sink.old) (S.faults sink.new) gathered.new.items }
{
    pass_all(sink, gathered, trace.frames.as_slice())?;
    pass_all(sink, gathered, trace.ports.as_slice())?;
    pass_all(sink, gathered, trace.posts.as_slice())?;
    pass_all(sink, gathered, trace.delivers.as_slice())?;
    pass_all(sink, gathered, trace.harvests.as_slice())
}

// Passes on the rows of windows.
fn pass_windows<S: Sink>(
    sink: &mut S,
    gathered: &mut Vec<u8>,
    trace: &Trace,
) -> Result<(), WriteFault>
    ensures { IsPassed result gathered.old.items (windows_text trace.now)
        (S.taken sink.old) (S.taken sink.new)
        (S.faults sink.old) (S.faults sink.new) gathered.new.items }
{
    pass_all(sink, gathered, trace.tces.as_slice())?;
    pass_all(sink, gathered, trace.copies.as_slice())?;
    pass_all(sink, gathered, trace.strokes.as_slice())
}

/// Writes the text of a trace whose rows stand in order to a sink, in pieces: what is gathered of it at one time is
/// no more than a piece and the lines of one row.
pub fn write_trace<S: Sink>(alloc: Global, trace: &Trace, sink: &mut S) -> Result<(), WriteFault>
    ensures { IsWritten result (trace_text trace.now)
        (S.taken sink.old) (S.taken sink.new) (S.faults sink.old) (S.faults sink.new) }
{
    let mut gathered = Vec::new(alloc);
    pass(sink, &mut gathered, b"trace 1\n")?;
    pass_served(sink, &mut gathered, trace)?;
    pass_ports(sink, &mut gathered, trace)?;
    pass_windows(sink, &mut gathered, trace)?;
    pass(sink, &mut gathered, b"end\n")?;
    hand_on(sink, &mut gathered)
}

/// A trace whose rows stand in order is in form: its types say the rest.
pub fn form_of(trace: &Trace)
    requires { IsInOrder trace.now }
    ensures { IsInForm trace.now }
{
    trace_fits(trace);
}
