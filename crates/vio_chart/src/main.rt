// The program `vio_chart`: reads a trace from standard input, and writes a picture of it to standard output, as SVG.
#![tactic(auto)]

ghost use Rattle.std.specs.Prelude.{◌≡◌, IfErr, IfOk, IfSome, OnOk};
ghost use Rattle.std.specs.Io.KnownBytes.{IsAtEnd};
ghost use Rattle.vio_chart.specs.Drawing.{Draws, IsPictureOfText, IsRefusal};
ghost use Rattle.vio_trace.specs.Form.{IsNoText};

mod chart;
mod columns;
mod entries;
mod figures;
mod groups;
mod labels;
mod levels;
mod link;
mod place;
mod stop;
mod svg;
mod walk;

use crate::chart::chart;
use crate::stop::Stop;
use std::alloc::Global;
use std::io::{self, Read, Write};
use std::process::ExitCode;
use vio_trace::{TraceFault, read_trace};

// Makes the picture of a text.
fn picture_of(alloc: Global, text: &[u8]) -> Result<Vec<u8>, Stop>
    ensures ok { IfOk result (λ picture. IsPictureOfText text.now picture.items) }
    ensures other { IfErr result (λ stop. ¬ (stop ≡ Stop.Output)) }
    ensures refused { IfErr result (λ stop. IsRefusal stop → IsNoText text.now) }
{
    match read_trace(alloc, text) {
        Ok(trace) => match chart(alloc, &trace) {
            Ok(picture) => Ok(picture),
            Err(_) => Err(Stop::NoMemory),
        },
        Err(TraceFault::Bad { line }) => Err(Stop::Bad(line)),
        Err(TraceFault::NoMemory) => Err(Stop::NoMemory),
    }
}

// Reads a text to its end.
fn read_text<R: Read>(alloc: Global, reader: &mut R) -> Result<Vec<u8>, Stop>
    ensures all { IfOk result (λ text. IfSome (R.remaining reader.old) (λ all. text.items ≡ all)) }
    ensures end { OnOk result (IsAtEnd (R.remaining reader.new)) }
    ensures other { IfErr result (λ stop. ¬ (stop ≡ Stop.Output)) }
    ensures read { IfErr result (λ stop. ¬ IsRefusal stop) }
{
    let mut text = Vec::new(alloc);
    match reader.read_to_end(&mut text) {
        Ok(_) => Ok(text),
        Err(error) => match error.kind() {
            io::ErrorKind::OutOfMemory => Err(Stop::NoMemory),
            _ => Err(Stop::Input),
        },
    }
}

// Reads a text, and writes its picture.
fn draw<R: Read, W: Write>(alloc: Global, reader: &mut R, writer: &mut W) -> Result<(), Stop>
    ensures drawn { OnOk result (Draws (R.remaining reader.old)
        (W.contents writer.old) (W.contents writer.new)) }
    ensures end { OnOk result (IsAtEnd (R.remaining reader.new)) }
    ensures unwritten { IfErr result (λ stop. ¬ (stop ≡ Stop.Output) → writer.new ≡ writer.old) }
    ensures refused { IfErr result (λ stop. IsRefusal stop →
        IfSome (R.remaining reader.old) IsNoText) }
{
    let text = read_text(alloc, reader)?;
    let picture = picture_of(alloc, text.as_slice())?;
    match writer.write_all(picture.as_slice()) {
        Ok(()) => Ok(()),
        Err(_) => Err(Stop::Output),
    }
}

// Says why there is no picture, and answers the exit status.
fn explain<R: Eprint>(rt: &R, stop: Stop) -> u8 {
    let (status, said) = match stop {
        Stop::Bad(line) => (
            1,
            rt.eprintln(format_args!("vio_chart: line {line} is in no trace")),
        ),
        Stop::Input => (
            3,
            rt.eprintln("vio_chart: standard input could not be read"),
        ),
        Stop::Output => (
            4,
            rt.eprintln("vio_chart: standard output could not be written"),
        ),
        Stop::NoMemory => (6, rt.eprintln("vio_chart: no memory was found")),
    };
    let _ = said;
    status
}

fn run<R: Input + Print + Eprint + AllocGlobal>(rt: &R) -> u8 {
    let mut reader = rt.reader();
    let mut writer = io::writer(rt);
    match draw(rt.alloc(), &mut reader, &mut writer) {
        Ok(()) => 0,
        Err(stop) => explain(rt, stop),
    }
}

fn main(rt: HostRuntime) -> ExitCode {
    ExitCode::from(run(&rt))
}
