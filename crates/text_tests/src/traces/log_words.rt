// Each form that the words of a script line's record have, most of them as runs wrote them.
ghost use Rattle.std.specs.Prelude.{◌≡◌, IfOk};
ghost use Rattle.vio_trace.specs.Form.{IsInOrder};

use super::{is_text_of, nothing};
use std::alloc::Global;
use std::test::Fail;
use vio_num::{Bytes, Hrc, Sequence};
use vio_trace::{LogRow, Outcome, Shown, Trace};

/// A trace that has the record of one line.
fn recorded(alloc: Global, outcome: Outcome) -> Result<Trace, Fail>
    ensures { IfOk result (λ trace. IsInOrder trace) }
{
    let mut logs = Sequence::new(alloc);
    logs.push(LogRow {
        partition: 1,
        line: 12,
        outcome,
    })?;
    Ok(Trace {
        logs,
        ..nothing(alloc)
    })
}

/// The k-th form of a record, and its words.
fn form(k: u8) -> Option<(Outcome, &'static [u8])> {
    match k {
        0 => Some((Outcome::Granted(u32::MAX), b"granted 4294967295")),
        1 => Some((Outcome::Rejected(0x0001_0000), b"rejected 00010000")),
        2 => Some((Outcome::Lost, b"lost")),
        3 => Some((Outcome::Unanswered, b"none")),
        4 => Some((Outcome::Sent(2), b"sent 2")),
        5 => Some((Outcome::Range, b"range")),
        6 => Some((Outcome::NotLoggedIn, b"notlogged")),
        7 => Some((Outcome::NoCredit(0), b"nocredit 0")),
        8 => Some((Outcome::Overlap(2), b"overlap 2")),
        9 => Some((Outcome::Closed, b"closed")),
        10 => Some((dropped(257), b"dropped 257 8001000000000030")),
        11 => Some((Outcome::Took(0), b"took 0")),
        12 => Some((Outcome::TookThenLost(10), b"took 10 lost")),
        13 => Some((Outcome::Data { len: 3584, sum: 7 }, b"ok 3584 7")),
        14 => Some((Outcome::Stale(13), b"stale 13")),
        15 => Some((Outcome::Unknown, b"unknown")),
        16 => Some((Outcome::Value(0x1003), b"code 0 value 0000000000001003")),
        17 => Some((posted(1024, Hrc::Parameter), b"posted 1024 code -4")),
        18 => Some((frame(Hrc::Dropped, 20), b"code -12 frame 20")),
        19 => Some((Outcome::Done, b"done")),
        20 => Some((Outcome::Code(Hrc::Success), b"code 0")),
        21 => Some((Outcome::Code(Hrc::Busy), b"code 1")),
        22 => Some((Outcome::Code(Hrc::Closed), b"code 2")),
        23 => Some((Outcome::Code(Hrc::Function), b"code -2")),
        24 => Some((Outcome::Code(Hrc::NotFound), b"code -7")),
        25 => Some((Outcome::Code(Hrc::SourceParm), b"code -13")),
        26 => Some((Outcome::Code(Hrc::DestParm), b"code -14")),
        27 => Some((Outcome::Code(Hrc::Resource), b"code -16")),
        _ => None,
    }
}

fn dropped(number: u64) -> Outcome {
    Outcome::Dropped {
        number,
        held: 0x8001_0000_0000_0030,
    }
}

fn posted(buffers: u32, code: Hrc) -> Outcome {
    Outcome::Posted { buffers, code }
}

fn frame(code: Hrc, number: u64) -> Outcome {
    Outcome::Frame { code, number }
}

/// The text of the trace whose record has these words.
fn text_with(alloc: Global, words: &[u8]) -> Result<Vec<u8>, Fail> {
    let mut text = Vec::from_slice(alloc, b"trace 1\nlog 1 12 ")?;
    text.extend_from_slice(words)?;
    text.extend_from_slice(b"\nend\n")?;
    Ok(text)
}

/// Whether a record has these words.
fn is_written(alloc: Global, outcome: Outcome, words: &[u8]) -> Result<bool, Fail> {
    let text = text_with(alloc, words)?;
    let trace = recorded(alloc, outcome)?;
    Ok(is_text_of(alloc, trace, &text)?)
}

#[test]
fn each_form_of_a_record(rt: HostRuntime) -> Result<(), Fail> {
    let alloc = rt.alloc();
    let mut forms = 0u8;
    for k in 0..40 {
        if let Some((outcome, words)) = form(k) {
            assert!(rt; is_written(alloc, outcome, words)?);
            forms = k;
        }
    }
    assert_eq!(rt; forms, 27);
    Ok(())
}

#[test]
fn bytes_of_a_region(rt: HostRuntime) -> Result<(), Fail> {
    let alloc = rt.alloc();
    let shown = Shown::new(Bytes::from_slice(alloc, &[0xc1])?);
    assert!(rt; is_written(alloc, Outcome::Bytes(shown), b"bytes c1")?);
    let shown = Shown::new(Bytes::from_slice(alloc, &[0xee, 0xef, 0xf0, 0x0a])?);
    assert!(rt; is_written(alloc, Outcome::Bytes(shown), b"bytes eeeff00a")?);
    Ok(())
}
