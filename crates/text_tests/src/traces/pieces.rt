// A text of several pieces, which goes to its sink whole.
ghost use Rattle.std.specs.Prelude.{◌≡◌, ◌≤◌, IfOk};
ghost use Rattle.vio_trace.specs.Form.{Ascend, AnswerBefore, IsInOrder};

use super::{CLIENT, nothing};
use std::alloc::Global;
use std::test::Fail;
use vio_io::SureSink;
use vio_num::{Bytes, NoMemory, Sequence, UnitId};
use vio_trace::{AnswerRow, Trace, write_trace};

/// An answer of so many zero bytes.
fn answer(alloc: Global, unit: UnitId, len: usize) -> Result<AnswerRow, NoMemory>
    ensures { IfOk result (λ row. row.unit ≡ unit) }
{
    Ok(AnswerRow {
        unit,
        session: 1,
        tag: 7,
        answer: Bytes::from(vec![in alloc; 0; len]?),
    })
}

/// Three of them.
fn three_answers(alloc: Global, len: usize) -> Result<Sequence<AnswerRow>, NoMemory>
    ensures { IfOk result (λ answers. Ascend AnswerBefore answers) }
{
    let mut answers = Sequence::new(alloc);
    answers.push(answer(alloc, CLIENT, len)?)?;
    answers.push(answer(alloc, CLIENT, len)?)?;
    answers.push(answer(alloc, CLIENT, len)?)?;
    Ok(answers)
}

/// A trace that has nothing but these.
fn long_trace(alloc: Global, len: usize) -> Result<Trace, NoMemory>
    ensures { IfOk result IsInOrder }
{
    Ok(Trace {
        answers: three_answers(alloc, len)?,
        ..nothing(alloc)
    })
}

/// The lines and the bytes of a text.
fn sizes(text: &[u8]) -> (usize, usize) {
    let mut lines = 0;
    for byte in text {
        if *byte == b'\n' && lines < text.len() {
            lines += 1;
        }
    }
    (lines, text.len())
}

/// What a sink takes of such a trace, of which one call takes at most so many bytes.
fn written(alloc: Global, len: usize, most: usize) -> Result<(usize, usize), NoMemory>
    requires { 1 ≤ most }
{
    let trace = long_trace(alloc, len)?;
    let mut sink = SureSink::new(alloc, most);
    match write_trace(alloc, &trace, &mut sink) {
        Ok(()) => Ok(sizes(sink.bytes())),
        Err(_) => Err(NoMemory),
    }
}

#[test]
fn a_long_text_is_written_whole(rt: HostRuntime) -> Result<(), Fail> {
    assert_eq!(rt; written(rt.alloc(), 40_000, 100_000)?, (5, 240_060));
    assert_eq!(rt; written(rt.alloc(), 32_768, 1)?, (5, 196_668));
    assert_eq!(rt; written(rt.alloc(), 1, 1)?, (5, 66));
    Ok(())
}
