// Texts written by hand from the format: each kind of line, and a login with one command.
ghost use Rattle.std.specs.Prelude.{◌≡◌, [], IfOk};
ghost use Rattle.vio_trace.specs.Form.{Ascend, LogBefore, QueueBefore, AnswerBefore, IsInOrder};

use std::alloc::Global;
use std::test::Fail;
use vio_io::SureSink;
use vio_num::{Bytes, Entry, Grant, Lapse, NoMemory, Sequence, Served, UnitId};
use vio_trace::{AnswerRow, DropRow, LogRow, Outcome, QueueRow, Trace, write_trace};

mod lans;
mod log_words;
mod pieces;
mod reading;
mod windows;

const SERVER: UnitId = UnitId {
    partition: 0,
    unit: 0,
};

const CLIENT: UnitId = UnitId {
    partition: 1,
    unit: 0,
};

const OTHER: UnitId = UnitId {
    partition: 255,
    unit: 10,
};

const MOST: u64 = 18446744073709551615;

/// Whether a trace is written as this text.
fn is_written(alloc: Global, trace: &Trace, text: &[u8]) -> Result<bool, NoMemory>
    requires { IsInOrder trace.now }
{
    let mut sink = SureSink::new(alloc, 100);
    match write_trace(alloc, trace, &mut sink) {
        Ok(()) => Ok(sink.bytes() == text),
        Err(_) => Err(NoMemory),
    }
}

/// Whether a trace is written so. It lets the trace go, and no other function does.
fn is_text_of(alloc: Global, trace: Trace, text: &[u8]) -> Result<bool, NoMemory>
    requires { IsInOrder trace }
{
    is_written(alloc, &trace, text)
}

/// A trace without rows.
fn nothing(alloc: Global) -> Trace
    ensures logs { result.logs ≡ [] }
    ensures order { IsInOrder result }
{
    Trace {
        logs: Sequence::new(alloc),
        queues: Sequence::new(alloc),
        grants: Sequence::new(alloc),
        serves: Sequence::new(alloc),
        answers: Sequence::new(alloc),
        frames: Sequence::new(alloc),
        ports: Sequence::new(alloc),
        posts: Sequence::new(alloc),
        delivers: Sequence::new(alloc),
        harvests: Sequence::new(alloc),
        tces: Sequence::new(alloc),
        copies: Sequence::new(alloc),
        strokes: Sequence::new(alloc),
    }
}

fn entry(high: u64, low: u64) -> Entry {
    Entry { high, low }
}

/// The bytes 0, 1, 2 .. of a list of `len` bytes.
fn counted(alloc: Global, len: u8) -> Result<Bytes, Fail> {
    let mut bytes = Bytes::new(alloc);
    for byte in 0..len {
        bytes.push(byte)?;
    }
    Ok(bytes)
}

fn logs(alloc: Global) -> Result<Sequence<LogRow>, Fail>
    ensures { IfOk result (λ logs. Ascend LogBefore logs) }
{
    let mut logs = Sequence::new(alloc);
    logs.push(LogRow {
        partition: 0,
        line: 9,
        outcome: Outcome::Granted(10),
    })?;
    logs.push(LogRow {
        partition: 255,
        line: 4294967295,
        outcome: Outcome::Sent(MOST),
    })?;
    Ok(logs)
}

fn queues(alloc: Global) -> Result<Sequence<QueueRow>, Fail>
    ensures { IfOk result (λ queues. Ascend QueueBefore queues) }
{
    let first = entry(0x8001_0000_0000_0024, 0xfedc_ba98_7654_3210);
    let drops = [(2, 0xff01_0000_0000_0000), (MOST, 10), (0, 0)];
    let mut queues = Sequence::new(alloc);
    queues.push(QueueRow {
        unit: OTHER,
        session: 9,
        slots: 256,
        sent: Sequence::from_slice(alloc, &[first, entry(0, MOST)])?,
        taken: Sequence::from_slice(alloc, &[first])?,
        drops: Sequence::from_slice(alloc, &drops.map(|(number, held)| DropRow { number, held }))?,
    })?;
    queues.push(QueueRow {
        unit: OTHER,
        session: MOST,
        slots: 0,
        sent: Sequence::new(alloc),
        taken: Sequence::new(alloc),
        drops: Sequence::new(alloc),
    })?;
    Ok(queues)
}

fn lapsed(cause: Lapse, outstanding: u32, granted: u32) -> Grant {
    Grant::Lapsed {
        unit: SERVER,
        session: 10,
        login: 0,
        cause,
        outstanding,
        granted,
    }
}

fn grants(alloc: Global) -> Result<Sequence<Grant>, Fail> {
    Ok(Sequence::from_slice(
        alloc,
        &[
            Grant::Granted {
                unit: OTHER,
                session: 1,
                login: 2,
                number: 3,
                credits: 4294967295,
            },
            lapsed(Lapse::Logout, 0, 0),
            lapsed(Lapse::Lost, 0, 0),
            lapsed(Lapse::Early, 0, 0),
            lapsed(Lapse::BadIu, 0, 0),
            lapsed(Lapse::NotLogin, 0, 0),
            lapsed(Lapse::OverLimit, 9, 8),
            lapsed(Lapse::Refused, 0, 0),
        ],
    )?)
}

fn serves(alloc: Global) -> Result<Sequence<Served>, Fail> {
    let mut serves = Sequence::new(alloc);
    serves.push(Served {
        unit: SERVER,
        session: 1,
        login: 2,
        number: 3,
        iu: counted(alloc, 65)?,
        out: counted(alloc, 1)?,
        fault: Some(0),
        answer: counted(alloc, 32)?,
        inn: counted(alloc, 33)?,
    })?;
    serves.push(Served {
        unit: OTHER,
        session: 0,
        login: MOST,
        number: 10,
        iu: counted(alloc, 2)?,
        out: Bytes::new(alloc),
        fault: None,
        answer: Bytes::new(alloc),
        inn: Bytes::from_slice(alloc, &[0xff, 0xa0, 0x0a])?,
    })?;
    Ok(serves)
}

fn answers(alloc: Global) -> Result<Sequence<AnswerRow>, Fail>
    ensures { IfOk result (λ answers. Ascend AnswerBefore answers) }
{
    let mut answers = Sequence::new(alloc);
    answers.push(AnswerRow {
        unit: CLIENT,
        session: 10,
        tag: 9,
        answer: Bytes::new(alloc),
    })?;
    answers.push(AnswerRow {
        unit: OTHER,
        session: MOST,
        tag: 0,
        answer: counted(alloc, 3)?,
    })?;
    Ok(answers)
}

/// A trace that has each kind of line.
fn each_kind(alloc: Global) -> Result<Trace, Fail>
    ensures { IfOk result (λ trace. IsInOrder trace) }
{
    Ok(Trace {
        logs: logs(alloc)?,
        queues: queues(alloc)?,
        grants: grants(alloc)?,
        serves: serves(alloc)?,
        answers: answers(alloc)?,
        ..nothing(alloc)
    })
}

/// The bytes that these hexadecimal digits spell.
fn spelled(alloc: Global, digits: &str) -> Result<Bytes, Fail> {
    Ok(Bytes::from(hex::decode(alloc, digits)?))
}

/// The first session of a queue of 256 slots from which all was taken.
fn session(alloc: Global, unit: UnitId, entries: &[Entry]) -> Result<QueueRow, Fail>
    ensures { IfOk result (λ row. row.unit ≡ unit) }
{
    Ok(QueueRow {
        unit,
        session: 1,
        slots: 256,
        sent: Sequence::from_slice(alloc, entries)?,
        taken: Sequence::from_slice(alloc, entries)?,
        drops: Sequence::new(alloc),
    })
}

fn run_logs(alloc: Global) -> Result<Sequence<LogRow>, Fail>
    ensures { IfOk result (λ logs. Ascend LogBefore logs) }
{
    let mut logs = Sequence::new(alloc);
    logs.push(LogRow {
        partition: 1,
        line: 9,
        outcome: Outcome::Granted(8),
    })?;
    logs.push(LogRow {
        partition: 1,
        line: 10,
        outcome: Outcome::Sent(2),
    })?;
    Ok(logs)
}

fn run_queues(alloc: Global) -> Result<Sequence<QueueRow>, Fail>
    ensures { IfOk result (λ queues. Ascend QueueBefore queues) }
{
    let requests = [
        entry(0xc001_0000_0000_0000, 0),
        entry(0x8001_0000_0000_0040, 0),
        entry(0x8001_0000_0000_0030, 0),
    ];
    let answers = [
        entry(0xc002_0000_0000_0000, 0),
        entry(0x8001_0000_0000_0034, 1),
        entry(0x8001_0000_0000_0024, 2),
    ];
    let mut queues = Sequence::new(alloc);
    queues.push(session(alloc, SERVER, &requests)?)?;
    queues.push(session(alloc, CLIENT, &answers)?)?;
    Ok(queues)
}

fn run_serves(alloc: Global) -> Result<Sequence<Served>, Fail> {
    let mut serves = Sequence::new(alloc);
    serves.push(Served {
        unit: SERVER,
        session: 1,
        login: 1,
        number: 2,
        iu: spelled(alloc, COMMAND)?,
        out: Bytes::new(alloc),
        fault: None,
        answer: spelled(alloc, RESPONSE)?,
        inn: Bytes::new(alloc),
    })?;
    Ok(serves)
}

fn run_grants(alloc: Global) -> Result<Sequence<Grant>, Fail> {
    let grant = Grant::Granted {
        unit: SERVER,
        session: 1,
        login: 1,
        number: 1,
        credits: 8,
    };
    Ok(Sequence::from_slice(alloc, &[grant])?)
}

fn run_answers(alloc: Global) -> Result<Sequence<AnswerRow>, Fail>
    ensures { IfOk result (λ answers. Ascend AnswerBefore answers) }
{
    let answer = spelled(alloc, RESPONSE)?;
    let mut answers = Sequence::new(alloc);
    answers.push(AnswerRow {
        unit: CLIENT,
        session: 1,
        tag: 2,
        answer,
    })?;
    Ok(answers)
}

/// A login and a command that tests a unit.
fn one_command(alloc: Global) -> Result<Trace, Fail>
    ensures { IfOk result (λ trace. IsInOrder trace) }
{
    Ok(Trace {
        logs: run_logs(alloc)?,
        queues: run_queues(alloc)?,
        grants: run_grants(alloc)?,
        serves: run_serves(alloc)?,
        answers: run_answers(alloc)?,
        ..nothing(alloc)
    })
}

#[test]
fn texts_of_traces(rt: HostRuntime) -> Result<(), Fail> {
    let trace = each_kind(rt.alloc())?;
    assert!(rt; is_text_of(rt.alloc(), trace, EACH_KIND)?);
    let trace = one_command(rt.alloc())?;
    assert!(rt; is_text_of(rt.alloc(), trace, ONE_COMMAND)?);
    Ok(())
}

const EACH_KIND: &[u8] = b"trace 1\n\
log 0 9 granted 10\n\
log 255 4294967295 sent 18446744073709551615\n\
queue 255.10 9 256 2 1 3\n\
sent 8001000000000024 fedcba9876543210\n\
sent 0000000000000000 ffffffffffffffff\n\
took 8001000000000024 fedcba9876543210\n\
drop 2 ff01000000000000\n\
drop 18446744073709551615 000000000000000a\n\
drop 0 0000000000000000\n\
queue 255.10 18446744073709551615 0 0 0 0\n\
grant 255.10 1 2 3 4294967295\n\
lapse 0.0 10 0 logout 0 0\n\
lapse 0.0 10 0 lost 0 0\n\
lapse 0.0 10 0 early 0 0\n\
lapse 0.0 10 0 badiu 0 0\n\
lapse 0.0 10 0 notlogin 0 0\n\
lapse 0.0 10 0 overlimit 9 8\n\
lapse 0.0 10 0 refused 0 0\n\
serve 0.0 1 2 3 \
000102030405060708090a0b0c0d0e0f101112131415161718191a1b1c1d1e1f\
202122232425262728292a2b2c2d2e2f303132333435363738393a3b3c3d3e3f40 \
00 0 \
000102030405060708090a0b0c0d0e0f101112131415161718191a1b1c1d1e1f \
000102030405060708090a0b0c0d0e0f101112131415161718191a1b1c1d1e1f20\n\
serve 255.10 0 18446744073709551615 10 0001 - - - ffa00a\n\
answer 1.0 10 9 -\n\
answer 255.10 18446744073709551615 0 000102\n\
end\n";

/// A CMD of 48 bytes, TEST UNIT READY with tag 2.
const COMMAND: &str =
    "020000000000000000000000000000020000000000000000000000000000000000000000000000000000000000000000";

/// An RSP of 36 bytes with delta 1 and tag 2.
const RESPONSE: &str = "c10000000000000100000000000000020000000000000000000000000000000000000000";

const ONE_COMMAND: &[u8] = b"trace 1\n\
log 1 9 granted 8\n\
log 1 10 sent 2\n\
queue 0.0 1 256 3 3 0\n\
sent c001000000000000 0000000000000000\n\
sent 8001000000000040 0000000000000000\n\
sent 8001000000000030 0000000000000000\n\
took c001000000000000 0000000000000000\n\
took 8001000000000040 0000000000000000\n\
took 8001000000000030 0000000000000000\n\
queue 1.0 1 256 3 3 0\n\
sent c002000000000000 0000000000000000\n\
sent 8001000000000034 0000000000000001\n\
sent 8001000000000024 0000000000000002\n\
took c002000000000000 0000000000000000\n\
took 8001000000000034 0000000000000001\n\
took 8001000000000024 0000000000000002\n\
grant 0.0 1 1 1 8\n\
serve 0.0 1 1 2 020000000000000000000000000000020000000000000000000000000000000000000000000000000000000000000000 - - c10000000000000100000000000000020000000000000000000000000000000000000000 -\n\
answer 1.0 1 2 c10000000000000100000000000000020000000000000000000000000000000000000000\n\
end\n";
