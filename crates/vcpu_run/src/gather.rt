// The trace of what a machine did.
ghost use Rattle.std.specs.Prelude.{◌≡◌, ◌++◌, ◌≤◌, ℕ, List, All, IfOk, OnOk, length, map};
ghost use Rattle.std.specs.List.{flat_map};
ghost use Rattle.std.specs.Option.{option_map};
ghost use Rattle.vcpu_run.specs.Gathered.{logs_of, sessions_at, answer_by, answers_at, values_at, marks_at, copies_of, driver_of, queue_at, window_at, FitsPort, IsFree, IsGathered, HasLawfulQueue, HasLawfulWindow};
ghost use Rattle.block_server.specs.declared.unit.Unit.{Unit};
ghost use Rattle.boot_text.specs.declared.plan.Partition.{Partition};
ghost use Rattle.vio_trace.specs.Form.{IsInOrder};
ghost use Rattle.vcpu_run.specs.Answered.{AreAnswered};
ghost use Rattle.vcpu_run.specs.AnswersSent.{AnswersAreSent};
ghost use Rattle.vcpu_run.specs.GatheredLaw.{LinesAreLawful, LoginsAreLawful, PartsAreLawful, RestIsLawful};
ghost use Rattle.vcpu_run.specs.Lines.{IsOver};
ghost use Rattle.vcpu_run.specs.Machines.{AreScripts, IsOfPlan};
ghost use Rattle.vcpu_run.specs.Pairs.{AreOfOneHome};
ghost use Rattle.vcpu_run.specs.ClientRuns.{AreClients, ClientsTell};
ghost use Rattle.vcpu_run.specs.PlainPairs.{books_of};
ghost use Rattle.vcpu_run.specs.Received.{AreAtRest};
ghost use Rattle.vcpu_run.specs.Refusals.{RefusalsAreTold};
ghost use Rattle.vcpu_run.specs.ScriptTold.{AreTold};
ghost use Rattle.vcpu_run.specs.Units.{seats_of};

use crate::copying::put_copies;
use crate::driver::Driver;
use crate::pair::Pair;
use crate::script::Script;
use crate::sessions::put_sessions;
use crate::unit_seat::{Seat, UnitSeat};
use crate::units::seats_in_order;
use crate::windows::{put_strokes, put_values};
use crq_ring::PlainPipe;
use lan_script::{Lan, LanRows};
use rdma_copy::CopyRecord;
use std::alloc::Global;
use tce_window::PlainWindow;
use vio_num::{Bytes, Grant, NoMemory, Sequence, Served, UnitId};
use vio_trace::{AnswerRow, CopyRow, LogRow, QueueRow, StrokeRow, TceValueRow, Trace};

/// Gathers what the parts of a machine did: a trace that keeps the law of a run.
pub(crate) fn gather(
    alloc: Global,
    pairs: Vec<Pair>,
    scripts: Vec<Script<'_>>,
    lan: Lan,
    history: Vec<Served>,
    grants: Vec<Grant>,
    copies: Vec<CopyRecord>,
) -> Result<Trace, NoMemory>
    requires pairs { AreOfOneHome copies.items pairs.items }
    requires scripts { AreScripts pairs.items lan.seats scripts.items }
    ensures trace { IfOk result (IsGathered pairs.items scripts.entry.items lan
        history.items grants.items copies.items) }
    ensures order { IfOk result IsInOrder }
    ensures serves { IfOk result (λ trace. trace.serves ≡ history.items) }
    ensures grants { IfOk result (λ trace. trace.grants ≡ grants.items) }
    ensures lawful { IfOk result (λ trace. (partitions : List Partition) →
        IsOfPlan partitions pairs.items scripts.entry.items lan.seats →
        PartsAreLawful copies.items pairs.items partitions trace) }
    ensures lines { IfOk result (λ trace. (partitions : List Partition) →
        IsOfPlan partitions pairs.items scripts.entry.items lan.seats →
        LinesAreLawful copies.items pairs.items scripts.entry.items lan partitions trace) }
    ensures refusals { IfOk result (λ trace. (partitions : List Partition) →
        IsOfPlan partitions pairs.items scripts.entry.items lan.seats →
        All IsOver scripts.entry.items → AreTold pairs.items scripts.entry.items →
        AreAtRest copies.items grants.items history.items pairs.items scripts.entry.items →
        RefusalsAreTold partitions trace) }
    ensures answers { IfOk result (λ trace. (partitions : List Partition) →
        IsOfPlan partitions pairs.items scripts.entry.items lan.seats →
        AreAnswered history.items pairs.items → AnswersAreSent partitions trace) }
    ensures rests { IfOk result (λ trace. (partitions : List Partition) →
        IsOfPlan partitions pairs.items scripts.entry.items lan.seats →
        AreAtRest copies.items grants.items history.items pairs.items scripts.entry.items →
        RestIsLawful partitions trace) }
    ensures logins { IfOk result (λ trace. (partitions : List Partition) →
        IsOfPlan partitions pairs.items scripts.entry.items lan.seats →
        AreAnswered history.items pairs.items →
        AreAtRest copies.items grants.items history.items pairs.items scripts.entry.items →
        LoginsAreLawful partitions trace) }
    ensures clients { IfOk result (λ trace. (partitions : List Partition) →
        IsOfPlan partitions pairs.items scripts.entry.items lan.seats →
        AreTold pairs.items scripts.entry.items →
        AreAtRest copies.items grants.items history.items pairs.items scripts.entry.items →
        (granted home : ℕ) (units : List Unit) →
        AreClients granted home (books_of units grants.items history.items)
        pairs.items scripts.entry.items → ClientsTell granted partitions trace) }
{
    rows_of(alloc, pairs, scripts, lan, history, grants, copies)
}

// Gathers the rows of the parts of a machine.
fn rows_of(
    alloc: Global,
    pairs: Vec<Pair>,
    scripts: Vec<Script<'_>>,
    lan: Lan,
    history: Vec<Served>,
    grants: Vec<Grant>,
    copies: Vec<CopyRecord>,
) -> Result<Trace, NoMemory>
    requires free { All IsFree pairs.items }
    requires few { All (λ script. length script.seats.items ≤ 256) scripts.items }
    ensures trace { IfOk result (IsGathered pairs.items scripts.entry.items lan
        history.items grants.items copies.items) }
    ensures queues { OnOk result (All (HasLawfulQueue pairs.items)
        (seats_of scripts.entry.items)) }
    ensures windows { OnOk result (All (HasLawfulWindow pairs.items lan)
        (seats_of scripts.entry.items)) }
{
    let units = seats_in_order(alloc, &scripts)?;
    let queues = queue_rows(alloc, &units, &pairs)?;
    let answers = answer_rows(alloc, &units, &pairs)?;
    let tces = value_rows(alloc, &units, &pairs, &lan)?;
    let copies = copy_rows(alloc, &pairs, &copies)?;
    let strokes = stroke_rows(alloc, &units, &pairs, &lan)?;
    let LanRows {
        frames,
        ports,
        posts,
        delivers,
        harvests,
    } = lan.into_rows(alloc)?;
    let logs = log_rows(alloc, scripts)?;
    Ok(Trace {
        logs: Sequence::from(logs),
        queues: Sequence::from(queues),
        grants: Sequence::from(grants),
        serves: Sequence::from(history),
        answers: Sequence::from(answers),
        frames: Sequence::from(frames),
        ports: Sequence::from(ports),
        posts: Sequence::from(posts),
        delivers: Sequence::from(delivers),
        harvests: Sequence::from(harvests),
        tces: Sequence::from(tces),
        copies: Sequence::from(copies),
        strokes: Sequence::from(strokes),
    })
}

// Gathers the records of the script lines.
fn log_rows(alloc: Global, scripts: Vec<Script<'_>>) -> Result<Vec<LogRow>, NoMemory>
    ensures { IfOk result (λ rows. rows.items ≡ flat_map logs_of scripts.entry.items) }
{
    let mut rows = Vec::new(alloc);
    for script in scripts {
        put_logs(&mut rows, script.logs)?;
    }
    Ok(rows)
}

// Adds the records of a partition.
fn put_logs(rows: &mut Vec<LogRow>, logs: Vec<LogRow>) -> Result<(), NoMemory>
    ensures { OnOk result (rows.new.items ≡ rows.old.items ++ logs.items) }
{
    let mut logs = logs;
    rows.append(&mut logs)?;
    Ok(())
}

// Gathers the sessions of all queues.
fn queue_rows(alloc: Global, units: &[UnitSeat], pairs: &[Pair]) -> Result<Vec<QueueRow>, NoMemory>
    ensures rows { IfOk result (λ rows. rows.items ≡ flat_map (sessions_at pairs.now) units.now) }
    ensures lawful { OnOk result (All (HasLawfulQueue pairs.now) units.now) }
{
    let mut rows = Vec::new(alloc);
    for unit in units {
        put_queue(alloc, &mut rows, unit, pairs)?;
    }
    Ok(rows)
}

// Adds the sessions of a unit's queue.
fn put_queue(
    alloc: Global,
    rows: &mut Vec<QueueRow>,
    unit: &UnitSeat,
    pairs: &[Pair],
) -> Result<(), NoMemory>
    ensures rows { OnOk result (rows.new.items ≡ rows.old.items ++ sessions_at pairs.now unit.now) }
    ensures lawful { OnOk result (HasLawfulQueue pairs.now unit.now) }
{
    match queue_at(pairs, unit) {
        Some(queue) => put_sessions(alloc, rows, unit.unit, queue),
        None => Ok(()),
    }
}

// Lends the queue of a unit, if it has one.
fn queue_at<'a>(pairs: &'a [Pair], unit: &UnitSeat) -> Option<&'a PlainPipe>
    ensures { option_map (λ queue. queue.now) result ≡ queue_at pairs.now unit.now }
{
    match unit.seat {
        Seat::Server => Some(pairs.get(usize::from(unit.unit.unit))?.link.queue(true)),
        Seat::Client(pair) => Some(pairs.get(pair)?.link.queue(false)),
        Seat::Port => None,
    }
}

// Lends the window of a unit.
fn window_at<'a>(pairs: &'a [Pair], lan: &'a Lan, unit: &UnitSeat) -> Option<&'a PlainWindow>
    ensures window { option_map (λ window. window.now) result
        ≡ window_at pairs.now lan.now unit.now }
    ensures fits { FitsPort lan.now unit.now.unit unit.now.seat }
{
    match unit.seat {
        Seat::Server => Some(&pairs.get(usize::from(unit.unit.unit))?.own),
        Seat::Client(pair) => Some(&pairs.get(pair)?.window),
        Seat::Port if lan.is_port(unit.unit) => Some(lan.window(unit.unit)),
        Seat::Port => None,
    }
}

// Gathers the values of all windows.
fn value_rows(
    alloc: Global,
    units: &[UnitSeat],
    pairs: &[Pair],
    lan: &Lan,
) -> Result<Vec<TceValueRow>, NoMemory>
    ensures rows { IfOk result (λ rows.
        rows.items ≡ flat_map (values_at pairs.now lan.now) units.now) }
    ensures lawful { OnOk result (All (HasLawfulWindow pairs.now lan.now) units.now) }
{
    let mut rows = Vec::new(alloc);
    for unit in units {
        put_window_values(&mut rows, unit, pairs, lan)?;
    }
    Ok(rows)
}

// Adds the values of a unit's window.
fn put_window_values(
    rows: &mut Vec<TceValueRow>,
    unit: &UnitSeat,
    pairs: &[Pair],
    lan: &Lan,
) -> Result<(), NoMemory>
    ensures rows { OnOk result (rows.new.items
        ≡ rows.old.items ++ values_at pairs.now lan.now unit.now) }
    ensures lawful { OnOk result (HasLawfulWindow pairs.now lan.now unit.now) }
{
    match window_at(pairs, lan, unit) {
        Some(window) => put_values(rows, unit.unit, window),
        None => Ok(()),
    }
}

// Gathers the strokes of all windows.
fn stroke_rows(
    alloc: Global,
    units: &[UnitSeat],
    pairs: &[Pair],
    lan: &Lan,
) -> Result<Vec<StrokeRow>, NoMemory>
    requires free { All IsFree pairs.now }
    ensures { IfOk result (λ rows. rows.items ≡ flat_map (marks_at pairs.now lan.now) units.now) }
{
    let mut rows = Vec::new(alloc);
    for unit in units {
        put_window_strokes(alloc, &mut rows, unit, pairs, lan)?;
    }
    Ok(rows)
}

// Adds the strokes on the pages of a unit's window.
fn put_window_strokes(
    alloc: Global,
    rows: &mut Vec<StrokeRow>,
    unit: &UnitSeat,
    pairs: &[Pair],
    lan: &Lan,
) -> Result<(), NoMemory>
    requires free { All IsFree pairs.now }
    ensures { OnOk result (rows.new.items
        ≡ rows.old.items ++ marks_at pairs.now lan.now unit.now) }
{
    match window_at(pairs, lan, unit) {
        Some(window) => put_strokes(alloc, rows, unit.unit, window),
        None => Ok(()),
    }
}

// Gathers the answers that the clients took.
fn answer_rows(
    alloc: Global,
    units: &[UnitSeat],
    pairs: &[Pair],
) -> Result<Vec<AnswerRow>, NoMemory>
    ensures { IfOk result (λ rows. rows.items ≡ flat_map (answers_at pairs.now) units.now) }
{
    let mut rows = Vec::new(alloc);
    for unit in units {
        put_client_answers(alloc, &mut rows, unit, pairs)?;
    }
    Ok(rows)
}

// Adds the answers that a client took; another unit takes none.
fn put_client_answers(
    alloc: Global,
    rows: &mut Vec<AnswerRow>,
    unit: &UnitSeat,
    pairs: &[Pair],
) -> Result<(), NoMemory>
    ensures { OnOk result (rows.new.items ≡ rows.old.items ++ answers_at pairs.now unit.now) }
{
    match driver_at(pairs, unit) {
        Some(driver) => put_answers(alloc, rows, unit.unit, &driver.answers),
        None => Ok(()),
    }
}

// Lends the driver of a client.
fn driver_at<'a>(pairs: &'a [Pair], unit: &UnitSeat) -> Option<&'a Driver>
    ensures { option_map (λ driver. driver.now) result ≡ driver_of pairs.now unit.now }
{
    match unit.seat {
        Seat::Client(pair) => pairs.get(pair)?.driver.as_ref(),
        Seat::Server | Seat::Port => None,
    }
}

// Adds these answers as those of a unit.
fn put_answers(
    alloc: Global,
    rows: &mut Vec<AnswerRow>,
    unit: UnitId,
    answers: &[AnswerRow],
) -> Result<(), NoMemory>
    ensures { OnOk result (rows.new.items ≡ rows.old.items ++ map (answer_by unit) answers.now) }
{
    for answer in answers {
        rows.push(AnswerRow {
            unit,
            session: answer.session,
            tag: answer.tag,
            answer: Bytes::from_slice(alloc, answer.answer.as_slice())?,
        })?;
    }
    Ok(())
}

// Gathers the copies, by server unit.
fn copy_rows(alloc: Global, pairs: &[Pair], copies: &[CopyRecord]) -> Result<Vec<CopyRow>, NoMemory>
    ensures { IfOk result (λ rows. rows.items ≡ flat_map (copies_of copies.now) pairs.now) }
{
    let mut rows = Vec::new(alloc);
    for pair in pairs {
        put_copies(alloc, &mut rows, pair.server, copies)?;
    }
    Ok(rows)
}
