// The sessions of a unit's queue, as a trace shows them.
ghost use Rattle.std.specs.Prelude.{◌≡◌, ◌++◌, ◌<◌, ◌≤◌, ℕ, All, IfOk, IfSome, OnOk, length, take, slice_get};
ghost use Rattle.crq_ring.specs.Pipe.{IsLawfulPipe};
ghost use Rattle.vcpu_run.specs.Sessions.{drops_of, entries_of, session_rows};

use crq_ring::{DropRow as PipeDrop, PipeRow, PlainPipe};
use std::alloc::Global;
use vio_num::{Entry, NoMemory, Sequence, UnitId};
use vio_trace::{DropRow, QueueRow};

/// Adds the sessions of a unit's queue.
pub(crate) fn put_sessions(
    alloc: Global,
    rows: &mut Vec<QueueRow>,
    unit: UnitId,
    pipe: &PlainPipe,
) -> Result<(), NoMemory>
    ensures rows { OnOk result (rows.new.items ≡ rows.old.items ++ session_rows unit pipe.now) }
    ensures lawful { OnOk result (IsLawfulPipe pipe.now) }
{
    let mut sent = pipe.sent();
    let mut taken = pipe.taken();
    let mut drops = pipe.drops();
    for before in 0..pipe.session() {
        let session = before + 1;
        let (sent_now, sent_later) = sent.split_at(rows_until(sent, session));
        let (taken_now, taken_later) = taken.split_at(rows_until(taken, session));
        let (drops_now, drops_later) = drops.split_at(drops_until(drops, session));
        rows.push(QueueRow {
            unit,
            session,
            slots: pipe.slots(),
            sent: entries_in(alloc, sent_now, session)?,
            taken: entries_in(alloc, taken_now, session)?,
            drops: drops_in(alloc, drops_now, session)?,
        })?;
        (sent, taken, drops) = (sent_later, taken_later, drops_later);
    }
    Ok(())
}

// Counts the rows before the first of a later session.
fn rows_until(rows: &[PipeRow], session: u64) -> usize
    ensures within { result ≤ length rows.now }
    ensures before { All (λ row. row.session ≤ session) (take result rows.now) }
    ensures later { IfSome (slice_get rows.now result) (λ row. session < row.session) }
{
    match rows.iter().position(|row| session < row.session) {
        Some(at) => at,
        None => rows.len(),
    }
}

// Counts the drops before the first of a later session.
fn drops_until(rows: &[PipeDrop], session: u64) -> usize
    ensures within { result ≤ length rows.now }
    ensures before { All (λ row. row.session ≤ session) (take result rows.now) }
    ensures later { IfSome (slice_get rows.now result) (λ row. session < row.session) }
{
    match rows.iter().position(|row| session < row.session) {
        Some(at) => at,
        None => rows.len(),
    }
}

// Gives the entries of this session.
fn entries_in(alloc: Global, rows: &[PipeRow], session: u64) -> Result<Sequence<Entry>, NoMemory>
    ensures { IfOk result (λ entries. entries ≡ entries_of session rows.now) }
{
    let mut entries = Sequence::new(alloc);
    for row in rows {
        if row.session == session {
            entries.push(row.entry)?;
        }
    }
    Ok(entries)
}

// Gives the drops of this session.
fn drops_in(alloc: Global, rows: &[PipeDrop], session: u64) -> Result<Sequence<DropRow>, NoMemory>
    ensures { IfOk result (λ drops. drops ≡ drops_of session rows.now) }
{
    let mut drops = Sequence::new(alloc);
    for row in rows {
        if row.session == session {
            drops.push(DropRow {
                number: row.number,
                held: row.held,
            })?;
        }
    }
    Ok(drops)
}
