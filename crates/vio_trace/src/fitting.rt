// That the numbers and bytes of rows are of their types, so that a text says them whole. Nothing here does any work.
ghost use Rattle.std.specs.Prelude.{◌≡◌, All, IfSome};
ghost use Rattle.hex.specs.Hex.{IsBytes};
ghost use Rattle.vio_trace.specs.Form.{IsEntry, IsHalf, IsInRange, IsName, IsOutcome, IsPieceRow};

use crate::lines::Lines;
use crate::outcome::Outcome;
use crate::rows::Trace;
use crate::window_rows::PieceRow;
use vio_num::{Entry, UnitId};

/// The two numbers of a unit's name are bytes.
pub fn name_fits(_unit: UnitId)
    ensures { IsName _unit }
{}

/// The numbers of a slice of bytes are bytes.
pub fn bytes_fit(_bytes: &[u8])
    ensures { IsBytes _bytes.now }
{}

/// A number that may be absent has 32 bits.
pub fn half_fits(_n: Option<u32>)
    ensures { IfSome _n IsHalf }
{}

// The halves of an entry have 64 bits.
fn entry_fits(_entry: Entry)
    ensures { IsEntry _entry }
{}

/// So it is with each entry.
pub fn entries_fit(entries: &[Entry])
    ensures { All IsEntry entries.now }
{
    for entry in entries {
        entry_fits(*entry);
    }
}

// The numbers of a piece are of their types.
fn piece_fits(_piece: PieceRow)
    ensures { IsPieceRow _piece }
{}

/// So it is with each piece.
pub fn pieces_fit(pieces: &[PieceRow])
    ensures { All IsPieceRow pieces.now }
{
    for piece in pieces {
        piece_fits(*piece);
    }
}

/// The numbers that say how a script line ended are of their types.
pub fn outcome_fits(outcome: &Outcome)
    ensures { IsOutcome outcome.now }
{
    match outcome {
        Outcome::Bytes(shown) => bytes_fit(shown.bytes().as_slice()),
        Outcome::Granted(n) | Outcome::Rejected(n) | Outcome::NoCredit(n) => {
            let _n = *n;
        }
        Outcome::Sent(n) | Outcome::Overlap(n) | Outcome::Took(n) | Outcome::TookThenLost(n) => {
            let _n = *n;
        }
        Outcome::Value(n) | Outcome::Frame { number: n, .. } => {
            let _n = *n;
        }
        Outcome::Dropped { number: m, held: n } | Outcome::Data { len: m, sum: n } => {
            let _m = *m;
            let _n = *n;
        }
        Outcome::Stale(page) => {
            let _page = *page;
        }
        Outcome::Posted { buffers, .. } => {
            let _buffers = *buffers;
        }
        Outcome::Lost
        | Outcome::Unanswered
        | Outcome::Range
        | Outcome::NotLoggedIn
        | Outcome::Closed
        | Outcome::Unknown
        | Outcome::Code(_)
        | Outcome::Done => {}
    }
}

/// So it is with each of these rows.
pub fn rows_fit<R: Lines>(rows: &[R])
    ensures { All R.in_range rows.now }
{
    for row in rows {
        row.fits();
    }
}

/// So it is with each row of a trace.
pub fn trace_fits(trace: &Trace)
    ensures { IsInRange trace.now }
{
    rows_fit(trace.logs.as_slice());
    rows_fit(trace.queues.as_slice());
    rows_fit(trace.grants.as_slice());
    rows_fit(trace.serves.as_slice());
    rows_fit(trace.answers.as_slice());
    rows_fit(trace.frames.as_slice());
    rows_fit(trace.ports.as_slice());
    rows_fit(trace.posts.as_slice());
    rows_fit(trace.delivers.as_slice());
    rows_fit(trace.harvests.as_slice());
    rows_fit(trace.tces.as_slice());
    rows_fit(trace.copies.as_slice());
    rows_fit(trace.strokes.as_slice());
}
