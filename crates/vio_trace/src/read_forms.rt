// The lines of a trace of which several make a row, and those of two forms, read.
ghost use Rattle.std.specs.Prelude.{◌≡◌, IfOk, codes};
ghost use Rattle.vio_trace.specs.Form.{IsEntry, IsLogRow, IsGrantRow, IsPieceRow};
ghost use Rattle.vio_trace.specs.Reading.{Reads, piece_in};
ghost use Rattle.vio_trace.specs.Text.{entry_text, grant_text, log_text, piece_text};

use crate::fields::{Fields, Last, Then};
use crate::outcome::Outcome;
use crate::read_kinds::Digits;
use crate::read_lines::{Line, behind, keyed};
use crate::rows::LogRow;
use crate::unread::Unread;
use crate::window_rows::PieceRow;
use std::alloc::Global;
use vio_num::{Entry, Grant, Lapse, UnitId};

/// The line of an entry that was put.
pub struct SentLine;

/// The line of an entry that was taken.
pub struct TookLine;

/// The line of a piece that was read.
pub struct FromLine;

/// The line of a piece that was written.
pub struct ToLine;

impl Line for SentLine {
    type Row = Entry;

    ghost text = { entry_text (codes "sent") };

    ghost fits = { IsEntry };

    fn read(alloc: Global, line: &[u8]) -> Result<Entry, Unread> {
        let Some(rest) = behind(line, b"sent ") else {
            return Err(Unread::Bad);
        };
        let fields = Then::<Digits, Last<Digits>>::read(alloc, rest)?;
        Ok(Entry {
            high: fields.word.value,
            low: fields.rest.word.value,
        })
    }

    fn is_one_line() {}
}

impl Line for TookLine {
    type Row = Entry;

    ghost text = { entry_text (codes "took") };

    ghost fits = { IsEntry };

    fn read(alloc: Global, line: &[u8]) -> Result<Entry, Unread> {
        let Some(rest) = behind(line, b"took ") else {
            return Err(Unread::Bad);
        };
        let fields = Then::<Digits, Last<Digits>>::read(alloc, rest)?;
        Ok(Entry {
            high: fields.word.value,
            low: fields.rest.word.value,
        })
    }

    fn is_one_line() {}
}

// The words of a piece's line behind its first.
type PieceFields = Then<UnitId, Then<u16, Then<u32, Then<u16, Then<u16, Then<u16, Last<u32>>>>>>>;

// Makes a piece of the words of its line behind the first.
fn piece_of(fields: &PieceFields) -> PieceRow
    ensures { result ≡ piece_in fields.now }
{
    PieceRow {
        unit: fields.word,
        entry: fields.rest.word,
        version: fields.rest.rest.word,
        page: fields.rest.rest.rest.word,
        offset: fields.rest.rest.rest.rest.word,
        len: fields.rest.rest.rest.rest.rest.word,
        at: fields.rest.rest.rest.rest.rest.rest.word,
    }
}

impl Line for FromLine {
    type Row = PieceRow;

    ghost text = { piece_text (codes "from") };

    ghost fits = { IsPieceRow };

    fn read(alloc: Global, line: &[u8]) -> Result<PieceRow, Unread> {
        let Some(rest) = behind(line, b"from ") else {
            return Err(Unread::Bad);
        };
        let fields = PieceFields::read(alloc, rest)?;
        Ok(piece_of(&fields))
    }

    fn is_one_line() {}
}

impl Line for ToLine {
    type Row = PieceRow;

    ghost text = { piece_text (codes "to") };

    ghost fits = { IsPieceRow };

    fn read(alloc: Global, line: &[u8]) -> Result<PieceRow, Unread> {
        let Some(rest) = behind(line, b"to ") else {
            return Err(Unread::Bad);
        };
        let fields = PieceFields::read(alloc, rest)?;
        Ok(piece_of(&fields))
    }

    fn is_one_line() {}
}

// The words of a script line's record behind the first.
type LogFields = Then<u8, Then<u32, Outcome>>;

impl Line for LogRow {
    type Row = LogRow;

    ghost text = { log_text };

    ghost fits = { IsLogRow };

    fn read(alloc: Global, line: &[u8]) -> Result<LogRow, Unread> {
        let Some(rest) = behind(line, b"log ") else {
            return Err(Unread::Bad);
        };
        let fields = LogFields::read(alloc, rest)?;
        let Then {
            word: partition,
            rest,
        } = fields;
        let Then {
            word: line,
            rest: outcome,
        } = rest;
        Ok(LogRow {
            partition,
            line,
            outcome,
        })
    }

    fn is_one_line() {}
}

// The words of a granted login's line behind the first, and those of a login's that ended.
type GrantFields = Then<UnitId, Then<u64, Then<u64, Then<u64, Last<u32>>>>>;

type LapseFields = Then<UnitId, Then<u64, Then<u64, Then<Lapse, Then<u32, Last<u32>>>>>>;

impl Line for Grant {
    type Row = Grant;

    ghost text = { grant_text };

    ghost fits = { IsGrantRow };

    fn read(alloc: Global, line: &[u8]) -> Result<Grant, Unread> {
        if let Some(fields) = keyed::<GrantFields>(alloc, line, b"grant ")? {
            return Ok(Grant::Granted {
                unit: fields.word,
                session: fields.rest.word,
                login: fields.rest.rest.word,
                number: fields.rest.rest.rest.word,
                credits: fields.rest.rest.rest.rest.word,
            });
        }
        let Some(fields) = keyed::<LapseFields>(alloc, line, b"lapse ")? else {
            return Err(Unread::Bad);
        };
        Ok(Grant::Lapsed {
            unit: fields.word,
            session: fields.rest.word,
            login: fields.rest.rest.word,
            cause: fields.rest.rest.rest.word,
            outstanding: fields.rest.rest.rest.rest.word,
            granted: fields.rest.rest.rest.rest.rest.word,
        })
    }

    fn is_one_line() {}
}
