// The lines of each kind of row, and of a list of rows.
ghost use Rattle.std.specs.Prelude.{◌≡◌, ◌++◌, ℕ, List, All, OnOk, flat_map};
ghost use Rattle.vio_trace.specs.Form.{IsLogRow, IsEntry, IsDropRow, IsQueueLine, IsQueueRow, IsGrantRow, IsServeRow, IsAnswerRow};
ghost use Rattle.vio_trace.specs.Text.{log_text, entry_text, drop_text, queue_line, queue_text, grant_text, serve_text, answer_text};

use crate::fitting::{bytes_fit, entries_fit, half_fits, name_fits, outcome_fits, rows_fit};
use crate::log_words::put_outcome;
use crate::rows::{AnswerRow, DropRow, LogRow, QueueRow};
use crate::words::{
    put, put_bytes, put_cause, put_digits, put_head, put_number, put_number_or_none,
};
use vio_num::{Entry, Grant, NoMemory, Served};

/// What has lines in a trace.
pub trait Lines {
    ghost text: { Self → List ℕ };

    ghost in_range: { Self → Type 0 };

    /// Writes the lines.
    fn put(&self, buffer: &mut Vec<u8>) -> Result<(), NoMemory>
        ensures { OnOk result (buffer.new.items ≡ buffer.old.items ++ text self.now) };

    /// Each number and byte of the row is of its type. It does nothing.
    fn fits(&self)
        ensures { in_range self.now };
}

/// Writes the lines of each of these rows.
pub fn put_all<R: Lines>(buffer: &mut Vec<u8>, rows: &[R]) -> Result<(), NoMemory>
    ensures { OnOk result (buffer.new.items ≡ buffer.old.items ++ flat_map R.text rows.now) }
{
    for row in rows {
        row.put(buffer)?;
    }
    Ok(())
}

impl Lines for LogRow {
    ghost text = { log_text };

    ghost in_range = { IsLogRow };

    fn put(&self, buffer: &mut Vec<u8>) -> Result<(), NoMemory> {
        put(buffer, b"log")?;
        put_number(buffer, u64::from(self.partition))?;
        put_number(buffer, u64::from(self.line))?;
        put_outcome(buffer, &self.outcome)?;
        put(buffer, b"\n")
    }

    fn fits(&self) {
        let _partition = self.partition;
        let _line = self.line;
        outcome_fits(&self.outcome);
    }
}

// Writes a line of this first word for each entry.
fn put_entries(buffer: &mut Vec<u8>, word: &[u8], entries: &[Entry]) -> Result<(), NoMemory>
    ensures { OnOk result (buffer.new.items ≡
        buffer.old.items ++ flat_map (entry_text word.now) entries.now) }
{
    for entry in entries {
        put_entry(buffer, word, entry)?;
    }
    Ok(())
}

// Writes the line of an entry.
fn put_entry(buffer: &mut Vec<u8>, word: &[u8], entry: &Entry) -> Result<(), NoMemory>
    ensures { OnOk result (buffer.new.items ≡
        buffer.old.items ++ entry_text word.now entry.now) }
{
    put(buffer, word)?;
    put_digits(buffer, entry.high)?;
    put_digits(buffer, entry.low)?;
    put(buffer, b"\n")
}

impl Lines for DropRow {
    ghost text = { drop_text };

    ghost in_range = { IsDropRow };

    fn put(&self, buffer: &mut Vec<u8>) -> Result<(), NoMemory> {
        put(buffer, b"drop")?;
        put_number(buffer, self.number)?;
        put_digits(buffer, self.held)?;
        put(buffer, b"\n")
    }

    fn fits(&self) {
        let _number = self.number;
        let _held = self.held;
    }
}

// Writes the first line of a session.
fn put_queue_line(buffer: &mut Vec<u8>, row: &QueueRow) -> Result<(), NoMemory>
    ensures { OnOk result (buffer.new.items ≡ buffer.old.items ++ queue_line row.now) }
{
    put_head(buffer, b"queue", row.unit, row.session)?;
    put_number(buffer, u64::from(row.slots))?;
    put_number(buffer, row.sent.len() as u64)?;
    put_number(buffer, row.taken.len() as u64)?;
    put_number(buffer, row.drops.len() as u64)?;
    put(buffer, b"\n")
}

impl Lines for QueueRow {
    ghost text = { queue_text };

    ghost in_range = { IsQueueRow };

    fn put(&self, buffer: &mut Vec<u8>) -> Result<(), NoMemory> {
        put_queue_line(buffer, self)?;
        put_entries(buffer, b"sent", self.sent.as_slice())?;
        put_entries(buffer, b"took", self.taken.as_slice())?;
        put_all(buffer, self.drops.as_slice())
    }

    fn fits(&self) {
        name_fits(self.unit);
        let _session = self.session;
        let _slots = self.slots;
        let _sent_len = self.sent.len();
        let _taken_len = self.taken.len();
        let _drops_len = self.drops.len();
        entries_fit(self.sent.as_slice());
        entries_fit(self.taken.as_slice());
        rows_fit(self.drops.as_slice());
    }
}

impl Lines for Grant {
    ghost text = { grant_text };

    ghost in_range = { IsGrantRow };

    fn put(&self, buffer: &mut Vec<u8>) -> Result<(), NoMemory> {
        match *self {
            Grant::Granted {
                unit,
                session,
                login,
                number,
                credits,
            } => {
                put_head(buffer, b"grant", unit, session)?;
                put_number(buffer, login)?;
                put_number(buffer, number)?;
                put_number(buffer, u64::from(credits))?;
            }
            Grant::Lapsed {
                unit,
                session,
                login,
                cause,
                outstanding,
                granted,
            } => {
                put_head(buffer, b"lapse", unit, session)?;
                put_number(buffer, login)?;
                put_cause(buffer, cause)?;
                put_number(buffer, u64::from(outstanding))?;
                put_number(buffer, u64::from(granted))?;
            }
        }
        put(buffer, b"\n")
    }

    fn fits(&self) {
        match *self {
            Grant::Granted {
                unit,
                session: _session,
                login: _login,
                number: _number,
                credits: _credits,
            } => name_fits(unit),
            Grant::Lapsed {
                unit,
                session: _session,
                login: _login,
                cause: _,
                outstanding: _outstanding,
                granted: _granted,
            } => name_fits(unit),
        }
    }
}

impl Lines for Served {
    ghost text = { serve_text };

    ghost in_range = { IsServeRow };

    fn put(&self, buffer: &mut Vec<u8>) -> Result<(), NoMemory> {
        put_head(buffer, b"serve", self.unit, self.session)?;
        put_number(buffer, self.login)?;
        put_number(buffer, self.number)?;
        put_bytes(buffer, &self.iu)?;
        put_bytes(buffer, &self.out)?;
        put_number_or_none(buffer, self.fault)?;
        put_bytes(buffer, &self.answer)?;
        put_bytes(buffer, &self.inn)?;
        put(buffer, b"\n")
    }

    fn fits(&self) {
        name_fits(self.unit);
        let _session = self.session;
        let _login = self.login;
        let _number = self.number;
        half_fits(self.fault);
        bytes_fit(self.iu.as_slice());
        bytes_fit(self.out.as_slice());
        bytes_fit(self.answer.as_slice());
        bytes_fit(self.inn.as_slice());
    }
}

impl Lines for AnswerRow {
    ghost text = { answer_text };

    ghost in_range = { IsAnswerRow };

    fn put(&self, buffer: &mut Vec<u8>) -> Result<(), NoMemory> {
        put_head(buffer, b"answer", self.unit, self.session)?;
        put_number(buffer, self.tag)?;
        put_bytes(buffer, &self.answer)?;
        put(buffer, b"\n")
    }

    fn fits(&self) {
        name_fits(self.unit);
        let _session = self.session;
        let _tag = self.tag;
        bytes_fit(self.answer.as_slice());
    }
}
