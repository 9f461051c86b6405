// The words of a script line's record, each behind a space.
ghost use Rattle.std.specs.Prelude.{◌≡◌, ◌∷◌, [], OnOk, codes, decimal};
ghost use Rattle.vio_trace.specs.declared.outcome.Outcome.TheVariants as outcomes;
ghost use Rattle.vio_trace.specs.Form.{IsOutcome};
ghost use Rattle.vio_trace.specs.Text.{code, outcome_words, with_words};

use crate::outcome::{Outcome, Shown};
use crate::words::{put, put_bytes, put_code, put_digits, put_half_digits, put_number};
use vio_num::{Hrc, NoMemory};

/// How a script line ended.
pub fn put_outcome(buffer: &mut Vec<u8>, outcome: &Outcome) -> Result<(), NoMemory>
    ensures { OnOk result (buffer.new.items ≡
        with_words buffer.old.items (outcome_words outcome.now)) }
{
    match outcome {
        Outcome::Granted(credits) => put_counted(buffer, b"granted", u64::from(*credits)),
        Outcome::Rejected(reason) => put_rejected(buffer, *reason),
        Outcome::Lost => put_word(buffer, b"lost"),
        Outcome::Unanswered => put_word(buffer, b"none"),
        Outcome::Sent(tag) => put_counted(buffer, b"sent", *tag),
        Outcome::Range => put_word(buffer, b"range"),
        Outcome::NotLoggedIn => put_word(buffer, b"notlogged"),
        Outcome::NoCredit(limit) => put_counted(buffer, b"nocredit", u64::from(*limit)),
        Outcome::Overlap(tag) => put_counted(buffer, b"overlap", *tag),
        Outcome::Closed => put_word(buffer, b"closed"),
        Outcome::Dropped { number, held } => put_dropped(buffer, *number, *held),
        Outcome::Took(count) => put_counted(buffer, b"took", *count),
        Outcome::TookThenLost(count) => put_took_then_lost(buffer, *count),
        Outcome::Data { len, sum } => put_data(buffer, *len, *sum),
        Outcome::Stale(page) => put_counted(buffer, b"stale", u64::from(*page)),
        Outcome::Unknown => put_word(buffer, b"unknown"),
        Outcome::Code(code) => put_call(buffer, *code),
        Outcome::Value(value) => put_value(buffer, *value),
        Outcome::Posted { buffers, code } => put_posted(buffer, *buffers, *code),
        Outcome::Frame { code, number } => put_frame(buffer, *code, *number),
        Outcome::Done => put_word(buffer, b"done"),
        Outcome::Bytes(shown) => put_shown(buffer, shown),
    }
}

// Writes one word.
fn put_word(buffer: &mut Vec<u8>, word: &[u8]) -> Result<(), NoMemory>
    ensures { OnOk result (buffer.new.items ≡ with_words buffer.old.items (word.now ∷ [])) }
{
    put(buffer, b" ")?;
    put(buffer, word)
}

// Writes a word and a decimal number.
fn put_counted(buffer: &mut Vec<u8>, word: &[u8], n: u64) -> Result<(), NoMemory>
    ensures { OnOk result (buffer.new.items ≡
        with_words buffer.old.items (word.now ∷ decimal n ∷ [])) }
{
    put_word(buffer, word)?;
    put_number(buffer, n)
}

// Writes the reason of a rejected login.
fn put_rejected(buffer: &mut Vec<u8>, reason: u32) -> Result<(), NoMemory>
    ensures { OnOk result (buffer.new.items ≡
        with_words buffer.old.items (outcome_words (outcomes.Rejected reason))) }
{
    put_word(buffer, b"rejected")?;
    put_half_digits(buffer, reason)
}

// Writes that an entry found its slot full.
fn put_dropped(buffer: &mut Vec<u8>, number: u64, held: u64) -> Result<(), NoMemory>
    ensures { OnOk result (buffer.new.items ≡
        with_words buffer.old.items (outcome_words (outcomes.Dropped number held))) }
{
    put_counted(buffer, b"dropped", number)?;
    put_digits(buffer, held)
}

// Writes how many answers were taken until the partner was lost.
fn put_took_then_lost(buffer: &mut Vec<u8>, count: u64) -> Result<(), NoMemory>
    ensures { OnOk result (buffer.new.items ≡
        with_words buffer.old.items (outcome_words (outcomes.TookThenLost count))) }
{
    put_counted(buffer, b"took", count)?;
    put_word(buffer, b"lost")
}

// Writes the number of bytes of a command's data, and their sum.
fn put_data(buffer: &mut Vec<u8>, len: u64, sum: u64) -> Result<(), NoMemory>
    ensures { OnOk result (buffer.new.items ≡
        with_words buffer.old.items (outcome_words (outcomes.Data len sum))) }
{
    put_counted(buffer, b"ok", len)?;
    put_number(buffer, sum)
}

// Writes the code of a call.
fn put_call(buffer: &mut Vec<u8>, answer: Hrc) -> Result<(), NoMemory>
    ensures { OnOk result (buffer.new.items ≡
        with_words buffer.old.items (codes "code" ∷ code answer ∷ [])) }
{
    put_word(buffer, b"code")?;
    put_code(buffer, answer)
}

// Writes the value that a call read.
fn put_value(buffer: &mut Vec<u8>, value: u64) -> Result<(), NoMemory>
    ensures { OnOk result (buffer.new.items ≡
        with_words buffer.old.items (outcome_words (outcomes.Value value))) }
{
    put_word(buffer, b"code")?;
    put_word(buffer, b"0")?;
    put_word(buffer, b"value")?;
    put_digits(buffer, value)
}

// Writes how many buffers were posted, and the code of the last call.
fn put_posted(buffer: &mut Vec<u8>, buffers: u32, answer: Hrc) -> Result<(), NoMemory>
    ensures { OnOk result (buffer.new.items ≡
        with_words buffer.old.items (outcome_words (outcomes.Posted buffers answer))) }
{
    put_counted(buffer, b"posted", u64::from(buffers))?;
    put_call(buffer, answer)
}

// Writes the code of a frame's call, and the frame's number.
fn put_frame(buffer: &mut Vec<u8>, answer: Hrc, number: u64) -> Result<(), NoMemory>
    ensures { OnOk result (buffer.new.items ≡
        with_words buffer.old.items (outcome_words (outcomes.Frame answer number))) }
{
    put_call(buffer, answer)?;
    put_counted(buffer, b"frame", number)
}

// Writes the bytes of a region.
fn put_shown(buffer: &mut Vec<u8>, shown: &Shown) -> Result<(), NoMemory>
    ensures { OnOk result (buffer.new.items ≡
        with_words buffer.old.items (outcome_words (outcomes.Bytes shown.now))) }
{
    put_word(buffer, b"bytes")?;
    put_bytes(buffer, shown.bytes())
}
