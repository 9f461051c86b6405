// The words of a script line's record, read.
ghost use Rattle.std.specs.Prelude.{◌≡◌};
ghost use Rattle.vio_trace.specs.declared.outcome.Outcome.TheVariants as outcomes;
ghost use Rattle.vio_trace.specs.Form.{IsOutcome};
ghost use Rattle.vio_trace.specs.Reading.{Finds, IsWordAlone};
ghost use Rattle.vio_trace.specs.Text.{line as line_of, outcome_words};

use crate::fields::{Fields, Last, Then};
use crate::outcome::{Outcome, Shown};
use crate::read_kinds::{CodeWord, Digits, FrameWord, HalfDigits, LostWord};
use crate::read_lines::keyed;
use crate::read_words::are_same;
use crate::unread::Unread;
use std::alloc::Global;
use vio_num::Hrc;

// The words behind the first of those records that have more than two.
type FrameFields = Then<Hrc, Then<FrameWord, Last<u64>>>;

type PostedFields = Then<u32, Then<CodeWord, Last<Hrc>>>;

impl Fields for Outcome {
    ghost line = { λ outcome. line_of (outcome_words outcome) };

    ghost fits = { IsOutcome };

    fn read(alloc: Global, text: &[u8]) -> Result<Outcome, Unread> {
        if let Some(words) = keyed::<Last<u64>>(alloc, text, b"sent ")? {
            return Ok(Outcome::Sent(words.word));
        }
        if let Some(words) = keyed::<Last<u64>>(alloc, text, b"took ")? {
            return Ok(Outcome::Took(words.word));
        }
        if let Some(words) = keyed::<Last<Hrc>>(alloc, text, b"code ")? {
            return Ok(Outcome::Code(words.word));
        }
        if let Some(words) = keyed::<PostedFields>(alloc, text, b"posted ")? {
            return Ok(Outcome::Posted {
                buffers: words.word,
                code: words.rest.rest.word,
            });
        }
        if let Some(words) = keyed::<FrameFields>(alloc, text, b"code ")? {
            return Ok(Outcome::Frame {
                code: words.word,
                number: words.rest.rest.word,
            });
        }
        if let Some(words) = keyed::<Then<u64, Last<u64>>>(alloc, text, b"ok ")? {
            return Ok(data(&words));
        }
        if let Some(words) = keyed::<Last<u32>>(alloc, text, b"granted ")? {
            return Ok(Outcome::Granted(words.word));
        }
        if let Some(words) = keyed::<Last<HalfDigits>>(alloc, text, b"rejected ")? {
            return Ok(Outcome::Rejected(words.word.value));
        }
        if let Some(words) = keyed::<Last<u32>>(alloc, text, b"nocredit ")? {
            return Ok(Outcome::NoCredit(words.word));
        }
        if let Some(words) = keyed::<Last<u64>>(alloc, text, b"overlap ")? {
            return Ok(Outcome::Overlap(words.word));
        }
        if let Some(words) = keyed::<Then<u64, Last<Digits>>>(alloc, text, b"dropped ")? {
            return Ok(Outcome::Dropped {
                number: words.word,
                held: words.rest.word.value,
            });
        }
        if let Some(words) = keyed::<Then<u64, Last<LostWord>>>(alloc, text, b"took ")? {
            return Ok(Outcome::TookThenLost(words.word));
        }
        if let Some(words) = keyed::<Last<u16>>(alloc, text, b"stale ")? {
            return Ok(Outcome::Stale(words.word));
        }
        if let Some(words) = keyed::<Last<Digits>>(alloc, text, b"code 0 value ")? {
            return Ok(Outcome::Value(words.word.value));
        }
        if let Some(words) = keyed::<Last<Shown>>(alloc, text, b"bytes ")? {
            let Last { word: shown } = words;
            return Ok(Outcome::Bytes(shown));
        }
        match read_word_alone(text) {
            Some(outcome) => Ok(outcome),
            None => Err(Unread::Bad),
        }
    }
}

// Reads a record of one word.
fn read_word_alone(text: &[u8]) -> Option<Outcome>
    ensures { Finds (λ outcome. line_of (outcome_words outcome)) IsWordAlone text.now result }
{
    if are_same(text, b"done\n") {
        Some(Outcome::Done)
    } else if are_same(text, b"range\n") {
        Some(Outcome::Range)
    } else if are_same(text, b"lost\n") {
        Some(Outcome::Lost)
    } else if are_same(text, b"none\n") {
        Some(Outcome::Unanswered)
    } else if are_same(text, b"notlogged\n") {
        Some(Outcome::NotLoggedIn)
    } else if are_same(text, b"closed\n") {
        Some(Outcome::Closed)
    } else if are_same(text, b"unknown\n") {
        Some(Outcome::Unknown)
    } else {
        None
    }
}

// The number of bytes of a command's data, and their sum.
fn data(words: &Then<u64, Last<u64>>) -> Outcome
    ensures { result ≡ outcomes.Data words.now.word words.now.rest.word }
{
    Outcome::Data {
        len: words.word,
        sum: words.rest.word,
    }
}
