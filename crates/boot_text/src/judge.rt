// What is wrong with a line, and what a good one adds to the plan.
ghost use Rattle.std.specs.Prelude.{◌≡◌, ◌≤◌, true, false, Some, length, nat_eq, slice_index};
ghost use Rattle.std.specs.List.{list_all};
ghost use Rattle.boot_text.specs.BootText.{judge, judge_first, judge_words, judge_keyword, judge_statement, verb_of_line, script_verb, has_bad_byte as has_bad_byte_in, is_printable as is_printable_byte, is_header as is_header_of, is_skipped as is_skipped_of};
ghost use Rattle.boot_text.specs.Taken.{Takes, TellsCause};
ghost use Rattle.boot_text.specs.SoFar.{SoFar, follows, kind_of};

use crate::cause::{Cause, Stop};
use crate::draft::Draft;
use crate::keyword::{Keyword, line_keyword, verb_name};
use crate::read::MOST_LINE;
use crate::statement::{Statement, read_statement};
use crate::verb::VerbName;
use crate::words::{Words, is_text};
use std::alloc::Global;

/// Adds the line of this number to the draft, if it is not wrong.
pub fn take_line(alloc: Global, draft: &mut Draft, number: u32, line: &[u8]) -> Result<(), Stop>
    ensures { Takes result (judge number draft.old line.now) draft.new }
{
    if has_bad_byte(line) {
        return Err(Stop::Cause(Cause::BadByte));
    }
    if line.len() > MOST_LINE {
        return Err(Stop::Cause(Cause::LineLength));
    }
    let words = Words::of(alloc, line)?;
    if number == 1 {
        take_first(&words)
    } else {
        take_words(alloc, draft, number, &words)
    }
}

// Whether a byte of the line is no printable ASCII.
fn has_bad_byte(line: &[u8]) -> bool
    ensures { result ≡ has_bad_byte_in line.now }
{
    !is_text_line(line)
}

fn is_text_line(line: &[u8]) -> bool
    ensures { result ≡ list_all is_printable_byte line.now }
{
    line.iter().all(|byte| is_printable(*byte))
}

fn is_printable(byte: u8) -> bool
    ensures { result ≡ is_printable_byte byte }
{
    32 <= byte && byte <= 126
}

// Tests the first line.
fn take_first(words: &Words) -> Result<(), Stop>
    ensures { (s : SoFar) → Takes result (judge_first s words.now) s }
{
    if is_header(words) {
        Ok(())
    } else {
        Err(Stop::Cause(Cause::Header))
    }
}

fn is_header(words: &Words) -> bool
    ensures { result ≡ is_header_of words.now }
{
    words.len() == 2 && is_text(words.at(0), b"vio") && is_text(words.at(1), b"1")
}

// Adds a line of these words behind the first.
fn take_words(alloc: Global, draft: &mut Draft, number: u32, words: &Words) -> Result<(), Stop>
    ensures { Takes result (judge_words number draft.old words.now) draft.new }
{
    if is_skipped(words) {
        return Ok(());
    }
    match line_keyword(words.at(0)) {
        Some(keyword) => take_keyword(alloc, draft, number, keyword, words),
        None => Err(Stop::Cause(Cause::Word)),
    }
}

// Whether the line is empty, or a comment.
fn is_skipped(words: &Words) -> bool
    ensures value { result ≡ is_skipped_of words.now }
    ensures some { result ≡ false → 1 ≤ length words.now }
{
    words.len() == 0 || is_comment(words.at(0))
}

fn is_comment(word: &[u8]) -> bool
    ensures { result ≡ nat_eq (slice_index word.now 0) 35 }
{
    match word {
        [b'#', ..] => true,
        _ => false,
    }
}

// Adds a line that begins with this keyword.
fn take_keyword(
    alloc: Global,
    draft: &mut Draft,
    number: u32,
    keyword: Keyword,
    words: &Words,
) -> Result<(), Stop>
    requires { 1 ≤ length words.now }
    ensures { Takes result (judge_keyword number draft.old words.now (Some keyword)) draft.new }
{
    let verb = match read_verb_name(keyword, words) {
        Ok(verb) => verb,
        Err(cause) => return Err(Stop::Cause(cause)),
    };
    if !draft.may_take(keyword) {
        return Err(Stop::Cause(Cause::Place));
    }
    let statement = read_statement(alloc, keyword, verb, words)?;
    take_statement(draft, number, statement)
}

// Reads the verb of a script line, if one stands there.
fn read_verb_name(keyword: Keyword, words: &Words) -> Result<Option<VerbName>, Cause>
    requires { 1 ≤ length words.now }
    ensures { TellsCause result (verb_of_line keyword words.now) }
{
    match keyword {
        Keyword::Script => script_verb_name(words),
        _ => Ok(None),
    }
}

fn script_verb_name(words: &Words) -> Result<Option<VerbName>, Cause>
    requires { 1 ≤ length words.now }
    ensures { TellsCause result (script_verb words.now) }
{
    if words.len() == 1 {
        return Ok(None);
    }
    match verb_name(words.at(1)) {
        Some(verb) => Ok(Some(verb)),
        None => Err(Cause::Word),
    }
}

// Adds a line that says this and may stand here, if it is not wrong.
fn take_statement(draft: &mut Draft, number: u32, statement: Statement) -> Result<(), Stop>
    requires { follows draft.old.last (kind_of statement) ≡ true }
    ensures { Takes result (judge_statement number draft.old statement) draft.new }
{
    if let Some(cause) = draft.offence(&statement) {
        return Err(Stop::Cause(cause));
    }
    draft.add(number, statement)?;
    Ok(())
}
