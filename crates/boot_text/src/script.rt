// The words of a script line: what each verb takes.
ghost use Rattle.std.specs.Prelude.{◌≡◌, ◌≤◌, ◌+◌, IfOk, IsTrue, length};
ghost use Rattle.boot_text.specs.Said.{Tells};
ghost use Rattle.boot_text.specs.Script.{alone, read_line as read_line_of, write_line as write_line_of, command_line as command_line_of, plain_command_of, command_in_of, command_out_of, task_of, take_of, data_of};
ghost use Rattle.boot_text.specs.Transfer.{is_tail as is_tail_of};

use crate::cause::{Cause, Stop};
use crate::names::hex_bytes;
use crate::numbers::{number, number_in};
use crate::transfer::{data_range, is_tail, read_blocks};
use crate::verb::Verb;
use crate::words::{Words, is_text};
use std::alloc::Global;

/// The most bytes of a command.
pub const MOST_CDB: usize = 16;
/// The largest task management function.
pub const MOST_FUNCTION: u64 = 255;

/// A verb that stands alone behind the unit's number.
pub fn alone_line(words: &Words, verb: Verb) -> Result<Verb, Stop>
    ensures { Tells result (alone verb words.now) }
{
    if words.len() == 2 {
        Ok(verb)
    } else {
        Err(Stop::Cause(Cause::Count))
    }
}

/// The line `read`.
pub fn read_line(words: &Words) -> Result<Verb, Stop>
    ensures { Tells result (read_line_of words.now) }
{
    if !is_tail(words, 5) {
        return Err(Stop::Cause(Cause::Count));
    }
    match read_blocks(words) {
        Some(blocks) => Ok(Verb::Read {
            lba: blocks.lba,
            blocks: blocks.blocks,
            at: blocks.at,
            pieces: blocks.tail.pieces,
            table: blocks.tail.table,
        }),
        None => Err(Stop::Cause(Cause::Number)),
    }
}

/// The line `write`.
pub fn write_line(words: &Words) -> Result<Verb, Stop>
    ensures { Tells result (write_line_of words.now) }
{
    if !is_tail(words, 5) {
        return Err(Stop::Cause(Cause::Count));
    }
    match read_blocks(words) {
        Some(blocks) => Ok(Verb::Write {
            lba: blocks.lba,
            blocks: blocks.blocks,
            at: blocks.at,
            pieces: blocks.tail.pieces,
            table: blocks.tail.table,
        }),
        None => Err(Stop::Cause(Cause::Number)),
    }
}

/// The line `cdb`, with or without data.
pub fn command_line(alloc: Global, words: &Words) -> Result<Verb, Stop>
    ensures { Tells result (command_line_of words.now) }
{
    if words.len() == 4 && is_text(words.at(3), b"none") {
        return plain_command(alloc, words);
    }
    if !is_tail(words, 6) {
        return Err(Stop::Cause(Cause::Count));
    }
    if is_text(words.at(3), b"in") {
        return command_in(alloc, words);
    }
    if is_text(words.at(3), b"out") {
        return command_out(alloc, words);
    }
    Err(Stop::Cause(Cause::Count))
}

// A command without data.
fn plain_command(alloc: Global, words: &Words) -> Result<Verb, Stop>
    requires { 4 ≤ length words.now }
    ensures { Tells result (plain_command_of words.now) }
{
    match hex_bytes(alloc, words.at(2), MOST_CDB)? {
        Some(cdb) => Ok(Verb::Command { cdb }),
        None => Err(Stop::Cause(Cause::Number)),
    }
}

// A command with data-in.
fn command_in(alloc: Global, words: &Words) -> Result<Verb, Stop>
    requires form { IsTrue (is_tail_of 6 words.now) }
    requires within { 6 ≤ length words.now }
    ensures { Tells result (command_in_of words.now) }
{
    let Some(range) = data_range(words, 4) else {
        return Err(Stop::Cause(Cause::Number));
    };
    match hex_bytes(alloc, words.at(2), MOST_CDB)? {
        Some(cdb) => Ok(Verb::CommandIn {
            cdb,
            at: range.at,
            len: range.len,
            pieces: range.tail.pieces,
            table: range.tail.table,
        }),
        None => Err(Stop::Cause(Cause::Number)),
    }
}

// A command with data-out.
fn command_out(alloc: Global, words: &Words) -> Result<Verb, Stop>
    requires form { IsTrue (is_tail_of 6 words.now) }
    requires within { 6 ≤ length words.now }
    ensures { Tells result (command_out_of words.now) }
{
    let Some(range) = data_range(words, 4) else {
        return Err(Stop::Cause(Cause::Number));
    };
    match hex_bytes(alloc, words.at(2), MOST_CDB)? {
        Some(cdb) => Ok(Verb::CommandOut {
            cdb,
            at: range.at,
            len: range.len,
            pieces: range.tail.pieces,
            table: range.tail.table,
        }),
        None => Err(Stop::Cause(Cause::Number)),
    }
}

/// The line `task`.
pub fn task_line(words: &Words) -> Result<Verb, Stop>
    ensures { Tells result (task_of words.now) }
{
    if words.len() != 4 {
        return Err(Stop::Cause(Cause::Count));
    }
    match (
        number_in(words.at(2), 0, MOST_FUNCTION),
        number(words.at(3)),
    ) {
        (Some(function), Some(tag)) => Ok(Verb::Task { function, tag }),
        _ => Err(Stop::Cause(Cause::Number)),
    }
}

/// The line `take`.
pub fn take_line(words: &Words) -> Result<Verb, Stop>
    ensures { Tells result (take_of words.now) }
{
    if words.len() != 3 {
        return Err(Stop::Cause(Cause::Count));
    }
    match number(words.at(2)) {
        Some(count) => Ok(Verb::Take { count }),
        None => Err(Stop::Cause(Cause::Number)),
    }
}

/// The line `data`.
pub fn data_line(words: &Words) -> Result<Verb, Stop>
    ensures { Tells result (data_of words.now) }
{
    if words.len() != 3 {
        return Err(Stop::Cause(Cause::Count));
    }
    match number(words.at(2)) {
        Some(tag) => Ok(Verb::Data { tag }),
        None => Err(Stop::Cause(Cause::Number)),
    }
}
