// The words of the script lines that clients and LAN ports share.
ghost use Rattle.std.specs.Prelude.{◌≡◌, ◌≤◌, length};
ghost use Rattle.boot_text.specs.Said.{Tells};
ghost use Rattle.boot_text.specs.CommonScript.{fill_of, fill_numbers, poke_of, peek_of, tce_of, tce_numbers, rights as rights_of, hcall_of, hcall_numbers, arguments_of};

use crate::cause::{Cause, Stop};
use crate::names::{MOST_HEX, hex_bytes};
use crate::numbers::{number, number_in};
use crate::verb::Verb;
use crate::words::{Words, is_text};
use std::alloc::Global;

/// The most bytes that one line fills.
pub const MOST_FILL: u64 = 65_536;
/// The most bytes that one line reads.
pub const MOST_PEEK: u64 = 256;
/// The largest page that an entry names.
pub const MOST_PAGE: u64 = 0xF_FFFF_FFFF_FFFF;

/// What a guest may do with the page of an entry.
#[derive(Clone, Copy, Debug, PartialEq, Eq)]
pub struct Rights {
    pub readable: bool,
    pub writable: bool,
}

/// The line `fill`.
pub fn fill_line(words: &Words) -> Result<Verb, Stop>
    ensures { Tells result (fill_of words.now) }
{
    if words.len() != 5 {
        return Err(Stop::Cause(Cause::Count));
    }
    match fill(words) {
        Some(verb) => Ok(verb),
        None => Err(Stop::Cause(Cause::Number)),
    }
}

fn fill(words: &Words) -> Option<Verb>
    requires { length words.now ≡ 5 }
    ensures { result ≡ fill_numbers words.now }
{
    let at = number(words.at(2))?;
    let len = number_in(words.at(3), 1, MOST_FILL)?;
    let seed = number(words.at(4))?;
    Some(Verb::Fill { at, len, seed })
}

/// The line `poke`.
pub fn poke_line(alloc: Global, words: &Words) -> Result<Verb, Stop>
    ensures { Tells result (poke_of words.now) }
{
    if words.len() != 4 {
        return Err(Stop::Cause(Cause::Count));
    }
    let Some(at) = number(words.at(2)) else {
        return Err(Stop::Cause(Cause::Number));
    };
    match hex_bytes(alloc, words.at(3), MOST_HEX)? {
        Some(bytes) => Ok(Verb::Poke { at, bytes }),
        None => Err(Stop::Cause(Cause::Number)),
    }
}

/// The line `peek`.
pub fn peek_line(words: &Words) -> Result<Verb, Stop>
    ensures { Tells result (peek_of words.now) }
{
    if words.len() != 4 {
        return Err(Stop::Cause(Cause::Count));
    }
    match (number(words.at(2)), number_in(words.at(3), 1, MOST_PEEK)) {
        (Some(at), Some(len)) => Ok(Verb::Peek { at, len }),
        _ => Err(Stop::Cause(Cause::Number)),
    }
}

/// The line `tce`.
pub fn tce_line(words: &Words) -> Result<Verb, Stop>
    ensures { Tells result (tce_of words.now) }
{
    if words.len() != 5 {
        return Err(Stop::Cause(Cause::Count));
    }
    match tce(words) {
        Some(verb) => Ok(verb),
        None => Err(Stop::Cause(Cause::Number)),
    }
}

fn tce(words: &Words) -> Option<Verb>
    requires { length words.now ≡ 5 }
    ensures { result ≡ tce_numbers words.now }
{
    let entry = number(words.at(2))?;
    let page = number_in(words.at(3), 0, MOST_PAGE)?;
    let rights = read_rights(words.at(4))?;
    Some(Verb::Tce {
        entry,
        page,
        readable: rights.readable,
        writable: rights.writable,
    })
}

// The rights that a word says.
fn read_rights(word: &[u8]) -> Option<Rights>
    ensures { result ≡ rights_of word.now }
{
    if is_text(word, b"rw") {
        Some(Rights {
            readable: true,
            writable: true,
        })
    } else if is_text(word, b"r") {
        Some(Rights {
            readable: true,
            writable: false,
        })
    } else if is_text(word, b"w") {
        Some(Rights {
            readable: false,
            writable: true,
        })
    } else if is_text(word, b"-") {
        Some(Rights {
            readable: false,
            writable: false,
        })
    } else {
        None
    }
}

/// The line `hcall`, with up to nine arguments.
pub fn hcall_line(words: &Words) -> Result<Verb, Stop>
    ensures { Tells result (hcall_of words.now) }
{
    if words.len() < 3 || words.len() > 12 {
        return Err(Stop::Cause(Cause::Count));
    }
    match hcall(words) {
        Some(verb) => Ok(verb),
        None => Err(Stop::Cause(Cause::Number)),
    }
}

fn hcall(words: &Words) -> Option<Verb>
    requires least { 3 ≤ length words.now }
    requires most { length words.now ≤ 12 }
    ensures { result ≡ hcall_numbers words.now }
{
    let number = number(words.at(2))?;
    let arguments = arguments(words)?;
    Some(Verb::Hcall { number, arguments })
}

// The numbers behind the call's number, and zeros.
fn arguments(words: &Words) -> Option<[u64; 9]>
    requires least { 3 ≤ length words.now }
    requires most { length words.now ≤ 12 }
    ensures { result ≡ arguments_of words.now }
{
    let mut arguments = [0; 9];
    for index in 3..words.len() {
        arguments[index - 3] = number(words.at(index))?;
    }
    Some(arguments)
}
