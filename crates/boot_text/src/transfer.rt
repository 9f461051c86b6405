// The words of a command's data: where they lie, how many bytes they are, and in how many pieces.
ghost use Rattle.std.specs.Prelude.{◌≡◌, ◌≤◌, ◌<◌, ◌+◌, IsTrue, length};
ghost use Rattle.boot_text.specs.Transfer.{is_tail as is_tail_of, tail as tail_of, range_of, blocks_of};

use crate::numbers::{number, number_in};
use crate::words::{Words, is_text};

/// The most bytes of a command's data.
pub const MOST_DATA: u64 = 131_072;
/// The largest address of a block that a 10-byte command names.
pub const MOST_LBA: u64 = 0xFFFF_FFFF;
/// The most blocks of a line.
pub const MOST_BLOCKS: u64 = 256;
/// The most pieces that stand in the information unit itself.
pub const MOST_PIECES: u64 = 11;
/// The most pieces of a table.
pub const MOST_IN_TABLE: u64 = 256;

/// How a command's data are cut: the number of pieces, and the address of their table.
#[derive(Clone, Copy, Debug, PartialEq, Eq)]
pub struct Tail {
    pub pieces: u16,
    pub table: Option<u64>,
}

/// The blocks of a READ(10) or a WRITE(10) and where their data lie.
#[derive(Clone, Copy, Debug, PartialEq, Eq)]
pub struct Blocks {
    pub lba: u64,
    pub blocks: u64,
    pub at: u64,
    pub tail: Tail,
}

/// Where a command's data lie.
#[derive(Clone, Copy, Debug, PartialEq, Eq)]
pub struct Range {
    pub at: u64,
    pub len: u64,
    pub tail: Tail,
}

/// Whether the line ends with `pieces K` and `table A`, or less, from this word on.
pub fn is_tail(words: &Words, from: usize) -> bool
    requires { from < 16 }
    ensures form { result ≡ is_tail_of from words.now }
    ensures within { IsTrue result → from ≤ length words.now }
{
    words.len() == from
        || words.len() == from + 2 && is_text(words.at(from), b"pieces")
        || words.len() == from + 4
            && is_text(words.at(from), b"pieces")
            && is_text(words.at(from + 2), b"table")
}

// The pieces and the table that the end of a line says.
fn line_tail(words: &Words, from: usize) -> Option<Tail>
    requires range { from < 16 }
    requires form { IsTrue (is_tail_of from words.now) }
    ensures { result ≡ tail_of from words.now }
{
    if words.len() == from {
        return Some(Tail {
            pieces: 1,
            table: None,
        });
    }
    if words.len() == from + 2 {
        let pieces = number_in(words.at(from + 1), 1, MOST_PIECES)?;
        return Some(Tail {
            pieces: pieces as u16,
            table: None,
        });
    }
    let pieces = number_in(words.at(from + 1), 1, MOST_IN_TABLE)?;
    let table = number(words.at(from + 3))?;
    Some(Tail {
        pieces: pieces as u16,
        table: Some(table),
    })
}

/// Where the data of a command lie, of at least as many bytes as there are pieces.
pub fn data_range(words: &Words, from: usize) -> Option<Range>
    requires range { from < 8 }
    requires form { IsTrue (is_tail_of (from + 2) words.now) }
    requires within { from + 2 ≤ length words.now }
    ensures { result ≡ range_of from words.now }
{
    let at = number(words.at(from))?;
    let len = number_in(words.at(from + 1), 1, MOST_DATA)?;
    let tail = line_tail(words, from + 2)?;
    if u64::from(tail.pieces) <= len {
        Some(Range { at, len, tail })
    } else {
        None
    }
}

/// The blocks of a line `read` or `write` and where their data lie.
pub fn read_blocks(words: &Words) -> Option<Blocks>
    requires form { IsTrue (is_tail_of 5 words.now) }
    requires within { 5 ≤ length words.now }
    ensures { result ≡ blocks_of words.now }
{
    let lba = number_in(words.at(2), 0, MOST_LBA)?;
    let blocks = number_in(words.at(3), 1, MOST_BLOCKS)?;
    let at = number(words.at(4))?;
    let tail = line_tail(words, 5)?;
    Some(Blocks {
        lba,
        blocks,
        at,
        tail,
    })
}
