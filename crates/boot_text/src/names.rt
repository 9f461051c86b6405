// The bytes, addresses and names of units that words write.
ghost use Rattle.std.specs.Prelude.{◌≡◌, ◌≤◌, ◌==◌, IfOk, length, map};
ghost use Rattle.std.specs.List.{slice_split};
ghost use Rattle.boot_text.specs.Numbers.{hex as hex_of, mac as mac_of, part as part_of, parts as parts_of, name as name_of, has_colons as are_colons, part_on};

use hex::FromHexError;
use std::alloc::{AllocError, Global};
use vio_num::{Bytes, Mac, NoMemory};

/// The most bytes that one word writes.
pub const MOST_HEX: usize = 256;

/// The unit that a word names. A part above 255 is 255, and names nothing either: there are at most 16 partitions, of
/// at most 8 units.
#[derive(Clone, Copy, Debug, PartialEq, Eq)]
pub struct Name {
    pub partition: u8,
    pub unit: u8,
}

/// The bytes that the word writes in hexadecimal, 1 to `most` of them.
pub fn hex_bytes(alloc: Global, word: &[u8], most: usize) -> Result<Option<Bytes>, NoMemory>
    requires { most ≤ 256 }
    ensures { IfOk result (λ bytes. bytes ≡ hex_of most word.now) }
{
    if word.is_empty() || word.len() > 2 * most {
        return Ok(None);
    }
    match hex::decode(alloc, word) {
        Ok(bytes) => Ok(Some(Bytes::from(bytes))),
        Err(FromHexError::OutOfMemory) => Err(NoMemory),
        Err(_) => Ok(None),
    }
}

/// The address that the word writes: six pairs of hexadecimal digits, joined by colons.
#[tactic(auto, unfolding(crate::specs::Numbers::mac))]
pub fn mac(word: &[u8]) -> Option<Mac>
    ensures { result ≡ mac_of word.now }
{
    if word.len() != 17 || !has_colons(word) {
        return None;
    }
    let digits = [
        word[0], word[1], word[3], word[4], word[6], word[7], word[9], word[10], word[12],
        word[13], word[15], word[16],
    ];
    let mut bytes = [0; 6];
    match hex::decode_to_slice(digits.as_slice(), &mut bytes) {
        Ok(()) => Some(Mac { bytes }),
        Err(_) => None,
    }
}

// Whether colons part six pairs.
fn has_colons(word: &[u8]) -> bool
    requires { length word.now ≡ 17 }
    ensures { result ≡ are_colons word.now }
{
    word[2] == b':' && word[5] == b':' && word[8] == b':' && word[11] == b':' && word[14] == b':'
}

/// The unit that the word names: its partition's number and its own in it, joined by a dot.
pub fn unit_name(alloc: Global, word: &[u8]) -> Result<Option<Name>, NoMemory>
    ensures { IfOk result (λ name. name ≡ name_of word.now) }
{
    let pieces = pieces(alloc, word)?;
    Ok(name_of_parts(pieces.as_slice()))
}

// The pieces of the word between dots.
fn pieces(alloc: Global, word: &[u8]) -> Result<Vec<&[u8]>, AllocError>
    ensures { IfOk result (λ pieces.
        map (λ piece. piece.now) pieces.items ≡ slice_split (λ b. b == 46) word.now) }
{
    word.split(|b| *b == b'.').collect(alloc)
}

// The name of two parts.
fn name_of_parts(parts: &[&[u8]]) -> Option<Name>
    ensures { result ≡ parts_of (map (λ part. part.now) parts.now) }
{
    match parts {
        [partition, unit] => {
            let partition = name_part(partition)?;
            let unit = name_part(unit)?;
            Some(Name { partition, unit })
        }
        _ => None,
    }
}

// The number that 1 to 20 decimal digits write, or 255 for any above.
fn name_part(word: &[u8]) -> Option<u8>
    ensures { result ≡ part_of word.now }
{
    if word.is_empty() || word.len() > 20 {
        return None;
    }
    let mut n = 0;
    for digit in word {
        let digit = char::from(*digit).to_digit(10)?;
        n = 255.min(n * 10 + digit);
    }
    Some(n as u8)
}
