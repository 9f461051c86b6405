// A line as its words, one behind the other, read from the front.
ghost use Rattle.std.specs.Prelude.{◌≡◌, ◌++◌, ◌∷◌, ◌<◌, ◌≤◌, ℕ, List, [], length, take, codes, slice_index, IfNone, IfSome};
ghost use Rattle.vio_trace.specs.Reading.{Reads, Without};

use crate::read_words::Word;
use crate::unread::Unread;
use std::alloc::Global;

/// The last words of a line, with its end.
pub trait Fields: Sized {
    ghost line: { Self → List ℕ };

    ghost fits: { Self → Type 0 };

    /// The value that has this text.
    fn read(alloc: Global, text: &[u8]) -> Result<Self, Unread>
        ensures { Reads line fits text.now result };
}

/// A word, and those behind it.
#[derive(Drop)]
pub struct Then<A, B> {
    pub word: A,
    pub rest: B,
}

/// The last word.
#[derive(Drop)]
pub struct Last<A> {
    pub word: A,
}

impl<A: Word + Drop, B: Fields> Fields for Then<A, B> {
    ghost line = { λ fields. A.word fields.word ++ codes " " ++ B.line fields.rest };

    ghost fits = { λ fields. A.fits fields.word × B.fits fields.rest };

    fn read(alloc: Global, text: &[u8]) -> Result<Then<A, B>, Unread> {
        let Some((word, rest)) = split_at_byte(text, b' ') else {
            return Err(Unread::Bad);
        };
        let word = A::read(alloc, word)?;
        let rest = B::read(alloc, rest)?;
        Ok(Then { word, rest })
    }
}

impl<A: Word> Fields for Last<A> {
    ghost line = { λ fields. A.word fields.word ++ codes "\n" };

    ghost fits = { λ fields. A.fits fields.word };

    fn read(alloc: Global, text: &[u8]) -> Result<Last<A>, Unread> {
        let [word @ .., b'\n'] = text else {
            return Err(Unread::Bad);
        };
        let word = A::read(alloc, word)?;
        Ok(Last { word })
    }
}

/// The text up to a byte, and behind it; None where the byte stands nowhere.
pub fn split_at_byte(text: &[u8], byte: u8) -> Option<(&[u8], &[u8])>
    ensures absent { IfNone result (Without byte text.now) }
    ensures front { IfSome result (λ parts. Without byte parts.0.now) }
    ensures whole { IfSome result (λ parts. text.now ≡ parts.0.now ++ byte ∷ parts.1.now) }
{
    let at = place_of(text, byte);
    if at == text.len() {
        return None;
    }
    let (front, back) = text.split_at(at);
    Some((front, &back[1..]))
}

/// The place of a byte, or the length of the text where it stands nowhere.
pub fn place_of(text: &[u8], byte: u8) -> usize
    ensures front { Without byte (take result text.now) }
    ensures bound { result ≤ length text.now }
    ensures here { result < length text.now → slice_index text.now result ≡ byte }
{
    let mut at = 0;
    while at < text.len() && text[at] != byte {
        at += 1;
    }
    at
}
