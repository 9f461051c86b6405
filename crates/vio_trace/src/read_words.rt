// The words of a line, read: each reader gives the value that has the word as its text, and refuses
// where none has.
ghost use Rattle.std.specs.Prelude.{◌≡◌, ◌<◌, ◌≤◌, ◌^◌, ℕ, List, IfSome, IfNone, IsTrue, ◌↔◌, decimal, ◌+◌, ◌*◌, ◌&&◌, nat_lt, if◌then◌else◌};
ghost use Rattle.std.specs.Char.{digit_value};
ghost use Rattle.vio_trace.specs.Form.{IsHalf, IsShort, IsWord};
ghost use Rattle.vio_trace.specs.Reading.{Reads, Without, value_on};

use crate::unread::Unread;
use std::alloc::Global;

// Reads a decimal number without leading zeros, at most this one.
fn read_decimal(word: &[u8], most: u64) -> Result<u64, Unread>
    ensures { Reads decimal (λ n. n ≤ most) word.now result }
{
    let Some(n) = value(word) else {
        return Err(Unread::Bad);
    };
    let mut written = itoa::Buffer::new();
    if n <= most && are_same(written.format(n).as_bytes(), word) {
        Ok(n)
    } else {
        Err(Unread::Bad)
    }
}

// The number that the digits write.
fn value(word: &[u8]) -> Option<u64>
    ensures { result ≡ value_on 0 word.now }
{
    let mut n = 0;
    for digit in word {
        n = with_digit(n, *digit)?;
    }
    Some(n)
}

// The number behind one more digit.
fn with_digit(n: u64, digit: u8) -> Option<u64>
    ensures { result ≡ (if nat_lt (digit_value digit) 10
        && nat_lt (n * 10 + digit_value digit) (2 ^ 64)
        then Some (n * 10 + digit_value digit) else None) }
{
    let digit = char::from(digit).to_digit(10)?;
    n.checked_mul(10)?.checked_add(u64::from(digit))
}

/// Whether two texts are the same.
pub fn are_same(a: &[u8], b: &[u8]) -> bool
    ensures { IsTrue result ↔ (a.now ≡ b.now) }
{
    a == b
}

/// A word of a line.
pub trait Word: Sized {
    ghost word: { Self → List ℕ };

    ghost fits: { Self → Type 0 };

    /// The value that has this word.
    fn read(alloc: Global, text: &[u8]) -> Result<Self, Unread>
        ensures value { Reads word fits text.now result }
        ensures plain { (value : Self) → fits value → Without 32 (word value) };
}

impl Word for u64 {
    ghost word = { decimal };

    ghost fits = { IsWord };

    fn read(_: Global, text: &[u8]) -> Result<u64, Unread> {
        let n = read_decimal(text, u64::MAX)?;
        Ok(n)
    }
}

impl Word for u32 {
    ghost word = { decimal };

    ghost fits = { IsHalf };

    fn read(_: Global, text: &[u8]) -> Result<u32, Unread> {
        let n = read_decimal(text, 0xffff_ffff)?;
        Ok(n as u32)
    }
}

impl Word for u16 {
    ghost word = { decimal };

    ghost fits = { IsShort };

    fn read(_: Global, text: &[u8]) -> Result<u16, Unread> {
        let n = read_decimal(text, 0xffff)?;
        Ok(n as u16)
    }
}

impl Word for u8 {
    ghost word = { decimal };

    ghost fits = { λ n. n < 256 };

    fn read(_: Global, text: &[u8]) -> Result<u8, Unread> {
        let n = read_decimal(text, 255)?;
        Ok(n as u8)
    }
}
