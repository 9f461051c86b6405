// The numbers that words write.
ghost use Rattle.std.specs.Prelude.{IfSome, ◌≡◌, ◌≤◌, ◌+◌, ◌*◌, ◌&&◌, ◌^◌, nat_lt, if◌then◌else◌};
ghost use Rattle.std.specs.Char.{digit_value};
ghost use Rattle.boot_text.specs.Numbers.{digits as digits_of, digits_on, number as number_of, number_in as number_between, is_hexadecimal as starts_as_hexadecimal};

use crate::words::is_text;

/// The number that the word writes: 1 to 20 decimal digits, or `0x` and 1 to 16 hexadecimal ones.
pub fn number(word: &[u8]) -> Option<u64>
    ensures { result ≡ number_of word.now }
{
    if is_hexadecimal(word) {
        digits(&word[2..], 16, 16)
    } else {
        digits(word, 10, 20)
    }
}

/// The number that the word writes, if it lies in the range.
pub fn number_in(word: &[u8], low: u64, high: u64) -> Option<u64>
    ensures value { result ≡ number_between low high word.now }
    ensures low { IfSome result (λ n. low ≤ n) }
    ensures high { IfSome result (λ n. n ≤ high) }
{
    let n = number(word)?;
    if low <= n && n <= high { Some(n) } else { None }
}

// Whether the word begins with `0x`.
fn is_hexadecimal(word: &[u8]) -> bool
    ensures { result ≡ starts_as_hexadecimal word.now }
{
    word.len() >= 2 && is_text(&word[..2], b"0x")
}

// The number that 1 to `most` digits write.
fn digits(word: &[u8], base: u32, most: usize) -> Option<u64>
    requires low { 2 ≤ base }
    requires high { base ≤ 36 }
    ensures { result ≡ digits_of base most word.now }
{
    if word.is_empty() || word.len() > most {
        return None;
    }
    let mut n = 0;
    for digit in word {
        n = with_digit(n, *digit, base)?;
    }
    Some(n)
}

// The number behind one more digit.
fn with_digit(n: u64, digit: u8, base: u32) -> Option<u64>
    requires low { 2 ≤ base }
    requires high { base ≤ 36 }
    ensures { result ≡ (if nat_lt (digit_value digit) base
        && nat_lt (n * base + digit_value digit) (2 ^ 64)
        then Some (n * base + digit_value digit) else None) }
{
    let digit = char::from(digit).to_digit(base)?;
    n.checked_mul(u64::from(base))?
        .checked_add(u64::from(digit))
}
