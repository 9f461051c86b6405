// The words that are no plain decimal: digits of fixed length, names, bytes, and the words of enums.
ghost use Rattle.std.specs.Prelude.{◌≡◌, ◌↔◌, ◌≤◌, ◌/◌, IfErr, IfOk, IfSome, IsTrue, OnErr, OnOk, codes, length};
ghost use Rattle.hex.specs.Hex.{IsBytes, decode_sized, encode_lower};
ghost use Rattle.vio_trace.specs.Form.{AreShown, IsHalf, IsName, IsWord};
ghost use Rattle.vio_trace.specs.Reading.{DecodesToNone, Reads, Undecoded, Without};
ghost use Rattle.vio_trace.specs.Text.{name, digits, half_digits, bytes as bytes_word, number_or_none, cause, code, offered as offered_word, filled as filled_word};

use crate::fields::split_at_byte;
use crate::lan_rows::{Filled, Offered};
use crate::outcome::Shown;
use crate::read_words::{Word, are_same};
use crate::unread::Unread;
use std::alloc::Global;
use vio_num::{Bytes, Hrc, Lapse, NoMemory, UnitId};

/// A number of 64 bits in sixteen digits.
#[derive(Clone, Copy, Debug, PartialEq, Eq)]
pub struct Digits {
    pub value: u64,
}

impl Word for Digits {
    ghost word = { λ number. digits number.value };

    ghost fits = { λ number. IsWord number.value };

    fn read(_: Global, text: &[u8]) -> Result<Digits, Unread> {
        read_number(text)
    }
}

// Reads a number in sixteen digits.
fn read_number(text: &[u8]) -> Result<Digits, Unread>
    ensures { Reads (λ word. digits word.value) (λ word. IsWord word.value) text.now result }
{
    let value = read_digits(text)?;
    Ok(Digits { value })
}

// Reads a number of 64 bits in sixteen digits.
fn read_digits(text: &[u8]) -> Result<u64, Unread>
    ensures { Reads digits IsWord text.now result }
{
    let mut bytes = [0; 8];
    match hex::decode_to_slice(text, &mut bytes) {
        Ok(()) => {}
        Err(_) => return Err(Unread::Bad),
    }
    let value = u64::from_be_bytes(bytes);
    if are_digits(value, text) {
        Ok(value)
    } else {
        Err(Unread::Bad)
    }
}

// Whether the word is the number in sixteen digits.
fn are_digits(value: u64, text: &[u8]) -> bool
    ensures { IsTrue result ↔ (digits value ≡ text.now) }
{
    let mut written = [0; 16];
    match hex::encode_to_slice(&value.to_be_bytes(), &mut written) {
        Ok(()) => are_same(&written, text),
        Err(_) => unreachable!(),
    }
}

/// A number of 32 bits in eight digits.
#[derive(Clone, Copy, Debug, PartialEq, Eq)]
pub struct HalfDigits {
    pub value: u32,
}

impl Word for HalfDigits {
    ghost word = { λ number. half_digits number.value };

    ghost fits = { λ number. IsHalf number.value };

    fn read(_: Global, text: &[u8]) -> Result<HalfDigits, Unread> {
        read_half_number(text)
    }
}

// Reads a number in eight digits.
fn read_half_number(text: &[u8]) -> Result<HalfDigits, Unread>
    ensures { Reads (λ half. half_digits half.value) (λ half. IsHalf half.value) text.now result }
{
    let mut bytes = [0; 4];
    match hex::decode_to_slice(text, &mut bytes) {
        Ok(()) => {}
        Err(_) => return Err(Unread::Bad),
    }
    let value = u32::from_be_bytes(bytes);
    if are_half_digits(value, text) {
        Ok(HalfDigits { value })
    } else {
        Err(Unread::Bad)
    }
}

// Whether the word is the number in eight digits.
fn are_half_digits(value: u32, text: &[u8]) -> bool
    ensures { IsTrue result ↔ (half_digits value ≡ text.now) }
{
    let mut written = [0; 8];
    match hex::encode_to_slice(&value.to_be_bytes(), &mut written) {
        Ok(()) => are_same(&written, text),
        Err(_) => unreachable!(),
    }
}

impl Word for UnitId {
    ghost word = { name };

    ghost fits = { IsName };

    fn read(alloc: Global, text: &[u8]) -> Result<UnitId, Unread> {
        read_name(alloc, text)
    }
}

// Reads a unit's name.
fn read_name(alloc: Global, text: &[u8]) -> Result<UnitId, Unread>
    ensures { Reads name IsName text.now result }
{
    let Some((partition, unit)) = split_at_byte(text, b'.') else {
        return Err(Unread::Bad);
    };
    let partition = u8::read(alloc, partition)?;
    let unit = u8::read(alloc, unit)?;
    Ok(UnitId { partition, unit })
}

impl Word for Bytes {
    ghost word = { bytes_word };

    ghost fits = { IsBytes };

    fn read(alloc: Global, text: &[u8]) -> Result<Bytes, Unread> {
        read_list(alloc, text)
    }
}

// Reads bytes.
fn read_list(alloc: Global, text: &[u8]) -> Result<Bytes, Unread>
    ensures { Reads bytes_word IsBytes text.now result }
{
    if are_same(text, b"-") {
        return Ok(Bytes::new(alloc));
    }
    read_some(alloc, text)
}

// Reads bytes that are some.
fn read_some(alloc: Global, text: &[u8]) -> Result<Bytes, Unread>
    requires { ¬ (text.now ≡ codes "-") }
    ensures { Reads bytes_word IsBytes text.now result }
{
    if are_same(text, b"") {
        return Err(Unread::Bad);
    }
    let bytes = decode(alloc, text)?;
    if are_digits_of(alloc, bytes.as_slice(), text)? {
        Ok(Bytes::from(bytes))
    } else {
        Err(Unread::Bad)
    }
}

// Reads bytes of which each has two digits, in lower or upper case.
fn decode(alloc: Global, text: &[u8]) -> Result<Vec<u8>, Unread>
    ensures ok { IfOk result (λ xs. decode_sized text.now (length text.now / 2) ≡ Ok xs.items) }
    ensures err { IfErr result (Undecoded text.now) }
{
    let mut bytes = zeros(alloc, text.len() / 2)?;
    match decode_to(text, bytes.as_mut_slice()) {
        Ok(()) => Ok(bytes),
        Err(unread) => Err(unread),
    }
}

// Makes a list of zeros.
fn zeros(alloc: Global, len: usize) -> Result<Vec<u8>, NoMemory>
    ensures { IfOk result (λ bytes. length bytes.items ≡ len) }
{
    Ok(vec![in alloc; 0; len]?)
}

// Reads as many bytes as there is room for.
fn decode_to(text: &[u8], bytes: &mut [u8]) -> Result<(), Unread>
    ensures ok { OnOk result (decode_sized text.now (length bytes.old) ≡ Ok bytes.new) }
    ensures err { OnErr result (DecodesToNone text.now (length bytes.old)) }
{
    match hex::decode_to_slice(text, bytes) {
        Ok(()) => Ok(()),
        Err(_) => Err(Unread::Bad),
    }
}

// Whether the text is the bytes in lower-case digits.
fn are_digits_of(alloc: Global, bytes: &[u8], text: &[u8]) -> Result<bool, NoMemory>
    ensures same { IfOk result (λ is. IsTrue is ↔ (encode_lower bytes.now ≡ text.now)) }
    ensures range { IsBytes bytes.now }
{
    let written = hex::encode(alloc, bytes)?;
    Ok(are_same(written.as_bytes(), text))
}

impl Word for Option<u32> {
    ghost word = { number_or_none };

    ghost fits = { λ n. IfSome n IsHalf };

    fn read(alloc: Global, text: &[u8]) -> Result<Option<u32>, Unread> {
        read_optional(alloc, text)
    }
}

// Reads a number that may be absent.
fn read_optional(alloc: Global, text: &[u8]) -> Result<Option<u32>, Unread>
    ensures { Reads number_or_none (λ n. IfSome n IsHalf) text.now result }
{
    if are_same(text, b"-") {
        return Ok(None);
    }
    let n = u32::read(alloc, text)?;
    Ok(Some(n))
}

impl Word for Lapse {
    ghost word = { cause };

    ghost fits = { λ why. Unit {0} };

    fn read(_: Global, text: &[u8]) -> Result<Lapse, Unread> {
        if are_same(text, b"logout") {
            Ok(Lapse::Logout)
        } else if are_same(text, b"lost") {
            Ok(Lapse::Lost)
        } else if are_same(text, b"early") {
            Ok(Lapse::Early)
        } else if are_same(text, b"badiu") {
            Ok(Lapse::BadIu)
        } else if are_same(text, b"notlogin") {
            Ok(Lapse::NotLogin)
        } else if are_same(text, b"overlimit") {
            Ok(Lapse::OverLimit)
        } else if are_same(text, b"refused") {
            Ok(Lapse::Refused)
        } else {
            Err(Unread::Bad)
        }
    }
}

impl Word for Offered {
    ghost word = { offered_word };

    ghost fits = { λ offered. Unit {0} };

    fn read(_: Global, text: &[u8]) -> Result<Offered, Unread> {
        if are_same(text, b"done") {
            Ok(Offered::Done)
        } else if are_same(text, b"ungranted") {
            Ok(Offered::Ungranted)
        } else if are_same(text, b"nosize") {
            Ok(Offered::NoSize)
        } else if are_same(text, b"nobuffer") {
            Ok(Offered::NoBuffer)
        } else if are_same(text, b"turn") {
            Ok(Offered::Turn)
        } else if are_same(text, b"inuse") {
            Ok(Offered::InUse)
        } else if are_same(text, b"closed") {
            Ok(Offered::Closed)
        } else {
            Err(Unread::Bad)
        }
    }
}

impl Word for Filled {
    ghost word = { filled_word };

    ghost fits = { λ filled. Unit {0} };

    fn read(_: Global, text: &[u8]) -> Result<Filled, Unread> {
        if are_same(text, b"frame") {
            Ok(Filled::Frame)
        } else if are_same(text, b"blank") {
            Ok(Filled::Blank)
        } else {
            Err(Unread::Bad)
        }
    }
}

impl Word for Hrc {
    ghost word = { code };

    ghost fits = { λ answer. Unit {0} };

    fn read(_: Global, text: &[u8]) -> Result<Hrc, Unread> {
        read_code(text)
    }
}

// Reads the code of a call.
fn read_code(text: &[u8]) -> Result<Hrc, Unread>
    ensures { Reads code (λ answer. Unit {0}) text.now result }
{
    if is_code(Hrc::Success, text) {
        Ok(Hrc::Success)
    } else if is_code(Hrc::Busy, text) {
        Ok(Hrc::Busy)
    } else if is_code(Hrc::Closed, text) {
        Ok(Hrc::Closed)
    } else if is_code(Hrc::Function, text) {
        Ok(Hrc::Function)
    } else if is_code(Hrc::Parameter, text) {
        Ok(Hrc::Parameter)
    } else if is_code(Hrc::NotFound, text) {
        Ok(Hrc::NotFound)
    } else if is_code(Hrc::Dropped, text) {
        Ok(Hrc::Dropped)
    } else if is_code(Hrc::SourceParm, text) {
        Ok(Hrc::SourceParm)
    } else if is_code(Hrc::DestParm, text) {
        Ok(Hrc::DestParm)
    } else if is_code(Hrc::Resource, text) {
        Ok(Hrc::Resource)
    } else {
        Err(Unread::Bad)
    }
}

// Whether the word is the code in decimal.
fn is_code(answer: Hrc, text: &[u8]) -> bool
    ensures { IsTrue result ↔ (code answer ≡ text.now) }
{
    let mut written = itoa::Buffer::new();
    are_same(written.format(answer.code()).as_bytes(), text)
}

/// The word `frame`.
#[derive(Clone, Copy)]
pub struct FrameWord;

/// The word `code`.
#[derive(Clone, Copy)]
pub struct CodeWord;

/// The word `lost`.
#[derive(Clone, Copy)]
pub struct LostWord;

impl Word for FrameWord {
    ghost word = { λ one. codes "frame" };

    ghost fits = { λ one. Unit {0} };

    fn read(_: Global, text: &[u8]) -> Result<FrameWord, Unread> {
        if are_same(text, b"frame") {
            Ok(FrameWord)
        } else {
            Err(Unread::Bad)
        }
    }
}

impl Word for CodeWord {
    ghost word = { λ one. codes "code" };

    ghost fits = { λ one. Unit {0} };

    fn read(_: Global, text: &[u8]) -> Result<CodeWord, Unread> {
        if are_same(text, b"code") {
            Ok(CodeWord)
        } else {
            Err(Unread::Bad)
        }
    }
}

impl Word for LostWord {
    ghost word = { λ one. codes "lost" };

    ghost fits = { λ one. Unit {0} };

    fn read(_: Global, text: &[u8]) -> Result<LostWord, Unread> {
        if are_same(text, b"lost") {
            Ok(LostWord)
        } else {
            Err(Unread::Bad)
        }
    }
}

impl Word for Shown {
    ghost word = { bytes_word };

    ghost fits = { AreShown };

    fn read(alloc: Global, text: &[u8]) -> Result<Shown, Unread> {
        read_shown(alloc, text)
    }
}

// Reads bytes, 1 to 256.
fn read_shown(alloc: Global, text: &[u8]) -> Result<Shown, Unread>
    ensures { Reads bytes_word AreShown text.now result }
{
    let bytes = read_list(alloc, text)?;
    if is_shown(bytes.len()) {
        Ok(Shown::new(bytes))
    } else {
        Err(Unread::Bad)
    }
}

// Whether a line may show as many bytes.
fn is_shown(len: usize) -> bool
    ensures { IsTrue result ↔ ((1 ≤ len) × (len ≤ 256)) }
{
    1 <= len && len <= 256
}
