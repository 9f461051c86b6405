// The words of a line, each written behind a space.
ghost use Rattle.std.specs.Prelude.{◌≡◌, ◌++◌, ◌≤◌, IfSome, OnOk, codes, decimal, length};
ghost use Rattle.hex.specs.Hex.{IsBytes, encode_lower};
ghost use Rattle.vio_trace.specs.Form.{IsHalf, IsName};
ghost use Rattle.vio_trace.specs.Text.{name, digits, half_digits, bytes as bytes_word, number_or_none, cause, code};

use vio_num::{Bytes, Hrc, Lapse, NoMemory, UnitId};

/// The bytes of a list that are written at once.
const PIECE: usize = 32;

/// These bytes as they are.
pub fn put(buffer: &mut Vec<u8>, bytes: &[u8]) -> Result<(), NoMemory>
    ensures { OnOk result (buffer.new.items ≡ buffer.old.items ++ bytes.now) }
{
    buffer.extend_from_slice(bytes)?;
    Ok(())
}

/// A decimal number.
pub fn put_number(buffer: &mut Vec<u8>, n: u64) -> Result<(), NoMemory>
    ensures { OnOk result (buffer.new.items ≡ buffer.old.items ++ codes " " ++ decimal n) }
{
    let mut decimal = itoa::Buffer::new();
    buffer.push(b' ')?;
    put(buffer, decimal.format(n).as_bytes())
}

/// A number of 64 bits in sixteen digits.
pub fn put_digits(buffer: &mut Vec<u8>, n: u64) -> Result<(), NoMemory>
    ensures { OnOk result (buffer.new.items ≡ buffer.old.items ++ codes " " ++ digits n) }
{
    buffer.push(b' ')?;
    put_piece(buffer, &n.to_be_bytes())
}

/// A number of 32 bits in eight digits.
pub fn put_half_digits(buffer: &mut Vec<u8>, n: u32) -> Result<(), NoMemory>
    ensures { OnOk result (buffer.new.items ≡ buffer.old.items ++ codes " " ++ half_digits n) }
{
    buffer.push(b' ')?;
    put_piece(buffer, &n.to_be_bytes())
}

/// The code of a call, in decimal.
pub fn put_code(buffer: &mut Vec<u8>, answer: Hrc) -> Result<(), NoMemory>
    ensures { OnOk result (buffer.new.items ≡ buffer.old.items ++ codes " " ++ code answer) }
{
    let mut decimal = itoa::Buffer::new();
    buffer.push(b' ')?;
    put(buffer, decimal.format(answer.code()).as_bytes())
}

/// A unit's name.
pub fn put_name(buffer: &mut Vec<u8>, unit: UnitId) -> Result<(), NoMemory>
    ensures { OnOk result (buffer.new.items ≡ buffer.old.items ++ codes " " ++ name unit) }
{
    let mut decimal = itoa::Buffer::new();
    put_number(buffer, u64::from(unit.partition))?;
    buffer.push(b'.')?;
    put(buffer, decimal.format(unit.unit).as_bytes())
}

/// The words that most lines begin with: the first word, a unit's name and a number.
pub fn put_head(buffer: &mut Vec<u8>, word: &[u8], unit: UnitId, n: u64) -> Result<(), NoMemory>
    ensures { OnOk result (buffer.new.items ≡
        buffer.old.items ++ word.now ++ codes " " ++ name unit ++ codes " " ++ decimal n) }
{
    put(buffer, word)?;
    put_name(buffer, unit)?;
    put_number(buffer, n)
}

/// A number that may be absent.
pub fn put_number_or_none(buffer: &mut Vec<u8>, n: Option<u32>) -> Result<(), NoMemory>
    ensures { OnOk result (buffer.new.items ≡
        buffer.old.items ++ codes " " ++ number_or_none n) }
{
    match n {
        Some(n) => put_number(buffer, u64::from(n)),
        None => put(buffer, b" -"),
    }
}

/// Why a login ended.
pub fn put_cause(buffer: &mut Vec<u8>, why: Lapse) -> Result<(), NoMemory>
    ensures { OnOk result (buffer.new.items ≡ buffer.old.items ++ codes " " ++ cause why) }
{
    match why {
        Lapse::Logout => put(buffer, b" logout"),
        Lapse::Lost => put(buffer, b" lost"),
        Lapse::Early => put(buffer, b" early"),
        Lapse::BadIu => put(buffer, b" badiu"),
        Lapse::NotLogin => put(buffer, b" notlogin"),
        Lapse::OverLimit => put(buffer, b" overlimit"),
        Lapse::Refused => put(buffer, b" refused"),
    }
}

/// A list of bytes.
pub fn put_bytes(buffer: &mut Vec<u8>, list: &Bytes) -> Result<(), NoMemory>
    ensures { OnOk result (buffer.new.items ≡
        buffer.old.items ++ codes " " ++ bytes_word list.now) }
{
    if list.is_empty() {
        return put(buffer, b" -");
    }
    buffer.push(b' ')?;
    put_hex(buffer, list.as_slice())
}

// Writes these bytes in lower-case digits, two a byte.
fn put_hex(buffer: &mut Vec<u8>, bytes: &[u8]) -> Result<(), NoMemory>
    ensures { OnOk result (buffer.new.items ≡ buffer.old.items ++ encode_lower bytes.now) }
{
    for piece in bytes.chunks(PIECE) {
        put_piece(buffer, piece)?;
    }
    Ok(())
}

// Writes at most [`PIECE`] bytes in lower-case digits.
fn put_piece(buffer: &mut Vec<u8>, bytes: &[u8]) -> Result<(), NoMemory>
    requires { length bytes.now ≤ PIECE }
    ensures { OnOk result (buffer.new.items ≡ buffer.old.items ++ encode_lower bytes.now) }
{
    let mut digits = [0; 64];
    let written = &mut digits[..2 * bytes.len()];
    match hex::encode_to_slice(bytes, written) {
        Ok(()) => put(buffer, written),
        Err(_) => unreachable!(),
    }
}
