// A source read to its end, or to the first byte past the longest boot text.
ghost use Rattle.std.specs.Prelude.{◌≡◌, ℕ, ◌+◌, ◌<◌, ◌≤◌, List, length, take, vec_len, IfOk, OnOk, IsErrOf};
ghost use Rattle.std.specs.Io.KnownBytes.{Consumes, IsAtEnd};
ghost use Rattle.paprvio.specs.Written.{Fills, ReadBehind};
ghost use Rattle.vio_num.specs.Counts.{Rose};

use boot_text::MOST_TEXT;
use std::alloc::{AllocError, Global};
use vio_io::Source;

/// The bytes of the first buffer, which most boot texts fit.
const PAGE: usize = 4096;

/// Why a source was not read to its end.
#[derive(Clone, Copy, Debug, PartialEq, Eq)]
pub enum ReadFault {
    /// The source failed.
    Failed,
    /// One byte more than the longest boot text was read.
    TooLong,
    /// No memory was found for the bytes.
    NoMemory,
}

/// Reads all that the source has left, at most one byte more than the longest boot text.
pub fn read_all<S: Source>(alloc: Global, source: &mut S) -> Result<Vec<u8>, ReadFault>
    ensures all { IfOk result (λ got. Consumes (S.left source.old) (S.left source.new) got.items) }
    ensures end { OnOk result (IsAtEnd (S.left source.new)) }
    ensures short { IfOk result (λ bytes. length bytes.items ≤ MOST_TEXT) }
    ensures long { IsErrOf result ReadFault.TooLong → (bytes : List ℕ)
        × Consumes (S.left source.old) (S.left source.new) bytes × (length bytes ≡ MOST_TEXT + 1) }
    ensures failed { IsErrOf result ReadFault.Failed
        → Rose (S.faults source.old) (S.faults source.new) }
    ensures same { ¬ IsErrOf result ReadFault.Failed → S.faults source.new ≡ S.faults source.old }
{
    let mut bytes = Vec::new(alloc);
    while bytes.len() <= MOST_TEXT {
        let filled = bytes.len();
        if grow(&mut bytes).is_err() {
            return Err(ReadFault::NoMemory);
        }
        match fill_behind(source, &mut bytes, filled) {
            Ok(len) => {
                bytes.truncate(len);
                return Ok(bytes);
            }
            Err(ReadFault::TooLong) => {}
            Err(fault) => return Err(fault),
        }
    }
    Err(ReadFault::TooLong)
}

// Room for as many bytes more as there are, a page at least and the longest text and one byte at most.
fn grow(bytes: &mut Vec<u8>) -> Result<(), AllocError>
    requires { vec_len bytes.old ≤ MOST_TEXT }
    ensures kept { OnOk result (take (vec_len bytes.old) bytes.new.items ≡ bytes.old.items) }
    ensures more { OnOk result (vec_len bytes.old < vec_len bytes.new) }
    ensures most { OnOk result (vec_len bytes.new ≤ MOST_TEXT + 1) }
{
    let len = bytes.len();
    bytes.resize((2 * len).max(PAGE).min(MOST_TEXT + 1), 0)
}

// Reads on behind what the buffer holds already, and answers how long the whole is; `TooLong` where it
// fills the buffer.
fn fill_behind<S: Source>(
    source: &mut S,
    buffer: &mut [u8],
    filled: usize,
) -> Result<usize, ReadFault>
    requires { filled ≤ length buffer.old }
    ensures within { IfOk result (λ len. len < length buffer.new) }
    ensures all { IfOk result (λ len. ReadBehind (S.left source.old) (S.left source.new)
        (take filled buffer.old) (take len buffer.new)) }
    ensures end { OnOk result (IsAtEnd (S.left source.new)) }
    ensures long { IsErrOf result ReadFault.TooLong
        → ReadBehind (S.left source.old) (S.left source.new) (take filled buffer.old) buffer.new }
    ensures failed { IsErrOf result ReadFault.Failed
        → Rose (S.faults source.old) (S.faults source.new) }
    ensures same { ¬ IsErrOf result ReadFault.Failed → S.faults source.new ≡ S.faults source.old }
    ensures memory { ¬ IsErrOf result ReadFault.NoMemory }
{
    let n = fill(source, &mut buffer[filled..])?;
    Ok(filled + n)
}

// Reads to the end of the source, and answers how many bytes there were; `TooLong` where they fill the
// buffer.
fn fill<S: Source>(source: &mut S, buffer: &mut [u8]) -> Result<usize, ReadFault>
    ensures within { IfOk result (λ n. n < length buffer.new) }
    ensures all { IfOk result (Fills (S.left source.old) (S.left source.new) buffer.new) }
    ensures end { OnOk result (IsAtEnd (S.left source.new)) }
    ensures long { IsErrOf result ReadFault.TooLong
        → Consumes (S.left source.old) (S.left source.new) buffer.new }
    ensures failed { IsErrOf result ReadFault.Failed
        → Rose (S.faults source.old) (S.faults source.new) }
    ensures same { ¬ IsErrOf result ReadFault.Failed → S.faults source.new ≡ S.faults source.old }
    ensures memory { ¬ IsErrOf result ReadFault.NoMemory }
{
    let mut filled = 0;
    while filled < buffer.len() {
        let Ok(n) = source.read(&mut buffer[filled..]) else {
            return Err(ReadFault::Failed);
        };
        if n == 0 {
            return Ok(filled);
        }
        filled += n;
    }
    Err(ReadFault::TooLong)
}
