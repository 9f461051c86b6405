// What a buffer names by itself, before its table is fetched.
ghost use Rattle.std.specs.Prelude.{◌≡◌, ◌≤◌, ◌==◌, ◌||◌, ◌%◌, ℕ, [], List, None, Some, IfOk, OnOk, IfErr, length, nat_lt};
ghost use Rattle.srp_iu.specs.declared.buffer.Buffer.TheVariants.{Direct, Indirect};
ghost use Rattle.srp_desc.specs.Pieces.{IsGiven, given_in, pieces, refusal, refused, tables_in, total_of};
ghost use Rattle.srp_desc.specs.Tables.{tables_of};

use crate::sums::check_sum;
use arrayvec::ArrayVec;
use srp_iu::{Buffer, Desc};
use std::slice;

/// The bytes of a descriptor.
pub(crate) const DESC_LEN: usize = 16;
/// The bytes of the longest table, which has 256 descriptors.
pub const MAX_TABLE_LEN: usize = 4096;
/// The bytes of data that a buffer names at most.
pub const MAX_DATA_LEN: u32 = 131_072;

/// Why the descriptors of a buffer are refused.
#[derive(Clone, Copy, Debug, PartialEq, Eq)]
pub enum DescFault {
    /// The table's length is 0, no multiple of 16 bytes or above 4,096 bytes, or is that of fewer
    /// descriptors than the buffer's own list has.
    Count,
    /// The pieces are not as many bytes in all as the buffer says.
    Total {
        /// The buffer's total length in bytes.
        said: u32,
        /// The sum of the pieces' lengths in bytes.
        summed: u64,
    },
    /// The buffer names more than 131,072 bytes of data.
    Large {
        /// The buffer's total length in bytes, or the length of its one piece.
        total: u32,
    },
}

/// What a buffer names by itself.
#[derive(Clone, Copy, Debug, PartialEq, Eq)]
pub enum Pieces<'a> {
    /// All pieces, in order, lent by the buffer.
    Whole(&'a [Desc]),
    /// The table has to be fetched: the buffer has only the front of it.
    Fetch {
        /// Where the table lies, and its length in bytes: a multiple of 16 from 16 to 4,096.
        table: Desc,
        /// The length in bytes that the pieces are to have in all, at most 131,072.
        total: u32,
    },
}

/// The pieces of data that a buffer names, or the table that tells them. Keys are not looked at.
///
/// A buffer is refused for the first of these reasons: the length of its table; a total length, or
/// the length of a direct descriptor, above 131,072 bytes; a list that is the whole table and whose
/// pieces are not as long in all as the buffer says.
pub fn pieces_of(buffer: &Buffer) -> Result<Pieces<'_>, DescFault>
    ensures ok { IfOk result (λ given. IsGiven buffer.now given) }
    ensures tables { IfOk result (λ given. tables_in given ≡ tables_of buffer.now) }
    ensures few { IfOk result (λ given. length (given_in given) ≤ 11) }
    ensures unrefused { OnOk result (refusal buffer.now ≡ None) }
    ensures small { OnOk result (total_of buffer.now ≤ MAX_DATA_LEN) }
    ensures refusal { IfErr result (λ fault. refusal buffer.now ≡ Some fault) }
    ensures err { IfErr result (λ fault. (bytes : List ℕ) →
        pieces buffer.now bytes ≡ refused fault) }
{
    match buffer {
        Buffer::Absent => Ok(Pieces::Whole(&[])),
        Buffer::Direct(desc) => direct(desc),
        Buffer::Indirect { table, total, list } => indirect(table, *total, list),
    }
}

// Gives what a direct buffer names.
fn direct(desc: &Desc) -> Result<Pieces<'_>, DescFault>
    ensures ok { IfOk result (λ given. IsGiven (Direct desc.now) given) }
    ensures tables { IfOk result (λ given. tables_in given ≡ []) }
    ensures few { IfOk result (λ given. length (given_in given) ≤ 11) }
    ensures unrefused { OnOk result (refusal (Direct desc.now) ≡ None) }
    ensures small { OnOk result (desc.now.len ≤ MAX_DATA_LEN) }
    ensures refusal { IfErr result (λ fault. refusal (Direct desc.now) ≡ Some fault) }
    ensures err { IfErr result (λ fault. (bytes : List ℕ) →
        pieces (Direct desc.now) bytes ≡ refused fault) }
{
    if desc.len > MAX_DATA_LEN {
        return Err(DescFault::Large { total: desc.len });
    }
    Ok(Pieces::Whole(slice::from_ref(desc)))
}

// Gives what an indirect buffer names.
fn indirect<'a>(
    table: &Desc,
    total: u32,
    list: &'a ArrayVec<Desc, 11>,
) -> Result<Pieces<'a>, DescFault>
    ensures ok { IfOk result (λ given. IsGiven (Indirect table.now total list.now) given) }
    ensures tables { IfOk result (λ given.
        tables_in given ≡ tables_of (Indirect table.now total list.now)) }
    ensures few { IfOk result (λ given. length (given_in given) ≤ 11) }
    ensures unrefused { OnOk result (refusal (Indirect table.now total list.now) ≡ None) }
    ensures small { OnOk result (total ≤ MAX_DATA_LEN) }
    ensures refusal { IfErr result (λ fault.
        refusal (Indirect table.now total list.now) ≡ Some fault) }
    ensures err { IfErr result (λ fault.
        (bytes : List ℕ) → pieces (Indirect table.now total list.now) bytes ≡ refused fault) }
{
    let table_len = table.len as usize;
    let listed = DESC_LEN * list.len();
    if is_count_bad(table_len, listed) {
        return Err(DescFault::Count);
    }
    if total > MAX_DATA_LEN {
        return Err(DescFault::Large { total });
    }
    if listed < table_len {
        return Ok(Pieces::Fetch {
            table: *table,
            total,
        });
    }
    check_sum(list, total)?;
    Ok(Pieces::Whole(list))
}

// Tests whether a table of this length in bytes has not 1 to 256 descriptors, or fewer than are listed.
fn is_count_bad(table_len: usize, listed: usize) -> bool
    ensures { result ≡ ((table_len == 0) || nat_lt MAX_TABLE_LEN table_len ||
        nat_lt 0 (table_len % 16) || nat_lt table_len listed) }
{
    table_len == 0 || table_len > MAX_TABLE_LEN || table_len % DESC_LEN != 0 || table_len < listed
}
