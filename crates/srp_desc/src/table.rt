// The pieces that the bytes of a table name.
ghost use Rattle.std.specs.Prelude.{◌≡◌, ◌≤◌, ◌+◌, ◌%◌, IfOk, IfErr, drop, length};
ghost use Rattle.srp_desc.specs.declared.pieces.TheConstants.{MAX_TABLE_LEN};
ghost use Rattle.srp_iu.specs.Buffer.{desc_of};
ghost use Rattle.srp_desc.specs.Pieces.{descs_in, named, refused, sum_of, summing_to};

use crate::pieces::{DESC_LEN, DescFault};
use crate::sums::check_sum;
use arrayvec::ArrayVec;
use srp_iu::Desc;

/// The pieces that the bytes of a fetched table name, whose lengths are to sum to the total, in bytes.
/// They are refused where they do not. Keys are not looked at.
pub fn read_table(bytes: &[u8], total: u32) -> Result<ArrayVec<Desc, 256>, DescFault>
    requires some { 16 ≤ length bytes.now }
    requires few { length bytes.now ≤ MAX_TABLE_LEN }
    requires evenly { length bytes.now % 16 ≡ 0 }
    ensures ok { IfOk result (λ list. summing_to total (descs_in bytes.now) ≡ named list.items) }
    ensures items { IfOk result (λ list. list.items ≡ descs_in bytes.now) }
    ensures sum { IfOk result (λ list. sum_of list.items ≡ total) }
    ensures err { IfErr result (λ fault. summing_to total (descs_in bytes.now) ≡ refused fault) }
{
    let mut list = ArrayVec::new();
    for n in 0..bytes.len() / DESC_LEN {
        list.push(desc_at(bytes, DESC_LEN * n));
    }
    check_sum(&list, total)?;
    Ok(list)
}

// Reads the descriptor that stands at a place.
fn desc_at(bytes: &[u8], place: usize) -> Desc
    requires { place + 16 ≤ length bytes.now }
    ensures { result ≡ desc_of (drop place bytes.now) }
{
    Desc::read(&bytes[place..])
}
