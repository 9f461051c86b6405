// The sum of descriptors' lengths.
ghost use Rattle.std.specs.Prelude.{◌≡◌, ◌≤◌, OnOk, IfErr, length};
ghost use Rattle.srp_desc.specs.Pieces.{named, refused, sum_of, summing_to};

use crate::pieces::DescFault;
use srp_iu::Desc;

// The bytes of these pieces in all.
fn summed(list: &[Desc]) -> u64
    requires { length list.now ≤ 256 }
    ensures { result ≡ sum_of list.now }
{
    let mut sum: u64 = 0;
    for desc in list {
        sum += u64::from(desc.len);
    }
    sum
}

/// Refuses pieces that are not so many bytes in all.
pub(crate) fn check_sum(list: &[Desc], total: u32) -> Result<(), DescFault>
    requires few { length list.now ≤ 256 }
    ensures ok { OnOk result (summing_to total list.now ≡ named list.now) }
    ensures sum { OnOk result (sum_of list.now ≡ total) }
    ensures err { IfErr result (λ fault. summing_to total list.now ≡ refused fault) }
{
    let summed = summed(list);
    if summed == u64::from(total) {
        Ok(())
    } else {
        Err(DescFault::Total {
            said: total,
            summed,
        })
    }
}
