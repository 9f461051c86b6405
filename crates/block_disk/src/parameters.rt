// The data of commands that move no block: INQUIRY, READ CAPACITY, REPORT LUNS.
ghost use Rattle.std.specs.Prelude.{◌≡◌, ◌≤◌, min, length, take};
ghost use Rattle.block_disk.specs.Disk.{good, inquiry_data, capacity10_data, capacity16_data, luns_data};

use crate::command::is_disk_unit;
use crate::reply::ScsiReply;
use byteorder::{BigEndian, ByteOrder};

// Standard INQUIRY data (SPC, "Standard INQUIRY data").
#[tactic(auto, unfolding(crate::specs::Disk::inquiry_data))]
pub(crate) fn inquiry_data(lun: u64) -> [u8; 36]
    ensures { result ≡ inquiry_data lun }
{
    let mut data = *b"\x00\x00\x04\x02\x1F\x00\x00\x00PAPRVIO VIRTUAL DISK    0001";
    if !is_disk_unit(lun) {
        data[0] = 0x7F;
    }
    data
}

// READ CAPACITY(10) data of an image of `count` blocks.
#[tactic(auto, unfolding(crate::specs::Disk::capacity10_data))]
pub(crate) fn capacity10_data(count: u64) -> [u8; 8]
    ensures { result ≡ capacity10_data count }
{
    let last = count.saturating_sub(1).min(0xFFFF_FFFF) as u32;
    let mut data = [0; 8];
    BigEndian::write_u32(&mut data, last);
    BigEndian::write_u32(&mut data[4..], 512);
    data
}

// READ CAPACITY(16) data of an image of `count` blocks.
#[tactic(auto, unfolding(crate::specs::Disk::capacity16_data))]
pub(crate) fn capacity16_data(count: u64) -> [u8; 32]
    ensures { result ≡ capacity16_data count }
{
    let mut data = [0; 32];
    BigEndian::write_u64(&mut data, count.saturating_sub(1));
    BigEndian::write_u32(&mut data[8..], 512);
    data
}

// REPORT LUNS data.
#[tactic(auto, unfolding(crate::specs::Disk::luns_data))]
pub(crate) fn luns_data() -> [u8; 16]
    ensures { result ≡ luns_data }
{
    [0, 0, 0, 8, 0, 0, 0, 0, 0, 0, 0, 0, 0, 0, 0, 0]
}

// Gives these bytes, cut at the command's maximum.
pub(crate) fn give(bytes: &[u8], max: u32, data_in: &mut [u8; 131072]) -> ScsiReply
    requires { length bytes.now ≤ 36 }
    ensures reply { result ≡ good (min max (length bytes.now)) 0 }
    ensures room { result.in_len ≤ 36 }
    ensures given { take result.in_len data_in.new ≡ take result.in_len bytes.now }
{
    let n = bytes.len().min(max as usize);
    data_in[..n].copy_from_slice(&bytes[..n]);
    ScsiReply::good(n as u32, 0)
}
