// Memory descriptors, and the data buffers of a command that they name.
ghost use Rattle.std.specs.Prelude.{◌≡◌, ◌≤◌, ◌<◌, ◌*◌, ◌+◌, ◌++◌, ℕ, List, length};
ghost use Rattle.std.specs.List.{flat_map};
ghost use Rattle.arrayvec.specs.ArrayVec.{array_vec_len};
ghost use Rattle.srp_iu.specs.Buffer.{SpellsBuffer, buffer_bytes, buffer_len, count_of, desc_bytes, desc_of, descs_of, format_of, written_len};

use crate::layout::{put, rest_at};
use arrayvec::ArrayVec;
use byteorder::{BigEndian, ByteOrder};

/// The bytes of a descriptor.
const DESC_LEN: usize = 16;
/// The bytes of an indirect buffer before its list.
const TABLE_LEN: usize = 20;

/// A memory descriptor (SRP, "Direct data buffer descriptor"): where a run of data lies.
#[derive(Clone, Copy, Debug, Default, PartialEq, Eq)]
pub struct Desc {
    /// The I/O address of the first byte.
    pub address: u64,
    /// The memory handle.
    pub key: u32,
    /// The length in bytes.
    pub len: u32,
}

/// A data buffer of a command (SRP, "Data buffer descriptor formats").
#[derive(Clone, Debug, PartialEq, Eq, Drop)]
pub enum Buffer {
    /// Format 0: no data in this direction.
    Absent,
    /// Format 1: one run of data.
    Direct(Desc),
    /// Format 2: a table of descriptors.
    Indirect {
        /// Where the table lies.
        table: Desc,
        /// The length of all data in bytes.
        total: u32,
        /// The front of the table that stands in the unit itself.
        list: ArrayVec<Desc, 11>,
    },
}

impl Desc {
    /// The descriptor that the first sixteen bytes are.
    pub fn read(bytes: &[u8]) -> Self
        requires { 16 ≤ length bytes.now }
        ensures { result ≡ desc_of bytes.now }
    {
        Desc {
            address: BigEndian::read_u64(bytes),
            key: BigEndian::read_u32(&bytes[8..]),
            len: BigEndian::read_u32(&bytes[12..]),
        }
    }

    /// Gives the sixteen bytes of the descriptor, as it stands in a buffer or in an indirect table
    /// (SRP, memory descriptor).
    pub fn to_bytes(self) -> [u8; 16]
        ensures bytes { result ≡ desc_bytes self }
        ensures reads_back { (rest : List ℕ) → desc_of (desc_bytes self ++ rest) ≡ self }
    {
        let mut bytes = [0; DESC_LEN];
        BigEndian::write_u64(&mut bytes, self.address);
        BigEndian::write_u32(&mut bytes[8..], self.key);
        BigEndian::write_u32(&mut bytes[12..], self.len);
        bytes
    }
}

impl Buffer {
    /// The buffer that the first bytes are.
    pub(crate) fn read(bytes: &[u8], format: u8, count: u8) -> Self
        requires known { format < 3 }
        requires full { buffer_len format count ≤ length bytes.now }
        requires within { length bytes.now ≤ 208 }
        ensures { SpellsBuffer format count bytes.now result }
    {
        match format {
            0 => Buffer::Absent,
            1 => Buffer::Direct(Desc::read(bytes)),
            _ => Buffer::Indirect {
                table: Desc::read(bytes),
                total: BigEndian::read_u32(&bytes[DESC_LEN..]),
                list: read_descs(rest_at(bytes, TABLE_LEN), count),
            },
        }
    }

    /// Adds the bytes of the buffer at the end.
    pub(crate) fn append_to(&self, out: &mut ArrayVec<u8, 256>)
        requires { array_vec_len out.old + written_len self.now ≤ 256 }
        ensures bytes { out.new.items ≡ out.old.items ++ buffer_bytes self.now }
        ensures len { array_vec_len out.new ≡ array_vec_len out.old + written_len self.now }
        ensures reads_back { (rest : List ℕ) →
            SpellsBuffer (format_of self.now) (count_of self.now) (buffer_bytes self.now ++ rest) self.now }
    {
        match self {
            Buffer::Absent => {}
            Buffer::Direct(desc) => put_desc(out, desc),
            Buffer::Indirect { table, total, list } => {
                put_desc(out, table);
                put(out, &total.to_be_bytes());
                put_descs(out, list);
            }
        }
    }

    /// The number of the format, half a byte.
    pub(crate) fn format(&self) -> u8
        ensures { result ≡ format_of self.now }
    {
        match self {
            Buffer::Absent => 0,
            Buffer::Direct(_) => 1,
            Buffer::Indirect { .. } => 2,
        }
    }

    /// The number of descriptors in an indirect buffer's list, else 0.
    pub(crate) fn count(&self) -> u8
        ensures { result ≡ count_of self.now }
    {
        match self {
            Buffer::Absent => 0,
            Buffer::Direct(_) => 0,
            Buffer::Indirect { list, .. } => list.len() as u8,
        }
    }
}

/// The bytes that a buffer of this format takes. The count is that of an indirect buffer's list.
pub(crate) fn buffer_len(format: u8, count: u8) -> usize
    ensures value { result ≡ buffer_len format count }
    ensures small { result < 8192 }
{
    match format {
        0 => 0,
        1 => DESC_LEN,
        _ => TABLE_LEN + DESC_LEN * usize::from(count),
    }
}

// Reads the descriptors that stand one behind the other.
fn read_descs(bytes: &[u8], count: u8) -> ArrayVec<Desc, 11>
    requires full { 16 * count ≤ length bytes.now }
    requires few { count ≤ 11 }
    ensures { result.items ≡ descs_of count bytes.now }
{
    let mut list = ArrayVec::new();
    for n in 0..usize::from(count) {
        list.push(Desc::read(rest_at(bytes, DESC_LEN * n)));
    }
    list
}

// Adds a descriptor at the end.
fn put_desc(out: &mut ArrayVec<u8, 256>, desc: &Desc)
    requires { array_vec_len out.old + 16 ≤ 256 }
    ensures bytes { out.new.items ≡ out.old.items ++ desc_bytes desc.now }
    ensures len { array_vec_len out.new ≡ array_vec_len out.old + 16 }
    ensures reads_back { (rest : List ℕ) → desc_of (desc_bytes desc.now ++ rest) ≡ desc.now }
{
    put(out, &desc.to_bytes());
}

// Adds descriptors at the end, one behind the other.
fn put_descs(out: &mut ArrayVec<u8, 256>, list: &[Desc])
    requires { array_vec_len out.old + 16 * length list.now ≤ 256 }
    ensures bytes { out.new.items ≡ out.old.items ++ flat_map desc_bytes list.now }
    ensures len { array_vec_len out.new ≡ array_vec_len out.old + 16 * length list.now }
    ensures reads_back { (rest : List ℕ) →
        descs_of (length list.now) (flat_map desc_bytes list.now ++ rest) ≡ list.now }
{
    for desc in list {
        put_desc(out, desc);
    }
}
