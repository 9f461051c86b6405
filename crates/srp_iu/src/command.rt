// Commands: the information unit that carries a SCSI command descriptor block.
ghost use Rattle.std.specs.Prelude.{◌≡◌, ◌≤◌, ◌<◌, ◌/◌, ◌%◌, ◌||◌, length, nat_lt, slice_index};
ghost use Rattle.srp_iu.specs.Command.{SpellsCmd, CanonCmd, FitsCmd, cmd_len, in_at, in_format, more_len, out_format};

use crate::buffer::{Buffer, buffer_len};
use crate::layout::{list_of, part_at, put, rest_at, sixteen_at};
use crate::unit::CMD;
use arrayvec::ArrayVec;
use byteorder::{BigEndian, ByteOrder};

/// The length of the part that each command has, in bytes.
pub(crate) const FIXED_LEN: usize = 48;

/// A command (SRP, "SRP_CMD request").
#[derive(Clone, Debug, PartialEq, Eq, Drop)]
pub struct Cmd {
    /// The tag that its response carries.
    pub tag: u64,
    /// The logical unit number, bytes 20 to 27.
    pub lun: u64,
    /// The task attribute, the low three bits of byte 29.
    pub attribute: u8,
    /// The command descriptor block, bytes 32 to 47.
    pub cdb: [u8; 16],
    /// The additional bytes of the command descriptor block, from byte 48; a multiple of 4.
    pub more: ArrayVec<u8, 208>,
    /// The data that go to the device.
    pub out: Buffer,
    /// The data that come from the device.
    pub inn: Buffer,
}

/// Whether a command's byte 5 has a buffer format above 2.
pub(crate) fn has_bad_format(formats: u8) -> bool
    ensures { result ≡ (nat_lt 2 (formats / 16) || nat_lt 2 (formats % 16)) }
{
    formats / 16 > 2 || formats % 16 > 2
}

// Reads the number of additional CDB bytes: byte 31 without its two low bits.
fn more_len(bytes: &[u8]) -> usize
    requires { 48 ≤ length bytes.now }
    ensures value { result ≡ more_len bytes.now }
    ensures small { result < 256 }
{
    usize::from(bytes[31] / 4 * 4)
}

// Finds the place of the data-in buffer, behind the data-out buffer.
fn in_at(bytes: &[u8]) -> usize
    requires { 48 ≤ length bytes.now }
    ensures value { result ≡ in_at bytes.now }
    ensures small { result < 8496 }
{
    FIXED_LEN + more_len(bytes) + buffer_len(bytes[5] / 16, bytes[6])
}

/// The length of a command in bytes.
pub(crate) fn cmd_len(bytes: &[u8]) -> usize
    requires { 48 ≤ length bytes.now }
    ensures { result ≡ cmd_len bytes.now }
{
    in_at(bytes) + buffer_len(bytes[5] % 16, bytes[7])
}

impl Cmd {
    /// The command that these bytes are.
    pub(crate) fn read(bytes: &[u8]) -> Self
        requires kind { slice_index bytes.now 0 ≡ 0x02 }
        requires fixed { 48 ≤ length bytes.now }
        requires out_format { out_format bytes.now < 3 }
        requires in_format { in_format bytes.now < 3 }
        requires full { cmd_len bytes.now ≤ length bytes.now }
        requires within { length bytes.now ≤ 256 }
        ensures { SpellsCmd bytes.now result }
    {
        let more_len = more_len(bytes);
        Cmd {
            tag: BigEndian::read_u64(&bytes[8..]),
            lun: BigEndian::read_u64(&bytes[20..]),
            attribute: bytes[29] % 8,
            cdb: sixteen_at(bytes, 32),
            more: list_of(part_at(bytes, FIXED_LEN, more_len)),
            out: Buffer::read(
                rest_at(bytes, FIXED_LEN + more_len),
                bytes[5] / 16,
                bytes[6],
            ),
            inn: Buffer::read(rest_at(bytes, in_at(bytes)), bytes[5] % 16, bytes[7]),
        }
    }

    /// The canonical bytes of a command.
    pub(crate) fn write(&self) -> ArrayVec<u8, 256>
        requires { FitsCmd self.now }
        ensures { CanonCmd result.items self.now }
    {
        let formats = 16 * self.out.format() + self.inn.format();
        let out_count = self.out.count();
        let in_count = self.inn.count();
        let mut out = ArrayVec::new();
        put(&mut out, &[CMD, 0, 0, 0, 0, formats, out_count, in_count]);
        put(&mut out, &self.tag.to_be_bytes());
        put(&mut out, &[0; 4]);
        put(&mut out, &self.lun.to_be_bytes());
        put(&mut out, &[0, self.attribute, 0, self.more.len() as u8]);
        put(&mut out, &self.cdb);
        put(&mut out, &self.more);
        self.out.append_to(&mut out);
        self.inn.append_to(&mut out);
        out
    }
}
