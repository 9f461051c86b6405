// Responses: the answer to a command or to a task management request.
ghost use Rattle.std.specs.Prelude.{◌≡◌, ◌≤◌, ◌+◌, length, slice_index};
ghost use Rattle.srp_iu.specs.Response.{SpellsRsp, CanonRsp, FitsRsp, response_len, sense_len};

use crate::layout::{list_of, part_at, put};
use crate::unit::RSP;
use arrayvec::ArrayVec;
use byteorder::{BigEndian, ByteOrder};

/// The length of the part that each response has, in bytes.
pub(crate) const FIXED_LEN: usize = 36;
/// The flag of a response that has response data (SRP, "SRP_RSP response", byte 18).
pub const RSPVALID: u8 = 0x01;
/// The flag of a response that has sense data.
pub const SNSVALID: u8 = 0x02;
/// The flag of a data-out residual of data that were lacking.
pub const DOOVER: u8 = 0x04;
/// The flag of a data-out residual of data that were left over.
pub const DOUNDER: u8 = 0x08;
/// The flag of a data-in residual of data for which there was no room.
pub const DIOVER: u8 = 0x10;
/// The flag of a data-in residual of data that were not there.
pub const DIUNDER: u8 = 0x20;

/// A response (SRP, "SRP_RSP response"). A list whose flag is off is empty.
#[derive(Clone, Debug, PartialEq, Eq, Drop)]
pub struct Rsp {
    /// The request limit delta: the credits that it gives back.
    pub delta: u32,
    /// The tag of the request that it answers.
    pub tag: u64,
    /// Byte 18: [`RSPVALID`], [`SNSVALID`], and the flags of the residuals.
    pub flags: u8,
    /// The SCSI status.
    pub status: u8,
    /// The bytes of data-out that were left over, or that were lacking.
    pub out_residual: u32,
    /// The bytes of data-in that were left over, or that were lacking.
    pub in_residual: u32,
    /// The response data, which stand before the sense data.
    pub response: ArrayVec<u8, 220>,
    /// The sense data.
    pub sense: ArrayVec<u8, 220>,
}

// Reads the length of the response data in bytes.
fn response_len(bytes: &[u8]) -> u32
    requires { 36 ≤ length bytes.now }
    ensures { result ≡ response_len bytes.now }
{
    if bytes[18] & RSPVALID == 0 {
        0
    } else {
        BigEndian::read_u32(&bytes[32..])
    }
}

// Reads the length of the sense data in bytes.
fn sense_len(bytes: &[u8]) -> u32
    requires { 36 ≤ length bytes.now }
    ensures { result ≡ sense_len bytes.now }
{
    if bytes[18] & SNSVALID == 0 {
        0
    } else {
        BigEndian::read_u32(&bytes[28..])
    }
}

/// The length of a response in bytes.
pub(crate) fn rsp_len(bytes: &[u8]) -> usize
    requires { 36 ≤ length bytes.now }
    ensures { result ≡ 36 + response_len bytes.now + sense_len bytes.now }
{
    FIXED_LEN + response_len(bytes) as usize + sense_len(bytes) as usize
}

impl Rsp {
    /// The response that these bytes are.
    pub(crate) fn read(bytes: &[u8]) -> Self
        requires kind { slice_index bytes.now 0 ≡ 0xC1 }
        requires fixed { 36 ≤ length bytes.now }
        requires full { 36 + response_len bytes.now + sense_len bytes.now ≤ length bytes.now }
        requires within { length bytes.now ≤ 256 }
        ensures { SpellsRsp bytes.now result }
    {
        let response_len = response_len(bytes) as usize;
        let sense_len = sense_len(bytes) as usize;
        Rsp {
            delta: BigEndian::read_u32(&bytes[4..]),
            tag: BigEndian::read_u64(&bytes[8..]),
            flags: bytes[18],
            status: bytes[19],
            out_residual: BigEndian::read_u32(&bytes[20..]),
            in_residual: BigEndian::read_u32(&bytes[24..]),
            response: list_of(part_at(bytes, FIXED_LEN, response_len)),
            sense: list_of(part_at(bytes, FIXED_LEN + response_len, sense_len)),
        }
    }

    /// The canonical bytes of a response.
    pub(crate) fn write(&self) -> ArrayVec<u8, 256>
        requires { FitsRsp self.now }
        ensures { CanonRsp result.items self.now }
    {
        let mut out = ArrayVec::new();
        put(&mut out, &[RSP, 0, 0, 0]);
        put(&mut out, &self.delta.to_be_bytes());
        put(&mut out, &self.tag.to_be_bytes());
        put(&mut out, &[0, 0, self.flags, self.status]);
        put(&mut out, &self.out_residual.to_be_bytes());
        put(&mut out, &self.in_residual.to_be_bytes());
        put(&mut out, &(self.sense.len() as u32).to_be_bytes());
        put(&mut out, &(self.response.len() as u32).to_be_bytes());
        put(&mut out, &self.response);
        put(&mut out, &self.sense);
        out
    }
}
