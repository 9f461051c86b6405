// Logins: the request, and the two answers to it.
ghost use Rattle.std.specs.Prelude.{◌≡◌, ◌↔◌, ◌≤◌, ◌<◌, None, Some, bit_and, length, slice_index};
ghost use Rattle.srp_iu.specs.Login.{SpellsLoginReq, CanonLoginReq, SpellsLoginRsp, CanonLoginRsp, SpellsLoginRej, CanonLoginRej};

use crate::layout::{put, sixteen_at};
use crate::unit::{LOGIN_REJ, LOGIN_REQ, LOGIN_RSP, MAX_IU_LEN};
use arrayvec::ArrayVec;
use byteorder::{BigEndian, ByteOrder};

/// The reason of a rejection: no channel can be established, for no reason that is specified; a login is on
/// (SRP, "SRP_LOGIN_REJ response", reason codes).
pub const UNABLE_TO_ESTABLISH_CHANNEL: u32 = 0x0001_0000;
/// The reason of a rejection: the requested unit length is above [`MAX_IU_LEN`].
pub const LENGTH_TOO_LARGE: u32 = 0x0001_0002;
/// The reason of a rejection: the required buffer formats have neither direct nor indirect.
pub const FORMATS_UNSUPPORTED: u32 = 0x0001_0004;
/// The reason of a rejection: more channels than one are asked for.
pub const MULTICHANNEL_UNSUPPORTED: u32 = 0x0001_0005;

/// The buffer format of direct descriptors, as a bit of a login's formats (SRP, "SRP_LOGIN_REQ request").
pub const DIRECT_FORMAT: u16 = 0x0002;
/// The buffer format of indirect descriptors, as a bit of a login's formats.
pub const INDIRECT_FORMAT: u16 = 0x0004;
/// The buffer formats that are supported: direct and indirect.
pub const BUFFER_FORMATS: u16 = 0x0006;

/// The bits of byte 26 that ask for more channels than one.
const MULTICHANNEL: u8 = 0x03;

/// A login request (SRP, "SRP_LOGIN_REQ request"), 64 bytes.
#[derive(Clone, Copy, Debug, PartialEq, Eq)]
pub struct LoginReq {
    /// The tag that pairs a request with its answer.
    pub tag: u64,
    /// The requested length in bytes of the longest unit that the initiator sends.
    pub iu_len: u32,
    /// The required buffer formats: 0x2 direct, 0x4 indirect.
    pub formats: u16,
    /// Byte 26: what the request asks of multichannel operation and of notification.
    pub flags: u8,
    /// The initiator port identifier.
    pub initiator: [u8; 16],
    /// The target port identifier.
    pub target: [u8; 16],
}

/// The answer that grants a login (SRP, "SRP_LOGIN_RSP response"), 52 bytes.
#[derive(Clone, Copy, Debug, PartialEq, Eq)]
pub struct LoginRsp {
    /// The request limit delta: the credits that it grants.
    pub delta: u32,
    /// The tag that pairs a request with its answer.
    pub tag: u64,
    /// The length in bytes of the longest unit that the initiator may send.
    pub max_in: u32,
    /// The length in bytes of the longest unit that the target sends.
    pub max_out: u32,
    /// The supported buffer formats: 0x2 direct, 0x4 indirect.
    pub formats: u16,
    /// Byte 26: how multichannel operation and notification are answered.
    pub flags: u8,
}

/// The answer that rejects a login (SRP, "SRP_LOGIN_REJ response"), 32 bytes.
#[derive(Clone, Copy, Debug, PartialEq, Eq)]
pub struct LoginRej {
    /// The reason code.
    pub reason: u32,
    /// The tag that pairs a request with its answer.
    pub tag: u64,
    /// The supported buffer formats: 0x2 direct, 0x4 indirect.
    pub formats: u16,
}

/// Why a login is not granted: the reason for its rejection, or none.
pub fn login_fault(request: &LoginReq) -> Option<u32>
    ensures length { (result ≡ Some LENGTH_TOO_LARGE) ↔ (MAX_IU_LEN < request.now.iu_len) }
    ensures channels { (result ≡ Some MULTICHANNEL_UNSUPPORTED) ↔
        ((request.now.iu_len ≤ MAX_IU_LEN) × (0 < bit_and request.now.flags MULTICHANNEL)) }
    ensures formats { (result ≡ Some FORMATS_UNSUPPORTED) ↔
        ((request.now.iu_len ≤ MAX_IU_LEN) × (bit_and request.now.flags MULTICHANNEL ≡ 0) ×
        (bit_and request.now.formats BUFFER_FORMATS ≡ 0)) }
    ensures granted { (result ≡ None) ↔
        ((request.now.iu_len ≤ MAX_IU_LEN) × (bit_and request.now.flags MULTICHANNEL ≡ 0) ×
        (0 < bit_and request.now.formats BUFFER_FORMATS)) }
{
    if request.iu_len > MAX_IU_LEN {
        return Some(LENGTH_TOO_LARGE);
    }
    if request.flags & MULTICHANNEL != 0 {
        return Some(MULTICHANNEL_UNSUPPORTED);
    }
    if request.formats & BUFFER_FORMATS == 0 {
        return Some(FORMATS_UNSUPPORTED);
    }
    None
}

impl LoginReq {
    /// The request that these bytes are.
    pub(crate) fn read(bytes: &[u8]) -> Self
        requires kind { slice_index bytes.now 0 ≡ 0x00 }
        requires full { 64 ≤ length bytes.now }
        ensures { SpellsLoginReq bytes.now result }
    {
        LoginReq {
            tag: BigEndian::read_u64(&bytes[8..]),
            iu_len: BigEndian::read_u32(&bytes[16..]),
            formats: BigEndian::read_u16(&bytes[24..]),
            flags: bytes[26],
            initiator: sixteen_at(bytes, 32),
            target: sixteen_at(bytes, 48),
        }
    }

    /// The canonical bytes of a request.
    pub(crate) fn write(&self) -> ArrayVec<u8, 256>
        ensures { CanonLoginReq result.items self.now }
    {
        let mut out = ArrayVec::new();
        put(&mut out, &[LOGIN_REQ, 0, 0, 0, 0, 0, 0, 0]);
        put(&mut out, &self.tag.to_be_bytes());
        put(&mut out, &self.iu_len.to_be_bytes());
        put(&mut out, &[0; 4]);
        put(&mut out, &self.formats.to_be_bytes());
        put(&mut out, &[self.flags, 0, 0, 0, 0, 0]);
        put(&mut out, &self.initiator);
        put(&mut out, &self.target);
        out
    }
}

impl LoginRsp {
    /// The response that these bytes are.
    pub(crate) fn read(bytes: &[u8]) -> Self
        requires kind { slice_index bytes.now 0 ≡ 0xC0 }
        requires full { 52 ≤ length bytes.now }
        ensures { SpellsLoginRsp bytes.now result }
    {
        LoginRsp {
            delta: BigEndian::read_u32(&bytes[4..]),
            tag: BigEndian::read_u64(&bytes[8..]),
            max_in: BigEndian::read_u32(&bytes[16..]),
            max_out: BigEndian::read_u32(&bytes[20..]),
            formats: BigEndian::read_u16(&bytes[24..]),
            flags: bytes[26],
        }
    }

    /// The canonical bytes of a response.
    pub(crate) fn write(&self) -> ArrayVec<u8, 256>
        ensures { CanonLoginRsp result.items self.now }
    {
        let mut out = ArrayVec::new();
        put(&mut out, &[LOGIN_RSP, 0, 0, 0]);
        put(&mut out, &self.delta.to_be_bytes());
        put(&mut out, &self.tag.to_be_bytes());
        put(&mut out, &self.max_in.to_be_bytes());
        put(&mut out, &self.max_out.to_be_bytes());
        put(&mut out, &self.formats.to_be_bytes());
        put(&mut out, &[self.flags]);
        put(&mut out, &[0; 25]);
        out
    }
}

impl LoginRej {
    /// The rejection that these bytes are.
    pub(crate) fn read(bytes: &[u8]) -> Self
        requires kind { slice_index bytes.now 0 ≡ 0xC2 }
        requires full { 32 ≤ length bytes.now }
        ensures { SpellsLoginRej bytes.now result }
    {
        LoginRej {
            reason: BigEndian::read_u32(&bytes[4..]),
            tag: BigEndian::read_u64(&bytes[8..]),
            formats: BigEndian::read_u16(&bytes[24..]),
        }
    }

    /// The canonical bytes of a rejection.
    pub(crate) fn write(&self) -> ArrayVec<u8, 256>
        ensures { CanonLoginRej result.items self.now }
    {
        let mut out = ArrayVec::new();
        put(&mut out, &[LOGIN_REJ, 0, 0, 0]);
        put(&mut out, &self.reason.to_be_bytes());
        put(&mut out, &self.tag.to_be_bytes());
        put(&mut out, &[0; 8]);
        put(&mut out, &self.formats.to_be_bytes());
        put(&mut out, &[0; 6]);
        out
    }
}
