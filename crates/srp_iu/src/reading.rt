// Reading: bytes are refused for the first reason that stands, or are the unit that they spell.
ghost use Rattle.std.specs.Prelude.{◌≡◌, ◌↔◌, ◌≤◌, ◌<◌, ℕ, None, Some, IfSome, IfOk, OnOk, IfErr, MatchOption, length, slice_index};
ghost use Rattle.srp_iu.specs.Grammar.{Spells};
ghost use Rattle.srp_iu.specs.Layout.{field};
ghost use Rattle.srp_iu.specs.Refusal.{fault_of, fixed_len, full_len};

use crate::command::{self, Cmd, cmd_len, has_bad_format};
use crate::login::{LoginRej, LoginReq, LoginRsp};
use crate::response::{self, Rsp, rsp_len};
use crate::task::TskMgmt;
use crate::unit::{
    CMD, CRED_REQ, CRED_RSP, I_LOGOUT, Iu, IuFault, LOGIN_REJ, LOGIN_REQ, LOGIN_RSP, MAX_LEN, RSP,
    T_LOGOUT, TSK_MGMT,
};
use byteorder::{BigEndian, ByteOrder};

/// The unit that these bytes are. Reserved bytes and bytes behind the unit are not looked at.
///
/// Bytes that are no unit are refused for the first of these reasons: there are more than 256, or
/// none; byte 0 is no type; the unit's fixed part is not there; a command has a buffer format above
/// 2; the unit is longer than the bytes.
pub fn read_iu(bytes: &[u8]) -> Result<Iu, IuFault>
    ensures ok { IfOk result (λ iu. Spells bytes.now iu) }
    ensures no_fault { OnOk result (fault_of bytes.now ≡ None) }
    ensures err { IfErr result (λ fault. fault_of bytes.now ≡ Some fault) }
{
    match find_fault(bytes) {
        Some(fault) => Err(fault),
        None => Ok(read_whole(bytes)),
    }
}

// Says why these bytes are no unit.
fn find_fault(bytes: &[u8]) -> Option<IuFault>
    ensures { result ≡ fault_of bytes.now }
{
    if bytes.len() > MAX_LEN {
        return Some(IuFault::Long);
    }
    if bytes.is_empty() {
        return Some(IuFault::Short { need: 1 });
    }
    let Some(fixed) = fixed_len(bytes[0]) else {
        return Some(IuFault::UnknownType(bytes[0]));
    };
    if bytes.len() < fixed {
        return Some(IuFault::Short { need: fixed as u64 });
    }
    if bytes[0] == CMD && has_bad_format(bytes[5]) {
        return Some(IuFault::BadFormat(bytes[5]));
    }
    let full = full_len(bytes, fixed);
    if bytes.len() < full {
        return Some(IuFault::Short { need: full as u64 });
    }
    None
}

// Tells the length of the part that each unit of a type has; none where there is no such type.
fn fixed_len(kind: u8) -> Option<usize>
    ensures { MatchOption result (fixed_len kind ≡ 0) (λ len. (len ≡ fixed_len kind) × (0 < len)) }
{
    match kind {
        LOGIN_REQ => Some(64),
        TSK_MGMT => Some(48),
        CMD => Some(command::FIXED_LEN),
        I_LOGOUT => Some(16),
        CRED_RSP => Some(16),
        T_LOGOUT => Some(16),
        CRED_REQ => Some(16),
        LOGIN_RSP => Some(52),
        RSP => Some(response::FIXED_LEN),
        LOGIN_REJ => Some(32),
        _ => None,
    }
}

// Tells the length of the whole unit, whose fixed part is there.
fn full_len(bytes: &[u8], fixed: usize) -> usize
    requires known { fixed ≡ fixed_len (slice_index bytes.now 0) }
    requires some { 0 < fixed }
    requires there { fixed ≤ length bytes.now }
    ensures { result ≡ full_len bytes.now }
{
    match bytes[0] {
        CMD => cmd_len(bytes),
        RSP => rsp_len(bytes),
        _ => fixed,
    }
}

/// The tag that these bytes have in bytes 8 to 15, also where they are no unit; none of fewer than 16 bytes.
pub fn tag_of(bytes: &[u8]) -> Option<u64>
    ensures none { (result ≡ None) ↔ (length bytes.now < 16) }
    ensures tag { IfSome result (λ tag. tag ≡ field 8 8 bytes.now) }
{
    if bytes.len() < 16 {
        return None;
    }
    Some(tag_at_8(bytes))
}

// Reads the tag of a unit.
fn tag_at_8(bytes: &[u8]) -> u64
    requires { 16 ≤ length bytes.now }
    ensures { result ≡ field 8 8 bytes.now }
{
    BigEndian::read_u64(&bytes[8..])
}

// Reads the unit that these bytes are.
fn read_whole(bytes: &[u8]) -> Iu
    requires { fault_of bytes.now ≡ None }
    ensures { Spells bytes.now result }
{
    match bytes[0] {
        LOGIN_REQ => Iu::LoginReq(LoginReq::read(bytes)),
        TSK_MGMT => Iu::TskMgmt(TskMgmt::read(bytes)),
        CMD => Iu::Cmd(Cmd::read(bytes)),
        I_LOGOUT => Iu::ILogout {
            tag: tag_at_8(bytes),
        },
        CRED_RSP => Iu::CredRsp {
            tag: tag_at_8(bytes),
        },
        T_LOGOUT => Iu::TLogout {
            reason: BigEndian::read_u32(&bytes[4..]),
            tag: tag_at_8(bytes),
        },
        CRED_REQ => Iu::CredReq {
            delta: BigEndian::read_u32(&bytes[4..]),
            tag: tag_at_8(bytes),
        },
        LOGIN_RSP => Iu::LoginRsp(LoginRsp::read(bytes)),
        RSP => Iu::Rsp(Rsp::read(bytes)),
        LOGIN_REJ => Iu::LoginRej(LoginRej::read(bytes)),
        _ => unreachable!(),
    }
}
