// Information units, and why bytes are none.
use crate::command::Cmd;
use crate::login::{LoginRej, LoginReq, LoginRsp};
use crate::response::Rsp;
use crate::task::TskMgmt;

/// The most bytes that a unit has, on either way: what a login grants (SRP, "SRP_LOGIN_RSP response").
pub const MAX_IU_LEN: u32 = 256;

/// The same, as the length of a slice.
pub(crate) const MAX_LEN: usize = 256;

/// The types of units, byte 0 (SRP, "Information unit classes").
pub(crate) const LOGIN_REQ: u8 = 0x00;

pub(crate) const TSK_MGMT: u8 = 0x01;

pub(crate) const CMD: u8 = 0x02;

pub(crate) const I_LOGOUT: u8 = 0x03;

pub(crate) const CRED_RSP: u8 = 0x41;

pub(crate) const T_LOGOUT: u8 = 0x80;

pub(crate) const CRED_REQ: u8 = 0x81;

pub(crate) const LOGIN_RSP: u8 = 0xC0;

pub(crate) const RSP: u8 = 0xC1;

pub(crate) const LOGIN_REJ: u8 = 0xC2;

/// An information unit (SRP, "Information unit classes").
#[derive(Clone, Debug, PartialEq, Eq, Drop)]
pub enum Iu {
    /// Type 0x00.
    LoginReq(LoginReq),
    /// Type 0x01.
    TskMgmt(TskMgmt),
    /// Type 0x02.
    Cmd(Cmd),
    /// Type 0x03: the initiator ends the login.
    ILogout { tag: u64 },
    /// Type 0x41: the initiator's answer to a credit request.
    CredRsp { tag: u64 },
    /// Type 0x80: the target ends the login.
    TLogout { reason: u32, tag: u64 },
    /// Type 0x81: the target changes the request limit.
    CredReq { delta: u32, tag: u64 },
    /// Type 0xC0.
    LoginRsp(LoginRsp),
    /// Type 0xC1.
    Rsp(Rsp),
    /// Type 0xC2.
    LoginRej(LoginRej),
}

/// Why bytes are no information unit.
#[derive(Clone, Copy, Debug, PartialEq, Eq)]
pub enum IuFault {
    /// There are fewer bytes than the unit has: at least `need` are wanted.
    Short { need: u64 },
    /// Byte 0 is the type of no unit.
    UnknownType(u8),
    /// Byte 5 of a command has a buffer format above 2.
    BadFormat(u8),
    /// There are more than 256 bytes.
    Long,
}
