// The rows that a server writes as it works: what it served, and which logins it granted and ended.
use crate::names::UnitId;
use crate::sequence::Bytes;

/// A request that a server unit served.
#[derive(Debug, Drop)]
pub struct Served {
    /// The server unit.
    pub unit: UnitId,
    /// The session of the unit's queue, from 1.
    pub session: u64,
    /// The login under which the request came, counted from 1 over the unit's life.
    pub login: u64,
    /// The place of the request's entry in its session, from 0.
    pub number: u64,
    /// The information unit, as it was fetched.
    pub iu: Bytes,
    /// The data-out that the command used.
    pub out: Bytes,
    /// The index of the device call that failed, if one did.
    pub fault: Option<u32>,
    /// The answer's information unit; empty where no answer entry was put.
    pub answer: Bytes,
    /// The data-in that was copied to the client.
    pub inn: Bytes,
}

/// Why a login ended.
#[derive(Clone, Copy, Debug, PartialEq, Eq)]
pub enum Lapse {
    /// An I_LOGOUT was served.
    Logout,
    /// A transport event said that the partner is gone.
    Lost,
    /// A command came before the handshake was done.
    Early,
    /// An information unit that cannot be read.
    BadIu,
    /// A request without a login.
    NotLogin,
    /// More requests than credits.
    OverLimit,
    /// A copy that the client's window refused.
    Refused,
}

/// The beginning or the end of a login.
#[derive(Clone, Copy, Debug, PartialEq, Eq)]
pub enum Grant {
    /// A LOGIN_RSP was put.
    Granted {
        unit: UnitId,
        session: u64,
        login: u64,
        /// The place of the LOGIN_REQ's entry in its session, from 0.
        number: u64,
        /// The initial request limit.
        credits: u32,
    },
    /// The login ended; 0 where none was on.
    Lapsed {
        unit: UnitId,
        session: u64,
        login: u64,
        cause: Lapse,
        /// The outstanding requests where the cause is [`Lapse::OverLimit`], else 0.
        outstanding: u32,
        /// The granted credits where the cause is [`Lapse::OverLimit`], else 0.
        granted: u32,
    },
}
