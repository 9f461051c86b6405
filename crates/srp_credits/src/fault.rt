// Why a call on credits is refused.

/// Why a request or an answer does not fit the credits. A refusal changes nothing.
#[derive(Clone, Copy, Debug, PartialEq, Eq)]
pub enum CreditFault {
    /// The initiator may send nothing: its request limit is this, in requests.
    NoCredit {
        limit: u32,
    },
    /// No login is on.
    NotLoggedIn,
    /// No request with this tag is outstanding.
    StrayTag(u64),
    /// The target would have more requests outstanding than it granted.
    OverLimit {
        /// The requests that would be outstanding.
        outstanding: u32,
        /// The requests that were granted.
        granted: u32,
    },
}
