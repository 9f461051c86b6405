// What the calls of a client answer.
use srp_iu::Rsp;
use std::alloc::AllocError;
use vio_num::NoMemory;

/// Why a command, a task or a logout was not sent. Its tag and its credit are not used.
#[derive(Clone, Copy, Debug, PartialEq, Eq)]
pub enum Refused {
    /// The data or the table lies below page 13 or past the region.
    Range,
    /// No login is on.
    NotLoggedIn,
    /// As many requests are outstanding as the login grants, of which 200 count: none more may be sent.
    NoCredit { limit: u32 },
    /// A page of the data or the table is one of this outstanding command's. Of a logout: this request is
    /// outstanding.
    Overlap { tag: u64 },
    /// A page of the region is in use, by this word of it. A table that was written already is not written again.
    InUse { page: u16, word: u64 },
    /// The partner's queue is not registered: `control` is its control word. Or the own queue is not, and it is 0.
    Closed { control: u64 },
    /// The entry found the slot of this number full, with this high half in it.
    Dropped { number: u64, held: u64 },
    NoMemory,
}

/// What came of one turn of a login.
#[derive(Clone, Copy, Debug, PartialEq, Eq)]
pub enum LoginTurn {
    /// The login is still under way: it takes another turn.
    Again,
    /// The server grants so many requests (SRP, REQUEST LIMIT DELTA of SRP_LOGIN_RSP).
    Granted(u32),
    /// The server rejects the login, for this reason (SRP, SRP_LOGIN_REJ).
    Rejected(u32),
    /// An event came: the partner is gone.
    Lost,
    /// The own queue is not registered, since its kept event found the slot of this number full.
    Busy { number: u64, held: u64 },
}

/// What was taken.
#[derive(Debug, PartialEq, Eq, Drop)]
pub enum Taken {
    /// The response to the request with this tag, which is outstanding no more.
    Answer { tag: u64, rsp: Rsp },
    /// An SRP entry of a tag that is not outstanding, or in whose slot no response of that tag lies.
    Stray(u64),
    /// An event: the partner is gone, and with it the login and all that was outstanding.
    Lost,
    /// An entry of the handshake, or of another kind or format.
    Other,
    /// The page of the response is in use, by this word of it. The entry is kept.
    Again { page: u16, word: u64 },
    /// There is no entry: the next one has this number, 0 where the own queue is not registered.
    Empty { number: u64 },
}

/// Why the data of a command are not given.
#[derive(Clone, Copy, Debug, PartialEq, Eq)]
pub enum DataFault {
    /// No response of that tag to a command with data-in was taken.
    Unknown,
    /// On this page the last strokes are not the server's of that tag, or do not cover the data.
    Stale { page: u16 },
    /// This page is in use, by this word of it.
    InUse { page: u16, word: u64 },
    NoMemory,
}

impl From<NoMemory> for Refused {
    ghost use Rattle.std.specs.Prelude.{◌≡◌};
    ghost use Rattle.vscsi_client.specs.declared.answers.Refused.TheVariants as refused;

    ghost from_gives = { λ _ why. why ≡ refused.NoMemory };

    fn from(_memory: NoMemory) -> Self {
        Refused::NoMemory
    }
}

impl From<AllocError> for Refused {
    ghost use Rattle.std.specs.Prelude.{◌≡◌};
    ghost use Rattle.vscsi_client.specs.declared.answers.Refused.TheVariants as refused;

    ghost from_gives = { λ _ why. why ≡ refused.NoMemory };

    fn from(_memory: AllocError) -> Self {
        Refused::NoMemory
    }
}
