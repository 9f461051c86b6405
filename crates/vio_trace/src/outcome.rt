// How a script line ends: the words that its record has.
ghost use Rattle.std.specs.Prelude.{◌≡◌, ◌≤◌, length};

use std::marker::Model;
use vio_num::{Bytes, Hrc};

/// How a script line ended.
#[derive(Debug, Drop)]
pub enum Outcome {
    /// A login was granted, with this initial request limit.
    Granted(u32),
    /// A login was rejected, for this reason (SRP, "SRP_LOGIN_REJ").
    Rejected(u32),
    /// The partner was lost before it answered the login.
    Lost,
    /// The login was not answered until nothing moved any more.
    Unanswered,
    /// An information unit with this tag was put.
    Sent(u64),
    /// The line's bytes pass the unit's region, or lie in the part of it that is the driver's.
    Range,
    /// No login is on.
    NotLoggedIn,
    /// No credit is left; the request limit.
    NoCredit(u32),
    /// A page of the line's data is that of the outstanding command with this tag.
    Overlap(u64),
    /// The server unit's queue is not registered.
    Closed,
    /// The server unit's queue is full: the place that the entry would have had in its session, from
    /// 0, and the high half of the entry that lay in its slot.
    Dropped { number: u64, held: u64 },
    /// So many answers or frames were taken.
    Took(u64),
    /// So many answers were taken, and then the partner was lost.
    TookThenLost(u64),
    /// The data of a command: their number of bytes, and the sum of these.
    Data { len: u64, sum: u64 },
    /// On this page of the data another stroke stands behind those of the command.
    Stale(u16),
    /// No answer of the tag to a command with data-in was taken.
    Unknown,
    /// The code of a call.
    Code(Hrc),
    /// The value of a translation entry, which a call read.
    Value(u64),
    /// So many buffers were posted, and the code of the last call.
    Posted { buffers: u32, code: Hrc },
    /// The code of a frame's call, and the frame's number.
    Frame { code: Hrc, number: u64 },
    /// The line was carried out.
    Done,
    /// The bytes of the region that the line showed.
    Bytes(Shown),
}

/// The bytes of a region that a line shows, 1 to 256.
#[derive(Debug, Drop)]
pub struct Shown {
    bytes: Bytes,
}

impl Model for Shown {
    ghost use Rattle.std.specs.Prelude.{◌≤◌, List, ℕ, length};

    ghost Value = { List ℕ };

    ghost view = { λ shown. shown.bytes };

    ghost invariant = { λ shown. record {
      some : 1 ≤ length shown.bytes;
      few : length shown.bytes ≤ 256;
    } };
}

impl Shown {
    /// These bytes.
    pub fn new(bytes: Bytes) -> Shown
        requires some { 1 ≤ length bytes }
        requires few { length bytes ≤ 256 }
        ensures { result ≡ bytes }
    {
        Shown { bytes }
    }

    /// The bytes, lent.
    pub(crate) fn bytes(&self) -> &Bytes
        ensures bytes { result.now ≡ self.now }
        ensures some { 1 ≤ length self.now }
        ensures few { length self.now ≤ 256 }
    {
        &self.bytes
    }
}
