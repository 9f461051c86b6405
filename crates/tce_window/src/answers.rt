// What the calls of a window are told and answer.
use page_slots::StrokeName;
use vio_num::NoMemory;

/// What a device may do with the page of an entry.
#[derive(Clone, Copy, Debug, PartialEq, Eq)]
pub enum Right {
    Read,
    Write,
}

/// A value put into an entry.
#[derive(Clone, Copy, Debug, PartialEq, Eq)]
pub struct TceRow {
    pub entry: u16,
    /// The place of the value among those of the entry, from 1; the value at the start has version 0.
    pub version: u32,
    pub value: u64,
}

/// What became of values to be put.
#[derive(Clone, Copy, Debug, PartialEq, Eq)]
pub enum TceAnswer {
    /// Each was put.
    Done,
    /// An address or a value is not good. Nothing was put.
    Parameter,
    /// The first `done` were put; the next one's entry is held by so many pieces and keeps its value.
    Busy { entry: u16, pins: u32, done: u32 },
}

/// What an entry holds.
#[derive(Clone, Copy, Debug, PartialEq, Eq)]
pub enum GetTce {
    Value(u64),
    /// The address is no multiple of 4,096 or past the window.
    Parameter,
}

/// Why the owner could not read or write its region.
#[derive(Clone, Copy, Debug, PartialEq, Eq)]
pub enum OwnFault {
    /// The length is not 1 to 65,536, or the range is not inside the region.
    Range,
    /// This page is in use, by this word of it.
    InUse { page: u16, word: u64 },
    NoMemory,
}

impl From<NoMemory> for OwnFault {
    ghost use Rattle.std.specs.Prelude.{◌≡◌};
    ghost use Rattle.tce_window.specs.declared.answers.OwnFault.TheVariants as own;

    ghost from_gives = { λ memory fault. fault ≡ own.NoMemory };

    fn from(_memory: NoMemory) -> Self {
        OwnFault::NoMemory
    }
}

/// Why the owner could not read what one name wrote.
#[derive(Clone, Copy, Debug, PartialEq, Eq)]
pub enum NamedFault {
    /// The length is not 1 to 65,536, or the range is not inside the region.
    Range,
    /// This page is in use, by this word of it.
    InUse {
        page: u16,
        word: u64,
    },
    /// The last strokes of the name do not cover the range on this page; the last stroke of another name.
    Stale {
        page: u16,
        found: Option<StrokeName>,
    },
}

/// Why a range of a window could not be held.
#[derive(Clone, Copy, Debug, PartialEq, Eq)]
pub enum HoldFault {
    /// The range touches this entry, which is past the window.
    Past { entry: u64 },
    /// The value of this version lacks the right: its page and rights alone, or 0 where it has none.
    NotGranted { entry: u16, version: u32, tce: u64 },
    /// This page is in use, by this word of it.
    InUse { page: u16, word: u64 },
}
