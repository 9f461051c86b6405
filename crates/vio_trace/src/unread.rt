// Why a word, a line or a text was not read.
use vio_num::NoMemory;

/// Why nothing was read.
#[derive(Clone, Copy, Debug, PartialEq, Eq)]
pub enum Unread {
    /// The bytes are the text of no value.
    Bad,
    /// Memory ran out.
    NoMemory,
}

impl From<NoMemory> for Unread {
    ghost use Rattle.std.specs.Prelude.{◌≡◌};
    ghost use Rattle.vio_trace.specs.declared.unread.Unread.TheVariants as reasons;

    ghost from_gives = { λ none reason. reason ≡ reasons.NoMemory };

    fn from(_: NoMemory) -> Unread {
        Unread::NoMemory
    }
}

/// Why the front of a text was not read.
#[derive(Clone, Copy, Debug, PartialEq, Eq)]
pub enum Fault {
    /// The line is bad at which so many bytes of the text are left.
    Bad(usize),
    /// Memory ran out.
    NoMemory,
}

impl From<NoMemory> for Fault {
    ghost use Rattle.std.specs.Prelude.{◌≡◌};
    ghost use Rattle.vio_trace.specs.declared.unread.Fault.TheVariants as faults;

    ghost from_gives = { λ none fault. fault ≡ faults.NoMemory };

    fn from(_: NoMemory) -> Fault {
        Fault::NoMemory
    }
}
