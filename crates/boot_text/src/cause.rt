// Why a boot text says no plan.
ghost use Rattle.std.specs.Prelude.{◌≡◌};
ghost use Rattle.boot_text.specs.Said.{fault_at};

use vio_num::NoMemory;

/// What is wrong with a line of a boot text. Of several, the first in this order is told.
#[derive(Clone, Copy, Debug, PartialEq, Eq)]
pub enum Cause {
    /// The text is above 1,048,576 bytes. This is told of line 0.
    TooLong,
    /// The line has a byte that is no printable ASCII.
    BadByte,
    /// The line is above 1,024 bytes.
    LineLength,
    /// The first line is not `vio 1`.
    Header,
    /// The first word is no keyword and no number, or the word behind a unit's number is no verb.
    Word,
    /// The line may not stand here, or the text ends before the end of a partition.
    Place,
    /// There are too few or too many words, or a fixed word is another.
    Count,
    /// A word is not of its form, or outside its range.
    Number,
    /// There are too many partitions, units, LAN ports or pages.
    Limit,
    /// The rules on servers and clients are broken.
    Link,
    /// The script line's unit is absent, or of another kind.
    Unit,
    /// The costs of the script lines up to here pass 16,777,216.
    Transfer,
}

/// Why `read_plan` gave no plan.
#[derive(Clone, Copy, Debug, PartialEq, Eq)]
pub enum PlanFault {
    /// This line, from 1, is the first that is wrong, for this cause.
    Refused { line: u32, cause: Cause },
    /// No memory was found for the plan.
    NoMemory,
}

/// Why a line was not taken: its own fault, or want of memory.
#[derive(Clone, Copy, Debug, PartialEq, Eq)]
pub(crate) enum Stop {
    Cause(Cause),
    NoMemory,
}

impl Stop {
    /// The fault of the line of this number.
    pub fn at(self, line: u32) -> PlanFault
        ensures { result ≡ fault_at line self }
    {
        match self {
            Stop::Cause(cause) => PlanFault::Refused { line, cause },
            Stop::NoMemory => PlanFault::NoMemory,
        }
    }
}

impl From<NoMemory> for Stop {
    ghost use Rattle.std.specs.Prelude.{◌≡◌};
    ghost use Rattle.boot_text.specs.declared.cause.Stop.TheVariants as stops;

    ghost from_gives = { λ _ stop. stop ≡ stops.NoMemory };

    fn from(_error: NoMemory) -> Self {
        Stop::NoMemory
    }
}
