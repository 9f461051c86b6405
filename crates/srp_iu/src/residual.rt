// Residuals: the bytes of a command's data that were left over, or that were lacking.
ghost use Rattle.std.specs.Prelude.{◌≡◌};
ghost use Rattle.srp_iu.specs.Residual.{in_flag, in_residual, out_flag, out_residual, residual_count};

use crate::response::{DIOVER, DIUNDER, DOOVER, DOUNDER};

/// The residual of a command's data in one direction (SRP, "SRP_RSP response", residual counts).
#[derive(Clone, Copy, Debug, PartialEq, Eq)]
pub enum Residual {
    /// The data were as long as the buffer.
    Exact,
    /// The number of bytes of the buffer that were not used.
    Under(u32),
    /// The number of bytes that were wanted beyond the buffer.
    Over(u32),
}

impl Residual {
    /// The residual of data-in: the buffer has room for `expected` bytes, and the device gave `given`.
    pub fn of_data_in(expected: u32, given: u32) -> Residual
        ensures { result ≡ in_residual expected given }
    {
        if given < expected {
            Residual::Under(expected - given)
        } else if expected < given {
            Residual::Over(given - expected)
        } else {
            Residual::Exact
        }
    }

    /// The residual of data-out: the buffer has `offered` bytes, and the device used `used` and lacked `lacking`.
    pub fn of_data_out(offered: u32, used: u32, lacking: u32) -> Residual
        ensures { result ≡ out_residual offered used lacking }
    {
        if lacking > 0 {
            Residual::Over(lacking)
        } else if used < offered {
            Residual::Under(offered - used)
        } else {
            Residual::Exact
        }
    }

    /// The residual count in bytes.
    pub fn count(self) -> u32
        ensures { result ≡ residual_count self }
    {
        match self {
            Residual::Exact => 0,
            Residual::Under(count) => count,
            Residual::Over(count) => count,
        }
    }

    /// The flag of a response that says this of data-in.
    pub fn data_in_flag(self) -> u8
        ensures { result ≡ in_flag self }
    {
        match self {
            Residual::Exact => 0,
            Residual::Under(_) => DIUNDER,
            Residual::Over(_) => DIOVER,
        }
    }

    /// The flag of a response that says this of data-out.
    pub fn data_out_flag(self) -> u8
        ensures { result ≡ out_flag self }
    {
        match self {
            Residual::Exact => 0,
            Residual::Under(_) => DOUNDER,
            Residual::Over(_) => DOOVER,
        }
    }
}
