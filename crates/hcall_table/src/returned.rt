// What a hypervisor call returns.
ghost use Rattle.std.specs.Prelude.{◌≡◌};
ghost use Rattle.hcall_table.specs.Asked.{bare};

use vio_num::Hrc;

/// The registers that a call returns.
#[derive(Clone, Copy, Debug, PartialEq, Eq)]
pub struct Returned {
    /// The code, in register 3.
    pub code: Hrc,
    /// The value, in register 4: 0 but where the row that gives one answers Success.
    pub r4: u64,
}

impl Returned {
    /// A code without a value.
    pub fn bare(code: Hrc) -> Returned
        ensures { result ≡ bare code }
    {
        Returned { code, r4: 0 }
    }
}
