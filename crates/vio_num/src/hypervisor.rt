// What hypervisor calls and turns answer.
ghost use Rattle.std.specs.Prelude.{◌≡◌};
ghost use Rattle.vio_num.specs.Hypervisor.{code_of};

/// A return code of a hypervisor call (LoPAR, "Hypervisor Call Return Code Values").
#[derive(Clone, Copy, Debug, PartialEq, Eq)]
pub enum Hrc {
    Success,
    Busy,
    Closed,
    Function,
    Parameter,
    NotFound,
    Dropped,
    SourceParm,
    DestParm,
    Resource,
}

impl Hrc {
    /// The number that the caller's register holds.
    pub fn code(self) -> i64
        ensures { result ≡ code_of self }
    {
        match self {
            Hrc::Success => 0,
            Hrc::Busy => 1,
            Hrc::Closed => 2,
            Hrc::Function => -2,
            Hrc::Parameter => -4,
            Hrc::NotFound => -7,
            Hrc::Dropped => -12,
            Hrc::SourceParm => -13,
            Hrc::DestParm => -14,
            Hrc::Resource => -16,
        }
    }
}

/// Whether a turn of a partition did something.
#[derive(Clone, Copy, Debug, PartialEq, Eq)]
pub enum Moved {
    /// It took or put an entry, registered or freed a queue, ended a line, or served a request.
    Moved,
    /// Nothing that it looked at was ready.
    Quiet,
}
