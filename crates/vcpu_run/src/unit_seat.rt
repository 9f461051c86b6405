// Where the units of a machine sit.
use vio_num::UnitId;

/// Where a unit sits among the parts of a machine.
#[derive(Clone, Copy, Debug, PartialEq, Eq)]
pub(crate) enum Seat {
    /// A server unit: its pair is that of its number.
    Server,
    /// A client unit: the place of its server unit's pair.
    Client(usize),
    /// A port of the logical LAN.
    Port,
}

/// A unit, and where it sits.
#[derive(Clone, Copy, Debug, PartialEq, Eq)]
pub(crate) struct UnitSeat {
    pub(crate) unit: UnitId,
    pub(crate) seat: Seat,
}
