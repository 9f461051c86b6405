// Names of units and of LAN stations.
ghost use Rattle.std.specs.Prelude.{◌≡◌, ◌↔◌, ◌%◌, ℕ, IsTrue, slice_index};

/// A virtual I/O unit: a partition's number and the unit's number in it, both from 0.
#[derive(Clone, Copy, Debug, PartialEq, Eq, PartialOrd, Ord)]
pub struct UnitId {
    pub partition: u8,
    pub unit: u8,
}

/// A MAC address (IEEE 802), the first byte the first on the wire.
#[derive(Clone, Copy, Debug, Default, PartialEq, Eq)]
pub struct Mac {
    pub bytes: [u8; 6],
}

impl Mac {
    /// Whether the address is of a group of stations: bit 0 of its first byte.
    pub fn is_group(self) -> bool
        ensures { IsTrue result ↔ (slice_index self.bytes 0 % 2 ≡ 1) }
    {
        self.bytes[0] % 2 == 1
    }
}
