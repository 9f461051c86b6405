// A LAN unit as a boot text gives it.
ghost use Rattle.std.specs.Prelude.{◌≡◌, ◌<◌, ◌^◌, ◌*◌, true};
ghost use Rattle.lan_buffers.specs.Buffer.{buffer_address, buffer_len, is_valid};
ghost use Rattle.lan_script.specs.Buffers.{descriptor_of};
ghost use Rattle.lan_script.specs.Opening.{plan_of};

use lan_switch::PortPlan;
use vio_num::{Mac, UnitId};

/// A LAN unit of a boot text.
#[derive(Clone, Copy, Debug, PartialEq, Eq)]
pub struct PortSeat {
    /// The unit.
    pub unit: UnitId,
    /// Its address, with which its lines register it.
    pub mac: Mac,
    /// The pages of its region, 1 to 256.
    pub pages: u16,
    /// The slots of its receive queue, 1 to 1,024.
    pub slots: u16,
}

impl PortSeat {
    // Its port on a switch.
    pub(crate) fn plan(&self) -> PortPlan
        ensures plan { result ≡ plan_of self.now }
        ensures named { self.now.unit.unit < 256 }
    {
        PortPlan {
            unit: UnitId {
                partition: self.unit.partition,
                unit: number_of(self.unit),
            },
            slots: u32::from(self.slots),
        }
    }

    // The descriptor of its receive queue: 16 bytes for each slot, at address 0.
    pub(crate) fn queue(&self) -> u64
        ensures valid { is_valid result ≡ true }
        ensures len { buffer_len result ≡ 16 * self.now.slots }
    {
        descriptor(0, 16 * u64::from(self.slots))
    }
}

// Gives the number of a unit in its partition.
fn number_of(unit: UnitId) -> u8
    ensures { result ≡ unit.unit }
{
    unit.unit
}

// Marks a descriptor that is valid.
const VALID: u64 = 1 << 63;

// The addresses below a length in a descriptor.
const ADDRESSES: u64 = 1 << 32;

// The descriptor of a range of the unit's window.
pub(crate) fn descriptor(address: u64, len: u64) -> u64
    requires address { address < 2 ^ 32 }
    requires len { len < 2 ^ 24 }
    ensures valid { is_valid result ≡ true }
    ensures len { buffer_len result ≡ len }
    ensures address { buffer_address result ≡ address }
    ensures exact { result ≡ descriptor_of address len }
{
    VALID + ADDRESSES * len + address
}
