// Reads what the numbers of calls name.
ghost use Rattle.std.specs.Prelude.{◌≡◌, ◌<◌, IfSome, Some};
ghost use Rattle.hcall_table.specs.Named.{above, low_unit, named, number_of};

use vio_num::UnitId;

/// What a number names.
#[derive(Clone, Copy, Debug, PartialEq, Eq)]
pub enum Named {
    /// A unit, by its unit address.
    Unit(UnitId),
    /// The window of a unit, by its LIOBN (logical I/O bus number).
    OwnWindow(UnitId),
    /// The window of a server unit's client, as that server unit sees it.
    ClientWindow(UnitId),
}

impl Named {
    /// What this number names, where it is a unit address or a LIOBN.
    pub fn read(number: u64) -> Option<Named>
        ensures named { result ≡ named number }
        ensures number { IfSome result (λ name. number_of name ≡ number) }
    {
        let unit = low_unit(number);
        match number / 0x1_0000 {
            0x3000 => Some(Named::Unit(unit)),
            0x1000 => Some(Named::OwnWindow(unit)),
            0x2000 => Some(Named::ClientWindow(unit)),
            _ => None,
        }
    }

    /// The number that names it.
    pub fn number(self) -> u64
        ensures number { result ≡ number_of self }
        ensures read { named result ≡ Some self }
    {
        match self {
            Named::Unit(id) => 0x3000_0000 + low_bits(id),
            Named::OwnWindow(id) => 0x1000_0000 + low_bits(id),
            Named::ClientWindow(id) => 0x2000_0000 + low_bits(id),
        }
    }
}

// The low sixteen bits that name a unit.
fn low_bits(id: UnitId) -> u64
    ensures number { result ≡ above 0 id }
    ensures below { result < 0x10000 }
    ensures unit { low_unit result ≡ id }
{
    256 * u64::from(id.partition) + u64::from(id.unit)
}

// Reads the partition and the unit in the low sixteen bits.
fn low_unit(number: u64) -> UnitId
    ensures { result ≡ low_unit number }
{
    UnitId {
        partition: (number / 256 % 256) as u8,
        unit: (number % 256) as u8,
    }
}
