// A port of a switch, and how many frames its unit has sent.
ghost use Rattle.std.specs.Prelude.{◌≡◌, ◌≤◌, length};
ghost use Rattle.lan_switch.specs.Switch.{place_of, same_unit, unit_of};

use lan_buffers::PlainPort;
use vio_num::UnitId;

/// A unit's port, and the number of its frames that have a number.
#[derive(Debug, Drop)]
pub struct Station {
    /// The unit's port.
    pub port: PlainPort,
    /// The number of frames.
    pub frames: u64,
}

impl Station {
    /// Whether it is the unit's.
    pub fn is_of(&self, unit: UnitId) -> bool
        ensures { result ≡ same_unit (unit_of self.now) unit }
    {
        let own = self.port.unit();
        own.partition == unit.partition && own.unit == unit.unit
    }
}

/// Finds the place of the unit's station, or gives the number of the stations.
pub fn place_of(stations: &[Station], unit: UnitId) -> usize
    ensures place { result ≡ place_of unit stations.now }
    ensures within { result ≤ length stations.now }
{
    for (place, station) in stations.iter().enumerate() {
        if station.is_of(unit) {
            return place;
        }
    }
    stations.len()
}
