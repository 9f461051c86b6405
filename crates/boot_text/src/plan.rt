// What a boot text asks for.
ghost use Rattle.std.specs.Prelude.{◌≡◌, [], ◌∷◌, slice_get};
ghost use Rattle.std.specs.List.{list_any};
ghost use Rattle.boot_text.specs.SoFar.{is_server as is_server_unit, is_port as is_port_unit, pages_of, ports_in, names, has_server, has_server_at};

use crate::names::Name;
use crate::verb::Verb;
use vio_num::{Mac, Sequence, UnitId};

/// The most partitions.
pub const MOST_PARTITIONS: u64 = 16;
/// The most units of a partition.
pub const MOST_UNITS: u64 = 8;
/// The most LAN ports.
pub const MOST_PORTS: u64 = 16;
/// The most pages of all regions together.
pub const MOST_PAGES: u64 = 2_048;
/// The pages of a server unit's region.
pub const SERVER_PAGES: u16 = 34;

/// What a boot text asks for: rounds of turns, what a server grants, and the partitions.
#[derive(Debug, Drop)]
pub struct Plan {
    /// Rounds of turns of the partitions before they settle, 1 to 1,048,576.
    pub rounds: u32,
    /// The credits that a server unit grants with a login, 1 to 200.
    pub grant: u8,
    /// The partitions, 1 to 16, in the order of the text.
    pub partitions: Sequence<Partition>,
}

/// A partition: its units, and the script that it runs.
#[derive(Debug, Drop)]
pub struct Partition {
    /// The units, 1 to 8, in the order of the text.
    pub units: Sequence<UnitPlan>,
    /// The script's lines, in the order of the text.
    pub lines: Sequence<Line>,
}

impl Partition {
    // Whether it has a server unit.
    pub(crate) fn has_server(&self) -> bool
        ensures { result ≡ has_server self.now.units }
    {
        self.units.as_slice().iter().any(|unit| unit.is_server())
    }

    // Whether its unit of this number is a server unit.
    pub(crate) fn has_server_at(&self, unit: u8) -> bool
        ensures { result ≡ has_server_at (slice_get self.now.units unit) }
    {
        match self.units.as_slice().get(usize::from(unit)) {
            Some(unit) => unit.is_server(),
            None => false,
        }
    }

    // Whether it has a client of the server unit of this name.
    pub(crate) fn has_client_of(&self, name: Name) -> bool
        ensures { result ≡ list_any (names name) self.now.units }
    {
        self.units
            .as_slice()
            .iter()
            .any(|unit| unit.is_client_of(name))
    }
}

/// A virtual I/O unit.
#[derive(Clone, Copy, Debug, PartialEq, Eq)]
pub enum UnitPlan {
    /// A server of the disk image, with a queue of 1 to 16 pages.
    Server {
        queue: u8,
    },
    /// A client of that server unit, with a region of 14 to 256 pages and a queue of 1 to 16 pages.
    Client {
        server: UnitId,
        pages: u16,
        queue: u8,
    },
    /// A LAN port, with a region of 1 to 256 pages and 1 to 1,024 receive slots.
    Lan {
        mac: Mac,
        pages: u16,
        slots: u16,
    },
}

impl UnitPlan {
    /// Whether it is a server unit.
    pub fn is_server(&self) -> bool
        ensures { result ≡ is_server_unit self.now }
    {
        match self {
            UnitPlan::Server { .. } => true,
            UnitPlan::Client { .. } => false,
            UnitPlan::Lan { .. } => false,
        }
    }

    /// Whether it is a LAN port.
    pub fn is_port(&self) -> bool
        ensures { result ≡ is_port_unit self.now }
    {
        match self {
            UnitPlan::Server { .. } => false,
            UnitPlan::Client { .. } => false,
            UnitPlan::Lan { .. } => true,
        }
    }

    // How many LAN ports it is: one or none.
    pub(crate) fn ports(&self) -> u64
        ensures { result ≡ ports_in (self.now ∷ []) }
    {
        if self.is_port() { 1 } else { 0 }
    }

    /// The pages of its region, of 4,096 bytes each.
    pub fn pages(&self) -> u16
        ensures { result ≡ pages_of self.now }
    {
        match self {
            UnitPlan::Server { .. } => SERVER_PAGES,
            UnitPlan::Client { pages, .. } => *pages,
            UnitPlan::Lan { pages, .. } => *pages,
        }
    }

    // Whether it is a client of the server unit of this name.
    pub(crate) fn is_client_of(&self, name: Name) -> bool
        ensures { result ≡ names name self.now }
    {
        match self {
            UnitPlan::Server { .. } => false,
            UnitPlan::Client { server, .. } => {
                server.partition == name.partition && server.unit == name.unit
            }
            UnitPlan::Lan { .. } => false,
        }
    }
}

/// A line of a script.
#[derive(Debug, Drop)]
pub struct Line {
    /// The line's number in the text, from 1.
    pub number: u32,
    /// The unit's number in its partition, from 0.
    pub unit: u8,
    /// What the unit does.
    pub verb: Verb,
}
