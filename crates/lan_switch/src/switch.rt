// The switch: its ports in ascending order of their units, and the calls on one port.
ghost use Rattle.std.specs.Prelude.{◌≡◌, ◌↔◌, ◌≤◌, ◌<◌, [], ◌∷◌, ℕ, All, Some, None, IfOk, IfErr, IfSome, IfNone, OnOk, OnErr, IsSome, IsTrue, length, map};
ghost use Rattle.lan_buffers.specs.Calls.{drops_now};
ghost use Rattle.lan_switch.specs.Calls.{CountsCode, Adds, ChangesMac, Frees, Harvests, Multicasts, Registers, Reserves};
ghost use Rattle.lan_switch.specs.Source.{OnlyReadThrough};
ghost use Rattle.lan_switch.specs.Switch.{AreAscending, AtPort, HasRoom, IsPort, MadeAt, opened, place_of, port_of};

use crate::answers::LanAnswer;
use crate::calls;
use crate::station::{Station, place_of};
use lan_buffers::{Harvest, PlainPort, Settings};
use std::alloc::Global;
use std::marker::Model;
use tce_window::GuestPort;
use vio_num::{Hrc, Mac, NoMemory, UnitId};

/// The most ports that a switch has.
pub const MOST_PORTS: usize = 16;

/// A port of a switch that is to be opened.
#[derive(Clone, Copy, Debug, PartialEq, Eq)]
pub struct PortPlan {
    /// Its unit.
    pub unit: UnitId,
    /// The number of its slots, 1 to 1,024.
    pub slots: u32,
}

/// The plain form of a switch. Contracts see the list of its stations, in ascending order of their units.
#[derive(Debug, Drop)]
pub struct PlainSwitch {
    pub(crate) alloc: Global,
    pub(crate) stations: Vec<Station>,
}

impl Model for PlainSwitch {
    ghost use Rattle.std.specs.Prelude.{List};
    ghost use Rattle.lan_switch.specs.declared.station.Station.{Station};
    ghost use Rattle.lan_switch.specs.Switch.{IsSwitch};

    ghost Value = { List Station };

    ghost view = { λ switch. switch.stations.items };

    ghost invariant = { λ switch. IsSwitch switch.stations.items };
}

impl PlainSwitch {
    /// A switch with these ports, each closed, in ascending order of their units.
    pub fn open(alloc: Global, ports: &[PortPlan]) -> Result<PlainSwitch, NoMemory>
        requires few { length ports.now ≤ MOST_PORTS }
        requires ascending { AreAscending (map (λ plan. plan.unit) ports.now) }
        requires slots { All (λ plan. (1 ≤ plan.slots) × (plan.slots ≤ 1024)) ports.now }
        ensures { IfOk result (λ switch. switch ≡ map opened ports.now) }
    {
        let mut stations = Vec::with_capacity(alloc, ports.len())?;
        for plan in ports {
            stations.push_reserved(open_station(alloc, plan)?);
        }
        Ok(PlainSwitch { alloc, stations })
    }

    /// Whether the unit is a port.
    pub fn is_port(&self, unit: UnitId) -> bool
        ensures { IsTrue result ↔ IsPort self.now unit }
    {
        match self.place(unit) {
            Some(_place) => true,
            None => false,
        }
    }

    /// Makes room for this many registrations, posts and harvests of the unit's port.
    pub fn reserve(&mut self, unit: UnitId, n: u32) -> Result<(), NoMemory>
        requires port { IsPort self.old unit }
        ensures { AtPort self.old unit self.new (Reserves n result) }
    {
        let place = self.port_place(unit);
        self.stations[place].port.reserve(n)
    }

    /// Reads the unit's next receive entry.
    pub fn harvest(&mut self, unit: UnitId) -> Harvest
        requires port { IsPort self.old unit }
        requires room { HasRoom self.old unit }
        ensures { AtPort self.old unit self.new (Harvests result) }
    {
        let place = self.port_place(unit);
        self.stations[place].port.harvest()
    }

    /// The number of frames for the unit that were dropped in its last session.
    pub fn drops(&self, unit: UnitId) -> u64
        requires port { IsPort self.now unit }
        ensures { IfSome (port_of self.now unit) (λ port. result ≡ drops_now port.drop_counts) }
    {
        self.port(unit).drops()
    }

    /// What the unit's port accepts; None exactly where it is closed.
    pub fn settings(&self, unit: UnitId) -> Option<Settings>
        requires port { IsPort self.now unit }
        ensures { IfSome (port_of self.now unit) (λ port. result ≡ port.settings) }
    {
        self.port(unit).settings()
    }

    /// The unit's port.
    pub fn port(&self, unit: UnitId) -> &PlainPort
        requires port { IsPort self.now unit }
        ensures { port_of self.now unit ≡ Some result.now }
    {
        &self.stations[self.port_place(unit)].port
    }

    /// Registers the unit (LoPAR, "H_REGISTER_LOGICAL_LAN"): a session begins.
    pub fn register(
        &mut self,
        unit: UnitId,
        list: u64,
        queue: u64,
        filters: u64,
        mac: Mac,
    ) -> LanAnswer
        requires room { HasRoom self.old unit }
        ensures { MadeAt self.old unit result self.new (Registers list queue filters mac result) }
    {
        match self.place(unit) {
            Some(place) => calls::register(
                &mut self.stations[place].port,
                list,
                queue,
                filters,
                mac,
            ),
            None => LanAnswer::plain(Hrc::Parameter),
        }
    }

    /// Frees the unit (LoPAR, "H_FREE_LOGICAL_LAN"): its session ends, and posts that no frame took are
    /// lost.
    pub fn free(&mut self, unit: UnitId) -> LanAnswer
        ensures { MadeAt self.old unit result self.new (Frees result) }
    {
        match self.place(unit) {
            Some(place) => calls::free(&mut self.stations[place].port),
            None => LanAnswer::plain(Hrc::Parameter),
        }
    }

    /// Gives the unit another address (LoPAR, "H_CHANGE_LOGICAL_LAN_MAC").
    pub fn change_mac(&mut self, unit: UnitId, mac: Mac) -> LanAnswer
        ensures { MadeAt self.old unit result self.new (ChangesMac mac result) }
    {
        match self.place(unit) {
            Some(place) => calls::change_mac(&mut self.stations[place].port, mac),
            None => LanAnswer::plain(Hrc::Parameter),
        }
    }

    /// Controls the unit's filters (LoPAR, "H_MULTICAST_CTRL").
    pub fn multicast(&mut self, unit: UnitId, control: u64, mac: Mac) -> LanAnswer
        ensures { MadeAt self.old unit result self.new (Multicasts control mac result) }
    {
        match self.place(unit) {
            Some(place) => calls::multicast(&mut self.stations[place].port, control, mac),
            None => LanAnswer::plain(Hrc::Parameter),
        }
    }

    /// Posts a buffer for the unit (LoPAR, "H_ADD_LOGICAL_LAN_BUFFER"), whose correlator, its first 8
    /// bytes, is read through the unit's window.
    pub fn add<G: GuestPort>(&mut self, unit: UnitId, window: &mut G, descriptor: u64) -> LanAnswer
        requires room { HasRoom self.old unit }
        requires free { (G.state window.old).held_count ≡ 0 }
        ensures made { MadeAt self.old unit result self.new (Adds descriptor G.is_shared
            (G.found window.new) (G.state window.old) (G.state window.new) result) }
        ensures counts { CountsCode result.code (G.state window.old).in_use
            (G.state window.new).in_use }
        ensures window { OnlyReadThrough G.is_shared (G.state window.old) (G.state window.new) }
    {
        match self.place(unit) {
            Some(place) => calls::add(&mut self.stations[place].port, window, descriptor),
            None => LanAnswer::plain(Hrc::Parameter),
        }
    }

    // Finds the place of a unit that is a port.
    fn port_place(&self, unit: UnitId) -> usize
        requires { IsPort self.now unit }
        ensures place { result ≡ place_of unit self.now }
        ensures within { result < length self.now }
    {
        match self.place(unit) {
            Some(place) => place,
            None => unreachable!(),
        }
    }

    // Finds the place of a unit's station.
    pub(crate) fn place(&self, unit: UnitId) -> Option<usize>
        ensures found { IfSome result (λ place. place ≡ place_of unit self.now) }
        ensures within { IfSome result (λ place. place < length self.now) }
        ensures none { IfNone result (port_of self.now unit ≡ None) }
    {
        let place = place_of(self.stations.as_slice(), unit);
        if place < self.stations.len() {
            Some(place)
        } else {
            None
        }
    }
}

// Opens a closed port.
fn open_station(alloc: Global, plan: &PortPlan) -> Result<Station, NoMemory>
    requires { (1 ≤ plan.now.slots) × (plan.now.slots ≤ 1024) }
    ensures { IfOk result (λ station. station ≡ opened plan.now) }
{
    Ok(Station {
        port: PlainPort::open(alloc, plan.unit, plan.slots)?,
        frames: 0,
    })
}
