// The LAN units of a run: their ports, their windows, and the frames that they sent.
ghost use Rattle.std.specs.Prelude.{◌≡◌, ◌↔◌, ◌≤◌, ◌<◌, All, Some, IfOk, IfSome, OnOk, IsSome, IsTrue, [], length, map};
ghost use Rattle.lan_script.specs.Seats.{IsSizedSeat, seat_at, seat_place};
ghost use Rattle.lan_script.specs.Units.{window_at};
ghost use Rattle.lan_script.specs.Opening.{fresh_lan, plan_of, window_of};
ghost use Rattle.lan_switch.specs.Switch.{AreAscending, same_unit};

use crate::seat::PortSeat;
use crate::windows::{Windows, open_place};
use lan_switch::{PlainSwitch, PortPlan};
use std::alloc::Global;
use std::marker::Model;
use tce_window::PlainWindow;
use vio_num::{NoMemory, UnitId};
use vio_trace::FrameRow;

/// The LAN units of a run: their switch, each unit's window, and the frames that were sent.
#[derive(Debug, Drop)]
pub struct Lan {
    pub(crate) alloc: Global,
    pub(crate) seats: Vec<PortSeat>,
    pub(crate) switch: PlainSwitch,
    pub(crate) windows: Windows,
    /// The frames of each unit that have a number, in the order of time.
    pub(crate) frames: Vec<Vec<FrameRow>>,
    /// Whether each frame that was given a number is kept. Where memory ran out it is not, and no frame is sent any
    /// more.
    pub(crate) whole: bool,
}

impl Model for Lan {
    ghost use Rattle.std.specs.Prelude.{map};
    ghost use Rattle.lan_script.specs.Invariant.{IsLan};
    ghost use Rattle.lan_script.specs.Units.{LanValue};

    ghost Value = { LanValue };

    ghost view = { λ lan. record {
      seats = lan.seats.items;
      stations = lan.switch;
      places = lan.windows;
      frames = map (λ rows. rows.items) lan.frames.items;
      whole = lan.whole;
    } };

    ghost invariant = { λ lan. IsLan (record {
      seats = lan.seats.items;
      stations = lan.switch;
      places = lan.windows;
      frames = map (λ rows. rows.items) lan.frames.items;
      whole = lan.whole;
    }) };
}

impl Lan {
    /// The units of these seats: each port is closed, and each window grants every page.
    pub fn open(alloc: Global, seats: &[PortSeat]) -> Result<Lan, NoMemory>
        requires few { length seats.now ≤ 16 }
        requires ascending { AreAscending (map (λ seat. seat.unit) seats.now) }
        requires sized { All IsSizedSeat seats.now }
        ensures seats { IfOk result (λ lan. lan.seats ≡ seats.now) }
        ensures fresh { IfOk result (λ lan. lan ≡ fresh_lan seats.now) }
    {
        let plans = plans_of(alloc, seats)?;
        let own = Vec::from_slice(alloc, seats)?;
        let switch = PlainSwitch::open(alloc, &plans)?;
        let windows = open_windows(alloc, seats)?;
        let frames = no_frames(alloc, seats)?;
        Ok(Lan {
            alloc,
            seats: own,
            switch,
            windows,
            frames,
            whole: true,
        })
    }

    /// The seats, in the order in which they were given.
    pub fn seats(&self) -> &[PortSeat]
        ensures { result.now ≡ self.now.seats }
    {
        self.seats.as_slice()
    }

    /// Whether the unit has a seat.
    pub fn is_port(&self, unit: UnitId) -> bool
        ensures { IsTrue result ↔ IsSome (seat_at self.now.seats unit) }
    {
        seat_of(&self.seats, unit).is_some()
    }

    /// The unit's window.
    pub fn window(&self, unit: UnitId) -> &PlainWindow
        requires there { IsSome (seat_at self.now.seats unit) }
        ensures window { window_at self.now unit ≡ Some result.now }
        ensures unit { result.now.unit ≡ unit }
        ensures pages { IfSome (seat_at self.now.seats unit)
            (λ seat. length result.now.pages ≡ seat.pages) }
        ensures free { result.now.held_count ≡ 0 }
    {
        self.windows.at(unit)
    }

    // Gives the slots of the unit's receive queue, one at least.
    pub(crate) fn slots(&self, unit: UnitId) -> u16
        requires there { IsSome (seat_at self.now.seats unit) }
        ensures least { 1 ≤ result }
    {
        let Some(seat) = seat_of(&self.seats, unit) else {
            unreachable!();
        };
        seat.slots
    }

    // Gives the unit's seat.
    pub(crate) fn seat(&self, unit: UnitId) -> PortSeat
        requires there { IsSome (seat_at self.now.seats unit) }
        ensures { seat_at self.now.seats unit ≡ Some result }
    {
        match seat_of(&self.seats, unit) {
            Some(seat) => seat,
            None => unreachable!(),
        }
    }
}

// Finds the seat of a unit.
fn seat_of(seats: &[PortSeat], unit: UnitId) -> Option<PortSeat>
    ensures { result ≡ seat_at seats.now unit }
{
    for seat in seats {
        if is_of(seat, unit) {
            return Some(*seat);
        }
    }
    None
}

// Finds the place of the unit's seat, or gives the number of the seats.
pub(crate) fn place_of(seats: &[PortSeat], unit: UnitId) -> usize
    ensures place { result ≡ seat_place unit seats.now }
    ensures within { result ≤ length seats.now }
{
    for (place, seat) in seats.iter().enumerate() {
        if is_of(seat, unit) {
            return place;
        }
    }
    seats.len()
}

// Tells whether a seat is the unit's.
fn is_of(seat: &PortSeat, unit: UnitId) -> bool
    ensures { result ≡ same_unit seat.now.unit unit }
{
    seat.unit.partition == unit.partition && seat.unit.unit == unit.unit
}

// Makes the ports that a switch is to have.
fn plans_of(alloc: Global, seats: &[PortSeat]) -> Result<Vec<PortPlan>, NoMemory>
    ensures plans { IfOk result (λ plans. plans.items ≡ map plan_of seats.now) }
    ensures named { OnOk result (All (λ seat. seat.unit.unit < 256) seats.now) }
{
    let mut plans = Vec::with_capacity(alloc, seats.len())?;
    for seat in seats {
        plans.push_reserved(seat.plan());
    }
    Ok(plans)
}

// Opens the windows.
fn open_windows(alloc: Global, seats: &[PortSeat]) -> Result<Windows, NoMemory>
    requires { All IsSizedSeat seats.now }
    ensures { IfOk result (λ windows. windows ≡ map window_of seats.now) }
{
    let mut places = Vec::with_capacity(alloc, seats.len())?;
    for seat in seats {
        places.push_reserved(open_place(alloc, seat.unit, seat.pages)?);
    }
    Ok(Windows::new(places))
}

// Makes an empty list for each seat.
fn no_frames(alloc: Global, seats: &[PortSeat]) -> Result<Vec<Vec<FrameRow>>, NoMemory>
    ensures { IfOk result (λ frames. map (λ rows. rows.items) frames.items
        ≡ map (λ _. []) seats.now) }
{
    let mut frames = Vec::with_capacity(alloc, seats.len())?;
    for _seat in seats {
        frames.push_reserved(Vec::new(alloc));
    }
    Ok(frames)
}
