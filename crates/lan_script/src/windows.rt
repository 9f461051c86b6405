// The windows of the units, one for each seat. A sender's window is away while its frame is offered to the others.
ghost use Rattle.std.specs.Prelude.{◌≡◌, ◌≤◌, All, Some, None, IfSome, IfNone, IsSome, IsSomeAnd, IfOk, length};
ghost use Rattle.tce_window.specs.declared.piece.TheConstants.{MOST_BYTES};
ghost use Rattle.tce_window.specs.Lent.{IsLentBy};
ghost use Rattle.lan_switch.specs.Switch.{same_unit};
ghost use Rattle.lan_script.specs.Windows.{GivesWindow, HasPlace, HasWindow, HoldsWindow, IsOwn, Turns, TurnsAt, fresh_place, place_in, window_in, with_window};

use lan_switch::PortMap;
use std::alloc::Global;
use std::marker::Model;
use tce_window::{GuestPort, Held, HoldFault, PlainWindow, Right};
use vio_num::{NoMemory, UnitId};

/// A unit and its window, which is away while the unit sends.
#[derive(Debug, Drop)]
pub(crate) struct Place {
    pub(crate) unit: UnitId,
    pub(crate) window: Option<PlainWindow>,
}

/// The windows of the units, in the order of their seats.
#[derive(Debug, Drop)]
pub(crate) struct Windows {
    places: Vec<Place>,
}

impl Model for Windows {
    ghost use Rattle.std.specs.Prelude.{List, All};
    ghost use Rattle.lan_script.specs.Windows.{IsOwn};
    ghost use Rattle.lan_script.specs.declared.windows.Place.{Place as PlaceValue};

    ghost Value = { List PlaceValue };

    ghost view = { λ windows. windows.places.items };

    ghost invariant = { λ windows. All IsOwn windows.places.items };
}

impl Windows {
    /// The windows of these places.
    pub(crate) fn new(places: Vec<Place>) -> Windows
        requires { All IsOwn places.items }
        ensures { result ≡ places.items }
    {
        Windows { places }
    }

    /// Takes the unit's window away.
    pub(crate) fn take(&mut self, unit: UnitId) -> PlainWindow
        requires { IsSome (window_in unit self.old) }
        ensures window { window_in unit self.old ≡ Some result }
        ensures unit { result.unit ≡ unit }
        ensures rest { self.new ≡ with_window unit None self.old }
    {
        let place = place_of(&self.places, unit);
        match self.places[place].window.take() {
            Some(window) => window,
            None => unreachable!(),
        }
    }

    /// Puts the unit's window into its place.
    pub(crate) fn put(&mut self, unit: UnitId, window: PlainWindow)
        requires place { HasPlace unit self.old }
        requires unit { window.unit ≡ unit }
        ensures { self.new ≡ with_window unit (Some window) self.old }
    {
        let place = place_of(&self.places, unit);
        self.places[place].window = Some(window);
    }

    /// Lends the unit's window.
    pub(crate) fn at(&self, unit: UnitId) -> &PlainWindow
        requires { IsSome (window_in unit self.now) }
        ensures window { window_in unit self.now ≡ Some result.now }
        ensures unit { result.now.unit ≡ unit }
    {
        match &self.places[place_of(&self.places, unit)].window {
            Some(window) => window,
            None => unreachable!(),
        }
    }

    // Finds the place of the unit's window, if it is there.
    fn lent(&self, unit: UnitId) -> Option<usize>
        ensures found { IfSome result (HasWindow self.now unit) }
        ensures none { IfNone result (window_in unit self.now ≡ None) }
    {
        let place = place_of(&self.places, unit);
        if place >= self.places.len() {
            return None;
        }
        match self.places[place].window {
            Some(_) => Some(place),
            None => None,
        }
    }

    // Holds a range of the unit's window, which is at this place.
    fn hold_at(
        &mut self,
        unit: UnitId,
        place: usize,
        ioba: u64,
        len: u32,
        right: Right,
    ) -> Result<Held, HoldFault>
        requires there { HasWindow self.old unit place }
        requires free { IsSomeAnd (window_in unit self.old) (λ window. window.held_count ≡ 0) }
        requires len { (1 ≤ len) × (len ≤ MOST_BYTES) }
        ensures { TurnsAt unit self.old self.new (λ a b. HoldsWindow a b ioba len right result) }
    {
        hold_in(&mut self.places[place].window, ioba, len, right)
    }

    // Gives a range of the unit's window back, which is at this place.
    fn give_back_at(&mut self, unit: UnitId, place: usize, held: Held)
        requires there { HasWindow self.old unit place }
        requires fits { IsSomeAnd (window_in unit self.old) (λ window. IsLentBy window held) }
        ensures { TurnsAt unit self.old self.new (λ a b. GivesWindow a b held) }
    {
        give_back_in(&mut self.places[place].window, held);
    }
}

impl PortMap for Windows {
    ghost use Rattle.std.specs.Prelude.{false};
    ghost use Rattle.lan_script.specs.Windows.{FitsIn, FoundIn, begins_in, facts_in, named_in, written_in};

    ghost is_shared = { false };

    ghost state = { facts_in };

    ghost fits = { FitsIn };

    ghost found = { FoundIn };

    ghost named = { named_in };

    ghost begins = { begins_in };

    ghost written_fits = { written_in };

    fn hold(&mut self, unit: UnitId, ioba: u64, len: u32, right: Right) -> Result<Held, HoldFault> {
        match self.lent(unit) {
            Some(place) => self.hold_at(unit, place, ioba, len, right),
            None => Err(HoldFault::Past { entry: ioba / 4096 }),
        }
    }

    fn give_back(&mut self, unit: UnitId, held: Held) {
        match self.lent(unit) {
            Some(place) => self.give_back_at(unit, place, held),
            None => unreachable!(),
        }
    }
}

// Holds a range of a window.
fn hold_in(
    window: &mut Option<PlainWindow>,
    ioba: u64,
    len: u32,
    right: Right,
) -> Result<Held, HoldFault>
    requires free { IsSomeAnd window.old (λ window. window.held_count ≡ 0) }
    requires len { (1 ≤ len) × (len ≤ MOST_BYTES) }
    ensures { Turns window.old window.new (λ a b. HoldsWindow a b ioba len right result) }
{
    match window {
        Some(window) => GuestPort::hold(window, ioba, len, right),
        None => unreachable!(),
    }
}

// Gives a range of a window back.
fn give_back_in(window: &mut Option<PlainWindow>, held: Held)
    requires { IsSomeAnd window.old (λ window. IsLentBy window held) }
    ensures { Turns window.old window.new (λ a b. GivesWindow a b held) }
{
    match window {
        Some(window) => GuestPort::give_back(window, held),
        None => unreachable!(),
    }
}

// Finds the place of the unit, or gives the number of the places.
fn place_of(places: &[Place], unit: UnitId) -> usize
    ensures place { result ≡ place_in unit places.now }
    ensures within { result ≤ length places.now }
{
    for (place, here) in places.iter().enumerate() {
        if is_unit(here.unit, unit) {
            return place;
        }
    }
    places.len()
}

// Tells whether two names are of one unit.
fn is_unit(one: UnitId, other: UnitId) -> bool
    ensures { result ≡ same_unit one other }
{
    one.partition == other.partition && one.unit == other.unit
}

/// Opens the window of a unit.
pub(crate) fn open_place(alloc: Global, unit: UnitId, pages: u16) -> Result<Place, NoMemory>
    requires { (1 ≤ pages) × (pages ≤ 256) }
    ensures { IfOk result (λ place. place ≡ fresh_place unit pages) }
{
    Ok(Place {
        unit,
        window: Some(PlainWindow::open(alloc, unit, pages)?),
    })
}
