// A window with its owner and two guests, opened and closed.
ghost use Rattle.std.specs.Prelude.{◌≡◌, ◌≤◌, All, IfOk, IfSome};
ghost use Rattle.shared_window.specs.Opening.{IsNewSeat, IsOwnerAt};
ghost use Rattle.shared_window.specs.SharedWindow.{IsIdleAt};

use shared_window::{Guest, Opened, Owner, Window};
use std::alloc::Global;
use std::test::Fail;
use tce_window::PlainWindow;
use vio_num::UnitId;

/// Whose window it is.
pub(crate) const UNIT: UnitId = UnitId {
    partition: 1,
    unit: 2,
};

/// The last two of these guests of the window.
pub(crate) fn two(_window: &Window, mut guests: Vec<Guest>) -> Option<(Guest, Guest)>
    requires { All (IsNewSeat _window.now) guests.items }
    ensures { IfSome result (λ pair. IsNewSeat _window.now pair.0 × IsNewSeat _window.now pair.1) }
{
    let Some(a) = guests.pop() else {
        return None;
    };
    let Some(b) = guests.pop() else {
        return None;
    };
    Some((a, b))
}

/// A window with its owner and its two guests.
#[derive(Drop)]
pub(crate) struct Shared {
    pub(crate) window: Window,
    pub(crate) owner: Owner,
    pub(crate) a: Guest,
    pub(crate) b: Guest,
}

/// A new window of this many pages, with two guests.
pub(crate) fn open_two(alloc: Global, pages: u16) -> Result<Shared, Fail>
    requires { (1 ≤ pages) × (pages ≤ 256) }
    ensures owner { IfOk result (λ shared. IsOwnerAt shared.window shared.owner) }
    ensures free { IfOk result (λ shared. shared.owner.seat.entries.held_count ≡ 0) }
    ensures guests { IfOk result (λ shared.
        IsIdleAt shared.window shared.a × IsIdleAt shared.window shared.b) }
    ensures all { IfOk result (λ shared. shared.window.pages.seats ≡ 3) }
    ensures size { IfOk result (λ shared. shared.window.pages.count ≡ pages) }
{
    let Opened {
        window,
        owner,
        guests,
    } = Window::open(alloc, UNIT, pages, 2)?;
    match two(&window, guests) {
        Some((a, b)) => Ok(Shared {
            window,
            owner,
            a,
            b,
        }),
        None => Err(Fail::new("a guest is missing")),
    }
}

/// Closes the window, which has all its seats.
pub(crate) fn close_two(alloc: Global, shared: Shared) -> Result<PlainWindow, Fail>
    requires owner { IsOwnerAt shared.window shared.owner }
    requires free { shared.owner.seat.entries.held_count ≡ 0 }
    requires guests { IsIdleAt shared.window shared.a × IsIdleAt shared.window shared.b }
    requires all { shared.window.pages.seats ≡ 3 }
    ensures { IfOk result (λ plain. plain.held_count ≡ 0) }
{
    let Shared {
        window,
        owner,
        a,
        b,
    } = shared;
    let mut guests = Vec::with_capacity(alloc, 2)?;
    guests.push_reserved(a);
    guests.push_reserved(b);
    match window.close(owner, guests) {
        Ok(plain) => Ok(plain),
        Err(_) => Err(Fail::new("out of memory")),
    }
}
