// A guest of a shared window, and the port that it is as long as it borrows its window.
ghost use Rattle.std.specs.Prelude.{◌≡◌};
ghost use Rattle.shared_window.specs.SharedWindow.{IsSeatAt};

use crate::seat::WindowSeat;
use crate::window::Window;
use std::marker::Model;
use tce_window::{GuestPort, Held, HoldFault, Right, WindowPort};

/// A guest of a shared window. Contracts see its seat.
#[derive(Drop)]
pub struct Guest {
    pub(crate) seat: WindowSeat,
}

impl Model for Guest {
    ghost use Rattle.shared_window.specs.SharedWindow.{WindowSeatValue};

    ghost Value = { WindowSeatValue };

    ghost view = { λ guest. guest.seat };
}

/// A guest with its window, as long as it borrows them.
#[derive(Drop)]
pub struct SharedGuest<'a> {
    pub window: &'a Window,
    pub guest: &'a mut Guest,
    ghost ours: { IsSeatAt window.now guest.now },
}

impl WindowPort for SharedGuest<'_> {
    ghost use Rattle.std.specs.Prelude.{true};
    ghost use Rattle.shared_window.specs.GuestState.{guest_state, guest_begins};

    ghost is_shared = { true };

    ghost state = { guest_state };

    ghost begins = { guest_begins };
}

impl GuestPort for SharedGuest<'_> {
    ghost use Rattle.shared_window.specs.GuestState.{guest_fits, guest_found, written_still_fits};

    ghost fits = { guest_fits };

    ghost found = { guest_found };

    fn hold(&mut self, ioba: u64, len: u32, right: Right) -> Result<Held, HoldFault> {
        self.window.hold(self.guest, ioba, len, right)
    }

    fn give_back(&mut self, held: Held) {
        self.window.give_back(self.guest, held);
    }

    ghost written_fits = { written_still_fits };
}
