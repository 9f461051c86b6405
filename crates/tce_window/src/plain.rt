// A plain window as a port: its calls meet what the traits say.
ghost use Rattle.std.specs.Prelude.{◌≡◌};

use crate::answers::{GetTce, HoldFault, NamedFault, OwnFault, Right, TceAnswer};
use crate::held::Held;
use crate::port::{GuestPort, OwnerPort, WindowPort};
use crate::window::PlainWindow;
use page_slots::StrokeName;
use vio_num::NoMemory;

impl WindowPort for PlainWindow {
    ghost use Rattle.std.specs.Prelude.{false};
    ghost use Rattle.tce_window.specs.PlainPort.{known_of, plain_begins};

    ghost is_shared = { false };

    ghost state = { known_of };

    ghost begins = { plain_begins };
}

impl OwnerPort for PlainWindow {
    ghost spare = { λ window. window.spare };

    fn pages(&self) -> u16 {
        PlainWindow::pages(self)
    }

    fn reserve(&mut self, puts: u32) -> Result<(), NoMemory> {
        PlainWindow::reserve(self, puts)
    }

    fn put_tce(&mut self, ioba: u64, tce: u64) -> TceAnswer {
        PlainWindow::put_tce(self, ioba, tce)
    }

    fn stuff_tce(&mut self, ioba: u64, tce: u64, count: u64) -> TceAnswer {
        PlainWindow::stuff_tce(self, ioba, tce, count)
    }

    fn put_tce_indirect(&mut self, ioba: u64, list: &[u64]) -> TceAnswer {
        PlainWindow::put_tce_indirect(self, ioba, list)
    }

    fn get_tce(&mut self, ioba: u64) -> GetTce {
        PlainWindow::get_tce(self, ioba)
    }

    fn read(&mut self, at: u64, out: &mut [u8]) -> Result<(), OwnFault> {
        PlainWindow::read(self, at, out)
    }

    fn write(&mut self, at: u64, bytes: &[u8], mark: u64) -> Result<(), OwnFault> {
        PlainWindow::write(self, at, bytes, mark)
    }

    fn read_named(&mut self, at: u64, out: &mut [u8], name: StrokeName) -> Result<(), NamedFault> {
        PlainWindow::read_named(self, at, out, name)
    }
}

impl GuestPort for PlainWindow {
    ghost use Rattle.tce_window.specs.Lent.{IsLentBy, written_still_lent};

    ghost fits = { IsLentBy };

    ghost found = { λ _ _ _. ⊥ };

    fn hold(&mut self, ioba: u64, len: u32, right: Right) -> Result<Held, HoldFault> {
        PlainWindow::hold(self, ioba, len, right)
    }

    fn give_back(&mut self, held: Held) {
        PlainWindow::give_back(self, held);
    }

    ghost written_fits = { written_still_lent };
}
