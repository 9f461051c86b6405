// The owner of a shared window, and the port that it is as long as it borrows its window.
ghost use Rattle.std.specs.Prelude.{◌≡◌};
ghost use Rattle.shared_window.specs.Opening.{IsOwnerAt, IsOwnerAt-prop};

use crate::seat::WindowSeat;
use crate::window::Window;
use page_slots::StrokeName;
use std::marker::Model;
use tce_window::{GetTce, NamedFault, OwnFault, OwnerPort, TceAnswer, TceTable, WindowPort};
use vio_num::NoMemory;

/// The owner of a shared window: a seat at it, and the table of all values that it put. Contracts see both.
#[derive(Drop)]
pub struct Owner {
    pub(crate) seat: WindowSeat,
    pub(crate) table: TceTable,
}

impl Model for Owner {
    ghost use Rattle.shared_window.specs.Opening.{OwnerValue};

    ghost Value = { OwnerValue };

    ghost view = { λ owner. record {
      seat = owner.seat;
      size = owner.table.size;
      rows = owner.table.rows;
      spare = owner.table.spare;
    } };
}

/// The owner with its window, as long as it borrows them.
#[derive(Drop)]
pub struct SharedOwner<'a> {
    pub window: &'a Window,
    pub owner: &'a mut Owner,
    ghost ours: { IsOwnerAt window.now owner.now } by { IsOwnerAt-prop window.now owner.now },
}

impl WindowPort for SharedOwner<'_> {
    ghost use Rattle.std.specs.Prelude.{true};
    ghost use Rattle.shared_window.specs.OwnerState.{owner_state, owner_begins};

    ghost is_shared = { true };

    ghost state = { owner_state };

    ghost begins = { owner_begins };
}

impl OwnerPort for SharedOwner<'_> {
    ghost use Rattle.shared_window.specs.OwnerState.{owner_spare};

    ghost spare = { owner_spare };

    fn pages(&self) -> u16 {
        self.window.pages(self.owner)
    }

    fn reserve(&mut self, puts: u32) -> Result<(), NoMemory> {
        self.window.reserve(self.owner, puts)
    }

    fn put_tce(&mut self, ioba: u64, tce: u64) -> TceAnswer {
        self.window.put_tce(self.owner, ioba, tce)
    }

    fn stuff_tce(&mut self, ioba: u64, tce: u64, count: u64) -> TceAnswer {
        self.window.stuff_tce(self.owner, ioba, tce, count)
    }

    fn put_tce_indirect(&mut self, ioba: u64, list: &[u64]) -> TceAnswer {
        self.window.put_tce_indirect(self.owner, ioba, list)
    }

    fn get_tce(&mut self, ioba: u64) -> GetTce {
        self.window.get_tce(self.owner, ioba)
    }

    fn read(&mut self, at: u64, out: &mut [u8]) -> Result<(), OwnFault> {
        self.window.read(self.owner, at, out)
    }

    fn write(&mut self, at: u64, bytes: &[u8], mark: u64) -> Result<(), OwnFault> {
        self.window.write(self.owner, at, bytes, mark)
    }

    fn read_named(&mut self, at: u64, out: &mut [u8], name: StrokeName) -> Result<(), NamedFault> {
        self.window.read_named(self.owner, at, out, name)
    }
}
