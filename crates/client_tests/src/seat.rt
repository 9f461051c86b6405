// A client with its region of 64 pages, and what is done there.
ghost use Rattle.std.specs.Prelude.{◌≡◌, ◌<◌, length};
ghost use Rattle.vscsi_client.specs.Transferred.{FitRows};
ghost use Rattle.client_tests.specs.Fits.{FitRows-prop};

use super::calls::make_call;
use super::in_use::InUse;
use super::step::{Call, Seen};
use super::units::{Unit, bytes_of};
use crq_session::PlainLink;
use page_slots::StrokeName;
use std::alloc::Global;
use tce_window::{PlainWindow, Right};
use vio_num::{NoMemory, PAGE_BYTES, UnitId};
use vscsi_client::Client;

/// The client's unit, and the server's.
pub const CLIENT: UnitId = UnitId {
    partition: 1,
    unit: 0,
};

pub const SERVER: UnitId = UnitId {
    partition: 0,
    unit: 0,
};

/// A client and its region, of which no page is held.
#[derive(Drop)]
pub struct Seat {
    window: PlainWindow,
    client: Client,
    ghost size: { length window.pages ≡ 64 },
    ghost free: { window.held_count ≡ 0 },
    ghost rows: { FitRows 64 client } by { FitRows-prop 64 client },
}

impl Seat {
    /// A client that was never logged in.
    pub fn open(alloc: Global) -> Result<Seat, NoMemory> {
        Ok(Seat {
            window: PlainWindow::open(alloc, CLIENT, 64)?,
            client: Client::open(alloc, CLIENT, SERVER)?,
        })
    }

    /// Makes a call over the queue of the link's second side.
    pub fn call(&mut self, link: &mut PlainLink, call: Call) -> Result<Seen, NoMemory> {
        let mut crq = link.side(false);
        make_call(&mut self.client, &mut crq, &mut self.window, call)
    }

    /// Makes a call there while each page of the region is in use.
    pub fn call_in_use(
        &mut self,
        alloc: Global,
        link: &mut PlainLink,
        call: Call,
    ) -> Result<Seen, NoMemory> {
        let mut busy = InUse::open(alloc, CLIENT)?;
        let mut crq = link.side(false);
        make_call(&mut self.client, &mut crq, &mut busy, call)
    }

    /// Tells the client that its queue was freed, or failed.
    pub fn freed(&mut self) -> Seen {
        self.client.freed();
        Seen::Nothing
    }

    /// Reads the eight bytes at an address.
    pub fn word(&mut self, address: u64) -> Seen {
        let mut bytes = [0; 8];
        match self.window.read(address, &mut bytes) {
            Ok(()) => Seen::Word(u64::from_be_bytes(bytes)),
            Err(_fault) => Seen::Nothing,
        }
    }

    /// Writes eight bytes at an address.
    pub fn poke(&mut self, address: u64, word: u64) -> Seen {
        self.write(address, &word.to_be_bytes())
    }

    /// Writes a unit into a slot.
    pub fn write_unit(&mut self, slot: u64, unit: Unit) -> Seen {
        self.write(slot % 1024 * 256, &bytes_of(unit))
    }

    fn write(&mut self, address: u64, bytes: &[u8]) -> Seen {
        match self.window.write(address, bytes, 900) {
            Ok(()) => Seen::Nothing,
            Err(_fault) => Seen::Barred,
        }
    }

    /// Writes over this many pages from one on, as the server does under this tag.
    pub fn lay(&mut self, first: u64, count: u64, tag: u64) -> Seen {
        for page in 0..count {
            lay_page(&mut self.window, first.wrapping_add(page) % 64, tag);
        }
        Seen::Nothing
    }
}

// Writes over a page.
fn lay_page(window: &mut PlainWindow, page: u64, tag: u64)
    requires free { window.old.held_count ≡ 0 }
    requires page { page < 64 }
    ensures free { window.new.held_count ≡ 0 }
    ensures size { length window.new.pages ≡ length window.old.pages }
{
    let name = StrokeName {
        who: SERVER,
        mark: tag,
    };
    let mut held = match window.hold(page * PAGE_BYTES, 4096, Right::Write) {
        Ok(held) => held,
        Err(_fault) => return,
    };
    let _written = held.write(name, &[5; 4096]);
    window.give_back(held);
}
