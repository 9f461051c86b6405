// The two windows of a unit's turns, and what the client does in its region.
ghost use Rattle.std.specs.Prelude.{◌≡◌, ◌<◌, vec_len};
ghost use Rattle.tce_window.specs.PlainPort.{known_of};
ghost use Rattle.block_server.specs.Advances.{KeepsFreed};
ghost use Rattle.block_server.specs.SiteState.{AreReady};

use super::step::Step;
use super::units::{TABLE_AT, bytes_of};
use block_server::Server;
use crq_session::CrqEnd;
use srp_iu::{Iu, read_iu};
use std::alloc::Global;
use tce_window::{OwnerPort, PlainWindow};
use vio_io::Blocks;
use vio_num::{Moved, NoMemory, UnitId};

/// The unit that serves.
pub(super) const SERVER: UnitId = UnitId {
    partition: 0,
    unit: 0,
};

const CLIENT: UnitId = UnitId {
    partition: 1,
    unit: 0,
};

/// The bytes of a slot for an information unit, from the start of the client's region on.
pub(super) const SLOT: u64 = 256;

/// The unit's window of 34 pages and its client's of 64.
#[derive(Drop)]
pub(super) struct Windows {
    own: PlainWindow,
    client: PlainWindow,
    ghost ready: { AreReady (known_of own) (known_of client) },
    ghost named: { (known_of own).place.unit ≡ record { partition = 0; unit = 0 } },
}

impl Windows {
    /// New windows.
    pub(super) fn open(alloc: Global) -> Result<Windows, NoMemory> {
        Ok(Windows {
            own: PlainWindow::open(alloc, SERVER, 34)?,
            client: PlainWindow::open(alloc, CLIENT, 64)?,
        })
    }

    /// Has a turn of a unit over them, at this end of its queue.
    pub(super) fn turn<B: Blocks, C: CrqEnd>(
        &mut self,
        server: &mut Server<B>,
        end: &mut C,
    ) -> Result<Moved, NoMemory>
        requires unit { 0 < vec_len server.old.units }
        requires partition { server.old.partition ≡ 0 }
        requires event { KeepsFreed (C.state end.old) }
        ensures unit { vec_len server.new.units ≡ vec_len server.old.units }
        ensures partition { server.new.partition ≡ server.old.partition }
        ensures event { KeepsFreed (C.state end.new) }
        ensures place { (C.state end.new).place ≡ (C.state end.old).place }
    {
        server.turn(0, end, &mut self.own, &mut self.client)
    }

    /// Does a step of the client in its region, and tells whether it went so.
    pub(super) fn does(&mut self, step: Step) -> Result<bool, NoMemory> {
        match step {
            Step::Shows(slot, unit) => Ok(self.shows(slot, bytes_of(unit).as_slice())),
            Step::Says(status, flags, out, inn) => {
                Ok(self.residuals() == Some((status, flags, out, inn)))
            }
            Step::Fill(at, byte) => Ok(self.write(at, &[byte; 512])),
            Step::Holds(at, byte) => Ok(self.holds(at, byte)),
            Step::Table(pieces, len) => Ok(self.write_table(pieces, len)),
            Step::PutTce(address, value) => self.put_tce(address, value),
            _ => Ok(false),
        }
    }

    /// Writes bytes into the client's region, and tells whether that can be.
    pub(super) fn write(&mut self, at: u64, bytes: &[u8]) -> bool {
        self.client.write(at, bytes, 1).is_ok()
    }

    // Tells whether bytes of the client's region can be read. They are then in `out`.
    fn read(&mut self, at: u64, out: &mut [u8]) -> bool {
        self.client.read(at, out).is_ok()
    }

    // Tells whether a slot begins with these bytes.
    fn shows(&mut self, slot: u8, bytes: &[u8]) -> bool {
        let mut there = [0; 256];
        self.read(SLOT * u64::from(slot), &mut there) && begins(&there, bytes)
    }

    // Gives the status, the flags, the data-out residual and the data-in residual of the response in slot 1.
    fn residuals(&mut self) -> Option<(u8, u8, u32, u32)> {
        let mut bytes = [0; 256];
        if self.read(SLOT, &mut bytes) {
            residuals_of(&bytes)
        } else {
            None
        }
    }

    // Tells whether this byte lies 512 times at an address.
    fn holds(&mut self, at: u64, byte: u8) -> bool {
        let mut there = [0; 512];
        self.read(at, &mut there) && there == [byte; 512]
    }

    // Writes a table of descriptors, and a byte to the front of each piece that they name.
    fn write_table(&mut self, pieces: u32, len: u32) -> bool {
        for n in 0..pieces {
            let address = n.wrapping_mul(len).wrapping_add(98_304);
            if !self.write_piece(n, address, len) {
                return false;
            }
        }
        true
    }

    // Writes the descriptor of a piece, and a byte to the piece's front.
    fn write_piece(&mut self, n: u32, address: u32, len: u32) -> bool {
        self.write(TABLE_AT + 16 * u64::from(n), &desc_bytes(address, len))
            && self.write(u64::from(address), &[(n % 251) as u8 + 1; 32])
    }

    fn put_tce(&mut self, address: u64, value: u64) -> Result<bool, NoMemory> {
        self.client.reserve(1)?;
        let _answer = self.client.put_tce(address, value);
        Ok(true)
    }
}

// Tells whether bytes begin with others.
fn begins(bytes: &[u8], front: &[u8]) -> bool {
    bytes.starts_with(front)
}

// Gives what a response says, if the bytes are one.
fn residuals_of(bytes: &[u8]) -> Option<(u8, u8, u32, u32)> {
    match read_iu(bytes) {
        Ok(Iu::Rsp(rsp)) => Some((rsp.status, rsp.flags, rsp.out_residual, rsp.in_residual)),
        _ => None,
    }
}

// Gives the bytes of a descriptor.
fn desc_bytes(address: u32, len: u32) -> [u8; 16] {
    let [a, b, c, d] = address.to_be_bytes();
    let [e, f, g, h] = len.to_be_bytes();
    [0, 0, 0, 0, a, b, c, d, 0, 0, 0, 0, e, f, g, h]
}
