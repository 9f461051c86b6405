// Commands that a server unit serves, one a turn, over a plain link and plain windows.
ghost use Rattle.std.specs.Prelude.{◌≡◌, ◌<◌, ◌≤◌, [], IfOk, length, true, vec_len};
ghost use Rattle.block_server.specs.Advances.{KeepsFreed};
ghost use Rattle.block_server.specs.SiteState.{AreReady};
ghost use Rattle.crq_session.specs.PlainState.{end_of};
ghost use Rattle.tce_window.specs.PlainPort.{known_of};

use arrayvec::ArrayVec;
use block_server::Server;
use crq_session::{CrqEnd, PlainLink, PollAnswer};
use srp_iu::{BUFFER_FORMATS, Buffer, Cmd, Iu, LoginReq, write_iu};
use std::alloc::Global;
use tce_window::{OwnerPort, PlainWindow};
use vio_io::SureBlocks;
use vio_num::{Entry, NoMemory, PAGE_BYTES, UnitId};

/// The slots of each queue, the pages of both regions, and the blocks of the disk.
const SLOTS: u32 = 256;

const SERVER_PAGES: u16 = 34;

const CLIENT_PAGES: u16 = 14;

const BLOCKS: u32 = 16;

/// How many requests a login grants.
const GRANT: u8 = 8;

const SERVER: UnitId = UnitId {
    partition: 0,
    unit: 0,
};

const CLIENT: UnitId = UnitId {
    partition: 1,
    unit: 0,
};

// A server with one unit, and what lies between it and a client that is a loop.
#[derive(Drop)]
struct Site {
    link: PlainLink,
    own: PlainWindow,
    client: PlainWindow,
    server: Server<SureBlocks>,
    ghost unit: { 0 < vec_len server.units },
    ghost partition: { server.partition ≡ 0 },
    ghost ready: { AreReady (known_of own) (known_of client) },
    ghost named: { (known_of own).place.unit ≡ record { partition = 0; unit = 0 } },
    ghost event: { KeepsFreed (end_of [] link true) },
}

impl Site {
    // A server over a disk of zeros.
    fn open(alloc: Global) -> Result<Site, NoMemory> {
        let image = SureBlocks::zeros(alloc, BLOCKS)?;
        let Ok(server) = Server::open(alloc, 0, image, u64::from(BLOCKS), GRANT, 1) else {
            return Err(NoMemory);
        };
        Site::around(alloc, server)
    }

    // A server with new queues and windows around it.
    fn around(alloc: Global, server: Server<SureBlocks>) -> Result<Site, NoMemory>
        requires unit { 0 < vec_len server.units }
        requires partition { server.partition ≡ 0 }
    {
        Ok(Site {
            link: PlainLink::open(alloc, SLOTS, SLOTS)?,
            own: PlainWindow::open(alloc, SERVER, SERVER_PAGES)?,
            client: PlainWindow::open(alloc, CLIENT, CLIENT_PAGES)?,
            server,
        })
    }

    // A turn of the unit.
    fn turn(&mut self) -> Result<(), NoMemory> {
        let mut end = self.link.side(true);
        self.server
            .turn(0, &mut end, &mut self.own, &mut self.client)?;
        Ok(())
    }

    // Registers the client's queue.
    fn register(&mut self) -> Result<(), NoMemory> {
        let mut end = self.link.side(false);
        end.reserve(1)?;
        end.register(0, PAGE_BYTES);
        Ok(())
    }

    // Sends an entry to the unit.
    fn send(&mut self, entry: Entry) -> Result<(), NoMemory> {
        let mut end = self.link.side(false);
        end.reserve(1)?;
        end.send(entry);
        Ok(())
    }

    // Whether the unit put an entry more, which is taken.
    fn take(&mut self) -> Result<bool, NoMemory> {
        let mut end = self.link.side(false);
        end.reserve(1)?;
        Ok(matches!(end.poll(), PollAnswer::Got { .. }))
    }

    // Writes an information unit at the start of the client's region, sends its entry, and gives the unit a turn.
    // Tells whether it was answered.
    fn ask(&mut self, bytes: &[u8]) -> Result<bool, NoMemory>
        requires { length bytes.now ≤ 256 }
    {
        if self.client.write(0, bytes, 1).is_err() {
            return Err(NoMemory);
        }
        self.send(Entry::srp(bytes.len() as u16, 0))?;
        self.turn()?;
        self.take()
    }

    // Brings both queues up, and logs in.
    fn log_in(&mut self) -> Result<(), NoMemory> {
        self.turn()?;
        self.register()?;
        self.send(Entry::INITIALIZE)?;
        self.turn()?;
        self.take()?;
        self.ask(login().as_slice())?;
        Ok(())
    }
}

// LOGIN_REQ as an ordinary client sends it.
fn login() -> ArrayVec<u8, 256> {
    write_iu(&Iu::LoginReq(LoginReq {
        tag: 1,
        iu_len: 256,
        formats: BUFFER_FORMATS,
        flags: 0,
        initiator: [0; 16],
        target: [0; 16],
    }))
}

// TEST UNIT READY.
fn test_unit_ready() -> ArrayVec<u8, 256> {
    write_iu(&Iu::Cmd(Cmd {
        tag: 2,
        lun: 0,
        attribute: 0,
        cdb: [0; 16],
        more: ArrayVec::new(),
        out: Buffer::Absent,
        inn: Buffer::Absent,
    }))
}

/// Has a new server serve this many commands, up to the first that is not answered, and counts those that were.
pub fn serve_round(alloc: Global, count: u32) -> Result<u32, NoMemory>
    ensures { IfOk result (λ done. done ≤ count) }
{
    let mut site = Site::open(alloc)?;
    site.log_in()?;
    let command = test_unit_ready();
    let mut done = 0;
    while done < count {
        if !site.ask(command.as_slice())? {
            break;
        }
        done += 1;
    }
    Ok(done)
}
