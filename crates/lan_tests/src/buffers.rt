// Posts, deliveries and harvests of a port, in tables: each row is a step and what is seen of it.
ghost use Rattle.std.specs.Prelude.{◌≡◌, ◌≤◌, length};
ghost use Rattle.lan_buffers.specs.Calls.{IsOpen};

mod busy;
mod defects;
mod posts;
mod sessions;

use lan_buffers::{AddAnswer, Deliver, Harvest, PlainPort};
use page_slots::StrokeName;
use std::alloc::Global;
use tce_window::PlainWindow;
use vio_num::{Mac, NoMemory, UnitId};

const RECEIVER: UnitId = UnitId {
    partition: 1,
    unit: 0,
};

const SENDER: StrokeName = StrokeName {
    who: UnitId {
        partition: 2,
        unit: 3,
    },
    mark: 1,
};

const OWN: Mac = Mac {
    bytes: [2, 0, 0, 0, 0, 1],
};

// A step of a partition, of a sender, or of whoever looks on.
#[derive(Clone, Copy)]
enum Step {
    // The partition posts a buffer of this many bytes at this address, which is its correlator.
    Post(u64, u64),
    // It posts a buffer of this descriptor.
    PostAs(u64),
    // It reads its next receive entry.
    Harvest,
    // It puts this value into the entry of this address.
    Put(u64, u64),
    // It writes over 512 bytes from this address on.
    Write(u64),
    // A sender's frame of this many bytes comes, each of them 0x5A.
    Send(usize),
    // The high half of the entry that was read last is looked at.
    High,
    // The number of dropped frames is looked at.
    Drops,
    // The byte at this address is looked at.
    Byte(u64),
}

// What is seen of a step.
#[derive(Clone, Copy, PartialEq, Eq)]
enum Seen {
    Posted(AddAnswer),
    Read(Harvest),
    Sent(Deliver),
    Number(u64),
    Nothing,
}

// A step, and what is seen of it.
type Row = (Step, Seen);

// A port in a session, and the window of its unit, which holds nothing.
#[derive(Drop)]
struct Station {
    port: PlainPort,
    window: PlainWindow,
    ghost opened: { IsOpen port },
    ghost free: { window.held_count ≡ 0 },
}

impl Station {
    // Opens a port of this many slots and a window of 18 pages.
    fn open(alloc: Global, slots: u32) -> Result<Station, NoMemory>
        requires { (1 ≤ slots) × (slots ≤ 1024) }
    {
        let window = PlainWindow::open(alloc, RECEIVER, 18)?;
        let mut port = PlainPort::open(alloc, RECEIVER, slots)?;
        port.reserve(1)?;
        begin(&mut port);
        Ok(Station { port, window })
    }

    // Does a step, and tells what is seen of it.
    fn step(&mut self, alloc: Global, step: Step) -> Result<Seen, NoMemory> {
        match step {
            Step::Post(len, address) => self.post(buffer(len, address), address),
            Step::PostAs(descriptor) => self.post(descriptor, 0),
            Step::Harvest => self.harvest(),
            Step::Put(address, value) => self.put(address, value),
            Step::Write(address) => Ok(self.write(address)),
            Step::Send(len) => self.send(alloc, len),
            Step::High => Ok(Seen::Number(self.high())),
            Step::Drops => Ok(Seen::Number(self.port.drops())),
            Step::Byte(address) => Ok(self.byte(address)),
        }
    }

    fn post(&mut self, descriptor: u64, correlator: u64) -> Result<Seen, NoMemory> {
        let answer = post(&mut self.port, descriptor, correlator)?;
        Ok(Seen::Posted(answer))
    }

    fn harvest(&mut self) -> Result<Seen, NoMemory> {
        let answer = harvest(&mut self.port)?;
        Ok(Seen::Read(answer))
    }

    fn put(&mut self, address: u64, value: u64) -> Result<Seen, NoMemory> {
        self.window.reserve(1)?;
        let _answer = self.window.put_tce(address, value);
        Ok(Seen::Nothing)
    }

    fn write(&mut self, address: u64) -> Seen {
        let _answer = self.window.write(address, &[0xFF; 512], 9);
        Seen::Nothing
    }

    fn send(&mut self, alloc: Global, len: usize) -> Result<Seen, NoMemory> {
        if !(14..=65_527).contains(&len) {
            return Ok(Seen::Nothing);
        }
        let frame = vec![in alloc; 0x5Au8; len]?;
        let answer = offer(&mut self.port, &mut self.window, frame.as_slice());
        Ok(Seen::Sent(answer))
    }

    fn high(&self) -> u64 {
        match self.port.harvests().last() {
            Some(row) => row.high,
            None => 0,
        }
    }

    fn byte(&mut self, address: u64) -> Seen {
        let mut byte = [0];
        match self.window.read(address, &mut byte) {
            Ok(()) => Seen::Number(u64::from(byte[0])),
            Err(_fault) => Seen::Nothing,
        }
    }
}

// Tells that the buffer is the post of this number.
fn posted(number: u64) -> Seen {
    Seen::Posted(AddAnswer::Posted { number })
}

// Tells that the frame took the post of this number.
fn done(post: u64) -> Seen {
    Seen::Sent(Deliver::Done { post })
}

// Gives the descriptor of a valid buffer of this many bytes at this address.
fn buffer(len: u64, address: u64) -> u64 {
    0x8000_0000_0000_0000 | (len & 0xFF_FFFF) << 32 | (address & 0xFFFF_FFFF)
}

// Does the steps of the rows at a port of this many slots, and gives the number of the first of which something else
// is seen than its row says.
fn first_other(alloc: Global, slots: u32, rows: &[Row]) -> Result<Option<usize>, NoMemory>
    requires { (1 ≤ slots) × (slots ≤ 1024) }
{
    let mut station = Station::open(alloc, slots)?;
    for (number, (step, want)) in rows.iter().enumerate() {
        if station.step(alloc, *step)? != *want {
            return Ok(Some(number));
        }
    }
    Ok(None)
}

// Begins a session, if the port is closed.
fn begin(port: &mut PlainPort)
    requires { 1 ≤ port.old.spare }
    ensures { IsOpen port.new }
{
    let _begun = port.begin(OWN);
}

// Posts a buffer, for which it makes room.
fn post(port: &mut PlainPort, descriptor: u64, correlator: u64) -> Result<AddAnswer, NoMemory>
    requires { IsOpen port.old }
    ensures { port.new.settings ≡ port.old.settings }
{
    port.reserve(1)?;
    Ok(port.add_buffer(descriptor, correlator))
}

// Reads the next receive entry, for which it makes room.
fn harvest(port: &mut PlainPort) -> Result<Harvest, NoMemory>
    ensures { port.new.settings ≡ port.old.settings }
{
    port.reserve(1)?;
    Ok(port.harvest())
}

// Offers a frame to a port.
fn offer(port: &mut PlainPort, window: &mut PlainWindow, frame: &[u8]) -> Deliver
    requires frame { (14 ≤ length frame.now) × (length frame.now ≤ 65527) }
    requires free { window.old.held_count ≡ 0 }
    ensures settings { port.new.settings ≡ port.old.settings }
    ensures free { window.new.held_count ≡ 0 }
{
    port.deliver(window, frame, SENDER)
}
