// A switch of four units, in tables: each row is a step and what is seen of it.
ghost use Rattle.std.specs.Prelude.{◌≡◌, ◌≤◌, OnOk, IfOk, length};
ghost use Rattle.lan_switch.specs.Switch.{HasRoom, same_unit};

mod calls;
mod lan;
mod sends;

use lan::Lan;
use lan_buffers::{Deliver, Harvest};
use lan_switch::{LanAnswer, PlainSwitch, PortPlan, SendRecord};
use std::alloc::Global;
use tce_window::PlainWindow;
use vio_num::{Hrc, Mac, NoMemory, UnitId};

// The units: two that send, two that are sent to, and one that is no port.
const A: UnitId = UnitId {
    partition: 1,
    unit: 0,
};

const B: UnitId = UnitId {
    partition: 2,
    unit: 0,
};

const C: UnitId = UnitId {
    partition: 3,
    unit: 0,
};

const D: UnitId = UnitId {
    partition: 4,
    unit: 0,
};

const NONE: UnitId = UnitId {
    partition: 9,
    unit: 0,
};

// Gives the address of a station, or of a group where the first byte is odd.
fn mac(first: u8, last: u8) -> Mac {
    Mac {
        bytes: [first, 0, 0, 0, 0, last],
    }
}

const EVERYONE: Mac = Mac { bytes: [0xFF; 6] };

// The descriptor of a receive queue of 4 slots.
const QUEUE: u64 = 0x8000_0040_0000_2000;

// The descriptor of a frame of 60 bytes at address 4096.
const FRAME: u64 = 0x8000_003C_0000_1000;

// A step of one of the units, or of whoever looks on.
#[derive(Clone, Copy)]
enum Step {
    // The unit is registered with this address.
    Open(UnitId, Mac),
    // It is registered so: buffer list, queue, filter list, address.
    Register(UnitId, u64, u64, u64, Mac),
    Free(UnitId),
    ChangeMac(UnitId, Mac),
    Multicast(UnitId, u64, Mac),
    // It posts a buffer of this descriptor.
    Add(UnitId, u64),
    // It puts this value into the entry of this address.
    Put(UnitId, u64, u64),
    // It writes these 8 bytes at this address.
    Write(UnitId, u64, u64),
    Harvest(UnitId),
    Drops(UnitId),
    // It writes a frame to this address at 4096, and sends its 60 bytes.
    Send(UnitId, Mac),
    // A sends these parts of the frame that it wrote last.
    SendParts([u64; 6]),
}

// What is seen of a step.
#[derive(Clone, Copy, PartialEq, Eq)]
enum Seen {
    Code(Hrc, u64),
    Read(Harvest),
    Number(u64),
    // The code of a send, the frame's number, its bytes, and what B and C made of it.
    Sent(Hrc, Option<u64>, usize, Option<Deliver>, Option<Deliver>),
    Nothing,
}

// A step, and what is seen of it.
type Row = (Step, Seen);

// A switch of four units, and their windows, which hold nothing: A and D send, and B and C are reached.
#[derive(Drop)]
struct World {
    switch: PlainSwitch,
    first: PlainWindow,
    last: PlainWindow,
    others: Lan,
    ghost first_free: { first.held_count ≡ 0 },
    ghost last_free: { last.held_count ≡ 0 },
    ghost b_free: { others.b.held_count ≡ 0 },
    ghost c_free: { others.c.held_count ≡ 0 },
}

impl World {
    // Opens ports of 4 slots, and windows of 18 pages.
    fn open(alloc: Global) -> Result<World, NoMemory> {
        Ok(World {
            switch: open_switch(alloc)?,
            first: PlainWindow::open(alloc, A, 18)?,
            last: PlainWindow::open(alloc, D, 18)?,
            others: open_others(alloc)?,
        })
    }

    // Does a step, and tells what is seen of it.
    fn step(&mut self, step: Step) -> Result<Seen, NoMemory> {
        match step {
            Step::Open(unit, mac) => register(&mut self.switch, unit, 0, QUEUE, 0, mac),
            Step::Register(unit, list, queue, filters, mac) => {
                register(&mut self.switch, unit, list, queue, filters, mac)
            }
            Step::Free(unit) => Ok(answered(self.switch.free(unit))),
            Step::ChangeMac(unit, mac) => Ok(answered(self.switch.change_mac(unit, mac))),
            Step::Multicast(unit, control, mac) => {
                Ok(answered(self.switch.multicast(unit, control, mac)))
            }
            Step::Add(unit, descriptor) => self.add(unit, descriptor),
            Step::Put(unit, address, value) => self.put(unit, address, value),
            Step::Write(unit, address, number) => Ok(self.write(unit, address, number)),
            Step::Harvest(unit) => harvest(&mut self.switch, unit),
            Step::Drops(unit) => Ok(drops(&self.switch, unit)),
            Step::Send(unit, to) => self.send(unit, to),
            Step::SendParts(parts) => {
                send(
                    &mut self.switch,
                    A,
                    &mut self.first,
                    &parts,
                    &mut self.others,
                )
            }
        }
    }

    fn write(&mut self, unit: UnitId, address: u64, number: u64) -> Seen {
        let bytes = number.to_be_bytes();
        if unit == A {
            write(&mut self.first, address, &bytes)
        } else if unit == B {
            write(&mut self.others.b, address, &bytes)
        } else {
            write(&mut self.others.c, address, &bytes)
        }
    }

    fn put(&mut self, unit: UnitId, address: u64, value: u64) -> Result<Seen, NoMemory> {
        if unit == A {
            put(&mut self.first, address, value)
        } else if unit == B {
            put(&mut self.others.b, address, value)
        } else {
            put(&mut self.others.c, address, value)
        }
    }

    fn add(&mut self, unit: UnitId, descriptor: u64) -> Result<Seen, NoMemory> {
        if unit == C {
            add(&mut self.switch, unit, &mut self.others.c, descriptor)
        } else {
            add(&mut self.switch, unit, &mut self.others.b, descriptor)
        }
    }

    // Writes a frame to this address at 4096 of the unit's window, and sends its 60 bytes.
    fn send(&mut self, unit: UnitId, to: Mac) -> Result<Seen, NoMemory> {
        if unit == D {
            let _written = write(&mut self.last, 4096, &to.bytes);
            send(
                &mut self.switch,
                unit,
                &mut self.last,
                &[FRAME, 0, 0, 0, 0, 0],
                &mut self.others,
            )
        } else {
            let _written = write(&mut self.first, 4096, &to.bytes);
            send(
                &mut self.switch,
                unit,
                &mut self.first,
                &[FRAME, 0, 0, 0, 0, 0],
                &mut self.others,
            )
        }
    }
}

// Opens the windows of B and of C.
fn open_others(alloc: Global) -> Result<Lan, NoMemory>
    ensures b { IfOk result (λ lan. lan.b.held_count ≡ 0) }
    ensures c { IfOk result (λ lan. lan.c.held_count ≡ 0) }
{
    Ok(Lan {
        b: PlainWindow::open(alloc, B, 18)?,
        c: PlainWindow::open(alloc, C, 18)?,
    })
}

// Opens a switch of four ports of 4 slots.
fn open_switch(alloc: Global) -> Result<PlainSwitch, NoMemory> {
    let plans = [
        PortPlan { unit: A, slots: 4 },
        PortPlan { unit: B, slots: 4 },
        PortPlan { unit: C, slots: 4 },
        PortPlan { unit: D, slots: 4 },
    ];
    PlainSwitch::open(alloc, &plans)
}

// Makes room for a registration, a post or a harvest of the unit's, where it is a port.
fn make_room(switch: &mut PlainSwitch, unit: UnitId) -> Result<(), NoMemory>
    ensures { OnOk result (HasRoom switch.new unit) }
{
    if switch.is_port(unit) {
        switch.reserve(unit, 1)
    } else {
        Ok(())
    }
}

fn register(
    switch: &mut PlainSwitch,
    unit: UnitId,
    list: u64,
    queue: u64,
    filters: u64,
    mac: Mac,
) -> Result<Seen, NoMemory> {
    make_room(switch, unit)?;
    Ok(answered(switch.register(unit, list, queue, filters, mac)))
}

fn harvest(switch: &mut PlainSwitch, unit: UnitId) -> Result<Seen, NoMemory> {
    make_room(switch, unit)?;
    if switch.is_port(unit) {
        Ok(Seen::Read(switch.harvest(unit)))
    } else {
        Ok(Seen::Nothing)
    }
}

fn drops(switch: &PlainSwitch, unit: UnitId) -> Seen {
    if switch.is_port(unit) {
        Seen::Number(switch.drops(unit))
    } else {
        Seen::Nothing
    }
}

fn add(
    switch: &mut PlainSwitch,
    unit: UnitId,
    window: &mut PlainWindow,
    descriptor: u64,
) -> Result<Seen, NoMemory>
    requires { window.old.held_count ≡ 0 }
    ensures free { window.new.held_count ≡ 0 }
    ensures unit { window.new.unit ≡ window.old.unit }
{
    make_room(switch, unit)?;
    Ok(answered(switch.add(unit, window, descriptor)))
}

fn write(window: &mut PlainWindow, address: u64, bytes: &[u8]) -> Seen
    requires free { window.old.held_count ≡ 0 }
    requires len { (1 ≤ length bytes.now) × (length bytes.now ≤ 65536) }
    ensures free { window.new.held_count ≡ 0 }
    ensures unit { window.new.unit ≡ window.old.unit }
{
    let _written = window.write(address, bytes, 5);
    Seen::Nothing
}

fn put(window: &mut PlainWindow, address: u64, value: u64) -> Result<Seen, NoMemory>
    requires { window.old.held_count ≡ 0 }
    ensures free { window.new.held_count ≡ 0 }
    ensures unit { window.new.unit ≡ window.old.unit }
{
    window.reserve(1)?;
    let _answer = window.put_tce(address, value);
    Ok(Seen::Nothing)
}

fn send(
    switch: &mut PlainSwitch,
    unit: UnitId,
    window: &mut PlainWindow,
    parts: &[u64; 6],
    others: &mut Lan,
) -> Result<Seen, NoMemory>
    requires own { window.old.held_count ≡ 0 }
    requires b { others.old.b.held_count ≡ 0 }
    requires c { others.old.c.held_count ≡ 0 }
    ensures own { window.new.held_count ≡ 0 }
    ensures b { others.new.b.held_count ≡ 0 }
    ensures c { others.new.c.held_count ≡ 0 }
{
    let record = switch.send(unit, window, parts, others)?;
    Ok(seen_of(&record))
}

// Tells whether two names are of one unit.
fn is_unit(one: UnitId, other: UnitId) -> bool
    ensures { result ≡ same_unit one other }
{
    one.partition == other.partition && one.unit == other.unit
}

// Tells the answer of a call.
fn answered(answer: LanAnswer) -> Seen {
    Seen::Code(answer.code, answer.word)
}

// Tells the answer of a send.
fn seen_of(record: &SendRecord) -> Seen {
    let mut offers = [None, None];
    for offer in record.offers.as_slice() {
        if offer.unit == B {
            offers[0] = Some(offer.answer);
        }
        if offer.unit == C {
            offers[1] = Some(offer.answer);
        }
    }
    Seen::Sent(
        record.code,
        record.frame,
        record.bytes.len(),
        offers[0],
        offers[1],
    )
}

// Does the steps of the rows, and gives the number of the first of which something else is seen than its row says.
fn first_other(alloc: Global, rows: &[Row]) -> Result<Option<usize>, NoMemory> {
    let mut world = World::open(alloc)?;
    for (number, (step, want)) in rows.iter().enumerate() {
        if world.step(*step)? != *want {
            return Ok(Some(number));
        }
    }
    Ok(None)
}

// Gives the code of adding the last of so many groups to A's filters.
fn filters_up_to(alloc: Global, last: u8) -> Result<Hrc, NoMemory> {
    let mut switch = open_switch(alloc)?;
    let _open = register(&mut switch, A, 0, QUEUE, 0, mac(2, 1))?;
    let mut code = Hrc::Success;
    for group in 0..last {
        code = switch.multicast(A, 0x00001, mac(1, group)).code;
    }
    Ok(code)
}
