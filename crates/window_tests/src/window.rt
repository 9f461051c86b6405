// A window as its owner and a guest see it, in tables: each row is a step and what is seen of it.
ghost use Rattle.std.specs.Prelude.{◌≡◌, ◌≤◌};

mod holds;
mod lengths;
mod owner;
mod regions;

use page_slots::StrokeName;
use std::alloc::Global;
use tce_window::{
    GetTce, GuestPort, HoldFault, NamedFault, OwnFault, OwnerPort, PlainWindow, Right, TceAnswer,
};
use vio_num::{NoMemory, UnitId};

const UNIT: UnitId = UnitId {
    partition: 1,
    unit: 2,
};

fn name(mark: u64) -> StrokeName {
    StrokeName { who: UNIT, mark }
}

/// A step of the owner, or of a guest.
#[derive(Clone, Copy)]
enum Step {
    /// The value is put into the entry of this address.
    Put(u64, u64),
    /// The value is put into as many entries from this address on.
    Stuff(u64, u64, u64),
    Get(u64),
    /// These bytes are written from this address on, with this mark.
    Write(u64, &'static [u8], u64),
    /// As many bytes, 6 at most, are read from this address on.
    Read(u64, usize),
    /// The same bytes are read, if strokes of this name lie over them.
    ReadNamed(u64, usize, StrokeName),
    /// A range is held and given back.
    Hold(u64, u32, Right),
}

/// What is seen of a step.
#[derive(Clone, Copy, PartialEq, Eq)]
enum Seen {
    Answer(TceAnswer),
    Value(GetTce),
    Written(Result<(), OwnFault>),
    /// The bytes are those that were read, and zeros.
    Read(Result<(), OwnFault>, [u8; 6]),
    Named(Result<(), NamedFault>, [u8; 6]),
    /// Why the range is not held, if it is not.
    Held(Option<HoldFault>),
}

/// A step, and what is seen of it.
type Row = (Step, Seen);

/// A window that holds nothing.
#[derive(Drop)]
struct Free {
    window: PlainWindow,
    ghost free: { window.held_count ≡ 0 },
}

impl Free {
    // Opens a window of this many pages.
    fn open(alloc: Global, pages: u16) -> Result<Free, NoMemory>
        requires { (1 ≤ pages) × (pages ≤ 256) }
    {
        let window = PlainWindow::open(alloc, UNIT, pages)?;
        Ok(Free { window })
    }

    // Does a step, and tells what is seen of it.
    fn step(&mut self, step: Step) -> Result<Seen, NoMemory> {
        match step {
            Step::Put(ioba, tce) => put(&mut self.window, ioba, tce),
            Step::Stuff(ioba, tce, count) => stuff(&mut self.window, ioba, tce, count),
            Step::Get(ioba) => Ok(get(&mut self.window, ioba)),
            Step::Write(at, bytes, mark) => Ok(write(&mut self.window, at, bytes, mark)),
            Step::Read(at, len) => Ok(read(&mut self.window, at, len)),
            Step::ReadNamed(at, len, name) => Ok(read_named(&mut self.window, at, len, name)),
            Step::Hold(ioba, len, right) => Ok(hold(&mut self.window, ioba, len, right)),
        }
    }

    // Does the steps of the rows, and gives the number of the first of which something else is seen than its row says.
    fn first_other(&mut self, rows: &[Row]) -> Result<Option<usize>, NoMemory> {
        for (number, (step, want)) in rows.iter().enumerate() {
            if self.step(*step)? != *want {
                return Ok(Some(number));
            }
        }
        Ok(None)
    }
}

// Does the steps of the rows at a window of this many pages.
fn first_other(alloc: Global, pages: u16, rows: &[Row]) -> Result<Option<usize>, NoMemory>
    requires { (1 ≤ pages) × (pages ≤ 256) }
{
    let mut window = Free::open(alloc, pages)?;
    window.first_other(rows)
}

// Puts the value, into room made for it.
fn put<W: OwnerPort>(window: &mut W, ioba: u64, tce: u64) -> Result<Seen, NoMemory>
    ensures { (W.state window.new).held_count ≡ (W.state window.old).held_count }
{
    window.reserve(1)?;
    Ok(Seen::Answer(window.put_tce(ioba, tce)))
}

// Puts as many times one value, into room made for them.
fn stuff<W: OwnerPort>(window: &mut W, ioba: u64, tce: u64, count: u64) -> Result<Seen, NoMemory>
    ensures { (W.state window.new).held_count ≡ (W.state window.old).held_count }
{
    window.reserve(512)?;
    Ok(Seen::Answer(window.stuff_tce(ioba, tce, count)))
}

// Puts the list, into room made for it.
fn put_list<W: OwnerPort>(window: &mut W, ioba: u64, list: &[u64]) -> Result<Seen, NoMemory>
    ensures { (W.state window.new).held_count ≡ (W.state window.old).held_count }
{
    window.reserve(512)?;
    Ok(Seen::Answer(window.put_tce_indirect(ioba, list)))
}

fn get<W: OwnerPort>(window: &mut W, ioba: u64) -> Seen
    ensures { (W.state window.new).held_count ≡ (W.state window.old).held_count }
{
    Seen::Value(window.get_tce(ioba))
}

fn write<W: OwnerPort>(window: &mut W, at: u64, bytes: &[u8], mark: u64) -> Seen
    ensures { (W.state window.new).held_count ≡ (W.state window.old).held_count }
{
    Seen::Written(window.write(at, bytes, mark))
}

fn read<W: OwnerPort>(window: &mut W, at: u64, len: usize) -> Seen
    ensures { (W.state window.new).held_count ≡ (W.state window.old).held_count }
{
    let mut out = [0; 6];
    let answer = window.read(at, &mut out[..len.min(6)]);
    Seen::Read(answer, out)
}

fn read_named<W: OwnerPort>(window: &mut W, at: u64, len: usize, name: StrokeName) -> Seen
    ensures { (W.state window.new).held_count ≡ (W.state window.old).held_count }
{
    let mut out = [0; 6];
    let answer = window.read_named(at, &mut out[..len.min(6)], name);
    Seen::Named(answer, out)
}

// Holds a range of 1 to 65,536 bytes and gives it back.
fn hold<G: GuestPort>(guest: &mut G, ioba: u64, len: u32, right: Right) -> Seen
    requires { (G.state guest.old).held_count ≡ 0 }
    ensures { (G.state guest.new).held_count ≡ 0 }
{
    if !(1..=65_536).contains(&len) {
        return Seen::Held(None);
    }
    match guest.hold(ioba, len, right) {
        Ok(held) => {
            guest.give_back(held);
            Seen::Held(None)
        }
        Err(fault) => Seen::Held(Some(fault)),
    }
}
