// A client, its queue and its partner, and a script that is played there.
use super::queue::{act, send};
use super::seat::Seat;
use super::step::{
    AGAIN, Act, Call, INITIALIZE, LOGIN, READ, READY, REGISTER, REGISTERED, Seen, Step,
};
use super::units::Unit;
use crq_session::PlainLink;
use std::alloc::Global;
use vio_num::{Entry, NoMemory};
use vscsi_client::{LoginTurn, Op};

/// A row of a script: a step, and what is seen of it.
pub type Row = (Step, Seen);

/// The number of the first row of which something else is seen.
pub type Other = Option<usize>;

// A client with its queue.
#[derive(Drop)]
struct Desk {
    alloc: Global,
    link: PlainLink,
    seat: Seat,
}

/// Plays a script at a client that was never logged in, whose partner is not there.
pub fn play(alloc: Global, script: &[Row]) -> Result<Other, NoMemory> {
    let mut desk = Desk::open(alloc)?;
    desk.play(script)
}

/// Plays a script at a client that is logged in under tag 1, with a grant of this many requests. The partner took the
/// two entries of the login.
pub fn play_granted(alloc: Global, granted: u32, script: &[Row]) -> Result<Other, NoMemory> {
    let mut desk = Desk::open(alloc)?;
    match desk.play(&login(granted))? {
        None => desk.play(script),
        other => Ok(other),
    }
}

/// A script with its name, and how many requests the login grants under which it is played; none where nobody is logged in.
pub struct Case {
    pub name: &'static str,
    pub granted: Option<u32>,
    pub rows: &'static [Row],
}

/// Plays each script, and gives the name of the first of which something else is seen.
pub fn first_other_case(alloc: Global, cases: &[Case]) -> Result<Option<&'static str>, NoMemory> {
    for case in cases {
        let other = match case.granted {
            Some(granted) => play_granted(alloc, granted, case.rows)?,
            None => play(alloc, case.rows)?,
        };
        if other.is_some() {
            return Ok(Some(case.name));
        }
    }
    Ok(None)
}

// Gives the script of a login.
fn login(granted: u32) -> [Row; 7] {
    [
        (LOGIN, AGAIN),
        (REGISTER, REGISTERED),
        (INITIALIZE, Seen::Put(0)),
        (LOGIN, AGAIN),
        (Step::Grant(0, 1, granted), Seen::Put(1)),
        (LOGIN, Seen::Turned(LoginTurn::Granted(granted))),
        (Step::Partner(Act::PollAll(2)), Seen::Unit(64, 0)),
    ]
}

impl Desk {
    fn open(alloc: Global) -> Result<Desk, NoMemory> {
        Ok(Desk {
            alloc,
            link: PlainLink::open(alloc, 256, 256)?,
            seat: Seat::open(alloc)?,
        })
    }

    // Does the steps of a script up to the first of which something else is seen.
    fn play(&mut self, script: &[Row]) -> Result<Other, NoMemory> {
        for (number, (step, want)) in script.iter().enumerate() {
            if self.step(*step)? != *want {
                return Ok(Some(number));
            }
        }
        Ok(None)
    }

    // Does a step, and tells what is seen of it.
    fn step(&mut self, step: Step) -> Result<Seen, NoMemory> {
        match step {
            Step::Call(call) => self.seat.call(&mut self.link, call),
            Step::InUse(call) => self.seat.call_in_use(self.alloc, &mut self.link, call),
            Step::Ready(count) => self.ready(count),
            Step::ReadAt(at) => self.submit(Op { at, ..READ }),
            Step::ReadBy(table) => self.submit(Op {
                table: Some(table),
                ..READ
            }),
            Step::Own(own) => act(&mut self.link, false, own),
            Step::Partner(partner) => act(&mut self.link, true, partner),
            Step::Answer(slot, unit, len, tag) => self.answer(slot, unit, len, tag),
            Step::Good(slot, tag) => self.answer(slot, Unit::Good(tag, 7), 36, tag),
            Step::Grant(slot, tag, delta) => self.answer(slot, Unit::Grant(tag, delta), 52, tag),
            Step::Freed => Ok(self.seat.freed()),
            Step::Write(slot, unit) => Ok(self.seat.write_unit(slot, unit)),
            Step::Lay(first, count, tag) => Ok(self.seat.lay(first, count, tag)),
            Step::Word(address) => Ok(self.seat.word(address)),
            Step::Poke(address, word) => Ok(self.seat.poke(address, word)),
        }
    }

    fn submit(&mut self, op: Op) -> Result<Seen, NoMemory> {
        self.seat.call(&mut self.link, Call::Submit(op))
    }

    // Sends this many commands without data, and tells what is seen of the last.
    fn ready(&mut self, count: usize) -> Result<Seen, NoMemory> {
        let mut seen = Seen::Nothing;
        for _ in 0..count {
            seen = self.submit(READY)?;
        }
        Ok(seen)
    }

    // Writes a unit into a slot, and sends the partner's entry for it.
    fn answer(&mut self, slot: u64, unit: Unit, len: u16, tag: u64) -> Result<Seen, NoMemory> {
        self.seat.write_unit(slot, unit);
        send(&mut self.link, true, Entry::srp(len, tag))
    }
}
