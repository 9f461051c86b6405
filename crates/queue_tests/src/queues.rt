// Scenarios of a queue, which both its forms pass: each row is a step and what is seen of it.
ghost use Rattle.std.specs.Prelude.{◌≤◌, ◌^◌};

mod ends;
mod filled;
mod passing;
mod plain;
mod sessions;
mod threads;

use crq_ring::{Poll, Put};
use vio_num::{Entry, NoMemory};

/// A step of the sender or of the receiver.
#[derive(Clone, Copy)]
pub enum Step {
    /// The entry of this number is put.
    Put(u32),
    Poll,
    /// The entry of this number is put and taken, through the trait.
    Pass(u32),
    /// Each entry from one number to another does this, and all find their places.
    Each(Does, u32, u32),
    /// The next session begins.
    Begin,
    /// The session ends.
    End,
    Enter,
    Leave,
    /// The control word is read.
    Control,
    /// The last session's number is looked at, and whether the queue is open.
    Session,
    /// What the sender has put is noted, and kept.
    Keep,
    /// What was kept is learnt.
    LearnKept,
    /// What the sender has put is noted, and learnt at once.
    Learn,
    /// What the receiver has taken is noted, and known at once.
    Know,
}

/// What an entry does: it is put, or taken, or both.
#[derive(Clone, Copy)]
pub enum Does {
    Put,
    Poll,
    Pass,
}

/// What is seen of a step.
#[derive(Clone, Copy, PartialEq, Eq)]
pub enum Seen {
    /// An entry was put in this place.
    Put(u64),
    /// The slot of this place is full, with entry 0 in it.
    Full(u64),
    /// The entry of this number was taken from its place.
    Got(u64),
    /// The slot of this place is empty.
    Empty(u64),
    /// A session's number, or a control word.
    Number(u64),
    Session(u64, bool),
    Done,
    /// The step has no place here, or did not what it is for.
    Other,
}

/// A step, and what is seen of it.
pub type Row = (Step, Seen);

/// A queue of either form.
pub trait Steps {
    /// Does a step, and tells what is seen of it.
    fn step(&mut self, step: Step) -> Result<Seen, NoMemory>;
}

/// The entry of this number.
pub fn entry(k: u32) -> Entry
    ensures { 2 ^ 63 ≤ result.high }
{
    Entry {
        high: 0x8001_0000_0000_0000 + u64::from(k),
        low: u64::from(k),
    }
}

/// Tells what became of an entry.
pub fn seen_of_put(answer: Put) -> Seen {
    match answer {
        Put::Done { number } => Seen::Put(number),
        Put::Dropped { number, held } if held == entry(0).high => Seen::Full(number),
        _ => Seen::Other,
    }
}

/// Tells what a poll found.
pub fn seen_of_poll(answer: Poll) -> Seen {
    match answer {
        Poll::Got {
            number,
            entry: taken,
        } if taken.low == number && taken.high == entry(0).high.wrapping_add(number) => Seen::Got(
            number,
        ),
        Poll::Empty { number } => Seen::Empty(number),
        _ => Seen::Other,
    }
}

/// Does the steps of the rows, and gives the number of the first of which something else is seen than its row says.
pub fn first_other<S: Steps>(queue: &mut S, rows: &[Row]) -> Result<Option<usize>, NoMemory> {
    for (number, (step, want)) in rows.iter().enumerate() {
        let seen = match step {
            Step::Each(does, from, to) => each(queue, *does, *from, *to)?,
            step => queue.step(*step)?,
        };
        if seen != *want {
            return Ok(Some(number));
        }
    }
    Ok(None)
}

// Does the same with each entry from one number to another, up to the first that does not find its place.
fn each<S: Steps>(queue: &mut S, does: Does, from: u32, to: u32) -> Result<Seen, NoMemory> {
    for k in from..to {
        let (step, want) = match does {
            Does::Put => (Step::Put(k), Seen::Put(u64::from(k))),
            Does::Poll => (Step::Poll, Seen::Got(u64::from(k))),
            Does::Pass => (Step::Pass(k), Seen::Done),
        };
        if queue.step(step)? != want {
            return Ok(Seen::Other);
        }
    }
    Ok(Seen::Done)
}
