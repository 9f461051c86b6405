// A server with one unit over plain ports, and a script that is played there.
ghost use Rattle.std.specs.Prelude.{◌≡◌, ◌<◌, ◌≤◌, vec_len};

use super::line::Line;
use super::step::Step;
use super::step::Step::{Ask, Register, Send, TakeAny, Turn};
use super::units::{Unit, bytes_of};
use super::windows::{SLOT, Windows};
use block_server::{Finished, Server};
use std::alloc::Global;
use vio_io::{Blocks, MemBlocks, SureBlocks};
use vio_num::{Entry, Grant, Moved, NoMemory, Served};

/// What a script begins with at a server that nobody spoke to: nothing.
pub(super) const NEW: [Step; 0] = [];

/// Both queues are brought up: the unit registers, the client registers and sends Initialize, the unit answers.
pub(super) const UP: [Step; 5] = [
    Turn(Moved::Moved),
    Register,
    Send(Entry::INITIALIZE),
    Turn(Moved::Moved),
    TakeAny,
];

/// The same, and the client logs in with tag 1 in slot 0.
pub(super) const LOGGED_IN: [Step; 8] = [
    Turn(Moved::Moved),
    Register,
    Send(Entry::INITIALIZE),
    Turn(Moved::Moved),
    TakeAny,
    Ask(0, Unit::Login(1)),
    Turn(Moved::Moved),
    TakeAny,
];

/// What was seen of a script.
#[derive(Clone, Copy, Debug, PartialEq, Eq)]
pub(super) struct Played {
    /// The number of the first step that went otherwise, counted from the first of what the script begins with.
    pub other: Option<usize>,
    /// How many logins were granted and ended together, and the last line of them.
    pub lines: usize,
    pub last: Option<Grant>,
    /// How many copies were made.
    pub copies: usize,
}

// A server, and what lies between it and its client.
#[derive(Drop)]
struct Rig<B: Blocks> {
    line: Line,
    windows: Windows,
    server: Server<B>,
    ghost unit: { 0 < vec_len server.units },
    ghost partition: { server.partition ≡ 0 },
}

/// Plays a script at a server over an image of this many blocks of zeros, which grants this many requests.
pub(super) fn play(
    alloc: Global,
    blocks: u32,
    grant: u8,
    start: &[Step],
    script: &[Step],
) -> Result<Played, NoMemory>
    requires some { 1 ≤ blocks }
    requires grants { (1 ≤ grant) × (grant ≤ 200) }
{
    let image = SureBlocks::zeros(alloc, blocks)?;
    let Ok(server) = Server::open(alloc, 0, image, u64::from(blocks), grant, 1) else {
        return Err(NoMemory);
    };
    play_at(alloc, server, start, script)
}

/// Plays a script so, and gives the number of the first step that went otherwise.
pub(super) fn first_other_from(
    alloc: Global,
    blocks: u32,
    grant: u8,
    start: &[Step],
    script: &[Step],
) -> Result<Option<usize>, NoMemory>
    requires some { 1 ≤ blocks }
    requires grants { (1 ≤ grant) × (grant ≤ 200) }
{
    Ok(play(alloc, blocks, grant, start, script)?.other)
}

/// The same at a server whose client is logged in with a grant of eight requests.
pub(super) fn first_other(
    alloc: Global,
    blocks: u32,
    script: &[Step],
) -> Result<Option<usize>, NoMemory>
    requires { 1 ≤ blocks }
{
    first_other_from(alloc, blocks, 8, &LOGGED_IN, script)
}

/// Plays a script at a server over an image of 16 blocks of zeros, of which the device's call of this number fails.
pub(super) fn play_failing(
    alloc: Global,
    call: u64,
    start: &[Step],
    script: &[Step],
) -> Result<Played, NoMemory> {
    let mut failing = Vec::new(alloc);
    failing.push(call)?;
    let image = MemBlocks::new(vec![in alloc; [0; 512]; 16]?, failing);
    let Ok(server) = Server::open(alloc, 0, image, 16, 8, 1) else {
        return Err(NoMemory);
    };
    play_at(alloc, server, start, script)
}

// Plays a script at a server with new queues and windows around it.
fn play_at<B: Blocks + Drop>(
    alloc: Global,
    server: Server<B>,
    start: &[Step],
    script: &[Step],
) -> Result<Played, NoMemory>
    requires unit { 0 < vec_len server.units }
    requires partition { server.partition ≡ 0 }
{
    let mut rig = Rig {
        line: Line::open(alloc)?,
        windows: Windows::open(alloc)?,
        server,
    };
    let other = rig.play(start, script)?;
    Ok(seen_of(other, rig.server.finish()))
}

// Gives what was seen of a script.
fn seen_of<B: Drop>(other: Option<usize>, finished: Finished<B>) -> Played {
    Played {
        other,
        lines: finished.grants.len(),
        last: finished.grants.as_slice().last().copied(),
        copies: finished.copies.len(),
    }
}

impl<B: Blocks> Rig<B> {
    // Does the steps, up to the first that goes otherwise, whose number it gives.
    fn play(&mut self, start: &[Step], script: &[Step]) -> Result<Option<usize>, NoMemory> {
        for (number, step) in start.iter().chain(script.iter()).enumerate() {
            if !self.does(*step)? {
                return Ok(Some(number));
            }
        }
        Ok(None)
    }

    // Does a step, and tells whether it went so.
    fn does(&mut self, step: Step) -> Result<bool, NoMemory> {
        match step {
            Step::Turn(moved) => Ok(self.turn()? == moved),
            Step::Turns(count) => self.turns(count),
            Step::Settle => Ok(self.settles()),
            Step::Ask(slot, unit) => self.ask(slot, unit),
            Step::AskAll(count) => self.ask_all(count),
            Step::Rows(_, _) | Step::Row(_, _) | Step::Fault(_, _) => {
                Ok(tells(self.server.history(), step))
            }
            Step::Shows(_, _)
            | Step::Says(_, _, _, _)
            | Step::Fill(_, _)
            | Step::Holds(_, _)
            | Step::Table(_, _)
            | Step::PutTce(_, _) => self.windows.does(step),
            _ => self.line.does(step),
        }
    }

    fn turn(&mut self) -> Result<Moved, NoMemory> {
        self.line.turn(&mut self.server, &mut self.windows)
    }

    // Has this many turns, up to one that does not move.
    fn turns(&mut self, count: u16) -> Result<bool, NoMemory> {
        for _ in 0..count {
            if self.turn()? != Moved::Moved {
                return Ok(false);
            }
        }
        Ok(true)
    }

    // Has turns up to one that does not move, also behind one that found no memory, and tells whether that came.
    fn settles(&mut self) -> bool {
        for _ in 0..1_000 {
            if self.turn() == Ok(Moved::Quiet) {
                return true;
            }
        }
        false
    }

    // Writes a unit into a slot, and sends its entry.
    fn ask(&mut self, slot: u8, unit: Unit) -> Result<bool, NoMemory> {
        let at = SLOT * u64::from(slot);
        let bytes = bytes_of(unit);
        if !self.windows.write(at, bytes.as_slice()) {
            return Ok(false);
        }
        self.line.send(Entry::srp(bytes.len() as u16, at))
    }

    fn ask_all(&mut self, count: u16) -> Result<bool, NoMemory> {
        for n in 0..count {
            if !self.ask(1, Unit::Ready(2 + u64::from(n)))? {
                return Ok(false);
            }
        }
        Ok(true)
    }
}

// Tells whether a history is as a step says.
fn tells(history: &[Served], step: Step) -> bool {
    match step {
        Step::Rows(rows, answered) => history.len() == rows && answered_of(history) == answered,
        Step::Row(row, lengths) => history.get(row).map(lengths_of) == Some(lengths),
        Step::Fault(row, call) => history.get(row).and_then(|row| row.fault) == Some(call),
        _ => false,
    }
}

// Counts the rows that are answered.
fn answered_of(history: &[Served]) -> usize {
    let mut answered: usize = 0;
    for row in history {
        if !row.answer.as_slice().is_empty() {
            answered = answered.saturating_add(1);
        }
    }
    answered
}

// Gives the lengths of the data-out, of the data-in and of the answer of a row.
fn lengths_of(row: &Served) -> (usize, usize, usize) {
    (
        row.out.as_slice().len(),
        row.inn.as_slice().len(),
        row.answer.as_slice().len(),
    )
}
