// Both ends of a ring in one hand, and their steps.
ghost use Rattle.std.specs.Prelude.{◌≡◌, ◌≤◌, IfSome};
ghost use Rattle.std.proofs.Props.{props};

use super::passing::pass_shared;
use super::{Row, Seen, Step, Steps, entry, first_other, seen_of_poll, seen_of_put};
use crq_ring::laws::Enter;
use crq_ring::{Front, OpenedRing, PlainPipe, RecvEnd, Ring, SendEnd};
use std::alloc::Global;
use vio_num::NoMemory;

// A ring with both its ends, and a note of what its sender had put.
#[derive(Drop)]
struct Ends {
    ring: Ring,
    send: SendEnd,
    recv: RecvEnd,
    inside: bool,
    kept: Option<Front>,
    ghost sends: { send.ring ≡ ring.id },
    ghost receives: { recv.ring ≡ ring.id },
    ghost stands: { send.inside ≡ inside },
    ghost notes: { IfSome kept (λ front. front.ring ≡ ring.id) } by { Prim.hlevel props },
}

impl Ends {
    // A ring of this many slots that is open, with its sender inside.
    fn open(alloc: Global, slots: u32) -> Result<Ends, NoMemory>
        requires { (1 ≤ slots) × (slots ≤ 4096) }
    {
        let OpenedRing { ring, send, recv } = Ring::open(alloc, slots)?;
        Ok(Ends {
            ring,
            send,
            recv,
            inside: true,
            kept: None,
        })
    }

    // A ring of this many slots that is closed.
    fn closed(alloc: Global, slots: u32) -> Result<Ends, NoMemory>
        requires { (1 ≤ slots) × (slots ≤ 4096) }
    {
        let OpenedRing { ring, send, recv } = Ring::closed(alloc, slots)?;
        Ok(Ends {
            ring,
            send,
            recv,
            inside: false,
            kept: None,
        })
    }

    fn put(&mut self, k: u32) -> Result<Seen, NoMemory> {
        self.send.reserve(1)?;
        if self.inside {
            Ok(seen_of_put(self.ring.put(&mut self.send, entry(k))))
        } else {
            Ok(Seen::Other)
        }
    }

    fn poll(&mut self) -> Result<Seen, NoMemory> {
        self.recv.reserve(1)?;
        if self.recv.is_open() {
            Ok(seen_of_poll(self.ring.poll(&mut self.recv)))
        } else {
            Ok(Seen::Other)
        }
    }

    fn pass(&mut self, k: u32) -> Result<Seen, NoMemory> {
        let is_open = self.inside && self.recv.is_open();
        if is_open && self.send.session() == self.recv.session() {
            pass_shared(&self.ring, &mut self.send, &mut self.recv, k)
        } else {
            Ok(Seen::Other)
        }
    }

    fn begin(&mut self) -> Result<Seen, NoMemory> {
        self.recv.reserve(1)?;
        if self.recv.is_open() {
            Ok(Seen::Other)
        } else {
            Ok(Seen::Number(self.ring.begin(&mut self.recv)))
        }
    }

    fn end(&mut self) -> Seen {
        if !self.recv.is_open() {
            return Seen::Other;
        }
        match self.ring.end(&mut self.recv) {
            Some(control) => Seen::Number(control),
            None => Seen::Done,
        }
    }

    fn enter(&mut self) -> Seen {
        if self.inside {
            return Seen::Other;
        }
        match self.ring.enter(&mut self.send) {
            Enter::Inside => {
                self.inside = true;
                Seen::Done
            }
            Enter::Closed { control } => Seen::Number(control),
        }
    }

    fn leave(&mut self) -> Seen {
        if !self.inside {
            return Seen::Other;
        }
        self.ring.leave(&mut self.send);
        self.inside = false;
        Seen::Done
    }

    // Reads the control word, or notes what one end has done for the other.
    fn note(&mut self, step: Step) -> Seen {
        match step {
            Step::Control => return Seen::Number(self.ring.control(&mut self.send)),
            Step::Keep => self.kept = Some(self.ring.front(&mut self.send)),
            Step::LearnKept => match self.kept.take() {
                Some(front) => self.ring.learn(&mut self.recv, front),
                None => return Seen::Other,
            },
            Step::Learn => {
                let front = self.ring.front(&mut self.send);
                self.ring.learn(&mut self.recv, front);
            }
            Step::Know => {
                let room = self.ring.room(&mut self.recv);
                self.ring.know(&mut self.send, room);
            }
            _ => return Seen::Other,
        }
        Seen::Done
    }
}

/// What the steps of the rows leave of a ring of this many slots; the number of the first row of which something else
/// is seen.
type Played = Result<(Option<usize>, PlainPipe), NoMemory>;

/// Does the steps of the rows at an open ring of this many slots, and ends it.
pub fn played_open(alloc: Global, slots: u32, rows: &[Row]) -> Played
    requires { (1 ≤ slots) × (slots ≤ 4096) }
{
    played(Ends::open(alloc, slots)?, rows)
}

/// Does the steps of the rows at a closed ring of this many slots, and ends it.
pub fn played_closed(alloc: Global, slots: u32, rows: &[Row]) -> Played
    requires { (1 ≤ slots) × (slots ≤ 4096) }
{
    played(Ends::closed(alloc, slots)?, rows)
}

fn played(mut ends: Ends, rows: &[Row]) -> Played {
    let other = first_other(&mut ends, rows)?;
    let Ends {
        ring,
        send,
        recv,
        ..
    } = ends;
    Ok((other, ring.close(send, recv)))
}

impl Steps for Ends {
    fn step(&mut self, step: Step) -> Result<Seen, NoMemory> {
        match step {
            Step::Put(k) => self.put(k),
            Step::Poll => self.poll(),
            Step::Pass(k) => self.pass(k),
            Step::Begin => self.begin(),
            Step::End => Ok(self.end()),
            Step::Enter => Ok(self.enter()),
            Step::Leave => Ok(self.leave()),
            Step::Session => Ok(Seen::Session(self.recv.session(), self.recv.is_open())),
            _ => Ok(self.note(step)),
        }
    }
}
