// The two ends of a ring, and the notes by which one tells the other what it did.
ghost use Rattle.std.specs.Prelude.{◌≡◌, ◌≤◌, OnOk};
ghost use Rattle.crq_ring.specs.Ring.{ReservesPuts, ReservesPolls, IsLawfulSend, IsLawfulRecv};

use crate::rows::{DropRow, PipeRow};
use crate::view::RingView;
use atomic_table::Seat;
use std::marker::Model;
use vio_num::NoMemory;

/// An end has fewer sessions than this.
const SESSIONS: u64 = 1 << 60;

/// The sender's end of a ring. It keeps what it put, and one record of each number that it dropped.
#[derive(Drop)]
pub struct SendEnd {
    pub(crate) seat: Seat<(), RingView>,
    pub(crate) next: usize,
    pub(crate) session: u64,
    pub(crate) sent: Vec<PipeRow>,
    pub(crate) sent_from: usize,
    pub(crate) drops: Vec<DropRow>,
    pub(crate) full: u64,
}

impl Model for SendEnd {
    ghost use Rattle.std.specs.Prelude.{◌-◌, min, vec_len, vec_capacity};
    ghost use Rattle.crq_ring.specs.Ends.{SendValue};
    ghost use Rattle.crq_ring.specs.EndsKept.{IsEnd};
    ghost use Rattle.crq_ring.specs.Kept.{KeepsDrops};
    ghost use Rattle.crq_ring.specs.declared.view.Role.TheVariants.{Sender};

    ghost Value = { SendValue };

    ghost view = { λ send. record {
      ring = send.seat.table_id;
      session = send.session;
      inside = send.seat.me.0.inside;
      sent = send.sent.items;
      known = send.seat.me.0.other;
      drops = send.drops.items;
      full = send.full;
      spare = min (vec_capacity send.sent - vec_len send.sent)
          (vec_capacity send.drops - vec_len send.drops);
      last = record { count = send.seat.me.0.reads; word = send.seat.me.0.word };
    } };

    ghost invariant = { λ send. record {
      ours : IsEnd Sender send.seat send.next send.session send.sent_from send.sent.items;
      dropping : KeepsDrops send.sent.items send.drops.items send.session send.seat.me.0.slots;
    } };
}

impl SendEnd {
    /// Makes room for this many puts from now on.
    pub fn reserve(&mut self, n: u32) -> Result<(), NoMemory>
        ensures room { OnOk result (n ≤ self.new.spare) }
        ensures rest { ReservesPuts self.old self.new }
    {
        self.sent.reserve(n as usize)?;
        self.drops.reserve(n as usize)?;
        Ok(())
    }

    /// The number of the session that it entered last, 0 before the first.
    pub fn session(&self) -> u64
        ensures session { result ≡ self.now.session }
        ensures laws { IsLawfulSend self.now }
    {
        self.session
    }
}

/// The receiver's end of a ring. It keeps what it took.
#[derive(Drop)]
pub struct RecvEnd {
    pub(crate) seat: Seat<(), RingView>,
    pub(crate) next: usize,
    pub(crate) session: u64,
    pub(crate) is_open: bool,
    pub(crate) renewals: u64,
    pub(crate) taken: Vec<PipeRow>,
    pub(crate) taken_from: usize,
    pub(crate) empty: u64,
}

impl Model for RecvEnd {
    ghost use Rattle.std.specs.Prelude.{◌+◌, ◌-◌, ◌^◌, ◌<◌, vec_len, vec_capacity};
    ghost use Rattle.crq_ring.specs.Ends.{RecvValue};
    ghost use Rattle.crq_ring.specs.EndsKept.{IsEnd, KeepsSession};
    ghost use Rattle.crq_ring.specs.declared.view.Role.TheVariants.{Receiver};

    ghost Value = { RecvValue };

    ghost view = { λ recv. record {
      ring = recv.seat.table_id;
      session = recv.session;
      is_open = recv.is_open;
      taken = recv.taken.items;
      heard = recv.seat.me.0.other;
      empty = recv.empty;
      spare = vec_capacity recv.taken - vec_len recv.taken;
      renewals = recv.renewals;
      last = record { count = recv.seat.me.0.reads; word = recv.seat.me.0.word };
    } };

    ghost invariant = { λ recv. record {
      ours : IsEnd Receiver recv.seat recv.next recv.session recv.taken_from recv.taken.items;
      session : KeepsSession recv.seat recv.is_open recv.session;
      counted : recv.session + recv.renewals < 2 ^ 60;
    } };
}

impl RecvEnd {
    /// Makes room for this many polls and sessions from now on. A ring has fewer than 2^60 sessions, so no
    /// room is found for more than these.
    pub fn reserve(&mut self, n: u32) -> Result<(), NoMemory>
        ensures room { OnOk result (n ≤ self.new.spare) }
        ensures sessions { OnOk result (n ≤ self.new.renewals) }
        ensures rest { ReservesPolls self.old self.new }
    {
        let renewals = self.renewals.max(u64::from(n));
        if self.session + renewals >= SESSIONS {
            return Err(NoMemory);
        }
        self.taken.reserve(n as usize)?;
        self.renewals = renewals;
        Ok(())
    }

    /// The number of the last session, 0 before the first.
    pub fn session(&self) -> u64
        ensures session { result ≡ self.now.session }
        ensures laws { IsLawfulRecv self.now }
    {
        self.session
    }

    /// Whether the queue is open.
    pub fn is_open(&self) -> bool
        ensures { result ≡ self.now.is_open }
    {
        self.is_open
    }
}

/// What a sender had put, for the receiver to learn.
#[derive(Drop)]
pub struct Front {
    pub(crate) seat: Seat<(), RingView>,
}

impl Model for Front {
    ghost use Rattle.crq_ring.specs.Ends.{FrontValue};
    ghost use Rattle.crq_ring.specs.EndsKept.{IsNote};
    ghost use Rattle.crq_ring.specs.declared.view.Role.TheVariants as role;

    ghost Value = { FrontValue };

    ghost view = { λ front. record {
      ring = front.seat.table_id;
      sent = front.seat.me.0.own;
      known = front.seat.me.0.other;
    } };

    ghost invariant = { λ front. IsNote role.Front front.seat };
}

/// What a receiver had taken, for the sender to know.
#[derive(Drop)]
pub struct Room {
    pub(crate) seat: Seat<(), RingView>,
}

impl Model for Room {
    ghost use Rattle.crq_ring.specs.Ends.{RoomValue};
    ghost use Rattle.crq_ring.specs.EndsKept.{IsNote};
    ghost use Rattle.crq_ring.specs.declared.view.Role.TheVariants as role;

    ghost Value = { RoomValue };

    ghost view = { λ room. record {
      ring = room.seat.table_id;
      taken = room.seat.me.0.own;
      heard = room.seat.me.0.other;
    } };

    ghost invariant = { λ room. IsNote role.Room room.seat };
}
