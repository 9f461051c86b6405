// A queue of one direction that two threads share, its sender and its receiver each with an end of their
// own: no call takes a lock.
ghost use Rattle.std.specs.Prelude.{◌≡◌, ◌+◌, ◌%◌, ◌^◌, ◌<◌, ◌≤◌, true, false, IfOk};
ghost use Rattle.crq_ring.specs.declared.TheConstants.{MAX_SLOTS};
ghost use Rattle.crq_ring.specs.Control.{control_word};
ghost use Rattle.crq_ring.specs.Answers.{IfDone, IfDropped, IfGot, IfEmpty};
ghost use Rattle.crq_ring.specs.Ring.{Opens, EndPuts, EndFindsFull, KeepsSending};
ghost use Rattle.crq_ring.specs.Ring.{EndTakes, EndFindsNone, KeepsReceiving};
ghost use Rattle.crq_ring.specs.RingRule.{first_session};
ghost use Rattle.crq_ring.specs.Ring.{IsFrontOf, Learns, OnlyHears, IsRoomOf, Knows, OnlyKnows, Closes};

use crate::control::{INSIDE, OPEN};
use crate::ends::{Front, RecvEnd, Room, SendEnd};
use crate::pipe::PlainPipe;
use crate::port::{Poll, Put};
use crate::records::add_record;
use crate::rows::{DropRow, PipeRow};
use crate::steps::{
    ClearHigh, CutFront, CutRoom, HandNote, HearFront, HearRoom, JoinEnds, Look, PartEnds, Probe,
    ReadLow, RingRule, SendHigh, StageLow,
};
use crate::view::{RingKey, RingView};
use atomic_table::Table;
use std::alloc::Global;
use std::marker::Model;
use vio_num::{Entry, NoMemory};

/// A high half below this has 0 as its first byte.
const FIRST_BYTE: u64 = 1 << 56;

/// A ring of slots in which entries lie between the sender's put and the receiver's poll, and its control
/// word.
#[derive(Drop)]
pub struct Ring {
    pub(crate) table: Table<(), RingView, RingKey, RingRule, Global>,
    pub(crate) slots: usize,
}

impl Model for Ring {
    ghost use Rattle.std.specs.Prelude.{◌≡◌, ◌<◌, ◌≤◌};
    ghost use Rattle.crq_ring.specs.Ends.{RingValue};
    ghost use Rattle.crq_ring.specs.Window.{words_of};
    ghost use Rattle.crq_ring.specs.declared.TheConstants.{MAX_SLOTS};

    ghost Value = { RingValue };

    ghost view = { λ ring. record { id = ring.table.shared.table_id; slots = ring.slots } };

    ghost invariant = { λ ring. record {
      some_slots : 0 < ring.slots;
      few_slots : ring.slots ≤ MAX_SLOTS;
      key : ring.table.shared.key.slots ≡ ring.slots;
      words : ring.table.shared.table_id.words ≡ words_of ring.slots;
      no_homes : ring.table.shared.table_id.slots ≡ 0;
    } };
}

/// A new ring with its two ends.
#[derive(Drop)]
pub struct OpenedRing {
    pub ring: Ring,
    pub send: SendEnd,
    pub recv: RecvEnd,
}

impl Ring {
    /// A ring of 1 to 4,096 slots in session 1, with its sender inside and no room reserved at its ends.
    pub fn open(alloc: Global, slots: u32) -> Result<OpenedRing, NoMemory>
        requires { (1 ≤ slots) × (slots ≤ MAX_SLOTS) }
        ensures { IfOk result (λ opened. Opens true slots opened.ring opened.send opened.recv) }
    {
        Ring::with_key(alloc, slots as usize, true)
    }

    /// A ring of 1 to 4,096 slots that is closed: its control word is 0, and no session has begun.
    pub fn closed(alloc: Global, slots: u32) -> Result<OpenedRing, NoMemory>
        requires { (1 ≤ slots) × (slots ≤ MAX_SLOTS) }
        ensures { IfOk result (λ opened. Opens false slots opened.ring opened.send opened.recv) }
    {
        Ring::with_key(alloc, slots as usize, false)
    }

    // Makes a ring, begun or closed, and its ends.
    fn with_key(alloc: Global, slots: usize, begun: bool) -> Result<OpenedRing, NoMemory>
        requires { (1 ≤ slots) × (slots ≤ MAX_SLOTS) }
        ensures { IfOk result (λ opened. Opens begun slots opened.ring opened.send opened.recv) }
    {
        let session = session_of(begun);
        let mut words = vec![in alloc; 0u64; 2 * slots + 16]?;
        words[2 * slots + 8] = control_of(begun);
        let key = RingKey { slots, begun };
        let (table, mut seat) = Table::of_words(alloc, words.as_slice(), &key)?;
        let other = table.shared.split_seat::<PartEnds>(&mut seat);
        Ok(OpenedRing {
            ring: Ring { table, slots },
            send: SendEnd {
                seat,
                next: 0,
                session,
                sent: Vec::new(alloc),
                sent_from: 0,
                drops: Vec::new(alloc),
                full: 0,
            },
            recv: RecvEnd {
                seat: other,
                next: 0,
                session,
                is_open: begun,
                renewals: 0,
                taken: Vec::new(alloc),
                taken_from: 0,
                empty: 0,
            },
        })
    }

    /// The number of slots.
    pub fn slots(&self) -> u32
        ensures { result ≡ self.now.slots }
    {
        self.slots as u32
    }

    /// Puts an entry whose first byte is at least 0x80 into the next slot, if that is empty. The sender is
    /// inside. Of a number that is dropped one record is kept, however often the put is tried.
    pub fn put(&self, send: &mut SendEnd, entry: Entry) -> Put
        requires ours { send.old.ring ≡ self.now.id }
        requires inside { send.old.inside ≡ true }
        requires spare { 0 < send.old.spare }
        requires used { 2 ^ 63 ≤ entry.high }
        ensures done { IfDone result
            (λ number. EndPuts self.now.slots send.old number entry send.new) }
        ensures dropped { IfDropped result (λ number held.
            EndFindsFull self.now.slots send.old number held send.new) }
        ensures spare { send.old.spare ≤ send.new.spare + 1 }
        ensures rest { KeepsSending send.old send.new }
    {
        let shared = &self.table.shared;
        let at = 2 * send.next;
        let held = shared.load::<Probe>(&mut send.seat, at);
        let number = (send.sent.len() - send.sent_from) as u64;
        if held >= FIRST_BYTE {
            let row = DropRow {
                session: send.session,
                number,
                held,
            };
            add_record(&mut send.drops, row);
            send.full = send.full.saturating_add(1);
            return Put::Dropped { number, held };
        }
        shared.store::<StageLow>(&mut send.seat, at + 1, entry.low);
        shared.store::<SendHigh>(&mut send.seat, at, entry.high);
        send.sent.push_reserved(PipeRow {
            session: send.session,
            entry,
        });
        send.next = slot_after(send.next, self.slots);
        Put::Done { number }
    }

    /// Takes the next entry. The queue is open.
    pub fn poll(&self, recv: &mut RecvEnd) -> Poll
        requires ours { recv.old.ring ≡ self.now.id }
        requires is_open { recv.old.is_open ≡ true }
        requires spare { 0 < recv.old.spare }
        ensures got { IfGot result (λ number entry. EndTakes recv.old number entry recv.new) }
        ensures empty { IfEmpty result (λ number. EndFindsNone recv.old number recv.new) }
        ensures spare { recv.old.spare ≤ recv.new.spare + 1 }
        ensures rest { KeepsReceiving recv.old recv.new }
    {
        let shared = &self.table.shared;
        let at = 2 * recv.next;
        let high = shared.load::<Look>(&mut recv.seat, at);
        let number = (recv.taken.len() - recv.taken_from) as u64;
        if high < FIRST_BYTE {
            recv.empty = recv.empty.saturating_add(1);
            return Poll::Empty { number };
        }
        let low = shared.load::<ReadLow>(&mut recv.seat, at + 1);
        shared.store::<ClearHigh>(&mut recv.seat, at, 0);
        let entry = Entry { high, low };
        recv.taken.push_reserved(PipeRow {
            session: recv.session,
            entry,
        });
        recv.next = slot_after(recv.next, self.slots);
        Poll::Got { number, entry }
    }

    /// Notes what the sender has put so far, for the receiver to learn.
    pub fn front(&self, send: &mut SendEnd) -> Front
        requires ours { send.old.ring ≡ self.now.id }
        ensures front { IsFrontOf send.old result }
        ensures rest { send.new ≡ send.old }
    {
        Front {
            seat: self.table.shared.split_seat::<CutFront>(&mut send.seat),
        }
    }

    /// Tells the receiver of a front. From then on no poll of a session finds nothing at a number below the
    /// front's length in that session.
    pub fn learn(&self, recv: &mut RecvEnd, front: Front)
        requires ours { (recv.old.ring ≡ self.now.id) × (front.ring ≡ self.now.id) }
        ensures learns { Learns recv.old front recv.new }
        ensures rest { OnlyHears recv.old recv.new }
    {
        let shared = &self.table.shared;
        shared.join_seat::<HandNote>(&mut recv.seat, front.seat);
        shared.load::<HearFront>(&mut recv.seat, 0);
    }

    /// Notes what the receiver has taken so far, for the sender to know.
    pub fn room(&self, recv: &mut RecvEnd) -> Room
        requires ours { recv.old.ring ≡ self.now.id }
        ensures room { IsRoomOf recv.old result }
        ensures rest { recv.new ≡ recv.old }
    {
        Room {
            seat: self.table.shared.split_seat::<CutRoom>(&mut recv.seat),
        }
    }

    /// Tells the sender of a room. From then on no put of a session is dropped at a number below the room's
    /// length in that session and the number of slots.
    pub fn know(&self, send: &mut SendEnd, room: Room)
        requires ours { (send.old.ring ≡ self.now.id) × (room.ring ≡ self.now.id) }
        ensures knows { Knows send.old room send.new }
        ensures rest { OnlyKnows send.old send.new }
    {
        let shared = &self.table.shared;
        shared.join_seat::<HandNote>(&mut send.seat, room.seat);
        shared.load::<HearRoom>(&mut send.seat, 0);
    }

    /// Ends the ring: a pipe of exactly what its two ends put, took and dropped, in the receiver's session.
    pub fn close(self, send: SendEnd, recv: RecvEnd) -> PlainPipe
        requires ours { (send.ring ≡ self.id) × (recv.ring ≡ self.id) }
        ensures { Closes self send recv result }
    {
        let Ring { table, slots } = self;
        let SendEnd {
            mut seat,
            next: _,
            session: entered,
            sent,
            sent_from,
            drops,
            full,
        } = send;
        let RecvEnd {
            seat: other,
            next: _,
            session,
            is_open: _,
            renewals,
            taken,
            taken_from,
            empty,
        } = recv;
        table.shared.join_seat::<JoinEnds>(&mut seat, other);
        table.close_with(seat).free();
        let sent_from = if entered == session {
            sent_from
        } else {
            sent.len()
        };
        PlainPipe {
            slots: slots as u32,
            session,
            renewals,
            sent,
            sent_from,
            taken,
            taken_from,
            drops,
            full,
            empty,
        }
    }
}

// The session of a new ring: 1 where it has begun, 0 where it is closed.
fn session_of(begun: bool) -> u64
    ensures { result ≡ first_session begun }
{
    u64::from(begun)
}

// The control word of a new ring, which has its sender inside where it has begun.
fn control_of(begun: bool) -> u64
    ensures { result ≡ control_word (first_session begun) begun begun }
{
    if begun { 8 + INSIDE + OPEN } else { 0 }
}

// Finds the slot behind this one.
fn slot_after(slot: usize, slots: usize) -> usize
    requires { slot < slots }
    ensures { result ≡ (slot + 1) % slots }
{
    if slot + 1 == slots { 0 } else { slot + 1 }
}
