// A seat at a shared link: the receiver's end of its own queue and the sender's of its partner's, and the
// calls of its end.
ghost use Rattle.std.specs.Prelude.{◌≡◌, ◌^◌, ◌≤◌, true, IsNone, IfSome};
ghost use Rattle.std.proofs.Props.{props};

use crate::answers::{EventAnswer, FreeAnswer, PollAnswer, RegAnswer, SendAnswer};
use crate::side::is_of_queue;
use crq_ring::laws::Enter;
use crq_ring::{Poll, Put, RecvEnd, Ring, SendEnd};
use vio_num::{Entry, NoMemory};

/// One side of a shared link.
#[derive(Drop)]
pub struct LinkSeat {
    pub(crate) first: bool,
    pub(crate) recv: RecvEnd,
    pub(crate) send: SendEnd,
    // The event of this side that found the partner's queue full.
    pub(crate) kept: Option<Entry>,
    // How often the partner's control word was read and was not open, or was of another session.
    pub(crate) closed: u64,
    // How often the own control word was read with a sender inside.
    pub(crate) in_use: u64,
    ghost idle: { recv.is_open ≡ true → IsNone kept },
    ghost marked: { IfSome kept (λ event. 2 ^ 63 ≤ event.high) } by { Prim.hlevel props },
}

/// What became of an entry for the partner.
#[derive(Clone, Copy)]
pub(crate) enum Passed {
    Put { number: u64 },
    /// The partner's queue was closed, or in another session, as this control word shows.
    Closed { control: u64 },
    Full { number: u64, held: u64 },
}

impl LinkSeat {
    ghost use Rattle.std.specs.Prelude.{◌<◌, false, None, OnOk};
    ghost use Rattle.crq_ring.specs.Ends.{MayEnter, MayPoll};
    ghost use Rattle.crq_ring.specs.Ring.{IsLawfulSend, IsLawfulRecv};
    ghost use Rattle.crq_session.specs.EndState.{OnlyReserves};
    ghost use Rattle.crq_session.specs.SeatState.{Anywhere, IsNewSeat, KeepsSeat, seat_spare_of};
    ghost use Rattle.crq_session.specs.SeatCalls.{IsPass, IsSeatSend, IsSeatPoll, IsSeatEvent, IsSeatPush};
    ghost use Rattle.crq_session.specs.SeatCalls.{SendRead, SeesWord};
    ghost use Rattle.crq_session.specs.Answered.{FindsClosed};
    ghost use Rattle.crq_session.specs.SeatCalls.{IsSeatRegistration, IsSeatFree};

    /// The seat of the first side or the second, before its first call.
    pub(crate) fn new(first: bool, recv: RecvEnd, send: SendEnd) -> LinkSeat
        ensures seat { IsNewSeat result first }
        ensures recv { result.recv ≡ recv }
        ensures send { result.send ≡ send }
    {
        LinkSeat {
            first,
            recv,
            send,
            kept: None,
            closed: 0,
            in_use: 0,
        }
    }

    /// The number of the own queue's last session.
    pub(crate) fn session(&self) -> u64
        ensures session { result ≡ self.now.recv.session }
        ensures send { IsLawfulSend self.now.send }
        ensures recv { IsLawfulRecv self.now.recv }
        ensures idle { self.now.recv.is_open ≡ true → self.now.kept ≡ None }
    {
        self.send.session();
        self.recv.session()
    }

    /// Makes room for this many calls of each kind.
    pub(crate) fn reserve(&mut self, n: u32) -> Result<(), NoMemory>
        requires outside { self.old.send.inside ≡ false }
        ensures room { OnOk result (n ≤ seat_spare_of self.new) }
        ensures spare { seat_spare_of self.old ≤ seat_spare_of self.new }
        ensures rest { Anywhere OnlyReserves self.old self.new }
        ensures keeps { KeepsSeat self.old self.new }
    {
        self.send.reserve(n)?;
        self.recv.reserve(n)
    }

    // Enters the partner's queue, puts an entry and leaves.
    fn pass(&mut self, partner: &Ring, entry: Entry) -> Passed
        requires outside { MayEnter partner.now self.old.send }
        requires spare { 0 < self.old.send.spare }
        requires used { 2 ^ 63 ≤ entry.high }
        ensures { IsPass partner.now self.old entry result self.new }
    {
        if let Enter::Closed { control } = partner.enter(&mut self.send) {
            self.closed = self.closed.saturating_add(1);
            return Passed::Closed { control };
        }
        let put = partner.put(&mut self.send, entry);
        partner.leave(&mut self.send);
        match put {
            Put::Done { number } => Passed::Put { number },
            Put::Dropped { number, held } => Passed::Full { number, held },
        }
    }

    /// Sends an entry to the partner's queue.
    pub(crate) fn send(&mut self, partner: &Ring, entry: Entry) -> SendAnswer
        requires outside { MayEnter partner.now self.old.send }
        requires spare { 0 < self.old.send.spare }
        ensures { IsSeatSend partner.now self.old entry result self.new }
    {
        if entry.to_bytes()[0] < 0x80 {
            return SendAnswer::Parameter;
        }
        if !self.recv.is_open() {
            return SendAnswer::NotRegistered;
        }
        match self.pass(partner, entry) {
            Passed::Put { number } => SendAnswer::Success { number },
            Passed::Closed { control } => SendAnswer::Closed { control },
            Passed::Full { number, held } => SendAnswer::Dropped { number, held },
        }
    }

    /// Takes the next entry of the own queue.
    pub(crate) fn poll(&mut self, own: &Ring) -> PollAnswer
        requires ours { self.old.recv.ring ≡ own.now.id }
        requires outside { self.old.send.inside ≡ false }
        requires spare { 0 < self.old.recv.spare }
        ensures { IsSeatPoll self.old result self.new }
    {
        if !self.recv.is_open() {
            return PollAnswer::NotRegistered;
        }
        match own.poll(&mut self.recv) {
            Poll::Got { number, entry } => PollAnswer::Got { number, entry },
            Poll::Empty { number } => PollAnswer::Empty { number },
        }
    }

    // Puts an event of this side, which is not registered, into the partner's queue: it is kept where its
    // slot is full, and lost where the partner's queue is closed or in another session.
    fn put_event(&mut self, partner: &Ring, event: Entry) -> EventAnswer
        requires outside { MayEnter partner.now self.old.send }
        requires closed { self.old.recv.is_open ≡ false }
        requires spare { 0 < self.old.send.spare }
        requires used { 2 ^ 63 ≤ event.high }
        ensures { IsSeatEvent partner.now self.old event result self.new }
    {
        self.kept = None;
        match self.pass(partner, event) {
            Passed::Put { .. } => EventAnswer::Put,
            Passed::Closed { .. } => EventAnswer::Nothing,
            Passed::Full { number, held } => {
                self.kept = Some(event);
                EventAnswer::Kept { number, held }
            }
        }
    }

    /// Puts the event that is kept, if there is one.
    pub(crate) fn push_event(&mut self, partner: &Ring) -> EventAnswer
        requires outside { MayEnter partner.now self.old.send }
        requires spare { 0 < self.old.send.spare }
        ensures { IsSeatPush partner.now self.old result self.new }
    {
        match self.kept {
            Some(event) => self.put_event(partner, event),
            None => EventAnswer::Nothing,
        }
    }

    // Reads the partner's control word, and gives it where it is not open.
    fn closed_word(&mut self, partner: &Ring) -> Option<u64>
        requires outside { MayEnter partner.now self.old.send }
        ensures word { IfSome result (λ word.
            Anywhere (λ x y. FindsClosed true x y word) self.old self.new) }
        ensures read { IfSome result (SendRead self.old self.new) }
        ensures rest { SeesWord self.old self.new }
    {
        let control = partner.control(&mut self.send);
        if control % 2 == 1 {
            return None;
        }
        self.closed = self.closed.saturating_add(1);
        Some(control)
    }

    /// Registers the own queue, after the kept event was put.
    pub(crate) fn register(
        &mut self,
        own: &Ring,
        partner: &Ring,
        ioba: u64,
        length: u64,
    ) -> RegAnswer
        requires ours { self.old.recv.ring ≡ own.now.id }
        requires outside { MayEnter partner.now self.old.send }
        requires spare { 0 < self.old.send.spare }
        requires sessions { 0 < self.old.recv.renewals }
        ensures { IsSeatRegistration own.now partner.now self.old ioba length result self.new }
    {
        if !is_of_queue(own.slots(), ioba, length) {
            return RegAnswer::Parameter;
        }
        if self.recv.is_open() {
            return RegAnswer::Resource;
        }
        if let EventAnswer::Kept { number, held } = self.push_event(partner) {
            return RegAnswer::Busy { number, held };
        }
        own.begin(&mut self.recv);
        match self.closed_word(partner) {
            Some(control) => RegAnswer::Closed { control },
            None => RegAnswer::Success,
        }
    }

    /// Ends the session of the own queue, and puts this event into the partner's.
    pub(crate) fn free(&mut self, own: &Ring, partner: &Ring, event: Entry) -> FreeAnswer
        requires ours { self.old.recv.ring ≡ own.now.id }
        requires outside { MayEnter partner.now self.old.send }
        requires spare { 0 < self.old.send.spare }
        requires used { 2 ^ 63 ≤ event.high }
        ensures { IsSeatFree partner.now self.old event result self.new }
    {
        if !self.recv.is_open() {
            return FreeAnswer::Parameter;
        }
        if let Some(control) = own.end(&mut self.recv) {
            self.in_use = self.in_use.saturating_add(1);
            return FreeAnswer::Busy { control };
        }
        self.put_event(partner, event);
        FreeAnswer::Success
    }
}
