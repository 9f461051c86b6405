// One side of a plain link, and the calls of its end on it and on its partner's.
ghost use Rattle.std.specs.Prelude.{◌≡◌, ◌<◌, IsTrue, IsNone, false};
ghost use Rattle.crq_session.specs.Control.{IsQueueSize, fits_queue};

use crate::PAGE_SLOTS;
use crate::answers::{EventAnswer, FreeAnswer, PollAnswer, RegAnswer, SendAnswer};
use crq_ring::{PlainPipe, Poll, Put};
use std::alloc::Global;
use vio_num::{Entry, NoMemory, PAGE_BYTES};

/// One side of a plain link.
#[derive(Debug, Drop)]
pub(crate) struct PlainSide {
    /// The queue from which this side polls.
    pub(crate) queue: PlainPipe,
    registered: bool,
    // The event of this side that found the partner's queue full.
    kept: Option<Entry>,
    // How often the partner's control word was read and was not open.
    closed: u64,
    ghost sized: { IsQueueSize queue.slots },
    ghost begun: { IsTrue registered → 0 < queue.session },
    ghost idle: { IsTrue registered → IsNone kept },
}

/// Whether this is the address and the length in bytes of a queue of this many slots.
pub(crate) fn is_of_queue(slots: u32, address: u64, bytes: u64) -> bool
    ensures { result ≡ fits_queue slots address bytes }
{
    address % PAGE_BYTES == 0 && bytes == u64::from(slots / PAGE_SLOTS) * PAGE_BYTES
}

impl PlainSide {
    ghost use Rattle.std.specs.Prelude.{◌↔◌, ◌+◌, ◌≤◌, Bool, true, false, None, List, IfOk, OnOk, IfSome, IfNone};
    ghost use Rattle.vio_num.specs.Counts.{Rose};
    ghost use Rattle.vio_num.specs.Entry.{first_byte};
    ghost use Rattle.crq_ring.specs.Pipe.{IsLawfulPipe, HasRoom};
    ghost use Rattle.crq_session.specs.declared.answers.RegAnswer.TheVariants as reg;
    ghost use Rattle.crq_session.specs.declared.answers.FreeAnswer.TheVariants as freeing;
    ghost use Rattle.crq_session.specs.declared.answers.SendAnswer.TheVariants as sending;
    ghost use Rattle.crq_session.specs.declared.answers.PollAnswer.TheVariants as polling;
    ghost use Rattle.crq_session.specs.Side.{IsNewSide, KeepsSide, IsClosedWordOf};

    /// A side whose queue has this many slots and is not registered.
    pub(crate) fn open(alloc: Global, slots: u32) -> Result<PlainSide, NoMemory>
        requires { IsQueueSize slots }
        ensures { IfOk result (λ side. IsNewSide side slots) }
    {
        Ok(PlainSide {
            queue: PlainPipe::closed(alloc, slots)?,
            registered: false,
            kept: None,
            closed: 0,
        })
    }

    /// Whether its queue is registered.
    pub(crate) fn is_registered(&self) -> bool
        ensures { result ≡ self.now.registered }
    {
        self.registered
    }

    /// A side with this queue, registered or not, and the event that it keeps.
    pub(crate) fn of(
        queue: PlainPipe,
        registered: bool,
        kept: Option<Entry>,
        closed: u64,
    ) -> PlainSide
        requires sized { IsQueueSize queue.slots }
        requires begun { registered ≡ true → 0 < queue.session }
        requires idle { registered ≡ true → IsNone kept }
        ensures queue { result.queue ≡ queue }
        ensures registered { result.registered ≡ registered }
        ensures kept { result.kept ≡ kept }
        ensures closed { result.closed ≡ closed }
    {
        PlainSide {
            queue,
            registered,
            kept,
            closed,
        }
    }

    /// The number of slots of the queue.
    pub(crate) fn slots(&self) -> u32
        ensures slots { result ≡ self.now.queue.slots }
        ensures size { IsQueueSize result }
    {
        self.queue.slots()
    }

    /// The number of the queue's last session.
    pub(crate) fn session(&self) -> u64
        ensures session { result ≡ self.now.queue.session }
        ensures laws { IsLawfulPipe self.now.queue }
        ensures begun { self.now.registered ≡ true → 1 ≤ self.now.queue.session }
        ensures idle { self.now.registered ≡ true → self.now.kept ≡ None }
    {
        self.queue.session()
    }

    /// Makes room for this many calls of each kind.
    pub(crate) fn reserve(&mut self, partner: &mut PlainSide, n: u32) -> Result<(), NoMemory>
        ensures own { OnOk result (HasRoom self.new.queue n) }
        ensures partner { OnOk result (HasRoom partner.new.queue n) }
        ensures own_rest { KeepsSide self.old self.new }
        ensures partner_rest { KeepsSide partner.old partner.new }
    {
        self.queue.reserve(n)?;
        partner.queue.reserve(n)
    }

    // Reads the partner's control word, and gives it where it is not open. No sender is ever inside.
    fn closed_word(&mut self, partner: &PlainSide) -> Option<u64>
        ensures none { IfNone result ((partner.now.registered ≡ true) × (self.new ≡ self.old)) }
        ensures partner { IfSome result (λ _. partner.now.registered ≡ false) }
        ensures word { IfSome result (IsClosedWordOf partner.now) }
        ensures closed { IfSome result (λ _. Rose self.old.closed self.new.closed) }
        ensures later { self.old.closed ≤ self.new.closed }
        ensures queue { self.new.queue ≡ self.old.queue }
        ensures registered { self.new.registered ≡ self.old.registered }
        ensures kept { self.new.kept ≡ self.old.kept }
    {
        if partner.registered {
            return None;
        }
        self.closed = self.closed.saturating_add(1);
        Some(partner.queue.session() * 8)
    }
}

impl PlainSide {
    ghost use Rattle.std.specs.Prelude.{true, None};
    ghost use Rattle.crq_ring.specs.Pipe.{Renews};
    ghost use Rattle.crq_session.specs.Answers.{OnNothing, OnPut, IfKept};
    ghost use Rattle.crq_session.specs.Answered.{Pushes, PutsNone, StillKept, Puts, Loses, FindsFull, Settles};
    ghost use Rattle.crq_session.specs.Calls.{IsRegistration, IsFree, IsSend, IsPoll};
    ghost use Rattle.crq_session.specs.EndState.{OnlyPushes};
    ghost use Rattle.crq_session.specs.Side.{At, IsKeptBy, OnNotKept, Spends, KeepsPartner};

    /// Sends an entry to the partner's queue.
    pub(crate) fn send(&mut self, partner: &mut PlainSide, entry: Entry) -> SendAnswer
        requires { 0 < partner.old.queue.room.puts }
        ensures { IsSend self.old partner.old entry result self.new partner.new }
    {
        if entry.to_bytes()[0] < 0x80 {
            return SendAnswer::Parameter;
        }
        if !self.registered {
            return SendAnswer::NotRegistered;
        }
        if let Some(control) = self.closed_word(partner) {
            return SendAnswer::Closed { control };
        }
        match partner.queue.put(entry) {
            Put::Done { number } => SendAnswer::Success { number },
            Put::Dropped { number, held } => SendAnswer::Dropped { number, held },
        }
    }

    /// Takes the next entry of the own queue.
    pub(crate) fn poll(&mut self, partner: &mut PlainSide) -> PollAnswer
        requires { 0 < self.old.queue.room.polls }
        ensures { IsPoll self.old partner.old result self.new partner.new }
    {
        if !self.registered {
            return PollAnswer::NotRegistered;
        }
        match self.queue.poll() {
            Poll::Got { number, entry } => PollAnswer::Got { number, entry },
            Poll::Empty { number } => PollAnswer::Empty { number },
        }
    }

    // Puts an event of this side, which is not registered, into the partner's queue: it is kept where its
    // slot is full, and lost where the partner's queue is not registered.
    fn put_event(&mut self, partner: &mut PlainSide, event: Entry) -> EventAnswer
        requires unregistered { self.old.registered ≡ false }
        requires room { 0 < partner.old.queue.room.puts }
        ensures nothing { At (λ old new. OnNothing result (Loses false old new))
            self.old partner.old self.new partner.new }
        ensures put { At (λ old new. OnPut result (Puts false old event new))
            self.old partner.old self.new partner.new }
        ensures still { At (λ old new. IfKept result (FindsFull false old new))
            self.old partner.old self.new partner.new }
        ensures kept { IsKeptBy result event self.new.kept }
        ensures open { OnNothing result (partner.old.registered ≡ false) }
        ensures unregistered { self.new.registered ≡ false }
        ensures rest { At (λ old new. OnlyPushes false old new)
            self.old partner.old self.new partner.new }
        ensures own { self.new.queue ≡ self.old.queue }
        ensures room { Spends self.old partner.old self.new partner.new }
        ensures keeps { KeepsPartner self.old partner.old self.new partner.new }
    {
        self.kept = None;
        if self.closed_word(partner).is_some() {
            return EventAnswer::Nothing;
        }
        match partner.queue.put(event) {
            Put::Done { .. } => EventAnswer::Put,
            Put::Dropped { number, held } => {
                self.kept = Some(event);
                EventAnswer::Kept { number, held }
            }
        }
    }

    /// Puts the event that is kept, if there is one.
    pub(crate) fn push_event(&mut self, partner: &mut PlainSide) -> EventAnswer
        requires { 0 < partner.old.queue.room.puts }
        ensures nothing { At (λ old new. OnNothing result (PutsNone false old new))
            self.old partner.old self.new partner.new }
        ensures put { At (λ old new. OnPut result (Pushes false old new))
            self.old partner.old self.new partner.new }
        ensures settles { At (λ old new. OnNotKept result (Settles false self.old.kept old new))
            self.old partner.old self.new partner.new }
        ensures none { OnNotKept result (self.new.kept ≡ None) }
        ensures registered { self.new.registered ≡ self.old.registered }
        ensures still { At (λ old new. IfKept result (StillKept false old new))
            self.old partner.old self.new partner.new }
        ensures rest { At (λ old new. OnlyPushes false old new)
            self.old partner.old self.new partner.new }
        ensures own { self.new.queue ≡ self.old.queue }
        ensures room { Spends self.old partner.old self.new partner.new }
        ensures keeps { KeepsPartner self.old partner.old self.new partner.new }
    {
        match self.kept {
            Some(event) => self.put_event(partner, event),
            None => EventAnswer::Nothing,
        }
    }

    // Opens the next session, once no event of this side is left to be put.
    fn open_session(&mut self)
        requires none_kept { self.old.kept ≡ None }
        requires room { 0 < self.old.queue.room.renewals }
        ensures queue { Renews self.old.queue self.new.queue }
        ensures registered { self.new.registered ≡ true }
        ensures kept { self.new.kept ≡ None }
        ensures closed { self.new.closed ≡ self.old.closed }
    {
        self.queue.renew();
        self.registered = true;
    }

    /// Registers the own queue, after the kept event was put.
    pub(crate) fn register(&mut self, partner: &mut PlainSide, ioba: u64, length: u64) -> RegAnswer
        requires room { 0 < partner.old.queue.room.puts }
        requires sessions { 0 < self.old.queue.room.renewals }
        ensures { IsRegistration self.old partner.old ioba length result self.new partner.new }
    {
        if !is_of_queue(self.slots(), ioba, length) {
            return RegAnswer::Parameter;
        }
        if self.registered {
            return RegAnswer::Resource;
        }
        if let EventAnswer::Kept { number, held } = self.push_event(partner) {
            return RegAnswer::Busy { number, held };
        }
        self.open_session();
        match self.closed_word(partner) {
            Some(control) => RegAnswer::Closed { control },
            None => RegAnswer::Success,
        }
    }

    /// Closes the session of the own queue, and puts this event into the partner's.
    pub(crate) fn free(&mut self, partner: &mut PlainSide, event: Entry) -> FreeAnswer
        requires { 0 < partner.old.queue.room.puts }
        ensures { IsFree self.old partner.old event result self.new partner.new }
    {
        if !self.registered {
            return FreeAnswer::Parameter;
        }
        self.registered = false;
        self.put_event(partner, event);
        FreeAnswer::Success
    }
}
