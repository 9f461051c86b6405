// A queue of one direction as lists: what was put, what was taken, and what found its slot full. The
// queue law and the drop law hold of each of its sessions.
ghost use Rattle.std.specs.Prelude.{◌≡◌, ◌+◌, ◌^◌, ◌<◌, ◌≤◌, ℕ, IfOk, OnOk, length};
ghost use Rattle.crq_ring.specs.declared.TheConstants.{MAX_SLOTS};
ghost use Rattle.std.specs.List.{slice_get};
ghost use Rattle.vio_num.specs.Queue.{Handed};
ghost use Rattle.crq_ring.specs.Answers.{IfDone, IfDropped, IfGot, IfEmpty};
ghost use Rattle.crq_ring.specs.Pipe.{sent_now, taken_now, IsEmptyPipe, IsLawfulPipe};
ghost use Rattle.crq_ring.specs.Pipe.{Receives, Overflows, OnlyReceives, Yields, RunsDry, OnlyYields};
ghost use Rattle.crq_ring.specs.Pipe.{Renews, OnlyReserves, HasRoom};
ghost use Rattle.crq_ring.specs.Port.{port_of};
ghost use Rattle.crq_ring.specs.Sessions.{of_session, LawfulDrops};

use crate::port::{CrqPort, Poll, Put};
use crate::records::{add_record, entry_at};
use crate::rows::{DropRow, PipeRow};
use std::alloc::Global;
use std::marker::Model;
use vio_num::{Entry, NoMemory};

/// A pipe has fewer sessions than this.
const SESSIONS: u64 = 1 << 60;

/// The plain form of a queue of one direction. Each row is kept with the number of its session.
#[derive(Debug, Drop)]
pub struct PlainPipe {
    pub(crate) slots: u32,
    pub(crate) session: u64,
    pub(crate) renewals: u64,
    pub(crate) sent: Vec<PipeRow>,
    pub(crate) sent_from: usize,
    pub(crate) taken: Vec<PipeRow>,
    pub(crate) taken_from: usize,
    pub(crate) drops: Vec<DropRow>,
    pub(crate) full: u64,
    pub(crate) empty: u64,
}

impl Model for PlainPipe {
    ghost use Rattle.std.specs.Prelude.{◌+◌, ◌-◌, ◌^◌, ◌<◌, ◌≤◌, min, vec_len, vec_capacity};
    ghost use Rattle.crq_ring.specs.Pipe.{PipeValue};
    ghost use Rattle.crq_ring.specs.Kept.{Present, HandsOver, KeepsDrops};
    ghost use Rattle.crq_ring.specs.declared.TheConstants.{MAX_SLOTS};

    ghost Value = { PipeValue };

    ghost view = { λ pipe. record {
      slots = pipe.slots;
      session = pipe.session;
      sent = pipe.sent.items;
      taken = pipe.taken.items;
      drops = pipe.drops.items;
      counts = record { full = pipe.full; empty = pipe.empty };
      room = record {
        puts = min (vec_capacity pipe.sent - vec_len pipe.sent)
            (vec_capacity pipe.drops - vec_len pipe.drops);
        polls = vec_capacity pipe.taken - vec_len pipe.taken;
        renewals = pipe.renewals;
      };
    } };

    ghost invariant = { λ pipe. record {
      sized : (1 ≤ pipe.slots) × (pipe.slots ≤ MAX_SLOTS);
      counted : pipe.session + pipe.renewals < 2 ^ 60;
      hands_over : HandsOver pipe.sent.items pipe.taken.items pipe.slots;
      sending : Present pipe.session pipe.sent_from pipe.sent.items;
      taking : Present pipe.session pipe.taken_from pipe.taken.items;
      dropping : KeepsDrops pipe.sent.items pipe.drops.items pipe.session pipe.slots;
    } };
}

impl PlainPipe {
    /// A pipe of 1 to 4,096 slots in session 1, with no room reserved.
    pub fn open(alloc: Global, slots: u32) -> Result<PlainPipe, NoMemory>
        requires { (1 ≤ slots) × (slots ≤ MAX_SLOTS) }
        ensures { IfOk result (λ pipe. IsEmptyPipe pipe slots 1) }
    {
        Ok(PlainPipe::in_session(alloc, slots, 1))
    }

    /// A pipe of 1 to 4,096 slots in session 0, which has no entries before its first renewal.
    pub fn closed(alloc: Global, slots: u32) -> Result<PlainPipe, NoMemory>
        requires { (1 ≤ slots) × (slots ≤ MAX_SLOTS) }
        ensures { IfOk result (λ pipe. IsEmptyPipe pipe slots 0) }
    {
        Ok(PlainPipe::in_session(alloc, slots, 0))
    }

    // Makes a pipe of this many slots, in session 0 or 1.
    fn in_session(alloc: Global, slots: u32, session: u64) -> PlainPipe
        requires slots { (1 ≤ slots) × (slots ≤ MAX_SLOTS) }
        requires session { session ≤ 1 }
        ensures { IsEmptyPipe result slots session }
    {
        PlainPipe {
            slots,
            session,
            renewals: 0,
            sent: Vec::new(alloc),
            sent_from: 0,
            taken: Vec::new(alloc),
            taken_from: 0,
            drops: Vec::new(alloc),
            full: 0,
            empty: 0,
        }
    }

    // Counts the entries that were put in the present session.
    fn number_sent(&self) -> usize
        ensures { result ≡ length (sent_now self.now) }
    {
        self.sent.len() - self.sent_from
    }

    // Counts the entries that were taken in the present session.
    fn number_taken(&self) -> usize
        ensures { result ≡ length (taken_now self.now) }
    {
        self.taken.len() - self.taken_from
    }

    // Finds the entry of this number in the present session.
    fn entry_of(&self, number: usize) -> Entry
        requires { number < length (sent_now self.now) }
        ensures { slice_get (sent_now self.now) number ≡ Some result }
    {
        entry_at(&self.sent, self.sent_from, number)
    }

    /// Puts an entry into the next slot, if that is empty: it is full exactly where as many entries as
    /// there are slots were put and not taken. Of a number that is dropped one record is kept, however
    /// often the put is tried.
    pub fn put(&mut self, entry: Entry) -> Put
        requires begun { 0 < self.old.session }
        requires room { 0 < self.old.room.puts }
        ensures done { IfDone result (λ number. Receives self.old number entry self.new) }
        ensures dropped { IfDropped result
            (λ number held. Overflows self.old number held self.new) }
        ensures room { self.old.room.puts ≤ self.new.room.puts + 1 }
        ensures rest { OnlyReceives self.old self.new }
    {
        if self.number_sent() == self.number_taken() + self.slots as usize {
            let (number, held) = self.drop_entry();
            Put::Dropped { number, held }
        } else {
            let number = self.keep_entry(entry);
            Put::Done { number }
        }
    }

    // Records the drop of an entry that found its slot full: its number, and what lay there.
    fn drop_entry(&mut self) -> (u64, u64)
        requires room { 0 < self.old.room.puts }
        requires full_slot { length (sent_now self.old) ≡
            length (taken_now self.old) + self.old.slots }
        ensures dropped { Overflows self.old result.0 result.1 self.new }
        ensures room { self.old.room.puts ≤ self.new.room.puts + 1 }
        ensures rest { OnlyReceives self.old self.new }
    {
        let number = self.number_sent();
        let held = self.entry_of(number - self.slots as usize).high;
        let row = DropRow {
            session: self.session,
            number: number as u64,
            held,
        };
        add_record(&mut self.drops, row);
        self.full = self.full.saturating_add(1);
        (row.number, held)
    }

    // Adds an entry whose slot is empty, and gives its number.
    fn keep_entry(&mut self, entry: Entry) -> u64
        requires room { 0 < self.old.room.puts }
        requires empty_slot { length (sent_now self.old) <
            length (taken_now self.old) + self.old.slots }
        ensures done { Receives self.old result entry self.new }
        ensures room { self.old.room.puts ≤ self.new.room.puts + 1 }
        ensures rest { OnlyReceives self.old self.new }
    {
        let number = self.number_sent() as u64;
        self.sent.push_reserved(PipeRow {
            session: self.session,
            entry,
        });
        number
    }

    /// Takes the next entry. None is found exactly where all that was put was taken.
    pub fn poll(&mut self) -> Poll
        requires begun { 0 < self.old.session }
        requires room { 0 < self.old.room.polls }
        ensures got { IfGot result (λ number entry. Yields self.old number entry self.new) }
        ensures empty { IfEmpty result (λ number. RunsDry self.old number self.new) }
        ensures room { self.old.room.polls ≤ self.new.room.polls + 1 }
        ensures rest { OnlyYields self.old self.new }
    {
        let number = self.number_taken();
        if number == self.number_sent() {
            self.empty = self.empty.saturating_add(1);
            return Poll::Empty {
                number: number as u64,
            };
        }
        let entry = self.entry_of(number);
        self.taken.push_reserved(PipeRow {
            session: self.session,
            entry,
        });
        Poll::Got {
            number: number as u64,
            entry,
        }
    }

    /// Begins the next session, with nothing put and nothing taken. The rows of earlier ones stay.
    pub fn renew(&mut self)
        requires { 0 < self.old.room.renewals }
        ensures { Renews self.old self.new }
    {
        self.session += 1;
        self.renewals -= 1;
        self.sent_from = self.sent.len();
        self.taken_from = self.taken.len();
    }

    /// Makes room for this many puts, polls and renewals from now on. A pipe has fewer than 2^60 sessions,
    /// so no room is found for more renewals than these.
    pub fn reserve(&mut self, n: u32) -> Result<(), NoMemory>
        ensures room { OnOk result (HasRoom self.new n) }
        ensures rest { OnlyReserves self.old self.new }
    {
        let renewals = self.renewals.max(u64::from(n));
        if self.session + renewals >= SESSIONS {
            return Err(NoMemory);
        }
        self.sent.reserve(n as usize)?;
        self.drops.reserve(n as usize)?;
        self.taken.reserve(n as usize)?;
        self.renewals = renewals;
        Ok(())
    }

    /// The number of slots.
    pub fn slots(&self) -> u32
        ensures { result ≡ self.now.slots }
    {
        self.slots
    }

    /// The number of the last session, 0 before the first.
    pub fn session(&self) -> u64
        ensures session { result ≡ self.now.session }
        ensures laws { IsLawfulPipe self.now }
    {
        self.session
    }

    /// What was put, in order of time.
    pub fn sent(&self) -> &[PipeRow]
        ensures rows { result.now ≡ self.now.sent }
    {
        &self.sent
    }

    /// What was taken, in order of time: of each session a front of what was put in it.
    pub fn taken(&self) -> &[PipeRow]
        ensures rows { result.now ≡ self.now.taken }
        ensures handed { (q : ℕ) → Handed (of_session q self.now.sent)
            (of_session q self.now.taken) self.now.slots }
    {
        &self.taken
    }

    /// The entries that found their slot full, in order of time, one record for each number.
    pub fn drops(&self) -> &[DropRow]
        ensures rows { result.now ≡ self.now.drops }
        ensures lawful { LawfulDrops self.now.sent self.now.drops self.now.slots }
    {
        &self.drops
    }
}

impl CrqPort for PlainPipe {
    ghost state = { port_of };

    fn put(&mut self, entry: Entry) -> Put {
        PlainPipe::put(self, entry)
    }

    fn poll(&mut self) -> Poll {
        PlainPipe::poll(self)
    }
}
