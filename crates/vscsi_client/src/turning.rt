// One turn of a login, made of small steps.
ghost use Rattle.std.specs.Prelude.{◌≡◌, ◌≤◌, ℕ, true, false, [], None, IfOk, MatchOption, OnErr};
ghost use Rattle.crq_session.specs.EndState.{OnlyRegisters, OnlyReserves, OnlyTakes};
ghost use Rattle.tce_window.specs.PortState.{OnlyReads, OnlyWrites};
ghost use Rattle.vscsi_client.specs.Frames.{KeepsEnd, OnlyTurns};
ghost use Rattle.vscsi_client.specs.Ports.{ports};
ghost use Rattle.vscsi_client.specs.Turned.{site, begins, is_busy, Did, IsFirst, Registers, Turned};
ghost use Rattle.vscsi_client.specs.TurnParts.{next_after, PutAll, PutOne, TookAll, TookAs, TookOne, TurnedOn, HoldsNoMore, IsWritten, PutsAs};

use crate::MIN_PAGES;
use crate::answers::LoginTurn;
use crate::client::Client;
use crate::found::Found;
use crate::login_put::{Wrote, is_dropped};
use crate::stage::Due;
use crq_session::{CrqEnd, PollAnswer, RegAnswer};
use tce_window::OwnerPort;
use vio_num::NoMemory;

/// The bytes of a slot of the queue.
const ENTRY_BYTES: u64 = 16;

/// What a turn does next.
#[derive(Clone, Copy, Debug, PartialEq, Eq)]
pub enum Next {
    /// It takes the next entry.
    GoOn,
    /// It takes none more, and puts what is due.
    Pause,
    /// It ends.
    End(LoginTurn),
}

// Tells what a turn does once it found this.
fn next_after(found: Found) -> Next
    ensures { result ≡ next_after found }
{
    match found {
        Found::Granted(credits) => Next::End(LoginTurn::Granted(credits)),
        Found::Rejected(reason) => Next::End(LoginTurn::Rejected(reason)),
        Found::Lost => Next::End(LoginTurn::Lost),
        Found::InUse { page: _, word: _ } => Next::Pause,
        Found::Step | Found::Answer | Found::Nothing => Next::GoOn,
    }
}

impl Client {
    // Registers the own queue, unless it is registered. Where it was not, nothing of a login is left.
    fn register<C: CrqEnd>(&mut self, crq: &mut C) -> Result<RegAnswer, NoMemory>
        ensures registers { IfOk result (Registers C.is_shared self.old self.new
            (C.state crq.old) (C.state crq.new)) }
        ensures same { OnErr result (self.new ≡ self.old) }
        ensures none { OnErr result (OnlyReserves (C.state crq.old) (C.state crq.new)) }
        ensures rest { OnlyRegisters C.is_shared (C.state crq.old) (C.state crq.new) }
    {
        crq.reserve(1)?;
        self.due.reserve(1)?;
        let answer = crq.register(0, ENTRY_BYTES * u64::from(crq.slots()));
        match answer {
            RegAnswer::Success | RegAnswer::Closed { control: _ } => {
                self.due.clear();
                self.due.push_reserved(Due::Initialize);
                self.handshake.registered();
                self.forget();
            }
            RegAnswer::Busy { number: _, held: _ } => {
                self.freed();
                self.forget();
            }
            RegAnswer::Resource => {}
            RegAnswer::Parameter => unreachable!(),
        }
        Ok(answer)
    }

    // Takes the next entry of the own queue, and holds it. Tells whether there was one.
    fn take_next<C: CrqEnd>(&mut self, crq: &mut C) -> Result<bool, NoMemory>
        requires held { self.old.held ≡ None }
        ensures took { IfOk result (TookAs C.is_shared self.old self.new
            (C.state crq.old) (C.state crq.new)) }
        ensures same { OnErr result (self.new ≡ self.old) }
        ensures none { OnErr result (OnlyReserves (C.state crq.old) (C.state crq.new)) }
        ensures rest { OnlyTakes C.is_shared (C.state crq.old) (C.state crq.new) }
    {
        crq.reserve(1)?;
        match crq.poll() {
            PollAnswer::Got { number: _, entry } => {
                self.held = Some(entry);
                Ok(true)
            }
            PollAnswer::Empty { number: _ } => Ok(false),
            PollAnswer::NotRegistered => Ok(false),
        }
    }

    // Takes one entry, and looks at it; none where there is none.
    fn take_one<C: CrqEnd, O: OwnerPort>(
        &mut self,
        crq: &mut C,
        own: &mut O,
    ) -> Result<Option<Found>, NoMemory>
        requires held { self.old.held ≡ None }
        requires pages { MIN_PAGES ≤ (O.state own.old).place.size }
        ensures did { (line : ℕ) → Did line
            (site self.old (ports C.is_shared (C.state crq.old) O.is_shared (O.state own.old)))
            (site self.new (ports C.is_shared (C.state crq.new) O.is_shared (O.state own.new)))
            TookOne result }
        ensures held { IfOk result (HoldsNoMore self.new) }
        ensures crq_rest { OnlyTakes C.is_shared (C.state crq.old) (C.state crq.new) }
        ensures own_rest { OnlyReads O.is_shared (O.state own.old) (O.state own.new) }
    {
        match self.take_next(crq) {
            Err(NoMemory) => return Err(NoMemory),
            Ok(false) => return Ok(None),
            Ok(true) => {}
        }
        match self.look(own) {
            Err(NoMemory) => Err(NoMemory),
            Ok(found) => Ok(Some(found)),
        }
    }
}

impl Client {
    // Takes entries until there is none, as many as the queue has slots, or until the turn ends.
    fn take_more<C: CrqEnd, O: OwnerPort>(
        &mut self,
        crq: &mut C,
        own: &mut O,
    ) -> Result<Next, NoMemory>
        requires held { self.old.held ≡ None }
        requires pages { MIN_PAGES ≤ (O.state own.old).place.size }
        ensures did { (line : ℕ) → Did line
            (site self.old (ports C.is_shared (C.state crq.old) O.is_shared (O.state own.old)))
            (site self.new (ports C.is_shared (C.state crq.new) O.is_shared (O.state own.new)))
            (TookAll (C.state crq.old).place.own_slots
            (site self.new (ports C.is_shared (C.state crq.new) O.is_shared (O.state own.new))))
            result }
        ensures crq_rest { KeepsEnd C.is_shared (C.state crq.old) (C.state crq.new) }
        ensures own_rest { OnlyWrites (O.state own.old) (O.state own.new) }
    {
        for _taken in 0..crq.slots() {
            match self.take_one(crq, own) {
                Err(NoMemory) => return Err(NoMemory),
                Ok(None) => return Ok(Next::Pause),
                Ok(Some(found)) => match next_after(found) {
                    Next::GoOn => {}
                    next => return Ok(next),
                },
            }
        }
        Ok(Next::Pause)
    }

    // Looks at the entry that an earlier turn held, and takes more.
    fn take_all<C: CrqEnd, O: OwnerPort>(
        &mut self,
        crq: &mut C,
        own: &mut O,
    ) -> Result<Next, NoMemory>
        requires pages { MIN_PAGES ≤ (O.state own.old).place.size }
        ensures did { (line : ℕ) → Did line
            (site self.old (ports C.is_shared (C.state crq.old) O.is_shared (O.state own.old)))
            (site self.new (ports C.is_shared (C.state crq.new) O.is_shared (O.state own.new)))
            (TookAll (C.state crq.old).place.own_slots
            (site self.new (ports C.is_shared (C.state crq.new) O.is_shared (O.state own.new))))
            result }
        ensures crq_rest { KeepsEnd C.is_shared (C.state crq.old) (C.state crq.new) }
        ensures own_rest { OnlyWrites (O.state own.old) (O.state own.new) }
    {
        match self.held {
            None => self.take_more(crq, own),
            Some(_) => match self.look(own) {
                Err(NoMemory) => Err(NoMemory),
                Ok(found) => match next_after(found) {
                    Next::GoOn => self.take_more(crq, own),
                    next => Ok(next),
                },
            },
        }
    }

    // Tells what is due first.
    fn first_due(&self) -> Option<Due>
        ensures { MatchOption result (self.now.due ≡ []) (λ due. IsFirst due self.now.due) }
    {
        self.due.first().copied()
    }

    // Sends the entry of what is due first, whose unit is written. Tells whether it is due no more.
    fn put_entry<C: CrqEnd>(&mut self, crq: &mut C, due: Due) -> Result<bool, NoMemory>
        requires first { IsFirst due self.old.due }
        requires written { IsWritten due self.old.login }
        ensures put { IfOk result (PutsAs C.is_shared self.old self.new
            (C.state crq.old) (C.state crq.new) due) }
        ensures same { OnErr result (self.new ≡ self.old) }
        ensures held { self.new.held ≡ self.old.held }
        ensures none { OnErr result (OnlyReserves (C.state crq.old) (C.state crq.new)) }
        ensures crq_rest { KeepsEnd C.is_shared (C.state crq.old) (C.state crq.new) }
    {
        match self.put_first(crq, due) {
            Err(NoMemory) => Err(NoMemory),
            Ok(answer) => Ok(!is_dropped(answer)),
        }
    }

    // Puts what is due first, once its unit is written. Tells whether it is due no more.
    fn put_one<C: CrqEnd, O: OwnerPort>(
        &mut self,
        crq: &mut C,
        own: &mut O,
        line: u64,
        due: Due,
    ) -> Result<bool, NoMemory>
        requires first { IsFirst due self.old.due }
        requires begun { begins self.old ≡ false }
        requires pages { MIN_PAGES ≤ (O.state own.old).place.size }
        ensures did { Did line
            (site self.old (ports C.is_shared (C.state crq.old) O.is_shared (O.state own.old)))
            (site self.new (ports C.is_shared (C.state crq.new) O.is_shared (O.state own.new)))
            (PutOne self.old self.new) result }
        ensures held { self.new.held ≡ self.old.held }
        ensures crq_rest { KeepsEnd C.is_shared (C.state crq.old) (C.state crq.new) }
        ensures own_rest { OnlyWrites (O.state own.old) (O.state own.new) }
    {
        if !self.is_unwritten(due) {
            return self.put_entry(crq, due);
        }
        match self.write_login(own, line) {
            Err(NoMemory) => Err(NoMemory),
            Ok(Wrote::InUse { page: _, word: _ }) => Ok(false),
            Ok(Wrote::Written) => self.put_entry(crq, due),
        }
    }

    // Puts all that is due, in its order, a login last, until the first of it is held up.
    fn put_due<C: CrqEnd, O: OwnerPort>(
        &mut self,
        crq: &mut C,
        own: &mut O,
        line: u64,
    ) -> Result<(), NoMemory>
        requires pages { MIN_PAGES ≤ (O.state own.old).place.size }
        ensures did { Did line
            (site self.old (ports C.is_shared (C.state crq.old) O.is_shared (O.state own.old)))
            (site self.new (ports C.is_shared (C.state crq.new) O.is_shared (O.state own.new)))
            (λ _. PutAll self.new) result }
        ensures held { self.new.held ≡ self.old.held }
        ensures crq_rest { KeepsEnd C.is_shared (C.state crq.old) (C.state crq.new) }
        ensures own_rest { OnlyWrites (O.state own.old) (O.state own.new) }
    {
        match self.begin() {
            Err(NoMemory) => return Err(NoMemory),
            Ok(()) => {}
        }
        while let Some(due) = self.first_due() {
            match self.put_one(crq, own, line, due) {
                Err(NoMemory) => return Err(NoMemory),
                Ok(false) => return Ok(()),
                Ok(true) => {}
            }
        }
        Ok(())
    }

    /// One turn of a login. It registers the own queue where it is not registered, takes entries until there is
    /// none or as many as the queue has slots, and then puts what is due in its order: the initialisation command
    /// of a registration, what the handshake asks for, and the login once the handshake is up. The turn ends at
    /// the login's answer, or at the first event.
    pub fn login_turn<C: CrqEnd, O: OwnerPort>(
        &mut self,
        crq: &mut C,
        own: &mut O,
        line: u64,
    ) -> Result<LoginTurn, NoMemory>
        requires pages { MIN_PAGES ≤ (O.state own.old).place.size }
        ensures turned { Turned line
            (site self.old (ports C.is_shared (C.state crq.old) O.is_shared (O.state own.old)))
            (site self.new (ports C.is_shared (C.state crq.new) O.is_shared (O.state own.new)))
            result }
        ensures registered { IfOk result (λ turn. is_busy turn ≡ false →
            (C.state crq.new).registered ≡ true) }
        ensures crq_rest { OnlyTurns C.is_shared (C.state crq.old) (C.state crq.new) }
        ensures own_rest { OnlyWrites (O.state own.old) (O.state own.new) }
    {
        match self.register(crq) {
            Err(NoMemory) => Err(NoMemory),
            Ok(answer) => match answer {
                RegAnswer::Busy { number, held } => Ok(LoginTurn::Busy { number, held }),
                _ => self.turn_registered(crq, own, line),
            },
        }
    }

    // Takes what is there and puts what is due, with the own queue registered.
    fn turn_registered<C: CrqEnd, O: OwnerPort>(
        &mut self,
        crq: &mut C,
        own: &mut O,
        line: u64,
    ) -> Result<LoginTurn, NoMemory>
        requires registered { (C.state crq.old).registered ≡ true }
        requires pages { MIN_PAGES ≤ (O.state own.old).place.size }
        ensures turned { TurnedOn line
            (site self.old (ports C.is_shared (C.state crq.old) O.is_shared (O.state own.old)))
            (site self.new (ports C.is_shared (C.state crq.new) O.is_shared (O.state own.new)))
            result }
        ensures crq_rest { KeepsEnd C.is_shared (C.state crq.old) (C.state crq.new) }
        ensures own_rest { OnlyWrites (O.state own.old) (O.state own.new) }
    {
        match self.take_all(crq, own) {
            Err(NoMemory) => Err(NoMemory),
            Ok(Next::End(turn)) => Ok(turn),
            Ok(Next::GoOn) => unreachable!(),
            Ok(Next::Pause) => match self.put_due(crq, own, line) {
                Err(NoMemory) => Err(NoMemory),
                Ok(()) => Ok(LoginTurn::Again),
            },
        }
    }
}
