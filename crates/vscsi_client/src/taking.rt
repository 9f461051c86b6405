// Taking an answer.
ghost use Rattle.std.specs.Prelude.{◌≡◌, ◌+◌, ◌<◌, ◌≤◌, ◌∷◌, ◌++◌, ◌==◌, [], All, MatchOption, IfOk, IfSome, IsSome, OnErr, length, position, vec_len, vec_capacity};
ghost use Rattle.std.specs.VecDeque.{deque_len, deque_capacity};
ghost use Rattle.crq_session.specs.EndState.{OnlyTakes};
ghost use Rattle.crq_session.specs.Handshake.{state_after, step_after};
ghost use Rattle.tce_window.specs.PortState.{OnlyReads};
ghost use Rattle.vscsi_client.specs.Ports.{ports};
ghost use Rattle.vscsi_client.specs.State.{granted_of, AreOutstanding};
ghost use Rattle.vscsi_client.specs.Taking.{slot_of, Judges, IsAnswer, without_tag, answered, due_by, lost_by, Fetches, FetchesNone, JudgesFirst, TakesEntry, TakesLater, IsEmpty};

use crate::answers::Taken;
use crate::client::Client;
use crate::outgoing::{Outgoing, slot_of};
use crate::reading::{Slot, is_event, read_slot};
use crate::row::{Row, answer_row};
use crate::stage::{Due, drop_login};
use crate::{MIN_PAGES, SLOTS};
use arrayvec::ArrayVec;
use crq_session::{CrqEnd, Handshake, PollAnswer, Step};
use srp_credits::Initiator;
use srp_iu::{Iu, Rsp};
use std::collections::VecDeque;
use tce_window::OwnerPort;
use vio_num::{Entry, NoMemory};

impl Client {
    /// Takes one entry: the first of those that a login kept, or else the next of the own queue. An answer gives
    /// one credit back, whatever it grants. A step that the handshake gives is due at the next turn of a login.
    pub fn take_answer<C: CrqEnd, O: OwnerPort>(
        &mut self,
        crq: &mut C,
        own: &mut O,
    ) -> Result<Taken, NoMemory>
        requires pages { MIN_PAGES ≤ (O.state own.old).place.size }
        ensures taken { IfOk result (TakesEntry self.old self.new
            (ports C.is_shared (C.state crq.old) O.is_shared (O.state own.old))
            (ports C.is_shared (C.state crq.new) O.is_shared (O.state own.new))) }
        ensures later { OnErr result (TakesLater C.is_shared self.old self.new
            (C.state crq.old) (C.state crq.new)) }
        ensures spare { (C.state crq.old).spare ≤ (C.state crq.new).spare + 1 }
        ensures crq_rest { OnlyTakes C.is_shared (C.state crq.old) (C.state crq.new) }
        ensures own_rest { OnlyReads O.is_shared (O.state own.old) (O.state own.new) }
    {
        match self.fetch(crq) {
            Err(NoMemory) => Err(NoMemory),
            Ok(Some(number)) => Ok(Taken::Empty { number }),
            Ok(None) => self.take_kept(own),
        }
    }

    // Finds the next entry, and keeps it before all others. Gives the number of the next one where there is none.
    fn fetch<C: CrqEnd>(&mut self, crq: &mut C) -> Result<Option<u64>, NoMemory>
        ensures fetched { IfOk result (λ none. MatchOption none
            (Fetches C.is_shared self.old self.new (C.state crq.old) (C.state crq.new))
            (FetchesNone C.is_shared self.old self.new (C.state crq.old) (C.state crq.new))) }
        ensures same { OnErr result (self.new ≡ self.old) }
        ensures none { OnErr result ((C.state crq.new).taken ≡ (C.state crq.old).taken) }
        ensures spare { (C.state crq.old).spare ≤ (C.state crq.new).spare + 1 }
        ensures rest { OnlyTakes C.is_shared (C.state crq.old) (C.state crq.new) }
    {
        if !self.kept.is_empty() {
            return Ok(None);
        }
        crq.reserve(1)?;
        self.kept.reserve(1)?;
        match crq.poll() {
            PollAnswer::Got { number: _, entry } => {
                put_back(&mut self.kept, entry);
                Ok(None)
            }
            PollAnswer::Empty { number } => Ok(Some(number)),
            PollAnswer::NotRegistered => Ok(Some(0)),
        }
    }

    // Takes the first entry that is kept. Where its page is in use, or memory runs out, it stays kept.
    fn take_kept<O: OwnerPort>(&mut self, own: &mut O) -> Result<Taken, NoMemory>
        requires kept { ¬ (self.old.kept ≡ []) }
        requires pages { MIN_PAGES ≤ (O.state own.old).place.size }
        ensures judged { IfOk result (JudgesFirst O.is_shared self.old self.new
            (O.state own.old) (O.state own.new)) }
        ensures some { IfOk result (λ taken. ¬ IsEmpty taken) }
        ensures same { OnErr result (self.new ≡ self.old) }
        ensures rest { OnlyReads O.is_shared (O.state own.old) (O.state own.new) }
    {
        self.due.reserve(1)?;
        let Some(entry) = self.kept.pop_front() else {
            unreachable!()
        };
        let taken = judge(&self.outgoing, own, entry);
        match &taken {
            Taken::Answer { tag, rsp } => {
                note_answer(
                    &mut self.credits,
                    &mut self.outgoing,
                    &mut self.rows,
                    *tag,
                    rsp,
                );
            }
            Taken::Lost => self.lose(entry),
            Taken::Other => shake(&mut self.handshake, &mut self.due, entry),
            Taken::Again { page: _, word: _ } => put_back(&mut self.kept, entry),
            Taken::Stray(_) | Taken::Empty { number: _ } => {}
        }
        Ok(taken)
    }

    /// The partner is gone, as this event tells.
    pub(crate) fn lose(&mut self, event: Entry)
        ensures { self.new ≡ lost_by event self.old }
    {
        self.handshake.got(event);
        drop_login(&mut self.due);
        self.forget();
    }
}

// Tells what an entry is to a client with these requests outstanding.
fn judge<O: OwnerPort>(outgoing: &[Outgoing], own: &mut O, entry: Entry) -> Taken
    requires slots { All (λ (o : Outgoing). o.slot < SLOTS) outgoing.now }
    requires pages { MIN_PAGES ≤ (O.state own.old).place.size }
    ensures judged { Judges O.is_shared outgoing.now entry
        (O.state own.old) (O.state own.new) result }
    ensures rest { OnlyReads O.is_shared (O.state own.old) (O.state own.new) }
{
    if is_event(entry) {
        return Taken::Lost;
    }
    if !entry.is_srp() {
        return Taken::Other;
    }
    let tag = entry.low;
    let Some(slot) = slot_of(outgoing, tag) else {
        return Taken::Stray(tag);
    };
    match read_slot(own, slot) {
        Slot::Unit(iu) => match answer_of(iu, tag) {
            Some(rsp) => Taken::Answer { tag, rsp },
            None => Taken::Stray(tag),
        },
        Slot::NoUnit => Taken::Stray(tag),
        Slot::InUse { page, word } => Taken::Again { page, word },
    }
}

// Gives the response of this tag, where the unit is that.
fn answer_of(iu: Iu, tag: u64) -> Option<Rsp>
    ensures { IsAnswer tag iu result }
{
    match iu {
        Iu::Rsp(rsp) => { if rsp.tag == tag { Some(rsp) } else { None } }
        _ => None,
    }
}

// Finds the first of these requests that has the tag.
fn place_of(outgoing: &[Outgoing], tag: u64) -> Option<usize>
    ensures first { result ≡ position (λ (o : Outgoing). o.tag == tag) outgoing.now }
    ensures within { IfSome result (λ k. k < length outgoing.now) }
{
    outgoing.iter().position(|request| request.tag == tag)
}

// Takes out the request with this tag.
fn remove_tag(outgoing: &mut ArrayVec<Outgoing, 200>, tag: u64)
    ensures { outgoing.new.items ≡ without_tag tag outgoing.old.items }
{
    if let Some(at) = place_of(outgoing, tag) {
        outgoing.remove(at);
    }
}

// Notes that a request was answered.
fn note_answer(
    credits: &mut Initiator,
    outgoing: &mut ArrayVec<Outgoing, 200>,
    rows: &mut Vec<Row>,
    tag: u64,
    rsp: &Rsp,
)
    requires requests { AreOutstanding credits.old outgoing.old.items rows.old.items }
    requires there { IsSome (slot_of tag outgoing.old.items) }
    ensures granted { granted_of credits.new ≡ granted_of credits.old }
    ensures on { IsSome credits.new.limit → IsSome credits.old.limit }
    ensures outgoing { outgoing.new.items ≡ without_tag tag outgoing.old.items }
    ensures rows { rows.new.items ≡ answered tag rsp.now rows.old.items }
    ensures requests { AreOutstanding credits.new outgoing.new.items rows.new.items }
{
    let _ = credits.outstanding();
    let Ok(()) = credits.answered(tag, 1) else {
        unreachable!()
    };
    remove_tag(outgoing, tag);
    answer_row(rows, tag, rsp);
}

/// Gives an entry to the handshake, and notes what it makes due.
pub(crate) fn shake(handshake: &mut Handshake, due: &mut Vec<Due>, entry: Entry)
    requires { vec_len due.old + 1 ≤ vec_capacity due.old }
    ensures handshake { handshake.new ≡ state_after handshake.old entry }
    ensures due { due.new.items ≡ due.old.items ++ due_by (step_after handshake.old entry) }
{
    match handshake.got(entry) {
        Step::Nothing => {}
        Step::SendInitialize => due.push_reserved(Due::Initialize),
        Step::SendComplete => due.push_reserved(Due::Complete),
    }
}

// Keeps an entry before all that are kept.
fn put_back(kept: &mut VecDeque<Entry>, entry: Entry)
    requires { deque_len kept.old + 1 ≤ deque_capacity kept.old }
    ensures { kept.new.items ≡ entry ∷ kept.old.items }
{
    match kept.push_front(entry) {
        Ok(()) => {}
        Err(_) => unreachable!(),
    }
}
