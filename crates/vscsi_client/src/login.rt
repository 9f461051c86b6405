// How a login goes on by one entry.
ghost use Rattle.std.specs.Prelude.{◌≡◌, ◌+◌, ◌≤◌, [], ◌∷◌, ◌++◌, false, None, IfOk, IfSome, IsSome, OnErr};
ghost use Rattle.std.specs.VecDeque.{deque_len, deque_capacity};
ghost use Rattle.tce_window.specs.PortState.{OnlyReads};
ghost use Rattle.vscsi_client.specs.Turned.{is_found_used};
ghost use Rattle.vscsi_client.specs.Login.{SaysOf, SaysIn, is_kept, Finds, found_by, granted_by, login_ended};

use crate::client::Client;
use crate::found::Found;
use crate::outgoing::slot_of;
use crate::reading::{Slot, is_event, read_slot};
use crate::stage::{Stage, drop_login};
use crate::taking::shake;
use crate::{MIN_PAGES, SLOTS};
use srp_iu::Iu;
use std::collections::VecDeque;
use tce_window::OwnerPort;
use vio_num::{Entry, NoMemory};

// Tells what a unit says of the login of this tag.
fn says(iu: &Iu, tag: u64) -> Found
    ensures { SaysOf tag iu.now result }
{
    match iu {
        Iu::LoginRsp(answer) if answer.tag == tag => Found::Granted(answer.delta),
        Iu::LoginRej(answer) if answer.tag == tag => Found::Rejected(answer.reason),
        _ => Found::Nothing,
    }
}

// Tells what lies in the slot of the login of this tag.
fn find_in<O: OwnerPort>(own: &mut O, tag: u64, slot: u64) -> Found
    requires slot { slot ≤ SLOTS }
    requires pages { MIN_PAGES ≤ (O.state own.old).place.size }
    ensures found { SaysIn O.is_shared tag slot (O.state own.old) (O.state own.new) result }
    ensures rest { OnlyReads O.is_shared (O.state own.old) (O.state own.new) }
{
    match read_slot(own, slot) {
        Slot::Unit(iu) => says(&iu, tag),
        Slot::NoUnit => Found::Nothing,
        Slot::InUse { page, word } => Found::InUse { page, word },
    }
}

// Tells whether an entry of this tag is kept.
fn is_kept(kept: &VecDeque<Entry>, tag: u64) -> bool
    ensures { result ≡ is_kept tag kept.now.items }
{
    kept.iter().any(|entry| entry.low == tag)
}

// Keeps an entry behind all that are kept.
fn keep(kept: &mut VecDeque<Entry>, entry: Entry)
    requires { deque_len kept.old + 1 ≤ deque_capacity kept.old }
    ensures { kept.new.items ≡ kept.old.items ++ entry ∷ [] }
{
    match kept.push_back(entry) {
        Ok(()) => {}
        Err(_) => unreachable!(),
    }
}

impl Client {
    // Tells what an entry is to a login.
    fn find<O: OwnerPort>(&self, own: &mut O, entry: Entry) -> Found
        requires pages { MIN_PAGES ≤ (O.state own.old).place.size }
        ensures finds { Finds O.is_shared self.now entry
            (O.state own.old) (O.state own.new) result }
        ensures rest { OnlyReads O.is_shared (O.state own.old) (O.state own.new) }
    {
        if is_event(entry) {
            return Found::Lost;
        }
        if !entry.is_srp() {
            return Found::Step;
        }
        let tag = entry.low;
        if let Some(slot) = self.login.slot_of(tag) {
            return find_in(own, tag, slot);
        }
        match slot_of(&self.outgoing, tag) {
            None => Found::Nothing,
            Some(_) => {
                if is_kept(&self.kept, tag) {
                    Found::Nothing
                } else {
                    Found::Answer
                }
            }
        }
    }

    /// Looks at the entry that is held, and lets the login go on by it. Where its page is in use, or memory runs
    /// out, it stays held.
    pub(crate) fn look<O: OwnerPort>(&mut self, own: &mut O) -> Result<Found, NoMemory>
        requires held { IsSome self.old.held }
        requires pages { MIN_PAGES ≤ (O.state own.old).place.size }
        ensures looks { IfOk result (λ found. IfSome self.old.held (λ entry.
            Finds O.is_shared self.old entry (O.state own.old) (O.state own.new) found
            × (self.new ≡ found_by entry found self.old))) }
        ensures held { IfOk result (λ found. is_found_used found ≡ false → self.new.held ≡ None) }
        ensures err { OnErr result ((self.new ≡ self.old) × (O.state own.new ≡ O.state own.old)) }
        ensures rest { OnlyReads O.is_shared (O.state own.old) (O.state own.new) }
    {
        let Some(entry) = self.held else {
            unreachable!()
        };
        self.due.reserve(1)?;
        self.kept.reserve(1)?;
        let found = self.find(own, entry);
        match found {
            Found::Granted(credits) => self.grant(credits),
            Found::Rejected(_) => self.end_login(),
            Found::Lost => self.lose(entry),
            Found::Step => {
                shake(&mut self.handshake, &mut self.due, entry);
                self.held = None;
            }
            Found::Answer => {
                keep(&mut self.kept, entry);
                self.held = None;
            }
            Found::Nothing => self.held = None,
            Found::InUse { page: _, word: _ } => {}
        }
        Ok(found)
    }

    // Ends a login that has its answer.
    fn end_login(&mut self)
        ensures { self.new ≡ login_ended self.old }
    {
        self.login = Stage::Idle;
        self.held = None;
        drop_login(&mut self.due);
    }

    // Begins a login that is granted, with nothing outstanding.
    fn grant(&mut self, credits: u32)
        ensures { self.new ≡ granted_by credits self.old }
    {
        self.end_login();
        self.credits.login(credits);
        self.outgoing.clear();
        self.logout = None;
        self.kept.clear();
    }
}
