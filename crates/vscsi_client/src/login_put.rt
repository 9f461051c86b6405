// How a login's unit is written, and what is due is put.
ghost use Rattle.std.specs.Prelude.{◌≡◌, ◌≤◌, false, IfOk, OnOk, OnErr};
ghost use Rattle.std.specs.List.{list_any};
ghost use Rattle.vio_num.specs.Entry.{first_byte};
ghost use Rattle.crq_session.specs.EndState.{OnlyReserves, OnlySends};
ghost use Rattle.tce_window.specs.PortState.{LaysNone, OnlyWrites};
ghost use Rattle.vscsi_client.specs.Units.{port_bytes};
ghost use Rattle.vscsi_client.specs.Turned.{begins, is_login, is_dropped, IsEntryOf, IsFirst, Puts};
ghost use Rattle.vscsi_client.specs.TurnParts.{begun, is_unwritten, IsWritten, WritesAs};

use crate::client::Client;
use crate::reading::address_of;
use crate::row::Row;
use crate::stage::{Due, Stage};
use crate::{MIN_PAGES, SLOTS};
use crq_session::{CrqEnd, Handshake, SendAnswer};
use srp_iu::{BUFFER_FORMATS, Iu, LoginReq, MAX_IU_LEN, write_iu};
use tce_window::{OwnFault, OwnerPort};
use vio_num::{Entry, NoMemory, UnitId};

/// The bytes of a login request.
const LOGIN_LEN: u16 = 64;

/// What became of a login's unit.
#[derive(Clone, Copy, Debug, PartialEq, Eq)]
pub enum Wrote {
    Written,
    /// Its page is in use, by this word of it.
    InUse { page: u16, word: u64 },
}

// Gives the identifier of a unit's port.
fn port_of(id: UnitId) -> [u8; 16]
    ensures { result ≡ port_bytes id }
{
    [
        0,
        0,
        0,
        0,
        0,
        0,
        0,
        0,
        0,
        0,
        0,
        0,
        0,
        0,
        id.partition,
        id.unit,
    ]
}

/// Whether an entry found its slot full.
pub(crate) fn is_dropped(answer: SendAnswer) -> bool
    ensures { result ≡ is_dropped answer }
{
    matches!(answer, SendAnswer::Dropped { number: _, held: _ })
}

// Tells whether a login is due.
fn has_login(due: &[Due]) -> bool
    ensures { result ≡ list_any is_login due.now }
{
    due.iter().any(|due| due.is_login())
}

impl Client {
    // Tells whether a login is to become due.
    fn begins(&self) -> bool
        ensures { result ≡ begins self.now }
    {
        self.handshake == Handshake::Up && self.login.is_idle() && !has_login(&self.due)
    }

    /// Makes a login due, if it is to be.
    pub(crate) fn begin(&mut self) -> Result<(), NoMemory>
        ensures ok { OnOk result (self.new ≡ begun self.old) }
        ensures err { OnErr result (self.new ≡ self.old) }
        ensures held { self.new.held ≡ self.old.held }
    {
        if self.begins() {
            self.due.push(Due::Login)?;
        }
        Ok(())
    }

    /// Whether the unit of what is due is still to be written.
    pub(crate) fn is_unwritten(&self, due: Due) -> bool
        ensures { result ≡ is_unwritten due self.now.login }
    {
        due.is_login() && self.login.is_idle()
    }

    /// Writes the unit of a login.
    pub(crate) fn write_login<O: OwnerPort>(
        &mut self,
        own: &mut O,
        line: u64,
    ) -> Result<Wrote, NoMemory>
        requires pages { MIN_PAGES ≤ (O.state own.old).place.size }
        ensures wrote { IfOk result (WritesAs O.is_shared line self.old self.new
            (O.state own.old) (O.state own.new)) }
        ensures same { OnErr result (self.new ≡ self.old) }
        ensures held { self.new.held ≡ self.old.held }
        ensures none { OnErr result (LaysNone O.is_shared (O.state own.old) (O.state own.new)) }
        ensures own_rest { OnlyWrites (O.state own.old) (O.state own.new) }
    {
        self.rows.reserve(1)?;
        let tag = self.rows.len() as u64 + 1;
        let slot = self.login_slot();
        let unit = write_iu(&Iu::LoginReq(LoginReq {
            tag,
            iu_len: MAX_IU_LEN,
            formats: BUFFER_FORMATS,
            flags: 0,
            initiator: port_of(self.id),
            target: port_of(self.server),
        }));
        match own.write(address_of(slot), &unit, line) {
            Ok(()) => {}
            Err(OwnFault::Range) => unreachable!(),
            Err(OwnFault::InUse { page, word }) => return Ok(Wrote::InUse { page, word }),
            Err(OwnFault::NoMemory) => return Err(NoMemory),
        }
        self.login = Stage::Written { tag, slot };
        self.rows.push_reserved(Row::Login);
        Ok(Wrote::Written)
    }

    // Gives the entry of what is due, whose unit is written.
    fn due_entry(&self, due: Due) -> Entry
        requires written { IsWritten due self.now.login }
        ensures is { IsEntryOf due self.now.login result }
        ensures used { 0x80 ≤ first_byte result }
    {
        match (due, self.login) {
            (Due::Initialize, _) => Entry::INITIALIZE,
            (Due::Complete, _) => Entry::INITIALIZATION_COMPLETE,
            (Due::Login, Stage::Written { tag: _, slot }) => {
                Entry::srp(LOGIN_LEN, address_of(slot))
            }
            (Due::Login, Stage::Sent { tag: _, slot }) => {
                Entry::srp(LOGIN_LEN, address_of(slot))
            }
            (Due::Login, Stage::Idle) => unreachable!(),
        }
    }

    /// Sends the entry of what is due first. It is due no more, unless its slot was full.
    pub(crate) fn put_first<C: CrqEnd>(
        &mut self,
        crq: &mut C,
        due: Due,
    ) -> Result<SendAnswer, NoMemory>
        requires first { IsFirst due self.old.due }
        requires written { IsWritten due self.old.login }
        ensures put { IfOk result (Puts C.is_shared self.old self.new
            (C.state crq.old) (C.state crq.new) due) }
        ensures same { OnErr result (self.new ≡ self.old) }
        ensures held { self.new.held ≡ self.old.held }
        ensures none { OnErr result (OnlyReserves (C.state crq.old) (C.state crq.new)) }
        ensures crq_rest { OnlySends C.is_shared (C.state crq.old) (C.state crq.new) }
    {
        crq.reserve(1)?;
        let answer = crq.send(self.due_entry(due));
        if !is_dropped(answer) {
            self.due.remove(0);
            self.login = self.login.after(due);
        }
        Ok(answer)
    }
}
