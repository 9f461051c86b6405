// How a unit is written and its entry put.
ghost use Rattle.std.specs.Prelude.{◌≡◌, ◌+◌, ◌<◌, ◌≤◌, None, length, IfOk, OnOk, IfErr};
ghost use Rattle.crq_session.specs.EndState.{OnlySends};
ghost use Rattle.tce_window.specs.PortState.{OnlyWrites};
ghost use Rattle.srp_iu.specs.Grammar.{IsWritable};
ghost use Rattle.vscsi_client.specs.Ports.{ports, UnitPut, WhyNotPut};
ghost use Rattle.vscsi_client.specs.Sending.{refused_by, PutsUnit, PutsNoUnit};

use crate::answers::Refused;
use crate::client::Client;
use crate::reading::address_of;
use crate::{MIN_PAGES, SLOTS};
use crq_session::{CrqEnd, SendAnswer};
use srp_iu::{Iu, write_iu};
use tce_window::{OwnFault, OwnerPort};
use vio_num::Entry;

/// Writes a unit into a slot, under the mark of its line, and puts the entry that names it.
pub(crate) fn put_unit<C: CrqEnd, O: OwnerPort>(
    crq: &mut C,
    own: &mut O,
    slot: u64,
    unit: &[u8],
    line: u64,
) -> Result<(), Refused>
    requires slot { slot ≤ SLOTS }
    requires some { 1 ≤ length unit.now }
    requires few { length unit.now ≤ 256 }
    requires pages { MIN_PAGES ≤ (O.state own.old).place.size }
    requires room { 0 < (C.state crq.old).spare }
    ensures put { OnOk result (UnitPut line slot unit.now
        (ports C.is_shared (C.state crq.old) O.is_shared (O.state own.old))
        (ports C.is_shared (C.state crq.new) O.is_shared (O.state own.new))) }
    ensures why { IfErr result (WhyNotPut line slot unit.now
        (ports C.is_shared (C.state crq.old) O.is_shared (O.state own.old))
        (ports C.is_shared (C.state crq.new) O.is_shared (O.state own.new))) }
    ensures spare { (C.state crq.old).spare ≤ (C.state crq.new).spare + 1 }
    ensures crq_rest { OnlySends C.is_shared (C.state crq.old) (C.state crq.new) }
    ensures own_rest { OnlyWrites (O.state own.old) (O.state own.new) }
{
    match own.write(address_of(slot), unit, line) {
        Ok(()) => {}
        Err(OwnFault::Range) => unreachable!(),
        Err(OwnFault::InUse { page, word }) => return Err(Refused::InUse { page, word }),
        Err(OwnFault::NoMemory) => return Err(Refused::NoMemory),
    }
    match crq.send(Entry::srp(unit.len() as u16, address_of(slot))) {
        SendAnswer::Success { number: _ } => Ok(()),
        SendAnswer::Parameter => unreachable!(),
        SendAnswer::NotRegistered => Err(Refused::Closed { control: 0 }),
        SendAnswer::Closed { control } => Err(Refused::Closed { control }),
        SendAnswer::Dropped { number, held } => Err(Refused::Dropped { number, held }),
    }
}

impl Client {
    /// Says why a request is refused for want of a login or of a credit, if it is.
    pub(crate) fn credit_refusal(&self) -> Option<Refused>
        ensures why { result ≡ refused_by self.now.granted (length self.now.outgoing) None }
        ensures few { result ≡ None → length self.now.outgoing < 200 }
        ensures over { result ≡ None → self.now.logout ≡ None }
    {
        let _outstanding = self.credits.outstanding();
        match self.credits.limit() {
            None => Some(Refused::NotLoggedIn),
            Some(0) => Some(Refused::NoCredit { limit: 0 }),
            Some(_) => None,
        }
    }

    /// Writes the unit of a request into the next slot, puts its entry, and gives the slot.
    pub(crate) fn put_request<C: CrqEnd, O: OwnerPort>(
        &self,
        crq: &mut C,
        own: &mut O,
        iu: &Iu,
        line: u64,
    ) -> Result<u64, Refused>
        requires writable { IsWritable iu.now }
        requires few { length self.now.outgoing < 200 }
        requires over { self.now.logout ≡ None }
        requires pages { MIN_PAGES ≤ (O.state own.old).place.size }
        requires room { 0 < (C.state crq.old).spare }
        ensures put { IfOk result (PutsUnit line self.now iu.now
            (ports C.is_shared (C.state crq.old) O.is_shared (O.state own.old))
            (ports C.is_shared (C.state crq.new) O.is_shared (O.state own.new))) }
        ensures within { IfOk result (λ slot. slot < SLOTS) }
        ensures why { IfErr result (PutsNoUnit line self.now iu.now
            (ports C.is_shared (C.state crq.old) O.is_shared (O.state own.old))
            (ports C.is_shared (C.state crq.new) O.is_shared (O.state own.new))) }
        ensures spare { (C.state crq.old).spare ≤ (C.state crq.new).spare + 1 }
        ensures crq_rest { OnlySends C.is_shared (C.state crq.old) (C.state crq.new) }
        ensures own_rest { OnlyWrites (O.state own.old) (O.state own.new) }
    {
        let slot = self.next_slot();
        let unit = write_iu(iu);
        put_unit(crq, own, slot, &unit, line)?;
        Ok(slot)
    }
}
