// Sending a logout.
ghost use Rattle.std.specs.Prelude.{◌≡◌, ◌+◌, ◌≤◌, [], None, IfOk, IfErr, OnErr, IfSome, Err};
ghost use Rattle.crq_session.specs.EndState.{OnlySends};
ghost use Rattle.tce_window.specs.PortState.{OnlyWrites};
ghost use Rattle.vscsi_client.specs.Ports.{ports};
ghost use Rattle.vscsi_client.specs.Sending.{logout_refusal, logout_unit, LoggedOut, WhyNotSent};

use crate::MIN_PAGES;
use crate::answers::Refused;
use crate::client::Client;
use crate::row::Row;
use crq_session::CrqEnd;
use srp_iu::Iu;
use tce_window::OwnerPort;

impl Client {
    // Says why a logout is refused before anything is written, if it is.
    fn logout_refusal(&self) -> Option<Refused>
        ensures why { result ≡ logout_refusal self.now }
        ensures none { result ≡ None → self.now.outgoing ≡ [] }
        ensures over { result ≡ None → self.now.logout ≡ None }
    {
        if self.credits.limit().is_none() {
            return Some(Refused::NotLoggedIn);
        }
        self.outgoing
            .first()
            .map(|oldest| Refused::Overlap { tag: oldest.tag })
    }

    /// Sends a logout, and gives its tag: no login is on any more. It wants that nothing is outstanding, and no
    /// credit; the first of the causes of [`Refused`] that stands refuses it.
    pub fn logout<C: CrqEnd, O: OwnerPort>(
        &mut self,
        crq: &mut C,
        own: &mut O,
        line: u64,
    ) -> Result<u64, Refused>
        requires pages { MIN_PAGES ≤ (O.state own.old).place.size }
        ensures refused { IfSome (logout_refusal self.old) (λ why. (result ≡ Err why)
            × (C.state crq.new ≡ C.state crq.old) × (O.state own.new ≡ O.state own.old)) }
        ensures sent { IfOk result (LoggedOut line self.old self.new
            (ports C.is_shared (C.state crq.old) O.is_shared (O.state own.old))
            (ports C.is_shared (C.state crq.new) O.is_shared (O.state own.new))) }
        ensures why { logout_refusal self.old ≡ None
            → IfErr result (WhyNotSent line self.old (logout_unit self.old)
            (ports C.is_shared (C.state crq.old) O.is_shared (O.state own.old))
            (ports C.is_shared (C.state crq.new) O.is_shared (O.state own.new))) }
        ensures same { OnErr result (self.new ≡ self.old) }
        ensures spare { (C.state crq.old).spare ≤ (C.state crq.new).spare + 1 }
        ensures crq_rest { OnlySends C.is_shared (C.state crq.old) (C.state crq.new) }
        ensures own_rest { OnlyWrites (O.state own.old) (O.state own.new) }
    {
        if let Some(why) = self.logout_refusal() {
            return Err(why);
        }
        crq.reserve(1)?;
        self.rows.reserve(1)?;
        let tag = self.rows.len() as u64 + 1;
        let slot = self.put_request(crq, own, &Iu::ILogout { tag }, line)?;
        self.credits.lost();
        self.logout = Some(slot);
        self.rows.push_reserved(Row::Logout);
        Ok(tag)
    }
}
