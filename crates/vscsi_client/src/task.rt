// Sending a task management request.
ghost use Rattle.std.specs.Prelude.{◌≡◌, ◌+◌, ◌≤◌, None, IfOk, IfErr, OnErr, IfSome, Err};
ghost use Rattle.crq_session.specs.EndState.{OnlySends};
ghost use Rattle.tce_window.specs.PortState.{OnlyWrites};
ghost use Rattle.vscsi_client.specs.Ports.{ports};
ghost use Rattle.vscsi_client.specs.Sending.{task_refusal, task_unit, Tasked, WhyNotSent};

use crate::MIN_PAGES;
use crate::answers::Refused;
use crate::client::Client;
use crate::outgoing::Outgoing;
use crate::row::Row;
use crate::submit::note;
use crq_session::CrqEnd;
use srp_iu::{Iu, TskMgmt};
use tce_window::OwnerPort;

impl Client {
    /// Sends a task management request for the task with this tag, and gives its own tag. It uses a credit, and no
    /// page. The first of the causes of [`Refused`] that stands refuses it.
    pub fn task<C: CrqEnd, O: OwnerPort>(
        &mut self,
        crq: &mut C,
        own: &mut O,
        function: u8,
        tag: u64,
        line: u64,
    ) -> Result<u64, Refused>
        requires pages { MIN_PAGES ≤ (O.state own.old).place.size }
        ensures refused { IfSome (task_refusal self.old) (λ why. (result ≡ Err why)
            × (C.state crq.new ≡ C.state crq.old) × (O.state own.new ≡ O.state own.old)) }
        ensures sent { IfOk result (Tasked line function tag self.old self.new
            (ports C.is_shared (C.state crq.old) O.is_shared (O.state own.old))
            (ports C.is_shared (C.state crq.new) O.is_shared (O.state own.new))) }
        ensures why { task_refusal self.old ≡ None
            → IfErr result (WhyNotSent line self.old (task_unit function tag self.old)
            (ports C.is_shared (C.state crq.old) O.is_shared (O.state own.old))
            (ports C.is_shared (C.state crq.new) O.is_shared (O.state own.new))) }
        ensures same { OnErr result (self.new ≡ self.old) }
        ensures spare { (C.state crq.old).spare ≤ (C.state crq.new).spare + 1 }
        ensures crq_rest { OnlySends C.is_shared (C.state crq.old) (C.state crq.new) }
        ensures own_rest { OnlyWrites (O.state own.old) (O.state own.new) }
    {
        if let Some(why) = self.credit_refusal() {
            return Err(why);
        }
        crq.reserve(1)?;
        self.rows.reserve(1)?;
        let own_tag = self.rows.len() as u64 + 1;
        let request = Iu::TskMgmt(TskMgmt {
            tag: own_tag,
            lun: 0,
            function,
            task: tag,
        });
        let slot = self.put_request(crq, own, &request, line)?;
        let task = Outgoing::of_task(own_tag, slot);
        note(
            &mut self.credits,
            &mut self.outgoing,
            &mut self.rows,
            task,
            Row::Task,
        );
        Ok(own_tag)
    }
}
