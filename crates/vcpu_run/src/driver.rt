// A client unit's driver, with the answers that it took.
ghost use Rattle.std.specs.Prelude.{◌≡◌, [], IfOk, OnOk, OnErr};
ghost use Rattle.srp_iu.specs.Response.{FitsRsp};
ghost use Rattle.vscsi_client.specs.State.{new_client};
ghost use Rattle.vscsi_client.specs.Turned.{unlinked};
ghost use Rattle.vcpu_run.specs.Takings.{NotesIn};

use srp_iu::{Iu, Rsp, write_iu};
use std::alloc::Global;
use vio_num::{Bytes, NoMemory, UnitId};
use vio_trace::AnswerRow;
use vscsi_client::Client;

/// A client unit's driver, with the answers that it took.
#[derive(Drop)]
pub(crate) struct Driver {
    pub(crate) alloc: Global,
    pub(crate) unit: UnitId,
    pub(crate) client: Client,
    pub(crate) answers: Vec<AnswerRow>,
}

impl Driver {
    /// The driver of a unit, which has sent nothing.
    pub(crate) fn open(alloc: Global, unit: UnitId, server: UnitId) -> Result<Driver, NoMemory>
        ensures unit { IfOk result (λ driver. driver.unit ≡ unit) }
        ensures client { IfOk result (λ driver. driver.client ≡ new_client unit server) }
        ensures answers { IfOk result (λ driver. driver.answers.items ≡ []) }
    {
        Ok(Driver {
            alloc,
            unit,
            client: Client::open(alloc, unit, server)?,
            answers: Vec::new(alloc),
        })
    }

    /// The own queue was freed, or failed.
    pub(crate) fn freed(&mut self)
        ensures unit { self.new.unit ≡ self.old.unit }
        ensures client { self.new.client ≡ unlinked self.old.client }
        ensures answers { self.new.answers ≡ self.old.answers }
    {
        self.client.freed();
    }

    /// Notes an answer that was taken in this session.
    pub(crate) fn note(&mut self, session: u64, tag: u64, rsp: Rsp) -> Result<(), NoMemory>
        requires { FitsRsp rsp }
        ensures unit { self.new.unit ≡ self.old.unit }
        ensures client { self.new.client ≡ self.old.client }
        ensures notes { OnOk result (NotesIn session tag rsp
            self.old.answers.items self.new.answers.items) }
        ensures stays { OnErr result (self.new.answers.items ≡ self.old.answers.items) }
    {
        let bytes = write_iu(&Iu::Rsp(rsp));
        self.answers.push(AnswerRow {
            unit: self.unit,
            session,
            tag,
            answer: Bytes::from_slice(self.alloc, &bytes)?,
        })?;
        Ok(())
    }
}
