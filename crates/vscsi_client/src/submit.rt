// Sending a command.
ghost use Rattle.std.specs.Prelude.{◌≡◌, ◌+◌, ◌<◌, ◌≤◌, [], ◌∷◌, ◌++◌, None, Some, IfOk, IfErr, OnOk, OnErr, IfSome, IsSome, IsSomeAnd, IsTrue, Err, length, vec_len, vec_capacity};
ghost use Rattle.crq_session.specs.EndState.{OnlySends};
ghost use Rattle.tce_window.specs.PortState.{OnlyWrites};
ghost use Rattle.vscsi_client.specs.Ports.{ports, LaysAll, WhyNotWritten};
ghost use Rattle.vscsi_client.specs.Spans.{op_in_range};
ghost use Rattle.vscsi_client.specs.State.{granted_of, AreOutstanding};
ghost use Rattle.vscsi_client.specs.Sending.{command_refusal, table_writes_at, tabled_by, tabled_after, Submitted, WhyNotSubmitted};
ghost use Rattle.vscsi_client.specs.Units.{FitsOp, InLow};

use crate::answers::Refused;
use crate::client::Client;
use crate::op::Op;
use crate::outgoing::{Outgoing, first_sharing};
use crate::row::Row;
use crate::table::{Table, is_tabled};
use crate::{MIN_PAGES, SLOTS};
use arrayvec::ArrayVec;
use crq_session::CrqEnd;
use srp_credits::Initiator;
use srp_iu::Iu;
use tce_window::{OwnFault, OwnerPort};

impl Client {
    // Says why a command is refused before anything is written, if it is.
    fn command_refusal(&self, op: &Op, pages: u16) -> Option<Refused>
        ensures why { result ≡ command_refusal pages self.now op.now }
        ensures few { result ≡ None → length self.now.outgoing < 200 }
        ensures over { result ≡ None → self.now.logout ≡ None }
    {
        if !op.in_range(pages) {
            return Some(Refused::Range);
        }
        if let Some(why) = self.credit_refusal() {
            return Some(why);
        }
        first_sharing(&self.outgoing, op).map(|tag| Refused::Overlap { tag })
    }

    /// Sends a command, and gives its tag. Its table and its information unit are written under the mark of the
    /// line. The first of these that stands refuses it: the causes of [`Refused`], in their order.
    pub fn submit<C: CrqEnd, O: OwnerPort>(
        &mut self,
        crq: &mut C,
        own: &mut O,
        op: &Op,
        line: u64,
    ) -> Result<u64, Refused>
        requires fits { FitsOp op.now }
        requires pages { MIN_PAGES ≤ (O.state own.old).place.size }
        ensures refused { IfSome (command_refusal (O.state own.old).place.size self.old op.now)
            (λ why. (result ≡ Err why) × (self.new ≡ self.old)
            × (C.state crq.new ≡ C.state crq.old) × (O.state own.new ≡ O.state own.old)) }
        ensures sent { IfOk result (Submitted line op.now self.old self.new
            (ports C.is_shared (C.state crq.old) O.is_shared (O.state own.old))
            (ports C.is_shared (C.state crq.new) O.is_shared (O.state own.new))) }
        ensures why { command_refusal (O.state own.old).place.size self.old op.now ≡ None
            → IfErr result (WhyNotSubmitted line op.now self.old self.new
            (ports C.is_shared (C.state crq.old) O.is_shared (O.state own.old))
            (ports C.is_shared (C.state crq.new) O.is_shared (O.state own.new))) }
        ensures spare { (C.state crq.old).spare ≤ (C.state crq.new).spare + 1 }
        ensures crq_rest { OnlySends C.is_shared (C.state crq.old) (C.state crq.new) }
        ensures own_rest { OnlyWrites (O.state own.old) (O.state own.new) }
    {
        if let Some(why) = self.command_refusal(op, own.pages()) {
            return Err(why);
        }
        crq.reserve(1)?;
        self.rows.reserve(1)?;
        write_table(&mut self.tabled, own, op, line)?;
        let tag = self.rows.len() as u64 + 1;
        let slot = match self.put_request(crq, own, &Iu::Cmd(op.command(tag)), line) {
            Ok(slot) => slot,
            Err(why) => {
                self.tabled = tabled_after(why, self.tabled);
                return Err(why);
            }
        };
        self.tabled = None;
        let request = Outgoing::of(op, tag, slot);
        note(
            &mut self.credits,
            &mut self.outgoing,
            &mut self.rows,
            request,
            op.row(),
        );
        Ok(tag)
    }
}

// Writes a command's table into the region, unless it lies there from a try before.
fn write_table<O: OwnerPort>(
    tabled: &mut Option<Table>,
    own: &mut O,
    op: &Op,
    line: u64,
) -> Result<(), Refused>
    requires fits { FitsOp op.now }
    requires low { InLow op.now }
    requires inside { IsTrue (op_in_range (O.state own.old).place.size op.now) }
    ensures laid { OnOk result (LaysAll O.is_shared line
        (table_writes_at line op.now tabled.old op.now.table)
        (O.state own.old) (O.state own.new)) }
    ensures tabled { OnOk result (tabled.new ≡ tabled_by line op.now op.now.table tabled.old) }
    ensures why { IfErr result (WhyNotWritten O.is_shared
        (table_writes_at line op.now tabled.old op.now.table)
        (O.state own.old) (O.state own.new)) }
    ensures same { OnErr result (tabled.new ≡ tabled.old) }
    ensures own_rest { OnlyWrites (O.state own.old) (O.state own.new) }
{
    let Some(address) = op.table else {
        return Ok(());
    };
    let table = Table::of(op, address, line);
    if is_tabled(*tabled, table) {
        return Ok(());
    }
    match own.write(address, &op.table_bytes(), line) {
        Ok(()) => {}
        Err(OwnFault::Range) => unreachable!(),
        Err(OwnFault::InUse { page, word }) => return Err(Refused::InUse { page, word }),
        Err(OwnFault::NoMemory) => return Err(Refused::NoMemory),
    }
    *tabled = Some(table);
    Ok(())
}

// Tells which table is remembered after a unit was not put.
fn tabled_after(why: Refused, tabled: Option<Table>) -> Option<Table>
    ensures { result ≡ tabled_after why tabled }
{
    match why {
        Refused::Closed { control: _ } | Refused::Dropped { number: _, held: _ } => None,
        _ => tabled,
    }
}

/// Notes a request that was sent.
pub(crate) fn note(
    credits: &mut Initiator,
    outgoing: &mut ArrayVec<Outgoing, 200>,
    rows: &mut Vec<Row>,
    request: Outgoing,
    row: Row,
)
    requires credit { IsSomeAnd credits.old.limit (λ n. 0 < n) }
    requires room { vec_len rows.old + 1 ≤ vec_capacity rows.old }
    requires requests { AreOutstanding credits.old outgoing.old.items rows.old.items }
    requires tag { request.tag ≡ vec_len rows.old + 1 }
    requires slot { request.slot < SLOTS }
    ensures granted { granted_of credits.new ≡ granted_of credits.old }
    ensures on { IsSome credits.new.limit }
    ensures outgoing { outgoing.new.items ≡ outgoing.old.items ++ request ∷ [] }
    ensures rows { rows.new.items ≡ rows.old.items ++ row ∷ [] }
    ensures requests { AreOutstanding credits.new outgoing.new.items rows.new.items }
{
    let few = credits.outstanding().len();
    prove!(few < 200);
    let Ok(()) = credits.sent(request.tag) else {
        unreachable!()
    };
    outgoing.push(request);
    rows.push_reserved(row);
}
