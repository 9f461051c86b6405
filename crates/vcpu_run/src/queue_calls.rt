// Raw calls on a unit's queue and its partner's.
ghost use Rattle.std.specs.Prelude.{◌≡◌, ◌↔◌, ◌<◌, false, true, IfOk};
ghost use Rattle.vio_num.specs.Entry.{first_byte};
ghost use Rattle.vio_num.specs.declared.hypervisor.Hrc.TheVariants as codes;
ghost use Rattle.hcall_table.specs.Rows.{may_answer};
ghost use Rattle.hcall_table.specs.declared.hcall.Hcall.TheVariants as rows;
ghost use Rattle.vcpu_run.specs.Announces.{Announces};
ghost use Rattle.vcpu_run.specs.CallRows.{queue_row};
ghost use Rattle.vcpu_run.specs.CallsAnswered.{AnswersQueue};
ghost use Rattle.vcpu_run.specs.LinesShow.{IsPutBy};

use crate::client_call::QueueCall;
use crq_session::{CrqEnd, FreeAnswer, RegAnswer, SendAnswer};
use vio_num::{Entry, Hrc, NoMemory};

// H_REG_CRQ (LoPAR, "H_REG_CRQ").
fn register<C: CrqEnd>(end: &mut C, address: u64, length: u64) -> Result<Hrc, NoMemory>
    ensures place { (C.state end.new).place ≡ (C.state end.old).place }
    ensures session { C.is_shared ≡ false → (C.state end.new).counts.partner_session
        ≡ (C.state end.old).counts.partner_session }
    ensures puts { C.is_shared ≡ false → Announces (C.state end.old) (C.state end.new) }
    ensures code { IfOk result (λ code. may_answer rows.RegCrq code ≡ true) }
{
    end.reserve(1)?;
    Ok(match end.register(address, length) {
        RegAnswer::Success => Hrc::Success,
        RegAnswer::Closed { control: _ } => Hrc::Closed,
        RegAnswer::Parameter => Hrc::Parameter,
        RegAnswer::Resource => Hrc::Resource,
        RegAnswer::Busy { number: _, held: _ } => Hrc::Busy,
    })
}

// H_FREE_CRQ (LoPAR, "H_FREE_CRQ").
fn free<C: CrqEnd>(end: &mut C) -> Result<Hrc, NoMemory>
    ensures place { (C.state end.new).place ≡ (C.state end.old).place }
    ensures session { C.is_shared ≡ false → (C.state end.new).counts.partner_session
        ≡ (C.state end.old).counts.partner_session }
    ensures puts { C.is_shared ≡ false → Announces (C.state end.old) (C.state end.new) }
    ensures code { IfOk result (λ code. may_answer rows.FreeCrq code ≡ true) }
{
    end.reserve(1)?;
    Ok(match end.free() {
        FreeAnswer::Success => Hrc::Success,
        FreeAnswer::Parameter => Hrc::Parameter,
        FreeAnswer::Busy { control: _ } => Hrc::Busy,
    })
}

// H_SEND_CRQ (LoPAR, "H_SEND_CRQ").
fn send<C: CrqEnd>(end: &mut C, high: u64, low: u64) -> Result<Hrc, NoMemory>
    ensures place { (C.state end.new).place ≡ (C.state end.old).place }
    ensures session { C.is_shared ≡ false → (C.state end.new).counts.partner_session
        ≡ (C.state end.old).counts.partner_session }
    ensures puts { C.is_shared ≡ false → Announces (C.state end.old) (C.state end.new) }
    ensures parameter { IfOk result (λ code. (code ≡ codes.Parameter) ↔
        (first_byte (record { high = high; low = low }) < 0x80)) }
    ensures put { IfOk result (λ code. code ≡ codes.Success →
        IsPutBy C.is_shared (C.state end.new) (record { high = high; low = low })) }
    ensures code { IfOk result (λ code. may_answer rows.SendCrq code ≡ true) }
{
    end.reserve(1)?;
    Ok(match end.send(Entry { high, low }) {
        SendAnswer::Success { number: _ } => Hrc::Success,
        SendAnswer::Parameter => Hrc::Parameter,
        SendAnswer::NotRegistered => Hrc::Closed,
        SendAnswer::Closed { control: _ } => Hrc::Closed,
        SendAnswer::Dropped { number: _, held: _ } => Hrc::Dropped,
    })
}

/// Makes a call on a queue, which is registered or not.
pub(crate) fn make<C: CrqEnd>(
    end: &mut C,
    is_registered: bool,
    call: QueueCall,
) -> Result<Hrc, NoMemory>
    ensures place { (C.state end.new).place ≡ (C.state end.old).place }
    ensures session { C.is_shared ≡ false → (C.state end.new).counts.partner_session
        ≡ (C.state end.old).counts.partner_session }
    ensures puts { C.is_shared ≡ false → Announces (C.state end.old) (C.state end.new) }
    ensures code { IfOk result (λ code. may_answer (queue_row call) code ≡ true) }
    ensures answer { IfOk result (AnswersQueue C.is_shared (C.state end.new) call) }
{
    match call {
        QueueCall::Register { address, length } => register(end, address, length),
        QueueCall::Free => free(end),
        QueueCall::Send { high, low } => send(end, high, low),
        QueueCall::Enable if is_registered => Ok(Hrc::Success),
        QueueCall::Enable => Ok(Hrc::Parameter),
    }
}
