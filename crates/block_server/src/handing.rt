// The end of a command: its data-in are copied to the client, and then its answer is written.
ghost use Rattle.block_server.specs.Talk.{SuitsStage};
ghost use Rattle.block_server.specs.Cargo.{AreShown, HasTag, IsAccounted, IsSentAll, KeepsCargo, Sight, cargo_at, data_bytes, seen};
ghost use Rattle.block_server.specs.Parts.{IsPlacedAt};
ghost use Rattle.std.specs.Prelude.{◌≡◌, ◌≢◌, ◌⊎◌, ◌∷◌, ◌<◌, ℕ, Bool, List, Option, Some, None, IfOk, OnOk, false, true, length, slice_get, take};
ghost use Rattle.block_server.specs.Advances.{Advances};
ghost use Rattle.block_server.specs.Bearing.{BearsIn, IsDataPart};
ghost use Rattle.block_server.specs.Causes.{IsPartOf, RefusesData, RefusesIn, Told};
ghost use Rattle.block_server.specs.Copied.{own_name};
ghost use Rattle.block_server.specs.Fetched.{IfDone, IfRefused};
ghost use Rattle.block_server.specs.Granting.{LoginState};
ghost use Rattle.block_server.specs.Judged.{ServesOne};
ghost use Rattle.block_server.specs.Moves.{Passes};
ghost use Rattle.block_server.specs.Owed.{row_states, row_in};
ghost use Rattle.block_server.specs.RowsOn.{KeepsLastRow};
ghost use Rattle.block_server.specs.Standing.{HasAnswer};
ghost use Rattle.block_server.specs.Ranges.{LaysIn, client_known};
ghost use Rattle.block_server.specs.Serving.{AnswersOnceIf, AnswersOnceOn, IsServing, desk_at, held, terms_of};
ghost use Rattle.block_server.specs.Heard.{TellsAll, heard_between};
ghost use Rattle.tce_window.specs.declared.answers.Right.TheVariants.{Write};
ghost use Rattle.block_server.specs.Stage.{is_answered, is_before_step, is_data_in, is_entry, is_given};
ghost use Rattle.block_server.specs.Waits.{MeetsUse};
ghost use Rattle.crq_session.specs.EndState.{EndState};
ghost use Rattle.vio_num.specs.declared.history.Served.{Served};

use crate::answers::{total_len, with_code, with_status};
use crate::cursor::Cursor;
use crate::fetching::Progress;
use crate::records::Records;
use crate::request::{Order, Request};
use crate::service::{Outcome, Service, Stage};
use crate::site::{Halt, Site};
use block_disk::ScsiReply;
use srp_iu::{Cmd, ResponseCode, bytes_spell_one};
use vio_num::{NoMemory, UnitId};

/// Copies data-in to the client, if that is to be done, and writes the answer.
pub(crate) fn hand_over<S: Site>(
    service: &mut Service,
    request: &Request,
    command: &Cmd,
    site: &mut S,
    records: &mut Records,
) -> Result<(), NoMemory>
    requires asked { request.now.order ≡ Order.Command command.now }
    ensures entry { is_entry service.old.stage ≡ true →
        service.new.stage ≡ service.old.stage }
    ensures once { (id : UnitId) → (told : Told → Bool) →
        TellsAll told id (S.state site.old) (S.state site.new) →
        (size : ℕ) → (now : Option (List (List ℕ))) →
        (on : LoginState) → (rest : List Request) →
        AnswersOnceOn (held told size now) (held told size now)
        (desk_at id on service.old None (request.now ∷ rest))
        (desk_at id on service.new None (request.now ∷ rest))
        (S.state site.old).queue (S.state site.new).queue records.old records.new }
    ensures went { OnOk result (is_before_step service.old.stage ≡ false →
        is_given service.old.stage ≡ false → is_answered service.new.stage ≡ true ⊎
        MeetsUse (S.state site.old) (S.state site.new)) }
    ensures queue { (S.state site.new).queue ≡ (S.state site.old).queue }
    ensures advances { Advances (S.state site.old) (S.state site.new) }
    ensures passes { Passes (S.state site.old) (S.state site.new) }
    ensures grants { records.new.grants.items ≡ records.old.grants.items }
    ensures books { (id : UnitId) → (session : ℕ) → ServesOne id session request.now
        service.old.stage service.new.stage
        records.old.history.items records.new.history.items }
    ensures row { row_in service.new.stage ≡ row_in service.old.stage }
    ensures states { row_states records.new.history.items ≡ row_states records.old.history.items }
    ensures cargo { (id : UnitId) → (told : Told → Bool) → (asked : Bool) →
        TellsAll told id (S.state site.old) (S.state site.new) → (size : ℕ) →
        (on : LoginState) → (rest : List Request) → IsServing (terms_of told size)
        (desk_at id on service.old None (request.now ∷ rest))
        records.old.history.items →
        IsAccounted told asked (cargo_at id service.old (seen (Some command.now) (S.state site.old))
        records.old.history.items) →
        IsAccounted told asked (cargo_at id service.new (seen (Some command.now) (S.state site.new))
        records.new.history.items) }
    ensures suits { (current : ℕ) → SuitsStage current request.now.order service.old.stage →
        OnOk result (SuitsStage current request.now.order service.new.stage) }
    ensures made { (on : LoginState) → HasAnswer on request.now service.old →
        OnOk result (HasAnswer on request.now service.new) }
    ensures wrote { is_data_in service.old.stage ≡ true →
        LaysIn (IsPartOf service.old.inn.list.items)
        (client_known (S.state site.old)) (client_known (S.state site.new)) }
    ensures unwritten { is_data_in service.old.stage ≡ false →
        client_known (S.state site.new) ≡ client_known (S.state site.old) }
    ensures bears { (row : ℕ) → (reply : ScsiReply) → (cursor : Cursor) →
        service.old.stage ≡ Stage.DataIn row reply cursor →
        IsPlacedAt service.old.inn.list.items cursor →
        AreShown (data_bytes (S.state site.old).own) service.old.given.items →
        (before : Served) → slice_get records.old.history.items row ≡ Some before →
        before.inn ≡ service.old.given.items → OnOk result ((after : Served) ×
        (slice_get records.new.history.items row ≡ Some after) × BearsIn (IsDataPart
        (own_name (S.state site.old).own request.now.tag) service.old.inn.list.items after.inn)
        (client_known (S.state site.old)) (client_known (S.state site.new))) }
    ensures rows { KeepsLastRow (row_in service.old.stage)
        records.old.history.items records.new.history.items }
{
    let Stage::DataIn { row, reply, cursor } = service.stage else {
        return Ok(());
    };
    let progress = deliver_data(service, site, request.tag, row, reply, cursor)?;
    end_command(service, records, request, command, progress)
}

// Copies the data-in that are left from a place on to the client.
fn deliver_data<S: Site>(
    service: &mut Service,
    site: &mut S,
    tag: u64,
    row: usize,
    reply: ScsiReply,
    start: Cursor,
) -> Result<Progress, NoMemory>
    requires stage { service.old.stage ≡ Stage.DataIn row reply start }
    ensures stage { (cursor : Cursor) × (service.new.stage ≡ Stage.DataIn row reply cursor) }
    ensures answer { service.new.answer.items ≡ service.old.answer.items }
    ensures given { service.new.given.items ≡ service.old.given.items }
    ensures out { service.new.out ≡ service.old.out }
    ensures inn { service.new.inn ≡ service.old.inn }
    ensures some { IfRefused result (0 < length service.new.given.items) }
    ensures refused { IfRefused result (RefusesData
        (heard_between (S.state site.old) (S.state site.new)) Write service.old.inn.list.items) }
    ensures busy { IfOk result (λ progress. progress ≡ Progress.Busy →
        MeetsUse (S.state site.old) (S.state site.new)) }
    ensures queue { (S.state site.new).queue ≡ (S.state site.old).queue }
    ensures advances { Advances (S.state site.old) (S.state site.new) }
    ensures passes { Passes (S.state site.old) (S.state site.new) }
    ensures cargo { (id : UnitId) → (told : Told → Bool) → (asked : Bool) →
        TellsAll told id (S.state site.old) (S.state site.new) → (rows : List Served) →
        HasTag rows row tag → (first : Option Cmd) →
        IsAccounted told asked (cargo_at id service.old (seen first (S.state site.old)) rows) →
        IsAccounted told asked (cargo_at id service.new (seen first (S.state site.new)) rows) }
    ensures all { IsPlacedAt service.old.inn.list.items start →
        IfDone result (IsSentAll service.new) }
    ensures wrote { LaysIn (IsPartOf service.old.inn.list.items)
        (client_known (S.state site.old)) (client_known (S.state site.new)) }
    ensures bears { IsPlacedAt service.old.inn.list.items start →
        AreShown (data_bytes (S.state site.old).own) service.old.given.items →
        (cursor : Cursor) → service.new.stage ≡ Stage.DataIn row reply cursor → BearsIn
        (IsDataPart (own_name (S.state site.old).own tag) service.old.inn.list.items
        (take cursor.done service.old.given.items))
        (client_known (S.state site.old)) (client_known (S.state site.new)) }
{
    let total = service.given.len() as u32;
    let mut cursor = start;
    while let Some(part) = cursor.next(service.inn.as_slice(), total) {
        let Some(address) = part.address else {
            return Ok(Progress::Refused);
        };
        match site.deliver_data(part.at, address, part.len, tag) {
            Ok(()) => {}
            Err(Halt::Refused) => return Ok(Progress::Refused),
            Err(Halt::Busy) => return Ok(Progress::Busy),
            Err(Halt::NoMemory) => return Err(NoMemory),
        }
        cursor = part.end;
        service.stage = Stage::DataIn { row, reply, cursor };
    }
    Ok(Progress::Done)
}

// Writes the answer to a command whose data-in were copied, or refused.
fn end_command(
    service: &mut Service,
    records: &mut Records,
    request: &Request,
    command: &Cmd,
    progress: Progress,
) -> Result<(), NoMemory>
    requires asked { request.now.order ≡ Order.Command command.now }
    requires some { progress ≡ Progress.Refused → 0 < length service.old.given.items }
    ensures once { (id : UnitId) → (on : LoginState) → (rest : List Request) →
        (q : EndState) → AnswersOnceIf
        (λ Hears. progress ≡ Progress.Refused → RefusesIn Hears command.now)
        (desk_at id on service.old None (request.now ∷ rest))
        (desk_at id on service.new None (request.now ∷ rest)) q q records.old records.new }
    ensures went { OnOk result (is_data_in service.old.stage ≡ true → progress ≢ Progress.Busy →
        is_answered service.new.stage ≡ true) }
    ensures grants { records.new.grants.items ≡ records.old.grants.items }
    ensures books { (id : UnitId) → (session : ℕ) → ServesOne id session request.now
        service.old.stage service.new.stage
        records.old.history.items records.new.history.items }
    ensures row { row_in service.new.stage ≡ row_in service.old.stage }
    ensures states { row_states records.new.history.items ≡ row_states records.old.history.items }
    ensures cargo { (id : UnitId) → (shown : Sight) →
        (progress ≡ Progress.Done → IsSentAll service.old) → KeepsCargo
        (cargo_at id service.old shown records.old.history.items)
        (cargo_at id service.new shown records.new.history.items) }
    ensures suits { (current : ℕ) → SuitsStage current request.now.order service.old.stage →
        OnOk result (SuitsStage current request.now.order service.new.stage) }
    ensures made { (on : LoginState) → HasAnswer on request.now service.old →
        OnOk result (HasAnswer on request.now service.new) }
    ensures inn { (row : ℕ) → (reply : ScsiReply) → (cursor : Cursor) →
        service.old.stage ≡ Stage.DataIn row reply cursor → (before : Served) →
        slice_get records.old.history.items row ≡ Some before → OnOk result ((after : Served) ×
        (slice_get records.new.history.items row ≡ Some after) × ((after.inn ≡ before.inn) ⊎
        (after.inn ≡ take cursor.done service.old.given.items))) }
    ensures rows { KeepsLastRow (row_in service.old.stage)
        records.old.history.items records.new.history.items }
{
    let Stage::DataIn { row, reply, .. } = service.stage else {
        return Ok(());
    };
    match progress {
        Progress::Busy => Ok(()),
        Progress::Refused => refuse_data(service, records, request, command),
        Progress::Done => {
            bytes_spell_one();
            let (out, inn) = (total_len(&command.out), total_len(&command.inn));
            service.set_answer(
                &with_status(request.tag, &reply, out, inn),
                Outcome::Served { row },
            )
        }
    }
}

// Answers a command whose data-in the client's window refused, and leaves its row those that were copied.
fn refuse_data(
    service: &mut Service,
    records: &mut Records,
    request: &Request,
    command: &Cmd,
) -> Result<(), NoMemory>
    requires asked { request.now.order ≡ Order.Command command.now }
    requires some { 0 < length service.old.given.items }
    ensures once { (id : UnitId) → (on : LoginState) → (rest : List Request) →
        (q : EndState) → AnswersOnceIf
        (λ Hears. RefusesIn Hears command.now)
        (desk_at id on service.old None (request.now ∷ rest))
        (desk_at id on service.new None (request.now ∷ rest)) q q records.old records.new }
    ensures went { OnOk result (is_data_in service.old.stage ≡ true →
        is_answered service.new.stage ≡ true) }
    ensures grants { records.new.grants.items ≡ records.old.grants.items }
    ensures books { (id : UnitId) → (session : ℕ) → ServesOne id session request.now
        service.old.stage service.new.stage
        records.old.history.items records.new.history.items }
    ensures row { row_in service.new.stage ≡ row_in service.old.stage }
    ensures states { row_states records.new.history.items ≡ row_states records.old.history.items }
    ensures cargo { (id : UnitId) → (shown : Sight) → KeepsCargo
        (cargo_at id service.old shown records.old.history.items)
        (cargo_at id service.new shown records.new.history.items) }
    ensures suits { (current : ℕ) → SuitsStage current request.now.order service.old.stage →
        OnOk result (SuitsStage current request.now.order service.new.stage) }
    ensures made { (on : LoginState) → HasAnswer on request.now service.old →
        OnOk result (HasAnswer on request.now service.new) }
    ensures inn { (row : ℕ) → (reply : ScsiReply) → (cursor : Cursor) →
        service.old.stage ≡ Stage.DataIn row reply cursor → (before : Served) →
        slice_get records.old.history.items row ≡ Some before → OnOk result ((after : Served) ×
        (slice_get records.new.history.items row ≡ Some after) ×
        (after.inn ≡ take cursor.done service.old.given.items)) }
    ensures rows { KeepsLastRow (row_in service.old.stage)
        records.old.history.items records.new.history.items }
{
    let Stage::DataIn { row, cursor, .. } = service.stage else {
        return Ok(());
    };
    bytes_spell_one();
    service.set_answer(
        &with_code(request.tag, ResponseCode::FieldsInvalid),
        Outcome::Served { row },
    )?;
    let inn = service.take_given(cursor.done());
    records.fill(row, inn);
    Ok(())
}
