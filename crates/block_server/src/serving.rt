// The service of the oldest request: what it asks is done, and then it is answered.
ghost use Rattle.block_server.specs.Doings.{DoesTurn, IsFree, doing};
ghost use Rattle.block_server.specs.Receipts.{is_ended};
ghost use Rattle.block_server.specs.declared.request.Order.{Order as Asked};
ghost use Rattle.block_server.specs.Talk.{IsServable, ServesFirst, StaysKnown, SuitsStage, reach_of};
ghost use Rattle.block_server.specs.Cargo.{AreShown, IsAccounted, IsFetchedAll, KeepsCargo, Sight, cargo_at, cargo_of, command_of, data_bytes, is_loaded, pages_of, seen};
ghost use Rattle.srp_desc.specs.declared.pieces.TheConstants.{MAX_DATA_LEN};
ghost use Rattle.std.specs.Prelude.{◌≡◌, ◌≢◌, ◌⊎◌, ◌∷◌, ◌<◌, ◌≤◌, ℕ, Bool, List, Option, Some, None, [], IfSome, OnOk, false, true, length};
ghost use Rattle.block_server.specs.Advances.{Advances};
ghost use Rattle.block_disk.specs.declared.reply.ScsiReply.{ScsiReply};
ghost use Rattle.block_server.specs.Bearing.{BearsRow, HasGiven};
ghost use Rattle.block_server.specs.Parts.{IsPlacedAt};
ghost use Rattle.block_server.specs.Causes.{Told, told_to};
ghost use Rattle.block_server.specs.Books.{books_at, books_of};
ghost use Rattle.block_server.specs.Copied.{own_name};
ghost use Rattle.block_server.specs.Ends.{IsGrantable, IsRejectedFor, IsRejection};
ghost use Rattle.block_server.specs.Fetched.{KnowsPieces};
ghost use Rattle.block_server.specs.Granting.{LoginState, login_state};
ghost use Rattle.block_server.specs.Judged.{Ahead, Books, IsAtStage, IsFor, Keeps, ServesOne, has_row, in_service, is_login};
ghost use Rattle.block_server.specs.Judges.{Judges};
ghost use Rattle.block_server.specs.Moves.{Passes};
ghost use Rattle.block_server.specs.Owed.{KeepsAnswersBy, MovesRow, owing_of, row_in};
ghost use Rattle.block_server.specs.Receipts.{TakesIn, standing_of};
ghost use Rattle.block_server.specs.Orders.{IsCauseOf, IsCodeOf};
ghost use Rattle.block_server.specs.Standing.{HasAnswer, LeavesFirst, stood};
ghost use Rattle.tce_window.specs.PortState.{PortState};
ghost use Rattle.block_server.specs.Ranges.{IsDataIn, LaysIn, MayWrite, client_known};
ghost use Rattle.block_server.specs.Records.{AddsRow};
ghost use Rattle.block_server.specs.Responses.{GrantsLogin};
ghost use Rattle.block_server.specs.RowsOn.{AddsFor, HasLastRow};
ghost use Rattle.block_server.specs.Refusals.{ExplainsOn, ledger_of};
ghost use Rattle.block_server.specs.Serving.{AnswersOnce, AnswersOnceIf, AnswersOnceOn, IsServing, desk_at, desk_of, held, terms_of};
ghost use Rattle.block_server.specs.Heard.{TellsAll};
ghost use Rattle.block_server.specs.HeardOut.{HearsNone, ServesOut};
ghost use Rattle.block_server.specs.Stage.{how_far, is_answered, is_before_step, is_data_out, is_entry, is_given};
ghost use Rattle.block_server.specs.Steps.{ComesOn, OtherStage};
ghost use Rattle.block_server.specs.Waits.{IsHeldUp, IsPending, MeetsUse, StaysAgreed};
ghost use Rattle.crq_session.specs.EndState.{EndState};
ghost use Rattle.vio_num.specs.declared.history.Served.{Served};
ghost use Rattle.block_server.specs.Turns.{IfQuiet, under_way};

use crate::answering::{answer, log_out};
use crate::answers::{login_granted, login_rejected, task_code, with_code};
use crate::cursor::Cursor;
use crate::disk::Disk;
use crate::fetching::{Progress, fetch};
use crate::handing::hand_over;
use crate::logins::Logins;
use crate::records::{Records, filled};
use crate::request::{Order, Request};
use crate::service::{Outcome, Service, Stage};
use crate::site::Site;
use crate::unit::Unit;
use srp_desc::named_pieces_sum_up;
use srp_iu::{Cmd, LoginReq, ResponseCode, UNABLE_TO_ESTABLISH_CHANNEL, login_fault};
use vio_io::Blocks;
use vio_num::{Bytes, NoMemory, UnitId};

/// Serves the oldest request as far as it goes.
pub(crate) fn serve<S: Site, B: Blocks>(
    unit: &mut Unit,
    site: &mut S,
    records: &mut Records,
    disk: &mut Disk<B>,
) -> Result<(), NoMemory>
    requires none { unit.old.line.kept ≡ None }
    ensures comes { OnOk result (ComesOn OtherStage unit.old unit.new
        (S.state site.old).queue (S.state site.new).queue) }
    ensures once { (told : Told → Bool) →
        TellsAll told unit.old.id (S.state site.old) (S.state site.new) → AnswersOnceOn
        (held told disk.old.count (B.state disk.old.image).blocks)
        (held told disk.new.count (B.state disk.new.image).blocks)
        (desk_of unit.old) (desk_of unit.new)
        (S.state site.old).queue (S.state site.new).queue records.old records.new }
    ensures quiet { OnOk result (IfQuiet unit.old unit.new
        (S.state site.old).queue (S.state site.new).queue) }
    ensures waits { OnOk result (unit.new.moved ≡ false → IsPending unit.old →
        IsHeldUp S.link_shared (S.state site.old) (S.state site.new)) }
    ensures nothing { unit.old.pending.items ≡ [] → unit.new ≡ unit.old }
    ensures still { unit.old.pending.items ≡ [] → S.state site.new ≡ S.state site.old }
    ensures agrees { StaysAgreed unit.old unit.new
        (S.state site.old).queue (S.state site.new).queue }
    ensures advances { Advances (S.state site.old) (S.state site.new) }
    ensures intake { TakesIn (standing_of unit.old) (standing_of unit.new)
        (S.state site.old) (S.state site.new)
        records.old.grants.items records.new.grants.items }
    ensures books { Keeps (books_at unit.old (S.state site.old) records.old)
        (books_at unit.new (S.state site.new) records.new) }
    ensures passes { Passes (S.state site.old) (S.state site.new) }
    ensures answers { KeepsAnswersBy (books_at unit.old (S.state site.old) records.old)
        S.link_shared unit.old unit.new (S.state site.old) (S.state site.new)
        records.old records.new }
    ensures judges { Judges
        (standing_of unit.old) (standing_of unit.new) (S.state site.old) (S.state site.new)
        (books_at unit.old (S.state site.old) records.old)
        (books_at unit.new (S.state site.new) records.new) }
    ensures cargo { (told : Told → Bool) → (asked : Bool) →
        TellsAll told unit.old.id (S.state site.old) (S.state site.new) →
        IsServing (terms_of told disk.old.count) (desk_of unit.old) records.old.history.items →
        IsAccounted told asked (cargo_of unit.old (S.state site.old) records.old) →
        IsAccounted told asked (cargo_of unit.new (S.state site.new) records.new) }
    ensures refuses { (told : Told → Bool) →
        ExplainsOn S.link_shared unit.old.line.handshake (terms_of told disk.old.count)
        (S.state site.old) (S.state site.new) (desk_of unit.old) records.old.history.items
        (ledger_of unit.old (S.state site.old) records.old)
        (ledger_of unit.new (S.state site.new) records.new) }
    ensures serves { (request : Request) → (rest : List Request) →
        IsServable unit.old (reach_of (S.state site.old)) S.link_shared request rest →
        OnOk result (ServesFirst unit.old unit.new
        (S.state site.old).queue (S.state site.new).queue
        records.old.grants.items records.new.grants.items request) }
    ensures unserved { unit.old.pending.items ≡ [] →
        records.new.grants.items ≡ records.old.grants.items }
    ensures wrote { (told : Told → Bool) →
        TellsAll told unit.old.id (S.state site.old) (S.state site.new) →
        IsServing (terms_of told disk.old.count) (desk_of unit.old) records.old.history.items →
        (request : Request) → (rest : List Request) → unit.old.pending.items ≡ request ∷ rest →
        LaysIn (MayWrite (told_to told unit.old.id) request)
        (client_known (S.state site.old)) (client_known (S.state site.new)) }
    ensures placed { (client : PortState) → StaysKnown client (S.state site.old).client →
        (S.state site.old).shared ≡ false → unit.old.service.stage ≡ Stage.Start →
        (request : Request) → (rest : List Request) → unit.old.pending.items ≡ request ∷ rest →
        LaysIn (MayWrite (stood client) request)
        (client_known (S.state site.old)) (client_known (S.state site.new)) }
    ensures leaves { (request : Request) → (rest : List Request) →
        IsServable unit.old (reach_of (S.state site.old)) S.link_shared request rest →
        request.order ≢ Order.Logout → OnOk result (LeavesFirst unit.old.logins
        (S.state site.old).own.place.unit request (S.state site.new).queue
        (S.state site.old).client (S.state site.new).client
        records.old.history.items records.new.history.items) }
    ensures out { (request : Request) → (rest : List Request) →
        unit.old.pending.items ≡ request ∷ rest → request.order ≡ Order.Logout →
        S.state site.new ≡ S.state site.old }
    ensures rows { (request : Request) → (rest : List Request) →
        IsServable unit.old (reach_of (S.state site.old)) S.link_shared request rest →
        OnOk result (AddsFor unit.old.id request
        records.old.history.items records.new.history.items) }
    ensures no_row { unit.old.pending.items ≡ [] →
        records.new.history.items ≡ records.old.history.items }
    ensures does { S.link_shared ≡ false → (S.state site.old).shared ≡ false → IsFree (doing
        unit.old (S.state site.old) records.old) → is_ended unit.old.line ≡ false ⊎
        (unit.old.pending.items ≡ []) → OnOk result (DoesTurn (doing unit.old (S.state site.old)
        records.old) (doing unit.new (S.state site.new) records.new)) }
    ensures hears { HearsNone unit.old unit.new (S.state site.old).queue (S.state site.new).queue }
    ensures stops { (S.state site.old).shared ≡ false → OnOk result (ServesOut
        unit.old unit.new (S.state site.old).queue (S.state site.new).queue) }
{
    let Some(request) = unit.pending.front() else {
        return Ok(());
    };
    if let Order::Logout = request.order {
        records.make_room()?;
        log_out(unit, site.session(), records);
        return Ok(());
    }
    let before = unit.service.stage.how_far();
    prepare(
        &mut unit.service,
        &unit.logins,
        unit.id,
        request,
        site,
        records,
        disk,
    )?;
    note_stage(unit, before);
    answer(unit, site, records)
}

// Notes whether the service came further than it had before.
fn note_stage(unit: &mut Unit, before: (u8, u32))
    ensures moved { unit.new.moved ≡ false →
        (unit.old.moved ≡ false) × (how_far unit.old.service.stage ≡ before) }
    ensures noted { ((unit.new.moved ≡ unit.old.moved) ×
        (how_far unit.old.service.stage ≡ before)) ⊎ (how_far unit.old.service.stage ≢ before) }
    ensures way { under_way unit.new ≡ under_way unit.old }
    ensures desk { desk_of unit.new ≡ desk_of unit.old }
    ensures line { unit.new.line ≡ unit.old.line }
    ensures stands { standing_of unit.new ≡ standing_of unit.old }
    ensures books { (session : ℕ) → (next : Ahead) → (records : Records) →
        books_of unit.new session next records ≡ books_of unit.old session next records }
    ensures owing { (q : EndState) → (records : Records) →
        owing_of unit.new q records ≡ owing_of unit.old q records }
    ensures service { unit.new.service ≡ unit.old.service }
    ensures id { unit.new.id ≡ unit.old.id }
    ensures logins { unit.new.logins ≡ unit.old.logins }
    ensures pending { unit.new.pending.items ≡ unit.old.pending.items }
{
    let (stage, done) = unit.service.stage.how_far();
    if stage != before.0 || done != before.1 {
        unit.moved = true;
    }
}

// Does what the request asks, up to its answer.
fn prepare<S: Site, B: Blocks>(
    service: &mut Service,
    logins: &Logins,
    id: UnitId,
    request: &Request,
    site: &mut S,
    records: &mut Records,
    disk: &mut Disk<B>,
) -> Result<(), NoMemory>
    ensures entry { is_entry service.old.stage ≡ true →
        service.new.stage ≡ service.old.stage }
    ensures once { (told : Told → Bool) → TellsAll told id (S.state site.old) (S.state site.new) →
        (rest : List Request) → AnswersOnceOn
        (held told disk.old.count (B.state disk.old.image).blocks)
        (held told disk.new.count (B.state disk.new.image).blocks)
        (desk_at id (login_state logins.now) service.old None (request.now ∷ rest))
        (desk_at id (login_state logins.now) service.new None (request.now ∷ rest))
        (S.state site.old).queue (S.state site.new).queue records.old records.new }
    ensures went { OnOk result (request.now.order ≢ Order.Logout →
        is_answered service.new.stage ≡ true ⊎ MeetsUse (S.state site.old) (S.state site.new)) }
    ensures queue { (S.state site.new).queue ≡ (S.state site.old).queue }
    ensures advances { Advances (S.state site.old) (S.state site.new) }
    ensures passes { Passes (S.state site.old) (S.state site.new) }
    ensures grants { records.new.grants.items ≡ records.old.grants.items }
    ensures books { (books : Books) →
        IsFor books id (S.state site.old).queue.last_session request.now →
        books.current ≡ logins.now.current → Keeps
        (in_service books service.old.stage records.old.history.items)
        (in_service books service.new.stage records.new.history.items) }
    ensures moves { (current : ℕ) → (rest : List Request) →
        IsAtStage current (request.now ∷ rest) service.old.stage →
        MovesRow id (S.state site.old).queue.last_session request.now
        service.old.stage service.new.stage
        records.old.history.items records.new.history.items }
    ensures cargo { (told : Told → Bool) → (asked : Bool) →
        TellsAll told id (S.state site.old) (S.state site.new) → (rest : List Request) →
        IsServing (terms_of told disk.old.count)
        (desk_at id (login_state logins.now) service.old None (request.now ∷ rest))
        records.old.history.items →
        IsAccounted told asked (cargo_at id service.old
        (seen (command_of request.now.order) (S.state site.old)) records.old.history.items) →
        IsAccounted told asked (cargo_at id service.new
        (seen (command_of request.now.order) (S.state site.new)) records.new.history.items) }
    ensures suits { SuitsStage logins.now.current request.now.order service.old.stage →
        OnOk result (SuitsStage logins.now.current request.now.order service.new.stage) }
    ensures made { HasAnswer (login_state logins.now) request.now service.old →
        OnOk result (HasAnswer (login_state logins.now) request.now service.new) }
    ensures wrote { (told : Told → Bool) → TellsAll told id (S.state site.old) (S.state site.new) →
        (rest : List Request) → IsServing (terms_of told disk.old.count)
        (desk_at id (login_state logins.now) service.old None (request.now ∷ rest))
        records.old.history.items → LaysIn (IsDataIn (told_to told id) request.now.order)
        (client_known (S.state site.old)) (client_known (S.state site.new)) }
    ensures placed { (client : PortState) → StaysKnown client (S.state site.old).client →
        (S.state site.old).shared ≡ false → service.old.stage ≡ Stage.Start →
        LaysIn (IsDataIn (stood client) request.now.order)
        (client_known (S.state site.old)) (client_known (S.state site.new)) }
    ensures bears { (client : PortState) → StaysKnown client (S.state site.old).client →
        (S.state site.old).shared ≡ false → service.old.stage ≡ Stage.Start → OnOk result
        (BearsRow (stood client) (own_name (S.state site.old).own request.now.tag)
        request.now.order records.new.history.items (row_in service.new.stage)
        (client_known (S.state site.old)) (client_known (S.state site.new))) }
    ensures rows { row_in service.old.stage ≡ None → OnOk result (HasLastRow id request.now
        records.old.history.items (row_in service.new.stage) records.new.history.items) }
{
    match &request.order {
        Order::Command(command) => {
            serve_command(service, id, request, command, site, records, disk)
        }
        _ if service.stage.is_answered() => Ok(()),
        Order::Login(login) => judge_login(service, logins, request.number, login),
        Order::Task(task) => add_code(
            service,
            records,
            id,
            site.session(),
            request,
            task_code(task),
        ),
        Order::Unreadable => add_code(
            service,
            records,
            id,
            site.session(),
            request,
            ResponseCode::FieldsInvalid,
        ),
        Order::Logout => Ok(()),
    }
}

// Grants a login or rejects it.
fn judge_login(
    service: &mut Service,
    logins: &Logins,
    number: u64,
    login: &LoginReq,
) -> Result<(), NoMemory>
    ensures once { (id : UnitId) → (front : Request) → (rest : List Request) →
        front.number ≡ number → front.order ≡ Order.Login login.now →
        (q : EndState) → (records : Records) → AnswersOnce
        (desk_at id (login_state logins.now) service.old None (front ∷ rest))
        (desk_at id (login_state logins.now) service.new None (front ∷ rest)) q q records records }
    ensures granted { OnOk result (service.new.stage ≡ Stage.Answer (Outcome.Granted number) →
        IsGrantable logins.now.current login.now) }
    ensures rejected { OnOk result (service.new.stage ≡ Stage.Answer Outcome.Rejected →
        ¬ IsGrantable logins.now.current login.now) }
    ensures judged { OnOk result (is_answered service.new.stage ≡ true) }
    ensures grants { OnOk result (service.new.stage ≡ Stage.Answer (Outcome.Granted number) →
        GrantsLogin service.new.answer.items login.now.tag logins.now.granted) }
    ensures rejects { OnOk result (service.new.stage ≡ Stage.Answer Outcome.Rejected →
        IsRejection logins.now.current login.now service.new.answer.items) }
    ensures books { (books : Books) → (front : Request) → (rest : List Request) →
        (rows : List Served) → books.pending ≡ front ∷ rest → is_login front.order ≡ true →
        front.number ≡ number → books.current ≡ logins.now.current → books.kept ≡ None →
        is_answered service.old.stage ≡ false → Keeps
        (in_service books service.old.stage rows) (in_service books service.new.stage rows) }
    ensures row { row_in service.old.stage ≡ None → row_in service.new.stage ≡ None }
    ensures cargo { (id : UnitId) → (shown : Sight) → (rows : List Served) →
        is_loaded service.old.stage ≡ false → KeepsCargo
        (cargo_at id service.old shown rows) (cargo_at id service.new shown rows) }
    ensures suits { OnOk result
        (SuitsStage logins.now.current (Order.Login login.now) service.new.stage) }
    ensures made { (request : Request) → request.order ≡ Order.Login login.now →
        OnOk result (HasAnswer (login_state logins.now) request service.new) }
{
    match login_refusal(logins.current(), login) {
        Some(reason) => service.set_answer(&login_rejected(login, reason), Outcome::Rejected),
        None => service.set_answer(
            &login_granted(login, logins.credits()),
            Outcome::Granted { number },
        ),
    }
}

// Why a login is rejected: one is on, or the first of its fields that is refused.
fn login_refusal(current: u64, login: &LoginReq) -> Option<u32>
    ensures on { 0 < current → result ≡ Some UNABLE_TO_ESTABLISH_CHANNEL }
    ensures none { result ≡ None → IsGrantable current login.now }
    ensures some { IsGrantable current login.now → result ≡ None }
    ensures why { IfSome result (λ reason. IsRejectedFor current login.now reason) }
{
    if current == 0 {
        login_fault(login)
    } else {
        Some(UNABLE_TO_ESTABLISH_CHANNEL)
    }
}

// Gives the request a row without a disk step, and answers it with a response code.
fn add_code(
    service: &mut Service,
    records: &mut Records,
    id: UnitId,
    session: u64,
    request: &Request,
    code: ResponseCode,
) -> Result<(), NoMemory>
    requires code { IsCodeOf request.now.order code }
    ensures once { (on : LoginState) → (rest : List Request) → (q : EndState) → AnswersOnceIf
        (λ Hears. IsCauseOf Hears request.now.order)
        (desk_at id on service.old None (request.now ∷ rest))
        (desk_at id on service.new None (request.now ∷ rest)) q q records.old records.new }
    ensures row { OnOk result (AddsRow id session request.now records.old records.new) }
    ensures stage { OnOk result (service.new.stage ≡
        Stage.Answer (Outcome.Served (length records.old.history.items))) }
    ensures grants { records.new.grants.items ≡ records.old.grants.items }
    ensures books { has_row service.old.stage ≡ false → ServesOne id session request.now
        service.old.stage service.new.stage
        records.old.history.items records.new.history.items }
    ensures moves { row_in service.old.stage ≡ None → MovesRow id session request.now
        service.old.stage service.new.stage
        records.old.history.items records.new.history.items }
    ensures cargo { (shown : Sight) → is_loaded service.old.stage ≡ false → KeepsCargo
        (cargo_at id service.old shown records.old.history.items)
        (cargo_at id service.new shown records.new.history.items) }
    ensures suits { (current : ℕ) → SuitsStage current request.now.order service.old.stage →
        OnOk result (SuitsStage current request.now.order service.new.stage) }
    ensures made { (on : LoginState) → OnOk result (HasAnswer on request.now service.new) }
{
    let blank = records.new_row(id, session, request)?;
    let row = records.history.len();
    service.set_answer(&with_code(request.tag, code), Outcome::Served { row })?;
    records.add_row(blank);
    Ok(())
}

// Serves a command up to its answer.
fn serve_command<S: Site, B: Blocks>(
    service: &mut Service,
    id: UnitId,
    request: &Request,
    command: &Cmd,
    site: &mut S,
    records: &mut Records,
    disk: &mut Disk<B>,
) -> Result<(), NoMemory>
    requires asked { request.now.order ≡ Order.Command command.now }
    ensures entry { is_entry service.old.stage ≡ true →
        service.new.stage ≡ service.old.stage }
    ensures once { (told : Told → Bool) → TellsAll told id (S.state site.old) (S.state site.new) →
        (on : LoginState) → (rest : List Request) → AnswersOnceOn
        (held told disk.old.count (B.state disk.old.image).blocks)
        (held told disk.new.count (B.state disk.new.image).blocks)
        (desk_at id on service.old None (request.now ∷ rest))
        (desk_at id on service.new None (request.now ∷ rest))
        (S.state site.old).queue (S.state site.new).queue records.old records.new }
    ensures went { OnOk result (is_answered service.new.stage ≡ true ⊎
        MeetsUse (S.state site.old) (S.state site.new)) }
    ensures queue { (S.state site.new).queue ≡ (S.state site.old).queue }
    ensures advances { Advances (S.state site.old) (S.state site.new) }
    ensures passes { Passes (S.state site.old) (S.state site.new) }
    ensures grants { records.new.grants.items ≡ records.old.grants.items }
    ensures books { ServesOne id (S.state site.old).queue.last_session request.now
        service.old.stage service.new.stage
        records.old.history.items records.new.history.items }
    ensures moves { MovesRow id (S.state site.old).queue.last_session request.now
        service.old.stage service.new.stage
        records.old.history.items records.new.history.items }
    ensures cargo { (told : Told → Bool) → (asked : Bool) →
        TellsAll told id (S.state site.old) (S.state site.new) →
        (on : LoginState) → (rest : List Request) → IsServing (terms_of told disk.old.count)
        (desk_at id on service.old None (request.now ∷ rest))
        records.old.history.items →
        IsAccounted told asked (cargo_at id service.old
        (seen (command_of request.now.order) (S.state site.old)) records.old.history.items) →
        IsAccounted told asked (cargo_at id service.new
        (seen (command_of request.now.order) (S.state site.new)) records.new.history.items) }
    ensures suits { (current : ℕ) → SuitsStage current request.now.order service.old.stage →
        OnOk result (SuitsStage current request.now.order service.new.stage) }
    ensures made { (on : LoginState) → HasAnswer on request.now service.old →
        OnOk result (HasAnswer on request.now service.new) }
    ensures wrote { (told : Told → Bool) → TellsAll told id (S.state site.old) (S.state site.new) →
        (on : LoginState) → (rest : List Request) → IsServing (terms_of told disk.old.count)
        (desk_at id on service.old None (request.now ∷ rest))
        records.old.history.items → LaysIn (IsDataIn (told_to told id) request.now.order)
        (client_known (S.state site.old)) (client_known (S.state site.new)) }
    ensures placed { (client : PortState) → StaysKnown client (S.state site.old).client →
        (S.state site.old).shared ≡ false → service.old.stage ≡ Stage.Start →
        LaysIn (IsDataIn (stood client) request.now.order)
        (client_known (S.state site.old)) (client_known (S.state site.new)) }
    ensures bears { (client : PortState) → StaysKnown client (S.state site.old).client →
        (S.state site.old).shared ≡ false → service.old.stage ≡ Stage.Start → OnOk result
        (BearsRow (stood client) (own_name (S.state site.old).own request.now.tag)
        request.now.order records.new.history.items (row_in service.new.stage)
        (client_known (S.state site.old)) (client_known (S.state site.new))) }
    ensures rows { row_in service.old.stage ≡ None → OnOk result (HasLastRow id request.now
        records.old.history.items (row_in service.new.stage) records.new.history.items) }
{
    run_step(service, id, request, command, site, records, disk)?;
    store(service, request, site)?;
    hand_over(service, request, command, site, records)
}

// Brings the command to its disk step and makes that, if that is to be done, or refuses it.
fn run_step<S: Site, B: Blocks>(
    service: &mut Service,
    id: UnitId,
    request: &Request,
    command: &Cmd,
    site: &mut S,
    records: &mut Records,
    disk: &mut Disk<B>,
) -> Result<(), NoMemory>
    requires asked { request.now.order ≡ Order.Command command.now }
    ensures entry { is_entry service.old.stage ≡ true →
        service.new.stage ≡ service.old.stage }
    ensures once { (told : Told → Bool) → TellsAll told id (S.state site.old) (S.state site.new) →
        (on : LoginState) → (rest : List Request) → AnswersOnceOn
        (held told disk.old.count (B.state disk.old.image).blocks)
        (held told disk.new.count (B.state disk.new.image).blocks)
        (desk_at id on service.old None (request.now ∷ rest))
        (desk_at id on service.new None (request.now ∷ rest))
        (S.state site.old).queue (S.state site.new).queue records.old records.new }
    ensures went { OnOk result (is_before_step service.new.stage ≡ false ⊎
        MeetsUse (S.state site.old) (S.state site.new)) }
    ensures queue { (S.state site.new).queue ≡ (S.state site.old).queue }
    ensures advances { Advances (S.state site.old) (S.state site.new) }
    ensures passes { Passes (S.state site.old) (S.state site.new) }
    ensures grants { records.new.grants.items ≡ records.old.grants.items }
    ensures books { ServesOne id (S.state site.old).queue.last_session request.now
        service.old.stage service.new.stage
        records.old.history.items records.new.history.items }
    ensures moves { MovesRow id (S.state site.old).queue.last_session request.now
        service.old.stage service.new.stage
        records.old.history.items records.new.history.items }
    ensures cargo { (told : Told → Bool) → (asked : Bool) →
        TellsAll told id (S.state site.old) (S.state site.new) →
        (on : LoginState) → (rest : List Request) → IsServing (terms_of told disk.old.count)
        (desk_at id on service.old None (request.now ∷ rest))
        records.old.history.items →
        IsAccounted told asked (cargo_at id service.old (seen (Some command.now) (S.state site.old))
        records.old.history.items) →
        IsAccounted told asked (cargo_at id service.new (seen (Some command.now) (S.state site.new))
        records.new.history.items) }
    ensures suits { (current : ℕ) → SuitsStage current request.now.order service.old.stage →
        OnOk result (SuitsStage current request.now.order service.new.stage) }
    ensures made { (on : LoginState) → HasAnswer on request.now service.old →
        OnOk result (HasAnswer on request.now service.new) }
    ensures known { client_known (S.state site.new) ≡ client_known (S.state site.old) }
    ensures stood { (client : PortState) → StaysKnown client (S.state site.old).client →
        (S.state site.old).shared ≡ false → KnowsPieces (stood client) command.now service.old →
        OnOk result (KnowsPieces (stood client) command.now service.new) }
    ensures rows { row_in service.old.stage ≡ None → OnOk result (HasLastRow id request.now
        records.old.history.items (row_in service.new.stage) records.new.history.items) }
    ensures given { row_in service.old.stage ≡ None → OnOk result
        (HasGiven service.new.stage service.new.given.items records.new.history.items) }
{
    if !service.stage.is_before_step() {
        return Ok(());
    }
    match fetch(service, site, command)? {
        Progress::Busy => Ok(()),
        Progress::Refused => add_code(
            service,
            records,
            id,
            site.session(),
            request,
            ResponseCode::FieldsInvalid,
        ),
        Progress::Done => make_step(service, id, request, command, site, records, disk),
    }
}

// Writes the data-in that the disk step gave to the unit's region, if that is to be done.
fn store<S: Site>(service: &mut Service, request: &Request, site: &mut S) -> Result<(), NoMemory>
    ensures entry { is_entry service.old.stage ≡ true →
        service.new.stage ≡ service.old.stage }
    ensures once { (id : UnitId) → (on : LoginState) → (rest : List Request) →
        (records : Records) → AnswersOnce
        (desk_at id on service.old None (request.now ∷ rest))
        (desk_at id on service.new None (request.now ∷ rest))
        (S.state site.old).queue (S.state site.new).queue records records }
    ensures went { OnOk result (is_before_step service.old.stage ≡ false →
        (is_before_step service.new.stage ≡ false) × (is_given service.new.stage ≡ false)) }
    ensures queue { (S.state site.new).queue ≡ (S.state site.old).queue }
    ensures advances { Advances (S.state site.old) (S.state site.new) }
    ensures passes { Passes (S.state site.old) (S.state site.new) }
    ensures books { (id : UnitId) → (session : ℕ) → (rows : List Served) → ServesOne
        id session request.now service.old.stage service.new.stage rows rows }
    ensures row { row_in service.new.stage ≡ row_in service.old.stage }
    ensures cargo { (id : UnitId) → (rows : List Served) → (first : Option Cmd) → KeepsCargo
        (cargo_at id service.old (seen first (S.state site.old)) rows)
        (cargo_at id service.new (seen first (S.state site.new)) rows) }
    ensures suits { (current : ℕ) → (order : Asked) →
        SuitsStage current order service.old.stage →
        OnOk result (SuitsStage current order service.new.stage) }
    ensures made { (on : LoginState) → HasAnswer on request.now service.old →
        OnOk result (HasAnswer on request.now service.new) }
    ensures known { client_known (S.state site.new) ≡ client_known (S.state site.old) }
    ensures stood { (command : Cmd) → (client : PortState) → KnowsPieces (stood client) command
        service.old → OnOk result (KnowsPieces (stood client) command service.new) }
    ensures stored { (row : ℕ) → (reply : ScsiReply) →
        service.old.stage ≡ Stage.Given row reply → OnOk result ((cursor : Cursor) ×
        (service.new.stage ≡ Stage.DataIn row reply cursor) ×
        IsPlacedAt service.new.inn.list.items cursor ×
        AreShown (data_bytes (S.state site.new).own) service.new.given.items ×
        (service.new.given.items ≡ service.old.given.items) ×
        (service.new.inn ≡ service.old.inn)) }
    ensures unstored { is_given service.old.stage ≡ false → service.new ≡ service.old }
{
    if let Stage::Given { row, reply } = service.stage {
        site.write_data(&service.given, request.tag)?;
        service.stage = Stage::DataIn {
            row,
            reply,
            cursor: Cursor::start(),
        };
    }
    Ok(())
}

// Makes the disk step, and gives the command its row.
fn make_step<S: Site, B: Blocks>(
    service: &mut Service,
    id: UnitId,
    request: &Request,
    command: &Cmd,
    site: &mut S,
    records: &mut Records,
    disk: &mut Disk<B>,
) -> Result<(), NoMemory>
    requires asked { request.now.order ≡ Order.Command command.now }
    ensures once { (told : Told → Bool) → (on : LoginState) → (rest : List Request) → AnswersOnceOn
        (held told disk.old.count (B.state disk.old.image).blocks)
        (held told disk.new.count (B.state disk.new.image).blocks)
        (desk_at id on service.old None (request.now ∷ rest))
        (desk_at id on service.new None (request.now ∷ rest))
        (S.state site.old).queue (S.state site.new).queue records.old records.new }
    ensures went { OnOk result (is_data_out service.old.stage ≡ true →
        is_before_step service.new.stage ≡ false) }
    ensures queue { (S.state site.new).queue ≡ (S.state site.old).queue }
    ensures advances { Advances (S.state site.old) (S.state site.new) }
    ensures passes { Passes (S.state site.old) (S.state site.new) }
    ensures grants { records.new.grants.items ≡ records.old.grants.items }
    ensures books { ServesOne id (S.state site.old).queue.last_session request.now
        service.old.stage service.new.stage
        records.old.history.items records.new.history.items }
    ensures moves { MovesRow id (S.state site.old).queue.last_session request.now
        service.old.stage service.new.stage
        records.old.history.items records.new.history.items }
    ensures cargo { (told : Told → Bool) → (asked : Bool) →
        KnowsPieces (told_to told id) command.now service.old → IsFetchedAll service.old →
        IsAccounted told asked (cargo_at id service.old (seen (Some command.now) (S.state site.old))
        records.old.history.items) →
        IsAccounted told asked (cargo_at id service.new (seen (Some command.now) (S.state site.new))
        records.new.history.items) }
    ensures suits { (current : ℕ) → SuitsStage current request.now.order service.old.stage →
        OnOk result (SuitsStage current request.now.order service.new.stage) }
    ensures made { (on : LoginState) → HasAnswer on request.now service.old →
        OnOk result (HasAnswer on request.now service.new) }
    ensures known { client_known (S.state site.new) ≡ client_known (S.state site.old) }
    ensures stood { (client : PortState) → KnowsPieces (stood client) command.now service.old →
        OnOk result (KnowsPieces (stood client) command.now service.new) }
    ensures rows { row_in service.old.stage ≡ None → OnOk result (HasLastRow id request.now
        records.old.history.items (row_in service.new.stage) records.new.history.items) }
    ensures given { row_in service.old.stage ≡ None → OnOk result
        (HasGiven service.new.stage service.new.given.items records.new.history.items) }
{
    let Stage::DataOut(_) = service.stage else {
        return Ok(());
    };
    let expected = service.inn.total();
    let mut row = records.new_row(id, site.session(), request)?;
    let out = records.zeros(service.out.total())?;
    let room = records.room(expected)?;
    service.make_room(expected)?;
    named_pieces_sum_up();
    let out = read_out(site, out);
    let reply = disk.execute(command.lun, &command.cdb, &out);
    let given = disk.given(reply.in_len.min(expected) as usize);
    service.keep(given);
    row.inn = filled(room, given);
    row.out = Bytes::from(out);
    row.fault = reply.fault;
    let row = records.add_row(row);
    service.stage = Stage::Given { row, reply };
    Ok(())
}

// Reads the data-out that were copied, as many bytes as there is room for.
fn read_out<S: Site>(site: &mut S, room: Vec<u8>) -> Vec<u8>
    requires { length room.items ≤ MAX_DATA_LEN }
    ensures len { length result.items ≡ length room.items }
    ensures queue { (S.state site.new).queue ≡ (S.state site.old).queue }
    ensures advances { Advances (S.state site.old) (S.state site.new) }
    ensures passes { Passes (S.state site.old) (S.state site.new) }
    ensures data { pages_of (S.state site.new) ≡ pages_of (S.state site.old) }
    ensures read { AreShown (data_bytes (S.state site.new).own) result.items }
    ensures known { client_known (S.state site.new) ≡ client_known (S.state site.old) }
{
    let mut out = room;
    site.read_data(&mut out);
    out
}
