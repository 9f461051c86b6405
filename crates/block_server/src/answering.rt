// Answering: what is put into the client's queue, and what ends a login.
ghost use Rattle.block_server.specs.Doings.{DoesOne, DoesTurn, DropsAll, IsAtRest, WritesAnswer, doing};
ghost use Rattle.block_server.specs.Talk.{CopiesAnswer, HasRoomFor, IsAnswerAt, LogsOut, MayWriteAnswer, PutsAnswer, SettlesLogins, StaysKnown, settled_lines};
ghost use Rattle.std.specs.Prelude.{◌≡◌, ◌≢◌, ◌⊎◌, ◌+◌, ◌<◌, ◌≤◌, ◌∷◌, ◌++◌, ℕ, Bool, List, None, Some, IfOk, OnOk, drop, false, length, slice_get, true};
ghost use Rattle.block_server.specs.Advances.{Advances};
ghost use Rattle.block_server.specs.Bearing.{BearsIn, IsAnswerPart};
ghost use Rattle.block_server.specs.Books.{books_at, books_of};
ghost use Rattle.block_server.specs.Cargo.{KeepsCargo, Sight, cargo_at, cargo_of, is_loaded, rows_of};
ghost use Rattle.block_server.specs.Copied.{own_name};
ghost use Rattle.block_server.specs.declared.service.Service.{Service};
ghost use Rattle.vio_num.specs.declared.history.Served.{Served};
ghost use Rattle.vio_num.specs.declared.names.UnitId.{UnitId};
ghost use Rattle.block_server.specs.Ends.{EndsLogin};
ghost use Rattle.block_server.specs.Entries.{MayPut, is_answer_len};
ghost use Rattle.block_server.specs.Serving.{AnswersOnce, AnswersOnceBy, AsNone, IsAnswerKept, IsServing, LeavesRow, SettlesRow, Terms, desk_of};
ghost use Rattle.crq_session.specs.EndState.{EndState};
ghost use Rattle.block_server.specs.Decided.{EndsBooks};
ghost use Rattle.block_server.specs.HeardOut.{CopiesOrEnds, HasNoRoom, HearsNone, ServesOrStops, StaysBusy};
ghost use Rattle.block_server.specs.Judges.{Judges};
ghost use Rattle.block_server.specs.Judged.{Ahead, Keeps, gets_row, is_login, is_logout, keys_of};
ghost use Rattle.block_server.specs.LoginAnswers.{login_put};
ghost use Rattle.block_server.specs.Moves.{Passes};
ghost use Rattle.block_server.specs.Owed.{AreCutOff, HasAnswers, IsUp, KeepsAnswers, KeepsAnswersBy, row_in, row_states, owing_of};
ghost use Rattle.block_server.specs.Receipts.{LinesMore, TakesIn, is_ended, standing_of};
ghost use Rattle.block_server.specs.Ranges.{IsAnswerRange, LaysIn, client_known};
ghost use Rattle.block_server.specs.Ready.{MeetsFull};
ghost use Rattle.block_server.specs.RowsOn.{KeepsLastRow};
ghost use Rattle.block_server.specs.Standing.{Stands};
ghost use Rattle.block_server.specs.Refusals.{DeniesAnswer, Explains, ExplainsBy, ExplainsOf, ExplainsOn, ExplainsSends, ledger_at, ledger_of};
ghost use Rattle.crq_ring.specs.declared.rows.PipeRow.{PipeRow};
ghost use Rattle.block_server.specs.Stage.{is_answered};
ghost use Rattle.block_server.specs.Steps.{ComesOn, NoStage, ToEntry};
ghost use Rattle.block_server.specs.Turns.{IfQuiet};
ghost use Rattle.block_server.specs.Waits.{AsNext, IsEntryDue, IsHeldUp, IsPending, MeetsUse, PassesKept, StaysAgreed};
ghost use Rattle.vio_num.specs.Entry.{srp_entry};
ghost use Rattle.rdma_copy.specs.Copies.{MayHold};
ghost use Rattle.tce_window.specs.declared.answers.Right.TheVariants.{Write};
ghost use Rattle.block_server.specs.declared.request.Request.{Request};
ghost use Rattle.block_server.specs.declared.service.Outcome.{Outcome};
ghost use Rattle.block_server.specs.Records.{HasLineRoom};

use crate::fetching::Progress;
use crate::intake::Next;
use crate::line::Kept;
use crate::logins::MOST_LOGINS;
use crate::records::Records;
use crate::service::{Outcome, Service, Stage};
use crate::site::{Halt, Site};
use crate::unit::Unit;
use crq_session::SendAnswer;
use srp_iu::bytes_spell_one;
use vio_num::{Entry, Grant, Lapse, NoMemory};

/// Ends the session for a cause that counts nothing.
pub(crate) fn end_session(
    unit: &mut Unit,
    session: u64,
    records: &mut Records,
    cause: Lapse,
) -> Next
    requires { HasLineRoom records.old }
    ensures ends { EndsLogin unit.old unit.new records.old records.new session cause 0 0 }
    ensures once { (q : EndState) → AnswersOnce (desk_of unit.old) (desk_of unit.new) q q
        records.old records.new }
    ensures closing { unit.new.line.closing ≡ true }
    ensures end { result ≡ Next.End }
    ensures last { unit.new.logins.last ≡ unit.old.logins.last }
    ensures stage { unit.new.service.stage ≡ Stage.Start }
    ensures handshake { unit.new.line.handshake ≡ unit.old.line.handshake }
    ensures moved { unit.new.moved ≡ true }
    ensures id { unit.new.id ≡ unit.old.id }
    ensures books { EndsBooks unit.old unit.new records.old records.new session true cause 0 0 }
    ensures cuts { (q : EndState) → session ≡ q.last_session → is_logout cause ≡ false →
        HasAnswers (owing_of unit.old q records.old) → AreCutOff unit.old.id
        (row_states records.new.history.items) records.new.grants.items }
    ensures cargo { (shown shown' : Sight) → shown'.pages.count ≡ shown.pages.count → KeepsCargo
        (cargo_at unit.old.id unit.old.service shown records.old.history.items) (cargo_at
        unit.new.id unit.new.service shown' records.new.history.items) }
    ensures row { LeavesRow unit.old.service.stage unit.old.service.given.items
        records.old.history.items records.new.history.items }
{
    end_counted(unit, session, records, cause, 0, 0)
}

/// Ends the session: what is pending and kept is dropped, and the queue is freed in the next turn.
pub(crate) fn end_counted(
    unit: &mut Unit,
    session: u64,
    records: &mut Records,
    cause: Lapse,
    outstanding: u32,
    granted: u32,
) -> Next
    requires { HasLineRoom records.old }
    ensures ends { EndsLogin unit.old unit.new records.old records.new
        session cause outstanding granted }
    ensures once { (q : EndState) → AnswersOnce (desk_of unit.old) (desk_of unit.new) q q
        records.old records.new }
    ensures closing { unit.new.line.closing ≡ true }
    ensures end { result ≡ Next.End }
    ensures last { unit.new.logins.last ≡ unit.old.logins.last }
    ensures stage { unit.new.service.stage ≡ Stage.Start }
    ensures handshake { unit.new.line.handshake ≡ unit.old.line.handshake }
    ensures moved { unit.new.moved ≡ true }
    ensures id { unit.new.id ≡ unit.old.id }
    ensures books { EndsBooks unit.old unit.new records.old records.new
        session true cause outstanding granted }
    ensures cuts { (q : EndState) → session ≡ q.last_session → is_logout cause ≡ false →
        HasAnswers (owing_of unit.old q records.old) → AreCutOff unit.old.id
        (row_states records.new.history.items) records.new.grants.items }
    ensures cargo { (shown shown' : Sight) → shown'.pages.count ≡ shown.pages.count → KeepsCargo
        (cargo_at unit.old.id unit.old.service shown records.old.history.items) (cargo_at
        unit.new.id unit.new.service shown' records.new.history.items) }
    ensures row { LeavesRow unit.old.service.stage unit.old.service.given.items
        records.old.history.items records.new.history.items }
{
    end_login(unit, session, records, cause, outstanding, granted);
    unit.line.closing = true;
    unit.moved = true;
    Next::End
}

/// An event says that the partner is gone: what is pending is dropped.
pub(crate) fn lose_partner(unit: &mut Unit, session: u64, records: &mut Records)
    requires { HasLineRoom records.old }
    ensures ends { EndsLogin unit.old unit.new records.old records.new session Lapse.Lost 0 0 }
    ensures once { (q : EndState) → AnswersOnce (desk_of unit.old) (desk_of unit.new) q q
        records.old records.new }
    ensures handshake { unit.new.line.handshake ≡ unit.old.line.handshake }
    ensures moved { unit.new.moved ≡ unit.old.moved }
    ensures stands { unit.old.waiting ≡ None → standing_of unit.new ≡ standing_of unit.old }
    ensures books { EndsBooks unit.old unit.new records.old records.new
        session false Lapse.Lost 0 0 }
    ensures waiting { unit.new.waiting ≡ None }
    ensures id { unit.new.id ≡ unit.old.id }
    ensures stage { unit.new.service.stage ≡ Stage.Start }
    ensures cuts { (q : EndState) → session ≡ q.last_session →
        HasAnswers (owing_of unit.old q records.old) → AreCutOff unit.old.id
        (row_states records.new.history.items) records.new.grants.items }
    ensures cargo { (shown shown' : Sight) → shown'.pages.count ≡ shown.pages.count → KeepsCargo
        (cargo_at unit.old.id unit.old.service shown records.old.history.items) (cargo_at
        unit.new.id unit.new.service shown' records.new.history.items) }
    ensures closing { unit.new.line.closing ≡ unit.old.line.closing }
    ensures row { LeavesRow unit.old.service.stage unit.old.service.given.items
        records.old.history.items records.new.history.items }
{
    end_login(unit, session, records, Lapse::Lost, 0, 0);
}

// Ends the login that is on, if there is one, and drops what is pending and kept.
fn end_login(
    unit: &mut Unit,
    session: u64,
    records: &mut Records,
    cause: Lapse,
    outstanding: u32,
    granted: u32,
)
    requires { HasLineRoom records.old }
    ensures ends { EndsLogin unit.old unit.new records.old records.new
        session cause outstanding granted }
    ensures once { (q : EndState) → AnswersOnce (desk_of unit.old) (desk_of unit.new) q q
        records.old records.new }
    ensures last { unit.new.logins.last ≡ unit.old.logins.last }
    ensures stage { unit.new.service.stage ≡ Stage.Start }
    ensures handshake { unit.new.line.handshake ≡ unit.old.line.handshake }
    ensures moved { unit.new.moved ≡ unit.old.moved }
    ensures id { unit.new.id ≡ unit.old.id }
    ensures closing { unit.new.line.closing ≡ unit.old.line.closing }
    ensures books { (ended : Bool) → EndsBooks unit.old unit.new records.old records.new
        session ended cause outstanding granted }
    ensures cuts { (q : EndState) → session ≡ q.last_session → is_logout cause ≡ false →
        HasAnswers (owing_of unit.old q records.old) → AreCutOff unit.old.id
        (row_states records.new.history.items) records.new.grants.items }
    ensures cargo { (shown shown' : Sight) → shown'.pages.count ≡ shown.pages.count → KeepsCargo
        (cargo_at unit.old.id unit.old.service shown records.old.history.items) (cargo_at
        unit.new.id unit.new.service shown' records.new.history.items) }
    ensures row { LeavesRow unit.old.service.stage unit.old.service.given.items
        records.old.history.items records.new.history.items }
{
    bytes_spell_one();
    leave_row(unit, records);
    unit.pending.clear();
    unit.waiting = None;
    unit.line.kept = None;
    let login = unit.logins.end();
    records.grants.push_reserved(Grant::Lapsed {
        unit: unit.id,
        session,
        login,
        cause,
        outstanding,
        granted,
    });
}

// Leaves the row in service, if there is one, with the data-in that were copied so far and without an answer.
fn leave_row(unit: &mut Unit, records: &mut Records)
    ensures row { LeavesRow unit.old.service.stage unit.old.service.given.items
        records.old.history.items records.new.history.items }
    ensures grants { records.new.grants ≡ records.old.grants }
    ensures logins { unit.new.logins ≡ unit.old.logins }
    ensures id { unit.new.id ≡ unit.old.id }
    ensures stage { unit.new.service.stage ≡ Stage.Start }
    ensures line { unit.new.line ≡ unit.old.line }
    ensures moved { unit.new.moved ≡ unit.old.moved }
    ensures waiting { unit.new.waiting ≡ unit.old.waiting }
    ensures keys { keys_of records.new.history.items ≡ keys_of records.old.history.items }
    ensures states { row_states records.new.history.items ≡ row_states records.old.history.items }
    ensures cargo { (shown shown' : Sight) → shown'.pages.count ≡ shown.pages.count → KeepsCargo
        (cargo_at unit.old.id unit.old.service shown records.old.history.items) (cargo_at
        unit.new.id unit.new.service shown' records.new.history.items) }
{
    cut_data(&mut unit.service, records);
    unit.service.reset();
}

// Leaves the row in service, if there is one, those of its data-in that were copied.
fn cut_data(service: &mut Service, records: &mut Records)
    ensures row { LeavesRow service.old.stage service.old.given.items
        records.old.history.items records.new.history.items }
    ensures grants { records.new.grants ≡ records.old.grants }
    ensures keys { keys_of records.new.history.items ≡ keys_of records.old.history.items }
    ensures states { row_states records.new.history.items ≡ row_states records.old.history.items }
    ensures cargo { (id : UnitId) → (shown shown' : Sight) → (after : Service) →
        shown'.pages.count ≡ shown.pages.count → after.stage ≡ Stage.Start → KeepsCargo
        (cargo_at id service.old shown records.old.history.items)
        (cargo_at id after shown' records.new.history.items) }
{
    match service.stage {
        Stage::Given { row, .. } => records.fill(row, service.take_given(0)),
        Stage::DataIn { row, cursor, .. } => {
            records.fill(row, service.take_given(cursor.done()));
        }
        _ => {}
    }
}

/// Serves an I_LOGOUT: the login ends.
pub(crate) fn log_out(unit: &mut Unit, session: u64, records: &mut Records)
    requires room { HasLineRoom records.old }
    requires none { unit.old.line.kept ≡ None }
    ensures once { (q : EndState) → AnswersOnce (desk_of unit.old) (desk_of unit.new) q q
        records.old records.new }
    ensures handshake { unit.new.line.handshake ≡ unit.old.line.handshake }
    ensures moved { unit.new.moved ≡ true }
    ensures pending { unit.new.pending.items ≡ drop 1 unit.old.pending.items }
    ensures stands { standing_of unit.new ≡ standing_of unit.old }
    ensures lines { LinesMore unit.old.id unit.old.logins.granted
        records.old.grants.items records.new.grants.items }
    ensures books { (next : Ahead) → (front : Request) → (rest : List Request) →
        unit.old.pending.items ≡ front ∷ rest → is_login front.order ≡ false →
        gets_row front.order ≡ false → Keeps (books_of unit.old session next records.old)
        (books_of unit.new session next records.new) }
    ensures answers { (q : EndState) → (front : Request) → (rest : List Request) →
        unit.old.pending.items ≡ front ∷ rest → gets_row front.order ≡ false → HasAnswers (owing_of
        unit.old q records.old) → HasAnswers (owing_of unit.new q records.new) }
    ensures cargo { (shown shown' : Sight) → shown'.pages.count ≡ shown.pages.count → is_loaded
        unit.old.service.stage ≡ false → KeepsCargo (cargo_at unit.old.id unit.old.service shown
        records.old.history.items) (cargo_at unit.new.id unit.new.service shown'
        records.new.history.items) }
    ensures refuses { (queue : ℕ) → (taken : List PipeRow) → (answers : List Entry) →
        (front : Request) → (rest : List Request) → session ≡ queue →
        unit.old.pending.items ≡ front ∷ rest → is_login front.order ≡ false → Explains
        (ledger_at unit.old queue taken answers records.old)
        (ledger_at unit.new queue taken answers records.new) }
    ensures line { unit.new.line ≡ unit.old.line }
    ensures stage { unit.new.service.stage ≡ Stage.Start }
    ensures out { (q : EndState) → session ≡ q.last_session → LogsOut unit.old unit.new q q
        records.old.grants.items records.new.grants.items }
    ensures history { records.new.history.items ≡ records.old.history.items }
{
    let login = unit.logins.end();
    records.grants.push_reserved(Grant::Lapsed {
        unit: unit.id,
        session,
        login,
        cause: Lapse::Logout,
        outstanding: 0,
        granted: 0,
    });
    finish(unit);
}

/// Copies the answer over the request, and puts its entry. Where the client's window refuses the copy, the session
/// ends.
pub(crate) fn answer<S: Site>(
    unit: &mut Unit,
    site: &mut S,
    records: &mut Records,
) -> Result<(), NoMemory>
    requires none { unit.old.line.kept ≡ None }
    ensures comes { OnOk result (ComesOn ToEntry unit.old unit.new
        (S.state site.old).queue (S.state site.new).queue) }
    ensures once { AnswersOnceBy (S.state site.old) (S.state site.new)
        (desk_of unit.old) (desk_of unit.new) records.old records.new }
    ensures quiet { OnOk result (IfQuiet unit.old unit.new
        (S.state site.old).queue (S.state site.new).queue) }
    ensures waits { OnOk result (unit.new.moved ≡ false → IsPending unit.old →
        is_answered unit.old.service.stage ≡ true →
        IsHeldUp S.link_shared (S.state site.old) (S.state site.new)) }
    ensures agrees { StaysAgreed unit.old unit.new
        (S.state site.old).queue (S.state site.new).queue }
    ensures advances { Advances (S.state site.old) (S.state site.new) }
    ensures intake { TakesIn (standing_of unit.old) (standing_of unit.new) (S.state site.old)
        (S.state site.new) records.old.grants.items records.new.grants.items }
    ensures books { Keeps (books_at unit.old (S.state site.old) records.old)
        (books_at unit.new (S.state site.new) records.new) }
    ensures passes { Passes (S.state site.old) (S.state site.new) }
    ensures answers { KeepsAnswersBy (books_at unit.old (S.state site.old) records.old)
        S.link_shared unit.old unit.new (S.state site.old) (S.state site.new)
        records.old records.new }
    ensures judges { Judges (standing_of unit.old) (standing_of unit.new) (S.state site.old)
        (S.state site.new) (books_at unit.old (S.state site.old) records.old) (books_at unit.new
        (S.state site.new) records.new) }
    ensures cargo { KeepsCargo (cargo_of unit.old (S.state site.old) records.old)
        (cargo_of unit.new (S.state site.new) records.new) }
    ensures refuses { (terms : Terms) → ExplainsOn S.link_shared unit.old.line.handshake
        terms (S.state site.old) (S.state site.new)
        (desk_of unit.old) records.old.history.items
        (ledger_of unit.old (S.state site.old) records.old)
        (ledger_of unit.new (S.state site.new) records.new) }
    ensures serves { (request : Request) → (rest : List Request) → (outcome : Outcome) →
        IsAnswerAt unit.old.service.stage outcome →
        unit.old.pending.items ≡ request ∷ rest → S.link_shared ≡ false →
        (S.state site.old).shared ≡ false → (S.state site.old).queue.registered ≡ true →
        MayWriteAnswer (S.state site.old).client request.address →
        HasRoomFor (S.state site.old).queue 1 → OnOk result (PutsAnswer unit.old unit.new
        (S.state site.old).queue (S.state site.new).queue
        records.old.grants.items records.new.grants.items outcome
        (srp_entry (length unit.old.service.answer.items) request.tag)) }
    ensures wrote { (request : Request) → (rest : List Request) →
        unit.old.pending.items ≡ request ∷ rest → LaysIn (IsAnswerRange request)
        (client_known (S.state site.old)) (client_known (S.state site.new)) }
    ensures bears { (request : Request) → (rest : List Request) →
        unit.old.pending.items ≡ request ∷ rest → BearsIn (IsAnswerPart
        (own_name (S.state site.old).own request.tag) request.address
        unit.old.service.answer.items)
        (client_known (S.state site.old)) (client_known (S.state site.new)) }
    ensures laid { (request : Request) → (rest : List Request) → (outcome : Outcome) →
        unit.old.service.stage ≡ Stage.Answer outcome →
        unit.old.pending.items ≡ request ∷ rest → (S.state site.old).shared ≡ false →
        MayWriteAnswer (S.state site.old).client request.address → OnOk result
        (Stands (S.state site.new).client (own_name (S.state site.old).own request.tag)
        request.address unit.old.service.answer.items) }
    ensures rows { KeepsLastRow (row_in unit.old.service.stage)
        records.old.history.items records.new.history.items }
    ensures kept { is_loaded unit.old.service.stage ≡ false →
        rows_of records.new.history.items ≡ rows_of records.old.history.items }
    ensures settles { (request : Request) → (rest : List Request) → (place : ℕ) →
        IsAnswerAt unit.old.service.stage (Outcome.Served place) →
        unit.old.pending.items ≡ request ∷ rest → S.link_shared ≡ false →
        (S.state site.old).shared ≡ false → (S.state site.old).queue.registered ≡ true →
        MayWriteAnswer (S.state site.old).client request.address →
        HasRoomFor (S.state site.old).queue 1 →
        (S.state site.old).queue.place.partner_registered ≡ true → (row : Served) →
        slice_get records.old.history.items place ≡ Some row →
        OnOk result (slice_get records.new.history.items place ≡
        Some (record row { answer = unit.old.service.answer.items })) }
    ensures does { (request : Request) → (rest : List Request) → (outcome : Outcome) →
        unit.old.service.stage ≡ Stage.Answer outcome → unit.old.pending.items ≡ request ∷ rest →
        S.link_shared ≡ false → (S.state site.old).shared ≡ false → unit.old.waiting ≡ None →
        is_ended unit.old.line ≡ false → OnOk result (DoesTurn (doing unit.old (S.state site.old)
        records.old) (doing unit.new (S.state site.new) records.new)) }
    ensures hears { HearsNone unit.old unit.new (S.state site.old).queue (S.state site.new).queue }
    ensures stops { (request : Request) → (rest : List Request) → (outcome : Outcome) →
        IsAnswerAt unit.old.service.stage outcome → unit.old.pending.items ≡ request ∷ rest →
        (S.state site.old).shared ≡ false → OnOk result (ServesOrStops unit.old unit.new) }
{
    records.make_room()?;
    unit.logins.make_room()?;
    site.reserve(1)?;
    copy_answer(unit, site, records)?;
    if let Stage::Entry(outcome) = unit.service.stage {
        put_answer(unit, site, records, outcome);
    }
    Ok(())
}

// Copies the answer over the request, if that is to be done.
fn copy_answer<S: Site>(
    unit: &mut Unit,
    site: &mut S,
    records: &mut Records,
) -> Result<(), NoMemory>
    requires line { HasLineRoom records.old }
    requires none { unit.old.line.kept ≡ None }
    ensures none { unit.new.line.kept ≡ None }
    ensures comes { OnOk result (ComesOn ToEntry unit.old unit.new
        (S.state site.old).queue (S.state site.new).queue) }
    ensures once { AnswersOnceBy (S.state site.old) (S.state site.new)
        (desk_of unit.old) (desk_of unit.new) records.old records.new }
    ensures queue { (S.state site.new).queue ≡ (S.state site.old).queue }
    ensures quiet { IfQuiet unit.old unit.new (S.state site.old).queue (S.state site.new).queue }
    ensures waits { OnOk result (unit.new.moved ≡ false → IsPending unit.old →
        is_answered unit.old.service.stage ≡ true → MeetsUse (S.state site.old) (S.state site.new) ⊎
        IsEntryDue unit.new) }
    ensures handshake { unit.new.line.handshake ≡ unit.old.line.handshake }
    ensures advances { Advances (S.state site.old) (S.state site.new) }
    ensures last { unit.new.logins.last ≡ unit.old.logins.last }
    ensures line { (outcome : Outcome) → unit.new.service.stage ≡ Stage.Entry outcome →
        HasLineRoom records.new }
    ensures intake { TakesIn (standing_of unit.old) (standing_of unit.new) (S.state site.old)
        (S.state site.new) records.old.grants.items records.new.grants.items }
    ensures books { Keeps (books_at unit.old (S.state site.old) records.old)
        (books_at unit.new (S.state site.new) records.new) }
    ensures passes { Passes (S.state site.old) (S.state site.new) }
    ensures answers { KeepsAnswers S.link_shared unit.old unit.new
        (S.state site.old) (S.state site.new) records.old records.new }
    ensures judges { Judges
        (standing_of unit.old) (standing_of unit.new) (S.state site.old) (S.state site.new)
        (books_at unit.old (S.state site.old) records.old)
        (books_at unit.new (S.state site.new) records.new) }
    ensures cargo { KeepsCargo (cargo_of unit.old (S.state site.old) records.old)
        (cargo_of unit.new (S.state site.new) records.new) }
    ensures refuses { ExplainsBy (S.state site.old) (S.state site.new) (ledger_of unit.old (S.state
        site.old) records.old) (ledger_of unit.new (S.state site.new) records.new) }
    ensures serves { (request : Request) → (rest : List Request) → (outcome : Outcome) →
        IsAnswerAt unit.old.service.stage outcome →
        unit.old.pending.items ≡ request ∷ rest → (S.state site.old).shared ≡ false →
        MayWriteAnswer (S.state site.old).client request.address → OnOk result
        (CopiesAnswer unit.old unit.new records.old.grants.items records.new.grants.items
        outcome) }
    ensures wrote { (request : Request) → (rest : List Request) →
        unit.old.pending.items ≡ request ∷ rest → LaysIn (IsAnswerRange request)
        (client_known (S.state site.old)) (client_known (S.state site.new)) }
    ensures bears { (request : Request) → (rest : List Request) →
        unit.old.pending.items ≡ request ∷ rest → BearsIn (IsAnswerPart
        (own_name (S.state site.old).own request.tag) request.address
        unit.old.service.answer.items)
        (client_known (S.state site.old)) (client_known (S.state site.new)) }
    ensures laid { (request : Request) → (rest : List Request) → (outcome : Outcome) →
        unit.old.service.stage ≡ Stage.Answer outcome →
        unit.old.pending.items ≡ request ∷ rest → (S.state site.old).shared ≡ false →
        MayWriteAnswer (S.state site.old).client request.address → OnOk result
        (Stands (S.state site.new).client (own_name (S.state site.old).own request.tag)
        request.address unit.old.service.answer.items) }
    ensures history { records.new.history.items ≡ records.old.history.items }
    ensures row { (outcome : Outcome) → unit.new.service.stage ≡ Stage.Entry outcome →
        row_in unit.new.service.stage ≡ row_in unit.old.service.stage }
    ensures waiting { unit.old.waiting ≡ None → unit.new.waiting ≡ None }
    ensures stands { (outcome : Outcome) → unit.new.service.stage ≡ Stage.Entry outcome →
        standing_of unit.new ≡ standing_of unit.old }
    ensures does { (request : Request) → (rest : List Request) → (outcome : Outcome) →
        unit.old.service.stage ≡ Stage.Answer outcome → unit.old.pending.items ≡ request ∷ rest →
        (S.state site.old).shared ≡ false → OnOk result (WritesAnswer (doing unit.old (S.state
        site.old) records.old) (doing unit.new (S.state site.new) records.new) ⊎ DropsAll (doing
        unit.old (S.state site.old) records.old) (doing unit.new (S.state site.new) records.new)) }
    ensures goes { unit.new.line.closing ≡ true ⊎ StaysBusy 0 unit.old unit.new }
    ensures copies { (request : Request) → (rest : List Request) → (outcome : Outcome) →
        IsAnswerAt unit.old.service.stage outcome → unit.old.pending.items ≡ request ∷ rest →
        (S.state site.old).shared ≡ false →
        OnOk result (CopiesOrEnds unit.old unit.new outcome) }
{
    let Stage::Answer(outcome) = unit.service.stage else {
        return Ok(());
    };
    match deliver(unit, site, outcome)? {
        Progress::Done => {}
        Progress::Refused => {
            end_session(unit, site.session(), records, Lapse::Refused);
        }
        Progress::Busy => {}
    }
    Ok(())
}

// Copies the answer over the request.
fn deliver<S: Site>(unit: &mut Unit, site: &mut S, outcome: Outcome) -> Result<Progress, NoMemory>
    requires stage { unit.old.service.stage ≡ Stage.Answer outcome }
    requires none { unit.old.line.kept ≡ None }
    ensures none { unit.new.line.kept ≡ None }
    ensures comes { OnOk result (ComesOn ToEntry unit.old unit.new
        (S.state site.old).queue (S.state site.new).queue) }
    ensures once { (records : Records) → AnswersOnceBy (S.state site.old) (S.state site.new)
        (desk_of unit.old) (desk_of unit.new) records records }
    ensures queue { (S.state site.new).queue ≡ (S.state site.old).queue }
    ensures quiet { IfQuiet unit.old unit.new (S.state site.old).queue (S.state site.new).queue }
    ensures busy { IfOk result (λ progress. progress ≡ Progress.Busy → IsPending unit.old →
        MeetsUse (S.state site.old) (S.state site.new)) }
    ensures done { IfOk result (λ progress. progress ≡ Progress.Done → unit.new.moved ≡ true) }
    ensures stays { IfOk result (λ progress. progress ≡ Progress.Refused →
        unit.new.service.stage ≡ Stage.Answer outcome) }
    ensures line { unit.new.line ≡ unit.old.line }
    ensures advances { Advances (S.state site.old) (S.state site.new) }
    ensures logins { unit.new.logins ≡ unit.old.logins }
    ensures stands { standing_of unit.new ≡ standing_of unit.old }
    ensures passes { Passes (S.state site.old) (S.state site.new) }
    ensures books { (records : Records) → Keeps (books_at unit.old (S.state site.old) records)
        (books_at unit.new (S.state site.new) records) }
    ensures answers { (records : Records) → KeepsAnswers S.link_shared unit.old unit.new
        (S.state site.old) (S.state site.new) records records }
    ensures cargo { (records : Records) → cargo_of unit.new (S.state site.new) records ≡
        cargo_of unit.old (S.state site.old) records }
    ensures refused { IfOk result (λ progress. progress ≡ Progress.Refused →
        DeniesAnswer (S.state site.old) (S.state site.new) unit.old.pending.items) }
    ensures pending { unit.new.pending.items ≡ unit.old.pending.items }
    ensures entry { IfOk result (λ progress. progress ≡ Progress.Done →
        unit.new.service.stage ≡ Stage.Entry outcome) }
    ensures answer { unit.new.service.answer ≡ unit.old.service.answer }
    ensures id { unit.new.id ≡ unit.old.id }
    ensures wrote { (request : Request) → (rest : List Request) →
        unit.old.pending.items ≡ request ∷ rest → LaysIn (IsAnswerRange request)
        (client_known (S.state site.old)) (client_known (S.state site.new)) }
    ensures bears { (request : Request) → (rest : List Request) →
        unit.old.pending.items ≡ request ∷ rest → BearsIn (IsAnswerPart
        (own_name (S.state site.old).own request.tag) request.address
        unit.old.service.answer.items)
        (client_known (S.state site.old)) (client_known (S.state site.new)) }
    ensures laid { IfOk result (λ progress. progress ≡ Progress.Done → (request : Request) →
        (rest : List Request) → unit.old.pending.items ≡ request ∷ rest →
        Stands (S.state site.new).client (own_name (S.state site.old).own request.tag)
        request.address unit.old.service.answer.items) }
    ensures may { IfOk result (λ progress. progress ≡ Progress.Done → (S.state site.old).shared
        ≡ false → (request : Request) → (rest : List Request) → unit.old.pending.items ≡ request ∷
        rest → MayHold (S.state site.old).client Write request.address
        (length unit.old.service.answer.items)) }
    ensures row { row_in unit.new.service.stage ≡ row_in unit.old.service.stage }
    ensures missed { IfOk result (λ progress. progress ≡ Progress.Refused → (S.state
        site.old).shared ≡ false → StaysKnown (S.state site.old).client (S.state site.new).client) }
{
    let Some(request) = unit.pending.front() else {
        return Ok(Progress::Busy);
    };
    match site.deliver_unit(request.address, &unit.service.answer, request.tag) {
        Ok(()) => {
            unit.service.stage = Stage::Entry(outcome);
            unit.moved = true;
            Ok(Progress::Done)
        }
        Err(Halt::Refused) => Ok(Progress::Refused),
        Err(Halt::Busy) => Ok(Progress::Busy),
        Err(Halt::NoMemory) => Err(NoMemory),
    }
}

// Puts the entry of the answer. It is kept where the client's queue is full, and discarded where that is closed.
fn put_answer<S: Site>(unit: &mut Unit, site: &mut S, records: &mut Records, outcome: Outcome)
    requires room { HasLineRoom records.old }
    requires spare { 0 < (S.state site.old).queue.spare }
    requires logins { unit.old.logins.last + 1 < MOST_LOGINS }
    requires stage { unit.old.service.stage ≡ Stage.Entry outcome }
    requires none { unit.old.line.kept ≡ None }
    ensures comes { ComesOn NoStage unit.old unit.new
        (S.state site.old).queue (S.state site.new).queue }
    ensures once { AnswersOnce (desk_of unit.old) (desk_of unit.new)
        (S.state site.old).queue (S.state site.new).queue records.old records.new }
    ensures quiet { IfQuiet unit.old unit.new (S.state site.old).queue (S.state site.new).queue }
    ensures waits { unit.new.moved ≡ false → IsPending unit.old →
        MeetsFull S.link_shared (S.state site.old).queue (S.state site.new).queue }
    ensures agrees { StaysAgreed unit.old unit.new
        (S.state site.old).queue (S.state site.new).queue }
    ensures advances { Advances (S.state site.old) (S.state site.new) }
    ensures stands { standing_of unit.new ≡ standing_of unit.old }
    ensures passes { Passes (S.state site.old) (S.state site.new) }
    ensures lines { LinesMore unit.old.id unit.old.logins.granted
        records.old.grants.items records.new.grants.items }
    ensures books { Keeps (books_at unit.old (S.state site.old) records.old)
        (books_at unit.new (S.state site.new) records.new) }
    ensures answers { KeepsAnswersBy (books_at unit.old (S.state site.old) records.old)
        S.link_shared unit.old unit.new (S.state site.old) (S.state site.new)
        records.old records.new }
    ensures cargo { cargo_of unit.new (S.state site.new) records.new ≡
        cargo_of unit.old (S.state site.old) records.old }
    ensures refuses { (terms : Terms) → ExplainsSends S.link_shared unit.old.line.handshake
        (S.state site.old).queue (S.state site.new).queue terms
        (desk_of unit.old) records.old.history.items
        (ledger_of unit.old (S.state site.old) records.old)
        (ledger_of unit.new (S.state site.new) records.new) }
    ensures serves { (request : Request) → (rest : List Request) → S.link_shared ≡ false →
        (S.state site.old).queue.registered ≡ true → HasRoomFor (S.state site.old).queue 1 →
        unit.old.pending.items ≡ request ∷ rest → PutsAnswer unit.old unit.new
        (S.state site.old).queue (S.state site.new).queue
        records.old.grants.items records.new.grants.items outcome
        (srp_entry (length unit.old.service.answer.items) request.tag) }
    ensures client { (S.state site.new).client ≡ (S.state site.old).client }
    ensures rows { KeepsLastRow (row_in (Stage.Entry outcome))
        records.old.history.items records.new.history.items }
    ensures kept { rows_of records.new.history.items ≡ rows_of records.old.history.items }
    ensures settled { (request : Request) → (rest : List Request) → (place : ℕ) →
        unit.old.pending.items ≡ request ∷ rest → S.link_shared ≡ false →
        (S.state site.old).queue.registered ≡ true → HasRoomFor (S.state site.old).queue 1 →
        (S.state site.old).queue.place.partner_registered ≡ true →
        outcome ≡ Outcome.Served place → (row : Served) →
        slice_get records.old.history.items place ≡ Some row →
        slice_get records.new.history.items place ≡
        Some (record row { answer = unit.old.service.answer.items }) }
    ensures does { (request : Request) → (rest : List Request) → unit.old.pending.items ≡ request
        ∷ rest → S.link_shared ≡ false → DoesOne (doing unit.old (S.state site.old) records.old)
        (doing unit.new (S.state site.new) records.new) }
    ensures free { (request : Request) → (rest : List Request) → unit.old.pending.items ≡ request
        ∷ rest → S.link_shared ≡ false → unit.old.waiting ≡ None → is_ended unit.old.line ≡ false
        → IsAtRest (doing unit.new (S.state site.new) records.new) }
    ensures hears { HearsNone unit.old unit.new (S.state site.old).queue (S.state site.new).queue }
    ensures stops { (request : Request) → (rest : List Request) →
        unit.old.pending.items ≡ request ∷ rest → ServesOrStops unit.old unit.new }
{
    let Some(request) = unit.pending.front() else {
        return;
    };
    let entry = answer_entry(unit.service.answer.len() as u16, request.tag);
    match site.send(entry) {
        SendAnswer::Success { .. } => settle(unit, site.session(), records, outcome),
        SendAnswer::Dropped { .. } => unit.line.kept = Some(Kept::Answer { entry, outcome }),
        _ => finish(unit),
    }
}

// Gives the entry of an answer of so many bytes.
fn answer_entry(len: u16, tag: u64) -> Entry
    requires { is_answer_len len ≡ true }
    ensures entry { result ≡ srp_entry len tag }
    ensures may { MayPut result }
{
    Entry::srp(len, tag)
}

/// Puts the entry that was kept.
pub(crate) fn put_kept<S: Site>(
    unit: &mut Unit,
    site: &mut S,
    records: &mut Records,
) -> Result<Next, NoMemory>
    ensures rests { unit.old.line.kept ≡ None → IfOk result (λ next. (next ≡ Next.Entry) ×
        (unit.new ≡ unit.old) × (S.state site.new ≡ S.state site.old)) }
    ensures none { AsNone result unit.new.line.kept }
    ensures comes { (terms : Terms) →
        IsServing terms (desk_of unit.old) records.old.history.items →
        OnOk result (ComesOn NoStage unit.old unit.new
        (S.state site.old).queue (S.state site.new).queue) }
    ensures once { AnswersOnce (desk_of unit.old) (desk_of unit.new)
        (S.state site.old).queue (S.state site.new).queue records.old records.new }
    ensures quiet { OnOk result (IfQuiet unit.old unit.new
        (S.state site.old).queue (S.state site.new).queue) }
    ensures waits { IfOk result (λ next. unit.new.moved ≡ false → AsNext next
        (PassesKept S.link_shared unit.old unit.new (S.state site.old).queue (S.state site.new).queue)
        ⊥ (MeetsFull S.link_shared (S.state site.old).queue (S.state site.new).queue)) }
    ensures agrees { StaysAgreed unit.old unit.new
        (S.state site.old).queue (S.state site.new).queue }
    ensures advances { Advances (S.state site.old) (S.state site.new) }
    ensures stands { standing_of unit.new ≡ standing_of unit.old }
    ensures passes { Passes (S.state site.old) (S.state site.new) }
    ensures lines { LinesMore unit.old.id unit.old.logins.granted
        records.old.grants.items records.new.grants.items }
    ensures books { Keeps (books_at unit.old (S.state site.old) records.old)
        (books_at unit.new (S.state site.new) records.new) }
    ensures answers { KeepsAnswersBy (books_at unit.old (S.state site.old) records.old)
        S.link_shared unit.old unit.new (S.state site.old) (S.state site.new)
        records.old records.new }
    ensures cargo { (terms : Terms) →
        IsServing terms (desk_of unit.old) records.old.history.items →
        cargo_of unit.new (S.state site.new) records.new ≡
        cargo_of unit.old (S.state site.old) records.old }
    ensures refuses { (terms : Terms) → ExplainsSends S.link_shared unit.old.line.handshake
        (S.state site.old).queue (S.state site.new).queue terms
        (desk_of unit.old) records.old.history.items
        (ledger_of unit.old (S.state site.old) records.old)
        (ledger_of unit.new (S.state site.new) records.new) }
    ensures unkept { unit.old.line.kept ≡ None →
        OnOk result (records.new.grants.items ≡ records.old.grants.items) }
    ensures unkept_rows { unit.old.line.kept ≡ None →
        records.new.history.items ≡ records.old.history.items }
    ensures does { S.link_shared ≡ false → IsAtRest (doing unit.old (S.state site.old)
        records.old) → OnOk result (DoesTurn (doing unit.old (S.state site.old) records.old)
        (doing unit.new (S.state site.new) records.new)) }
    ensures keeps { IfOk result (λ next. next ≡ Next.End → unit.new.line.kept ≢ None) }
    ensures pending { length unit.new.pending.items ≤ length unit.old.pending.items }
    ensures full { S.link_shared ≡ false → IfOk result (λ next. next ≡ Next.End →
        HasNoRoom (S.state site.new).queue) }
{
    let Some(kept) = unit.line.kept else {
        return Ok(Next::Entry);
    };
    records.make_room()?;
    unit.logins.make_room()?;
    site.reserve(1)?;
    match site.send(kept.entry()) {
        SendAnswer::Dropped { .. } => Ok(Next::End),
        SendAnswer::Success { .. } => {
            unit.moved = true;
            unit.line.kept = None;
            if let Kept::Answer { outcome, .. } = kept {
                settle(unit, site.session(), records, outcome);
            }
            Ok(Next::Entry)
        }
        _ => {
            unit.line.kept = None;
            if let Kept::Answer { .. } = kept {
                finish(unit);
            }
            Ok(Next::Entry)
        }
    }
}

// Does what an answer does whose entry was put: a login begins, or the request's row has its answer.
fn settle(unit: &mut Unit, session: u64, records: &mut Records, outcome: Outcome)
    requires room { HasLineRoom records.old }
    requires logins { unit.old.logins.last + 1 < MOST_LOGINS }
    ensures row { SettlesRow outcome unit.old.service.answer.items records.old.history.items
        records.new.history.items }
    ensures id { unit.new.id ≡ unit.old.id }
    ensures stage { unit.new.service.stage ≡ Stage.Start }
    ensures kept { unit.new.line.kept ≡ unit.old.line.kept }
    ensures pending { unit.new.pending.items ≡ drop 1 unit.old.pending.items }
    ensures handshake { unit.new.line.handshake ≡ unit.old.line.handshake }
    ensures moved { unit.new.moved ≡ true }
    ensures stands { standing_of unit.new ≡ standing_of unit.old }
    ensures lines { LinesMore unit.old.id unit.old.logins.granted
        records.old.grants.items records.new.grants.items }
    ensures books { (next : Ahead) → unit.old.service.stage ≡ Stage.Entry outcome →
        unit.old.line.kept ≡ None → Keeps (books_of unit.old session next records.old)
        (books_of unit.new session next records.new) }
    ensures answers { (q : EndState) → unit.old.service.stage ≡ Stage.Entry outcome →
        is_ended unit.old.line ≡ false → IsUp q → HasAnswers (owing_of unit.old q records.old) →
        HasAnswers (owing_of unit.new q records.new) }
    ensures rows { rows_of records.new.history.items ≡ rows_of records.old.history.items }
    ensures refuses { (terms : Terms) → (taken : List PipeRow) → (answers : List Entry) →
        (entry : Entry) → IsAnswerKept (desk_of unit.old) entry outcome →
        ExplainsOf terms (desk_of unit.old) records.old.history.items
        (ledger_at unit.old session taken answers records.old)
        (ledger_at unit.new session taken (answers ++ login_put entry) records.new) }
    ensures line { unit.new.line ≡ unit.old.line }
    ensures logins { SettlesLogins outcome unit.old.logins unit.new.logins }
    ensures added { records.new.grants.items ≡ records.old.grants.items ++
        settled_lines outcome unit.old.id session unit.old.logins }
{
    match outcome {
        Outcome::Granted { number } => {
            let credits = unit.logins.credits();
            let login = unit.logins.begin();
            records.grants.push_reserved(Grant::Granted {
                unit: unit.id,
                session,
                login,
                number,
                credits,
            });
        }
        Outcome::Rejected => {}
        Outcome::Served { row } => {
            unit.logins.answer();
            let answer = unit.service.take_answer();
            records.answer(row, answer);
        }
    }
    finish(unit);
}

// Ends the service of the oldest request.
fn finish(unit: &mut Unit)
    ensures id { unit.new.id ≡ unit.old.id }
    ensures stage { unit.new.service.stage ≡ Stage.Start }
    ensures kept { unit.new.line.kept ≡ unit.old.line.kept }
    ensures handshake { unit.new.line.handshake ≡ unit.old.line.handshake }
    ensures moved { unit.new.moved ≡ true }
    ensures stands { standing_of unit.new ≡ standing_of unit.old }
    ensures pending { unit.new.pending.items ≡ drop 1 unit.old.pending.items }
    ensures logins { unit.new.logins ≡ unit.old.logins }
    ensures line { unit.new.line ≡ unit.old.line }
{
    let _served = unit.pending.pop_front();
    unit.service.reset();
    unit.moved = true;
}
