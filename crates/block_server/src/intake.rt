// Intake: entries are taken from the unit's queue, and the requests among them are fetched and judged.
ghost use Rattle.block_server.specs.Doings.{DoesFreely, DoesOne, IsFree, before_hearing, doing};
ghost use Rattle.block_server.specs.Talk.{IsReadWhole, StaysKnown};
ghost use Rattle.vio_num.specs.Entry.{is_srp_entry};
ghost use Rattle.block_server.specs.declared.service.Stage.{Stage};
ghost use Rattle.block_server.specs.declared.service.Stage.TheVariants.{Start};
ghost use Rattle.block_server.specs.Talk.{FitOneTurn, HasHeard, HasHeardAll, HearsFirst, IsAccepted, SaysRequest, IsListening, IsReceivedAs, MayAsk, Word, reach_of, talk_of, to_come};
ghost use Rattle.crq_session.specs.declared.handshake.Handshake.TheVariants.{Up};
ghost use Rattle.srp_iu.specs.declared.unit.Iu.{Iu};
ghost use Rattle.block_server.specs.Cargo.{KeepsCargo, Pages, cargo_of, cargo_with};
ghost use Rattle.std.specs.Prelude.{◌≡◌, ◌≢◌, ◌⊎◌, ◌↔◌, ◌+◌, ◌<◌, ◌≤◌, ℕ, List, None, Some, IfOk, IsTrue, OnOk, false, true, length, slice_index};
ghost use Rattle.std.specs.VecDeque.{deque_len, deque_capacity};
ghost use Rattle.block_server.specs.Records.{HasLineRoom};
ghost use Rattle.block_server.specs.Refusals.{Explains, ExplainsBy, ExplainsIf, ledger_at, ledger_of, waiting_in};
ghost use Rattle.block_server.specs.Granting.{IsSrpAt};
ghost use Rattle.crq_ring.specs.declared.rows.PipeRow.{PipeRow};
ghost use Rattle.block_server.specs.Advances.{Advances};
ghost use Rattle.block_server.specs.Ready.{Idles};
ghost use Rattle.block_server.specs.Resting.{IsEmptied};
ghost use Rattle.block_server.specs.Steps.{ComesOn, NoStage};
ghost use Rattle.block_server.specs.Turns.{IfQuiet, StaysMoved, under_way};
ghost use Rattle.block_server.specs.Waits.{AsNext, EndsIntake, FindsNothing, MeetsUse, StaysAgreed};
ghost use Rattle.block_server.specs.Serving.{AnswersOnceBy, AnswersOnceIf, AsNone, desk_of};
ghost use Rattle.block_server.specs.LoginAnswers.{login_answers};
ghost use Rattle.block_server.specs.RowsOn.{KeepsIdleRows};
ghost use Rattle.block_server.specs.Receipts.{LinesMore, MayTake, Receipt, TakesEntry, TakesIn, is_ended, standing_of};
ghost use Rattle.block_server.specs.SiteState.{SiteState};
ghost use Rattle.block_server.specs.Books.{books_at, books_of};
ghost use Rattle.block_server.specs.Decided.{Decides, IsCause, IsToJudge, JudgesOne, StaysOn};
ghost use Rattle.block_server.specs.HeardOut.{BringsFew, BringsOne, FitsSlots, HearsNext, HearsOut};
ghost use Rattle.block_server.specs.Judges.{Judges};
ghost use Rattle.block_server.specs.Owed.{HasAnswers, KeepsAnswers, owing_of};
ghost use Rattle.block_server.specs.Judged.{Ahead, Asks, Keeps, gets_row};
ghost use Rattle.block_server.specs.Verdicts.{IsTagged};
ghost use Rattle.crq_session.specs.EndState.{EndState};
ghost use Rattle.srp_iu.specs.Grammar.{Spells};
ghost use Rattle.vio_num.specs.Entry.{first_byte, iu_address, iu_length};
ghost use Rattle.block_server.specs.Causes.{units_at};
ghost use Rattle.block_server.specs.Causes.News.{fetched};
ghost use Rattle.srp_iu.specs.Layout.{field};
ghost use Rattle.block_server.specs.Orders.{IsOrder};

use crate::answering::{end_counted, end_session, lose_partner};
use crate::answers::datagram_answer;
use crate::line::reply_of;
use crate::logins::Logins;
use crate::records::Records;
use crate::replies::put_reply;
use crate::request::{Arrival, Order, Request};
use crate::site::{Halt, Site};
use crate::unit::Unit;
use arrayvec::ArrayVec;
use crq_session::PollAnswer;
use srp_credits::CreditFault;
use srp_iu::{Iu, bytes_spell_one, read_iu, spelled_bytes_are_read, tag_of};
use vio_num::{Entry, Kind, Lapse, NoMemory};

/// As many requests as a unit has pending.
const MOST_PENDING: usize = 256;
/// The bytes of the longest information unit.
const MOST_BYTES: usize = 256;

/// The types of the units that are answered under a login also where they cannot be read.
const TSK_MGMT: u8 = 0x01;

const CMD: u8 = 0x02;

/// The formats of entries of commands: SRP, and management datagrams.
const SRP: u8 = 0x01;

const DATAGRAM: u8 = 0x02;

/// What comes after an entry.
#[derive(Clone, Copy, Debug, PartialEq, Eq)]
pub(crate) enum Next {
    /// The next entry.
    Entry,
    /// The service of the oldest request.
    Service,
    /// The end of the turn.
    End,
}

/// What becomes of an information unit that was fetched.
enum Verdict {
    /// It is a request, accepted under this login; 0 for a login request.
    Accepted {
        login: u64,
        tag: u64,
        order: Order,
    },
    /// It is no request.
    Ignored,
    /// It ends the session: for this cause, with so many requests outstanding of those granted.
    Fatal {
        cause: Lapse,
        outstanding: u32,
        granted: u32,
    },
}

/// Takes entries until there is none, as many as there are slots were taken, 256 requests are pending, or an
/// information unit's page is in use.
pub(crate) fn take_in<S: Site>(
    unit: &mut Unit,
    site: &mut S,
    records: &mut Records,
) -> Result<Next, NoMemory>
    requires none { unit.old.line.kept ≡ None }
    ensures rests { S.link_shared ≡ false → unit.old.waiting ≡ None →
        IsEmptied (S.state site.old).queue → OnOk result
        ((unit.new.moved ≡ unit.old.moved) ×
        (unit.new.pending.items ≡ unit.old.pending.items)) }
    ensures comes { OnOk result (ComesOn NoStage unit.old unit.new
        (S.state site.old).queue (S.state site.new).queue) }
    ensures none { AsNone result unit.new.line.kept }
    ensures once { AnswersOnceBy (S.state site.old) (S.state site.new)
        (desk_of unit.old) (desk_of unit.new) records.old records.new }
    ensures quiet { OnOk result (IfQuiet unit.old unit.new
        (S.state site.old).queue (S.state site.new).queue) }
    ensures waits { IfOk result (λ next. unit.new.moved ≡ false → AsNext next ⊥
        (EndsIntake S.link_shared unit.old unit.new (S.state site.old) (S.state site.new)) ⊥) }
    ensures agrees { StaysAgreed unit.old unit.new
        (S.state site.old).queue (S.state site.new).queue }
    ensures advances { Advances (S.state site.old) (S.state site.new) }
    ensures intake { is_ended unit.old.line ≡ false → TakesIn
        (standing_of unit.old) (standing_of unit.new)
        (S.state site.old) (S.state site.new)
        records.old.grants.items records.new.grants.items }
    ensures judges { is_ended unit.old.line ≡ false → Judges
        (standing_of unit.old) (standing_of unit.new) (S.state site.old) (S.state site.new)
        (books_at unit.old (S.state site.old) records.old)
        (books_at unit.new (S.state site.new) records.new) }
    ensures answers { KeepsAnswers S.link_shared unit.old unit.new
        (S.state site.old) (S.state site.new) records.old records.new }
    ensures cargo { KeepsCargo (cargo_of unit.old (S.state site.old) records.old)
        (cargo_of unit.new (S.state site.new) records.new) }
    ensures refuses { is_ended unit.old.line ≡ false →
        ExplainsBy (S.state site.old) (S.state site.new)
        (ledger_of unit.old (S.state site.old) records.old)
        (ledger_of unit.new (S.state site.new) records.new) }
    ensures hears { (words : List Word) →
        IsListening unit.old (reach_of (S.state site.old)) S.link_shared words →
        FitOneTurn unit.old (reach_of (S.state site.old)) words → IfOk result (λ next.
        (next ≡ Next.Service) × HasHeard unit.old unit.new
        (reach_of (S.state site.old)) (reach_of (S.state site.new))
        records.old.grants.items records.new.grants.items words ×
        HasHeardAll unit.new (S.state site.new).queue) }
    ensures rows { KeepsIdleRows unit.old.service.stage unit.new.service.stage
        records.old.history.items records.new.history.items }
    ensures does { S.link_shared ≡ false → (S.state site.old).shared ≡ false → is_ended
        unit.old.line ≡ false → IsFree (doing
        unit.old (S.state site.old) records.old) → OnOk result (DoesFreely (doing unit.old
        (S.state site.old) records.old) (doing unit.new (S.state site.new) records.new)) }
    ensures goes { S.link_shared ≡ false → (S.state site.old).shared ≡ false →
        is_ended unit.old.line ≡ false →
        IfOk result (λ next. next ≢ Next.End → is_ended unit.new.line ≡ false) }
    ensures heard { S.link_shared ≡ false → FitsSlots (S.state site.old).queue → OnOk result
        (HearsOut 256 (S.state site.old).shared unit.new (S.state site.new).queue) }
    ensures brings { S.link_shared ≡ false → unit.old.waiting ≡ None → IfOk result (BringsFew
        unit.old unit.new (S.state site.old).queue (S.state site.new).queue) }
{
    let next = receive_waiting(unit, site, records)?;
    if next != Next::Entry {
        return Ok(next);
    }
    let slots = site.slots();
    let mut taken = 0;
    while taken < slots && unit.pending.len() < MOST_PENDING {
        taken += 1;
        make_room(unit, records)?;
        let next = take_one(unit, site, records)?;
        if next != Next::Entry {
            return Ok(next);
        }
    }
    Ok(Next::Service)
}

// Fetches the information unit of the entry that waits, if one does.
fn receive_waiting<S: Site>(
    unit: &mut Unit,
    site: &mut S,
    records: &mut Records,
) -> Result<Next, NoMemory>
    requires none { unit.old.line.kept ≡ None }
    ensures rests { unit.old.waiting ≡ None → IfOk result (λ next. (next ≡ Next.Entry) ×
        (unit.new ≡ unit.old) × (S.state site.new ≡ S.state site.old)) }
    ensures comes { OnOk result (ComesOn NoStage unit.old unit.new
        (S.state site.old).queue (S.state site.new).queue) }
    ensures none { AsNone result unit.new.line.kept }
    ensures once { AnswersOnceBy (S.state site.old) (S.state site.new)
        (desk_of unit.old) (desk_of unit.new) records.old records.new }
    ensures quiet { OnOk result (IfQuiet unit.old unit.new
        (S.state site.old).queue (S.state site.new).queue) }
    ensures waits { IfOk result (λ next. unit.new.moved ≡ false → AsNext next
        (unit.new.waiting ≡ None) (MeetsUse (S.state site.old) (S.state site.new)) ⊥) }
    ensures line { OnOk result (unit.new.moved ≡ false → unit.new.line ≡ unit.old.line) }
    ensures handshake { unit.new.line.handshake ≡ unit.old.line.handshake }
    ensures queue { (S.state site.new).queue ≡ (S.state site.old).queue }
    ensures advances { Advances (S.state site.old) (S.state site.new) }
    ensures intake { TakesIn (standing_of unit.old) (standing_of unit.new)
        (S.state site.old) (S.state site.new)
        records.old.grants.items records.new.grants.items }
    ensures goes_on { is_ended unit.old.line ≡ false → IfOk result (λ next.
        next ≡ Next.Entry → MayTake (standing_of unit.new)) }
    ensures judges { Judges
        (standing_of unit.old) (standing_of unit.new) (S.state site.old) (S.state site.new)
        (books_at unit.old (S.state site.old) records.old)
        (books_at unit.new (S.state site.new) records.new) }
    ensures answers { KeepsAnswers S.link_shared unit.old unit.new
        (S.state site.old) (S.state site.new) records.old records.new }
    ensures cargo { KeepsCargo (cargo_of unit.old (S.state site.old) records.old)
        (cargo_of unit.new (S.state site.new) records.new) }
    ensures refuses { ExplainsBy (S.state site.old) (S.state site.new)
        (ledger_of unit.old (S.state site.old) records.old)
        (ledger_of unit.new (S.state site.new) records.new) }
    ensures lines { unit.old.waiting ≡ None →
        OnOk result (records.new.grants.items ≡ records.old.grants.items) }
    ensures rows { KeepsIdleRows unit.old.service.stage unit.new.service.stage
        records.old.history.items records.new.history.items }
    ensures does { S.link_shared ≡ false → (S.state site.old).shared ≡ false → is_ended
        unit.old.line ≡ false → IsFree (doing
        unit.old (S.state site.old) records.old) → OnOk result (DoesFreely (doing unit.old
        (S.state site.old) records.old) (doing unit.new (S.state site.new) records.new)) }
    ensures goes { (S.state site.old).shared ≡ false → is_ended unit.old.line ≡ false →
        IfOk result (λ next. next ≢ Next.End → is_ended unit.new.line ≡ false) }
    ensures stops { IfOk result (λ next. next ≢ Next.Entry →
        HearsOut 256 (S.state site.old).shared unit.new (S.state site.new).queue) }
{
    let Some(arrival) = unit.waiting else {
        return Ok(Next::Entry);
    };
    make_room(unit, records)?;
    receive(unit, site, records, arrival)
}

// Makes room for what one entry may come to.
fn make_room(unit: &mut Unit, records: &mut Records) -> Result<(), NoMemory>
    ensures lines { OnOk result (HasLineRoom records.new) }
    ensures pending { OnOk result (deque_len unit.new.pending < deque_capacity unit.new.pending) }
    ensures line { unit.new.line ≡ unit.old.line }
    ensures way { under_way unit.new ≡ under_way unit.old }
    ensures desk { desk_of unit.new ≡ desk_of unit.old }
    ensures kept { unit.new.line.kept ≡ unit.old.line.kept }
    ensures history { records.new.history.items ≡ records.old.history.items }
    ensures moved { unit.new.moved ≡ unit.old.moved }
    ensures stands { standing_of unit.new ≡ standing_of unit.old }
    ensures grants { records.new.grants.items ≡ records.old.grants.items }
    ensures books { (site : SiteState) → Keeps (books_at unit.old site records.old)
        (books_at unit.new site records.new) }
    ensures owing { (q : EndState) →
        owing_of unit.new q records.new ≡ owing_of unit.old q records.old }
    ensures cargo { (pages : Pages) →
        cargo_with unit.new pages records.new ≡ cargo_with unit.old pages records.old }
    ensures refuses { (queue : ℕ) → (taken : List PipeRow) → (answers : List Entry) → Explains
        (ledger_at unit.old queue taken answers records.old)
        (ledger_at unit.new queue taken answers records.new) }
    ensures talk { talk_of unit.new ≡ talk_of unit.old }
    ensures doing { (site : SiteState) →
        doing unit.new site records.new ≡ doing unit.old site records.old }
{
    unit.pending.reserve(1)?;
    records.make_room()
}

// Takes the next entry, if there is one.
fn take_one<S: Site>(unit: &mut Unit, site: &mut S, records: &mut Records) -> Result<Next, NoMemory>
    requires lines { HasLineRoom records.old }
    requires pending { deque_len unit.old.pending < deque_capacity unit.old.pending }
    requires none { unit.old.line.kept ≡ None }
    ensures rests { S.link_shared ≡ false → IsEmptied (S.state site.old).queue →
        IfOk result (λ next. (next ≡ Next.Service) × (unit.new ≡ unit.old)) }
    ensures comes { OnOk result (ComesOn NoStage unit.old unit.new
        (S.state site.old).queue (S.state site.new).queue) }
    ensures none { AsNone result unit.new.line.kept }
    ensures once { AnswersOnceBy (S.state site.old) (S.state site.new)
        (desk_of unit.old) (desk_of unit.new) records.old records.new }
    ensures quiet { OnOk result (IfQuiet unit.old unit.new
        (S.state site.old).queue (S.state site.new).queue) }
    ensures waits { IfOk result (λ next. unit.new.moved ≡ false → AsNext next ⊥
        (FindsNothing S.link_shared (S.state site.old).queue (S.state site.new).queue) ⊥) }
    ensures idles { OnOk result (unit.new.moved ≡ false →
        Idles S.link_shared (S.state site.old).queue (S.state site.new).queue) }
    ensures line { OnOk result (unit.new.moved ≡ false → unit.new.line ≡ unit.old.line) }
    ensures agrees { StaysAgreed unit.old unit.new
        (S.state site.old).queue (S.state site.new).queue }
    ensures advances { Advances (S.state site.old) (S.state site.new) }
    ensures intake { MayTake (standing_of unit.old) → TakesIn
        (standing_of unit.old) (standing_of unit.new)
        (S.state site.old) (S.state site.new)
        records.old.grants.items records.new.grants.items }
    ensures goes_on { MayTake (standing_of unit.old) → IfOk result (λ next.
        next ≡ Next.Entry → MayTake (standing_of unit.new)) }
    ensures judges { MayTake (standing_of unit.old) → Judges
        (standing_of unit.old) (standing_of unit.new) (S.state site.old) (S.state site.new)
        (books_at unit.old (S.state site.old) records.old)
        (books_at unit.new (S.state site.new) records.new) }
    ensures answers { KeepsAnswers S.link_shared unit.old unit.new
        (S.state site.old) (S.state site.new) records.old records.new }
    ensures cargo { KeepsCargo (cargo_of unit.old (S.state site.old) records.old)
        (cargo_of unit.new (S.state site.new) records.new) }
    ensures refuses { MayTake (standing_of unit.old) →
        ExplainsBy (S.state site.old) (S.state site.new)
        (ledger_of unit.old (S.state site.old) records.old)
        (ledger_of unit.new (S.state site.new) records.new) }
    ensures hears { (words : List Word) →
        IsListening unit.old (reach_of (S.state site.old)) S.link_shared words →
        IfOk result (HearsFirst S.link_shared unit.old unit.new
        (reach_of (S.state site.old)) (reach_of (S.state site.new))
        records.old.grants.items records.new.grants.items words) }
    ensures rows { KeepsIdleRows unit.old.service.stage unit.new.service.stage
        records.old.history.items records.new.history.items }
    ensures does { S.link_shared ≡ false → (S.state site.old).shared ≡ false → is_ended
        unit.old.line ≡ false → IsFree (doing
        unit.old (S.state site.old) records.old) → OnOk result (DoesFreely (doing unit.old
        (S.state site.old) records.old) (doing unit.new (S.state site.new) records.new)) }
    ensures goes { (S.state site.old).shared ≡ false → is_ended unit.old.line ≡ false →
        IfOk result (λ next. next ≢ Next.End → is_ended unit.new.line ≡ false) }
    ensures stops { S.link_shared ≡ false → IfOk result (HearsNext (S.state site.old).shared
        unit.new (S.state site.old).queue (S.state site.new).queue) }
    ensures brings { S.link_shared ≡ false → IfOk result (BringsFew
        unit.old unit.new (S.state site.old).queue (S.state site.new).queue) }
{
    site.reserve(2)?;
    let PollAnswer::Got { number, entry } = site.poll() else {
        return Ok(Next::Service);
    };
    unit.moved = true;
    match entry.kind() {
        Kind::Command => take_command(unit, site, records, Arrival { number, entry }),
        Kind::Init => {
            let step = unit.line.handshake.got(entry);
            Ok(match reply_of(step) {
                Some(reply) => put_reply(unit, site, reply),
                None => Next::Entry,
            })
        }
        Kind::Event => {
            let _step = unit.line.handshake.got(entry);
            lose_partner(unit, site.session(), records);
            Ok(Next::Entry)
        }
        Kind::Unused => Ok(Next::Entry),
        Kind::Reserved => Ok(Next::Entry),
    }
}

// Receives an SRP entry, and answers a management datagram.
fn take_command<S: Site>(
    unit: &mut Unit,
    site: &mut S,
    records: &mut Records,
    arrival: Arrival,
) -> Result<Next, NoMemory>
    requires lines { HasLineRoom records.old }
    requires pending { deque_len unit.old.pending < deque_capacity unit.old.pending }
    requires spare { 0 < (S.state site.old).queue.spare }
    requires none { unit.old.line.kept ≡ None }
    ensures none { AsNone result unit.new.line.kept }
    ensures once { AnswersOnceBy (S.state site.old) (S.state site.new)
        (desk_of unit.old) (desk_of unit.new) records.old records.new }
    ensures moved { OnOk result (StaysMoved unit.old unit.new) }
    ensures agrees { StaysAgreed unit.old unit.new
        (S.state site.old).queue (S.state site.new).queue }
    ensures advances { Advances (S.state site.old) (S.state site.new) }
    ensures intake { (before : SiteState) → MayTake (standing_of unit.old) →
        first_byte arrival.entry ≡ 0x80 →
        TakesEntry before (S.state site.old) arrival.number arrival.entry →
        TakesIn (standing_of unit.old) (standing_of unit.new) before (S.state site.new)
        records.old.grants.items records.new.grants.items }
    ensures goes_on { MayTake (standing_of unit.old) → IfOk result (λ next.
        next ≡ Next.Entry → MayTake (standing_of unit.new)) }
    ensures judges { (before : SiteState) → MayTake (standing_of unit.old) →
        first_byte arrival.entry ≡ 0x80 →
        TakesEntry before (S.state site.old) arrival.number arrival.entry →
        Judges (standing_of unit.old) (standing_of unit.new) before (S.state site.new)
        (books_at unit.old before records.old)
        (books_at unit.new (S.state site.new) records.new) }
    ensures answers { KeepsAnswers S.link_shared unit.old unit.new
        (S.state site.old) (S.state site.new) records.old records.new }
    ensures cargo { KeepsCargo (cargo_of unit.old (S.state site.old) records.old)
        (cargo_of unit.new (S.state site.new) records.new) }
    ensures refuses { (before : SiteState) → MayTake (standing_of unit.old) →
        first_byte arrival.entry ≡ 0x80 →
        TakesEntry before (S.state site.old) arrival.number arrival.entry →
        login_answers (S.state site.old).queue.sent ≡ login_answers before.queue.sent →
        ExplainsBy (S.state site.old) (S.state site.new)
        (ledger_of unit.old before records.old)
        (ledger_of unit.new (S.state site.new) records.new) }
    ensures hears { (address : ℕ) → (bytes : List ℕ) → (iu : Iu) →
        (S.state site.old).shared ≡ false → unit.old.line.handshake ≡ Up →
        MayAsk (talk_of unit.old) iu →
        SaysRequest (S.state site.old).client arrival.entry address bytes iu →
        IfOk result (λ next. (next ≡ Next.Entry) ×
        IsReceivedAs unit.old unit.new
        (reach_of (S.state site.old)) (reach_of (S.state site.new))
        records.old.grants.items records.new.grants.items arrival.number address bytes iu) }
    ensures rows { KeepsIdleRows unit.old.service.stage unit.new.service.stage
        records.old.history.items records.new.history.items }
    ensures does { S.link_shared ≡ false → (S.state site.old).shared ≡ false → is_ended
        unit.old.line ≡ false → first_byte
        arrival.entry ≡ 0x80 → unit.old.waiting ≡ None → IsFree (before_hearing arrival (doing
        unit.old (S.state site.old) records.old)) → OnOk result (DoesFreely (before_hearing
        arrival (doing unit.old (S.state site.old) records.old)) (doing unit.new (S.state
        site.new) records.new)) }
    ensures goes { (S.state site.old).shared ≡ false → is_ended unit.old.line ≡ false →
        IfOk result (λ next. next ≢ Next.End → is_ended unit.new.line ≡ false) }
    ensures stops { S.link_shared ≡ false → IfOk result (λ next. next ≢ Next.Entry →
        HearsOut 256 (S.state site.old).shared unit.new (S.state site.new).queue) }
    ensures coming { to_come (S.state site.new).queue ≡ to_come (S.state site.old).queue }
    ensures brings { IfOk result (BringsOne unit.old unit.new) }
{
    match arrival.entry.format() {
        SRP => {
            unit.waiting = Some(arrival);
            receive(unit, site, records, arrival)
        }
        DATAGRAM => Ok(put_reply(unit, site, datagram_answer(arrival.entry.iu_address()))),
        _ => Ok(Next::Entry),
    }
}

// Fetches the information unit of the entry that waits, and judges it.
fn receive<S: Site>(
    unit: &mut Unit,
    site: &mut S,
    records: &mut Records,
    arrival: Arrival,
) -> Result<Next, NoMemory>
    requires lines { HasLineRoom records.old }
    requires pending { deque_len unit.old.pending < deque_capacity unit.old.pending }
    requires none { unit.old.line.kept ≡ None }
    ensures received { OnOk result ((unit.new.waiting ≡ None) ⊎ (unit.new ≡ unit.old)) }
    ensures none { AsNone result unit.new.line.kept }
    ensures once { AnswersOnceBy (S.state site.old) (S.state site.new)
        (desk_of unit.old) (desk_of unit.new) records.old records.new }
    ensures quiet { OnOk result (IfQuiet unit.old unit.new
        (S.state site.old).queue (S.state site.new).queue) }
    ensures waits { IfOk result (λ next. unit.new.moved ≡ false → AsNext next ⊥
        (MeetsUse (S.state site.old) (S.state site.new)) ⊥) }
    ensures line { OnOk result (unit.new.moved ≡ false → unit.new.line ≡ unit.old.line) }
    ensures handshake { unit.new.line.handshake ≡ unit.old.line.handshake }
    ensures queue { (S.state site.new).queue ≡ (S.state site.old).queue }
    ensures advances { Advances (S.state site.old) (S.state site.new) }
    ensures intake { unit.old.waiting ≡ Some arrival → TakesIn
        (standing_of unit.old) (standing_of unit.new)
        (S.state site.old) (S.state site.new)
        records.old.grants.items records.new.grants.items }
    ensures goes_on { is_ended unit.old.line ≡ false → IfOk result (λ next.
        next ≡ Next.Entry → MayTake (standing_of unit.new)) }
    ensures judges { unit.old.waiting ≡ Some arrival → Judges
        (standing_of unit.old) (standing_of unit.new) (S.state site.old) (S.state site.new)
        (books_at unit.old (S.state site.old) records.old)
        (books_at unit.new (S.state site.new) records.new) }
    ensures answers { KeepsAnswers S.link_shared unit.old unit.new
        (S.state site.old) (S.state site.new) records.old records.new }
    ensures cargo { KeepsCargo (cargo_of unit.old (S.state site.old) records.old)
        (cargo_of unit.new (S.state site.new) records.new) }
    ensures refuses { unit.old.waiting ≡ Some arrival →
        ExplainsBy (S.state site.old) (S.state site.new)
        (ledger_of unit.old (S.state site.old) records.old)
        (ledger_of unit.new (S.state site.new) records.new) }
    ensures hears { (address : ℕ) → (bytes : List ℕ) → (iu : Iu) →
        (S.state site.old).shared ≡ false → unit.old.line.handshake ≡ Up →
        MayAsk (talk_of unit.old) iu →
        SaysRequest (S.state site.old).client arrival.entry address bytes iu →
        IfOk result (λ next. (next ≡ Next.Entry) ×
        IsReceivedAs unit.old unit.new
        (reach_of (S.state site.old)) (reach_of (S.state site.new))
        records.old.grants.items records.new.grants.items arrival.number address bytes iu) }
    ensures rows { KeepsIdleRows unit.old.service.stage unit.new.service.stage
        records.old.history.items records.new.history.items }
    ensures does { S.link_shared ≡ false → (S.state site.old).shared ≡ false → is_ended
        unit.old.line ≡ false → is_srp_entry
        arrival.entry ≡ true → IsFree (before_hearing arrival (doing unit.old (S.state site.old)
        records.old)) → OnOk result (DoesFreely (before_hearing arrival (doing unit.old (S.state
        site.old) records.old)) (doing unit.new (S.state site.new) records.new)) }
    ensures goes { (S.state site.old).shared ≡ false → is_ended unit.old.line ≡ false →
        IfOk result (λ next. next ≢ Next.End → is_ended unit.new.line ≡ false) }
    ensures stops { unit.old.waiting ≢ None → IfOk result (λ next. next ≢ Next.Entry →
        HearsOut 256 (S.state site.old).shared unit.new (S.state site.new).queue) }
    ensures brings { IfOk result (BringsOne unit.old unit.new) }
{
    let session = site.session();
    if !unit.line.is_up() {
        return Ok(end_session(unit, session, records, Lapse::Early));
    }
    let len = usize::from(arrival.entry.iu_len());
    if len == 0 || len > MOST_BYTES {
        return Ok(end_session(unit, session, records, Lapse::BadIu));
    }
    let mut buffer = [0; MOST_BYTES];
    let bytes = &mut buffer[..len];
    match site.fetch_unit(arrival.entry.iu_address(), bytes) {
        Ok(()) => {
            unit.waiting = None;
            unit.moved = true;
            Ok(judge(unit, session, records, arrival, bytes))
        }
        Err(Halt::Refused) => Ok(end_session(unit, session, records, Lapse::Refused)),
        Err(Halt::Busy) => Ok(Next::Service),
        Err(Halt::NoMemory) => Err(NoMemory),
    }
}

// Accepts the information unit that was fetched, ignores it, or ends the session.
fn judge(
    unit: &mut Unit,
    session: u64,
    records: &mut Records,
    arrival: Arrival,
    bytes: &[u8],
) -> Next
    requires lines { HasLineRoom records.old }
    requires pending { deque_len unit.old.pending < deque_capacity unit.old.pending }
    requires few { length bytes.now ≤ 256 }
    requires none { unit.old.line.kept ≡ None }
    ensures none { unit.new.line.kept ≡ None }
    ensures once { (q : EndState) → AnswersOnceIf
        (λ Hears. Hears (fetched (iu_address arrival.entry) units_at bytes.now))
        (desk_of unit.old) (desk_of unit.new) q q records.old records.new }
    ensures handshake { unit.new.line.handshake ≡ unit.old.line.handshake }
    ensures moved { StaysMoved unit.old unit.new }
    ensures id { unit.new.id ≡ unit.old.id }
    ensures granted { unit.new.logins.granted ≡ unit.old.logins.granted }
    ensures lines { LinesMore unit.old.id unit.old.logins.granted
        records.old.grants.items records.new.grants.items }
    ensures waiting { unit.old.waiting ≡ None → unit.new.waiting ≡ None }
    ensures goes_on { result ≡ Next.Entry → unit.new.line ≡ unit.old.line }
    ensures judged { (next next' : Ahead) → (receipt : Receipt) → IsToJudge
        (books_of unit.old session next records.old) session next' arrival.number bytes.now receipt →
        JudgesOne (books_of unit.old session next records.old)
        (books_of unit.new session next' records.new) receipt }
    ensures answers { (q : EndState) → session ≡ q.last_session →
        HasAnswers (owing_of unit.old q records.old) →
        HasAnswers (owing_of unit.new q records.new) }
    ensures cargo { (pages : Pages) → KeepsCargo
        (cargo_with unit.old pages records.old) (cargo_with unit.new pages records.new) }
    ensures refuses { (queue : ℕ) → (taken : List PipeRow) → (answers : List Entry) →
        session ≡ queue → is_ended unit.old.line ≡ false → unit.old.waiting ≡ None →
        IsSrpAt taken queue arrival.number arrival.entry →
        length bytes.now ≡ iu_length arrival.entry → ExplainsIf
        (λ Hears. Hears (fetched (iu_address arrival.entry) units_at bytes.now))
        (waiting_in arrival (ledger_at unit.old queue taken answers records.old))
        (ledger_at unit.new queue taken answers records.new) }
    ensures hears { (iu : Iu) → Spells bytes.now iu → MayAsk (talk_of unit.old) iu →
        (result ≡ Next.Entry) × IsAccepted unit.old unit.new
        records.old.grants.items records.new.grants.items
        arrival.number (iu_address arrival.entry) bytes.now iu }
    ensures rows { KeepsIdleRows unit.old.service.stage unit.new.service.stage
        records.old.history.items records.new.history.items }
    ensures does { (before : SiteState) → (site : SiteState) → is_srp_entry arrival.entry ≡ true
        → unit.old.waiting ≡ None → unit.old.line.handshake ≡ Up → is_ended unit.old.line ≡ false
        → unit.old.service.stage ≡ Stage.Start → length bytes.now ≡ iu_length arrival.entry → StaysKnown before.client
        site.client → site.queue ≡ before.queue → site.own.place.unit ≡ before.own.place.unit →
        IsReadWhole before.client (iu_address arrival.entry) bytes.now → DoesOne (before_hearing
        arrival (doing unit.old before records.old)) (doing unit.new site records.new) }
    ensures stage { unit.old.service.stage ≡ Stage.Start → unit.new.service.stage ≡ Stage.Start }
    ensures goes { result ≢ Next.End → unit.new.line ≡ unit.old.line }
    ensures over { result ≢ Next.Entry → unit.new.line.closing ≡ true }
    ensures brings { BringsOne unit.old unit.new result }
{
    bytes_spell_one();
    match judge_unit(&mut unit.logins, bytes) {
        Verdict::Ignored => Next::Entry,
        Verdict::Accepted { login, tag, order } => {
            let request = Request {
                number: arrival.number,
                address: arrival.entry.iu_address(),
                login,
                tag,
                unit: kept(bytes),
                order,
            };
            match unit.pending.push_back(request) {
                Ok(()) => Next::Entry,
                Err(_) => unreachable!(),
            }
        }
        Verdict::Fatal {
            cause,
            outstanding,
            granted,
        } => end_counted(unit, session, records, cause, outstanding, granted),
    }
}

// Says what becomes of an information unit.
fn judge_unit(logins: &mut Logins, bytes: &[u8]) -> Verdict
    ensures tagged { IsTagged result bytes.now }
    ensures granted { logins.new.granted ≡ logins.old.granted }
    ensures decides { Decides logins.old logins.new bytes.now result }
{
    match read_iu(bytes) {
        Ok(iu) => match iu {
            Iu::LoginReq(login) => Verdict::Accepted {
                login: 0,
                tag: login.tag,
                order: Order::Login(login),
            },
            Iu::ILogout { tag } => match logins.taking() {
                Some(login) => {
                    logins.close();
                    Verdict::Accepted {
                        login,
                        tag,
                        order: Order::Logout,
                    }
                }
                None => fatal(Lapse::NotLogin),
            },
            Iu::TskMgmt(task) => accept(logins, task.tag, Order::Task(task)),
            Iu::Cmd(command) => accept(logins, command.tag, Order::Command(command)),
            _ => Verdict::Ignored,
        },
        Err(_) => {
            spelled_bytes_are_read();
            unreadable(logins, bytes)
        }
    }
}

// A cause that counts nothing.
fn fatal(cause: Lapse) -> Verdict
    ensures tagged { (bytes : List ℕ) → IsTagged result bytes }
    ensures decides { (old new : Logins) → (bytes : List ℕ) → StaysOn old new →
        IsCause old bytes cause 0 0 → Decides old new bytes result }
{
    Verdict::Fatal {
        cause,
        outstanding: 0,
        granted: 0,
    }
}

// Accepts a command or a task under the login that is on.
fn accept(logins: &mut Logins, tag: u64, order: Order) -> Verdict
    ensures granted { logins.new.granted ≡ logins.old.granted }
    ensures tagged { (bytes : List ℕ) → tag ≡ field 8 8 bytes → IsOrder order bytes →
        IsTagged result bytes }
    ensures decides { (bytes : List ℕ) → Asks bytes → gets_row order ≡ true →
        Decides logins.old logins.new bytes result }
{
    let Some(login) = logins.taking() else {
        return fatal(Lapse::NotLogin);
    };
    match logins.accept() {
        Ok(()) => Verdict::Accepted { login, tag, order },
        Err(fault) => past_limit(fault),
    }
}

// Ends the session for a request that the credits refuse.
fn past_limit(fault: CreditFault) -> Verdict
    ensures tagged { (bytes : List ℕ) → IsTagged result bytes }
    ensures over { (outstanding granted : ℕ) →
        fault ≡ CreditFault.OverLimit outstanding granted →
        result ≡ Verdict.Fatal Lapse.OverLimit outstanding granted }
{
    match fault {
        CreditFault::OverLimit {
            outstanding,
            granted,
        } => Verdict::Fatal {
            cause: Lapse::OverLimit,
            outstanding,
            granted,
        },
        _ => fatal(Lapse::NotLogin),
    }
}

// Judges bytes that are no information unit: under a login a command or a task that has a tag is accepted.
fn unreadable(logins: &mut Logins, bytes: &[u8]) -> Verdict
    requires { (iu : Iu) → ¬ Spells bytes.now iu }
    ensures tagged { IsTagged result bytes.now }
    ensures granted { logins.new.granted ≡ logins.old.granted }
    ensures decides { Decides logins.old logins.new bytes.now result }
{
    let Some(tag) = tag_of(bytes) else {
        return fatal(Lapse::BadIu);
    };
    if logins.taking().is_none() || !asks(bytes) {
        return fatal(Lapse::BadIu);
    }
    accept(logins, tag, Order::Unreadable)
}

// Whether bytes have the type of a command or a task.
fn asks(bytes: &[u8]) -> bool
    requires { 1 ≤ length bytes.now }
    ensures { IsTrue result ↔ ((slice_index bytes.now 0 ≡ TSK_MGMT) ⊎
        (slice_index bytes.now 0 ≡ CMD)) }
{
    bytes[0] == TSK_MGMT || bytes[0] == CMD
}

// Keeps the bytes in an array of their own.
fn kept(bytes: &[u8]) -> ArrayVec<u8, 256>
    requires { length bytes.now ≤ 256 }
    ensures { result.items ≡ bytes.now }
{
    match ArrayVec::try_from(bytes) {
        Ok(list) => list,
        Err(_) => unreachable!(),
    }
}
