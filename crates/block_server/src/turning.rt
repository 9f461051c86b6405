// The steps of a unit's turn.
ghost use Rattle.block_server.specs.Doings.{CallsOnly, DoesTurn, FreesLine, IsAtRest, OpensLine, SendsReply, SettlesEvent, begun, doing};
ghost use Rattle.block_server.specs.Talk.{BeginsAlone, IsNewThere, IsTurnReady, OpensOn, OpensUnit, Replies, TalksOn, Word, reach_of};
ghost use Rattle.crq_session.specs.Answered.{taken_now};
ghost use Rattle.vio_num.specs.Entry.{initialize};
ghost use Rattle.block_server.specs.Cargo.{IsAccounted, cargo_of};
ghost use Rattle.std.specs.Prelude.{◌≡◌, ◌≢◌, ◌⊎◌, ◌+◌, ◌<◌, ◌≤◌, None, Bool, IfOk, List, OnOk, [], false, true};
ghost use Rattle.block_server.specs.Advances.{Advances};
ghost use Rattle.block_server.specs.Books.{as_begun, books_at};
ghost use Rattle.block_server.specs.Causes.{Told, told_to};
ghost use Rattle.block_server.specs.Judged.{Keeps};
ghost use Rattle.block_server.specs.Judges.{Judges};
ghost use Rattle.block_server.specs.Serving.{AnswersOnce, AnswersOnceOn, IsServing, desk_of, held, terms_of};
ghost use Rattle.block_server.specs.Moves.{Passes};
ghost use Rattle.block_server.specs.Owed.{KeepsAnswers, KeepsAnswersAll};
ghost use Rattle.block_server.specs.Receipts.{TakesIn, is_ended, standing_of};
ghost use Rattle.block_server.specs.Heard.{TellsAll};
ghost use Rattle.block_server.specs.HeardOut.{HearsOut, MayHear, ServesOut};
ghost use Rattle.block_server.specs.Ranges.{WritesOn, client_known};
ghost use Rattle.block_server.specs.Ready.{Agrees, Idles, MeetsFull, MeetsSender};
ghost use Rattle.block_server.specs.Refusals.{Explains, ExplainsOn, ledger_of};
ghost use Rattle.block_server.specs.Resting.{IsResting};
ghost use Rattle.block_server.specs.RowsOn.{RowsOn};
ghost use Rattle.block_server.specs.Standing.{LeavesOn, stood};
ghost use Rattle.block_server.specs.Steps.{ComesOn, NoStage, OtherStage};
ghost use Rattle.block_server.specs.Turns.{IfQuiet};
ghost use Rattle.block_server.specs.Waits.{AsNext, IsIdle, PassesEvent, StandsOpen, StaysAgreed, StopsOpening};

use crate::answering::put_kept;
use crate::disk::Disk;
use crate::intake::{Next, take_in};
use crate::line::reply_of;
use crate::records::Records;
use crate::replies::put_reply;
use crate::serving::serve;
use crate::site::Site;
use crate::unit::Unit;
use crq_session::{EventAnswer, FreeAnswer, Handshake, RegAnswer};
use vio_io::Blocks;
use vio_num::{Grant, NoMemory};

/// The calls of the queue before intake, but for the kept entry's.
const FIRST_CALLS: u32 = 4;

/// One turn of a unit: goes through its steps, up to the one that ends the turn.
pub(crate) fn turn<S: Site, B: Blocks>(
    unit: &mut Unit,
    site: &mut S,
    records: &mut Records,
    disk: &mut Disk<B>,
) -> Result<(), NoMemory>
    ensures rests { S.link_shared ≡ false → IsResting unit.old (S.state site.old).queue →
        OnOk result (unit.new.moved ≡ unit.old.moved) }
    ensures comes { (told : Told → Bool) →
        IsServing (terms_of told disk.old.count) (desk_of unit.old) records.old.history.items →
        OnOk result (ComesOn OtherStage unit.old unit.new
        (S.state site.old).queue (S.state site.new).queue) }
    ensures once { (told : Told → Bool) →
        TellsAll told unit.old.id (S.state site.old) (S.state site.new) → AnswersOnceOn
        (held told disk.old.count (B.state disk.old.image).blocks)
        (held told disk.new.count (B.state disk.new.image).blocks)
        (desk_of unit.old) (desk_of unit.new)
        (S.state site.old).queue (S.state site.new).queue records.old records.new }
    ensures quiet { OnOk result (IfQuiet unit.old unit.new
        (S.state site.old).queue (S.state site.new).queue) }
    ensures waits { OnOk result (unit.new.moved ≡ false →
        IsIdle S.link_shared (S.state site.old) (S.state site.new) unit.new) }
    ensures agrees { StaysAgreed unit.old unit.new
        (S.state site.old).queue (S.state site.new).queue }
    ensures advances { Advances (S.state site.old) (S.state site.new) }
    ensures intake { TakesIn (standing_of unit.old) (standing_of unit.new)
        (S.state site.old) (S.state site.new)
        records.old.grants.items records.new.grants.items }
    ensures judges { Judges
        (standing_of unit.old) (standing_of unit.new) (S.state site.old) (S.state site.new)
        (books_at unit.old (S.state site.old) records.old)
        (books_at unit.new (S.state site.new) records.new) }
    ensures answers { KeepsAnswersAll S.link_shared unit.old unit.new
        (S.state site.old) (S.state site.new) records.old records.new }
    ensures cargo { (told : Told → Bool) → (asked : Bool) →
        TellsAll told unit.old.id (S.state site.old) (S.state site.new) →
        IsServing (terms_of told disk.old.count) (desk_of unit.old) records.old.history.items →
        IsAccounted told asked (cargo_of unit.old (S.state site.old) records.old) →
        IsAccounted told asked (cargo_of unit.new (S.state site.new) records.new) }
    ensures refuses { (told : Told → Bool) →
        ExplainsOn S.link_shared unit.old.line.handshake (terms_of told disk.old.count)
        (S.state site.old) (S.state site.new) (desk_of unit.old) records.old.history.items
        (ledger_of unit.old (S.state site.old) records.old)
        (ledger_of unit.new (S.state site.new) records.new) }
    ensures talks { (words : List Word) →
        IsTurnReady unit.old (reach_of (S.state site.old)) S.link_shared words →
        OnOk result (TalksOn unit.old unit.new
        (reach_of (S.state site.old)) (S.state site.new).queue
        records.old.grants.items records.new.grants.items words) }
    ensures writes { (told : Told → Bool) →
        TellsAll told unit.old.id (S.state site.old) (S.state site.new) →
        IsServing (terms_of told disk.old.count) (desk_of unit.old) records.old.history.items →
        (words : List Word) →
        IsTurnReady unit.old (reach_of (S.state site.old)) S.link_shared words →
        OnOk result (WritesOn (told_to told unit.old.id) unit.old
        (S.state site.old).queue words
        (client_known (S.state site.old)) (client_known (S.state site.new))) }
    ensures places { (words : List Word) →
        IsTurnReady unit.old (reach_of (S.state site.old)) S.link_shared words →
        OnOk result (WritesOn (stood (S.state site.old).client) unit.old
        (S.state site.old).queue words
        (client_known (S.state site.old)) (client_known (S.state site.new))) }
    ensures leaves { (words : List Word) →
        IsTurnReady unit.old (reach_of (S.state site.old)) S.link_shared words →
        OnOk result (LeavesOn (S.state site.old).own.place.unit unit.old
        (S.state site.old).queue words (S.state site.new).queue
        (S.state site.old).client (S.state site.new).client
        records.old.history.items records.new.history.items) }
    ensures opens { IsNewThere unit.old (reach_of (S.state site.old)) S.link_shared →
        OnOk result (OpensOn unit.old unit.new
        (reach_of (S.state site.old)) (reach_of (S.state site.new))
        records.old.grants.items records.new.grants.items
        records.old.history.items records.new.history.items) }
    ensures rows { (words : List Word) →
        IsTurnReady unit.old (reach_of (S.state site.old)) S.link_shared words →
        OnOk result (RowsOn unit.old (S.state site.old).queue words
        records.old.history.items records.new.history.items) }
    ensures does { S.link_shared ≡ false → (S.state site.old).shared ≡ false → IsAtRest (doing
        unit.old (S.state site.old) records.old) → OnOk result (DoesTurn (doing unit.old (S.state
        site.old) records.old) (doing unit.new (S.state site.new) records.new)) }
    ensures heard { MayHear unit.old (S.state site.old).queue S.link_shared → OnOk result
        (HearsOut 255 (S.state site.old).shared unit.new (S.state site.new).queue) }
    ensures serves { MayHear unit.old (S.state site.old).queue S.link_shared →
        (S.state site.old).shared ≡ false → unit.old.waiting ≡ None → OnOk result (ServesOut
        unit.old unit.new (S.state site.old).queue (S.state site.new).queue) }
{
    if open_line(unit, site)? == Next::End {
        return Ok(());
    }
    if put_kept(unit, site, records)? == Next::End {
        return Ok(());
    }
    if take_in(unit, site, records)? == Next::End {
        return Ok(());
    }
    serve(unit, site, records, disk)
}

// Pushes the event that is kept, frees a session that is to be closed, and registers a queue that is not.
fn open_line<S: Site>(unit: &mut Unit, site: &mut S) -> Result<Next, NoMemory>
    ensures rests { is_ended unit.old.line ≡ false → (S.state site.old).queue.kept ≡ None →
        IfOk result (λ next. (next ≡ Next.Entry) × (unit.new ≡ unit.old) ×
        Passes (S.state site.old) (S.state site.new)) }
    ensures comes { OnOk result (ComesOn NoStage unit.old unit.new
        (S.state site.old).queue (S.state site.new).queue) }
    ensures once { (records : Records) → AnswersOnce (desk_of unit.old) (desk_of unit.new)
        (S.state site.old).queue (S.state site.new).queue records records }
    ensures quiet { OnOk result (IfQuiet unit.old unit.new
        (S.state site.old).queue (S.state site.new).queue) }
    ensures waits { IfOk result (λ next. unit.new.moved ≡ false → AsNext next
        (StandsOpen S.link_shared unit.new (S.state site.old).queue (S.state site.new).queue) ⊥
        (StopsOpening S.link_shared unit.new (S.state site.old).queue (S.state site.new).queue)) }
    ensures agrees { StaysAgreed unit.old unit.new
        (S.state site.old).queue (S.state site.new).queue }
    ensures advances { Advances (S.state site.old) (S.state site.new) }
    ensures intake { (grants : List Grant) → TakesIn
        (standing_of unit.old) (standing_of unit.new)
        (S.state site.old) (S.state site.new) grants grants }
    ensures goes_on { IfOk result (λ next. next ≢ Next.End →
        is_ended unit.new.line ≡ false) }
    ensures judges { (records : Records) → Judges
        (standing_of unit.old) (standing_of unit.new) (S.state site.old) (S.state site.new)
        (books_at unit.old (S.state site.old) records)
        (books_at unit.new (S.state site.new) records) }
    ensures books { (records : Records) →
        (is_ended unit.old.line ≡ true → unit.old.waiting ≡ None) → Keeps (books_at unit.old (S.state site.old) records)
        (books_at unit.new (S.state site.new) records) }
    ensures answers { (records : Records) → KeepsAnswers S.link_shared unit.old unit.new
        (S.state site.old) (S.state site.new) records records }
    ensures cargo { (records : Records) → cargo_of unit.new (S.state site.new) records ≡
        cargo_of unit.old (S.state site.old) records }
    ensures refuses { (records : Records) → Explains
        (ledger_of unit.old (S.state site.old) records)
        (ledger_of unit.new (S.state site.new) records) }
    ensures idle { S.link_shared ≡ false → is_ended unit.old.line ≡ false →
        (S.state site.old).queue.kept ≡ None → OnOk result
        (Replies (S.state site.old).queue (S.state site.new).queue [] ×
        ((S.state site.new).client ≡ (S.state site.old).client)) }
    ensures opens { IsNewThere unit.old (reach_of (S.state site.old)) S.link_shared →
        IfOk result (λ next. (next ≡ Next.End) × OpensUnit unit.old unit.new
        (reach_of (S.state site.old)) (reach_of (S.state site.new))) }
    ensures does { (records : Records) → S.link_shared ≡ false → IsAtRest (doing unit.old
        (S.state site.old) records) → OnOk result (DoesTurn (doing unit.old (S.state site.old)
        records) (doing unit.new (S.state site.new) records)) }
{
    site.reserve(FIRST_CALLS)?;
    if push_event(unit, site) == Next::End {
        return Ok(Next::End);
    }
    if free_closed(unit, site) == Next::End {
        return Ok(Next::End);
    }
    if unit.line.is_down() {
        register(unit, site);
        return Ok(Next::End);
    }
    Ok(Next::Entry)
}

// Pushes the event that is kept. While it stays kept the turn ends.
fn push_event<S: Site>(unit: &mut Unit, site: &mut S) -> Next
    requires { 0 < (S.state site.old).queue.spare }
    ensures rests { (S.state site.old).queue.kept ≡ None →
        (result ≡ Next.Entry) × (unit.new ≡ unit.old) }
    ensures comes { ComesOn NoStage unit.old unit.new
        (S.state site.old).queue (S.state site.new).queue }
    ensures once { (records : Records) → AnswersOnce (desk_of unit.old) (desk_of unit.new)
        (S.state site.old).queue (S.state site.new).queue records records }
    ensures spare { (S.state site.old).queue.spare ≤ (S.state site.new).queue.spare + 1 }
    ensures quiet { IfQuiet unit.old unit.new (S.state site.old).queue (S.state site.new).queue }
    ensures waits { unit.new.moved ≡ false → AsNext result
        (PassesEvent S.link_shared (S.state site.old).queue (S.state site.new).queue) ⊥
        (MeetsFull S.link_shared (S.state site.old).queue (S.state site.new).queue) }
    ensures line { unit.new.line ≡ unit.old.line }
    ensures agrees { StaysAgreed unit.old unit.new
        (S.state site.old).queue (S.state site.new).queue }
    ensures advances { Advances (S.state site.old) (S.state site.new) }
    ensures stands { standing_of unit.new ≡ standing_of unit.old }
    ensures passes { Passes (S.state site.old) (S.state site.new) }
    ensures books { (records : Records) → Keeps (books_at unit.old (S.state site.old) records)
        (books_at unit.new (S.state site.new) records) }
    ensures answers { (records : Records) → KeepsAnswers S.link_shared unit.old unit.new
        (S.state site.old) (S.state site.new) records records }
    ensures cargo { (records : Records) → cargo_of unit.new (S.state site.new) records ≡
        cargo_of unit.old (S.state site.old) records }
    ensures refuses { (records : Records) → Explains
        (ledger_of unit.old (S.state site.old) records)
        (ledger_of unit.new (S.state site.new) records) }
    ensures idle { S.link_shared ≡ false → (S.state site.old).queue.kept ≡ None →
        Replies (S.state site.old).queue (S.state site.new).queue [] ×
        ((S.state site.new).client ≡ (S.state site.old).client) }
    ensures event { (S.state site.old).queue.kept ≡ None → (S.state site.new).queue.kept ≡ None }
    ensures aside { (records : Records) → S.link_shared ≡ false → CallsOnly (doing unit.old
        (S.state site.old) records) (doing unit.new (S.state site.new) records) ⊎ SettlesEvent (doing
        unit.old (S.state site.old) records) (doing unit.new (S.state site.new) records) }
{
    match site.push_event() {
        EventAnswer::Nothing => Next::Entry,
        EventAnswer::Put => {
            unit.moved = true;
            Next::Entry
        }
        EventAnswer::Kept { .. } => Next::End,
    }
}

// Frees the session, if it is to be closed.
fn free_closed<S: Site>(unit: &mut Unit, site: &mut S) -> Next
    requires { 0 < (S.state site.old).queue.spare }
    ensures rests { unit.old.line.closing ≡ false → (result ≡ Next.Entry) ×
        (unit.new ≡ unit.old) × (S.state site.new ≡ S.state site.old) }
    ensures comes { ComesOn NoStage unit.old unit.new
        (S.state site.old).queue (S.state site.new).queue }
    ensures once { (records : Records) → AnswersOnce (desk_of unit.old) (desk_of unit.new)
        (S.state site.old).queue (S.state site.new).queue records records }
    ensures spare { (S.state site.old).queue.spare ≤ (S.state site.new).queue.spare + 1 }
    ensures quiet { IfQuiet unit.old unit.new (S.state site.old).queue (S.state site.new).queue }
    ensures waits { unit.new.moved ≡ false → AsNext result
        (Idles S.link_shared (S.state site.old).queue (S.state site.new).queue) ⊥
        (MeetsSender S.link_shared (S.state site.old).queue (S.state site.new).queue) }
    ensures agrees { StaysAgreed unit.old unit.new
        (S.state site.old).queue (S.state site.new).queue }
    ensures advances { Advances (S.state site.old) (S.state site.new) }
    ensures stands { standing_of unit.new ≡ standing_of unit.old }
    ensures passes { Passes (S.state site.old) (S.state site.new) }
    ensures goes_on { result ≢ Next.End → unit.new.line.closing ≡ false }
    ensures books { (records : Records) → Keeps (books_at unit.old (S.state site.old) records)
        (books_at unit.new (S.state site.new) records) }
    ensures answers { (records : Records) → KeepsAnswers S.link_shared unit.old unit.new
        (S.state site.old) (S.state site.new) records records }
    ensures cargo { (records : Records) → cargo_of unit.new (S.state site.new) records ≡
        cargo_of unit.old (S.state site.old) records }
    ensures refuses { (records : Records) → Explains
        (ledger_of unit.old (S.state site.old) records)
        (ledger_of unit.new (S.state site.new) records) }
    ensures aside { (records : Records) → S.link_shared ≡ false → CallsOnly (doing unit.old
        (S.state site.old) records) (doing unit.new (S.state site.new) records) ⊎ FreesLine (doing
        unit.old (S.state site.old) records) (doing unit.new (S.state site.new) records) }
{
    if !unit.line.closing {
        return Next::Entry;
    }
    free(unit, site)
}

// Frees the session that is to be closed. While a sender is inside the turn ends.
fn free<S: Site>(unit: &mut Unit, site: &mut S) -> Next
    requires { 0 < (S.state site.old).queue.spare }
    ensures comes { ComesOn NoStage unit.old unit.new
        (S.state site.old).queue (S.state site.new).queue }
    ensures once { (records : Records) → AnswersOnce (desk_of unit.old) (desk_of unit.new)
        (S.state site.old).queue (S.state site.new).queue records records }
    ensures spare { (S.state site.old).queue.spare ≤ (S.state site.new).queue.spare + 1 }
    ensures quiet { IfQuiet unit.old unit.new (S.state site.old).queue (S.state site.new).queue }
    ensures waits { unit.new.moved ≡ false → AsNext result
        (Idles S.link_shared (S.state site.old).queue (S.state site.new).queue) ⊥
        (MeetsSender S.link_shared (S.state site.old).queue (S.state site.new).queue) }
    ensures agrees { StaysAgreed unit.old unit.new
        (S.state site.old).queue (S.state site.new).queue }
    ensures advances { Advances (S.state site.old) (S.state site.new) }
    ensures stands { unit.old.line.closing ≡ true →
        standing_of unit.new ≡ standing_of unit.old }
    ensures passes { Passes (S.state site.old) (S.state site.new) }
    ensures goes_on { result ≢ Next.End → unit.new.line.closing ≡ false }
    ensures books { (records : Records) → unit.old.line.closing ≡ true →
        Keeps (books_at unit.old (S.state site.old) records)
        (books_at unit.new (S.state site.new) records) }
    ensures answers { (records : Records) → unit.old.line.closing ≡ true →
        KeepsAnswers S.link_shared unit.old unit.new
        (S.state site.old) (S.state site.new) records records }
    ensures cargo { (records : Records) → cargo_of unit.new (S.state site.new) records ≡
        cargo_of unit.old (S.state site.old) records }
    ensures refuses { (records : Records) → unit.old.line.closing ≡ true → Explains
        (ledger_of unit.old (S.state site.old) records)
        (ledger_of unit.new (S.state site.new) records) }
    ensures aside { (records : Records) → S.link_shared ≡ false → unit.old.line.closing ≡ true →
        CallsOnly (doing unit.old (S.state site.old) records) (doing unit.new (S.state site.new)
        records) ⊎ FreesLine (doing unit.old (S.state site.old) records) (doing unit.new (S.state
        site.new) records) }
{
    match site.free() {
        FreeAnswer::Busy { .. } => Next::End,
        FreeAnswer::Success => {
            unit.moved = true;
            unit.line.freed();
            Next::Entry
        }
        FreeAnswer::Parameter => {
            unit.line.freed();
            Next::Entry
        }
    }
}

// Registers the queue, and sends Initialize. While the kept event finds its slot full nothing changes.
fn register<S: Site>(unit: &mut Unit, site: &mut S)
    requires spare { 1 < (S.state site.old).queue.spare }
    requires down { unit.old.line.handshake ≡ Handshake.Down }
    requires stays { unit.old.line.closing ≡ false }
    ensures waiting { unit.new.waiting ≡ unit.old.waiting }
    ensures comes { ComesOn NoStage unit.old unit.new
        (S.state site.old).queue (S.state site.new).queue }
    ensures once { (records : Records) → AnswersOnce (desk_of unit.old) (desk_of unit.new)
        (S.state site.old).queue (S.state site.new).queue records records }
    ensures quiet { IfQuiet unit.old unit.new (S.state site.old).queue (S.state site.new).queue }
    ensures waits { unit.new.moved ≡ false →
        StopsOpening S.link_shared unit.new (S.state site.old).queue (S.state site.new).queue }
    ensures agrees { StaysAgreed unit.old unit.new
        (S.state site.old).queue (S.state site.new).queue }
    ensures advances { Advances (S.state site.old) (S.state site.new) }
    ensures intake { (grants : List Grant) → TakesIn
        (standing_of unit.old) (standing_of unit.new)
        (S.state site.old) (S.state site.new) grants grants }
    ensures judges { (records : Records) → Judges
        (standing_of unit.old) (standing_of unit.new) (S.state site.old) (S.state site.new)
        (books_at unit.old (S.state site.old) records)
        (books_at unit.new (S.state site.new) records) }
    ensures books { (records : Records) → unit.old.waiting ≡ None → Keeps
        (books_at unit.old (S.state site.old) records)
        (books_at unit.new (S.state site.new) records) }
    ensures answers { (records : Records) → KeepsAnswers S.link_shared unit.old unit.new
        (S.state site.old) (S.state site.new) records records }
    ensures cargo { (records : Records) → cargo_of unit.new (S.state site.new) records ≡
        cargo_of unit.old (S.state site.old) records }
    ensures refuses { (records : Records) → Explains
        (ledger_of unit.old (S.state site.old) records)
        (ledger_of unit.new (S.state site.new) records) }
    ensures opens { IsNewThere unit.old (reach_of (S.state site.old)) S.link_shared →
        OpensUnit unit.old unit.new (reach_of (S.state site.old)) (reach_of (S.state site.new)) }
    ensures aside { (records : Records) → S.link_shared ≡ false → OpensLine (doing unit.old
        (S.state site.old) records) (doing unit.new (S.state site.new) records) ⊎ CallsOnly (doing
        unit.old (S.state site.old) records) (doing unit.new (S.state site.new) records) }
{
    match site.register() {
        RegAnswer::Success => begin(unit, site),
        RegAnswer::Closed { .. } => begin(unit, site),
        _ => {}
    }
}

// Sends Initialize, in a session that was registered.
fn begin<S: Site>(unit: &mut Unit, site: &mut S)
    requires spare { 0 < (S.state site.old).queue.spare }
    requires on { (S.state site.old).queue.registered ≡ true }
    requires stays { unit.old.line.closing ≡ false }
    ensures once { (records : Records) → AnswersOnce (desk_of unit.old) (desk_of unit.new)
        (S.state site.old).queue (S.state site.new).queue records records }
    ensures moved { unit.new.moved ≡ true }
    ensures agrees { Agrees unit.new.line.handshake (S.state site.new).queue }
    ensures advances { Advances (S.state site.old) (S.state site.new) }
    ensures id { unit.new.id ≡ unit.old.id }
    ensures granted { unit.new.logins.granted ≡ unit.old.logins.granted }
    ensures waiting { unit.new.waiting ≡ unit.old.waiting }
    ensures passes { Passes (S.state site.old) (S.state site.new) }
    ensures books { (records : Records) → unit.old.pending.items ≡ [] →
        unit.old.logins.current ≡ 0 → Keeps
        (as_begun (books_at unit.old (S.state site.old) records))
        (books_at unit.new (S.state site.new) records) }
    ensures answers { (records : Records) → is_ended unit.old.line ≡ true →
        KeepsAnswers S.link_shared unit.old unit.new
        (S.state site.old) (S.state site.new) records records }
    ensures cargo { (records : Records) → cargo_of unit.new (S.state site.new) records ≡
        cargo_of unit.old (S.state site.old) records }
    ensures refuses { (records : Records) → is_ended unit.old.line ≡ true →
        taken_now (S.state site.old).queue ≡ [] → Explains
        (ledger_of unit.old (S.state site.old) records)
        (ledger_of unit.new (S.state site.new) records) }
    ensures alone { S.link_shared ≡ false →
        (S.state site.old).queue.place.partner_registered ≡ false → BeginsAlone
        unit.old unit.new (reach_of (S.state site.old)) (reach_of (S.state site.new)) }
    ensures aside { (records : Records) → S.link_shared ≡ false → SendsReply (begun (doing
        unit.old (S.state site.old) records)) (doing unit.new (S.state site.new) records)
        initialize }
{
    unit.moved = true;
    if let Some(initialize) = reply_of(unit.line.handshake.registered()) {
        let _next = put_reply(unit, site, initialize);
    }
}
