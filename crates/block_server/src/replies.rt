// Replies: entries that answer no request.
ghost use Rattle.block_server.specs.Doings.{SendsReply, doing};
ghost use Rattle.block_server.specs.Talk.{HasRoomFor, IsReplied, reach_of};
ghost use Rattle.std.specs.Prelude.{◌≡◌, ◌≢◌, ◌<◌, Some, false, true};
ghost use Rattle.block_server.specs.Advances.{Advances};
ghost use Rattle.block_server.specs.Books.{books_at};
ghost use Rattle.block_server.specs.Cargo.{cargo_of};
ghost use Rattle.block_server.specs.Entries.{IsPlain, MayPut};
ghost use Rattle.block_server.specs.Serving.{AnswersOnce, desk_of};
ghost use Rattle.block_server.specs.HeardOut.{HasNoRoom};
ghost use Rattle.block_server.specs.Judged.{Keeps};
ghost use Rattle.block_server.specs.Moves.{Passes};
ghost use Rattle.block_server.specs.Owed.{KeepsAnswers};
ghost use Rattle.block_server.specs.Receipts.{standing_of};
ghost use Rattle.block_server.specs.Refusals.{Explains, ledger_of};
ghost use Rattle.block_server.specs.Steps.{ComesOn, NoStage};
ghost use Rattle.block_server.specs.Turns.{IfQuiet};
ghost use Rattle.block_server.specs.Waits.{StaysAgreed};

use crate::intake::Next;
use crate::line::Kept;
use crate::records::Records;
use crate::site::Site;
use crate::unit::Unit;
use crq_session::SendAnswer;
use vio_num::Entry;

/// Puts an entry of the initialisation, or the answer to a datagram. It is kept where the client's queue is full,
/// and discarded where that is closed.
pub(crate) fn put_reply<S: Site>(unit: &mut Unit, site: &mut S, reply: Entry) -> Next
    requires room { 0 < (S.state site.old).queue.spare }
    requires may { MayPut reply }
    requires plain { IsPlain reply }
    ensures still { result ≢ Next.End → unit.new.line.kept ≡ unit.old.line.kept }
    ensures comes { ComesOn NoStage unit.old unit.new
        (S.state site.old).queue (S.state site.new).queue }
    ensures once { (records : Records) → AnswersOnce (desk_of unit.old) (desk_of unit.new)
        (S.state site.old).queue (S.state site.new).queue records records }
    ensures kept { result ≢ Next.Entry → unit.new.line.kept ≡ Some (Kept.Reply reply) }
    ensures full { S.link_shared ≡ false → result ≢ Next.Entry →
        HasNoRoom (S.state site.new).queue }
    ensures pending { unit.new.pending.items ≡ unit.old.pending.items }
    ensures quiet { IfQuiet unit.old unit.new (S.state site.old).queue (S.state site.new).queue }
    ensures agrees { StaysAgreed unit.old unit.new
        (S.state site.old).queue (S.state site.new).queue }
    ensures advances { Advances (S.state site.old) (S.state site.new) }
    ensures stands { standing_of unit.new ≡ standing_of unit.old }
    ensures passes { Passes (S.state site.old) (S.state site.new) }
    ensures books { (records : Records) → Keeps (books_at unit.old (S.state site.old) records)
        (books_at unit.new (S.state site.new) records) }
    ensures answers { (records : Records) → KeepsAnswers S.link_shared unit.old unit.new
        (S.state site.old) (S.state site.new) records records }
    ensures cargo { (records : Records) → cargo_of unit.new (S.state site.new) records ≡
        cargo_of unit.old (S.state site.old) records }
    ensures refuses { (records : Records) → Explains (ledger_of unit.old (S.state site.old) records)
        (ledger_of unit.new (S.state site.new) records) }
    ensures hears { S.link_shared ≡ false → (S.state site.old).queue.registered ≡ true →
        HasRoomFor (S.state site.old).queue 1 → (result ≡ Next.Entry) ×
        IsReplied unit.old unit.new
        (reach_of (S.state site.old)) (reach_of (S.state site.new)) reply }
    ensures event { (S.state site.new).queue.kept ≡ (S.state site.old).queue.kept }
    ensures service { unit.new.service ≡ unit.old.service }
    ensures aside { (records : Records) → S.link_shared ≡ false → SendsReply (doing unit.old
        (S.state site.old) records) (doing unit.new (S.state site.new) records) reply }
{
    match site.send(reply) {
        SendAnswer::Dropped { .. } => {
            unit.line.kept = Some(Kept::Reply(reply));
            Next::End
        }
        SendAnswer::Success { .. } => {
            unit.moved = true;
            Next::Entry
        }
        _ => Next::Entry,
    }
}
