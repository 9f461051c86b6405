// The row that a trace has of a frame.
ghost use Rattle.std.specs.Prelude.{◌≡◌, IfOk, map};
ghost use Rattle.lan_script.specs.Frames.{frame_row_of, offer_row_of, offered_as, piece_row_of};

use lan_buffers::Deliver;
use lan_switch::{Offer, SendRecord};
use std::alloc::Global;
use tce_window::Piece;
use vio_num::{NoMemory, Sequence, UnitId};
use vio_trace::{FrameRow, OfferRow, Offered, PieceRow};

// Makes the row of the sender's frame of this number.
pub(crate) fn frame_row(
    alloc: Global,
    unit: UnitId,
    number: u64,
    made: SendRecord,
) -> Result<FrameRow, NoMemory>
    ensures { IfOk result (λ row. row ≡ frame_row_of unit number made) }
{
    let SendRecord {
        code,
        frame: _,
        fault: _,
        from,
        bytes,
        offers,
    } = made;
    Ok(FrameRow {
        unit,
        number,
        code,
        from: piece_rows(alloc, from.as_slice())?,
        bytes,
        offers: offer_rows(alloc, unit, number, offers.as_slice())?,
    })
}

// Makes the rows of a frame's offers.
fn offer_rows(
    alloc: Global,
    unit: UnitId,
    number: u64,
    offers: &[Offer],
) -> Result<Sequence<OfferRow>, NoMemory>
    ensures { IfOk result (λ rows. rows ≡ map (offer_row_of unit number) offers.now) }
{
    let mut rows = Sequence::new(alloc);
    for offer in offers {
        rows.push(OfferRow {
            unit,
            number,
            port: offer.unit,
            offered: offered(offer.answer),
        })?;
    }
    Ok(rows)
}

// Says what became of a frame as a trace does.
fn offered(answer: Deliver) -> Offered
    ensures { result ≡ offered_as answer }
{
    match answer {
        Deliver::Done { post: _ } => Offered::Done,
        Deliver::Ungranted { post: _, fault: _ } => Offered::Ungranted,
        Deliver::NoSize => Offered::NoSize,
        Deliver::NoBuffer => Offered::NoBuffer,
        Deliver::Turn { word: _ } => Offered::Turn,
        Deliver::InUse { page: _, word: _ } => Offered::InUse,
        Deliver::Closed { control: _ } | Deliver::NoMemory => Offered::Closed,
    }
}

// Makes the rows of pieces.
pub(crate) fn piece_rows(alloc: Global, pieces: &[Piece]) -> Result<Sequence<PieceRow>, NoMemory>
    ensures { IfOk result (λ rows. rows ≡ map piece_row_of pieces.now) }
{
    let mut rows = Sequence::new(alloc);
    for piece in pieces {
        rows.push(piece_row(piece))?;
    }
    Ok(rows)
}

// Makes the row of a piece.
fn piece_row(piece: &Piece) -> PieceRow
    ensures { result ≡ piece_row_of piece.now }
{
    PieceRow {
        unit: piece.unit,
        entry: piece.entry,
        version: piece.version,
        page: piece.page,
        offset: piece.offset,
        len: piece.len,
        at: piece.at,
    }
}
