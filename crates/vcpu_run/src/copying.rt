// The copies of a server unit, as a trace shows them.
ghost use Rattle.std.specs.Prelude.{◌≡◌, ◌++◌, IfOk, OnOk, map};
ghost use Rattle.vcpu_run.specs.CopyRows.{copies_by, copy_row, piece_row, same_unit};

use rdma_copy::CopyRecord;
use std::alloc::Global;
use tce_window::Piece;
use vio_num::{NoMemory, Sequence, UnitId};
use vio_trace::{CopyRow, PieceRow};

/// Adds the copies that this unit made, in the order of time.
pub(crate) fn put_copies(
    alloc: Global,
    rows: &mut Vec<CopyRow>,
    unit: UnitId,
    copies: &[CopyRecord],
) -> Result<(), NoMemory>
    ensures { OnOk result (rows.new.items ≡ rows.old.items ++ copies_by unit copies.now) }
{
    for copy in copies {
        if is_by(copy, unit) {
            rows.push(row_of(alloc, copy)?)?;
        }
    }
    Ok(())
}

// Tells whether this unit made the copy.
fn is_by(copy: &CopyRecord, unit: UnitId) -> bool
    ensures { result ≡ same_unit copy.now.name.who unit }
{
    copy.name.who == unit
}

// Makes the row of a copy.
fn row_of(alloc: Global, copy: &CopyRecord) -> Result<CopyRow, NoMemory>
    ensures { IfOk result (λ row. row ≡ copy_row copy.now) }
{
    Ok(CopyRow {
        unit: copy.name.who,
        mark: copy.name.mark,
        len: copy.len,
        from: piece_rows(alloc, &copy.from)?,
        to: piece_rows(alloc, &copy.to)?,
    })
}

// Makes the rows of pieces.
fn piece_rows(alloc: Global, pieces: &[Piece]) -> Result<Sequence<PieceRow>, NoMemory>
    ensures { IfOk result (λ rows. rows ≡ map piece_row pieces.now) }
{
    let mut rows = Sequence::new(alloc);
    for piece in pieces {
        rows.push(row_of_piece(piece))?;
    }
    Ok(rows)
}

// Makes the row of a piece.
fn row_of_piece(piece: &Piece) -> PieceRow
    ensures { result ≡ piece_row piece.now }
{
    PieceRow {
        unit: piece.unit,
        entry: piece.entry,
        version: piece.version,
        page: piece.page,
        offset: piece.offset,
        len: piece.len,
        at: piece.at,
    }
}
