// The pieces of a range with their places among the strokes of their pages, and without.
ghost use Rattle.std.specs.Prelude.{◌≡◌, ◌≤◌, All, IsSome, length, map};
ghost use Rattle.tce_window.specs.Moved.{unplaced};
ghost use Rattle.tce_window.specs.Pieces.{HasStrokes};
ghost use Rattle.tce_window.specs.Window.{strokes_at};

use arrayvec::ArrayVec;
use tce_window::{MOST_PIECES, Piece, Region};

// Gives the piece the number of strokes on its page.
fn placed(region: &Region, piece: &Piece) -> Piece
    requires { IsSome (strokes_at region.now piece.now.page) }
    ensures strokes { HasStrokes result (strokes_at region.now piece.now.page) }
    ensures rest { unplaced result ≡ unplaced piece.now }
{
    let mut placed = *piece;
    placed.set_place(region.page(piece.page as usize).strokes().len() as u32);
    placed
}

/// The pieces, each with the number of strokes on its page, which is in the region.
pub(crate) fn place_pieces(region: &Region, pieces: &[Piece]) -> ArrayVec<Piece, MOST_PIECES>
    requires few { length pieces.now ≤ 17 }
    requires there { All (λ piece. IsSome (strokes_at region.now piece.page)) pieces.now }
    ensures strokes { All (λ piece. HasStrokes piece (strokes_at region.now piece.page))
        result.items }
    ensures rest { map unplaced result.items ≡ map unplaced pieces.now }
{
    let mut list = ArrayVec::new();
    for piece in pieces {
        list.push(placed(region, piece));
    }
    list
}

// Gives the piece no place among strokes.
fn without_place(piece: &Piece) -> Piece
    ensures { result ≡ unplaced piece.now }
{
    let mut plain = *piece;
    plain.set_place(0);
    plain
}

/// The pieces, each with no place among strokes.
pub(crate) fn unplaced_pieces(pieces: &[Piece]) -> ArrayVec<Piece, MOST_PIECES>
    requires few { length pieces.now ≤ 17 }
    ensures { result.items ≡ map unplaced pieces.now }
{
    let mut list = ArrayVec::new();
    for piece in pieces {
        list.push(without_place(piece));
    }
    list
}
