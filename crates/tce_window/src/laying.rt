// Strokes laid on pages, one for each piece of a range. There is room for all of them before the first one is
// laid. A write of the owner and a copy between windows both lay their strokes so.
ghost use Rattle.std.specs.Prelude.{◌≡◌, ℕ, ◌+◌, ◌≤◌, ◌==◌, All, Some, IsSome, IfOk, OnOk, OnErr, [], ◌∷◌, Option, List, length, map, if◌then◌else◌};
ghost use Rattle.page_slots.specs.Stroke.{StrokeValue};
ghost use Rattle.tce_window.specs.Held.{held_len};
ghost use Rattle.tce_window.specs.Laying.{count_on, with_stroke, HaveRoom};
ghost use Rattle.tce_window.specs.Moved.{piece_strokes, strokes_on, stroke_count, numbered};
ghost use Rattle.tce_window.specs.Strokes.{with_strokes};

use crate::piece::Piece;
use page_slots::{Stroke, StrokeName};
use std::alloc::Global;
use vio_num::NoMemory;

/// Pages that are found by their numbers.
pub(crate) trait PageSet {
    // The strokes of the page of each number, if it is among these.
    ghost strokes: { Self → ℕ → Option (List StrokeValue) };

    // The strokes for which the page of each number has room.
    ghost room: { Self → ℕ → ℕ };

    // The number of places, taken or empty.
    ghost places: { Self → ℕ };

    /// Makes room for this many strokes on the page of this number.
    fn reserve(&mut self, number: u16, count: u32) -> Result<(), NoMemory>
        requires there { IsSome (strokes self.old number) }
        ensures room { OnOk result (count ≤ room self.new number) }
        ensures kept { (p : ℕ) → room self.old p ≤ room self.new p }
        ensures strokes { (p : ℕ) → strokes self.new p ≡ strokes self.old p }
        ensures places { places self.new ≡ places self.old };

    /// Writes the stroke on the page of this number, which has room for it, and gives its place there.
    fn write(&mut self, number: u16, stroke: Stroke) -> u32
        requires there { IsSome (strokes self.old number) }
        requires room { 1 ≤ room self.old number }
        ensures index { result ≡ stroke_count (strokes self.old number) }
        ensures strokes { (p : ℕ) → strokes self.new p ≡
            with_stroke number stroke p (strokes self.old p) }
        ensures room { (p : ℕ) → room self.old p ≡
            room self.new p + (if number == p then 1 else 0) }
        ensures places { places self.new ≡ places self.old };
}

/// The strokes of a write of these bytes, one for each piece.
pub(crate) fn strokes_over(
    alloc: Global,
    name: StrokeName,
    pieces: &[Piece],
    bytes: &[u8],
) -> Result<Vec<Stroke>, NoMemory>
    requires { length bytes.now ≡ held_len pieces.now }
    ensures { IfOk result (λ strokes. strokes.items ≡ piece_strokes name bytes.now pieces.now) }
{
    let mut strokes = Vec::with_capacity(alloc, pieces.len())?;
    let mut done = 0;
    for piece in pieces {
        let end = done + piece.len as usize;
        strokes.push(Stroke::new(alloc, name, piece.offset, &bytes[done..end])?)?;
        done = end;
    }
    Ok(strokes)
}

// Counts the pieces that lie on the page of this number.
fn count_on(pieces: &[Piece], number: u16) -> u32
    requires { length pieces.now ≤ 17 }
    ensures { result ≡ count_on number pieces.now }
{
    pieces.iter().filter(|piece| piece.page == number).count() as u32
}

// Makes room on the pages for a stroke for each piece.
fn make_room<P: PageSet>(pages: &mut P, pieces: &[Piece]) -> Result<(), NoMemory>
    requires few { length pieces.now ≤ 17 }
    requires there { All (λ piece. IsSome (P.strokes pages.old piece.page)) pieces.now }
    ensures room { OnOk result (HaveRoom pieces.now (P.room pages.new)) }
    ensures strokes { (p : ℕ) → P.strokes pages.new p ≡ P.strokes pages.old p }
    ensures places { P.places pages.new ≡ P.places pages.old }
{
    for piece in pieces {
        pages.reserve(piece.page, count_on(pieces, piece.page))?;
    }
    Ok(())
}

// Lays the strokes, one for each piece, whose `at` is then the place of its stroke on its page.
fn lay_strokes<P: PageSet>(pages: &mut P, pieces: &mut [Piece], strokes: Vec<Stroke>)
    requires there { All (λ piece. IsSome (P.strokes pages.old piece.page)) pieces.old }
    requires room { HaveRoom pieces.old (P.room pages.old) }
    requires count { length strokes.items ≡ length pieces.old }
    ensures strokes { (p : ℕ) → P.strokes pages.new p ≡ with_strokes
        (P.strokes pages.old p) (strokes_on p pieces.old strokes.items) }
    ensures pieces { pieces.new ≡ numbered (λ p. stroke_count (P.strokes pages.old p)) pieces.old }
    ensures places { P.places pages.new ≡ P.places pages.old }
{
    let mut place = 0;
    for stroke in strokes {
        let at = pages.write(pieces[place].page, stroke);
        pieces[place].set_place(at);
        place += 1;
    }
}

/// Lays the strokes, one for each piece, whose `at` is then the place of its stroke on its page. Where memory
/// runs out no page has another stroke.
pub(crate) fn lay<P: PageSet>(
    pages: &mut P,
    pieces: &mut [Piece],
    strokes: Vec<Stroke>,
) -> Result<(), NoMemory>
    requires few { length pieces.old ≤ 17 }
    requires there { All (λ piece. IsSome (P.strokes pages.old piece.page)) pieces.old }
    requires count { length strokes.items ≡ length pieces.old }
    ensures strokes { OnOk result ((p : ℕ) → P.strokes pages.new p ≡ with_strokes
        (P.strokes pages.old p) (strokes_on p pieces.old strokes.items)) }
    ensures pieces { OnOk result (pieces.new ≡ numbered
        (λ p. stroke_count (P.strokes pages.old p)) pieces.old) }
    ensures err { OnErr result ((p : ℕ) → P.strokes pages.new p ≡ P.strokes pages.old p) }
    ensures same { OnErr result (pieces.new ≡ pieces.old) }
    ensures places { P.places pages.new ≡ P.places pages.old }
{
    make_room(pages, pieces)?;
    lay_strokes(pages, pieces, strokes);
    Ok(())
}
