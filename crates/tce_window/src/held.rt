// A held range of a window: its pieces with the pages on which they lie, which are in the holder's hand.
ghost use Rattle.std.specs.Prelude.{◌≡◌, ℕ, ◌+◌, ◌++◌, ◌<◌, ◌≤◌, ◌==◌, All, Some, None, IsSome, OnOk, OnErr, length, if◌then◌else◌};
ghost use Rattle.std.specs.Option.{option_map};
ghost use Rattle.arrayvec.specs.ArrayVec.{array_vec_len};
ghost use Rattle.tce_window.specs.declared.held_pages.HeldPage.{HeldPage};
ghost use Rattle.tce_window.specs.Held.{held_strokes, strokes_of, either, held_len, joined, piece_bytes};
ghost use Rattle.tce_window.specs.Pieces.{on_page};
ghost use Rattle.tce_window.specs.Moved.{piece_strokes, strokes_on, stroke_count, numbered, Follows};
ghost use Rattle.tce_window.specs.Strokes.{with_strokes};
ghost use Rattle.tce_window.specs.Window.{strokes_at};

use crate::answers::Right;
use crate::held_pages::HeldPages;
use crate::laying::{lay, strokes_over};
use crate::piece::{MOST_PIECES, Piece};
use crate::reader::{Reader, strokes_from};
use arrayvec::ArrayVec;
use page_slots::{Stroke, StrokeName};
use std::alloc::Global;
use std::marker::Model;
use vio_num::NoMemory;

/// A held range of a window. Contracts see its right, its pieces and its pages. It must be given back.
#[derive(Debug)]
pub struct Held {
    pub(crate) alloc: Global,
    pub(crate) right: Right,
    pub(crate) pieces: ArrayVec<Piece, MOST_PIECES>,
    pub(crate) pages: HeldPages,
}

impl Model for Held {
    ghost use Rattle.std.specs.Prelude.{◌+◌, ◌≤◌, All, IsSome};
    ghost use Rattle.tce_window.specs.Held.{HeldValue, held_strokes};

    ghost Value = { HeldValue };

    ghost view = { λ held. record { right = held.right; pieces = held.pieces.items; pages = held.pages } };

    ghost invariant = { λ held. record {
      there : All (λ piece. IsSome (held_strokes held.pages piece.page)) held.pieces.items;
      some : All (λ piece. 1 ≤ piece.len) held.pieces.items;
    } };
}

impl Held {
    /// A range of these pieces, which is held for this right, with the pages on which they lie.
    pub fn of_pages(
        alloc: Global,
        right: Right,
        pieces: ArrayVec<Piece, MOST_PIECES>,
        pages: HeldPages,
    ) -> Held
        requires there { All (λ piece. IsSome (held_strokes pages piece.page)) pieces.items }
        requires some { All (λ piece. 1 ≤ piece.len) pieces.items }
        ensures { result ≡ record { right = right; pieces = pieces.items; pages = pages } }
    {
        Held {
            alloc,
            right,
            pieces,
            pages,
        }
    }

    /// The pages of the range, given away.
    pub fn into_pages(self) -> HeldPages
        ensures { result ≡ self.pages }
    {
        let Held {
            alloc: _,
            right: _,
            pieces: _,
            pages,
        } = self;
        pages
    }

    /// The pieces of the range, in the order of their addresses.
    pub fn pieces(&self) -> &[Piece]
        ensures pieces { result.now ≡ self.now.pieces }
        ensures there { All (λ piece. IsSome (held_strokes self.now.pages piece.page))
            self.now.pieces }
        ensures some { All (λ piece. 1 ≤ piece.len) self.now.pieces }
        ensures few { length result.now ≤ 17 }
    {
        self.pieces.as_slice()
    }

    /// Copies the bytes of the range, of which there are as many as `out` has.
    pub fn read(&self, out: &mut [u8])
        requires { length out.old ≡ held_len self.now.pieces }
        ensures { out.new ≡ joined self.now.pages self.now.pieces }
    {
        read_pieces(&self.pages, self.pieces.as_slice(), out);
    }

    /// Writes the bytes over the range, of which there are as many: for each piece one stroke of this name,
    /// whose place on its page is then the piece's `at`. Where memory runs out no page has another stroke.
    pub fn write(&mut self, name: StrokeName, bytes: &[u8]) -> Result<(), NoMemory>
        requires right { self.old.right ≡ Right.Write }
        requires len { length bytes.now ≡ held_len self.old.pieces }
        ensures strokes { OnOk result ((p : ℕ)
            → held_strokes self.new.pages p ≡ with_strokes
            (held_strokes self.old.pages p) (strokes_on p self.old.pieces (piece_strokes name bytes.now self.old.pieces))) }
        ensures pieces { OnOk result (self.new.pieces ≡ numbered
            (λ p. stroke_count (held_strokes self.old.pages p)) self.old.pieces) }
        ensures err { OnErr result ((p : ℕ)
            → held_strokes self.new.pages p ≡ held_strokes self.old.pages p) }
        ensures same { OnErr result (self.new.pieces ≡ self.old.pieces) }
        ensures follows { Follows self.old self.new }
    {
        let strokes = strokes_over(self.alloc, name, self.pieces.as_slice(), bytes)?;
        self.lay(strokes)
    }

    // Lays the strokes, one for each piece, whose `at` is then the place of its stroke. Where memory runs
    // out no page has another stroke.
    fn lay(&mut self, strokes: Vec<Stroke>) -> Result<(), NoMemory>
        requires count { length strokes.items ≡ length self.old.pieces }
        ensures strokes { OnOk result ((p : ℕ)
            → held_strokes self.new.pages p ≡ with_strokes
            (held_strokes self.old.pages p) (strokes_on p self.old.pieces strokes.items)) }
        ensures pieces { OnOk result (self.new.pieces ≡ numbered
            (λ p. stroke_count (held_strokes self.old.pages p)) self.old.pieces) }
        ensures err { OnErr result ((p : ℕ)
            → held_strokes self.new.pages p ≡ held_strokes self.old.pages p) }
        ensures same { OnErr result (self.new.pieces ≡ self.old.pieces) }
        ensures follows { Follows self.old self.new }
    {
        lay(&mut self.pages, self.pieces.as_mut_slice(), strokes)
    }

    /// Writes the bytes of the source's range over this one, which is as long: as `write` does, with no copy
    /// of the bytes between the pages and the strokes, which `alloc` makes.
    pub fn copy_from(
        &mut self,
        alloc: Global,
        name: StrokeName,
        source: &Held,
    ) -> Result<(), NoMemory>
        requires right { self.old.right ≡ Right.Write }
        requires len { held_len source.now.pieces ≡ held_len self.old.pieces }
        ensures strokes { OnOk result ((p : ℕ)
            → held_strokes self.new.pages p ≡ with_strokes
            (held_strokes self.old.pages p) (strokes_on p self.old.pieces
            (piece_strokes name (joined source.now.pages source.now.pieces) self.old.pieces))) }
        ensures bytes { OnOk result (length (joined source.now.pages source.now.pieces) ≡ held_len
            source.now.pieces) }
        ensures pieces { OnOk result (self.new.pieces ≡ numbered
            (λ p. stroke_count (held_strokes self.old.pages p)) self.old.pieces) }
        ensures err { OnErr result ((p : ℕ)
            → held_strokes self.new.pages p ≡ held_strokes self.old.pages p) }
        ensures same { OnErr result (self.new.pieces ≡ self.old.pieces) }
        ensures follows { Follows self.old self.new }
    {
        let mut reader = Reader::new(&source.pages, source.pieces.as_slice());
        let strokes = strokes_from(alloc, name, self.pieces.as_slice(), &mut reader)?;
        self.lay(strokes)
    }
}

// Copies the bytes of a piece.
fn read_piece(pages: &HeldPages, piece: &Piece, out: &mut [u8])
    requires there { IsSome (held_strokes pages.now piece.now.page) }
    requires len { length out.old ≡ piece.now.len }
    ensures { out.new ≡ piece_bytes pages.now piece.now }
{
    pages.page(piece.page).read(piece.offset, out);
}

// Copies the bytes of the pieces, one behind the other.
fn read_pieces(pages: &HeldPages, pieces: &[Piece], out: &mut [u8])
    requires there { All (λ piece. IsSome (held_strokes pages.now piece.page)) pieces.now }
    requires len { length out.old ≡ held_len pieces.now }
    ensures { out.new ≡ joined pages.now pieces.now }
{
    let mut done = 0;
    for piece in pieces {
        let end = done + piece.len as usize;
        read_piece(pages, piece, &mut out[done..end]);
        done = end;
    }
}
