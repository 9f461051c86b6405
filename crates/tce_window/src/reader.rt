// Bytes of one held range gathered into the strokes of another: each is copied once, from its page into its
// stroke.
ghost use Rattle.std.specs.Prelude.{◌≡◌, ◌+◌, ◌++◌, ◌≤◌, All, Some, IsSome, IfOk, OnOk, length, map, take, drop};
ghost use Rattle.tce_window.specs.Held.{held_strokes, held_len, joined, piece_bytes};
ghost use Rattle.tce_window.specs.Moved.{piece_strokes};

use crate::held_pages::HeldPages;
use crate::piece::Piece;
use page_slots::{Stroke, StrokeName};
use std::alloc::Global;
use std::marker::Model;
use vio_num::{Bytes, NoMemory};

/// Held bytes, lent one part after another. Contracts see those that are left.
#[derive(Drop)]
pub(crate) struct Reader<'a> {
    pages: &'a HeldPages,
    pieces: &'a [Piece],
    part: &'a [u8],
}

impl<'a> Model for Reader<'a> {
    ghost use Rattle.std.specs.Prelude.{◌+◌, ◌++◌, ◌≤◌, All, IsSome, length};
    ghost use Rattle.tce_window.specs.Held.{held_strokes, held_len, joined};
    ghost use Rattle.tce_window.specs.Unread.{Unread};

    ghost Value = { Unread };

    ghost view = { λ reader. record {
      bytes = reader.part.now ++ joined reader.pages.now reader.pieces.now;
      len = length reader.part.now + held_len reader.pieces.now;
    } };

    ghost invariant = { λ reader. record {
      there : All (λ piece. IsSome (held_strokes reader.pages.now piece.page)) reader.pieces.now;
      some : All (λ piece. 1 ≤ piece.len) reader.pieces.now;
    } };
}

impl<'a> Reader<'a> {
    /// A reader of the bytes of these pieces.
    pub(crate) fn new(pages: &'a HeldPages, pieces: &'a [Piece]) -> Reader<'a>
        requires there { All (λ piece. IsSome (held_strokes pages.now piece.page)) pieces.now }
        requires some { All (λ piece. 1 ≤ piece.len) pieces.now }
        ensures bytes { result.bytes ≡ joined pages.now pieces.now }
        ensures len { result.len ≡ held_len pieces.now }
    {
        Reader {
            pages,
            pieces,
            part: &[],
        }
    }

    // Lends the next bytes, as many as lie in one piece and at most `most`.
    fn advance(&mut self, most: usize) -> &'a [u8]
        requires left { 1 ≤ self.old.len }
        requires most { 1 ≤ most }
        ensures bytes { self.old.bytes ≡ result.now ++ self.new.bytes }
        ensures len { self.old.len ≡ length result.now + self.new.len }
        ensures some { 1 ≤ length result.now }
        ensures most { length result.now ≤ most }
    {
        if self.part.is_empty() {
            self.part = part_of(self.pages, &self.pieces[0]);
            self.pieces = &self.pieces[1..];
        }
        let (front, rest) = self.part.split_at(most.min(self.part.len()));
        self.part = rest;
        front
    }

    // Copies the next `len` bytes.
    fn gather(&mut self, alloc: Global, len: usize) -> Result<Vec<u8>, NoMemory>
        requires { len ≤ self.old.len }
        ensures bytes { IfOk result (λ bytes. bytes.items ≡ take len self.old.bytes) }
        ensures count { IfOk result (λ bytes. length bytes.items ≡ len) }
        ensures rest { OnOk result (self.new.bytes ≡ drop len self.old.bytes) }
        ensures read { OnOk result (length self.old.bytes ≡ len + length self.new.bytes) }
        ensures left { OnOk result (self.old.len ≡ len + self.new.len) }
    {
        let mut bytes = Vec::with_capacity(alloc, len)?;
        while bytes.len() < len {
            let part = self.advance(len - bytes.len());
            bytes.extend_from_slice(part)?;
        }
        Ok(bytes)
    }
}

// Lends the bytes of the piece.
fn part_of<'a>(pages: &'a HeldPages, piece: &Piece) -> &'a [u8]
    requires there { IsSome (held_strokes pages.now piece.now.page) }
    ensures bytes { result.now ≡ piece_bytes pages.now piece.now }
    ensures len { length result.now ≡ piece.now.len }
{
    let start = piece.offset as usize;
    &pages.page(piece.page).bytes()[start..start + piece.len as usize]
}

/// The strokes of a write of the bytes that the reader has, one for each piece.
pub(crate) fn strokes_from(
    alloc: Global,
    name: StrokeName,
    pieces: &[Piece],
    reader: &mut Reader<'_>,
) -> Result<Vec<Stroke>, NoMemory>
    requires { reader.old.len ≡ held_len pieces.now }
    ensures strokes { IfOk result (λ strokes.
        strokes.items ≡ piece_strokes name reader.old.bytes pieces.now) }
    ensures read { OnOk result (held_len pieces.now ≤ length reader.old.bytes) }
{
    let mut strokes = Vec::with_capacity(alloc, pieces.len())?;
    for piece in pieces {
        let bytes = reader.gather(alloc, piece.len as usize)?;
        strokes.push(Stroke::from_bytes(name, piece.offset, Bytes::from(bytes)))?;
    }
    Ok(strokes)
}
