// The lines of what windows and their pages keep.
ghost use Rattle.std.specs.Prelude.{◌≡◌, ◌++◌, All, OnOk, flat_map};
ghost use Rattle.vio_trace.specs.Form.{IsTceValueRow, IsPieceRow, IsCopyLine, IsCopyRow, IsStrokeRow};
ghost use Rattle.vio_trace.specs.Text.{tce_text, piece_text, copy_line, copy_text, stroke_text};

use crate::fitting::{bytes_fit, name_fits, pieces_fit};
use crate::lines::Lines;
use crate::window_rows::{CopyRow, PieceRow, StrokeRow, TceValueRow};
use crate::words::{put, put_bytes, put_digits, put_head, put_name, put_number};
use vio_num::NoMemory;

impl Lines for TceValueRow {
    ghost text = { tce_text };

    ghost in_range = { IsTceValueRow };

    fn put(&self, buffer: &mut Vec<u8>) -> Result<(), NoMemory> {
        put_head(buffer, b"tce", self.unit, u64::from(self.entry))?;
        put_number(buffer, u64::from(self.version))?;
        put_digits(buffer, self.value)?;
        put(buffer, b"\n")
    }

    fn fits(&self) {
        name_fits(self.unit);
        let _entry = self.entry;
        let _version = self.version;
        let _value = self.value;
    }
}

/// A line of this first word for each piece.
pub fn put_pieces(buffer: &mut Vec<u8>, word: &[u8], pieces: &[PieceRow]) -> Result<(), NoMemory>
    ensures { OnOk result (buffer.new.items ≡
        buffer.old.items ++ flat_map (piece_text word.now) pieces.now) }
{
    for piece in pieces {
        put_piece_line(buffer, word, *piece)?;
    }
    Ok(())
}

// Writes the line of a piece.
fn put_piece_line(buffer: &mut Vec<u8>, word: &[u8], piece: PieceRow) -> Result<(), NoMemory>
    ensures { OnOk result (buffer.new.items ≡ buffer.old.items ++ piece_text word.now piece) }
{
    put_head(buffer, word, piece.unit, u64::from(piece.entry))?;
    put_number(buffer, u64::from(piece.version))?;
    put_number(buffer, u64::from(piece.page))?;
    put_number(buffer, u64::from(piece.offset))?;
    put_number(buffer, u64::from(piece.len))?;
    put_number(buffer, u64::from(piece.at))?;
    put(buffer, b"\n")
}

// Writes the first line of a copy.
fn put_copy_line(buffer: &mut Vec<u8>, row: &CopyRow) -> Result<(), NoMemory>
    ensures { OnOk result (buffer.new.items ≡ buffer.old.items ++ copy_line row.now) }
{
    put_head(buffer, b"copy", row.unit, row.mark)?;
    put_number(buffer, u64::from(row.len))?;
    put_number(buffer, row.from.len() as u64)?;
    put_number(buffer, row.to.len() as u64)?;
    put(buffer, b"\n")
}

impl Lines for CopyRow {
    ghost text = { copy_text };

    ghost in_range = { IsCopyRow };

    fn put(&self, buffer: &mut Vec<u8>) -> Result<(), NoMemory> {
        put_copy_line(buffer, self)?;
        put_pieces(buffer, b"from", self.from.as_slice())?;
        put_pieces(buffer, b"to", self.to.as_slice())
    }

    fn fits(&self) {
        name_fits(self.unit);
        let _mark = self.mark;
        let _len_len = self.len;
        let _from_len = self.from.len();
        let _to_len = self.to.len();
        pieces_fit(self.from.as_slice());
        pieces_fit(self.to.as_slice());
    }
}

impl Lines for StrokeRow {
    ghost text = { stroke_text };

    ghost in_range = { IsStrokeRow };

    fn put(&self, buffer: &mut Vec<u8>) -> Result<(), NoMemory> {
        put_head(buffer, b"stroke", self.unit, u64::from(self.page))?;
        put_number(buffer, u64::from(self.place))?;
        put_name(buffer, self.writer)?;
        put_number(buffer, self.mark)?;
        put_number(buffer, u64::from(self.offset))?;
        put_bytes(buffer, &self.bytes)?;
        put(buffer, b"\n")
    }

    fn fits(&self) {
        name_fits(self.unit);
        name_fits(self.writer);
        let _page = self.page;
        let _place = self.place;
        let _mark = self.mark;
        let _offset = self.offset;
        bytes_fit(self.bytes.as_slice());
    }
}
