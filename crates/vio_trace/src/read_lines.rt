// The lines of a trace that are a row of their own, read.
ghost use Rattle.std.specs.Prelude.{◌≡◌, ◌++◌, ℕ, List, IfOk, MatchOption};
ghost use Rattle.vio_trace.specs.Form.{IsTceValueRow, IsStrokeRow, IsAnswerRow, IsServeRow, IsDropRow, IsOfferRow, IsPortRow, IsPostRow, IsHarvestRow};
ghost use Rattle.vio_trace.specs.Reading.{Finds, IsLine, Reads};
ghost use Rattle.vio_trace.specs.Text.{tce_text, stroke_text, answer_text, serve_text, drop_text, offer_text, port_text, post_text, harvest_text};

use crate::fields::{Fields, Last, Then};
use crate::lan_rows::{HarvestRow, OfferRow, Offered, PortRow, PostRow};
use crate::read_kinds::Digits;
use crate::read_words::are_same;
use crate::rows::{AnswerRow, DropRow};
use crate::unread::Unread;
use crate::window_rows::{StrokeRow, TceValueRow};
use std::alloc::Global;
use vio_num::{Bytes, NoMemory, Served, UnitId};

/// A kind of line that is a row of its own.
pub trait Line {
    /// What the line is the text of.
    type Row: Drop;

    ghost text: { Self.Row → List ℕ };

    ghost fits: { Self.Row → Type 0 };

    /// The row whose line this is, its end counted in.
    fn read(alloc: Global, line: &[u8]) -> Result<Self::Row, Unread>
        ensures { Reads text fits line.now result };

    /// The law that the text of each row is one line.
    fn is_one_line()
        ensures { (row : Self.Row) → fits row → IsLine (text row) };
}

/// What stands behind this front.
pub fn behind<'a>(line: &'a [u8], front: &[u8]) -> Option<&'a [u8]>
    ensures { MatchOption result ((rest : List ℕ) → ¬ (front.now ++ rest ≡ line.now))
        (λ rest. line.now ≡ front.now ++ rest.now) }
{
    if line.len() < front.len() {
        return None;
    }
    let (begin, rest) = line.split_at(front.len());
    if are_same(begin, front) {
        Some(rest)
    } else {
        None
    }
}

/// The words behind this front, which begins the line; None where the line is of no such words.
pub fn keyed<F: Fields>(alloc: Global, line: &[u8], front: &[u8]) -> Result<Option<F>, NoMemory>
    ensures { IfOk result (Finds (λ words. front.now ++ F.line words) F.fits line.now) }
{
    let Some(rest) = behind(line, front) else {
        return Ok(None);
    };
    match F::read(alloc, rest) {
        Ok(words) => Ok(Some(words)),
        Err(Unread::Bad) => Ok(None),
        Err(Unread::NoMemory) => Err(NoMemory),
    }
}

// The words of the line behind its first.
type TceFields = Then<UnitId, Then<u16, Then<u32, Last<Digits>>>>;

impl Line for TceValueRow {
    type Row = TceValueRow;

    ghost text = { tce_text };

    ghost fits = { IsTceValueRow };

    fn read(alloc: Global, line: &[u8]) -> Result<TceValueRow, Unread> {
        let Some(rest) = behind(line, b"tce ") else {
            return Err(Unread::Bad);
        };
        let fields = TceFields::read(alloc, rest)?;
        Ok(TceValueRow {
            unit: fields.word,
            entry: fields.rest.word,
            version: fields.rest.rest.word,
            value: fields.rest.rest.rest.word.value,
        })
    }

    fn is_one_line() {}
}

// The words of the line behind its first.
type StrokeFields = Then<
    UnitId,
    Then<u16, Then<u32, Then<UnitId, Then<u64, Then<u16, Last<Bytes>>>>>>,
>;

impl Line for StrokeRow {
    type Row = StrokeRow;

    ghost text = { stroke_text };

    ghost fits = { IsStrokeRow };

    fn read(alloc: Global, line: &[u8]) -> Result<StrokeRow, Unread> {
        let Some(rest) = behind(line, b"stroke ") else {
            return Err(Unread::Bad);
        };
        let fields = StrokeFields::read(alloc, rest)?;
        let Then { word: unit, rest } = fields;
        let Then { word: page, rest } = rest;
        let Then { word: place, rest } = rest;
        let Then { word: writer, rest } = rest;
        let Then { word: mark, rest } = rest;
        let Then { word: offset, rest } = rest;
        let Last { word: bytes } = rest;
        Ok(StrokeRow {
            unit,
            page,
            place,
            writer,
            mark,
            offset,
            bytes,
        })
    }

    fn is_one_line() {}
}

// The words of the line behind its first.
type AnswerFields = Then<UnitId, Then<u64, Then<u64, Last<Bytes>>>>;

impl Line for AnswerRow {
    type Row = AnswerRow;

    ghost text = { answer_text };

    ghost fits = { IsAnswerRow };

    fn read(alloc: Global, line: &[u8]) -> Result<AnswerRow, Unread> {
        let Some(rest) = behind(line, b"answer ") else {
            return Err(Unread::Bad);
        };
        let fields = AnswerFields::read(alloc, rest)?;
        let Then { word: unit, rest } = fields;
        let Then {
            word: session,
            rest,
        } = rest;
        let Then { word: tag, rest } = rest;
        let Last { word: answer } = rest;
        Ok(AnswerRow {
            unit,
            session,
            tag,
            answer,
        })
    }

    fn is_one_line() {}
}

// The words of the line behind its first.
type ServeFields = Then<
    UnitId,
    Then<
        u64,
        Then<u64, Then<u64, Then<Bytes, Then<Bytes, Then<Option<u32>, Then<Bytes, Last<Bytes>>>>>>>,
    >,
>;

impl Line for Served {
    type Row = Served;

    ghost text = { serve_text };

    ghost fits = { IsServeRow };

    fn read(alloc: Global, line: &[u8]) -> Result<Served, Unread> {
        let Some(rest) = behind(line, b"serve ") else {
            return Err(Unread::Bad);
        };
        let fields = ServeFields::read(alloc, rest)?;
        let Then { word: unit, rest } = fields;
        let Then {
            word: session,
            rest,
        } = rest;
        let Then { word: login, rest } = rest;
        let Then { word: number, rest } = rest;
        let Then { word: iu, rest } = rest;
        let Then { word: out, rest } = rest;
        let Then { word: fault, rest } = rest;
        let Then { word: answer, rest } = rest;
        let Last { word: inn } = rest;
        Ok(Served {
            unit,
            session,
            login,
            number,
            iu,
            out,
            fault,
            answer,
            inn,
        })
    }

    fn is_one_line() {}
}

// The words of the line behind its first.
type DropFields = Then<u64, Last<Digits>>;

impl Line for DropRow {
    type Row = DropRow;

    ghost text = { drop_text };

    ghost fits = { IsDropRow };

    fn read(alloc: Global, line: &[u8]) -> Result<DropRow, Unread> {
        let Some(rest) = behind(line, b"drop ") else {
            return Err(Unread::Bad);
        };
        let fields = DropFields::read(alloc, rest)?;
        Ok(DropRow {
            number: fields.word,
            held: fields.rest.word.value,
        })
    }

    fn is_one_line() {}
}

// The words of the line behind its first.
type OfferFields = Then<UnitId, Then<u64, Then<UnitId, Last<Offered>>>>;

impl Line for OfferRow {
    type Row = OfferRow;

    ghost text = { offer_text };

    ghost fits = { IsOfferRow };

    fn read(alloc: Global, line: &[u8]) -> Result<OfferRow, Unread> {
        let Some(rest) = behind(line, b"offer ") else {
            return Err(Unread::Bad);
        };
        let fields = OfferFields::read(alloc, rest)?;
        Ok(OfferRow {
            unit: fields.word,
            number: fields.rest.word,
            port: fields.rest.rest.word,
            offered: fields.rest.rest.rest.word,
        })
    }

    fn is_one_line() {}
}

// The words of the line behind its first.
type PortFields = Then<UnitId, Then<u64, Then<u32, Last<u64>>>>;

impl Line for PortRow {
    type Row = PortRow;

    ghost text = { port_text };

    ghost fits = { IsPortRow };

    fn read(alloc: Global, line: &[u8]) -> Result<PortRow, Unread> {
        let Some(rest) = behind(line, b"port ") else {
            return Err(Unread::Bad);
        };
        let fields = PortFields::read(alloc, rest)?;
        Ok(PortRow {
            unit: fields.word,
            session: fields.rest.word,
            slots: fields.rest.rest.word,
            drops: fields.rest.rest.rest.word,
        })
    }

    fn is_one_line() {}
}

// The words of the line behind its first.
type PostFields = Then<UnitId, Then<u64, Then<u64, Then<Digits, Last<Digits>>>>>;

impl Line for PostRow {
    type Row = PostRow;

    ghost text = { post_text };

    ghost fits = { IsPostRow };

    fn read(alloc: Global, line: &[u8]) -> Result<PostRow, Unread> {
        let Some(rest) = behind(line, b"post ") else {
            return Err(Unread::Bad);
        };
        let fields = PostFields::read(alloc, rest)?;
        Ok(PostRow {
            unit: fields.word,
            session: fields.rest.word,
            number: fields.rest.rest.word,
            descriptor: fields.rest.rest.rest.word.value,
            correlator: fields.rest.rest.rest.rest.word.value,
        })
    }

    fn is_one_line() {}
}

// The words of the line behind its first.
type HarvestFields = Then<UnitId, Then<u64, Then<Digits, Last<Digits>>>>;

impl Line for HarvestRow {
    type Row = HarvestRow;

    ghost text = { harvest_text };

    ghost fits = { IsHarvestRow };

    fn read(alloc: Global, line: &[u8]) -> Result<HarvestRow, Unread> {
        let Some(rest) = behind(line, b"harvest ") else {
            return Err(Unread::Bad);
        };
        let fields = HarvestFields::read(alloc, rest)?;
        Ok(HarvestRow {
            unit: fields.word,
            session: fields.rest.word,
            high: fields.rest.rest.word.value,
            low: fields.rest.rest.rest.word.value,
        })
    }

    fn is_one_line() {}
}
