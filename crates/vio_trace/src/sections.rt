// The sections of a trace: what each row's lines are, and in which order the rows stand.
ghost use Rattle.std.specs.Prelude.{◌≡◌, ◌↔◌, ◌≤◌, ◌++◌, All, IfErr, IfOk, IsTrue, flat_map, length};
ghost use Rattle.vio_trace.specs.Form.{AnswerBefore, CopyBefore, DeliverBefore, FrameBefore, HarvestBefore, IsOfferOf, IsOfferRow, LogBefore, PortBefore, PostBefore, QueueBefore, StrokeBefore, TceValueBefore, UnitBefore};
ghost use Rattle.vio_trace.specs.Reading.{IsNamed, WhereBad};
ghost use Rattle.vio_trace.specs.Sections.{AnyBehind, NoOfferBehind, NoOfferOf};
ghost use Rattle.vio_trace.specs.Text.{offer_text};

use crate::lan_rows::{DeliverRow, FrameRow, HarvestRow, OfferRow, PortRow, PostRow};
use crate::read_forms::{FromLine, SentLine, ToLine, TookLine};
use crate::read_heads::{CopyHead, DeliverHead, FrameHead, QueueHead};
use crate::read_rows::{SectionRow, read_counted, read_line};
use crate::rows::{AnswerRow, DropRow, LogRow, QueueRow};
use crate::unread::Fault;
use crate::window_rows::{CopyRow, StrokeRow, TceValueRow};
use std::alloc::Global;
use vio_num::{Grant, Sequence, Served, UnitId};

// Whether a unit stands before another.
fn is_unit_before(a: UnitId, b: UnitId) -> bool
    ensures { IsTrue result ↔ UnitBefore a b }
{
    a.partition < b.partition || a.partition == b.partition && a.unit < b.unit
}

impl SectionRow for LogRow {
    ghost before = { LogBefore };

    ghost names_itself = { λ row. Unit {0} };

    ghost follows = { AnyBehind };

    ghost kind = { 1 };

    fn is_before(&self, next: &LogRow) -> bool {
        self.partition < next.partition || self.partition == next.partition && self.line < next.line
    }

    fn read(alloc: Global, text: &[u8]) -> Result<(LogRow, &[u8]), Fault> {
        read_line::<LogRow>(alloc, text)
    }

    fn read_first(alloc: Global, text: &[u8]) -> Result<LogRow, Fault> {
        Ok(read_line::<LogRow>(alloc, text)?.0)
    }

    fn keeps_apart() {}
}

impl SectionRow for Grant {
    ghost before = { λ a b. Unit {0} };

    ghost names_itself = { λ row. Unit {0} };

    ghost follows = { AnyBehind };

    ghost kind = { 3 };

    fn is_before(&self, _next: &Grant) -> bool {
        true
    }

    fn read(alloc: Global, text: &[u8]) -> Result<(Grant, &[u8]), Fault> {
        read_line::<Grant>(alloc, text)
    }

    fn read_first(alloc: Global, text: &[u8]) -> Result<Grant, Fault> {
        Ok(read_line::<Grant>(alloc, text)?.0)
    }

    fn keeps_apart() {}
}

impl SectionRow for Served {
    ghost before = { λ a b. Unit {0} };

    ghost names_itself = { λ row. Unit {0} };

    ghost follows = { AnyBehind };

    ghost kind = { 4 };

    fn is_before(&self, _next: &Served) -> bool {
        true
    }

    fn read(alloc: Global, text: &[u8]) -> Result<(Served, &[u8]), Fault> {
        read_line::<Served>(alloc, text)
    }

    fn read_first(alloc: Global, text: &[u8]) -> Result<Served, Fault> {
        Ok(read_line::<Served>(alloc, text)?.0)
    }

    fn keeps_apart() {}
}

impl SectionRow for AnswerRow {
    ghost before = { AnswerBefore };

    ghost names_itself = { λ row. Unit {0} };

    ghost follows = { AnyBehind };

    ghost kind = { 5 };

    fn is_before(&self, next: &AnswerRow) -> bool {
        is_unit_before(self.unit, next.unit) || self.unit == next.unit
    }

    fn read(alloc: Global, text: &[u8]) -> Result<(AnswerRow, &[u8]), Fault> {
        read_line::<AnswerRow>(alloc, text)
    }

    fn read_first(alloc: Global, text: &[u8]) -> Result<AnswerRow, Fault> {
        Ok(read_line::<AnswerRow>(alloc, text)?.0)
    }

    fn keeps_apart() {}
}

impl SectionRow for PortRow {
    ghost before = { PortBefore };

    ghost names_itself = { λ row. Unit {0} };

    ghost follows = { AnyBehind };

    ghost kind = { 7 };

    fn is_before(&self, next: &PortRow) -> bool {
        is_unit_before(self.unit, next.unit)
            || self.unit == next.unit && self.session < next.session
    }

    fn read(alloc: Global, text: &[u8]) -> Result<(PortRow, &[u8]), Fault> {
        read_line::<PortRow>(alloc, text)
    }

    fn read_first(alloc: Global, text: &[u8]) -> Result<PortRow, Fault> {
        Ok(read_line::<PortRow>(alloc, text)?.0)
    }

    fn keeps_apart() {}
}

impl SectionRow for PostRow {
    ghost before = { PostBefore };

    ghost names_itself = { λ row. Unit {0} };

    ghost follows = { AnyBehind };

    ghost kind = { 8 };

    fn is_before(&self, next: &PostRow) -> bool {
        is_unit_before(self.unit, next.unit)
            || self.unit == next.unit
                && (self.session < next.session
                    || self.session == next.session && self.number < next.number)
    }

    fn read(alloc: Global, text: &[u8]) -> Result<(PostRow, &[u8]), Fault> {
        read_line::<PostRow>(alloc, text)
    }

    fn read_first(alloc: Global, text: &[u8]) -> Result<PostRow, Fault> {
        Ok(read_line::<PostRow>(alloc, text)?.0)
    }

    fn keeps_apart() {}
}

impl SectionRow for HarvestRow {
    ghost before = { HarvestBefore };

    ghost names_itself = { λ row. Unit {0} };

    ghost follows = { AnyBehind };

    ghost kind = { 10 };

    fn is_before(&self, next: &HarvestRow) -> bool {
        is_unit_before(self.unit, next.unit)
            || self.unit == next.unit && self.session <= next.session
    }

    fn read(alloc: Global, text: &[u8]) -> Result<(HarvestRow, &[u8]), Fault> {
        read_line::<HarvestRow>(alloc, text)
    }

    fn read_first(alloc: Global, text: &[u8]) -> Result<HarvestRow, Fault> {
        Ok(read_line::<HarvestRow>(alloc, text)?.0)
    }

    fn keeps_apart() {}
}

impl SectionRow for TceValueRow {
    ghost before = { TceValueBefore };

    ghost names_itself = { λ row. Unit {0} };

    ghost follows = { AnyBehind };

    ghost kind = { 11 };

    fn is_before(&self, next: &TceValueRow) -> bool {
        is_unit_before(self.unit, next.unit)
            || self.unit == next.unit
                && (self.entry < next.entry
                    || self.entry == next.entry && self.version < next.version)
    }

    fn read(alloc: Global, text: &[u8]) -> Result<(TceValueRow, &[u8]), Fault> {
        read_line::<TceValueRow>(alloc, text)
    }

    fn read_first(alloc: Global, text: &[u8]) -> Result<TceValueRow, Fault> {
        Ok(read_line::<TceValueRow>(alloc, text)?.0)
    }

    fn keeps_apart() {}
}

impl SectionRow for StrokeRow {
    ghost before = { StrokeBefore };

    ghost names_itself = { λ row. Unit {0} };

    ghost follows = { AnyBehind };

    ghost kind = { 13 };

    fn is_before(&self, next: &StrokeRow) -> bool {
        is_unit_before(self.unit, next.unit)
            || self.unit == next.unit
                && (self.page < next.page || self.page == next.page && self.place < next.place)
    }

    fn read(alloc: Global, text: &[u8]) -> Result<(StrokeRow, &[u8]), Fault> {
        read_line::<StrokeRow>(alloc, text)
    }

    fn read_first(alloc: Global, text: &[u8]) -> Result<StrokeRow, Fault> {
        Ok(read_line::<StrokeRow>(alloc, text)?.0)
    }

    fn keeps_apart() {}
}

impl SectionRow for QueueRow {
    ghost before = { QueueBefore };

    ghost names_itself = { λ row. Unit {0} };

    ghost follows = { AnyBehind };

    ghost kind = { 2 };

    fn is_before(&self, next: &QueueRow) -> bool {
        is_unit_before(self.unit, next.unit)
            || self.unit == next.unit && self.session < next.session
    }

    fn read(alloc: Global, text: &[u8]) -> Result<(QueueRow, &[u8]), Fault> {
        let (head, rest) = read_line::<QueueHead>(alloc, text)?;
        let (sent, rest) = read_counted::<SentLine>(alloc, head.sent, rest)?;
        let (taken, rest) = read_counted::<TookLine>(alloc, head.taken, rest)?;
        let (drops, rest) = read_counted::<DropRow>(alloc, head.drops, rest)?;
        let row = QueueRow {
            unit: head.unit,
            session: head.session,
            slots: head.slots,
            sent,
            taken,
            drops,
        };
        Ok((row, rest))
    }

    fn read_first(alloc: Global, text: &[u8]) -> Result<QueueRow, Fault> {
        let (head, _) = read_line::<QueueHead>(alloc, text)?;
        Ok(QueueRow {
            unit: head.unit,
            session: head.session,
            slots: head.slots,
            sent: Sequence::new(alloc),
            taken: Sequence::new(alloc),
            drops: Sequence::new(alloc),
        })
    }

    fn keeps_apart() {}
}

impl SectionRow for DeliverRow {
    ghost before = { DeliverBefore };

    ghost names_itself = { λ row. Unit {0} };

    ghost follows = { AnyBehind };

    ghost kind = { 9 };

    fn is_before(&self, next: &DeliverRow) -> bool {
        is_unit_before(self.unit, next.unit)
            || self.unit == next.unit && self.session <= next.session
    }

    fn read(alloc: Global, text: &[u8]) -> Result<(DeliverRow, &[u8]), Fault> {
        let (head, rest) = read_line::<DeliverHead>(alloc, text)?;
        let (to, rest) = read_counted::<ToLine>(alloc, head.to, rest)?;
        let row = DeliverRow {
            unit: head.unit,
            session: head.session,
            post: head.post,
            sender: head.sender,
            frame: head.frame,
            filled: head.filled,
            to,
        };
        Ok((row, rest))
    }

    fn read_first(alloc: Global, text: &[u8]) -> Result<DeliverRow, Fault> {
        let (head, _) = read_line::<DeliverHead>(alloc, text)?;
        Ok(DeliverRow {
            unit: head.unit,
            session: head.session,
            post: head.post,
            sender: head.sender,
            frame: head.frame,
            filled: head.filled,
            to: Sequence::new(alloc),
        })
    }

    fn keeps_apart() {}
}

impl SectionRow for CopyRow {
    ghost before = { CopyBefore };

    ghost names_itself = { λ row. Unit {0} };

    ghost follows = { AnyBehind };

    ghost kind = { 12 };

    fn is_before(&self, next: &CopyRow) -> bool {
        is_unit_before(self.unit, next.unit) || self.unit == next.unit
    }

    fn read(alloc: Global, text: &[u8]) -> Result<(CopyRow, &[u8]), Fault> {
        let (head, rest) = read_line::<CopyHead>(alloc, text)?;
        let (from, rest) = read_counted::<FromLine>(alloc, head.from, rest)?;
        let (to, rest) = read_counted::<ToLine>(alloc, head.to, rest)?;
        let row = CopyRow {
            unit: head.unit,
            mark: head.mark,
            len: head.len,
            from,
            to,
        };
        Ok((row, rest))
    }

    fn read_first(alloc: Global, text: &[u8]) -> Result<CopyRow, Fault> {
        let (head, _) = read_line::<CopyHead>(alloc, text)?;
        Ok(CopyRow {
            unit: head.unit,
            mark: head.mark,
            len: head.len,
            from: Sequence::new(alloc),
            to: Sequence::new(alloc),
        })
    }

    fn keeps_apart() {}
}

impl SectionRow for FrameRow {
    ghost before = { FrameBefore };

    ghost names_itself = { λ frame. All (IsOfferOf frame) frame.offers };

    ghost follows = { NoOfferBehind };

    ghost kind = { 6 };

    fn is_before(&self, next: &FrameRow) -> bool {
        is_unit_before(self.unit, next.unit) || self.unit == next.unit && self.number < next.number
    }

    fn read(alloc: Global, text: &[u8]) -> Result<(FrameRow, &[u8]), Fault> {
        let (head, rest) = read_line::<FrameHead>(alloc, text)?;
        let (from, rest) = read_counted::<FromLine>(alloc, head.from, rest)?;
        let (offers, rest) = read_offers(alloc, head.unit, head.number, rest)?;
        let row = FrameRow {
            unit: head.unit,
            number: head.number,
            code: head.code,
            from,
            bytes: head.bytes,
            offers,
        };
        Ok((row, rest))
    }

    fn read_first(alloc: Global, text: &[u8]) -> Result<FrameRow, Fault> {
        let (head, _) = read_line::<FrameHead>(alloc, text)?;
        Ok(FrameRow {
            unit: head.unit,
            number: head.number,
            code: head.code,
            from: Sequence::new(alloc),
            bytes: head.bytes,
            offers: Sequence::new(alloc),
        })
    }

    fn keeps_apart() {}
}

// Reads the offers of a frame, and what is behind them.
fn read_offers(
    alloc: Global,
    unit: UnitId,
    number: u64,
    text: &[u8],
) -> Result<(Sequence<OfferRow>, &[u8]), Fault>
    ensures rows { IfOk result (λ read. All IsOfferRow read.0
        × (text.now ≡ flat_map offer_text read.0 ++ read.1.now)) }
    ensures frame { IfOk result (λ read. All (IsNamed unit number) read.0) }
    ensures behind { IfOk result (λ read. NoOfferOf unit number read.1.now) }
    ensures refused { IfErr result (λ fault. WhereBad fault ⊥) }
    ensures shorter { IfOk result (λ read. length read.1.now ≤ length text.now) }
{
    let mut offers = Sequence::new(alloc);
    let mut rest = text;
    loop {
        match read_line::<OfferRow>(alloc, rest) {
            Ok((offer, behind)) => {
                if is_of_frame(offer, unit, number) {
                    offers.push(offer)?;
                    rest = behind;
                } else {
                    return Ok((offers, rest));
                }
            }
            Err(Fault::Bad(_)) => return Ok((offers, rest)),
            Err(Fault::NoMemory) => return Err(Fault::NoMemory),
        }
    }
}

// Whether the offer names this frame.
fn is_of_frame(offer: OfferRow, unit: UnitId, number: u64) -> bool
    ensures unit { IsTrue result → offer.unit ≡ unit }
    ensures number { IsTrue result → offer.number ≡ number }
    ensures other { (offer.unit ≡ unit) → (offer.number ≡ number) → IsTrue result }
{
    offer.unit == unit && offer.number == number
}
