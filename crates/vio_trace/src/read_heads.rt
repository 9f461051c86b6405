// The first lines of rows that have lines below: the numbers of these stand in place of the lists.
ghost use Rattle.vio_trace.specs.Heads.{copy_head, deliver_head, frame_head, queue_head, IsCopyHead, IsDeliverHead, IsFrameHead, IsQueueHead};

use crate::fields::{Fields, Last, Then};
use crate::lan_rows::Filled;
use crate::read_lines::{Line, behind};
use crate::unread::Unread;
use std::alloc::Global;
use vio_num::{Bytes, Hrc, UnitId};

/// A session, without the lines below it.
#[derive(Drop)]
pub struct QueueHead {
    pub unit: UnitId,
    pub session: u64,
    pub slots: u32,
    pub sent: u64,
    pub taken: u64,
    pub drops: u64,
}

// The words of the line behind its first.
type QueueHeadFields = Then<UnitId, Then<u64, Then<u32, Then<u64, Then<u64, Last<u64>>>>>>;

impl Line for QueueHead {
    type Row = QueueHead;

    ghost text = { queue_head };

    ghost fits = { IsQueueHead };

    fn read(alloc: Global, line: &[u8]) -> Result<QueueHead, Unread> {
        let Some(rest) = behind(line, b"queue ") else {
            return Err(Unread::Bad);
        };
        let fields = QueueHeadFields::read(alloc, rest)?;
        Ok(QueueHead {
            unit: fields.word,
            session: fields.rest.word,
            slots: fields.rest.rest.word,
            sent: fields.rest.rest.rest.word,
            taken: fields.rest.rest.rest.rest.word,
            drops: fields.rest.rest.rest.rest.rest.word,
        })
    }

    fn is_one_line() {}
}

/// A frame, without the lines below it.
#[derive(Drop)]
pub struct FrameHead {
    pub unit: UnitId,
    pub number: u64,
    pub code: Hrc,
    pub from: u64,
    pub bytes: Bytes,
}

// The words of the line behind its first.
type FrameHeadFields = Then<UnitId, Then<u64, Then<Hrc, Then<u64, Last<Bytes>>>>>;

impl Line for FrameHead {
    type Row = FrameHead;

    ghost text = { frame_head };

    ghost fits = { IsFrameHead };

    fn read(alloc: Global, line: &[u8]) -> Result<FrameHead, Unread> {
        let Some(rest) = behind(line, b"frame ") else {
            return Err(Unread::Bad);
        };
        let fields = FrameHeadFields::read(alloc, rest)?;
        let Then { word: unit, rest } = fields;
        let Then { word: number, rest } = rest;
        let Then { word: code, rest } = rest;
        let Then { word: from, rest } = rest;
        let Last { word: bytes } = rest;
        Ok(FrameHead {
            unit,
            number,
            code,
            from,
            bytes,
        })
    }

    fn is_one_line() {}
}

/// A delivery, without the lines below it.
#[derive(Drop)]
pub struct DeliverHead {
    pub unit: UnitId,
    pub session: u64,
    pub post: u64,
    pub sender: UnitId,
    pub frame: u64,
    pub filled: Filled,
    pub to: u64,
}

// The words of the line behind its first.
type DeliverHeadFields = Then<
    UnitId,
    Then<u64, Then<u64, Then<UnitId, Then<u64, Then<Filled, Last<u64>>>>>>,
>;

impl Line for DeliverHead {
    type Row = DeliverHead;

    ghost text = { deliver_head };

    ghost fits = { IsDeliverHead };

    fn read(alloc: Global, line: &[u8]) -> Result<DeliverHead, Unread> {
        let Some(rest) = behind(line, b"deliver ") else {
            return Err(Unread::Bad);
        };
        let fields = DeliverHeadFields::read(alloc, rest)?;
        Ok(DeliverHead {
            unit: fields.word,
            session: fields.rest.word,
            post: fields.rest.rest.word,
            sender: fields.rest.rest.rest.word,
            frame: fields.rest.rest.rest.rest.word,
            filled: fields.rest.rest.rest.rest.rest.word,
            to: fields.rest.rest.rest.rest.rest.rest.word,
        })
    }

    fn is_one_line() {}
}

/// A copy, without the lines below it.
#[derive(Drop)]
pub struct CopyHead {
    pub unit: UnitId,
    pub mark: u64,
    pub len: u32,
    pub from: u64,
    pub to: u64,
}

// The words of the line behind its first.
type CopyHeadFields = Then<UnitId, Then<u64, Then<u32, Then<u64, Last<u64>>>>>;

impl Line for CopyHead {
    type Row = CopyHead;

    ghost text = { copy_head };

    ghost fits = { IsCopyHead };

    fn read(alloc: Global, line: &[u8]) -> Result<CopyHead, Unread> {
        let Some(rest) = behind(line, b"copy ") else {
            return Err(Unread::Bad);
        };
        let fields = CopyHeadFields::read(alloc, rest)?;
        Ok(CopyHead {
            unit: fields.word,
            mark: fields.rest.word,
            len: fields.rest.rest.word,
            from: fields.rest.rest.rest.word,
            to: fields.rest.rest.rest.rest.word,
        })
    }

    fn is_one_line() {}
}
