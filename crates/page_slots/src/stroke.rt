// A stroke: one write to a page, with its writer's name.
ghost use Rattle.std.specs.Prelude.{◌≡◌, ◌+◌, ◌≤◌, length, IfOk};
ghost use Rattle.vio_num.specs.declared.TheConstants.{PAGE_BYTES};
ghost use Rattle.page_slots.specs.Stroke.{IsWithinPage, stroke_at};

use std::alloc::Global;
use std::marker::Model;
use vio_num::{Bytes, NoMemory, UnitId};

/// Who wrote a stroke, and the number under which the writer counts it.
#[derive(Clone, Copy, Debug, PartialEq, Eq)]
pub struct StrokeName {
    pub who: UnitId,
    pub mark: u64,
}

/// One write to a page: it ends at byte 4,096 of the page at most.
#[derive(Debug, Drop)]
pub struct Stroke {
    name: StrokeName,
    offset: u16,
    bytes: Bytes,
}

impl Model for Stroke {
    ghost use Rattle.page_slots.specs.Stroke.{StrokeValue, IsWithinPage};

    ghost Value = { StrokeValue };

    ghost view = { λ stroke. record { name = stroke.name; offset = stroke.offset; bytes = stroke.bytes } };

    ghost invariant = { λ stroke. IsWithinPage (record { name = stroke.name; offset = stroke.offset; bytes = stroke.bytes }) };
}

impl Stroke {
    /// A write of these bytes from `offset` on.
    pub fn new(
        alloc: Global,
        name: StrokeName,
        offset: u16,
        bytes: &[u8],
    ) -> Result<Stroke, NoMemory>
        requires { offset + length bytes.now ≤ PAGE_BYTES }
        ensures { IfOk result (λ stroke. stroke ≡ stroke_at name offset bytes.now) }
    {
        let bytes = Bytes::from_slice(alloc, bytes)?;
        Ok(Stroke::from_bytes(name, offset, bytes))
    }

    /// A write of bytes that were gathered before, from `offset` on. It takes no memory.
    pub fn from_bytes(name: StrokeName, offset: u16, bytes: Bytes) -> Stroke
        requires { offset + length bytes ≤ PAGE_BYTES }
        ensures { result ≡ stroke_at name offset bytes }
    {
        Stroke {
            name,
            offset,
            bytes,
        }
    }

    /// Who wrote it, and under which mark.
    pub fn name(&self) -> StrokeName
        ensures { result ≡ self.now.name }
    {
        self.name
    }

    /// The place of its first byte in the page, 0 to 4,096.
    pub fn offset(&self) -> u16
        ensures offset { result ≡ self.now.offset }
        ensures within { IsWithinPage self.now }
    {
        self.offset
    }

    /// What it writes.
    pub fn bytes(&self) -> &[u8]
        ensures bytes { result.now ≡ self.now.bytes }
        ensures within { IsWithinPage self.now }
    {
        self.bytes.as_slice()
    }

    /// What it writes, given away. It takes no memory.
    pub fn into_bytes(self) -> Bytes
        ensures { result ≡ self.bytes }
    {
        self.bytes
    }
}
