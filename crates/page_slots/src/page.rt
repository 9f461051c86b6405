// A page: 4,096 bytes, kept beside the list of strokes that made them.
ghost use Rattle.std.specs.Prelude.{◌≡◌, ℕ, [], ◌∷◌, ◌++◌, ◌+◌, ◌^◌, ◌<◌, ◌≤◌, max, length, take, drop, IsOk, IsErr, IfOk, OnOk, OnErr};
ghost use Rattle.vio_num.specs.declared.TheConstants.{PAGE_BYTES};
ghost use Rattle.page_slots.specs.Page.{left_by, replaced, AreWithinPage};

use crate::stroke::Stroke;
use std::alloc::Global;
use std::marker::Model;
use vio_num::{NoMemory, PAGE_BYTES};

/// A page of 4,096 bytes. Contracts see its strokes and the number spare; the bytes are those that the
/// strokes leave, in order, on zeros.
#[derive(Debug, Drop)]
pub struct Page {
    bytes: Vec<u8>,
    strokes: Vec<Stroke>,
    spare: u32,
}

impl Model for Page {
    ghost use Rattle.std.specs.Prelude.{◌≡◌, ◌+◌, ◌^◌, ◌<◌, ◌≤◌, length, vec_capacity, vec_len};
    ghost use Rattle.page_slots.specs.Page.{PageValue, left_by, AreWithinPage};
    ghost use Rattle.vio_num.specs.declared.TheConstants.{PAGE_BYTES};

    ghost Value = { PageValue };

    ghost view = { λ page. record { strokes = page.strokes.items; spare = page.spare } };

    ghost invariant = { λ page. record {
      kept : page.bytes.items ≡ left_by page.strokes.items;
      size : vec_len page.bytes ≡ PAGE_BYTES;
      room : vec_len page.strokes + page.spare ≤ vec_capacity page.strokes;
      few : vec_len page.strokes + page.spare < 2 ^ 32;
      within : AreWithinPage page.strokes.items;
    } };
}

impl Page {
    /// A page of zeros, with no stroke and none spare.
    pub fn zero(alloc: Global) -> Result<Page, NoMemory>
        ensures { IfOk result (λ page. page ≡ record { strokes = []; spare = 0 }) }
    {
        Ok(Page {
            bytes: vec![in alloc; 0; PAGE_BYTES as usize]?,
            strokes: Vec::new(alloc),
            spare: 0,
        })
    }

    /// Makes the number spare at least `n`. Strokes and spare together stay below 2^32; a page that would
    /// pass that is out of memory. The page is then as before.
    pub fn reserve(&mut self, n: u32) -> Result<(), NoMemory>
        ensures strokes { self.new.strokes ≡ self.old.strokes }
        ensures ok { OnOk result (self.new.spare ≡ max self.old.spare n) }
        ensures already { n ≤ self.old.spare → IsOk result }
        ensures few { 2 ^ 32 ≤ length self.old.strokes + n → IsErr result }
        ensures err { OnErr result (self.new ≡ self.old) }
    {
        if n <= self.spare {
            return Ok(());
        }
        if self.strokes.len() + n as usize > u32::MAX as usize {
            return Err(NoMemory);
        }
        self.strokes.reserve(n as usize)?;
        self.spare = n;
        Ok(())
    }

    /// Writes the stroke into the room that was made for it, and gives its place among the strokes, from 0.
    pub fn write(&mut self, stroke: Stroke) -> u32
        requires { 1 ≤ self.old.spare }
        ensures index { result ≡ length self.old.strokes }
        ensures strokes { self.new.strokes ≡ self.old.strokes ++ stroke ∷ [] }
        ensures within { AreWithinPage self.new.strokes }
        ensures spare { self.new.spare + 1 ≡ self.old.spare }
    {
        let index = self.strokes.len() as u32;
        put(&mut self.bytes, stroke.offset() as usize, stroke.bytes());
        self.spare -= 1;
        if self.strokes.push(stroke).is_err() {
            unreachable!();
        }
        index
    }

    /// Copies the page's bytes from `offset` on, as many as `out` has.
    pub fn read(&self, offset: u16, out: &mut [u8])
        requires { offset + length out.old ≤ PAGE_BYTES }
        ensures { out.new ≡ take (length out.old) (drop offset (left_by self.now.strokes)) }
    {
        let start = offset as usize;
        out.copy_from_slice(&self.bytes[start..start + out.len()]);
    }

    /// The page's 4,096 bytes, lent.
    pub fn bytes(&self) -> &[u8]
        ensures bytes { result.now ≡ left_by self.now.strokes }
        ensures size { length result.now ≡ PAGE_BYTES }
    {
        self.bytes.as_slice()
    }

    /// Every stroke on the page, the oldest first.
    pub fn strokes(&self) -> &[Stroke]
        ensures strokes { result.now ≡ self.now.strokes }
        ensures within { AreWithinPage self.now.strokes }
        ensures few { length self.now.strokes + self.now.spare < 2 ^ 32 }
    {
        self.strokes.as_slice()
    }

    /// Every stroke on the page, the oldest first, given away. It takes no memory.
    pub fn into_strokes(self) -> Vec<Stroke>
        ensures strokes { result.items ≡ self.strokes }
        ensures within { AreWithinPage result.items }
    {
        self.strokes
    }
}

// Writes the piece over the bytes from `offset` on.
fn put(bytes: &mut [u8], offset: usize, piece: &[u8])
    requires { offset + length piece.now ≤ length bytes.old }
    ensures { bytes.new ≡ replaced bytes.old offset piece.now }
{
    bytes[offset..offset + piece.len()].copy_from_slice(piece);
}
