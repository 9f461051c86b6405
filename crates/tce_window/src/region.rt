// The pages of a unit's region, one behind the other, but those that are held.
ghost use Rattle.std.specs.Prelude.{◌≡◌, ℕ, ◌+◌, ◌-◌, ◌*◌, ◌/◌, ◌%◌, ◌^◌, ◌<◌, ◌≤◌, ◌==◌, ◌∷◌, All, IsSome, IfSome, IfNone, IfOk, OnOk, OnErr, None, Some, [], length, replicate, slice_index, if◌then◌else◌};
ghost use Rattle.arrayvec.specs.ArrayVec.{array_vec_len};
ghost use Rattle.tce_window.specs.Held.{held_strokes, strokes_of, either};
ghost use Rattle.tce_window.specs.Laying.{LieOver};
ghost use Rattle.tce_window.specs.Named.{AreFresh, IsFirstStale};
ghost use Rattle.tce_window.specs.Pieces.{on_page};
ghost use Rattle.tce_window.specs.Region.{in_region, first_page, end_page, IsInPlace, region_byte, written, IsFirstHeld};
ghost use Rattle.tce_window.specs.Window.{blank_page, strokes_at, strokes_in, room_in};
ghost use Rattle.tce_window.specs.Strokes.{with_strokes, IsWithin, AllWithin};
ghost use Rattle.tce_window.specs.Moved.{stroke_count};

use crate::held_pages::{HeldPage, HeldPages};
use crate::laying::{PageSet, lay, strokes_over};
use crate::named::stale;
use crate::piece::{MOST_BYTES, MOST_PIECES, Piece};
use arrayvec::ArrayVec;
use page_slots::{Page, Stroke, StrokeName};
use std::alloc::Global;
use std::marker::Model;
use vio_num::{NoMemory, UnitId};

/// The bytes of a page.
const PAGE_BYTES: usize = vio_num::PAGE_BYTES as usize;

/// The pages of a region, each with its number, but those that are held.
#[derive(Debug, Drop)]
pub struct Region {
    pages: Vec<Option<Page>>,
}

impl Model for Region {
    ghost use Rattle.std.specs.Prelude.{◌≤◌, List, Option, length};
    ghost use Rattle.page_slots.specs.Page.{PageValue};
    ghost use Rattle.tce_window.specs.Window.{strokes_at};
    ghost use Rattle.tce_window.specs.Strokes.{AllWithin};

    ghost Value = { List (Option PageValue) };

    ghost view = { λ region. region.pages.items };

    ghost invariant = { λ region. record {
      sized : (1 ≤ length region.pages.items) × (length region.pages.items ≤ 256);
      within : AllWithin (strokes_at region.pages.items);
    } };
}

impl Region {
    /// A region of 1 to 256 pages of zeros.
    pub(crate) fn zero(alloc: Global, count: u16) -> Result<Region, NoMemory>
        requires { (1 ≤ count) × (count ≤ 256) }
        ensures { IfOk result (λ region. region ≡ replicate count blank_page) }
    {
        let mut pages = Vec::new(alloc);
        for _page in 0..count {
            pages.push(Some(Page::zero(alloc)?))?;
        }
        Ok(Region { pages })
    }

    /// A region of 1 to 256 pages, each of which is away.
    pub fn empty(alloc: Global, count: u16) -> Result<Region, NoMemory>
        requires { (1 ≤ count) × (count ≤ 256) }
        ensures { IfOk result (λ region. region ≡ replicate count None) }
    {
        let mut pages = Vec::with_capacity(alloc, count as usize)?;
        for _page in 0..count {
            pages.push_reserved(None);
        }
        Ok(Region { pages })
    }

    /// Puts a page into its place, which is empty.
    pub fn put_page(&mut self, number: u16, page: Page)
        requires inside { number < length self.old }
        requires away { strokes_at self.old number ≡ None }
        ensures strokes { (p : ℕ) → strokes_at self.new p ≡
            (if number == p then Some page.strokes else strokes_at self.old p) }
        ensures size { length self.new ≡ length self.old }
    {
        put_page(&mut self.pages, Some(HeldPage { number, page }));
    }

    /// Takes a page out of its place.
    pub fn take_page(&mut self, number: u16) -> Page
        requires { IsSome (strokes_at self.old number) }
        ensures page { strokes_at self.old number ≡ Some result.strokes }
        ensures away { (p : ℕ) → strokes_at self.new p ≡
            (if number == p then None else strokes_at self.old p) }
        ensures size { length self.new ≡ length self.old }
    {
        take_slot(&mut self.pages, number as usize)
    }

    /// The number of pages, 1 to 256.
    pub fn size(&self) -> usize
        ensures size { result ≡ length self.now }
        ensures least { 1 ≤ result }
        ensures most { result ≤ 256 }
        ensures within { AllWithin (strokes_at self.now) }
    {
        self.pages.len()
    }

    /// Whether the range lies inside the region.
    pub fn contains(&self, at: u64, len: usize) -> bool
        ensures inside { result ≡ in_region (length self.now) at len }
    {
        let bytes = self.size() as u64 * vio_num::PAGE_BYTES;
        1 <= len && len as u64 <= MOST_BYTES && at <= bytes && len as u64 <= bytes - at
    }

    /// The first page that the range touches which is held.
    pub(crate) fn first_held(&self, at: usize, len: usize) -> Option<usize>
        requires near { at + len ≤ 2 ^ 20 }
        requires inside { end_page at len ≤ length self.now }
        ensures held { IfSome result
            (IsFirstHeld (strokes_at self.now) (first_page at) (end_page at len)) }
        ensures none { IfNone result (IsInPlace (strokes_at self.now) at len) }
    {
        for page in at / PAGE_BYTES..(at + len).div_ceil(PAGE_BYTES) {
            if self.pages[page].is_none() {
                return Some(page);
            }
        }
        None
    }

    /// The page, which is in its place.
    pub fn page(&self, page: usize) -> &Page
        requires { IsSome (strokes_at self.now page) }
        ensures { strokes_at self.now page ≡ Some result.now.strokes }
    {
        match self.pages.get(page) {
            Some(Some(page)) => page,
            _ => unreachable!(),
        }
    }

    /// The pages, given away.
    pub(crate) fn into_pages(self) -> Vec<Option<Page>>
        ensures { result.items ≡ self }
    {
        self.pages
    }

    // Copies bytes of one page.
    fn read_page(&self, address: usize, out: &mut [u8])
        requires there { IsSome (strokes_at self.now (address / PAGE_BYTES)) }
        requires inside { address % PAGE_BYTES + length out.old ≤ PAGE_BYTES }
        ensures { (k : ℕ) → k < length out.old
            → slice_index out.new k ≡ region_byte (strokes_at self.now) (address + k) }
    {
        self.page(address / PAGE_BYTES)
            .read((address % PAGE_BYTES) as u16, out);
    }

    /// Copies the bytes of the region from the address on.
    pub fn read(&self, at: usize, out: &mut [u8])
        requires near { at + length out.old ≤ 2 ^ 20 }
        requires there { IsInPlace (strokes_at self.now) at (length out.old) }
        ensures { (k : ℕ) → k < length out.old
            → slice_index out.new k ≡ region_byte (strokes_at self.now) (at + k) }
    {
        let mut done = 0;
        while done < out.len() {
            let address = at + done;
            let len = (PAGE_BYTES - address % PAGE_BYTES).min(out.len() - done);
            self.read_page(address, &mut out[done..done + len]);
            done += len;
        }
    }

    /// The first page of the range on which the last strokes are not of this name or do not cover it, and
    /// the last other name there.
    pub fn first_stale(
        &self,
        at: usize,
        len: usize,
        name: StrokeName,
    ) -> Option<(usize, Option<StrokeName>)>
        requires near { at + len ≤ 2 ^ 20 }
        requires there { IsInPlace (strokes_at self.now) at len }
        ensures none { IfNone result
            (AreFresh name at len (strokes_at self.now) (first_page at) (end_page at len)) }
        ensures stale { IfSome result (λ first. IsFirstStale name at len (strokes_at self.now)
            (first_page at) (end_page at len) first.0 first.1) }
    {
        for page in at / PAGE_BYTES..(at + len).div_ceil(PAGE_BYTES) {
            let start = PAGE_BYTES * page;
            let from = at.saturating_sub(start);
            let to = (at + len - start).min(PAGE_BYTES);
            if let Some(found) = stale(self.page(page).strokes(), name, from, to) {
                return Some((page, found));
            }
        }
        None
    }

    /// Writes the bytes from the address on: one stroke of this name on each page that they touch. Where
    /// memory runs out no page has another stroke.
    pub fn write(
        &mut self,
        alloc: Global,
        name: StrokeName,
        at: usize,
        bytes: &[u8],
    ) -> Result<(), NoMemory>
        requires some { 1 ≤ length bytes.now }
        requires near { at + length bytes.now ≤ 2 ^ 20 }
        requires few { length bytes.now ≤ MOST_BYTES }
        requires there { IsInPlace (strokes_at self.old) at (length bytes.now) }
        ensures strokes { OnOk result ((p : ℕ)
            → strokes_at self.new p ≡ written name at bytes.now p (strokes_at self.old p)) }
        ensures err { OnErr result ((p : ℕ) → strokes_at self.new p ≡ strokes_at self.old p) }
        ensures size { length self.new ≡ length self.old }
    {
        let mut pieces = pieces_over(name.who, at, bytes.len());
        let strokes = strokes_over(alloc, name, &pieces, bytes)?;
        lay(self, pieces.as_mut_slice(), strokes)
    }

    /// Takes the pages of the pieces out of their places, each once.
    pub fn take(&mut self, pieces: &[Piece]) -> HeldPages
        requires few { length pieces.now ≤ 17 }
        requires inside { All (λ piece. piece.page < length self.old) pieces.now }
        ensures away { (p : ℕ) → strokes_at self.new p ≡
            (if on_page pieces.now p then None else strokes_at self.old p) }
        ensures taken { (p : ℕ) → held_strokes result p ≡
            (if on_page pieces.now p then strokes_at self.old p else None) }
        ensures size { length self.new ≡ length self.old }
    {
        HeldPages {
            pages: take_pages(&mut self.pages, pieces),
        }
    }

    /// Puts the pages back into their places.
    pub fn put(&mut self, held: HeldPages)
        requires { (p : ℕ) → IsSome (held_strokes held p) → p < length self.old }
        ensures strokes { (p : ℕ) → strokes_at self.new p ≡ either
            (strokes_at self.old p) (held_strokes held p) }
        ensures size { length self.new ≡ length self.old }
    {
        let HeldPages { pages } = held;
        put_pages(&mut self.pages, pages);
    }
}

/// A range of at most 65,536 bytes as pieces of the unit's region, one on each page that it touches.
pub fn pieces_over(unit: UnitId, at: usize, len: usize) -> ArrayVec<Piece, MOST_PIECES>
    requires near { at + len ≤ 2 ^ 20 }
    requires few { len ≤ MOST_BYTES }
    ensures { LieOver at (at + len) result.items }
{
    let mut pieces = ArrayVec::new();
    let mut done = 0;
    while done < len {
        let address = at + done;
        let left = (PAGE_BYTES - address % PAGE_BYTES).min(len - done);
        pieces.push(Piece {
            unit,
            entry: (address / PAGE_BYTES) as u16,
            version: 0,
            page: (address / PAGE_BYTES) as u16,
            offset: (address % PAGE_BYTES) as u16,
            len: left as u16,
            at: 0,
        });
        done += left;
    }
    pieces
}

// Takes the page of this number, which is in its place, out of it.
fn take_slot(pages: &mut Vec<Option<Page>>, number: usize) -> Page
    requires { IsSome (strokes_at pages.old.items number) }
    ensures page { strokes_at pages.old.items number ≡ Some result.strokes }
    ensures away { (p : ℕ) → strokes_at pages.new.items p ≡
        (if number == p then None else strokes_at pages.old.items p) }
    ensures size { length pages.new.items ≡ length pages.old.items }
{
    match pages[number].take() {
        Some(page) => page,
        None => unreachable!(),
    }
}

// Takes the page out of its place, if it is there.
fn take_page(
    pages: &mut Vec<Option<Page>>,
    number: u16,
    held: &mut ArrayVec<Option<HeldPage>, MOST_PIECES>,
)
    requires inside { number < length pages.old.items }
    requires room { array_vec_len held.old < 17 }
    ensures away { (p : ℕ) → strokes_at pages.new.items p ≡
        (if number == p then None else strokes_at pages.old.items p) }
    ensures taken { (p : ℕ) → held_strokes held.new.items p ≡ either
        (held_strokes held.old.items p)
        (if number == p then strokes_at pages.old.items p else None) }
    ensures few { array_vec_len held.new ≤ array_vec_len held.old + 1 }
    ensures size { length pages.new.items ≡ length pages.old.items }
{
    if let Some(page) = pages[number as usize].take() {
        held.push(Some(HeldPage { number, page }));
    }
}

// Takes the pages of the pieces out of their places, each once.
fn take_pages(
    pages: &mut Vec<Option<Page>>,
    pieces: &[Piece],
) -> ArrayVec<Option<HeldPage>, MOST_PIECES>
    requires few { length pieces.now ≤ 17 }
    requires inside { All (λ piece. piece.page < length pages.old.items) pieces.now }
    ensures away { (p : ℕ) → strokes_at pages.new.items p ≡
        (if on_page pieces.now p then None else strokes_at pages.old.items p) }
    ensures taken { (p : ℕ) → held_strokes result.items p ≡
        (if on_page pieces.now p then strokes_at pages.old.items p else None) }
    ensures size { length pages.new.items ≡ length pages.old.items }
{
    let mut held = ArrayVec::new();
    for piece in pieces {
        take_page(pages, piece.page, &mut held);
    }
    held
}

// Puts the page back into its place, if that is empty.
fn put_page(pages: &mut Vec<Option<Page>>, held: Option<HeldPage>)
    requires { (p : ℕ) → IsSome (strokes_of held p) → p < length pages.old.items }
    ensures strokes { (p : ℕ) → strokes_at pages.new.items p ≡ either
        (strokes_at pages.old.items p) (strokes_of held p) }
    ensures size { length pages.new.items ≡ length pages.old.items }
{
    if let Some(HeldPage { number, page }) = held {
        let place = number as usize;
        if pages[place].is_none() {
            pages[place] = Some(page);
        }
    }
}

// Puts the pages back into their places.
fn put_pages(pages: &mut Vec<Option<Page>>, held: ArrayVec<Option<HeldPage>, MOST_PIECES>)
    requires { (p : ℕ) → IsSome (held_strokes held.items p) → p < length pages.old.items }
    ensures strokes { (p : ℕ) → strokes_at pages.new.items p ≡ either
        (strokes_at pages.old.items p) (held_strokes held.items p) }
    ensures size { length pages.new.items ≡ length pages.old.items }
{
    for page in held {
        put_page(pages, page);
    }
}

// Makes room on a page for this many strokes.
fn reserve_slot(slot: &mut Option<Page>, count: u32) -> Result<(), NoMemory>
    requires { IsSome slot.old }
    ensures strokes { strokes_in (Some slot.new) ≡ strokes_in (Some slot.old) }
    ensures room { OnOk result (count ≤ room_in (Some slot.new)) }
    ensures kept { room_in (Some slot.old) ≤ room_in (Some slot.new) }
{
    match slot {
        Some(page) => page.reserve(count),
        None => unreachable!(),
    }
}

// Writes a stroke on a page that has room for it, and gives its place there.
fn write_slot(slot: &mut Option<Page>, stroke: Stroke) -> u32
    requires { 1 ≤ room_in (Some slot.old) }
    ensures index { result ≡ stroke_count (strokes_in (Some slot.old)) }
    ensures strokes { strokes_in (Some slot.new) ≡
        with_strokes (strokes_in (Some slot.old)) (stroke ∷ []) }
    ensures within { IsWithin (strokes_in (Some slot.new)) }
    ensures room { room_in (Some slot.old) ≡ room_in (Some slot.new) + 1 }
{
    match slot {
        Some(page) => page.write(stroke),
        None => unreachable!(),
    }
}

impl PageSet for Region {
    ghost use Rattle.std.specs.Prelude.{length};
    ghost use Rattle.tce_window.specs.Window.{blank_page, strokes_at, room_at};

    ghost strokes = { λ region. strokes_at region };

    ghost room = { λ region. room_at region };

    ghost places = { λ region. length region };

    fn reserve(&mut self, number: u16, count: u32) -> Result<(), NoMemory> {
        reserve_slot(&mut self.pages[number as usize], count)
    }

    fn write(&mut self, number: u16, stroke: Stroke) -> u32 {
        write_slot(&mut self.pages[number as usize], stroke)
    }
}
