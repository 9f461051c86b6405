// The pages of a held range, which are in the holder's hand.
ghost use Rattle.std.specs.Prelude.{◌≡◌, ◌<◌, ◌≤◌, ◌==◌, ◌+◌, ℕ, [], ◌∷◌, List, Option, Some, None, IsSome, OnOk, length, slice_set, slice_index_or};
ghost use Rattle.page_slots.specs.Stroke.{StrokeValue};
ghost use Rattle.tce_window.specs.Held.{held_strokes, strokes_of};
ghost use Rattle.tce_window.specs.Laying.{room_of, place_on, with_more, HasRoom, IsWithinHeld};
ghost use Rattle.tce_window.specs.Moved.{stroke_count};

use crate::laying::PageSet;
use crate::piece::MOST_PIECES;
use arrayvec::ArrayVec;
use page_slots::{Page, Stroke};
use std::marker::Model;
use vio_num::NoMemory;

/// A page that is held, and its number in its region.
#[derive(Debug, Drop)]
pub struct HeldPage {
    pub(crate) number: u16,
    pub(crate) page: Page,
}

/// The pages of a held range, each once. They are in the holder's hand.
#[derive(Debug, Drop)]
pub struct HeldPages {
    pub(crate) pages: ArrayVec<Option<HeldPage>, MOST_PIECES>,
}

impl Model for HeldPages {
    ghost use Rattle.std.specs.Prelude.{List, Option};
    ghost use Rattle.tce_window.specs.declared.held_pages.HeldPage.{HeldPage};
    ghost use Rattle.tce_window.specs.Held.{held_strokes};
    ghost use Rattle.tce_window.specs.Strokes.{AllWithin};

    ghost Value = { List (Option HeldPage) };

    ghost view = { λ held. held.pages.items };

    ghost invariant = { λ held. AllWithin (held_strokes held.pages.items) };
}

impl HeldPages {
    // Finds the place of the page of this number.
    fn place_on(&self, number: u16) -> usize
        requires { IsSome (held_strokes self.now number) }
        ensures place { result ≡ place_on self.now number }
        ensures inside { result < length self.now }
    {
        for (place, held) in self.pages.iter().enumerate() {
            if let Some(held) = held {
                if held.number == number {
                    return place;
                }
            }
        }
        unreachable!()
    }

    /// The page of this number, which is among those held.
    pub(crate) fn page(&self, number: u16) -> &Page
        requires { IsSome (held_strokes self.now number) }
        ensures { held_strokes self.now number ≡ Some result.now.strokes }
    {
        match &self.pages[self.place_on(number)] {
            Some(held) => &held.page,
            None => unreachable!(),
        }
    }
}

// Makes room on a held page for this many strokes.
fn reserve_held(held: &mut Option<HeldPage>, count: u32) -> Result<(), NoMemory>
    ensures strokes { (p : ℕ) → strokes_of held.new p ≡ strokes_of held.old p }
    ensures room { OnOk result (HasRoom count held.new) }
    ensures kept { room_of held.old ≤ room_of held.new }
{
    match held {
        Some(held) => held.page.reserve(count),
        None => Ok(()),
    }
}

// Writes a stroke on a page that has room for it, and gives its place among the page's strokes.
fn write_held(pages: &mut [Option<HeldPage>], at: usize, stroke: Stroke) -> u32
    requires inside { at < length pages.old }
    requires room { 1 ≤ room_of (slice_index_or pages.old at None) }
    ensures index { (p : ℕ) → IsSome (strokes_of (slice_index_or pages.old at None) p)
        → result ≡ stroke_count (strokes_of (slice_index_or pages.old at None) p) }
    ensures pages { pages.new ≡ slice_set pages.old at
        (with_more stroke (slice_index_or pages.old at None)) }
    ensures within { IsWithinHeld (slice_index_or pages.new at None) }
{
    match &mut pages[at] {
        Some(held) => held.page.write(stroke),
        None => unreachable!(),
    }
}

impl PageSet for HeldPages {
    ghost use Rattle.std.specs.Prelude.{length};
    ghost use Rattle.tce_window.specs.Held.{held_strokes};
    ghost use Rattle.tce_window.specs.Laying.{held_room};

    ghost strokes = { λ held. held_strokes held };

    ghost room = { λ held. held_room held };

    ghost places = { λ held. length held };

    fn reserve(&mut self, number: u16, count: u32) -> Result<(), NoMemory> {
        let place = self.place_on(number);
        reserve_held(&mut self.pages.as_mut_slice()[place], count)
    }

    fn write(&mut self, number: u16, stroke: Stroke) -> u32 {
        let place = self.place_on(number);
        write_held(self.pages.as_mut_slice(), place, stroke)
    }
}
