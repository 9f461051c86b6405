// Pages of a shared window, taken into the hand of a seat in rising order, each once, and given back.
ghost use Rattle.std.specs.Prelude.{◌≡◌, ℕ, ◌<◌, ◌≤◌, ◌&&◌, nat_le, nat_lt, All, true, is_some, IsErr, OnErr, OnOk, IfErr, if◌then◌else◌};
ghost use Rattle.tce_window.specs.declared.piece.TheConstants.{MOST_BYTES};
ghost use Rattle.page_slots.specs.Seats.{holds};
ghost use Rattle.tce_window.specs.Pieces.{on_page};
ghost use Rattle.tce_window.specs.Window.{strokes_at};
ghost use Rattle.shared_window.specs.Hand.{is_below, IsNextOn, IsEmptyFor, TakesPages, FindsOneInUse, HasInHand, GivesHand, SawWithin};
ghost use Rattle.shared_window.specs.Hand.{IsOnePage, TakesOne, FindsOne, GivesOne};

use page_slots::{PageSeat, Pages, Take};
use tce_window::{Piece, Region};

/// A page that was found in use, and the turn word that was read.
#[derive(Clone, Copy, Debug, PartialEq, Eq)]
pub(crate) struct FoundInUse {
    pub(crate) page: u16,
    pub(crate) word: u64,
}

// The number of the page, if it lies from `from` to before the nearest one so far, and else that one.
fn nearer(nearest: u32, page: u16, from: u32) -> u32
    ensures { result ≡ (if nat_le from page && nat_lt page nearest then page else nearest) }
{
    let page = u32::from(page);
    if from <= page && page < nearest {
        page
    } else {
        nearest
    }
}

// Finds the first page, from `from` to before `to`, on which one of the pieces lies.
fn next_page(pieces: &[Piece], from: u32, to: u32) -> Option<u16>
    requires { to ≤ MOST_BYTES }
    ensures { IsNextOn pieces.now from to result }
{
    let mut nearest = to;
    for piece in pieces {
        nearest = nearer(nearest, piece.page, from);
    }
    if nearest < to {
        Some(nearest as u16)
    } else {
        None
    }
}

// Takes one page into the hand.
fn take_page(
    pages: &Pages,
    seat: &mut PageSeat,
    region: &mut Region,
    number: u16,
) -> Result<(), FoundInUse>
    requires one { IsOnePage pages.now seat.old region.old number }
    ensures ok { OnOk result (TakesOne seat.old region.old number seat.new region.new) }
    ensures err { IfErr result (λ found. FindsOne seat.old number found seat.new) }
    ensures same { OnErr result (region.new ≡ region.old) }
    ensures within { SawWithin seat.old → SawWithin seat.new }
{
    match pages.take(seat, number) {
        Take::Taken(page) => {
            let _strokes = page.strokes();
            region.put_page(number, page);
            Ok(())
        }
        Take::InUse { word } => Err(FoundInUse { page: number, word }),
    }
}

/// Takes the pages of the pieces into the hand. Where one is in use, those taken before are given back.
pub(crate) fn take_pages(
    pages: &Pages,
    seat: &mut PageSeat,
    region: &mut Region,
    pieces: &[Piece],
) -> Result<(), FoundInUse>
    requires ours { seat.old.pages ≡ pages.now.id }
    requires empty { IsEmptyFor pages.now region.old }
    requires within { All (λ piece. piece.page < pages.now.count) pieces.now }
    ensures ok { OnOk result
        (TakesPages pages.now seat.old (on_page pieces.now) seat.new region.new) }
    ensures err { IfErr result (λ found.
        FindsOneInUse pages.now seat.old pieces.now found seat.new region.new) }
    ensures within { SawWithin seat.old → SawWithin seat.new }
{
    let to = u32::from(pages.count());
    let mut from = 0;
    while let Some(number) = next_page(pieces, from, to) {
        if let Err(found) = take_page(pages, seat, region, number) {
            give_below(pages, seat, region, pieces, u32::from(number));
            return Err(found);
        }
        from = u32::from(number) + 1;
    }
    Ok(())
}

// Gives one page of the hand back.
fn give_page(pages: &Pages, seat: &mut PageSeat, region: &mut Region, number: u16)
    requires hand { HasInHand pages.now seat.old region.old }
    requires there { is_some (strokes_at region.old number) ≡ true }
    ensures gives { GivesOne seat.old region.old number seat.new region.new }
    ensures within { SawWithin seat.old → SawWithin seat.new }
{
    let page = region.take_page(number);
    let _strokes = page.strokes();
    pages.give(seat, number, page);
}

// Gives back the pages of the pieces that are below this number, which are those in the hand.
fn give_below(pages: &Pages, seat: &mut PageSeat, region: &mut Region, pieces: &[Piece], to: u32)
    requires hand { HasInHand pages.now seat.old region.old }
    requires pieces { (p : ℕ) → is_some (strokes_at region.old p) ≡ is_below pieces.now to p }
    requires near { to ≤ MOST_BYTES }
    ensures given { GivesHand seat.old (strokes_at region.old) seat.new }
    ensures empty { IsEmptyFor pages.now region.new }
    ensures within { SawWithin seat.old → SawWithin seat.new }
{
    let mut from = 0;
    while let Some(number) = next_page(pieces, from, to) {
        give_page(pages, seat, region, number);
        from = u32::from(number) + 1;
    }
}

/// Gives back the pages of the pieces, which are those in the hand.
pub(crate) fn give_pages(pages: &Pages, seat: &mut PageSeat, region: &mut Region, pieces: &[Piece])
    requires hand { HasInHand pages.now seat.old region.old }
    requires pieces { (p : ℕ) → is_some (strokes_at region.old p) ≡ on_page pieces.now p }
    requires within { All (λ piece. piece.page < pages.now.count) pieces.now }
    ensures given { GivesHand seat.old (strokes_at region.old) seat.new }
    ensures empty { IsEmptyFor pages.now region.new }
    ensures within { SawWithin seat.old → SawWithin seat.new }
{
    give_below(pages, seat, region, pieces, u32::from(pages.count()));
}
