// Whether the last strokes on a page are of one name and cover a range of it.
ghost use Rattle.std.specs.Prelude.{◌≡◌, ◌↔◌, ℕ, ◌+◌, ◌-◌, ◌*◌, ◌^◌, ◌<◌, ◌≤◌, ◌&&◌, ◌||◌, nat_le, nat_lt, length, drop, take, IsTrue, All, Some, None, IfSome, IfNone, Bool, true, false, slice_index_or};
ghost use Rattle.std.specs.List.{list_any};
ghost use Rattle.page_slots.specs.Stroke.{StrokeValue, IsWithinPage};
ghost use Rattle.page_slots.specs.Page.{AreWithinPage};
ghost use Rattle.tce_window.specs.Named.{same_name, last_run, last_other, covers, IsCovered, IsUncovered, IsFresh, IsStale};

use page_slots::{Stroke, StrokeName};
use vio_num::PAGE_BYTES;

// Tells whether the stroke is of this name.
fn is_named(stroke: &Stroke, name: StrokeName) -> bool
    ensures { result ≡ same_name stroke.now.name name }
{
    let own = stroke.name();
    own.who.partition == name.who.partition
        && (own.who.unit == name.who.unit && own.mark == name.mark)
}

// Finds where the strokes of this name behind the last one of another name begin.
fn run_start(strokes: &[Stroke], name: StrokeName) -> usize
    ensures within { result ≤ length strokes.now }
    ensures run { last_run name strokes.now ≡ drop result strokes.now }
    ensures first { result ≡ 0 → last_other name strokes.now ≡ None }
    ensures other { (d : StrokeValue) → 0 < result
        → last_other name strokes.now ≡ Some ((slice_index_or strokes.now (result - 1) d).name) }
{
    let mut start = strokes.len();
    while start > 0 && is_named(&strokes[start - 1], name) {
        start -= 1;
    }
    start
}

// Marks the places that the stroke covers.
fn mark(covered: &mut [bool], stroke: &Stroke)
    requires { length covered.old ≡ PAGE_BYTES }
    ensures { (k : ℕ) (d : Bool) → k < PAGE_BYTES
        → slice_index_or covered.new k d ≡ (slice_index_or covered.old k d || covers k stroke.now) }
{
    let start = stroke.offset() as usize;
    let end = start + stroke.bytes().len();
    covered[start..end].fill(true);
}

// Finds the first place from `from` to before `to` that is not covered.
fn first_gap(covered: &[bool], from: usize, to: usize) -> Option<usize>
    requires { to ≤ length covered.now }
    ensures gap { IfSome result (λ k. (from ≤ k) × (k < to)
        × (slice_index_or covered.now k true ≡ false)) }
    ensures none { IfNone result ((k : ℕ) → from ≤ k → k < to
        → slice_index_or covered.now k false ≡ true) }
{
    for place in from..to {
        if !covered[place] {
            return Some(place);
        }
    }
    None
}

// Tells whether the stroke alone covers the places of its page from `from` to before `to`.
fn is_over(stroke: &Stroke, from: usize, to: usize) -> bool
    ensures { IsTrue result → (k : ℕ) → from ≤ k → k < to → covers k stroke.now ≡ true }
{
    let start = stroke.offset() as usize;
    start <= from && to <= start + stroke.bytes().len()
}

// Tells whether the strokes cover the places of their page from `from` to before `to`.
fn is_covered(run: &[Stroke], from: usize, to: usize) -> bool
    requires { to ≤ PAGE_BYTES }
    ensures covered { IsTrue result → IsCovered run.now from to }
    ensures gap { result ≡ false → IsUncovered run.now from to }
{
    let mut covered = [false; PAGE_BYTES as usize];
    for stroke in run {
        mark(&mut covered, stroke);
    }
    match first_gap(&covered, from, to) {
        Some(_place) => false,
        None => true,
    }
}

// Tells whether the last stroke is of this name, and covers the places from `from` to before `to`.
fn is_last_over(strokes: &[Stroke], name: StrokeName, from: usize, to: usize) -> bool
    ensures { IsTrue result → IsFresh name from to (Some strokes.now) }
{
    match strokes.last() {
        Some(stroke) => is_named(stroke, name) && is_over(stroke, from, to),
        None => false,
    }
}

/// The last name but this one on a page whose last strokes of the name do not cover the places from `from` to
/// before `to`. None where they do.
pub(crate) fn stale(
    strokes: &[Stroke],
    name: StrokeName,
    from: usize,
    to: usize,
) -> Option<Option<StrokeName>>
    requires { to ≤ PAGE_BYTES }
    ensures fresh { IfNone result (IsFresh name from to (Some strokes.now)) }
    ensures stale { IfSome result (λ found. IsStale name from to found (Some strokes.now)) }
{
    if is_last_over(strokes, name, from, to) {
        return None;
    }
    let start = run_start(strokes, name);
    if is_covered(&strokes[start..], from, to) {
        return None;
    }
    Some(if start > 0 {
        Some(strokes[start - 1].name())
    } else {
        None
    })
}
