// The values and the strokes of a unit's window, as a trace shows them.
ghost use Rattle.std.specs.Prelude.{◌≡◌, ◌++◌, ◌≤◌, ◌^◌, IfOk, OnOk, length};
ghost use Rattle.tce_window.specs.Window.{strokes_at};
ghost use Rattle.vcpu_run.specs.Gathered.{IsLawfulWindow};
ghost use Rattle.vcpu_run.specs.Numbered.{numbered};
ghost use Rattle.vcpu_run.specs.Windows.{rows_of_entry, stroke_row, strokes_in_rows, values_in_rows};

use page_slots::Stroke;
use std::alloc::Global;
use tce_window::{PlainWindow, TceRow};
use vio_num::{Bytes, NoMemory, UnitId};
use vio_trace::{StrokeRow, TceValueRow};

/// Adds the values that were put into a window, by entry and version.
pub(crate) fn put_values(
    rows: &mut Vec<TceValueRow>,
    unit: UnitId,
    window: &PlainWindow,
) -> Result<(), NoMemory>
    ensures rows { OnOk result (rows.new.items ≡ rows.old.items ++ values_in_rows unit window.now) }
    ensures lawful { OnOk result (IsLawfulWindow window.now) }
{
    let values = window.values();
    for entry in 0..window.pages() {
        put_entry(rows, unit, entry, values)?;
    }
    Ok(())
}

// Adds the values of one entry.
fn put_entry(
    rows: &mut Vec<TceValueRow>,
    unit: UnitId,
    entry: u16,
    values: &[TceRow],
) -> Result<(), NoMemory>
    ensures { OnOk result (rows.new.items ≡ rows.old.items ++ rows_of_entry unit values.now entry) }
{
    for value in values {
        if value.entry == entry {
            rows.push(TceValueRow {
                unit,
                entry,
                version: value.version,
                value: value.value,
            })?;
        }
    }
    Ok(())
}

/// Adds the strokes on a window's pages, by page and place. Nothing of it is held. A page with 2^32 strokes or more is
/// out of memory.
pub(crate) fn put_strokes(
    alloc: Global,
    rows: &mut Vec<StrokeRow>,
    unit: UnitId,
    window: &PlainWindow,
) -> Result<(), NoMemory>
    requires { window.now.held_count ≡ 0 }
    ensures { OnOk result (rows.new.items ≡ rows.old.items ++ strokes_in_rows unit window.now) }
{
    for page in 0..window.pages() {
        put_page(alloc, rows, unit, page, window.strokes(page))?;
    }
    Ok(())
}

// Adds the strokes on one page.
fn put_page(
    alloc: Global,
    rows: &mut Vec<StrokeRow>,
    unit: UnitId,
    page: u16,
    strokes: &[Stroke],
) -> Result<(), NoMemory>
    ensures { OnOk result (rows.new.items
        ≡ rows.old.items ++ numbered (stroke_row unit page) 0 strokes.now) }
{
    for (place, stroke) in strokes.iter().enumerate() {
        rows.push(row_of(alloc, unit, page, place, stroke)?)?;
    }
    Ok(())
}

// Makes the row of the stroke at this place of a page.
fn row_of(
    alloc: Global,
    unit: UnitId,
    page: u16,
    place: usize,
    stroke: &Stroke,
) -> Result<StrokeRow, NoMemory>
    ensures { IfOk result (λ row. row ≡ stroke_row unit page place stroke.now) }
{
    let Ok(place) = u32::try_from(place) else {
        return Err(NoMemory);
    };
    let name = stroke.name();
    Ok(StrokeRow {
        unit,
        page,
        place,
        writer: name.who,
        mark: name.mark,
        offset: stroke.offset(),
        bytes: Bytes::from_slice(alloc, stroke.bytes())?,
    })
}
