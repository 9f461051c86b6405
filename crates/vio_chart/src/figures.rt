// The figures of a picture: arrows, squares on the line of a unit, lanes and lines, each with a label.
ghost use Rattle.std.specs.Prelude.{OnOk};
ghost use Rattle.vio_chart.specs.Drawn.{Adds};
ghost use Rattle.vio_chart.specs.Picture.{IsArrow, IsLane, IsSquare, IsUnitLine};

use crate::columns::{column, lane_columns};
use crate::labels::put_unit;
use crate::place::{above, lane_left, lane_width, x_of, y_of};
use crate::svg::{Point, put_counted, put_label, put_line, put_rectangle};
use std::alloc::Global;
use vio_num::{NoMemory, UnitId};

/// An arrow in a level, from one place to another, with a label above it.
pub fn put_arrow(
    buffer: &mut Vec<u8>,
    from: u64,
    to: u64,
    level: u64,
    label: &[u8],
) -> Result<(), NoMemory>
    ensures { OnOk result (Adds (IsArrow from to) buffer.old.items buffer.new.items) }
{
    let y = y_of(level);
    put_line(buffer, Point { x: from, y }, Point { x: to, y })?;
    put_label(buffer, above(from, to, y), label)
}

/// A square in a level, with a label beside it.
pub fn put_square(buffer: &mut Vec<u8>, x: u64, level: u64, label: &[u8]) -> Result<(), NoMemory>
    ensures { OnOk result (Adds (IsSquare x) buffer.old.items buffer.new.items) }
{
    let bottom = y_of(level);
    let corner = Point {
        x: x.saturating_sub(5),
        y: bottom.saturating_sub(10),
    };
    put_rectangle(buffer, corner, 10, 10)?;
    let at = Point {
        x: x.saturating_add(12),
        y: bottom,
    };
    put_label(buffer, at, label)
}

/// The lane of a partition, with its name.
pub fn put_lane(
    buffer: &mut Vec<u8>,
    alloc: Global,
    units: &[UnitId],
    partition: u32,
    bottom: u64,
) -> Result<(), NoMemory>
    ensures { OnOk result (Adds (IsLane partition) buffer.old.items buffer.new.items) }
{
    let mut label = Vec::new(alloc);
    put_counted(&mut label, b"partition ", u64::from(partition))?;
    let (before, own) = lane_columns(units, partition);
    let x = lane_left(before);
    let width = lane_width(own);
    put_rectangle(buffer, Point { x, y: 74 }, width, bottom.saturating_sub(74))?;
    let at = Point {
        x: x.saturating_add(width / 2),
        y: 94,
    };
    put_label(buffer, at, label.as_slice())
}

/// The vertical line of a unit, with its name.
pub fn put_unit_line(
    buffer: &mut Vec<u8>,
    alloc: Global,
    units: &[UnitId],
    unit: UnitId,
    bottom: u64,
) -> Result<(), NoMemory>
    ensures { OnOk result (Adds (IsUnitLine units.now unit) buffer.old.items buffer.new.items) }
{
    let mut label = Vec::new(alloc);
    put_unit(&mut label, unit)?;
    let x = x_of(column(units, unit));
    put_line(buffer, Point { x, y: 118 }, Point { x, y: bottom })?;
    put_label(buffer, Point { x, y: 112 }, label.as_slice())
}
