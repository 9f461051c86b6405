// Where columns and levels lie in the picture, in pixels.
ghost use Rattle.std.specs.Prelude.{◌≡◌, ◌-◌};
ghost use Rattle.vio_chart.specs.Picture.{x_of as place};

use crate::svg::Point;

/// From the left edge to the first column.
const MARGIN: u64 = 150;
/// From a column to the next.
const PITCH: u64 = 300;
/// From the upper edge to the first level.
const TOP: u64 = 140;
/// From a level to the next.
const LEVEL: u64 = 26;

/// The place of a column.
pub fn x_of(column: u64) -> u64
    ensures { result ≡ place column }
{
    column.saturating_mul(PITCH).saturating_add(MARGIN)
}

/// The place of a level.
pub fn y_of(level: u64) -> u64 {
    level.saturating_mul(LEVEL).saturating_add(TOP)
}

/// The left edge of the lane that begins with a column.
pub fn lane_left(column: u64) -> u64 {
    x_of(column).saturating_sub(PITCH / 2 - 5)
}

/// The width of a lane of so many columns.
pub fn lane_width(columns: u64) -> u64 {
    columns.saturating_mul(PITCH).saturating_sub(10)
}

/// From where an arrow comes whose sender the trace does not tell.
pub fn beside(x: u64) -> u64
    ensures { result ≡ x - 120 }
{
    x.saturating_sub(120)
}

/// Where the label of an arrow stands: above its middle.
pub fn above(from: u64, to: u64, y: u64) -> Point {
    Point {
        x: from / 2 + to / 2,
        y: y.saturating_sub(4),
    }
}
