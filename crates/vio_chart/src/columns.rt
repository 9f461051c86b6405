// The columns of a picture: the units that have a line, in their order, and the partitions that have a lane.
ghost use Rattle.std.specs.Prelude.{◌≡◌, ◌<◌, ◌≤◌, ◌++◌, ◌∷◌, [], IfOk, OnOk, if◌then◌else◌, ◌==◌};
ghost use Rattle.std.specs.List.{list_any};
ghost use Rattle.vio_chart.specs.Columns.{column as column_of, has_line as line_of, lanes_below, lines_below, same_unit, unit_at, unit_before};

use std::alloc::Global;
use vio_num::{NoMemory, Sequence, UnitId};
use vio_trace::{PortRow, QueueRow, Trace};

/// The units whose names there can be: 256 partitions with 256 units each.
pub const UNITS: u32 = 65_536;

/// The partitions that there can be.
pub const PARTITIONS: u32 = 256;

/// Whether two names are of one unit.
pub fn is_same(a: UnitId, b: UnitId) -> bool
    ensures { result ≡ same_unit a b }
{
    a.partition == b.partition && a.unit == b.unit
}

// Tells whether the first unit stands before the second.
fn is_before(a: UnitId, b: UnitId) -> bool
    ensures { result ≡ unit_before a b }
{
    a.partition < b.partition || (a.partition == b.partition && a.unit < b.unit)
}

// Tells whether the unit has a queue.
fn has_queue(rows: &[QueueRow], unit: UnitId) -> bool
    ensures { result ≡ list_any (λ row. same_unit row.unit unit) rows.now }
{
    rows.iter().any(|row| is_same(row.unit, unit))
}

// Tells whether the unit has a port.
fn has_port(rows: &[PortRow], unit: UnitId) -> bool
    ensures { result ≡ list_any (λ row. same_unit row.unit unit) rows.now }
{
    rows.iter().any(|row| is_same(row.unit, unit))
}

// Tells whether the unit has a queue or a port.
fn has_line(trace: &Trace, unit: UnitId) -> bool
    ensures { result ≡ line_of trace.now unit }
{
    has_queue(trace.queues.as_slice(), unit) || has_port(trace.ports.as_slice(), unit)
}

// Finds the n-th unit in their order.
fn nth_unit(n: u32) -> UnitId
    requires { n < UNITS }
    ensures { result ≡ unit_at n }
{
    UnitId {
        partition: (n / 256) as u8,
        unit: (n % 256) as u8,
    }
}

// Adds the unit if it has a line.
fn push_line(units: &mut Sequence<UnitId>, trace: &Trace, unit: UnitId) -> Result<(), NoMemory>
    ensures { OnOk result (units.new ≡
        units.old ++ (if line_of trace.now unit then unit ∷ [] else [])) }
{
    if has_line(trace, unit) {
        units.push(unit)?;
    }
    Ok(())
}

/// The units that have a line, in their order: the first has column 0.
pub fn columns_of(alloc: Global, trace: &Trace) -> Result<Sequence<UnitId>, NoMemory>
    ensures { IfOk result (λ units. units ≡ lines_below trace.now UNITS) }
{
    let mut units = Sequence::new(alloc);
    for n in 0..UNITS {
        push_line(&mut units, trace, nth_unit(n))?;
    }
    Ok(units)
}

/// The number of units before this one.
pub fn column(units: &[UnitId], unit: UnitId) -> u64
    ensures { result ≡ column_of units.now unit }
{
    units
        .iter()
        .filter(|other| is_before(**other, unit))
        .count() as u64
}

// Tells whether a unit of the partition has a line.
fn has_lane(units: &[UnitId], partition: u32) -> bool
    ensures { result ≡ list_any (λ unit. unit.partition == partition) units.now }
{
    units
        .iter()
        .any(|unit| u32::from(unit.partition) == partition)
}

// Adds the partition if it has a lane.
fn push_lane(lanes: &mut Sequence<u32>, units: &[UnitId], partition: u32) -> Result<(), NoMemory>
    ensures { OnOk result (lanes.new ≡ lanes.old
        ++ (if list_any (λ unit. unit.partition == partition) units.now then partition ∷ [] else [])) }
{
    if has_lane(units, partition) {
        lanes.push(partition)?;
    }
    Ok(())
}

/// The partitions that have a lane, in their order.
pub fn lanes_of(alloc: Global, units: &[UnitId]) -> Result<Sequence<u32>, NoMemory>
    ensures { IfOk result (λ lanes. lanes ≡ lanes_below units.now PARTITIONS) }
{
    let mut lanes = Sequence::new(alloc);
    for partition in 0..PARTITIONS {
        push_lane(&mut lanes, units, partition)?;
    }
    Ok(lanes)
}

/// The columns of a partition: the first, and their number.
pub fn lane_columns(units: &[UnitId], partition: u32) -> (u64, u64) {
    let before = units
        .iter()
        .filter(|unit| u32::from(unit.partition) < partition)
        .count();
    let own = units
        .iter()
        .filter(|unit| u32::from(unit.partition) == partition)
        .count();
    (before as u64, own as u64)
}
