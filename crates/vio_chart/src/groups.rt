// The figures of each kind, for each level of a list.
ghost use Rattle.std.specs.Prelude.{◌≡◌, OnOk};
ghost use Rattle.vio_chart.specs.Drawn.{Adds, AreDrawn};
ghost use Rattle.vio_chart.specs.Picture.{AreArrows, IsArrow, IsCopy, IsFrame, IsLane, IsService, IsSession, IsUnitLine, end_of as end_unit, source_x as source, unit_x as unit_place};

use crate::columns::{column, is_same};
use crate::figures::{put_arrow, put_lane, put_square, put_unit_line};
use crate::labels::{put_answer, put_copy, put_offer, put_request, put_served};
use crate::levels::Levels;
use crate::link::{link_of, partner_of};
use crate::place::{beside, x_of};
use crate::walk::Step;
use std::alloc::Global;
use vio_num::{Entry, NoMemory, Served, UnitId};
use vio_trace::{CopyRow, FrameRow, OfferRow, PieceRow, QueueRow};

/// The lanes of the partitions.
pub fn put_lanes(
    buffer: &mut Vec<u8>,
    alloc: Global,
    units: &[UnitId],
    lanes: &[u32],
    bottom: u64,
) -> Result<(), NoMemory>
    ensures { OnOk result (Adds (AreDrawn IsLane lanes.now) buffer.old.items buffer.new.items) }
{
    for partition in lanes {
        put_lane(buffer, alloc, units, *partition, bottom)?;
    }
    Ok(())
}

/// The vertical lines of the units.
pub fn put_units(
    buffer: &mut Vec<u8>,
    alloc: Global,
    units: &[UnitId],
    bottom: u64,
) -> Result<(), NoMemory>
    ensures { OnOk result (Adds (AreDrawn (IsUnitLine units.now) units.now)
        buffer.old.items buffer.new.items) }
{
    for unit in units {
        put_unit_line(buffer, alloc, units, *unit, bottom)?;
    }
    Ok(())
}

// Finds the place of a unit's line.
fn unit_x(units: &[UnitId], unit: UnitId) -> u64
    ensures { result ≡ unit_place units.now unit }
{
    x_of(column(units, unit))
}

// Finds where the arrows come from that lead to a unit.
fn source_x(units: &[UnitId], unit: UnitId, partner: Option<UnitId>) -> u64
    ensures { result ≡ source units.now unit partner }
{
    match partner {
        Some(partner) => unit_x(units, partner),
        None => beside(unit_x(units, unit)),
    }
}

// Says what an entry is, in the words of the end that took it.
fn put_entry_label(label: &mut Vec<u8>, step: Step, entry: Entry) -> Result<(), NoMemory> {
    match step {
        Step::Request => put_request(label, entry),
        _ => put_answer(label, entry),
    }
}

// Writes the arrow of an entry that a unit took.
fn put_entry(
    buffer: &mut Vec<u8>,
    alloc: Global,
    ends: (u64, u64),
    at: (Step, u64),
    entry: Entry,
) -> Result<(), NoMemory>
    ensures { OnOk result (Adds (IsArrow ends.0 ends.1) buffer.old.items buffer.new.items) }
{
    let mut label = Vec::new(alloc);
    put_entry_label(&mut label, at.0, entry)?;
    put_arrow(buffer, ends.0, ends.1, at.1, label.as_slice())
}

// Writes the arrows of the entries that a unit took.
fn put_taken(
    buffer: &mut Vec<u8>,
    alloc: Global,
    ends: (u64, u64),
    levels: &mut Levels,
    unit: UnitId,
    step: Step,
    taken: &[Entry],
) -> Result<(), NoMemory>
    ensures { OnOk result (Adds (AreArrows ends.0 ends.1 taken.now)
        buffer.old.items buffer.new.items) }
{
    for entry in taken {
        let level = levels.level_of(unit, step);
        put_entry(buffer, alloc, ends, (step, level), *entry)?;
    }
    Ok(())
}

// Writes the arrows of the entries that a unit took in a session.
fn put_session(
    buffer: &mut Vec<u8>,
    alloc: Global,
    units: &[UnitId],
    copies: &[CopyRow],
    levels: &mut Levels,
    queue: &QueueRow,
) -> Result<(), NoMemory>
    ensures { OnOk result (Adds (IsSession units.now copies.now queue.now)
        buffer.old.items buffer.new.items) }
{
    let from = source_x(units, queue.unit, partner_of(queue.unit, copies));
    let to = unit_x(units, queue.unit);
    let step = if is_same(link_of(copies, queue.unit).server, queue.unit) {
        Step::Request
    } else {
        Step::Answer
    };
    put_taken(
        buffer,
        alloc,
        (from, to),
        levels,
        queue.unit,
        step,
        queue.taken.as_slice(),
    )
}

/// The arrows of the entries that the units took.
pub fn put_sessions(
    buffer: &mut Vec<u8>,
    alloc: Global,
    units: &[UnitId],
    copies: &[CopyRow],
    levels: &mut Levels,
    queues: &[QueueRow],
) -> Result<(), NoMemory>
    ensures { OnOk result (Adds (AreDrawn (IsSession units.now copies.now) queues.now)
        buffer.old.items buffer.new.items) }
{
    for queue in queues {
        put_session(buffer, alloc, units, copies, levels, queue)?;
    }
    Ok(())
}

// Finds the unit of the first piece, or the copier where there is none.
fn end_of(pieces: &[PieceRow], copier: UnitId) -> UnitId
    ensures { result ≡ end_unit pieces.now copier }
{
    match pieces {
        [piece, ..] => piece.unit,
        [] => copier,
    }
}

// Finds the place of the unit from whose window a copy was read.
fn read_x(units: &[UnitId], copy: &CopyRow) -> u64
    ensures { result ≡ unit_place units.now (end_unit copy.now.from copy.now.unit) }
{
    unit_x(units, end_of(copy.from.as_slice(), copy.unit))
}

// Finds the place of the unit to whose window a copy was written.
fn written_x(units: &[UnitId], copy: &CopyRow) -> u64
    ensures { result ≡ unit_place units.now (end_unit copy.now.to copy.now.unit) }
{
    unit_x(units, end_of(copy.to.as_slice(), copy.unit))
}

// Writes the arrow of a copy.
fn put_copy_arrow(
    buffer: &mut Vec<u8>,
    alloc: Global,
    units: &[UnitId],
    level: u64,
    copy: &CopyRow,
) -> Result<(), NoMemory>
    ensures { OnOk result (Adds (IsCopy units.now copy.now) buffer.old.items buffer.new.items) }
{
    let mut label = Vec::new(alloc);
    put_copy(&mut label, copy)?;
    let from = read_x(units, copy);
    let to = written_x(units, copy);
    put_arrow(buffer, from, to, level, label.as_slice())
}

/// The arrows of the copies.
pub fn put_copies(
    buffer: &mut Vec<u8>,
    alloc: Global,
    units: &[UnitId],
    levels: &mut Levels,
    copies: &[CopyRow],
) -> Result<(), NoMemory>
    ensures { OnOk result (Adds (AreDrawn (IsCopy units.now) copies.now)
        buffer.old.items buffer.new.items) }
{
    for copy in copies {
        let level = levels.level_of(copy.unit, Step::Copy);
        put_copy_arrow(buffer, alloc, units, level, copy)?;
    }
    Ok(())
}

// Writes the square of a request that was served.
fn put_service(
    buffer: &mut Vec<u8>,
    alloc: Global,
    units: &[UnitId],
    level: u64,
    served: &Served,
) -> Result<(), NoMemory>
    ensures { OnOk result (Adds (IsService units.now served.now)
        buffer.old.items buffer.new.items) }
{
    let mut label = Vec::new(alloc);
    put_served(&mut label, served)?;
    put_square(buffer, unit_x(units, served.unit), level, label.as_slice())
}

/// The squares of the requests that were served.
pub fn put_services(
    buffer: &mut Vec<u8>,
    alloc: Global,
    units: &[UnitId],
    levels: &mut Levels,
    serves: &[Served],
) -> Result<(), NoMemory>
    ensures { OnOk result (Adds (AreDrawn (IsService units.now) serves.now)
        buffer.old.items buffer.new.items) }
{
    for served in serves {
        let level = levels.level_of(served.unit, Step::Serve);
        put_service(buffer, alloc, units, level, served)?;
    }
    Ok(())
}

// Writes the arrow of a frame to a port that it was offered to.
fn put_offer_arrow(
    buffer: &mut Vec<u8>,
    alloc: Global,
    units: &[UnitId],
    level: u64,
    frame: &FrameRow,
    offer: &OfferRow,
) -> Result<(), NoMemory>
    ensures { OnOk result (Adds (IsArrow (unit_place units.now frame.now.unit)
        (unit_place units.now offer.now.port)) buffer.old.items buffer.new.items) }
{
    let mut label = Vec::new(alloc);
    put_offer(&mut label, frame, offer.offered)?;
    let from = unit_x(units, frame.unit);
    let to = unit_x(units, offer.port);
    put_arrow(buffer, from, to, level, label.as_slice())
}

// Writes the arrows of a frame, in the levels from this one on.
fn put_frame(
    buffer: &mut Vec<u8>,
    alloc: Global,
    units: &[UnitId],
    level: &mut u64,
    frame: &FrameRow,
) -> Result<(), NoMemory>
    ensures { OnOk result (Adds (IsFrame units.now frame.now) buffer.old.items buffer.new.items) }
{
    for offer in frame.offers.as_slice() {
        put_offer_arrow(buffer, alloc, units, *level, frame, offer)?;
        *level = level.saturating_add(1);
    }
    Ok(())
}

/// The arrows of the frames, in the levels from this one on.
pub fn put_frames(
    buffer: &mut Vec<u8>,
    alloc: Global,
    units: &[UnitId],
    end: u64,
    frames: &[FrameRow],
) -> Result<(), NoMemory>
    ensures { OnOk result (Adds (AreDrawn (IsFrame units.now) frames.now)
        buffer.old.items buffer.new.items) }
{
    let mut level = end;
    for frame in frames {
        put_frame(buffer, alloc, units, &mut level, frame)?;
    }
    Ok(())
}
