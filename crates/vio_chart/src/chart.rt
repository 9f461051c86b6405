// The picture of a trace: a lane for each partition, a vertical line for each unit, and on and between these what the
// run did.
ghost use Rattle.std.specs.Prelude.{IfOk, OnOk, codes};
ghost use Rattle.vio_chart.specs.Columns.{lanes_below};
ghost use Rattle.vio_chart.specs.Drawn.{Adds, AreDrawn};
ghost use Rattle.vio_chart.specs.Picture.{HasParts, IsCopy, IsFrame, IsHead, IsLane, IsPictureOf, IsService, IsSession, IsUnitLine, IsGroup};

use crate::columns::{PARTITIONS, columns_of, lanes_of};
use crate::groups::{put_copies, put_frames, put_lanes, put_services, put_sessions, put_units};
use crate::levels::Levels;
use crate::place::{lane_left, y_of};
use crate::svg::{put, put_counted};
use std::alloc::Global;
use vio_num::{NoMemory, UnitId};
use vio_trace::{FrameRow, Trace};

const STYLE: &[u8] = b"\" font-family=\"sans-serif\" font-size=\"12\">
<title>A run of virtual I/O units</title>
<style>
text { fill: #222; stroke: #fff; stroke-width: 3px; paint-order: stroke; text-anchor: middle }
.lane rect { fill: #eef2f7; stroke: none }
.lane text { font-size: 15px; font-weight: bold }
.unit line { stroke: #8a94a0; stroke-width: 2px }
.unit text { font-weight: bold }
.entry line { stroke: #1f3f8f; stroke-width: 1.6px; marker-end: url(#entry) }
.copy line { stroke: #b0601a; stroke-dasharray: 5 3; marker-end: url(#copy) }
.copy text { fill: #8a4a10; font-size: 11px }
.serve rect { fill: #1a7f4b }
.serve text { fill: #11603a; text-anchor: start }
.frame line { stroke: #7a2f8f; stroke-width: 1.6px; marker-end: url(#frame) }
.frame text { fill: #5a2070 }
.legend text { text-anchor: start }
</style>
<defs>
<marker id=\"entry\" viewBox=\"0 0 8 8\" refX=\"8\" refY=\"4\" markerWidth=\"7\" markerHeight=\"7\" orient=\"auto\">
<path d=\"M0 0L8 4L0 8z\" fill=\"#1f3f8f\"/></marker>
<marker id=\"copy\" viewBox=\"0 0 8 8\" refX=\"8\" refY=\"4\" markerWidth=\"8\" markerHeight=\"8\" orient=\"auto\">
<path d=\"M0 0L8 4L0 8z\" fill=\"#b0601a\"/></marker>
<marker id=\"frame\" viewBox=\"0 0 8 8\" refX=\"8\" refY=\"4\" markerWidth=\"7\" markerHeight=\"7\" orient=\"auto\">
<path d=\"M0 0L8 4L0 8z\" fill=\"#7a2f8f\"/></marker>
</defs>
<rect width=\"100%\" height=\"100%\" fill=\"#fff\"/>
<g class=\"legend\">
<g class=\"entry\"><line x1=\"20\" y1=\"26\" x2=\"80\" y2=\"26\"/></g><text x=\"90\" y=\"30\">entry that was taken from a queue</text>
<g class=\"copy\"><line x1=\"320\" y1=\"26\" x2=\"380\" y2=\"26\"/></g><text x=\"390\" y=\"30\">copy between windows</text>
<g class=\"serve\"><rect x=\"45\" y=\"46\" width=\"10\" height=\"10\"/></g><text x=\"90\" y=\"55\">request that was served</text>
<g class=\"frame\"><line x1=\"320\" y1=\"51\" x2=\"380\" y2=\"51\"/></g><text x=\"390\" y=\"55\">frame that was offered</text>
</g>
";

/// The width that the legend needs.
const LEGEND: u64 = 560;

// Writes the beginning of a picture of this width and height, and its legend.
fn put_head(buffer: &mut Vec<u8>, width: u64, height: u64) -> Result<(), NoMemory>
    ensures { OnOk result (Adds IsHead buffer.old.items buffer.new.items) }
{
    put(buffer, b"<svg xmlns=\"http://www.w3.org/2000/svg\"")?;
    put_counted(buffer, b" width=\"", width)?;
    put_counted(buffer, b"\" height=\"", height)?;
    put(buffer, STYLE)
}

// Counts the ports to which frames were offered.
fn offers_of(frames: &[FrameRow]) -> u64 {
    let mut offers = 0u64;
    for frame in frames {
        offers = offers.saturating_add(frame.offers.len() as u64);
    }
    offers
}

// Writes the lanes.
fn put_lane_group(
    buffer: &mut Vec<u8>,
    alloc: Global,
    units: &[UnitId],
    bottom: u64,
) -> Result<(), NoMemory>
    ensures { OnOk result (Adds (IsGroup (codes "lane")
        (AreDrawn IsLane (lanes_below units.now PARTITIONS))) buffer.old.items buffer.new.items) }
{
    let lanes = lanes_of(alloc, units)?;
    put(buffer, b"<g class=\"lane\">\n")?;
    put_lanes(buffer, alloc, units, lanes.as_slice(), bottom)?;
    put(buffer, b"</g>\n")
}

// Writes the vertical lines.
fn put_unit_group(
    buffer: &mut Vec<u8>,
    alloc: Global,
    units: &[UnitId],
    bottom: u64,
) -> Result<(), NoMemory>
    ensures { OnOk result (Adds (IsGroup (codes "unit")
        (AreDrawn (IsUnitLine units.now) units.now)) buffer.old.items buffer.new.items) }
{
    put(buffer, b"<g class=\"unit\">\n")?;
    put_units(buffer, alloc, units, bottom)?;
    put(buffer, b"</g>\n")
}

// Writes the entries that were taken.
fn put_entry_group(
    buffer: &mut Vec<u8>,
    alloc: Global,
    units: &[UnitId],
    trace: &Trace,
) -> Result<(), NoMemory>
    ensures { OnOk result (Adds (IsGroup (codes "entry")
        (AreDrawn (IsSession units.now trace.now.copies) trace.now.queues))
        buffer.old.items buffer.new.items) }
{
    let mut levels = Levels::of(alloc, trace, units)?;
    let copies = trace.copies.as_slice();
    put(buffer, b"<g class=\"entry\">\n")?;
    put_sessions(
        buffer,
        alloc,
        units,
        copies,
        &mut levels,
        trace.queues.as_slice(),
    )?;
    put(buffer, b"</g>\n")
}

// Writes the copies.
fn put_copy_group(
    buffer: &mut Vec<u8>,
    alloc: Global,
    units: &[UnitId],
    trace: &Trace,
) -> Result<(), NoMemory>
    ensures { OnOk result (Adds (IsGroup (codes "copy")
        (AreDrawn (IsCopy units.now) trace.now.copies)) buffer.old.items buffer.new.items) }
{
    let mut levels = Levels::of(alloc, trace, units)?;
    put(buffer, b"<g class=\"copy\">\n")?;
    put_copies(buffer, alloc, units, &mut levels, trace.copies.as_slice())?;
    put(buffer, b"</g>\n")
}

// Writes the requests that were served.
fn put_service_group(
    buffer: &mut Vec<u8>,
    alloc: Global,
    units: &[UnitId],
    trace: &Trace,
) -> Result<(), NoMemory>
    ensures { OnOk result (Adds (IsGroup (codes "serve")
        (AreDrawn (IsService units.now) trace.now.serves)) buffer.old.items buffer.new.items) }
{
    let mut levels = Levels::of(alloc, trace, units)?;
    put(buffer, b"<g class=\"serve\">\n")?;
    put_services(buffer, alloc, units, &mut levels, trace.serves.as_slice())?;
    put(buffer, b"</g>\n")
}

// Writes the frames, from a level on.
fn put_frame_group(
    buffer: &mut Vec<u8>,
    alloc: Global,
    units: &[UnitId],
    end: u64,
    trace: &Trace,
) -> Result<(), NoMemory>
    ensures { OnOk result (Adds (IsGroup (codes "frame")
        (AreDrawn (IsFrame units.now) trace.now.frames)) buffer.old.items buffer.new.items) }
{
    put(buffer, b"<g class=\"frame\">\n")?;
    put_frames(buffer, alloc, units, end, trace.frames.as_slice())?;
    put(buffer, b"</g>\n")
}

// Writes the picture whose columns are these units.
fn put_parts(
    buffer: &mut Vec<u8>,
    alloc: Global,
    units: &[UnitId],
    trace: &Trace,
) -> Result<(), NoMemory>
    ensures { OnOk result (Adds (HasParts trace.now units.now) buffer.old.items buffer.new.items) }
{
    let end = Levels::of(alloc, trace, units)?.end();
    let bottom = y_of(end.saturating_add(offers_of(trace.frames.as_slice())));
    let width = lane_left(units.len() as u64).max(LEGEND);
    put_head(buffer, width, bottom.saturating_add(20))?;
    put_lane_group(buffer, alloc, units, bottom)?;
    put_unit_group(buffer, alloc, units, bottom)?;
    put_entry_group(buffer, alloc, units, trace)?;
    put_copy_group(buffer, alloc, units, trace)?;
    put_service_group(buffer, alloc, units, trace)?;
    put_frame_group(buffer, alloc, units, end, trace)?;
    put(buffer, b"</svg>\n")
}

/// The picture of a trace, as SVG.
pub fn chart(alloc: Global, trace: &Trace) -> Result<Vec<u8>, NoMemory>
    ensures { IfOk result (λ picture. IsPictureOf trace.now picture.items) }
{
    let units = columns_of(alloc, trace)?;
    let mut picture = Vec::new(alloc);
    put_parts(&mut picture, alloc, units.as_slice(), trace)?;
    Ok(picture)
}
