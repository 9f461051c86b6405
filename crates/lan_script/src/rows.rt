// The rows that a trace has of LAN units.
ghost use Rattle.std.specs.Prelude.{◌≡◌, ◌++◌, All, IfOk, OnOk, map};
ghost use Rattle.std.specs.List.{flat_map};
ghost use Rattle.lan_script.specs.Carried.{FramesAreCarried};
ghost use Rattle.lan_script.specs.Invariant.{side_in};
ghost use Rattle.lan_script.specs.PortLaw.{AreOrdered, PortsAreLawful};
ghost use Rattle.lan_script.specs.Rows.{HasLawfulPort, deliver_rows, harvest_rows, deliver_row_of, harvest_row_of, numbered, numbered_on, port_in, port_row_of, port_rows, post_row_of, post_rows};
ghost use Rattle.lan_script.specs.RowsOf.{CountsRows, IsRowsOf};
ghost use Rattle.lan_buffers.specs.Port.{IsLawfulPort};
ghost use Rattle.lan_switch.specs.Switch.{IsPort};

use crate::frames::piece_rows;
use crate::lan::Lan;
use crate::seat::PortSeat;
use lan_buffers::PlainPort;
use lan_switch::PlainSwitch;
use std::alloc::Global;
use vio_num::{NoMemory, UnitId};
use vio_trace::{DeliverRow, Filled, FrameRow, HarvestRow, PortRow, PostRow};

/// The rows of LAN units, each list in a trace's order.
#[derive(Debug, Drop)]
pub struct LanRows {
    /// The frames.
    pub frames: Vec<FrameRow>,
    /// The sessions of ports.
    pub ports: Vec<PortRow>,
    /// The buffers that were posted.
    pub posts: Vec<PostRow>,
    /// The frames that took a buffer, and the buffers that were given back blank.
    pub delivers: Vec<DeliverRow>,
    /// The receive entries that were taken.
    pub harvests: Vec<HarvestRow>,
}

impl Lan {
    /// The rows of a trace. Where memory ran out before there are none.
    pub fn into_rows(self, alloc: Global) -> Result<LanRows, NoMemory>
        ensures law { IfOk result (λ rows. PortsAreLawful self.seats rows.frames.items
            rows.ports.items rows.posts.items rows.delivers.items rows.harvests.items) }
        ensures carried { IfOk result (λ rows. FramesAreCarried self.seats (side_in self.places)
            rows.frames.items rows.posts.items rows.delivers.items) }
        ensures order { IfOk result AreOrdered }
        ensures exact { IfOk result (IsRowsOf self) }
        ensures counted { IfOk result (CountsRows self) }
    {
        let Lan {
            alloc: _,
            seats,
            switch,
            windows: _,
            frames,
            whole,
        } = self;
        if !whole {
            return Err(NoMemory);
        }
        Ok(LanRows {
            frames: all_frames(alloc, frames)?,
            ports: session_rows(alloc, &seats, &switch)?,
            posts: posted_rows(alloc, &seats, &switch)?,
            delivers: delivered_rows(alloc, &seats, &switch)?,
            harvests: harvested_rows(alloc, &seats, &switch)?,
        })
    }
}

// Puts the frames of all units into one list.
fn all_frames(alloc: Global, frames: Vec<Vec<FrameRow>>) -> Result<Vec<FrameRow>, NoMemory>
    ensures { IfOk result (λ all. all.items ≡ flat_map (λ own. own.items) frames.items) }
{
    let mut all = Vec::new(alloc);
    for own in frames {
        put_frames(&mut all, own)?;
    }
    Ok(all)
}

// Adds the frames of a unit.
fn put_frames(all: &mut Vec<FrameRow>, own: Vec<FrameRow>) -> Result<(), NoMemory>
    ensures { OnOk result (all.new.items ≡ all.old.items ++ own.items) }
{
    let mut own = own;
    all.append(&mut own)?;
    Ok(())
}

// Gathers the sessions of all ports, each of which is lawful.
fn session_rows(
    alloc: Global,
    seats: &[PortSeat],
    switch: &PlainSwitch,
) -> Result<Vec<PortRow>, NoMemory>
    requires { All (λ seat. IsPort switch.now seat.unit) seats.now }
    ensures rows { IfOk result (λ rows. rows.items ≡
        flat_map (λ seat. port_rows seat.unit (port_in switch.now seat)) seats.now) }
    ensures lawful { OnOk result (All (HasLawfulPort switch.now) seats.now) }
{
    let mut rows = Vec::new(alloc);
    for seat in seats {
        put_sessions_of(&mut rows, seat, switch)?;
    }
    Ok(rows)
}

// Adds those of a seat.
fn put_sessions_of(
    rows: &mut Vec<PortRow>,
    seat: &PortSeat,
    switch: &PlainSwitch,
) -> Result<(), NoMemory>
    requires { IsPort switch.now seat.now.unit }
    ensures rows { OnOk result (rows.new.items ≡ rows.old.items
        ++ port_rows seat.now.unit (port_in switch.now seat.now)) }
    ensures lawful { HasLawfulPort switch.now seat.now }
{
    put_sessions(rows, seat.unit, switch.port(seat.unit))
}

// Adds the sessions of a port, with the number of frames that each dropped.
fn put_sessions(rows: &mut Vec<PortRow>, unit: UnitId, port: &PlainPort) -> Result<(), NoMemory>
    ensures rows { OnOk result (rows.new.items ≡ rows.old.items
        ++ port_rows unit port.now) }
    ensures lawful { IsLawfulPort port.now }
{
    let _last = port.session();
    put_drops(rows, unit, port.slots(), port.drop_counts())
}

// Adds a session for each number of dropped frames.
fn put_drops(
    rows: &mut Vec<PortRow>,
    unit: UnitId,
    slots: u32,
    drops: &[u64],
) -> Result<(), NoMemory>
    ensures { OnOk result (rows.new.items ≡ rows.old.items
        ++ numbered (port_row_of unit slots) 1 drops.now) }
{
    for (before, count) in drops.iter().enumerate() {
        rows.push(PortRow {
            unit,
            session: before as u64 + 1,
            slots,
            drops: *count,
        })?;
    }
    Ok(())
}

// Gathers the posts of all ports.
fn posted_rows(
    alloc: Global,
    seats: &[PortSeat],
    switch: &PlainSwitch,
) -> Result<Vec<PostRow>, NoMemory>
    requires { All (λ seat. IsPort switch.now seat.unit) seats.now }
    ensures { IfOk result (λ rows. rows.items ≡
        flat_map (λ seat. post_rows seat.unit (port_in switch.now seat)) seats.now) }
{
    let mut rows = Vec::new(alloc);
    for seat in seats {
        put_posts_of(&mut rows, seat, switch)?;
    }
    Ok(rows)
}

// Adds those of a seat.
fn put_posts_of(
    rows: &mut Vec<PostRow>,
    seat: &PortSeat,
    switch: &PlainSwitch,
) -> Result<(), NoMemory>
    requires { IsPort switch.now seat.now.unit }
    ensures { OnOk result (rows.new.items ≡ rows.old.items
        ++ post_rows seat.now.unit (port_in switch.now seat.now)) }
{
    put_posts(rows, seat.unit, switch.port(seat.unit))
}

// Adds the posts of a port.
fn put_posts(rows: &mut Vec<PostRow>, unit: UnitId, port: &PlainPort) -> Result<(), NoMemory>
    ensures { OnOk result (rows.new.items ≡ rows.old.items
        ++ post_rows unit port.now) }
{
    put_each_post(rows, unit, port.posts())
}

// Adds posts, which are numbered from 0 in each session.
fn put_each_post(
    rows: &mut Vec<PostRow>,
    unit: UnitId,
    posts: &[lan_buffers::PostRow],
) -> Result<(), NoMemory>
    ensures { OnOk result (rows.new.items ≡ rows.old.items
        ++ numbered_on (λ row. row.session) (post_row_of unit) 0 0 posts.now) }
{
    let mut session = 0;
    let mut number = 0;
    for post in posts {
        if post.session != session {
            session = post.session;
            number = 0;
        }
        rows.push(PostRow {
            unit,
            session,
            number,
            descriptor: post.descriptor,
            correlator: post.correlator,
        })?;
        number += 1;
    }
    Ok(())
}

// Gathers the deliveries of all ports.
fn delivered_rows(
    alloc: Global,
    seats: &[PortSeat],
    switch: &PlainSwitch,
) -> Result<Vec<DeliverRow>, NoMemory>
    requires { All (λ seat. IsPort switch.now seat.unit) seats.now }
    ensures { IfOk result (λ rows. rows.items ≡
        flat_map (λ seat. deliver_rows seat.unit (port_in switch.now seat)) seats.now) }
{
    let mut rows = Vec::new(alloc);
    for seat in seats {
        put_deliveries_of(alloc, &mut rows, seat, switch)?;
    }
    Ok(rows)
}

// Adds those of a seat.
fn put_deliveries_of(
    alloc: Global,
    rows: &mut Vec<DeliverRow>,
    seat: &PortSeat,
    switch: &PlainSwitch,
) -> Result<(), NoMemory>
    requires { IsPort switch.now seat.now.unit }
    ensures { OnOk result (rows.new.items ≡ rows.old.items
        ++ deliver_rows seat.now.unit (port_in switch.now seat.now)) }
{
    put_deliveries(alloc, rows, seat.unit, switch.port(seat.unit))
}

// Adds the deliveries of a port.
fn put_deliveries(
    alloc: Global,
    rows: &mut Vec<DeliverRow>,
    unit: UnitId,
    port: &PlainPort,
) -> Result<(), NoMemory>
    ensures { OnOk result (rows.new.items ≡ rows.old.items
        ++ deliver_rows unit port.now) }
{
    put_each_delivery(alloc, rows, unit, port.deliveries())
}

// Adds deliveries.
fn put_each_delivery(
    alloc: Global,
    rows: &mut Vec<DeliverRow>,
    unit: UnitId,
    deliveries: &[lan_buffers::DeliverRow],
) -> Result<(), NoMemory>
    ensures { OnOk result (rows.new.items ≡ rows.old.items
        ++ map (deliver_row_of unit) deliveries.now) }
{
    for row in deliveries {
        rows.push(deliver_row(alloc, unit, row)?)?;
    }
    Ok(())
}

// Makes the row of a delivery.
fn deliver_row(
    alloc: Global,
    unit: UnitId,
    row: &lan_buffers::DeliverRow,
) -> Result<DeliverRow, NoMemory>
    ensures { IfOk result (λ made. made ≡ deliver_row_of unit row.now) }
{
    Ok(DeliverRow {
        unit,
        session: row.session,
        post: row.post,
        sender: row.name.who,
        frame: row.name.mark,
        filled: if row.blank {
            Filled::Blank
        } else {
            Filled::Frame
        },
        to: piece_rows(alloc, row.to.as_slice())?,
    })
}

// Gathers the receive entries of all ports that were taken.
fn harvested_rows(
    alloc: Global,
    seats: &[PortSeat],
    switch: &PlainSwitch,
) -> Result<Vec<HarvestRow>, NoMemory>
    requires { All (λ seat. IsPort switch.now seat.unit) seats.now }
    ensures { IfOk result (λ rows. rows.items ≡
        flat_map (λ seat. harvest_rows seat.unit (port_in switch.now seat)) seats.now) }
{
    let mut rows = Vec::new(alloc);
    for seat in seats {
        put_harvests_of(&mut rows, seat, switch)?;
    }
    Ok(rows)
}

// Adds those of a seat.
fn put_harvests_of(
    rows: &mut Vec<HarvestRow>,
    seat: &PortSeat,
    switch: &PlainSwitch,
) -> Result<(), NoMemory>
    requires { IsPort switch.now seat.now.unit }
    ensures { OnOk result (rows.new.items ≡ rows.old.items
        ++ harvest_rows seat.now.unit (port_in switch.now seat.now)) }
{
    put_harvests(rows, seat.unit, switch.port(seat.unit))
}

// Adds the receive entries of a port that were taken.
fn put_harvests(rows: &mut Vec<HarvestRow>, unit: UnitId, port: &PlainPort) -> Result<(), NoMemory>
    ensures { OnOk result (rows.new.items ≡ rows.old.items
        ++ harvest_rows unit port.now) }
{
    put_each_harvest(rows, unit, port.harvests())
}

// Adds receive entries that were taken.
fn put_each_harvest(
    rows: &mut Vec<HarvestRow>,
    unit: UnitId,
    harvests: &[lan_buffers::HarvestRow],
) -> Result<(), NoMemory>
    ensures { OnOk result (rows.new.items ≡ rows.old.items
        ++ map (harvest_row_of unit) harvests.now) }
{
    for row in harvests {
        rows.push(HarvestRow {
            unit,
            session: row.session,
            high: row.high,
            low: row.low,
        })?;
    }
    Ok(())
}
