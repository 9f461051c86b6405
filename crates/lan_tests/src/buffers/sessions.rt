// Sessions of a port, and its settings.
ghost use Rattle.std.specs.Prelude.{◌≡◌};
ghost use Rattle.lan_buffers.specs.Calls.{IsOpen};

use super::{OWN, RECEIVER, Station, offer};
use lan_buffers::{Deliver, PlainPort, Settings};
use lan_frame::Filters;
use std::alloc::Global;
use std::test::Fail;
use tce_window::PlainWindow;
use vio_num::Mac;

// Tells what a port answers to a frame of 60 bytes that finds no buffer.
fn unbuffered(port: &mut PlainPort, alloc: Global) -> Result<Deliver, Fail>
    ensures { port.new.settings ≡ port.old.settings }
{
    let mut window = PlainWindow::open(alloc, RECEIVER, 1)?;
    Ok(offer(port, &mut window, &[0x5A; 60]))
}

// Tells whether a port has no session: it accepts nothing, has no settings and counts no drop.
fn is_closed(port: &PlainPort) -> bool {
    !port.accepts(OWN)
        && port.settings().is_none()
        && (port.session(), port.drops()) == (0, 0)
        && port.unit() == RECEIVER
        && port.slots() == 2
}

// What a new port answers to a frame, and whether it has no session then.
fn closed(alloc: Global) -> Result<(Deliver, bool), Fail> {
    let mut port = PlainPort::open(alloc, RECEIVER, 2)?;
    let answer = unbuffered(&mut port, alloc)?;
    Ok((answer, is_closed(&port)))
}

#[test]
fn a_closed_port_takes_nothing(rt: HostRuntime) -> Result<(), Fail> {
    let want = (Deliver::Closed { control: 0 }, true);
    assert_eq!(rt; closed(rt.alloc())?, want);
    Ok(())
}

// Tells whether a session is not begun again while it is open, and whether its own address is accepted.
fn is_begun_once(port: &mut PlainPort) -> Result<(bool, bool), Fail>
    requires { IsOpen port.old }
    ensures { port.new.settings ≡ port.old.settings }
{
    port.reserve(1)?;
    let is_once = !port.begin(OWN);
    Ok((is_once, port.accepts(OWN)))
}

// Tells whether a session ends and the next one begins.
fn is_begun_anew(port: &mut PlainPort) -> Result<(bool, bool), Fail>
    requires { IsOpen port.old }
{
    let is_ended = port.end().is_none();
    port.reserve(1)?;
    Ok((is_ended, port.begin(OWN)))
}

// Tells whether a port is in session 2, each session dropped one frame, and no buffer was posted.
fn has_dropped_each(port: &PlainPort) -> bool {
    (port.session(), port.drops()) == (2, 1)
        && port.drop_counts() == [1, 1].as_slice()
        && port.posts().is_empty()
}

// Whether the sessions begin and end so, with what is answered to a frame in either of them.
type Begun = ((bool, bool), Deliver, (bool, bool), Deliver);

fn begun_twice(alloc: Global, port: &mut PlainPort) -> Result<Begun, Fail>
    requires { IsOpen port.old }
{
    let once = is_begun_once(port)?;
    let first = unbuffered(port, alloc)?;
    let anew = is_begun_anew(port)?;
    let second = unbuffered(port, alloc)?;
    Ok((once, first, anew, second))
}

// The same of the port of a new station, and whether it dropped each frame.
fn begun(alloc: Global) -> Result<(Begun, bool), Fail> {
    let Station { mut port, .. } = Station::open(alloc, 2)?;
    let seen = begun_twice(alloc, &mut port)?;
    Ok((seen, has_dropped_each(&port)))
}

#[test]
fn sessions_begin_without_buffers(rt: HostRuntime) -> Result<(), Fail> {
    let none = Deliver::NoSize;
    let want = ((true, true), none, (true, true), none);
    assert_eq!(rt; begun(rt.alloc())?, (want, true));
    Ok(())
}

// A group of stations.
const GROUP: Mac = Mac {
    bytes: [1, 0, 0, 0, 0, 9],
};

// Makes settings, whose filters list the group or nothing.
fn settings_with(reception: bool, filtering: bool, listed: bool) -> Settings {
    let mut filters = Filters::new();
    if listed {
        filters.add(GROUP);
    }
    Settings {
        mac: OWN,
        reception,
        filtering,
        filters,
    }
}

// Tells whether a port with these settings accepts the group, and its own address.
fn accepted(alloc: Global, settings: &Settings) -> Result<(bool, bool), Fail> {
    let mut station = Station::open(alloc, 2)?;
    station.port.set(settings);
    Ok((station.port.accepts(GROUP), station.port.accepts(OWN)))
}

// Whether frames to groups are received, filtered and listed, and whether the group is accepted.
static ACCEPTED: [(bool, bool, bool, bool); 4] = [
    (false, false, true, false),
    (true, false, false, true),
    (true, true, false, false),
    (true, true, true, true),
];

#[test]
fn settings_are_kept(rt: HostRuntime) -> Result<(), Fail> {
    for (reception, filtering, listed, want) in ACCEPTED.iter() {
        let settings = settings_with(*reception, *filtering, *listed);
        assert_eq!(rt; accepted(rt.alloc(), &settings)?, (*want, true));
    }
    Ok(())
}
