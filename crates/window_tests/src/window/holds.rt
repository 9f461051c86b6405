// What is written and read through a range that is held, and what its owner is told meanwhile.
ghost use Rattle.std.specs.Prelude.{◌≡◌, ◌≤◌, length, IfOk};

use super::{Free, Row, Seen, Step, UNIT};
use arrayvec::ArrayVec;
use page_slots::StrokeName;
use std::alloc::Global;
use std::test::Fail;
use tce_window::{
    GuestPort, HoldFault, NamedFault, OwnFault, OwnerPort, Piece, PlainWindow, Right, TceAnswer,
};
use vio_num::{NoMemory, UnitId};

/// Another unit's name.
const COPIER: StrokeName = StrokeName {
    who: UnitId {
        partition: 0,
        unit: 1,
    },
    mark: 77,
};

/// As many bytes, each of which tells its place.
fn pattern(alloc: Global, len: usize) -> Result<Vec<u8>, NoMemory>
    ensures { IfOk result (λ bytes. length bytes.items ≡ len) }
{
    let mut bytes = vec![in alloc; 0; len]?;
    for (place, byte) in bytes.iter_mut().enumerate() {
        *byte = (place % 251) as u8;
    }
    Ok(bytes)
}

/// Reads a range through any guest's port, if it is held.
fn read_through<G: GuestPort>(guest: &mut G, ioba: u64, out: &mut [u8]) -> Result<(), HoldFault>
    requires free { (G.state guest.old).held_count ≡ 0 }
    requires len { (1 ≤ length out.old) × (length out.old ≤ 65536) }
    ensures { (G.state guest.new).held_count ≡ 0 }
{
    let held = guest.hold(ioba, out.len() as u32, Right::Read)?;
    held.read(out);
    guest.give_back(held);
    Ok(())
}

/// The pieces of a range that is written through any guest's port, if it is held.
fn write_through<G: GuestPort>(
    guest: &mut G,
    ioba: u64,
    bytes: &[u8],
) -> Option<ArrayVec<Piece, 17>>
    requires free { (G.state guest.old).held_count ≡ 0 }
    requires len { (1 ≤ length bytes.now) × (length bytes.now ≤ 65536) }
    ensures { (G.state guest.new).held_count ≡ 0 }
{
    let Ok(mut held) = guest.hold(ioba, bytes.len() as u32, Right::Write) else {
        return None;
    };
    let written = held.write(COPIER, bytes);
    let mut pieces = ArrayVec::new();
    let kept = pieces.try_extend_from_slice(held.pieces());
    guest.give_back(held);
    if written.is_err() || kept.is_err() {
        return None;
    }
    Some(pieces)
}

/// A piece of the unit's: its entry, version, page, offset, length and stroke.
type Told = (u16, u32, u16, u16, u16, u32);

/// Whether a piece is the unit's, and this.
fn is_told(p: &Piece, told: Told) -> bool {
    p.unit == UNIT && (p.entry, p.version, p.page, p.offset, p.len, p.at) == told
}

/// Whether the pieces are these.
fn are_told(pieces: &[Piece], told: &[Told]) -> bool {
    for (piece, told) in pieces.iter().zip(told.iter()) {
        if !is_told(piece, *told) {
            return false;
        }
    }
    pieces.len() == told.len()
}

/// Whether the bytes of the range are these, through a guest's port and for the owner.
fn shows(window: &mut PlainWindow, ioba: u64, bytes: &[u8], out: &mut [u8]) -> bool
    requires free { window.old.held_count ≡ 0 }
    requires len { (1 ≤ length out.old) × (length out.old ≤ 65536) }
{
    out.fill(0);
    let is_read = read_through(window, ioba, out).is_ok() && &*out == bytes;
    out.fill(0);
    is_read && OwnerPort::read(window, ioba, out).is_ok() && &*out == bytes
}

/// Whether the pieces are those of 65,536 bytes from address 1 on.
fn are_seventeen(pieces: &[Piece]) -> bool {
    for (number, piece) in (0..17u16).zip(pieces.iter()) {
        let (offset, len) = match number {
            0 => (1, 4095),
            16 => (0, 1),
            _ => (0, 4096),
        };
        if !is_told(piece, (number, 0, number, offset, len, 0)) {
            return false;
        }
    }
    pieces.len() == 17
}

/// Whether the bytes are written from address 1 on and shown, and their pieces are as many as pages.
fn write_seventeen(window: &mut PlainWindow, bytes: &[u8], out: &mut [u8]) -> (bool, bool)
    requires free { window.old.held_count ≡ 0 }
    requires len { length bytes.now ≡ 65536 }
    requires out { length out.old ≡ 65536 }
{
    match write_through(window, 1, bytes) {
        Some(pieces) => (shows(window, 1, bytes, out), are_seventeen(&pieces)),
        None => (false, false),
    }
}

/// The same of a new window.
fn written_seventeen(alloc: Global) -> Result<(bool, bool), NoMemory> {
    let bytes = pattern(alloc, 65_536)?;
    let mut out = pattern(alloc, 65_536)?;
    let mut window = PlainWindow::open(alloc, UNIT, 17)?;
    Ok(write_seventeen(&mut window, &bytes, &mut out))
}

#[test]
fn a_range_over_seventeen_pages_has_as_many_pieces(rt: HostRuntime) -> Result<(), Fail> {
    assert_eq!(rt; written_seventeen(rt.alloc())?, (true, true));
    Ok(())
}

static BEFORE: [Row; 2] = [
    (Step::Write(0, b"before", 1), Seen::Written(Ok(()))),
    (Step::Put(4096, 3), Seen::Answer(TceAnswer::Done)),
];

/// The first bytes of the second entry's, which lie over those of the first.
const SHOWN: [u8; 6] = [80, 81, 0, 0, 0, 0];

static BEHIND: [Row; 3] = [
    (Step::Read(0, 2), Seen::Read(Ok(()), SHOWN)),
    (Step::ReadNamed(0, 2, COPIER), Seen::Named(Ok(()), SHOWN)),
    (Step::Read(4096, 2), Seen::Read(Ok(()), [0; 6])),
];

/// The pieces of two entries on one page that has a stroke.
static IN_ORDER: [Told; 2] = [(0, 0, 0, 0, 4096, 1), (1, 1, 0, 0, 4096, 2)];

/// Whether the pieces of a write from the first entry on are these.
fn is_written_as(window: &mut PlainWindow, bytes: &[u8], told: &[Told]) -> bool
    requires free { window.old.held_count ≡ 0 }
    requires len { (1 ≤ length bytes.now) × (length bytes.now ≤ 65536) }
    ensures { window.new.held_count ≡ 0 }
{
    match write_through(window, 0, bytes) {
        Some(pieces) => are_told(&pieces, told),
        None => false,
    }
}

/// The first row before a write of 8,192 bytes that goes otherwise, and behind it; whether the pieces are in order.
fn written_in_order(
    free: &mut Free,
    bytes: &[u8],
) -> Result<(Option<usize>, bool, Option<usize>), NoMemory>
    requires { length bytes.now ≡ 8192 }
{
    let before = free.first_other(&BEFORE)?;
    let is_written = is_written_as(&mut free.window, bytes, &IN_ORDER);
    Ok((before, is_written, free.first_other(&BEHIND)?))
}

/// The same of a new window.
fn write_in_order(alloc: Global) -> Result<(Option<usize>, bool, Option<usize>), NoMemory> {
    let bytes = pattern(alloc, 8192)?;
    let mut free = Free::open(alloc, 2)?;
    written_in_order(&mut free, &bytes)
}

#[test]
fn strokes_of_two_entries_on_one_page_stand_in_order(rt: HostRuntime) -> Result<(), Fail> {
    assert_eq!(rt; write_in_order(rt.alloc())?, (None, true, None));
    Ok(())
}

/// What the owner is told of its entries while a page is held: of a list of values, and of one value in two
/// entries.
fn put_meanwhile(window: &mut PlainWindow) -> (TceAnswer, TceAnswer)
    requires { 16 ≤ window.old.spare }
    ensures pages { window.new.pages ≡ window.old.pages }
    ensures count { window.new.held_count ≡ window.old.held_count }
    ensures from { window.new.held_from ≡ window.old.held_from }
    ensures unit { window.new.unit ≡ window.old.unit }
{
    let listed = window.put_tce_indirect(0, &[3, 3, 3]);
    (listed, window.stuff_tce(4096, 3, 2))
}

/// What it is told of its pages.
fn read_meanwhile(
    window: &mut PlainWindow,
) -> (
    Result<(), OwnFault>,
    Result<(), OwnFault>,
    Result<(), NamedFault>,
)
    ensures pages { window.new.pages ≡ window.old.pages }
    ensures count { window.new.held_count ≡ window.old.held_count }
    ensures from { window.new.held_from ≡ window.old.held_from }
    ensures unit { window.new.unit ≡ window.old.unit }
{
    let mut out = [0; 2];
    let own = window.read(0, &mut out);
    let across = window.read(4095, &mut out);
    (own, across, window.read_named(8190, &mut out, COPIER))
}

/// That the second entry is held, where so many values were put before it.
fn busy(done: u32) -> TceAnswer {
    TceAnswer::Busy {
        entry: 1,
        pins: 1,
        done,
    }
}

/// Whether the owner is refused the second entry and its page while they are held; none where they are not held.
fn are_refused(window: &mut PlainWindow) -> Option<(bool, bool)>
    requires free { window.old.held_count ≡ 0 }
    requires spare { 16 ≤ window.old.spare }
{
    let Ok(held) = window.hold(4096, 4096, Right::Write) else {
        return None;
    };
    let put = put_meanwhile(window);
    let read = read_meanwhile(window);
    window.give_back(held);
    let (page, word) = (1, 1);
    let in_use = Err(OwnFault::InUse { page, word });
    let is_read = read == (Ok(()), in_use, Err(NamedFault::InUse { page, word }));
    Some((put == (busy(1), busy(0)), is_read))
}

/// The same of a new window, and how many values it has then.
fn refused_meanwhile(alloc: Global) -> Result<(Option<(bool, bool)>, usize), NoMemory> {
    let mut window = PlainWindow::open(alloc, UNIT, 3)?;
    window.reserve(16)?;
    let are_refused = are_refused(&mut window);
    Ok((are_refused, window.values().len()))
}

#[test]
fn what_is_held_keeps_its_value_and_its_page(rt: HostRuntime) -> Result<(), Fail> {
    let want = (Some((true, true)), 1);
    assert_eq!(rt; refused_meanwhile(rt.alloc())?, want);
    Ok(())
}

/// What the owner is told of the first page and of the second while the first is held.
fn while_held(window: &mut PlainWindow) -> (TceAnswer, Result<(), OwnFault>, Result<(), OwnFault>)
    requires { 1 ≤ window.old.spare }
    ensures pages { window.new.pages ≡ window.old.pages }
    ensures count { window.new.held_count ≡ window.old.held_count }
    ensures from { window.new.held_from ≡ window.old.held_from }
    ensures unit { window.new.unit ≡ window.old.unit }
{
    let mut out = [0; 4];
    let answer = window.put_tce(0, 0);
    let first = window.read(0, &mut out);
    (answer, first, window.read(4096, &mut out))
}

/// The pieces of two entries on one page.
static ON_ONE_PAGE: [Told; 2] = [(0, 0, 0, 0, 4096, 0), (1, 1, 0, 0, 4096, 0)];

/// Whether the pieces of the first two entries are these, and what the owner is told while they are held and read.
fn read_while_told(
    window: &mut PlainWindow,
    out: &mut [u8],
    told: &[Told],
) -> Option<
    (
        bool,
        (TceAnswer, Result<(), OwnFault>, Result<(), OwnFault>),
    ),
>
    requires free { window.old.held_count ≡ 0 }
    requires spare { 1 ≤ window.old.spare }
    requires len { length out.old ≡ 8192 }
{
    let Ok(held) = window.hold(0, 8192, Right::Read) else {
        return None;
    };
    held.read(out);
    let are_told = are_told(held.pieces(), told);
    let answers = while_held(window);
    window.give_back(held);
    Some((are_told, answers))
}

/// Whether the owner is told that the first entry is held and its page in use, and reads the second page.
fn is_told_so(answers: (TceAnswer, Result<(), OwnFault>, Result<(), OwnFault>)) -> bool {
    let busy = TceAnswer::Busy {
        entry: 0,
        pins: 1,
        done: 0,
    };
    let used = Err(OwnFault::InUse { page: 0, word: 1 });
    answers == (busy, used, Ok(()))
}

/// Whether the pieces of two entries on one page are these, the owner is told so, and the last byte that is read is 0;
/// none where they are not held.
fn held_once(alloc: Global) -> Result<Option<(bool, bool, bool)>, NoMemory> {
    let mut out = pattern(alloc, 8192)?;
    let mut window = PlainWindow::open(alloc, UNIT, 2)?;
    super::put(&mut window, 4096, 3)?;
    window.reserve(8)?;
    let seen = read_while_told(&mut window, &mut out, &ON_ONE_PAGE);
    let is_zero = out.last() == Some(&0);
    Ok(match seen {
        Some((are_pieces, answers)) => Some((are_pieces, is_told_so(answers), is_zero)),
        None => None,
    })
}

#[test]
fn two_entries_on_one_page_hold_it_once(rt: HostRuntime) -> Result<(), Fail> {
    assert_eq!(rt; held_once(rt.alloc())?, Some((true, true, true)));
    Ok(())
}
