// Strokes and pages under strokes that overlap and lie at the edges, and a page without room.
use page_slots::{Page, Stroke, StrokeName};
use std::alloc::Global;
use std::test::Fail;
use vio_num::{Bytes, NoMemory, UnitId};

const SEVENS: &[u8] = &[7; 4096];

fn name(mark: u64) -> StrokeName {
    StrokeName {
        who: UnitId {
            partition: 1,
            unit: 0,
        },
        mark,
    }
}

// Makes a stroke of a copy of the bytes, if they lie in the page.
fn copied(alloc: Global, mark: u64, offset: u16, bytes: &[u8]) -> Result<Stroke, NoMemory> {
    if bytes.len() > 4096 || bytes.len() + offset as usize > 4096 {
        return Err(NoMemory);
    }
    Stroke::new(alloc, name(mark), offset, bytes)
}

// Makes a stroke of bytes that were gathered before, if they lie in the page.
fn gathered(mark: u64, offset: u16, bytes: Bytes) -> Result<Stroke, NoMemory> {
    if bytes.len() > 4096 || bytes.len() + offset as usize > 4096 {
        return Err(NoMemory);
    }
    Ok(Stroke::from_bytes(name(mark), offset, bytes))
}

// Tells whether the stroke has this mark, place and bytes.
fn is_made_of(stroke: &Stroke, mark: u64, offset: u16, bytes: &[u8]) -> bool {
    stroke.name() == name(mark) && stroke.offset() == offset && stroke.bytes() == bytes
}

// Writes the stroke into room made for it, and gives its place.
fn write(page: &mut Page, stroke: Stroke) -> Result<u32, NoMemory> {
    page.reserve(1)?;
    Ok(page.write(stroke))
}

// A page with these strokes, each marked with its place; none where one was given another place.
fn written(alloc: Global, strokes: &[(u16, &[u8])]) -> Result<Option<Page>, NoMemory> {
    let mut page = Page::zero(alloc)?;
    for (place, (offset, bytes)) in strokes.iter().enumerate() {
        let stroke = copied(alloc, place as u64, *offset, bytes)?;
        if write(&mut page, stroke)? as usize != place {
            return Ok(None);
        }
    }
    Ok(Some(page))
}

// The byte that a page has at this place which begins and ends so, and has zeros between.
fn between(front: &[u8], back: &[u8], place: usize) -> u8 {
    match front.get(place) {
        Some(byte) => *byte,
        None => {
            let behind = place.wrapping_add(back.len()).wrapping_sub(4096);
            back.get(behind).copied().unwrap_or(0)
        }
    }
}

// Tells whether the page lends bytes that begin and end so, and are zeros between.
fn lends(page: &Page, front: &[u8], back: &[u8]) -> bool {
    let lent = page.bytes();
    let mut each = lent.iter().enumerate();
    lent.len() == 4096 && each.all(|(place, byte)| *byte == between(front, back, place))
}

// Tells whether the page's bytes are read as they are lent.
fn is_read_as_lent(page: &Page) -> bool {
    let mut read = [1; 4096];
    page.read(0, &mut read);
    read.as_slice() == page.bytes()
}

// The byte that is read at this place of the page.
fn byte_at(page: &Page, place: u16) -> u8 {
    let mut byte = [255];
    if place < 4096 {
        page.read(place, &mut byte);
    } else {
        page.read(4096, &mut []);
    }
    byte[0]
}

// Places, and numbers of bytes there.
static PLACES: [(u16, usize); 6] = [(0, 0), (0, 1), (0, 4096), (4095, 1), (4096, 0), (17, 300)];

// Tells whether a stroke of a copy of these bytes is made of them.
fn is_copied(alloc: Global, offset: u16, bytes: &[u8]) -> Result<bool, NoMemory> {
    let stroke = copied(alloc, 9, offset, bytes)?;
    Ok(is_made_of(&stroke, 9, offset, bytes))
}

// Tells whether a stroke of these bytes, which were gathered before, is made of them.
fn is_gathered(alloc: Global, mark: u64, offset: u16, bytes: &[u8]) -> Result<bool, NoMemory> {
    let stroke = gathered(mark, offset, Bytes::from_slice(alloc, bytes)?)?;
    Ok(is_made_of(&stroke, mark, offset, bytes))
}

// Tells both of as many sevens.
fn are_made_of_sevens(alloc: Global, offset: u16, len: usize) -> Result<(bool, bool), NoMemory> {
    let sevens = vec![in alloc; 7; len]?;
    let is_copied = is_copied(alloc, offset, &sevens)?;
    Ok((is_copied, is_gathered(alloc, u64::MAX, offset, &sevens)?))
}

#[test]
fn a_stroke_tells_what_it_was_made_of(rt: HostRuntime) -> Result<(), Fail> {
    for (offset, len) in PLACES.iter() {
        let are_made = are_made_of_sevens(rt.alloc(), *offset, *len)?;
        assert_eq!(rt; are_made, (true, true), "{len} at {offset}");
    }
    assert!(rt; is_gathered(rt.alloc(), 0, 4093, b"one")?);
    Ok(())
}

/// Strokes, and the first bytes and the last of a page that has them.
type Row = (
    &'static [(u16, &'static [u8])],
    &'static [u8],
    &'static [u8],
);

static PAGES: [Row; 10] = [
    (&[], b"", b""),
    (&[(0, b"")], b"", b""),
    (&[(0, b"\x07")], b"\x07", b""),
    (&[(0, SEVENS)], SEVENS, b""),
    (&[(4095, b"\x07")], b"", b"\x07"),
    (&[(4096, b"")], b"", b""),
    (
        &[
            (0, b"ab"),
            (4095, b"x"),
            (4094, b"yz"),
            (0, b"c"),
            (4095, b"w"),
            (4093, b"uv"),
            (4096, b""),
        ],
        b"cb",
        b"uvw",
    ),
    (
        &[
            (0, b""),
            (4095, b"z"),
            (0, b"abcdef"),
            (2, b"XY"),
            (5, b"nop"),
            (4096, b""),
        ],
        b"abXYenop",
        b"z",
    ),
    (
        &[(4095, b"z"), (0, b"abcdef"), (2, b"XY"), (0, SEVENS)],
        SEVENS,
        b"",
    ),
    (&[(3, b"ab"), (0, b"c")], b"c\0\0ab", b""),
];

static READ_AT: [u16; 10] = [0, 1, 2, 3, 4, 5, 7, 8, 4094, 4095];

// Tells whether each byte of a page that begins and ends so is read alone, and none behind the page.
fn are_read(page: &Page, front: &[u8], back: &[u8]) -> bool {
    for place in READ_AT.iter() {
        if byte_at(page, *place) != between(front, back, usize::from(*place)) {
            return false;
        }
    }
    byte_at(page, 4096) == 255
}

// Tells whether a page has as many strokes as the row, and its bytes.
fn shows(page: &Page, row: &Row) -> bool {
    let (strokes, front, back) = *row;
    page.strokes().len() == strokes.len()
        && lends(page, front, back)
        && is_read_as_lent(page)
        && are_read(page, front, back)
}

// Tells whether a page that is written so shows it.
fn is_shown(alloc: Global, row: &Row) -> Result<bool, NoMemory> {
    match written(alloc, row.0)? {
        Some(page) => Ok(shows(&page, row)),
        None => Ok(false),
    }
}

#[test]
fn the_last_stroke_shows(rt: HostRuntime) -> Result<(), Fail> {
    for (number, row) in PAGES.iter().enumerate() {
        assert!(rt; is_shown(rt.alloc(), row)?, "of row {number}");
    }
    Ok(())
}

// Makes room for so many strokes: tells whether there is room, and how many strokes there are.
fn room_for(page: &mut Page, room: u32) -> (bool, usize) {
    let is_made = page.reserve(room).is_ok();
    (is_made, page.strokes().len())
}

// Tells both of a page for three strokes and then two.
fn empty_room(page: &mut Page) -> ((bool, usize), (bool, usize)) {
    let three = room_for(page, 3);
    (three, room_for(page, 2))
}

// Tells both of a page for the most strokes and then one.
fn full_room(page: &mut Page) -> ((bool, usize), (bool, usize)) {
    let most = room_for(page, u32::MAX);
    (most, room_for(page, 1))
}

// What is told of a new page, the place of a stroke that is written there, and what is told then.
type Rooms = (
    ((bool, usize), (bool, usize)),
    u32,
    ((bool, usize), (bool, usize)),
);

fn rooms(alloc: Global) -> Result<Rooms, NoMemory> {
    let stroke = copied(alloc, 0, 0, b"a")?;
    let mut page = Page::zero(alloc)?;
    let empty = empty_room(&mut page);
    let place = write(&mut page, stroke)?;
    Ok((empty, place, full_room(&mut page)))
}

#[test]
fn room_for_two_to_the_32nd_stroke_is_refused(rt: HostRuntime) -> Result<(), Fail> {
    let want = (((true, 0), (true, 0)), 0, ((false, 1), (true, 1)));
    assert_eq!(rt; rooms(rt.alloc())?, want);
    Ok(())
}

// Tells whether a stroke is made of these bytes, and gives them away.
fn is_given(stroke: Stroke, mark: u64, offset: u16, bytes: &[u8]) -> bool {
    let is_made = is_made_of(&stroke, mark, offset, bytes);
    is_made && stroke.into_bytes().as_slice() == bytes
}

static GIVEN: [(u16, &[u8]); 2] = [(7, &[1, 2, 3]), (4096, &[])];

// Counts the strokes that a page gives away; none where one is another than it was made of.
fn given_by(page: Page) -> Option<usize> {
    let mut strokes: usize = 0;
    for stroke in page.into_strokes() {
        let (offset, bytes) = *GIVEN.get(strokes)?;
        if !is_given(stroke, strokes as u64, offset, bytes) {
            return None;
        }
        strokes = strokes.saturating_add(1);
    }
    Some(strokes)
}

#[test]
fn strokes_are_given_away_with_their_bytes(rt: HostRuntime) -> Result<(), Fail> {
    let given = match written(rt.alloc(), &GIVEN)? {
        Some(page) => given_by(page),
        None => None,
    };
    assert_eq!(rt; given, Some(2));
    Ok(())
}
