// The bytes that a copy moves, and the strokes that it lays, piece by piece.
ghost use Rattle.std.specs.Prelude.{◌≡◌, ◌+◌, ◌≤◌, IfOk, length};

use super::{COPIER, SOURCE, TARGET, strokes_on, window};
use rdma_copy::{CopyAnswer, CopyRecord, copy_rdma};
use std::alloc::Global;
use tce_window::{Piece, PlainWindow};
use vio_num::{NoMemory, UnitId};

/// The byte at this address of a source's region.
fn byte_at(address: usize) -> u8 {
    (address % 251) as u8
}

/// As many bytes of a source's region, from this address on.
fn bytes_from(alloc: Global, address: usize, len: usize) -> Result<Vec<u8>, NoMemory>
    requires { address + len ≤ 1048576 }
    ensures { IfOk result (λ bytes. length bytes.items ≡ len) }
{
    let mut bytes = vec![in alloc; 0; len]?;
    for (place, byte) in bytes.iter_mut().enumerate() {
        *byte = byte_at(address + place);
    }
    Ok(bytes)
}

/// A source of so many pages, one stroke on each, with this value in its second entry, if there is one.
fn source(alloc: Global, pages: u16, tce: Option<u64>) -> Result<PlainWindow, NoMemory>
    requires { (1 ≤ pages) × (pages ≤ 256) }
    ensures { IfOk result (λ window. window.held_count ≡ 0) }
{
    let mut source = window(alloc, SOURCE, pages, tce)?;
    for page in 0..pages {
        let address = page as usize * 4096;
        let bytes = bytes_from(alloc, address, 4096)?;
        let _written = source.write(address as u64, &bytes, 1);
    }
    Ok(source)
}

/// What a copy leaves of `len` bytes between new windows of so many pages, whose second entries have these
/// values: its record, if it was made, and the target.
fn copied(
    alloc: Global,
    pages: u16,
    tces: (Option<u64>, Option<u64>),
    addresses: (u64, u64),
    len: u64,
) -> Result<(Option<CopyRecord>, PlainWindow), NoMemory>
    requires { (1 ≤ pages) × (pages ≤ 256) }
{
    let mut source = source(alloc, pages, tces.0)?;
    let mut target = window(alloc, TARGET, pages, tces.1)?;
    let answer = copy_rdma(
        alloc,
        &mut source,
        addresses.0,
        &mut target,
        addresses.1,
        len,
        COPIER,
    );
    match answer {
        CopyAnswer::Copied(copy) => Ok((Some(copy), target)),
        _ => Ok((None, target)),
    }
}

/// A piece but for its unit: its entry, version, page, offset, length and stroke.
type Told = (u16, u32, u16, u16, u16, u32);

/// Whether a piece is this of the unit's.
fn is_told(p: &Piece, unit: UnitId, told: Told) -> bool {
    p.unit == unit && (p.entry, p.version, p.page, p.offset, p.len, p.at) == told
}

/// Whether the pieces are these of the unit's.
fn are_told(pieces: &[Piece], unit: UnitId, told: &[Told]) -> bool {
    for (piece, told) in pieces.iter().zip(told.iter()) {
        if !is_told(piece, unit, *told) {
            return false;
        }
    }
    pieces.len() == told.len()
}

/// Whether the strokes on a page of the target are the copier's, and each has its offset, and so many bytes
/// of the source's region from its address on.
fn are_laid(target: &mut PlainWindow, page: u16, laid: &[(u16, usize, usize)]) -> bool {
    let Some(strokes) = strokes_on(target, page) else {
        return false;
    };
    if strokes.len() != laid.len() {
        return false;
    }
    for (stroke, (offset, address, len)) in strokes.iter().zip(laid.iter()) {
        let told = (stroke.name(), stroke.offset(), stroke.bytes().len());
        if told != (COPIER, *offset, *len) {
            return false;
        }
        for (place, byte) in stroke.bytes().iter().enumerate() {
            if *byte != byte_at(address.wrapping_add(place)) {
                return false;
            }
        }
    }
    true
}

/// Whether the region has, from `at` on, so many bytes of the source's from `address` on.
fn is_copy(
    alloc: Global,
    target: &mut PlainWindow,
    at: u64,
    address: usize,
    len: usize,
) -> Result<bool, NoMemory>
    requires { address + len ≤ 1048576 }
{
    let mut out = vec![in alloc; 0; len]?;
    let wanted = bytes_from(alloc, address, len)?;
    Ok(target.read(at, &mut out).is_ok() && out == wanted)
}

/// Whether a copy was made, as the copier's, of as many bytes.
fn is_of(copy: &CopyRecord, len: u32) -> bool {
    copy.name == COPIER && copy.len == len
}

/// The offset and the length of a piece at this place, of 65,536 bytes from address 1 on.
fn span_at(place: u16) -> (u16, u16) {
    match place {
        0 => (1, 4095),
        16 => (0, 1),
        _ => (0, 4096),
    }
}

/// Whether the pieces are seventeen of the unit's, one on each page, which stand at this stroke.
fn are_seventeen(pieces: &[Piece], unit: UnitId, at: u32) -> bool {
    for (number, piece) in (0..17u16).zip(pieces.iter()) {
        let (offset, len) = span_at(number);
        if !is_told(piece, unit, (number, 0, number, offset, len, at)) {
            return false;
        }
    }
    pieces.len() == 17
}

/// Whether each of seventeen pages of the target has its stroke.
fn are_seventeen_laid(target: &mut PlainWindow) -> bool {
    for number in 0..17u16 {
        let (offset, len) = span_at(number);
        let address = usize::from(number) * 4096 + usize::from(offset);
        if !are_laid(target, number, &[(offset, address, usize::from(len))]) {
            return false;
        }
    }
    true
}

/// Whether a copy over seventeen pages is recorded piece by piece.
fn is_seventeen(copy: &Option<CopyRecord>) -> bool {
    match copy {
        Some(copy) => {
            is_of(copy, 65_536)
                && are_seventeen(&copy.from, SOURCE, 1)
                && are_seventeen(&copy.to, TARGET, 0)
        }
        None => false,
    }
}

/// Whether such a copy is recorded, its strokes are laid, and its bytes are there.
fn copied_seventeen(alloc: Global) -> Result<(bool, bool, bool), NoMemory> {
    let (copy, mut target) = copied(alloc, 17, (None, None), (1, 1), 65_536)?;
    let is_told = is_seventeen(&copy);
    let are_laid = are_seventeen_laid(&mut target);
    Ok((
        is_told,
        are_laid,
        is_copy(alloc, &mut target, 1, 1, 65_536)?,
    ))
}

#[test]
fn a_copy_over_seventeen_pages_is_a_stroke_on_each(rt: HostRuntime) -> Result<(), NoMemory> {
    assert_eq!(rt; copied_seventeen(rt.alloc())?, (true, true, true));
    Ok(())
}

/// Whether a copy of no bytes is recorded as no piece.
fn is_nothing(copy: &Option<CopyRecord>) -> bool {
    match copy {
        Some(copy) => is_of(copy, 0) && copy.from.is_empty() && copy.to.is_empty(),
        None => false,
    }
}

/// The same of a copy between new windows.
fn copied_nothing(alloc: Global) -> Result<bool, NoMemory> {
    let (copy, _target) = copied(alloc, 17, (None, None), (1, 1), 0)?;
    Ok(is_nothing(&copy))
}

#[test]
fn no_bytes_are_copied_as_no_piece(rt: HostRuntime) -> Result<(), NoMemory> {
    assert!(rt; copied_nothing(rt.alloc())?);
    Ok(())
}

/// A copy between new windows of so many pages, whose second entries have these values, from one address to another, of
/// so many bytes.
struct CopyRow {
    pages: u16,
    tces: (Option<u64>, Option<u64>),
    addresses: (u64, u64),
    len: u64,
    /// The pieces of the source, and those of the target.
    from: &'static [Told],
    to: &'static [Told],
    /// Pages of the target, and the strokes there.
    laid: &'static [(u16, &'static [(u16, usize, usize)])],
    /// Addresses of the target's region, those of the source's whose bytes are there, and how many.
    moved: &'static [(u64, usize, usize)],
}

/// Whether a copy is recorded as these pieces.
fn is_recorded(copy: &Option<CopyRecord>, from: &[Told], to: &[Told]) -> bool {
    match copy {
        Some(copy) => are_told(&copy.from, SOURCE, from) && are_told(&copy.to, TARGET, to),
        None => false,
    }
}

/// Whether each of these pages of the target has its strokes.
fn are_all_laid(target: &mut PlainWindow, laid: &[(u16, &[(u16, usize, usize)])]) -> bool {
    for (page, strokes) in laid {
        if !are_laid(target, *page, strokes) {
            return false;
        }
    }
    true
}

/// Whether the region has these bytes of the source's.
fn are_moved(
    alloc: Global,
    target: &mut PlainWindow,
    moved: &[(u64, usize, usize)],
) -> Result<bool, NoMemory> {
    for (at, address, len) in moved {
        if *address > 65_536 || *len > 65_536 {
            return Ok(false);
        }
        if !is_copy(alloc, target, *at, *address, *len)? {
            return Ok(false);
        }
    }
    Ok(true)
}

/// Whether a copy is recorded as its row says, its strokes are laid, and its bytes are there.
fn play(alloc: Global, row: &CopyRow) -> Result<(bool, bool, bool), NoMemory> {
    if row.pages < 1 || row.pages > 256 {
        return Ok((false, false, false));
    }
    let (copy, mut target) = copied(alloc, row.pages, row.tces, row.addresses, row.len)?;
    let is_recorded = is_recorded(&copy, row.from, row.to);
    let are_laid = are_all_laid(&mut target, row.laid);
    Ok((
        is_recorded,
        are_laid,
        are_moved(alloc, &mut target, row.moved)?,
    ))
}

static TWO_OF_A_TARGET: CopyRow = CopyRow {
    pages: 2,
    tces: (None, Some(3)),
    addresses: (0, 100),
    len: 8000,
    from: &[(0, 0, 0, 0, 4096, 1), (1, 0, 1, 0, 3904, 1)],
    to: &[(0, 0, 0, 100, 3996, 0), (1, 1, 0, 0, 4004, 1)],
    laid: &[(0, &[(100, 0, 3996), (0, 3996, 4004)]), (1, &[])],
    moved: &[(0, 3996, 4004), (4004, 3904, 92)],
};

#[test]
fn two_entries_of_a_target_on_one_page_are_two_strokes(rt: HostRuntime) -> Result<(), NoMemory> {
    assert_eq!(rt; play(rt.alloc(), &TWO_OF_A_TARGET)?, (true, true, true));
    Ok(())
}

static TWO_OF_A_SOURCE: CopyRow = CopyRow {
    pages: 2,
    tces: (Some(1), None),
    addresses: (100, 0),
    len: 8000,
    from: &[(0, 0, 0, 100, 3996, 1), (1, 1, 0, 0, 4004, 1)],
    to: &[(0, 0, 0, 0, 4096, 0), (1, 0, 1, 0, 3904, 0)],
    laid: &[],
    moved: &[(0, 100, 3996), (3996, 0, 4004)],
};

#[test]
fn two_entries_of_a_source_on_one_page_are_read_in_turn(rt: HostRuntime) -> Result<(), NoMemory> {
    assert_eq!(rt; play(rt.alloc(), &TWO_OF_A_SOURCE)?, (true, true, true));
    Ok(())
}

static PARTS: CopyRow = CopyRow {
    pages: 4,
    tces: (None, None),
    addresses: (4000, 100),
    len: 9000,
    from: &[
        (0, 0, 0, 4000, 96, 1),
        (1, 0, 1, 0, 4096, 1),
        (2, 0, 2, 0, 4096, 1),
        (3, 0, 3, 0, 712, 1),
    ],
    to: &[
        (0, 0, 0, 100, 3996, 0),
        (1, 0, 1, 0, 4096, 0),
        (2, 0, 2, 0, 908, 0),
    ],
    laid: &[
        (0, &[(100, 4000, 3996)]),
        (1, &[(0, 7996, 4096)]),
        (2, &[(0, 12_092, 908)]),
        (3, &[]),
    ],
    moved: &[(100, 4000, 9000)],
};

#[test]
fn pieces_of_a_target_join_parts_of_several_pages(rt: HostRuntime) -> Result<(), NoMemory> {
    assert_eq!(rt; play(rt.alloc(), &PARTS)?, (true, true, true));
    Ok(())
}
