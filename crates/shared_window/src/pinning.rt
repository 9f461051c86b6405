// The entries of a range, pinned by a seat in rising order, and released.
ghost use Rattle.std.specs.Prelude.{◌≡◌, ◌+◌, ◌/◌, ◌<◌, ◌≤◌, IfOk, IfErr};
ghost use Rattle.tce_window.specs.declared.piece.TheConstants.{MOST_BYTES};
ghost use Rattle.vio_num.specs.declared.TheConstants.{PAGE_BYTES};
ghost use Rattle.tce_window.specs.Grant.{grants};
ghost use Rattle.entry_slots.specs.Entries.{IsNext};
ghost use Rattle.shared_window.specs.Pinning.{PinsPiece, RefusesPiece, pinned_by, PinsRange, RefusesRange, Releases};

use arrayvec::ArrayVec;
use entry_slots::{Entries, EntrySeat};
use tce_window::{HoldFault, MOST_PIECES, Piece, Right};
use vio_num::{PAGE_BYTES, UnitId};

/// Pins the entries that a range of 1 to 65,536 bytes touches, and gives its pieces, each with no place among
/// strokes. Where an entry is past the window or lacks the right, none stays pinned.
pub(crate) fn pin_range(
    entries: &Entries,
    seat: &mut EntrySeat,
    unit: UnitId,
    ioba: u64,
    len: u32,
    right: Right,
) -> Result<ArrayVec<Piece, MOST_PIECES>, HoldFault>
    requires ours { seat.old.entries ≡ entries.now.id }
    requires free { seat.old.held_count ≡ 0 }
    requires len { (1 ≤ len) × (len ≤ MOST_BYTES) }
    ensures ok { IfOk result (λ pieces.
        PinsRange unit entries.now.count right ioba len seat.old pieces.items seat.new) }
    ensures err { IfErr result (λ fault.
        RefusesRange entries.now.count right ioba len seat.old fault seat.new) }
{
    let first = ioba / PAGE_BYTES;
    if first >= u64::from(entries.count()) {
        return Err(HoldFault::Past { entry: first });
    }
    let mut pieces = ArrayVec::new();
    let mut done = 0;
    while done < len {
        let address = ioba + u64::from(done);
        match pin_piece(entries, seat, unit, address, len - done, right) {
            Ok(piece) => {
                done += u32::from(piece.len);
                pieces.push(piece);
            }
            Err(fault) => {
                let count = pieces.len() as u16 + pins_of(&fault);
                unpin_all(entries, seat, first as u16, count);
                return Err(fault);
            }
        }
    }
    Ok(pieces)
}

// Pins the entry of this address, behind those that the seat holds, and gives the piece with which a range of
// `left` bytes begins there. An entry that lacks the right stays pinned.
fn pin_piece(
    entries: &Entries,
    seat: &mut EntrySeat,
    unit: UnitId,
    address: u64,
    left: u32,
    right: Right,
) -> Result<Piece, HoldFault>
    requires ours { seat.old.entries ≡ entries.now.id }
    requires next { IsNext seat.old (address / PAGE_BYTES) }
    requires some { 1 ≤ left }
    ensures ok { IfOk result (λ piece.
        PinsPiece unit entries.now.count right address left seat.old piece seat.new) }
    ensures err { IfErr result (λ fault.
        RefusesPiece entries.now.count right address seat.old fault seat.new) }
{
    let entry = address / PAGE_BYTES;
    if entry >= u64::from(entries.count()) {
        return Err(HoldFault::Past { entry });
    }
    let word = entries.pin(seat, entry as u16);
    let tce = word.value();
    if !is_granted(right, tce) {
        return Err(HoldFault::NotGranted {
            entry: entry as u16,
            version: word.version(),
            tce,
        });
    }
    let offset = (address % PAGE_BYTES) as u16;
    Ok(Piece {
        unit,
        entry: entry as u16,
        version: word.version(),
        page: (tce / PAGE_BYTES) as u16,
        offset,
        len: left.min(PAGE_BYTES as u32 - u32::from(offset)) as u16,
        at: 0,
    })
}

// Counts the entries that stay pinned where this fault is answered.
fn pins_of(fault: &HoldFault) -> u16
    ensures { result ≡ pinned_by fault.now }
{
    match fault {
        HoldFault::NotGranted { .. } => 1,
        _ => 0,
    }
}

/// Releases the entries that the seat holds: `count` of them, from `first` on. The words that are read show
/// that none took a value while it was held.
pub(crate) fn unpin_all(entries: &Entries, seat: &mut EntrySeat, first: u16, count: u16)
    requires ours { seat.old.entries ≡ entries.now.id }
    requires held { seat.old.held_count ≡ count }
    requires first { 0 < count → seat.old.held_from ≡ first }
    requires within { 0 < count → first + count ≤ entries.now.count }
    ensures { Releases seat.old count seat.new }
{
    let _few = entries.count();
    for k in 0..count {
        let _word = entries.unpin(seat, first + k);
    }
}

// Tells whether the value grants the right.
fn is_granted(right: Right, tce: u64) -> bool
    ensures { result ≡ grants right tce }
{
    match right {
        Right::Read => tce % 2 == 1,
        Right::Write => tce / 2 % 2 == 1,
    }
}
