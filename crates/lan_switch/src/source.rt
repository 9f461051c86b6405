// The parts of a frame in its sender's window: each is read once, one behind the other.
ghost use Rattle.std.specs.Prelude.{◌≡◌, ◌↔◌, ◌≤◌, ◌<◌, ◌+◌, IfOk, IfErr, OnOk, OnErr, length, take};
ghost use Rattle.tce_window.specs.declared.piece.TheConstants.{MOST_BYTES};
ghost use Rattle.arrayvec.specs.ArrayVec.{array_vec_len};
ghost use Rattle.tce_window.specs.Port.{CountsHold};
ghost use Rattle.lan_buffers.specs.Buffer.{buffer_address, buffer_len};
ghost use Rattle.lan_switch.specs.Source.{AreRead, OnlyReadThrough, Reads, ReadsPart, RefusesPart, RefusesRead, parts_len, parts_of};

use arrayvec::ArrayVec;
use lan_buffers::{buffer_address, buffer_len, is_valid};
use rdma_copy::copied_pieces;
use tce_window::{GuestPort, HoldFault, Piece, Right};

/// The number of descriptors of a frame's parts.
pub const MOST_PARTS: usize = 6;

/// The number of pieces of a frame's parts.
pub const MOST_PIECES: usize = 102;

/// The parts of a frame: the descriptors before the first whose valid bit is off.
pub fn parts_of(descriptors: &[u64]) -> &[u64]
    ensures parts { result.now ≡ parts_of descriptors.now }
    ensures few { length result.now ≤ length descriptors.now }
{
    descriptors.split_at(valid_count(descriptors)).0
}

// Counts the descriptors before the first whose valid bit is off.
fn valid_count(descriptors: &[u64]) -> usize
    ensures parts { take result descriptors.now ≡ parts_of descriptors.now }
    ensures within { result ≤ length descriptors.now }
{
    for (count, descriptor) in descriptors.iter().enumerate() {
        if !is_valid(*descriptor) {
            return count;
        }
    }
    descriptors.len()
}

/// The number of bytes of a frame of these parts.
pub fn parts_len(parts: &[u64]) -> u64
    requires { length parts.now ≤ MOST_PARTS }
    ensures { result ≡ parts_len parts.now }
{
    let mut len = 0;
    for part in parts {
        len += u64::from(buffer_len(*part));
    }
    len
}

/// Reads the parts over the frame, which is as long, and gives the pieces that were read.
pub fn read_parts<G: GuestPort>(
    window: &mut G,
    parts: &[u64],
    frame: &mut [u8],
) -> Result<ArrayVec<Piece, MOST_PIECES>, HoldFault>
    requires free { (G.state window.old).held_count ≡ 0 }
    requires few { length parts.now ≤ MOST_PARTS }
    requires long { length frame.old ≡ parts_len parts.now }
    requires short { length frame.old ≤ 65527 }
    ensures read { IfOk result (λ from. AreRead (G.state window.old) (G.state window.new) parts.now
        from.items frame.new) }
    ensures refused { IfErr result
        (RefusesPart G.is_shared (G.found window.new) (G.state window.old)
        (G.state window.new) parts.now) }
    ensures long { length frame.new ≡ length frame.old }
    ensures window { OnlyReadThrough G.is_shared (G.state window.old) (G.state window.new) }
    ensures counts { CountsHold result (G.state window.old).in_use (G.state window.new).in_use }
{
    let mut from = ArrayVec::new();
    let mut done = 0;
    for part in parts {
        let end = done + buffer_len(*part) as usize;
        match read_part(window, *part, &mut frame[done..end], &mut from) {
            Ok(()) => done = end,
            Err(fault) => return Err(fault),
        }
    }
    Ok(from)
}

// Reads a part, which may be empty, and adds its pieces to those before it.
fn read_part<G: GuestPort>(
    window: &mut G,
    part: u64,
    bytes: &mut [u8],
    from: &mut ArrayVec<Piece, MOST_PIECES>,
) -> Result<(), HoldFault>
    requires free { (G.state window.old).held_count ≡ 0 }
    requires short { length bytes.old ≤ 65527 }
    requires room { array_vec_len from.old + 17 ≤ MOST_PIECES }
    requires long { length bytes.old ≡ buffer_len part }
    ensures read { OnOk result (ReadsPart (G.state window.old) (G.state window.new) part
        from.old.items from.new.items bytes.new) }
    ensures few { array_vec_len from.new ≤ array_vec_len from.old + 17 }
    ensures refused { IfErr result (RefusesRead G.is_shared (G.found window.new)
        (G.state window.old) (G.state window.new) (buffer_address part) (buffer_len part)) }
    ensures long { length bytes.new ≡ length bytes.old }
    ensures window { OnlyReadThrough G.is_shared (G.state window.old) (G.state window.new) }
    ensures counts { CountsHold result (G.state window.old).in_use (G.state window.new).in_use }
{
    if bytes.is_empty() {
        return Ok(());
    }
    let pieces = read_range(window, buffer_address(part), bytes)?;
    match from.try_extend_from_slice(pieces.as_slice()) {
        Ok(()) => Ok(()),
        Err(_) => unreachable!(),
    }
}

/// Reads the range of the window from this address on, 1 to 65,536 bytes, and gives its pieces. Where it
/// refuses, the bytes are as before.
pub fn read_range<G: GuestPort>(
    window: &mut G,
    at: u64,
    bytes: &mut [u8],
) -> Result<ArrayVec<Piece, 17>, HoldFault>
    requires free { (G.state window.old).held_count ≡ 0 }
    requires len { (1 ≤ length bytes.old) × (length bytes.old ≤ MOST_BYTES) }
    ensures read { IfOk result (λ pieces. Reads (G.state window.old) (G.state window.new) at
        pieces.items bytes.new) }
    ensures refused { IfErr result
        (RefusesRead G.is_shared (G.found window.new) (G.state window.old)
        (G.state window.new) at (length bytes.old)) }
    ensures kept { OnErr result (bytes.new ≡ bytes.old) }
    ensures long { length bytes.new ≡ length bytes.old }
    ensures window { OnlyReadThrough G.is_shared (G.state window.old) (G.state window.new) }
    ensures counts { CountsHold result (G.state window.old).in_use (G.state window.new).in_use }
{
    let held = window.hold(at, bytes.len() as u32, Right::Read)?;
    held.read(bytes);
    let pieces = copied_pieces(held.pieces());
    window.give_back(held);
    Ok(pieces)
}
