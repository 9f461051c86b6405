// A frame's way into a buffer: its bytes are held for writing, memory is taken, and then they are
// written.
ghost use Rattle.std.specs.Prelude.{◌≡◌, ◌<◌, ◌≤◌, ℕ, ◌∷◌, All, length, vec_len, vec_capacity};
ghost use Rattle.tce_window.specs.declared.piece.TheConstants.{MOST_BYTES};
ghost use Rattle.lan_buffers.specs.Calls.{FillsFrame, IsUngranted, IsPageInUse};
ghost use Rattle.lan_buffers.specs.Filling.{IfWritten, IfInUse, IfRefused, OnRoom, LeavesFilled};

use crate::rows::DeliverRow;
use arrayvec::ArrayVec;
use page_slots::StrokeName;
use rdma_copy::copied_pieces;
use tce_window::{GuestPort, HoldFault, Piece, Right};
use vio_num::NoMemory;

/// What became of a frame's bytes.
#[derive(Debug, Drop)]
pub enum Fill {
    /// They were written through these pieces.
    Written(ArrayVec<Piece, 17>),
    /// This page of the range is in use, by this word of it.
    InUse { page: u16, word: u64 },
    /// The range is past the window, or not granted for writing.
    Refused(HoldFault),
    /// No memory was found, and no byte changed.
    NoMemory,
}

/// Writes the frame at this address of the window, under this name, and makes room for one
/// delivery. Every answer but `Written` lays no stroke.
pub fn write_frame<G: GuestPort>(
    deliveries: &mut Vec<DeliverRow>,
    window: &mut G,
    at: u64,
    frame: &[u8],
    name: StrokeName,
) -> Fill
    requires some { (1 ≤ length frame.now) × (length frame.now ≤ MOST_BYTES) }
    requires free { (G.state window.old).held_count ≡ 0 }
    ensures written { IfWritten result (FillsFrame G.is_shared (G.state window.old)
        (G.state window.new) at name frame.now) }
    ensures refused { IfRefused result
        (IsUngranted (G.state window.old) (G.state window.new) at (length frame.now)) }
    ensures in_use { IfInUse result (λ page word. IsPageInUse G.is_shared (G.state window.old)
        (G.state window.new) at (length frame.now) page (G.found window.new page word)) }
    ensures room { OnRoom result (vec_len deliveries.new < vec_capacity deliveries.new) }
    ensures rows { deliveries.new.items ≡ deliveries.old.items }
    ensures window { LeavesFilled G.is_shared result (G.state window.old) (G.state window.new) }
{
    let mut held = match window.hold(at, frame.len() as u32, Right::Write) {
        Ok(held) => held,
        Err(HoldFault::InUse { page, word }) => return Fill::InUse { page, word },
        Err(fault) => return Fill::Refused(fault),
    };
    if deliveries.reserve(1).is_err() {
        window.give_back(held);
        return Fill::NoMemory;
    }
    let written = held.write(name, frame);
    let to = copied_pieces(held.pieces());
    window.give_back(held);
    match written {
        Ok(()) => Fill::Written(to),
        Err(NoMemory) => Fill::NoMemory,
    }
}
