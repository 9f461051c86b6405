// What a receive entry says of the buffer that a delivery took.
ghost use Rattle.std.specs.Prelude.{◌≡◌, ◌+◌, ◌<◌, ◌*◌, length, slice_get, if◌then◌else◌};
ghost use Rattle.tce_window.specs.Held.{held_len};
ghost use Rattle.lan_buffers.specs.Buffer.{frame_bits};
ghost use Rattle.lan_buffers.specs.Port.{correlator_of};

use crate::answers::Harvest;
use crate::buffer::frame_told;
use crate::rows::{DeliverRow, PostRow};
use tce_window::Piece;

/// What the receive entry of a delivery says, but for its toggle.
#[derive(Clone, Copy, Debug)]
pub struct Told {
    /// Whether the buffer was given back with no frame.
    pub blank: bool,
    /// The length of the frame.
    pub len: u32,
    /// The buffer's correlator.
    pub correlator: u64,
}

impl Told {
    /// What a delivery says that took one of these posts.
    pub fn of(row: &DeliverRow, posts: &[PostRow]) -> Told
        requires { row.now.post < length posts.now }
        ensures blank { result.blank ≡ row.now.blank }
        ensures len { result.len ≡ held_len row.now.to.items }
        ensures correlator { result.correlator ≡ correlator_of (slice_get posts.now row.now.post) }
    {
        Told {
            blank: row.blank,
            len: bytes_of(row.to.as_slice()),
            correlator: posts[row.post as usize].correlator,
        }
    }

    /// The high half of the receive entry, with the toggle off.
    pub fn high(self) -> u64
        ensures { result ≡ (if self.blank then 0 else frame_bits + self.len) }
    {
        if self.blank { 0 } else { frame_told(self.len) }
    }

    /// The answer to a harvest that read it as entry `number`.
    pub fn answer(self, number: u64) -> Harvest
        ensures { result ≡ (if self.blank then Harvest.Blank number self.correlator
            else Harvest.Frame number self.len self.correlator) }
    {
        if self.blank {
            Harvest::Blank {
                number,
                correlator: self.correlator,
            }
        } else {
            Harvest::Frame {
                number,
                len: self.len,
                correlator: self.correlator,
            }
        }
    }
}

// Counts the bytes of the pieces.
fn bytes_of(pieces: &[Piece]) -> u32
    requires { length pieces.now < 18 }
    ensures { result ≡ held_len pieces.now }
{
    let mut bytes = 0;
    for piece in pieces {
        bytes += u32::from(piece.len);
    }
    bytes
}
