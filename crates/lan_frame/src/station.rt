// Stations of a LAN and the head of a frame (IEEE 802.3): whom a frame is for.
ghost use Rattle.std.specs.Prelude.{◌≡◌, ◌↔◌, ◌≤◌, IsTrue, length, slice_index};
ghost use Rattle.lan_frame.specs.Station.{destination_of, IsBroadcast, IsZero};

use vio_num::Mac;

/// The bytes of a frame's head: destination, source and type.
pub const HEADER_BYTES: usize = 14;
/// The bytes of the shortest frame, which is its head alone.
pub const MIN_FRAME: usize = 14;
/// The bytes of the longest frame that a LAN unit sends.
pub const MAX_FRAME: usize = 65_527;

/// The address of every station.
pub const BROADCAST: Mac = Mac { bytes: [0xFF; 6] };
/// The address of no station.
pub const ZERO: Mac = Mac { bytes: [0; 6] };

/// Whom the frame is for: its bytes 0 to 5.
pub fn destination(frame: &[u8]) -> Mac
    requires { HEADER_BYTES ≤ length frame.now }
    ensures { result.bytes ≡ destination_of frame.now }
{
    let mut bytes = [0; 6];
    bytes.copy_from_slice(&frame[..6]);
    Mac { bytes }
}

/// Whether the address is that of every station.
pub fn is_broadcast(mac: Mac) -> bool
    ensures { IsTrue result ↔ IsBroadcast mac }
{
    mac == BROADCAST
}

/// Whether the address is that of no station.
pub fn is_zero(mac: Mac) -> bool
    ensures { IsTrue result ↔ IsZero mac }
{
    mac == ZERO
}
