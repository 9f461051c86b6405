// A buffer's descriptor and a receive entry's high half (LoPAR, "H_ADD_LOGICAL_LAN_BUFFER", "Receive
// queue").
ghost use Rattle.std.specs.Prelude.{◌≡◌, ◌↔◌, ◌+◌, ◌<◌, ◌≤◌, ◌^◌, IsTrue, if◌then◌else◌};
ghost use Rattle.lan_buffers.specs.Buffer.{IsBuffer, is_valid, buffer_len, buffer_address, toggle, frame_bits, most_buffer};

/// The place of a frame in its buffer: behind the 8 bytes of the correlator.
pub const FRAME_OFFSET: u32 = 8;
// Bound the length of a buffer, in bytes.
const LEAST_BUFFER: u32 = 22;

const MOST_BUFFER: u32 = 65_536;
// Marks a descriptor that is valid.
const VALID: u64 = 1 << 63;
// Holds the length of a buffer in a descriptor's first word.
const LENGTH: u64 = (1 << 24) - 1;
// Holds the address of a buffer, a descriptor's second word.
const ADDRESS: u64 = (1 << 32) - 1;
// Marks a receive entry of an even lap of the slots, from 0.
const TOGGLE: u64 = 1 << 63;
// Says in a receive entry that a frame came, from byte 8 of its buffer on.
const FRAME: u64 = 0x4000_0008_0000_0000;

/// The length of the buffer, in bytes.
pub fn buffer_len(descriptor: u64) -> u32
    ensures length { result ≡ buffer_len descriptor }
    ensures bound { result < 2 ^ 24 }
{
    ((descriptor >> 32) & LENGTH) as u32
}

/// The address of the buffer in its unit's window.
pub fn buffer_address(descriptor: u64) -> u64
    ensures address { result ≡ buffer_address descriptor }
    ensures bound { result < 2 ^ 32 }
{
    descriptor & ADDRESS
}

/// Whether the descriptor's valid bit is on.
pub fn is_valid(descriptor: u64) -> bool
    ensures { result ≡ is_valid descriptor }
{
    descriptor >= VALID
}

/// Whether the descriptor is valid, and its length that of a buffer.
pub fn is_buffer(descriptor: u64) -> bool
    ensures { IsTrue result ↔ IsBuffer descriptor }
{
    let len = buffer_len(descriptor);
    is_valid(descriptor) && LEAST_BUFFER <= len && len <= MOST_BUFFER
}

/// The toggle of receive entry `number` of a port of this many slots.
pub fn toggle_of(slots: u32, number: u64) -> u64
    requires { 1 ≤ slots }
    ensures { result ≡ toggle slots number }
{
    if number / u64::from(slots) % 2 == 0 {
        TOGGLE
    } else {
        0
    }
}

/// What a receive entry says of a frame of this length.
pub fn frame_told(len: u32) -> u64
    ensures { result ≡ frame_bits + len }
{
    FRAME + u64::from(len)
}
