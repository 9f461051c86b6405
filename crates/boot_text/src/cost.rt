// What script lines cost: how much a run keeps and writes of them.
ghost use Rattle.std.specs.Prelude.{ℕ, ◌≡◌, ◌+◌, nat_lt, ◌≤◌, ◌<◌, ◌^◌, ◌-◌, min, length};
ghost use Rattle.boot_text.specs.Cost.{line_cost, data_cost as data_cost_of, bytes_cost as bytes_cost_of, call_cost as call_cost_of, send_cost as send_cost_of, valid_len as valid_len_of, part_len};

use crate::verb::Verb;

/// The cost of most lines.
pub const LINE_COST: u64 = 256;
/// The most that all lines of a text cost together.
pub const MOST_COST: u64 = 16_777_216;

/// What a line costs in a text with so many LAN ports up to there, or the largest number of 64 bits for any cost above.
pub fn cost_of(verb: &Verb, ports: u64) -> u64
    requires { ports < 2 ^ 32 }
    ensures { result ≡ min (line_cost ports verb.now) (2 ^ 64 - 1) }
{
    match verb {
        Verb::Read { blocks, pieces, .. } => data_cost(blocks.saturating_mul(512), *pieces),
        Verb::Write { blocks, pieces, .. } => data_cost(blocks.saturating_mul(512), *pieces),
        Verb::CommandIn { len, pieces, .. } => data_cost(*len, *pieces),
        Verb::CommandOut { len, pieces, .. } => data_cost(*len, *pieces),
        Verb::Fill { len, .. } => bytes_cost(*len),
        Verb::Poke { bytes, .. } => bytes_cost(bytes.len() as u64),
        Verb::Peek { len, .. } => bytes_cost(*len),
        Verb::Post { count, .. } => count.saturating_mul(64),
        Verb::Send { len, .. } => send_cost(*len, ports),
        Verb::Hcall { number, arguments } => call_cost(*number, arguments, ports),
        _ => LINE_COST,
    }
}

/// Whether a cost is too much behind those so far.
pub fn is_over_cost(so_far: u64, cost: u64) -> bool
    requires { so_far ≤ MOST_COST }
    ensures { (x : ℕ) → cost ≡ min x (2 ^ 64 - 1) → result ≡ nat_lt MOST_COST (so_far + x) }
{
    so_far.saturating_add(cost) > MOST_COST
}

// What a command with data costs.
fn data_cost(bytes: u64, pieces: u16) -> u64
    ensures { result ≡ min (data_cost_of bytes pieces) (2 ^ 64 - 1) }
{
    (LINE_COST + 16 * u64::from(pieces)).saturating_add(bytes)
}

// What a line with bytes costs.
fn bytes_cost(bytes: u64) -> u64
    ensures { result ≡ bytes_cost_of bytes }
{
    bytes.max(64)
}

// What a frame costs that so many ports may take.
fn send_cost(len: u64, ports: u64) -> u64
    requires { ports < 2 ^ 32 }
    ensures { result ≡ min (send_cost_of len ports) (2 ^ 64 - 1) }
{
    len.saturating_mul(1 + ports).saturating_add(LINE_COST)
}

// What a hypervisor call costs.
fn call_cost(number: u64, arguments: &[u64; 9], ports: u64) -> u64
    requires { ports < 2 ^ 32 }
    ensures { result ≡ min (call_cost_of ports number arguments.now) (2 ^ 64 - 1) }
{
    match number {
        0x110 if arguments[0] <= 65_536 => LINE_COST + arguments[0],
        0x120 => send_cost(valid_len(arguments), ports),
        0x138 => 64 + 16 * arguments[3].min(512),
        0x13C => 64 + 16 * arguments[3].min(512),
        _ => LINE_COST,
    }
}

// The bytes of the valid ones of a call's six descriptors, at most 65,527.
fn valid_len(arguments: &[u64; 9]) -> u64
    ensures { result ≡ valid_len_of arguments.now }
{
    let len = descriptor_len(arguments[1])
        + descriptor_len(arguments[2])
        + descriptor_len(arguments[3])
        + descriptor_len(arguments[4])
        + descriptor_len(arguments[5])
        + descriptor_len(arguments[6]);
    len.min(65_527)
}

// The length that a descriptor says, 0 where it is not valid.
fn descriptor_len(descriptor: u64) -> u64
    ensures len { result ≡ part_len descriptor }
    ensures most { result < 2 ^ 24 }
{
    if descriptor >> 63 == 1 {
        descriptor / 0x1_0000_0000 % 0x100_0000
    } else {
        0
    }
}
