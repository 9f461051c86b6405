// The summary of a trace: how much was served, answered and read.
ghost use Rattle.std.specs.Prelude.{◌≡◌, IfOk};
ghost use Rattle.paprvio.specs.Texts.{data_sum, summary_text, with_bytes};

use std::alloc::Global;
use vio_num::{NoMemory, Served};
use vio_trace::Trace;

/// The summary of a trace.
pub fn summary_text(alloc: Global, trace: &Trace) -> Result<Vec<u8>, NoMemory>
    ensures { IfOk result (λ text. text.items ≡ summary_text trace.now) }
{
    let mut decimal = itoa::Buffer::new();
    let mut text = Vec::from_slice(alloc, b"served ")?;
    text.extend_from_slice(decimal.format(trace.serves.len()).as_bytes())?;
    text.extend_from_slice(b"\nanswers ")?;
    text.extend_from_slice(decimal.format(trace.answers.len()).as_bytes())?;
    text.extend_from_slice(b"\nin ")?;
    text.extend_from_slice(decimal.format(data_sum(trace.serves.as_slice())).as_bytes())?;
    text.extend_from_slice(b"\n")?;
    Ok(text)
}

// Sums up the data-in of these requests, byte by byte.
fn data_sum(rows: &[Served]) -> u64
    ensures { result ≡ data_sum rows.now }
{
    rows.iter()
        .fold(0, |sum, row| with_bytes(sum, row.inn.as_slice()))
}

// Adds bytes to a sum.
fn with_bytes(sum: u64, bytes: &[u8]) -> u64
    ensures { result ≡ with_bytes sum bytes.now }
{
    bytes
        .iter()
        .fold(sum, |sum, byte| sum.saturating_add(u64::from(*byte)))
}
