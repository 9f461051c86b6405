// A source over bytes in memory that no call finds failing: its count of faults is always 0.
ghost use Rattle.std.specs.Prelude.{◌≡◌, ◌≤◌, ◌++◌, min, Some, IfOk, IsOk, length, take, drop};
ghost use Rattle.std.specs.Io.KnownBytes.{ReadConsumes};

use crate::outside::{Failed, Source};
use std::marker::Model;

/// A source over bytes in memory. Contracts see what is left and the most bytes of one call.
#[derive(Debug, Drop)]
pub struct SureSource {
    bytes: Vec<u8>,
    at: usize,
    most: usize,
}

impl Model for SureSource {
    ghost use Rattle.std.specs.Prelude.{◌≤◌, drop, vec_len};
    ghost use Rattle.vio_io.specs.Memory.{SourceBytes};

    ghost Value = { SourceBytes };

    ghost view = { λ source. record { left = drop source.at source.bytes.items; most = source.most } };

    ghost invariant = { λ source. (source.at ≤ vec_len source.bytes) × (1 ≤ source.most) };
}

// Copies the front of `from` to the front of `to`, at most `most` bytes, and answers how many.
fn copy_front(from: &[u8], most: usize, to: &mut [u8]) -> usize
    ensures count { result ≡ min most (min (length to.old) (length from.now)) }
    ensures copied { to.new ≡ take result from.now ++ drop result to.old }
{
    let n = most.min(to.len().min(from.len()));
    to[..n].copy_from_slice(&from[..n]);
    n
}

impl SureSource {
    /// A source of these bytes, of which one call moves at most `most`.
    pub fn new(bytes: Vec<u8>, most: usize) -> SureSource
        requires { 1 ≤ most }
        ensures left { result.left ≡ bytes.items }
        ensures most { result.most ≡ most }
    {
        SureSource { bytes, at: 0, most }
    }
}

impl Source for SureSource {
    ghost faults = { λ _. 0 };

    ghost left = { λ source. Some source.left };

    fn read(&mut self, out: &mut [u8]) -> Result<usize, Failed>
        ensures bound { IfOk result (λ n. n ≤ length out.old) }
        ensures bytes { ReadConsumes (Some self.old.left) (Some self.new.left) result out.new }
        ensures never { IsOk result }
        ensures moved { IfOk result
            (λ n. n ≡ min self.old.most (min (length out.old) (length self.old.left))) }
        ensures copied { IfOk result (λ n. out.new ≡ take n self.old.left ++ drop n out.old) }
        ensures rest { IfOk result (λ n. self.new.left ≡ drop n self.old.left) }
        ensures most { self.new.most ≡ self.old.most }
    {
        let n = copy_front(&self.bytes[self.at..], self.most, out);
        self.at += n;
        Ok(n)
    }
}
