// Logouts and credits: the units of 16 bytes, which have a tag and at most a number beside it.
ghost use Rattle.std.specs.Prelude.{◌≡◌, ◌≤◌, length, slice_index};
ghost use Rattle.srp_iu.specs.Control.{CanonTag, CanonNumber};

use crate::layout::put;
use arrayvec::ArrayVec;

/// The canonical bytes of a unit that has a tag alone.
pub(crate) fn write_tag(kind: u8, tag: u64) -> ArrayVec<u8, 256>
    ensures { CanonTag result.items kind tag }
{
    let mut out = ArrayVec::new();
    put(&mut out, &[kind, 0, 0, 0, 0, 0, 0, 0]);
    put(&mut out, &tag.to_be_bytes());
    out
}

/// The canonical bytes of a unit that has a number in bytes 4 to 7 and a tag.
pub(crate) fn write_number(kind: u8, number: u32, tag: u64) -> ArrayVec<u8, 256>
    ensures { CanonNumber result.items kind number tag }
{
    let mut out = ArrayVec::new();
    put(&mut out, &[kind, 0, 0, 0]);
    put(&mut out, &number.to_be_bytes());
    put(&mut out, &tag.to_be_bytes());
    out
}
