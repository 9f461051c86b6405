// The steps of reading and writing: bytes at a place, and bytes at the end of what is written.
ghost use Rattle.std.specs.Prelude.{◌≡◌, ◌≤◌, ◌+◌, ◌++◌, drop, length};
ghost use Rattle.arrayvec.specs.ArrayVec.{array_vec_len};
ghost use Rattle.srp_iu.specs.Layout.{part};

use arrayvec::ArrayVec;

/// All bytes from a place on.
pub(crate) fn rest_at(bytes: &[u8], place: usize) -> &[u8]
    requires { place ≤ length bytes.now }
    ensures { result.now ≡ drop place bytes.now }
{
    &bytes[place..]
}

/// The bytes from a place on, as many as are wanted.
pub(crate) fn part_at(bytes: &[u8], place: usize, len: usize) -> &[u8]
    requires { place + len ≤ length bytes.now }
    ensures { result.now ≡ part place len bytes.now }
{
    &bytes[place..place + len]
}

/// The sixteen bytes from a place on.
pub(crate) fn sixteen_at(bytes: &[u8], place: usize) -> [u8; 16]
    requires { place + 16 ≤ length bytes.now }
    ensures { result ≡ part place 16 bytes.now }
{
    let mut sixteen = [0; 16];
    sixteen.copy_from_slice(part_at(bytes, place, 16));
    sixteen
}

/// A list of these bytes.
pub(crate) fn list_of<const N: usize>(bytes: &[u8]) -> ArrayVec<u8, N>
    requires { length bytes.now ≤ N }
    ensures { result.items ≡ bytes.now }
{
    match ArrayVec::try_from(bytes) {
        Ok(list) => list,
        Err(_) => unreachable!(),
    }
}

/// Adds bytes at the end.
pub(crate) fn put(out: &mut ArrayVec<u8, 256>, bytes: &[u8])
    requires { array_vec_len out.old + length bytes.now ≤ 256 }
    ensures { out.new.items ≡ out.old.items ++ bytes.now }
{
    match out.try_extend_from_slice(bytes) {
        Ok(()) => {}
        Err(_) => unreachable!(),
    }
}
