// The words of a LAN port's lines that name how a frame or a buffer fared, each behind a space.
ghost use Rattle.std.specs.Prelude.{◌≡◌, ◌++◌, OnOk, codes};
ghost use Rattle.vio_trace.specs.Text.{offered as offered_word, filled as filled_word};

use crate::lan_rows::{Filled, Offered};
use crate::words::put;
use vio_num::NoMemory;

/// What became of a frame at a port.
pub fn put_offered(buffer: &mut Vec<u8>, offered: Offered) -> Result<(), NoMemory>
    ensures { OnOk result (buffer.new.items ≡
        buffer.old.items ++ codes " " ++ offered_word offered) }
{
    match offered {
        Offered::Done => put(buffer, b" done"),
        Offered::Ungranted => put(buffer, b" ungranted"),
        Offered::NoSize => put(buffer, b" nosize"),
        Offered::NoBuffer => put(buffer, b" nobuffer"),
        Offered::Turn => put(buffer, b" turn"),
        Offered::InUse => put(buffer, b" inuse"),
        Offered::Closed => put(buffer, b" closed"),
    }
}

/// How a buffer was given back.
pub fn put_filled(buffer: &mut Vec<u8>, filled: Filled) -> Result<(), NoMemory>
    ensures { OnOk result (buffer.new.items ≡
        buffer.old.items ++ codes " " ++ filled_word filled) }
{
    match filled {
        Filled::Frame => put(buffer, b" frame"),
        Filled::Blank => put(buffer, b" blank"),
    }
}
