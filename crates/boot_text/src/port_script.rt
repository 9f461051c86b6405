// The words of a LAN port's script lines.
ghost use Rattle.std.specs.Prelude.{◌≡◌, length};
ghost use Rattle.boot_text.specs.Said.{Tells};
ghost use Rattle.boot_text.specs.PortScript.{post_of, post_numbers, send_of, send_numbers, change_mac_of, multicast_of};

use crate::cause::{Cause, Stop};
use crate::names::mac;
use crate::numbers::{number, number_in};
use crate::verb::Verb;
use crate::words::Words;

/// The most buffers of a line.
pub const MOST_BUFFERS: u64 = 1_024;
/// The bytes of the shortest frame of a line.
pub const LEAST_FRAME: u64 = 14;
/// The bytes of the longest frame of a line.
pub const MOST_FRAME: u64 = 65_527;

/// The line `post`.
pub fn post_line(words: &Words) -> Result<Verb, Stop>
    ensures { Tells result (post_of words.now) }
{
    if words.len() != 5 {
        return Err(Stop::Cause(Cause::Count));
    }
    match post(words) {
        Some(verb) => Ok(verb),
        None => Err(Stop::Cause(Cause::Number)),
    }
}

fn post(words: &Words) -> Option<Verb>
    requires { length words.now ≡ 5 }
    ensures { result ≡ post_numbers words.now }
{
    let at = number(words.at(2))?;
    let len = number(words.at(3))?;
    let count = number_in(words.at(4), 1, MOST_BUFFERS)?;
    Some(Verb::Post { at, len, count })
}

/// The line `send`.
pub fn send_line(words: &Words) -> Result<Verb, Stop>
    ensures { Tells result (send_of words.now) }
{
    if words.len() != 6 {
        return Err(Stop::Cause(Cause::Count));
    }
    match send(words) {
        Some(verb) => Ok(verb),
        None => Err(Stop::Cause(Cause::Number)),
    }
}

fn send(words: &Words) -> Option<Verb>
    requires { length words.now ≡ 6 }
    ensures { result ≡ send_numbers words.now }
{
    let mac = mac(words.at(2))?;
    let len = number_in(words.at(3), LEAST_FRAME, MOST_FRAME)?;
    let seed = number(words.at(4))?;
    let at = number(words.at(5))?;
    Some(Verb::Send { mac, len, seed, at })
}

/// The line `mac`.
pub fn change_mac_line(words: &Words) -> Result<Verb, Stop>
    ensures { Tells result (change_mac_of words.now) }
{
    if words.len() != 3 {
        return Err(Stop::Cause(Cause::Count));
    }
    match mac(words.at(2)) {
        Some(mac) => Ok(Verb::ChangeMac { mac }),
        None => Err(Stop::Cause(Cause::Number)),
    }
}

/// The line `mcast`.
pub fn multicast_line(words: &Words) -> Result<Verb, Stop>
    ensures { Tells result (multicast_of words.now) }
{
    if words.len() != 4 {
        return Err(Stop::Cause(Cause::Count));
    }
    match (number(words.at(2)), mac(words.at(3))) {
        (Some(control), Some(mac)) => Ok(Verb::Multicast { control, mac }),
        _ => Err(Stop::Cause(Cause::Number)),
    }
}
