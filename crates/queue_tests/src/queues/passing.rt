// An entry that is put and taken through the trait, on either form.
ghost use Rattle.std.specs.Prelude.{◌≡◌, ◌<◌, ◌≤◌, ◌^◌, true};
ghost use Rattle.crq_ring.specs.Ends.{MayPut, MayPoll};

use super::{Seen, entry, seen_of_poll, seen_of_put};
use crq_ring::{CrqPort, PlainPipe, RecvEnd, Ring, SendEnd, SharedPipe};
use vio_num::{Entry, NoMemory};

// Puts an entry and takes it again.
fn pass<P: CrqPort>(port: &mut P, entry: Entry) -> (Seen, Seen)
    requires ready { (P.state port.old).ready ≡ true }
    requires puts { 0 < (P.state port.old).spare_puts }
    requires polls { 0 < (P.state port.old).spare_polls }
    requires used { 2 ^ 63 ≤ entry.high }
    ensures { (P.state port.new).place ≡ (P.state port.old).place }
{
    let put = port.put(entry);
    let poll = port.poll();
    (seen_of_put(put), seen_of_poll(poll))
}

// Tells whether entry `k` was put in its place and taken from there.
fn seen_of(passed: (Seen, Seen), k: u32) -> Seen {
    if passed == (Seen::Put(u64::from(k)), Seen::Got(u64::from(k))) {
        Seen::Done
    } else {
        Seen::Other
    }
}

/// Puts and takes an entry of a pipe in which a session has begun.
pub fn pass_plain(pipe: &mut PlainPipe, k: u32) -> Result<Seen, NoMemory>
    requires { 0 < pipe.old.session }
{
    pipe.reserve(1)?;
    Ok(seen_of(pass(pipe, entry(k)), k))
}

/// Puts and takes an entry of a ring whose ends are in one session.
pub fn pass_shared(
    ring: &Ring,
    send: &mut SendEnd,
    recv: &mut RecvEnd,
    k: u32,
) -> Result<Seen, NoMemory>
    requires send { MayPut ring.now send.old }
    requires recv { MayPoll ring.now recv.old }
    requires together { send.old.session ≡ recv.old.session }
    ensures send { MayPut ring.now send.new }
    ensures recv { MayPoll ring.now recv.new }
{
    send.reserve(1)?;
    recv.reserve(1)?;
    let mut port = SharedPipe { ring, send, recv };
    Ok(seen_of(pass(&mut port, entry(k)), k))
}
