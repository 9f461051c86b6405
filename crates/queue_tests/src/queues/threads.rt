// A ring that two threads share.
ghost use Rattle.std.specs.Prelude.{◌≡◌, ◌≤◌, true};
ghost use Rattle.crq_ring.specs.Ends.{MayPut, MayPoll};

use super::entry;
use crq_ring::{OpenedRing, Poll, Put, RecvEnd, Ring, SendEnd};
use std::test::Fail;
use std::thread;

/// How often a thread tries before it gives up.
const TRIES: u32 = 100_000_000;

// Puts this many entries, each tried until its slot is empty.
fn produce(ring: &Ring, mut send: SendEnd, n: u32) -> (SendEnd, u32)
    requires { MayPut ring.now send }
    ensures { MayPut ring.now result.0 }
{
    let mut k = 0;
    for _ in 0..TRIES {
        if k == n || send.reserve(1).is_err() {
            break;
        }
        if let Put::Done { .. } = ring.put(&mut send, entry(k)) {
            k += 1;
        } else {
            thread::yield_now();
        }
    }
    (send, k)
}

// Takes this many entries.
fn consume(ring: &Ring, mut recv: RecvEnd, n: u32) -> (RecvEnd, u32)
    requires { MayPoll ring.now recv }
    ensures { MayPoll ring.now result.0 }
{
    let mut k = 0;
    for _ in 0..TRIES {
        if k == n || recv.reserve(1).is_err() {
            break;
        }
        if let Poll::Got { .. } = ring.poll(&mut recv) {
            k += 1;
        } else {
            thread::yield_now();
        }
    }
    (recv, k)
}

#[test]
fn two_threads_over_four_slots(rt: HostRuntime) -> Result<(), Fail> {
    let n = 10_000;
    let OpenedRing { ring, send, recv } = Ring::open(rt.alloc(), 4)?;
    let shared = &ring;
    let ((send, put), (recv, taken)) = thread::join(
        &rt,
        move || produce(shared, send, n),
        move || consume(shared, recv, n),
    );
    assert_eq!(rt; (put, taken), (n, n));
    let pipe = ring.close(send, recv);
    assert_eq!(rt; pipe.sent().len(), n as usize);
    assert_eq!(rt; pipe.sent(), pipe.taken());
    Ok(())
}
