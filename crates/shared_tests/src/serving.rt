// A window with its owner and a guest as one port of both kinds.
ghost use Rattle.std.specs.Prelude.{◌≡◌, ◌≤◌};

use crate::guests::{Shared, open_two};
use crate::owning::first_other;
use shared_window::SharedOwn;
use std::alloc::Global;
use std::test::Fail;
use tce_window::{GetTce, GuestPort, OwnerPort, Right, TceAnswer};
use vio_num::NoMemory;

// Holds a range over two pages and gives it back. Says how many pieces it had.
fn pieces<P: GuestPort>(port: &mut P) -> Option<usize>
    requires { (P.state port.old).held_count ≡ 0 }
{
    match port.hold(4000, 200, Right::Write) {
        Ok(held) => {
            let count = held.pieces().len();
            port.give_back(held);
            Some(count)
        }
        Err(_) => None,
    }
}

// Puts a value into both entries, and another one into the second. Says what was answered, and the second's value then.
fn put<P: OwnerPort>(port: &mut P) -> Result<(TceAnswer, TceAnswer, GetTce), NoMemory> {
    port.reserve(512)?;
    let stuffed = port.stuff_tce(0, 3, 2);
    port.reserve(1)?;
    let put = port.put_tce_indirect(4096, &[0x1003]);
    Ok((stuffed, put, port.get_tce(4096)))
}

// All of this at a new window of two pages, and the number of the first step of its owner of which something else is seen.
fn served(
    alloc: Global,
) -> Result<(Option<usize>, (TceAnswer, TceAnswer, GetTce), Option<usize>), Fail> {
    let Shared {
        window,
        mut owner,
        mut a,
        b: _,
    } = open_two(alloc, 2)?;
    let mut port = SharedOwn {
        window: &window,
        owner: &mut owner,
        guest: &mut a,
    };
    let pieces = pieces(&mut port);
    let put = put(&mut port)?;
    Ok((pieces, put, first_other(&mut port)))
}

#[test]
fn an_owner_with_a_guest_serves_from_its_window(rt: HostRuntime) -> Result<(), Fail> {
    assert_eq!(rt;
        served(rt.alloc())?,
        (
            Some(2),
            (TceAnswer::Done, TceAnswer::Done, GetTce::Value(0x1003)),
            None
        )
    );
    Ok(())
}
