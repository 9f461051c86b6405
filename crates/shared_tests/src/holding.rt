// What two guests of one window hold, one after another, and while one of them holds a range.
ghost use Rattle.std.specs.Prelude.{◌≤◌};
ghost use Rattle.shared_window.specs.SharedWindow.{IsIdleAt};

use crate::guests::open_two;
use shared_window::{Guest, Window};
use std::alloc::Global;
use std::test::Fail;
use tce_window::{HoldFault, Right};

/// What became of a hold: the number of its pieces and the first one's page, or why it was refused.
#[derive(Clone, Copy, PartialEq, Eq)]
enum Shown {
    Held(usize, u16, u32),
    Past(u64),
    InUse(u16, u64),
    Refused,
}

// Why a range was refused.
fn refused(fault: HoldFault) -> Shown {
    match fault {
        HoldFault::Past { entry } => Shown::Past(entry),
        HoldFault::InUse { page, word } => Shown::InUse(page, word % 2),
        HoldFault::NotGranted { .. } => Shown::Refused,
    }
}

// Holds a range for reading and gives it back.
fn hold(window: &Window, guest: &mut Guest, ioba: u64, len: u32) -> Shown
    requires idle { IsIdleAt window.now guest.old }
    requires few { (1 ≤ len) × (len ≤ 65536) }
    ensures { IsIdleAt window.now guest.new }
{
    match window.hold(guest, ioba, len, Right::Read) {
        Ok(held) => {
            let pieces = held.pieces();
            let shown = match pieces.first() {
                Some(piece) => Shown::Held(pieces.len(), piece.page, piece.at),
                None => Shown::Refused,
            };
            window.give_back(guest, held);
            shown
        }
        Err(fault) => refused(fault),
    }
}

// What a guest is answered for this range before another holds one, meanwhile, and after.
fn meet(window: &Window, a: &mut Guest, b: &mut Guest, ioba: u64, len: u32) -> (Shown, Shown, Shown)
    requires guests { IsIdleAt window.now a.old × IsIdleAt window.now b.old }
    requires few { (1 ≤ len) × (len ≤ 65536) }
{
    let before = hold(window, b, ioba, len);
    match window.hold(a, 0, 4097, Right::Write) {
        Ok(held) => {
            let meanwhile = hold(window, b, ioba, len);
            window.give_back(a, held);
            (before, meanwhile, hold(window, b, ioba, len))
        }
        Err(fault) => (before, refused(fault), Shown::Refused),
    }
}

// The same at a new window of four pages.
fn met(alloc: Global, ioba: u64, len: u32) -> Result<(Shown, Shown, Shown), Fail>
    requires { (1 ≤ len) × (len ≤ 65536) }
{
    let mut shared = open_two(alloc, 4)?;
    Ok(meet(&shared.window, &mut shared.a, &mut shared.b, ioba, len))
}

/// A range's address and length, and what is answered before another guest holds the first two pages, meanwhile, and after.
static RANGES: [(u64, u32, Shown, Shown, Shown); 2] = [
    (
        4090,
        8192,
        Shown::Held(3, 0, 0),
        Shown::InUse(0, 1),
        Shown::Held(3, 0, 0),
    ),
    (8192, 8193, Shown::Past(4), Shown::Past(4), Shown::Past(4)),
];

#[test]
fn a_page_in_hand_is_in_use(rt: HostRuntime) -> Result<(), Fail> {
    for (ioba, len, before, meanwhile, after) in RANGES.iter() {
        let found = met(rt.alloc(), *ioba, (*len).clamp(1, 65536))?;
        assert!(rt; found == (*before, *meanwhile, *after), "{ioba}");
    }
    Ok(())
}
