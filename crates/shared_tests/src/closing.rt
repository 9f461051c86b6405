// What a window that guests and an owner shared has once it is closed.
ghost use Rattle.std.specs.Prelude.{◌≡◌, ◌≤◌, length};
ghost use Rattle.shared_window.specs.Opening.{IsOwnerAt};
ghost use Rattle.shared_window.specs.SharedWindow.{IsIdleAt};

use crate::guests::{UNIT, close_two, open_two};
use page_slots::StrokeName;
use shared_window::{Guest, Owner, Window};
use std::alloc::Global;
use std::test::Fail;
use tce_window::{PlainWindow, Right};
use vio_num::NoMemory;

/// Writes the bytes of this length from the address on, with this mark, by the guest. Nothing is written where
/// the range is refused.
pub(crate) fn write(
    window: &Window,
    guest: &mut Guest,
    ioba: u64,
    bytes: &[u8],
    mark: u64,
) -> Result<bool, NoMemory>
    requires idle { IsIdleAt window.now guest.old }
    requires few { (1 ≤ length bytes.now) × (length bytes.now ≤ 65536) }
    ensures { IsIdleAt window.now guest.new }
{
    let name = StrokeName { who: UNIT, mark };
    match window.hold(guest, ioba, bytes.len() as u32, Right::Write) {
        Ok(mut held) => {
            let written = held.write(name, bytes);
            window.give_back(guest, held);
            written?;
            Ok(true)
        }
        Err(_) => Ok(false),
    }
}

/// The marks of the strokes on this page of a window, each in its digit, the oldest first.
pub(crate) fn marks(window: &PlainWindow, page: u16) -> Option<u64>
    requires { window.now.held_count ≡ 0 }
{
    if page >= window.pages() {
        return None;
    }
    let mut marks = 0u64;
    for stroke in window.strokes(page) {
        marks = marks.checked_mul(10)?.checked_add(stroke.name().mark)?;
    }
    Some(marks)
}

// Has two guests write and the owner put a value.
fn work(window: &Window, owner: &mut Owner, a: &mut Guest, b: &mut Guest) -> Result<(), NoMemory>
    requires owner { IsOwnerAt window.now owner.old }
    requires free { owner.old.seat.entries.held_count ≡ 0 }
    requires guests { IsIdleAt window.now a.old × IsIdleAt window.now b.old }
    ensures owner { IsOwnerAt window.now owner.new }
    ensures free { owner.new.seat.entries.held_count ≡ 0 }
    ensures guests { IsIdleAt window.now a.new × IsIdleAt window.now b.new }
{
    write(window, a, 0, b"x", 1)?;
    write(window, b, 0, b"y", 2)?;
    window.reserve(owner, 1)?;
    let _answer = window.put_tce(owner, 4096, 0x1001);
    write(window, a, 4095, b"zz", 3)?;
    write(window, b, 4095, b"z", 4)?;
    Ok(())
}

// The marks on both pages once the window is closed, and how many values it has.
fn closed(alloc: Global) -> Result<(Option<u64>, Option<u64>, usize), Fail> {
    let mut shared = open_two(alloc, 2)?;
    work(
        &shared.window,
        &mut shared.owner,
        &mut shared.a,
        &mut shared.b,
    )?;
    let plain = close_two(alloc, shared)?;
    Ok((marks(&plain, 0), marks(&plain, 1), plain.values().len()))
}

#[test]
fn a_closed_window_has_all_strokes_and_values(rt: HostRuntime) -> Result<(), Fail> {
    assert_eq!(rt; closed(rt.alloc())?, (Some(124), Some(0), 1));
    Ok(())
}
