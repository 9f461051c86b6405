// What the owner of a window and its guests are answered while one of them holds a range, and after.
ghost use Rattle.shared_window.specs.Opening.{IsOwnerAt};
ghost use Rattle.shared_window.specs.SharedWindow.{IsIdleAt};

use crate::guests::open_two;
use shared_window::{Guest, Owner, Window};
use std::alloc::Global;
use std::test::Fail;
use tce_window::{GetTce, HoldFault, OwnFault, Right, TceAnswer};
use vio_num::NoMemory;

/// What was answered; of a turn word its bit 0 is kept.
#[derive(Clone, Copy, PartialEq, Eq)]
enum Shown {
    Done,
    Busy(u16, u32, u32),
    InUse(u16, u64),
    NotGranted(u16, u32, u64),
    Value(u64),
    Other,
}

// Tells how a put was answered.
fn put_shown(answer: TceAnswer) -> Shown {
    match answer {
        TceAnswer::Done => Shown::Done,
        TceAnswer::Busy { entry, pins, done } => Shown::Busy(entry, pins, done),
        TceAnswer::Parameter => Shown::Other,
    }
}

// Puts a value into as many entries from this address on.
fn stuff(
    window: &Window,
    owner: &mut Owner,
    ioba: u64,
    tce: u64,
    count: u64,
) -> Result<Shown, NoMemory>
    requires { IsOwnerAt window.now owner.old }
    ensures { IsOwnerAt window.now owner.new }
{
    window.reserve(owner, 512)?;
    Ok(put_shown(window.stuff_tce(owner, ioba, tce, count)))
}

// Puts a value into the entry of this address.
fn put(window: &Window, owner: &mut Owner, ioba: u64, tce: u64) -> Result<Shown, NoMemory>
    requires { IsOwnerAt window.now owner.old }
    ensures { IsOwnerAt window.now owner.new }
{
    window.reserve(owner, 1)?;
    Ok(put_shown(window.put_tce(owner, ioba, tce)))
}

// Tells the value of the entry of this address.
fn get(window: &Window, owner: &Owner, ioba: u64) -> Shown
    requires { IsOwnerAt window.now owner.now }
{
    match window.get_tce(owner, ioba) {
        GetTce::Value(value) => Shown::Value(value),
        GetTce::Parameter => Shown::Other,
    }
}

// Reads the first byte of the region.
fn read(window: &Window, owner: &mut Owner) -> Shown
    requires { IsOwnerAt window.now owner.old }
    ensures { IsOwnerAt window.now owner.new }
{
    let mut out = [0];
    match window.read(owner, 0, &mut out) {
        Ok(()) => Shown::Done,
        Err(OwnFault::InUse { page, word }) => Shown::InUse(page, word % 2),
        Err(_) => Shown::Other,
    }
}

// Tells why a range was refused.
fn refused(fault: HoldFault) -> Shown {
    match fault {
        HoldFault::InUse { page, word } => Shown::InUse(page, word % 2),
        HoldFault::NotGranted {
            entry,
            version,
            tce,
        } => Shown::NotGranted(entry, version, tce),
        HoldFault::Past { .. } => Shown::Other,
    }
}

// Holds 16 bytes from the start of the window on for reading, and gives them back.
fn hold(window: &Window, guest: &mut Guest) -> Shown
    requires { IsIdleAt window.now guest.old }
    ensures { IsIdleAt window.now guest.new }
{
    match window.hold(guest, 0, 16, Right::Read) {
        Ok(held) => {
            window.give_back(guest, held);
            Shown::Done
        }
        Err(fault) => refused(fault),
    }
}

// A hold by the guest, a read by the owner, and a put.
fn three(window: &Window, owner: &mut Owner, guest: &mut Guest) -> Result<[Shown; 3], NoMemory>
    requires owner { IsOwnerAt window.now owner.old }
    requires guest { IsIdleAt window.now guest.old }
    ensures owner { IsOwnerAt window.now owner.new }
    ensures guest { IsIdleAt window.now guest.new }
{
    let held = hold(window, guest);
    let was_read = read(window, owner);
    let was_put = put(window, owner, 0, 0)?;
    Ok([held, was_read, was_put])
}

// What a guest that still may hold the entry, a read and a put are answered while another guest holds it, and after.
static MEANWHILE: [Shown; 3] = [Shown::InUse(0, 1), Shown::InUse(0, 1), Shown::Busy(0, 1, 0)];

static AFTER: [Shown; 3] = [Shown::Done, Shown::Done, Shown::Done];

// The entry's value in the end, and what both guests are answered then.
static LEFT: [Shown; 3] = [
    Shown::Value(0),
    Shown::NotGranted(0, 1, 0),
    Shown::NotGranted(0, 1, 0),
];

// Tells whether a guest holds the entry, whether the three are answered so meanwhile and after, and whether that is left.
fn meet(
    window: &Window,
    owner: &mut Owner,
    a: &mut Guest,
    b: &mut Guest,
) -> Result<(bool, bool, bool), NoMemory>
    requires owner { IsOwnerAt window.now owner.old }
    requires guests { IsIdleAt window.now a.old × IsIdleAt window.now b.old }
{
    let Ok(held) = window.hold(a, 0, 16, Right::Read) else {
        return Ok((false, false, false));
    };
    let meanwhile = three(window, owner, b);
    window.give_back(a, held);
    let after = three(window, owner, b)?;
    let left = [get(window, owner, 0), hold(window, a), hold(window, b)];
    Ok((meanwhile? == MEANWHILE, after == AFTER, left == LEFT))
}

// The same at a new window.
fn met(alloc: Global) -> Result<(bool, bool, bool), Fail> {
    let mut shared = open_two(alloc, 4)?;
    Ok(meet(
        &shared.window,
        &mut shared.owner,
        &mut shared.a,
        &mut shared.b,
    )?)
}

#[test]
fn an_entry_that_is_held_keeps_its_value(rt: HostRuntime) -> Result<(), Fail> {
    assert_eq!(rt; met(rt.alloc())?, (true, true, true));
    Ok(())
}

// What is answered where three values are put while entry 2 is held, and the values then.
static STUFFED: [Shown; 4] = [
    Shown::Busy(2, 1, 2),
    Shown::Value(3),
    Shown::Value(3),
    Shown::Value(8195),
];

// Tells whether three values are put so while entry 2 is held.
fn stuff_held(window: &Window, owner: &mut Owner, guest: &mut Guest) -> Result<bool, NoMemory>
    requires owner { IsOwnerAt window.now owner.old }
    requires guest { IsIdleAt window.now guest.old }
{
    let Ok(held) = window.hold(guest, 8192, 16, Right::Read) else {
        return Ok(false);
    };
    let answer = stuff(window, owner, 0, 3, 3);
    window.give_back(guest, held);
    let shown = [
        answer?,
        get(window, owner, 0),
        get(window, owner, 4096),
        get(window, owner, 8192),
    ];
    Ok(shown == STUFFED)
}

// The same at a new window.
fn stuffed(alloc: Global) -> Result<bool, Fail> {
    let mut shared = open_two(alloc, 4)?;
    Ok(stuff_held(&shared.window, &mut shared.owner, &mut shared.a)?)
}

#[test]
fn values_are_put_up_to_an_entry_that_is_held(rt: HostRuntime) -> Result<(), Fail> {
    assert!(rt; stuffed(rt.alloc())?);
    Ok(())
}
