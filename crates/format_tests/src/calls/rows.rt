// Every row: the method that is called, the unit, and the arguments in order.
use super::desk::{Desk, Note, VALUE};
use hcall_table::{Hcall, Named, Returned, Units, call};
use vio_num::{Hrc, NoMemory, UnitId};

// Calls units by their bound alone.
fn ask<U: Units>(units: &mut U, number: u64, args: [u64; 9]) -> Result<Returned, NoMemory> {
    call(units, number, &args)
}

// The arguments with the number of a unit in front.
fn behind(first: u64) -> [u64; 9] {
    [first, 11, 12, 13, 14, 15, 16, 17, 18]
}

// Calls new units, and gives what they were asked.
fn asked(number: u64, args: [u64; 9]) -> Result<(Option<Note>, Returned), NoMemory> {
    let mut desk = Desk { note: None };
    let returned = ask(&mut desk, number, args)?;
    Ok((desk.note, returned))
}

// The number and first argument of a call of each row, and what is asked then.
static ROWS: [(u64, u64, Hcall, u8, [u64; 6]); 14] = [
    (0x1C, 0x1000_0501, Hcall::GetTce, 1, [11, 0, 0, 0, 0, 0]),
    (0x20, 0x1000_0502, Hcall::PutTce, 2, [11, 12, 0, 0, 0, 0]),
    (
        0x138,
        0x1000_0500,
        Hcall::StuffTce,
        0,
        [11, 12, 13, 0, 0, 0],
    ),
    (
        0x13C,
        0x1000_0501,
        Hcall::PutTceIndirect,
        1,
        [11, 12, 13, 0, 0, 0],
    ),
    (0xFC, 0x3000_0501, Hcall::RegCrq, 1, [11, 12, 0, 0, 0, 0]),
    (0x100, 0x3000_0500, Hcall::FreeCrq, 0, [0; 6]),
    (0x108, 0x3000_0501, Hcall::SendCrq, 1, [11, 12, 0, 0, 0, 0]),
    (0x2B0, 0x3000_0503, Hcall::EnableCrq, 3, [0; 6]),
    (
        0x114,
        0x3000_0502,
        Hcall::RegisterLogicalLan,
        2,
        [11, 12, 13, 14, 0, 0],
    ),
    (0x118, 0x3000_0502, Hcall::FreeLogicalLan, 2, [0; 6]),
    (
        0x11C,
        0x3000_0502,
        Hcall::AddLogicalLanBuffer,
        2,
        [11, 0, 0, 0, 0, 0],
    ),
    (
        0x120,
        0x3000_0502,
        Hcall::SendLogicalLan,
        2,
        [11, 12, 13, 14, 15, 16],
    ),
    (
        0x130,
        0x3000_0502,
        Hcall::MulticastCtrl,
        2,
        [11, 12, 0, 0, 0, 0],
    ),
    (
        0x14C,
        0x3000_0502,
        Hcall::ChangeLogicalLanMac,
        2,
        [11, 0, 0, 0, 0, 0],
    ),
];

// Tells whether a call with these arguments is answered with this word, and its unit asked so.
fn is_asked(number: u64, args: [u64; 9], note: Note, r4: u64) -> bool {
    let code = Hrc::Success;
    asked(number, args) == Ok((Some(note), Returned { code, r4 }))
}

#[test]
fn each_row_has_its_method(rt: HostRuntime) {
    for (number, first, row, unit, arguments) in ROWS.iter() {
        let r4 = if *number == 0x1C { VALUE } else { 0 };
        let note = (*row, *unit, *arguments);
        let is_read = Hcall::read(*number) == Some(*row);
        let is_made = is_asked(*number, behind(*first), note, r4);
        assert!(rt; is_read && is_made, "{number}");
    }
}

#[test]
fn a_copy_names_two_windows_of_one_server(rt: HostRuntime) {
    for (source, destination, unit) in [
        (0x1000_0500, 0x2000_0500, 0),
        (0x2000_0500, 0x1000_0500, 0),
        (0x2000_0503, 0x1000_0503, 3),
    ] {
        let args = [64, source, 8, destination, 16, 99, 99, 99, 99];
        let note = (Hcall::CopyRdma, unit, [64, source, 8, destination, 16, 0]);
        let want = (Some(note), Returned::bare(Hrc::Success));
        assert_eq!(rt; asked(0x110, args), Ok(want), "{source}");
    }
}

// Tells whether a number is read as this name and written for it.
fn is_named(number: u64, name: Named) -> bool {
    Named::read(number) == Some(name) && name.number() == number
}

static NO_NAMES: [u64; 7] = [
    0,
    0x0FFF_FFFF,
    0x1001_0000,
    0x3001_0000,
    0x4000_0000,
    0x1_3000_0501,
    u64::MAX,
];

#[test]
fn names_are_read_and_written(rt: HostRuntime) {
    let unit = UnitId {
        partition: 5,
        unit: 255,
    };
    assert!(rt; is_named(0x3000_05FF, Named::Unit(unit)));
    assert!(rt; is_named(0x1000_05FF, Named::OwnWindow(unit)));
    assert!(rt; is_named(0x2000_05FF, Named::ClientWindow(unit)));
    for number in NO_NAMES.iter() {
        assert!(rt; Named::read(*number).is_none(), "{number}");
    }
}
