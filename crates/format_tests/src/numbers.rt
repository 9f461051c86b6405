// Entries against their bytes, codes against the table, and lists that are kept.
use std::alloc::Global;
use std::test::Fail;
use vio_num::*;

static BYTES: [u8; 16] = [
    0x80, 0x01, 0, 0x99, 0, 0x1E, 0x01, 0x40, 0x0E, 0x66, 0xDE, 0xA8, 0x01, 0x02, 0x03, 0x04,
];

// The halves of an entry, its format, status, length of a unit and address.
fn fields_of(entry: Entry) -> [u64; 6] {
    [
        entry.high,
        entry.low,
        u64::from(entry.format()),
        u64::from(entry.status()),
        u64::from(entry.iu_len()),
        entry.iu_address(),
    ]
}

#[test]
fn entries_are_their_bytes(rt: HostRuntime) {
    let entry = Entry::from_bytes(&BYTES);
    let halves = (0x8001_0099_001E_0140, 0x0E66_DEA8_0102_0304);
    let fields = [halves.0, halves.1, 1, 0x99, 0x0140, 0x0E66_DEA8_0102_0304];
    assert_eq!(rt; fields_of(entry), fields);
    assert!(rt; entry.kind() == Kind::Command && entry.is_srp());
    assert!(rt; entry.to_bytes() == BYTES);
}

#[test]
fn made_entries_have_the_bytes_of_the_standard(rt: HostRuntime) {
    for (entry, high) in [
        (Entry::INITIALIZE, 0xC001_0000_0000_0000),
        (Entry::INITIALIZATION_COMPLETE, 0xC002_0000_0000_0000),
        (Entry::PARTNER_FAILED, 0xFF01_0000_0000_0000),
        (Entry::PARTNER_FREED, 0xFF02_0000_0000_0000),
        (Entry::srp(52, 7), 0x8001_0000_0000_0034),
    ] {
        assert_eq!(rt; entry.high, high);
    }
    assert_eq!(rt; Entry::srp(52, 7).low, 7);
    assert!(rt; !Entry::INITIALIZE.is_srp());
}

#[test]
fn each_first_byte_has_a_kind(rt: HostRuntime) {
    for first in 0..=255u8 {
        let want = match first {
            0 => Kind::Unused,
            128 => Kind::Command,
            192 => Kind::Init,
            255 => Kind::Event,
            _ => Kind::Reserved,
        };
        let mut bytes = [7; 16];
        bytes[0] = first;
        assert_eq!(rt; Entry::from_bytes(&bytes).kind(), want, "{first}");
    }
}

#[test]
fn codes_are_those_of_the_table(rt: HostRuntime) {
    let codes = [
        (Hrc::Success, 0),
        (Hrc::Busy, 1),
        (Hrc::Closed, 2),
        (Hrc::Function, -2),
        (Hrc::Parameter, -4),
        (Hrc::NotFound, -7),
        (Hrc::Dropped, -12),
        (Hrc::SourceParm, -13),
        (Hrc::DestParm, -14),
        (Hrc::Resource, -16),
    ];
    for (hrc, code) in codes {
        assert_eq!(rt; hrc.code(), code);
    }
}

#[test]
fn groups_have_an_odd_first_byte(rt: HostRuntime) {
    for (first, group) in [
        (0x00, false),
        (0x01, true),
        (0x02, false),
        (0x33, true),
        (0xFF, true),
    ] {
        let mac = Mac {
            bytes: [first, 1, 1, 1, 1, 1],
        };
        assert_eq!(rt; mac.is_group(), group, "{first}");
    }
}

// Pushes two bytes to an empty list.
fn pushed(alloc: Global) -> Result<Bytes, NoMemory> {
    let mut bytes = Bytes::new(alloc);
    bytes.push(7)?;
    bytes.push(9)?;
    Ok(bytes)
}

// Whether a list has the two bytes.
fn has_both(bytes: &Bytes) -> bool {
    bytes.as_slice() == [7, 9].as_slice() && bytes.len() == 2 && !bytes.is_empty()
}

// Whether a copy of a list has its bytes.
fn is_copied(alloc: Global, bytes: &Bytes) -> Result<bool, NoMemory> {
    let copy = Bytes::from_slice(alloc, bytes.as_slice())?;
    Ok(copy.as_slice() == bytes.as_slice())
}

// Whether a list with the two bytes keeps them, and its copy does.
fn keeps_both(alloc: Global) -> Result<(bool, bool), NoMemory> {
    let bytes = pushed(alloc)?;
    Ok((has_both(&bytes), is_copied(alloc, &bytes)?))
}

// Whether a list made of a vector has its items.
fn keeps_a_vector(alloc: Global) -> Result<bool, NoMemory> {
    let names = Sequence::from([1u64, 2, 3].to_vec(alloc)?);
    Ok(names.as_slice() == [1, 2, 3].as_slice())
}

#[test]
fn sequences_keep_their_items(rt: HostRuntime) -> Result<(), Fail> {
    assert!(rt; Bytes::new(rt.alloc()).is_empty());
    assert_eq!(rt; keeps_both(rt.alloc())?, (true, true));
    assert!(rt; keeps_a_vector(rt.alloc())?);
    Ok(())
}
