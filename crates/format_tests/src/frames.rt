// Destinations, control words and the filter, in tables.
use lan_frame::*;
use vio_num::{Hrc, Mac};

// Gives the address that ends in this byte: of a group where the first byte is 1.
fn mac(first: u8, last: u8) -> Mac {
    Mac {
        bytes: [first, 0, 0, 0, 0, last],
    }
}

// Gives what a control word asks for, the action by its name.
fn asked_by(control: Control) -> (Option<bool>, Option<bool>, FilterAction) {
    (
        control.reception,
        control.filtering,
        control.filter_action(),
    )
}

static FRAME: [u8; 14] = [
    0x01, 0x02, 0x03, 0x04, 0x05, 0x06, 0x11, 0x12, 0x13, 0x14, 0x15, 0x16, 0x08, 0x00,
];

#[test]
fn destinations_are_the_first_six_bytes(rt: HostRuntime) {
    assert_eq!(rt; (HEADER_BYTES, MIN_FRAME, MAX_FRAME), (14, 14, 65_527));
    assert!(rt; destination(&FRAME).bytes == [1, 2, 3, 4, 5, 6]);
    assert!(rt; destination(&[0xFF; 60]) == BROADCAST);
    assert!(rt; destination(&[0; 60]) == ZERO);
}

// The first byte of an address and its last, whether it is of a group, of every station, and of none.
static STATIONS: [(u8, u8, bool, bool, bool); 3] = [
    (2, 1, false, false, false),
    (1, 1, true, false, false),
    (0xFF, 0xFF, true, false, false),
];

// Tells whether an address is of a group, of every station, and of none.
fn kinds_of(address: Mac) -> (bool, bool, bool) {
    (address.is_group(), is_broadcast(address), is_zero(address))
}

#[test]
fn addresses_of_every_station_and_of_none(rt: HostRuntime) {
    assert_eq!(rt; kinds_of(ZERO), (false, false, true));
    assert_eq!(rt; kinds_of(BROADCAST), (true, true, false));
    for (first, last, group, broadcast, zero) in STATIONS.iter() {
        let kinds = kinds_of(mac(*first, *last));
        assert_eq!(rt; kinds, (*group, *broadcast, *zero));
    }
}

// A control word, and what it asks for.
static CONTROLS: [(u64, Option<bool>, Option<bool>, FilterAction); 11] = [
    (0x00000, None, None, FilterAction::Nothing),
    (0x30000, None, None, FilterAction::Nothing),
    (0xF0001, Some(true), Some(true), FilterAction::Add),
    (0xC0002, Some(false), Some(false), FilterAction::Remove),
    (0xE0003, Some(true), Some(false), FilterAction::Clear),
    (0xD0000, Some(false), Some(true), FilterAction::Nothing),
    (0x80001, Some(false), None, FilterAction::Add),
    (0xA0002, Some(true), None, FilterAction::Remove),
    (0x40003, None, Some(false), FilterAction::Clear),
    (0x50001, None, Some(true), FilterAction::Add),
    (0x00002, None, None, FilterAction::Remove),
];

#[test]
fn control_words_are_read(rt: HostRuntime) {
    for (word, reception, filtering, action) in CONTROLS.iter() {
        let asked = read_control(*word).map(asked_by);
        let is_read = asked == Ok((*reception, *filtering, *action));
        assert!(rt; is_read, "{word}");
    }
}

#[test]
fn words_with_another_bit_are_refused(rt: HostRuntime) {
    for word in [
        0x100000,
        0x4,
        0x8001,
        0xF0007,
        0x8000_0000_000F_0003,
        u64::MAX,
    ] {
        assert_eq!(rt; read_control(word), Err(word));
    }
}

#[test]
fn frames_are_accepted_by_the_filter(rt: HostRuntime) {
    let own = mac(2, 1);
    let filters = [mac(1, 1), mac(1, 2)];
    for (to, reception, filtering, want) in [
        (own, false, false, true),
        (own, false, true, true),
        (BROADCAST, false, false, true),
        (BROADCAST, true, true, true),
        (ZERO, true, false, false),
        (mac(2, 2), true, false, false),
        (mac(1, 1), false, false, false),
        (mac(1, 1), false, true, false),
        (mac(1, 2), true, true, true),
        (mac(1, 3), true, true, false),
        (mac(1, 3), true, false, true),
    ] {
        assert_eq!(rt;
            accepts(own, reception, filtering, &filters, to),
            want,
            "{to:?}"
        );
    }
    assert!(rt; !accepts(own, true, true, &[], mac(1, 1)));
}

// Gives the filters of so many groups, whose addresses end in 1 to `count`.
fn groups(count: u8) -> Filters {
    let mut filters = Filters::new();
    for last in 0..count {
        filters.add(mac(1, last));
    }
    filters
}

// How many groups there are, the last byte of one that is added, the answer, and how many there are then.
static ADDED: [(u8, u8, Hrc, usize); 7] = [
    (0, 0, Hrc::Success, 1),
    (1, 0, Hrc::Success, 1),
    (1, 1, Hrc::Success, 2),
    (31, 40, Hrc::Success, 32),
    (32, 40, Hrc::Resource, 32),
    (32, 31, Hrc::Success, 32),
    (40, 32, Hrc::Resource, 32),
];

// Adds a group to so many, and tells the answer and how many there are then.
fn added(count: u8, last: u8) -> (Hrc, usize) {
    let mut filters = groups(count);
    let answer = filters.add(mac(1, last));
    (answer, filters.len())
}

#[test]
fn filters_are_added_once_each_up_to_thirty_two(rt: HostRuntime) {
    for (count, last, want, left) in ADDED.iter() {
        assert_eq!(rt; added(*count, *last), (*want, *left), "{count} {last}");
    }
}

// How many groups there are, the last byte of one that is removed, the answer, and how many there are then.
static REMOVED: [(u8, u8, Hrc, usize); 5] = [
    (0, 0, Hrc::NotFound, 0),
    (3, 3, Hrc::NotFound, 3),
    (3, 0, Hrc::Success, 2),
    (3, 2, Hrc::Success, 2),
    (32, 31, Hrc::Success, 31),
];

// Removes a group from so many, and tells the answer, how many there are then, and whether it is there still.
fn removed(count: u8, last: u8) -> (Hrc, usize, bool) {
    let mut filters = groups(count);
    let answer = filters.remove(mac(1, last));
    (answer, filters.len(), filters.contains(mac(1, last)))
}

#[test]
fn filters_are_removed_by_their_address(rt: HostRuntime) {
    for (count, last, want, left) in REMOVED.iter() {
        let seen = removed(*count, *last);
        assert_eq!(rt; seen, (*want, *left, false), "{count} {last}");
    }
}

#[test]
fn filters_stay_in_their_order(rt: HostRuntime) {
    let mut filters = groups(3);
    filters.remove(mac(1, 1));
    filters.add(mac(1, 9));
    assert_eq!(rt;
        filters.as_slice(),
        [mac(1, 0), mac(1, 2), mac(1, 9)].as_slice()
    );
    let kept = filters.copied();
    filters.clear();
    assert!(rt; filters.is_empty());
    assert_eq!(rt;
        kept.as_slice(),
        [mac(1, 0), mac(1, 2), mac(1, 9)].as_slice()
    );
    assert!(rt; kept.contains(mac(1, 9)));
}
