// Units of each type, worked by hand, and exchanges that other people's code made.
mod drivers;
mod exchange;
mod own_client;
mod units;

use exchange::{Exchange, bytes_of, is_kept};
use srp_iu::{
    BUFFER_FORMATS, DIOVER, DIRECT_FORMAT, DIUNDER, DOOVER, DOUNDER, FORMATS_UNSUPPORTED,
    INDIRECT_FORMAT, Iu, IuFault, LENGTH_TOO_LARGE, LoginRej, LoginReq, MAX_IU_LEN,
    MULTICHANNEL_UNSUPPORTED, RSPVALID, Residual, ResponseCode, SNSVALID,
    UNABLE_TO_ESTABLISH_CHANNEL, login_fault, read_iu, tag_of, write_iu,
};
use units::{UNITS, Unit, check_first_units, check_units};

/// The types of units.
const TYPES: [u8; 10] = [0x00, 0x01, 0x02, 0x03, 0x41, 0x80, 0x81, 0xC0, 0xC1, 0xC2];

// Gives the name of the first exchange that is read or written otherwise.
fn first_other(exchanges: &[Exchange]) -> Option<&'static str> {
    for exchange in exchanges {
        if !is_kept(exchange) {
            return Some(exchange.name);
        }
    }
    None
}

#[test]
fn exchanges_of_others(rt: HostRuntime) {
    assert_eq!(rt; first_other(&drivers::EXCHANGES), None);
    assert_eq!(rt; first_other(&own_client::EXCHANGES), None);
}

#[test]
fn each_type_both_ways(rt: HostRuntime) {
    check_units(&rt);
    check_first_units(&rt);
}

// Gives why so many bytes of a unit are refused, if they are: as many are needed.
fn need_of(unit: &Unit, len: usize) -> Option<IuFault> {
    let need = match len {
        0 => 1,
        _ if len < unit.fixed => unit.fixed,
        _ if len < unit.full => unit.full,
        _ => return None,
    };
    Some(IuFault::Short { need: need as u64 })
}

// Tells whether a unit has its length, and each of its fronts is refused for what it needs.
fn needs_its_rest(unit: &Unit) -> bool {
    let bytes = bytes_of(unit.text);
    for len in 0..=bytes.len() {
        if read_iu(&bytes[..len]).err() != need_of(unit, len) {
            return false;
        }
    }
    bytes.len() == unit.full
}

#[test]
fn prefixes(rt: HostRuntime) {
    for unit in UNITS.iter() {
        assert!(rt; needs_its_rest(unit), "{}", unit.text);
    }
}

#[test]
fn first_bytes(rt: HostRuntime) {
    for kind in 0..=255 {
        let mut bytes = [0; 256];
        bytes[0] = kind;
        let fault = if TYPES.contains(&kind) {
            None
        } else {
            Some(IuFault::UnknownType(kind))
        };
        assert_eq!(rt; read_iu(&bytes).err(), fault);
    }
}

#[test]
fn format_bytes(rt: HostRuntime) {
    for formats in 0..=255 {
        let mut bytes = [0; 256];
        bytes[0] = 0x02;
        bytes[5] = formats;
        let fault = match (formats / 16, formats % 16) {
            (0..=2, 0..=2) => None,
            _ => Some(IuFault::BadFormat(formats)),
        };
        assert_eq!(rt; read_iu(&bytes).err(), fault);
    }
}

/// The first byte, a place and the byte there, the number of bytes in all, of which the others are
/// zero, and why they are refused.
static REFUSALS: [(u8, usize, u8, usize, Option<IuFault>); 15] = [
    (0x00, 0, 0x00, 0, Some(IuFault::Short { need: 1 })),
    (0x05, 0, 0x05, 1, Some(IuFault::UnknownType(5))),
    (0x02, 1, 0x00, 47, Some(IuFault::Short { need: 48 })),
    (0x02, 5, 0x30, 48, Some(IuFault::BadFormat(48))),
    (0x02, 5, 0x30, 47, Some(IuFault::Short { need: 48 })),
    (0x02, 5, 0x31, 50, Some(IuFault::BadFormat(49))),
    (0x00, 1, 0x00, 257, Some(IuFault::Long)),
    (0x05, 1, 0x00, 257, Some(IuFault::Long)),
    // 212 additional bytes are never there; of byte 31 the low two bits are not looked at
    (0x02, 31, 0xD4, 256, Some(IuFault::Short { need: 260 })),
    (0x02, 31, 0xD3, 256, None),
    (0x02, 31, 0x03, 48, None),
    // the list of a response without its flag has no length
    (0xC1, 28, 0xFF, 36, None),
    (0xC1, 32, 0xFF, 36, None),
    // a count is that of an indirect buffer alone
    (0x02, 6, 0xFF, 48, None),
    (0x02, 7, 0xFF, 48, None),
];

// Gives why as many bytes are refused, which are zero but for the first and another.
fn refusal_of(kind: u8, place: usize, byte: u8, len: usize) -> Option<IuFault> {
    let mut bytes = [0; 300];
    bytes[0] = kind;
    if place < 300 {
        bytes[place] = byte;
    }
    read_iu(&bytes[..len.min(300)]).err()
}

#[test]
fn refusals(rt: HostRuntime) {
    for (kind, place, byte, len, fault) in REFUSALS.iter() {
        let is_told = *len <= 300 && refusal_of(*kind, *place, *byte, *len) == *fault;
        assert!(rt; is_told, "{kind} {place} {byte} {len}");
    }
}

/// The request's length, formats and flags, and the reason for its rejection.
static LOGINS: [(u32, u16, u8, Option<u32>); 7] = [
    (256, 0x0006, 0, None),
    (257, 0x0006, 0, Some(LENGTH_TOO_LARGE)),
    (256, 0x0000, 0, Some(FORMATS_UNSUPPORTED)),
    (256, 0x0006, 1, Some(MULTICHANNEL_UNSUPPORTED)),
    (256, 0x0002, 0xFC, None),
    (256, 0xFFF9, 3, Some(MULTICHANNEL_UNSUPPORTED)),
    (257, 0x0000, 2, Some(LENGTH_TOO_LARGE)),
];

// Gives why a request with this length, formats and flags is rejected.
fn reason_of(iu_len: u32, formats: u16, flags: u8) -> Option<u32> {
    login_fault(&LoginReq {
        tag: 1,
        iu_len,
        formats,
        flags,
        initiator: [0; 16],
        target: [0; 16],
    })
}

// Tells whether the reasons have the codes of the standard.
fn reasons_have_their_codes() -> bool {
    UNABLE_TO_ESTABLISH_CHANNEL == 0x0001_0000
        && LENGTH_TOO_LARGE == 0x0001_0002
        && FORMATS_UNSUPPORTED == 0x0001_0004
        && MULTICHANNEL_UNSUPPORTED == 0x0001_0005
}

// Tells whether a rejection is written as these bytes.
fn is_rejected_as(text: &str) -> bool {
    let rejection = write_iu(&Iu::LoginRej(LoginRej {
        reason: LENGTH_TOO_LARGE,
        tag: 1,
        formats: 0x0006,
    }));
    rejection.as_slice() == bytes_of(text).as_slice()
}

#[test]
fn logins(rt: HostRuntime) {
    for (iu_len, formats, flags, reason) in LOGINS.iter() {
        assert_eq!(rt; reason_of(*iu_len, *formats, *flags), *reason);
    }
    assert!(rt; reasons_have_their_codes());
    let rejection = "c200000000010002000000000000000100000000000000000006000000000000";
    assert!(rt; is_rejected_as(rejection));
}

/// The bytes of the buffer, those that moved, those that lacked, and the residual of data-in and of data-out.
static RESIDUALS: [(u32, u32, u32, Residual, Residual); 5] = [
    (512, 512, 0, Residual::Exact, Residual::Exact),
    (512, 36, 0, Residual::Under(476), Residual::Under(476)),
    (36, 512, 0, Residual::Over(476), Residual::Exact),
    (512, 0, 512, Residual::Under(512), Residual::Over(512)),
    (0, u32::MAX, 1, Residual::Over(u32::MAX), Residual::Over(1)),
];

// Gives the number of the first row of the residuals that is otherwise.
fn first_other_residual() -> Option<usize> {
    for (row, (buffer, moved, lacking, inn, out)) in RESIDUALS.iter().enumerate() {
        let is_inn = Residual::of_data_in(*buffer, *moved) == *inn;
        if !is_inn || Residual::of_data_out(*buffer, *moved, *lacking) != *out {
            return Some(row);
        }
    }
    None
}

// Tells whether residuals have their count and their flags.
fn residuals_have_their_flags() -> bool {
    Residual::Under(7).count() == 7
        && Residual::Over(7).data_in_flag() == DIOVER
        && Residual::Under(7).data_out_flag() == DOUNDER
}

// Tells whether the flags, the length and the formats are those of the standard.
fn flags_have_their_values() -> bool {
    [RSPVALID, SNSVALID, DOOVER, DOUNDER, DIOVER, DIUNDER] == [1, 2, 4, 8, 16, 32]
        && MAX_IU_LEN == 256
        && BUFFER_FORMATS == DIRECT_FORMAT + INDIRECT_FORMAT
}

// Tells whether response codes have their bytes and their number.
fn codes_have_their_bytes() -> bool {
    ResponseCode::FieldsInvalid.data() == [0, 0, 0, 2] && ResponseCode::NotSupported.code() == 4
}

// Gives the tag of the bytes of this text.
fn tag_in(text: &str) -> Option<u64> {
    tag_of(&bytes_of(text))
}

#[test]
fn residuals_and_codes(rt: HostRuntime) {
    assert_eq!(rt; first_other_residual(), None);
    assert!(rt; residuals_have_their_flags());
    assert!(rt; flags_have_their_values());
    assert!(rt; codes_have_their_bytes());
    let tag = tag_in("ff000000000000000000000000000102");
    assert_eq!(rt; (tag, tag_of(b"short")), (Some(0x0102), None));
}
