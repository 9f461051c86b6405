// An entry of a command/response queue: sixteen bytes, and the fields that lie in them.
ghost use Rattle.std.specs.Prelude.{◌≡◌, ◌↔◌, ℕ, ◌++◌, IsTrue, drop, true};
ghost use Rattle.byteorder.specs.Endian.{big_number, big_bytes};
ghost use Rattle.vio_num.specs.Entry.{entry_bytes, kind_of, first_byte, entry_format, entry_status, iu_length, iu_address, is_srp_entry, srp_entry};

use byteorder::{BigEndian, ByteOrder};

/// An entry of a command/response queue (LoPAR, "Command/Response Queue Entries"), as two numbers.
#[derive(Clone, Copy, Debug, PartialEq, Eq)]
pub struct Entry {
    /// Bytes 0 to 7, the first the most significant: header, format, status, timeout, length.
    pub high: u64,
    /// Bytes 8 to 15: the I/O address of an information unit, or the tag that an answer carries.
    pub low: u64,
}

/// What an entry is, by its first byte.
#[derive(Clone, Copy, Debug, PartialEq, Eq)]
pub enum Kind {
    /// 0x00: the slot holds no entry.
    Unused,
    /// 0x80: a command or a response.
    Command,
    /// 0xC0: an initialisation command or response.
    Init,
    /// 0xFF: a transport event.
    Event,
    /// Any other first byte.
    Reserved,
}

// Says in byte 0 that the entry is a command or a response, and in byte 1 that it carries an SRP information unit.
const SRP: u64 = 0x8001_0000_0000_0000;

impl Entry {
    /// The initialisation command, which an end sends once it is registered (LoPAR, "CRQ Initialization").
    pub const INITIALIZE: Entry = Entry {
        high: 0xC001_0000_0000_0000,
        low: 0,
    };

    /// The initialisation response, which answers it.
    pub const INITIALIZATION_COMPLETE: Entry = Entry {
        high: 0xC002_0000_0000_0000,
        low: 0,
    };

    /// The transport event of a partner that failed (LoPAR, "Transport Events").
    pub const PARTNER_FAILED: Entry = Entry {
        high: 0xFF01_0000_0000_0000,
        low: 0,
    };

    /// The transport event of a partner that freed its queue.
    pub const PARTNER_FREED: Entry = Entry {
        high: 0xFF02_0000_0000_0000,
        low: 0,
    };

    /// The entry of an SRP information unit of `length` bytes: `low` is its I/O address, or the tag of the
    /// request that it answers.
    pub fn srp(length: u16, low: u64) -> Entry
        ensures entry { result ≡ srp_entry length low }
        ensures srp { is_srp_entry result ≡ true }
        ensures length { iu_length result ≡ length }
        ensures address { iu_address result ≡ low }
    {
        Entry {
            high: SRP + u64::from(length),
            low,
        }
    }

    /// The entry that these sixteen bytes are.
    pub fn from_bytes(bytes: &[u8; 16]) -> Entry
        ensures high { result.high ≡ big_number 8 bytes.now }
        ensures low { result.low ≡ big_number 8 (drop 8 bytes.now) }
    {
        Entry {
            high: BigEndian::read_u64(bytes),
            low: BigEndian::read_u64(&bytes[8..]),
        }
    }

    /// The sixteen bytes of the entry.
    pub fn to_bytes(self) -> [u8; 16]
        ensures { result ≡ entry_bytes self }
    {
        let mut bytes = [0; 16];
        BigEndian::write_u64(&mut bytes, self.high);
        BigEndian::write_u64(&mut bytes[8..], self.low);
        bytes
    }

    /// What the entry is, by byte 0.
    pub fn kind(self) -> Kind
        ensures { result ≡ kind_of (first_byte self) }
    {
        match self.to_bytes()[0] {
            0x00 => Kind::Unused,
            0x80 => Kind::Command,
            0xC0 => Kind::Init,
            0xFF => Kind::Event,
            _ => Kind::Reserved,
        }
    }

    /// The format, byte 1: 0x01 is SRP, 0x02 a management datagram.
    pub fn format(self) -> u8
        ensures { result ≡ entry_format self }
    {
        self.to_bytes()[1]
    }

    /// The status, byte 3.
    pub fn status(self) -> u8
        ensures { result ≡ entry_status self }
    {
        self.to_bytes()[3]
    }

    /// Whether the entry carries an SRP information unit: a command or response of format 1.
    pub fn is_srp(self) -> bool
        ensures { IsTrue result ↔ IsTrue (is_srp_entry self) }
    {
        self.kind() == Kind::Command && self.format() == 1
    }

    /// The length of the information unit in bytes, bytes 6 to 7.
    pub fn iu_len(self) -> u16
        ensures { result ≡ iu_length self }
    {
        BigEndian::read_u16(&self.to_bytes()[6..])
    }

    /// The I/O address of the information unit, or the tag that an answer carries: bytes 8 to 15.
    pub fn iu_address(self) -> u64
        ensures { result ≡ iu_address self }
    {
        self.low
    }
}
