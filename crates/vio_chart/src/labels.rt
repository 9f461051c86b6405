// The short texts beside what is drawn.
use crate::svg::{put, put_counted, put_number};
use crate::walk::tag_of;
use vio_num::{Entry, Kind, NoMemory, Served, UnitId};
use vio_trace::{CopyRow, FrameRow, Offered};

// Says what an entry with a header of its own says: the handshake and transport events.
fn header_words(entry: Entry) -> &'static [u8] {
    match (entry.kind(), entry.format()) {
        (Kind::Init, 1) => b"initialize".as_slice(),
        (Kind::Init, 2) => b"initialization complete".as_slice(),
        (Kind::Event, 1) => b"event: the partner failed".as_slice(),
        (Kind::Event, 2) => b"event: the partner freed its queue".as_slice(),
        (Kind::Event, _) => b"event".as_slice(),
        (Kind::Command, 2) => b"management datagram".as_slice(),
        _ => b"entry".as_slice(),
    }
}

/// What an entry is that a server unit took.
pub fn put_request(buffer: &mut Vec<u8>, entry: Entry) -> Result<(), NoMemory> {
    if entry.kind() == Kind::Command && entry.format() == 1 {
        put_counted(buffer, b"SRP unit, ", u64::from(entry.iu_len()))?;
        put_counted(buffer, b" bytes at ", entry.low)
    } else {
        put(buffer, header_words(entry))
    }
}

/// What an entry is that a client took.
pub fn put_answer(buffer: &mut Vec<u8>, entry: Entry) -> Result<(), NoMemory> {
    if entry.kind() == Kind::Command && entry.format() == 1 {
        put_counted(buffer, b"answer to tag ", entry.low)
    } else {
        put(buffer, header_words(entry))
    }
}

/// What a copy moved.
pub fn put_copy(buffer: &mut Vec<u8>, copy: &CopyRow) -> Result<(), NoMemory> {
    put_counted(buffer, b"copy, ", u64::from(copy.len))?;
    put(buffer, b" bytes")?;
    if copy.mark == 0 {
        return Ok(());
    }
    put_counted(buffer, b", tag ", copy.mark)
}

// Says which command an operation code is (SPC, SBC).
fn command_words(code: u8) -> &'static [u8] {
    match code {
        0x00 => b"TEST UNIT READY".as_slice(),
        0x03 => b"REQUEST SENSE".as_slice(),
        0x12 => b"INQUIRY".as_slice(),
        0x1a => b"MODE SENSE(6)".as_slice(),
        0x25 => b"READ CAPACITY(10)".as_slice(),
        0x28 => b"READ(10)".as_slice(),
        0x2a => b"WRITE(10)".as_slice(),
        0x35 => b"SYNCHRONIZE CACHE(10)".as_slice(),
        0xa0 => b"REPORT LUNS".as_slice(),
        _ => b"command".as_slice(),
    }
}

// Says what a request asks for, by the type of its information unit (SRP).
fn request_words(iu: &[u8]) -> &'static [u8] {
    match iu.first() {
        Some(0) => b"login".as_slice(),
        Some(1) => b"task management".as_slice(),
        Some(2) => match iu.get(32) {
            Some(code) => command_words(*code),
            None => b"command".as_slice(),
        },
        Some(3) => b"logout".as_slice(),
        _ => b"request".as_slice(),
    }
}

/// What a request was that was served.
pub fn put_served(buffer: &mut Vec<u8>, served: &Served) -> Result<(), NoMemory> {
    put(buffer, request_words(served.iu.as_slice()))?;
    put_counted(buffer, b", tag ", tag_of(served.iu.as_slice()))?;
    if !served.out.is_empty() {
        put_counted(buffer, b", wrote ", served.out.len() as u64)?;
    }
    if !served.inn.is_empty() {
        put_counted(buffer, b", read ", served.inn.len() as u64)?;
    }
    if served.fault.is_some() {
        put(buffer, b", the disk failed")?;
    }
    Ok(())
}

// Says what became of a frame at a port.
fn offered_words(offered: Offered) -> &'static [u8] {
    match offered {
        Offered::Done => b"delivered".as_slice(),
        Offered::Ungranted => b"dropped: buffer not granted".as_slice(),
        Offered::NoSize => b"dropped: no buffer so long".as_slice(),
        Offered::NoBuffer => b"dropped: no buffer left".as_slice(),
        Offered::Turn => b"refused: another has the turn".as_slice(),
        Offered::InUse => b"refused: page in use".as_slice(),
        Offered::Closed => b"refused: port closed".as_slice(),
    }
}

/// A frame that was offered to a port, and what became of it there.
pub fn put_offer(buffer: &mut Vec<u8>, frame: &FrameRow, offered: Offered) -> Result<(), NoMemory> {
    put_counted(buffer, b"frame ", frame.number)?;
    put_counted(buffer, b", ", frame.bytes.len() as u64)?;
    put(buffer, b" bytes, ")?;
    put(buffer, offered_words(offered))
}

/// A unit's name: the numbers of its partition and its own, joined by a dot.
pub fn put_unit(buffer: &mut Vec<u8>, unit: UnitId) -> Result<(), NoMemory> {
    put_number(buffer, u64::from(unit.partition))?;
    put_counted(buffer, b".", u64::from(unit.unit))
}
