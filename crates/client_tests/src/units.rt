// The units that a client's partner writes.
use super::wire::{Wire, wire_bytes};
use arrayvec::ArrayVec;
use srp_iu::{DIOVER, DIUNDER, Iu, LoginRej, LoginRsp, RSPVALID, Rsp, write_iu};

/// A unit that the partner writes.
#[derive(Clone, Copy)]
pub enum Unit {
    /// A login of this tag is granted this many requests.
    Grant(u64, u32),
    /// It is rejected for this reason.
    Reject(u64, u32),
    /// A response of good status with this tag and this delta.
    Good(u64, u32),
    /// A response, of a command that got this many bytes of data-in less than it named.
    Short(u64, u32),
    /// A response, of a command that had no room for this many bytes of data-in.
    Over(u64, u32),
    /// One with less and a response code, so that its residual counts for nothing.
    Coded(u64, u32),
    /// What a server in use answered, but for the tag.
    Wire(Wire, u64),
    /// Bytes that are no unit.
    Nothing,
}

/// The bytes of a unit.
pub fn bytes_of(unit: Unit) -> ArrayVec<u8, 256> {
    match unit {
        Unit::Grant(tag, delta) => grant(tag, delta),
        Unit::Reject(tag, reason) => rejection(tag, reason),
        Unit::Good(tag, delta) => response(tag, delta, 0, 0),
        Unit::Short(tag, residual) => response(tag, 1, DIUNDER, residual),
        Unit::Over(tag, residual) => response(tag, 1, DIOVER, residual),
        Unit::Coded(tag, residual) => response(tag, 1, DIUNDER | RSPVALID, residual),
        Unit::Wire(wire, tag) => wire_bytes(wire, tag),
        Unit::Nothing => ArrayVec::from([0xFF; 256]),
    }
}

fn grant(tag: u64, delta: u32) -> ArrayVec<u8, 256> {
    write_iu(&Iu::LoginRsp(LoginRsp {
        delta,
        tag,
        max_in: 256,
        max_out: 256,
        formats: 6,
        flags: 0,
    }))
}

fn rejection(tag: u64, reason: u32) -> ArrayVec<u8, 256> {
    write_iu(&Iu::LoginRej(LoginRej {
        reason,
        tag,
        formats: 6,
    }))
}

fn response(tag: u64, delta: u32, flags: u8, in_residual: u32) -> ArrayVec<u8, 256> {
    write_iu(&Iu::Rsp(Rsp {
        delta,
        tag,
        flags,
        status: 0,
        out_residual: 0,
        in_residual,
        response: ArrayVec::new(),
        sense: ArrayVec::new(),
    }))
}
