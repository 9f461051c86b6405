// What servers in use answered, byte for byte but for the tag, and what a client takes of it.
ghost use Rattle.std.specs.Prelude.{◌≡◌, ◌+◌, ◌≤◌, ◌++◌, length};
ghost use Rattle.arrayvec.specs.ArrayVec.{array_vec_len};

use super::desk::{Row, play, play_granted};
use super::step::{Call, INITIALIZE, LOGIN, REGISTER, REGISTERED, SUBMIT, Seen, Step, TAKE};
use super::units::Unit;
use arrayvec::ArrayVec;
use vscsi_client::{Dir, LoginTurn, Op};

/// An answer of a server in use.
#[derive(Clone, Copy)]
pub enum Wire {
    /// A login is granted 22 requests.
    Granted,
    /// A command went well.
    Good,
    /// It did not: 18 bytes of sense data say why.
    Checked,
    /// It had no room for 512 bytes of data-in.
    Over,
    /// A task management request is not known: four bytes of response data say so.
    Unknown,
}

/// The bytes of an answer, with this tag.
pub fn wire_bytes(wire: Wire, tag: u64) -> ArrayVec<u8, 256> {
    match wire {
        Wire::Granted => unit(
            [0xC0, 0, 0, 0, 0, 0, 0, 0x16],
            tag,
            &[0, 0, 1, 0, 0, 0, 1, 0, 0, 6, 0, 0, 0, 0, 0, 0, 0, 0],
        ),
        Wire::Good => response(tag, [0, 0], [0; 4], &[]),
        Wire::Checked => response(
            tag,
            [2, 2],
            [0; 4],
            &[
                0, 0, 0, 18, 0, 0, 0, 0, 0x70, 0, 6, 0, 0, 0, 0, 10, 0, 0, 0, 0, 0x29, 0, 0, 0, 0,
                0,
            ],
        ),
        Wire::Over => response(tag, [0x10, 0], [0, 0, 2, 0], &[]),
        Wire::Unknown => response(tag, [1, 0], [0; 4], &[0, 0, 0, 0, 0, 0, 0, 4, 0, 0, 0, 4]),
    }
}

// A response with these flags and this status, this residual of data-in, and what stands behind it.
fn response(tag: u64, said: [u8; 2], in_residual: [u8; 4], lists: &[u8]) -> ArrayVec<u8, 256>
    requires { length lists.now ≤ 100 }
{
    let mut rest = ArrayVec::new();
    append(&mut rest, &[0, 0]);
    append(&mut rest, &said);
    append(&mut rest, &[0; 4]);
    append(&mut rest, &in_residual);
    append(&mut rest, lists);
    unit([0xC1, 0, 0, 0, 0, 0, 0, 1], tag, &rest)
}

// A unit with this head and this rest, and zeros behind it up to 120 bytes.
fn unit(head: [u8; 8], tag: u64, rest: &[u8]) -> ArrayVec<u8, 256>
    requires { length rest.now ≤ 112 }
{
    let mut bytes = ArrayVec::new();
    append(&mut bytes, &head);
    append(&mut bytes, &tag.to_be_bytes());
    append(&mut bytes, rest);
    append(&mut bytes, &[0; 100]);
    bytes
}

// Writes bytes behind others, of which there are few.
fn append(unit: &mut ArrayVec<u8, 256>, bytes: &[u8])
    requires { array_vec_len unit.old + length bytes.now ≤ 256 }
    ensures { unit.new.items ≡ unit.old.items ++ bytes.now }
{
    match unit.try_extend_from_slice(bytes) {
        Ok(()) => {}
        Err(_) => unreachable!(),
    }
}

static A_LOGIN_AT_A_SERVER_IN_USE_ROWS: [Row; 7] = [
    (LOGIN, Seen::Turned(LoginTurn::Again)),
    (REGISTER, REGISTERED),
    (INITIALIZE, Seen::Put(0)),
    (LOGIN, Seen::Turned(LoginTurn::Again)),
    (
        Step::Answer(0, Unit::Wire(Wire::Granted, 1), 52, 1),
        Seen::Put(1),
    ),
    (LOGIN, Seen::Turned(LoginTurn::Granted(22))),
    (Step::Ready(22), Seen::Sent(23)),
];

/// A server in use grants a login 22 requests.
#[test]
fn a_login_at_a_server_in_use(rt: HostRuntime) {
    assert_eq!(rt;
        play(rt.alloc(), &A_LOGIN_AT_A_SERVER_IN_USE_ROWS),
        Ok(None)
    );
}

static RESPONSES_OF_A_SERVER_IN_USE_ROWS: [Row; 14] = [
    (SUBMIT, Seen::Sent(2)),
    (
        Step::Answer(0, Unit::Wire(Wire::Good, 2), 36, 2),
        Seen::Put(2),
    ),
    (TAKE, Seen::Answer(2, 1, 0)),
    (SUBMIT, Seen::Sent(3)),
    (
        Step::Answer(0, Unit::Wire(Wire::Checked, 3), 54, 3),
        Seen::Put(3),
    ),
    (TAKE, Seen::Answer(3, 1, 2)),
    (Step::Call(Call::Task(5)), Seen::Sent(4)),
    (
        Step::Answer(0, Unit::Wire(Wire::Unknown, 4), 40, 4),
        Seen::Put(4),
    ),
    (TAKE, Seen::Answer(4, 1, 0)),
    (
        Step::Call(Call::Submit(Op {
            cdb: [0x28, 0, 0, 0, 0, 1, 0, 0, 2, 0, 0, 0, 0, 0, 0, 0],
            dir: Dir::In,
            at: 65_536,
            len: 512,
            pieces: 1,
            table: None,
        })),
        Seen::Sent(5),
    ),
    (Step::Lay(16, 1, 5), Seen::Nothing),
    (
        Step::Answer(0, Unit::Wire(Wire::Over, 5), 36, 5),
        Seen::Put(5),
    ),
    (TAKE, Seen::Answer(5, 1, 0)),
    (Step::Call(Call::DataOf(5)), Seen::Gave(512, 5)),
];

/// Its responses are read to their flags, status and lists.
#[test]
fn responses_of_a_server_in_use(rt: HostRuntime) {
    assert_eq!(rt;
        play_granted(rt.alloc(), 8, &RESPONSES_OF_A_SERVER_IN_USE_ROWS),
        Ok(None)
    );
}
