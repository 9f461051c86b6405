// What a unit answers: information units, and entries that are no information unit's.
ghost use Rattle.std.specs.Prelude.{◌≡◌, ◌⊎◌, ◌≤◌, true, length};
ghost use Rattle.srp_desc.specs.Pieces.{total_of};
ghost use Rattle.block_disk.specs.Cdb.{is_disk_unit};
ghost use Rattle.block_server.specs.Entries.{IsPlain, MayPut, datagram_answer, is_response_len, login_rej_len, login_rsp_len};
ghost use Rattle.block_server.specs.Responses.{Answers, GrantsLogin, HasCode, HasStatus, RejectsLogin, sense_flag, sense_of, task_code};

use arrayvec::ArrayVec;
use block_disk::ScsiReply;
use srp_iu::{
    BUFFER_FORMATS, Buffer, Iu, LoginRej, LoginReq, LoginRsp, MAX_IU_LEN, RSPVALID, Residual,
    ResponseCode, Rsp, SNSVALID, TskMgmt, write_iu,
};
use vio_num::Entry;

/// The credits that each answer gives back.
const CREDITS_BACK: u32 = 1;

/// The bits of byte 3 of the answer to a management datagram, and its first two bytes.
const DATAGRAM_ANSWER: u64 = 0x8002_00F1_0000_0000;

/// The answer to a management datagram: it is not supported. The low half is that of the datagram.
pub(crate) fn datagram_answer(low: u64) -> Entry
    ensures entry { result ≡ datagram_answer low }
    ensures may { MayPut result }
    ensures plain { IsPlain result }
{
    Entry {
        high: DATAGRAM_ANSWER,
        low,
    }
}

/// LOGIN_RSP with so many credits.
pub(crate) fn login_granted(request: &LoginReq, credits: u32) -> ArrayVec<u8, 256>
    ensures canonical { GrantsLogin result.items request.now.tag credits }
    ensures length { length result.items ≡ login_rsp_len }
{
    write_iu(&Iu::LoginRsp(LoginRsp {
        delta: credits,
        tag: request.tag,
        max_in: MAX_IU_LEN,
        max_out: MAX_IU_LEN,
        formats: BUFFER_FORMATS,
        flags: 0,
    }))
}

/// LOGIN_REJ for a reason.
pub(crate) fn login_rejected(request: &LoginReq, reason: u32) -> ArrayVec<u8, 256>
    ensures canonical { RejectsLogin result.items request.now.tag reason }
    ensures length { length result.items ≡ login_rej_len }
{
    write_iu(&Iu::LoginRej(LoginRej {
        reason,
        tag: request.tag,
        formats: BUFFER_FORMATS,
    }))
}

/// RSP with a response code, without status and residuals.
pub(crate) fn with_code(tag: u64, code: ResponseCode) -> ArrayVec<u8, 256>
    ensures answer { Answers result.items (HasCode tag code) }
    ensures length { is_response_len (length result.items) ≡ true }
{
    write_iu(&Iu::Rsp(Rsp {
        delta: CREDITS_BACK,
        tag,
        flags: RSPVALID,
        status: 0,
        out_residual: 0,
        in_residual: 0,
        response: list_of(&code.data()),
        sense: ArrayVec::new(),
    }))
}

/// RSP with the status of a disk step: `offered` bytes of data-out came with the command, and its data-in buffer
/// has room for `expected`.
pub(crate) fn with_status(
    tag: u64,
    reply: &ScsiReply,
    offered: u32,
    expected: u32,
) -> ArrayVec<u8, 256>
    ensures answer { Answers result.items (HasStatus tag offered expected reply.now) }
    ensures length { is_response_len (length result.items) ≡ true }
{
    let out = Residual::of_data_out(offered, reply.out_used, reply.out_short);
    let inn = Residual::of_data_in(expected, reply.in_len);
    let (sense, valid) = sense_part(reply.sense);
    write_iu(&Iu::Rsp(Rsp {
        delta: CREDITS_BACK,
        tag,
        flags: valid + out.data_out_flag() + inn.data_in_flag(),
        status: reply.status,
        out_residual: out.count(),
        in_residual: inn.count(),
        response: ArrayVec::new(),
        sense,
    }))
}

// Gives the list of sense data, and the flag that announces it.
fn sense_part(sense: Option<[u8; 18]>) -> (ArrayVec<u8, 220>, u8)
    ensures sense { result.0.items ≡ sense_of sense }
    ensures len { (length result.0.items ≡ 0) ⊎ (length result.0.items ≡ 18) }
    ensures flag { result.1 ≡ sense_flag sense }
{
    match sense {
        Some(bytes) => (list_of(&bytes), SNSVALID),
        None => (ArrayVec::new(), 0),
    }
}

/// The number of bytes that a buffer names in all.
pub(crate) fn total_len(buffer: &Buffer) -> u32
    ensures { result ≡ total_of buffer.now }
{
    match buffer {
        Buffer::Absent => 0,
        Buffer::Direct(desc) => desc.len,
        Buffer::Indirect { total, .. } => *total,
    }
}

/// What a task management request comes to: no function finds a task to manage, since each request is answered
/// before the next one is served.
pub(crate) fn task_code(task: &TskMgmt) -> ResponseCode
    ensures { result ≡ task_code task.now }
{
    if !is_disk_unit(task.lun) {
        return ResponseCode::FieldsInvalid;
    }
    match task.function {
        0x01 => ResponseCode::Complete,
        0x02 => ResponseCode::Complete,
        0x08 => ResponseCode::Complete,
        _ => ResponseCode::NotSupported,
    }
}

// Whether a logical unit is the disk.
#[tactic(auto, unfolding(block_disk::specs::Cdb::is_disk_unit))]
fn is_disk_unit(lun: u64) -> bool
    ensures { result ≡ is_disk_unit lun }
{
    lun == 0 || lun == 0x8000_0000_0000_0000 || lun == 0x8100_0000_0000_0000
}

// Keeps bytes in a list of fixed room.
fn list_of(bytes: &[u8]) -> ArrayVec<u8, 220>
    requires { length bytes.now ≤ 220 }
    ensures { result.items ≡ bytes.now }
{
    match ArrayVec::try_from(bytes) {
        Ok(list) => list,
        Err(_) => unreachable!(),
    }
}
