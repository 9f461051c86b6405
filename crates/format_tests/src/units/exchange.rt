// One exchange: the bytes of a request and of its answer, and the fields that they have.
ghost use Rattle.std.specs.Prelude.{◌<◌};

use arrayvec::ArrayVec;
use srp_iu::{
    Buffer, Cmd, Desc, Iu, LoginReq, LoginRsp, Rsp, TskMgmt, read_iu, spelled_units_are_writable,
    write_iu,
};

/// An exchange. Bytes are hexadecimal text.
pub(super) struct Exchange {
    pub(super) name: &'static str,
    /// The bytes of the request, without those behind the unit.
    pub(super) request: &'static str,
    /// The number of bytes that were sent. Those behind the unit are zero and spell nothing: Linux
    /// sends 256 bytes always.
    pub(super) sent: usize,
    /// The places whose byte is the count of a direct buffer. It spells nothing, since counts are
    /// those of indirect buffers alone; it is written as 0.
    pub(super) counts: &'static [usize],
    pub(super) wanted: Request,
    pub(super) answer: &'static str,
    pub(super) answered: Answer,
}

pub(super) enum Request {
    Login(Login),
    Task(TskMgmt),
    Command(Command),
    CredRsp(u64),
}

pub(super) struct Login {
    pub(super) tag: u64,
    pub(super) iu_len: u32,
    pub(super) formats: u16,
    pub(super) flags: u8,
    pub(super) initiator: &'static str,
    pub(super) target: &'static str,
}

/// A command with attribute 0 and no additional bytes.
pub(super) struct Command {
    pub(super) tag: u64,
    pub(super) lun: u64,
    pub(super) cdb: &'static str,
    pub(super) out: Data,
    pub(super) inn: Data,
}

/// A buffer; a descriptor is its address, key and length.
pub(super) enum Data {
    Absent,
    Direct(u64, u32, u32),
    Indirect((u64, u32, u32), u32, &'static [(u64, u32, u32)]),
}

pub(super) enum Answer {
    None,
    Login(LoginRsp),
    /// The command with this tag is done: one credit, status GOOD, no residual.
    Good(u64),
    /// The command with this tag failed: one credit, status CHECK CONDITION with this sense, no residual.
    Checked(u64, &'static str),
    Response(Response),
}

#[derive(Drop)]
pub(super) struct Response {
    pub(super) delta: u32,
    pub(super) tag: u64,
    pub(super) flags: u8,
    pub(super) status: u8,
    pub(super) out_residual: u32,
    pub(super) in_residual: u32,
    pub(super) response: &'static str,
    pub(super) sense: &'static str,
}

impl Response {
    fn good(tag: u64) -> Response {
        Response {
            delta: 1,
            tag,
            flags: 0x00,
            status: 0x00,
            out_residual: 0,
            in_residual: 0,
            response: "",
            sense: "",
        }
    }

    fn checked(tag: u64, sense: &'static str) -> Response {
        Response {
            flags: 0x02,
            status: 0x02,
            sense,
            ..Response::good(tag)
        }
    }
}

/// The bytes of a hexadecimal text, at most 256.
pub(super) fn bytes_of(text: &str) -> ArrayVec<u8, 256> {
    let mut bytes = ArrayVec::new();
    for pair in text.as_bytes().chunks_exact(2) {
        if let [high, low] = pair {
            let _ = bytes.try_push(16 * digit(*high) + digit(*low));
        }
    }
    bytes
}

fn digit(character: u8) -> u8
    ensures { result < 16 }
{
    match character {
        b'0'..=b'9' => character - b'0',
        b'a'..=b'f' => character - b'a' + 10,
        _ => 0,
    }
}

/// Tells whether the request and the answer are read to their fields, and written back but for what spells nothing.
pub(super) fn is_kept(exchange: &Exchange) -> bool {
    let mut request = bytes_of(exchange.request);
    let full = request.len();
    for _ in full..exchange.sent {
        let _ = request.try_push(0);
    }
    request.len() == exchange.sent
        && is_read(&request, &exchange.wanted)
        && is_written(&request, full, exchange.counts)
        && is_answer_kept(exchange.answer, &exchange.answered)
}

fn is_read(request: &[u8], wanted: &Request) -> bool {
    match read_iu(request) {
        Ok(iu) => is_request(&iu, wanted),
        Err(_) => false,
    }
}

// Tells whether so many bytes are written of a request, which are those that were given, but 0 where a count spells
// nothing.
fn is_written(request: &[u8], full: usize, counts: &[usize]) -> bool {
    let written = written_again(request);
    if written.len() != full {
        return false;
    }
    for (place, (byte, given)) in written.iter().zip(request.iter()).enumerate() {
        let is_so = if counts.contains(&place) {
            *given != 0 && *byte == 0
        } else {
            byte == given
        };
        if !is_so {
            return false;
        }
    }
    true
}

// Tells whether an answer is read to its fields, and canonical: it is written back byte for byte.
fn is_answer_kept(answer: &str, answered: &Answer) -> bool {
    let answer = bytes_of(answer);
    let is_read = match read_iu(&answer) {
        Ok(iu) => is_answer(&iu, answered),
        Err(_) => matches!(answered, Answer::None),
    };
    is_read && written_again(&answer).as_slice() == answer.as_slice()
}

/// What is written of the unit that these bytes are; nothing where they are none.
fn written_again(bytes: &[u8]) -> ArrayVec<u8, 256> {
    spelled_units_are_writable();
    match read_iu(bytes) {
        Ok(iu) => write_iu(&iu),
        Err(_) => ArrayVec::new(),
    }
}

fn is_request(iu: &Iu, wanted: &Request) -> bool {
    match (iu, wanted) {
        (Iu::LoginReq(request), Request::Login(login)) => is_login(request, login),
        (Iu::TskMgmt(request), Request::Task(task)) => request == task,
        (Iu::Cmd(request), Request::Command(command)) => is_command(request, command),
        (Iu::CredRsp { tag }, Request::CredRsp(wanted)) => tag == wanted,
        _ => false,
    }
}

fn is_login(request: &LoginReq, login: &Login) -> bool {
    request.tag == login.tag
        && request.iu_len == login.iu_len
        && request.formats == login.formats
        && request.flags == login.flags
        && request.initiator.as_slice() == bytes_of(login.initiator).as_slice()
        && request.target.as_slice() == bytes_of(login.target).as_slice()
}

fn is_command(request: &Cmd, command: &Command) -> bool {
    request.tag == command.tag
        && request.lun == command.lun
        && request.attribute == 0
        && request.cdb.as_slice() == bytes_of(command.cdb).as_slice()
        && request.more.is_empty()
        && is_data(&request.out, &command.out)
        && is_data(&request.inn, &command.inn)
}

fn is_data(buffer: &Buffer, data: &Data) -> bool {
    match (buffer, data) {
        (Buffer::Absent, Data::Absent) => true,
        (Buffer::Direct(desc), Data::Direct(address, key, len)) => {
            is_desc(desc, &(*address, *key, *len))
        }
        (Buffer::Indirect { table, total, list }, Data::Indirect(at, all, pieces)) => {
            is_desc(table, at)
                && total == all
                && list.len() == pieces.len()
                && list
                    .iter()
                    .zip(pieces.iter())
                    .all(|(desc, piece)| is_desc(desc, piece))
        }
        _ => false,
    }
}

fn is_desc(desc: &Desc, wanted: &(u64, u32, u32)) -> bool {
    desc.address == wanted.0 && desc.key == wanted.1 && desc.len == wanted.2
}

fn is_answer(iu: &Iu, answered: &Answer) -> bool {
    match (iu, answered) {
        (Iu::LoginRsp(response), Answer::Login(login)) => response == login,
        (Iu::Rsp(response), Answer::Good(tag)) => is_response(response, &Response::good(*tag)),
        (Iu::Rsp(response), Answer::Checked(tag, sense)) => {
            is_response(response, &Response::checked(*tag, sense))
        }
        (Iu::Rsp(response), Answer::Response(wanted)) => is_response(response, wanted),
        _ => false,
    }
}

fn is_response(response: &Rsp, wanted: &Response) -> bool {
    response.delta == wanted.delta
        && response.tag == wanted.tag
        && response.flags == wanted.flags
        && response.status == wanted.status
        && response.out_residual == wanted.out_residual
        && response.in_residual == wanted.in_residual
        && response.response.as_slice() == bytes_of(wanted.response).as_slice()
        && response.sense.as_slice() == bytes_of(wanted.sense).as_slice()
}
