// What a client and a unit write to one another, as small values, and the bytes of each.
ghost use Rattle.std.specs.Prelude.{◌+◌, ◌≤◌};
ghost use Rattle.srp_iu.specs.Buffer.{written_len};

use arrayvec::ArrayVec;
use srp_iu::{Buffer, Cmd, Desc, Iu, LoginReq, TskMgmt, write_iu};

/// The bytes of an information unit.
pub(super) type Bytes256 = ArrayVec<u8, 256>;

/// The address of the table of descriptors that a client writes.
pub(super) const TABLE_AT: u64 = 16_384;

/// The data of a command in one direction.
#[derive(Clone, Copy)]
pub(super) enum Data {
    Absent,
    /// They lie at this address, and are of this length.
    At(u64, u32),
    /// They are named by a table of this length, none of whose descriptors stands in the unit, and are of this length.
    Table(u32, u32),
}

/// An information unit.
#[derive(Clone, Copy)]
pub(super) enum Unit {
    /// LOGIN_REQ with this tag, as an ordinary client sends it.
    Login(u64),
    /// LOGIN_REQ with tag 1, which asks for this unit length, these formats and these flags.
    LoginAs(u32, u16, u8),
    /// LOGIN_REJ with tag 1 and this reason.
    Rejection(u32),
    /// I_LOGOUT with this tag.
    Logout(u64),
    /// TEST UNIT READY with this tag.
    Ready(u64),
    /// TEST UNIT READY with this tag and this task attribute, of three bits.
    Attribute(u64, u8),
    /// A task management request with this tag, for this logical unit, of this function.
    Task(u64, u64, u8),
    /// READ(10) with this tag, from this block on, of this many blocks.
    Read(u64, u32, u16, Data),
    /// WRITE(10) with this tag, from this block on, of this many blocks.
    Write(u64, u32, u16, Data),
    /// READ(10) with this tag of the first block, with data-out and data-in.
    Both(u64, Data, Data),
    /// WRITE(10) with tag 2 of the first block, with data-out and data-in.
    WriteBoth(Data, Data),
    /// SYNCHRONIZE CACHE(10) with tag 2, of all blocks.
    Flush,
    /// CRED_RSP with this tag.
    CreditAnswer(u64),
    /// CRED_REQ with this tag.
    CreditRequest(u64),
    /// Zeros of this length, at most 256, but for this type and tag 9: where they are long enough, TEST UNIT READY.
    Zeros(u8, usize),
    /// A command of 48 bytes with tag 9, whose additional CDB would be longer.
    LongCdb,
    /// SRP_RSP with this tag, of status good and without lists.
    Good(u8),
    /// SRP_RSP with this tag and this response code.
    Code(u8, u8),
    /// SRP_RSP with tag 3: the blocks lie past the last, and 512 bytes of data-in are not sent.
    PastTheLast,
}

/// The bytes of a unit.
pub(super) fn bytes_of(unit: Unit) -> Bytes256 {
    match unit {
        Unit::Login(tag) => login(tag, 256, 0x0006, 0),
        Unit::LoginAs(iu_len, formats, flags) => login(1, iu_len, formats, flags),
        Unit::Rejection(reason) => rejection(reason),
        Unit::Logout(tag) => write_iu(&Iu::ILogout { tag }),
        Unit::Ready(tag) => ready(tag, 0),
        Unit::Attribute(tag, attribute) => ready(tag, attribute),
        Unit::Task(tag, lun, function) => task(tag, lun, function),
        Unit::Read(tag, lba, blocks, inn) => read(tag, lba, blocks, inn),
        Unit::Write(tag, lba, blocks, out) => write(tag, lba, blocks, out),
        Unit::Both(tag, out, inn) => command(tag, 0, cdb_of(0x28, 0, 1), out, inn),
        Unit::WriteBoth(out, inn) => command(2, 0, cdb_of(0x2A, 0, 1), out, inn),
        Unit::Flush => command(2, 0, cdb_of(0x35, 0, 0), Data::Absent, Data::Absent),
        Unit::CreditAnswer(tag) => write_iu(&Iu::CredRsp { tag }),
        Unit::CreditRequest(tag) => write_iu(&Iu::CredReq { delta: 1, tag }),
        Unit::Zeros(kind, len) => zeros(kind, len),
        Unit::LongCdb => long_cdb(),
        Unit::Good(tag) => good(tag),
        Unit::Code(tag, code) => refusal(tag, code),
        Unit::PastTheLast => past_the_last(),
    }
}

fn login(tag: u64, iu_len: u32, formats: u16, flags: u8) -> Bytes256 {
    write_iu(&Iu::LoginReq(LoginReq {
        tag,
        iu_len,
        formats,
        flags,
        initiator: [0; 16],
        target: [0; 16],
    }))
}

fn task(tag: u64, lun: u64, function: u8) -> Bytes256 {
    write_iu(&Iu::TskMgmt(TskMgmt {
        tag,
        lun,
        function,
        task: 2,
    }))
}

fn ready(tag: u64, attribute: u8) -> Bytes256 {
    command(tag, attribute, [0; 16], Data::Absent, Data::Absent)
}

fn read(tag: u64, lba: u32, blocks: u16, inn: Data) -> Bytes256 {
    command(tag, 0, cdb_of(0x28, lba, blocks), Data::Absent, inn)
}

fn write(tag: u64, lba: u32, blocks: u16, out: Data) -> Bytes256 {
    command(tag, 0, cdb_of(0x2A, lba, blocks), out, Data::Absent)
}

// Gives the CDB of a command of ten bytes.
fn cdb_of(code: u8, lba: u32, blocks: u16) -> [u8; 16] {
    let [a, b, c, d] = lba.to_be_bytes();
    let [e, f] = blocks.to_be_bytes();
    [code, 0, a, b, c, d, 0, e, f, 0, 0, 0, 0, 0, 0, 0]
}

// Gives a buffer as a unit names it.
fn buffer_of(data: Data) -> Buffer
    ensures { written_len result ≤ 20 }
{
    match data {
        Data::Absent => Buffer::Absent,
        Data::At(address, len) => Buffer::Direct(Desc {
            address,
            key: 0,
            len,
        }),
        Data::Table(len, total) => Buffer::Indirect {
            table: Desc {
                address: TABLE_AT,
                key: 0,
                len,
            },
            total,
            list: ArrayVec::new(),
        },
    }
}

fn command(tag: u64, attribute: u8, cdb: [u8; 16], out: Data, inn: Data) -> Bytes256 {
    let out = buffer_of(out);
    let inn = buffer_of(inn);
    command_between(tag, attribute, cdb, out, inn)
}

// Writes a command with these buffers.
fn command_between(tag: u64, attribute: u8, cdb: [u8; 16], out: Buffer, inn: Buffer) -> Bytes256
    requires { written_len out + written_len inn ≤ 208 }
{
    write_iu(&Iu::Cmd(Cmd {
        tag,
        lun: 0,
        attribute: attribute % 8,
        cdb,
        more: ArrayVec::new(),
        out,
        inn,
    }))
}

fn zeros(kind: u8, len: usize) -> Bytes256 {
    let mut bytes = [0; 256];
    bytes[0] = kind;
    bytes[15] = 9;
    kept_in(bytes.get(..len).unwrap_or(&[]))
}

fn long_cdb() -> Bytes256 {
    let mut bytes = [0; 48];
    bytes[0] = 0x02;
    bytes[15] = 9;
    bytes[31] = 252;
    kept_in(&bytes)
}

fn rejection(reason: u32) -> Bytes256 {
    let [a, b, c, d] = reason.to_be_bytes();
    kept_in(&[
        0xC2, 0, 0, 0, a, b, c, d, 0, 0, 0, 0, 0, 0, 0, 1, 0, 0, 0, 0, 0, 0, 0, 0, 0, 6, 0, 0, 0,
        0, 0, 0,
    ])
}

fn good(tag: u8) -> Bytes256 {
    kept_in(&[
        0xC1, 0, 0, 0, 0, 0, 0, 1, 0, 0, 0, 0, 0, 0, 0, tag, 0, 0, 0, 0, 0, 0, 0, 0, 0, 0, 0, 0, 0,
        0, 0, 0, 0, 0, 0, 0,
    ])
}

fn refusal(tag: u8, code: u8) -> Bytes256 {
    kept_in(&[
        0xC1, 0, 0, 0, 0, 0, 0, 1, 0, 0, 0, 0, 0, 0, 0, tag, 0, 0, 1, 0, 0, 0, 0, 0, 0, 0, 0, 0, 0,
        0, 0, 0, 0, 0, 0, 4, 0, 0, 0, code,
    ])
}

fn past_the_last() -> Bytes256 {
    kept_in(&[
        0xC1, 0, 0, 0, 0, 0, 0, 1, 0, 0, 0, 0, 0, 0, 0, 3, 0, 0, 0x22, 2, 0, 0, 0, 0, 0, 0, 2, 0,
        0, 0, 0, 0x12, 0, 0, 0, 0, 0x70, 0, 5, 0, 0, 0, 0, 0x0A, 0, 0, 0, 0, 0x21, 0, 0, 0, 0, 0,
    ])
}

// Keeps bytes, as many as a slot takes.
fn kept_in(bytes: &[u8]) -> Bytes256 {
    match ArrayVec::try_from(bytes) {
        Ok(list) => list,
        Err(_) => ArrayVec::new(),
    }
}
