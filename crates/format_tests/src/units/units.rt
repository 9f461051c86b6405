// A unit of each type, and the four units of a first login and its first command.
ghost use Rattle.std.specs.Prelude.{◌≡◌, IfOk, IsOk, length};
ghost use Rattle.srp_iu.specs.Grammar.{IsWritable};

use super::exchange::bytes_of;
use arrayvec::ArrayVec;
use srp_iu::{
    Buffer, Cmd, Desc, Iu, IuFault, LoginRej, LoginReq, LoginRsp, Rsp, TskMgmt,
    canonical_bytes_spell_one, read_iu, spelled_bytes_are_read, write_iu,
};
use std::process::Abort;

/// The canonical bytes of a unit, the length of its fixed part and the whole length.
pub(super) struct Unit {
    pub(super) text: &'static str,
    pub(super) fixed: usize,
    pub(super) full: usize,
}

const LOGIN_REQ: &str =
    "0000000000000000010203040506070811121314000000002122230000000000303132333435363738393a3b3c3d3e3f404142434445464748494a4b4c4d4e4f";

const TSK_MGMT: &str =
    "010000000000000001020304050607080000000011121314151617180000210031323334353637380000000000000000";

const CMD: &str =
    "0200000000210200010203040506070800000000111213141516171800050008303132333435363738393a3b3c3d3e3f40414243444546475152535455565758595a5b5c00000020000003006162636465666768696a6b6c000001007172737475767778797a7b7c000002008182838485868788898a8b8c00000400";

const I_LOGOUT: &str = "03000000000000000102030405060708";

const CRED_RSP: &str = "41000000000000000102030405060708";

const T_LOGOUT: &str = "80000000111213140102030405060708";

const CRED_REQ: &str = "81000000111213140102030405060708";

const LOGIN_RSP: &str =
    "c0000000111213140102030405060708212223243132333441425100000000000000000000000000000000000000000000000000";

const RSP: &str =
    "c100000011121314010203040506070800002b223132333441424344000000060000000451525354616263646566";

const LOGIN_REJ: &str = "c200000011121314010203040506070800000000000000002122000000000000";

/// The login of unit 1.0 at unit 0.0, its answer, a TEST UNIT READY and its answer.
const FIRST_LOGIN_REQ: &str =
    "00000000000000000000000000000001000001000000000000060000000000000000000000000000000000000000010000000000000000000000000000000000";

const FIRST_LOGIN_RSP: &str =
    "c0000000000000080000000000000001000001000000010000060000000000000000000000000000000000000000000000000000";

const FIRST_CMD: &str =
    "020000000000000000000000000000020000000000000000000000000000000000000000000000000000000000000000";

const FIRST_RSP: &str = "c10000000000000100000000000000020000000000000000000000000000000000000000";

pub(super) static UNITS: [Unit; 10] = [
    Unit {
        text: LOGIN_REQ,
        fixed: 64,
        full: 64,
    },
    Unit {
        text: TSK_MGMT,
        fixed: 48,
        full: 48,
    },
    Unit {
        text: CMD,
        fixed: 48,
        full: 124,
    },
    Unit {
        text: I_LOGOUT,
        fixed: 16,
        full: 16,
    },
    Unit {
        text: CRED_RSP,
        fixed: 16,
        full: 16,
    },
    Unit {
        text: T_LOGOUT,
        fixed: 16,
        full: 16,
    },
    Unit {
        text: CRED_REQ,
        fixed: 16,
        full: 16,
    },
    Unit {
        text: LOGIN_RSP,
        fixed: 52,
        full: 52,
    },
    Unit {
        text: RSP,
        fixed: 36,
        full: 46,
    },
    Unit {
        text: LOGIN_REJ,
        fixed: 32,
        full: 32,
    },
];

/// What is read of what was written of a unit: that unit.
fn read_again(iu: &Iu) -> Result<Iu, IuFault>
    requires { IsWritable iu.now }
    ensures same { IfOk result (λ other. other ≡ iu.now) }
    ensures read { IsOk result }
{
    canonical_bytes_spell_one();
    spelled_bytes_are_read();
    read_iu(&write_iu(iu))
}

// Tells whether this unit was read.
fn is_read(read: Result<Iu, IuFault>, iu: &Iu) -> bool {
    match read {
        Ok(read) => read == *iu,
        Err(_) => false,
    }
}

// Tells whether the unit is written as this text, and the text is read as the unit.
fn is_spelled(iu: &Iu, text: &str) -> bool
    requires { IsWritable iu.now }
{
    let bytes = bytes_of(text);
    write_iu(iu).as_slice() == bytes.as_slice()
        && is_read(read_iu(&bytes), iu)
        && is_read(read_again(iu), iu)
}

/// The unit is written as this text, and the text is read as the unit.
fn check_unit(rt: &impl Abort, iu: &Iu, text: &str)
    requires { IsWritable iu.now }
{
    assert!(rt; is_spelled(iu, text), "{text}");
}

/// A list of one descriptor, or of two.
fn list_of(first: Desc, second: Desc) -> ArrayVec<Desc, 11>
    ensures { length result.items ≡ 2 }
{
    let mut list = ArrayVec::new();
    list.push(first);
    list.push(second);
    list
}

const SIXTEEN: [u8; 16] = [
    0x30, 0x31, 0x32, 0x33, 0x34, 0x35, 0x36, 0x37, 0x38, 0x39, 0x3a, 0x3b, 0x3c, 0x3d, 0x3e, 0x3f,
];

/// Each unit of the table has these fields.
pub(super) fn check_units(rt: &impl Abort) {
    check_logins(rt);
    check_unit(
        rt,
        &Iu::TskMgmt(TskMgmt {
            tag: 0x0102_0304_0506_0708,
            lun: 0x1112_1314_1516_1718,
            function: 0x21,
            task: 0x3132_3334_3536_3738,
        }),
        TSK_MGMT,
    );
    check_unit(rt, &Iu::Cmd(command()), CMD);
    check_unit(
        rt,
        &Iu::ILogout {
            tag: 0x0102_0304_0506_0708,
        },
        I_LOGOUT,
    );
    check_unit(
        rt,
        &Iu::CredRsp {
            tag: 0x0102_0304_0506_0708,
        },
        CRED_RSP,
    );
    check_unit(
        rt,
        &Iu::TLogout {
            reason: 0x1112_1314,
            tag: 0x0102_0304_0506_0708,
        },
        T_LOGOUT,
    );
    check_unit(
        rt,
        &Iu::CredReq {
            delta: 0x1112_1314,
            tag: 0x0102_0304_0506_0708,
        },
        CRED_REQ,
    );
    check_unit(rt, &Iu::Rsp(response()), RSP);
}

fn check_logins(rt: &impl Abort) {
    let mut target = SIXTEEN;
    for byte in target.iter_mut() {
        *byte = *byte % 16 + 0x40;
    }
    check_unit(
        rt,
        &Iu::LoginReq(LoginReq {
            tag: 0x0102_0304_0506_0708,
            iu_len: 0x1112_1314,
            formats: 0x2122,
            flags: 0x23,
            initiator: SIXTEEN,
            target,
        }),
        LOGIN_REQ,
    );
    check_unit(
        rt,
        &Iu::LoginRsp(LoginRsp {
            delta: 0x1112_1314,
            tag: 0x0102_0304_0506_0708,
            max_in: 0x2122_2324,
            max_out: 0x3132_3334,
            formats: 0x4142,
            flags: 0x51,
        }),
        LOGIN_RSP,
    );
    check_unit(
        rt,
        &Iu::LoginRej(LoginRej {
            reason: 0x1112_1314,
            tag: 0x0102_0304_0506_0708,
            formats: 0x2122,
        }),
        LOGIN_REJ,
    );
}

/// A command with 8 additional bytes, an indirect data-out buffer and a direct data-in buffer.
fn command() -> Cmd
    ensures { IsWritable (Iu.Cmd result) }
{
    Cmd {
        tag: 0x0102_0304_0506_0708,
        lun: 0x1112_1314_1516_1718,
        attribute: 5,
        cdb: SIXTEEN,
        more: eight(),
        out: Buffer::Indirect {
            table: Desc {
                address: 0x5152_5354_5556_5758,
                key: 0x595a_5b5c,
                len: 32,
            },
            total: 768,
            list: list_of(
                Desc {
                    address: 0x6162_6364_6566_6768,
                    key: 0x696a_6b6c,
                    len: 256,
                },
                Desc {
                    address: 0x7172_7374_7576_7778,
                    key: 0x797a_7b7c,
                    len: 512,
                },
            ),
        },
        inn: Buffer::Direct(Desc {
            address: 0x8182_8384_8586_8788,
            key: 0x898a_8b8c,
            len: 1024,
        }),
    }
}

/// The additional bytes 0x40 to 0x47.
fn eight() -> ArrayVec<u8, 208>
    ensures { length result.items ≡ 8 }
{
    let mut bytes = ArrayVec::new();
    let _ = bytes.try_extend_from_slice(&[0x40, 0x41, 0x42, 0x43, 0x44, 0x45, 0x46, 0x47]);
    bytes
}

/// A response with response data, sense data and both residuals.
fn response() -> Rsp
    ensures { IsWritable (Iu.Rsp result) }
{
    let mut response = ArrayVec::new();
    let _ = response.try_extend_from_slice(&[0x51, 0x52, 0x53, 0x54]);
    let mut sense = ArrayVec::new();
    let _ = sense.try_extend_from_slice(&[0x61, 0x62, 0x63, 0x64, 0x65, 0x66]);
    Rsp {
        delta: 0x1112_1314,
        tag: 0x0102_0304_0506_0708,
        flags: 0x2b,
        status: 0x22,
        out_residual: 0x3132_3334,
        in_residual: 0x4142_4344,
        response,
        sense,
    }
}

/// The four units of a first login and its first command.
pub(super) fn check_first_units(rt: &impl Abort) {
    let mut initiator = [0; 16];
    initiator[14] = 1;
    check_unit(
        rt,
        &Iu::LoginReq(LoginReq {
            tag: 1,
            iu_len: 256,
            formats: 0x0006,
            flags: 0,
            initiator,
            target: [0; 16],
        }),
        FIRST_LOGIN_REQ,
    );
    check_unit(
        rt,
        &Iu::LoginRsp(LoginRsp {
            delta: 8,
            tag: 1,
            max_in: 256,
            max_out: 256,
            formats: 0x0006,
            flags: 0,
        }),
        FIRST_LOGIN_RSP,
    );
    check_unit(rt, &Iu::Cmd(test_unit_ready()), FIRST_CMD);
    check_unit(rt, &Iu::Rsp(good()), FIRST_RSP);
}

/// A TEST UNIT READY: a command descriptor block of zeros, and no data.
fn test_unit_ready() -> Cmd
    ensures { IsWritable (Iu.Cmd result) }
{
    Cmd {
        tag: 2,
        lun: 0,
        attribute: 0,
        cdb: [0; 16],
        more: ArrayVec::new(),
        out: Buffer::Absent,
        inn: Buffer::Absent,
    }
}

/// A response of status good.
fn good() -> Rsp
    ensures { IsWritable (Iu.Rsp result) }
{
    Rsp {
        delta: 1,
        tag: 2,
        flags: 0,
        status: 0,
        out_residual: 0,
        in_residual: 0,
        response: ArrayVec::new(),
        sense: ArrayVec::new(),
    }
}
