// Writing: a unit to its canonical bytes.
ghost use Rattle.srp_iu.specs.Grammar.{Canon, IsWritable};

use crate::control::{write_number, write_tag};
use crate::unit::{CRED_REQ, CRED_RSP, I_LOGOUT, Iu, T_LOGOUT};
use arrayvec::ArrayVec;

/// The canonical bytes of a unit: reserved bytes are zero and nothing follows.
///
/// The unit has at most 256 bytes. A response's flags announce each of its lists that is not empty.
/// A command's attribute has three bits, and its additional bytes come in fours.
pub fn write_iu(iu: &Iu) -> ArrayVec<u8, 256>
    requires { IsWritable iu.now }
    ensures { Canon result.items iu.now }
{
    match iu {
        Iu::LoginReq(request) => request.write(),
        Iu::TskMgmt(request) => request.write(),
        Iu::Cmd(command) => command.write(),
        Iu::ILogout { tag } => write_tag(I_LOGOUT, *tag),
        Iu::CredRsp { tag } => write_tag(CRED_RSP, *tag),
        Iu::TLogout { reason, tag } => write_number(T_LOGOUT, *reason, *tag),
        Iu::CredReq { delta, tag } => write_number(CRED_REQ, *delta, *tag),
        Iu::LoginRsp(response) => response.write(),
        Iu::Rsp(response) => response.write(),
        Iu::LoginRej(rejection) => rejection.write(),
    }
}
