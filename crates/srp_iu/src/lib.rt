// Information units of SRP (ANSI INCITS 365), read from their bytes and written to them.
// `Spells` in specs/Grammar.antt is the grammar of both directions.
#![tactic(auto)]

mod buffer;
mod command;
mod control;
mod laws;
mod layout;
mod login;
mod reading;
mod residual;
mod response;
mod response_code;
mod task;
mod unit;
mod writing;

pub use buffer::{Buffer, Desc};
pub use command::Cmd;
pub use laws::{
    bytes_spell_one, canonical_bytes_spell_one, spelled_bytes_are_read, spelled_units_are_writable,
};
pub use login::{
    BUFFER_FORMATS, DIRECT_FORMAT, FORMATS_UNSUPPORTED, INDIRECT_FORMAT, LENGTH_TOO_LARGE,
    LoginRej, LoginReq, LoginRsp, MULTICHANNEL_UNSUPPORTED, UNABLE_TO_ESTABLISH_CHANNEL,
    login_fault,
};
pub use reading::{read_iu, tag_of};
pub use residual::Residual;
pub use response::{DIOVER, DIUNDER, DOOVER, DOUNDER, RSPVALID, Rsp, SNSVALID};
pub use response_code::ResponseCode;
pub use task::TskMgmt;
pub use unit::{Iu, IuFault, MAX_IU_LEN};
pub use writing::write_iu;
