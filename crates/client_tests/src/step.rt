// One step of a script, and what is seen of it.
use super::units::Unit;
use crq_session::{FreeAnswer, RegAnswer, SendAnswer};
use vio_num::Entry;
use vscsi_client::{DataFault, Dir, LoginTurn, Op, Refused};

/// A call of a client.
#[derive(Clone, Copy)]
pub enum Call {
    /// A turn of a login.
    Login,
    /// A command.
    Submit(Op),
    /// A task management request of function 1 for the task with this tag.
    Task(u64),
    Logout,
    /// The next answer is taken.
    Take,
    /// The data of this tag are wanted.
    DataOf(u64),
    /// The tags that are outstanding are counted.
    Outstanding,
}

/// What is done at one end of the link.
#[derive(Clone, Copy)]
pub enum Act {
    Register,
    Free,
    Fail,
    Send(Entry),
    /// This many entries of a tag that was never used are sent.
    SendAll(usize),
    Poll,
    /// This many entries are taken.
    PollAll(usize),
}

/// A step of the client, of its partition, or of its partner.
#[derive(Clone, Copy)]
pub enum Step {
    /// The client makes a call.
    Call(Call),
    /// It makes a call while each page of its region is in use.
    InUse(Call),
    /// It sends this many commands without data.
    Ready(usize),
    /// It sends [`READ`] with its data at this address.
    ReadAt(u64),
    /// It sends [`READ`] with a table at this address.
    ReadBy(u64),
    /// Its partition does something at its end of the link.
    Own(Act),
    /// The client is told that its queue was freed, or failed.
    Freed,
    /// Its partner does something at the other end.
    Partner(Act),
    /// The partner writes a unit into this slot.
    Write(u64, Unit),
    /// It does so, and sends an entry of this length and tag.
    Answer(u64, Unit, u16, u64),
    /// It answers the request of this tag, whose unit lies in this slot, with a grant of seven more.
    Good(u64, u64),
    /// It grants the login of this tag, whose unit lies in this slot, this many requests.
    Grant(u64, u64, u32),
    /// The partner writes over pages of the window: from this one on, this many, under this tag.
    Lay(u64, u64, u64),
    /// The eight bytes at this address of the region are looked at.
    Word(u64),
    /// The partition writes these eight bytes at this address.
    Poke(u64, u64),
}

/// What is seen of a step.
#[derive(Clone, Copy, PartialEq, Eq)]
pub enum Seen {
    Nothing,
    /// The call may not be made.
    Barred,
    Turned(LoginTurn),
    Sent(u64),
    Refused(Refused),
    /// A response with this tag, this delta and this status.
    Answer(u64, u32, u8),
    Stray(u64),
    Lost,
    Other,
    /// This page is in use, by this word of it.
    Again(u16, u64),
    Empty(u64),
    /// This many bytes, and the last of them.
    Gave(usize, u8),
    NoData(DataFault),
    /// This many tags, and the oldest of them.
    Tags(usize, u64),
    Registered(RegAnswer),
    Freed(FreeAnswer),
    /// An entry was put at this place.
    Put(u64),
    NotPut(SendAnswer),
    /// The entry of a unit of this length at this address.
    Unit(u16, u64),
    Entry(Entry),
    Word(u64),
}

/// A command without data: TEST UNIT READY.
pub const READY: Op = Op {
    cdb: [0; 16],
    dir: Dir::Neither,
    at: 0,
    len: 0,
    pieces: 0,
    table: None,
};

/// A read of two blocks in three pieces into page 16.
pub const READ: Op = Op {
    cdb: [0x28, 0, 0, 0, 0, 0, 0, 0, 2, 0, 0, 0, 0, 0, 0, 0],
    dir: Dir::In,
    at: 65_536,
    len: 1024,
    pieces: 3,
    table: None,
};

pub const LOGIN: Step = Step::Call(Call::Login);

pub const SUBMIT: Step = Step::Call(Call::Submit(READY));

pub const TASK: Step = Step::Call(Call::Task(2));

pub const LOGOUT: Step = Step::Call(Call::Logout);

pub const TAKE: Step = Step::Call(Call::Take);

pub const OUTSTANDING: Step = Step::Call(Call::Outstanding);

pub const REGISTER: Step = Step::Partner(Act::Register);

pub const POLL: Step = Step::Partner(Act::Poll);

pub const INITIALIZE: Step = Step::Partner(Act::Send(Entry::INITIALIZE));

pub const COMPLETE: Step = Step::Partner(Act::Send(Entry::INITIALIZATION_COMPLETE));

pub const AGAIN: Seen = Seen::Turned(LoginTurn::Again);

pub const REGISTERED: Seen = Seen::Registered(RegAnswer::Success);

pub const FREED: Seen = Seen::Freed(FreeAnswer::Success);

pub const NOT_LOGGED_IN: Seen = Seen::Refused(Refused::NotLoggedIn);

pub const NO_CREDIT: Seen = Seen::Refused(Refused::NoCredit { limit: 0 });
