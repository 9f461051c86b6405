// What a unit took from its queue: an entry whose information unit is still to be fetched, and a request that is
// still to be served.
ghost use Rattle.std.specs.Prelude.{◌≡◌};
ghost use Rattle.srp_iu.specs.Layout.{field};
ghost use Rattle.block_server.specs.Orders.{IsOrder, IsOrder-prop};

use arrayvec::ArrayVec;
use srp_iu::{Cmd, LoginReq, TskMgmt};
use vio_num::Entry;

/// An SRP entry that was taken, and whose information unit is not fetched yet.
#[derive(Clone, Copy, Debug)]
pub(crate) struct Arrival {
    /// The place of the entry in its session, from 0.
    pub(crate) number: u64,
    pub(crate) entry: Entry,
}

/// What a request asks.
#[derive(Debug, Drop)]
pub(crate) enum Order {
    /// LOGIN_REQ.
    Login(LoginReq),
    /// I_LOGOUT.
    Logout,
    /// TSK_MGMT.
    Task(TskMgmt),
    /// CMD.
    Command(Cmd),
    /// A command or a task whose information unit cannot be read.
    Unreadable,
}

/// A request that is pending.
#[derive(Debug, Drop)]
pub(crate) struct Request {
    /// The place of its entry in the session, from 0.
    pub(crate) number: u64,
    /// The I/O address of its information unit, over which its answer is written.
    pub(crate) address: u64,
    /// The login under which it was accepted; 0 for a login request.
    pub(crate) login: u64,
    /// The tag that its answer carries.
    pub(crate) tag: u64,
    /// Its information unit, as it was fetched.
    pub(crate) unit: ArrayVec<u8, 256>,
    pub(crate) order: Order,
    ghost tagged: { tag ≡ field 8 8 unit.items },
    ghost spelled: { IsOrder order unit.items } by { IsOrder-prop order unit.items },
}
