// A server unit, between its turns.
ghost use Rattle.std.specs.Prelude.{◌≡◌, ◌≤◌, None, [], false};
ghost use Rattle.crq_session.specs.declared.handshake.Handshake.TheVariants.{Down};
ghost use Rattle.block_server.specs.Talk.{IsNewUnit};
ghost use Rattle.block_server.specs.declared.service.Stage.TheVariants.{Start};

use crate::line::Line;
use crate::logins::Logins;
use crate::request::{Arrival, Request};
use crate::service::Service;
use std::alloc::Global;
use std::collections::VecDeque;
use vio_num::UnitId;

/// A server unit.
#[derive(Drop)]
pub(crate) struct Unit {
    pub(crate) id: UnitId,
    /// Its side of the link.
    pub(crate) line: Line,
    /// Its logins.
    pub(crate) logins: Logins,
    /// The entry whose information unit is to be fetched.
    pub(crate) waiting: Option<Arrival>,
    /// The requests that are not answered, the oldest first.
    pub(crate) pending: VecDeque<Request>,
    /// The service of the oldest request.
    pub(crate) service: Service,
    /// Whether this turn did something.
    pub(crate) moved: bool,
}

impl Unit {
    /// A unit that took nothing yet, whose logins grant so many requests.
    pub(crate) fn new(alloc: Global, id: UnitId, grant: u8) -> Unit
        requires some { 1 ≤ grant }
        requires few { grant ≤ 200 }
        ensures id { result.id ≡ id }
        ensures stage { result.service.stage ≡ Start }
        ensures kept { result.line.kept ≡ None }
        ensures handshake { result.line.handshake ≡ Down }
        ensures waiting { result.waiting ≡ None }
        ensures pending { result.pending.items ≡ [] }
        ensures granted { result.logins.granted ≡ grant }
        ensures current { result.logins.current ≡ 0 }
        ensures last { result.logins.last ≡ 0 }
        ensures taking { result.logins.taking ≡ false }
        ensures made { IsNewUnit result }
    {
        Unit {
            id,
            line: Line::new(),
            logins: Logins::new(grant),
            waiting: None,
            pending: VecDeque::new(alloc),
            service: Service::idle(alloc),
            moved: false,
        }
    }
}
