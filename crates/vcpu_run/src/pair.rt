// A server unit and its client unit: the link between them, and both windows.
ghost use Rattle.std.specs.Prelude.{◌≡◌, ◌≢◌, ◌*◌, ◌<◌, ℕ, Bool, [], true, None, IfOk, IfSome, OnOk, slice_get, vec_len};
ghost use Rattle.boot_text.specs.Sound.{IsFrom};
ghost use Rattle.boot_text.specs.declared.statement.TheConstants.{MOST_QUEUE};
ghost use Rattle.crq_session.specs.PlainState.{side_of, IsNewLink};
ghost use Rattle.vcpu_run.specs.Agreed.{IsLoggedOut};
ghost use Rattle.vcpu_run.specs.Answered.{IsAnswered};
ghost use Rattle.block_server.specs.Causes.{Told};
ghost use Rattle.block_server.specs.TurnStock.{stock_of};
ghost use Rattle.vcpu_run.specs.Heard.{TellsPair};
ghost use Rattle.vcpu_run.specs.Links.{IsClosed, IsLinked, ServerWaits, link_state};
ghost use Rattle.vcpu_run.specs.Machines.{FitsSeat, HasSeat, SitsAt, Stays};
ghost use Rattle.vcpu_run.specs.PairServed.{IsServedAt, LeavesClient, PairGoesBy, SparesPair};
ghost use Rattle.vcpu_run.specs.Pairs.{IsPair};
ghost use Rattle.vcpu_run.specs.ClientRuns.{ServesClients};
ghost use Rattle.vcpu_run.specs.PlainPairs.{IdlesPlainly, OpensPlainly};
ghost use Rattle.vcpu_run.specs.Received.{IsNew};
ghost use Rattle.vcpu_run.specs.Served.{ServerLasts, books_in};

use crate::driver::Driver;
use crate::session_end::SessionEnd;
use block_server::Server;
use boot_text::SERVER_PAGES;
use crq_session::{PAGE_SLOTS, PlainLink};
use std::alloc::Global;
use tce_window::PlainWindow;
use vio_io::Blocks;
use vio_num::{Moved, NoMemory, UnitId};

/// The window in place of a client's, where no client names the server unit, has one page.
const ABSENT_PAGES: u16 = 1;

/// The queue in place of that client's has one page, too.
const ABSENT_QUEUE: u8 = 1;

/// The number of that window's unit is this one and the server unit's, which no boot text has.
const ABSENT_UNIT: u8 = 128;

/// A server unit, its client, and what lies between them. The link's first side is the server's.
#[derive(Drop)]
pub(crate) struct Pair {
    pub(crate) server: UnitId,
    pub(crate) link: PlainLink,
    /// The server unit's own window.
    pub(crate) own: PlainWindow,
    /// The client unit's window.
    pub(crate) window: PlainWindow,
    /// None where no client names the server unit.
    pub(crate) driver: Option<Driver>,
}

/// A client unit as a boot text names it: its queue has this many pages.
#[derive(Clone, Copy, Debug, PartialEq, Eq)]
pub(crate) struct ClientSeat {
    pub(crate) unit: UnitId,
    pub(crate) pages: u16,
    pub(crate) queue: u8,
}

impl Pair {
    /// This server unit, whose queue has this many pages, and its client.
    pub(crate) fn open(
        alloc: Global,
        server: UnitId,
        queue: u8,
        client: Option<ClientSeat>,
    ) -> Result<Pair, NoMemory>
        requires unit { server.unit < ABSENT_UNIT }
        requires queue { IsFrom 1 MOST_QUEUE queue }
        requires client { IfSome client (FitsSeat server) }
        ensures pair { IfOk result (IsPair server.partition [] server.unit) }
        ensures slots { IfOk result (λ pair.
            (side_of pair.link true).queue.slots ≡ PAGE_SLOTS * queue) }
        ensures client { IfOk result (HasSeat client) }
        ensures out { IfOk result IsLoggedOut }
        ensures answered { IfOk result (IsAnswered []) }
        ensures closed { IfOk result IsClosed }
        ensures fresh { IfOk result IsNew }
        ensures opens { IfOk result OpensPlainly }
    {
        match client {
            Some(seat) => Pair::with_client(alloc, server, queue, seat),
            None => Pair::alone(alloc, server, queue),
        }
    }

    // A server unit and its client.
    fn with_client(
        alloc: Global,
        server: UnitId,
        queue: u8,
        seat: ClientSeat,
    ) -> Result<Pair, NoMemory>
        requires queue { IsFrom 1 MOST_QUEUE queue }
        requires seat { FitsSeat server seat }
        ensures pair { IfOk result (IsPair server.partition [] server.unit) }
        ensures slots { IfOk result (λ pair.
            (side_of pair.link true).queue.slots ≡ PAGE_SLOTS * queue) }
        ensures client { IfOk result (SitsAt seat) }
        ensures out { IfOk result IsLoggedOut }
        ensures answered { IfOk result (IsAnswered []) }
        ensures closed { IfOk result IsClosed }
        ensures fresh { IfOk result IsNew }
        ensures opens { IfOk result OpensPlainly }
    {
        Ok(Pair {
            server,
            link: open_link(alloc, queue, seat.queue)?,
            own: PlainWindow::open(alloc, server, SERVER_PAGES)?,
            window: PlainWindow::open(alloc, seat.unit, seat.pages)?,
            driver: Some(Driver::open(alloc, seat.unit, server)?),
        })
    }

    // A server unit that has no client.
    fn alone(alloc: Global, server: UnitId, queue: u8) -> Result<Pair, NoMemory>
        requires unit { server.unit < ABSENT_UNIT }
        requires queue { IsFrom 1 MOST_QUEUE queue }
        ensures pair { IfOk result (IsPair server.partition [] server.unit) }
        ensures slots { IfOk result (λ pair.
            (side_of pair.link true).queue.slots ≡ PAGE_SLOTS * queue) }
        ensures client { IfOk result (λ pair. pair.driver ≡ None) }
        ensures answered { IfOk result (IsAnswered []) }
        ensures closed { IfOk result IsClosed }
        ensures fresh { IfOk result IsNew }
        ensures opens { IfOk result OpensPlainly }
    {
        let absent = UnitId {
            partition: server.partition,
            unit: ABSENT_UNIT + server.unit,
        };
        Ok(Pair {
            server,
            link: open_link(alloc, queue, ABSENT_QUEUE)?,
            own: PlainWindow::open(alloc, server, SERVER_PAGES)?,
            window: PlainWindow::open(alloc, absent, ABSENT_PAGES)?,
            driver: None,
        })
    }

    /// A turn of the server unit, which has this number.
    pub(crate) fn serve<Di: Blocks>(
        &mut self,
        server: &mut Server<Di>,
        unit: u8,
    ) -> Result<Moved, NoMemory>
        requires unit { unit < vec_len server.old.units }
        requires pair { IsPair server.old.partition server.old.copies.items unit self.old }
        requires served { IsServedAt (stock_of server.old) unit self.old }
        ensures pair { IsPair server.old.partition server.new.copies.items unit self.new }
        ensures stays { Stays self.old self.new }
        ensures driver { self.new.driver ≡ self.old.driver }
        ensures units { vec_len server.new.units ≡ vec_len server.old.units }
        ensures lasts { ServerLasts (stock_of server.old) (stock_of server.new) }
        ensures served { IsServedAt (stock_of server.new) unit self.new }
        ensures leaves { LeavesClient server.old.copies.items server.new.copies.items
            self.old self.new }
        ensures told { (told : Told → Bool) →
            TellsPair told server.new.copies.items self.new → PairGoesBy told unit
            (stock_of server.old) (stock_of server.new) self.old self.new }
        ensures beside { (k : ℕ) → k ≢ unit →
            SparesPair (stock_of server.old) (stock_of server.new) self.old k }
        ensures linked { OnOk result (IsLinked server.old.units.items unit self.old →
            IsLinked server.new.units.items unit self.new) }
        ensures quiet { IfOk result (λ moved. moved ≡ Moved.Quiet →
            IsLinked server.old.units.items unit self.old →
            ServerWaits (slice_get server.new.units.items unit) (link_state self.new.link)) }
        ensures clients { OnOk result (ServesClients server.old.partition
            (books_in server.old) (books_in server.new) unit self.old self.new) }
        ensures idles { IfOk result (λ moved. moved ≡ Moved.Quiet →
            IdlesPlainly server.old.partition
            (books_in server.old) (books_in server.new) unit self.old) }
    {
        let mut end = SessionEnd {
            end: self.link.side(true),
        };
        server.turn(unit, &mut end, &mut self.own, &mut self.window)
    }
}

// A link between queues of 1 to 16 pages.
fn open_link(alloc: Global, server: u8, client: u8) -> Result<PlainLink, NoMemory>
    requires server { IsFrom 1 MOST_QUEUE server }
    requires client { IsFrom 1 MOST_QUEUE client }
    ensures { IfOk result (λ link. IsNewLink link (PAGE_SLOTS * server) (PAGE_SLOTS * client)) }
{
    PlainLink::open(
        alloc,
        PAGE_SLOTS * u32::from(server),
        PAGE_SLOTS * u32::from(client),
    )
}
