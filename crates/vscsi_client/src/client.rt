// The client: what it keeps, its making, and what it tells of itself.
ghost use Rattle.std.specs.Prelude.{◌≡◌, IfOk};
ghost use Rattle.vscsi_client.specs.State.{tags_of, new_client, IsWithinGrant};
ghost use Rattle.vscsi_client.specs.Taking.{forgets};
ghost use Rattle.vscsi_client.specs.Turned.{unlinked};

use crate::outgoing::Outgoing;
use crate::row::Row;
use crate::stage::{Due, Stage};
use crate::table::Table;
use arrayvec::ArrayVec;
use crq_session::Handshake;
use srp_credits::Initiator;
use std::alloc::Global;
use std::collections::VecDeque;
use std::marker::Model;
use vio_num::{Entry, NoMemory, UnitId};

/// The tags for which room is made at the start.
const FIRST_ROWS: usize = 64;

/// A client of a virtual SCSI server: the driver of one unit. Contracts see what it keeps as one record.
#[derive(Debug, Drop)]
pub struct Client {
    pub(crate) alloc: Global,
    pub(crate) id: UnitId,
    pub(crate) server: UnitId,
    pub(crate) handshake: Handshake,
    pub(crate) credits: Initiator,
    pub(crate) outgoing: ArrayVec<Outgoing, 200>,
    pub(crate) login: Stage,
    pub(crate) logout: Option<u64>,
    pub(crate) tabled: Option<Table>,
    pub(crate) due: Vec<Due>,
    pub(crate) kept: VecDeque<Entry>,
    pub(crate) held: Option<Entry>,
    pub(crate) rows: Vec<Row>,
}

impl Model for Client {
    ghost use Rattle.vscsi_client.specs.State.{ClientState, granted_of, IsWhole};

    ghost Value = { ClientState };

    ghost view = { λ c. record {
      id = c.id;
      server = c.server;
      handshake = c.handshake;
      granted = granted_of c.credits;
      outgoing = c.outgoing.items;
      login = c.login;
      logout = c.logout;
      tabled = c.tabled;
      due = c.due.items;
      kept = c.kept.items;
      held = c.held;
      rows = c.rows.items;
    } };

    ghost invariant = { λ c. IsWhole c.credits c.outgoing.items c.rows.items c.login c.logout };
}

impl Client {
    /// A client of this unit and this server, which is not logged in and has sent nothing.
    pub fn open(alloc: Global, unit: UnitId, server: UnitId) -> Result<Client, NoMemory>
        ensures { IfOk result (λ client. client ≡ new_client unit server) }
    {
        Ok(Client {
            alloc,
            id: unit,
            server,
            handshake: Handshake::Down,
            credits: Initiator::new(),
            outgoing: ArrayVec::new(),
            login: Stage::Idle,
            logout: None,
            tabled: None,
            due: Vec::new(alloc),
            kept: VecDeque::new(alloc),
            held: None,
            rows: Vec::with_capacity(alloc, FIRST_ROWS)?,
        })
    }

    /// The tags of the commands and tasks that are outstanding, the oldest first: never more than are granted.
    pub fn outstanding(&self) -> &[u64]
        ensures tags { result.now ≡ tags_of self.now.outgoing }
        ensures within { IsWithinGrant self.now }
    {
        self.credits.outstanding()
    }

    /// The own queue was freed, or failed: the handshake begins anew, and nothing is due. What is outstanding, and
    /// the answers that a login kept, stay until the next turn of a login.
    pub fn freed(&mut self)
        ensures { self.new ≡ unlinked self.old }
    {
        self.handshake.freed();
        self.due.clear();
    }

    /// Forgets a login, the requests that are outstanding, and their answers.
    pub(crate) fn forget(&mut self)
        ensures { self.new ≡ forgets self.old }
    {
        self.credits.lost();
        self.outgoing.clear();
        self.login = Stage::Idle;
        self.logout = None;
        self.kept.clear();
        self.held = None;
    }
}
