// What a server keeps for good beside its copies: the requests that it served, and the logins that it granted and that
// ended, each in the order of time.
ghost use Rattle.std.specs.Prelude.{◌≡◌, ◌+◌, ◌<◌, ◌≤◌, [], ◌∷◌, ◌++◌, None, IfOk, OnOk, length, replicate, vec_len, vec_capacity};
ghost use Rattle.block_server.specs.Cargo.{rows_of};
ghost use Rattle.block_server.specs.Judged.{keys_of};
ghost use Rattle.block_server.specs.Owed.{row_states};
ghost use Rattle.block_server.specs.Records.{HasLineRoom, KeepsLists, IsBlankRow, AnswersRow, FillsRow};

use crate::request::Request;
use std::alloc::Global;
use vio_num::{Bytes, Grant, NoMemory, Served, UnitId};

/// The records of all units of a server.
#[derive(Drop)]
pub(crate) struct Records {
    alloc: Global,
    /// The requests whose service began.
    pub(crate) history: Vec<Served>,
    /// The logins that were granted, and those that ended.
    pub(crate) grants: Vec<Grant>,
}

impl Records {
    /// No record.
    pub(crate) fn new(alloc: Global) -> Records
        ensures history { result.history.items ≡ [] }
        ensures grants { result.grants.items ≡ [] }
    {
        Records {
            alloc,
            history: Vec::new(alloc),
            grants: Vec::new(alloc),
        }
    }

    /// Makes room for a line on a login.
    pub(crate) fn make_room(&mut self) -> Result<(), NoMemory>
        ensures grants { OnOk result (HasLineRoom self.new) }
        ensures lists { KeepsLists self.old self.new }
    {
        self.grants.reserve(1)?;
        Ok(())
    }

    /// A row for a request, without data, fault and answer, and room for it.
    pub(crate) fn new_row(
        &mut self,
        unit: UnitId,
        session: u64,
        request: &Request,
    ) -> Result<Served, NoMemory>
        ensures row { IfOk result (IsBlankRow unit session request.now) }
        ensures room { OnOk result (vec_len self.new.history < vec_capacity self.new.history) }
        ensures lists { KeepsLists self.old self.new }
    {
        self.history.reserve(1)?;
        Ok(Served {
            unit,
            session,
            login: request.login,
            number: request.number,
            iu: Bytes::from_slice(self.alloc, &request.unit)?,
            out: Bytes::new(self.alloc),
            fault: None,
            answer: Bytes::new(self.alloc),
            inn: Bytes::new(self.alloc),
        })
    }

    /// Adds a row for which there is room, and gives its place.
    pub(crate) fn add_row(&mut self, row: Served) -> usize
        requires { vec_len self.old.history < vec_capacity self.old.history }
        ensures place { result ≡ length self.old.history.items }
        ensures history { self.new.history.items ≡ self.old.history.items ++ row ∷ [] }
        ensures grants { self.new.grants ≡ self.old.grants }
    {
        let place = self.history.len();
        self.history.push_reserved(row);
        place
    }

    /// So many zeros.
    pub(crate) fn zeros(&self, len: u32) -> Result<Vec<u8>, NoMemory>
        ensures { IfOk result (λ zeros. length zeros.items ≡ len) }
    {
        Ok(vec![in self.alloc; 0; len as usize]?)
    }

    /// Room for so many bytes.
    pub(crate) fn room(&self, len: u32) -> Result<Vec<u8>, NoMemory>
        ensures none { IfOk result (λ room. room.items ≡ []) }
        ensures room { IfOk result (λ room. len ≤ vec_capacity room) }
    {
        let mut room = Vec::new(self.alloc);
        room.reserve(len as usize)?;
        Ok(room)
    }

    /// Gives a row its data-in.
    pub(crate) fn fill(&mut self, row: usize, inn: Bytes)
        ensures row { FillsRow self.old.history.items self.new.history.items row inn }
        ensures grants { self.new.grants ≡ self.old.grants }
        ensures keys { keys_of self.new.history.items ≡ keys_of self.old.history.items }
        ensures states { row_states self.new.history.items ≡ row_states self.old.history.items }
        ensures rows { FillsRow (rows_of self.old.history.items)
            (rows_of self.new.history.items) row inn }
    {
        if let Some(row) = self.history.get_mut(row) {
            row.inn = inn;
        }
    }

    /// Gives a row its answer.
    pub(crate) fn answer(&mut self, row: usize, answer: Bytes)
        ensures row { AnswersRow self.old.history.items self.new.history.items row answer }
        ensures grants { self.new.grants ≡ self.old.grants }
        ensures rows { rows_of self.new.history.items ≡ rows_of self.old.history.items }
    {
        if let Some(row) = self.history.get_mut(row) {
            row.answer = answer;
        }
    }

    /// The requests that were served, and the logins.
    pub(crate) fn into_lists(self) -> (Vec<Served>, Vec<Grant>)
        ensures history { result.0 ≡ self.history }
        ensures grants { result.1 ≡ self.grants }
    {
        let Records {
            alloc: _,
            history,
            grants,
        } = self;
        (history, grants)
    }
}

/// These bytes in an empty list that has room for them.
pub(crate) fn filled(room: Vec<u8>, bytes: &[u8]) -> Bytes
    requires none { room.items ≡ [] }
    requires room { length bytes.now ≤ vec_capacity room }
    ensures { result ≡ bytes.now }
{
    let mut list = room;
    match list.extend_from_slice(bytes) {
        Ok(()) => Bytes::from(list),
        Err(_) => unreachable!(),
    }
}
