// The three ports of a unit's turn as one site.
ghost use Rattle.block_server.specs.Talk.{StaysKnown};
ghost use Rattle.std.specs.Prelude.{◌≡◌, ◌+◌, ◌<◌, ◌≤◌, ◌++◌, [], false, IsErrOf, OnErr, OnOk, length, vec_len, vec_capacity};
ghost use Rattle.tce_window.specs.declared.piece.TheConstants.{MOST_BYTES};
ghost use Rattle.vio_num.specs.declared.TheConstants.{PAGE_BYTES};
ghost use Rattle.tce_window.specs.declared.answers.Right.TheVariants.{Read, Write};
ghost use Rattle.tce_window.specs.PortState.{LaysNone, OnlyReads, OnlyWrites, Reads, Writes};
ghost use Rattle.tce_window.specs.Region.{region_byte};
ghost use Rattle.rdma_copy.specs.Copies.{MayHold, OnlyCopies};
ghost use Rattle.block_server.specs.Bearing.{BearsIn, IsShownAs};
ghost use Rattle.block_server.specs.Causes.{IsDenied};
ghost use Rattle.block_server.specs.Copied.{FetchesNone, IsBusy, IsMade, IsRefusal, MakesOne, copies_in, own_name};
ghost use Rattle.block_server.specs.Advances.{Advances, KeepsFreed};
ghost use Rattle.block_server.specs.Ranges.{IsRange, LaysIn, seen_in};
ghost use Rattle.block_server.specs.Ready.{FindsUse};
ghost use Rattle.block_server.specs.SiteState.{AreReady, lenders, site};

use crate::site::{Halt, Site};
use crq_session::{CrqEnd, EventAnswer, FreeAnswer, PollAnswer, RegAnswer, SendAnswer};
use page_slots::StrokeName;
use rdma_copy::{CopyAnswer, CopyRecord, copy_rdma};
use std::alloc::Global;
use tce_window::{GuestPort, OwnerPort};
use vio_num::{Entry, NoMemory, PAGE_BYTES, UnitId};

/// The places in the unit's own region: of information units, of tables, and of data.
const UNITS_AT: u64 = 0;

const TABLES_AT: u64 = PAGE_BYTES;

const DATA_AT: u64 = 2 * PAGE_BYTES;

/// The bytes of a slot of a queue.
const SLOT_BYTES: u64 = 16;
/// As many bytes as the owner reads or writes at once.
const MOST_BYTES: usize = 65_536;

/// A queue's end, the unit's own window and its client's, and the copies that the server made.
#[derive(Drop)]
pub(crate) struct Ports<'a, 'b, 'c, 'd, C: CrqEnd, O: OwnerPort + GuestPort, R: GuestPort> {
    pub(crate) alloc: Global,
    pub(crate) unit: UnitId,
    pub(crate) queue: &'a mut C,
    pub(crate) own: &'b mut O,
    pub(crate) client: &'c mut R,
    /// The copies that the server made.
    pub(crate) copies: &'d mut Vec<CopyRecord>,
    ghost alone: { O.is_shared ≡ false },
    ghost ready: { AreReady (O.state own.now) (R.state client.now) },
    ghost event: { KeepsFreed (C.state queue.now) },
    ghost named: { unit ≡ (O.state own.now).place.unit },
}

// Adds a copy, for which there is room, to those that were made, or tells why it was not made.
fn note(copies: &mut Vec<CopyRecord>, answer: CopyAnswer) -> Result<(), Halt>
    requires { vec_len copies.old < vec_capacity copies.old }
    ensures copies { copies.new.items ≡ copies.old.items ++ copies_in answer }
    ensures refused { IsErrOf result Halt.Refused → IsRefusal answer }
    ensures busy { IsErrOf result Halt.Busy → IsBusy answer }
    ensures made { OnOk result (IsMade answer) }
    ensures none { OnErr result (copies_in answer ≡ []) }
{
    match answer {
        CopyAnswer::Copied(copy) => {
            copies.push_reserved(copy);
            Ok(())
        }
        CopyAnswer::Parameter => Err(Halt::Refused),
        CopyAnswer::SourceParm(_) => Err(Halt::Refused),
        CopyAnswer::DestParm(_) => Err(Halt::Refused),
        CopyAnswer::Busy { .. } => Err(Halt::Busy),
        CopyAnswer::NoMemory => Err(Halt::NoMemory),
    }
}

impl<C: CrqEnd, O: OwnerPort + GuestPort, R: GuestPort> Ports<'_, '_, '_, '_, C, O, R> {
    // Copies from the client's window to a place of the own region.
    fn copy_in(&mut self, address: u64, at: u64, len: u64) -> Result<(), Halt>
        requires some { 1 ≤ len }
        requires few { len ≤ MOST_BYTES }
        requires inside { at + len ≤ 139264 }
        ensures refused { IsErrOf result Halt.Refused → IsDenied R.is_shared
            (R.state self.old.client.now) (R.state self.new.client.now) Read address len }
        ensures busy { IsErrOf result Halt.Busy → FindsUse R.is_shared
            (O.state self.old.own.now) (O.state self.new.own.now)
            (R.state self.old.client.now) (R.state self.new.client.now) }
        ensures queue { C.state self.new.queue.now ≡ C.state self.old.queue.now }
        ensures advances { Advances
            (site (lenders self.old.queue.ghost_name self.old.own.ghost_name self.old.client.ghost_name
            self.old.copies.ghost_name C.is_shared) (C.state self.old.queue.now)
            (O.state self.old.own.now) (R.state self.old.client.now) R.is_shared
            self.old.copies.now.items)
            (site (lenders self.new.queue.ghost_name self.new.own.ghost_name self.new.client.ghost_name
            self.new.copies.ghost_name C.is_shared) (C.state self.new.queue.now)
            (O.state self.new.own.now) (R.state self.new.client.now) R.is_shared
            self.new.copies.now.items) }
        ensures client { R.is_shared ≡ false →
            StaysKnown (R.state self.old.client.now) (R.state self.new.client.now) }
        ensures known { seen_in R.is_shared (R.state self.new.client.now) ≡
            seen_in R.is_shared (R.state self.old.client.now) }
        ensures behind { PAGE_BYTES ≤ at → FetchesNone (O.state self.old.own.now).place.unit
            self.old.copies.now.items self.new.copies.now.items }
        ensures made { OnOk result (MakesOne O.is_shared (R.state self.new.client.now)
            (O.state self.old.own.now) (O.state self.new.own.now) address at len
            (own_name (O.state self.old.own.now) 0)
            self.old.copies.now.items self.new.copies.now.items) }
        ensures none { OnErr result (self.new.copies.now.items ≡ self.old.copies.now.items) }
        ensures laid { OnErr result (LaysNone O.is_shared
            (O.state self.old.own.now) (O.state self.new.own.now)) }
    {
        let name = StrokeName {
            who: self.unit,
            mark: 0,
        };
        if self.copies.reserve(1).is_err() {
            return Err(Halt::NoMemory);
        }
        let answer = copy_rdma(self.alloc, self.client, address, self.own, at, len, name);
        note(self.copies, answer)
    }

    // Copies from a place of the own region to the client's window.
    fn copy_out(&mut self, at: u64, address: u64, len: u64, mark: u64) -> Result<(), Halt>
        requires some { 1 ≤ len }
        requires few { len ≤ MOST_BYTES }
        requires inside { at + len ≤ 139264 }
        ensures refused { IsErrOf result Halt.Refused → IsDenied R.is_shared
            (R.state self.old.client.now) (R.state self.new.client.now) Write address len }
        ensures busy { IsErrOf result Halt.Busy → FindsUse R.is_shared
            (O.state self.old.own.now) (O.state self.new.own.now)
            (R.state self.old.client.now) (R.state self.new.client.now) }
        ensures queue { C.state self.new.queue.now ≡ C.state self.old.queue.now }
        ensures advances { Advances
            (site (lenders self.old.queue.ghost_name self.old.own.ghost_name self.old.client.ghost_name
            self.old.copies.ghost_name C.is_shared) (C.state self.old.queue.now)
            (O.state self.old.own.now) (R.state self.old.client.now) R.is_shared
            self.old.copies.now.items)
            (site (lenders self.new.queue.ghost_name self.new.own.ghost_name self.new.client.ghost_name
            self.new.copies.ghost_name C.is_shared) (C.state self.new.queue.now)
            (O.state self.new.own.now) (R.state self.new.client.now) R.is_shared
            self.new.copies.now.items) }
        ensures behind { FetchesNone (O.state self.old.own.now).place.unit
            self.old.copies.now.items self.new.copies.now.items }
        ensures made { OnOk result (MakesOne R.is_shared (O.state self.new.own.now)
            (R.state self.old.client.now) (R.state self.new.client.now) at address len
            (own_name (O.state self.old.own.now) mark)
            self.old.copies.now.items self.new.copies.now.items) }
        ensures may { OnOk result (R.is_shared ≡ false →
            MayHold (R.state self.old.client.now) Write address len) }
        ensures none { OnErr result (self.new.copies.now.items ≡ self.old.copies.now.items) }
        ensures laid { LaysNone O.is_shared (O.state self.old.own.now) (O.state self.new.own.now) }
        ensures wrote { LaysIn (IsRange address len)
            (seen_in R.is_shared (R.state self.old.client.now))
            (seen_in R.is_shared (R.state self.new.client.now)) }
        ensures bears { BearsIn (IsShownAs (own_name (O.state self.old.own.now) mark) address len
            (λ k. region_byte (O.state self.old.own.now).strokes (at + k)))
            (seen_in R.is_shared (R.state self.old.client.now))
            (seen_in R.is_shared (R.state self.new.client.now)) }
        ensures missed { OnErr result (seen_in R.is_shared (R.state self.new.client.now) ≡
            seen_in R.is_shared (R.state self.old.client.now)) }
        ensures rest { OnlyCopies O.is_shared
            (O.state self.old.own.now) (O.state self.new.own.now) }
    {
        let name = StrokeName {
            who: self.unit,
            mark,
        };
        if self.copies.reserve(1).is_err() {
            return Err(Halt::NoMemory);
        }
        let answer = copy_rdma(self.alloc, self.own, at, self.client, address, len, name);
        note(self.copies, answer)
    }

    // Reads from a place of the own region.
    fn read_own(&mut self, at: u64, out: &mut [u8])
        requires some { 1 ≤ length out.old }
        requires few { length out.old ≤ MOST_BYTES }
        requires inside { at + length out.old ≤ 139264 }
        ensures queue { C.state self.new.queue.now ≡ C.state self.old.queue.now }
        ensures advances { Advances
            (site (lenders self.old.queue.ghost_name self.old.own.ghost_name self.old.client.ghost_name
            self.old.copies.ghost_name C.is_shared) (C.state self.old.queue.now)
            (O.state self.old.own.now) (R.state self.old.client.now) R.is_shared
            self.old.copies.now.items)
            (site (lenders self.new.queue.ghost_name self.new.own.ghost_name self.new.client.ghost_name
            self.new.copies.ghost_name C.is_shared) (C.state self.new.queue.now)
            (O.state self.new.own.now) (R.state self.new.client.now) R.is_shared
            self.new.copies.now.items) }
        ensures read { Reads (O.state self.new.own.now) at out.new }
        ensures own { OnlyReads O.is_shared (O.state self.old.own.now) (O.state self.new.own.now) }
        ensures client { R.state self.new.client.now ≡ R.state self.old.client.now }
        ensures copies { self.new.copies.now.items ≡ self.old.copies.now.items }
    {
        let _there = self.own.pages();
        match self.own.read(at, out) {
            Ok(()) => {}
            Err(_) => unreachable!(),
        }
    }

    // Writes to a place of the own region.
    fn write_own(&mut self, at: u64, bytes: &[u8], mark: u64) -> Result<(), NoMemory>
        ensures queue { C.state self.new.queue.now ≡ C.state self.old.queue.now }
        ensures advances { Advances
            (site (lenders self.old.queue.ghost_name self.old.own.ghost_name self.old.client.ghost_name
            self.old.copies.ghost_name C.is_shared) (C.state self.old.queue.now)
            (O.state self.old.own.now) (R.state self.old.client.now) R.is_shared
            self.old.copies.now.items)
            (site (lenders self.new.queue.ghost_name self.new.own.ghost_name self.new.client.ghost_name
            self.new.copies.ghost_name C.is_shared) (C.state self.new.queue.now)
            (O.state self.new.own.now) (R.state self.new.client.now) R.is_shared
            self.new.copies.now.items) }
        ensures own { OnlyWrites (O.state self.old.own.now) (O.state self.new.own.now) }
        ensures copies { self.new.copies.now.items ≡ self.old.copies.now.items }
        ensures client { R.state self.new.client.now ≡ R.state self.old.client.now }
        ensures wrote { OnOk result (Writes O.is_shared (O.state self.old.own.now) at bytes.now
            mark (O.state self.new.own.now)) }
        ensures laid { OnErr result (LaysNone O.is_shared
            (O.state self.old.own.now) (O.state self.new.own.now)) }
    {
        match self.own.write(at, bytes, mark) {
            Ok(()) => Ok(()),
            Err(_) => Err(NoMemory),
        }
    }
}

impl<C: CrqEnd, O: OwnerPort + GuestPort, R: GuestPort> Site for Ports<'_, '_, '_, '_, C, O, R> {
    ghost use Rattle.block_server.specs.SiteState.{lenders, site};

    ghost link_shared = { C.is_shared };

    ghost state = { λ ports. site (lenders ports.queue.ghost_name ports.own.ghost_name ports.client.ghost_name ports.copies.ghost_name C.is_shared) (C.state ports.queue.now) (O.state ports.own.now) (R.state ports.client.now) R.is_shared ports.copies.now.items };

    fn slots(&self) -> u32 {
        self.queue.slots()
    }

    fn session(&self) -> u64 {
        self.queue.session()
    }

    fn reserve(&mut self, n: u32) -> Result<(), NoMemory> {
        self.queue.reserve(n)
    }

    fn register(&mut self) -> RegAnswer {
        let length = SLOT_BYTES * u64::from(self.queue.slots());
        self.queue.register(0, length)
    }

    fn free(&mut self) -> FreeAnswer {
        self.queue.free()
    }

    fn send(&mut self, entry: Entry) -> SendAnswer {
        self.queue.send(entry)
    }

    fn poll(&mut self) -> PollAnswer {
        self.queue.poll()
    }

    fn push_event(&mut self) -> EventAnswer {
        self.queue.push_event()
    }

    fn fetch_unit(&mut self, address: u64, out: &mut [u8]) -> Result<(), Halt> {
        self.copy_in(address, UNITS_AT, out.len() as u64)?;
        self.read_own(UNITS_AT, out);
        Ok(())
    }

    fn fetch_table(&mut self, address: u64, out: &mut [u8]) -> Result<(), Halt> {
        self.copy_in(address, TABLES_AT, out.len() as u64)?;
        self.read_own(TABLES_AT, out);
        Ok(())
    }

    fn deliver_unit(&mut self, address: u64, bytes: &[u8], mark: u64) -> Result<(), Halt> {
        match self.write_own(UNITS_AT, bytes, mark) {
            Ok(()) => self.copy_out(UNITS_AT, address, bytes.len() as u64, mark),
            Err(NoMemory) => Err(Halt::NoMemory),
        }
    }

    fn fetch_data(&mut self, at: u32, address: u64, len: u32) -> Result<(), Halt> {
        self.copy_in(address, DATA_AT + u64::from(at), u64::from(len))
    }

    fn read_data(&mut self, out: &mut [u8]) {
        if out.len() > MOST_BYTES {
            let (front, rest) = out.split_at_mut(MOST_BYTES);
            self.read_own(DATA_AT, front);
            self.read_own(DATA_AT + MOST_BYTES as u64, rest);
        } else if !out.is_empty() {
            self.read_own(DATA_AT, out);
        }
    }

    fn write_data(&mut self, bytes: &[u8], mark: u64) -> Result<(), NoMemory> {
        if bytes.len() > MOST_BYTES {
            let (front, rest) = bytes.split_at(MOST_BYTES);
            self.write_own(DATA_AT, front, mark)?;
            self.write_own(DATA_AT + MOST_BYTES as u64, rest, mark)
        } else if bytes.is_empty() {
            Ok(())
        } else {
            self.write_own(DATA_AT, bytes, mark)
        }
    }

    fn deliver_data(&mut self, at: u32, address: u64, len: u32, mark: u64) -> Result<(), Halt> {
        self.copy_out(DATA_AT + u64::from(at), address, u64::from(len), mark)
    }
}
