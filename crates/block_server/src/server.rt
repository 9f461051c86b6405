// A server: its units, the disk that they serve, and what they keep for good.
ghost use Rattle.block_server.specs.Doings.{IsAtRest, UnitDoes, doing_at};
ghost use Rattle.block_server.specs.Talk.{AreNewUnits, IsNewThere, IsTurnReady, UnitOpensOn, Word, reach};
ghost use Rattle.std.specs.Prelude.{◌≡◌, ◌<◌, ◌≤◌, Bool, List, [], false, IfErr, IfOk, OnOk, Some, slice_get, vec_len};
ghost use Rattle.block_server.specs.Advances.{KeepsFreed};
ghost use Rattle.block_server.specs.Cargo.{AreIdle};
ghost use Rattle.block_server.specs.Causes.{Told, anything};
ghost use Rattle.block_server.specs.Heard.{Tells};
ghost use Rattle.block_server.specs.HeardOut.{MayHear, UnitHearsOut};
ghost use Rattle.block_server.specs.Judges.{AreUnused};
ghost use Rattle.block_server.specs.Owed.{OweNone};
ghost use Rattle.block_server.specs.Receipts.{AwaitNone};
ghost use Rattle.block_server.specs.Ready.{AreDown};
ghost use Rattle.block_server.specs.Refusals.{ExplainNone};
ghost use Rattle.block_server.specs.TurnLeaves.{CopiesGoOn, KeepsServer, PortsGoOn, RequestsGoOn, RowsGoOn, SaysMoved};
ghost use Rattle.block_server.specs.TurnReady.{TurnsReady};
ghost use Rattle.block_server.specs.TurnTold.{GoesByTold};
ghost use Rattle.block_server.specs.Turns.{told_of};
ghost use Rattle.block_server.specs.SiteState.{AreReady};
ghost use Rattle.block_server.specs.Serving.{Terms};
ghost use Rattle.block_server.specs.Units.{AreGranting, AreInOrder, AreServing, GrantEach};
ghost use Rattle.block_server.specs.declared.unit.Unit.{Unit as UnitValue};

use crate::disk::Disk;
use crate::ports::Ports;
use crate::records::Records;
use crate::turning::turn;
use crate::unit::Unit;
use crq_session::CrqEnd;
use rdma_copy::CopyRecord;
use std::alloc::Global;
use tce_window::{GuestPort, OwnerPort};
use vio_io::Blocks;
use vio_num::{Grant, Moved, NoMemory, Served, UnitId};

/// A server of virtual SCSI: the server units of a partition, which serve one image.
#[derive(Drop)]
pub struct Server<B: Blocks> {
    alloc: Global,
    partition: u8,
    disk: Disk<B>,
    units: Vec<Unit>,
    records: Records,
    copies: Vec<CopyRecord>,
    ghost serving: { ∥ AreInOrder anything disk.count partition units.items records ∥₁ },
}

/// What a server leaves.
#[derive(Drop)]
pub struct Finished<B> {
    pub image: B,
    /// The requests that were served, in the order of their disk steps.
    pub history: Vec<Served>,
    /// The logins that were granted and those that ended, in the order of time.
    pub grants: Vec<Grant>,
    /// The copies that were made, in the order of time.
    pub copies: Vec<CopyRecord>,
}

impl<B: Blocks> Server<B> {
    ghost use Rattle.block_server.specs.TurnStock.{stock_of};

    /// A server of this partition with so many units, from 0, at most 8. Its image has `count` blocks, and each
    /// login grants 1 to 200 requests. Want of memory hands the image back.
    pub fn open(
        alloc: Global,
        partition: u8,
        image: B,
        count: u64,
        grant: u8,
        units: u8,
    ) -> Result<Server<B>, B>
        requires count { count ≡ (B.state image).size }
        requires some { 1 ≤ grant }
        requires few { grant ≤ 200 }
        requires units { units ≤ 8 }
        ensures err { IfErr result (λ back. back ≡ image) }
        ensures image { IfOk result (λ server. server.disk.image ≡ image) }
        ensures units { IfOk result (λ server. vec_len server.units ≡ units) }
        ensures partition { IfOk result (λ server. server.partition ≡ partition) }
        ensures history { IfOk result (λ server. server.records.history.items ≡ []) }
        ensures order { IfOk result (λ server. (told : Told → Bool) →
            AreInOrder told server.disk.count server.partition server.units.items server.records) }
        ensures lines { IfOk result (λ server. server.records.grants.items ≡ []) }
        ensures grants { IfOk result (λ server.
            GrantEach grant server.units.items server.records.grants.items) }
        ensures copies { IfOk result (λ server. server.copies.items ≡ []) }
        ensures down { IfOk result (λ server. AreDown server.units.items) }
        ensures none { IfOk result (λ server. AwaitNone server.units.items) }
        ensures unused { IfOk result (λ server. AreUnused server.units.items) }
        ensures unanswered { IfOk result (λ server. OweNone server.units.items) }
        ensures idle { IfOk result (λ server. AreIdle server.units.items) }
        ensures unrefused { IfOk result (λ server. ExplainNone server.units.items) }
        ensures made { IfOk result (λ server. AreNewUnits server.units.items) }
    {
        let Ok(units) = make_units(alloc, partition, grant, units) else {
            return Err(image);
        };
        Ok(Server {
            alloc,
            partition,
            disk: Disk::open(alloc, image, count)?,
            units,
            records: Records::new(alloc),
            copies: Vec::new(alloc),
        })
    }

    /// One turn of a unit over its queue's end, its own window of 34 pages and its client's.
    pub fn turn<C: CrqEnd, O: OwnerPort + GuestPort, R: GuestPort>(
        &mut self,
        unit: u8,
        crq: &mut C,
        own: &mut O,
        client: &mut R,
    ) -> Result<Moved, NoMemory>
        requires unit { unit < vec_len self.old.units }
        requires alone { O.is_shared ≡ false }
        requires ready { AreReady (O.state own.old) (R.state client.old) }
        requires event { KeepsFreed (C.state crq.old) }
        requires named { (O.state own.old).place.unit ≡
            record { partition = self.old.partition; unit = unit } }
        ensures stays { KeepsServer unit (stock_of self.old) (stock_of self.new) }
        ensures ports { PortsGoOn C.is_shared R.is_shared (C.state crq.old) (C.state crq.new)
            (O.state own.old) (O.state own.new) (R.state client.old) (R.state client.new) }
        ensures copying { CopiesGoOn R.is_shared (stock_of self.old) (stock_of self.new)
            (O.state own.old) (O.state own.new) (R.state client.old) (R.state client.new) }
        ensures rows { RowsGoOn (O.state own.old).place.unit
            (stock_of self.old) (stock_of self.new) (C.state crq.old) (C.state crq.new) }
        ensures says { SaysMoved C.is_shared R.is_shared unit
            (stock_of self.old) (stock_of self.new) (C.state crq.old) (C.state crq.new)
            (O.state own.old) (O.state own.new) (R.state client.old) (R.state client.new) result }
        ensures requests { RequestsGoOn C.is_shared unit
            (stock_of self.old) (stock_of self.new) (C.state crq.old) (C.state crq.new)
            (O.state own.old) (O.state own.new) (R.state client.old) (R.state client.new) }
        ensures by_told { (told : Told → Bool) → Tells told (O.state own.old).place.unit
            R.is_shared (O.state own.new) (R.state client.old) (R.state client.new)
            self.old.copies.items self.new.copies.items → AreInOrder told
            self.old.disk.count self.old.partition self.old.units.items self.old.records →
            GoesByTold told C.is_shared R.is_shared unit
            (stock_of self.old) (stock_of self.new) (C.state crq.old) (C.state crq.new)
            (O.state own.old) (O.state own.new) (R.state client.old) (R.state client.new) result }
        ensures if_ready { (words : List Word) → (u : UnitValue) →
            slice_get self.old.units.items unit ≡ Some u →
            IsTurnReady u (reach (C.state crq.old) (R.state client.old) R.is_shared)
            C.is_shared words → TurnsReady R.is_shared unit u (O.state own.old).place.unit words
            (stock_of self.old) (stock_of self.new) (C.state crq.old) (C.state crq.new)
            (R.state client.old) (R.state client.new) result }
        ensures opens { (u : UnitValue) → slice_get self.old.units.items unit ≡ Some u →
            IsNewThere u (reach (C.state crq.old) (R.state client.old) R.is_shared)
            C.is_shared → OnOk result (UnitOpensOn self.new.units.items unit u
            (reach (C.state crq.old) (R.state client.old) R.is_shared)
            (reach (C.state crq.new) (R.state client.new) R.is_shared)
            self.old.records.grants.items self.new.records.grants.items
            self.old.records.history.items self.new.records.history.items) }
        ensures does { C.is_shared ≡ false → R.is_shared ≡ false → (u : UnitValue) → slice_get
            self.old.units.items unit ≡ Some u → IsAtRest (doing_at u (O.state
            own.old).place.unit (C.state crq.old) (R.state client.old)
            self.old.records.history.items self.old.records.grants.items) → OnOk result (UnitDoes
            self.new.units.items unit u (O.state own.old).place.unit (C.state crq.old) (C.state
            crq.new) (R.state client.old) (R.state client.new) self.old.records.history.items
            self.new.records.history.items self.old.records.grants.items
            self.new.records.grants.items) }
        ensures heard { (u : UnitValue) → slice_get self.old.units.items unit ≡ Some u →
            MayHear u (C.state crq.old) C.is_shared → OnOk result (UnitHearsOut
            self.new.units.items unit u R.is_shared (C.state crq.old) (C.state crq.new)) }
    {
        let id = UnitId {
            partition: self.partition,
            unit,
        };
        let mut ports = Ports {
            alloc: self.alloc,
            unit: id,
            queue: crq,
            own,
            client,
            copies: &mut self.copies,
        };
        let turned = &mut self.units[unit as usize];
        turned.moved = false;
        let done = turn(turned, &mut ports, &mut self.records, &mut self.disk);
        told(done, turned.moved)
    }

    /// The requests that were served, in the order of their disk steps.
    pub fn history(&self) -> &[Served]
        ensures { result.now ≡ self.now.records.history.items }
    {
        &self.records.history
    }

    /// The image, and what the server kept.
    pub fn finish(self) -> Finished<B>
        ensures image { result.image ≡ self.disk.image }
        ensures history { result.history ≡ self.records.history }
        ensures grants { result.grants ≡ self.records.grants }
        ensures copies { result.copies ≡ self.copies }
    {
        let Server {
            alloc: _,
            partition: _,
            disk,
            units: _,
            records,
            copies,
        } = self;
        let (history, grants) = records.into_lists();
        Finished {
            image: disk.into_image(),
            history,
            grants,
            copies,
        }
    }
}

// Tells whether a turn did something.
fn told(done: Result<(), NoMemory>, moved: bool) -> Result<Moved, NoMemory>
    ensures { result ≡ told_of done moved }
{
    match done {
        Ok(()) if moved => Ok(Moved::Moved),
        Ok(()) => Ok(Moved::Quiet),
        Err(memory) => Err(memory),
    }
}

// Makes the units of a partition.
fn make_units(alloc: Global, partition: u8, grant: u8, count: u8) -> Result<Vec<Unit>, NoMemory>
    requires some { 1 ≤ grant }
    requires few { grant ≤ 200 }
    ensures units { IfOk result (λ units. vec_len units ≡ count) }
    ensures grants { IfOk result (λ units. AreGranting grant units.items) }
    ensures down { IfOk result (λ units. AreDown units.items) }
    ensures serving { IfOk result (λ units. (terms : Terms) →
        (rows : List Served) → AreServing terms partition units.items rows) }
    ensures none { IfOk result (λ units. AwaitNone units.items) }
    ensures unused { IfOk result (λ units. AreUnused units.items) }
    ensures unanswered { IfOk result (λ units. OweNone units.items) }
    ensures idle { IfOk result (λ units. AreIdle units.items) }
    ensures unrefused { IfOk result (λ units. ExplainNone units.items) }
    ensures made { IfOk result (λ units. AreNewUnits units.items) }
{
    let mut units = Vec::new(alloc);
    for unit in 0..count {
        units.push(Unit::new(alloc, UnitId { partition, unit }, grant))?;
    }
    Ok(units)
}
