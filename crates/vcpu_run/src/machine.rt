// The machine: its making, its rounds, and how it settles.
ghost use Rattle.std.specs.Prelude.{◌≡◌, ℕ, [], All, IfErr, IfOk, IfSome, IsSome, List, OnOk, vec_len};
ghost use Rattle.boot_text.specs.Sound.{AreSound, IsSound};
ghost use Rattle.boot_text.specs.declared.plan.Partition.{Partition};
ghost use Rattle.block_server.specs.Units.{GrantEach};
ghost use Rattle.block_server.specs.DiskLaw.{KeepsDisk};
ghost use Rattle.block_server.specs.declared.unit.Unit.{Unit};
ghost use Rattle.vcpu_run.specs.Agreed.{AreCredited};
ghost use Rattle.vcpu_run.specs.CopiesCounted.{copies_at};
ghost use Rattle.vcpu_run.specs.Caused.{IsShownAll, KeepsCaused, LeadsCaused, RowsAreInForm};
ghost use Rattle.vcpu_run.specs.Answered.{AreAnswered};
ghost use Rattle.vcpu_run.specs.Grants.{TellsGrants};
ghost use Rattle.vcpu_run.specs.Lines.{IsOver};
ghost use Rattle.vcpu_run.specs.Machines.{AreScripts, IsMachine, IsOfPlan};
ghost use Rattle.vcpu_run.specs.OnDisk.{IsServed, LastsInRows, LeadsOn};
ghost use Rattle.vcpu_run.specs.Pairs.{AreOfOneHome};
ghost use Rattle.vcpu_run.specs.ClientRuns.{AreClients, ClientsTell};
ghost use Rattle.vcpu_run.specs.PlainPairs.{books_of};
ghost use Rattle.vcpu_run.specs.Ports.{ports_of};
ghost use Rattle.vcpu_run.specs.PortSteps.{AreFresh};
ghost use Rattle.vcpu_run.specs.PortsRest.{PortsEnd};
ghost use Rattle.vcpu_run.specs.Received.{AreAtRest};
ghost use Rattle.vcpu_run.specs.Rounds.{IsUnderWay, parts_at};
ghost use Rattle.vcpu_run.specs.Served.{books_in};
ghost use Rattle.vcpu_run.specs.RunLaw.{KeepsLaw, KeepsLawOf};
ghost use Rattle.vcpu_run.specs.ScriptTold.{AreTold};

use crate::gather::gather;
use crate::making::{home_of, make_pairs, make_scripts, ports_of};
use crate::pair::Pair;
use crate::rounds::run;
use crate::script::Script;
use block_server::{Finished, Server};
use boot_text::{Partition, Plan};
use lan_script::Lan;
use rdma_copy::CopyRecord;
use std::alloc::Global;
use vio_io::Blocks;
use vio_num::{Grant, NoMemory, Served};
use vio_trace::Trace;

/// A machine: the server units with their image, the partitions, and the LAN.
#[derive(Drop)]
pub struct Machine<'p, Di: Blocks> {
    alloc: Global,
    server: Server<Di>,
    /// The server units, each with its client.
    pairs: Vec<Pair>,
    /// The partitions, in order.
    scripts: Vec<Script<'p>>,
    /// The LAN units of all partitions.
    lan: Lan,
}

/// What a machine leaves once nothing moves any more: the image, and the trace where memory sufficed.
#[derive(Drop)]
pub struct Settled<Di> {
    pub image: Di,
    pub trace: Option<Trace>,
}

impl<'p, Di: Blocks> Machine<'p, Di> {
    /// Makes all that a plan asks for, over an image of `count` blocks. Want of memory hands the image back.
    pub fn boot(alloc: Global, plan: &'p Plan, image: Di, count: u64) -> Result<Machine<'p, Di>, Di>
        requires sound { IsSound plan.now }
        requires count { count ≡ (Di.state image).size }
        ensures err { IfErr result (λ back. back ≡ image) }
        ensures image { IfOk result (λ machine. machine.server.disk.image ≡ image) }
        ensures machine { IfOk result (λ machine.
            IsMachine machine.server.partition (vec_len machine.server.units)
            machine.server.copies.items machine.pairs.items machine.scripts.items
            machine.lan.seats) }
        ensures of_plan { IfOk result (λ machine. IsOfPlan plan.now.partitions
            machine.pairs.items machine.scripts.items machine.lan.seats) }
        ensures ready { IfOk result (λ machine. IsUnderWay (parts_at machine.server
            machine.pairs.items machine.scripts.items machine.lan)) }
        ensures grants { IfOk result (λ machine. GrantEach plan.now.grant
            machine.server.units.items machine.server.records.grants.items) }
        ensures none { IfOk result (λ machine. machine.server.records.history.items ≡ []) }
        ensures clients { IfOk result (λ machine.
            AreClients plan.now.grant machine.server.partition (books_in machine.server)
            machine.pairs.items machine.scripts.items) }
    {
        let partitions = plan.partitions.as_slice();
        let home = home_of(partitions);
        let Ok(pairs) = make_pairs(alloc, partitions, home) else {
            return Err(image);
        };
        let Ok(scripts) = make_scripts(alloc, partitions) else {
            return Err(image);
        };
        let Ok(lan) = open_lan(alloc, partitions) else {
            return Err(image);
        };
        let server = Server::open(
            alloc,
            home as u8,
            image,
            count,
            plan.grant,
            pairs.len() as u8,
        )?;
        Ok(Machine {
            alloc,
            server,
            pairs,
            scripts,
            lan,
        })
    }

    /// Runs rounds until nothing moves any more, and gathers what was done. Over the machine of a plan the trace
    /// keeps the law of its runs.
    pub fn settle(self) -> Settled<Di>
        requires machine { IsMachine self.server.partition (vec_len self.server.units)
            self.server.copies.items self.pairs.items self.scripts.items self.lan.seats }
        requires ready { IsUnderWay (parts_at self.server self.pairs.items
            self.scripts.items self.lan) }
        ensures law { IfSome result.trace (λ trace. (partitions : List Partition) →
            IsOfPlan partitions self.entry.pairs.items self.entry.scripts.items
            self.entry.lan.seats → KeepsLawOf partitions trace) }
        ensures grants { TellsGrants self.entry.server.units.items
            self.entry.server.records.grants.items result.trace }
        ensures clients { IfSome result.trace (λ trace. (partitions : List Partition) →
            IsOfPlan partitions self.entry.pairs.items self.entry.scripts.items
            self.entry.lan.seats → (granted : ℕ) → AreClients granted self.entry.server.partition
            (books_in self.entry.server) self.entry.pairs.items self.entry.scripts.items →
            ClientsTell granted partitions trace) }
        ensures caused { IfSome result.trace (λ trace. (partitions : List Partition) →
            IsOfPlan partitions self.entry.pairs.items self.entry.scripts.items
            self.entry.lan.seats → KeepsCaused partitions trace
            self.entry.server.records.history.items
            (Di.state self.entry.server.disk.image).blocks (Di.state result.image).blocks) }
        ensures formed { IfSome result.trace (λ trace. (partitions : List Partition) →
            IsOfPlan partitions self.entry.pairs.items self.entry.scripts.items
            self.entry.lan.seats → RowsAreInForm partitions trace
            self.entry.server.disk.count) }
        ensures disk { IfSome result.trace (λ trace. ∥ KeepsDisk
            self.entry.server.records.history.items trace.serves
            (Di.state self.entry.server.disk.image).blocks (Di.state result.image).blocks ∥₁) }
        ensures tells { IfSome (Di.state self.entry.server.disk.image).blocks
            (λ _. IsSome (Di.state result.image).blocks) }
        ensures lasts { LastsInRows self.entry.server.records.history.items
            (Di.state self.entry.server.disk.image).blocks (Di.state result.image).blocks }
    {
        let Machine {
            alloc,
            mut server,
            mut pairs,
            mut scripts,
            mut lan,
        } = self;
        let run = run(&mut server, &mut pairs, &mut scripts, &mut lan);
        let Finished {
            image,
            history,
            grants,
            copies,
        } = server.finish();
        let trace = trace_of(run, alloc, pairs, scripts, lan, history, grants, copies);
        Settled { image, trace }
    }
}

/// Runs a plan over an image of `count` blocks until nothing moves any more. Its trace keeps the law of the
/// plan's runs, and its rows lead from the image's blocks to those that the image then has, each with a cause
/// that the trace shows; each that is answered is in form, on a disk of `count` blocks. Where memory runs out, the
/// image has the blocks to which the commands lead that were served till then.
pub fn settle_plan<Di: Blocks + Drop>(
    alloc: Global,
    plan: &Plan,
    image: Di,
    count: u64,
) -> Settled<Di>
    requires sound { IsSound plan.now }
    requires count { count ≡ (Di.state image).size }
    ensures law { IfSome result.trace (KeepsLaw plan.now) }
    ensures caused { IfSome result.trace (λ trace. LeadsCaused plan.now.partitions trace
        (Di.state image).blocks (Di.state result.image).blocks) }
    ensures formed { IfSome result.trace (λ trace. RowsAreInForm plan.now.partitions trace
        (Di.state image).size) }
    ensures disk { IfSome result.trace (λ trace. LeadsOn trace.serves
        (Di.state image).blocks (Di.state result.image).blocks) }
    ensures tells { IfSome (Di.state image).blocks (λ _. IsSome (Di.state result.image).blocks) }
    ensures served { IsServed (Di.state image).blocks (Di.state result.image).blocks }
{
    match Machine::boot(alloc, plan, image, count) {
        Ok(machine) => machine.settle(),
        Err(image) => Settled { image, trace: None },
    }
}

// The trace of a run, where memory sufficed for it.
fn trace_of(
    run: Result<(), NoMemory>,
    alloc: Global,
    pairs: Vec<Pair>,
    scripts: Vec<Script<'_>>,
    lan: Lan,
    history: Vec<Served>,
    grants: Vec<Grant>,
    copies: Vec<CopyRecord>,
) -> Option<Trace>
    requires pairs { AreOfOneHome copies.items pairs.items }
    requires scripts { AreScripts pairs.items lan.seats scripts.items }
    requires credited { OnOk run (AreCredited (copies_at copies.items pairs.items)
        pairs.items scripts.items) }
    requires said { OnOk run (AreTold pairs.items scripts.items) }
    requires told { OnOk run (PortsEnd lan scripts.items) }
    requires over { OnOk run (All IsOver scripts.items) }
    requires answered { AreAnswered history.items pairs.items }
    requires rests { OnOk run (AreAtRest copies.items grants.items history.items
        pairs.items scripts.items) }
    ensures serves { IfSome result (λ trace. trace.serves ≡ history.items) }
    ensures grants { IfSome result (λ trace. trace.grants ≡ grants.items) }
    ensures shown { IfSome result (λ trace. (partitions : List Partition) →
        IsOfPlan partitions pairs.items scripts.entry.items lan.seats →
        IsShownAll partitions trace copies.items pairs.items) }
    ensures law { IfSome result (λ trace. (partitions : List Partition) →
        IsOfPlan partitions pairs.items scripts.entry.items lan.seats → KeepsLawOf partitions trace) }
    ensures clients { IfSome result (λ trace. (partitions : List Partition) →
        IsOfPlan partitions pairs.items scripts.entry.items lan.seats →
        (granted home : ℕ) (units : List Unit) → OnOk run (AreClients granted home
        (books_of units grants.items history.items) pairs.items scripts.entry.items) →
        ClientsTell granted partitions trace) }
{
    match run {
        Ok(()) => gather(alloc, pairs, scripts, lan, history, grants, copies).ok(),
        Err(NoMemory) => None,
    }
}

// Opens the LAN ports of a plan.
fn open_lan(alloc: Global, partitions: &[Partition]) -> Result<Lan, NoMemory>
    requires sound { AreSound partitions.now }
    ensures seats { IfOk result (λ lan. lan.seats ≡ ports_of partitions.now) }
    ensures fresh { IfOk result AreFresh }
{
    let ports = ports_of(alloc, partitions)?;
    Lan::open(alloc, &ports)
}
