// The turns of a round: one of each partition, in their order.
ghost use Rattle.std.specs.Prelude.{◌≡◌, ◌≢◌, ◌+◌, ◌<◌, ℕ, All, IfOk, IsSomeAnd, IsTrue, List, OnOk, false};
ghost use Rattle.std.specs.Prelude.{length, slice_get, vec_len};
ghost use Rattle.std.specs.List.{list_all};
ghost use Rattle.lan_script.specs.declared.seat.PortSeat.{PortSeat};
ghost use Rattle.vcpu_run.specs.declared.pair.Pair.{Pair};
ghost use Rattle.vio_trace.specs.declared.window_rows.CopyRow.{CopyRow};
ghost use Rattle.vcpu_run.specs.CopiesCounted.{AllMadeBy};
ghost use Rattle.vcpu_run.specs.Agreed.{AreCredited};
ghost use Rattle.vcpu_run.specs.Lines.{IsOver, is_over};
ghost use Rattle.vcpu_run.specs.Links.{AreIdle, AreLinked};
ghost use Rattle.vcpu_run.specs.Links.{ServerWaits, ServersWait, links_of};
ghost use Rattle.vcpu_run.specs.Holding.{KeepQueues};
ghost use Rattle.vcpu_run.specs.ScriptTold.{AreTold};
ghost use Rattle.vcpu_run.specs.Scripts.{are_servers};
ghost use Rattle.vcpu_run.specs.Machines.{AllRun, AreScripts, IsMachine, IsServing};
ghost use Rattle.vcpu_run.specs.Pairs.{AreDrivers};
ghost use Rattle.vcpu_run.specs.ClientRuns.{AreClients, AreClientsTo, NoClientAwaits, NoClientAwaitsAt, ServesClientsAt};
ghost use Rattle.vcpu_run.specs.PlainPairs.{IdlesPlainlyAt, ServerBooks};
ghost use Rattle.vcpu_run.specs.PortWords.{PortsTell};
ghost use Rattle.vcpu_run.specs.PortsRest.{AreTakenTo};
ghost use Rattle.block_server.specs.TurnStock.{stock_of};
ghost use Rattle.vcpu_run.specs.Served.{AllServed, ServesOn, SparesClients, StaysAside, books_in};
ghost use Rattle.vcpu_run.specs.Rounds.{KeepsPairs, KeepsParts, KeepsScripts, PartsStay, QuietRound, QuietScript, QuietTurn, RestsWhereOver, parts_at};

use crate::pair::Pair;
use crate::script::Script;
use crate::seats::either;
use block_server::Server;
use lan_script::Lan;
use vio_io::Blocks;
use vio_num::{Moved, NoMemory};

/// Runs rounds until nothing moves and no line is left: a round in which nothing moved ends the run only where each
/// script is over.
pub(crate) fn run<Di: Blocks>(
    server: &mut Server<Di>,
    pairs: &mut [Pair],
    scripts: &mut [Script<'_>],
    lan: &mut Lan,
) -> Result<(), NoMemory>
    requires machine { IsMachine server.old.partition (vec_len server.old.units)
        server.old.copies.items pairs.old scripts.old lan.old.seats }
    requires served { AllServed (stock_of server.old) pairs.old }
    ensures machine { IsMachine server.new.partition (vec_len server.new.units)
        server.new.copies.items pairs.new scripts.new lan.new.seats }
    ensures served { AllServed (stock_of server.new) pairs.new }
    ensures goes { ServesOn (stock_of server.old) (stock_of server.new) pairs.old pairs.new }
    ensures stays { PartsStay pairs.old pairs.new scripts.old scripts.new lan.old lan.new }
    ensures keeps { OnOk result (KeepsParts (parts_at server.old pairs.old scripts.old lan.old)
        (parts_at server.new pairs.new scripts.new lan.new)) }
    ensures unfreed { OnOk result (AreLinked server.old.units.items pairs.old →
        KeepQueues pairs.old scripts.old → KeepQueues pairs.new scripts.new) }
    ensures over { OnOk result (All IsOver scripts.new) }
    ensures idle { OnOk result (AreLinked server.old.units.items pairs.old →
        AreIdle server.new.units.items pairs.new scripts.new) }
    ensures ports { OnOk result (AreTakenTo (length scripts.new) lan.new scripts.new) }
    ensures clients { OnOk result (AreLinked server.old.units.items pairs.old → (granted : ℕ) →
        AreClients granted server.old.partition (books_in server.old) pairs.old scripts.old →
        AreClients granted server.new.partition (books_in server.new) pairs.new scripts.new) }
{
    for _round in 0..u64::MAX {
        let moved = step(server, pairs, scripts, lan)?;
        if is_end(moved, scripts) {
            return Ok(());
        }
    }
    Err(NoMemory)
}

// Whether the run ends behind a round that moved so: nothing moved, and each script is over.
fn is_end(moved: Moved, scripts: &[Script<'_>]) -> bool
    ensures quiet { IsTrue result → moved ≡ Moved.Quiet }
    ensures over { IsTrue result → All IsOver scripts.now }
{
    match moved {
        Moved::Moved => false,
        Moved::Quiet => are_over(scripts),
    }
}

// Whether each script is over.
fn are_over(scripts: &[Script<'_>]) -> bool
    ensures { result ≡ list_all is_over scripts.now }
{
    scripts.iter().all(|script| script.is_over())
}

// Makes one round, and ends the lines that wait where nothing moved.
fn step<Di: Blocks>(
    server: &mut Server<Di>,
    pairs: &mut [Pair],
    scripts: &mut [Script<'_>],
    lan: &mut Lan,
) -> Result<Moved, NoMemory>
    requires machine { IsMachine server.old.partition (vec_len server.old.units)
        server.old.copies.items pairs.old scripts.old lan.old.seats }
    requires served { AllServed (stock_of server.old) pairs.old }
    ensures machine { IsMachine server.new.partition (vec_len server.new.units)
        server.new.copies.items pairs.new scripts.new lan.new.seats }
    ensures served { AllServed (stock_of server.new) pairs.new }
    ensures goes { ServesOn (stock_of server.old) (stock_of server.new) pairs.old pairs.new }
    ensures stays { PartsStay pairs.old pairs.new scripts.old scripts.new lan.old lan.new }
    ensures keeps { OnOk result (KeepsParts (parts_at server.old pairs.old scripts.old lan.old)
        (parts_at server.new pairs.new scripts.new lan.new)) }
    ensures unfreed { OnOk result (AreLinked server.old.units.items pairs.old →
        KeepQueues pairs.old scripts.old → KeepQueues pairs.new scripts.new) }
    ensures rests { IfOk result (λ moved. moved ≡ Moved.Quiet →
        RestsWhereOver (parts_at server.old pairs.old scripts.old lan.old)
        (parts_at server.new pairs.new scripts.new lan.new)) }
    ensures clients { OnOk result (AreLinked server.old.units.items pairs.old → (granted : ℕ) →
        AreClients granted server.old.partition (books_in server.old) pairs.old scripts.old →
        AreClients granted server.new.partition (books_in server.new) pairs.new scripts.new) }
{
    match round(server, pairs, scripts, lan)? {
        Moved::Moved => Ok(Moved::Moved),
        Moved::Quiet => end_lines(scripts),
    }
}

// One turn of each partition, in their order.
fn round<Di: Blocks>(
    server: &mut Server<Di>,
    pairs: &mut [Pair],
    scripts: &mut [Script<'_>],
    lan: &mut Lan,
) -> Result<Moved, NoMemory>
    requires machine { IsMachine server.old.partition (vec_len server.old.units)
        server.old.copies.items pairs.old scripts.old lan.old.seats }
    requires served { AllServed (stock_of server.old) pairs.old }
    ensures machine { IsMachine server.new.partition (vec_len server.new.units)
        server.new.copies.items pairs.new scripts.new lan.new.seats }
    ensures served { AllServed (stock_of server.new) pairs.new }
    ensures goes { ServesOn (stock_of server.old) (stock_of server.new) pairs.old pairs.new }
    ensures stays { PartsStay pairs.old pairs.new scripts.old scripts.new lan.old lan.new }
    ensures keeps { OnOk result (KeepsParts (parts_at server.old pairs.old scripts.old lan.old)
        (parts_at server.new pairs.new scripts.new lan.new)) }
    ensures unfreed { OnOk result (KeepQueues pairs.old scripts.old →
        KeepQueues pairs.new scripts.new) }
    ensures clients { OnOk result ((granted : ℕ) →
        AreClients granted server.old.partition (books_in server.old) pairs.old scripts.old →
        AreClients granted server.new.partition (books_in server.new) pairs.new scripts.new) }
    ensures quiet { IfOk result (λ moved. moved ≡ Moved.Quiet →
        QuietRound (parts_at server.old pairs.old scripts.old lan.old)
        (parts_at server.new pairs.new scripts.new lan.new)) }
{
    let mut moved = Moved::Quiet;
    for number in 0..scripts.len() {
        let turned = turn_at(server, pairs, scripts, lan, number)?;
        moved = either(moved, turned);
    }
    Ok(moved)
}

// One turn of the partition with this number: its server units have one each.
fn turn_at<Di: Blocks>(
    server: &mut Server<Di>,
    pairs: &mut [Pair],
    scripts: &mut [Script<'_>],
    lan: &mut Lan,
    number: usize,
) -> Result<Moved, NoMemory>
    requires there { number < length scripts.old }
    requires machine { IsMachine server.old.partition (vec_len server.old.units)
        server.old.copies.items pairs.old scripts.old lan.old.seats }
    requires served { AllServed (stock_of server.old) pairs.old }
    ensures machine { IsMachine server.new.partition (vec_len server.new.units)
        server.new.copies.items pairs.new scripts.new lan.new.seats }
    ensures served { AllServed (stock_of server.new) pairs.new }
    ensures goes { ServesOn (stock_of server.old) (stock_of server.new) pairs.old pairs.new }
    ensures stays { PartsStay pairs.old pairs.new scripts.old scripts.new lan.old lan.new }
    ensures keeps { OnOk result (KeepsParts (parts_at server.old pairs.old scripts.old lan.old)
        (parts_at server.new pairs.new scripts.new lan.new)) }
    ensures unfreed { OnOk result (KeepQueues pairs.old scripts.old →
        KeepQueues pairs.new scripts.new) }
    ensures elsewhere { (i : ℕ) → i ≢ number →
        slice_get scripts.new i ≡ slice_get scripts.old i }
    ensures clients { OnOk result ((granted : ℕ) → AreClientsTo granted server.old.partition number
        (books_in server.old) pairs.old scripts.old →
        AreClientsTo granted server.new.partition (number + 1)
        (books_in server.new) pairs.new scripts.new) }
    ensures quiet { IfOk result (λ moved. moved ≡ Moved.Quiet →
        QuietTurn number (parts_at server.old pairs.old scripts.old lan.old)
        (parts_at server.new pairs.new scripts.new lan.new)) }
{
    if scripts[number].is_of_servers() {
        serve(server, pairs)
    } else {
        run_script(scripts, pairs, lan, number)
    }
}

// One turn of each server unit.
fn serve<Di: Blocks>(server: &mut Server<Di>, pairs: &mut [Pair]) -> Result<Moved, NoMemory>
    requires serving { IsServing server.old.partition (vec_len server.old.units)
        server.old.copies.items pairs.old }
    requires served { AllServed (stock_of server.old) pairs.old }
    ensures serving { IsServing server.new.partition (vec_len server.new.units)
        server.new.copies.items pairs.new }
    ensures served { AllServed (stock_of server.new) pairs.new }
    ensures goes { ServesOn (stock_of server.old) (stock_of server.new) pairs.old pairs.new }
    ensures spares { SparesClients server.old.copies.items server.new.copies.items
        pairs.old pairs.new }
    ensures linked { OnOk result (AreLinked server.old.units.items pairs.old →
        AreLinked server.new.units.items pairs.new) }
    ensures wait { IfOk result (λ moved. moved ≡ Moved.Quiet →
        AreLinked server.old.units.items pairs.old →
        ServersWait server.new.units.items (links_of pairs.new)) }
    ensures clients { OnOk result ((k : ℕ) → ServesClientsAt server.old.partition
        (books_in server.old) (books_in server.new) pairs.old pairs.new k) }
    ensures idles { IfOk result (λ moved. moved ≡ Moved.Quiet → (k : ℕ) →
        IdlesPlainlyAt server.old.partition
        (books_in server.old) (books_in server.new) pairs.old k) }
{
    let mut moved = Moved::Quiet;
    for unit in 0..pairs.len() {
        let turned = serve_at(server, pairs, unit)?;
        moved = either(moved, turned);
    }
    Ok(moved)
}

// One turn of this server unit.
fn serve_at<Di: Blocks>(
    server: &mut Server<Di>,
    pairs: &mut [Pair],
    unit: usize,
) -> Result<Moved, NoMemory>
    requires there { unit < length pairs.old }
    requires serving { IsServing server.old.partition (vec_len server.old.units)
        server.old.copies.items pairs.old }
    requires served { AllServed (stock_of server.old) pairs.old }
    ensures serving { IsServing server.new.partition (vec_len server.new.units)
        server.new.copies.items pairs.new }
    ensures served { AllServed (stock_of server.new) pairs.new }
    ensures goes { ServesOn (stock_of server.old) (stock_of server.new) pairs.old pairs.new }
    ensures spares { SparesClients server.old.copies.items server.new.copies.items
        pairs.old pairs.new }
    ensures linked { OnOk result (AreLinked server.old.units.items pairs.old →
        AreLinked server.new.units.items pairs.new) }
    ensures waits { IfOk result (λ moved. moved ≡ Moved.Quiet →
        AreLinked server.old.units.items pairs.old →
        IsSomeAnd (slice_get (links_of pairs.new) unit)
        (ServerWaits (slice_get server.new.units.items unit))) }
    ensures aside { (k : ℕ) → k ≢ unit →
        StaysAside (stock_of server.old) (stock_of server.new) pairs.old pairs.new k }
    ensures clients { OnOk result (ServesClientsAt server.old.partition
        (books_in server.old) (books_in server.new) pairs.old pairs.new unit) }
    ensures idles { IfOk result (λ moved. moved ≡ Moved.Quiet →
        IdlesPlainlyAt server.old.partition
        (books_in server.old) (books_in server.new) pairs.old unit) }
{
    pairs[unit].serve(server, unit as u8)
}

// One turn of the script of the partition with this number.
fn run_script(
    scripts: &mut [Script<'_>],
    pairs: &mut [Pair],
    lan: &mut Lan,
    number: usize,
) -> Result<Moved, NoMemory>
    requires there { number < length scripts.old }
    requires drivers { AreDrivers pairs.old }
    requires scripts { AreScripts pairs.old lan.old.seats scripts.old }
    ensures drivers { AreDrivers pairs.new }
    ensures scripts { AreScripts pairs.new lan.new.seats scripts.new }
    ensures pairs { KeepsPairs pairs.old pairs.new }
    ensures stays { PartsStay pairs.old pairs.new scripts.old scripts.new lan.old lan.new }
    ensures credited { OnOk result ((copies : ℕ → List CopyRow) → AllMadeBy copies pairs.new →
        AreCredited copies pairs.old scripts.old →
        AreCredited copies pairs.new scripts.new) }
    ensures said { OnOk result (AreTold pairs.old scripts.old →
        AreTold pairs.new scripts.new) }
    ensures told { OnOk result (PortsTell lan.old scripts.old →
        PortsTell lan.new scripts.new) }
    ensures unfreed { OnOk result (KeepQueues pairs.old scripts.old →
        KeepQueues pairs.new scripts.new) }
    ensures elsewhere { (i : ℕ) → i ≢ number →
        slice_get scripts.new i ≡ slice_get scripts.old i }
    ensures clients { OnOk result ((granted home : ℕ) (books : ServerBooks) →
        IsSomeAnd (slice_get scripts.old number) (λ script. are_servers script.seats.items ≡ false) →
        AreClientsTo granted home number books pairs.old scripts.old →
        AreClientsTo granted home (number + 1) books pairs.new scripts.new) }
    ensures quiet { IfOk result (λ moved. moved ≡ Moved.Quiet →
        QuietScript number pairs.old pairs.new scripts.old scripts.new lan.old lan.new) }
{
    scripts[number].turn(pairs, lan)
}

// Ends the lines that wait.
fn end_lines(scripts: &mut [Script<'_>]) -> Result<Moved, NoMemory>
    ensures scripts { (pairs : List Pair) (ports : List PortSeat) →
        AreScripts pairs ports scripts.old → AreScripts pairs ports scripts.new }
    ensures run { AllRun scripts.old scripts.new }
    ensures keeps { OnOk result ((pairs : List Pair) (ports : List PortSeat) →
        AreScripts pairs ports scripts.old →
        KeepsScripts (λ i. i < length scripts.old) pairs scripts.old scripts.new) }
    ensures quiet { IfOk result (λ moved. moved ≡ Moved.Quiet → scripts.new ≡ scripts.old) }
    ensures clients { OnOk result ((granted home : ℕ) (books : ServerBooks) (pairs : List Pair)
        (ports : List PortSeat) → AreScripts pairs ports scripts.old → NoClientAwaits scripts.old →
        AreClients granted home books pairs scripts.old →
        AreClients granted home books pairs scripts.new) }
{
    let mut moved = Moved::Quiet;
    for number in 0..scripts.len() {
        let turned = end_line_at(scripts, number)?;
        moved = either(moved, turned);
    }
    Ok(moved)
}

// Ends the line of the partition with this place, if it waits.
fn end_line_at(scripts: &mut [Script<'_>], number: usize) -> Result<Moved, NoMemory>
    requires { number < length scripts.old }
    ensures scripts { (pairs : List Pair) (ports : List PortSeat) →
        AreScripts pairs ports scripts.old → AreScripts pairs ports scripts.new }
    ensures run { AllRun scripts.old scripts.new }
    ensures keeps { OnOk result ((pairs : List Pair) (ports : List PortSeat) →
        AreScripts pairs ports scripts.old →
        KeepsScripts (λ i. i ≡ number) pairs scripts.old scripts.new) }
    ensures quiet { IfOk result (λ moved. moved ≡ Moved.Quiet → scripts.new ≡ scripts.old) }
    ensures elsewhere { (i : ℕ) → i ≢ number →
        slice_get scripts.new i ≡ slice_get scripts.old i }
    ensures clients { OnOk result ((granted home : ℕ) (books : ServerBooks) (pairs : List Pair)
        (ports : List PortSeat) → AreScripts pairs ports scripts.old → NoClientAwaitsAt number scripts.old →
        AreClients granted home books pairs scripts.old →
        AreClients granted home books pairs scripts.new) }
{
    scripts[number].end_waiting()
}
