// Makes what a plan asks for: the pairs of its server units, the scripts of its partitions, and its LAN ports.
ghost use Rattle.std.specs.Prelude.{◌≡◌, ◌≤◌, ◌++◌, ℕ, [], true, false, All, IfOk, MatchOption, OnOk, Some, length, map};
ghost use Rattle.vio_num.specs.declared.names.UnitId.{UnitId};
ghost use Rattle.boot_text.specs.SoFar.{has_server, is_server};
ghost use Rattle.boot_text.specs.Sound.{AreSound, IsClientOf, IsSoundPartition, unit_at};
ghost use Rattle.boot_text.specs.declared.plan.UnitPlan.TheVariants as kinds;
ghost use Rattle.vcpu_run.specs.Agreed.{AreAllOut, IsLoggedOut};
ghost use Rattle.vcpu_run.specs.Answered.{AreAnswered, IsAnswered};
ghost use Rattle.vcpu_run.specs.Links.{AreClosed, IsClosed};
ghost use Rattle.vcpu_run.specs.Received.{AreNew, IsNew};
ghost use Rattle.vcpu_run.specs.Machines.{ArePlanned, IsPlanned, home_of, seat_of};
ghost use Rattle.vcpu_run.specs.Making.{AreMade, HasNoneIn, IsMade, IsSeatAt, IsSeatIn, IsSeatOf};
ghost use Rattle.vcpu_run.specs.Pairs.{ArePairs, IsPair};
ghost use Rattle.vcpu_run.specs.PlainPairs.{OpenPlainly, OpensPlainly};
ghost use Rattle.vcpu_run.specs.Ports.{port_of, ports_in, ports_of};

use crate::pair::{ClientSeat, Pair};
use crate::script::Script;
use crate::unit_seat::Seat;
use boot_text::{Partition, UnitPlan};
use lan_script::PortSeat;
use std::alloc::Global;
use vio_num::{NoMemory, UnitId};

/// The number of the partition that has server units; that of the partitions where none has any.
pub(crate) fn home_of(partitions: &[Partition]) -> usize
    ensures { result ≡ home_of partitions.now }
{
    for (number, partition) in partitions.iter().enumerate() {
        if serves(partition) {
            return number;
        }
    }
    partitions.len()
}

// Whether a partition has server units.
fn serves(partition: &Partition) -> bool
    ensures { result ≡ has_server partition.now.units }
{
    partition
        .units
        .as_slice()
        .iter()
        .any(|unit| unit.is_server())
}

/// Makes the server units of the partition with this number, if it is there, each with its client.
pub(crate) fn make_pairs(
    alloc: Global,
    partitions: &[Partition],
    home: usize,
) -> Result<Vec<Pair>, NoMemory>
    requires sound { AreSound partitions.now }
    requires home { home ≡ home_of partitions.now }
    ensures pairs { IfOk result (λ pairs. ArePairs home [] pairs.items) }
    ensures planned { IfOk result (λ pairs. ArePlanned partitions.now pairs.items) }
    ensures out { IfOk result (λ pairs. AreAllOut pairs.items) }
    ensures answered { IfOk result (λ pairs. AreAnswered [] pairs.items) }
    ensures closed { IfOk result (λ pairs. AreClosed pairs.items) }
    ensures fresh { IfOk result (λ pairs. AreNew pairs.items) }
    ensures opens { IfOk result (λ pairs. OpenPlainly pairs.items) }
{
    let mut pairs = Vec::new(alloc);
    let Some(partition) = partitions.get(home) else {
        return Ok(pairs);
    };
    for (place, unit) in partition.units.as_slice().iter().enumerate() {
        let server = UnitId {
            partition: home as u8,
            unit: place as u8,
        };
        pairs.push(make_pair(alloc, partitions, server, queue_of(unit))?)?;
    }
    Ok(pairs)
}

// The pages of a server unit's queue.
fn queue_of(unit: &UnitPlan) -> u8
    requires { is_server unit.now ≡ true }
    ensures { unit.now ≡ kinds.Server result }
{
    match *unit {
        UnitPlan::Server { queue } => queue,
        UnitPlan::Client { .. } => unreachable!(),
        UnitPlan::Lan { .. } => unreachable!(),
    }
}

// Makes this server unit, with its client.
fn make_pair(
    alloc: Global,
    partitions: &[Partition],
    server: UnitId,
    queue: u8,
) -> Result<Pair, NoMemory>
    requires sound { AreSound partitions.now }
    requires planned { unit_at partitions.now server ≡ Some (kinds.Server queue) }
    ensures pair { IfOk result (IsPair server.partition [] server.unit) }
    ensures planned { IfOk result (IsPlanned partitions.now server.unit) }
    ensures out { IfOk result IsLoggedOut }
    ensures answered { IfOk result (IsAnswered []) }
    ensures closed { IfOk result IsClosed }
    ensures fresh { IfOk result IsNew }
    ensures opens { IfOk result OpensPlainly }
{
    let client = client_of(partitions, server);
    Pair::open(alloc, server, queue, client)
}

// The client of a server unit, if the plan has one.
fn client_of(partitions: &[Partition], server: UnitId) -> Option<ClientSeat>
    requires { AreSound partitions.now }
    ensures { MatchOption result ((id : UnitId) → IsClientOf partitions.now id server → ⊥)
        (IsSeatOf partitions.now server) }
{
    for (number, partition) in partitions.iter().enumerate() {
        let found = client_in(partition.units.as_slice(), number as u8, server);
        if let Some(seat) = found {
            return Some(seat);
        }
    }
    None
}

// Its client among the units of the partition with this number.
fn client_in(units: &[UnitPlan], number: u8, server: UnitId) -> Option<ClientSeat>
    requires { length units.now ≤ 8 }
    ensures { MatchOption result (HasNoneIn units.now server)
        (IsSeatIn units.now number server) }
{
    for (place, unit) in units.iter().enumerate() {
        let id = UnitId {
            partition: number,
            unit: place as u8,
        };
        let found = client_at(unit, id, server);
        if let Some(seat) = found {
            return Some(seat);
        }
    }
    None
}

// This unit as its client, if it is that.
fn client_at(unit: &UnitPlan, id: UnitId, server: UnitId) -> Option<ClientSeat>
    ensures { MatchOption result
        ((pages queue : ℕ) → unit.now ≡ kinds.Client server pages queue → ⊥)
        (IsSeatAt unit.now id server) }
{
    match *unit {
        UnitPlan::Client {
            server: named,
            pages,
            queue,
        } => {
            if named == server {
                Some(ClientSeat {
                    unit: id,
                    pages,
                    queue,
                })
            } else {
                None
            }
        }
        UnitPlan::Server { .. } => None,
        UnitPlan::Lan { .. } => None,
    }
}

/// Makes the scripts of the partitions.
pub(crate) fn make_scripts(
    alloc: Global,
    partitions: &[Partition],
) -> Result<Vec<Script<'_>>, NoMemory>
    requires sound { AreSound partitions.now }
    ensures { IfOk result (λ scripts. AreMade partitions.now scripts.items) }
{
    let mut scripts = Vec::new(alloc);
    for number in 0..partitions.len() {
        scripts.push(make_script(alloc, &partitions[number], number as u8)?)?;
    }
    Ok(scripts)
}

// Makes the script of the partition with this number.
fn make_script(alloc: Global, partition: &Partition, number: u8) -> Result<Script<'_>, NoMemory>
    requires { IsSoundPartition partition.now }
    ensures { IfOk result (IsMade partition.now number) }
{
    let seats = make_seats(alloc, partition.units.as_slice())?;
    Ok(Script::new(alloc, number, partition.lines.as_slice(), seats))
}

// Gives the seats of units, by unit.
fn make_seats(alloc: Global, units: &[UnitPlan]) -> Result<Vec<Seat>, NoMemory>
    ensures { IfOk result (λ seats. seats.items ≡ map seat_of units.now) }
{
    let mut seats = Vec::new(alloc);
    for unit in units {
        seats.push(seat_of(unit))?;
    }
    Ok(seats)
}

// The seat of a unit: a client's is at the pair of its server unit.
fn seat_of(unit: &UnitPlan) -> Seat
    ensures { result ≡ seat_of unit.now }
{
    match *unit {
        UnitPlan::Server { .. } => Seat::Server,
        UnitPlan::Client { server, .. } => Seat::Client(usize::from(server.unit)),
        UnitPlan::Lan { .. } => Seat::Port,
    }
}

/// Lists the LAN ports, partition by partition.
pub(crate) fn ports_of(alloc: Global, partitions: &[Partition]) -> Result<Vec<PortSeat>, NoMemory>
    requires sound { AreSound partitions.now }
    ensures { IfOk result (λ ports. ports.items ≡ ports_of partitions.now) }
{
    let mut ports = Vec::new(alloc);
    for (number, partition) in partitions.iter().enumerate() {
        put_ports(&mut ports, partition.units.as_slice(), number as u8)?;
    }
    Ok(ports)
}

// Adds the ports of a partition.
fn put_ports(ports: &mut Vec<PortSeat>, units: &[UnitPlan], partition: u8) -> Result<(), NoMemory>
    requires { length units.now ≤ 8 }
    ensures { OnOk result (ports.new.items ≡ ports.old.items ++ ports_in partition 0 units.now) }
{
    for (place, unit) in units.iter().enumerate() {
        let id = UnitId {
            partition,
            unit: place as u8,
        };
        put_port(ports, unit, id)?;
    }
    Ok(())
}

// Adds a unit, if it is a port.
fn put_port(ports: &mut Vec<PortSeat>, unit: &UnitPlan, id: UnitId) -> Result<(), NoMemory>
    ensures { OnOk result (ports.new.items ≡ ports.old.items ++ port_of id unit.now) }
{
    if let UnitPlan::Lan { mac, pages, slots } = *unit {
        ports.push(PortSeat {
            unit: id,
            mac,
            pages,
            slots,
        })?;
    }
    Ok(())
}
