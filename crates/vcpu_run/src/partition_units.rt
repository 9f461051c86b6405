// The units of a partition, as raw hypervisor calls reach them.
ghost use Rattle.std.specs.Prelude.{◌≡◌, ◌≢◌, ◌<◌, ℕ, true, IfOk, IfSome, List, None, Some, length, slice_get};
ghost use Rattle.hcall_table.specs.Asked.{bare};
ghost use Rattle.hcall_table.specs.Rows.{IsAnswer};
ghost use Rattle.lan_script.specs.CalledMac.{mac_called};
ghost use Rattle.lan_script.specs.PortRows.{port_row};
ghost use Rattle.unit_region.specs.EntryRows.{entry_row};
ghost use Rattle.vio_num.specs.declared.hypervisor.Hrc.TheVariants as codes;
ghost use Rattle.vcpu_run.specs.Agreed.{SameBeside, SameDrivers};
ghost use Rattle.vcpu_run.specs.ClientStrokes.{NoneLay};
ghost use Rattle.vcpu_run.specs.CallRows.{arguments_for, entry_arguments, queue_arguments, queue_row, row_for};
ghost use Rattle.vcpu_run.specs.CallsAnswered.{IsReturned, is_unsaid, unit_seen};
ghost use Rattle.vcpu_run.specs.Freed.{FreesNoneIf};
ghost use Rattle.vcpu_run.specs.Pairs.{AreDriven};

use crate::client_call::{ClientCall, QueueCall};
use crate::pair::Pair;
use crate::seat;
use crate::unit_seat::Seat;
use hcall_table::{Returned, UnitKind, Units};
use lan_script::{Lan, PortCall};
use std::alloc::Global;
use unit_region::EntryCall;
use vio_num::{Hrc, NoMemory, UnitId};

/// The units of a partition: clients, each at its pair, and ports of the LAN.
#[derive(Drop)]
pub(crate) struct PartitionUnits<'a> {
    pub(crate) alloc: Global,
    pub(crate) partition: u8,
    pub(crate) seats: &'a [Seat],
    pub(crate) pairs: &'a mut [Pair],
    pub(crate) lan: &'a mut Lan,
}

impl PartitionUnits<'_> {
    ghost use Rattle.vcpu_run.specs.RawCalls.{AnswersPorts, CallsAt, IsThere, MakesCall, place_of, seat_in, seen_after};

    // Where the unit sits, if the partition has it.
    fn seat_of(&self, unit: u8) -> Option<Seat>
        ensures seat { result ≡ seat_in self.now unit }
        ensures there { IfSome result (IsThere self.now unit) }
    {
        match *self.seats.get(usize::from(unit))? {
            Seat::Client(pair) if pair >= self.pairs.len() => None,
            Seat::Port if !self.lan.is_port(self.id(unit)) => None,
            seat => Some(seat),
        }
    }

    // The name of a unit.
    fn id(&self, unit: u8) -> UnitId
        ensures { result ≡ record { partition = self.now.partition; unit = unit } }
    {
        UnitId {
            partition: self.partition,
            unit,
        }
    }

    // Makes a call on the entries of a unit's window.
    fn make_entry(&mut self, unit: u8, call: EntryCall) -> Result<Returned, NoMemory>
        ensures made { MakesCall self.old self.new result }
        ensures answer { IfOk result (IsAnswer (entry_row call)) }
        ensures returned { IfOk result (IsReturned (seen_after self.old self.new unit)
            (entry_row call) (entry_arguments call)) }
        ensures ports { IfOk result (CallsAt unit (λ _. None) self.old self.new) }
        ensures entries { IfOk result (AnswersPorts self.old self.new unit
            (entry_row call) (entry_arguments call)) }
        ensures place { place_of self.new ≡ place_of self.old }
    {
        match self.seat_of(unit) {
            Some(Seat::Client(pair)) => {
                call_at(self.alloc, self.pairs, pair, ClientCall::Entry(call))
            }
            Some(Seat::Port) => {
                let id = self.id(unit);
                self.lan.call(id, PortCall::Entry(call))
            }
            Some(Seat::Server) | None => Ok(Returned::bare(Hrc::Parameter)),
        }
    }

    // Makes a call on a client's queue. Its driver is not told.
    fn make_queue(&mut self, unit: u8, call: QueueCall) -> Result<Returned, NoMemory>
        ensures made { MakesCall self.old self.new result }
        ensures answer { IfOk result (IsAnswer (queue_row call)) }
        ensures returned { IfOk result (IsReturned (seen_after self.old self.new unit)
            (queue_row call) (queue_arguments call)) }
        ensures ports { IfOk result (CallsAt unit (λ _. None) self.old self.new) }
        ensures entries { IfOk result (AnswersPorts self.old self.new unit
            (queue_row call) (queue_arguments call)) }
        ensures place { place_of self.new ≡ place_of self.old }
    {
        match self.seat_of(unit) {
            Some(Seat::Client(pair)) => {
                call_at(self.alloc, self.pairs, pair, ClientCall::Queue(call))
            }
            Some(Seat::Server | Seat::Port) | None => Ok(Returned::bare(Hrc::Parameter)),
        }
    }

    // Makes a call on a port.
    fn make_port(&mut self, unit: u8, call: PortCall) -> Result<Returned, NoMemory>
        ensures made { MakesCall self.old self.new result }
        ensures answer { IfOk result (IsAnswer (port_row call)) }
        ensures returned { is_unsaid (port_row call) ≡ true → (args : List ℕ) →
            IfOk result (IsReturned (seen_after self.old self.new unit) (port_row call) args) }
        ensures ports { IfOk result (CallsAt unit (mac_called call) self.old self.new) }
        ensures entries { is_unsaid (port_row call) ≡ true → (args : List ℕ) →
            IfOk result (AnswersPorts self.old self.new unit (port_row call) args) }
        ensures place { place_of self.new ≡ place_of self.old }
    {
        match self.seat_of(unit) {
            Some(Seat::Port) => {
                let id = self.id(unit);
                self.lan.call(id, call)
            }
            Some(Seat::Client(_) | Seat::Server) | None => Ok(Returned::bare(Hrc::Parameter)),
        }
    }
}

// Makes a call on the client of this pair.
fn call_at(
    alloc: Global,
    pairs: &mut [Pair],
    pair: usize,
    call: ClientCall,
) -> Result<Returned, NoMemory>
    requires { pair < length pairs.old }
    ensures driven { AreDriven pairs.old pairs.new }
    ensures told { SameDrivers pairs.old pairs.new }
    ensures stays { FreesNoneIf (λ k. k ≢ pair) pairs.old pairs.new }
    ensures others { SameBeside pair pairs.old pairs.new }
    ensures lays { NoneLay pairs.old pairs.new }
    ensures answer { IfOk result (IsAnswer (row_for call)) }
    ensures returned { IfOk result (IsReturned (unit_seen (slice_get pairs.new pair))
        (row_for call) (arguments_for call)) }
{
    seat::call(alloc, &mut pairs[pair], call)
}

impl Units for PartitionUnits<'_> {
    ghost use Rattle.vcpu_run.specs.RawCalls.{AnswersCall, place_of};

    ghost place = { place_of };

    ghost made = { AnswersCall };

    fn partition(&self) -> u8 {
        self.partition
    }

    fn kind(&self, unit: u8) -> Option<UnitKind> {
        match self.seat_of(unit)? {
            Seat::Server => Some(UnitKind::Server),
            Seat::Client(_) => Some(UnitKind::Client),
            Seat::Port => Some(UnitKind::Lan),
        }
    }

    fn h_get_tce(&mut self, unit: u8, address: u64) -> Result<Returned, NoMemory> {
        self.make_entry(unit, EntryCall::Get { address })
    }

    fn h_put_tce(&mut self, unit: u8, address: u64, value: u64) -> Result<Returned, NoMemory> {
        self.make_entry(unit, EntryCall::Put { address, value })
    }

    fn h_stuff_tce(
        &mut self,
        unit: u8,
        address: u64,
        value: u64,
        count: u64,
    ) -> Result<Returned, NoMemory> {
        let call = EntryCall::Stuff {
            address,
            value,
            count,
        };
        self.make_entry(unit, call)
    }

    fn h_put_tce_indirect(
        &mut self,
        unit: u8,
        address: u64,
        list: u64,
        count: u64,
    ) -> Result<Returned, NoMemory> {
        let call = EntryCall::PutList {
            address,
            list,
            count,
        };
        self.make_entry(unit, call)
    }

    fn h_reg_crq(&mut self, unit: u8, address: u64, length: u64) -> Result<Returned, NoMemory> {
        self.make_queue(unit, QueueCall::Register { address, length })
    }

    fn h_free_crq(&mut self, unit: u8) -> Result<Returned, NoMemory> {
        self.make_queue(unit, QueueCall::Free)
    }

    fn h_send_crq(&mut self, unit: u8, high: u64, low: u64) -> Result<Returned, NoMemory> {
        self.make_queue(unit, QueueCall::Send { high, low })
    }

    fn h_enable_crq(&mut self, unit: u8) -> Result<Returned, NoMemory> {
        self.make_queue(unit, QueueCall::Enable)
    }

    fn h_copy_rdma(
        &mut self,
        _unit: u8,
        _length: u64,
        _source: u64,
        _source_address: u64,
        _destination: u64,
        _destination_address: u64,
    ) -> Result<Returned, NoMemory> {
        Ok(Returned::bare(Hrc::Parameter))
    }

    fn h_register_logical_lan(
        &mut self,
        unit: u8,
        list: u64,
        queue: u64,
        filters: u64,
        mac: u64,
    ) -> Result<Returned, NoMemory> {
        let call = PortCall::Register {
            list,
            queue,
            filters,
            mac,
        };
        self.make_port(unit, call)
    }

    fn h_free_logical_lan(&mut self, unit: u8) -> Result<Returned, NoMemory> {
        self.make_port(unit, PortCall::Free)
    }

    fn h_add_logical_lan_buffer(
        &mut self,
        unit: u8,
        descriptor: u64,
    ) -> Result<Returned, NoMemory> {
        self.make_port(unit, PortCall::Add { descriptor })
    }

    fn h_send_logical_lan(
        &mut self,
        unit: u8,
        first: u64,
        second: u64,
        third: u64,
        fourth: u64,
        fifth: u64,
        sixth: u64,
    ) -> Result<Returned, NoMemory> {
        let call = PortCall::Send {
            descriptors: [first, second, third, fourth, fifth, sixth],
        };
        self.make_port(unit, call)
    }

    fn h_multicast_ctrl(&mut self, unit: u8, control: u64, mac: u64) -> Result<Returned, NoMemory> {
        self.make_port(unit, PortCall::Multicast { control, mac })
    }

    fn h_change_logical_lan_mac(&mut self, unit: u8, mac: u64) -> Result<Returned, NoMemory> {
        self.make_port(unit, PortCall::ChangeMac { mac })
    }
}
