// Raw hypervisor calls on a LAN unit, each made once whatever it answers.
ghost use Rattle.std.specs.Prelude.{◌≡◌, ◌↔◌, None, Some, IfOk, IsSome, IsTrue, OnOk, false, true};
ghost use Rattle.hcall_table.specs.Rows.{IsAnswer, may_answer};
ghost use Rattle.hcall_table.specs.declared.hcall.Hcall.TheVariants as rows;
ghost use Rattle.lan_switch.specs.Switch.{HasRoom};
ghost use Rattle.lan_script.specs.PortCounts.{CountsOn, SameCounts, SendsCalled, counts, counts_called};
ghost use Rattle.lan_script.specs.PortRows.{port_row};
ghost use Rattle.vio_trace.specs.declared.outcome.Outcome.TheVariants as outcomes;
ghost use Rattle.lan_script.specs.CalledMac.{low_mac, mac_called};
ghost use Rattle.lan_script.specs.Entries.{CallsEntry, CallsOne, ValuesGrow};
ghost use Rattle.lan_script.specs.OwnMac.{MovesMac, SetsMac, changed_to};
ghost use Rattle.lan_script.specs.PortReplay.{MacSays, MulticastSays};
ghost use Rattle.lan_script.specs.Regions.{LaysNoOwn, RegionsGrow};
ghost use Rattle.lan_script.specs.Replayed.{ClosesAt, OpensAt, ReplaysOn, SameBeside, SameReplays, replay_at};
ghost use Rattle.lan_script.specs.Resting.{SamePorts};
ghost use Rattle.lan_script.specs.Seats.{seat_at};
ghost use Rattle.lan_script.specs.Units.{IsOpenAt};
ghost use Rattle.lan_script.specs.Values.{SameValues, SameValuesBeside, is_entry_call};

use crate::lan::Lan;
use hcall_table::Returned;
use unit_region::{EntryCall, make_entry_call};
use vio_num::{Hrc, Mac, NoMemory, UnitId};

/// A hypervisor call on a LAN unit. An address of a station is in the low 48 bits.
#[derive(Clone, Copy, Debug, PartialEq, Eq)]
pub enum PortCall {
    /// A call on the window's translation entries.
    Entry(EntryCall),
    /// H_REGISTER_LOGICAL_LAN.
    Register {
        list: u64,
        queue: u64,
        filters: u64,
        mac: u64,
    },
    /// H_FREE_LOGICAL_LAN.
    Free,
    /// H_ADD_LOGICAL_LAN_BUFFER.
    Add {
        descriptor: u64,
    },
    /// H_SEND_LOGICAL_LAN.
    Send {
        descriptors: [u64; 6],
    },
    /// H_MULTICAST_CTRL.
    Multicast {
        control: u64,
        mac: u64,
    },
    /// H_CHANGE_LOGICAL_LAN_MAC.
    ChangeMac {
        mac: u64,
    },
}

impl Lan {
    /// Makes a call on a unit.
    #[tactic(auto, using(crate::proofs::EntriesPut::grows_placed, crate::proofs::EntriesPut::grows_same, crate::proofs::RegionsGrow::regions_placed, crate::proofs::RegionMarks::marks_placed, crate::proofs::ReplayedValues::same_values, crate::proofs::ReplayedValues::same_beside, crate::proofs::ReplayedValues::values_beside_all))]
    pub fn call(&mut self, unit: UnitId, call: PortCall) -> Result<Returned, NoMemory>
        requires there { IsSome (seat_at self.old.seats unit) }
        ensures seats { self.new.seats ≡ self.old.seats }
        ensures answer { IfOk result (IsAnswer (port_row call)) }
        ensures counts { IfOk result (λ returned.
            CountsOn unit (counts 0 0) (counts_called call returned.code) self.old self.new) }
        ensures sends { IfOk result (λ returned.
            SendsCalled unit call returned.code self.old self.new) }
        ensures macs { IfOk result (λ returned. MovesMac (mac_called call returned.code)
            (replay_at self.old unit) (replay_at self.new unit)) }
        ensures beside { OnOk result (SameBeside unit self.old self.new) }
        ensures values { is_entry_call call ≡ false → OnOk result (SameValues self.old self.new) }
        ensures others { OnOk result (SameValuesBeside unit self.old self.new) }
        ensures entry { IfOk result (CallsEntry unit call self.old self.new) }
        ensures grows { OnOk result (ValuesGrow unit self.old self.new) }
        ensures regions { OnOk result (RegionsGrow self.old self.new) }
        ensures marks { OnOk result (LaysNoOwn self.old self.new) }
    {
        match call {
            PortCall::Entry(call) => self.entry_call(unit, call),
            PortCall::Register {
                list,
                queue,
                filters,
                mac,
            } => {
                let code = self.register(unit, list, queue, filters, mac_of(mac))?;
                Ok(Returned::bare(code))
            }
            PortCall::Free => Ok(Returned::bare(self.free(unit))),
            PortCall::Add { descriptor } => Ok(Returned::bare(self.add(unit, descriptor)?)),
            PortCall::Send { descriptors } => {
                let sent = self.send(unit, &descriptors)?;
                Ok(Returned::bare(sent.code))
            }
            PortCall::Multicast { control, mac } => {
                Ok(Returned::bare(self.multicast(unit, control, mac_of(mac))))
            }
            PortCall::ChangeMac { mac } => Ok(Returned::bare(self.change_mac(unit, mac_of(mac)))),
        }
    }

    // Makes a call on the entries of the unit's window.
    fn entry_call(&mut self, unit: UnitId, call: EntryCall) -> Result<Returned, NoMemory>
        requires there { IsSome (seat_at self.old.seats unit) }
        ensures seats { self.new.seats ≡ self.old.seats }
        ensures frames { self.new.frames ≡ self.old.frames }
        ensures counts { SameCounts self.old self.new }
        ensures answer { IfOk result (IsAnswer (port_row (PortCall.Entry call))) }
        ensures replays { SameReplays self.old self.new }
        ensures others { SameValuesBeside unit self.old self.new }
        ensures entry { IfOk result (CallsOne unit call self.old self.new) }
        ensures grows { ValuesGrow unit self.old self.new }
        ensures regions { RegionsGrow self.old self.new }
        ensures marks { LaysNoOwn self.old self.new }
    {
        let mut own = self.windows.take(unit);
        let returned = make_entry_call(self.alloc, &mut own, call);
        self.windows.put(unit, own);
        returned
    }

    // Registers the unit.
    pub(crate) fn register(
        &mut self,
        unit: UnitId,
        list: u64,
        queue: u64,
        filters: u64,
        mac: Mac,
    ) -> Result<Hrc, NoMemory>
        requires there { IsSome (seat_at self.old.seats unit) }
        ensures seats { self.new.seats ≡ self.old.seats }
        ensures frames { self.new.frames ≡ self.old.frames }
        ensures counts { OnOk result (SameCounts self.old self.new) }
        ensures code { IfOk result (λ code. may_answer rows.RegisterLogicalLan code ≡ true) }
        ensures replays { IfOk result (λ code.
            OpensAt unit list queue filters mac code self.old self.new) }
        ensures macs { IfOk result (λ code.
            ReplaysOn unit (SetsMac (changed_to mac (outcomes.Code code))) self.old self.new) }
        ensures beside { OnOk result (SameBeside unit self.old self.new) }
        ensures places { self.new.places ≡ self.old.places }
    {
        self.make_room(unit)?;
        Ok(self.switch.register(unit, list, queue, filters, mac).code)
    }

    // Makes room for one registration, post or harvest of the unit.
    pub(crate) fn make_room(&mut self, unit: UnitId) -> Result<(), NoMemory>
        requires there { IsSome (seat_at self.old.seats unit) }
        ensures seats { self.new.seats ≡ self.old.seats }
        ensures frames { self.new.frames ≡ self.old.frames }
        ensures counts { SameCounts self.old self.new }
        ensures room { OnOk result (HasRoom self.new.stations unit) }
        ensures opened { IsOpenAt self.old unit → IsOpenAt self.new unit }
        ensures replays { SameReplays self.old self.new }
        ensures still { SamePorts self.old self.new }
        ensures places { self.new.places ≡ self.old.places }
    {
        self.switch.reserve(unit, 1)
    }

    // Frees the unit.
    pub(crate) fn free(&mut self, unit: UnitId) -> Hrc
        requires there { IsSome (seat_at self.old.seats unit) }
        ensures seats { self.new.seats ≡ self.old.seats }
        ensures frames { self.new.frames ≡ self.old.frames }
        ensures counts { SameCounts self.old self.new }
        ensures code { may_answer rows.FreeLogicalLan result ≡ true }
        ensures replays { ClosesAt unit result self.old self.new }
        ensures places { self.new.places ≡ self.old.places }
        ensures shut { ¬ IsOpenAt self.new unit }
    {
        self.switch.free(unit).code
    }

    // Controls the filters of the unit.
    pub(crate) fn multicast(&mut self, unit: UnitId, control: u64, mac: Mac) -> Hrc
        requires there { IsSome (seat_at self.old.seats unit) }
        ensures seats { self.new.seats ≡ self.old.seats }
        ensures frames { self.new.frames ≡ self.old.frames }
        ensures counts { SameCounts self.old self.new }
        ensures code { may_answer rows.MulticastCtrl result ≡ true }
        ensures replays { ReplaysOn unit (MulticastSays control mac (outcomes.Code result)) self.old
            self.new }
        ensures places { self.new.places ≡ self.old.places }
    {
        self.switch.multicast(unit, control, mac).code
    }

    // Gives the unit another address.
    pub(crate) fn change_mac(&mut self, unit: UnitId, mac: Mac) -> Hrc
        requires there { IsSome (seat_at self.old.seats unit) }
        ensures seats { self.new.seats ≡ self.old.seats }
        ensures frames { self.new.frames ≡ self.old.frames }
        ensures counts { SameCounts self.old self.new }
        ensures code { may_answer rows.ChangeLogicalLanMac result ≡ true }
        ensures replays { ReplaysOn unit (MacSays mac (outcomes.Code result)) self.old self.new }
        ensures places { self.new.places ≡ self.old.places }
    {
        self.switch.change_mac(unit, mac).code
    }

    /// Closes the unit's port if it is open. Tells whether it is closed.
    pub fn fail(&mut self, unit: UnitId) -> Result<bool, NoMemory>
        requires there { IsSome (seat_at self.old.seats unit) }
        ensures seats { self.new.seats ≡ self.old.seats }
        ensures frames { self.new.frames ≡ self.old.frames }
        ensures counts { SameCounts self.old self.new }
        ensures closed { IfOk result (λ closed. IsTrue closed ↔ (¬ IsOpenAt self.new unit)) }
        ensures done { IfOk result (λ closed. closed ≡ true) }
        ensures macs { MovesMac None (replay_at self.old unit) (replay_at self.new unit) }
        ensures beside { SameBeside unit self.old self.new }
        ensures places { self.new.places ≡ self.old.places }
    {
        if !self.is_open(unit) {
            return Ok(true);
        }
        let _code = self.free(unit);
        Ok(!self.is_open(unit))
    }

    // Whether the unit's port is open.
    pub(crate) fn is_open(&self, unit: UnitId) -> bool
        requires there { IsSome (seat_at self.now.seats unit) }
        ensures { IsTrue result ↔ IsOpenAt self.now unit }
    {
        self.switch.port(unit).is_open()
    }
}

// Reads the address of a station in the low 48 bits.
fn mac_of(number: u64) -> Mac
    ensures { result ≡ low_mac number }
{
    let [_, _, a, b, c, d, e, f] = number.to_be_bytes();
    Mac {
        bytes: [a, b, c, d, e, f],
    }
}
