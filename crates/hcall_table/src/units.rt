// The units of a partition, as its hypervisor calls reach them: one method a row.
ghost use Rattle.std.specs.Prelude.{◌≡◌, [], ◌∷◌, Result, IfOk};
ghost use Rattle.vio_num.specs.declared.memory.NoMemory.{NoMemory};
ghost use Rattle.hcall_table.specs.declared.hcall.Hcall.TheVariants as rows;
ghost use Rattle.hcall_table.specs.declared.returned.Returned.{Returned};
ghost use Rattle.hcall_table.specs.Asked.{Asked, ask};
ghost use Rattle.hcall_table.specs.Named.{Place};
ghost use Rattle.hcall_table.specs.Rows.{IsAnswer};

use crate::kind::UnitKind;
use crate::returned::Returned;
use vio_num::NoMemory;

/// The units of one partition. Each row of the table has a method of its name, which takes the unit's
/// number and the row's further arguments. [`call`](crate::call) makes it for a unit of the row's kind alone.
pub trait Units {
    // The partition's number, and the kinds of its units. No call changes them.
    ghost place: { Self → Place };

    // What a row did: what was asked, the units before and after, and the answer.
    ghost made: { Asked → Self → Self → Result Returned NoMemory → Type 0 };

    /// The partition's number.
    fn partition(&self) -> u8
        ensures { result ≡ (place self.now).partition };

    /// What the unit of this number is, where the partition has one.
    fn kind(&self, unit: u8) -> Option<UnitKind>
        ensures { result ≡ (place self.now).kind unit };

    /// Reads the entry of an address of the unit's own window (LoPAR, "H_GET_TCE").
    fn h_get_tce(&mut self, unit: u8, address: u64) -> Result<Returned, NoMemory>
        ensures made { made (ask rows.GetTce unit (address ∷ [])) self.old self.new result }
        ensures answer { IfOk result (IsAnswer rows.GetTce) }
        ensures place { place self.new ≡ place self.old };

    /// Puts a value into the entry of an address of the unit's own window (LoPAR, "H_PUT_TCE").
    fn h_put_tce(&mut self, unit: u8, address: u64, value: u64) -> Result<Returned, NoMemory>
        ensures made { made (ask rows.PutTce unit (address ∷ value ∷ [])) self.old self.new result }
        ensures answer { IfOk result (IsAnswer rows.PutTce) }
        ensures place { place self.new ≡ place self.old };

    /// Puts one value into entries of the unit's own window (LoPAR, "H_STUFF_TCE").
    fn h_stuff_tce(
        &mut self,
        unit: u8,
        address: u64,
        value: u64,
        count: u64,
    ) -> Result<Returned, NoMemory>
        ensures made { made (ask rows.StuffTce unit (address ∷ value ∷ count ∷ []))
            self.old self.new result }
        ensures answer { IfOk result (IsAnswer rows.StuffTce) }
        ensures place { place self.new ≡ place self.old };

    /// Puts the values of a list in the unit's region into its own window (LoPAR, "H_PUT_TCE_INDIRECT").
    fn h_put_tce_indirect(
        &mut self,
        unit: u8,
        address: u64,
        list: u64,
        count: u64,
    ) -> Result<Returned, NoMemory>
        ensures made { made (ask rows.PutTceIndirect unit (address ∷ list ∷ count ∷ []))
            self.old self.new result }
        ensures answer { IfOk result (IsAnswer rows.PutTceIndirect) }
        ensures place { place self.new ≡ place self.old };

    /// Registers the unit's queue, whose length is in bytes (LoPAR, "H_REG_CRQ").
    fn h_reg_crq(&mut self, unit: u8, address: u64, length: u64) -> Result<Returned, NoMemory>
        ensures made { made (ask rows.RegCrq unit (address ∷ length ∷ []))
            self.old self.new result }
        ensures answer { IfOk result (IsAnswer rows.RegCrq) }
        ensures place { place self.new ≡ place self.old };

    /// Frees the unit's queue (LoPAR, "H_FREE_CRQ").
    fn h_free_crq(&mut self, unit: u8) -> Result<Returned, NoMemory>
        ensures made { made (ask rows.FreeCrq unit []) self.old self.new result }
        ensures answer { IfOk result (IsAnswer rows.FreeCrq) }
        ensures place { place self.new ≡ place self.old };

    /// Sends an entry to the partner's queue (LoPAR, "H_SEND_CRQ").
    fn h_send_crq(&mut self, unit: u8, high: u64, low: u64) -> Result<Returned, NoMemory>
        ensures made { made (ask rows.SendCrq unit (high ∷ low ∷ [])) self.old self.new result }
        ensures answer { IfOk result (IsAnswer rows.SendCrq) }
        ensures place { place self.new ≡ place self.old };

    /// Enables the unit's queue (LoPAR, "H_ENABLE_CRQ").
    fn h_enable_crq(&mut self, unit: u8) -> Result<Returned, NoMemory>
        ensures made { made (ask rows.EnableCrq unit []) self.old self.new result }
        ensures answer { IfOk result (IsAnswer rows.EnableCrq) }
        ensures place { place self.new ≡ place self.old };

    /// Copies bytes between a server unit's two windows, named by their LIOBNs (LoPAR, "H_COPY_RDMA").
    fn h_copy_rdma(
        &mut self,
        unit: u8,
        length: u64,
        source: u64,
        source_address: u64,
        destination: u64,
        destination_address: u64,
    ) -> Result<Returned, NoMemory>
        ensures made { made (ask rows.CopyRdma unit
            (length ∷ source ∷ source_address ∷ destination ∷ destination_address ∷ []))
            self.old self.new result }
        ensures answer { IfOk result (IsAnswer rows.CopyRdma) }
        ensures place { place self.new ≡ place self.old };

    /// Registers the port, the MAC address in the low 48 bits (LoPAR, "H_REGISTER_LOGICAL_LAN").
    fn h_register_logical_lan(
        &mut self,
        unit: u8,
        list: u64,
        queue: u64,
        filters: u64,
        mac: u64,
    ) -> Result<Returned, NoMemory>
        ensures made { made (ask rows.RegisterLogicalLan unit (list ∷ queue ∷ filters ∷ mac ∷ []))
            self.old self.new result }
        ensures answer { IfOk result (IsAnswer rows.RegisterLogicalLan) }
        ensures place { place self.new ≡ place self.old };

    /// Frees the port (LoPAR, "H_FREE_LOGICAL_LAN").
    fn h_free_logical_lan(&mut self, unit: u8) -> Result<Returned, NoMemory>
        ensures made { made (ask rows.FreeLogicalLan unit []) self.old self.new result }
        ensures answer { IfOk result (IsAnswer rows.FreeLogicalLan) }
        ensures place { place self.new ≡ place self.old };

    /// Posts a receive buffer (LoPAR, "H_ADD_LOGICAL_LAN_BUFFER").
    fn h_add_logical_lan_buffer(&mut self, unit: u8, descriptor: u64) -> Result<Returned, NoMemory>
        ensures made { made (ask rows.AddLogicalLanBuffer unit (descriptor ∷ []))
            self.old self.new result }
        ensures answer { IfOk result (IsAnswer rows.AddLogicalLanBuffer) }
        ensures place { place self.new ≡ place self.old };

    /// Sends the frame of up to six descriptors (LoPAR, "H_SEND_LOGICAL_LAN").
    fn h_send_logical_lan(
        &mut self,
        unit: u8,
        first: u64,
        second: u64,
        third: u64,
        fourth: u64,
        fifth: u64,
        sixth: u64,
    ) -> Result<Returned, NoMemory>
        ensures made { made (ask rows.SendLogicalLan unit
            (first ∷ second ∷ third ∷ fourth ∷ fifth ∷ sixth ∷ [])) self.old self.new result }
        ensures answer { IfOk result (IsAnswer rows.SendLogicalLan) }
        ensures place { place self.new ≡ place self.old };

    /// Changes the port's reception, filtering and filters (LoPAR, "H_MULTICAST_CTRL").
    fn h_multicast_ctrl(&mut self, unit: u8, control: u64, mac: u64) -> Result<Returned, NoMemory>
        ensures made { made (ask rows.MulticastCtrl unit (control ∷ mac ∷ []))
            self.old self.new result }
        ensures answer { IfOk result (IsAnswer rows.MulticastCtrl) }
        ensures place { place self.new ≡ place self.old };

    /// Changes the port's MAC address (LoPAR, "H_CHANGE_LOGICAL_LAN_MAC").
    fn h_change_logical_lan_mac(&mut self, unit: u8, mac: u64) -> Result<Returned, NoMemory>
        ensures made { made (ask rows.ChangeLogicalLanMac unit (mac ∷ []))
            self.old self.new result }
        ensures answer { IfOk result (IsAnswer rows.ChangeLogicalLanMac) }
        ensures place { place self.new ≡ place self.old };
}
