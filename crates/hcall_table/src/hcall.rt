// The rows of the table, and the number of each.
ghost use Rattle.std.specs.Prelude.{◌≡◌};
ghost use Rattle.hcall_table.specs.Named.{is_of, is_of_window};
ghost use Rattle.hcall_table.specs.Rows.{row_of, window_row, queue_row, port_row};

use crate::kind::UnitKind;

/// A hypervisor call of virtual I/O (LoPAR, "Hypervisor Call Functions").
#[derive(Clone, Copy, Debug, PartialEq, Eq)]
pub enum Hcall {
    /// H_GET_TCE: reads a translation entry.
    GetTce,
    /// H_PUT_TCE: puts a translation entry.
    PutTce,
    /// H_STUFF_TCE: puts one value into many entries.
    StuffTce,
    /// H_PUT_TCE_INDIRECT: puts a list of values.
    PutTceIndirect,
    /// H_REG_CRQ: registers a queue.
    RegCrq,
    /// H_FREE_CRQ: frees a queue.
    FreeCrq,
    /// H_SEND_CRQ: sends an entry to the partner's queue.
    SendCrq,
    /// H_ENABLE_CRQ: enables a queue.
    EnableCrq,
    /// H_COPY_RDMA: copies between a server unit's two windows.
    CopyRdma,
    /// H_REGISTER_LOGICAL_LAN: registers a port.
    RegisterLogicalLan,
    /// H_FREE_LOGICAL_LAN: frees a port.
    FreeLogicalLan,
    /// H_ADD_LOGICAL_LAN_BUFFER: posts a receive buffer.
    AddLogicalLanBuffer,
    /// H_SEND_LOGICAL_LAN: sends a frame.
    SendLogicalLan,
    /// H_MULTICAST_CTRL: changes a port's filters.
    MulticastCtrl,
    /// H_CHANGE_LOGICAL_LAN_MAC: changes a port's MAC address.
    ChangeLogicalLanMac,
}

impl Hcall {
    /// The row that a call's number names, where there is one.
    pub fn read(number: u64) -> Option<Hcall>
        ensures { result ≡ row_of number }
    {
        match Hcall::of_window(number) {
            Some(row) => Some(row),
            None => match Hcall::of_queue(number) {
                Some(row) => Some(row),
                None => Hcall::of_port(number),
            },
        }
    }

    // Reads the number of a call on a window's entries.
    fn of_window(number: u64) -> Option<Hcall>
        ensures { result ≡ window_row number }
    {
        match number {
            0x1C => Some(Hcall::GetTce),
            0x20 => Some(Hcall::PutTce),
            0x138 => Some(Hcall::StuffTce),
            0x13C => Some(Hcall::PutTceIndirect),
            _ => None,
        }
    }

    // Reads the number of a call on a queue, or of a copy.
    fn of_queue(number: u64) -> Option<Hcall>
        ensures { result ≡ queue_row number }
    {
        match number {
            0xFC => Some(Hcall::RegCrq),
            0x100 => Some(Hcall::FreeCrq),
            0x108 => Some(Hcall::SendCrq),
            0x2B0 => Some(Hcall::EnableCrq),
            0x110 => Some(Hcall::CopyRdma),
            _ => None,
        }
    }

    // Reads the number of a call on a LAN port.
    fn of_port(number: u64) -> Option<Hcall>
        ensures { result ≡ port_row number }
    {
        match number {
            0x114 => Some(Hcall::RegisterLogicalLan),
            0x118 => Some(Hcall::FreeLogicalLan),
            0x11C => Some(Hcall::AddLogicalLanBuffer),
            0x120 => Some(Hcall::SendLogicalLan),
            0x130 => Some(Hcall::MulticastCtrl),
            0x14C => Some(Hcall::ChangeLogicalLanMac),
            _ => None,
        }
    }

    /// Whether the row is of a window's translation entries: it names its unit by a LIOBN.
    pub fn is_of_window(self) -> bool
        ensures { result ≡ is_of_window self }
    {
        match self {
            Hcall::GetTce | Hcall::PutTce | Hcall::StuffTce | Hcall::PutTceIndirect => true,
            _ => false,
        }
    }

    /// Whether the row is of units of this kind.
    pub fn is_of(self, kind: UnitKind) -> bool
        ensures { result ≡ is_of self kind }
    {
        match self {
            Hcall::GetTce | Hcall::PutTce | Hcall::StuffTce | Hcall::PutTceIndirect => true,
            Hcall::RegCrq | Hcall::FreeCrq | Hcall::SendCrq | Hcall::EnableCrq => kind.has_queue(),
            Hcall::CopyRdma => kind.is_server(),
            _ => kind.is_lan(),
        }
    }
}
