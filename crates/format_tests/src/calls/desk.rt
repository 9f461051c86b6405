// Units that answer each call, and write down what they were asked.
ghost use Rattle.std.specs.Prelude.{◌≡◌, ◌==◌, ◌||◌, ℕ, Option, None, Some, IfSome, IfOk, if◌then◌else◌};
ghost use Rattle.vio_num.specs.declared.hypervisor.Hrc.TheVariants as codes;
ghost use Rattle.hcall_table.specs.Asked.{bare};
ghost use Rattle.hcall_table.specs.declared.kind.UnitKind.TheVariants as kinds;

use hcall_table::{Hcall, Returned, UnitKind, Units};
use vio_num::{Hrc, NoMemory};

// The value that H_GET_TCE gives.
pub const VALUE: u64 = 0x7003;

// What was asked: the row, the unit, and its arguments with zeros behind them.
pub type Note = (Hcall, u8, [u64; 6]);

// The units of partition 5: 0 and 3 are servers, 1 a client, 2 a LAN port.
#[derive(Drop)]
pub struct Desk {
    pub note: Option<Note>,
}

impl Desk {
    // Writes down what is asked, and answers a code without a value.
    fn hear(&mut self, row: Hcall, unit: u8, arguments: [u64; 6]) -> Result<Returned, NoMemory>
        ensures note { IfSome self.new.note (λ note. (note.0 ≡ row) × (note.1 ≡ unit)) }
        ensures code { IfOk result (λ returned. returned ≡ bare codes.Success) }
    {
        self.note = Some((row, unit, arguments));
        Ok(Returned::bare(Hrc::Success))
    }
}

impl Units for Desk {
    ghost place = { λ _. record { partition = 5; kind = λ unit. if (unit == 0) || (unit == 3) then Some kinds.Server else if unit == 1 then Some kinds.Client else if unit == 2 then Some kinds.Lan else None } };

    ghost made = { λ asked _ new _. IfSome new.note (λ note.
        (note.0 ≡ asked.row) × (note.1 ≡ asked.unit)) };

    fn partition(&self) -> u8 {
        5
    }

    fn kind(&self, unit: u8) -> Option<UnitKind> {
        match unit {
            0 | 3 => Some(UnitKind::Server),
            1 => Some(UnitKind::Client),
            2 => Some(UnitKind::Lan),
            _ => None,
        }
    }

    fn h_get_tce(&mut self, unit: u8, address: u64) -> Result<Returned, NoMemory> {
        self.hear(Hcall::GetTce, unit, [address, 0, 0, 0, 0, 0])?;
        Ok(Returned {
            code: Hrc::Success,
            r4: VALUE,
        })
    }

    fn h_put_tce(&mut self, unit: u8, address: u64, value: u64) -> Result<Returned, NoMemory> {
        self.hear(Hcall::PutTce, unit, [address, value, 0, 0, 0, 0])
    }

    fn h_stuff_tce(
        &mut self,
        unit: u8,
        address: u64,
        value: u64,
        count: u64,
    ) -> Result<Returned, NoMemory> {
        self.hear(Hcall::StuffTce, unit, [address, value, count, 0, 0, 0])
    }

    fn h_put_tce_indirect(
        &mut self,
        unit: u8,
        address: u64,
        list: u64,
        count: u64,
    ) -> Result<Returned, NoMemory> {
        self.hear(Hcall::PutTceIndirect, unit, [address, list, count, 0, 0, 0])
    }

    fn h_reg_crq(&mut self, unit: u8, address: u64, length: u64) -> Result<Returned, NoMemory> {
        self.hear(Hcall::RegCrq, unit, [address, length, 0, 0, 0, 0])
    }

    fn h_free_crq(&mut self, unit: u8) -> Result<Returned, NoMemory> {
        self.hear(Hcall::FreeCrq, unit, [0, 0, 0, 0, 0, 0])
    }

    fn h_send_crq(&mut self, unit: u8, high: u64, low: u64) -> Result<Returned, NoMemory> {
        self.hear(Hcall::SendCrq, unit, [high, low, 0, 0, 0, 0])
    }

    fn h_enable_crq(&mut self, unit: u8) -> Result<Returned, NoMemory> {
        self.hear(Hcall::EnableCrq, unit, [0, 0, 0, 0, 0, 0])
    }

    fn h_copy_rdma(
        &mut self,
        unit: u8,
        length: u64,
        source: u64,
        source_address: u64,
        destination: u64,
        destination_address: u64,
    ) -> Result<Returned, NoMemory> {
        self.hear(
            Hcall::CopyRdma,
            unit,
            [
                length,
                source,
                source_address,
                destination,
                destination_address,
                0,
            ],
        )
    }

    fn h_register_logical_lan(
        &mut self,
        unit: u8,
        list: u64,
        queue: u64,
        filters: u64,
        mac: u64,
    ) -> Result<Returned, NoMemory> {
        self.hear(
            Hcall::RegisterLogicalLan,
            unit,
            [list, queue, filters, mac, 0, 0],
        )
    }

    fn h_free_logical_lan(&mut self, unit: u8) -> Result<Returned, NoMemory> {
        self.hear(Hcall::FreeLogicalLan, unit, [0, 0, 0, 0, 0, 0])
    }

    fn h_add_logical_lan_buffer(
        &mut self,
        unit: u8,
        descriptor: u64,
    ) -> Result<Returned, NoMemory> {
        self.hear(
            Hcall::AddLogicalLanBuffer,
            unit,
            [descriptor, 0, 0, 0, 0, 0],
        )
    }

    fn h_send_logical_lan(
        &mut self,
        unit: u8,
        first: u64,
        second: u64,
        third: u64,
        fourth: u64,
        fifth: u64,
        sixth: u64,
    ) -> Result<Returned, NoMemory> {
        self.hear(
            Hcall::SendLogicalLan,
            unit,
            [first, second, third, fourth, fifth, sixth],
        )
    }

    fn h_multicast_ctrl(&mut self, unit: u8, control: u64, mac: u64) -> Result<Returned, NoMemory> {
        self.hear(Hcall::MulticastCtrl, unit, [control, mac, 0, 0, 0, 0])
    }

    fn h_change_logical_lan_mac(&mut self, unit: u8, mac: u64) -> Result<Returned, NoMemory> {
        self.hear(Hcall::ChangeLogicalLanMac, unit, [mac, 0, 0, 0, 0, 0])
    }
}
