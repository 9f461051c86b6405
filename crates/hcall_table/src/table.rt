// Finds the row and the unit of a call, and makes the call.
ghost use Rattle.std.specs.Prelude.{◌≡◌, Some, None, IfSome, IfOk, true, Option};
ghost use Rattle.vio_num.specs.declared.hypervisor.Hrc.TheVariants as codes;
ghost use Rattle.hcall_table.specs.Asked.{ask, Refuses};
ghost use Rattle.hcall_table.specs.Named.{here, is_here, is_there, same_unit, unit_named, unit_of, windows_named};
ghost use Rattle.hcall_table.specs.Rows.{IsAnswer, further, row_of};

use crate::hcall::Hcall;
use crate::kind::UnitKind;
use crate::named::Named;
use crate::returned::Returned;
use crate::units::Units;
use vio_num::{Hrc, NoMemory, UnitId};

/// Makes the hypervisor call of this number on the units of a partition: one row, one method, its answer
/// unchanged. A number without a row is Function; a unit address or LIOBN that is not of the partition, or
/// not of the row's kind, is Parameter. Then no method is called, and the units stay as they are.
pub fn call<U: Units>(units: &mut U, number: u64, args: &[u64; 9]) -> Result<Returned, NoMemory>
    ensures function { row_of number ≡ None → Refuses U codes.Function units.old units.new result }
    ensures parameter { IfSome (row_of number) (λ row.
        unit_of (U.place units.old) row args.now ≡ None →
        Refuses U codes.Parameter units.old units.new result) }
    ensures made { IfSome (row_of number) (λ row.
        IfSome (unit_of (U.place units.old) row args.now) (λ unit.
        U.made (ask row unit (further row args.now)) units.old units.new result)) }
    ensures answer { IfSome (row_of number) (λ row. IfOk result (IsAnswer row)) }
    ensures place { U.place units.new ≡ U.place units.old }
{
    let Some(row) = Hcall::read(number) else {
        return Ok(Returned::bare(Hrc::Function));
    };
    let Some(unit) = unit_of(units, row, args) else {
        return Ok(Returned::bare(Hrc::Parameter));
    };
    make(units, row, unit, args)
}

// Makes the call of a row on a unit.
fn make<U: Units>(
    units: &mut U,
    row: Hcall,
    unit: u8,
    args: &[u64; 9],
) -> Result<Returned, NoMemory>
    ensures made { U.made (ask row unit (further row args.now)) units.old units.new result }
    ensures answer { IfOk result (IsAnswer row) }
    ensures place { U.place units.new ≡ U.place units.old }
{
    match row {
        Hcall::GetTce => units.h_get_tce(unit, args[1]),
        Hcall::PutTce => units.h_put_tce(unit, args[1], args[2]),
        Hcall::StuffTce => units.h_stuff_tce(unit, args[1], args[2], args[3]),
        Hcall::PutTceIndirect => units.h_put_tce_indirect(unit, args[1], args[2], args[3]),
        Hcall::RegCrq => units.h_reg_crq(unit, args[1], args[2]),
        Hcall::FreeCrq => units.h_free_crq(unit),
        Hcall::SendCrq => units.h_send_crq(unit, args[1], args[2]),
        Hcall::EnableCrq => units.h_enable_crq(unit),
        Hcall::CopyRdma => units.h_copy_rdma(unit, args[0], args[1], args[2], args[3], args[4]),
        Hcall::RegisterLogicalLan => units.h_register_logical_lan(
            unit, args[1], args[2], args[3], args[4],
        ),
        Hcall::FreeLogicalLan => units.h_free_logical_lan(unit),
        Hcall::AddLogicalLanBuffer => units.h_add_logical_lan_buffer(unit, args[1]),
        Hcall::SendLogicalLan => units.h_send_logical_lan(
            unit, args[1], args[2], args[3], args[4], args[5], args[6],
        ),
        Hcall::MulticastCtrl => units.h_multicast_ctrl(unit, args[1], args[2]),
        Hcall::ChangeLogicalLanMac => units.h_change_logical_lan_mac(unit, args[1]),
    }
}

// The unit that a call names in the way of its row, where it is of this partition and of the row's kind.
fn unit_of<U: Units>(units: &U, row: Hcall, args: &[u64; 9]) -> Option<u8>
    ensures { result ≡ unit_of (U.place units.now) row args.now }
{
    match row {
        Hcall::CopyRdma => windows_named(units, Named::read(args[1]), Named::read(args[3])),
        _ => unit_named(units, row, Named::read(args[0])),
    }
}

// The unit that a name names, if it is a LIOBN for a row of a window and a unit address for another.
fn unit_named<U: Units>(units: &U, row: Hcall, name: Option<Named>) -> Option<u8>
    ensures { result ≡ unit_named (U.place units.now) row name }
{
    match name {
        Some(Named::Unit(id)) if !row.is_of_window() => here(units, row, id),
        Some(Named::OwnWindow(id)) if row.is_of_window() => here(units, row, id),
        _ => None,
    }
}

// The server unit whose two windows these are.
fn windows_named<U: Units>(
    units: &U,
    source: Option<Named>,
    destination: Option<Named>,
) -> Option<u8>
    ensures { result ≡ windows_named (U.place units.now) source destination }
{
    let (a, b) = match (source, destination) {
        (Some(Named::OwnWindow(a)), Some(Named::ClientWindow(b))) => (a, b),
        (Some(Named::ClientWindow(a)), Some(Named::OwnWindow(b))) => (a, b),
        _ => return None,
    };
    if same_unit(a, b) {
        here(units, Hcall::CopyRdma, a)
    } else {
        None
    }
}

// The unit's number, where the unit is of this partition and of the row's kind.
fn here<U: Units>(units: &U, row: Hcall, id: UnitId) -> Option<u8>
    ensures { result ≡ here (U.place units.now) row id }
{
    if id.partition == units.partition() && is_there(row, units.kind(id.unit)) {
        Some(id.unit)
    } else {
        None
    }
}

// Whether a unit that may be there is of the row's kind.
fn is_there(row: Hcall, kind: Option<UnitKind>) -> bool
    ensures { result ≡ is_there row kind }
{
    match kind {
        Some(kind) => row.is_of(kind),
        None => false,
    }
}

// Whether two names are of one unit.
fn same_unit(a: UnitId, b: UnitId) -> bool
    ensures { result ≡ same_unit a b }
{
    a.partition == b.partition && a.unit == b.unit
}
