// The units of a machine in the order of their names, and where each sits.
ghost use Rattle.std.specs.Prelude.{◌≡◌, ◌≤◌, ◌++◌, All, IfOk, OnOk, length};
ghost use Rattle.vcpu_run.specs.Numbered.{numbered};
ghost use Rattle.vcpu_run.specs.Units.{unit_seat, seats_of};

use crate::script::Script;
use crate::unit_seat::{Seat, UnitSeat};
use std::alloc::Global;
use vio_num::{NoMemory, UnitId};

/// Lists the units, partition by partition.
pub(crate) fn seats_in_order(
    alloc: Global,
    scripts: &[Script<'_>],
) -> Result<Vec<UnitSeat>, NoMemory>
    requires { All (λ script. length script.seats.items ≤ 256) scripts.now }
    ensures { IfOk result (λ seats. seats.items ≡ seats_of scripts.now) }
{
    let mut seats = Vec::new(alloc);
    for script in scripts {
        put_units(&mut seats, script.partition, script.seats.as_slice())?;
    }
    Ok(seats)
}

// Adds the units of a partition, which sit there.
fn put_units(seats: &mut Vec<UnitSeat>, partition: u8, own: &[Seat]) -> Result<(), NoMemory>
    requires { length own.now ≤ 256 }
    ensures { OnOk result (seats.new.items
        ≡ seats.old.items ++ numbered (unit_seat partition) 0 own.now) }
{
    for (unit, seat) in own.iter().enumerate() {
        seats.push(UnitSeat {
            unit: UnitId {
                partition,
                unit: unit as u8,
            },
            seat: *seat,
        })?;
    }
    Ok(())
}
