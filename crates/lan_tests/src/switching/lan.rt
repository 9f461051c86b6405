// The windows of two units as a map.
ghost use Rattle.std.specs.Prelude.{◌≡◌};
ghost use Rattle.lan_switch.specs.Windows.{unit_b, unit_c};

use super::{B, C, is_unit};
use lan_switch::PortMap;
use tce_window::{GuestPort, Held, HoldFault, PlainWindow, Right};
use vio_num::UnitId;

// The windows of B and of C.
#[derive(Drop)]
pub struct Lan {
    pub b: PlainWindow,
    pub c: PlainWindow,
    ghost b_is: { b.unit ≡ unit_b },
    ghost c_is: { c.unit ≡ unit_c },
}

impl PortMap for Lan {
    ghost use Rattle.std.specs.Prelude.{false};
    ghost use Rattle.lan_switch.specs.Windows.{facts_by, found_by, fits_by, named_by, begins_by, written_by};

    ghost is_shared = { false };

    ghost state = { λ lan unit. facts_by lan.b lan.c unit };

    ghost fits = { λ lan unit held. fits_by lan.b lan.c unit held };

    ghost found = { λ lan unit page word. found_by lan.b lan.c unit page word };

    ghost named = { λ lan unit. named_by lan.b lan.c unit };

    ghost begins = { λ lan unit e. begins_by lan.b lan.c unit e };

    ghost written_fits = { λ lan unit old new fits follows.
        written_by lan.b lan.c unit old new fits follows };

    fn hold(&mut self, unit: UnitId, ioba: u64, len: u32, right: Right) -> Result<Held, HoldFault> {
        if is_unit(unit, B) {
            self.b.hold(ioba, len, right)
        } else if is_unit(unit, C) {
            self.c.hold(ioba, len, right)
        } else {
            Err(HoldFault::Past { entry: ioba / 4096 })
        }
    }

    fn give_back(&mut self, unit: UnitId, held: Held) {
        if is_unit(unit, B) {
            self.b.give_back(held);
        } else if is_unit(unit, C) {
            self.c.give_back(held);
        } else {
            unreachable!();
        }
    }
}
