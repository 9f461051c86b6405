// The filter of a LAN unit (LoPAR, "Logical LAN"): which frames it accepts, by their destination.
ghost use Rattle.std.specs.Prelude.{◌≡◌, ◌↔◌, IsTrue};
ghost use Rattle.lan_frame.specs.Filter.{Accepts};

use crate::station::is_broadcast;
use vio_num::Mac;

/// Whether a unit of the address `own` accepts a frame to `to`. `reception` lets frames to groups in, and
/// `filtering` asks of them that `filters` has the group.
pub fn accepts(own: Mac, reception: bool, filtering: bool, filters: &[Mac], to: Mac) -> bool
    ensures { IsTrue result ↔ Accepts own reception filtering filters.now to }
{
    to == own
        || is_broadcast(to)
        || to.is_group() && reception && (!filtering || filters.contains(&to))
}
