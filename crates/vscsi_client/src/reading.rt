// How the unit in a slot is read.
ghost use Rattle.std.specs.Prelude.{◌≡◌, ◌≤◌};
ghost use Rattle.tce_window.specs.PortState.{OnlyReads};
ghost use Rattle.vscsi_client.specs.Slots.{FindsIn, is_event};
ghost use Rattle.vscsi_client.specs.Units.{slot_address};

use crate::{MIN_PAGES, SLOTS};
use srp_iu::{Iu, read_iu};
use tce_window::{OwnFault, OwnerPort};
use vio_num::Entry;

/// The bytes of a slot: those of the longest unit.
const SLOT_BYTES: u64 = 256;

/// What lies in a slot.
#[derive(Debug, PartialEq, Eq, Drop)]
pub enum Slot {
    Unit(Iu),
    /// Its bytes are no unit.
    NoUnit,
    /// Its page is in use, by this word of it.
    InUse { page: u16, word: u64 },
}

/// The address of a slot in the region.
pub(crate) fn address_of(slot: u64) -> u64
    requires { slot ≤ SLOTS }
    ensures { result ≡ slot_address slot }
{
    SLOT_BYTES * slot
}

/// Reads all bytes of a slot as a unit.
pub(crate) fn read_slot<O: OwnerPort>(own: &mut O, slot: u64) -> Slot
    requires slot { slot ≤ SLOTS }
    requires pages { MIN_PAGES ≤ (O.state own.old).place.size }
    ensures finds { FindsIn O.is_shared slot result (O.state own.old) (O.state own.new) }
    ensures rest { OnlyReads O.is_shared (O.state own.old) (O.state own.new) }
{
    let mut bytes = [0; 256];
    match own.read(address_of(slot), &mut bytes) {
        Ok(()) => match read_iu(&bytes) {
            Ok(iu) => Slot::Unit(iu),
            Err(_) => Slot::NoUnit,
        },
        Err(OwnFault::InUse { page, word }) => Slot::InUse { page, word },
        Err(OwnFault::Range) => unreachable!(),
        Err(OwnFault::NoMemory) => unreachable!(),
    }
}

/// Whether the entry is a transport event.
pub(crate) fn is_event(entry: Entry) -> bool
    ensures { result ≡ is_event entry }
{
    entry.to_bytes()[0] == 0xFF
}
