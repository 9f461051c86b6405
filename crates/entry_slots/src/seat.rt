// A seat at the entries of a shared window: what one holder of it knows and holds.
ghost use Rattle.std.specs.Prelude.{◌≡◌};

use crate::view::EntryView;
use atomic_table::Seat;
use std::marker::Model;
use tce_window::TceRow;

/// A seat at entries. It takes no room: what it knows is for contracts alone. One that is dropped while it
/// holds entries leaves their pins.
#[derive(Drop)]
pub struct EntrySeat {
    pub(crate) seat: Seat<TceRow, EntryView>,
}

impl Model for EntrySeat {
    ghost use Rattle.std.specs.Prelude.{◌≡◌, []};
    ghost use Rattle.entry_slots.specs.Entries.{EntrySeatValue};

    ghost Value = { EntrySeatValue };

    ghost view = { λ seat. record {
      entries = seat.seat.table_id;
      owns = seat.seat.me.0.owns;
      rows = seat.seat.me.0.rows;
      held_from = seat.seat.me.0.held_from;
      held_count = seat.seat.me.0.held_count;
      released = seat.seat.me.0.released;
      last = record { count = seat.seat.me.0.reads; word = seat.seat.me.0.word };
    } };

    ghost invariant = { λ seat. record {
      share : seat.seat.me.0.share ≡ 1;
      size : seat.seat.me.0.entries ≡ seat.seat.table_id.words;
      told : seat.seat.me.0.told ≡ [];
      out : seat.seat.me.1 ≡ [];
    } };
}
