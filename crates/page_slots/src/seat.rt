// A seat at shared pages: what one holder of it has seen, holds and laid.
ghost use Rattle.std.specs.Prelude.{◌≡◌};

use crate::page::Page;
use crate::view::PageView;
use atomic_table::Seat;
use std::marker::Model;

/// A seat at shared pages. It takes no room: what it knows is for contracts alone.
#[derive(Drop)]
pub struct PageSeat {
    pub(crate) seat: Seat<Option<Page>, PageView>,
}

impl Model for PageSeat {
    ghost use Rattle.std.specs.Prelude.{◌≡◌, []};
    ghost use Rattle.page_slots.specs.Seats.{PageSeatValue};
    ghost use Rattle.page_slots.specs.PageRule.{IsSized};
    ghost use Rattle.page_slots.specs.PageSteps.{out_with};

    ghost Value = { PageSeatValue };

    ghost view = { λ seat. record {
      pages = seat.seat.table_id;
      seen = seat.seat.me.0.seen;
      held = seat.seat.me.0.held;
      laid = seat.seat.me.0.laid;
      last = record { count = seat.seat.me.0.reads; word = seat.seat.me.0.word };
    } };

    ghost invariant = { λ seat. record {
      share : seat.seat.me.0.share ≡ 1;
      told : seat.seat.me.0.told ≡ [];
      out : seat.seat.me.1 ≡ out_with seat.seat.me.0.carried;
      sized : IsSized seat.seat.table_id.slots seat.seat.me.0;
    } };
}
