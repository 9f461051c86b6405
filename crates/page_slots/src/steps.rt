// The rule of a table of pages, its steps, and how its seats part and join.
ghost use Rattle.page_slots.specs.PageCuts.{remaining, another, with_seat, spent};
ghost use Rattle.page_slots.specs.PageSteps.{turned, reached, returned};

use crate::page::Page;
use crate::view::{PageView, PagesKey};
use atomic_table::{Join, Play, Split, TableRule};

/// The rule. The table is told how many pages and how many seats there are.
pub struct PageRule;

impl TableRule<Option<Page>, PageView, PagesKey> for PageRule {
    ghost use Rattle.page_slots.specs.PageRule.{key_holds, opened};

    ghost holds = { key_holds };

    ghost first = { opened };
}

/// The setting of bit 0 of a turn word.
pub struct TakeTurn;

impl Play<Option<Page>, PageView> for TakeTurn {
    ghost then = { turned };
}

/// The load of the turn word of a page in hand, before the page goes back into its slot.
pub struct ReachSlot;

impl Play<Option<Page>, PageView> for ReachSlot {
    ghost then = { reached };
}

/// The clearing of bit 0 of a turn word.
pub struct ReturnTurn;

impl Play<Option<Page>, PageView> for ReturnTurn {
    ghost then = { returned };
}

/// Parts one seat from those that a seat stands for.
pub struct PartSeat;

impl Split<PageView> for PartSeat {
    ghost left = { remaining };

    ghost right = { another };
}

/// Joins a seat to another.
pub struct JoinSeat;

impl Join<PageView> for JoinSeat {
    ghost both = { with_seat };

    ghost spent = { spent };
}
