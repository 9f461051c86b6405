// Entering the partner's queue and leaving it as calls of their own, so that others can stand between the
// two. In between the seat is used for no other call.
ghost use Rattle.std.specs.Prelude.{◌≡◌, true, false};
ghost use Rattle.crq_ring.specs.Answers.{OnInside, IfTurnedBack};
ghost use Rattle.crq_session.specs.LinkSeats.{IsSeatOf};
ghost use Rattle.crq_session.specs.LinkState.{GoesIn, GoesOut, StaysOut};

use crate::seat::LinkSeat;
use crate::shared_link::Link;
pub use crq_ring::laws::Enter;

impl Link {
    /// Enters the partner's queue. The word that is given is the one that was read last.
    pub fn enter(&self, seat: &mut LinkSeat) -> Enter
        requires ours { IsSeatOf self.now seat.old }
        requires outside { seat.old.send.inside ≡ false }
        ensures inside { OnInside result (GoesIn seat.old seat.new) }
        ensures closed { IfTurnedBack result (λ word. StaysOut seat.old word seat.new) }
    {
        let partner = self.queue(!seat.first);
        partner.enter(&mut seat.send)
    }

    /// Leaves the partner's queue.
    pub fn leave(&self, seat: &mut LinkSeat)
        requires ours { IsSeatOf self.now seat.old }
        requires inside { seat.old.send.inside ≡ true }
        ensures { GoesOut seat.old seat.new }
    {
        let partner = self.queue(!seat.first);
        partner.leave(&mut seat.send);
    }
}
