// Entering a ring and leaving it as calls of their own, so that others can stand between the two.
ghost use Rattle.std.specs.Prelude.{◌≡◌, true, false};
ghost use Rattle.crq_ring.specs.Answers.{OnInside, IfTurnedBack};
ghost use Rattle.crq_ring.specs.RingSessions.{EntersSession, FindsNoSession};

use crate::control::INSIDE;
use crate::ends::SendEnd;
use crate::ring::Ring;
use crate::steps::{GoIn, GoOut, ShowControl};

/// What a sender found that would enter.
#[derive(Clone, Copy, Debug, PartialEq, Eq)]
pub enum Enter {
    /// It is inside.
    Inside,
    /// The queue is closed, or in another session than the word showed that was read before.
    Closed { control: u64 },
}

impl Ring {
    /// Enters the open session: reads the control word, and sets its bit by one exchange on that word. The
    /// word that is given is the one that was read last.
    pub fn enter(&self, send: &mut SendEnd) -> Enter
        requires ours { send.old.ring ≡ self.now.id }
        requires outside { send.old.inside ≡ false }
        ensures inside { OnInside result (EntersSession send.old send.new) }
        ensures closed { IfTurnedBack result (λ word. FindsNoSession send.old word send.new) }
    {
        let shared = &self.table.shared;
        let at = self.control_at();
        let control = shared.load::<ShowControl>(&mut send.seat, at);
        if control % 2 == 0 {
            return Enter::Closed { control };
        }
        let entered = control + INSIDE;
        let found = shared.compare_exchange::<GoIn>(&mut send.seat, at, control, entered);
        if found != control {
            return Enter::Closed { control: found };
        }
        let session = control / 8;
        if session != send.session {
            send.session = session;
            send.sent_from = send.sent.len();
            send.next = 0;
        }
        Enter::Inside
    }

    /// Leaves the session.
    pub fn leave(&self, send: &mut SendEnd)
        requires ours { send.old.ring ≡ self.now.id }
        requires inside { send.old.inside ≡ true }
        ensures { send.new ≡ record send.old { inside = false } }
    {
        let at = self.control_at();
        self.table
            .shared
            .fetch_and::<GoOut>(&mut send.seat, at, !INSIDE);
    }
}
