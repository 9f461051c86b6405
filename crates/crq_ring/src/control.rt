// The receiver's calls on a ring's control word, and the sender's load of it.
ghost use Rattle.std.specs.Prelude.{◌≡◌, ◌+◌, ◌*◌, ◌<◌, true, false, IfSome, IfNone};
ghost use Rattle.crq_ring.specs.RingSessions.{BeginsSession, EndsSession, FindsSender, SeesControl};
ghost use Rattle.crq_ring.specs.RingSteps.{MaySweep, Sweeps};

use crate::ends::{RecvEnd, SendEnd};
use crate::ring::Ring;
use crate::steps::{BeginNext, ShowControl, Shut, ZeroSlot};
use crate::view::RingView;
use atomic_table::Seat;

/// Bit 0 of a control word: the queue is open.
pub(crate) const OPEN: u64 = 1;

/// Bit 1: a sender is inside.
pub(crate) const INSIDE: u64 = 2;

impl Ring {
    // The place of the control word in the table.
    pub(crate) fn control_at(&self) -> usize
        ensures { result ≡ 2 * self.now.slots + 8 }
    {
        2 * self.slots + 8
    }

    /// Opens the next session of a closed queue, in which nothing was put and nothing taken, and gives its
    /// number.
    pub fn begin(&self, recv: &mut RecvEnd) -> u64
        requires ours { recv.old.ring ≡ self.now.id }
        requires closed { recv.old.is_open ≡ false }
        requires spare { 0 < recv.old.renewals }
        ensures { BeginsSession recv.old result recv.new }
    {
        let shared = &self.table.shared;
        let session = recv.session + 1;
        let closed = recv.session * 8;
        let open = session * 8 + OPEN;
        let at = self.control_at();
        shared.compare_exchange::<BeginNext>(&mut recv.seat, at, closed, open);
        recv.session = session;
        recv.is_open = true;
        recv.renewals -= 1;
        recv.taken_from = recv.taken.len();
        recv.next = 0;
        session
    }

    /// Ends the session of an open queue and zeroes its slots, unless the control word shows a sender inside:
    /// then that is given, and nothing changes. Once it has ended no sender puts anything in it.
    pub fn end(&self, recv: &mut RecvEnd) -> Option<u64>
        requires ours { recv.old.ring ≡ self.now.id }
        requires is_open { recv.old.is_open ≡ true }
        ensures ended { IfNone result (EndsSession recv.old recv.new) }
        ensures busy { IfSome result (λ word. FindsSender recv.old word recv.new) }
    {
        let shared = &self.table.shared;
        let at = self.control_at();
        let closed = recv.session * 8;
        let open = closed + OPEN;
        let word = shared.compare_exchange::<Shut>(&mut recv.seat, at, open, closed);
        if word != open {
            return Some(word);
        }
        self.zero_slots(&mut recv.seat);
        recv.is_open = false;
        None
    }

    // Zeroes the slots of a queue that was closed.
    fn zero_slots(&self, seat: &mut Seat<(), RingView>)
        requires ours { seat.old.table_id ≡ self.now.id }
        requires closed { MaySweep self.now.slots seat.old.me }
        ensures ours { seat.new.table_id ≡ seat.old.table_id }
        ensures zeroes { Sweeps seat.old.me seat.new.me self.now.slots }
    {
        for slot in 0..self.slots {
            self.table.shared.store::<ZeroSlot>(seat, 2 * slot, 0);
        }
    }

    /// Reads the control word.
    pub fn control(&self, send: &mut SendEnd) -> u64
        requires ours { send.old.ring ≡ self.now.id }
        ensures { SeesControl send.old result send.new }
    {
        self.table
            .shared
            .load::<ShowControl>(&mut send.seat, self.control_at())
    }
}
