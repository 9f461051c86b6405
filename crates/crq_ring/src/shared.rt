// A ring with both its ends in one hand, as a queue of one direction.
ghost use Rattle.std.specs.Prelude.{◌≡◌, true};

use crate::ends::{RecvEnd, SendEnd};
use crate::port::{CrqPort, Poll, Put};
use crate::ring::Ring;
use vio_num::Entry;

/// The shared form of a queue of one direction: a ring and its two ends, as long as it borrows them. Both are
/// in one session, with the sender inside.
#[derive(Drop)]
pub struct SharedPipe<'a> {
    pub ring: &'a Ring,
    pub send: &'a mut SendEnd,
    pub recv: &'a mut RecvEnd,
    ghost sends: { send.now.ring ≡ ring.now.id },
    ghost receives: { recv.now.ring ≡ ring.now.id },
    ghost inside: { send.now.inside ≡ true },
    ghost is_open: { recv.now.is_open ≡ true },
    ghost together: { send.now.session ≡ recv.now.session },
}

impl SharedPipe<'_> {
    ghost use Rattle.crq_ring.specs.SharedPipe.{TellsSender, TellsReceiver};

    // Tells the sender what the receiver took.
    fn tell_sender(&mut self)
        ensures { TellsSender self.old self.new }
    {
        let room = self.ring.room(self.recv);
        self.ring.know(self.send, room);
    }

    // Tells the receiver what the sender put.
    fn tell_receiver(&mut self)
        ensures { TellsReceiver self.old self.new }
    {
        let front = self.ring.front(self.send);
        self.ring.learn(self.recv, front);
    }
}

impl CrqPort for SharedPipe<'_> {
    ghost use Rattle.crq_ring.specs.SharedPipe.{state_of};

    ghost state = { state_of };

    // The sender knows all that was taken before it puts, and the receiver learns what it knew.
    fn put(&mut self, entry: Entry) -> Put {
        self.tell_sender();
        let put = self.ring.put(self.send, entry);
        self.tell_receiver();
        put
    }

    // The receiver knows all that was put before it polls, and the sender learns what it took.
    fn poll(&mut self) -> Poll {
        self.tell_receiver();
        let poll = self.ring.poll(self.recv);
        self.tell_sender();
        poll
    }
}
