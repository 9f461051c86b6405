// A frame for a port whose window answers that a page is in use.
ghost use Rattle.std.specs.Prelude.{◌≡◌, ◌⊎◌, ◌<◌, ℕ, length, get_or};
ghost use Rattle.tce_window.specs.declared.piece.Piece.{Piece};

use super::{RECEIVER, SENDER, begin, buffer, post};
use lan_buffers::{Deliver, PlainPort};
use std::alloc::Global;
use tce_window::{GuestPort, Held, HoldFault, PlainWindow, Right, WindowPort};
use vio_num::NoMemory;

/// A port that holds no range: the first page of a range that could be held is in use by word 77.
#[derive(Drop)]
struct InUse<G> {
    port: G,
    times: u64,
}

impl<G: WindowPort> WindowPort for InUse<G> {
    ghost use Rattle.std.specs.Prelude.{true, None, []};

    ghost is_shared = { true };

    ghost state = { λ busy. record (G.state busy.port) {
      in_use = busy.times;
      strokes = λ p. None;
      laid = λ p. [];
      taken = λ p. 0;
    } };

    ghost begins = { λ busy e. G.begins busy.port e };
}

impl<G: GuestPort> GuestPort for InUse<G> {
    ghost use Rattle.rdma_copy.specs.Handless.{HasNoPage, no_page_still};

    // It takes no page in hand.
    ghost fits = { λ busy held. G.fits busy.port held × HasNoPage held };

    ghost found = { λ busy page word. (word ≡ 77) ⊎ G.found busy.port page word };

    ghost written_fits = { λ busy old new fits follows.
        (G.written_fits busy.port old new fits.0 follows, no_page_still old new follows fits.1) };

    fn hold(&mut self, ioba: u64, len: u32, right: Right) -> Result<Held, HoldFault> {
        let times = self.times.saturating_add(1);
        match self.port.hold(ioba, len, right) {
            Ok(held) => {
                let page = first_page(&held);
                self.port.give_back(held);
                self.times = times;
                Err(HoldFault::InUse { page, word: 77 })
            }
            Err(HoldFault::InUse { page, word }) => {
                self.times = times;
                Err(HoldFault::InUse { page, word })
            }
            Err(fault) => Err(fault),
        }
    }

    fn give_back(&mut self, held: Held) {
        self.port.give_back(held);
    }
}

// Finds the page of the range's first piece.
fn first_page(held: &Held) -> u16
    requires { 0 < length held.now.pieces }
    ensures { (d : Piece) → result ≡ (get_or held.now.pieces 0 d).page }
{
    held.pieces()[0].page
}

// Offers a frame of 60 bytes to a port.
fn offer_to<G: GuestPort>(port: &mut PlainPort, window: &mut G) -> Deliver
    requires { (G.state window.old).held_count ≡ 0 }
    ensures { (G.state window.new).held_count ≡ 0 }
{
    port.deliver(window, &[0x5A; 60], SENDER)
}

// Offers a frame to a port whose window is in use, and then one to it over the window itself.
fn offer_twice(port: &mut PlainPort, busy: &mut InUse<PlainWindow>) -> (Deliver, Deliver)
    requires { busy.old.port.held_count ≡ 0 }
{
    let refused = offer_to(port, busy);
    (refused, offer_to(port, &mut busy.port))
}

// The same of a new port, how often the buffer was in use, and how many frames were dropped.
fn offered(alloc: Global) -> Result<((Deliver, Deliver), u64, u64), NoMemory> {
    let mut port = PlainPort::open(alloc, RECEIVER, 4)?;
    port.reserve(1)?;
    begin(&mut port);
    let _posted = post(&mut port, buffer(256, 4096), 4096)?;
    let mut busy = InUse {
        port: PlainWindow::open(alloc, RECEIVER, 18)?,
        times: 0,
    };
    let answers = offer_twice(&mut port, &mut busy);
    Ok((answers, busy.times, port.drops()))
}

#[test]
fn a_buffer_in_use_keeps_its_place_and_counts_no_drop(rt: HostRuntime) -> Result<(), NoMemory> {
    let refused = Deliver::InUse { page: 1, word: 77 };
    let taken = Deliver::Done { post: 0 };
    assert_eq!(rt; offered(rt.alloc())?, ((refused, taken), 1, 0));
    Ok(())
}
