// Ports that answer that a page is in use.
ghost use Rattle.std.specs.Prelude.{◌≡◌, ◌⊎◌, ◌<◌, ℕ, length, get_or};
ghost use Rattle.tce_window.specs.declared.piece.Piece.{Piece};

use super::{COPIER, SOURCE, TARGET, is_blank, window};
use rdma_copy::{CopyAnswer, copy_rdma};
use std::alloc::Global;
use tce_window::{GuestPort, Held, HoldFault, PlainWindow, Right, WindowPort};
use vio_num::NoMemory;

/// A port that holds no range: the first page of a range that could be held is in use by word 77.
#[derive(Drop)]
struct InUse<G> {
    port: G,
    times: u64,
}

impl<G: WindowPort> WindowPort for InUse<G> {
    ghost use Rattle.std.specs.Prelude.{true, None, []};

    ghost is_shared = { true };

    ghost state = { λ busy. record (G.state busy.port) {
      in_use = busy.times;
      strokes = λ p. None;
      laid = λ p. [];
      taken = λ p. 0;
    } };

    ghost begins = { λ busy e. G.begins busy.port e };
}

impl<G: GuestPort> GuestPort for InUse<G> {
    ghost use Rattle.rdma_copy.specs.Handless.{HasNoPage, no_page_still};

    // It takes no page in hand.
    ghost fits = { λ busy held. G.fits busy.port held × HasNoPage held };

    ghost found = { λ busy page word. (word ≡ 77) ⊎ G.found busy.port page word };

    ghost written_fits = { λ busy old new fits follows.
        (G.written_fits busy.port old new fits.0 follows, no_page_still old new follows fits.1) };

    fn hold(&mut self, ioba: u64, len: u32, right: Right) -> Result<Held, HoldFault> {
        let times = self.times.saturating_add(1);
        match self.port.hold(ioba, len, right) {
            Ok(held) => {
                let page = first_page(&held);
                self.port.give_back(held);
                self.times = times;
                Err(HoldFault::InUse { page, word: 77 })
            }
            Err(HoldFault::InUse { page, word }) => {
                self.times = times;
                Err(HoldFault::InUse { page, word })
            }
            Err(fault) => Err(fault),
        }
    }

    fn give_back(&mut self, held: Held) {
        self.port.give_back(held);
    }
}

// Finds the page of the range's first piece.
fn first_page(held: &Held) -> u16
    requires { 0 < length held.now.pieces }
    ensures { (d : Piece) → result ≡ (get_or held.now.pieces 0 d).page }
{
    held.pieces()[0].page
}

// Tells whether the first page is in use.
fn is_busy(answer: CopyAnswer) -> bool {
    matches!(answer, CopyAnswer::Busy { page: 0, word: 77 })
}

// Tells whether copies to a port in use, from it, and from behind its end are refused so.
fn are_refused(
    alloc: Global,
    plain: &mut PlainWindow,
    busy: &mut InUse<PlainWindow>,
) -> (bool, bool, bool)
    requires plain { plain.old.held_count ≡ 0 }
    requires busy { busy.old.port.held_count ≡ 0 }
{
    let written = copy_rdma(alloc, plain, 0, busy, 0, 4096, COPIER);
    let read = copy_rdma(alloc, busy, 0, plain, 0, 4096, COPIER);
    let past = copy_rdma(alloc, busy, 8192, plain, 0, 1, COPIER);
    let is_past = matches!(past, CopyAnswer::SourceParm(HoldFault::Past { entry: 2 }));
    (is_busy(written), is_busy(read), is_past)
}

// The same of new windows, how often a page was in use, and whether no page has a stroke then.
fn refused_copies(alloc: Global) -> Result<((bool, bool, bool), u64, bool), NoMemory> {
    let mut plain = window(alloc, SOURCE, 2, None)?;
    let mut busy = InUse {
        port: window(alloc, TARGET, 2, None)?,
        times: 0,
    };
    let are_refused = are_refused(alloc, &mut plain, &mut busy);
    let are_blank = is_blank(&mut plain) && is_blank(&mut busy.port);
    Ok((are_refused, busy.times, are_blank))
}

#[test]
fn a_page_in_use_is_named_of_either_side(rt: HostRuntime) -> Result<(), NoMemory> {
    let want = ((true, true, true), 2, true);
    assert_eq!(rt; refused_copies(rt.alloc())?, want);
    Ok(())
}
