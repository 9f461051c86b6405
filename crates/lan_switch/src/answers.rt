// What the calls of a switch answer.
ghost use Rattle.std.specs.Prelude.{◌≡◌};

use arrayvec::ArrayVec;
use lan_buffers::Deliver;
use tce_window::{HoldFault, Piece};
use vio_num::{Bytes, Hrc, UnitId};

/// The code of a call, and the word that it rests on.
#[derive(Clone, Copy, Debug, PartialEq, Eq)]
pub struct LanAnswer {
    /// The code.
    pub code: Hrc,
    /// The word that was read, where the code is Busy; else 0.
    pub word: u64,
}

impl LanAnswer {
    /// This code, with no word.
    pub(crate) fn plain(code: Hrc) -> LanAnswer
        ensures code { result.code ≡ code }
        ensures word { result.word ≡ 0 }
    {
        LanAnswer { code, word: 0 }
    }
}

/// A port that a frame was offered to, and what it made of it.
#[derive(Clone, Copy, Debug, PartialEq, Eq)]
pub struct Offer {
    /// The port's unit.
    pub unit: UnitId,
    /// What became of the frame there.
    pub answer: Deliver,
}

impl Default for Offer {
    fn default() -> Offer {
        Offer {
            unit: UnitId {
                partition: 0,
                unit: 0,
            },
            answer: Deliver::NoSize,
        }
    }
}

/// What became of a frame that was sent (LoPAR, "H_SEND_LOGICAL_LAN").
#[derive(Debug, Drop)]
pub struct SendRecord {
    /// The code.
    pub code: Hrc,
    /// The frame's number among those of its sender, from 1, where the code is Success or Dropped.
    pub frame: Option<u64>,
    /// Why a part of the frame could not be read, where the code is SourceParm, or Busy for a page of the
    /// sender's.
    pub fault: Option<HoldFault>,
    /// The pieces that were read, where the frame has a number.
    pub from: ArrayVec<Piece, 102>,
    /// The frame's bytes, where it has a number.
    pub bytes: Bytes,
    /// The ports that the frame was offered to, in ascending order, each with what it made of it.
    pub offers: ArrayVec<Offer, 15>,
}
