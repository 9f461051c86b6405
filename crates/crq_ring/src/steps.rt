// The rule of a ring's table, its loads and stores, and how its seats part and join.
ghost use Rattle.crq_ring.specs.RingCuts.{sender_part, receiver_part, front_of, room_of, told_by, rejoined, spent};
ghost use Rattle.crq_ring.specs.RingSteps.{probed, staged, sent, looked, read, cleared, heard_room, heard_front};
ghost use Rattle.crq_ring.specs.RingSteps.{showed, entered, went_out, began, closed, zeroed};

use crate::view::{RingKey, RingView};
use atomic_table::{Join, Play, Split, TableRule};

/// The rule. The table is told its number of slots, and how it begins.
pub struct RingRule;

impl TableRule<(), RingView, RingKey> for RingRule {
    ghost use Rattle.crq_ring.specs.RingRule.{holds, opened};

    ghost holds = { holds };

    ghost first = { opened };
}

/// The sender's load of its next slot's high half.
pub struct Probe;

impl Play<(), RingView> for Probe {
    ghost then = { probed };
}

/// The sender's store of the low half.
pub struct StageLow;

impl Play<(), RingView> for StageLow {
    ghost then = { staged };
}

/// The sender's store of the high half.
pub struct SendHigh;

impl Play<(), RingView> for SendHigh {
    ghost then = { sent };
}

/// The receiver's load of its next slot's high half.
pub struct Look;

impl Play<(), RingView> for Look {
    ghost then = { looked };
}

/// The receiver's load of the low half.
pub struct ReadLow;

impl Play<(), RingView> for ReadLow {
    ghost then = { read };
}

/// The receiver's store that clears the high half.
pub struct ClearHigh;

impl Play<(), RingView> for ClearHigh {
    ghost then = { cleared };
}

/// The sender's load after it was handed a room.
pub struct HearRoom;

impl Play<(), RingView> for HearRoom {
    ghost then = { heard_room };
}

/// The receiver's load after it was handed a front.
pub struct HearFront;

impl Play<(), RingView> for HearFront {
    ghost then = { heard_front };
}

/// The sender's load of the control word.
pub struct ShowControl;

impl Play<(), RingView> for ShowControl {
    ghost then = { showed };
}

/// The sender's exchange on an open control word, which sets its bit.
pub struct GoIn;

impl Play<(), RingView> for GoIn {
    ghost then = { entered };
}

/// The sender's clearing of its bit.
pub struct GoOut;

impl Play<(), RingView> for GoOut {
    ghost then = { went_out };
}

/// The receiver's exchange on the control word of a closed queue.
pub struct BeginNext;

impl Play<(), RingView> for BeginNext {
    ghost then = { began };
}

/// The receiver's exchange on the control word of an open queue.
pub struct Shut;

impl Play<(), RingView> for Shut {
    ghost then = { closed };
}

/// The receiver's store of 0 in a slot of a closed queue.
pub struct ZeroSlot;

impl Play<(), RingView> for ZeroSlot {
    ghost then = { zeroed };
}

/// Parts the first seat into the two ends.
pub struct PartEnds;

impl Split<RingView> for PartEnds {
    ghost left = { sender_part };

    ghost right = { receiver_part };
}

/// Makes a front of what the sender knows.
pub struct CutFront;

impl Split<RingView> for CutFront {
    ghost left = { λ v. v };

    ghost right = { front_of };
}

/// Makes a room of what the receiver knows.
pub struct CutRoom;

impl Split<RingView> for CutRoom {
    ghost left = { λ v. v };

    ghost right = { room_of };
}

/// Hands an end a note.
pub struct HandNote;

impl Join<RingView> for HandNote {
    ghost both = { told_by };

    ghost spent = { spent };
}

/// Makes the two ends one.
pub struct JoinEnds;

impl Join<RingView> for JoinEnds {
    ghost both = { rejoined };

    ghost spent = { spent };
}
