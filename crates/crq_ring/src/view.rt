// What the seats at a ring's table know. These types are for the rule alone: no value of them is made.
use crate::rows::PipeRow;
use std::collections::LinkedList;

/// What a seat is for.
#[derive(Clone, Copy)]
pub enum Role {
    /// Both ends in one, before they part and after they meet again.
    Both,
    Sender,
    Receiver,
    /// What the sender had put.
    Front,
    /// What the receiver had taken.
    Room,
    /// It was joined to another.
    Spent,
}

/// What a table is told when it is made.
#[derive(Clone, Copy)]
pub struct RingKey {
    pub slots: usize,
    /// Whether the ring begins in session 1 with its sender inside, or closed.
    pub begun: bool,
}

/// What one seat knows.
pub struct RingView {
    pub role: Role,
    pub slots: u64,
    /// Whether the sender is inside, and whether the queue is open, each known to its own end.
    pub inside: bool,
    pub is_open: bool,
    /// The receiver's session, or the one that the sender entered last.
    pub session: u64,
    /// A session that the sender saw, no earlier than its own.
    pub shown: u64,
    /// What this end put, or took, in all sessions.
    pub own: LinkedList<PipeRow>,
    /// What it knows that the other end took, or put.
    pub other: LinkedList<PipeRow>,
    /// What the last note that it was handed said of its own list, and of the other end's.
    pub told_own: LinkedList<PipeRow>,
    pub told_other: LinkedList<PipeRow>,
    /// What lies in the low half of the sender's next slot.
    pub low: u64,
    /// How many slots were zeroed since the queue was closed.
    pub swept: u64,
    /// How many words it read on which an answer may rest, and the last of them.
    pub reads: u64,
    pub word: u64,
}
