// The hypervisor calls that reach a client unit.
use unit_region::EntryCall;

/// A call of a row of client units, with its arguments.
#[derive(Clone, Copy, Debug, PartialEq, Eq)]
pub(crate) enum ClientCall {
    /// On the translation entries of its own window.
    Entry(EntryCall),
    /// On its queue, or its partner's.
    Queue(QueueCall),
}

/// A call on a unit's queue, or on its partner's.
#[derive(Clone, Copy, Debug, PartialEq, Eq)]
pub(crate) enum QueueCall {
    /// H_REG_CRQ, with the queue's length in bytes.
    Register { address: u64, length: u64 },
    /// H_FREE_CRQ.
    Free,
    /// H_SEND_CRQ, with the halves of the entry.
    Send { high: u64, low: u64 },
    /// H_ENABLE_CRQ.
    Enable,
}
