// What the calls of an end answer.
use vio_num::Entry;

/// What became of a registration (LoPAR, "H_REG_CRQ").
#[derive(Clone, Copy, Debug, PartialEq, Eq)]
pub enum RegAnswer {
    /// The queue is registered, in a new session without entries.
    Success,
    /// The same, while the partner's queue is not: `control` is its control word.
    Closed { control: u64 },
    /// The address or the length is not that of the unit's queue. Nothing changed.
    Parameter,
    /// The queue is registered already. Nothing changed.
    Resource,
    /// The kept event found the slot of this number full, with this high half in it. It is still kept.
    Busy { number: u64, held: u64 },
}

/// What became of a call that frees a queue (LoPAR, "H_FREE_CRQ").
#[derive(Clone, Copy, Debug, PartialEq, Eq)]
pub enum FreeAnswer {
    /// The session is closed, and its entries that were not taken are lost.
    Success,
    /// The queue is not registered. Nothing changed.
    Parameter,
    /// A sender is inside, as the queue's control word shows. Nothing changed.
    Busy { control: u64 },
}

/// What became of an entry that was sent (LoPAR, "H_SEND_CRQ").
#[derive(Clone, Copy, Debug, PartialEq, Eq)]
pub enum SendAnswer {
    /// It lies in the partner's queue, and has this place in its session, from 0.
    Success { number: u64 },
    /// Its first byte is below 0x80. Nothing changed.
    Parameter,
    /// The own queue is not registered. Nothing changed.
    NotRegistered,
    /// The partner's queue is not registered: `control` is its control word.
    Closed { control: u64 },
    /// It found the slot of this number full, with this high half in it. Nothing was put.
    Dropped { number: u64, held: u64 },
}

/// What a poll of the own queue found.
#[derive(Clone, Copy, Debug, PartialEq, Eq)]
pub enum PollAnswer {
    /// The entry with this place in its session, from 0.
    Got { number: u64, entry: Entry },
    /// The slot of this number is empty.
    Empty { number: u64 },
    /// The own queue is not registered. Nothing changed.
    NotRegistered,
}

/// What became of a kept event.
#[derive(Clone, Copy, Debug, PartialEq, Eq)]
pub enum EventAnswer {
    /// None is kept; or the partner's queue is not registered, and it is kept no more.
    Nothing,
    /// It lies in the partner's queue.
    Put,
    /// It found the slot of this number full, with this high half in it. It is still kept.
    Kept { number: u64, held: u64 },
}
