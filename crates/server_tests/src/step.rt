// One step of a script: what a unit or its client does, and what is then seen.
use super::units::Unit;
use vio_num::{Entry, Moved};

/// A step, which goes so or otherwise.
#[derive(Clone, Copy)]
pub(super) enum Step {
    /// A turn of the unit has this answer.
    Turn(Moved),
    /// This many turns move.
    Turns(u16),
    /// Turns come up to one that does not move, also behind one that found no memory.
    Settle,
    /// The client registers its queue.
    Register,
    /// The client frees its queue.
    Free,
    /// The client sends an entry.
    Send(Entry),
    /// The client sends the entry of a unit of this length at this address.
    SendUnit(u16, u64),
    /// The client sends this many times an entry.
    SendAll(u16, Entry),
    /// The client takes the next entry that the unit put: it is this one.
    Take(Entry),
    /// It is that of an answer of this length and this tag.
    TakeAnswer(u16, u64),
    /// The client takes some entry.
    TakeAny,
    /// The client takes this many entries, whatever they are.
    TakeAll(u16),
    /// The unit put no entry more.
    TakeNone,
    /// The client writes a unit into a slot, and sends its entry.
    Ask(u8, Unit),
    /// It does so in slot 1 with TEST UNIT READY, this many times, with tags from 2 on.
    AskAll(u16),
    /// The bytes of a unit lie in a slot.
    Shows(u8, Unit),
    /// A response of this status, these flags, this data-out residual and this data-in residual lies in slot 1.
    Says(u8, u8, u32, u32),
    /// The client writes this byte 512 times from an address on.
    Fill(u64, u8),
    /// It lies there 512 times.
    Holds(u64, u8),
    /// The client writes a table of this many descriptors, of pieces of this length from 98,304 on, and a byte of its
    /// own to the front of each.
    Table(u32, u32),
    /// The client puts a value into the entry of an address of its window.
    PutTce(u64, u64),
    /// The history has this many rows, of which this many are answered.
    Rows(usize, usize),
    /// A row has data-out, data-in and an answer of these lengths.
    Row(usize, (usize, usize, usize)),
    /// The disk step of a row failed at the device's call of this number, from 0.
    Fault(usize, u32),
}
