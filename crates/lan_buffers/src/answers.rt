// What the calls of a port answer.
use tce_window::HoldFault;

/// What became of a buffer to be posted.
#[derive(Clone, Copy, Debug, PartialEq, Eq)]
pub enum AddAnswer {
    /// It is the post of this number of its session, from 0.
    Posted {
        number: u64,
    },
    /// The valid bit is off, or the length is not 22 to 65,536 bytes.
    Parameter,
    /// As many buffers as there are slots are posted and not harvested, or there are 8 other
    /// lengths.
    Resource {
        /// The posts of the session.
        posted: u64,
        /// Its harvests.
        harvested: u64,
        /// The number of its different lengths.
        sizes: u8,
    },
}

/// What a port's owner read of the next receive entry.
#[derive(Clone, Copy, Debug, PartialEq, Eq)]
pub enum Harvest {
    /// Entry `number` of the session, from 0: a frame of `len` bytes in the buffer of this
    /// correlator.
    Frame {
        number: u64,
        len: u32,
        correlator: u64,
    },
    /// Entry `number` of the session: the buffer of this correlator, with no frame.
    Blank {
        number: u64,
        correlator: u64,
    },
    /// Entry `number` is not there yet; its slot has this high half, of the lap before or 0.
    Nothing {
        number: u64,
        high: u64,
    },
}

/// What became of a frame that was offered to a port.
#[derive(Clone, Copy, Debug, PartialEq, Eq)]
pub enum Deliver {
    /// It was written to the buffer of this post.
    Done { post: u64 },
    /// The buffer of this post is not granted for writing. It was given back blank, and the frame
    /// dropped.
    Ungranted { post: u64, fault: HoldFault },
    /// No buffer was posted that is long enough. The frame was dropped.
    NoSize,
    /// Each that is long enough was taken. The frame was dropped.
    NoBuffer,
    /// Another sender has the port's turn, by this word of it. Nothing changed.
    Turn { word: u64 },
    /// A page of the buffer is in use, by this word of it. Nothing changed.
    InUse { page: u16, word: u64 },
    /// The port is closed, by this control word. Nothing changed.
    Closed { control: u64 },
    /// Nothing changed.
    NoMemory,
}
