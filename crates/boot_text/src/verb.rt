// What a script line does.
use vio_num::{Bytes, Mac};

/// What a script line does. An address is one of the unit's region, a length counts bytes, and a command's
/// `pieces` are the descriptors of its data, which stand in the region at `table` where one is given.
#[derive(Debug, Drop)]
pub enum Verb {
    /// Logs in to the server unit.
    Login,
    /// Frees the queue, then logs in.
    Reset,
    /// Sends I_LOGOUT.
    Logout,
    /// Sends TEST UNIT READY.
    Tur,
    /// Sends READ(10) of 1 to 256 blocks of 512 bytes.
    Read {
        lba: u64,
        blocks: u64,
        at: u64,
        pieces: u16,
        table: Option<u64>,
    },
    /// Sends WRITE(10) of 1 to 256 blocks of 512 bytes.
    Write {
        lba: u64,
        blocks: u64,
        at: u64,
        pieces: u16,
        table: Option<u64>,
    },
    /// Sends a command of 1 to 16 bytes without data.
    Command {
        cdb: Bytes,
    },
    /// Sends a command of 1 to 16 bytes with data-in of 1 to 131,072 bytes.
    CommandIn {
        cdb: Bytes,
        at: u64,
        len: u64,
        pieces: u16,
        table: Option<u64>,
    },
    /// Sends a command of 1 to 16 bytes with data-out of 1 to 131,072 bytes.
    CommandOut {
        cdb: Bytes,
        at: u64,
        len: u64,
        pieces: u16,
        table: Option<u64>,
    },
    /// Sends a task management request: a function below 256, and the tag that it is on.
    Task {
        function: u64,
        tag: u64,
    },
    /// Takes this many answers or frames.
    Take {
        count: u64,
    },
    /// Reads the data of the command with this tag.
    Data {
        tag: u64,
    },
    /// Registers the port.
    Open,
    /// Frees the port.
    Close,
    /// Posts 1 to 1,024 receive buffers of this length, one behind the other.
    Post {
        at: u64,
        len: u64,
        count: u64,
    },
    /// Writes a frame of 14 to 65,527 bytes and sends it.
    Send {
        mac: Mac,
        len: u64,
        seed: u64,
        at: u64,
    },
    /// Changes the port's address.
    ChangeMac {
        mac: Mac,
    },
    /// Changes the port's reception and filters.
    Multicast {
        control: u64,
        mac: Mac,
    },
    /// Writes 1 to 65,536 bytes of a pattern.
    Fill {
        at: u64,
        len: u64,
        seed: u64,
    },
    /// Writes these 1 to 256 bytes.
    Poke {
        at: u64,
        bytes: Bytes,
    },
    /// Reads 1 to 256 bytes.
    Peek {
        at: u64,
        len: u64,
    },
    /// Lets an entry of the window name a page, for reading, for writing, for both or for neither.
    Tce {
        entry: u64,
        page: u64,
        readable: bool,
        writable: bool,
    },
    /// Makes the hypervisor call of this number.
    Hcall {
        number: u64,
        arguments: [u64; 9],
    },
    /// Fails the whole partition.
    Fail,
}

/// The word that says what a script line does.
#[derive(Clone, Copy, Debug, PartialEq, Eq)]
pub(crate) enum VerbName {
    Login,
    Reset,
    Logout,
    Tur,
    Read,
    Write,
    Command,
    Task,
    Take,
    Data,
    Open,
    Close,
    Post,
    Send,
    ChangeMac,
    Multicast,
    Fill,
    Poke,
    Peek,
    Tce,
    Hcall,
    Fail,
}
