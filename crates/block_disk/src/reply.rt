// What a command answers: status, sense data, and how much data it gave, used and lacked.
ghost use Rattle.std.specs.Prelude.{◌≡◌};
ghost use Rattle.block_disk.specs.Sense.{sense_data};

/// The answer to a command (SPC, "Status" and "Sense data").
#[derive(Clone, Copy, Debug, PartialEq, Eq)]
pub struct ScsiReply {
    /// 0x00 is GOOD, 0x02 CHECK CONDITION.
    pub status: u8,
    /// Sense data in fixed format, with CHECK CONDITION alone.
    pub sense: Option<[u8; 18]>,
    /// The bytes of data-in that the command gave.
    pub in_len: u32,
    /// The bytes of data-out that the command used.
    pub out_used: u32,
    /// The bytes of data-out that a write lacked.
    pub out_short: u32,
    /// The index, within the command, of the device call that failed.
    pub fault: Option<u32>,
}

// Sense data in fixed format for a key, an additional sense code and its qualifier.
pub(crate) fn sense_data(cause: [u8; 3]) -> [u8; 18]
    ensures { result ≡ sense_data cause }
{
    let [key, code, qualifier] = cause;
    [
        0x70, 0, key, 0, 0, 0, 0, 10, 0, 0, 0, 0, code, qualifier, 0, 0, 0, 0,
    ]
}

impl ScsiReply {
    ghost use Rattle.std.specs.Prelude.{◌≡◌};
    ghost use Rattle.block_disk.specs.Disk.{good, refused, failed};

    // GOOD.
    pub(crate) fn good(in_len: u32, out_used: u32) -> ScsiReply
        ensures { result ≡ good in_len out_used }
    {
        ScsiReply {
            status: 0x00,
            sense: None,
            in_len,
            out_used,
            out_short: 0,
            fault: None,
        }
    }

    // CHECK CONDITION before any block moved; a write lacked `out_short` bytes of data-out.
    pub(crate) fn refused(cause: [u8; 3], out_short: u32) -> ScsiReply
        ensures { result ≡ refused cause out_short }
    {
        ScsiReply {
            status: 0x02,
            sense: Some(sense_data(cause)),
            in_len: 0,
            out_used: 0,
            out_short,
            fault: None,
        }
    }

    // CHECK CONDITION because a device call failed.
    pub(crate) fn failed(cause: [u8; 3], out_used: u32, call: u32) -> ScsiReply
        ensures { result ≡ failed cause out_used call }
    {
        ScsiReply {
            status: 0x02,
            sense: Some(sense_data(cause)),
            in_len: 0,
            out_used,
            out_short: 0,
            fault: Some(call),
        }
    }
}
