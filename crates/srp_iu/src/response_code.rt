// Response codes: the answer to a request that is no command's SCSI status.
ghost use Rattle.std.specs.Prelude.{◌≡◌};
ghost use Rattle.srp_iu.specs.Response.{response_code, response_data};

/// The code in the response data of a response (SRP, "SRP_RSP response", RSP_CODE).
#[derive(Clone, Copy, Debug, PartialEq, Eq)]
pub enum ResponseCode {
    /// 0x00: a task management function is complete.
    Complete,
    /// 0x02: fields of the request are invalid.
    FieldsInvalid,
    /// 0x04: the task management function is not supported.
    NotSupported,
}

impl ResponseCode {
    /// The number of the code.
    pub fn code(self) -> u8
        ensures { result ≡ response_code self }
    {
        match self {
            ResponseCode::Complete => 0x00,
            ResponseCode::FieldsInvalid => 0x02,
            ResponseCode::NotSupported => 0x04,
        }
    }

    /// The four bytes of response data that carry the code.
    pub fn data(self) -> [u8; 4]
        ensures { result ≡ response_data self }
    {
        [0, 0, 0, self.code()]
    }
}
