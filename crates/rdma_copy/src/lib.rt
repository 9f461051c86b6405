// Copies between the windows of two units (LoPAR, "H_COPY_RDMA"): a copy moves all its bytes or none.
#![tactic(auto)]

mod copy;

pub use copy::{CopyAnswer, CopyRecord, copied_pieces, copy_rdma};
