//! What a call has to say.

ghost use Rattle.std.specs.Prelude.{◌≡◌, IfOk};
ghost use Rattle.mz_run.specs.Top.{bad_trace};

use crate::status::Status;
use std::alloc::{AllocError, Global};

/// What a call is to write, and the status with which it ends once that is written.
#[derive(Debug, Drop)]
pub struct Reply {
    pub status: Status,
    pub output: Vec<u8>,
}

impl Reply {
    /// This text, and this status.
    pub fn new(alloc: Global, status: Status, text: &[u8]) -> Result<Reply, AllocError>
        ensures { IfOk result (λ reply. (reply.status ≡ status) × (reply.output.items ≡ text.now)) }
    {
        let output = text.to_vec(alloc)?;
        Ok(Reply { status, output })
    }

    /// A line of a trace is refused.
    pub fn bad_trace(alloc: Global, status: Status, line: u64, why: u8) -> Result<Reply, AllocError>
        ensures { IfOk result (λ reply. (reply.status ≡ status) × (reply.output.items ≡ bad_trace line why)) }
    {
        let text = format!(in alloc; "bad trace: line {line}, why {why}\n")?;
        let output = text.into_bytes();
        Ok(Reply { status, output })
    }
}
