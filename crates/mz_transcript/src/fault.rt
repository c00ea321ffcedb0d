//! Why bytes are no printed run.

ghost use Rattle.std.specs.Prelude.{◌≡◌};
ghost use Rattle.mz_transcript.specs.declared.fault.RunFault.TheVariants.{NoMemory};

use std::alloc::{AllocError, AllocFailed};
use thiserror::Error;

/// Why there is no run.
#[derive(Debug, Drop, Error)]
pub enum RunFault {
    /// The first line that is bad, counted from 1.
    #[error("bad run: line {line}")]
    Bad { line: u64 },
    /// There wasn't memory enough.
    #[error("out of memory")]
    NoMemory,
}

impl From<AllocError> for RunFault {
    ghost from_gives = { λ _ e. e ≡ NoMemory };

    fn from(_e: AllocError) -> RunFault {
        RunFault::NoMemory
    }
}

impl<T: Drop> From<AllocFailed<T>> for RunFault {
    ghost from_gives = { λ _ e. e ≡ NoMemory };

    fn from(_e: AllocFailed<T>) -> RunFault {
        RunFault::NoMemory
    }
}
