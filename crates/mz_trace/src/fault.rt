//! Why bytes are no trace.

ghost use Rattle.std.specs.Prelude.{◌≡◌};
ghost use Rattle.mz_trace.specs.declared.fault.TraceFault.TheVariants.{NoMemory};

use std::alloc::{AllocError, AllocFailed};
use thiserror::Error;

/// Why there is no trace.
#[derive(Debug, Drop, Error)]
pub enum TraceFault {
    /// The first line that is bad, counted from 1, and the number of the first why that holds of it.
    #[error("bad trace: line {line}, why {why}")]
    Bad { line: u64, why: u8 },
    /// There wasn't memory enough.
    #[error("out of memory")]
    NoMemory,
}

impl From<AllocError> for TraceFault {
    ghost from_gives = { λ _ e. e ≡ NoMemory };

    fn from(_e: AllocError) -> TraceFault {
        TraceFault::NoMemory
    }
}

impl<T: Drop> From<AllocFailed<T>> for TraceFault {
    ghost from_gives = { λ _ e. e ≡ NoMemory };

    fn from(_e: AllocFailed<T>) -> TraceFault {
        TraceFault::NoMemory
    }
}
