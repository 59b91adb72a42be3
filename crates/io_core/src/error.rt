// Why a source, a sink or a library did not do what it was asked.
ghost use Rattle.std.specs.Prelude.{◌≡◌};
ghost use Rattle.io_core.specs.declared.error.IoError.TheVariants.{NoMemory};

use std::alloc::AllocError;
use thiserror::Error;

/// Why a source, a sink or a library did not do what it was asked.
#[derive(Clone, Copy, Debug, PartialEq, Eq, Error)]
pub enum IoError {
    /// The outside failed: its count of faults rose.
    #[error("input or output failed")]
    Failed,
    /// The machine had no memory for the call.
    #[error("out of memory")]
    NoMemory,
}

impl From<AllocError> for IoError {
    ghost from_gives = { λ _ e. e ≡ NoMemory };

    fn from(_e: AllocError) -> IoError {
        IoError::NoMemory
    }
}
