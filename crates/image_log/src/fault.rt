// Why a log says nothing.
use cause_core::OutOfMemory;
use std::alloc::{AllocError, AllocFailed};
use thiserror::Error;

/// Why a log's file says nothing, or why it wasn't read.
#[derive(Clone, Copy, Debug, PartialEq, Eq, Error)]
pub enum LogTextFault {
    /// Neither block 1 nor block 2 of the file is a valid checkpoint.
    #[error("no valid checkpoint")]
    NoCheckpoint,
    /// The keys have no version of the log's key, id 1, that this block of a whole mini-transaction of
    /// the run names.
    #[error("no key of version {version} for block {number} of the log")]
    NoKey { number: u64, version: u32 },
    /// The text of the whole mini-transaction of the run that begins with this block isn't one of
    /// changes: at this byte of it, before its end, no change begins.
    #[error("no change at byte {at} of the mini-transaction of block {first}")]
    NoChanges { first: u64, at: usize },
    /// The machine had no memory for the call.
    #[error("out of memory")]
    OutOfMemory,
}

impl From<OutOfMemory> for LogTextFault {
    ghost use Rattle.std.specs.Prelude.{◌≡◌};
    ghost use Rattle.image_log.specs.declared.fault.LogTextFault.TheVariants.{OutOfMemory};

    ghost from_gives = { λ _ e. e ≡ OutOfMemory };

    fn from(_: OutOfMemory) -> LogTextFault {
        LogTextFault::OutOfMemory
    }
}

impl From<AllocError> for LogTextFault {
    ghost use Rattle.std.specs.Prelude.{◌≡◌};
    ghost use Rattle.image_log.specs.declared.fault.LogTextFault.TheVariants.{OutOfMemory};

    ghost from_gives = { λ _ e. e ≡ OutOfMemory };

    fn from(_: AllocError) -> LogTextFault {
        LogTextFault::OutOfMemory
    }
}

impl<T: Drop> From<AllocFailed<T>> for LogTextFault {
    ghost use Rattle.std.specs.Prelude.{◌≡◌};
    ghost use Rattle.image_log.specs.declared.fault.LogTextFault.TheVariants.{OutOfMemory};

    ghost from_gives = { λ _ e. e ≡ OutOfMemory };

    fn from(_: AllocFailed<T>) -> LogTextFault {
        LogTextFault::OutOfMemory
    }
}
