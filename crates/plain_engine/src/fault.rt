// Why a call of the engine is refused.
use disk_model::DiskError;
use std::alloc::AllocError;
use thiserror::Error;

/// Whether an engine takes calls.
#[derive(Clone, Copy, Debug, PartialEq, Eq)]
pub enum State {
    Up,
    /// The disk failed at this turn, counted from `start`.
    Down(u64),
    /// The disk was refused memory.
    OutOfMemory,
}

/// Why a call of the engine is refused.
#[derive(Clone, Copy, Debug, PartialEq, Eq, Error)]
pub enum EngineFault {
    /// The disk failed in this call. A turn is a write or a sync; they are counted from `start`, the
    /// failing one included.
    #[error("the disk failed at turn {turn}")]
    DiskFault { turn: u64 },
    /// The disk failed at this turn in an earlier call.
    #[error("down since turn {turn}")]
    Down { turn: u64 },
    #[error("out of memory")]
    OutOfMemory,
}

/// Why an engine isn't started.
#[derive(Clone, Copy, Debug, PartialEq, Eq, Error)]
pub enum StartFault {
    #[error("the disk failed")]
    DiskFault,
    #[error("out of memory")]
    OutOfMemory,
}

impl From<AllocError> for StartFault {
    ghost use Rattle.std.specs.Prelude.{◌≡◌};
    ghost use Rattle.plain_engine.specs.declared.fault.StartFault.TheVariants.{OutOfMemory};

    ghost from_gives = { λ _ e. e ≡ OutOfMemory };

    fn from(_e: AllocError) -> StartFault {
        StartFault::OutOfMemory
    }
}

impl From<DiskError> for StartFault {
    ghost use Rattle.std.specs.Prelude.{◌≡◌};
    ghost use Rattle.plain_engine.specs.Faults.{start_fault};

    ghost from_gives = { λ d e. e ≡ start_fault d };

    fn from(e: DiskError) -> StartFault {
        match e {
            DiskError::Failed => StartFault::DiskFault,
            DiskError::NoMemory => StartFault::OutOfMemory,
        }
    }
}
