// Why a pool makes no change.

use cause_core::OutOfMemory;
use thiserror::Error;

/// Why a pool makes no change.
#[derive(Clone, Copy, Debug, PartialEq, Eq, Error)]
pub enum PoolFault {
    /// So many pages are dirty, and the changes name so many more that aren't: together more than 256.
    #[error("{dirty} dirty pages and {fresh} fresh ones")]
    Full { dirty: usize, fresh: usize },
    /// The machine had no memory for the call.
    #[error("out of memory")]
    OutOfMemory,
}

impl From<OutOfMemory> for PoolFault {
    ghost use Rattle.std.specs.Prelude.{◌≡◌};
    ghost use Rattle.page_pool.specs.declared.fault.PoolFault.TheVariants.{OutOfMemory};

    ghost from_gives = { λ _ fault. fault ≡ OutOfMemory };

    fn from(_e: OutOfMemory) -> PoolFault {
        PoolFault::OutOfMemory
    }
}
