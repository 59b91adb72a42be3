// Why a store isn't created.
ghost use Rattle.std.specs.Prelude.{◌≡◌};

use disk_model::{DiskError, FileName};
use std::alloc::AllocError;
use thiserror::Error;

/// Why a store isn't created.
#[derive(Clone, Copy, Debug, PartialEq, Eq, Error)]
pub enum CreateFault {
    /// A file of the store is there already: the first one, in the order log, doublewrite file, spaces
    /// by id.
    #[error("a file of the store is there")]
    Exists(FileName),
    /// The key of this id lacks the active version: the least such id.
    #[error("no key {id} version {version}")]
    MissingKey { id: u32, version: u32 },
    /// The disk failed.
    #[error("the disk failed")]
    DiskFault,
    /// There was no memory, or the disk had none for a call.
    #[error("out of memory")]
    OutOfMemory,
}

impl From<AllocError> for CreateFault {
    ghost use Rattle.store_form.specs.declared.create_fault.CreateFault.TheVariants.{OutOfMemory};

    ghost from_gives = { λ _ e. e ≡ OutOfMemory };

    fn from(_: AllocError) -> CreateFault {
        CreateFault::OutOfMemory
    }
}

impl From<DiskError> for CreateFault {
    ghost use Rattle.store_form.specs.CreateAnswer.{fault_of_disk};

    ghost from_gives = { λ d e. e ≡ fault_of_disk d };

    fn from(error: DiskError) -> CreateFault {
        match error {
            DiskError::Failed => CreateFault::DiskFault,
            DiskError::NoMemory => CreateFault::OutOfMemory,
        }
    }
}
