// Why key files do not load.

use crate::fault::KeyFault;
use crate::name::Name;
use thiserror::Error;

/// Why key files do not load.
#[derive(Debug, Drop, Error)]
pub enum LoadFault {
    /// The library has no file of this name.
    #[error("missing {0}")]
    Missing(Name),
    /// The library failed: its count of faults rose.
    #[error("file fault")]
    FileFault,
    /// A key file does not read, or the secret to it.
    #[error("key file {index}: {fault}")]
    KeyFile {
        /// The place of the file in the list of names, counted from 0.
        index: usize,
        /// Why it does not read.
        fault: KeyFault,
    },
    /// The machine had no memory for the call.
    #[error("out of memory")]
    OutOfMemory,
}
