// Why a page of a store at rest isn't read.
use page_text::OpenFault;
use thiserror::Error;

/// Why a page of a store at rest isn't read.
#[derive(Clone, Copy, Debug, PartialEq, Eq, Error)]
pub enum RestFault {
    /// The page's home names a version of its key that isn't at hand.
    #[error("no key {id} version {version}")]
    NoVersion {
        id: u32,
        version: u32,
    },
    /// The page's home isn't its text: the first fault of it.
    #[error("page {page} of space {space} is damaged")]
    Damaged {
        space: u32,
        page: u32,
        fault: OpenFault,
    },
    /// The disk failed.
    #[error("the disk failed")]
    DiskFault,
    /// The disk had no memory for the call.
    #[error("out of memory")]
    OutOfMemory,
}
