// Why a store isn't opened.
use disk_model::FileName;
use thiserror::Error;

/// Why a store isn't opened, the first reason in this order; the last two come at the call that met
/// them.
#[derive(Clone, Copy, Debug, PartialEq, Eq, Error)]
pub enum OpenRefuse {
    /// The log is missing or too short, or its header isn't valid.
    #[error("no header of a store")]
    NotFormatted,
    /// A file's length, or a number at a byte of a file, isn't the one that is wanted.
    #[error("{found} at {at} where {wanted} is wanted")]
    Mixed {
        file: FileName,
        at: u64,
        wanted: u64,
        found: u64,
    },
    /// The checksum of the place at a byte of a file isn't the one that its bytes have.
    #[error("checksum {stored:x} at {at} where the bytes have {computed:x}")]
    Damaged {
        file: FileName,
        at: u64,
        stored: u32,
        computed: u32,
    },
    /// The ring lacks this version of a key that the store needs.
    #[error("no version {version} of key {id}")]
    MissingKey {
        id: u32,
        version: u32,
    },
    /// The text of the mini-transaction that begins with this block of the log is no list of changes
    /// of the store's pages.
    #[error("block {number} says no change at {at}")]
    BadRecord {
        number: u64,
        at: usize,
    },
    /// The active version is below the least version of a space.
    #[error("version {version} below {floor}, the least of space {space}")]
    VersionBelowFloor {
        space: u32,
        floor: u32,
        version: u32,
    },
    /// The log's numbers end before the store could go on.
    #[error("no number is left behind block {last}")]
    Spent {
        last: u64,
    },
    /// The disk failed.
    #[error("the disk failed")]
    DiskFault,
    /// There was no memory.
    #[error("out of memory")]
    OutOfMemory,
}
