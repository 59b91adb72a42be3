// Why a call of a session is refused.
use page_text::OpenFault;
use thiserror::Error;

/// Why a call of a session is refused.
#[derive(Clone, Copy, Debug, PartialEq, Eq, Error)]
pub enum EngineFault {
    /// The store has no such page, or it is page 0, which no caller changes.
    #[error("no page {page} of space {space}")]
    NoSuchPage {
        space: u32,
        page: u32,
    },
    /// The range is empty, or doesn't lie in bytes 38 to 16376 of a page.
    #[error("no range of {length} bytes at {at}")]
    BadRange {
        at: u32,
        length: usize,
    },
    /// The mini-transaction has so many blocks, and not at most 16.
    #[error("{blocks} blocks")]
    TooLong {
        blocks: usize,
    },
    /// The log has no number left for the mini-transaction's blocks, behind this one.
    #[error("no block number is left behind {next}")]
    Spent {
        next: u64,
    },
    /// So many pages are dirty, and so many more would be: together more than 256.
    #[error("{dirty} dirty pages and {fresh} fresh ones")]
    PoolFull {
        dirty: usize,
        fresh: usize,
    },
    /// The mini-transaction has more blocks than the log has free.
    #[error("{needed} blocks are needed and {free} are free")]
    LogFull {
        needed: u64,
        free: u64,
    },
    /// The ring has no key of this id and version.
    #[error("no key {id} version {version}")]
    NoVersion {
        id: u32,
        version: u32,
    },
    /// The home of the page isn't its text.
    #[error("page {page} of space {space} is damaged")]
    Damaged {
        space: u32,
        page: u32,
        fault: OpenFault,
    },
    /// The version that is asked for isn't above the active one.
    #[error("version {asked} behind version {active}")]
    NotNewer {
        active: u32,
        asked: u32,
    },
    /// The space is ciphered already.
    #[error("space {space} is ciphered")]
    Ciphered {
        space: u32,
    },
    /// The space isn't ciphered.
    #[error("space {space} is plain")]
    Plain {
        space: u32,
    },
    /// The page is dirty (version 0), or its version is to be rotated.
    #[error("page {page} at version {version}")]
    Pending {
        page: u32,
        version: u32,
    },
    /// The disk failed in this call, at this turn since the start. Turns are writes and syncs.
    #[error("the disk failed at turn {turn}")]
    DiskFault {
        turn: u64,
    },
    /// The disk failed in an earlier call, at this turn since the start.
    #[error("down since turn {turn}")]
    Down {
        turn: u64,
    },
    /// The machine or the disk had no memory.
    #[error("out of memory")]
    OutOfMemory,
}

/// Why a session isn't started.
#[derive(Clone, Copy, Debug, PartialEq, Eq, Error)]
pub enum StartFault {
    /// The ring has no key of this id and of the active version.
    #[error("no key {id} version {version}")]
    NoVersion {
        id: u32,
        version: u32,
    },
    /// The active version is below the least one of this space.
    #[error("version {version} below the floor {floor} of space {space}")]
    VersionBelowFloor {
        space: u32,
        floor: u32,
        version: u32,
    },
    /// The disk failed.
    #[error("the disk failed")]
    DiskFault,
    /// The machine or the disk had no memory.
    #[error("out of memory")]
    OutOfMemory,
}
