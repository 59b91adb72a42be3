// Why files recover to nothing.
use cause_core::OutOfMemory;
use disk_model::FileName;
use image_log::LogTextFault;
use image_pages::TextFault;
use std::alloc::AllocFailed;
use thiserror::Error;

/// Why the files of a store recover to nothing: a condition that fails.
///
/// The conditions come in this order, and each of the kinds before the one that is answered holds of
/// all: the header; the lengths; the log's text; the pages of its changes; the homes (`Mixed`); the
/// pages; late blocks. Of each kind the first is answered: of homes and pages by space, in order of
/// id, and then by page. Of a page, it is first whether it is read from something (`NotChosen`), then
/// whether that gives it (`NoText`), then its slots (`Slot`), and of page 0 then what it says of the
/// space (`Head`): each page before the one that is answered is right in all these.
#[derive(Clone, Copy, Debug, PartialEq, Eq, Error)]
pub enum Refusal {
    /// Block 0 of the log's file is no valid header.
    #[error("no header")]
    NoHeader,
    /// The file, or the file of a space, isn't as long as the header says: the log's, the
    /// doublewrite file, then the spaces' in order.
    #[error("a file of another length")]
    Length(FileName),
    /// Neither block 1 nor block 2 of the log's file is a valid checkpoint.
    #[error("no valid checkpoint")]
    NoCheckpoint,
    /// The keys have no version of the log's key, id 1, that this block of the run names: it is the
    /// first such block of its mini-transaction, and those before that one have changes.
    #[error("no key of version {version} for block {number} of the log")]
    NoKey {
        number: u64,
        version: u32,
    },
    /// The text of the mini-transaction of the run that begins with this block isn't one of changes:
    /// at this byte of it, before its end, no change begins. Those before it have changes.
    #[error("no change at byte {at} of the mini-transaction of block {first}")]
    NoChanges {
        first: u64,
        at: usize,
    },
    /// The first mini-transaction of the run, by its first block, with a change of a page that the
    /// store doesn't have.
    #[error("a change of another store in the mini-transaction of block {first}")]
    OtherPages {
        first: u64,
    },
    /// The page's home has the text of another page, and no home before it has.
    #[error("another page at page {page} of space {space}")]
    Mixed {
        space: u32,
        page: u32,
    },
    /// The page is read from nothing: its home is no page text and not zero bytes, and no slot has a
    /// copy of it.
    #[error("page {page} of space {space} is read from nothing")]
    NotChosen {
        space: u32,
        page: u32,
    },
    /// What the page is read from doesn't give it.
    #[error("page {page} of space {space}: {fault}")]
    NoText {
        space: u32,
        page: u32,
        fault: TextFault,
    },
    /// Page 0 says another size or key id of the space than the header.
    #[error("another head of space {space}")]
    Head {
        space: u32,
    },
    /// This slot, 0 to 63, is live for the page, which recovers, and doesn't give it. It is the first
    /// such slot.
    #[error("another page in slot {slot} for page {page} of space {space}")]
    Slot {
        space: u32,
        page: u32,
        slot: usize,
    },
    /// The valid block at this place of the ring, counted from 0, has a number that blocks behind the
    /// run could meet: `last + 1 + N` or more in a ring of N blocks. It is the first such place.
    #[error("block {number} at place {place} of the ring is late")]
    LateBlock {
        place: u32,
        number: u64,
    },
    /// The machine had no memory for the call.
    #[error("out of memory")]
    OutOfMemory,
}

impl From<OutOfMemory> for Refusal {
    ghost use Rattle.std.specs.Prelude.{◌≡◌};
    ghost use Rattle.image_reader.specs.declared.refusal.Refusal.TheVariants.{OutOfMemory};

    ghost from_gives = { λ _ e. e ≡ OutOfMemory };

    fn from(_: OutOfMemory) -> Refusal {
        Refusal::OutOfMemory
    }
}

impl<T: Drop> From<AllocFailed<T>> for Refusal {
    ghost use Rattle.std.specs.Prelude.{◌≡◌};
    ghost use Rattle.image_reader.specs.declared.refusal.Refusal.TheVariants.{OutOfMemory};

    ghost from_gives = { λ _ e. e ≡ OutOfMemory };

    fn from(_: AllocFailed<T>) -> Refusal {
        Refusal::OutOfMemory
    }
}

impl From<LogTextFault> for Refusal {
    ghost use Rattle.std.specs.Prelude.{◌≡◌};
    ghost use Rattle.image_reader.specs.Refusals.{log_refusal};

    ghost from_gives = { λ fault e. e ≡ log_refusal fault };

    fn from(fault: LogTextFault) -> Refusal {
        match fault {
            LogTextFault::NoCheckpoint => Refusal::NoCheckpoint,
            LogTextFault::NoKey { number, version } => Refusal::NoKey { number, version },
            LogTextFault::NoChanges { first, at } => Refusal::NoChanges { first, at },
            LogTextFault::OutOfMemory => Refusal::OutOfMemory,
        }
    }
}
