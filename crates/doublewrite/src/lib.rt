//! The doublewrite file: page texts go to its slots and are synced before they go home, so that a
//! home that a crash tears can be written again from its copy.
//!
//! What this layer asks of a disk that tells its events is that the files are there with their
//! lengths (`HasFile`), whatever is pending. What it says of images, it says where they keep their
//! places too (`HasPlaces`); what it says of events, answers and calls, in any case:
//!
//! 1. [`store`] writes page i of a batch to slot i, each slot whole, and syncs the file; [`home`]
//!    writes each page to its place in the space's file, and syncs it. At every moment of them, also
//!    after a call that failed, a place holds what it could hold before, or the batch's bytes for it,
//!    or it is torn; at Ok the places read as the batch and nothing is pending. Each text that is
//!    written fails its test once its last byte is inverted.
//! 2. [`copies`] lists exactly the valid slots, in order, and only reads.
//! 3. [`restore`] writes a home from the newest valid copy of its page, of several the one of least
//!    index, exactly where the home holds no text of the page and there is a copy. It writes nothing
//!    else, syncs each space that it wrote, and leaves every home as its chosen text says.
//! 4. `Failed` is answered only where the disk's count of faults rose; at Ok neither its count of
//!    faults nor that of refused memory has moved. Want of memory is answered only where no call met
//!    a fault.
//! 5. [`store`], [`home`] and [`restore`] say the very events that they add: the writes in order, and
//!    one sync of each file behind its writes; at a refusal a part of these from the first one on, and
//!    at most an attempt at the write behind it. All four say how many calls they make at most.
//!
//! What these calls make of the places of a store is proved in `GroupLifts` and `RestoreLifts`, for
//! sessions and openings to use; what a page is read from in an image between `store` and `home` in
//! `ChosenLaw`.
#![tactic(auto)]

mod homes;
mod listing;
mod reading;
mod recovery;
mod refuse;
mod restoring;
mod slot;
mod storing;
mod texts;

pub use homes::home;
pub use listing::{Copied, Copies};
pub use reading::copies;
pub use recovery::restore;
pub use refuse::OpenRefuse;
pub use restoring::newest_copy;
pub use storing::store;
pub use texts::{PageText, PageTexts, Texts};

#[cfg(test)]
mod tests;
