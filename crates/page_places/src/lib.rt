//! What the bytes of homes and slots say, as texts, and the places of a store by its events.
//!
//! Definitions and laws, and the sizes as constants:
//!
//! 1. `held` is what the home of a page holds, `slot_held` what a slot of the doublewrite file
//!    holds, by their bytes alone. `view` is the view of an image.
//! 2. `places_by` are the places that a disk's events leave. Each write and each sync of a
//!    whole place makes of them what store_image says of it.
//! 3. store_image's laws of sessions and openings hold of the images of a disk
//!    (`session_image`, `opening_image`, `crash_reads`, `opening_begins`).
#![tactic(auto)]

/// The bytes of a page.
pub const PAGE_BYTES: usize = 16384;

/// The bytes of a slot of the doublewrite file: its head, a checksum of four bytes, and a page text.
pub const SLOT_BYTES: usize = 16896;

/// The bytes of a slot's head, up to the checksum.
pub const SLOT_HEAD_BYTES: usize = 508;

/// The slots of the doublewrite file.
pub const SLOTS: usize = 64;

/// Where the key version stands in the text of a page, in bytes.
pub const PAGE_VERSION_AT: usize = 0;

/// Where the number of the page stands there.
pub const PAGE_NUMBER_AT: usize = 4;

/// Where the LSN of its last change stands.
pub const PAGE_LSN_AT: usize = 16;

/// Where its type stands.
pub const PAGE_TYPE_AT: usize = 24;

/// Where its body begins.
pub const PAGE_BODY_AT: usize = 38;

/// Where its checksum stands, in the last bytes.
pub const PAGE_SUM_AT: usize = 16380;

/// Where the id of the space stands in the head of a slot, in bytes.
pub const SLOT_SPACE_AT: usize = 8;

/// Where the number of the page stands there.
pub const SLOT_PAGE_AT: usize = 12;

/// Where the zero bytes of the head begin.
pub const SLOT_ZEROS_AT: usize = 24;
