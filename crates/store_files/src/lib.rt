//! The files of a store as bytes: what each place says, and what is written there.
//!
//! Definitions and laws, and the sizes, limits and places of the formats as constants:
//!
//! 1. `header_in`, `checkpoint_in` and `is_ring_block` are what a block of the log's file says, by
//!    its bytes alone; `held` and `slot_held` of page_places are what a home and a slot hold. What
//!    a valid header is stands in one place (`is_header`). A header and a checkpoint that are
//!    written are read back (`header_back`, `checkpoint_back`), a ring block with its text under its
//!    key (`ring_block_back`, `ring_block_text`), and a page that was sealed is held
//!    by its home and its slot (`sealed_held`, `sealed_slot`). Each is refused once its last byte
//!    is inverted.
//! 2. `IsRun` is where the run of a log begins and ends, by its blocks alone: from the newest
//!    checkpoint on the longest list of whole mini-transactions. `IsLogOf` is what the run says
//!    under the keys, and that is one thing (`log_one`).
//! 3. `Page` is what a page holds, `mtr_acts` what a mini-transaction does to one page, `pages_of`
//!    the pages of contents. `MeansPage` says which bytes are the text of a page under the keys;
//!    a text is that of one page (`means_one`), and a page has one text at an LSN and a version
//!    (`means_text`).
#![tactic(auto)]

/// The bytes of a block of the log's file.
pub const BLOCK_BYTES: usize = 4096;

/// The blocks of the log's file before its ring: the header's, and two for checkpoints.
pub const FRONT_BLOCKS: usize = 3;

/// The most blocks of a mini-transaction.
pub const MOST_MTR_BLOCKS: u64 = 16;

/// The least ring blocks of a log.
pub const LEAST_RING_BLOCKS: u32 = 32;

/// The most ring blocks of a log.
pub const MOST_RING_BLOCKS: u32 = 4096;

/// The most spaces of a store.
pub const MOST_SPACES: usize = 16;

/// The most pages of all spaces of a store together.
pub const MOST_PAGES: u64 = 16384;

/// The greatest id of a space.
pub const LAST_SPACE: u32 = 4_294_967_279;

/// Where the format stands in a header, in bytes.
pub const HEADER_FORMAT_AT: usize = 8;

/// Where the size of a page stands there.
pub const HEADER_PAGE_AT: usize = 12;

/// Where the number of ring blocks stands there.
pub const HEADER_BLOCKS_AT: usize = 16;

/// Where the number of spaces stands there.
pub const HEADER_COUNT_AT: usize = 20;

/// Where the salt of the log's keys stands there.
pub const HEADER_SALT_AT: usize = 24;

/// Where the spaces begin there, behind the salt.
pub const HEADER_SPACES_AT: usize = 40;

/// The bytes of a space in a header.
pub const HELD_SPACE_BYTES: usize = 12;

/// Where the number of the algorithm stands in a header.
pub const HEADER_ALGORITHM_AT: usize = 240;

/// Where the sequence stands in a checkpoint, in bytes.
pub const CHECKPOINT_SEQUENCE_AT: usize = 8;

/// Where the number of the run's first block stands there.
pub const CHECKPOINT_FROM_AT: usize = 16;

/// Where its zero bytes begin, up to the checksum.
pub const CHECKPOINT_ZEROS_AT: usize = 24;

/// Where the checksum stands in a block of the log's file, in the last bytes.
pub const BLOCK_SUM_AT: usize = 4092;

/// Where the id of the space stands in a page 0, in bytes.
pub const HEAD_SPACE_AT: usize = 38;

/// Where the size of the space in pages stands there.
pub const HEAD_PAGES_AT: usize = 46;

/// Where its flags stand there.
pub const HEAD_FLAGS_AT: usize = 54;

/// Where its crypt record begins there, with its magic.
pub const RECORD_AT: usize = 10428;

/// Where the record's type stands in a page 0.
pub const RECORD_TYPE_AT: usize = 10434;

/// Where the length of the record's salt stands there.
pub const RECORD_LENGTH_AT: usize = 10435;

/// Where the record's salt stands there.
pub const RECORD_SALT_AT: usize = 10436;

/// Where the record's least key version stands there.
pub const RECORD_MINIMUM_AT: usize = 10452;

/// Where the record's key id stands there.
pub const RECORD_KEY_AT: usize = 10456;

/// Where the record's mode stands there.
pub const RECORD_MODE_AT: usize = 10460;
