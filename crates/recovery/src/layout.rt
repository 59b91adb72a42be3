// Sizes of a store's files and of their places.

// A block of the log's file in bytes.
pub(crate) const BLOCK: usize = store_files::BLOCK_BYTES;
// The same for places in the file.
pub(crate) const BLOCK_BYTES: u64 = store_files::BLOCK_BYTES as u64;
// The blocks of the log's file before the ring.
pub(crate) const FRONT_BLOCKS: u64 = store_files::FRONT_BLOCKS as u64;
// A page in bytes.
pub(crate) const PAGE: usize = page_places::PAGE_BYTES;
// The same for places in a space's file.
pub(crate) const PAGE_BYTES: u64 = page_places::PAGE_BYTES as u64;
// Where the number, the type, the first ciphered byte, the space's id and the low half of the LSN stand in a page.
pub(crate) const PAGE_NUMBER: u64 = 4;

pub(crate) const PAGE_TYPE: u64 = 24;

pub(crate) const PAGE_CIPHERED: usize = 26;

pub(crate) const PAGE_SPACE: u64 = 34;

pub(crate) const PAGE_END: u64 = 16376;
// The id of the log's key.
pub(crate) const LOG_KEY: u32 = 1;
