// Sizes and places of a ring block.

/// The bytes of a ring block.
pub const RING_BLOCK_BYTES: usize = 4096;
// Where the body begins, behind number, key version, used length and flags, and its bytes.
pub(crate) const BODY_AT: usize = 16;

pub(crate) const BODY_BYTES: usize = 4076;
// The same as a used length.
pub(crate) const MOST_USED: u16 = 4076;
// Where the checksum stands, behind the body.
pub(crate) const SUM_AT: usize = 4092;
// Where the body of a page of a store begins and ends.
pub(crate) const PAGE_BODY_AT: u32 = 38;

pub(crate) const PAGE_BODY_END: u32 = 16376;
