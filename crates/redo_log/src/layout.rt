// Sizes and places of the log's file.

/// A block of the log's file in bytes: the header, a checkpoint or a ring block.
pub const BLOCK: usize = store_files::BLOCK_BYTES;
/// The same for places of blocks in the file, and for LSNs.
pub const BLOCK_BYTES: u64 = store_files::BLOCK_BYTES as u64;
// Where the checksum of a block stands.
pub(crate) const SUM_AT: usize = store_files::BLOCK_SUM_AT;
// Where the words of a checkpoint end, and its zero bytes begin.
pub(crate) const WORDS_END: usize = store_files::CHECKPOINT_ZEROS_AT;
// The file's first block of the ring, behind the header and two checkpoints.
pub(crate) const RING_BEGINS: u64 = store_files::FRONT_BLOCKS as u64;
// The most blocks that a mini-transaction has.
pub(crate) const MOST_BLOCKS: u64 = store_files::MOST_MTR_BLOCKS;
