//! The redo log as text: the changes of a mini-transaction ([`Change`], [`Mtr`]), their text, and the
//! ring blocks of 4096 bytes that hold it under a key.
//!
//! What this layer promises, the definitions standing in specs/:
//!
//! 1. [`encode`] gives exactly the blocks of a mini-transaction (`blocks`), and [`mtr_blocks`] their
//!    number.
//! 2. [`read_block`] takes exactly the blocks whose checksum, number, key version, used length and
//!    flags the format allows, and answers the first fault in order. A block whose last byte was
//!    inverted isn't taken.
//! 3. [`decipher_block`] undoes the cipher in place: the used bytes of the body are the text's, and
//!    those after them may have any value.
//! 4. [`Changes`] lends each change from the text, and answers [`BadRecord`] exactly where the text
//!    from there begins with no change. No text of a change begins another change's text, so a text
//!    determines its list of changes.
//!
//! Nothing but [`encode`] and the copies takes memory.
#![tactic(auto)]

mod block;
mod change;
mod changes;
mod encoding;
mod fault;
mod key;
mod layout;
mod view;

pub use block::decipher_block;
pub use change::{Change, Mtr, Piece};
pub use changes::{ChangeView, Changes};
pub use encoding::{encode, mtr_blocks};
pub use fault::{BadRecord, BlockFault};
pub use key::{LAST_BLOCK, RedoKey};
pub use layout::RING_BLOCK_BYTES;
pub use view::{BlockView, read_block};

#[cfg(test)]
mod tests;
