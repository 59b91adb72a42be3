//! The redo log's file: a ring of blocks behind a header, with two checkpoints.
//!
//! What this layer promises of the log's file, at each moment before, in and after each of its
//! calls, and after each refusal (`ring_log` has the definitions and the law):
//!
//! 1. In each lucky image of the moment the newest checkpoint is the last synced one or the one
//!    that is being written. The run from it is whole mini-transactions, which are those that were
//!    appended, up to some block from the last synced one to the last one that was written. No valid
//!    block of the ring has a number that the blocks behind the run could meet.
//! 2. [`Log::write_out`] makes one write for each pending block in order and one sync, and
//!    [`Log::checkpoint`] one write and one sync; neither makes a call where there is nothing to do,
//!    and neither takes memory. Their refusals are the disk's.
//! 3. [`Log::append`] refuses exactly where its numbers say so, and a refusal changes nothing.
//!    [`Log::take_back`] gives back what it added.
//! 4. [`scan`] gives the longest run of whole mini-transactions, and the key versions that its blocks
//!    name. It reads each block once, and adds no event.
//! 5. While [`write_opening_checkpoint`] writes the checkpoint of an opening each lucky image has the
//!    log that was found or the empty one behind it, and then a session may begin there.
#![tactic(auto)]

mod append;
mod check_block;
mod checkpoint;
mod layout;
mod log;
mod reading;
mod run;
mod write_out;

pub use checkpoint::{write_first_checkpoint, write_opening_checkpoint};
pub use layout::{BLOCK, BLOCK_BYTES};
pub use log::{Log, LogFault};
pub use reading::{Checkpoint, read_checkpoint};
pub use run::{Run, Versions, scan};

#[cfg(test)]
mod tests;
