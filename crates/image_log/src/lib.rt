//! A plain reader of a store's log file, for tests and for reading alone: the header, the newest
//! checkpoint, and the run from it with the changes that its text says under the keys.
//!
//! It reads bytes that lie in memory, block by block, and keeps nothing between two calls.
//!
//! 1. [`read_header`] answers the header of `header_in`, or none where there is none.
//! 2. [`newest_checkpoint`] answers the one of `IsNewestCheckpoint`.
//! 3. [`read_log`] answers what `IsLogOf` says of the log: where the run begins and ends, and its
//!    mini-transactions; or the first cause for which there is none.
//! 4. [`late_block`] answers the first ring block that has a number from a given one on, or that there
//!    is none (`IsClear`).
#![tactic(auto)]

mod blocks;
mod changes;
mod checkpoint;
mod fault;
mod header;
mod log;
mod run;
mod text;

pub use blocks::{LateBlock, block_at, late_block, place};
pub use checkpoint::{RunStart, newest_checkpoint};
pub use fault::LogTextFault;
pub use header::{StoreHeader, StoreSpace, read_header};
pub use log::{LogEntry, LogText, read_log};

#[cfg(test)]
mod tests;
