//! The engine: a session on a store, each image of whose disk stands for a beginning of its journal.
//!
//! An [`Engine`] is a session of `session_core` and a snapshot of it as `start` left it. Its calls are those of
//! the session, with the same data, answers and events. What its type keeps beside, for each store that the
//! first moment is at rest as:
//!
//! 1. At each moment since `start` each lucky image stands for a beginning of the journal that has all that
//!    was acknowledged: it recovers to the fold of those entries over the base contents, it needs no key
//!    that was given up, and each key that it needs is among the named ones. What a crash of a disk in memory
//!    leaves is lucky, whatever it keeps, loses or tears.
//! 2. At each such moment no number of a block and no LSN of a page has served two texts, and whatever a
//!    lucky image recovers to agrees with what was written, if that was so at the start.
//! 3. The disk is a later one of the snapshot's, and its turns are those among the events since.
//! 4. While the engine is up its data are those of the disk: the journal, the log's numbers, which pages are
//!    dirty, what the pool holds, and what is told of the spaces.
//!
//! They hold after Ok and after each refusal, and for each moment inside a call.
#![tactic(auto)]

mod activating;
mod checkpoints;
mod committing;
mod engine;
mod reading;
mod syncing;
mod taking;

pub use engine::Engine;
pub use session_core::{
    Author, EngineFault, Entry, Halted, Journal, Receipt, SessionOptions, StartFault, StartRefusal,
};

#[cfg(test)]
mod tests;
