//! A session on a store: its data, its answers and what it asks of its disk, with no word of images.
//!
//! A [`SessionCore`] has the parts of a running engine. Contracts see it as one record, and each call as a
//! function on it. What every session keeps:
//!
//! 1. Its parts go together: header, spaces and homes, a log of as many blocks as the header says, and an
//!    active version of 1 or more that the ring has under id 1 and under the key id of each space, and that
//!    no floor is above.
//! 2. The journal's entries stand in a row from the number at the start up to the log's next block.
//! 3. No more entries were acknowledged than the journal has, and no block of these is pending.
//! 4. The dirty pages are those that are marked as dirty, and begin behind the last checkpoint; the LSN of
//!    each is behind the block that it begins with, and no later than the log. While blocks of the log are
//!    pending one of them needs them all. Each page that is held has a type that it may have.
//! 5. While the disk runs the files are there with their lengths, and it reads as the session tells: the
//!    header, the last checkpoint, page 0 of each space, and the homes of the pages that aren't dirty.
//!
//! A session is up until a call of its disk is answered an error. From then on each call that can be refused
//! is refused: as down, with the number of the turn that failed, or for want of memory.
#![tactic(auto)]

mod activating;
mod checkpoints;
mod cleaning;
mod closing;
mod committing;
mod current;
mod dirt;
mod fault;
mod fetching;
mod holding;
mod journal;
mod keys;
mod missing;
mod naming;
mod options;
mod reading;
mod session;
mod settling;
mod stopping;
mod tablespaces;
mod taking;
mod writing;

pub use closing::{Closed, Halted};
pub use fault::{EngineFault, StartFault};
pub use journal::{Author, Entry, Journal, Receipt};
pub use options::SessionOptions;
pub use session::{SessionCore, StartRefusal};

#[cfg(test)]
mod fixture;
#[cfg(test)]
mod tests;
