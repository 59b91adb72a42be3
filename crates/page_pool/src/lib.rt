//! The pages that an engine holds: dirty ones, which were changed since they were written, and the
//! clean ones that were used last.
//!
//! A [`Pool`] is a map from a space and a page to a plain page, a type and a body. Contracts see
//! its dirty pages in ascending order of first block, space and page, what each of them holds, and
//! its clean pages, the most recently used first. What holds of every pool:
//!
//! 1. At most 256 pages are dirty, and at most 64 are clean. None is both, and none comes twice.
//! 2. A mini-transaction is made whole or not at all: what a refused one names is as it was.
//! 3. What a change does to a page is what it does in the fold of a journal.
//! 4. `find`, `clean`, `oldest` and `dirty` take no memory. `change` and `apply` take it only for
//!    pages that aren't held, and `admit` for its page.
#![tactic(auto)]

mod changing;
mod clean;
mod dirty;
mod fault;
mod frame;
mod names;
mod pool;
#[cfg(test)]
mod tests;

pub use clean::MOST_CLEAN;
pub use dirty::MOST_DIRTY;
pub use fault::PoolFault;
pub use names::{DirtyPage, PageName};
pub use pool::Pool;
