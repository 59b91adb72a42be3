//! A batch is stored and written home on a disk in memory that stops at a turn, and the disk crashes.
#![tactic(auto)]

mod crashing;
mod putting;

pub use crashing::{PutCrash, drill};
pub use putting::put;

#[cfg(test)]
mod tests;
