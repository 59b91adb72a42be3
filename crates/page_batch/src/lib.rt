//! Pages on their way from memory to their homes: a batch of copies, and the same with its texts.
//!
//! 1. A [`PageBatch`] has pages of one space, in order, with the key version and the local key that
//!    they are to be sealed under. It is made and filled where the pages are known, and takes all the
//!    memory then that it needs up to the doublewrite file.
//! 2. [`seal_batch`] makes of it a [`SealedBatch`], with the text of each page under its number, its
//!    LSN and the batch's key; page 0 is sealed in clear. It takes no memory, can't be refused, and
//!    needs nothing beside the batch, so it may be called far from where pages change.
//! 3. [`SealedBatch::take_apart`] hands out its pages one by one, each with its text, and room for as
//!    many texts.
#![tactic(auto)]

mod batch;
mod sealed;
mod taken;
#[cfg(test)]
mod tests;

pub use batch::PageBatch;
pub use sealed::{BatchParts, SealedBatch, SealedPage, seal_batch};
