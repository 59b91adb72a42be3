//! Lists of bytes: what every crate above says of them in the same words.
//!
//! 1. In specs/: a list of bytes (`AreBytes`), zero bytes (`zeros`), the bytes from a place on
//!    (`range`, `part_of`), a list with other bytes at a place (`put`, `with_part`), the number in the
//!    bytes at a place (`be32_at` and its like), and the XOR of two lists (`xored`). Their laws stand
//!    in proofs/.
//! 2. [`fields`] reads and writes numbers at their places in a slice, and changes no other byte.
//! 3. [`zero_bytes`] makes zero bytes, and [`copy_with`] a copy of bytes with others at a place; both
//!    refuse nothing but want of memory.
#![tactic(auto)]

pub mod fields;
mod made;

pub use made::{copy_with, zero_bytes};

#[cfg(test)]
mod tests;
