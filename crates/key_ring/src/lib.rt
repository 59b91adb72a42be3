//! The keys of a store, each under its id and version, and the local keys that they make.
//!
//! A [`Ring`] is a finite map from an id and a version to the bytes of an AES key, seen by
//! contracts as the ascending list of its pairs with their keys. What holds of every ring:
//!
//! 1. Its pairs ascend by id, then by version, and none comes twice.
//! 2. Each version is at least 1.
//! 3. Each key has 16, 24 or 32 bytes.
//!
//! A local key is one block: the salt of a tablespace or of a log, enciphered under a key of the
//! ring. [`LocalCache`] remembers the local keys that were used last and answers as the ring does.
#![tactic(auto)]

mod cache;
mod key_bytes;
mod ring;
#[cfg(test)]
mod tests;

pub use cache::{LocalCache, LocalName};
pub use key_bytes::KeyBytes;
pub use ring::{Ring, RingFault};
