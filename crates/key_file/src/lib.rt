//! Key files: the keys of a store, by id, as MariaDB's file key management plugin reads them.
//!
//! A file has a line for each key: an id, a semicolon and the key in hex. It may be enciphered, as
//! `openssl enc -aes-256-cbc` writes it, under a password. [`load`] reads files in order from a
//! library and gives their keys as a ring: the k-th file has version k of its keys.
//!
//! What the layer promises:
//!
//! 1. [`parse_plain`] answers what the definition `Reads` relates to the bytes: the keys of the
//!    lines, or the first fault. No key list is without id 1, no key has another length than 16, 24
//!    or 32 bytes, and no id is outside 1 to 4294967295.
//! 2. [`derive`] is the key derivation of `openssl enc` with SHA-1 or SHA-256, and [`read_salted`]
//!    gives the text that was enciphered, or says why there is none.
//! 3. [`load`] answers for the first file that does not read, and there is no second answer: an
//!    enciphered file has at most one text under a password. Every fault has its cause in that file,
//!    in the secret or in a count of the library that rose, and a fault of the library is that of a
//!    file that was due.
//!
//! No message of a fault shows a key or a password.
#![tactic(auto)]

mod derivation;
mod fault;
mod keys;
mod line;
mod load_fault;
mod name;
mod plain;
mod reading;
mod ring_files;
mod salted;
#[cfg(test)]
mod tests;

pub use derivation::{KeyDigest, derive};
pub use fault::KeyFault;
pub use key_ring::KeyBytes;
pub use keys::{KeyItem, KeyList};
pub use load_fault::LoadFault;
pub use name::Name;
pub use plain::parse_plain;
pub use ring_files::load;
pub use salted::read_salted;
