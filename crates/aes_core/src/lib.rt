//! AES (FIPS 197) and the modes that data at rest is kept in. A contract sees a key as the list of its
//! bytes, and says of each call what it makes of which bytes, by the definitions in specs/:
//!
//! - [`BlockKey`]: one block, both ways (`encrypted`, `decrypted`).
//! - [`cbc_tail_encrypt`], [`cbc_tail_decrypt`], [`ctr_apply`]: texts of any length in CBC with tail
//!   and in CTR (`cbc_tail`, `uncbc_tail`, `ctr`), and [`Algorithm`], the choice between the two.
//! - [`cbc_pad_encrypt`], [`cbc_pad_decrypt`]: CBC over a padded text (`cbc_pad`).
//!
//! Each deciphering call undoes its enciphering call for every length. Nothing here takes memory but
//! the two padded calls, and nothing is refused but a key of another length and padded bytes.
//!
//! One block goes by tables of columns; where blocks go side by side, in CTR and in deciphering CBC,
//! eight at a time go as planes of bits, without tables, and what is left four at a time and one by
//! one. The tables are read at places that depend on the key and the text, so the time does too: no
//! constant time is claimed. [`plain`] has the bodies without either, for comparison.
#![tactic(auto)]

mod algorithm;
mod circuit;
mod expansion;
mod inv_circuit;
mod key;
mod layers;
mod modes;
mod pad;
pub mod plain;
mod planes;
mod tables;
mod transpose;
mod words;
mod xor;

pub use algorithm::Algorithm;
pub use key::BlockKey;
pub use modes::{cbc_tail_decrypt, cbc_tail_encrypt, ctr_apply};
pub use pad::{PadFault, cbc_pad_decrypt, cbc_pad_encrypt};

#[cfg(test)]
mod tests;
