//! `innochecksum`: inspects the pages of a tablespace that a MariaDB server wrote in the format
//! full_crc32, ciphered or not, in pages of 4096, 8192, 16384, 32768 or 65536 bytes.
//!
//! What this layer promises, the definitions being in specs/:
//!
//! 1. [`innochecksum`] prints and answers `inspect_words`: the report on the file that the words name,
//!    by the list of all its whole pages and the rest, as the words ask for it. The words are one simple
//!    command of `clap`, and what they ask for is said by the matches that `clap` has on them.
//! 2. Before a fault of the file or of the output, or want of memory, what was printed is a front of that
//!    report's text.
//! 3. `Usage` comes only for words that the command doesn't take, `Missing`, `FileFault` and `OutFault`
//!    only where that object's count rose. Where the words are taken, the file is there and no count rose,
//!    the status is the report's or `OutOfMemory`.
//! 4. One page is held at a time, in a buffer of 65536 bytes, and one count for each page type.
//!
//! [`inspect`] is the same from options on, [`read_words`] reads the words, and [`end_with`] says what number
//! and line a status comes to.
#![tactic(auto)]

mod ending;
mod endings;
mod inspection;
mod lines;
mod looks;
mod options;
mod status;
mod tally;
mod top;
mod words;

pub use endings::{ProgramEnd, end_with};
pub use inspection::inspect;
pub use options::Options;
pub use status::CheckStatus;
pub use top::innochecksum;
pub use words::{CheckRequest, read_words};

#[cfg(test)]
mod tests;
