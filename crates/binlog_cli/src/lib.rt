//! `binlog`: lists the events of a binary log that a MariaDB server wrote, ciphered or not.
//!
//! What this layer promises, the definitions being in specs/:
//!
//! 1. [`list_binlog`] prints and answers a listing of the words (`IsWordsListing`): the key files that the
//!    words name are read first, and then a line is printed for each event of the log, and its end or the
//!    first refusal is answered. There is no second listing. The words are one simple command of `clap`,
//!    and what they ask for is said by the matches that `clap` has on them.
//! 2. Before a fault of a file or of the output, or want of memory, what was printed is a front of that
//!    listing's text.
//! 3. How far the log was reached has one meaning at each status (`IsEndedAt`): at Done it is the log's
//!    length, at a refusal the place of the event that is refused, and else the place behind the events
//!    that were read. [`binlog`] answers the status alone.
//! 4. `Usage` comes only for words that the command doesn't take, for a digest of another name and for
//!    more than 64 key files. `FileFault` and `OutFault` come only where that object's count rose, and a
//!    fault of a file is one of a file that was due: of the log, only where bytes of it were to be read; a
//!    fault of the output comes only where there was text to give. Where the words are taken and no
//!    count rose, the status is the listing's or `OutOfMemory`.
//! 5. The log is read in pieces of 65536 bytes, one event is held at a time, and as many bytes of text
//!    are gathered before they are given.
//!
//! [`read_words`] reads the words, and [`end_with`] says what number and line an outcome comes to. A
//! [`NamingLibrary`] over the files keeps the name of the one that failed last, for that line.
#![tactic(auto)]

mod endings;
mod keys;
mod lines;
mod listing;
mod naming;
mod printing;
mod status;
mod top;
mod words;

pub use endings::{ListEnd, end_with};
pub use naming::NamingLibrary;
pub use status::{ListOutcome, ListStatus};
pub use top::{binlog, list_binlog};
pub use words::{ListRequest, read_words};

#[cfg(test)]
mod tests;
