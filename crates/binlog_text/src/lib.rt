//! Binary logs that a MariaDB server wrote, ciphered or not: their events, and a reader over a library
//! of files.
//!
//! What this layer promises, the definitions being in specs/:
//!
//! 1. [`encipher_event`] is the event text's cipher (`enciphered_event`), and [`decipher_event`] undoes
//!    it, in place, for every event of at least 19 bytes.
//! 2. [`LogReader`] gives exactly the events of the file in order, and None exactly at its end
//!    (`answered`). Each refusal comes exactly where it is the first in order, with its place and
//!    values.
//! 3. An event that is given is the bytes of the file at its place, or enciphers to them under the key
//!    and nonce that the start encryption before it names (`StandsStored`).
//! 4. After a fault of the file or want of memory the reader stands where it stood, and holds the bytes
//!    of the file that it held; after every other refusal it answers the same again. A fault of the file
//!    is one of the log's name, and comes only where bytes of the next event, or of its header, are to
//!    be read that the reader doesn't hold (`WantsFile`). A fault is never dropped: at every other answer
//!    the library's count of faults stood still. So did its count of refused memory at each answer but a
//!    fault of the file or want of memory, and its count of absences but where the file is missing.
//! 5. An [`EventView`] lends the plain event from the reader's buffer. The buffer has no bytes at
//!    first. A call makes it no longer than one piece of the file, 65536 bytes, or what the file has
//!    of the event that is due (`due_at`), where it isn't longer already; over a library that doesn't
//!    tell its files, no longer than 16,777,216 bytes, the most that an event may have.
//!
//! Numbers in a binary log have their lowest byte first. No body is decoded.
#![tactic(auto)]

mod answering;
mod buffer;
mod cipher;
mod fault;
mod format;
mod judging;
mod opening;
mod piece;
mod reader;
mod reading;
mod stage;
mod start;
mod view;

pub use cipher::{decipher_event, encipher_event};
pub use fault::BinlogFault;
pub use reader::LogReader;
pub use view::EventView;

#[cfg(test)]
mod tests;
