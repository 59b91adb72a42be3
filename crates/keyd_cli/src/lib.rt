//! The command line of `keyd`: the words and the schedule of `drill`, the drill, and what it prints.
//!
//! What the program above may rely on, of `keyd_now`:
//!
//! 1. Words that are no list of `drill` are refused by the index of the first word with which no
//!    list goes on, or by their number (`IsUsage`), before anything else is touched.
//! 2. Then the key files are loaded, in order, and then the input is read whole; the first that is
//!    not as it should be gives the status, with its cause (`IsEnd`): a fault of the library, the
//!    input or the output only where its count rose. Want of memory alone is free.
//! 3. At Done the input was a schedule, and it was drilled (`IsDrilled`): its statements were done in
//!    order on a store that was empty, all of them or those before the one in which the disk was
//!    stopped; the stop is told exactly where that turn was made; the crash of the session's disk
//!    keeps exactly so many of the journal's entries as are told, none that was acknowledged is
//!    missing, and no more than those acknowledged are kept where there was no stop or each unsynced
//!    write is lost.
//! 4. At Done the output was given exactly the lines of the session and the report of the pages after
//!    the entries that are kept; after a fault of the output, or where it was refused memory, a front
//!    of that text; else nothing.
//! 5. The disk that is handed in and the files of the library are as they were. It always returns.
#![tactic(auto)]

mod act;
mod command;
mod drill;
mod keys;
mod number;
mod outcome;
mod parts;
mod plan;
mod print;
mod schedule;
mod session;
mod status;
mod words;

pub use command::keyd_now;
pub use outcome::{Answer, DrillEnd, Drills, Ended, Replies, Reply};
pub use status::Status;
pub use words::check_words;

#[cfg(test)]
mod tests;
