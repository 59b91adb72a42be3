//! The schedule language of `keyd`: what a script says, and whether a store can run it.
//!
//! What the layers above may rely on:
//!
//! 1. [`read_script`] accepts exactly the grammar (`IsScript`), the statements are the only reading
//!    of the text (`IsOnlyScript`), and no line is bad. Else it answers the first bad line with the
//!    first fault in order of its words (`IsFirstBad`), or [`ScriptFault::TooMany`] where no line is
//!    bad and there are more than 10,000 statements; each of them excludes a reading and the other,
//!    and no other line or fault is the first (`Excludes`). Want of memory alone is free.
//! 2. Each script that is accepted, printed by the grammar's own spelling, reads as itself
//!    (`printed`).
//! 3. [`check_script`] answers the first line that a store of these spaces refuses, with its first
//!    refusal in the stated order (`refused_in`), and takes no memory. Its blocks are those of the
//!    changes' text in the log, and its ranges are the log's (`TellsRange`).
#![tactic(auto)]

mod act;
mod batches;
mod changes;
mod checking;
mod fault;
mod fields;
mod names;
mod number;
mod parts;
mod reading;
mod script;
mod statements;

pub use act::{Act, ScriptChange, ScriptChanges};
pub use checking::check_script;
pub use fault::{LineFault, Refused, ScriptFault, Why};
pub use reading::read_script;
pub use script::{Script, Statement};

#[cfg(test)]
mod tests;
