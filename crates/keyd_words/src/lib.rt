//! The words of `keyd`: its commands, their options, and what a list of words asks for.
//!
//! What the layers above may rely on, of [`read_words`]:
//!
//! 1. A list of words is read once into one [`Plan`], which is what the words say (`Says`), and
//!    they say nothing else (`SaysOnly`). One table has a row for each option: its word, how its
//!    value reads, how often it may stand, and whether each command takes or needs it (`row_of`).
//! 2. Words that say nothing are refused by the least index i such that no valid list begins with
//!    the first i + 1 words, or by their number (`IsUsageAt`), over all commands that the caller has.
//! 3. What the plan has is within the bounds that the words have: 1 to 64 key files, 1 to 16
//!    tablespaces, 1 to 64 choices, and each number between its bounds (`IsWithinLimits`).
//! 4. Want of memory alone is free.
#![tactic(auto)]

mod command;
mod draft;
mod fault;
mod number;
mod plan;
mod reading;
mod setting;
mod table;
mod text;
mod value;

pub use command::Command;
pub use fault::WordsFault;
pub use plan::{
    CrashOptions, CreateOptions, DrillOptions, KeyOptions, MakeOptions, Plan, RunOptions,
    StepOptions,
};
pub use reading::read_words;
pub use text::{CrashChoices, FileNames, NewSpace, NewSpaces, OptionText};

#[cfg(test)]
mod tests;
