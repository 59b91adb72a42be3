//! Opening a store: what its disk says is found stage by stage, and the first reason is answered for
//! which it isn't to be opened.
//!
//! Stages that only read. Each leaves the disk's past as it was, answers the disk's
//! fault only where its count of faults rose, and states its refusals over the disk as it reads:
//!
//! 1. [`find_header`] finds the header, and refuses a log that isn't that of a store.
//! 2. [`check_lengths`] refuses the first file that has another length than the header says.
//! 3. [`find_checkpoint`] finds the newest valid checkpoint, or that there is none.
//! 4. [`find_pages`] finds what each page is read from, and refuses the first that can't be read.
//! 5. [`find_heads`] reads what the spaces are from their page 0, and refuses the first that says
//!    something else than the header.
//! 6. [`check_keys`] refuses the least key that reading the store needs and the ring lacks.
//! 7. [`find_changes`] reads the run once, and finds what it changes, or refuses the first
//!    mini-transaction that doesn't say changes of the store's pages.
//! 8. [`check_floors`] refuses the first space whose least version is above the active one, and
//!    [`check_numbers`] a log whose numbers end before the store could go on.
//!
//! [`look`] is these steps, one after another: what it is refused for is the refusal of the first step
//! that doesn't find what it looks for.
//!
//! Behind them stand the parts that write to homes: [`restore_homes`] writes the torn ones from
//! their copies, and [`put_group`] a group of sealed pages. Each lucky image of each moment of theirs
//! recovers to what was opened.
//!
//! Of what applies the run's later changes between these two, a round of pages at a time: [`next_range`]
//! finds the pages that a round takes, [`load_pages`] loads them from their homes into a pool, and
//! [`apply_run`] makes the run's changes there, with [`apply_text`] for each mini-transaction, both
//! together [`load_round`];
//! [`seal_range`] seals pages of it, and [`write_group`] puts a group of them, [`write_groups`] all of a range.
//! [`apply_round`] does all of a round, [`apply_space`] of a space, and [`apply_spaces`] of all of them.
#![tactic(auto)]

mod applying;
mod changes;
mod changing;
mod checkpoint;
mod floors;
mod group_writing;
mod groups;
mod header;
mod heads;
mod keys;
mod layout;
mod lengths;
mod loading;
mod looking;
mod notes;
mod pages;
mod putting;
mod reading;
mod restoring;
mod round;
mod round_loading;
mod rounds;
mod run_text;
mod sealing;
mod settling;
mod space_list;
mod space_rounds;
mod spaces;

pub use applying::apply_run;
pub use changes::{PageLsns, RunChanges, SpaceLsns, find_changes};
pub use changing::apply_text;
pub use checkpoint::find_checkpoint;
pub use floors::{check_floors, check_numbers};
pub use group_writing::write_groups;
pub use groups::write_group;
pub use header::find_header;
pub use heads::find_heads;
pub use keys::check_keys;
pub use lengths::check_lengths;
pub use loading::{Loaded, load_pages};
pub use looking::{Analysis, look};
pub use notes::{NoteSource, PageNote, PageNotes, SpaceNotes};
pub use pages::find_pages;
pub use putting::put_group;
pub use restoring::restore_homes;
pub use round::apply_round;
pub use round_loading::load_round;
pub use rounds::{Round, next_range};
pub use sealing::{SealKey, seal_range};
pub use settling::settle_homes;
pub use space_rounds::apply_space;
pub use spaces::apply_spaces;

#[cfg(test)]
mod fixture;
#[cfg(test)]
mod round_tests;
#[cfg(test)]
mod tests;
