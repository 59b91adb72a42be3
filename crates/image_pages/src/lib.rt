//! A plain reader of a store's pages, for tests and for reading alone: what each page is read from,
//! and what it recovers to under the keys with the changes of the log's run.
//!
//! 1. [`chosen_text`] answers, by the bytes of a page's home and of the doublewrite file, exactly
//!    what `IsChosen` of store_image says: the home; else the newest copy, of several the one of
//!    least index; else that the page is unused; or that it can't be read. [`chosen_bytes`] answers the
//!    text itself.
//! 2. [`live_text`] answers the text of a slot exactly where `IsLive` says that it can be read from.
//! 3. [`recover_page`] and [`recover_head`] answer what the chosen text gives with the later changes
//!    of the run (`PageRecovers`), or the one [`PageFault`] for which it gives nothing.
//! 4. [`other_slot`] and [`other_head_slot`] find the first live slot that doesn't give the same page
//!    (`SlotRecovers`).
#![tactic(auto)]

mod acting;
mod choosing;
mod copies;
mod fault;
mod head;
mod pages;
mod plain;
mod slots;
mod source;
mod texts;

pub use choosing::{Chosen, chosen_text, is_placed};
pub use copies::{Newest, newest_copy};
pub use fault::{PageFault, TextFault};
pub use pages::{chosen_bytes, recover_head, recover_page};
pub use slots::{live_text, other_head_slot, other_slot};
pub use source::{PageSource, SpaceKeys};

#[cfg(test)]
mod tests;
