//! A plain reader of images, for tests and for reading alone: what the files of a store recover to
//! under keys.
//!
//! It reads bytes that lie in memory, page by page, slowly and in the order of the definition, and
//! writes nothing.
//!
//! [`recover`] answers the contents, the header, the log's text and the number of the run's last
//! block exactly where `Recovers` of crash_image holds with them, and else the first condition of it
//! that fails, and where. [`named`] answers the keys that such files need, the pairs of `Named`.
#![tactic(auto)]

mod checks;
mod files;
mod naming;
mod reading;
mod recovering;
mod refusal;

pub use files::{SpaceFile, StoreFiles};
pub use naming::named;
pub use reading::{Recovered, recover};
pub use refusal::Refusal;

#[cfg(test)]
mod fixture;
#[cfg(test)]
mod place_rows;
#[cfg(test)]
mod run_rows;
#[cfg(test)]
mod tests;
