//! A disk that counts its turns, and that stops at the first call that isn't answered Ok.
//!
//! A turn is a write or a sync. [`Counted`] is the disk that it is made of, with a count of its turns
//! beside it. The first call that is answered an error stops it: each later call answers the same
//! error and doesn't reach the disk. So the count is the number of the turn that failed, whichever
//! layer made the calls, and what was done is what was done before the failing call, with maybe
//! that call's own event behind it. This is what `is_later` of its contract says, so every layer over
//! a [`Disk`](disk_model::Disk) hands it on.
#![tactic(auto)]

mod counted;
mod laws;
#[cfg(test)]
mod tests;

pub use counted::{Counted, Stop};
pub use laws::answer_tells_stop;
