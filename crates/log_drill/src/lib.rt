//! A session on a redo log, in a memory disk that stops at each turn and crashes.
//!
//! [`drill_log`] goes three times round a ring of 32 blocks. At each turn of each call a copy of the
//! disk stops and crashes, with each unsynced write lost, kept or torn; it counts the images in which
//! the log is exactly what it must be: the newest checkpoint is the last synced one, or the one that
//! was being written where its write is kept, and the run from it is what was appended, up to the
//! last synced block, or up to the last mini-transaction whose blocks were all written where writes
//! are kept.
//!
//! That no call of the log is made where its contract does not allow it is proved, call by call, and
//! that the session's ring has the journal of what was appended, through its stops and crashes too.
//! [`commit`] carries the journal of any ring on, over any disk.
#![tactic(auto)]

mod committing;
mod crashing;
mod reading;
mod rows;
mod session;

pub use committing::commit;
pub use crashing::{DrilledLog, ScanCount, count_scan, drill_log};
pub use reading::{RunHeld, newest_checkpoint, read_run};
pub use rows::CrashTally;
pub use session::{DrillHalt, RING_BLOCKS, make_log};

#[cfg(test)]
mod tests;
