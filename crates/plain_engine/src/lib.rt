//! The engine over a plain log: mini-transactions are committed to a journal, written out by
//! `sync`, and counted again in what a crash leaves.
//!
//! What the layer above may rely on, over any `Disk`:
//!
//! 1. In each image since `start` in which no torn range passes its checksum, the log recovers to
//!    the first k entries of the journal, and no more than k were acknowledged by then
//!    (`StandsSince`). Each call shows it after Ok and after each refusal, for each moment inside
//!    it too; the engine's type keeps it in terms of a snapshot of the disk that `start` took.
//! 2. The log's file at its last sync, which is what a crash leaves that loses each later write,
//!    recovers to exactly the settled entries, and from `acked` to `settled` many were acknowledged
//!    (`IsExact`). The two are equal, but where memory was refused or a `tell` of the disk failed
//!    (`IsAckedOrUntold`). With nothing pending each image has exactly the settled entries (`AllRecover`).
//! 3. `commit` adds one entry, with its place and its LSN, or changes nothing.
//! 4. `sync` acknowledges the whole journal, after the log's sync and not before, and changes
//!    nothing of the journal. Its turns are a write for each pending block and one sync.
//! 5. After a fault of the disk every call that can be refused answers `Down` with the same turn,
//!    and after a refused growth of the disk `OutOfMemory`.
//! 6. At each moment since `start` each unsynced write is a whole block of the log, whose checksum
//!    refuses it once its last byte is inverted (`AllRefusable`). So what a crash of a disk in
//!    memory leaves stands, whatever it keeps, loses or tears (`crash-stands`).
//! 7. `scan` gives the texts of the longest run of valid blocks, as the disk reads. A file has one
//!    such run, so an image that stands keeps as many entries as `scan` gives texts (`kept-scan`).
//! 8. What a disk keeps over each of its calls (`is_later`), `create`, `start`, `sync` and `scan`
//!    keep too, and the other calls leave the disk as it was.
//! 9. The log's file, which is interim: a header, two checkpoints and 256 ring blocks, of which each
//!    holds one mini-transaction in clear. `create` makes it on a disk without a log.
#![tactic(auto)]

mod block;
mod engine;
mod fault;
mod format;
mod journal;
mod log;
mod reading;
mod text;

pub use engine::{Engine, Halted, StartRefusal};
pub use fault::{EngineFault, StartFault, State};
pub use format::create;
pub use journal::{Author, Entry, Journal, Receipt};
pub use reading::{read_block, scan};

#[cfg(test)]
mod tests;
