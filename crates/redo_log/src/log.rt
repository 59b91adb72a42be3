// The log in memory: which blocks of its ring are used, and the blocks that are pending.
ghost use Rattle.std.specs.Prelude.{◌≡◌, ◌+◌, ◌*◌, ◌<◌, ◌≤◌, ◌^◌, Ok, None, [], List};
ghost use Rattle.disk_model.specs.Event.{Event};
ghost use Rattle.places.specs.Places.{place};
ghost use Rattle.ring_log.specs.Ring.{RingState, IsRingJournal};
ghost use Rattle.redo_log.specs.Blocks.{Keys, redo_form};
ghost use Rattle.redo_log.specs.Log.{IsOpen, durable, empty_log, free_of, pending_at, pending_count, FitsRing};
ghost use Rattle.redo_log.specs.Recorded.{AreBlocksOnce, AreBlocksBelow, BlocksOnce};
ghost use Rattle.store_files.specs.Header.{least_ring_blocks, most_ring_blocks};

use crate::layout::BLOCK;
use cause_core::OutOfMemory;
use std::alloc::Global;
use std::marker::Model;
use thiserror::Error;

/// Why a mini-transaction isn't taken.
#[derive(Clone, Copy, Debug, PartialEq, Eq, Error)]
pub enum LogFault {
    /// Its last block would have a number past [`redo_text::LAST_BLOCK`].
    #[error("no block number is left behind {next}")]
    Spent { next: u64 },
    /// It has more blocks than the ring has free.
    #[error("{needed} blocks are needed and {free} are free")]
    LogFull { needed: u64, free: u64 },
    /// The machine had no memory for the call.
    #[error("out of memory")]
    OutOfMemory,
}

/// The log of a session: a ring of so many blocks, whose last synced checkpoint has this sequence
/// and this first block, the number of the next block, the number behind the blocks that were handed
/// to the disk, and the pending blocks, which are in memory until they are durable. Contracts see
/// these six.
#[derive(Drop)]
pub struct Log {
    pub(crate) blocks: u64,
    pub(crate) from: u64,
    pub(crate) sequence: u64,
    pub(crate) next: u64,
    // Behind the blocks that were handed to the disk, which are more than the durable ones once a
    // write out failed.
    pub(crate) handed: u64,
    // The pending blocks, 4096 bytes each, one after another.
    pub(crate) pending: Vec<u8>,
}

impl Model for Log {
    ghost use Rattle.redo_log.specs.State.{LogState};

    ghost Value = { LogState };

    ghost use Rattle.redo_log.specs.Log.{IsOpen};

    ghost view = { λ s. record { blocks = s.blocks; from = s.from; sequence = s.sequence; next = s.next; handed = s.handed; pending = s.pending.items } };

    ghost invariant = { λ s. IsOpen (record { blocks = s.blocks; from = s.from; sequence = s.sequence; next = s.next; handed = s.handed; pending = s.pending.items }) };
}

impl Log {
    /// The log of a ring of so many blocks with nothing pending, whose last synced checkpoint has
    /// this sequence, and whose next block is the one from which the run begins there.
    ///
    /// # Errors
    /// None: it takes no memory before the first append.
    pub fn new(alloc: Global, blocks: u64, from: u64, sequence: u64) -> Result<Log, OutOfMemory>
        requires least { least_ring_blocks ≤ blocks }
        requires most { blocks ≤ most_ring_blocks }
        requires low { 2 ≤ from }
        requires high { from ≤ 2 ^ 50 }
        requires some { 1 ≤ sequence }
        requires below { sequence < from }
        ensures log { result ≡ Ok (empty_log blocks from sequence) }
        ensures open { IsOpen (empty_log blocks from sequence) }
        // The record of writes agrees with it, where that has one block a number, and none of this number or a later one.
        ensures recorded { (es : List Event) → AreBlocksOnce es → AreBlocksBelow from es → BlocksOnce (empty_log blocks from sequence) es }
        // A ring with these numbers is one that it fits, and its journal begins there.
        ensures fits { (r : RingState) → r.sequence ≡ sequence → r.from ≡ from → r.written ≡ from → FitsRing r (empty_log blocks from sequence) }
        ensures journal { (keys : Keys) (r : RingState) → r.from ≡ from → r.settled ≡ from → r.written ≡ from → r.newer ≡ None → IsRingJournal blocks (redo_form keys) r from [] from }
    {
        Ok(Log {
            blocks,
            from,
            sequence,
            next: from,
            handed: from,
            pending: Vec::new(alloc),
        })
    }

    /// How many blocks are free: those of the ring but the ones from the last synced checkpoint's
    /// first block on.
    pub fn free(&self) -> u64
        ensures free { result ≡ free_of self.now }
        ensures open { IsOpen self.now }
    {
        self.blocks - (self.next - self.from)
    }

    /// The number of the next block.
    pub fn next(&self) -> u64
        ensures next { result ≡ self.now.next }
        ensures open { IsOpen self.now }
    {
        self.next
    }

    /// The number of the first pending block, or of the next one where none is pending.
    pub fn durable(&self) -> u64
        ensures durable { result ≡ durable self.now }
        ensures open { IsOpen self.now }
    {
        self.next - self.pending_count() as u64
    }

    /// How many blocks the ring has.
    pub fn blocks(&self) -> u64
        ensures { result ≡ self.now.blocks }
    {
        self.blocks
    }

    /// The first block of the last synced checkpoint's run.
    pub fn from(&self) -> u64
        ensures from { result ≡ self.now.from }
        ensures open { IsOpen self.now }
    {
        self.from
    }

    /// The sequence of the last synced checkpoint.
    pub fn sequence(&self) -> u64
        ensures { result ≡ self.now.sequence }
    {
        self.sequence
    }

    // How many blocks are pending.
    pub(crate) fn pending_count(&self) -> usize
        ensures count { result ≡ pending_count self.now }
        ensures open { IsOpen self.now }
    {
        self.pending.len() / BLOCK
    }

    // The pending block at this place, from 0.
    pub(crate) fn pending_block(&self, i: usize) -> &[u8]
        requires { i < pending_count self.now }
        ensures { result.now ≡ pending_at self.now i }
    {
        &self.pending[i * BLOCK..i * BLOCK + BLOCK]
    }
}
