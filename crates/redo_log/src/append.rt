// Mini-transactions are added to the pending blocks, and taken back.
ghost use Rattle.std.specs.Prelude.{◌≡◌, ℕ, ◌+◌, ◌-◌, ◌*◌, ◌<◌, ◌≤◌, ◌^◌, List, length, IfOk, OnOk, OnErr, IfErr};
ghost use Rattle.byte_list.specs.Bytes.{AreBytes};
ghost use Rattle.redo_text.specs.Block.{block_count};
ghost use Rattle.redo_text.specs.Reading.{block_flags, is_first};
ghost use Rattle.redo_text.specs.Text.{text_of, AreAllowed};
ghost use Rattle.disk_model.specs.Event.{Event};
ghost use Rattle.disk_model.specs.Past.{Past, At};
ghost use Rattle.ring_log.specs.Ring.{RingState, RingReady};
ghost use Rattle.redo_log.specs.Blocks.{Keys, redo_form};
ghost use Rattle.redo_log.specs.Log.{IsOpen, pending_at, pending_count, FitsRing};
ghost use Rattle.redo_log.specs.Append.{appended, taken_back, with_pending, IsRedoKey, IsLogRefusal, IsEntry, HasLast, HasRoomFor, JournalGrows, JournalShrinks};
ghost use Rattle.redo_log.specs.Recorded.{BlocksOnce};
ghost use Rattle.store_image.specs.View.{block_bytes, most_mtr_blocks};

use crate::layout::{BLOCK, BLOCK_BYTES};
use crate::{Log, LogFault};
use byte_list::fields::be16_at;
use redo_text::{LAST_BLOCK, Mtr, RedoKey, encode, mtr_blocks};
use std::alloc::Global;

impl Log {
    /// Adds the blocks of a mini-transaction under a key, and answers its LSN. They are pending. It
    /// must not be empty, its changes must be ones that the format allows, and it must have at most
    /// 16 blocks.
    ///
    /// # Errors
    /// The first of these, in this order, and nothing has changed then: [`LogFault::Spent`] exactly
    /// where the number behind its last block is past [`LAST_BLOCK`]; [`LogFault::LogFull`] exactly
    /// where it has more blocks than are free; [`LogFault::OutOfMemory`].
    pub fn append(&mut self, alloc: Global, mtr: &Mtr, key: &RedoKey) -> Result<u64, LogFault>
        requires some { 0 < length mtr.now }
        requires many { length mtr.now ≤ 65536 }
        requires allowed { AreAllowed mtr.now }
        requires most { block_count (text_of mtr.now) ≤ most_mtr_blocks }
        requires version { 1 ≤ key.now.version }
        ensures lsn { IfOk result (λ lsn. lsn ≡ (self.old.next + block_count (text_of mtr.now)) * block_bytes) }
        ensures room { OnOk result (HasRoomFor self.old (block_count (text_of mtr.now))) }
        ensures added { OnOk result (self.new ≡ appended self.old mtr.now key.now) }
        ensures entry { OnOk result (IsEntry self.old self.new mtr.now key.now) }
        ensures last { OnOk result (HasLast self.new (block_count (text_of mtr.now))) }
        // Taken back again it leaves the log as it was.
        ensures undone { OnOk result (taken_back self.new (block_count (text_of mtr.now)) ≡ self.old) }
        // With its blocks pending, a ring that the log fitted is fitted, as ready as it was, and has the mini-transaction in its journal.
        ensures fits { OnOk result ((r : RingState) → FitsRing r self.old → FitsRing (with_pending r self.new) self.new) }
        ensures ready { OnOk result ((keys : Keys) (r : RingState) (past : Past) → At (RingReady self.old.blocks (redo_form keys) r) past → At (RingReady self.old.blocks (redo_form keys) (with_pending r self.new)) past) }
        ensures journal { OnOk result (JournalGrows self.old self.new mtr.now key.now) }
        // A record of writes that agrees with the log agrees with it still.
        ensures recorded { OnOk result ((es : List Event) → BlocksOnce self.old es → BlocksOnce self.new es) }
        ensures refusal { IfErr result (IsLogRefusal self.old (block_count (text_of mtr.now))) }
        ensures unchanged { OnErr result (self.new ≡ self.old) }
        ensures open { IsOpen self.new }
    {
        let needed = mtr_blocks(mtr) as u64;
        if self.next + needed > LAST_BLOCK {
            return Err(LogFault::Spent { next: self.next });
        }
        let free = self.free();
        if needed > free {
            return Err(LogFault::LogFull { needed, free });
        }
        known_key(key);
        let Ok(blocks) = encode(alloc, mtr, self.next, key) else {
            return Err(LogFault::OutOfMemory);
        };
        let Ok(()) = self.pending.extend_from_slice(&blocks) else {
            return Err(LogFault::OutOfMemory);
        };
        self.next += needed;
        Ok(self.next * BLOCK_BYTES)
    }

    /// Takes back the mini-transaction of this LSN, whose blocks must be the last pending ones: they
    /// are dropped, and the next block is the first of them again. None of them may have been handed
    /// to the disk, since other bytes get their numbers then, and with these their IVs.
    pub fn take_back(&mut self, lsn: u64)
        requires last { (k : ℕ) × HasLast self.old k }
        requires lsn { lsn ≡ self.old.next * block_bytes }
        ensures taken { (k : ℕ) → HasLast self.old k → self.new ≡ taken_back self.old k }
        // A ring that the log fitted is fitted still, and its journal is without the mini-transaction.
        ensures fits { (r : RingState) → FitsRing r self.old → FitsRing r self.new }
        ensures journal { JournalShrinks self.old self.new }
        ensures recorded { (es : List Event) → BlocksOnce self.old es → BlocksOnce self.new es }
        ensures open { IsOpen self.new }
    {
        let _ = lsn;
        let kept = self.last_first();
        let dropped = self.pending_count() - kept;
        self.pending.truncate(kept * BLOCK);
        self.next -= dropped as u64;
    }

    // Where the last pending block stands that begins a mini-transaction.
    fn last_first(&self) -> usize
        ensures within { result ≤ pending_count self.now }
        ensures last { (k : ℕ) → HasLast self.now k → result + k ≡ pending_count self.now }
    {
        let n = self.pending_count();
        for i in 0..n {
            let at = n - 1 - i;
            if begins(self.pending_block(at)) {
                return at;
            }
        }
        0
    }
}

// Whether a block begins a mini-transaction.
fn begins(block: &[u8]) -> bool
    requires { length block.now ≡ block_bytes }
    ensures { result ≡ is_first (block_flags block.now) }
{
    be16_at(block, 14) % 2 == 1
}

// Tells that a key is one of 16 bytes, with a version of 32 bits.
fn known_key(key: &RedoKey)
    requires { 1 ≤ key.now.version }
    ensures { IsRedoKey key.now }
{
    known_version(key.version);
    known_local(&key.local);
}

fn known_version(version: u32)
    ensures { version < 2 ^ 32 }
{
    let _ = version;
}

fn known_local(local: &[u8; 16])
    ensures long { length local.now ≡ 16 }
    ensures bytes { AreBytes local.now }
{
    let _local = *local;
    known_bytes(local);
}

fn known_bytes(bytes: &[u8])
    ensures { AreBytes bytes.now }
{
    let _ = bytes.len();
}
