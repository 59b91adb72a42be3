// The calls of a session: mini-transactions of 1, 2 and 5 blocks, a write out, and a checkpoint.
ghost use Rattle.std.specs.Prelude.{◌≡◌, ℕ, ◌+◌, ◌<◌, ◌≤◌, Ok, OnOk, OnErr, IfOk, List, length, [], ◌∷◌, false};
ghost use Rattle.disk_model.specs.Contents.{events};
ghost use Rattle.disk_model.specs.Event.{Event, is_there};
ghost use Rattle.disk_model.specs.Past.{At, Throughout};
ghost use Rattle.disk_model.specs.declared.names.FileName.TheVariants.{Log as LogFile};
ghost use Rattle.places.specs.Places.{HasPlaces};
ghost use Rattle.redo_text.specs.Block.{block_count};
ghost use Rattle.redo_text.specs.Text.{text_of, AreAllowed};
ghost use Rattle.places.specs.Batches.{From};
ghost use Rattle.ring_log.specs.Ring.{RingReady};
ghost use Rattle.redo_log.specs.Blocks.{Keys, IsStoreKey, redo_form};
ghost use Rattle.redo_log.specs.Fresh.{IsFresh, fresh_ring};
ghost use Rattle.redo_log.specs.Log.{durable, handed_over};
ghost use Rattle.redo_log.specs.Recorded.{KeepsItems};
ghost use Rattle.log_drill.specs.Kept.{drill_key, KeepsJournal, MayBegin, IsBetween};
ghost use Rattle.crash_image.specs.LogForm.{log_places};
ghost use Rattle.store_image.specs.View.{most_mtr_blocks};
ghost use Rattle.page_places.specs.Texts.{page_body_bytes};

use aes_core::Algorithm;
use cause_core::OutOfMemory;
use disk_model::{Disk, DiskError, FileName, MemDisk};
use page_places::PAGE_BODY_AT;
use redo_log::{BLOCK_BYTES, Log, LogFault, write_first_checkpoint};
use redo_text::{Change, Mtr, Piece, RedoKey, encode};
use std::alloc::Global;
use store_files::FRONT_BLOCKS;
use thiserror::Error;

/// The ring blocks of the log.
pub const RING_BLOCKS: u64 = 32;

// The log's file in bytes: a header, two checkpoints and the ring.
const LOG_BYTES: u64 = (FRONT_BLOCKS as u64 + RING_BLOCKS) * BLOCK_BYTES;

/// Why a session did not come to its end.
#[derive(Clone, Copy, Debug, PartialEq, Eq, Error)]
pub enum DrillHalt {
    /// A call of the disk failed.
    #[error("the disk failed")]
    DiskFault,
    /// The machine had no memory for the call.
    #[error("out of memory")]
    OutOfMemory,
    /// The log did not take a mini-transaction.
    #[error("the log refused: {0}")]
    Refused(LogFault),
    /// A number is not one that it can be at this place of the session.
    #[error("a number is out of order")]
    OutOfOrder,
    /// A disk that was to stop did not.
    #[error("the disk did not stop")]
    NotStopped,
}

pub(crate) fn halt_of(error: DiskError) -> DrillHalt {
    match error {
        DiskError::Failed => DrillHalt::DiskFault,
        DiskError::NoMemory => DrillHalt::OutOfMemory,
    }
}

// The key of the session.
pub(crate) fn session_key() -> RedoKey
    ensures version { 1 ≤ result.version }
    ensures is { result ≡ drill_key }
{
    RedoKey {
        version: 3,
        local: [7; 16],
        algorithm: Algorithm::Ctr,
    }
}

fn bytes_of(alloc: Global, n: usize) -> Result<Vec<u8>, OutOfMemory>
    ensures { IfOk result (λ v. length v.items ≡ n) }
{
    let Ok(bytes) = vec![in alloc; 0xaau8; n] else {
        return Err(OutOfMemory);
    };
    Ok(bytes)
}

/// A mini-transaction of one put of so many bytes.
pub(crate) fn put_of(alloc: Global, n: usize) -> Result<Mtr, OutOfMemory>
    requires some { 0 < n }
    requires most { n ≤ page_body_bytes }
    ensures some { IfOk result (λ m. length m ≡ 1) }
    ensures allowed { IfOk result (λ m. AreAllowed m) }
    ensures few { IfOk result (λ m. block_count (text_of m) ≤ most_mtr_blocks) }
{
    let bytes = Piece::of(bytes_of(alloc, n)?);
    let mut changes = Vec::new(alloc);
    let Ok(()) = changes.push(Change::Put {
        space: 5,
        page: 1,
        at: PAGE_BODY_AT as u32,
        bytes,
    }) else {
        return Err(OutOfMemory);
    };
    Ok(Mtr::of(changes))
}

/// Makes the log's file, with its first checkpoint.
pub fn make_log<D: Disk>(disk: &mut D) -> Result<(), DrillHalt>
    requires { At (λ es. is_there LogFile es ≡ false) (D.past disk.old) }
    ensures places { OnOk result (At (HasPlaces LogFile (log_places 32)) (D.past disk.new)) }
    ensures ready { (keys : Keys) → OnOk result (At (RingReady 32 (redo_form keys) (fresh_ring 32)) (D.past disk.new)) }
    ensures items { OnOk result (At (From KeepsItems (D.past disk.old)) (D.past disk.new)) }
{
    if let Err(error) = disk.make(FileName::Log, LOG_BYTES) {
        return Err(halt_of(error));
    }
    write_first(disk)
}

fn write_first<D: Disk>(disk: &mut D) -> Result<(), DrillHalt>
    requires { At (IsFresh 32) (D.past disk.old) }
    ensures places { OnOk result (At (HasPlaces LogFile (log_places 32)) (D.past disk.new)) }
    ensures ready { (keys : Keys) → OnOk result (At (RingReady 32 (redo_form keys) (fresh_ring 32)) (D.past disk.new)) }
    ensures items { Throughout (From KeepsItems (D.past disk.old)) (D.past disk.old) (D.past disk.new) }
{
    match write_first_checkpoint(disk, RING_BLOCKS) {
        Ok(()) => Ok(()),
        Err(error) => Err(halt_of(error)),
    }
}

// The blocks of a mini-transaction, the first of which has this number.
fn blocks_of(alloc: Global, mtr: &Mtr, first: u64) -> Result<Vec<u8>, DrillHalt>
    requires some { 0 < length mtr.now }
    requires allowed { AreAllowed mtr.now }
    requires few { block_count (text_of mtr.now) ≤ most_mtr_blocks }
{
    if first < 2 || first > 1000 {
        return Err(DrillHalt::OutOfOrder);
    }
    match encode(alloc, mtr, first, &session_key()) {
        Ok(blocks) => Ok(blocks),
        Err(OutOfMemory) => Err(DrillHalt::OutOfMemory),
    }
}

// Appends a mini-transaction of one put of so many bytes, and its blocks to those of the session.
fn append_put(alloc: Global, log: &mut Log, blocks: &mut Vec<u8>, n: usize) -> Result<(), DrillHalt>
    requires some { 0 < n }
    requires most { n ≤ page_body_bytes }
    requires ring { log.old.blocks ≡ 32 }
    ensures ring { log.new.blocks ≡ 32 }
    ensures journal { (keys : Keys) (count : ℕ) (es : List Event) → IsStoreKey keys drill_key → KeepsJournal keys count log.old es → OnOk result (KeepsJournal keys (count + 1) log.new es × (durable log.new ≡ durable log.old)) }
{
    let Ok(mtr) = put_of(alloc, n) else {
        return Err(DrillHalt::OutOfMemory);
    };
    let part = blocks_of(alloc, &mtr, log.next())?;
    let Ok(()) = blocks.extend_from_slice(&part) else {
        return Err(DrillHalt::OutOfMemory);
    };
    match log.append(alloc, &mtr, &session_key()) {
        Ok(_) => Ok(()),
        Err(fault) => Err(DrillHalt::Refused(fault)),
    }
}

// Appends mini-transactions of 1, 2 and 5 blocks, and their blocks to those of the session.
pub(crate) fn append_eight(
    alloc: Global,
    log: &mut Log,
    blocks: &mut Vec<u8>,
) -> Result<(), DrillHalt>
    requires ring { log.old.blocks ≡ 32 }
    ensures ring { log.new.blocks ≡ 32 }
    ensures journal { (keys : Keys) (count : ℕ) (es : List Event) → IsStoreKey keys drill_key → KeepsJournal keys count log.old es → OnOk result (KeepsJournal keys (count + 3) log.new es × (durable log.new ≡ durable log.old)) }
{
    append_put(alloc, log, blocks, 1)?;
    append_put(alloc, log, blocks, 5000)?;
    append_put(alloc, log, blocks, 16_300)
}

/// How many of these blocks whole mini-transactions have, where the first so many of eight are there.
pub(crate) fn whole_of(written: u64) -> u64 {
    match written {
        0 => 0,
        1 | 2 => 1,
        3..=7 => 3,
        _ => 8,
    }
}

// Writes the pending blocks out. At an error the log has handed them over, and else is as it was.
pub(crate) fn write_all(disk: &mut MemDisk, log: &mut Log) -> Result<(), DrillHalt>
    requires ring { log.old.blocks ≡ 32 }
    requires places { HasPlaces LogFile (log_places 32) (events disk.old.contents) }
    ensures ring { log.new.blocks ≡ 32 }
    ensures places { HasPlaces LogFile (log_places 32) (events disk.new.contents) }
    ensures kept { OnErr result (log.new ≡ handed_over log.old) }
    ensures journal { (keys : Keys) (count : ℕ) → KeepsJournal keys count log.old (events disk.old.contents) → OnOk result (MayBegin keys count (durable log.old) log.new (events disk.new.contents) × (durable log.new ≡ log.new.next)) }
{
    match log.write_out(disk) {
        Ok(()) => Ok(()),
        Err(error) => Err(halt_of(error)),
    }
}

// Lets the run begin at this block.
pub(crate) fn move_from(disk: &mut MemDisk, log: &mut Log, from: u64) -> Result<(), DrillHalt>
    requires ring { log.old.blocks ≡ 32 }
    requires places { HasPlaces LogFile (log_places 32) (events disk.old.contents) }
    ensures ring { log.new.blocks ≡ 32 }
    ensures places { HasPlaces LogFile (log_places 32) (events disk.new.contents) }
    ensures kept { OnErr result (log.new ≡ log.old) }
    ensures journal { (keys : Keys) (count : ℕ) → MayBegin keys count from log.old (events disk.old.contents) → durable log.old ≡ log.old.next → OnOk result (IsBetween keys count log.new (events disk.new.contents)) }
{
    if from < log.from() || log.durable() < from {
        return Err(DrillHalt::OutOfOrder);
    }
    match log.checkpoint(disk, from) {
        Ok(()) => Ok(()),
        Err(error) => Err(halt_of(error)),
    }
}
