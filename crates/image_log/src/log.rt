// What a log's file says.
ghost use Rattle.std.specs.Prelude.{◌≡◌, ◌≢◌, ℕ, List, ◌≤◌, ◌<◌, ◌+◌, ◌*◌, ◌^◌, length, IfOk, IfErr};
ghost use Rattle.redo_text.specs.declared.change.Change.{Change};
ghost use Rattle.store_image.specs.Places.{LogView};
ghost use Rattle.store_files.specs.Run.{AreLogEntries, IsLogOf, MakeWholeMtr, MakeWholeMtrs};
ghost use Rattle.image_log.specs.declared.fault.LogTextFault.TheVariants.{OutOfMemory as NoMemory};
ghost use Rattle.image_log.specs.Logs.{IsEntryIn, IsEntryFault, IsLogTextFault, IsMtrFault};
ghost use Rattle.store_image.specs.View.{block_bytes};
ghost use Rattle.store_image.specs.Checkpoint.{front_blocks};
ghost use Rattle.store_files.specs.Header.{least_ring_blocks, most_ring_blocks};

use crate::changes::changes_of;
use crate::checkpoint::newest_checkpoint;
use crate::fault::LogTextFault;
use crate::header::StoreHeader;
use crate::run::{RunSizes, run_from};
use crate::text::text_of;
use key_ring::Ring;
use redo_text::Mtr;
use std::alloc::Global;
use std::marker::Model;
use store_files::BLOCK_BYTES;

/// A mini-transaction in the log: the number of its first block, its LSN and its changes. In
/// contracts it is a `Logged`.
#[derive(Debug, Drop)]
pub struct LogEntry {
    first: u64,
    lsn: u64,
    mtr: Mtr,
}

impl Model for LogEntry {
    ghost use Rattle.std.specs.Prelude.{List};
    ghost use Rattle.redo_text.specs.declared.change.Change.{Change};
    ghost use Rattle.store_image.specs.View.{Logged};

    ghost Value = { Logged (List Change) };

    ghost view = { λ e. record { first = e.first; lsn = e.lsn; mtr = e.mtr } };
}

impl LogEntry {
    /// The number of its first block.
    pub fn first(&self) -> u64
        ensures { result ≡ self.now.first }
    {
        self.first
    }

    /// Its LSN: 4096 times the number behind its last block.
    pub fn lsn(&self) -> u64
        ensures { result ≡ self.now.lsn }
    {
        self.lsn
    }

    /// Its changes.
    pub fn mtr(&self) -> &Mtr
        ensures { result.now ≡ self.now.mtr }
    {
        &self.mtr
    }
}

/// What a log says: where its run begins, the number behind its last block, and the
/// mini-transactions in it. In contracts it is a `LogView`.
#[derive(Debug, Drop)]
pub struct LogText {
    from: u64,
    end: u64,
    run: Vec<LogEntry>,
}

impl Model for LogText {
    ghost use Rattle.std.specs.Prelude.{List, ◌≤◌, ◌^◌};
    ghost use Rattle.redo_text.specs.declared.change.Change.{Change};
    ghost use Rattle.store_image.specs.Places.{LogView};

    ghost Value = { LogView (List Change) };

    ghost view = { λ l. record { from = l.from; end = l.end; run = l.run.items } };

    ghost invariant = { λ l. (2 ≤ l.end) × (l.end ≤ 2 ^ 51) × (l.from ≤ l.end) };
}

impl LogText {
    /// The number of the block that the run begins with.
    pub fn from(&self) -> u64
        ensures value { result ≡ self.now.from }
        ensures order { result ≤ self.now.end }
    {
        self.from
    }

    /// The number behind the run's last block.
    pub fn end(&self) -> u64
        ensures value { result ≡ self.now.end }
        ensures least { 2 ≤ result }
        ensures most { result ≤ 2 ^ 51 }
    {
        self.end
    }

    /// The mini-transactions of the run, in order.
    pub fn run(&self) -> &[LogEntry]
        ensures { result.now ≡ self.now.run }
    {
        &self.run
    }
}

// The mini-transaction in so many blocks from this number on.
fn entry_of(
    alloc: Global,
    header: &StoreHeader,
    keys: &Ring,
    log: &[u8],
    number: u64,
    count: u64,
) -> Result<LogEntry, LogTextFault>
    requires long { length log.now ≡ (front_blocks + header.now.blocks) * block_bytes }
    requires some { 0 < header.now.blocks }
    requires small { number + count ≤ 2 ^ 51 }
    requires whole { MakeWholeMtr header.now.blocks log.now number count }
    ensures ok { IfOk result (λ entry. IsEntryIn header.now keys.now log.now number count entry) }
    ensures fault { IfErr result (IsMtrFault header.now keys.now log.now number count) }
{
    let text = text_of(alloc, header, keys, log, number, count)?;
    match changes_of(alloc, text.bytes())? {
        Ok(mtr) => Ok(LogEntry {
            first: number,
            lsn: (number + count) * BLOCK_BYTES as u64,
            mtr,
        }),
        Err(bad) => Err(LogTextFault::NoChanges {
            first: number,
            at: bad.at,
        }),
    }
}

// The mini-transactions of a run, of these sizes.
fn entries_of(
    alloc: Global,
    header: &StoreHeader,
    keys: &Ring,
    log: &[u8],
    from: u64,
    run: &RunSizes,
) -> Result<Vec<LogEntry>, LogTextFault>
    requires long { length log.now ≡ (front_blocks + header.now.blocks) * block_bytes }
    requires some { 0 < header.now.blocks }
    requires run { MakeWholeMtrs header.now.blocks log.now from run.now.sizes.items run.now.end }
    requires small { run.now.end ≤ 2 ^ 51 }
    ensures ok { IfOk result (λ entries. AreLogEntries header.now keys.now log.now from entries.items run.now.end) }
    ensures fault { IfErr result (IsEntryFault header.now keys.now log.now from) }
{
    let mut entries = Vec::new(alloc);
    let mut first = from;
    for size in &run.sizes {
        entries.push(entry_of(alloc, header, keys, log, first, *size)?)?;
        first += *size;
    }
    Ok(entries)
}

/// What the log of a store with this header says under these keys.
///
/// # Errors
/// [`LogTextFault::NoCheckpoint`] where no checkpoint is valid; else, for the first mini-transaction of
/// the run that has no changes, [`LogTextFault::NoKey`] with the first of its blocks whose key is
/// missing, or [`LogTextFault::NoChanges`]; `OutOfMemory` where the machine has no memory.
pub fn read_log(
    alloc: Global,
    header: &StoreHeader,
    keys: &Ring,
    log: &[u8],
) -> Result<LogText, LogTextFault>
    requires long { length log.now ≡ (front_blocks + header.now.blocks) * block_bytes }
    requires least { least_ring_blocks ≤ header.now.blocks }
    requires most { header.now.blocks ≤ most_ring_blocks }
    ensures ok { IfOk result (λ text. IsLogOf header.now keys.now log.now text) }
    ensures fault { IfErr result (IsLogTextFault header.now keys.now log.now) }
    // A log that says something is never refused.
    ensures never { IfErr result (λ fault. fault ≢ NoMemory → (text : LogView (List Change)) → IsLogOf header.now keys.now log.now text → ⊥) }
{
    let Some(newest) = newest_checkpoint(log) else {
        return Err(LogTextFault::NoCheckpoint);
    };
    let sizes = run_from(alloc, log, header.blocks(), newest.from)?;
    let run = entries_of(alloc, header, keys, log, newest.from, &sizes)?;
    Ok(LogText {
        from: newest.from,
        end: sizes.end,
        run,
    })
}
