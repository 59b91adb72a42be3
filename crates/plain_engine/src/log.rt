// The log's file: the device calls, one to a function.
ghost use Rattle.std.specs.Prelude.{◌^◌, ◌-◌, ◌∷◌, ◌++◌, ℕ, List, OnOk, ◌≡◌, ◌+◌, ◌<◌, ◌≤◌, [], length, OnErr, IsErrOf};
ghost use Rattle.disk_model.specs.Past.{At, Step, HasDiskCause, HasDiskMemoryCause};
ghost use Rattle.plain_engine.specs.Turns.{turns_after, sync_turns, IsTurnOf};
ghost use Rattle.plain_engine.specs.Layer.{LogReady, PlainMoment, IsCrashSafe};
ghost use Rattle.plain_engine.specs.Text.{mtr_text, IsSmall};
ghost use Rattle.plain_engine.specs.Block.{IsLogBlock};
ghost use Rattle.plain_engine.specs.Log.{ring_place};

use crate::block::{Block, ring_block};
use crate::text::mtr_text;
use disk_model::{Disk, DiskError, FileName, Mark};
use std::alloc::{AllocError, Global};
use store_model::Mtr;

/// The blocks of a session, of which the first so many are on the disk for sure. Block i has the
/// number i + 2.
#[derive(Drop)]
pub struct PlainLog {
    pub blocks: Vec<Block>,
    pub settled: usize,
    /// How many were acknowledged at least.
    pub acked: usize,
}

/// Adds the block of a mini-transaction. It isn't on the disk yet.
pub fn append(alloc: Global, log: &mut PlainLog, mtr: &Mtr) -> Result<(), AllocError>
    requires small { IsSmall mtr.now }
    requires room { length log.old.blocks.items ≤ 256 }
    ensures ok { OnOk result ((block : List ℕ) × (log.new.blocks.items ≡ log.old.blocks.items ++ block ∷ []) × IsLogBlock (length log.old.blocks.items + 2) (mtr_text mtr.now) block) }
    ensures err { OnErr result (log.new.blocks.items ≡ log.old.blocks.items) }
    ensures settled { log.new.settled ≡ log.old.settled }
    ensures acked { log.new.acked ≡ log.old.acked }
{
    let text = mtr_text(alloc, mtr)?;
    let number = log.blocks.len() as u64 + 2;
    let block = ring_block(alloc, number, &text)?;
    let Ok(()) = log.blocks.push(block) else {
        return Err(AllocError);
    };
    Ok(())
}

/// Writes one block.
pub fn write_block<D: Disk>(
    disk: &mut D,
    turns: &mut u64,
    log: &PlainLog,
    i: usize,
) -> Result<(), DiskError>
    requires ready { At (LogReady log.now.blocks.items log.now.settled i log.now.acked) (D.past disk.old) }
    requires more { i < length log.now.blocks.items }
    requires room { length log.now.blocks.items ≤ 256 }
    ensures step { Step (PlainMoment log.now.blocks.items log.now.settled log.now.acked) (LogReady log.now.blocks.items log.now.settled (i + 1) log.now.acked) (D.past disk.old) (D.past disk.new) result }
    ensures cause { HasDiskCause (D.faults disk.old) (D.faults disk.new) result }
    ensures memory { HasDiskMemoryCause (D.memory_refusals disk.old) (D.memory_refusals disk.new) result }
    ensures later { D.is_later disk.old disk.new }
    ensures turns { turns.new ≡ turns_after turns.old 1 }
{
    *turns = turns.saturating_add(1);
    let number = i as u64 + 2;
    disk.write(
        FileName::Log,
        ring_place(number) * 4096,
        log.blocks[i].bytes(),
    )
}

/// Writes the blocks that aren't written yet.
pub fn write_pending<D: Disk>(
    disk: &mut D,
    turns: &mut u64,
    log: &PlainLog,
) -> Result<(), DiskError>
    requires ready { At (LogReady log.now.blocks.items log.now.settled log.now.settled log.now.acked) (D.past disk.old) }
    requires room { length log.now.blocks.items ≤ 256 }
    requires order { log.now.settled ≤ length log.now.blocks.items }
    requires counted { turns.old < 2 ^ 64 }
    ensures step { Step (PlainMoment log.now.blocks.items log.now.settled log.now.acked) (LogReady log.now.blocks.items log.now.settled (length log.now.blocks.items) log.now.acked) (D.past disk.old) (D.past disk.new) result }
    ensures cause { HasDiskCause (D.faults disk.old) (D.faults disk.new) result }
    ensures memory { HasDiskMemoryCause (D.memory_refusals disk.old) (D.memory_refusals disk.new) result }
    ensures later { D.is_later disk.old disk.new }
    ensures turns { OnOk result (turns.new ≡ turns_after turns.old (length log.now.blocks.items - log.now.settled)) }
    ensures failed { OnErr result (IsTurnOf (length log.now.blocks.items - log.now.settled) turns.old turns.new) }
{
    for i in log.settled..log.blocks.len() {
        write_block(disk, turns, log, i)?;
    }
    Ok(())
}

fn sync_log<D: Disk>(disk: &mut D, turns: &mut u64, log: &PlainLog) -> Result<(), DiskError>
    requires { At (LogReady log.now.blocks.items log.now.settled (length log.now.blocks.items) log.now.acked) (D.past disk.old) }
    ensures step { Step (IsCrashSafe log.now.blocks.items) (LogReady log.now.blocks.items (length log.now.blocks.items) (length log.now.blocks.items) log.now.acked) (D.past disk.old) (D.past disk.new) result }
    ensures cause { HasDiskCause (D.faults disk.old) (D.faults disk.new) result }
    ensures memory { HasDiskMemoryCause (D.memory_refusals disk.old) (D.memory_refusals disk.new) result }
    ensures later { D.is_later disk.old disk.new }
    ensures same { OnErr result (D.past disk.new ≡ D.past disk.old) }
    ensures turns { turns.new ≡ turns_after turns.old 1 }
{
    let _ = log;
    *turns = turns.saturating_add(1);
    disk.sync(FileName::Log)
}

/// Writes out what is pending and syncs the log. Where nothing is pending nothing is done.
pub fn write_out<D: Disk>(disk: &mut D, turns: &mut u64, log: &PlainLog) -> Result<(), DiskError>
    requires ready { At (LogReady log.now.blocks.items log.now.settled log.now.settled log.now.acked) (D.past disk.old) }
    requires room { length log.now.blocks.items ≤ 256 }
    requires order { log.now.settled ≤ length log.now.blocks.items }
    requires counted { turns.old < 2 ^ 64 }
    ensures step { Step (IsCrashSafe log.now.blocks.items) (LogReady log.now.blocks.items (length log.now.blocks.items) (length log.now.blocks.items) log.now.acked) (D.past disk.old) (D.past disk.new) result }
    ensures cause { HasDiskCause (D.faults disk.old) (D.faults disk.new) result }
    ensures memory { HasDiskMemoryCause (D.memory_refusals disk.old) (D.memory_refusals disk.new) result }
    ensures later { D.is_later disk.old disk.new }
    ensures kept { OnErr result (At (PlainMoment log.now.blocks.items log.now.settled log.now.acked) (D.past disk.new)) }
    ensures turns { OnOk result (turns.new ≡ turns_after turns.old (sync_turns (length log.now.blocks.items - log.now.settled))) }
    ensures failed { OnErr result (IsTurnOf (sync_turns (length log.now.blocks.items - log.now.settled)) turns.old turns.new) }
{
    if log.settled == log.blocks.len() {
        return Ok(());
    }
    write_pending(disk, turns, log)?;
    sync_log(disk, turns, log)
}

/// Acknowledges the settled blocks.
pub fn tell_acked<D: Disk>(disk: &mut D, log: &PlainLog) -> Result<(), DiskError>
    requires order { log.now.acked ≤ log.now.settled }
    requires ready { At (LogReady log.now.blocks.items log.now.settled log.now.settled log.now.acked) (D.past disk.old) }
    ensures step { Step (PlainMoment log.now.blocks.items log.now.settled log.now.acked) (LogReady log.now.blocks.items log.now.settled log.now.settled log.now.settled) (D.past disk.old) (D.past disk.new) result }
    ensures cause { HasDiskCause (D.faults disk.old) (D.faults disk.new) result }
    ensures memory { HasDiskMemoryCause (D.memory_refusals disk.old) (D.memory_refusals disk.new) result }
    ensures later { D.is_later disk.old disk.new }
    ensures tells { IsErrOf result DiskError.Failed → D.may_fail_to_tell disk.old }
{
    disk.tell(Mark::Acked(log.settled as u64))
}

/// Says that a session begins.
pub fn tell_started<D: Disk>(disk: &mut D) -> Result<(), DiskError>
    requires { At (LogReady [] 0 0 0) (D.past disk.old) }
    ensures step { Step (IsCrashSafe []) (LogReady [] 0 0 0) (D.past disk.old) (D.past disk.new) result }
    ensures cause { HasDiskCause (D.faults disk.old) (D.faults disk.new) result }
    ensures memory { HasDiskMemoryCause (D.memory_refusals disk.old) (D.memory_refusals disk.new) result }
    ensures later { D.is_later disk.old disk.new }
    ensures tells { IsErrOf result DiskError.Failed → D.may_fail_to_tell disk.old }
{
    disk.tell(Mark::Started)
}

// The file block of the ring block with this number.
#[tactic(auto, unfolding(crate::specs::Log::ring_place))]
pub fn ring_place(number: u64) -> u64
    ensures { result ≡ ring_place number }
{
    3 + number % 256
}
