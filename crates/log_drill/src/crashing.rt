// Copies of a disk that stop at each turn of a call, and the three crashes of each.
ghost use Rattle.std.specs.Prelude.{◌≡◌, ℕ, ◌+◌, ◌*◌, ◌<◌, ◌≤◌, Some, OnOk, IfOk, IsErrOf, length};
ghost use Rattle.disk_model.specs.Contents.{events};
ghost use Rattle.disk_model.specs.Past.{At};
ghost use Rattle.disk_model.specs.declared.names.FileName.TheVariants.{Log as LogFile};
ghost use Rattle.places.specs.Places.{HasPlaces};
ghost use Rattle.redo_log.specs.Blocks.{Keys, IsStoreKey};
ghost use Rattle.redo_log.specs.Log.{durable, handed_over};
ghost use Rattle.log_drill.specs.Kept.{drill_key, KeepsJournal, MayBegin, IsBetween};
ghost use Rattle.crash_image.specs.LogForm.{log_places};

use crate::rows::{CrashTally, Expected, crash_rows, crashed, settled};
use crate::session::{
    DrillHalt, RING_BLOCKS, append_eight, halt_of, make_log, move_from, whole_of, write_all,
};
use disk_model::{Choice, MemDisk};
use redo_log::{Checkpoint, Log, scan};
use std::alloc::Global;

/// Eight blocks are appended in each.
const ROUNDS: u64 = 12;

// A call was to meet the stop of its disk.
fn stopped(done: Result<(), DrillHalt>) -> Result<(), DrillHalt>
    ensures { OnOk result (IsErrOf done DrillHalt.DiskFault) }
{
    match done {
        Ok(()) => Err(DrillHalt::NotStopped),
        Err(DrillHalt::DiskFault) => Ok(()),
        Err(halt) => Err(halt),
    }
}

// Writes the eight pending blocks out on a copy of the disk that stops at this turn. The log stays.
fn stop_out(
    alloc: Global,
    disk: &MemDisk,
    log: &mut Log,
    blocks: &[u8],
    turn: u64,
    tally: &mut CrashTally,
) -> Result<(), DrillHalt>
    requires ring { log.old.blocks ≡ 32 }
    requires places { HasPlaces LogFile (log_places 32) (events disk.now.contents) }
    ensures ring { log.new.blocks ≡ 32 }
    ensures same { OnOk result (log.new ≡ handed_over log.old) }
{
    let mut copy = crashed(disk, Choice::Kept)?;
    copy.stop_at(turn);
    stopped(write_all(&mut copy, log))?;
    let settled = settled(log);
    let kept = Expected {
        checkpoint: settled.checkpoint,
        end: settled.end.saturating_add(whole_of(turn)),
    };
    crash_rows(alloc, &copy, blocks, settled, kept, tally)
}

// Writes the next checkpoint on a copy of the disk that stops at this turn. The log stays.
fn stop_checkpoint(
    alloc: Global,
    disk: &MemDisk,
    log: &mut Log,
    blocks: &[u8],
    from: u64,
    turn: u64,
    tally: &mut CrashTally,
) -> Result<(), DrillHalt>
    requires ring { log.old.blocks ≡ 32 }
    requires places { HasPlaces LogFile (log_places 32) (events disk.now.contents) }
    ensures ring { log.new.blocks ≡ 32 }
    ensures same { OnOk result (log.new ≡ log.old) }
{
    let mut copy = crashed(disk, Choice::Kept)?;
    copy.stop_at(turn);
    stopped(move_from(&mut copy, log, from))?;
    let settled = settled(log);
    let kept = Expected {
        checkpoint: Checkpoint {
            sequence: settled.checkpoint.sequence.saturating_add(1),
            from,
        },
        end: settled.end,
    };
    crash_rows(alloc, &copy, blocks, settled, kept, tally)
}

// Writes the eight pending blocks out, once for each turn with a stop there, and then without one.
fn drill_out(
    alloc: Global,
    disk: &mut MemDisk,
    log: &mut Log,
    blocks: &[u8],
    tally: &mut CrashTally,
) -> Result<(), DrillHalt>
    requires ring { log.old.blocks ≡ 32 }
    requires places { HasPlaces LogFile (log_places 32) (events disk.old.contents) }
    ensures ring { log.new.blocks ≡ 32 }
    ensures places { HasPlaces LogFile (log_places 32) (events disk.new.contents) }
    ensures journal { (keys : Keys) (count : ℕ) → KeepsJournal keys count log.old (events disk.old.contents) → OnOk result (MayBegin keys count (durable log.old) log.new (events disk.new.contents) × (durable log.new ≡ log.new.next)) }
{
    for turn in 1..10u64 {
        stop_out(alloc, disk, log, blocks, turn, tally)?;
    }
    write_all(disk, log)?;
    crash_rows(alloc, disk, blocks, settled(log), settled(log), tally)
}

// Writes the next checkpoint in the same way: of its two turns one is a write and one a sync.
fn drill_checkpoint(
    alloc: Global,
    disk: &mut MemDisk,
    log: &mut Log,
    blocks: &[u8],
    from: u64,
    tally: &mut CrashTally,
) -> Result<(), DrillHalt>
    requires ring { log.old.blocks ≡ 32 }
    requires places { HasPlaces LogFile (log_places 32) (events disk.old.contents) }
    ensures ring { log.new.blocks ≡ 32 }
    ensures places { HasPlaces LogFile (log_places 32) (events disk.new.contents) }
    ensures journal { (keys : Keys) (count : ℕ) → MayBegin keys count from log.old (events disk.old.contents) → durable log.old ≡ log.old.next → OnOk result (IsBetween keys count log.new (events disk.new.contents)) }
{
    for turn in 1..3u64 {
        stop_checkpoint(alloc, disk, log, blocks, from, turn, tally)?;
    }
    move_from(disk, log, from)?;
    crash_rows(alloc, disk, blocks, settled(log), settled(log), tally)
}

// Eight blocks more. Where the checkpoint moves, the run then begins with them.
fn drill_round(
    alloc: Global,
    disk: &mut MemDisk,
    log: &mut Log,
    blocks: &mut Vec<u8>,
    moves: bool,
    tally: &mut CrashTally,
) -> Result<(), DrillHalt>
    requires ring { log.old.blocks ≡ 32 }
    requires places { HasPlaces LogFile (log_places 32) (events disk.old.contents) }
    ensures ring { log.new.blocks ≡ 32 }
    ensures places { OnOk result (HasPlaces LogFile (log_places 32) (events disk.new.contents)) }
    ensures journal { (keys : Keys) (count : ℕ) → IsStoreKey keys drill_key → IsBetween keys count log.old (events disk.old.contents) → OnOk result (IsBetween keys (count + 3) log.new (events disk.new.contents)) }
{
    let from = log.next();
    append_eight(alloc, log, blocks)?;
    drill_out(alloc, disk, log, blocks, tally)?;
    if moves {
        drill_checkpoint(alloc, disk, log, blocks, from, tally)?;
    }
    *disk = crashed(disk, Choice::Kept)?;
    Ok(())
}

// The same with no crash on the way.
pub(crate) fn plain_round(
    alloc: Global,
    disk: &mut MemDisk,
    log: &mut Log,
    blocks: &mut Vec<u8>,
    moves: bool,
) -> Result<(), DrillHalt>
    requires ring { log.old.blocks ≡ 32 }
    requires places { HasPlaces LogFile (log_places 32) (events disk.old.contents) }
    ensures ring { log.new.blocks ≡ 32 }
    ensures places { OnOk result (HasPlaces LogFile (log_places 32) (events disk.new.contents)) }
    ensures journal { (keys : Keys) (count : ℕ) → IsStoreKey keys drill_key → IsBetween keys count log.old (events disk.old.contents) → OnOk result (IsBetween keys (count + 3) log.new (events disk.new.contents)) }
{
    let from = log.next();
    append_eight(alloc, log, blocks)?;
    write_all(disk, log)?;
    if moves {
        move_from(disk, log, from)?;
    }
    *disk = crashed(disk, Choice::Kept)?;
    Ok(())
}

/// What a drill ends with: the rows that it counted, and the disk and the log of its session.
#[derive(Drop)]
pub struct DrilledLog {
    pub tally: CrashTally,
    pub disk: MemDisk,
    pub log: Log,
}

/// Goes three times round a ring of 32 blocks: 96 blocks are appended in twelve rounds, and the run
/// begins anew in each third one, before three of which the ring is full. In one of the three turns of
/// the ring, from 0, each call of the log is made on a copy of the disk for each of the call's turns,
/// stops there, and the copy crashes with each unsynced write lost, kept and torn; then it is made on
/// the disk itself, which crashes in the same three ways.
///
/// # Errors
/// A refusal that is no stop of a disk.
pub fn drill_log(alloc: Global, ring_turn: u64) -> Result<DrilledLog, DrillHalt>
    // The disk that it ends with has a ring that the log fits, whose journal has the three mini-transactions of each round, all of them durable.
    ensures journal { IfOk result (λ end. (keys : Keys) → IsStoreKey keys drill_key → IsBetween keys 36 end.log (events end.disk.contents)) }
{
    let mut disk = MemDisk::new(alloc, Vec::new(alloc));
    make_log(&mut disk)?;
    let Ok(mut log) = Log::new(alloc, RING_BLOCKS, 2, 1) else {
        return Err(DrillHalt::OutOfMemory);
    };
    let mut blocks = Vec::new(alloc);
    let mut tally = CrashTally { rows: 0, sound: 0 };
    for round in 0..ROUNDS {
        let moves = round % 3 == 2;
        if round / 4 == ring_turn {
            drill_round(alloc, &mut disk, &mut log, &mut blocks, moves, &mut tally)?;
        } else {
            plain_round(alloc, &mut disk, &mut log, &mut blocks, moves)?;
        }
    }
    Ok(DrilledLog { tally, disk, log })
}

/// How many blocks the run of a log has, and how many calls of the disk its scan made.
#[derive(Clone, Copy, Debug, PartialEq, Eq)]
pub struct ScanCount {
    pub blocks: u64,
    pub calls: usize,
}

/// Appends and writes out eight blocks in each of so many rounds, and scans the log.
///
/// # Errors
/// The first refusal.
pub fn count_scan(alloc: Global, rounds: u64) -> Result<ScanCount, DrillHalt> {
    let mut disk = MemDisk::new(alloc, Vec::new(alloc));
    make_log(&mut disk)?;
    let Ok(mut log) = Log::new(alloc, RING_BLOCKS, 2, 1) else {
        return Err(DrillHalt::OutOfMemory);
    };
    let mut blocks = Vec::new(alloc);
    for _ in 0..rounds {
        plain_round(alloc, &mut disk, &mut log, &mut blocks, false)?;
    }
    let before = disk.calls().len();
    let run = match scan(alloc, &mut disk, RING_BLOCKS, 2) {
        Ok(run) => run,
        Err(error) => return Err(halt_of(error)),
    };
    Ok(ScanCount {
        blocks: run.last.saturating_sub(1),
        calls: disk.calls().len().saturating_sub(before),
    })
}
