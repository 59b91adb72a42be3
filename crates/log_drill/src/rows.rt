// The images of a disk that crashes, and what the log in them must say.
ghost use Rattle.std.specs.Prelude.{◌≡◌, ℕ, ◌+◌, ◌<◌, ◌≤◌, IfOk, length, [], ◌∷◌};
ghost use Rattle.disk_model.specs.Contents.{events};
ghost use Rattle.disk_model.specs.Crash.{IsCrash};
ghost use Rattle.disk_model.specs.Past.{At};
ghost use Rattle.disk_model.specs.declared.names.FileName.TheVariants.{Log as LogFile};
ghost use Rattle.places.specs.Places.{HasPlaces};
ghost use Rattle.crash_image.specs.LogForm.{log_places};

use crate::reading::{has_blocks, read_run};
use crate::session::{DrillHalt, halt_of};
use disk_model::{Choice, Disk, MemDisk};
use redo_log::{Checkpoint, Log};
use std::alloc::Global;

/// How many images were looked at, and in how many of them the log is as it must be.
#[derive(Clone, Copy, Debug, PartialEq, Eq)]
pub struct CrashTally {
    pub rows: u64,
    pub sound: u64,
}

// What the log of an image must say: its newest checkpoint, and the number behind its run.
#[derive(Clone, Copy)]
pub(crate) struct Expected {
    pub(crate) checkpoint: Checkpoint,
    pub(crate) end: u64,
}

// What the log has on the disk for certain.
pub(crate) fn settled(log: &Log) -> Expected {
    Expected {
        checkpoint: Checkpoint {
            sequence: log.sequence(),
            from: log.from(),
        },
        end: log.durable(),
    }
}

// The disk after a crash in which each unsynced write has this choice.
pub(crate) fn crashed(disk: &MemDisk, choice: Choice) -> Result<MemDisk, DrillHalt>
    requires { HasPlaces LogFile (log_places 32) (events disk.now.contents) }
    ensures places { IfOk result (λ after. HasPlaces LogFile (log_places 32) (events after.contents)) }
    ensures crash { IfOk result (λ after. IsCrash (choice ∷ []) (events disk.now.contents) (events after.contents)) }
{
    let Ok(after) = disk.crash(&[choice]) else {
        return Err(DrillHalt::OutOfMemory);
    };
    Ok(after)
}

// Whether the log of a crashed disk says this, and its run has the blocks of the session.
fn is_sound<D: Disk>(
    alloc: Global,
    disk: &mut D,
    blocks: &[u8],
    expected: Expected,
) -> Result<bool, DrillHalt>
    requires { At (HasPlaces LogFile (log_places 32)) (D.past disk.old) }
{
    let held = match read_run(alloc, disk) {
        Ok(Some(held)) => held,
        Ok(None) => return Ok(false),
        Err(error) => return Err(halt_of(error)),
    };
    let from = held.checkpoint.from;
    let end = held.run.last.saturating_add(1);
    if held.checkpoint != expected.checkpoint || end != expected.end {
        return Ok(false);
    }
    if from < 2 || end > 1000 {
        return Ok(false);
    }
    match has_blocks(disk, blocks, from, end) {
        Ok(same) => Ok(same),
        Err(error) => Err(halt_of(error)),
    }
}

// Crashes the disk with each unsynced write lost, kept and torn.
pub(crate) fn crash_rows(
    alloc: Global,
    disk: &MemDisk,
    blocks: &[u8],
    settled: Expected,
    kept: Expected,
    tally: &mut CrashTally,
) -> Result<(), DrillHalt>
    requires { HasPlaces LogFile (log_places 32) (events disk.now.contents) }
{
    for choice in [Choice::Lost, Choice::Kept, Choice::Torn] {
        let expected = match choice {
            Choice::Kept => kept,
            _ => settled,
        };
        let mut after = crashed(disk, choice)?;
        tally.rows = tally.rows.saturating_add(1);
        if is_sound(alloc, &mut after, blocks, expected)? {
            tally.sound = tally.sound.saturating_add(1);
        }
    }
    Ok(())
}
