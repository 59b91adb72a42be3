// A checkpoint: the log is kept from another block on, and the blocks before that are free.
ghost use Rattle.std.specs.Prelude.{◌≡◌, ◌+◌, ◌<◌, ◌≤◌, None, Ok, All, OnOk, OnErr, IfOk, IfErr};
ghost use Rattle.counted_disk.specs.Counting.{IsCounted, count_of};
ghost use Rattle.crash_image.specs.LogForm.{log_places};
ghost use Rattle.disk_model.specs.Event.{Sync};
ghost use Rattle.disk_model.specs.Past.{At, grow};
ghost use Rattle.disk_model.specs.declared.names.FileName.TheVariants.{Log as LogFile};
ghost use Rattle.places.specs.Places.{HasFile};
ghost use Rattle.places.specs.Writes.{IsPart};
ghost use Rattle.redo_log.specs.Events.{check_event, side_batch};
ghost use Rattle.redo_log.specs.Log.{IsOpen, durable, with_checkpoint};
ghost use Rattle.store_image.specs.View.{block_bytes};
ghost use Rattle.session_core.specs.Checking.{kept_from, run_begin};
ghost use Rattle.session_core.specs.Files.{IsDiskRefusal, IsStopOf, calls_of};

use crate::stopping::fault_of;
use crate::{EngineFault, SessionCore};
use counted_disk::Counted;
use disk_model::Disk;
use redo_log::Log;

// Writes a checkpoint, where the log is to be kept from another block on than by the last one.
fn write_checkpoint<D: Disk + Drop>(
    log: &mut Log,
    disk: &mut Counted<D>,
    from: u64,
) -> Result<u64, EngineFault>
    requires up { disk.old.stop ≡ None }
    requires low { log.old.from ≤ from }
    requires high { from ≤ durable log.old }
    requires file { At (HasFile LogFile (log_places log.old.blocks)) (D.past disk.old.disk) }
    ensures value { IfOk result (λ begin. begin ≡ from) }
    ensures moved { OnOk result (log.new ≡ with_checkpoint log.old from) }
    ensures kept { OnErr result (log.new ≡ log.old) }
    ensures open { IsOpen log.new }
    ensures nothing { from ≡ log.old.from → disk.new ≡ disk.old }
    ensures exact { log.old.from < from → OnOk result (D.past disk.new.disk ≡ grow (Sync LogFile) (grow (check_event (log.old.sequence + 1) from) (D.past disk.old.disk))) }
    ensures part { OnErr result (IsPart LogFile block_bytes (side_batch (log.old.sequence + 1) from) 1 (D.past disk.old.disk) (D.past disk.new.disk)) }
    ensures stopped { IfErr result (IsStopOf disk.new) }
    ensures up { OnOk result (disk.new.stop ≡ None) }
    ensures later { D.is_later disk.old.disk disk.new.disk × IsCounted (count_of D.past D.faults D.memory_refusals disk.old) (count_of D.past D.faults D.memory_refusals disk.new) }
    ensures calls { calls_of D.clock disk.new ≤ calls_of D.clock disk.old + 2 }
{
    match log.checkpoint(disk, from) {
        Ok(()) => Ok(from),
        Err(error) => Err(fault_of(disk, error)),
    }
}

impl<D: Disk + Drop> SessionCore<D> {
    // The block from which on the log is to be kept.
    fn run_begin(&self) -> u64
        ensures value { result ≡ run_begin self.now }
        ensures least { All (λ d. result ≤ d.first) self.now.pool.dirty.entries }
        ensures low { self.now.log.from ≤ result }
        ensures high { result ≤ durable self.now.log }
    {
        match self.pool.oldest() {
            Some(first) => first,
            None => self.log.next(),
        }
    }

    // Keeps the log from this block on.
    fn keep_from(&mut self, from: u64) -> Result<u64, EngineFault>
        requires up { self.old.disk.stop ≡ None }
        requires least { All (λ d. from ≤ d.first) self.old.pool.dirty.entries }
        requires low { self.old.log.from ≤ from }
        requires high { from ≤ durable self.old.log }
        ensures value { IfOk result (λ begin. begin ≡ from) }
        ensures checked { OnOk result (self.new ≡ kept_from self.old from self.new.disk) }
        ensures still { from ≡ self.old.log.from → self.new.disk ≡ self.old.disk }
        ensures exact { self.old.log.from < from → OnOk result (D.past self.new.disk.disk ≡ grow (Sync LogFile) (grow (check_event (self.old.log.sequence + 1) from) (D.past self.old.disk.disk))) }
        ensures part { OnErr result (IsPart LogFile block_bytes (side_batch (self.old.log.sequence + 1) from) 1 (D.past self.old.disk.disk) (D.past self.new.disk.disk)) }
        ensures kept { OnErr result (self.new ≡ record self.old { disk = self.new.disk }) }
        ensures stopped { IfErr result (IsStopOf self.new.disk) }
        ensures up { OnOk result (self.new.disk.stop ≡ None) }
        ensures later { D.is_later self.old.disk.disk self.new.disk.disk × IsCounted (count_of D.past D.faults D.memory_refusals self.old.disk) (count_of D.past D.faults D.memory_refusals self.new.disk) }
        ensures calls { calls_of D.clock self.new.disk ≤ calls_of D.clock self.old.disk + 2 }
    {
        write_checkpoint(&mut self.log, &mut self.disk, from)
    }

    /// Writes a checkpoint from which the log is kept from the least first block of a dirty page on, or from
    /// its next block on where no page is dirty, and answers that block. Where the last checkpoint says the
    /// same no call of the disk is made; else the checkpoint is written and the log synced. It takes no
    /// memory.
    ///
    /// # Errors
    /// [`EngineFault::Down`] or [`EngineFault::OutOfMemory`] exactly where the disk was stopped before, and
    /// nothing is done then; [`EngineFault::DiskFault`] or [`EngineFault::OutOfMemory`] where it was stopped
    /// in this call. The checkpoint may then be on the disk or not, and nothing but the disk is changed.
    pub fn checkpoint(&mut self) -> Result<u64, EngineFault>
        ensures value { IfOk result (λ begin. begin ≡ run_begin self.old) }
        ensures least { self.old.disk.stop ≡ None → All (λ d. run_begin self.old ≤ d.first) self.old.pool.dirty.entries }
        ensures was_up { OnOk result (self.old.disk.stop ≡ None) }
        ensures checked { OnOk result (self.new ≡ kept_from self.old (run_begin self.old) self.new.disk) }
        ensures still { run_begin self.old ≡ self.old.log.from → self.new.disk ≡ self.old.disk }
        ensures exact { self.old.log.from < run_begin self.old → OnOk result (D.past self.new.disk.disk ≡ grow (Sync LogFile) (grow (check_event (self.old.log.sequence + 1) (run_begin self.old)) (D.past self.old.disk.disk))) }
        ensures part { OnErr result (IsPart LogFile block_bytes (side_batch (self.old.log.sequence + 1) (run_begin self.old)) 1 (D.past self.old.disk.disk) (D.past self.new.disk.disk)) }
        ensures kept { OnErr result (self.new ≡ record self.old { disk = self.new.disk }) }
        ensures refused { IfErr result (IsDiskRefusal self.old.disk self.new.disk) }
        ensures up { OnOk result (self.new.disk.stop ≡ None) }
        ensures later { D.is_later self.old.disk.disk self.new.disk.disk × IsCounted (count_of D.past D.faults D.memory_refusals self.old.disk) (count_of D.past D.faults D.memory_refusals self.new.disk) }
        ensures calls { calls_of D.clock self.new.disk ≤ calls_of D.clock self.old.disk + 2 }
    {
        self.check()?;
        let from = self.run_begin();
        self.keep_from(from)
    }
}
