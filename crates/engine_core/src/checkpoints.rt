// A checkpoint: the log is kept from another block on, and the blocks before that are free.
ghost use Rattle.std.specs.Prelude.{◌≡◌, ◌+◌, ◌<◌, ◌≤◌, None, All, IfErr, IfOk, OnErr, OnOk};
ghost use Rattle.counted_disk.specs.Counting.{IsCounted, count_of};
ghost use Rattle.disk_model.specs.Event.{Sync};
ghost use Rattle.disk_model.specs.Past.{grow};
ghost use Rattle.disk_model.specs.declared.names.FileName.TheVariants.{Log as LogFile};
ghost use Rattle.places.specs.Writes.{IsPart};
ghost use Rattle.redo_log.specs.Events.{check_event, side_batch};
ghost use Rattle.store_image.specs.View.{block_bytes};
ghost use Rattle.session_core.specs.Checking.{kept_from, run_begin};
ghost use Rattle.session_core.specs.Files.{IsDiskRefusal, calls_of};

use crate::{Engine, EngineFault};
use disk_model::Disk;

impl<D: Disk + Drop> Engine<D> {
    /// Writes a checkpoint: the log is kept from the least first block of a dirty page on, or from its
    /// next block on where no page is dirty, and answers that block. Where the last checkpoint says the
    /// same no call of the disk is made; else the checkpoint is written and the log synced. It takes no
    /// memory.
    ///
    /// # Errors
    /// [`EngineFault::Down`] or [`EngineFault::OutOfMemory`] exactly where the disk was stopped before, and
    /// nothing is done then; [`EngineFault::DiskFault`] or [`EngineFault::OutOfMemory`] where it was stopped
    /// in this call. The checkpoint may then be on the disk or not, and nothing but the disk is changed.
    pub fn checkpoint(&mut self) -> Result<u64, EngineFault>
        ensures value { IfOk result (λ begin. begin ≡ run_begin self.old.now) }
        ensures least { self.old.now.disk.stop ≡ None → All (λ d. run_begin self.old.now ≤ d.first) self.old.now.pool.dirty.entries }
        ensures checked { OnOk result (self.new.now ≡ kept_from self.old.now (run_begin self.old.now) self.new.now.disk) }
        ensures still { run_begin self.old.now ≡ self.old.now.log.from → self.new.now.disk ≡ self.old.now.disk }
        ensures exact { self.old.now.log.from < run_begin self.old.now → OnOk result (D.past self.new.now.disk.disk ≡ grow (Sync LogFile) (grow (check_event (self.old.now.log.sequence + 1) (run_begin self.old.now)) (D.past self.old.now.disk.disk))) }
        ensures part { OnErr result (IsPart LogFile block_bytes (side_batch (self.old.now.log.sequence + 1) (run_begin self.old.now)) 1 (D.past self.old.now.disk.disk) (D.past self.new.now.disk.disk)) }
        ensures kept { OnErr result (self.new.now ≡ record self.old.now { disk = self.new.now.disk }) }
        ensures refused { IfErr result (IsDiskRefusal self.old.now.disk self.new.now.disk) }
        ensures was_up { OnOk result (self.old.now.disk.stop ≡ None) }
        ensures calls { calls_of D.clock self.new.now.disk ≤ calls_of D.clock self.old.now.disk + 2 }
        ensures up { OnOk result (self.new.now.disk.stop ≡ None) }
        ensures later { D.is_later self.old.now.disk.disk self.new.now.disk.disk × IsCounted (count_of D.past D.faults D.memory_refusals self.old.now.disk) (count_of D.past D.faults D.memory_refusals self.new.now.disk) }
        ensures first { self.new.first ≡ self.old.first }
    {
        let _kept = self.core.spaces();
        self.core.checkpoint()
    }
}
