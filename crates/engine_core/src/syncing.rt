// The log is written out, and what is durable then is told.
ghost use Rattle.std.specs.Prelude.{◌≡◌, ◌+◌, ◌≤◌, None, IfErr, IfOk, OnOk, length};
ghost use Rattle.counted_disk.specs.Counting.{IsCounted, count_of};
ghost use Rattle.redo_log.specs.Log.{pending_count};
ghost use Rattle.session_core.specs.Files.{calls_of};
ghost use Rattle.session_core.specs.Syncing.{IsSyncRefusal, synced_past, synced_session, write_calls};

use crate::{Engine, EngineFault};
use disk_model::Disk;

impl<D: Disk + Drop> Engine<D> {
    /// Makes all entries of the journal durable, and answers how many there are, which the disk is told.
    /// The pending blocks are written in order, and the log is synced; where no block is pending, nothing
    /// but the mark is asked of the disk. It takes no memory.
    ///
    /// # Errors
    /// [`EngineFault::Down`] or [`EngineFault::OutOfMemory`] exactly where the disk was stopped, and
    /// nothing is changed; else [`EngineFault::DiskFault`] or [`EngineFault::OutOfMemory`] where the disk
    /// was stopped in this call. Some of the blocks may then be on the disk, and they stay pending; or all
    /// are durable, and the mark may be there.
    pub fn sync(&mut self) -> Result<u64, EngineFault>
        ensures synced { OnOk result (self.new.now ≡ synced_session self.old.now self.new.now.disk) }
        ensures count { IfOk result (λ count. count ≡ length self.old.now.journal) }
        ensures exact { OnOk result (D.past self.new.now.disk.disk ≡ synced_past self.old.now.log (length self.old.now.journal) (D.past self.old.now.disk.disk)) }
        ensures refused { IfErr result (IsSyncRefusal D.past self.old.now self.new.now) }
        ensures was_up { OnOk result (self.old.now.disk.stop ≡ None) }
        ensures calls { calls_of D.clock self.new.now.disk ≤ calls_of D.clock self.old.now.disk + (write_calls (pending_count self.old.now.log) + 1) }
        ensures up { OnOk result (self.new.now.disk.stop ≡ None) }
        ensures later { D.is_later self.old.now.disk.disk self.new.now.disk.disk × IsCounted (count_of D.past D.faults D.memory_refusals self.old.now.disk) (count_of D.past D.faults D.memory_refusals self.new.now.disk) }
        ensures first { self.new.first ≡ self.old.first }
    {
        let _kept = self.core.spaces();
        self.core.sync()
    }
}
