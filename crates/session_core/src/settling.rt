// The log is written out, and what is durable then is told.
ghost use Rattle.std.specs.Prelude.{◌≡◌, ◌+◌, ◌≤◌, None, IfErr, IfOk, OnErr, OnOk, length};
ghost use Rattle.counted_disk.specs.Counting.{IsCounted, count_of};
ghost use Rattle.disk_model.specs.Event.{Tell};
ghost use Rattle.disk_model.specs.Past.{At, Is, MayGrow, grow};
ghost use Rattle.disk_model.specs.declared.names.FileName.TheVariants.{Log as LogFile};
ghost use Rattle.places.specs.Writes.{IsPart};
ghost use Rattle.redo_log.specs.Events.{block_batch};
ghost use Rattle.redo_log.specs.Log.{IsOpen, handed_over, pending_count, written_out};
ghost use Rattle.store_image.specs.View.{block_bytes};
ghost use Rattle.session_core.specs.Files.{HasStoreFiles, IsStopOf, calls_of};
ghost use Rattle.session_core.specs.Syncing.{IsStopBesideTurns, IsSyncRefusal, IsSyncedInPart, synced_session, synced_past, write_calls, written_past};

use crate::stopping::fault_of;
use crate::tablespaces::Tablespaces;
use crate::{EngineFault, SessionCore};
use counted_disk::Counted;
use disk_model::{Disk, Mark};
use redo_log::Log;

// Writes the pending blocks out.
fn write_log<D: Disk + Drop>(
    disk: &mut Counted<D>,
    log: &mut Log,
    store: &Tablespaces,
) -> Result<(), EngineFault>
    requires up { disk.old.stop ≡ None }
    requires ring { log.old.blocks ≡ store.now.header.blocks }
    requires files { At (HasStoreFiles store.now.header.blocks store.now.spaces) (D.past disk.old.disk) }
    ensures written { OnOk result (log.new ≡ written_out log.old) }
    ensures kept { OnErr result (log.new ≡ handed_over log.old) }
    ensures exact { OnOk result (D.past disk.new.disk ≡ written_past log.old (D.past disk.old.disk)) }
    ensures part { OnErr result (IsPart LogFile block_bytes (block_batch log.old) (pending_count log.old) (D.past disk.old.disk) (D.past disk.new.disk)) }
    ensures files { OnOk result (At (HasStoreFiles store.now.header.blocks store.now.spaces) (D.past disk.new.disk)) }
    ensures stopped { IfErr result (IsStopOf disk.new) }
    ensures up { OnOk result (disk.new.stop ≡ None) }
    ensures open { IsOpen log.new }
    ensures later { D.is_later disk.old.disk disk.new.disk × IsCounted (count_of D.past D.faults D.memory_refusals disk.old) (count_of D.past D.faults D.memory_refusals disk.new) }
    ensures calls { calls_of D.clock disk.new ≤ calls_of D.clock disk.old + write_calls (pending_count log.old) }
{
    match log.write_out(disk) {
        Ok(()) => Ok(()),
        Err(error) => Err(fault_of(disk, error)),
    }
}

/// Tells a mark.
pub(crate) fn tell_mark<D: Disk + Drop>(
    disk: &mut Counted<D>,
    mark: Mark,
) -> Result<(), EngineFault>
    requires up { disk.old.stop ≡ None }
    ensures told { OnOk result (D.past disk.new.disk ≡ grow (Tell mark) (D.past disk.old.disk)) }
    ensures may { OnErr result (MayGrow (Is (Tell mark)) (D.past disk.old.disk) (D.past disk.new.disk)) }
    ensures stopped { IfErr result (IsStopBesideTurns disk.new) }
    ensures up { OnOk result (disk.new.stop ≡ None) }
    ensures later { D.is_later disk.old.disk disk.new.disk × IsCounted (count_of D.past D.faults D.memory_refusals disk.old) (count_of D.past D.faults D.memory_refusals disk.new) }
    ensures calls { calls_of D.clock disk.new ≤ calls_of D.clock disk.old + 1 }
{
    match disk.tell(mark) {
        Ok(()) => Ok(()),
        Err(error) => Err(fault_of(disk, error)),
    }
}

impl<D: Disk + Drop> SessionCore<D> {
    /// Does what [`SessionCore::sync`] does, for a session whose disk wasn't stopped.
    pub(crate) fn settle(&mut self) -> Result<u64, EngineFault>
        requires up { self.old.disk.stop ≡ None }
        ensures synced { OnOk result (self.new ≡ synced_session self.old self.new.disk) }
        ensures count { IfOk result (λ count. count ≡ length self.old.journal) }
        ensures exact { OnOk result (D.past self.new.disk.disk ≡ synced_past self.old.log (length self.old.journal) (D.past self.old.disk.disk)) }
        ensures refused { IfErr result (IsSyncedInPart D.past self.old self.new) }
        ensures up { OnOk result (self.new.disk.stop ≡ None) }
        ensures later { D.is_later self.old.disk.disk self.new.disk.disk × IsCounted (count_of D.past D.faults D.memory_refusals self.old.disk) (count_of D.past D.faults D.memory_refusals self.new.disk) }
        ensures calls { calls_of D.clock self.new.disk ≤ calls_of D.clock self.old.disk + (write_calls (pending_count self.old.log) + 1) }
    {
        write_log(&mut self.disk, &mut self.log, &self.store)?;
        let count = self.journal.len() as u64;
        tell_mark(&mut self.disk, Mark::Acked(count))?;
        self.acked = count;
        Ok(count)
    }

    /// Makes all entries of the journal durable, and answers how many there are, which the disk is told.
    /// The pending blocks are written in order, and the log is synced; where no block is pending, nothing
    /// but the mark is asked of the disk. It takes no memory.
    ///
    /// # Errors
    /// [`EngineFault::Down`] or [`EngineFault::OutOfMemory`] exactly where the disk was stopped, and
    /// nothing is changed; else [`EngineFault::DiskFault`] or [`EngineFault::OutOfMemory`] where the disk
    /// was stopped in this call. Some of the blocks may then be on the disk, and they stay pending; or all
    /// are durable, and the mark may be there.
    pub fn sync(&mut self) -> Result<u64, EngineFault>
        ensures synced { OnOk result (self.new ≡ synced_session self.old self.new.disk) }
        ensures count { IfOk result (λ count. count ≡ length self.old.journal) }
        ensures exact { OnOk result (D.past self.new.disk.disk ≡ synced_past self.old.log (length self.old.journal) (D.past self.old.disk.disk)) }
        ensures refused { IfErr result (IsSyncRefusal D.past self.old self.new) }
        ensures was_up { OnOk result (self.old.disk.stop ≡ None) }
        ensures up { OnOk result (self.new.disk.stop ≡ None) }
        ensures later { D.is_later self.old.disk.disk self.new.disk.disk × IsCounted (count_of D.past D.faults D.memory_refusals self.old.disk) (count_of D.past D.faults D.memory_refusals self.new.disk) }
        ensures calls { calls_of D.clock self.new.disk ≤ calls_of D.clock self.old.disk + (write_calls (pending_count self.old.log) + 1) }
    {
        self.check()?;
        self.settle()
    }
}
