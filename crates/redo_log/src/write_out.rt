// The pending blocks are written out: device calls, one to a function.
ghost use Rattle.std.specs.Prelude.{◌≡◌, ℕ, ◌+◌, ◌*◌, ◌<◌, ◌≤◌, List, length, OnOk, OnErr, Ok, IsErrOf};
ghost use Rattle.disk_model.specs.Does.{Does};
ghost use Rattle.disk_model.specs.Event.{Write};
ghost use Rattle.disk_model.specs.Past.{Past, At, Throughout, MayGrow, IsWrite, grow, HasDiskCause, HasDiskMemoryCause};
ghost use Rattle.disk_model.specs.declared.names.FileName.TheVariants.{Log as LogFile};
ghost use Rattle.places.specs.Batches.{From};
ghost use Rattle.places.specs.Places.{HasFile, HasPlaces};
ghost use Rattle.ring_log.specs.Batches.{more, settle};
ghost use Rattle.key_ring.specs.Ring.{RingEntry};
ghost use Rattle.ring_log.specs.Ring.{RingState, Ringed, RingReady, IsRingJournal, AllRingStand};
ghost use Rattle.store_files.specs.Header.{HeldHeader};
ghost use Rattle.store_image.specs.View.{block_bytes, Logged};
ghost use Rattle.redo_text.specs.declared.change.Change.{Change};
ghost use Rattle.redo_log.specs.Blocks.{Keys, redo_form};
ghost use Rattle.places.specs.Writes.{writes_of, grows, IsPart};
ghost use Rattle.redo_log.specs.Events.{block_batch, IsAny, BlocksWriting, BlocksWrote, IsBlockEvent, out_events};
ghost use Rattle.redo_log.specs.Log.{IsOpen, durable, pending_at, pending_count, handed_over, written_out, FitsRing};
ghost use Rattle.redo_log.specs.Recorded.{BlocksOnce, IsRecordOnce, AreBlocksSettled};
ghost use Rattle.crash_image.specs.LogForm.{log_places};
ghost use Rattle.ring_log.specs.Blocks.{place_in_ring};

use crate::Log;
use crate::layout::{BLOCK_BYTES, RING_BEGINS};
use disk_model::{Disk, DiskError, FileName};

impl Log {
    // Writes one pending block.
    fn write_block<D: Disk>(&self, disk: &mut D, i: usize) -> Result<(), DiskError>
        requires more { i < pending_count self.now }
        requires file { At (HasFile LogFile (log_places self.now.blocks)) (D.past disk.old) }
        ensures does { (first : Past) → At (From (BlocksWrote self.now i) first) (D.past disk.old) → Does (From (BlocksWriting self.now) first) (IsBlockEvent self.now) (From (BlocksWrote self.now (i + 1)) first) (D.past disk.old) (D.past disk.new) result }
        ensures adds { Does IsAny (IsBlockEvent self.now) IsAny (D.past disk.old) (D.past disk.new) result }
        ensures file { At (HasFile LogFile (log_places self.now.blocks)) (D.past disk.new) }
        ensures ok { OnOk result (D.past disk.new ≡ grow (Write LogFile (place_in_ring self.now.blocks (durable self.now + i) * block_bytes) (pending_at self.now i) (pending_at self.now i)) (D.past disk.old)) }
        ensures err { OnErr result (MayGrow (IsWrite LogFile (place_in_ring self.now.blocks (durable self.now + i) * block_bytes) (pending_at self.now i)) (D.past disk.old) (D.past disk.new)) }
        ensures later { D.is_later disk.old disk.new }
        ensures calls { D.clock disk.new ≤ D.clock disk.old + 1 }
        ensures cause { HasDiskCause (D.faults disk.old) (D.faults disk.new) result }
        ensures memory { HasDiskMemoryCause (D.memory_refusals disk.old) (D.memory_refusals disk.new) result }
        ensures no_fault { OnOk result (D.faults disk.new ≡ D.faults disk.old) }
        ensures no_fault_at_want { IsErrOf result DiskError.NoMemory → D.faults disk.new ≡ D.faults disk.old }
        ensures no_refusal { OnOk result (D.memory_refusals disk.new ≡ D.memory_refusals disk.old) }
    {
        let number = self.durable() + i as u64;
        let place = RING_BEGINS + number % self.blocks();
        disk.write(FileName::Log, place * BLOCK_BYTES, self.pending_block(i))
    }

    // Writes the pending blocks in order.
    fn write_blocks<D: Disk>(&self, disk: &mut D) -> Result<(), DiskError>
        requires file { At (HasFile LogFile (log_places self.now.blocks)) (D.past disk.old) }
        ensures does { At (HasPlaces LogFile (log_places self.now.blocks)) (D.past disk.old) → Does (From (BlocksWriting self.now) (D.past disk.old)) (IsBlockEvent self.now) (From (BlocksWrote self.now (pending_count self.now)) (D.past disk.old)) (D.past disk.old) (D.past disk.new) result }
        ensures adds { Does IsAny (IsBlockEvent self.now) IsAny (D.past disk.old) (D.past disk.new) result }
        ensures file { At (HasFile LogFile (log_places self.now.blocks)) (D.past disk.new) }
        ensures exact { OnOk result (D.past disk.new ≡ grows (writes_of LogFile block_bytes (block_batch self.now) (pending_count self.now)) (D.past disk.old)) }
        ensures part { OnErr result (IsPart LogFile block_bytes (block_batch self.now) (pending_count self.now) (D.past disk.old) (D.past disk.new)) }
        ensures later { D.is_later disk.old disk.new }
        ensures calls { D.clock disk.new ≤ D.clock disk.old + pending_count self.now }
        ensures cause { HasDiskCause (D.faults disk.old) (D.faults disk.new) result }
        ensures memory { HasDiskMemoryCause (D.memory_refusals disk.old) (D.memory_refusals disk.new) result }
        ensures no_fault { OnOk result (D.faults disk.new ≡ D.faults disk.old) }
        ensures no_fault_at_want { IsErrOf result DiskError.NoMemory → D.faults disk.new ≡ D.faults disk.old }
        ensures no_refusal { OnOk result (D.memory_refusals disk.new ≡ D.memory_refusals disk.old) }
    {
        for i in 0..self.pending_count() {
            self.write_block(disk, i)?;
        }
        Ok(())
    }

    // Writes the pending blocks in order, and syncs the log.
    fn settle_blocks<D: Disk>(&self, disk: &mut D) -> Result<(), DiskError>
        requires file { At (HasFile LogFile (log_places self.now.blocks)) (D.past disk.old) }
        ensures does { (keys : Keys) (r : RingState) → FitsRing r self.now → At (RingReady self.now.blocks (redo_form keys) r) (D.past disk.old) → Does (Ringed self.now.blocks (redo_form keys) (more r (pending_count self.now))) (IsBlockEvent self.now) (RingReady self.now.blocks (redo_form keys) (settle r (pending_count self.now))) (D.past disk.old) (D.past disk.new) result }
        ensures recorded { At (BlocksOnce (handed_over self.now)) (D.past disk.old) → Throughout (BlocksOnce (handed_over self.now)) (D.past disk.old) (D.past disk.new) }
        ensures record { (header : HeldHeader) (keys : List RingEntry) (salts : ℕ → List ℕ) → At (BlocksOnce (handed_over self.now)) (D.past disk.old) → At (IsRecordOnce header keys salts) (D.past disk.old) → Throughout (IsRecordOnce header keys salts) (D.past disk.old) (D.past disk.new) }
        ensures open { IsOpen self.now }
        ensures file { At (HasFile LogFile (log_places self.now.blocks)) (D.past disk.new) }
        ensures places { At (HasPlaces LogFile (log_places self.now.blocks)) (D.past disk.old) → At (HasPlaces LogFile (log_places self.now.blocks)) (D.past disk.new) }
        ensures nothing { pending_count self.now ≡ 0 → (result ≡ Ok tt) × (disk.new ≡ disk.old) }
        ensures exact { OnOk result (D.past disk.new ≡ grows (out_events (pending_count self.now) self.now) (D.past disk.old)) }
        ensures part { OnErr result (IsPart LogFile block_bytes (block_batch self.now) (pending_count self.now) (D.past disk.old) (D.past disk.new)) }
        ensures later { D.is_later disk.old disk.new }
        ensures calls { D.clock disk.new ≤ D.clock disk.old + (pending_count self.now + 1) }
        ensures cause { HasDiskCause (D.faults disk.old) (D.faults disk.new) result }
        ensures memory { HasDiskMemoryCause (D.memory_refusals disk.old) (D.memory_refusals disk.new) result }
        ensures no_fault { OnOk result (D.faults disk.new ≡ D.faults disk.old) }
        ensures no_fault_at_want { IsErrOf result DiskError.NoMemory → D.faults disk.new ≡ D.faults disk.old }
        ensures no_refusal { OnOk result (D.memory_refusals disk.new ≡ D.memory_refusals disk.old) }
    {
        if self.pending_count() == 0 {
            return Ok(());
        }
        self.write_blocks(disk)?;
        disk.sync(FileName::Log)
    }

    // The pending blocks were handed to the disk, and may be there.
    fn hand_over(&mut self)
        ensures handed { self.new ≡ handed_over self.old }
        ensures open { IsOpen self.new }
    {
        self.handed = self.next;
    }

    // The pending blocks are durable.
    fn end_pending(&mut self)
        ensures ended { self.new ≡ written_out self.old }
        ensures fits { (r : RingState) → FitsRing r self.old → FitsRing (settle r (pending_count self.old)) self.new }
        ensures open { IsOpen self.new }
    {
        self.hand_over();
        self.pending.clear();
    }

    /// Writes the pending blocks in order, each at its place in the ring, and syncs the log. Where
    /// nothing is pending nothing is done. Then no block is pending. It takes no memory. The log's file
    /// is there with its length, whatever is pending of it; what is said of images holds where it keeps
    /// its places too.
    ///
    /// # Errors
    /// As the disk gives them. Some of the pending blocks may then be on the disk; they stay pending,
    /// and can't be taken back.
    pub fn write_out<D: Disk>(&mut self, disk: &mut D) -> Result<(), DiskError>
        requires file { At (HasFile LogFile (log_places self.old.blocks)) (D.past disk.old) }
        // Each lucky image of each moment stands for a part of the journal, and at Ok all is durable.
        ensures stands { (keys : Keys) (r : RingState) (start : ℕ) (journal : List (Logged (List Change))) → FitsRing r self.old → At (RingReady self.old.blocks (redo_form keys) r) (D.past disk.old) → IsRingJournal self.old.blocks (redo_form keys) r start journal self.old.next → Throughout (AllRingStand self.old.blocks (redo_form keys) (more r (pending_count self.old)) start journal self.old.next) (D.past disk.old) (D.past disk.new) }
        ensures does { (keys : Keys) (r : RingState) → FitsRing r self.old → At (RingReady self.old.blocks (redo_form keys) r) (D.past disk.old) → Does (Ringed self.old.blocks (redo_form keys) (more r (pending_count self.old))) (IsBlockEvent self.old) (RingReady self.old.blocks (redo_form keys) (settle r (pending_count self.old))) (D.past disk.old) (D.past disk.new) result }
        ensures fits { OnOk result ((r : RingState) → FitsRing r self.old → FitsRing (settle r (pending_count self.old)) self.new) }
        ensures journal { OnOk result ((keys : Keys) (r : RingState) (start : ℕ) (journal : List (Logged (List Change))) → FitsRing r self.old → r.written ≡ r.settled → IsRingJournal self.old.blocks (redo_form keys) r start journal self.old.next → IsRingJournal self.old.blocks (redo_form keys) (settle r (pending_count self.old)) start journal self.new.next) }
        ensures nothing { pending_count self.old ≡ 0 → (result ≡ Ok tt) × (disk.new ≡ disk.old) }
        ensures exact { OnOk result (D.past disk.new ≡ grows (out_events (pending_count self.old) self.old) (D.past disk.old)) }
        ensures part { OnErr result (IsPart LogFile block_bytes (block_batch self.old) (pending_count self.old) (D.past disk.old) (D.past disk.new)) }
        ensures given_up { OnOk result (self.new ≡ written_out self.old) }
        ensures kept { OnErr result (self.new ≡ handed_over self.old) }
        // At each moment the record of writes has one block a number, and none that wasn't handed to the disk; and what a store's record says of its texts.
        ensures recorded { At (BlocksOnce self.old) (D.past disk.old) → Throughout (BlocksOnce (handed_over self.old)) (D.past disk.old) (D.past disk.new) × At (BlocksOnce self.new) (D.past disk.new) }
        ensures record { (header : HeldHeader) (keys : List RingEntry) (salts : ℕ → List ℕ) → At (BlocksOnce self.old) (D.past disk.old) → At (IsRecordOnce header keys salts) (D.past disk.old) → Throughout (IsRecordOnce header keys salts) (D.past disk.old) (D.past disk.new) }
        ensures settles { (keys : Keys) (r : RingState) (start : ℕ) (journal : List (Logged (List Change))) → FitsRing r self.old → r.written ≡ r.settled → At (BlocksOnce self.old) (D.past disk.old) → Throughout (AreBlocksSettled self.old.blocks keys (more r (pending_count self.old)) start journal self.old.next) (D.past disk.old) (D.past disk.new) }
        ensures open { IsOpen self.new }
        ensures file { At (HasFile LogFile (log_places self.old.blocks)) (D.past disk.new) }
        ensures places { At (HasPlaces LogFile (log_places self.old.blocks)) (D.past disk.old) → At (HasPlaces LogFile (log_places self.old.blocks)) (D.past disk.new) }
        ensures later { D.is_later disk.old disk.new }
        ensures calls { D.clock disk.new ≤ D.clock disk.old + (pending_count self.old + 1) }
        ensures cause { HasDiskCause (D.faults disk.old) (D.faults disk.new) result }
        ensures memory { HasDiskMemoryCause (D.memory_refusals disk.old) (D.memory_refusals disk.new) result }
        ensures no_fault { OnOk result (D.faults disk.new ≡ D.faults disk.old) }
        ensures no_fault_at_want { IsErrOf result DiskError.NoMemory → D.faults disk.new ≡ D.faults disk.old }
        ensures no_refusal { OnOk result (D.memory_refusals disk.new ≡ D.memory_refusals disk.old) }
    {
        match self.settle_blocks(disk) {
            Ok(()) => {
                self.end_pending();
                Ok(())
            }
            Err(error) => {
                self.hand_over();
                Err(error)
            }
        }
    }
}
