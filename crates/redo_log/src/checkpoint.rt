// Checkpoints are written: device calls, one to a function.
ghost use Rattle.std.specs.Prelude.{◌≡◌, ℕ, ◌+◌, ◌*◌, ◌%◌, ◌<◌, ◌≤◌, ◌^◌, List, OnOk, OnErr, Ok, IsErrOf};
ghost use Rattle.disk_model.specs.Does.{Does};
ghost use Rattle.disk_model.specs.Event.{Sync};
ghost use Rattle.disk_model.specs.Past.{Past, At, Throughout, MayGrow, IsWrite, grow, HasDiskCause, HasDiskMemoryCause};
ghost use Rattle.disk_model.specs.declared.names.FileName.TheVariants.{Log as LogFile};
ghost use Rattle.key_ring.specs.Ring.{RingEntry};
ghost use Rattle.places.specs.Batches.{From};
ghost use Rattle.places.specs.Places.{HasFile, HasPlaces};
ghost use Rattle.ring_log.specs.Batches.{checking};
ghost use Rattle.ring_log.specs.Ring.{RingState, Ringed, RingReady, IsBound, IsRingJournal, AllRingStand};
ghost use Rattle.ring_log.specs.Opening.{IsFound};
ghost use Rattle.store_files.specs.Header.{HeldHeader, least_ring_blocks, most_ring_blocks};
ghost use Rattle.store_image.specs.Places.{LogView};
ghost use Rattle.store_image.specs.View.{block_bytes, Logged};
ghost use Rattle.redo_text.specs.declared.change.Change.{Change};
ghost use Rattle.redo_log.specs.Blocks.{Keys, redo_form};
ghost use Rattle.redo_log.specs.Check.{check_bytes};
ghost use Rattle.places.specs.Writes.{IsPart};
ghost use Rattle.redo_log.specs.Events.{side_batch, IsAny, CheckWriting, CheckWrote, CheckSettled, IsCheckEvent, check_event};
ghost use Rattle.redo_log.specs.Fresh.{fresh_ring, IsFresh};
ghost use Rattle.redo_log.specs.Opening.{HasHeaderBlock, IsOpening, IsOpenedLog};
ghost use Rattle.redo_log.specs.Log.{IsOpen, durable, checked, with_checkpoint, FitsRing};
ghost use Rattle.redo_log.specs.Recorded.{KeepsItems, BlocksOnce, IsRecordOnce, AreBlocksSettled};
ghost use Rattle.crash_image.specs.LogForm.{log_places};

use crate::Log;
use crate::check_block::fill_check;
use crate::layout::{BLOCK, BLOCK_BYTES};
use disk_model::{Disk, DiskError, FileName};

// Writes a checkpoint of a log with so many ring blocks.
fn write_check<D: Disk>(
    disk: &mut D,
    blocks: u64,
    sequence: u64,
    from: u64,
) -> Result<(), DiskError>
    requires some { 1 ≤ sequence }
    requires order { sequence < from }
    requires most { from ≤ 2 ^ 50 }
    requires places { At (HasFile LogFile (log_places blocks)) (D.past disk.old) }
    ensures does { At (HasPlaces LogFile (log_places blocks)) (D.past disk.old) → Does (From (CheckWriting blocks sequence from) (D.past disk.old)) (IsCheckEvent sequence from) (From (CheckWrote blocks sequence from 1) (D.past disk.old)) (D.past disk.old) (D.past disk.new) result }
    ensures adds { Does IsAny (IsCheckEvent sequence from) IsAny (D.past disk.old) (D.past disk.new) result }
    ensures ok { OnOk result (D.past disk.new ≡ grow (check_event sequence from) (D.past disk.old)) }
    ensures file { At (HasFile LogFile (log_places blocks)) (D.past disk.new) }
    ensures err { OnErr result (MayGrow (IsWrite LogFile ((1 + sequence % 2) * block_bytes) (check_bytes sequence from)) (D.past disk.old) (D.past disk.new)) }
    ensures later { D.is_later disk.old disk.new }
    ensures calls { D.clock disk.new ≤ D.clock disk.old + 1 }
    ensures cause { HasDiskCause (D.faults disk.old) (D.faults disk.new) result }
    ensures memory { HasDiskMemoryCause (D.memory_refusals disk.old) (D.memory_refusals disk.new) result }
    ensures no_fault { OnOk result (D.faults disk.new ≡ D.faults disk.old) }
    ensures no_fault_at_want { IsErrOf result DiskError.NoMemory → D.faults disk.new ≡ D.faults disk.old }
    ensures no_refusal { OnOk result (D.memory_refusals disk.new ≡ D.memory_refusals disk.old) }
{
    let _ = blocks;
    let mut block = [0; BLOCK];
    fill_check(&mut block, sequence, from);
    disk.write(FileName::Log, (1 + sequence % 2) * BLOCK_BYTES, &block)
}

// Writes a checkpoint, and syncs the log.
fn settle_check<D: Disk>(
    disk: &mut D,
    blocks: u64,
    sequence: u64,
    from: u64,
) -> Result<(), DiskError>
    requires some { 1 ≤ sequence }
    requires order { sequence < from }
    requires most { from ≤ 2 ^ 50 }
    requires places { At (HasFile LogFile (log_places blocks)) (D.past disk.old) }
    ensures does { At (HasPlaces LogFile (log_places blocks)) (D.past disk.old) → Does (From (CheckWriting blocks sequence from) (D.past disk.old)) (IsCheckEvent sequence from) (From (CheckSettled blocks sequence from) (D.past disk.old)) (D.past disk.old) (D.past disk.new) result }
    ensures file { At (HasFile LogFile (log_places blocks)) (D.past disk.new) }
    ensures exact { OnOk result (D.past disk.new ≡ grow (Sync LogFile) (grow (check_event sequence from) (D.past disk.old))) }
    ensures part { OnErr result (IsPart LogFile block_bytes (side_batch sequence from) 1 (D.past disk.old) (D.past disk.new)) }
    ensures items { Throughout (From KeepsItems (D.past disk.old)) (D.past disk.old) (D.past disk.new) }
    ensures later { D.is_later disk.old disk.new }
    ensures calls { D.clock disk.new ≤ D.clock disk.old + 2 }
    ensures cause { HasDiskCause (D.faults disk.old) (D.faults disk.new) result }
    ensures memory { HasDiskMemoryCause (D.memory_refusals disk.old) (D.memory_refusals disk.new) result }
    ensures no_fault { OnOk result (D.faults disk.new ≡ D.faults disk.old) }
    ensures no_fault_at_want { IsErrOf result DiskError.NoMemory → D.faults disk.new ≡ D.faults disk.old }
    ensures no_refusal { OnOk result (D.memory_refusals disk.new ≡ D.memory_refusals disk.old) }
{
    write_check(disk, blocks, sequence, from)?;
    disk.sync(FileName::Log)
}

/// Writes the first checkpoint of a log that was made of zero bytes, with so many ring blocks: its
/// sequence is 1, and the run begins at block 2. The log is synced. It takes no memory.
///
/// # Errors
/// As the disk gives them.
pub fn write_first_checkpoint<D: Disk>(disk: &mut D, blocks: u64) -> Result<(), DiskError>
    requires least { least_ring_blocks ≤ blocks }
    requires most { blocks ≤ most_ring_blocks }
    requires made { At (IsFresh blocks) (D.past disk.old) }
    ensures ready { (keys : Keys) → OnOk result (At (RingReady blocks (redo_form keys) (fresh_ring blocks)) (D.past disk.new)) }
    ensures exact { OnOk result (D.past disk.new ≡ grow (Sync LogFile) (grow (check_event 1 2) (D.past disk.old))) }
    ensures part { OnErr result (IsPart LogFile block_bytes (side_batch 1 2) 1 (D.past disk.old) (D.past disk.new)) }
    // Nothing of the record's page texts and ring blocks is changed by it.
    ensures items { Throughout (From KeepsItems (D.past disk.old)) (D.past disk.old) (D.past disk.new) }
    ensures places { At (HasPlaces LogFile (log_places blocks)) (D.past disk.new) }
    ensures later { D.is_later disk.old disk.new }
    ensures calls { D.clock disk.new ≤ D.clock disk.old + 2 }
    ensures cause { HasDiskCause (D.faults disk.old) (D.faults disk.new) result }
    ensures memory { HasDiskMemoryCause (D.memory_refusals disk.old) (D.memory_refusals disk.new) result }
    ensures no_fault { OnOk result (D.faults disk.new ≡ D.faults disk.old) }
    ensures no_fault_at_want { IsErrOf result DiskError.NoMemory → D.faults disk.new ≡ D.faults disk.old }
    ensures no_refusal { OnOk result (D.memory_refusals disk.new ≡ D.memory_refusals disk.old) }
{
    settle_check(disk, blocks, 1, 2)
}

/// Writes the checkpoint of an opening, which is the next one behind the newest, of this sequence: the
/// run that was found ends before this number, and the next one begins a ring's length behind it, so
/// that no block of the ring has a number from there on. The log is synced. It takes no memory.
///
/// # Errors
/// As the disk gives them. The log then says what was found, or what is behind it.
pub fn write_opening_checkpoint<D: Disk>(
    disk: &mut D,
    blocks: u64,
    sequence: u64,
    end: u64,
) -> Result<(), DiskError>
    requires least { least_ring_blocks ≤ blocks }
    requires most { blocks ≤ most_ring_blocks }
    requires order { sequence < end }
    requires high { end + blocks ≤ 2 ^ 50 }
    requires places { At (HasFile LogFile (log_places blocks)) (D.past disk.old) }
    // Each lucky image of each moment has its length, its header, and the log that was found or the one behind it, and at Ok a session may begin there.
    ensures opens { (keys : Keys) (found : LogView (List Change)) (header : List ℕ) → found.end ≡ end → At (IsFound blocks (redo_form keys) sequence found) (D.past disk.old) → At (HasHeaderBlock header) (D.past disk.old) → Does (IsOpening blocks (redo_form keys) header found) (IsCheckEvent (sequence + 1) (end + blocks)) (IsOpenedLog blocks (redo_form keys) sequence header found) (D.past disk.old) (D.past disk.new) result }
    ensures exact { OnOk result (D.past disk.new ≡ grow (Sync LogFile) (grow (check_event (sequence + 1) (end + blocks)) (D.past disk.old))) }
    ensures part { OnErr result (IsPart LogFile block_bytes (side_batch (sequence + 1) (end + blocks)) 1 (D.past disk.old) (D.past disk.new)) }
    // Nothing of the record's page texts and ring blocks is changed by it.
    ensures items { Throughout (From KeepsItems (D.past disk.old)) (D.past disk.old) (D.past disk.new) }
    ensures file { At (HasFile LogFile (log_places blocks)) (D.past disk.new) }
    ensures places { At (HasPlaces LogFile (log_places blocks)) (D.past disk.old) → At (HasPlaces LogFile (log_places blocks)) (D.past disk.new) }
    ensures later { D.is_later disk.old disk.new }
    ensures calls { D.clock disk.new ≤ D.clock disk.old + 2 }
    ensures cause { HasDiskCause (D.faults disk.old) (D.faults disk.new) result }
    ensures memory { HasDiskMemoryCause (D.memory_refusals disk.old) (D.memory_refusals disk.new) result }
    ensures no_fault { OnOk result (D.faults disk.new ≡ D.faults disk.old) }
    ensures no_fault_at_want { IsErrOf result DiskError.NoMemory → D.faults disk.new ≡ D.faults disk.old }
    ensures no_refusal { OnOk result (D.memory_refusals disk.new ≡ D.memory_refusals disk.old) }
{
    settle_check(disk, blocks, sequence + 1, end + blocks)
}

impl Log {
    // Writes the next checkpoint, where the run begins at another block than at the old one.
    fn move_from<D: Disk>(&self, disk: &mut D, from: u64) -> Result<(), DiskError>
        requires low { self.now.from ≤ from }
        requires high { from ≤ durable self.now }
        requires file { At (HasFile LogFile (log_places self.now.blocks)) (D.past disk.old) }
        ensures does { (keys : Keys) (r : RingState) → FitsRing r self.now → At (RingReady self.now.blocks (redo_form keys) r) (D.past disk.old) → Does (Ringed self.now.blocks (redo_form keys) (checking r from)) (IsCheckEvent (self.now.sequence + 1) from) (RingReady self.now.blocks (redo_form keys) (checked r from)) (D.past disk.old) (D.past disk.new) result }
        ensures open { IsOpen self.now }
        ensures file { At (HasFile LogFile (log_places self.now.blocks)) (D.past disk.new) }
        ensures places { At (HasPlaces LogFile (log_places self.now.blocks)) (D.past disk.old) → At (HasPlaces LogFile (log_places self.now.blocks)) (D.past disk.new) }
        ensures nothing { from ≡ self.now.from → (result ≡ Ok tt) × (D.past disk.new ≡ D.past disk.old) × (disk.new ≡ disk.old) }
        ensures exact { self.now.from < from → OnOk result (D.past disk.new ≡ grow (Sync LogFile) (grow (check_event (self.now.sequence + 1) from) (D.past disk.old))) }
        ensures part { OnErr result (IsPart LogFile block_bytes (side_batch (self.now.sequence + 1) from) 1 (D.past disk.old) (D.past disk.new)) }
        ensures items { Throughout (From KeepsItems (D.past disk.old)) (D.past disk.old) (D.past disk.new) }
        ensures later { D.is_later disk.old disk.new }
        ensures calls { D.clock disk.new ≤ D.clock disk.old + 2 }
        ensures cause { HasDiskCause (D.faults disk.old) (D.faults disk.new) result }
        ensures memory { HasDiskMemoryCause (D.memory_refusals disk.old) (D.memory_refusals disk.new) result }
        ensures no_fault { OnOk result (D.faults disk.new ≡ D.faults disk.old) }
        ensures no_fault_at_want { IsErrOf result DiskError.NoMemory → D.faults disk.new ≡ D.faults disk.old }
        ensures no_refusal { OnOk result (D.memory_refusals disk.new ≡ D.memory_refusals disk.old) }
    {
        if from == self.from() {
            return Ok(());
        }
        settle_check(disk, self.blocks(), self.sequence() + 1, from)
    }

    // Goes on from a checkpoint that is durable, where the run begins at another block.
    fn go_on_from(&mut self, from: u64)
        requires low { self.old.from ≤ from }
        requires high { from ≤ durable self.old }
        ensures moved { self.new ≡ with_checkpoint self.old from }
        ensures fits { (r : RingState) → FitsRing r self.old → FitsRing (checked r from) self.new }
        ensures open { IsOpen self.new }
    {
        if from != self.from {
            self.from = from;
            self.sequence += 1;
        }
    }

    /// Writes the next checkpoint, from which the run begins at this block, and syncs the log. The
    /// block must be from the one of the last synced checkpoint up to the first pending one. Where it
    /// is that of the last synced checkpoint nothing is done. It takes no memory. The log's file is there
    /// with its length, whatever is pending of it; what is said of images holds where it keeps its places
    /// too.
    ///
    /// # Errors
    /// As the disk gives them. The checkpoint may then be on the disk or not, and the log goes on with
    /// the last synced one.
    pub fn checkpoint<D: Disk>(&mut self, disk: &mut D, from: u64) -> Result<(), DiskError>
        requires low { self.old.from ≤ from }
        requires high { from ≤ durable self.old }
        requires file { At (HasFile LogFile (log_places self.old.blocks)) (D.past disk.old) }
        // Each lucky image of each moment stands for a part of the journal.
        ensures stands { (keys : Keys) (r : RingState) (start : ℕ) (journal : List (Logged (List Change))) → FitsRing r self.old → At (RingReady self.old.blocks (redo_form keys) r) (D.past disk.old) → IsRingJournal self.old.blocks (redo_form keys) r start journal self.old.next → IsBound self.old.blocks (redo_form keys) r.block start journal from → Throughout (AllRingStand self.old.blocks (redo_form keys) (checking r from) start journal self.old.next) (D.past disk.old) (D.past disk.new) }
        ensures does { (keys : Keys) (r : RingState) → FitsRing r self.old → At (RingReady self.old.blocks (redo_form keys) r) (D.past disk.old) → Does (Ringed self.old.blocks (redo_form keys) (checking r from)) (IsCheckEvent (self.old.sequence + 1) from) (RingReady self.old.blocks (redo_form keys) (checked r from)) (D.past disk.old) (D.past disk.new) result }
        ensures fits { OnOk result ((r : RingState) → FitsRing r self.old → FitsRing (checked r from) self.new) }
        ensures journal { OnOk result ((keys : Keys) (r : RingState) (start : ℕ) (journal : List (Logged (List Change))) → IsBound self.old.blocks (redo_form keys) r.block start journal from → IsRingJournal self.old.blocks (redo_form keys) r start journal self.old.next → IsRingJournal self.old.blocks (redo_form keys) (checked r from) start journal self.new.next) }
        ensures nothing { from ≡ self.old.from → (result ≡ Ok tt) × (D.past disk.new ≡ D.past disk.old) × (disk.new ≡ disk.old) }
        ensures exact { self.old.from < from → OnOk result (D.past disk.new ≡ grow (Sync LogFile) (grow (check_event (self.old.sequence + 1) from) (D.past disk.old))) }
        ensures part { OnErr result (IsPart LogFile block_bytes (side_batch (self.old.sequence + 1) from) 1 (D.past disk.old) (D.past disk.new)) }
        ensures moved { OnOk result (self.new ≡ with_checkpoint self.old from) }
        ensures kept { OnErr result (self.new ≡ self.old) }
        // The record of writes agrees with the log at each moment, and nothing of its page texts and ring blocks is changed.
        ensures items { Throughout (From KeepsItems (D.past disk.old)) (D.past disk.old) (D.past disk.new) }
        ensures recorded { At (BlocksOnce self.old) (D.past disk.old) → Throughout (BlocksOnce self.old) (D.past disk.old) (D.past disk.new) × At (BlocksOnce self.new) (D.past disk.new) }
        ensures record { (header : HeldHeader) (keys : List RingEntry) (salts : ℕ → List ℕ) → At (IsRecordOnce header keys salts) (D.past disk.old) → Throughout (IsRecordOnce header keys salts) (D.past disk.old) (D.past disk.new) }
        ensures settles { (keys : Keys) (r : RingState) (start : ℕ) (journal : List (Logged (List Change))) → FitsRing r self.old → r.written ≡ r.settled → At (BlocksOnce self.old) (D.past disk.old) → Throughout (AreBlocksSettled self.old.blocks keys (checking r from) start journal self.old.next) (D.past disk.old) (D.past disk.new) }
        ensures open { IsOpen self.new }
        ensures file { At (HasFile LogFile (log_places self.old.blocks)) (D.past disk.new) }
        ensures places { At (HasPlaces LogFile (log_places self.old.blocks)) (D.past disk.old) → At (HasPlaces LogFile (log_places self.old.blocks)) (D.past disk.new) }
        ensures later { D.is_later disk.old disk.new }
        ensures calls { D.clock disk.new ≤ D.clock disk.old + 2 }
        ensures cause { HasDiskCause (D.faults disk.old) (D.faults disk.new) result }
        ensures memory { HasDiskMemoryCause (D.memory_refusals disk.old) (D.memory_refusals disk.new) result }
        ensures no_fault { OnOk result (D.faults disk.new ≡ D.faults disk.old) }
        ensures no_fault_at_want { IsErrOf result DiskError.NoMemory → D.faults disk.new ≡ D.faults disk.old }
        ensures no_refusal { OnOk result (D.memory_refusals disk.new ≡ D.memory_refusals disk.old) }
    {
        match self.move_from(disk, from) {
            Ok(()) => {
                self.go_on_from(from);
                Ok(())
            }
            Err(error) => Err(error),
        }
    }
}
