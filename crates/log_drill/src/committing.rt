// One mini-transaction is appended and written out.
ghost use Rattle.std.specs.Prelude.{◌≡◌, ℕ, ◌<◌, ◌≤◌, ◌++◌, ◌∷◌, [], List, length, OnOk};
ghost use Rattle.disk_model.specs.Past.{At};
ghost use Rattle.disk_model.specs.declared.names.FileName.TheVariants.{Log as LogFile};
ghost use Rattle.places.specs.Places.{HasFile};
ghost use Rattle.redo_text.specs.Block.{block_count};
ghost use Rattle.redo_text.specs.Text.{text_of, AreAllowed};
ghost use Rattle.redo_text.specs.declared.change.Change.{Change};
ghost use Rattle.ring_log.specs.Ring.{RingState, RingReady, IsRingState, IsRingJournal};
ghost use Rattle.store_image.specs.View.{Logged, most_mtr_blocks};
ghost use Rattle.redo_log.specs.Append.{logged_entry};
ghost use Rattle.redo_log.specs.Blocks.{Keys, IsStoreKey, redo_form};
ghost use Rattle.redo_log.specs.Log.{FitsRing};
ghost use Rattle.log_drill.specs.Kept.{HasJournal};
ghost use Rattle.crash_image.specs.LogForm.{log_places};

use crate::session::{DrillHalt, halt_of};
use disk_model::Disk;
use redo_log::Log;
use redo_text::{Mtr, RedoKey};
use std::alloc::Global;

/// Appends a mini-transaction under a key and writes the log out: the journal of the ring has it as
/// its last one then, and all of it is durable.
///
/// # Errors
/// As the log and the disk give them.
pub fn commit<D: Disk>(
    alloc: Global,
    disk: &mut D,
    log: &mut Log,
    mtr: &Mtr,
    key: &RedoKey,
) -> Result<(), DrillHalt>
    requires some { 0 < length mtr.now }
    requires many { length mtr.now ≤ 65536 }
    requires allowed { AreAllowed mtr.now }
    requires few { block_count (text_of mtr.now) ≤ most_mtr_blocks }
    requires version { 1 ≤ key.now.version }
    requires file { At (HasFile LogFile (log_places log.old.blocks)) (D.past disk.old) }
    ensures journal { OnOk result ((keys : Keys) (r : RingState) (start : ℕ) (journal : List (Logged (List Change))) → IsStoreKey keys key.now → FitsRing r log.old → IsRingState log.old.blocks (redo_form keys) r → r.written ≡ r.settled → At (RingReady log.old.blocks (redo_form keys) r) (D.past disk.old)
        → IsRingJournal log.old.blocks (redo_form keys) r start journal log.old.next → HasJournal keys start (journal ++ logged_entry log.old mtr.now ∷ []) log.new (D.past disk.new)) }
{
    match log.append(alloc, mtr, key) {
        Ok(_) => {}
        Err(fault) => return Err(DrillHalt::Refused(fault)),
    }
    match log.write_out(disk) {
        Ok(()) => Ok(()),
        Err(error) => Err(halt_of(error)),
    }
}
