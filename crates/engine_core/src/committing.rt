// Mini-transactions become entries of the journal.
ghost use Rattle.std.specs.Prelude.{◌≡◌, ◌+◌, ◌<◌, ◌≤◌, None, Some, IfErr, IfOk, OnOk, length};
ghost use Rattle.counted_disk.specs.Counting.{IsCounted, count_of};
ghost use Rattle.session_core.specs.Committing.{AreOfPages, IsCommitRefusal, first_bad_range, first_missing_page};
ghost use Rattle.session_core.specs.Entering.{IsEntered, receipt_of};
ghost use Rattle.session_core.specs.Files.{calls_of};
ghost use Rattle.session_core.specs.Holding.{AreAtHand};

use crate::{Author, Engine, EngineFault, Receipt};
use disk_model::Disk;
use redo_text::Mtr;

impl<D: Disk + Drop> Engine<D> {
    /// Makes the changes of a mini-transaction, as the next entry of the journal, and answers how many
    /// entries there are with it, and its LSN. Its blocks are pending: they are durable behind the next
    /// [`Engine::sync`]. Its pages that are neither held nor unused are read from their homes. It has 1 to
    /// 64 changes, each a Put or a Kind, none of which sets the type 8 or 9.
    ///
    /// # Errors
    /// The first of these, in this order, and nothing but the clean pages is changed:
    /// [`EngineFault::Down`] or [`EngineFault::OutOfMemory`] exactly where the disk was stopped;
    /// [`EngineFault::NoSuchPage`] with the first page that the store hasn't, or that is page 0;
    /// [`EngineFault::BadRange`] with the first range that is empty or doesn't lie in bytes 38 to 16376;
    /// [`EngineFault::TooLong`] exactly where it has more than 16 blocks; [`EngineFault::Spent`] exactly
    /// where the number behind its last block is past the last one that the log has;
    /// [`EngineFault::PoolFull`] exactly where more than 256 pages would be dirty;
    /// [`EngineFault::LogFull`] exactly where it has more blocks than are free; those of [`Engine::read`]
    /// where a page is read; [`EngineFault::OutOfMemory`] where the machine has no memory for its pages,
    /// its blocks or its entry.
    pub fn commit(&mut self, by: Author, mtr: Mtr) -> Result<Receipt, EngineFault>
        requires some { 0 < length mtr }
        requires few { length mtr ≤ 64 }
        requires forms { AreOfPages mtr }
        ensures entered { OnOk result (IsEntered D.past (Some by) mtr self.old.now self.new.now) }
        ensures receipt { IfOk result (λ r. r ≡ receipt_of self.old.now mtr) }
        ensures pages { OnOk result (first_missing_page self.old.now.store.spaces mtr ≡ None) }
        ensures ranges { OnOk result (first_bad_range mtr ≡ None) }
        ensures was_up { OnOk result (self.old.now.disk.stop ≡ None) }
        ensures refused { IfErr result (IsCommitRefusal D.past mtr self.old.now self.new.now) }
        ensures calls { calls_of D.clock self.new.now.disk ≤ calls_of D.clock self.old.now.disk + length mtr }
        ensures still { AreAtHand self.old.now.store mtr self.old.now.pool → self.new.now.disk ≡ self.old.now.disk }
        ensures up { OnOk result (self.new.now.disk.stop ≡ None) }
        ensures later { D.is_later self.old.now.disk.disk self.new.now.disk.disk × IsCounted (count_of D.past D.faults D.memory_refusals self.old.now.disk) (count_of D.past D.faults D.memory_refusals self.new.now.disk) }
        ensures first { self.new.first ≡ self.old.first }
    {
        let _before = self.core.spaces();
        let receipt = self.core.commit(by, mtr);
        let _behind = self.core.spaces();
        receipt
    }
}
