// A batch of the dirty pages of a space is taken.
ghost use Rattle.std.specs.Prelude.{◌≡◌, None, Some, IfErr, IfOk, OnOk};
ghost use Rattle.session_core.specs.Spaces.{space_with_id};
ghost use Rattle.session_core.specs.Taking.{IsTakeRefusal, taken_batch};
ghost use Rattle.space_head.specs.declared.space.SpaceInfo.{SpaceInfo};

use crate::{Engine, EngineFault};
use disk_model::Disk;
use page_batch::PageBatch;

impl<D: Disk + Drop> Engine<D> {
    /// Takes copies of dirty pages of a space of the store: the first n in ascending order of first block
    /// and page, fewer where fewer are dirty, with the active version and its local key, or version 0 where
    /// the space isn't ciphered. They stay dirty, and nothing is changed.
    ///
    /// # Errors
    /// [`EngineFault::Down`] or [`EngineFault::OutOfMemory`] exactly where the disk was stopped; else
    /// [`EngineFault::OutOfMemory`] where the machine has no memory for the batch.
    pub fn take(&mut self, space: u32, n: usize) -> Result<PageBatch, EngineFault>
        requires space { (info : SpaceInfo) × (space_with_id self.old.now.store.spaces space ≡ Some info) }
        ensures taken { IfOk result (λ batch. (info : SpaceInfo) × (space_with_id self.old.now.store.spaces space ≡ Some info) × (batch ≡ taken_batch self.old.now info n)) }
        ensures up { OnOk result (self.old.now.disk.stop ≡ None) }
        ensures refused { IfErr result (IsTakeRefusal self.old.now) }
        ensures same { self.new ≡ self.old }
    {
        self.core.take(space, n)
    }
}
