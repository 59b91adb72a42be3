// A batch of the dirty pages of a space is taken.
ghost use Rattle.std.specs.Prelude.{◌≡◌, ◌≢◌, ◌↔◌, IfErr, IfOk, IsSome, map, take};
ghost use Rattle.session_core.specs.Dirty.{AreTyped};
ghost use Rattle.session_core.specs.Taking.{copied_of, dirty_of, sealing_version};

use crate::dirt::copy_dirty;
use crate::{EngineFault, SessionCore};
use disk_model::Disk;
use page_batch::PageBatch;
use page_pool::Pool;
use page_text::PageKey;
use space_head::SpaceInfo;
use std::alloc::Global;

// Copies of the dirty pages of a space, in their order, as many as are asked for.
fn fill_batch(
    alloc: Global,
    pool: &mut Pool,
    space: u32,
    version: u32,
    key: Option<PageKey>,
    n: usize,
) -> Result<PageBatch, EngineFault>
    requires keyed { IsSome key ↔ (version ≢ 0) }
    requires typed { AreTyped pool.old }
    ensures taken { IfOk result (λ batch. batch ≡ record { space = space; version = version; key = key; pages = map (copied_of pool.old) (take n (dirty_of space pool.old.dirty.entries)); room = n }) }
    ensures refused { IfErr result (λ e. e ≡ EngineFault.OutOfMemory) }
    ensures pool { pool.new ≡ pool.old }
{
    let Ok(mut batch) = PageBatch::new(alloc, space, version, key, n) else {
        return Err(EngineFault::OutOfMemory);
    };
    match copy_dirty(pool, &mut batch, n) {
        Ok(()) => Ok(batch),
        Err(_) => Err(EngineFault::OutOfMemory),
    }
}

// The version that new texts of a space are sealed under.
fn sealing_version(info: &SpaceInfo, active: u32) -> u32
    ensures { result ≡ sealing_version info.now active }
{
    if info.ciphered { active } else { 0 }
}

impl<D: Disk + Drop> SessionCore<D> {
    ghost use Rattle.std.specs.Prelude.{◌≡◌, None, Some, IfErr, IfOk, OnOk};
    ghost use Rattle.session_core.specs.Spaces.{space_with_id};
    ghost use Rattle.session_core.specs.Taking.{IsTakeRefusal, taken_batch};
    ghost use Rattle.space_head.specs.declared.space.SpaceInfo.{SpaceInfo};

    /// Takes copies of dirty pages of a space of the store: the first n in ascending order of first block
    /// and page, fewer where fewer are dirty, with the active version and its local key, or version 0 where
    /// the space isn't ciphered. They stay dirty, and nothing is changed.
    ///
    /// # Errors
    /// [`EngineFault::Down`] or [`EngineFault::OutOfMemory`] exactly where the disk was stopped; else
    /// [`EngineFault::OutOfMemory`] where the machine has no memory for the batch.
    pub fn take(&mut self, space: u32, n: usize) -> Result<PageBatch, EngineFault>
        requires space { (info : SpaceInfo) × (space_with_id self.old.store.spaces space ≡ Some info) }
        ensures taken { IfOk result (λ batch. (info : SpaceInfo) × (space_with_id self.old.store.spaces space ≡ Some info) × (batch ≡ taken_batch self.old info n)) }
        ensures up { OnOk result (self.old.disk.stop ≡ None) }
        ensures refused { IfErr result (IsTakeRefusal self.old) }
        ensures same { self.new ≡ self.old }
    {
        self.check()?;
        let Some(info) = self.store.info(space) else {
            unreachable!();
        };
        let version = sealing_version(&info, self.active);
        let key = self.keys.seal_key(self.store.algorithm(), &info, version);
        fill_batch(self.alloc, &mut self.pool, info.space, version, key, n)
    }
}
