// The texts of a batch are written: to the doublewrite file, and then to their homes.
ghost use Rattle.std.specs.Prelude.{◌≡◌, ◌≤◌, None, Some, IfErr, OnErr, OnOk, length};
ghost use Rattle.counted_disk.specs.Counting.{IsCounted, count_of};
ghost use Rattle.disk_model.specs.Past.{At};
ghost use Rattle.disk_model.specs.declared.names.FileName.TheVariants.{Double, Space};
ghost use Rattle.doublewrite.specs.Batch.{home_batch, home_events, slot_batch};
ghost use Rattle.doublewrite.specs.Layer.{ArePagesDistinct};
ghost use Rattle.page_places.specs.Texts.{page_bytes, slot_size};
ghost use Rattle.places.specs.Writes.{IsPart, grows};
ghost use Rattle.space_head.specs.declared.space.SpaceInfo.{SpaceInfo};
ghost use Rattle.store_image.specs.View.{slot_count};
ghost use Rattle.session_core.specs.Files.{HasStoreFiles, IsStopOf};
ghost use Rattle.session_core.specs.Spaces.{space_with_id};
ghost use Rattle.session_core.specs.Writing.{AreWithin, IsPutPart, put_past, stored_past};

use crate::EngineFault;
use crate::stopping::fault_of;
use crate::tablespaces::Tablespaces;
use counted_disk::Counted;
use disk_model::Disk;
use doublewrite::Texts;

// Writes the texts to the doublewrite file.
fn store_texts<D: Disk + Drop>(
    disk: &mut Counted<D>,
    store: &Tablespaces,
    batch: &Texts,
) -> Result<(), EngineFault>
    requires up { disk.old.stop ≡ None }
    requires most { length batch.now.pages ≤ slot_count }
    requires files { At (HasStoreFiles store.now.header.blocks store.now.spaces) (D.past disk.old.disk) }
    ensures exact { OnOk result (D.past disk.new.disk ≡ stored_past batch.now (D.past disk.old.disk)) }
    ensures part { OnErr result (IsPart Double slot_size (slot_batch batch.now) (length batch.now.pages) (D.past disk.old.disk) (D.past disk.new.disk)) }
    ensures files { OnOk result (At (HasStoreFiles store.now.header.blocks store.now.spaces) (D.past disk.new.disk)) }
    ensures stopped { IfErr result (IsStopOf disk.new) }
    ensures up { OnOk result (disk.new.stop ≡ None) }
    ensures later { D.is_later disk.old.disk disk.new.disk × IsCounted (count_of D.past D.faults D.memory_refusals disk.old) (count_of D.past D.faults D.memory_refusals disk.new) }
{
    batch.pages.are_texts();
    match doublewrite::store(disk, batch) {
        Ok(()) => Ok(()),
        Err(error) => Err(fault_of(disk, error)),
    }
}

// Writes the texts to their homes.
fn home_texts<D: Disk + Drop>(
    disk: &mut Counted<D>,
    store: &Tablespaces,
    batch: &Texts,
) -> Result<(), EngineFault>
    requires up { disk.old.stop ≡ None }
    requires distinct { ArePagesDistinct batch.now }
    requires within { (info : SpaceInfo) × (space_with_id store.now.spaces batch.now.space ≡ Some info) × AreWithin batch.now info.pages }
    requires files { At (HasStoreFiles store.now.header.blocks store.now.spaces) (D.past disk.old.disk) }
    ensures exact { OnOk result (D.past disk.new.disk ≡ grows (home_events batch.now) (D.past disk.old.disk)) }
    ensures part { OnErr result (IsPart (Space batch.now.space) page_bytes (home_batch batch.now) (length batch.now.pages) (D.past disk.old.disk) (D.past disk.new.disk)) }
    ensures files { OnOk result (At (HasStoreFiles store.now.header.blocks store.now.spaces) (D.past disk.new.disk)) }
    ensures stopped { IfErr result (IsStopOf disk.new) }
    ensures up { OnOk result (disk.new.stop ≡ None) }
    ensures later { D.is_later disk.old.disk disk.new.disk × IsCounted (count_of D.past D.faults D.memory_refusals disk.old) (count_of D.past D.faults D.memory_refusals disk.new) }
{
    batch.pages.are_texts();
    match doublewrite::home(disk, batch) {
        Ok(()) => Ok(()),
        Err(error) => Err(fault_of(disk, error)),
    }
}

/// Writes the texts of a batch to the doublewrite file, in order, and syncs it; then each to its home, in
/// order, and syncs the space. It takes no memory.
///
/// # Errors
/// [`EngineFault::DiskFault`] or [`EngineFault::OutOfMemory`] where the disk was stopped in the call. A
/// part of these writes was done then.
pub(crate) fn put_texts<D: Disk + Drop>(
    disk: &mut Counted<D>,
    store: &Tablespaces,
    batch: &Texts,
) -> Result<(), EngineFault>
    requires up { disk.old.stop ≡ None }
    requires most { length batch.now.pages ≤ slot_count }
    requires distinct { ArePagesDistinct batch.now }
    requires within { (info : SpaceInfo) × (space_with_id store.now.spaces batch.now.space ≡ Some info) × AreWithin batch.now info.pages }
    requires files { At (HasStoreFiles store.now.header.blocks store.now.spaces) (D.past disk.old.disk) }
    ensures exact { OnOk result (D.past disk.new.disk ≡ put_past batch.now (D.past disk.old.disk)) }
    ensures part { OnErr result (IsPutPart batch.now (D.past disk.old.disk) (D.past disk.new.disk)) }
    ensures files { OnOk result (At (HasStoreFiles store.now.header.blocks store.now.spaces) (D.past disk.new.disk)) }
    ensures stopped { IfErr result (IsStopOf disk.new) }
    ensures up { OnOk result (disk.new.stop ≡ None) }
    ensures later { D.is_later disk.old.disk disk.new.disk × IsCounted (count_of D.past D.faults D.memory_refusals disk.old) (count_of D.past D.faults D.memory_refusals disk.new) }
{
    store_texts(disk, store, batch)?;
    home_texts(disk, store, batch)
}
