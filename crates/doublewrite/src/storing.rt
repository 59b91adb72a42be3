// The slots of a batch, one device call to a function.
ghost use Rattle.std.specs.Prelude.{◌≡◌, ◌+◌, ◌*◌, ◌<◌, ◌≤◌, length, OnOk, OnErr, IsErrOf};
ghost use Rattle.disk_model.specs.Does.{Does};
ghost use Rattle.disk_model.specs.Event.{Sync, Write};
ghost use Rattle.disk_model.specs.Past.{Past, At, MayGrow, IsWrite, grow, HasDiskCause, HasDiskMemoryCause};
ghost use Rattle.disk_model.specs.declared.names.DiskError.TheVariants.{NoMemory};
ghost use Rattle.disk_model.specs.declared.names.FileName.TheVariants.{Double};
ghost use Rattle.places.specs.Batches.{From};
ghost use Rattle.places.specs.Places.{HasFile, HasPlaces};
ghost use Rattle.places.specs.Writes.{writes_of, grows, IsPart};
ghost use Rattle.page_places.specs.Texts.{slots, slot_size};
ghost use Rattle.doublewrite.specs.Batch.{slot_batch, slot_events};
ghost use Rattle.doublewrite.specs.Images.{AreSlotsHonest, SlotsHold, SlotsMay};
ghost use Rattle.doublewrite.specs.Layer.{IsSlotEvent, SlotsSettled, SlotsWriting, SlotsWrote};
ghost use Rattle.store_image.specs.View.{slot_count};

use crate::Texts;
use crate::slot::{SLOT, SLOT_BYTES, fill_slot};
use disk_model::{Disk, DiskError, FileName};

// Writes one slot. Its bytes are made in a buffer.
fn write_slot<D: Disk>(
    disk: &mut D,
    batch: &Texts,
    i: usize,
    slot: &mut [u8],
) -> Result<(), DiskError>
    requires more { i < length batch.now.pages }
    requires most { length batch.now.pages ≤ slot_count }
    requires size { length slot.old ≡ slot_size }
    requires places { At (HasFile Double slots) (D.past disk.old) }
    ensures does { (first : Past) → At (From (SlotsWrote batch.now i) first) (D.past disk.old) → Does (From (SlotsWriting batch.now) first) (IsSlotEvent batch.now) (From (SlotsWrote batch.now (i + 1)) first) (D.past disk.old) (D.past disk.new) result }
    ensures size { length slot.new ≡ slot_size }
    ensures places { OnOk result (At (HasFile Double slots) (D.past disk.new)) }
    ensures ok { OnOk result (D.past disk.new ≡ grow (Write Double (i * slot_size) ((slot_batch batch.now).bytes i) ((slot_batch batch.now).bytes i)) (D.past disk.old)) }
    ensures err { OnErr result (MayGrow (IsWrite Double (i * slot_size) ((slot_batch batch.now).bytes i)) (D.past disk.old) (D.past disk.new)) }
    ensures later { D.is_later disk.old disk.new }
    ensures calls { D.clock disk.new ≤ D.clock disk.old + 1 }
    ensures cause { HasDiskCause (D.faults disk.old) (D.faults disk.new) result }
    ensures memory { HasDiskMemoryCause (D.memory_refusals disk.old) (D.memory_refusals disk.new) result }
    ensures no_fault { OnOk result (D.faults disk.new ≡ D.faults disk.old) }
    ensures no_fault_at_want { IsErrOf result NoMemory → D.faults disk.new ≡ D.faults disk.old }
    ensures no_refusal { OnOk result (D.memory_refusals disk.new ≡ D.memory_refusals disk.old) }
{
    let text = batch.pages.get(i).bytes();
    fill_slot(slot, batch.space, batch.batch, text);
    disk.write(FileName::Double, i as u64 * SLOT_BYTES, slot)
}

fn write_slots<D: Disk>(disk: &mut D, batch: &Texts, slot: &mut [u8]) -> Result<(), DiskError>
    requires most { length batch.now.pages ≤ slot_count }
    requires size { length slot.old ≡ slot_size }
    requires places { At (HasFile Double slots) (D.past disk.old) }
    ensures does { At (HasPlaces Double slots) (D.past disk.old) → Does (From (SlotsWriting batch.now) (D.past disk.old)) (IsSlotEvent batch.now) (From (SlotsWrote batch.now (length batch.now.pages)) (D.past disk.old)) (D.past disk.old) (D.past disk.new) result }
    ensures exact { OnOk result (D.past disk.new ≡ grows (writes_of Double slot_size (slot_batch batch.now) (length batch.now.pages)) (D.past disk.old)) }
    ensures part { OnErr result (IsPart Double slot_size (slot_batch batch.now) (length batch.now.pages) (D.past disk.old) (D.past disk.new)) }
    ensures later { D.is_later disk.old disk.new }
    ensures calls { D.clock disk.new ≤ D.clock disk.old + length batch.now.pages }
    ensures cause { HasDiskCause (D.faults disk.old) (D.faults disk.new) result }
    ensures memory { HasDiskMemoryCause (D.memory_refusals disk.old) (D.memory_refusals disk.new) result }
    ensures no_fault { OnOk result (D.faults disk.new ≡ D.faults disk.old) }
    ensures no_fault_at_want { IsErrOf result NoMemory → D.faults disk.new ≡ D.faults disk.old }
    ensures no_refusal { OnOk result (D.memory_refusals disk.new ≡ D.memory_refusals disk.old) }
{
    for i in 0..batch.pages.len() {
        write_slot(disk, batch, i, slot)?;
    }
    Ok(())
}

fn sync_slots<D: Disk>(disk: &mut D, batch: &Texts) -> Result<(), DiskError>
    ensures does { (first : Past) → At (From (SlotsWrote batch.now (length batch.now.pages)) first) (D.past disk.old) → Does (From (SlotsWriting batch.now) first) (IsSlotEvent batch.now) (From (SlotsSettled batch.now) first) (D.past disk.old) (D.past disk.new) result }
    ensures ok { OnOk result (D.past disk.new ≡ grow (Sync Double) (D.past disk.old)) }
    ensures err { OnErr result (D.past disk.new ≡ D.past disk.old) }
    ensures later { D.is_later disk.old disk.new }
    ensures calls { D.clock disk.new ≤ D.clock disk.old + 1 }
    ensures cause { HasDiskCause (D.faults disk.old) (D.faults disk.new) result }
    ensures memory { HasDiskMemoryCause (D.memory_refusals disk.old) (D.memory_refusals disk.new) result }
    ensures no_fault { OnOk result (D.faults disk.new ≡ D.faults disk.old) }
    ensures no_fault_at_want { IsErrOf result NoMemory → D.faults disk.new ≡ D.faults disk.old }
    ensures no_refusal { OnOk result (D.memory_refusals disk.new ≡ D.memory_refusals disk.old) }
{
    let _ = batch;
    disk.sync(FileName::Double)
}

// Writes the slots, and syncs them.
fn store_slots<D: Disk>(disk: &mut D, batch: &Texts) -> Result<(), DiskError>
    requires most { length batch.now.pages ≤ slot_count }
    requires places { At (HasFile Double slots) (D.past disk.old) }
    ensures does { At (HasPlaces Double slots) (D.past disk.old) → Does (From (SlotsWriting batch.now) (D.past disk.old)) (IsSlotEvent batch.now) (From (SlotsSettled batch.now) (D.past disk.old)) (D.past disk.old) (D.past disk.new) result }
    ensures exact { OnOk result (D.past disk.new ≡ grows (slot_events batch.now) (D.past disk.old)) }
    ensures part { OnErr result (IsPart Double slot_size (slot_batch batch.now) (length batch.now.pages) (D.past disk.old) (D.past disk.new)) }
    ensures later { D.is_later disk.old disk.new }
    ensures calls { D.clock disk.new ≤ D.clock disk.old + (length batch.now.pages + 1) }
    ensures cause { HasDiskCause (D.faults disk.old) (D.faults disk.new) result }
    ensures memory { HasDiskMemoryCause (D.memory_refusals disk.old) (D.memory_refusals disk.new) result }
    ensures no_fault { OnOk result (D.faults disk.new ≡ D.faults disk.old) }
    ensures no_fault_at_want { IsErrOf result NoMemory → D.faults disk.new ≡ D.faults disk.old }
    ensures no_refusal { OnOk result (D.memory_refusals disk.new ≡ D.memory_refusals disk.old) }
{
    let mut slot = [0; SLOT];
    write_slots(disk, batch, &mut slot)?;
    sync_slots(disk, batch)
}

/// Writes text i of a batch to slot i, in order, and syncs the doublewrite file. An empty batch is
/// only synced. It makes no more than a call for each text, and one for the sync.
///
/// # Errors
/// [`DiskError::Failed`] only where the disk's count of faults rose, [`DiskError::NoMemory`] only
/// where its count of refused memory rose, and then it met no fault. Some of the slots were then
/// written in order, and of the one behind them an attempt may be there: each slot holds what it
/// held, its text, or is torn.
pub fn store<D: Disk>(disk: &mut D, batch: &Texts) -> Result<(), DiskError>
    requires most { length batch.now.pages ≤ slot_count }
    requires places { At (HasFile Double slots) (D.past disk.old) }
    ensures does { At (HasPlaces Double slots) (D.past disk.old) → Does (From (SlotsWriting batch.now) (D.past disk.old)) (IsSlotEvent batch.now) (From (SlotsSettled batch.now) (D.past disk.old)) (D.past disk.old) (D.past disk.new) result }
    ensures images { At (HasPlaces Double slots) (D.past disk.old) → At AreSlotsHonest (D.past disk.old) → Does (From (SlotsMay batch.now) (D.past disk.old)) (IsSlotEvent batch.now) (From (SlotsHold batch.now) (D.past disk.old)) (D.past disk.old) (D.past disk.new) result }
    ensures exact { OnOk result (D.past disk.new ≡ grows (slot_events batch.now) (D.past disk.old)) }
    ensures part { OnErr result (IsPart Double slot_size (slot_batch batch.now) (length batch.now.pages) (D.past disk.old) (D.past disk.new)) }
    ensures later { D.is_later disk.old disk.new }
    ensures calls { D.clock disk.new ≤ D.clock disk.old + (length batch.now.pages + 1) }
    ensures cause { HasDiskCause (D.faults disk.old) (D.faults disk.new) result }
    ensures memory { HasDiskMemoryCause (D.memory_refusals disk.old) (D.memory_refusals disk.new) result }
    ensures no_fault { OnOk result (D.faults disk.new ≡ D.faults disk.old) }
    ensures no_fault_at_want { IsErrOf result NoMemory → D.faults disk.new ≡ D.faults disk.old }
    ensures no_refusal { OnOk result (D.memory_refusals disk.new ≡ D.memory_refusals disk.old) }
{
    batch.pages.are_texts();
    let _space = batch.space;
    store_slots(disk, batch)
}
