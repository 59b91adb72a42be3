// The homes of a batch, one device call to a function.
ghost use Rattle.std.specs.Prelude.{◌≡◌, ◌+◌, ◌*◌, ◌<◌, ◌≤◌, ℕ, length, OnOk, OnErr, IsErrOf};
ghost use Rattle.disk_model.specs.Does.{Does};
ghost use Rattle.disk_model.specs.Event.{Sync, Write};
ghost use Rattle.disk_model.specs.Past.{Past, At, MayGrow, IsWrite, grow, HasDiskCause, HasDiskMemoryCause};
ghost use Rattle.disk_model.specs.declared.names.DiskError.TheVariants.{NoMemory};
ghost use Rattle.disk_model.specs.declared.names.FileName.TheVariants.{Space};
ghost use Rattle.places.specs.Batches.{From};
ghost use Rattle.places.specs.Writes.{writes_of, grows, IsPart};
ghost use Rattle.doublewrite.specs.Batch.{text_at, home_batch, home_events};
ghost use Rattle.doublewrite.specs.Images.{AreHomesHonest, HomesHold, HomesMay};
ghost use Rattle.doublewrite.specs.Layer.{ArePagesDistinct, FitsSpace, HomesSettled, HomesWriting, HomesWrote, IsHomeEvent, IsInside};
ghost use Rattle.doublewrite.specs.Text.{page_number_of};
ghost use Rattle.page_places.specs.Texts.{page_bytes};

use crate::Texts;
use crate::texts::PAGE_BYTES;
use disk_model::{Disk, DiskError, FileName};

fn write_home<D: Disk>(disk: &mut D, batch: &Texts, i: usize) -> Result<(), DiskError>
    requires more { i < length batch.now.pages }
    requires distinct { ArePagesDistinct batch.now }
    requires inside { At (λ es. (count : ℕ) × FitsSpace batch.now count es) (D.past disk.old) }
    ensures does { (first : Past) → At (From (HomesWrote batch.now i) first) (D.past disk.old) → Does (From (HomesWriting batch.now) first) (IsHomeEvent batch.now) (From (HomesWrote batch.now (i + 1)) first) (D.past disk.old) (D.past disk.new) result }
    ensures ok { OnOk result (D.past disk.new ≡ grow (Write (Space batch.now.space) (page_number_of (text_at batch.now i) * page_bytes) (text_at batch.now i) (text_at batch.now i)) (D.past disk.old)) }
    ensures inside { OnOk result (At (λ es. (count : ℕ) × FitsSpace batch.now count es) (D.past disk.new)) }
    ensures err { OnErr result (MayGrow (IsWrite (Space batch.now.space) (page_number_of (text_at batch.now i) * page_bytes) (text_at batch.now i)) (D.past disk.old) (D.past disk.new)) }
    ensures later { D.is_later disk.old disk.new }
    ensures calls { D.clock disk.new ≤ D.clock disk.old + 1 }
    ensures cause { HasDiskCause (D.faults disk.old) (D.faults disk.new) result }
    ensures memory { HasDiskMemoryCause (D.memory_refusals disk.old) (D.memory_refusals disk.new) result }
    ensures no_fault { OnOk result (D.faults disk.new ≡ D.faults disk.old) }
    ensures no_fault_at_want { IsErrOf result NoMemory → D.faults disk.new ≡ D.faults disk.old }
    ensures no_refusal { OnOk result (D.memory_refusals disk.new ≡ D.memory_refusals disk.old) }
{
    let text = batch.pages.get(i);
    let at = u64::from(text.number()) * PAGE_BYTES;
    disk.write(FileName::Space(batch.space), at, text.bytes())
}

fn write_homes<D: Disk>(disk: &mut D, batch: &Texts) -> Result<(), DiskError>
    requires distinct { ArePagesDistinct batch.now }
    requires inside { At (λ es. (count : ℕ) × FitsSpace batch.now count es) (D.past disk.old) }
    ensures does { Does (From (HomesWriting batch.now) (D.past disk.old)) (IsHomeEvent batch.now) (From (HomesWrote batch.now (length batch.now.pages)) (D.past disk.old)) (D.past disk.old) (D.past disk.new) result }
    ensures exact { OnOk result (D.past disk.new ≡ grows (writes_of (Space batch.now.space) page_bytes (home_batch batch.now) (length batch.now.pages)) (D.past disk.old)) }
    ensures part { OnErr result (IsPart (Space batch.now.space) page_bytes (home_batch batch.now) (length batch.now.pages) (D.past disk.old) (D.past disk.new)) }
    ensures later { D.is_later disk.old disk.new }
    ensures calls { D.clock disk.new ≤ D.clock disk.old + length batch.now.pages }
    ensures cause { HasDiskCause (D.faults disk.old) (D.faults disk.new) result }
    ensures memory { HasDiskMemoryCause (D.memory_refusals disk.old) (D.memory_refusals disk.new) result }
    ensures no_fault { OnOk result (D.faults disk.new ≡ D.faults disk.old) }
    ensures no_fault_at_want { IsErrOf result NoMemory → D.faults disk.new ≡ D.faults disk.old }
    ensures no_refusal { OnOk result (D.memory_refusals disk.new ≡ D.memory_refusals disk.old) }
{
    for i in 0..batch.pages.len() {
        write_home(disk, batch, i)?;
    }
    Ok(())
}

fn sync_homes<D: Disk>(disk: &mut D, batch: &Texts) -> Result<(), DiskError>
    ensures does { (first : Past) → At (From (HomesWrote batch.now (length batch.now.pages)) first) (D.past disk.old) → Does (From (HomesWriting batch.now) first) (IsHomeEvent batch.now) (From (HomesSettled batch.now) first) (D.past disk.old) (D.past disk.new) result }
    ensures ok { OnOk result (D.past disk.new ≡ grow (Sync (Space batch.now.space)) (D.past disk.old)) }
    ensures err { OnErr result (D.past disk.new ≡ D.past disk.old) }
    ensures later { D.is_later disk.old disk.new }
    ensures calls { D.clock disk.new ≤ D.clock disk.old + 1 }
    ensures cause { HasDiskCause (D.faults disk.old) (D.faults disk.new) result }
    ensures memory { HasDiskMemoryCause (D.memory_refusals disk.old) (D.memory_refusals disk.new) result }
    ensures no_fault { OnOk result (D.faults disk.new ≡ D.faults disk.old) }
    ensures no_fault_at_want { IsErrOf result NoMemory → D.faults disk.new ≡ D.faults disk.old }
    ensures no_refusal { OnOk result (D.memory_refusals disk.new ≡ D.memory_refusals disk.old) }
{
    disk.sync(FileName::Space(batch.space))
}

// Writes the homes, and syncs them.
fn bring_home<D: Disk>(disk: &mut D, batch: &Texts) -> Result<(), DiskError>
    requires distinct { ArePagesDistinct batch.now }
    requires inside { At (λ es. (count : ℕ) × FitsSpace batch.now count es) (D.past disk.old) }
    ensures does { Does (From (HomesWriting batch.now) (D.past disk.old)) (IsHomeEvent batch.now) (From (HomesSettled batch.now) (D.past disk.old)) (D.past disk.old) (D.past disk.new) result }
    ensures exact { OnOk result (D.past disk.new ≡ grows (home_events batch.now) (D.past disk.old)) }
    ensures part { OnErr result (IsPart (Space batch.now.space) page_bytes (home_batch batch.now) (length batch.now.pages) (D.past disk.old) (D.past disk.new)) }
    ensures later { D.is_later disk.old disk.new }
    ensures calls { D.clock disk.new ≤ D.clock disk.old + (length batch.now.pages + 1) }
    ensures cause { HasDiskCause (D.faults disk.old) (D.faults disk.new) result }
    ensures memory { HasDiskMemoryCause (D.memory_refusals disk.old) (D.memory_refusals disk.new) result }
    ensures no_fault { OnOk result (D.faults disk.new ≡ D.faults disk.old) }
    ensures no_fault_at_want { IsErrOf result NoMemory → D.faults disk.new ≡ D.faults disk.old }
    ensures no_refusal { OnOk result (D.memory_refusals disk.new ≡ D.memory_refusals disk.old) }
{
    write_homes(disk, batch)?;
    sync_homes(disk, batch)
}

/// Writes each text of a batch to its home, the page of its number in the space's file, in order, and
/// syncs the space. Of an empty batch the space is only synced. It makes no more than a call for
/// each text, and one for the sync.
///
/// # Errors
/// [`DiskError::Failed`] only where the disk's count of faults rose, [`DiskError::NoMemory`] only
/// where its count of refused memory rose, and then it met no fault. Some of the homes were then
/// written in order, and of the one behind them an attempt may be there: each home holds what it
/// held, its text, or is torn.
pub fn home<D: Disk>(disk: &mut D, batch: &Texts) -> Result<(), DiskError>
    requires distinct { ArePagesDistinct batch.now }
    requires inside { At (λ es. (count : ℕ) × FitsSpace batch.now count es) (D.past disk.old) }
    ensures does { Does (From (HomesWriting batch.now) (D.past disk.old)) (IsHomeEvent batch.now) (From (HomesSettled batch.now) (D.past disk.old)) (D.past disk.old) (D.past disk.new) result }
    ensures images { At (λ es. (count : ℕ) × IsInside batch.now count es) (D.past disk.old) → At (AreHomesHonest batch.now.space) (D.past disk.old) → Does (From (HomesMay batch.now) (D.past disk.old)) (IsHomeEvent batch.now) (From (HomesHold batch.now) (D.past disk.old)) (D.past disk.old) (D.past disk.new) result }
    ensures exact { OnOk result (D.past disk.new ≡ grows (home_events batch.now) (D.past disk.old)) }
    ensures part { OnErr result (IsPart (Space batch.now.space) page_bytes (home_batch batch.now) (length batch.now.pages) (D.past disk.old) (D.past disk.new)) }
    ensures later { D.is_later disk.old disk.new }
    ensures calls { D.clock disk.new ≤ D.clock disk.old + (length batch.now.pages + 1) }
    ensures cause { HasDiskCause (D.faults disk.old) (D.faults disk.new) result }
    ensures memory { HasDiskMemoryCause (D.memory_refusals disk.old) (D.memory_refusals disk.new) result }
    ensures no_fault { OnOk result (D.faults disk.new ≡ D.faults disk.old) }
    ensures no_fault_at_want { IsErrOf result NoMemory → D.faults disk.new ≡ D.faults disk.old }
    ensures no_refusal { OnOk result (D.memory_refusals disk.new ≡ D.memory_refusals disk.old) }
{
    batch.pages.are_texts();
    bring_home(disk, batch)
}
