// Homes that hold no page text are written from their copies.
ghost use Rattle.std.specs.Prelude.{◌≡◌, ◌+◌, ◌*◌, ◌<◌, ◌≤◌, ◌++◌, ℕ, List, Ok, Some, None, false, length, is_some, OnOk, OnErr, IfOk, IsErrOf};
ghost use Rattle.std.specs.Option.{option_map};
ghost use Rattle.disk_model.specs.Does.{Does};
ghost use Rattle.disk_model.specs.Event.{Sync};
ghost use Rattle.disk_model.specs.Past.{Past, At, grow, HasDiskCause, HasDiskMemoryCause};
ghost use Rattle.disk_model.specs.declared.names.DiskError.TheVariants.{NoMemory};
ghost use Rattle.disk_model.specs.declared.names.FileName.TheVariants.{Space};
ghost use Rattle.places.specs.Batches.{From};
ghost use Rattle.places.specs.Places.{shown};
ghost use Rattle.doublewrite.specs.Events.{page_write, page_writes, is_any, space_events, AreFirstEvents};
ghost use Rattle.page_places.specs.Texts.{page_bytes};
ghost use Rattle.doublewrite.specs.Restore.{HasPages, HasSpaceFile, IsSpaceEvent, PagesFilled, PagesFilling, PagesRestored, PagesStay, newer, newest, wanted};

use crate::reading::is_page_text;
use crate::texts::PAGE_BYTES;
use crate::{Copied, Copies};
use disk_model::{Disk, DiskError, FileName};
use space_head::SpaceInfo;

/// The newest copy of a page: of those of greatest LSN the one of least index.
pub fn newest_copy<'a>(copies: &'a Copies, space: u32, page: u32) -> Option<&'a Copied>
    ensures { option_map (λ c. c.now) result ≡ newest copies.now space page }
{
    let mut best: Option<&Copied> = None;
    for i in 0..copies.len() {
        let copied = copies.get(i);
        if copied.space == space && copied.page == page {
            best = newer(copied, best);
        }
    }
    best
}

fn newer<'a>(copied: &'a Copied, best: Option<&'a Copied>) -> Option<&'a Copied>
    ensures { option_map (λ c. c.now) result ≡ newer copied.now (option_map (λ c. c.now) best.entry) }
{
    match best {
        Some(other) if copied.lsn <= other.lsn => best,
        _ => Some(copied),
    }
}

fn read_home<D: Disk>(
    disk: &mut D,
    info: &SpaceInfo,
    number: u32,
    page: &mut [u8],
) -> Result<(), DiskError>
    requires within { number < info.now.pages }
    requires size { length page.old ≡ page_bytes }
    requires places { At (HasSpaceFile info.now) (D.past disk.old) }
    ensures bytes { OnOk result (At (λ es. page.new ≡ shown (Space info.now.space) page_bytes number es) (D.past disk.old)) }
    ensures same { D.past disk.new ≡ D.past disk.old }
    ensures later { D.is_later disk.old disk.new }
    ensures calls { D.clock disk.new ≤ D.clock disk.old + 1 }
    ensures cause { HasDiskCause (D.faults disk.old) (D.faults disk.new) result }
    ensures memory { HasDiskMemoryCause (D.memory_refusals disk.old) (D.memory_refusals disk.new) result }
    ensures no_fault { OnOk result (D.faults disk.new ≡ D.faults disk.old) }
    ensures no_fault_at_want { IsErrOf result NoMemory → D.faults disk.new ≡ D.faults disk.old }
    ensures no_refusal { OnOk result (D.memory_refusals disk.new ≡ D.memory_refusals disk.old) }
{
    disk.read(
        FileName::Space(info.space),
        u64::from(number) * PAGE_BYTES,
        page,
    )
}

// Writes a page home from its newest copy, where the home holds no page text. Answers whether it did.
fn restore_page<D: Disk>(
    disk: &mut D,
    info: &SpaceInfo,
    number: u32,
    copies: &Copies,
    page: &mut [u8],
) -> Result<bool, DiskError>
    requires within { number < info.now.pages }
    requires size { length page.old ≡ page_bytes }
    requires places { At (HasSpaceFile info.now) (D.past disk.old) }
    ensures does { (first : Past) → At (From (PagesFilled copies.now info.now number) first) (D.past disk.old) → Does (From (PagesFilling copies.now info.now) first) (IsSpaceEvent info.now) (From (PagesFilled copies.now info.now (number + 1)) first) (D.past disk.old) (D.past disk.new) result }
    ensures same { result ≡ Ok false → D.past disk.new ≡ D.past disk.old }
    ensures size { length page.new ≡ page_bytes }
    ensures stays { (first : Past) → At (From (PagesStay info.now number) first) (D.past disk.old) → OnOk result (At (From (PagesStay info.now (number + 1)) first) (D.past disk.new)) }
    ensures exact { OnOk result (At (λ s. D.past disk.new ≡ Some (page_write info.now.space number (wanted copies.now s info.now.space number) ++ s)) (D.past disk.old)) }
    ensures part { OnErr result (At (λ s. AreFirstEvents (page_write info.now.space number (wanted copies.now s info.now.space number)) s (D.past disk.new)) (D.past disk.old)) }
    ensures told { IfOk result (λ w. At (λ s. w ≡ is_some (wanted copies.now s info.now.space number)) (D.past disk.old)) }
    ensures untold { D.past disk.old ≡ None → D.past disk.new ≡ None }
    ensures later { D.is_later disk.old disk.new }
    ensures calls { D.clock disk.new ≤ D.clock disk.old + 2 }
    ensures told_calls { At (λ s. D.clock disk.new ≤ D.clock disk.old + (1 + length (page_write info.now.space number (wanted copies.now s info.now.space number)))) (D.past disk.old) }
    ensures cause { HasDiskCause (D.faults disk.old) (D.faults disk.new) result }
    ensures memory { HasDiskMemoryCause (D.memory_refusals disk.old) (D.memory_refusals disk.new) result }
    ensures no_fault { OnOk result (D.faults disk.new ≡ D.faults disk.old) }
    ensures no_fault_at_want { IsErrOf result NoMemory → D.faults disk.new ≡ D.faults disk.old }
    ensures no_refusal { OnOk result (D.memory_refusals disk.new ≡ D.memory_refusals disk.old) }
{
    read_home(disk, info, number, page)?;
    if is_page_text(page, number) {
        return Ok(false);
    }
    let Some(copied) = newest_copy(copies, info.space, number) else {
        return Ok(false);
    };
    let at = u64::from(number) * PAGE_BYTES;
    disk.write(FileName::Space(info.space), at, copied.text.bytes())?;
    Ok(true)
}

// Restores each page of a space. Answers whether one was written.
fn restore_pages<D: Disk>(
    disk: &mut D,
    info: &SpaceInfo,
    copies: &Copies,
    page: &mut [u8],
) -> Result<bool, DiskError>
    requires size { length page.old ≡ page_bytes }
    requires places { At (HasSpaceFile info.now) (D.past disk.old) }
    ensures does { At (HasPages info.now) (D.past disk.old) → Does (From (PagesFilling copies.now info.now) (D.past disk.old)) (IsSpaceEvent info.now) (From (PagesFilled copies.now info.now info.now.pages) (D.past disk.old)) (D.past disk.old) (D.past disk.new) result }
    ensures same { result ≡ Ok false → D.past disk.new ≡ D.past disk.old }
    ensures size { length page.new ≡ page_bytes }
    ensures exact { OnOk result (At (λ s. D.past disk.new ≡ Some (page_writes copies.now s info.now.space info.now.pages ++ s)) (D.past disk.old)) }
    ensures part { OnErr result (At (λ s. AreFirstEvents (page_writes copies.now s info.now.space info.now.pages) s (D.past disk.new)) (D.past disk.old)) }
    ensures told { IfOk result (λ w. At (λ s. w ≡ is_any (page_writes copies.now s info.now.space info.now.pages)) (D.past disk.old)) }
    ensures untold { D.past disk.old ≡ None → D.past disk.new ≡ None }
    ensures later { D.is_later disk.old disk.new }
    ensures calls { D.clock disk.new ≤ D.clock disk.old + info.now.pages * 2 }
    ensures told_calls { At (λ s. D.clock disk.new ≤ D.clock disk.old + (info.now.pages + length (page_writes copies.now s info.now.space info.now.pages))) (D.past disk.old) }
    ensures cause { HasDiskCause (D.faults disk.old) (D.faults disk.new) result }
    ensures memory { HasDiskMemoryCause (D.memory_refusals disk.old) (D.memory_refusals disk.new) result }
    ensures no_fault { OnOk result (D.faults disk.new ≡ D.faults disk.old) }
    ensures no_fault_at_want { IsErrOf result NoMemory → D.faults disk.new ≡ D.faults disk.old }
    ensures no_refusal { OnOk result (D.memory_refusals disk.new ≡ D.memory_refusals disk.old) }
{
    let mut is_written = false;
    for number in 0..info.pages {
        if restore_page(disk, info, number, copies, page)? {
            is_written = true;
        }
    }
    Ok(is_written)
}

fn sync_space<D: Disk>(disk: &mut D, info: &SpaceInfo, copies: &Copies) -> Result<(), DiskError>
    ensures does { (first : Past) → At (From (PagesFilled copies.now info.now info.now.pages) first) (D.past disk.old) → Does (From (PagesFilling copies.now info.now) first) (IsSpaceEvent info.now) (From (PagesRestored copies.now info.now) first) (D.past disk.old) (D.past disk.new) result }
    ensures ok { OnOk result (D.past disk.new ≡ grow (Sync (Space info.now.space)) (D.past disk.old)) }
    ensures err { OnErr result (D.past disk.new ≡ D.past disk.old) }
    ensures later { D.is_later disk.old disk.new }
    ensures calls { D.clock disk.new ≤ D.clock disk.old + 1 }
    ensures cause { HasDiskCause (D.faults disk.old) (D.faults disk.new) result }
    ensures memory { HasDiskMemoryCause (D.memory_refusals disk.old) (D.memory_refusals disk.new) result }
    ensures no_fault { OnOk result (D.faults disk.new ≡ D.faults disk.old) }
    ensures no_fault_at_want { IsErrOf result NoMemory → D.faults disk.new ≡ D.faults disk.old }
    ensures no_refusal { OnOk result (D.memory_refusals disk.new ≡ D.memory_refusals disk.old) }
{
    let _ = copies;
    disk.sync(FileName::Space(info.space))
}

// Restores a space, and syncs it where a page was written.
pub(crate) fn restore_space<D: Disk>(
    disk: &mut D,
    info: &SpaceInfo,
    copies: &Copies,
    page: &mut [u8],
) -> Result<(), DiskError>
    requires size { length page.old ≡ page_bytes }
    requires places { At (HasSpaceFile info.now) (D.past disk.old) }
    ensures does { At (HasPages info.now) (D.past disk.old) → Does (From (PagesFilling copies.now info.now) (D.past disk.old)) (IsSpaceEvent info.now) (From (PagesRestored copies.now info.now) (D.past disk.old)) (D.past disk.old) (D.past disk.new) result }
    ensures size { length page.new ≡ page_bytes }
    ensures exact { OnOk result (At (λ s. D.past disk.new ≡ Some (space_events copies.now s info.now ++ s)) (D.past disk.old)) }
    ensures part { OnErr result (At (λ s. AreFirstEvents (space_events copies.now s info.now) s (D.past disk.new)) (D.past disk.old)) }
    ensures untold { D.past disk.old ≡ None → D.past disk.new ≡ None }
    ensures later { D.is_later disk.old disk.new }
    ensures calls { D.clock disk.new ≤ D.clock disk.old + (info.now.pages * 2 + 1) }
    ensures told_calls { At (λ s. D.clock disk.new ≤ D.clock disk.old + (info.now.pages + length (space_events copies.now s info.now))) (D.past disk.old) }
    ensures cause { HasDiskCause (D.faults disk.old) (D.faults disk.new) result }
    ensures memory { HasDiskMemoryCause (D.memory_refusals disk.old) (D.memory_refusals disk.new) result }
    ensures no_fault { OnOk result (D.faults disk.new ≡ D.faults disk.old) }
    ensures no_fault_at_want { IsErrOf result NoMemory → D.faults disk.new ≡ D.faults disk.old }
    ensures no_refusal { OnOk result (D.memory_refusals disk.new ≡ D.memory_refusals disk.old) }
{
    if !restore_pages(disk, info, copies, page)? {
        return Ok(());
    }
    sync_space(disk, info, copies)
}
