// The doublewrite file is read back. Reading adds no event.
ghost use Rattle.std.specs.Prelude.{◌≡◌, ◌+◌, ◌≤◌, ◌<◌, ◌++◌, List, ℕ, length, IfOk, OnOk, IsErrOf};
ghost use Rattle.std.specs.Int.{to_be_bytes, w32};
ghost use Rattle.bytes_core.specs.Crc.{crc32c};
ghost use Rattle.disk_model.specs.Past.{At, HasDiskCause};
ghost use Rattle.disk_model.specs.Past.{HasDiskMemoryCause};
ghost use Rattle.disk_model.specs.declared.names.DiskError.TheVariants.{NoMemory};
ghost use Rattle.disk_model.specs.declared.names.FileName.TheVariants.{Double};
ghost use Rattle.places.specs.Places.{HasFile, shown};
ghost use Rattle.page_places.specs.Texts.{has_magic, is_page_text, is_slot, slot_held, slots, slot_size};
ghost use Rattle.std.specs.Str.{bytes_eq};
ghost use Rattle.doublewrite.specs.Copies.{as_list, as_copied, copies_to};
ghost use Rattle.store_image.specs.View.{slot_count};

use crate::slot::{SLOT, SLOT_BYTES, SLOTS};
use crate::{Copied, Copies, PageText};
use byte_list::fields::{be32_at, be64_at};
use bytes_core::{Crc32c, ends_in_crc32c};
use disk_model::{Disk, DiskError, FileName};
use page_places::{
    PAGE_LSN_AT, PAGE_NUMBER_AT, PAGE_VERSION_AT, SLOT_HEAD_BYTES, SLOT_PAGE_AT, SLOT_SPACE_AT,
};
use std::alloc::{AllocError, Global};

#[tactic(auto, unfolding(page_places::specs::Texts::has_magic))]
fn has_magic(slot: &[u8]) -> bool
    requires { 8 ≤ length slot.now }
    ensures { result ≡ has_magic slot.now }
{
    let (magic, _rest) = slot.split_at(8);
    let wanted: &[u8] = b"DWSLOT01";
    magic == wanted
}

fn has_sum(head: &[u8], text: &[u8], sum: &[u8]) -> bool
    ensures { result ≡ bytes_eq sum.now (to_be_bytes w32 (crc32c (head.now ++ text.now))) }
{
    let mut wanted = Crc32c::new();
    wanted.update(head);
    wanted.update(text);
    let wanted = wanted.finish().to_be_bytes();
    let wanted: &[u8] = &wanted;
    sum == wanted
}

pub(crate) fn is_page_text(text: &[u8], number: u32) -> bool
    requires { 8 ≤ length text.now }
    ensures { result ≡ is_page_text number text.now }
{
    ends_in_crc32c(text) && be32_at(text, PAGE_NUMBER_AT) == number
}

pub(crate) fn is_slot(slot: &[u8]) -> bool
    requires { length slot.now ≡ slot_size }
    ensures { result ≡ is_slot slot.now }
{
    if !has_magic(slot) {
        return false;
    }
    let (head, rest) = slot.split_at(SLOT_HEAD_BYTES);
    let (sum, text) = rest.split_at(4);
    if !has_sum(head, text, sum) {
        return false;
    }
    is_page_text(text, be32_at(slot, SLOT_PAGE_AT))
}

fn read_copy(alloc: Global, index: usize, slot: &[u8]) -> Result<Option<Copied>, AllocError>
    requires { length slot.now ≡ slot_size }
    ensures { IfOk result (λ copy. copy ≡ as_copied index (slot_held slot.now)) }
{
    if !is_slot(slot) {
        return Ok(None);
    }
    let (_head, rest) = slot.split_at(SLOT_HEAD_BYTES);
    let (_sum, text) = rest.split_at(4);
    let page = be32_at(slot, SLOT_PAGE_AT);
    let lsn = be64_at(text, PAGE_LSN_AT);
    let version = be32_at(text, PAGE_VERSION_AT);
    let Some(text) = PageText::of(text.to_vec(alloc)?) else {
        return Ok(None);
    };
    Ok(Some(Copied {
        index,
        space: be32_at(slot, SLOT_SPACE_AT),
        page,
        lsn,
        version,
        text,
    }))
}

fn read_slot<D: Disk>(disk: &mut D, i: usize, slot: &mut [u8]) -> Result<(), DiskError>
    requires within { i < slot_count }
    requires size { length slot.old ≡ slot_size }
    requires places { At (HasFile Double slots) (D.past disk.old) }
    ensures bytes { OnOk result (At (λ es. slot.new ≡ shown Double slot_size i es) (D.past disk.old)) }
    ensures same { D.past disk.new ≡ D.past disk.old }
    ensures later { D.is_later disk.old disk.new }
    ensures calls { D.clock disk.new ≤ D.clock disk.old + 1 }
    ensures cause { HasDiskCause (D.faults disk.old) (D.faults disk.new) result }
    ensures memory { HasDiskMemoryCause (D.memory_refusals disk.old) (D.memory_refusals disk.new) result }
    ensures no_fault { OnOk result (D.faults disk.new ≡ D.faults disk.old) }
    ensures no_fault_at_want { IsErrOf result NoMemory → D.faults disk.new ≡ D.faults disk.old }
    ensures no_refusal { OnOk result (D.memory_refusals disk.new ≡ D.memory_refusals disk.old) }
{
    disk.read(FileName::Double, i as u64 * SLOT_BYTES, slot)
}

fn read_copies<D: Disk>(
    alloc: Global,
    disk: &mut D,
    slot: &mut [u8],
) -> Result<Vec<Copied>, DiskError>
    requires size { length slot.old ≡ slot_size }
    requires places { At (HasFile Double slots) (D.past disk.old) }
    ensures copies { IfOk result (λ copies. At (λ es. copies.items ≡ copies_to slot_count es) (D.past disk.old)) }
    ensures same { D.past disk.new ≡ D.past disk.old }
    ensures later { D.is_later disk.old disk.new }
    ensures calls { D.clock disk.new ≤ D.clock disk.old + slot_count }
    ensures cause { HasDiskCause (D.faults disk.old) (D.faults disk.new) result }
    ensures memory { D.memory_refusals disk.old ≤ D.memory_refusals disk.new }
    ensures no_fault { OnOk result (D.faults disk.new ≡ D.faults disk.old) }
    ensures no_fault_at_want { IsErrOf result NoMemory → D.faults disk.new ≡ D.faults disk.old }
    ensures no_refusal { OnOk result (D.memory_refusals disk.new ≡ D.memory_refusals disk.old) }
{
    let mut copies = Vec::new(alloc);
    for i in 0..SLOTS {
        read_slot(disk, i, slot)?;
        let Ok(copy) = read_copy(alloc, i, slot) else {
            return Err(DiskError::NoMemory);
        };
        let Ok(()) = keep(&mut copies, copy) else {
            return Err(DiskError::NoMemory);
        };
    }
    Ok(copies)
}

fn keep(copies: &mut Vec<Copied>, copy: Option<Copied>) -> Result<(), AllocError>
    ensures { OnOk result (copies.new.items ≡ copies.old.items ++ as_list copy) }
{
    if let Some(copied) = copy {
        let Ok(()) = copies.push(copied) else {
            return Err(AllocError);
        };
    }
    Ok(())
}

/// The valid slots of the doublewrite file, in order. Each slot is read once.
///
/// # Errors
/// [`DiskError::Failed`] only where the disk's count of faults rose, [`DiskError::NoMemory`] where
/// there was no memory, and then no call met a fault.
pub fn copies<D: Disk>(alloc: Global, disk: &mut D) -> Result<Copies, DiskError>
    requires places { At (HasFile Double slots) (D.past disk.old) }
    ensures copies { IfOk result (λ copies. At (λ es. copies ≡ copies_to slot_count es) (D.past disk.old)) }
    ensures same { D.past disk.new ≡ D.past disk.old }
    ensures later { D.is_later disk.old disk.new }
    ensures calls { D.clock disk.new ≤ D.clock disk.old + slot_count }
    ensures cause { HasDiskCause (D.faults disk.old) (D.faults disk.new) result }
    ensures memory { D.memory_refusals disk.old ≤ D.memory_refusals disk.new }
    ensures no_fault { OnOk result (D.faults disk.new ≡ D.faults disk.old) }
    ensures no_fault_at_want { IsErrOf result NoMemory → D.faults disk.new ≡ D.faults disk.old }
    ensures no_refusal { OnOk result (D.memory_refusals disk.new ≡ D.memory_refusals disk.old) }
{
    let mut slot = [0; SLOT];
    let items = read_copies(alloc, disk, &mut slot)?;
    Ok(Copies::of(items))
}
