// The files of a store are made and written: device calls.
ghost use Rattle.std.specs.Prelude.{◌≡◌, ◌≤◌, ◌+◌, ◌*◌, ◌∷◌, [], IsErrOf, OnErr, OnOk, length};
ghost use Rattle.disk_model.specs.Event.{Sync, Write};
ghost use Rattle.disk_model.specs.Image.{InFile};
ghost use Rattle.disk_model.specs.Past.{At, HasDiskCause, HasDiskMemoryCause, grow};
ghost use Rattle.disk_model.specs.declared.names.DiskError.TheVariants.{NoMemory};
ghost use Rattle.disk_model.specs.declared.names.FileName.TheVariants.{Log, Space};
ghost use Rattle.crash_image.specs.LogForm.{log_places};
ghost use Rattle.page_places.specs.Texts.{page_bytes};
ghost use Rattle.places.specs.Places.{HasPlaces};
ghost use Rattle.redo_log.specs.Fresh.{IsFresh};
ghost use Rattle.store_image.specs.View.{block_bytes};
ghost use Rattle.store_form.specs.Created.{AreAbsent, HasNoFile, HaveFirstPlaces};
ghost use Rattle.store_form.specs.Creation.{IsStopped, creation, files_begun, first_pages_written, first_text, front_written, header_written, past_after, spaces_begun};
ghost use Rattle.store_form.specs.Made.{AreMadeInfos, CanBeMade, DifferInId, IsMadeInfo};
ghost use Rattle.store_form.specs.Said.{header_said};
ghost use Rattle.store_files.specs.Header.{least_ring_blocks, most_ring_blocks, most_spaces};

use crate::Header;
use crate::first_page::fill_first_page;
use crate::header_block::fill_header;
use disk_model::{Disk, DiskError, FileName};
use redo_log::write_first_checkpoint;
use space_head::SpaceInfo;
use store_files::{BLOCK_BYTES, FRONT_BLOCKS};

// The bytes of a page, and of the doublewrite file.
const PAGE: usize = page_places::PAGE_BYTES;

const PAGE_BYTES: u64 = page_places::PAGE_BYTES as u64;

const DOUBLE_BYTES: u64 = (page_places::SLOTS * page_places::SLOT_BYTES) as u64;

// Makes the files of spaces.
fn begin_spaces<D: Disk>(disk: &mut D, spaces: &[SpaceInfo]) -> Result<(), DiskError>
    requires absent { At (AreAbsent spaces.now) (D.past disk.old) }
    requires differ { DifferInId spaces.now }
    ensures ok { OnOk result (D.past disk.new ≡ past_after (spaces_begun spaces.now) (D.past disk.old)) }
    ensures err { OnErr result (IsStopped (spaces_begun spaces.now) (D.past disk.old) (D.past disk.new)) }
    ensures later { D.is_later disk.old disk.new }
    ensures calls { D.clock disk.new ≤ D.clock disk.old + length spaces.now }
    ensures cause { HasDiskCause (D.faults disk.old) (D.faults disk.new) result }
    ensures memory { HasDiskMemoryCause (D.memory_refusals disk.old) (D.memory_refusals disk.new) result }
    ensures no_fault { OnOk result (D.faults disk.new ≡ D.faults disk.old) }
    ensures no_fault_at_want { IsErrOf result NoMemory → D.faults disk.new ≡ D.faults disk.old }
    ensures no_refusal { OnOk result (D.memory_refusals disk.new ≡ D.memory_refusals disk.old) }
{
    for i in 0..spaces.len() {
        let bytes = u64::from(spaces[i].pages) * PAGE_BYTES;
        disk.make(FileName::Space(spaces[i].space), bytes)?;
    }
    Ok(())
}

// Makes all files of a store.
fn begin_files<D: Disk>(
    disk: &mut D,
    header: &Header,
    spaces: &[SpaceInfo],
) -> Result<(), DiskError>
    requires most { header.now.blocks ≤ most_ring_blocks }
    requires absent { At (HasNoFile spaces.now) (D.past disk.old) }
    requires differ { DifferInId spaces.now }
    ensures ok { OnOk result (D.past disk.new ≡ past_after (files_begun (header_said header.now) spaces.now) (D.past disk.old)) }
    ensures err { OnErr result (IsStopped (files_begun (header_said header.now) spaces.now) (D.past disk.old) (D.past disk.new)) }
    ensures later { D.is_later disk.old disk.new }
    ensures calls { D.clock disk.new ≤ D.clock disk.old + 2 + length spaces.now }
    ensures cause { HasDiskCause (D.faults disk.old) (D.faults disk.new) result }
    ensures memory { HasDiskMemoryCause (D.memory_refusals disk.old) (D.memory_refusals disk.new) result }
    ensures no_fault { OnOk result (D.faults disk.new ≡ D.faults disk.old) }
    ensures no_fault_at_want { IsErrOf result NoMemory → D.faults disk.new ≡ D.faults disk.old }
    ensures no_refusal { OnOk result (D.memory_refusals disk.new ≡ D.memory_refusals disk.old) }
{
    disk.make(
        FileName::Log,
        (FRONT_BLOCKS as u64 + header.blocks) * BLOCK_BYTES as u64,
    )?;
    disk.make(FileName::Double, DOUBLE_BYTES)?;
    begin_spaces(disk, spaces)
}

// Writes page 0 of a space, and syncs it. The page is a place to make its text in.
fn write_first_page<D: Disk>(
    disk: &mut D,
    info: &SpaceInfo,
    page: &mut [u8],
) -> Result<(), DiskError>
    requires long { length page.old ≡ page_bytes }
    requires inside { At (InFile (Space info.now.space) 0 page_bytes) (D.past disk.old) }
    ensures ok { OnOk result (D.past disk.new ≡ past_after (Write (Space info.now.space) 0 (first_text info.now) (first_text info.now) ∷ Sync (Space info.now.space) ∷ []) (D.past disk.old)) }
    ensures err { OnErr result (IsStopped (Write (Space info.now.space) 0 (first_text info.now) (first_text info.now) ∷ Sync (Space info.now.space) ∷ []) (D.past disk.old) (D.past disk.new)) }
    ensures long { length page.new ≡ page_bytes }
    ensures later { D.is_later disk.old disk.new }
    ensures calls { D.clock disk.new ≤ D.clock disk.old + 2 }
    ensures cause { HasDiskCause (D.faults disk.old) (D.faults disk.new) result }
    ensures memory { HasDiskMemoryCause (D.memory_refusals disk.old) (D.memory_refusals disk.new) result }
    ensures no_fault { OnOk result (D.faults disk.new ≡ D.faults disk.old) }
    ensures no_fault_at_want { IsErrOf result NoMemory → D.faults disk.new ≡ D.faults disk.old }
    ensures no_refusal { OnOk result (D.memory_refusals disk.new ≡ D.memory_refusals disk.old) }
{
    fill_first_page(page, info);
    let file = FileName::Space(info.space);
    disk.write(file, 0, page)?;
    disk.sync(file)
}

// Writes page 0 of each space, and syncs it.
fn write_first_pages<D: Disk>(disk: &mut D, spaces: &[SpaceInfo]) -> Result<(), DiskError>
    requires places { At (HaveFirstPlaces spaces.now) (D.past disk.old) }
    requires differ { DifferInId spaces.now }
    ensures ok { OnOk result (D.past disk.new ≡ past_after (first_pages_written spaces.now) (D.past disk.old)) }
    ensures err { OnErr result (IsStopped (first_pages_written spaces.now) (D.past disk.old) (D.past disk.new)) }
    ensures later { D.is_later disk.old disk.new }
    ensures calls { D.clock disk.new ≤ D.clock disk.old + 2 * length spaces.now }
    ensures cause { HasDiskCause (D.faults disk.old) (D.faults disk.new) result }
    ensures memory { HasDiskMemoryCause (D.memory_refusals disk.old) (D.memory_refusals disk.new) result }
    ensures no_fault { OnOk result (D.faults disk.new ≡ D.faults disk.old) }
    ensures no_fault_at_want { IsErrOf result NoMemory → D.faults disk.new ≡ D.faults disk.old }
    ensures no_refusal { OnOk result (D.memory_refusals disk.new ≡ D.memory_refusals disk.old) }
{
    let mut page = [0; PAGE];
    for i in 0..spaces.len() {
        write_first_page(disk, &spaces[i], &mut page)?;
    }
    Ok(())
}

// Writes the header, and syncs the log.
fn write_header<D: Disk>(disk: &mut D, header: &Header) -> Result<(), DiskError>
    requires most { header.now.blocks ≤ most_ring_blocks }
    requires count { header.now.count ≤ most_spaces }
    requires inside { At (InFile Log 0 block_bytes) (D.past disk.old) }
    ensures ok { OnOk result (D.past disk.new ≡ past_after (header_written (header_said header.now)) (D.past disk.old)) }
    ensures err { OnErr result (IsStopped (header_written (header_said header.now)) (D.past disk.old) (D.past disk.new)) }
    ensures later { D.is_later disk.old disk.new }
    ensures calls { D.clock disk.new ≤ D.clock disk.old + 2 }
    ensures cause { HasDiskCause (D.faults disk.old) (D.faults disk.new) result }
    ensures memory { HasDiskMemoryCause (D.memory_refusals disk.old) (D.memory_refusals disk.new) result }
    ensures no_fault { OnOk result (D.faults disk.new ≡ D.faults disk.old) }
    ensures no_fault_at_want { IsErrOf result NoMemory → D.faults disk.new ≡ D.faults disk.old }
    ensures no_refusal { OnOk result (D.memory_refusals disk.new ≡ D.memory_refusals disk.old) }
{
    let mut block = [0; BLOCK_BYTES];
    fill_header(&mut block, header);
    disk.write(FileName::Log, 0, &block)?;
    disk.sync(FileName::Log)
}

/// A block in front of the log's ring that a creation writes.
#[derive(Clone, Copy)]
pub(crate) enum FrontBlock {
    /// The first checkpoint.
    Checkpoint,
    /// The header.
    Header,
}

// Writes a block in front of the log's ring, and syncs the log.
fn write_front_block<D: Disk>(
    disk: &mut D,
    header: &Header,
    block: FrontBlock,
) -> Result<(), DiskError>
    requires least { 32 ≤ header.now.blocks }
    requires most { header.now.blocks ≤ 4096 }
    requires count { header.now.count ≤ 16 }
    requires made { block ≡ FrontBlock.Checkpoint → At (IsFresh header.now.blocks) (D.past disk.old) }
    requires inside { block ≡ FrontBlock.Header → At (InFile Log 0 block_bytes) (D.past disk.old) }
    ensures ok { OnOk result (D.past disk.new ≡ past_after (front_written (header_said header.now) block) (D.past disk.old)) }
    ensures err { OnErr result (IsStopped (front_written (header_said header.now) block) (D.past disk.old) (D.past disk.new)) }
    ensures places { block ≡ FrontBlock.Checkpoint → At (HasPlaces Log (log_places header.now.blocks)) (D.past disk.new) }
    ensures later { D.is_later disk.old disk.new }
    ensures calls { D.clock disk.new ≤ D.clock disk.old + 2 }
    ensures cause { HasDiskCause (D.faults disk.old) (D.faults disk.new) result }
    ensures memory { HasDiskMemoryCause (D.memory_refusals disk.old) (D.memory_refusals disk.new) result }
    ensures no_fault { OnOk result (D.faults disk.new ≡ D.faults disk.old) }
    ensures no_fault_at_want { IsErrOf result NoMemory → D.faults disk.new ≡ D.faults disk.old }
    ensures no_refusal { OnOk result (D.memory_refusals disk.new ≡ D.memory_refusals disk.old) }
{
    match block {
        FrontBlock::Checkpoint => write_first_checkpoint(disk, header.blocks),
        FrontBlock::Header => write_header(disk, header),
    }
}

// Makes the files of a store, and writes pages 0, the first checkpoint, and the header last.
pub(crate) fn write_store<D: Disk>(
    disk: &mut D,
    header: &Header,
    spaces: &[SpaceInfo],
) -> Result<(), DiskError>
    requires least { least_ring_blocks ≤ header.now.blocks }
    requires most { header.now.blocks ≤ most_ring_blocks }
    requires count { header.now.count ≤ most_spaces }
    requires can { CanBeMade (header_said header.now) spaces.now }
    requires absent { At (HasNoFile spaces.now) (D.past disk.old) }
    ensures ok { OnOk result (D.past disk.new ≡ past_after (creation (header_said header.now) spaces.now) (D.past disk.old)) }
    ensures err { OnErr result (IsStopped (creation (header_said header.now) spaces.now) (D.past disk.old) (D.past disk.new)) }
    ensures later { D.is_later disk.old disk.new }
    ensures calls { D.clock disk.new ≤ D.clock disk.old + 6 + 3 * length spaces.now }
    ensures cause { HasDiskCause (D.faults disk.old) (D.faults disk.new) result }
    ensures memory { HasDiskMemoryCause (D.memory_refusals disk.old) (D.memory_refusals disk.new) result }
    ensures no_fault { OnOk result (D.faults disk.new ≡ D.faults disk.old) }
    ensures no_fault_at_want { IsErrOf result NoMemory → D.faults disk.new ≡ D.faults disk.old }
    ensures no_refusal { OnOk result (D.memory_refusals disk.new ≡ D.memory_refusals disk.old) }
{
    begin_files(disk, header, spaces)?;
    write_first_pages(disk, spaces)?;
    write_front_block(disk, header, FrontBlock::Checkpoint)?;
    write_front_block(disk, header, FrontBlock::Header)
}
