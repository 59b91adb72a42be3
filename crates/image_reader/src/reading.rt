// What the files of a store recover to.
ghost use Rattle.std.specs.Prelude.{◌≢◌, ◌≤◌, ◌*◌, ℕ, List, length, IfOk, IfErr};
ghost use Rattle.store_model.specs.declared.contents.SpaceContents.{SpaceContents};
ghost use Rattle.crash_image.specs.Recovers.{HasHeader, Recovers};
ghost use Rattle.image_reader.specs.Files.{image_of};
ghost use Rattle.image_reader.specs.Refusals.{IsHeaderFault, IsRecovery, IsRefusalOf};
ghost use Rattle.image_reader.specs.declared.refusal.Refusal.TheVariants.{OutOfMemory as NoMemory};
ghost use Rattle.store_image.specs.View.{block_bytes};
ghost use Rattle.store_image.specs.Checkpoint.{front_blocks};

use crate::checks::{check_homes, check_lengths, other_pages};
use crate::files::StoreFiles;
use crate::recovering::contents_of;
use crate::refusal::Refusal;
use image_log::{LogText, StoreHeader, late_block, place, read_header, read_log};
use key_ring::Ring;
use std::alloc::Global;
use store_files::{BLOCK_BYTES, FRONT_BLOCKS};
use store_model::Contents;

/// What a store's files recover to.
#[derive(Drop)]
pub struct Recovered {
    /// What the header says.
    pub header: StoreHeader,
    /// The run and its mini-transactions.
    pub log: LogText,
    /// The spaces with their pages, in order of id.
    pub contents: Contents,
    /// The number of the run's last block, or that before the run where it is empty.
    pub last: u64,
}

fn header_of(alloc: Global, files: &StoreFiles) -> Result<StoreHeader, Refusal>
    ensures ok { IfOk result (λ header. HasHeader (image_of files.now) header) }
    ensures long { IfOk result (λ header. front_blocks * block_bytes ≤ length files.now.log) }
    ensures fault { IfErr result (IsHeaderFault (image_of files.now)) }
{
    let log = files.log();
    if log.len() < FRONT_BLOCKS * BLOCK_BYTES {
        return Err(Refusal::NoHeader);
    }
    let Some(header) = read_header(alloc, place(log, BLOCK_BYTES, 0))? else {
        return Err(Refusal::NoHeader);
    };
    Ok(header)
}

/// What the files of a store recover to under these keys.
///
/// # Errors
/// A [`Refusal`], before which in its order the conditions hold; `OutOfMemory` where the machine has no
/// memory.
pub fn recover(alloc: Global, files: &StoreFiles, keys: &Ring) -> Result<Recovered, Refusal>
    // The header, the log's text, the contents and the last block are those of Recovers.
    ensures ok { IfOk result (λ r. IsRecovery (image_of files.now) keys.now r.header r.log r.contents r.last) }
    ensures recovers { IfOk result (λ r. Recovers (image_of files.now) keys.now r.contents r.last) }
    // The first condition that fails, by space and page where it is one of pages.
    ensures fault { IfErr result (IsRefusalOf (image_of files.now) keys.now) }
    // Files that recover to contents are never refused.
    ensures never { IfErr result (λ refusal. refusal ≢ NoMemory → (c : List SpaceContents) (last : ℕ) → Recovers (image_of files.now) keys.now c last → ⊥) }
{
    let header = header_of(alloc, files)?;
    check_lengths(files, &header)?;
    let log = read_log(alloc, &header, keys, files.log())?;
    if let Some(first) = other_pages(&header, &log) {
        return Err(Refusal::OtherPages { first });
    }
    check_homes(files, &header)?;
    let contents = contents_of(alloc, &header, keys, &log, files)?;
    let first = log.end() + u64::from(header.blocks());
    if let Some(late) = late_block(files.log(), header.blocks(), first) {
        return Err(Refusal::LateBlock {
            place: late.place,
            number: late.number,
        });
    }
    let last = log.end() - 1;
    Ok(Recovered {
        header,
        log,
        contents,
        last,
    })
}
