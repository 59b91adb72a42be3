// The run's later changes are made in the pages of a round.
ghost use Rattle.std.specs.Prelude.{◌≡◌, ◌+◌, ◌-◌, ◌<◌, ◌≤◌, ◌^◌, ℕ, List, true, length, OnOk, IfOk, IfErr, IsErrOf};
ghost use Rattle.cause_core.specs.Cause.{HasCauseOf};
ghost use Rattle.crash_image.specs.LogForm.{log_places};
ghost use Rattle.disk_model.specs.Event.{Event};
ghost use Rattle.disk_model.specs.Past.{At};
ghost use Rattle.disk_model.specs.declared.names.FileName.TheVariants.{Log};
ghost use Rattle.doublewrite.specs.declared.refuse.OpenRefuse.TheVariants.{DiskFault};
ghost use Rattle.page_pool.specs.Pages.{PoolState};
ghost use Rattle.places.specs.Places.{HasFile};
ghost use Rattle.store_files.specs.Header.{are_allowed};
ghost use Rattle.store_form.specs.Said.{header_said};
ghost use Rattle.store_image.specs.View.{block_bytes};
ghost use Rattle.recovery.specs.Applying.{AppliesLog, AppliesUpTo, IsAtApplied, IsRunRefusal, IsWant, SaysRun};
ghost use Rattle.recovery.specs.Loading.{HoldsRange};
ghost use Rattle.recovery.specs.Passed.{IsRecordKind};
ghost use Rattle.recovery.specs.Rounds.{has_later};

use crate::changing::apply_text;
use crate::layout::BLOCK;
use crate::notes::SpaceNotes;
use crate::rounds::Round;
use crate::run_text::{add_text, lsn_of, read_number};
use disk_model::Disk;
use doublewrite::OpenRefuse;
use key_ring::Ring;
use page_pool::Pool;
use redo_log::Run;
use std::alloc::Global;
use store_form::Header;

// Passes the block of a number: its text is appended to that of the blocks from the first of its
// mini-transaction on, and where it is the last of them, their changes are made. It tells the first
// block of what is behind.
fn apply_block(
    ring: &Ring,
    header: &Header,
    round: &Round,
    notes: &SpaceNotes,
    last: &[u64],
    first: u64,
    number: u64,
    block: &mut [u8],
    text: &mut Vec<u8>,
    pool: &mut Pool,
) -> Result<u64, OpenRefuse>
    requires allowed { are_allowed (header_said header.now) ≡ true }
    requires noted { round.now.end ≤ length notes.now }
    requires listed { round.now.end ≤ length last.now }
    requires holds { HoldsRange (has_later notes.now last.now) round.now.info.space round.now.from round.now.end pool.old }
    requires long { length block.old ≡ block_bytes }
    requires number { number + 1 < 2 ^ 64 }
    ensures passes { IfOk result (λ next. (from end : ℕ) (old : PoolState) (es : List Event) → IsAtApplied (header_said header.now) ring.now from end notes.now last.now round.now.info.space round.now.from round.now.end first number block.old text.old.items old pool.old es → AppliesUpTo (header_said header.now) ring.now from end notes.now last.now round.now.info.space round.now.from round.now.end next (number + 1) text.new.items old pool.new es) }
    ensures refused { IfErr result (λ why. (from end : ℕ) (old : PoolState) (es : List Event) → IsAtApplied (header_said header.now) ring.now from end notes.now last.now round.now.info.space round.now.from round.now.end first number block.old text.old.items old pool.old es → IsWant why) }
    ensures kind { IfErr result IsRecordKind }
    ensures holds { HoldsRange (has_later notes.now last.now) round.now.info.space round.now.from round.now.end pool.new }
    ensures long { length block.new ≡ block_bytes }
{
    if !add_text(ring, header, number, block, text)? {
        return Ok(first);
    }
    match apply_text(pool, round, notes, last, text, lsn_of(number)) {
        Ok(()) => {
            text.clear();
            Ok(number + 1)
        }
        Err(bad) => Err(OpenRefuse::BadRecord {
            number: first,
            at: bad.at,
        }),
    }
}

// Makes the changes of the run from one number up to another, block by block.
fn apply_blocks<D: Disk>(
    alloc: Global,
    disk: &mut D,
    ring: &Ring,
    header: &Header,
    from: u64,
    end: u64,
    round: &Round,
    notes: &SpaceNotes,
    last: &[u64],
    block: &mut [u8],
    pool: &mut Pool,
) -> Result<(), OpenRefuse>
    requires allowed { are_allowed (header_said header.now) ≡ true }
    requires noted { round.now.end ≤ length notes.now }
    requires listed { round.now.end ≤ length last.now }
    requires holds { HoldsRange (has_later notes.now last.now) round.now.info.space round.now.from round.now.end pool.old }
    requires long { length block.old ≡ block_bytes }
    requires most { end ≤ 2 ^ 51 }
    requires log { At (HasFile Log (log_places header.now.blocks)) (D.past disk.old) }
    requires says { At (SaysRun (header_said header.now) ring.now from end) (D.past disk.old) }
    ensures applies { OnOk result (At (AppliesLog (header_said header.now) ring.now from end notes.now last.now round.now.info.space round.now.from round.now.end pool.old pool.new) (D.past disk.old)) }
    ensures holds { HoldsRange (has_later notes.now last.now) round.now.info.space round.now.from round.now.end pool.new }
    ensures refused { IfErr result (IsRunRefusal (D.past disk.old)) }
    ensures same { D.past disk.new ≡ D.past disk.old }
    ensures later { D.is_later disk.old disk.new }
    ensures calls { D.clock disk.new ≤ D.clock disk.old + (end - from) }
    ensures cause { HasCauseOf DiskFault (D.faults disk.old) (D.faults disk.new) result }
    ensures memory { D.memory_refusals disk.old ≤ D.memory_refusals disk.new }
    ensures no_fault { (IsErrOf result DiskFault → ⊥) → D.faults disk.new ≡ D.faults disk.old }
    ensures no_refusal { OnOk result (D.memory_refusals disk.new ≡ D.memory_refusals disk.old) }
{
    let mut text = Vec::new(alloc);
    let mut first = from;
    for number in from..end {
        read_number(disk, header.blocks, number, block)?;
        first = apply_block(
            ring, header, round, notes, last, first, number, block, &mut text, pool,
        )?;
    }
    Ok(())
}

/// Reads the run of a log once, block by block from the one of number `from` on, under the keys of the
/// ring, and makes its changes in those pages of the round that have later ones, each where its LSN is
/// above that of the page's text. The pages are dirty in the pool.
///
/// # Errors
/// [`OpenRefuse::DiskFault`] only where the disk's count of faults rose, [`OpenRefuse::OutOfMemory`]
/// where there was no memory. Over a disk that doesn't tell its past a block may have become another
/// than it was: then [`OpenRefuse::Damaged`], [`OpenRefuse::MissingKey`] or [`OpenRefuse::BadRecord`].
pub fn apply_run<D: Disk>(
    alloc: Global,
    disk: &mut D,
    ring: &Ring,
    header: &Header,
    from: u64,
    run: &Run,
    round: &Round,
    notes: &SpaceNotes,
    last: &[u64],
    pool: &mut Pool,
) -> Result<(), OpenRefuse>
    requires allowed { are_allowed (header_said header.now) ≡ true }
    requires noted { round.now.end ≤ length notes.now }
    requires listed { round.now.end ≤ length last.now }
    requires holds { HoldsRange (has_later notes.now last.now) round.now.info.space round.now.from round.now.end pool.old }
    requires most { run.now.last < 2 ^ 51 }
    requires log { At (HasFile Log (log_places header.now.blocks)) (D.past disk.old) }
    requires says { At (SaysRun (header_said header.now) ring.now from (run.now.last + 1)) (D.past disk.old) }
    ensures applies { OnOk result (At (AppliesLog (header_said header.now) ring.now from (run.now.last + 1) notes.now last.now round.now.info.space round.now.from round.now.end pool.old pool.new) (D.past disk.old)) }
    ensures holds { HoldsRange (has_later notes.now last.now) round.now.info.space round.now.from round.now.end pool.new }
    ensures refused { IfErr result (IsRunRefusal (D.past disk.old)) }
    ensures same { D.past disk.new ≡ D.past disk.old }
    ensures later { D.is_later disk.old disk.new }
    ensures calls { D.clock disk.new ≤ D.clock disk.old + (run.now.last + 1 - from) }
    ensures cause { HasCauseOf DiskFault (D.faults disk.old) (D.faults disk.new) result }
    ensures memory { D.memory_refusals disk.old ≤ D.memory_refusals disk.new }
    ensures no_fault { (IsErrOf result DiskFault → ⊥) → D.faults disk.new ≡ D.faults disk.old }
    ensures no_refusal { OnOk result (D.memory_refusals disk.new ≡ D.memory_refusals disk.old) }
{
    let mut block = [0; BLOCK];
    let end = run.last + 1;
    apply_blocks(
        alloc, disk, ring, header, from, end, round, notes, last, &mut block, pool,
    )
}
