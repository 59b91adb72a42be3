// The spaces of a store, one after another.
ghost use Rattle.std.specs.Prelude.{◌≡◌, ◌+◌, ◌<◌, ◌≤◌, ℕ, List, length, Some, OnOk, IfErr, IfSome, IfNone, IsErrOf};
ghost use Rattle.cause_core.specs.Cause.{HasCauseOf};
ghost use Rattle.crash_image.specs.LogForm.{log_places};
ghost use Rattle.crash_image.specs.Opened.{StoreOpened};
ghost use Rattle.disk_model.specs.Does.{Does};
ghost use Rattle.disk_model.specs.Event.{Event};
ghost use Rattle.disk_model.specs.Past.{At, Throughout};
ghost use Rattle.disk_model.specs.declared.names.FileName.TheVariants.{Double, Log, Space};
ghost use Rattle.doublewrite.specs.Restore.{HaveFiles, space_at};
ghost use Rattle.doublewrite.specs.declared.refuse.OpenRefuse.TheVariants.{DiskFault};
ghost use Rattle.page_places.specs.Texts.{pages, slots};
ghost use Rattle.places.specs.Batches.{From};
ghost use Rattle.places.specs.Places.{HasFile};
ghost use Rattle.store_form.specs.Said.{header_said};
ghost use Rattle.recovery.specs.Applying.{SaysRun};
ghost use Rattle.recovery.specs.Due.{IsByPage, IsOpenedWith, IsRoundDue};
ghost use Rattle.recovery.specs.Groups.{IsApplyEvent, IsRangeApplied, LeavesSince};
ghost use Rattle.recovery.specs.Looking.{FitsTogether};
ghost use Rattle.recovery.specs.Putting.{ImagesRecover, MayApplyGroups};
ghost use Rattle.recovery.specs.Spaces.{HasRefusedSpace, HasTexts, IsFoundOf, IsSealKeyOf, IsSpaceFault, IsSpacesEvent, IsStoreApplied, IsStoreDue, LacksSealKey, LeavesSpacesSince, later_in, seal_version};

use crate::loading::key_of;
use crate::looking::Analysis;
use crate::sealing::SealKey;
use crate::space_rounds::apply_space;
use aes_core::Algorithm;
use disk_model::Disk;
use doublewrite::OpenRefuse;
use key_ring::Ring;
use space_head::SpaceInfo;
use std::alloc::Global;

// The number of the first batch of an opening.
const FIRST_BATCH: u64 = 1;

// The version that the pages of a space are sealed under.
fn seal_version(active: u32, info: &SpaceInfo) -> u32
    ensures { result ≡ seal_version active info.now }
{
    if info.ciphered { active } else { 0 }
}

// What the pages of a space are sealed under, where the ring has its key.
fn seal_key_of(ring: &Ring, algorithm: Algorithm, active: u32, info: &SpaceInfo) -> Option<SealKey>
    ensures some { IfSome result (IsSealKeyOf ring.now algorithm active info.now) }
    ensures none { IfNone result (LacksSealKey ring.now algorithm active info.now) }
{
    // The ring has no version 0.
    let _count = ring.len();
    let version = seal_version(active, info);
    if version == 0 {
        return Some(SealKey { version, key: None });
    }
    match key_of(ring, algorithm, info, version) {
        Some(key) => Some(SealKey {
            version,
            key: Some(key),
        }),
        None => None,
    }
}

// The space at this place.
fn info_at(found: &Analysis, i: usize) -> SpaceInfo
    requires { i < length found.now.changes.spaces }
    ensures { result ≡ space_at found.now.changes.spaces i }
{
    *found.changes.spaces.get(i)
}

// Applies the run's later changes to the pages of the space at this place.
fn apply_listed<D: Disk>(
    alloc: Global,
    disk: &mut D,
    ring: &Ring,
    active: u32,
    found: &Analysis,
    i: usize,
    batch: u64,
) -> Result<u64, OpenRefuse>
    requires fits { FitsTogether active found.now }
    requires within { i < length found.now.changes.spaces }
    requires double { At (HasFile Double slots) (D.past disk.old) }
    requires files { At (HaveFiles found.now.changes.spaces) (D.past disk.old) }
    requires log { At (HasFile Log (log_places found.now.header.blocks)) (D.past disk.old) }
    requires says { At (SaysRun (header_said found.now.header) ring.now found.now.checkpoint.from (found.now.run.last + 1)) (D.past disk.old) }
    ensures applies { (o : StoreOpened) (number : ℕ) (s b : List Event) → D.past disk.old ≡ Some b → IsOpenedWith o (header_said found.now.header) ring.now found.now.checkpoint.from (found.now.run.last + 1) → IsFoundOf o active s found.now → IsRoundDue o number s (later_in found.now i) (space_at found.now.changes.spaces i).space 0 (space_at found.now.changes.spaces i).pages b → Does (MayApplyGroups o s) (IsApplyEvent (space_at found.now.changes.spaces i).space) (From (IsRangeApplied o s (later_in found.now i) (space_at found.now.changes.spaces i).space 0 (space_at found.now.changes.spaces i).pages) (D.past disk.old)) (D.past disk.old) (D.past disk.new) result }
    ensures texts { OnOk result (At (HasTexts ring.now active found.now i) (D.past disk.old)) }
    ensures beside { OnOk result (LeavesSince (space_at found.now.changes.spaces i).space 0 (space_at found.now.changes.spaces i).pages (D.past disk.old) (D.past disk.new)) }
    ensures double { OnOk result (At (HasFile Double slots) (D.past disk.new)) }
    ensures spaces { OnOk result ((z n : ℕ) → At (HasFile (Space z) (pages n)) (D.past disk.old) → At (HasFile (Space z) (pages n)) (D.past disk.new)) }
    ensures log { OnOk result ((n : ℕ) → At (HasFile Log (log_places n)) (D.past disk.old) → At (HasFile Log (log_places n)) (D.past disk.new)) }
    ensures refused { IfErr result (IsByPage (IsSpaceFault ring.now active found.now i) (D.past disk.old)) }
    ensures later { D.is_later disk.old disk.new }
    ensures cause { HasCauseOf DiskFault (D.faults disk.old) (D.faults disk.new) result }
    ensures memory { D.memory_refusals disk.old ≤ D.memory_refusals disk.new }
    ensures no_fault { (IsErrOf result DiskFault → ⊥) → D.faults disk.new ≡ D.faults disk.old }
    ensures no_refusal { OnOk result (D.memory_refusals disk.new ≡ D.memory_refusals disk.old) }
{
    let info = info_at(found, i);
    let notes = found.notes.get(i);
    let last = found.changes.last.get(i).as_slice();
    let Some(under) = seal_key_of(ring, found.header.algorithm, active, &info) else {
        return Err(OpenRefuse::MissingKey {
            id: info.key_id,
            version: active,
        });
    };
    let from = found.checkpoint.from;
    let count = info.pages;
    let header = &found.header;
    let run = &found.run;
    apply_space(
        alloc, disk, ring, header, from, run, &info, count, notes, last, &under, batch,
    )
}

/// Applies the run's later changes to the pages of all spaces of a store of which this was found, space by space
/// in order, as [`apply_space`] does. The pages of a ciphered space are sealed under the active version, and those
/// of a plain one in clear. Where a store is opened and its homes are restored, each lucky image of each moment
/// recovers to what was opened, and at Ok each page with later changes has its sealed text in its home, and nothing
/// is pending.
///
/// # Errors
/// For the first space that isn't applied: [`OpenRefuse::MissingKey`] where the ring lacks the key of the active
/// version, and else those of [`apply_space`] by the first of its pages whose home can't be taken apart, both told by
/// the homes as they were at first.
/// [`OpenRefuse::DiskFault`] only where the disk's count of faults rose, [`OpenRefuse::OutOfMemory`]
/// where there was no memory.
pub fn apply_spaces<D: Disk>(
    alloc: Global,
    disk: &mut D,
    ring: &Ring,
    active: u32,
    found: &Analysis,
) -> Result<(), OpenRefuse>
    requires fits { FitsTogether active found.now }
    requires double { At (HasFile Double slots) (D.past disk.old) }
    requires files { At (HaveFiles found.now.changes.spaces) (D.past disk.old) }
    requires log { At (HasFile Log (log_places found.now.header.blocks)) (D.past disk.old) }
    requires says { At (SaysRun (header_said found.now.header) ring.now found.now.checkpoint.from (found.now.run.last + 1)) (D.past disk.old) }
    // With number the last block of the opening's run, s the moment at which it began, and b this one.
    ensures applies { (o : StoreOpened) (number : ℕ) (s b : List Event) → D.past disk.old ≡ Some b → IsOpenedWith o (header_said found.now.header) ring.now found.now.checkpoint.from (found.now.run.last + 1) → IsFoundOf o active s found.now → IsStoreDue o number s b → Does (MayApplyGroups o s) (IsSpacesEvent found.now.changes.spaces) (IsStoreApplied o s) (D.past disk.old) (D.past disk.new) result }
    ensures recovers { (o : StoreOpened) (number : ℕ) (s b : List Event) → D.past disk.old ≡ Some b → IsOpenedWith o (header_said found.now.header) ring.now found.now.checkpoint.from (found.now.run.last + 1) → IsFoundOf o active s found.now → IsStoreDue o number s b → Throughout (ImagesRecover o number) (D.past disk.old) (D.past disk.new) }
    ensures texts { OnOk result ((i : ℕ) → i < length found.now.changes.spaces → At (HasTexts ring.now active found.now i) (D.past disk.old)) }
    ensures beside { OnOk result (LeavesSpacesSince found.now.changes.spaces (length found.now.changes.spaces) (D.past disk.old) (D.past disk.new)) }
    ensures double { OnOk result (At (HasFile Double slots) (D.past disk.new)) }
    ensures spaces { OnOk result ((z n : ℕ) → At (HasFile (Space z) (pages n)) (D.past disk.old) → At (HasFile (Space z) (pages n)) (D.past disk.new)) }
    ensures log { OnOk result ((n : ℕ) → At (HasFile Log (log_places n)) (D.past disk.old) → At (HasFile Log (log_places n)) (D.past disk.new)) }
    ensures refused { IfErr result (IsByPage (HasRefusedSpace ring.now active found.now) (D.past disk.old)) }
    ensures later { D.is_later disk.old disk.new }
    ensures cause { HasCauseOf DiskFault (D.faults disk.old) (D.faults disk.new) result }
    ensures memory { D.memory_refusals disk.old ≤ D.memory_refusals disk.new }
    ensures no_fault { (IsErrOf result DiskFault → ⊥) → D.faults disk.new ≡ D.faults disk.old }
    ensures no_refusal { OnOk result (D.memory_refusals disk.new ≡ D.memory_refusals disk.old) }
{
    let mut next = FIRST_BATCH;
    for i in 0..found.changes.spaces.len() {
        let number = apply_listed(alloc, disk, ring, active, found, i, next)?;
        next = number;
    }
    Ok(())
}
