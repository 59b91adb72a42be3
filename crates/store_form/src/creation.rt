// A store is created.
ghost use Rattle.std.specs.Prelude.{◌≡◌, ◌≤◌, ◌+◌, ◌*◌, List, None, OnOk, IfOk, IfErr, IsErrOf, length};
ghost use Rattle.cause_core.specs.Cause.{HasCauseOf};
ghost use Rattle.crash_image.specs.Rest.{HasNonePending, IsAtRest};
ghost use Rattle.disk_model.specs.Past.{At, Throughout};
ghost use Rattle.key_ring.specs.Ring.{RingEntry};
ghost use Rattle.places.specs.Batches.{From};
ghost use Rattle.store_model.specs.Fold.{empty};
ghost use Rattle.store_form.specs.CreateAnswer.{IsCreateRefusal, IsLeftBy, IsStoreMade, answer_alone, disk_left};
ghost use Rattle.store_form.specs.Created.{HasNoFile, LeaveNoneOrEmpty, RecordsCreation, WritesFirstPages};
ghost use Rattle.store_form.specs.Creation.{creation, past_after};
ghost use Rattle.store_form.specs.Plan.{HasNeededKeys, IsCreatable, IsDrawnTo, after_salts, files_asked, first_file_there, header_made, in_id_order, spaces_made};
ghost use Rattle.store_form.specs.declared.create_fault.CreateFault.TheVariants.{DiskFault, OutOfMemory};

use crate::store_made::make_store;
use crate::{AtRest, CreateFault, StorePlan};
use disk_model::Disk;
use key_ring::Ring;
use rand_core::Rng;
use std::alloc::Global;

/// A store that isn't created: why, and the disk.
#[derive(Drop)]
pub struct CreateRefusal<D> {
    /// The disk, as it was where a file was there or a key is missing.
    pub disk: D,
    /// Why.
    pub why: CreateFault,
}

/// Creates a store on a disk: all files, page 0 of each space, the first checkpoint, and the header
/// last, each synced before the next. The salts are drawn, 16 bytes for the log and then for each
/// space in order of id. The plan must be within the limits of a store, with key ids from 1 on and
/// ids of spaces that differ.
///
/// # Errors
/// They hand back the disk. [`CreateFault::Exists`] exactly where a file of the plan is there, of
/// several the first in the order log, doublewrite file, spaces by id; [`CreateFault::MissingKey`]
/// exactly where none is and the ring lacks the active version of id 1 or of a space's key id, with
/// the least such id; the disk is then as it was. [`CreateFault::DiskFault`] and
/// [`CreateFault::OutOfMemory`] at the call that met them: the disk then has no valid header, or a
/// store without a used page.
pub fn create<D: Disk + Drop, R: Rng>(
    alloc: Global,
    disk: D,
    ring: &Ring,
    plan: &StorePlan,
    rng: &mut R,
) -> Result<AtRest<D>, CreateRefusal<D>>
    requires { IsCreatable plan.now }
    ensures made { IfOk result (λ rest. IsStoreMade plan.now (R.stream rng.old) rest) }
    ensures none { OnOk result (At (λ es. first_file_there (in_id_order plan.now.spaces) es ≡ None) (D.past disk)) }
    ensures keys { OnOk result (HasNeededKeys ring.now plan.now.active plan.now.spaces) }
    ensures refused { IfErr result (λ refusal. IsCreateRefusal ring.now plan.now (D.past disk) (D.past refusal.disk) refusal.why) }
    // The very events. At a refusal the disk is as it was, or, where no file was there and no key missing, a front of them was
    // done, and maybe an attempt at the write behind it.
    ensures exact { IfOk result (λ rest. D.past rest.disk ≡ past_after (creation (header_made plan.now (R.stream rng.old)) (spaces_made plan.now (R.stream rng.old))) (D.past disk)) }
    ensures part { IfErr result (λ refusal. IsLeftBy ring.now plan.now (R.stream rng.old) (D.past disk) (D.past refusal.disk)) }
    // Each image of each moment has no valid header, or it recovers to the spaces with no page used.
    ensures images { At (HasNoFile (spaces_made plan.now (R.stream rng.old))) (D.past disk) → Throughout (LeaveNoneOrEmpty (spaces_made plan.now (R.stream rng.old))) (D.past disk) (D.past (disk_left result)) }
    // No mark is told, and of page texts and ring blocks only the one text of page 0 of each space is written, at LSN 8192.
    ensures written { Throughout (From (WritesFirstPages (spaces_made plan.now (R.stream rng.old))) (D.past disk)) (D.past disk) (D.past (disk_left result)) }
    // So on a disk without a record of page texts and ring blocks the record is always one of a new store.
    ensures recorded { Throughout (From (RecordsCreation (header_made plan.now (R.stream rng.old)) (spaces_made plan.now (R.stream rng.old))) (D.past disk)) (D.past disk) (D.past (disk_left result)) }
    // Where nothing was pending, the store is at rest with them.
    ensures rest { IfOk result (λ rest. At (λ es. HasNonePending es → (keys : List RingEntry) → At (λ now. IsAtRest now keys (empty (spaces_made plan.now (R.stream rng.old))) 2) (D.past rest.disk)) (D.past disk)) }
    // The generator is drawn from for the salts alone, one for the log and one for each space.
    ensures salts { OnOk result (R.stream rng.new ≡ after_salts (1 + length plan.now.spaces) (R.stream rng.old)) }
    ensures left { IsDrawnTo (1 + length plan.now.spaces) (R.stream rng.old) (R.stream rng.new) }
    // Where a file is there or a key is missing, no file is asked for behind the first one that is there, and nothing else.
    ensures asked { At (λ es. (first_file_there (in_id_order plan.now.spaces) es ≡ None → HasNeededKeys ring.now plan.now.active plan.now.spaces → ⊥) → D.clock (disk_left result) ≤ D.clock disk + files_asked (in_id_order plan.now.spaces) es) (D.past disk) }
    ensures later { D.is_later disk (disk_left result) }
    ensures calls { D.clock (disk_left result) ≤ D.clock disk + 8 + 4 * length plan.now.spaces }
    ensures cause { HasCauseOf DiskFault (D.faults disk) (D.faults (disk_left result)) (answer_alone result) }
    ensures memory { D.memory_refusals disk ≤ D.memory_refusals (disk_left result) }
    ensures no_fault { (IsErrOf (answer_alone result) DiskFault → ⊥) → D.faults (disk_left result) ≡ D.faults disk }
    ensures no_refusal { (IsErrOf (answer_alone result) OutOfMemory → ⊥) → (IsErrOf (answer_alone result) DiskFault → ⊥) → D.memory_refusals (disk_left result) ≡ D.memory_refusals disk }
{
    let mut disk = disk;
    match make_store(alloc, &mut disk, ring, plan, rng) {
        Ok(made) => Ok(AtRest::new(disk, made.header, made.spaces, made.homes, 2, 1)),
        Err(why) => Err(CreateRefusal { disk, why }),
    }
}
