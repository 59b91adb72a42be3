// What a store is made as, before a disk has it: checks, and salts.
ghost use Rattle.std.specs.Prelude.{◌≡◌, ◌≤◌, ◌+◌, ◌*◌, None, OnOk, OnErr, IfOk, IfErr, IsErrOf, length};
ghost use Rattle.cause_core.specs.Cause.{HasCauseOf};
ghost use Rattle.disk_model.specs.Past.{At};
ghost use Rattle.store_form.specs.CreateAnswer.{IsBegun, IsCreateRefusal, IsFileRefusal, IsKeyRefusal, IsLeftBy};
ghost use Rattle.store_form.specs.Creation.{creation, past_after};
ghost use Rattle.store_form.specs.Made.{CanBeMade};
ghost use Rattle.store_form.specs.Plan.{HasNeededKeys, IsCreatable, IsDrawnTo, after_salts, files_asked, first_file_there, header_made, homes_made, in_id_order, spaces_made};
ghost use Rattle.store_form.specs.Said.{header_said};
ghost use Rattle.store_form.specs.declared.create_fault.CreateFault.TheVariants.{DiskFault, OutOfMemory};
ghost use Rattle.store_files.specs.Header.{most_spaces};

use crate::checks::{first_made, missing_key};
use crate::drawing::{draw_salt, draw_spaces, header_of, homes_of, known_bytes};
use crate::making::write_store;
use crate::plan_order::in_id_order;
use crate::{CreateFault, Header, Homes, SpacePlan, Spaces, StorePlan};
use disk_model::{Disk, DiskError};
use key_ring::Ring;
use rand_core::Rng;
use std::alloc::{AllocError, Global};

/// A store that is made of a plan.
#[derive(Drop)]
pub(crate) struct StoreMade {
    pub(crate) header: Header,
    pub(crate) spaces: Spaces,
    pub(crate) homes: Homes,
}

// No file of a store with these spaces, which are in order of id, may be there.
fn check_files<D: Disk>(disk: &mut D, plans: &[SpacePlan]) -> Result<(), CreateFault>
    ensures none { OnOk result (At (λ es. first_file_there plans.now es ≡ None) (D.past disk.old)) }
    ensures refused { IfErr result (IsFileRefusal plans.now (D.past disk.old)) }
    ensures same { D.past disk.new ≡ D.past disk.old }
    ensures later { D.is_later disk.old disk.new }
    ensures calls { D.clock disk.new ≤ D.clock disk.old + 2 + length plans.now }
    ensures asked { At (λ es. D.clock disk.new ≤ D.clock disk.old + files_asked plans.now es) (D.past disk.old) }
    ensures cause { HasCauseOf DiskFault (D.faults disk.old) (D.faults disk.new) result }
    ensures memory { D.memory_refusals disk.old ≤ D.memory_refusals disk.new }
    ensures no_fault { (IsErrOf result DiskFault → ⊥) → D.faults disk.new ≡ D.faults disk.old }
    ensures no_refusal { (IsErrOf result OutOfMemory → ⊥) → (IsErrOf result DiskFault → ⊥) → D.memory_refusals disk.new ≡ D.memory_refusals disk.old }
{
    match first_made(disk, plans)? {
        None => Ok(()),
        Some(file) => Err(CreateFault::Exists(file)),
    }
}

// The ring must have the active version of each key that the store takes.
fn check_keys(ring: &Ring, plan: &StorePlan) -> Result<(), CreateFault>
    ensures there { OnOk result (HasNeededKeys ring.now plan.now.active plan.now.spaces) }
    ensures missing { IfErr result (IsKeyRefusal ring.now plan.now) }
{
    match missing_key(ring, plan.active, &plan.spaces) {
        None => Ok(()),
        Some(id) => Err(CreateFault::MissingKey {
            id,
            version: plan.active,
        }),
    }
}

// Draws the salts, the log's first, and makes the rest of them and of the plan.
fn draw_store<R: Rng>(
    alloc: Global,
    plan: &StorePlan,
    plans: &[SpacePlan],
    rng: &mut R,
) -> Result<StoreMade, AllocError>
    requires sorted { plans.now ≡ in_id_order plan.now.spaces }
    requires plan { IsCreatable plan.now }
    ensures header { IfOk result (λ made. header_said made.header ≡ header_made plan.now (R.stream rng.old)) }
    ensures spaces { IfOk result (λ made. made.spaces ≡ spaces_made plan.now (R.stream rng.old)) }
    ensures homes { IfOk result (λ made. made.homes ≡ homes_made (spaces_made plan.now (R.stream rng.old))) }
    ensures can { IfOk result (λ made. CanBeMade (header_made plan.now (R.stream rng.old)) (spaces_made plan.now (R.stream rng.old))) }
    ensures format { IfOk result (λ made. made.header.format ≡ 2) }
    ensures count { IfOk result (λ made. made.header.count ≤ most_spaces) }
    ensures blocks { IfOk result (λ made. made.header.blocks ≡ plan.now.blocks) }
    ensures few { IfOk result (λ made. length made.spaces ≡ length plan.now.spaces) }
    ensures all { OnOk result (R.stream rng.new ≡ after_salts (1 + length plan.now.spaces) (R.stream rng.old)) }
    ensures left { IsDrawnTo (1 + length plan.now.spaces) (R.stream rng.old) (R.stream rng.new) }
{
    let salt = draw_salt(rng);
    known_bytes(&salt);
    let spaces = draw_spaces(alloc, rng, plan.active, plans)?;
    let header = header_of(plan, plans, salt);
    let homes = homes_of(alloc, spaces.as_slice())?;
    Ok(StoreMade {
        header,
        spaces: Spaces::of(spaces),
        homes,
    })
}

// The spaces in order of id, where no file of the store is there and no key is missing.
fn find_plans<D: Disk>(
    alloc: Global,
    disk: &mut D,
    ring: &Ring,
    plan: &StorePlan,
) -> Result<Vec<SpacePlan>, CreateFault>
    ensures sorted { IfOk result (λ plans. plans.items ≡ in_id_order plan.now.spaces) }
    ensures none { OnOk result (At (λ es. first_file_there (in_id_order plan.now.spaces) es ≡ None) (D.past disk.old)) }
    ensures keys { OnOk result (HasNeededKeys ring.now plan.now.active plan.now.spaces) }
    ensures refused { IfErr result (IsCreateRefusal ring.now plan.now (D.past disk.old) (D.past disk.new)) }
    ensures same { D.past disk.new ≡ D.past disk.old }
    ensures later { D.is_later disk.old disk.new }
    ensures calls { D.clock disk.new ≤ D.clock disk.old + 2 + length plan.now.spaces }
    ensures asked { At (λ es. D.clock disk.new ≤ D.clock disk.old + files_asked (in_id_order plan.now.spaces) es) (D.past disk.old) }
    ensures cause { HasCauseOf DiskFault (D.faults disk.old) (D.faults disk.new) result }
    ensures memory { D.memory_refusals disk.old ≤ D.memory_refusals disk.new }
    ensures no_fault { (IsErrOf result DiskFault → ⊥) → D.faults disk.new ≡ D.faults disk.old }
    ensures no_refusal { (IsErrOf result OutOfMemory → ⊥) → (IsErrOf result DiskFault → ⊥) → D.memory_refusals disk.new ≡ D.memory_refusals disk.old }
{
    let Ok(plans) = in_id_order(alloc, &plan.spaces) else {
        return Err(CreateFault::OutOfMemory);
    };
    match check_files(disk, plans.as_slice()) {
        Ok(()) => {}
        Err(fault) => return Err(fault),
    }
    match check_keys(ring, plan) {
        Ok(()) => Ok(plans),
        Err(fault) => Err(fault),
    }
}

// Makes a store on a disk.
pub(crate) fn make_store<D: Disk, R: Rng>(
    alloc: Global,
    disk: &mut D,
    ring: &Ring,
    plan: &StorePlan,
    rng: &mut R,
) -> Result<StoreMade, CreateFault>
    requires { IsCreatable plan.now }
    ensures header { IfOk result (λ made. header_said made.header ≡ header_made plan.now (R.stream rng.old)) }
    ensures spaces { IfOk result (λ made. made.spaces ≡ spaces_made plan.now (R.stream rng.old)) }
    ensures homes { IfOk result (λ made. made.homes ≡ homes_made (spaces_made plan.now (R.stream rng.old))) }
    ensures format { IfOk result (λ made. made.header.format ≡ 2) }
    ensures count { IfOk result (λ made. made.header.count ≤ most_spaces) }
    ensures can { OnOk result (CanBeMade (header_made plan.now (R.stream rng.old)) (spaces_made plan.now (R.stream rng.old))) }
    ensures none { OnOk result (At (λ es. first_file_there (in_id_order plan.now.spaces) es ≡ None) (D.past disk.old)) }
    ensures keys { OnOk result (HasNeededKeys ring.now plan.now.active plan.now.spaces) }
    ensures exact { OnOk result (D.past disk.new ≡ past_after (creation (header_made plan.now (R.stream rng.old)) (spaces_made plan.now (R.stream rng.old))) (D.past disk.old)) }
    ensures refused { IfErr result (IsCreateRefusal ring.now plan.now (D.past disk.old) (D.past disk.new)) }
    ensures begun { OnErr result (IsBegun (header_made plan.now (R.stream rng.old)) (spaces_made plan.now (R.stream rng.old)) (D.past disk.old) (D.past disk.new)) }
    ensures part { OnErr result (IsLeftBy ring.now plan.now (R.stream rng.old) (D.past disk.old) (D.past disk.new)) }
    ensures later { D.is_later disk.old disk.new }
    ensures all { OnOk result (R.stream rng.new ≡ after_salts (1 + length plan.now.spaces) (R.stream rng.old)) }
    ensures left { IsDrawnTo (1 + length plan.now.spaces) (R.stream rng.old) (R.stream rng.new) }
    ensures asked { At (λ es. (first_file_there (in_id_order plan.now.spaces) es ≡ None → HasNeededKeys ring.now plan.now.active plan.now.spaces → ⊥) → D.clock disk.new ≤ D.clock disk.old + files_asked (in_id_order plan.now.spaces) es) (D.past disk.old) }
    ensures calls { D.clock disk.new ≤ D.clock disk.old + 8 + 4 * length plan.now.spaces }
    ensures cause { HasCauseOf DiskFault (D.faults disk.old) (D.faults disk.new) result }
    ensures memory { D.memory_refusals disk.old ≤ D.memory_refusals disk.new }
    ensures no_fault { (IsErrOf result DiskFault → ⊥) → D.faults disk.new ≡ D.faults disk.old }
    ensures no_refusal { (IsErrOf result OutOfMemory → ⊥) → (IsErrOf result DiskFault → ⊥) → D.memory_refusals disk.new ≡ D.memory_refusals disk.old }
{
    let plans = match find_plans(alloc, disk, ring, plan) {
        Ok(plans) => plans,
        Err(fault) => return Err(fault),
    };
    let Ok(store) = draw_store(alloc, plan, plans.as_slice(), rng) else {
        return Err(CreateFault::OutOfMemory);
    };
    match write_store(disk, &store.header, store.spaces.as_slice()) {
        Ok(()) => Ok(store),
        Err(DiskError::Failed) => Err(CreateFault::DiskFault),
        Err(DiskError::NoMemory) => Err(CreateFault::OutOfMemory),
    }
}
