// What may be in the way of creating a store: files that are there, and keys that are missing.
ghost use Rattle.std.specs.Prelude.{◌≡◌, ◌≤◌, ◌+◌, IfOk, IsErrOf, MatchOption, OnOk, length};
ghost use Rattle.disk_model.specs.Event.{is_there};
ghost use Rattle.disk_model.specs.Past.{At, HasDiskCause, HasDiskMemoryCause};
ghost use Rattle.disk_model.specs.declared.names.DiskError.TheVariants.{NoMemory};
ghost use Rattle.store_form.specs.Plan.{HasNeededKeys, IsLeastMissing, files_asked, first_file_there, first_space_there, lesser_missing, spaces_asked};

use crate::{SpacePlan, SpacePlans};
use disk_model::{Disk, DiskError, FileName};
use key_ring::Ring;

fn is_made<D: Disk>(disk: &mut D, file: FileName) -> Result<bool, DiskError>
    ensures there { IfOk result (λ there. At (λ es. there ≡ is_there file es) (D.past disk.old)) }
    ensures same { D.past disk.new ≡ D.past disk.old }
    ensures later { D.is_later disk.old disk.new }
    ensures calls { D.clock disk.new ≤ D.clock disk.old + 1 }
    ensures cause { HasDiskCause (D.faults disk.old) (D.faults disk.new) result }
    ensures memory { HasDiskMemoryCause (D.memory_refusals disk.old) (D.memory_refusals disk.new) result }
    ensures no_fault { OnOk result (D.faults disk.new ≡ D.faults disk.old) }
    ensures no_fault_at_want { IsErrOf result NoMemory → D.faults disk.new ≡ D.faults disk.old }
    ensures no_refusal { OnOk result (D.memory_refusals disk.new ≡ D.memory_refusals disk.old) }
{
    let size = disk.size(file)?;
    Ok(size.is_some())
}

// The first file of these spaces that is there.
fn first_space_made<D: Disk>(
    disk: &mut D,
    plans: &[SpacePlan],
) -> Result<Option<FileName>, DiskError>
    ensures first { IfOk result (λ first. At (λ es. first ≡ first_space_there plans.now es) (D.past disk.old)) }
    ensures same { D.past disk.new ≡ D.past disk.old }
    ensures later { D.is_later disk.old disk.new }
    ensures calls { D.clock disk.new ≤ D.clock disk.old + length plans.now }
    ensures asked { At (λ es. D.clock disk.new ≤ D.clock disk.old + spaces_asked plans.now es) (D.past disk.old) }
    ensures cause { HasDiskCause (D.faults disk.old) (D.faults disk.new) result }
    ensures memory { HasDiskMemoryCause (D.memory_refusals disk.old) (D.memory_refusals disk.new) result }
    ensures no_fault { OnOk result (D.faults disk.new ≡ D.faults disk.old) }
    ensures no_fault_at_want { IsErrOf result NoMemory → D.faults disk.new ≡ D.faults disk.old }
    ensures no_refusal { OnOk result (D.memory_refusals disk.new ≡ D.memory_refusals disk.old) }
{
    for i in 0..plans.len() {
        let file = FileName::Space(plans[i].space);
        if is_made(disk, file)? {
            return Ok(Some(file));
        }
    }
    Ok(None)
}

// The first file of a store with these spaces, which are in order of id, that is there.
pub(crate) fn first_made<D: Disk>(
    disk: &mut D,
    plans: &[SpacePlan],
) -> Result<Option<FileName>, DiskError>
    ensures first { IfOk result (λ first. At (λ es. first ≡ first_file_there plans.now es) (D.past disk.old)) }
    ensures same { D.past disk.new ≡ D.past disk.old }
    ensures later { D.is_later disk.old disk.new }
    ensures calls { D.clock disk.new ≤ D.clock disk.old + 2 + length plans.now }
    ensures asked { At (λ es. D.clock disk.new ≤ D.clock disk.old + files_asked plans.now es) (D.past disk.old) }
    ensures cause { HasDiskCause (D.faults disk.old) (D.faults disk.new) result }
    ensures memory { HasDiskMemoryCause (D.memory_refusals disk.old) (D.memory_refusals disk.new) result }
    ensures no_fault { OnOk result (D.faults disk.new ≡ D.faults disk.old) }
    ensures no_fault_at_want { IsErrOf result NoMemory → D.faults disk.new ≡ D.faults disk.old }
    ensures no_refusal { OnOk result (D.memory_refusals disk.new ≡ D.memory_refusals disk.old) }
{
    if is_made(disk, FileName::Log)? {
        return Ok(Some(FileName::Log));
    }
    if is_made(disk, FileName::Double)? {
        return Ok(Some(FileName::Double));
    }
    first_space_made(disk, plans)
}

// The lesser of an id so far and one whose key may be missing.
fn lesser(ring: &Ring, active: u32, least: Option<u32>, id: u32) -> Option<u32>
    ensures { result ≡ lesser_missing ring.now active least id }
{
    if ring.get(id, active).is_some() {
        return least;
    }
    match least {
        Some(other) if other <= id => Some(other),
        _ => Some(id),
    }
}

// The least id of a key that a store with these spaces takes, and whose active version is missing.
pub(crate) fn missing_key(ring: &Ring, active: u32, plans: &SpacePlans) -> Option<u32>
    ensures { MatchOption result (HasNeededKeys ring.now active plans.now) (IsLeastMissing ring.now active plans.now) }
{
    let mut least = lesser(ring, active, None, 1);
    for i in 0..plans.len() {
        least = lesser(ring, active, least, plans.get(i).key_id);
    }
    least
}
