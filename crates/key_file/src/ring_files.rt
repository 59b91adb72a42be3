// The ring of the keys of some key files.

ghost use Rattle.std.specs.Prelude.{◌≡◌, ◌≢◌, ◌<◌, ◌≤◌, ◌+◌, ◌⊎◌, ℕ, List, [], Ok, Err, Some, length, map, string_bytes, slice_get, Contains, IfOk, IfErr, IsErrOf, OnOk, IsNone, MatchResult};
ghost use Rattle.std.specs.Option.{option_copied};
ghost use Rattle.io_core.specs.Told.{Told};
ghost use Rattle.key_ring.specs.Ring.{HasAdded, ring_key};
ghost use Rattle.key_file.specs.Cause.{HasCauses, IsOfPresent};
ghost use Rattle.key_file.specs.Load.{IsOutside};
ghost use Rattle.key_file.specs.Loaded.{HasKeysOfVersion, IsDue, IsTheAnswer, LoadsFrom};

use crate::derivation::KeyDigest;
use crate::keys::{KeyItem, KeyList};
use crate::load_fault::LoadFault;
use crate::reading::read_keys;
use io_core::Library;
use key_ring::{Ring, RingFault};
use std::alloc::Global;

// Adds a key under a version that the ring does not have of its id.
fn add_item(ring: &mut Ring, item: &KeyItem, version: u32) -> Result<(), LoadFault>
    requires version { 1 ≤ version }
    requires absent { IsNone (ring_key ring.old item.now.id version) }
    ensures added { OnOk result (HasAdded ring.old ring.new item.now.id version item.now.key) }
    ensures memory { IfErr result (λ fault. fault ≡ LoadFault.OutOfMemory) }
{
    match ring.add(item.id, version, item.key.bytes()) {
        Ok(()) => Ok(()),
        Err(RingFault::OutOfMemory) => Err(LoadFault::OutOfMemory),
        Err(RingFault::BadLength(_)) => unreachable!(),
        Err(RingFault::Twice(_, _)) => unreachable!(),
    }
}

// Adds the keys of a file under a version that the ring does not have.
fn add_keys(ring: &mut Ring, keys: &KeyList, version: u32) -> Result<(), LoadFault>
    requires version { 1 ≤ version }
    requires absent { (id : ℕ) → IsNone (ring_key ring.old id version) }
    ensures added { OnOk result (HasKeysOfVersion ring.old keys.now version ring.new) }
    ensures memory { IfErr result (λ fault. fault ≡ LoadFault.OutOfMemory) }
{
    let count = keys.len();
    for i in 0..count {
        add_item(ring, keys.get(i), version)?;
    }
    Ok(())
}

// As `load`.
fn load_in_order<L: Library>(
    alloc: Global,
    files: &mut L,
    names: &[String],
    filekey: Option<&str>,
    digest: KeyDigest,
) -> Result<Ring, LoadFault>
    requires { length names.now ≤ 64 }
    ensures loads { Told (λ fs. MatchResult result (λ ring. LoadsFrom fs (option_copied filekey.entry) digest 0 (map string_bytes names.now) [] (Ok ring)) (λ fault. IsOutside fault ⊎ LoadsFrom fs (option_copied filekey.entry) digest 0 (map string_bytes names.now) [] (Err fault))) (L.files files.old) }
    ensures versions { IfOk result (λ ring. (id version : ℕ) → length names.now < version → IsNone (ring_key ring id version)) }
    ensures same { L.files files.new ≡ L.files files.old }
    ensures causes { HasCauses (L.faults files.old) (L.faults files.new) (L.absences files.old) (L.absences files.new) result }
    ensures no_fault { OnOk result (L.faults files.new ≡ L.faults files.old) }
    ensures no_fault_at_refusal { IfErr result (λ fault. fault ≢ LoadFault.FileFault → L.faults files.new ≡ L.faults files.old) }
    ensures present { OnOk result (L.absences files.new ≡ L.absences files.old) }
    ensures present_at_refusal { IfErr result (λ fault. IsOfPresent fault → L.absences files.new ≡ L.absences files.old) }
    ensures refusals_later { L.memory_refusals files.old ≤ L.memory_refusals files.new }
    ensures no_refusal { OnOk result (L.memory_refusals files.new ≡ L.memory_refusals files.old) }
    ensures no_refusal_at_fault { IfErr result (λ fault. IsOutside fault ⊎ (L.memory_refusals files.new ≡ L.memory_refusals files.old)) }
    ensures failed { IsErrOf result LoadFault.FileFault → Told (λ fs. (due : List ℕ) × IsDue fs (option_copied filekey.entry) digest 0 (map string_bytes names.now) due × L.failed_last files.new due) (L.files files.old) }
{
    let mut ring = Ring::new(alloc);
    for (index, name) in names.iter().enumerate() {
        let keys = read_keys(alloc, files, name, filekey, digest, index)?;
        add_keys(&mut ring, &keys, index as u32 + 1)?;
    }
    Ok(ring)
}

/// Reads key files in order. The k-th file, counted from 1, gives version k of its keys. A file that
/// begins with `Salted__` is enciphered, and read with the filekey; a filekey that begins with `FILE:`
/// names a file with the password, and any other is the password. A filekey is otherwise not used.
///
/// # Errors
/// The first fault in order of files, of each file in this order: `Missing`; `FileFault`; `KeyFile` with
/// `TooLarge`; of an enciphered file `NoSecret`, the faults of the secret (`Missing`, `FileFault`,
/// `SecretTooLarge`, `BadSecret`), `ShortSalted`, `CipherLength`, `Padding`; the faults of
/// [`parse_plain`](crate::parse_plain). `FileFault` comes only where the library's count of faults rose,
/// `Missing` only where its count of absences rose. `OutOfMemory`.
pub fn load<L: Library>(
    alloc: Global,
    files: &mut L,
    names: &[String],
    filekey: Option<&str>,
    digest: KeyDigest,
) -> Result<Ring, LoadFault>
    requires { length names.now ≤ 64 }

    // Where the library tells its files: the ring that they give, or the first fault.
    ensures loads { Told (λ fs. MatchResult result (λ ring. LoadsFrom fs (option_copied filekey.entry) digest 0 (map string_bytes names.now) [] (Ok ring)) (λ fault. IsOutside fault ⊎ LoadsFrom fs (option_copied filekey.entry) digest 0 (map string_bytes names.now) [] (Err fault))) (L.files files.old) }

    // There is no second answer: whatever the files give says the same.
    ensures only { Told (λ fs. MatchResult result (λ ring. IsTheAnswer fs (option_copied filekey.entry) digest (map string_bytes names.now) (Ok ring)) (λ fault. IsOutside fault ⊎ IsTheAnswer fs (option_copied filekey.entry) digest (map string_bytes names.now) (Err fault))) (L.files files.old) }
    ensures versions { IfOk result (λ ring. (id version : ℕ) → length names.now < version → IsNone (ring_key ring id version)) }
    ensures same { L.files files.new ≡ L.files files.old }
    ensures causes { HasCauses (L.faults files.old) (L.faults files.new) (L.absences files.old) (L.absences files.new) result }

    // The library's count of faults rises only where the answer is `FileFault`, that of absences only where it
    // is `Missing`, and that of refused memory only where it is one of `FileFault` and `OutOfMemory`.
    ensures no_fault { OnOk result (L.faults files.new ≡ L.faults files.old) }
    ensures no_fault_at_refusal { IfErr result (λ fault. fault ≢ LoadFault.FileFault → L.faults files.new ≡ L.faults files.old) }
    ensures present { OnOk result (L.absences files.new ≡ L.absences files.old) }
    ensures present_at_refusal { IfErr result (λ fault. IsOfPresent fault → L.absences files.new ≡ L.absences files.old) }
    ensures refusals_later { L.memory_refusals files.old ≤ L.memory_refusals files.new }
    ensures no_refusal { OnOk result (L.memory_refusals files.new ≡ L.memory_refusals files.old) }
    ensures no_refusal_at_fault { IfErr result (λ fault. IsOutside fault ⊎ (L.memory_refusals files.new ≡ L.memory_refusals files.old)) }

    // A fault of the library is that of a file that was due: the key files before it gave keys, and it is
    // the next, or that one is enciphered and this is the file of the password.
    ensures failed { IsErrOf result LoadFault.FileFault → Told (λ fs. (due : List ℕ) × IsDue fs (option_copied filekey.entry) digest 0 (map string_bytes names.now) due × L.failed_last files.new due) (L.files files.old) }
{
    load_in_order(alloc, files, names, filekey, digest)
}
