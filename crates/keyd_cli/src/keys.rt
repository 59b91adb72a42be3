// The key files that the words of `drill` name.
ghost use Rattle.std.specs.Prelude.{◌≡◌, ◌⊎◌, ◌+◌, ◌<◌, ◌++◌, length, drop, Ok, Err, OnOk, map, string_bytes, IfOk, MatchResult, MatchOption};
ghost use Rattle.std.specs.Option.{option_copied};
ghost use Rattle.io_core.specs.Told.{Told};
ghost use Rattle.key_file.specs.Cause.{HasCauses};
ghost use Rattle.key_file.specs.Load.{IsOutside};
ghost use Rattle.keyd_cli.specs.Words.{AreOptions};
ghost use Rattle.keyd_cli.specs.Plan.{value_in};
ghost use Rattle.keyd_cli.specs.Keys.{values_of, digest_in, IsLoaded};

use crate::plan::value_of;
use crate::words::Flag;
use cause_core::OutOfMemory;
use io_core::Library;
use key_file::{KeyDigest, LoadFault, load};
use key_ring::Ring;
use std::alloc::Global;

// Adds the value at this place, where it is the name of a key file.
fn push_name(
    alloc: Global,
    names: &mut Vec<String>,
    options: &[String],
    at: usize,
) -> Result<(), OutOfMemory>
    requires { at + 1 < length options.now }
    ensures { OnOk result (map string_bytes names.new.items ++ values_of Flag.KeyFile (drop (at + 2) (map string_bytes options.now)) ≡ map string_bytes names.old.items ++ values_of Flag.KeyFile (drop at (map string_bytes options.now))) }
{
    if options[at].as_str() != Flag::KeyFile.name() {
        return Ok(());
    }
    let name = String::from_str(alloc, options[at + 1].as_str())?;
    names.push(name)?;
    Ok(())
}

// The names of the key files, in the order in which they stand.
fn names_in(alloc: Global, options: &[String]) -> Result<Vec<String>, OutOfMemory>
    ensures { IfOk result (λ names. map string_bytes names.items ≡ values_of Flag.KeyFile (map string_bytes options.now)) }
{
    let mut names = Vec::new(alloc);
    let mut at = 0;
    while at + 1 < options.len() {
        push_name(alloc, &mut names, options, at)?;
        at += 2;
    }
    Ok(names)
}

fn filekey_in(options: &[String]) -> Option<&str>
    ensures { option_copied result ≡ value_in Flag.FileKey (map string_bytes options.now) }
{
    value_of(options, Flag::FileKey)
}

fn digest_of(options: &[String]) -> KeyDigest
    ensures { result ≡ digest_in (map string_bytes options.now) }
{
    match value_of(options, Flag::Digest) {
        Some(value) if value == "sha256" => KeyDigest::Sha256,
        _ => KeyDigest::Sha1,
    }
}

/// Loads the key files that the options of `drill` name.
pub fn load_keys<L: Library>(
    alloc: Global,
    files: &mut L,
    options: &[String],
) -> Result<Ring, LoadFault>
    requires { AreOptions (map string_bytes options.now) }
    ensures loads { Told (λ fs. MatchResult result (λ ring. IsLoaded fs (map string_bytes options.now) (Ok ring)) (λ fault. IsOutside fault ⊎ IsLoaded fs (map string_bytes options.now) (Err fault))) (L.files files.old) }
    ensures same { L.files files.new ≡ L.files files.old }
    ensures causes { HasCauses (L.faults files.old) (L.faults files.new) (L.absences files.old) (L.absences files.new) result }
{
    let Ok(names) = names_in(alloc, options) else {
        return Err(LoadFault::OutOfMemory);
    };
    load(
        alloc,
        files,
        &names,
        filekey_in(options),
        digest_of(options),
    )
}
