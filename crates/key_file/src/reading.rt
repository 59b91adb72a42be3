// Key files read from a library.

ghost use Rattle.std.specs.Prelude.{◌≡◌, ◌≢◌, ◌⊎◌, ℕ, List, Ok, Err, true, nat_eq, codes, drop, length, IfOk, IfErr, OnOk, IsErrOf, MatchResult, ◌≤◌};
ghost use Rattle.std.specs.List.{starts_with, suffix_len};
ghost use Rattle.std.specs.Option.{option_copied};
ghost use Rattle.io_core.specs.Told.{Told};
ghost use Rattle.key_file.specs.Cause.{HasCauses, IsOfPresent};
ghost use Rattle.key_file.specs.Load.{IsOutside, KeysOf, TextOf, contents, is_line_end, is_salted, load_fault_of, password_of, secret_of};
ghost use Rattle.key_file.specs.Loaded.{CallsFor, NamesSecret};

use crate::derivation::KeyDigest;
use crate::fault::KeyFault;
use crate::keys::KeyList;
use crate::load_fault::LoadFault;
use crate::name::Name;
use crate::plain::parse_plain;
use crate::salted::read_salted;
use io_core::{FileContents, IoError, Library, read_file};
use std::alloc::Global;

// How many bytes a key file and a file with a password may have.
const LIMIT: usize = 1_048_576;

// A copy of the name of a file, for the answer where it isn't there. It is made before the file is asked for,
// so that no want of memory stands in place of an absence that the library counted.
fn name_of(alloc: Global, name: &str) -> Result<Name, LoadFault>
    ensures value { IfOk result (λ copy. copy ≡ name.now) }
    ensures memory { IfErr result (λ fault. fault ≡ LoadFault.OutOfMemory) }
{
    match Name::of(alloc, name) {
        Ok(copy) => Ok(copy),
        Err(_) => Err(LoadFault::OutOfMemory),
    }
}

// The answer for a fault of the key file of an index.
fn of_file(index: usize, fault: KeyFault) -> LoadFault
    ensures value { result ≡ load_fault_of index fault }
    ensures inside { result ≢ LoadFault.FileFault }
{
    match fault {
        KeyFault::OutOfMemory => LoadFault::OutOfMemory,
        fault => LoadFault::KeyFile { index, fault },
    }
}

// The bytes of a file.
fn read_named<L: Library>(
    alloc: Global,
    files: &mut L,
    name: &str,
    index: usize,
    too_large: KeyFault,
) -> Result<Vec<u8>, LoadFault>
    ensures contents { Told (λ fs. MatchResult result (λ v. contents index too_large name.now (fs name.now) ≡ Ok v.items) (λ fault. IsOutside fault ⊎ (contents index too_large name.now (fs name.now) ≡ Err fault))) (L.files files.old) }
    ensures same { L.files files.new ≡ L.files files.old }
    ensures causes { HasCauses (L.faults files.old) (L.faults files.new) (L.absences files.old) (L.absences files.new) result }
    ensures no_fault { OnOk result (L.faults files.new ≡ L.faults files.old) }
    ensures no_fault_at_refusal { IfErr result (λ fault. fault ≢ LoadFault.FileFault → L.faults files.new ≡ L.faults files.old) }
    ensures present { OnOk result (L.absences files.new ≡ L.absences files.old) }
    ensures present_at_refusal { IfErr result (λ fault. IsOfPresent fault → L.absences files.new ≡ L.absences files.old) }
    ensures refusals_later { L.memory_refusals files.old ≤ L.memory_refusals files.new }
    ensures no_refusal { OnOk result (L.memory_refusals files.new ≡ L.memory_refusals files.old) }
    ensures no_refusal_at_fault { IfErr result (λ fault. IsOutside fault ⊎ (L.memory_refusals files.new ≡ L.memory_refusals files.old)) }
    ensures failed { IsErrOf result LoadFault.FileFault → L.failed_last files.new name.now }
{
    let copy = name_of(alloc, name)?;
    match read_file(alloc, files, name, LIMIT) {
        Ok(FileContents::Whole(bytes)) => Ok(bytes),
        Ok(FileContents::TooLarge) => Err(LoadFault::KeyFile {
            index,
            fault: too_large,
        }),
        Ok(FileContents::Missing) => Err(LoadFault::Missing(copy)),
        Err(IoError::Failed) => Err(LoadFault::FileFault),
        Err(IoError::NoMemory) => Err(LoadFault::OutOfMemory),
    }
}

// How many line ends a text ends in.
fn count_line_ends(text: &[u8]) -> usize
    ensures within { result ≤ length text.now }
    ensures count { result ≡ suffix_len is_line_end text.now }
{
    text.iter()
        .rev()
        .take_while(|b| **b == b'\n' || **b == b'\r')
        .count()
}

// A copy of a password.
fn password(alloc: Global, text: &[u8], index: usize) -> Result<Vec<u8>, LoadFault>
    ensures inside { result ≢ Err LoadFault.FileFault }
    ensures value { MatchResult result (λ v. password_of index text.now ≡ Ok v.items) (λ fault. (fault ≡ LoadFault.OutOfMemory) ⊎ (password_of index text.now ≡ Err fault)) }
{
    let count = text.len();
    if count == 0 || count > 256 {
        return Err(LoadFault::KeyFile {
            index,
            fault: KeyFault::BadSecret(count),
        });
    }
    match text.to_vec(alloc) {
        Ok(copy) => Ok(copy),
        Err(_) => Err(LoadFault::OutOfMemory),
    }
}

// The password that a filekey is or names.
fn read_secret<L: Library>(
    alloc: Global,
    files: &mut L,
    filekey: &str,
    index: usize,
) -> Result<Vec<u8>, LoadFault>
    ensures secret { Told (λ fs. MatchResult result (λ v. secret_of fs index filekey.now ≡ Ok v.items) (λ fault. IsOutside fault ⊎ (secret_of fs index filekey.now ≡ Err fault))) (L.files files.old) }
    ensures same { L.files files.new ≡ L.files files.old }
    ensures causes { HasCauses (L.faults files.old) (L.faults files.new) (L.absences files.old) (L.absences files.new) result }
    ensures no_fault { OnOk result (L.faults files.new ≡ L.faults files.old) }
    ensures no_fault_at_refusal { IfErr result (λ fault. fault ≢ LoadFault.FileFault → L.faults files.new ≡ L.faults files.old) }
    ensures present { OnOk result (L.absences files.new ≡ L.absences files.old) }
    ensures present_at_refusal { IfErr result (λ fault. IsOfPresent fault → L.absences files.new ≡ L.absences files.old) }
    ensures refusals_later { L.memory_refusals files.old ≤ L.memory_refusals files.new }
    ensures no_refusal { OnOk result (L.memory_refusals files.new ≡ L.memory_refusals files.old) }
    ensures no_refusal_at_fault { IfErr result (λ fault. IsOutside fault ⊎ (L.memory_refusals files.new ≡ L.memory_refusals files.old)) }
    ensures failed { IsErrOf result LoadFault.FileFault → (starts_with nat_eq filekey.now (codes "FILE:") ≡ true) × L.failed_last files.new (drop 5 filekey.now) }
{
    let Some(name) = filekey.strip_prefix("FILE:") else {
        return password(alloc, filekey.as_bytes(), index);
    };
    let text = read_named(alloc, files, name, index, KeyFault::SecretTooLarge)?;
    let count = text.len() - count_line_ends(&text);
    password(alloc, &text[..count], index)
}

// The text of a key file, from its bytes.
fn read_text<L: Library>(
    alloc: Global,
    files: &mut L,
    bytes: Vec<u8>,
    filekey: Option<&str>,
    digest: KeyDigest,
    index: usize,
) -> Result<Vec<u8>, LoadFault>
    ensures text { Told (λ fs. MatchResult result (λ v. TextOf fs index (option_copied filekey.entry) digest bytes.items (Ok v.items)) (λ fault. IsOutside fault ⊎ TextOf fs index (option_copied filekey.entry) digest bytes.items (Err fault))) (L.files files.old) }
    ensures same { L.files files.new ≡ L.files files.old }
    ensures causes { HasCauses (L.faults files.old) (L.faults files.new) (L.absences files.old) (L.absences files.new) result }
    ensures no_fault { OnOk result (L.faults files.new ≡ L.faults files.old) }
    ensures no_fault_at_refusal { IfErr result (λ fault. fault ≢ LoadFault.FileFault → L.faults files.new ≡ L.faults files.old) }
    ensures present { OnOk result (L.absences files.new ≡ L.absences files.old) }
    ensures present_at_refusal { IfErr result (λ fault. IsOfPresent fault → L.absences files.new ≡ L.absences files.old) }
    ensures refusals_later { L.memory_refusals files.old ≤ L.memory_refusals files.new }
    ensures no_refusal { OnOk result (L.memory_refusals files.new ≡ L.memory_refusals files.old) }
    ensures no_refusal_at_fault { IfErr result (λ fault. IsOutside fault ⊎ (L.memory_refusals files.new ≡ L.memory_refusals files.old)) }
    ensures failed { IsErrOf result LoadFault.FileFault → (is_salted bytes.items ≡ true) × ((due : List ℕ) × NamesSecret (option_copied filekey.entry) due × L.failed_last files.new due) }
{
    if !bytes.starts_with(b"Salted__") {
        return Ok(bytes);
    }
    let Some(filekey) = filekey else {
        return Err(of_file(index, KeyFault::NoSecret));
    };
    let password = read_secret(alloc, files, filekey, index)?;
    match read_salted(alloc, &bytes, &password, digest) {
        Ok(text) => Ok(text),
        Err(fault) => Err(of_file(index, fault)),
    }
}

// The keys of the file of a name.
pub(crate) fn read_keys<L: Library>(
    alloc: Global,
    files: &mut L,
    name: &str,
    filekey: Option<&str>,
    digest: KeyDigest,
    index: usize,
) -> Result<KeyList, LoadFault>
    ensures keys { Told (λ fs. MatchResult result (λ keys. KeysOf fs index (option_copied filekey.entry) digest name.now (Ok keys)) (λ fault. IsOutside fault ⊎ KeysOf fs index (option_copied filekey.entry) digest name.now (Err fault))) (L.files files.old) }
    ensures same { L.files files.new ≡ L.files files.old }
    ensures causes { HasCauses (L.faults files.old) (L.faults files.new) (L.absences files.old) (L.absences files.new) result }
    ensures no_fault { OnOk result (L.faults files.new ≡ L.faults files.old) }
    ensures no_fault_at_refusal { IfErr result (λ fault. fault ≢ LoadFault.FileFault → L.faults files.new ≡ L.faults files.old) }
    ensures present { OnOk result (L.absences files.new ≡ L.absences files.old) }
    ensures present_at_refusal { IfErr result (λ fault. IsOfPresent fault → L.absences files.new ≡ L.absences files.old) }
    ensures refusals_later { L.memory_refusals files.old ≤ L.memory_refusals files.new }
    ensures no_refusal { OnOk result (L.memory_refusals files.new ≡ L.memory_refusals files.old) }
    ensures no_refusal_at_fault { IfErr result (λ fault. IsOutside fault ⊎ (L.memory_refusals files.new ≡ L.memory_refusals files.old)) }
    ensures failed { IsErrOf result LoadFault.FileFault → Told (λ fs. (due : List ℕ) × CallsFor fs index (option_copied filekey.entry) name.now due × L.failed_last files.new due) (L.files files.old) }
{
    let bytes = read_named(alloc, files, name, index, KeyFault::TooLarge)?;
    let text = read_text(alloc, files, bytes, filekey, digest, index)?;
    match parse_plain(alloc, &text) {
        Ok(keys) => Ok(keys),
        Err(fault) => Err(of_file(index, fault)),
    }
}
