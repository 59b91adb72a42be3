// A plain key file.

ghost use Rattle.std.specs.Prelude.{◌≡◌, ℕ, Some, Ok, Err, ◌⊎◌, List, length, map, IfOk, IfErr, OnOk, MatchResult, IsSome};
ghost use Rattle.aes_core.specs.Cipher.{IsKeyLength};
ghost use Rattle.key_file.specs.Line.{IsId, line_says};
ghost use Rattle.key_file.specs.Plain.{ReadsPlain, first_fault, key_in, lines_of};
ghost use Rattle.key_file.specs.Gathered.{IsGathered, TakesLine, items_of};
ghost use Rattle.std.specs.Ordering.{nat_cmp};
ghost use Rattle.std.specs.BTreeMap.{IsOrdered};

use crate::fault::KeyFault;
use crate::keys::{KeyItem, KeyList};
use crate::line::read_line;
use key_ring::KeyBytes;
use std::alloc::{AllocError, Global};
use std::collections::BTreeMap;

/// The keys of a plain key file. Lines end at LF or at the end of the file. Past leading blanks
/// (spaces, tabs and carriage returns) an empty line and one that begins with `#` say nothing; any
/// other is an id in decimal digits, a semicolon and a key of 32, 48 or 64 hex digits. What follows
/// on the line is ignored, and a later line for an id replaces an earlier one.
///
/// # Errors
/// The first fault in order of lines, of each line in this order: `NoDigits`, `IdRange`,
/// `NoSemicolon`, `KeyLength`. Then `NoKeyOne` exactly where no line has id 1. `OutOfMemory`.
pub fn parse_plain(alloc: Global, bytes: &[u8]) -> Result<KeyList, KeyFault>
    ensures reads { MatchResult result (λ keys. ReadsPlain bytes.now (Ok keys)) (λ fault. (fault ≡ KeyFault.OutOfMemory) ⊎ ReadsPlain bytes.now (Err fault)) }

    // What never comes: a list without id 1, an id out of range, a key of another length.
    ensures key_one { IfOk result (λ keys. IsSome (key_in keys 1)) }
    ensures ids { IfOk result (λ keys. (id : ℕ) (key : List ℕ) → key_in keys id ≡ Some key → IsId id) }
    ensures key_lengths { IfOk result (λ keys. (id : ℕ) (key : List ℕ) → key_in keys id ≡ Some key → IsKeyLength (length key)) }
{
    let keys = gather(alloc, bytes)?;
    if !keys.contains_key(&1) {
        return Err(KeyFault::NoKeyOne);
    }
    // Every map's length says that its keys ascend.
    let _ = keys.len();
    listed(alloc, keys)
}

// The lines of a text, which end at line feeds and at the end of the text.
fn lines_of(alloc: Global, bytes: &[u8]) -> Result<Vec<&[u8]>, AllocError>
    ensures { IfOk result (λ lines. map (λ line. line.now) lines.items ≡ lines_of bytes.now) }
{
    bytes.split(|b| *b == b'\n').collect(alloc)
}

// Takes in what a line says. Nothing is taken in where the line is refused.
fn take_line(keys: &mut BTreeMap<u32, KeyBytes>, line: &[u8], number: usize) -> Result<(), KeyFault>
    ensures taken { OnOk result (TakesLine keys.old keys.new number line.now) }
    ensures refused { IfErr result (λ fault. (fault ≡ KeyFault.OutOfMemory) ⊎ (line_says number line.now ≡ Err fault)) }
{
    let Some(item) = read_line(line, number)? else {
        return Ok(());
    };
    keys.insert(item.id, item.key)?;
    Ok(())
}

// The key of each id by its last line, or the first fault.
fn gather(alloc: Global, bytes: &[u8]) -> Result<BTreeMap<u32, KeyBytes>, KeyFault>
    ensures { MatchResult result (IsGathered (lines_of bytes.now)) (λ fault. (fault ≡ KeyFault.OutOfMemory) ⊎ (first_fault 1 (lines_of bytes.now) ≡ Some fault)) }
{
    let lines = lines_of(alloc, bytes)?;
    let mut keys = BTreeMap::new(alloc);
    for (i, line) in lines.iter().enumerate() {
        take_line(&mut keys, line, i + 1)?;
    }
    Ok(keys)
}

// The entries in order of id.
fn items_of(alloc: Global, keys: BTreeMap<u32, KeyBytes>) -> Result<Vec<KeyItem>, AllocError>
    ensures { IfOk result (λ items. items.items ≡ items_of keys.entries) }
{
    keys.into_iter()
        .map(|(id, key)| KeyItem { id, key })
        .collect(alloc)
}

fn listed(alloc: Global, keys: BTreeMap<u32, KeyBytes>) -> Result<KeyList, KeyFault>
    requires { IsOrdered nat_cmp keys }
    ensures { MatchResult result (λ items. items ≡ items_of keys.entries) (λ fault. fault ≡ KeyFault.OutOfMemory) }
{
    let items = items_of(alloc, keys)?;
    Ok(KeyList::of(items))
}
