// The words of a line, one field after another.
ghost use Rattle.std.specs.Prelude.{◌≡◌, ◌≤◌, List, [], ◌∷◌, OnOk, IfOk, IfErr, MatchOption, IsTrue};
ghost use Rattle.script_core.specs.declared.act.Act.{Act};
ghost use Rattle.script_core.specs.declared.fault.LineError.{LineError};
ghost use Rattle.script_core.specs.Words.{IsNumber, IsPageType, IsHex};
ghost use Rattle.script_core.specs.Batches.{IsOut, Tells};
ghost use Rattle.script_core.specs.Fields.{Takes, FaultAt, ForFault, Numeral, PageType, Bytes, Byte, FreeBatch, HeldBatch, End};

use crate::batches::{Batches, LAST_BATCH};
use crate::fault::{LineError, LineFault};
use crate::number::number_of;
use crate::parts::Parts;
use cause_core::OutOfMemory;
use hex::FromHexError;
use redo_text::Piece;
use std::alloc::Global;

// The greatest type of a page.
const LAST_PAGE_TYPE: u32 = 65_535;

// The type of page 0, and that of a page of extent descriptors.
const FSP_HDR: u32 = 8;

const XDES: u32 = 9;

// The next word.
pub(crate) fn take_word<'a>(words: &mut Parts<'a>) -> Result<&'a [u8], LineFault>
    ensures ok { IfOk result (λ word. words.old ≡ word.now ∷ words.new) }
    ensures err { IfErr result (λ kind. (words.old ≡ []) × (kind ≡ LineFault.Missing)) }
{
    match words.next() {
        Some(word) => Ok(word),
        None => Err(LineFault::Missing),
    }
}

// The line has no word more.
pub(crate) fn take_end(words: &mut Parts<'_>) -> Result<(), LineFault>
    ensures ok { OnOk result (words.old ≡ []) }
    ensures err { (before : List Act) → IfErr result (FaultAt before End words.old) }
{
    match words.next() {
        None => Ok(()),
        Some(_) => Err(LineFault::Extra),
    }
}

// A number from low to high.
pub(crate) fn take_number(words: &mut Parts<'_>, low: u32, high: u32) -> Result<u32, LineFault>
    ensures ok { IfOk result (λ n. Takes words.old words.new (λ word. IsNumber word low high n)) }
    ensures err { (before : List Act) → IfErr result (FaultAt before (Numeral low high) words.old) }
{
    let word = take_word(words)?;
    number_of(word, low, high)
}

// A number of a u32.
pub(crate) fn take_u32(words: &mut Parts<'_>) -> Result<u32, LineFault>
    ensures ok { IfOk result (λ n. Takes words.old words.new (λ word. IsNumber word 0 4294967295 n)) }
    ensures err { (before : List Act) → IfErr result (FaultAt before (Numeral 0 4294967295) words.old) }
{
    take_number(words, 0, u32::MAX)
}

// The type of a page, neither 8 nor 9.
pub(crate) fn take_page_type(words: &mut Parts<'_>) -> Result<u16, LineFault>
    ensures ok { IfOk result (λ n. Takes words.old words.new (λ word. IsPageType word n)) }
    ensures err { (before : List Act) → IfErr result (FaultAt before PageType words.old) }
{
    let number = take_number(words, 0, LAST_PAGE_TYPE)?;
    if number == FSP_HDR || number == XDES {
        return Err(LineFault::Range);
    }
    Ok(number as u16)
}

// The bytes that a word writes, one at least.
fn bytes_of(alloc: Global, word: &[u8]) -> Result<Vec<u8>, LineError>
    ensures ok { IfOk result (λ bytes. IsHex word.now bytes.items) }
    ensures err { IfErr result (λ e. ForFault e (λ kind. (kind ≡ LineFault.Hex) × ((bytes : _) → IsHex word.now bytes → ⊥))) }
{
    if word.is_empty() {
        return Err(LineError::Fault(LineFault::Hex));
    }
    match hex::decode(alloc, word) {
        Ok(bytes) => Ok(bytes),
        Err(FromHexError::OutOfMemory) => Err(LineError::OutOfMemory),
        Err(_) => Err(LineError::Fault(LineFault::Hex)),
    }
}

// Bytes in hex digits, one byte at least.
pub(crate) fn take_bytes(alloc: Global, words: &mut Parts<'_>) -> Result<Piece, LineError>
    ensures ok { IfOk result (λ bytes. Takes words.old words.new (λ word. IsHex word bytes)) }
    ensures err { (before : List Act) → IfErr result (λ e. ForFault e (FaultAt before Bytes words.old)) }
{
    let word = take_word(words)?;
    let bytes = bytes_of(alloc, word)?;
    Ok(Piece::of(bytes))
}

// The byte that a word writes.
fn byte_of(word: &[u8]) -> Option<u8>
    ensures { MatchOption result ((byte : _) → IsHex word.now (byte ∷ []) → ⊥) (λ byte. IsHex word.now (byte ∷ [])) }
{
    let mut byte = [0u8];
    match hex::decode_to_slice(word, &mut byte) {
        Ok(()) => Some(byte[0]),
        Err(_) => None,
    }
}

// One byte in hex digits.
pub(crate) fn take_byte(words: &mut Parts<'_>) -> Result<u8, LineFault>
    ensures ok { IfOk result (λ byte. Takes words.old words.new (λ word. IsHex word (byte ∷ []))) }
    ensures err { (before : List Act) → IfErr result (FaultAt before Byte words.old) }
{
    let word = take_word(words)?;
    match byte_of(word) {
        Some(byte) => Ok(byte),
        None => Err(LineFault::Hex),
    }
}

// A batch that isn't outstanding.
pub(crate) fn take_free_batch(words: &mut Parts<'_>, batches: &Batches) -> Result<u32, LineFault>
    ensures ok { (before : List Act) → Tells batches.now.out before → IfOk result (λ b. Takes words.old words.new (λ word. IsNumber word 1 16 b) × (IsOut b before → ⊥)) }
    ensures err { (before : List Act) → Tells batches.now.out before → IfErr result (FaultAt before FreeBatch words.old) }
{
    let batch = take_number(words, 1, LAST_BATCH)?;
    if batches.is_out(batch) {
        return Err(LineFault::Batch);
    }
    Ok(batch)
}

// A batch that is outstanding.
pub(crate) fn take_held_batch(words: &mut Parts<'_>, batches: &Batches) -> Result<u32, LineFault>
    ensures ok { (before : List Act) → Tells batches.now.out before → IfOk result (λ b. Takes words.old words.new (λ word. IsNumber word 1 16 b) × IsOut b before) }
    ensures err { (before : List Act) → Tells batches.now.out before → IfErr result (FaultAt before HeldBatch words.old) }
{
    let batch = take_number(words, 1, LAST_BATCH)?;
    if !batches.is_out(batch) {
        return Err(LineFault::Batch);
    }
    Ok(batch)
}
