// CBC over a padded text.

ghost use Rattle.std.specs.Prelude.{◌≡◌, ℕ, List, ◌-◌, ◌%◌, ◌<◌, ◌≤◌, ◌⊎◌, ◌↔◌, length, drop, take, IfOk, MatchOption, MatchResult, Ok, Err};
ghost use Rattle.aes_core.specs.Cipher.{AreBytes};
ghost use Rattle.aes_core.specs.Modes.{EndsIn, IsPadded, IsWhole, cbc_pad, padded, uncbc_tail};

use crate::key::BlockKey;
use crate::modes::{cbc_tail_decrypt, cbc_tail_encrypt};
use crate::xor::xor_with;
use std::alloc::{AllocError, Global};
use thiserror::Error;

/// Why [`cbc_pad_encrypt`] or [`cbc_pad_decrypt`] gives no text.
#[derive(Clone, Copy, Debug, PartialEq, Eq, Error)]
pub enum PadFault {
    /// There are this many bytes, which is no positive multiple of 16.
    #[error("{0} bytes are no whole blocks")]
    Length(usize),
    /// The deciphered text does not end in k bytes of value k, k from 1 to 16.
    #[error("the text does not end in padding")]
    Padding,
    /// The machine had no memory for the text.
    #[error("out of memory")]
    OutOfMemory,
}

fn padded(alloc: Global, bytes: &[u8]) -> Result<Vec<u8>, AllocError>
    ensures { IfOk result (λ v. v.items ≡ padded bytes.now) }
{
    let k = 16 - bytes.len() % 16;
    let mut out = bytes.to_vec(alloc)?;
    out.resize(bytes.len() + k, k as u8)?;
    Ok(out)
}

/// Enciphers a text of any number of bytes in CBC (SP 800-38A, 6.2), after k bytes of value k that
/// fill its last block, k from 1 to 16 (RFC 5652, 6.3). The only error is `OutOfMemory`.
pub fn cbc_pad_encrypt(
    alloc: Global,
    key: &BlockKey,
    iv: &[u8; 16],
    bytes: &[u8],
) -> Result<Vec<u8>, PadFault>
    ensures { MatchResult result (λ v. v.items ≡ cbc_pad key.now iv.now bytes.now) (λ e. e ≡ PadFault.OutOfMemory) }
{
    match padded(alloc, bytes) {
        Ok(text) => {
            let mut out = text;
            cbc_tail_encrypt(key, iv, &mut out);
            Ok(out)
        }
        Err(_) => Err(PadFault::OutOfMemory),
    }
}

// How many bytes of padding a block ends in.
fn pad_of(block: &[u8]) -> Option<usize>
    requires { length block.now ≡ 16 }
    ensures { MatchOption result ((k : ℕ) → EndsIn block.now k → ⊥) (λ k. EndsIn block.now k) }
{
    let last = block[15];
    let k = last as usize;
    if k == 0 || k > 16 {
        return None;
    }
    let pad = [last; 16];
    if block[16 - k..] == pad[..k] {
        Some(k)
    } else {
        None
    }
}

// The last block of the text, so that its padding is judged before anything is allocated.
fn last_block(key: &BlockKey, iv: &[u8; 16], bytes: &[u8]) -> [u8; 16]
    requires some { 16 ≤ length bytes.now }
    requires whole { length bytes.now % 16 ≡ 0 }
    ensures { result ≡ drop (length bytes.now - 16) (uncbc_tail key.now iv.now bytes.now) }
{
    key.known();
    let at = bytes.len() - 16;
    let mut block = [0u8; 16];
    block.copy_from_slice(&bytes[at..]);
    key.decrypt_block(&mut block);
    if at == 0 {
        xor_with(&mut block, iv);
    } else {
        xor_with(&mut block, &bytes[at - 16..at]);
    }
    block
}

// The first `keep` bytes of the text.
fn text_front(
    alloc: Global,
    key: &BlockKey,
    iv: &[u8; 16],
    bytes: &[u8],
    keep: usize,
) -> Result<Vec<u8>, AllocError>
    requires { keep ≤ length bytes.now }
    ensures { IfOk result (λ v. v.items ≡ take keep (uncbc_tail key.now iv.now bytes.now)) }
{
    let mut out = bytes.to_vec(alloc)?;
    cbc_tail_decrypt(key, iv, &mut out);
    out.truncate(keep);
    Ok(out)
}

/// Deciphers what [`cbc_pad_encrypt`] gave, and takes its padding away. Exactly what it gives of some
/// text under this key and IV is accepted. The errors, in this order: `Length(n)` exactly where the
/// number n of bytes is no positive multiple of 16; `Padding` exactly where the deciphered text does
/// not end in k bytes of value k, k from 1 to 16; `OutOfMemory`.
pub fn cbc_pad_decrypt(
    alloc: Global,
    key: &BlockKey,
    iv: &[u8; 16],
    bytes: &[u8],
) -> Result<Vec<u8>, PadFault>
    ensures accepted { IfOk result (λ v. bytes.now ≡ cbc_pad key.now iv.now v.items) }
    ensures taken { (p : List ℕ) → AreBytes p → bytes.now ≡ cbc_pad key.now iv.now p
        → MatchResult result (λ v. v.items ≡ p) (λ e. e ≡ PadFault.OutOfMemory) }
    ensures length { (n : ℕ) → result ≡ Err (PadFault.Length n) ↔ (length bytes.now ≡ n) × ((n ≡ 0) ⊎ (0 < n % 16)) }
    ensures padding { result ≡ Err PadFault.Padding ↔ IsWhole bytes.now × (IsPadded (uncbc_tail key.now iv.now bytes.now) → ⊥) }
    ensures memory { result ≡ Err PadFault.OutOfMemory → IsWhole bytes.now × IsPadded (uncbc_tail key.now iv.now bytes.now) }
{
    key.known();
    let n = bytes.len();
    if n == 0 || n % 16 != 0 {
        return Err(PadFault::Length(n));
    }
    let last = last_block(key, iv, bytes);
    let Some(k) = pad_of(&last) else {
        return Err(PadFault::Padding);
    };
    match text_front(alloc, key, iv, bytes, n - k) {
        Ok(out) => Ok(out),
        Err(_) => Err(PadFault::OutOfMemory),
    }
}
