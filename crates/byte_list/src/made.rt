// Bytes that are made.
ghost use Rattle.std.specs.Prelude.{◌≡◌, IfOk};
ghost use Rattle.byte_list.specs.Bytes.{put, zeros};

use std::alloc::{AllocError, Global};

/// `n` zero bytes.
///
/// # Errors
/// Want of memory alone.
#[tactic(auto, unfolding(crate::specs::Bytes::zeros))]
pub fn zero_bytes(alloc: Global, n: usize) -> Result<Vec<u8>, AllocError>
    ensures { IfOk result (λ v. v.items ≡ zeros n) }
{
    vec![in alloc; 0u8; n]
}

/// A copy of `bytes` with `new` in place of those from `at` on, wherever that is: past the end of
/// `bytes` it is put behind them, and it may go on beyond them.
///
/// # Errors
/// Want of memory alone.
pub fn copy_with(alloc: Global, bytes: &[u8], at: usize, new: &[u8]) -> Result<Vec<u8>, AllocError>
    ensures { IfOk result (λ v. v.items ≡ put at new.now bytes.now) }
{
    let from = at.min(bytes.len());
    let mut copy = bytes[..from].to_vec(alloc)?;
    copy.extend_from_slice(new)?;
    let end = at.saturating_add(new.len());
    if end < bytes.len() {
        copy.extend_from_slice(&bytes[end..])?;
    }
    Ok(copy)
}
