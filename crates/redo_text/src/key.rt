// What blocks are ciphered with, and their numbers.
ghost use Rattle.std.specs.Prelude.{◌≡◌};
ghost use Rattle.redo_text.specs.Block.{log_iv};

use aes_core::Algorithm;

/// The greatest number up to which the log goes: a mini-transaction whose first block is `first` and
/// that has n blocks must have `first + n` at most this.
pub const LAST_BLOCK: u64 = 34_359_738_368;

/// The key that the bodies of ring blocks are ciphered with.
#[derive(Clone, Copy, PartialEq, Eq)]
pub struct RedoKey {
    /// The version of the key, from 1 on.
    pub version: u32,
    /// The local key, made of the versioned key and the log's salt.
    pub local: [u8; 16],
    /// The mode of the store.
    pub algorithm: Algorithm,
}

// The IV of a block, or its first counter.
#[inline(always)]
#[tactic(auto, unfolding(crate::specs::Block::log_iv))]
pub(crate) fn log_iv(number: u64) -> [u8; 16]
    ensures { result ≡ log_iv number }
{
    let n = number.to_le_bytes();
    [
        0xf0, 0xff, 0xff, 0xff, 0, 0, 0, 0, n[0], n[1], n[2], n[3], n[4], n[5], n[6], n[7],
    ]
}
