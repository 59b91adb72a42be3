// The bytes of an AES key.

ghost use Rattle.std.specs.Prelude.{◌≡◌, ℕ, List, length, take, MatchOption, IfOk};
ghost use Rattle.aes_core.specs.Cipher.{IsKeyLength};

use std::alloc::AllocError;
use std::marker::Model;

/// The 16, 24 or 32 bytes of an AES key (FIPS 197, section 5). It takes no memory, and has no
/// `Debug`, so that no message shows a key.
#[derive(Drop)]
pub struct KeyBytes {
    // The key first, then zeros.
    padded: [u8; 32],
    len: usize,
}

impl Model for KeyBytes {
    ghost Value = { List ℕ };

    ghost view = { λ k. take k.len k.padded };

    ghost invariant = { λ k. IsKeyLength k.len };
}

impl KeyBytes {
    /// The key of these bytes. There is none exactly where their number is not 16, 24 or 32.
    pub fn new(key: &[u8]) -> Option<KeyBytes>
        ensures { MatchOption result (¬ IsKeyLength (length key.now)) (λ k. (k ≡ key.now) × IsKeyLength (length key.now)) }
    {
        let len = key.len();
        if len != 16 && len != 24 && len != 32 {
            return None;
        }
        let mut padded = [0; 32];
        padded[..len].copy_from_slice(key);
        Some(KeyBytes { padded, len })
    }

    /// The bytes, lent.
    pub fn bytes(&self) -> &[u8]
        ensures bytes { result.now ≡ self.now }
        ensures key_length { IsKeyLength (length self.now) }
    {
        &self.padded[..self.len]
    }
}

impl Clone for KeyBytes {
    ghost is_clone = { λ key copy. copy ≡ key };

    fn clone(&self) -> Result<KeyBytes, AllocError>
        ensures { IfOk result (λ copy. copy ≡ self.now) }
    {
        Ok(KeyBytes {
            padded: self.padded,
            len: self.len,
        })
    }
}
