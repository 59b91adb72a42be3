// The modes that a store can be kept in.

ghost use Rattle.std.specs.Prelude.{◌≡◌, ℕ, List};
ghost use Rattle.aes_core.specs.Cipher.{AreBytes};

use crate::key::BlockKey;
use crate::modes::{cbc_tail_decrypt, cbc_tail_encrypt, ctr_apply};

/// The mode that texts of a store are enciphered in: AES_CBC or AES_CTR of the MariaDB manual's
/// `file_key_management_encryption_algorithm`.
#[derive(Clone, Copy, Debug, PartialEq, Eq)]
pub enum Algorithm {
    /// CBC, with a tail where the bytes are no whole blocks.
    Cbc,
    /// CTR, the IV being the counter of the first block.
    Ctr,
}

impl Algorithm {
    ghost use Rattle.aes_core.specs.Algorithm.{ciphered, deciphered};

    /// Enciphers bytes of any number in place.
    pub fn encrypt(self, key: &BlockKey, iv: &[u8; 16], bytes: &mut [u8])
        ensures { bytes.new ≡ ciphered self key.now iv.now bytes.old }
    {
        match self {
            Algorithm::Cbc => cbc_tail_encrypt(key, iv, bytes),
            Algorithm::Ctr => ctr_apply(key, iv, bytes),
        }
    }

    /// Deciphers bytes of any number in place: what it leaves there enciphers to what was there, and
    /// what [`Algorithm::encrypt`] enciphered under this key and IV comes back.
    pub fn decrypt(self, key: &BlockKey, iv: &[u8; 16], bytes: &mut [u8])
        ensures value { bytes.new ≡ deciphered self key.now iv.now bytes.old }
        ensures inverse { ciphered self key.now iv.now bytes.new ≡ bytes.old }
        ensures undoes { (p : List ℕ) → AreBytes p → bytes.old ≡ ciphered self key.now iv.now p → bytes.new ≡ p }
    {
        match self {
            Algorithm::Cbc => cbc_tail_decrypt(key, iv, bytes),
            Algorithm::Ctr => ctr_apply(key, iv, bytes),
        }
    }
}
