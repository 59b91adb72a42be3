// An enciphered key file.

ghost use Rattle.std.specs.Prelude.{◌≡◌, Ok, Err, MatchResult};
ghost use Rattle.aes_core.specs.Cipher.{AreBytes};
ghost use Rattle.key_file.specs.Salted.{Deciphers, IsSalted};

use crate::derivation::{KeyDigest, derive};
use crate::fault::KeyFault;
use aes_core::{BlockKey, PadFault, cbc_pad_decrypt};
use std::alloc::Global;

// A text in memory is a list of bytes.
fn known_bytes(text: &[u8])
    ensures { AreBytes text.now }
{
    let _ = text.len();
}

/// The text of an enciphered file, as `openssl enc -aes-256-cbc` writes it with `-md sha1` or
/// `-md sha256` and without `-pbkdf2`: `Salted__`, 8 bytes of salt, and the padded text in CBC.
///
/// # Errors
/// In this order: `ShortSalted(n)` exactly where the file has n bytes, fewer than 16;
/// `CipherLength(n)` exactly where n bytes follow the salt and n is no positive multiple of 16;
/// `Padding` exactly where the password, the digest and the salt give no text; `OutOfMemory`.
pub fn read_salted(
    alloc: Global,
    bytes: &[u8],
    password: &[u8],
    digest: KeyDigest,
) -> Result<Vec<u8>, KeyFault>
    requires { IsSalted bytes.now }
    ensures { MatchResult result (λ text. Deciphers digest password.now bytes.now (Ok text.items)) (λ fault. Deciphers digest password.now bytes.now (Err fault)) }
{
    if bytes.len() < 16 {
        return Err(KeyFault::ShortSalted(bytes.len()));
    }
    let mut salt = [0; 8];
    salt.copy_from_slice(&bytes[8..16]);
    let (key, iv) = derive(digest, password, &salt);
    let Some(key) = BlockKey::new(&key) else {
        unreachable!()
    };
    match cbc_pad_decrypt(alloc, &key, &iv, &bytes[16..]) {
        Ok(text) => {
            known_bytes(&text);
            Ok(text)
        }
        Err(PadFault::Length(n)) => Err(KeyFault::CipherLength(n)),
        Err(PadFault::Padding) => Err(KeyFault::Padding),
        Err(PadFault::OutOfMemory) => Err(KeyFault::OutOfMemory),
    }
}
