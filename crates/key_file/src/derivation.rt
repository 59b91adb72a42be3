// The key derivation of `openssl enc` without `-pbkdf2`.

ghost use Rattle.std.specs.Prelude.{◌≡◌, ◌++◌, ◌+◌, length};
ghost use Rattle.sha1.specs.Sha1.{sha1};
ghost use Rattle.sha2.specs.Sha256.{sha256};
ghost use Rattle.key_file.specs.declared.derivation.KeyDigest.TheVariants as digests;
ghost use Rattle.key_file.specs.Derivation.{derived_iv, derived_key};

use sha1::Sha1;
use sha2::{Digest, Sha256};

/// The digest that a key is derived with, as `-md` of `openssl enc` names it.
#[derive(Clone, Copy, Debug, PartialEq, Eq)]
pub enum KeyDigest {
    /// SHA-1 (FIPS 180-4).
    Sha1,
    /// SHA-256 (FIPS 180-4).
    Sha256,
}

// The next digest: of the one before, the password and the salt.
fn next_sha1(before: &[u8], password: &[u8], salt: &[u8; 8]) -> [u8; 20]
    ensures { result ≡ sha1 (before.now ++ password.now ++ salt.now) }
{
    let mut hasher = Sha1::new();
    hasher.update(before);
    hasher.update(password);
    hasher.update(salt);
    hasher.finalize()
}

fn next_sha256(before: &[u8], password: &[u8], salt: &[u8; 8]) -> [u8; 32]
    ensures { result ≡ sha256 (before.now ++ password.now ++ salt.now) }
{
    let mut hasher = Sha256::new();
    hasher.update(before);
    hasher.update(password);
    hasher.update(salt.as_slice());
    hasher.finalize()
}

// Fills a buffer with two parts.
fn fill(into: &mut [u8], front: &[u8], rest: &[u8])
    requires { length into.old ≡ length front.now + length rest.now }
    ensures { into.new ≡ front.now ++ rest.now }
{
    let count = front.len();
    into[..count].copy_from_slice(front);
    into[count..].copy_from_slice(rest);
}

// With digests of 20 bytes the key ends inside the second and the IV inside the third.
fn derive_sha1(password: &[u8], salt: &[u8; 8]) -> ([u8; 32], [u8; 16])
    ensures key { result.0 ≡ derived_key digests.Sha1 password.now salt.now }
    ensures iv { result.1 ≡ derived_iv digests.Sha1 password.now salt.now }
{
    let first = next_sha1(&[], password, salt);
    let second = next_sha1(&first, password, salt);
    let third = next_sha1(&second, password, salt);
    let mut key = [0; 32];
    fill(&mut key, &first, &second[..12]);
    let mut iv = [0; 16];
    fill(&mut iv, &second[12..], &third[..8]);
    (key, iv)
}

// With digests of 32 bytes the key is the first, and the IV begins the second.
fn derive_sha256(password: &[u8], salt: &[u8; 8]) -> ([u8; 32], [u8; 16])
    ensures key { result.0 ≡ derived_key digests.Sha256 password.now salt.now }
    ensures iv { result.1 ≡ derived_iv digests.Sha256 password.now salt.now }
{
    let key = next_sha256(&[], password, salt);
    let second = next_sha256(&key, password, salt);
    let mut iv = [0; 16];
    iv.copy_from_slice(&second[..16]);
    (key, iv)
}

/// The key of AES-256 and the IV that `openssl enc` derives from a password and a salt: the first
/// 32 bytes and the next 16 of the digests D(1), D(2), D(3), each of the one before, the password and
/// the salt.
pub fn derive(digest: KeyDigest, password: &[u8], salt: &[u8; 8]) -> ([u8; 32], [u8; 16])
    ensures key { result.0 ≡ derived_key digest password.now salt.now }
    ensures iv { result.1 ≡ derived_iv digest password.now salt.now }
{
    match digest {
        KeyDigest::Sha1 => derive_sha1(password, salt),
        KeyDigest::Sha256 => derive_sha256(password, salt),
    }
}
