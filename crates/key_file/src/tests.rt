// The plain form, the derivation by vectors of FIPS 180, files that `openssl enc` wrote, and damage to
// both forms.

use crate::{KeyDigest, KeyFault, LoadFault, derive, load, parse_plain};
use io_core::Shelf;
use key_ring::Ring;
use std::alloc::{AllocError, Global};
use std::test::Fail;

const KEY_ONE: [u8; 16] = [0, 1, 2, 3, 4, 5, 6, 7, 8, 9, 10, 11, 12, 13, 14, 15];

const TWO_KEYS: &[u8] =
    b"# keys\n\n1;000102030405060708090a0b0c0d0e0f\n4294967295;000102030405060708090a0b0c0d0e0f1011121314151617\n";

// `printf '# keys\n1;00112233445566778899aabbccddeeff\n'`, enciphered by
// `openssl enc -aes-256-cbc -md sha1 -pass pass:correct`, and then with `-md sha256`.
const BY_SHA1: &str =
    "53616c7465645f5f6317bd5e74c0b71dc056a1fc10c8d40eb0ab2286604b186f8990e1f9725f0ecde2cdb6f0318c01df0b104be4342b559577386c1712da379e";

const BY_SHA256: &str =
    "53616c7465645f5fba55cc8b2aee3c6ece9ecd74e4394a0eb49c226e44f6701e873445330aeaeb563981e9882e6927e6655ef8e6dfa64319fac6df1b02ee4f18";

// What a plain text gives: how many keys, or the fault.
fn outcome(alloc: Global, text: &[u8]) -> Result<usize, KeyFault> {
    match parse_plain(alloc, text) {
        Ok(keys) => Ok(keys.len()),
        Err(fault) => Err(fault),
    }
}

// A library of one file.
fn shelf_of(alloc: Global, name: &str, bytes: &[u8]) -> Result<Shelf, AllocError> {
    let mut files = Vec::new(alloc);
    files.push((
        String::from_str(alloc, name)?,
        Vec::from_slice(alloc, bytes)?,
    ))?;
    Ok(Shelf::new(files, Vec::new(alloc)))
}

// What the key file `keys1` gives in that library.
fn loaded(
    alloc: Global,
    shelf: &mut Shelf,
    filekey: Option<&str>,
    digest: KeyDigest,
) -> Result<Ring, LoadFault> {
    let Ok(name) = String::from_str(alloc, "keys1") else {
        return Err(LoadFault::OutOfMemory);
    };
    load(alloc, shelf, &[name], filekey, digest)
}

// The fault of the key file `keys1` with these bytes.
fn fault_of(
    alloc: Global,
    bytes: &[u8],
    filekey: Option<&str>,
    digest: KeyDigest,
) -> Result<Option<KeyFault>, Fail> {
    let mut shelf = shelf_of(alloc, "keys1", bytes)?;
    match loaded(alloc, &mut shelf, filekey, digest) {
        Ok(_) => Ok(None),
        Err(LoadFault::KeyFile { index: 0, fault }) => Ok(Some(fault)),
        Err(fault) => Err(Fail::from(fault)),
    }
}

#[test]
fn plain_files_give_keys_or_the_first_fault(rt: HostRuntime) -> Result<(), Fail> {
    let alloc = rt.alloc();
    assert_eq!(rt; outcome(alloc, TWO_KEYS), Ok(2));
    let five = format!(in alloc;
        "# keys\n\n1;000102030405060708090a0b0c0d0e0f\n4294967295;000102030405060708090a0b0c0d0e0f1011121314151617\n4294967296;000102030405060708090a0b0c0d0e0f"
    )?;
    assert_eq!(rt; outcome(alloc, five.as_bytes()), Err(KeyFault::IdRange(5)));
    for (text, fault) in [
        (
            "1;000102030405060708090a0b0c0d0e0",
            KeyFault::KeyLength(1, 31),
        ),
        ("", KeyFault::NoKeyOne),
        ("0;000102030405060708090a0b0c0d0e0f", KeyFault::IdRange(1)),
        ("\n \t key", KeyFault::NoDigits(2)),
        (
            "1 ;000102030405060708090a0b0c0d0e0f",
            KeyFault::NoSemicolon(1),
        ),
        ("2;000102030405060708090a0b0c0d0e0f", KeyFault::NoKeyOne),
    ] {
        assert_eq!(rt; outcome(alloc, text.as_bytes()), Err(fault), "{text:?}");
    }
    Ok(())
}

#[test]
fn the_last_line_for_an_id_counts(rt: HostRuntime) -> Result<(), Fail> {
    let keys = parse_plain(
        rt.alloc(),
        b"1;ffffffffffffffffffffffffffffffff\n \t01;000102030405060708090A0B0C0D0E0F x",
    )?;
    assert_eq!(rt; keys.len(), 1);
    assert_eq!(rt; keys.get(0).id, 1);
    assert!(rt; keys.get(0).key.bytes() == KEY_ONE.as_slice());
    Ok(())
}

#[test]
fn keys_are_derived_with_both_digests(rt: HostRuntime) -> Result<(), Fail> {
    let password = b"abcdbcdecdefdefgefghfghighijhijkijkljklmklmnlmno";
    let (key, _) = derive(KeyDigest::Sha1, password, b"mnopnopq");
    let mut want = [0; 20];
    hex::decode_to_slice("84983e441c3bd26ebaae4aa1f95129e5e54670f1", &mut want)?;
    assert!(rt; &key[..20] == want.as_slice());
    let (key, _) = derive(KeyDigest::Sha256, password, b"mnopnopq");
    let mut want = [0; 32];
    hex::decode_to_slice(
        "248d6a61d20638b8e5c026930c3e6039a33ce45964ff2167f6ecedd419db06c1",
        &mut want,
    )?;
    assert!(rt; key == want);
    Ok(())
}

#[test]
fn files_of_openssl_load(rt: HostRuntime) -> Result<(), Fail> {
    let alloc = rt.alloc();
    let key = hex::decode(alloc, "00112233445566778899aabbccddeeff")?;
    for (text, digest) in [(BY_SHA1, KeyDigest::Sha1), (BY_SHA256, KeyDigest::Sha256)] {
        let bytes = hex::decode(alloc, text)?;
        let mut shelf = shelf_of(alloc, "keys1", &bytes)?;
        let ring = loaded(alloc, &mut shelf, Some("correct"), digest)?;
        assert!(rt; ring.get(1, 1) == Some(key.as_slice()));
    }
    Ok(())
}

#[test]
fn other_secrets_and_shorter_files_have_their_faults(rt: HostRuntime) -> Result<(), Fail> {
    let alloc = rt.alloc();
    let mut bytes = hex::decode(alloc, BY_SHA1)?;
    for (filekey, digest, fault) in [
        (None, KeyDigest::Sha1, KeyFault::NoSecret),
        (Some(""), KeyDigest::Sha1, KeyFault::BadSecret(0)),
        (Some("wrong"), KeyDigest::Sha1, KeyFault::Padding),
        (Some("correct"), KeyDigest::Sha256, KeyFault::Padding),
    ] {
        assert_eq!(rt; fault_of(alloc, &bytes, filekey, digest)?, Some(fault));
    }
    bytes.truncate(40);
    let cut = fault_of(alloc, &bytes, Some("correct"), KeyDigest::Sha1)?;
    assert_eq!(rt; cut, Some(KeyFault::CipherLength(24)));
    bytes.truncate(15);
    let cut = fault_of(alloc, &bytes, Some("correct"), KeyDigest::Sha1)?;
    assert_eq!(rt; cut, Some(KeyFault::ShortSalted(15)));
    Ok(())
}

// A library of the key file and of a secret.
fn shelf_with_secret(alloc: Global, bytes: &[u8], secret: &[u8]) -> Result<Shelf, AllocError> {
    let mut files = Vec::new(alloc);
    files.push((
        String::from_str(alloc, "keys1")?,
        Vec::from_slice(alloc, bytes)?,
    ))?;
    files.push((
        String::from_str(alloc, "secret")?,
        Vec::from_slice(alloc, secret)?,
    ))?;
    Ok(Shelf::new(files, Vec::new(alloc)))
}

#[test]
fn a_filekey_may_name_the_file_of_the_password(rt: HostRuntime) -> Result<(), Fail> {
    let alloc = rt.alloc();
    let bytes = hex::decode(alloc, BY_SHA256)?;
    let mut shelf = shelf_with_secret(alloc, &bytes, b"correct\r\n")?;
    let ring = loaded(alloc, &mut shelf, Some("FILE:secret"), KeyDigest::Sha256)?;
    assert_eq!(rt; ring.latest(1), Some(1));
    let mut shelf = shelf_with_secret(alloc, &bytes, b"")?;
    match loaded(alloc, &mut shelf, Some("FILE:secret"), KeyDigest::Sha256) {
        Err(LoadFault::KeyFile { index, fault }) => {
            assert_eq!(rt; (index, fault), (0, KeyFault::BadSecret(0)));
        }
        _ => panic!(rt; "no fault of the file"),
    }
    Ok(())
}

#[test]
fn damaged_files_have_named_answers(rt: HostRuntime) -> Result<(), Fail> {
    let alloc = rt.alloc();
    let salted = hex::decode(alloc, BY_SHA1)?;
    for whole in [salted.as_slice(), TWO_KEYS] {
        for n in 0..whole.len() {
            let _cut = fault_of(alloc, &whole[..n], Some("correct"), KeyDigest::Sha1)?;
            let mut other = Vec::from_slice(alloc, whole)?;
            if n < other.len() {
                other[n] ^= 0xff;
            }
            let _turned = fault_of(alloc, &other, Some("correct"), KeyDigest::Sha1)?;
        }
    }
    Ok(())
}

#[test]
fn a_library_without_the_file_names_it(rt: HostRuntime) -> Result<(), Fail> {
    let alloc = rt.alloc();
    let mut shelf = shelf_of(alloc, "keys2", TWO_KEYS)?;
    match loaded(alloc, &mut shelf, None, KeyDigest::Sha1) {
        Err(LoadFault::Missing(name)) => {
            assert!(rt; name.bytes() == b"keys1".as_slice());
        }
        _ => panic!(rt; "not missing"),
    }
    Ok(())
}
