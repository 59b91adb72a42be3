// The cipher of an event, which is this project's profile of MariaDB's.

ghost use Rattle.std.specs.Prelude.{◌≡◌, ◌+◌, ◌≤◌, ℕ, List, ◌++◌, length, take, drop};
ghost use Rattle.aes_core.specs.Modes.{cbc_tail, uncbc_tail};
ghost use Rattle.byte_list.specs.Bytes.{AreBytes, range};
ghost use Rattle.binlog_text.specs.Cipher.{deciphered_event, enciphered_event, event_iv, with_length, without_length};

use aes_core::{BlockKey, cbc_tail_decrypt, cbc_tail_encrypt};
use byte_list::fields::put;

// The IV of an event.
fn event_iv(nonce: &[u8; 12], place: u32) -> [u8; 16]
    ensures { result ≡ event_iv nonce.now place }
{
    let mut iv = [0; 16];
    iv[..12].copy_from_slice(nonce);
    iv[12..].copy_from_slice(&place.to_le_bytes());
    iv
}

// The four bytes from `at` on.
#[inline(always)]
fn four_at(bytes: &[u8], at: usize) -> [u8; 4]
    requires { at + 4 ≤ length bytes.now }
    ensures { result ≡ range at 4 bytes.now }
{
    let mut field = [0; 4];
    field.copy_from_slice(&bytes[at..at + 4]);
    field
}

// Copies the four time bytes over the length.
fn hide_length(event: &mut [u8])
    requires { 19 ≤ length event.old }
    ensures { event.new ≡ take 4 event.old ++ without_length event.old }
{
    let time = four_at(event, 0);
    put(event, 9, &time);
}

// Moves what stands at the length's place to the front, and puts the length there.
fn show_length(event: &mut [u8], bytes: &[u8; 4])
    requires { 19 ≤ length event.old }
    ensures { event.new ≡ with_length (drop 4 event.old) bytes.now }
{
    let moved = four_at(event, 9);
    put(event, 0, &moved);
    put(event, 9, bytes);
}

// Enciphers bytes 4 to the end.
fn encipher_rest(key: &BlockKey, iv: &[u8; 16], event: &mut [u8])
    requires { 19 ≤ length event.old }
    ensures { drop 4 event.new ≡ cbc_tail key.now iv.now (drop 4 event.old) }
{
    cbc_tail_encrypt(key, iv, &mut event[4..]);
}

// Deciphers bytes 4 to the end.
fn decipher_rest(key: &BlockKey, iv: &[u8; 16], event: &mut [u8])
    requires { 19 ≤ length event.old }
    ensures value { drop 4 event.new ≡ uncbc_tail key.now iv.now (drop 4 event.old) }
    ensures inverse { cbc_tail key.now iv.now (drop 4 event.new) ≡ drop 4 event.old }
    ensures undoes { (p : List ℕ) → AreBytes p → drop 4 event.old ≡ cbc_tail key.now iv.now p → drop 4 event.new ≡ p }
{
    cbc_tail_decrypt(key, iv, &mut event[4..]);
}

/// Enciphers an event in place, `place` being where it begins in the file, modulo 2^32 (this project's
/// profile of MariaDB's binary log encryption). The time bytes are copied over the length, in bytes 9
/// to 13; bytes 4 to the end are enciphered in CBC with tail under the IV of nonce and place; cipher
/// bytes 9 to 13 move to the front, and the length is put in clear at byte 9. The event has at least
/// 19 bytes, and its length field is their number.
pub fn encipher_event(key: &BlockKey, nonce: &[u8; 12], place: u32, event: &mut [u8])
    requires { 19 ≤ length event.old }
    ensures { event.new ≡ enciphered_event key.now nonce.now place event.old }
{
    let iv = event_iv(nonce, place);
    let bytes = four_at(event, 9);
    hide_length(event);
    encipher_rest(key, &iv, event);
    show_length(event, &bytes);
}

/// Deciphers an event in place: what it leaves there enciphers to what was there, and what
/// [`encipher_event`] enciphered under this key, nonce and place comes back.
pub fn decipher_event(key: &BlockKey, nonce: &[u8; 12], place: u32, event: &mut [u8])
    requires { 19 ≤ length event.old }
    ensures value { event.new ≡ deciphered_event key.now nonce.now place event.old }
    ensures inverse { enciphered_event key.now nonce.now place event.new ≡ event.old }
    ensures undoes { (plain : List ℕ) → AreBytes plain → 19 ≤ length plain → event.old ≡ enciphered_event key.now nonce.now place plain → event.new ≡ plain }
{
    let iv = event_iv(nonce, place);
    let bytes = four_at(event, 9);
    hide_length(event);
    decipher_rest(key, &iv, event);
    show_length(event, &bytes);
}
