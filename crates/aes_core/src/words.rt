// AES by four tables of columns each way, and four for the last round: a round is four reads a
// column. A column is a word whose lowest byte is its first row.

ghost use Rattle.std.specs.Prelude.{◌≡◌, ℕ, ◌+◌, ◌*◌, ◌<◌, ◌≤◌, [], ◌∷◌, length, take, drop};
ghost use Rattle.std.specs.Int.{byte_at, to_le_bytes, w32, w128};
ghost use Rattle.aes_core.specs.Field.{sub_byte, inv_sub_byte};
ghost use Rattle.aes_core.specs.Cipher.{bytes_of, circulant_times, decrypted_by, encrypted_by, mix_columns, round_key, shift_rows, state_of, sub_bytes, inv_mix_columns, inv_shift_rows, inv_sub_bytes, xored};

use crate::plain::inv_sub_byte;
use crate::tables::{INV_ROUNDS, LAST, ROUNDS};

// A round. The four bytes of a word are looked up before those of the next, and added to four columns
// that begin with the key, so that all of it fits in the registers.
#[inline(always)]
fn round(w: [u32; 4], k: &[u32]) -> [u32; 4]
    requires { length k.now ≡ 4 }
    ensures { state_of result ≡ xored (mix_columns (shift_rows (sub_bytes (state_of w)))) (state_of k.now) }
{
    let [a, b, c, d] = w;
    let p = ROUNDS[0][(a & 0xff) as usize] ^ k[0];
    let s = ROUNDS[1][((a >> 8) & 0xff) as usize] ^ k[3];
    let r = ROUNDS[2][((a >> 16) & 0xff) as usize] ^ k[2];
    let q = ROUNDS[3][(a >> 24) as usize] ^ k[1];
    let q = ROUNDS[0][(b & 0xff) as usize] ^ q;
    let p = ROUNDS[1][((b >> 8) & 0xff) as usize] ^ p;
    let s = ROUNDS[2][((b >> 16) & 0xff) as usize] ^ s;
    let r = ROUNDS[3][(b >> 24) as usize] ^ r;
    let r = ROUNDS[0][(c & 0xff) as usize] ^ r;
    let q = ROUNDS[1][((c >> 8) & 0xff) as usize] ^ q;
    let p = ROUNDS[2][((c >> 16) & 0xff) as usize] ^ p;
    let s = ROUNDS[3][(c >> 24) as usize] ^ s;
    let s = ROUNDS[0][(d & 0xff) as usize] ^ s;
    let r = ROUNDS[1][((d >> 8) & 0xff) as usize] ^ r;
    let q = ROUNDS[2][((d >> 16) & 0xff) as usize] ^ q;
    let p = ROUNDS[3][(d >> 24) as usize] ^ p;
    [p, q, r, s]
}

// The last round, which has no MixColumns, in the same order.
#[inline(always)]
fn last_round(w: [u32; 4], k: &[u32]) -> [u32; 4]
    requires { length k.now ≡ 4 }
    ensures { state_of result ≡ xored (shift_rows (sub_bytes (state_of w))) (state_of k.now) }
{
    let [a, b, c, d] = w;
    let p = LAST[0][(a & 0xff) as usize] ^ k[0];
    let s = LAST[1][((a >> 8) & 0xff) as usize] ^ k[3];
    let r = LAST[2][((a >> 16) & 0xff) as usize] ^ k[2];
    let q = LAST[3][(a >> 24) as usize] ^ k[1];
    let q = LAST[0][(b & 0xff) as usize] ^ q;
    let p = LAST[1][((b >> 8) & 0xff) as usize] ^ p;
    let s = LAST[2][((b >> 16) & 0xff) as usize] ^ s;
    let r = LAST[3][(b >> 24) as usize] ^ r;
    let r = LAST[0][(c & 0xff) as usize] ^ r;
    let q = LAST[1][((c >> 8) & 0xff) as usize] ^ q;
    let p = LAST[2][((c >> 16) & 0xff) as usize] ^ p;
    let s = LAST[3][(c >> 24) as usize] ^ s;
    let s = LAST[0][(d & 0xff) as usize] ^ s;
    let r = LAST[1][((d >> 8) & 0xff) as usize] ^ r;
    let q = LAST[2][((d >> 16) & 0xff) as usize] ^ q;
    let p = LAST[3][(d >> 24) as usize] ^ p;
    [p, q, r, s]
}

// A block as four words.
#[inline(always)]
pub(crate) fn four_words(s: &[u8]) -> [u32; 4]
    requires { length s.now ≡ 16 }
    ensures { state_of result ≡ s.now }
{
    [
        u32::from_le_bytes([s[0], s[1], s[2], s[3]]),
        u32::from_le_bytes([s[4], s[5], s[6], s[7]]),
        u32::from_le_bytes([s[8], s[9], s[10], s[11]]),
        u32::from_le_bytes([s[12], s[13], s[14], s[15]]),
    ]
}

// A block as four words, with four words added.
#[inline(always)]
fn load(s: &[u8], k: &[u32]) -> [u32; 4]
    requires whole { length s.now ≡ 16 }
    requires key { length k.now ≡ 4 }
    ensures { state_of result ≡ xored s.now (state_of k.now) }
{
    [
        u32::from_le_bytes([s[0], s[1], s[2], s[3]]) ^ k[0],
        u32::from_le_bytes([s[4], s[5], s[6], s[7]]) ^ k[1],
        u32::from_le_bytes([s[8], s[9], s[10], s[11]]) ^ k[2],
        u32::from_le_bytes([s[12], s[13], s[14], s[15]]) ^ k[3],
    ]
}

#[inline(always)]
pub(crate) fn store(w: [u32; 4]) -> [u8; 16]
    ensures { result ≡ state_of w }
{
    let a = w[0].to_le_bytes();
    let b = w[1].to_le_bytes();
    let c = w[2].to_le_bytes();
    let d = w[3].to_le_bytes();
    [
        a[0], a[1], a[2], a[3], b[0], b[1], b[2], b[3], c[0], c[1], c[2], c[3], d[0], d[1], d[2],
        d[3],
    ]
}

#[inline(always)]
fn add_key(w: [u32; 4], k: &[u32]) -> [u32; 4]
    requires { length k.now ≡ 4 }
    ensures { state_of result ≡ xored (state_of w) (state_of k.now) }
{
    let [a, b, c, d] = w;
    [a ^ k[0], b ^ k[1], c ^ k[2], d ^ k[3]]
}

#[inline(always)]
fn encrypt_words(keys: &[u32], rounds: usize, first: [u32; 4]) -> [u32; 4]
    requires some { 1 ≤ rounds }
    requires room { 4 * (rounds + 1) ≤ length keys.now }
    ensures { state_of result ≡ encrypted_by (bytes_of keys.now) rounds (state_of first) }
{
    let mut w = add_key(first, &keys[0..4]);
    for r in 1..rounds {
        let next = round(w, &keys[4 * r..4 * r + 4]);
        w = next;
    }
    last_round(w, &keys[4 * rounds..4 * rounds + 4])
}

// A number of sixteen bytes into four words, the lowest first.
#[inline(always)]
fn split(n: u128) -> [u32; 4]
    ensures { state_of result ≡ to_le_bytes w128 n }
{
    [
        (n & 0xffff_ffff) as u32,
        ((n >> 32) & 0xffff_ffff) as u32,
        ((n >> 64) & 0xffff_ffff) as u32,
        (n >> 96) as u32,
    ]
}

// And back.
#[inline(always)]
fn join(w: [u32; 4]) -> u128
    ensures { to_le_bytes w128 result ≡ state_of w }
{
    let [a, b, c, d] = w;
    (a as u128) | ((b as u128) << 32) | ((c as u128) << 64) | ((d as u128) << 96)
}

// A block as one number, its first byte the lowest.
#[inline(always)]
pub(crate) fn number_of(s: &[u8]) -> u128
    requires { length s.now ≡ 16 }
    ensures { to_le_bytes w128 result ≡ s.now }
{
    join(four_words(s))
}

// Enciphers a block that is one number. Inlined, so that nothing goes through memory from block to
// block; and a number, since four words that go round a loop are put into a vector, out of which the
// tables' places have to be taken again.
#[inline(always)]
pub(crate) fn encrypt_number(keys: &[u32], rounds: usize, n: u128) -> u128
    requires some { 1 ≤ rounds }
    requires room { 4 * (rounds + 1) ≤ length keys.now }
    ensures { to_le_bytes w128 result ≡ encrypted_by (bytes_of keys.now) rounds (to_le_bytes w128 n) }
{
    join(encrypt_words(keys, rounds, split(n)))
}

#[inline(never)]
pub(crate) fn encrypt(keys: &[u32], rounds: usize, s: &mut [u8; 16])
    requires some { 1 ≤ rounds }
    requires room { 4 * (rounds + 1) ≤ length keys.now }
    ensures { s.new ≡ encrypted_by (bytes_of keys.now) rounds s.old }
{
    let first = four_words(&s[0..16]);
    let end = encrypt_words(keys, rounds, first);
    let block = store(end);
    *s = block;
}

// A column on the way back.
#[inline(always)]
fn inv_column(a: u32, b: u32, c: u32, d: u32, key: u32) -> u32
    ensures { to_le_bytes w32 result
        ≡ xored (circulant_times 14 11 13 9 (inv_sub_byte (byte_at 0 a)) (inv_sub_byte (byte_at 1 b)) (inv_sub_byte (byte_at 2 c)) (inv_sub_byte (byte_at 3 d))) (to_le_bytes w32 key) }
{
    INV_ROUNDS[0][(a & 0xff) as usize]
        ^ INV_ROUNDS[1][((b >> 8) & 0xff) as usize]
        ^ INV_ROUNDS[2][((c >> 16) & 0xff) as usize]
        ^ INV_ROUNDS[3][(d >> 24) as usize]
        ^ key
}

#[inline(always)]
fn inv_round(w: [u32; 4], k: &[u32]) -> [u32; 4]
    requires { length k.now ≡ 4 }
    ensures { state_of result ≡ xored (inv_mix_columns (inv_sub_bytes (inv_shift_rows (state_of w)))) (state_of k.now) }
{
    let [a, b, c, d] = w;
    [
        inv_column(a, d, c, b, k[0]),
        inv_column(b, a, d, c, k[1]),
        inv_column(c, b, a, d, k[2]),
        inv_column(d, c, b, a, k[3]),
    ]
}

#[inline(always)]
fn first_column(a: u32, b: u32, c: u32, d: u32, key: u32) -> u32
    ensures { to_le_bytes w32 result
        ≡ xored (inv_sub_bytes (byte_at 0 a ∷ byte_at 1 b ∷ byte_at 2 c ∷ byte_at 3 d ∷ [])) (to_le_bytes w32 key) }
{
    u32::from_le_bytes([
        inv_sub_byte((a & 0xff) as u8),
        inv_sub_byte(((b >> 8) & 0xff) as u8),
        inv_sub_byte(((c >> 16) & 0xff) as u8),
        inv_sub_byte((d >> 24) as u8),
    ]) ^ key
}

#[inline(always)]
fn first_round(w: [u32; 4], k: &[u32]) -> [u32; 4]
    requires { length k.now ≡ 4 }
    ensures { state_of result ≡ xored (inv_sub_bytes (inv_shift_rows (state_of w))) (state_of k.now) }
{
    let [a, b, c, d] = w;
    [
        first_column(a, d, c, b, k[0]),
        first_column(b, a, d, c, k[1]),
        first_column(c, b, a, d, k[2]),
        first_column(d, c, b, a, k[3]),
    ]
}

// `back` has InvMixColumns of each round's key.
#[inline(never)]
pub(crate) fn decrypt(keys: &[u32], back: &[u32], rounds: usize, s: &mut [u8; 16])
    requires some { 1 ≤ rounds }
    requires room { 4 * (rounds + 1) ≤ length keys.now }
    requires back_room { 4 * (rounds + 1) ≤ length back.now }
    requires unmixed { (r : ℕ) → r ≤ rounds → state_of (take 4 (drop (4 * r) back.now)) ≡ inv_mix_columns (round_key (bytes_of keys.now) r) }
    ensures { s.new ≡ decrypted_by (bytes_of keys.now) rounds s.old }
{
    let mut w = load(&s[0..16], &keys[4 * rounds..4 * rounds + 4]);
    for n in 1..rounds {
        let r = rounds - n;
        let next = inv_round(w, &back[4 * r..4 * r + 4]);
        w = next;
    }
    let end = first_round(w, &keys[0..4]);
    let block = store(end);
    *s = block;
}
