// Key expansion, FIPS 197, 5.2.

ghost use Rattle.std.specs.Prelude.{◌≡◌, ℕ, ◌+◌, ◌-◌, ◌*◌, ◌/◌, ◌%◌, ◌<◌, ◌≤◌, true, List, length, take};
ghost use Rattle.aes_core.specs.Field.{power};
ghost use Rattle.aes_core.specs.Cipher.{IsKeyLength, changed_word, expanded, next_word, schedule};

use crate::plain;
use crate::tables::POWERS;

// Whether a key may have this many bytes.
pub(crate) fn is_key_length(n: usize) -> bool
    ensures yes { result ≡ true → IsKeyLength n }
    ensures no { IsKeyLength n → result ≡ true }
{
    n == 16 || n == 24 || n == 32
}

// The round constant of FIPS 197, counted from 0.
fn power(n: usize) -> u8
    requires { n < 10 }
    ensures { result ≡ power n }
{
    POWERS[n]
}

// Word i of the keys of a key of nk words, from the words before it.
fn next_word(nk: usize, w: &[u8], i: usize) -> [u8; 4]
    requires some { 4 ≤ nk }
    requires later { nk ≤ i }
    requires few { i < 11 * nk }
    requires room { 4 * i ≤ length w.now }
    ensures { result ≡ next_word nk w.now i }
{
    let t = [w[4 * i - 4], w[4 * i - 3], w[4 * i - 2], w[4 * i - 1]];
    let u = changed_word(nk, i, t);
    let b = 4 * (i - nk);
    [
        w[b] ^ u[0],
        w[b + 1] ^ u[1],
        w[b + 2] ^ u[2],
        w[b + 3] ^ u[3],
    ]
}

fn changed_word(nk: usize, i: usize, t: [u8; 4]) -> [u8; 4]
    requires some { 4 ≤ nk }
    requires later { nk ≤ i }
    requires few { i < 11 * nk }
    ensures { result ≡ changed_word nk i t }
{
    if i % nk == 0 {
        [
            plain::sub_byte(t[1]) ^ power(i / nk - 1),
            plain::sub_byte(t[2]),
            plain::sub_byte(t[3]),
            plain::sub_byte(t[0]),
        ]
    } else if nk == 8 && i % 8 == 4 {
        [
            plain::sub_byte(t[0]),
            plain::sub_byte(t[1]),
            plain::sub_byte(t[2]),
            plain::sub_byte(t[3]),
        ]
    } else {
        t
    }
}

// Writes the keys of the rounds after the key.
pub(crate) fn expand(keys: &mut [u8; 240], key: &[u8])
    requires { IsKeyLength (length key.now) }
    ensures { take (16 * (length key.now / 4 + 7)) keys.new ≡ schedule key.now }
{
    let nk = key.len() / 4;
    keys[0..key.len()].copy_from_slice(key);
    for i in nk..4 * nk + 28 {
        let word = next_word(nk, &keys[0..4 * i], i);
        keys[4 * i..4 * i + 4].copy_from_slice(&word);
    }
}
