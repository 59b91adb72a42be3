// Rows of the standards and of outside tools, and the bodies by tables and lanes beside plain ones.

use crate::plain::PlainKey;
use crate::{
    Algorithm, BlockKey, PadFault, cbc_pad_decrypt, cbc_pad_encrypt, cbc_tail_decrypt,
    cbc_tail_encrypt, ctr_apply,
};
use std::alloc::Global;
use std::process::Abort;

// 00 01 02 .. 1f.
fn counted() -> [u8; 32] {
    let mut bytes = [0u8; 32];
    for (i, b) in bytes.iter_mut().enumerate() {
        *b = i as u8;
    }
    bytes
}

// The example vectors of FIPS 197, appendix C, for each length of key; and what 10,000 encryptions in
// a row make of a zero block, as `head -c 160000 /dev/zero | openssl enc -aes-128-cbc -nopad -K
// 000102030405060708090a0b0c0d0e0f -iv 00000000000000000000000000000000 | tail -c 16` gives it (in the
// same way with -aes-192-cbc and -aes-256-cbc).
#[test]
fn blocks_are_those_of_the_standard(rt: HostRuntime) {
    let counted = counted();
    let plain = 0x00112233445566778899aabbccddeeff_u128.to_be_bytes();
    for (key, cipher, chained) in [
        (
            &counted[..16],
            0x69c4e0d86a7b0430d8cdb78070b4c55a_u128,
            0x4a1f227d5d20b689bbd957ebd4a6c017_u128,
        ),
        (
            &counted[..24],
            0xdda97ca4864cdfe06eaf70a0ec0d7191_u128,
            0x44608beaca9dd6770d6839da359373fd_u128,
        ),
        (
            &counted[..32],
            0x8ea2b7ca516745bfeafc49904b496089_u128,
            0x8e88a264252d2587701f6843d8ffc064_u128,
        ),
    ] {
        let by_tables = BlockKey::new(key).expect(&rt, "a length of keys");
        let by_steps = PlainKey::new(key).expect(&rt, "a length of keys");
        let mut a = plain;
        let mut b = plain;
        by_tables.encrypt_block(&mut a);
        by_steps.encrypt_block(&mut b);
        assert!(rt; u128::from_be_bytes(a) == cipher && a == b);
        by_tables.decrypt_block(&mut a);
        by_steps.decrypt_block(&mut b);
        assert!(rt; a == plain && b == plain);

        let mut block = [0u8; 16];
        for _ in 0..10000 {
            by_tables.encrypt_block(&mut block);
        }
        assert!(rt; u128::from_be_bytes(block) == chained);
        for _ in 0..10000 {
            by_tables.decrypt_block(&mut block);
        }
        assert!(rt; block == [0u8; 16]);
    }
    assert!(rt; BlockKey::new(&counted[..17]).is_none());
}

// The first bytes of the examples of SP 800-38A, appendix F.
const TEXT: [u8; 17] = [
    0x6b, 0xc1, 0xbe, 0xe2, 0x2e, 0x40, 0x9f, 0x96, 0xe9, 0x3d, 0x7e, 0x11, 0x73, 0x93, 0x17, 0x2a,
    0xae,
];

// What they are in CBC with tail under the key and IV of F.2.1: the block is the standard's, the byte
// after it this project's own, the XOR with the first byte of what the IV enciphers to.
const WHOLE: [u8; 17] = [
    0x76, 0x49, 0xab, 0xac, 0x81, 0x19, 0xb2, 0x46, 0xce, 0xe9, 0x8e, 0x9b, 0x12, 0xe9, 0x19, 0x7d,
    0xfe,
];

// And 15 of them alone, all of them a tail.
const SHORT: [u8; 15] = [
    0x3b, 0x3f, 0xd9, 0x2e, 0xb7, 0x2d, 0xad, 0x20, 0x33, 0x34, 0x49, 0xf8, 0xe8, 0x3c, 0xfb,
];

fn example_key(rt: &impl Abort) -> BlockKey {
    BlockKey::new(&0x2b7e151628aed2a6abf7158809cf4f3c_u128.to_be_bytes()).expect(
        rt,
        "a length of keys",
    )
}

fn example_iv() -> [u8; 16] {
    0x000102030405060708090a0b0c0d0e0f_u128.to_be_bytes()
}

#[test]
fn cbc_with_tail_gives_the_rows(rt: HostRuntime) {
    let key = example_key(&rt);
    let iv = example_iv();
    for cipher in [&SHORT[..], &WHOLE[..16], &WHOLE[..]] {
        let text = &TEXT[..cipher.len().min(17)];
        let mut bytes = text.to_vec(rt.alloc()).expect(&rt, "memory");
        cbc_tail_encrypt(&key, &iv, &mut bytes);
        assert!(rt; &bytes[..] == cipher);
        cbc_tail_decrypt(&key, &iv, &mut bytes);
        assert!(rt; &bytes[..] == text);
        Algorithm::Cbc.encrypt(&key, &iv, &mut bytes);
        assert!(rt; &bytes[..] == cipher);
        Algorithm::Cbc.decrypt(&key, &iv, &mut bytes);
        assert!(rt; &bytes[..] == text);
    }
}

// F.5.1 of SP 800-38A, its first block.
#[test]
fn ctr_gives_the_example_of_the_standard(rt: HostRuntime) {
    let key = example_key(&rt);
    let counter = 0xf0f1f2f3f4f5f6f7f8f9fafbfcfdfeff_u128.to_be_bytes();
    let text = 0x6bc1bee22e409f96e93d7e117393172a_u128;
    let mut bytes = text.to_be_bytes();
    Algorithm::Ctr.encrypt(&key, &counter, &mut bytes);
    assert!(rt; u128::from_be_bytes(bytes) == 0x874d6191b620e3261bef6864990db6ce);
    Algorithm::Ctr.decrypt(&key, &counter, &mut bytes);
    assert!(rt; u128::from_be_bytes(bytes) == text);
}

#[test]
fn padded_texts_come_back(rt: HostRuntime) {
    let key = example_key(&rt);
    let iv = example_iv();
    let padded = cbc_pad_encrypt(rt.alloc(), &key, &iv, &TEXT[..16]).expect(&rt, "memory");
    assert!(rt; padded.len() == 32 && padded.starts_with(&WHOLE[..16]));
    let back = cbc_pad_decrypt(rt.alloc(), &key, &iv, &padded).expect(&rt, "memory");
    assert!(rt; back[..] == TEXT[..16]);
    let short = cbc_pad_decrypt(rt.alloc(), &key, &iv, &SHORT);
    assert!(rt; short.err() == Some(PadFault::Length(15)));
    let front = cbc_pad_decrypt(rt.alloc(), &key, &iv, &WHOLE[..16]);
    assert!(rt; front.err() == Some(PadFault::Padding));
}

fn xor_into(to: &mut [u8], with: &[u8]) {
    for (a, b) in to.iter_mut().zip(with) {
        *a ^= *b;
    }
}

fn mask_into(key: &PlainKey, iv: &[u8; 16], tail: &mut [u8]) {
    let mut mask = *iv;
    key.encrypt_block(&mut mask);
    xor_into(tail, &mask);
}

fn cbc_by_blocks(key: &PlainKey, iv: &[u8; 16], bytes: &mut [u8]) {
    let mut chain = *iv;
    for part in bytes.chunks_mut(16) {
        if part.len() == 16 {
            xor_into(&mut chain, part);
            key.encrypt_block(&mut chain);
            part.copy_from_slice(&chain);
        } else {
            mask_into(key, iv, part);
        }
    }
}

fn cbc_back_by_blocks(key: &PlainKey, iv: &[u8; 16], bytes: &mut [u8]) {
    let mut before = *iv;
    for part in bytes.chunks_mut(16) {
        if part.len() == 16 {
            let mut block = [0u8; 16];
            block.copy_from_slice(part);
            let cipher = block;
            key.decrypt_block(&mut block);
            xor_into(&mut block, &before);
            part.copy_from_slice(&block);
            before = cipher;
        } else {
            mask_into(key, iv, part);
        }
    }
}

fn count_up(counter: &mut [u8; 16]) {
    for b in counter.iter_mut().rev() {
        *b = b.wrapping_add(1);
        if *b != 0 {
            break;
        }
    }
}

fn ctr_by_blocks(key: &PlainKey, counter: &[u8; 16], bytes: &mut [u8]) {
    let mut counter = *counter;
    for part in bytes.chunks_mut(16) {
        let mut block = counter;
        key.encrypt_block(&mut block);
        xor_into(part, &block);
        count_up(&mut counter);
    }
}

// The counter of the last block but one, so that it wraps.
fn compare(rt: &impl Abort, alloc: Global, key: &[u8], n: usize) {
    let by_tables = BlockKey::new(key).expect(rt, "a length of keys");
    let by_steps = PlainKey::new(key).expect(rt, "a length of keys");
    let iv = (u128::MAX - 1).to_be_bytes();
    let mut text: Vec<u8> = Vec::new(alloc);
    text.resize(n, 0).expect(rt, "memory");
    for (i, b) in text.iter_mut().enumerate() {
        *b = (i % 251) as u8;
    }
    let mut lanes = text.clone().expect(rt, "memory");
    let mut blocks = text.clone().expect(rt, "memory");
    cbc_tail_encrypt(&by_tables, &iv, &mut lanes);
    cbc_by_blocks(&by_steps, &iv, &mut blocks);
    assert!(rt; lanes == blocks, "CBC with tail of {n} bytes");
    cbc_tail_decrypt(&by_tables, &iv, &mut lanes);
    cbc_back_by_blocks(&by_steps, &iv, &mut blocks);
    assert!(rt;
        lanes == text && blocks == text,
        "CBC with tail of {n} bytes, back"
    );
    cbc_back_by_blocks(&by_steps, &iv, &mut blocks);
    cbc_tail_decrypt(&by_tables, &iv, &mut lanes);
    assert!(rt; lanes == blocks, "CBC with tail of {n} bytes, deciphered");
    ctr_apply(&by_tables, &iv, &mut lanes);
    ctr_by_blocks(&by_steps, &iv, &mut blocks);
    assert!(rt; lanes == blocks, "CTR of {n} bytes");
}

// Eight blocks are 128 bytes, four are 64.
#[test]
fn lanes_give_what_single_blocks_give(rt: HostRuntime) {
    let key = counted();
    for n in [
        0, 1, 15, 16, 17, 63, 64, 65, 127, 128, 129, 191, 192, 255, 256, 257, 4076, 16354,
    ] {
        compare(&rt, rt.alloc(), &key, n);
    }
    let short = &key[..16];
    let middle = &key[..24];
    for n in [127, 128, 129, 337] {
        compare(&rt, rt.alloc(), short, n);
        compare(&rt, rt.alloc(), middle, n);
    }
}
