// The ciphers' measurements.
use crate::figure::timed;
use aes_core::plain::PlainKey;
use aes_core::{BlockKey, cbc_tail_decrypt, cbc_tail_encrypt, ctr_apply};
use anyhow::{Result, bail};
use std::alloc::Global;
use std::io::Print;
use std::time::Clock;

/// The blocks of 64 MiB.
const BLOCKS: usize = 4 * 1024 * 1024;

/// The bytes of a page that are enciphered, and as many such texts as come to 64 MiB.
const TEXT: usize = 16354;

const TEXTS: usize = 4104;

/// The block that the block measurements begin with.
const FIRST: [u8; 16] = [9; 16];

fn encrypt_by_steps(key: &PlainKey, block: &mut [u8; 16]) {
    for _ in 0..BLOCKS {
        key.encrypt_block(block);
    }
}

fn decrypt_by_steps(key: &PlainKey, block: &mut [u8; 16]) {
    for _ in 0..BLOCKS {
        key.decrypt_block(block);
    }
}

fn encrypt_by_tables(key: &BlockKey, block: &mut [u8; 16]) {
    for _ in 0..BLOCKS {
        key.encrypt_block(block);
    }
}

fn decrypt_by_tables(key: &BlockKey, block: &mut [u8; 16]) {
    for _ in 0..BLOCKS {
        key.decrypt_block(block);
    }
}

fn encrypt_texts(key: &BlockKey, iv: &[u8; 16], text: &mut [u8]) {
    for _ in 0..TEXTS {
        cbc_tail_encrypt(key, iv, text);
    }
}

fn decrypt_texts(key: &BlockKey, iv: &[u8; 16], text: &mut [u8]) {
    for _ in 0..TEXTS {
        cbc_tail_decrypt(key, iv, text);
    }
}

fn apply_ctr(key: &BlockKey, iv: &[u8; 16], text: &mut [u8]) {
    for _ in 0..TEXTS {
        ctr_apply(key, iv, text);
    }
}

fn measure_steps(rt: &(impl Print + Clock), key: &PlainKey) -> Result<[u8; 16]> {
    let mut block = FIRST;
    timed!(
        rt,
        "AES-128 encrypt, plain",
        16 * BLOCKS,
        encrypt_by_steps(key, &mut block)
    );
    let cipher = block;
    timed!(
        rt,
        "AES-128 decrypt, plain",
        16 * BLOCKS,
        decrypt_by_steps(key, &mut block)
    );
    if block != FIRST {
        bail!("the plain steps do not come back");
    }
    Ok(cipher)
}

fn measure_tables(rt: &(impl Print + Clock), key: &BlockKey) -> Result<[u8; 16]> {
    let mut block = FIRST;
    timed!(
        rt,
        "AES-128 encrypt, tables",
        16 * BLOCKS,
        encrypt_by_tables(key, &mut block)
    );
    let cipher = block;
    timed!(
        rt,
        "AES-128 decrypt, tables",
        16 * BLOCKS,
        decrypt_by_tables(key, &mut block)
    );
    if block != FIRST {
        bail!("the tables do not come back");
    }
    Ok(cipher)
}

// The IV is one that the compiler doesn't know: for a constant it would make code of its own.
fn measure_modes(
    alloc: Global,
    rt: &(impl Print + Clock),
    key: &BlockKey,
    iv: &[u8; 16],
) -> Result<()> {
    let first = vec![in alloc; 5u8; TEXT]?;
    let mut text = first.clone()?;
    timed!(
        rt,
        "CBC with tail, encrypt",
        TEXT * TEXTS,
        encrypt_texts(key, iv, &mut text)
    );
    timed!(
        rt,
        "CBC with tail, decrypt",
        TEXT * TEXTS,
        decrypt_texts(key, iv, &mut text)
    );
    if text != first {
        bail!("CBC with tail does not come back");
    }
    timed!(rt, "CTR", TEXT * TEXTS, apply_ctr(key, iv, &mut text));
    if text != first {
        bail!("CTR does not come back");
    }
    Ok(())
}

/// Times AES under a key of 16 bytes: one block 4 Mi times, plain and by tables, both ways; and 4104
/// texts of 16354 bytes in CBC with tail, both ways, and in CTR, by tables. It fails where the plain
/// steps and the tables differ, or a text does not come back.
pub fn measure(alloc: Global, rt: &(impl Print + Clock)) -> Result<()> {
    let (Some(steps), Some(tables)) = (PlainKey::new(&[3; 16]), BlockKey::new(&[3; 16])) else {
        bail!("a key of 16 bytes is refused");
    };
    let plain = measure_steps(rt, &steps)?;
    let fast = measure_tables(rt, &tables)?;
    if plain != fast {
        bail!("the plain steps and the tables differ");
    }
    measure_modes(alloc, rt, &tables, &fast)
}
