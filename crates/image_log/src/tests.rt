// What a log says: a row each, in both modes. The log's file is built by hand from the words of the formats, with 32 ring blocks.

use crate::{
    LateBlock, LogText, LogTextFault, StoreHeader, block_at, late_block, place, read_header,
    read_log,
};
use aes_core::{Algorithm, BlockKey};
use byte_list::fields::put;
use byte_list::zero_bytes;
use bytes_core::crc32c;
use cause_core::OutOfMemory;
use key_ring::Ring;
use std::alloc::Global;
use std::process::Abort;
use std::test::Fail;

const MODES: [Algorithm; 2] = [Algorithm::Cbc, Algorithm::Ctr];

// The key of id 1 and version 1.
const KEY: [u8; 16] = [7; 16];

const SALT: [u8; 16] = [0x20; 16];

// A put of four bytes 61 at the beginning of the body of page 1 of space 1.
const PUT: [u8; 21] = [
    1, 0, 0, 0, 1, 0, 0, 0, 1, 0, 0, 0, 38, 0, 0, 0, 4, 0x61, 0x61, 0x61, 0x61,
];

fn write_at(rt: &impl Abort, file: &mut [u8], at: usize, bytes: &[u8]) {
    assert!(rt; at <= file.len() && bytes.len() <= file.len() - at);
    put(file, at, bytes);
}

fn write_numbers(rt: &impl Abort, file: &mut [u8], at: usize, numbers: &[u32]) {
    let mut place = at;
    for number in numbers {
        write_at(rt, file, place, &number.to_be_bytes());
        place = place.saturating_add(4);
    }
}

// Writes the checksum of the first 4092 bytes of a block behind them, and the block to its place.
fn write_summed(rt: &impl Abort, log: &mut [u8], place: usize, block: &mut [u8; 4096]) {
    let sum = crc32c(&block[..4092]).to_be_bytes();
    write_at(rt, block, 4092, &sum);
    write_at(rt, log, place.saturating_mul(4096), block);
}

fn write_header(rt: &impl Abort, log: &mut [u8], code: u32) {
    let mut block = [0; 4096];
    write_at(rt, &mut block, 0, b"KEYSTOR1");
    write_numbers(rt, &mut block, 8, &[2, 16384, 32, 2]);
    write_at(rt, &mut block, 24, &SALT);
    write_numbers(rt, &mut block, 40, &[1, 3, 1, 2, 2, 1]);
    write_numbers(rt, &mut block, 240, &[code]);
    write_summed(rt, log, 0, &mut block);
}

fn write_checkpoint(rt: &impl Abort, log: &mut [u8], sequence: u64, from: u64) {
    write_checkpoint_of(rt, log, b"KEYCHK01", sequence, from);
}

fn write_checkpoint_of(rt: &impl Abort, log: &mut [u8], magic: &[u8; 8], sequence: u64, from: u64) {
    let mut block = [0; 4096];
    write_at(rt, &mut block, 0, magic);
    write_at(rt, &mut block, 8, &sequence.to_be_bytes());
    write_at(rt, &mut block, 16, &from.to_be_bytes());
    write_summed(rt, log, 1 + (sequence % 2) as usize, &mut block);
}

// Enciphers bytes under the log's local key.
fn encipher(rt: &impl Abort, algorithm: Algorithm, iv: &[u8; 16], bytes: &mut [u8]) {
    let mut local = SALT;
    match BlockKey::new(&KEY) {
        Some(key) => key.encrypt_block(&mut local),
        None => panic!(rt; "no key"),
    }
    match BlockKey::new(&local) {
        Some(key) => algorithm.encrypt(&key, iv, bytes),
        None => panic!(rt; "no local key"),
    }
}

// The ring block of this number under key version 1, whose text is the first bytes of its body.
fn write_block(
    rt: &impl Abort,
    log: &mut [u8],
    algorithm: Algorithm,
    number: u64,
    flags: u16,
    text: &[u8],
) {
    write_block_of(rt, log, algorithm, number, 1, flags, text);
}

// A block that names this key version, enciphered under the key of version 1.
fn write_block_of(
    rt: &impl Abort,
    log: &mut [u8],
    algorithm: Algorithm,
    number: u64,
    version: u32,
    flags: u16,
    text: &[u8],
) {
    assert!(rt; text.len() <= 4076);
    let mut block = [0; 4096];
    write_at(rt, &mut block, 0, &number.to_be_bytes());
    write_numbers(rt, &mut block, 8, &[version]);
    write_at(rt, &mut block, 12, &(text.len() as u16).to_be_bytes());
    write_at(rt, &mut block, 14, &flags.to_be_bytes());
    write_at(rt, &mut block, 16, text);
    let mut iv = [0; 16];
    write_at(rt, &mut iv, 0, &0xffff_fff0_u32.to_le_bytes());
    write_at(rt, &mut iv, 8, &number.to_le_bytes());
    encipher(rt, algorithm, &iv, &mut block[16..4092]);
    write_summed(rt, log, 3 + (number % 32) as usize, &mut block);
}

// A log whose first checkpoint is from block 2, which has one put.
fn one_put(rt: &impl Abort, alloc: Global, algorithm: Algorithm) -> Result<Vec<u8>, OutOfMemory> {
    let mut log = zero_bytes(alloc, 143_360)?;
    let code = match algorithm {
        Algorithm::Cbc => 1,
        Algorithm::Ctr => 2,
    };
    write_header(rt, &mut log, code);
    write_checkpoint(rt, &mut log, 1, 2);
    write_block(rt, &mut log, algorithm, 2, 3, &PUT);
    Ok(log)
}

fn keys(rt: &impl Abort, alloc: Global) -> Ring {
    let mut ring = Ring::new(alloc);
    if ring.add(1, 1, &KEY).is_err() {
        panic!(rt; "no key");
    }
    ring
}

fn header(rt: &impl Abort, alloc: Global, log: &[u8]) -> Result<StoreHeader, OutOfMemory> {
    assert!(rt; log.len() == 143_360);
    let (block, _rest) = log.split_at(4096);
    match read_header(alloc, block)? {
        Some(header) => Ok(header),
        None => panic!(rt; "no header"),
    }
}

// What the log says: the end of its run, and how many mini-transactions are in it.
fn said(
    rt: &impl Abort,
    alloc: Global,
    log: &[u8],
) -> Result<Result<(u64, usize), LogTextFault>, OutOfMemory> {
    let header = header(rt, alloc, log)?;
    let blocks = header.blocks();
    assert!(rt; blocks == 32 && log.len() == 143_360);
    let found = read_log(alloc, &header, &keys(rt, alloc), log);
    Ok(match found {
        Ok(text) => Ok((text.end(), text.run().len())),
        Err(fault) => Err(fault),
    })
}

#[test]
fn a_run_ends_before_part_of_a_mini_transaction(rt: HostRuntime) -> Result<(), Fail> {
    for algorithm in MODES {
        let mut log = one_put(&rt, rt.alloc(), algorithm)?;
        assert!(rt; said(&rt, rt.alloc(), &log)? == Ok((3, 1)));
        write_block(&rt, &mut log, algorithm, 3, 1, &[3; 4076]);
        assert!(rt; said(&rt, rt.alloc(), &log)? == Ok((3, 1)));
    }
    Ok(())
}

// The touch of page 1 of space 1.
const TOUCH: [u8; 9] = [3, 0, 0, 0, 1, 0, 0, 0, 1];

// The 4076 bytes from this one on of a text of touches.
fn touches(from: usize) -> [u8; 4076] {
    let mut text = [0; 4076];
    for (i, byte) in text.iter_mut().enumerate() {
        *byte = TOUCH[from.wrapping_add(i) % 9];
    }
    text
}

// Writes a mini-transaction of touches into so many blocks from block 2 on, of which the last has so
// many bytes of the text.
fn write_touches(rt: &impl Abort, log: &mut [u8], algorithm: Algorithm, blocks: u64, rest: usize) {
    for k in 0..blocks {
        let begins = u16::from(k == 0);
        let ends = k.saturating_add(1) == blocks;
        let text = touches((k as usize).wrapping_mul(4076));
        let (rest, _zeros) = text.split_at(rest.min(4076));
        let number = k.saturating_add(2);
        if ends {
            write_block(rt, log, algorithm, number, begins + 2, rest);
        } else {
            write_block(rt, log, algorithm, number, begins, &text);
        }
    }
}

#[test]
fn a_mini_transaction_of_seventeen_blocks_is_none(rt: HostRuntime) -> Result<(), Fail> {
    // The bytes in the last block make whole touches of the text.
    let rows = [(16, 6, (18, 1)), (17, 7, (2, 0))];
    for algorithm in MODES {
        for (blocks, rest, wanted) in rows {
            let mut log = one_put(&rt, rt.alloc(), algorithm)?;
            write_touches(&rt, &mut log, algorithm, blocks, rest);
            assert!(rt; said(&rt, rt.alloc(), &log)? == Ok(wanted));
        }
    }
    Ok(())
}

#[test]
fn a_torn_checkpoint_is_passed_over(rt: HostRuntime) -> Result<(), Fail> {
    for algorithm in MODES {
        let mut log = one_put(&rt, rt.alloc(), algorithm)?;
        write_checkpoint(&rt, &mut log, 2, 3);
        assert!(rt; said(&rt, rt.alloc(), &log)? == Ok((3, 0)));
        // Its last byte is another.
        let last = log.as_slice().get(8191).copied().unwrap_or(0);
        write_at(&rt, &mut log, 8191, &[!last]);
        assert!(rt; said(&rt, rt.alloc(), &log)? == Ok((3, 1)));
    }
    Ok(())
}

#[test]
fn a_checkpoint_of_another_magic_is_none(rt: HostRuntime) -> Result<(), Fail> {
    for algorithm in MODES {
        let mut log = one_put(&rt, rt.alloc(), algorithm)?;
        write_checkpoint_of(&rt, &mut log, b"KEYCHK02", 1, 2);
        assert!(rt; said(&rt, rt.alloc(), &log)? == Err(LogTextFault::NoCheckpoint));
    }
    Ok(())
}

#[test]
fn the_first_block_whose_key_is_missing_is_named(rt: HostRuntime) -> Result<(), Fail> {
    let missing = Err(LogTextFault::NoKey {
        number: 4,
        version: 2,
    });
    for algorithm in MODES {
        let mut log = one_put(&rt, rt.alloc(), algorithm)?;
        // A mini-transaction of the blocks 3 and 4, of which the second names version 2.
        write_block(&rt, &mut log, algorithm, 3, 1, &[3; 4076]);
        write_block_of(&rt, &mut log, algorithm, 4, 2, 2, &PUT);
        assert!(rt; said(&rt, rt.alloc(), &log)? == missing);
    }
    Ok(())
}

#[test]
fn a_text_that_is_none_of_changes_is_named(rt: HostRuntime) -> Result<(), Fail> {
    for algorithm in MODES {
        let mut log = one_put(&rt, rt.alloc(), algorithm)?;
        // A touch of page 1 of space 1, and behind its nine bytes a record of no type.
        write_block(
            &rt,
            &mut log,
            algorithm,
            3,
            3,
            &[3, 0, 0, 0, 1, 0, 0, 0, 1, 9],
        );
        let fault = LogTextFault::NoChanges { first: 3, at: 9 };
        assert!(rt; said(&rt, rt.alloc(), &log)? == Err(fault));
    }
    Ok(())
}

#[test]
fn a_late_block_is_found_at_its_place_and_at_another(rt: HostRuntime) -> Result<(), Fail> {
    for algorithm in MODES {
        let mut log = one_put(&rt, rt.alloc(), algorithm)?;
        write_block(&rt, &mut log, algorithm, 36, 3, &PUT);
        assert!(rt; log.as_slice().len() == 143_360);
        let own = LateBlock {
            place: 4,
            number: 36,
        };
        assert!(rt; late_block(&log, 32, 37).is_none() && late_block(&log, 32, 36) == Some(own));
        // The same block at the place of number 33.
        let block = place(&log, 4096, 7).to_vec(rt.alloc())?;
        write_at(&rt, &mut log, 4 * 4096, &block);
        let other = LateBlock {
            place: 1,
            number: 36,
        };
        assert!(rt; log.as_slice().len() == 143_360);
        assert!(rt; late_block(&log, 32, 36) == Some(other));
    }
    Ok(())
}
