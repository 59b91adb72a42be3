// A store's files, by the words of their formats: 32 ring blocks, and the plain space 5 of four pages, of which page 0 alone is used.
use crate::LaidFiles;
use aes_core::{Algorithm, BlockKey};
use byte_list::fields::put;
use byte_list::zero_bytes;
use bytes_core::{Crc32c, crc32c};
use cause_core::OutOfMemory;
use key_ring::Ring;
use std::alloc::Global;
use std::process::Abort;
use std::test::Fail;

fn write_at(rt: &impl Abort, file: &mut [u8], at: usize, bytes: &[u8]) {
    assert!(rt; at <= file.len() && bytes.len() <= file.len() - at);
    put(file, at, bytes);
}

fn write_numbers(rt: &impl Abort, file: &mut [u8], at: usize, numbers: &[u32]) {
    let mut place = at;
    for number in numbers {
        write_at(rt, file, place, &number.to_be_bytes());
        place = place.saturating_add(4);
    }
}

// Writes the checksum of all bytes but the last four into these.
fn write_sum(rt: &impl Abort, text: &mut [u8]) {
    assert!(rt; text.len() >= 4);
    let end = text.len() - 4;
    let sum = crc32c(&text[..end]).to_be_bytes();
    write_at(rt, text, end, &sum);
}

fn write_header(rt: &impl Abort, log: &mut [u8]) {
    let mut block = [0; 4096];
    write_at(rt, &mut block, 0, b"KEYSTOR1");
    write_numbers(rt, &mut block, 8, &[2, 16384, 32, 1]);
    write_at(rt, &mut block, 24, &[7; 16]);
    write_numbers(rt, &mut block, 40, &[5, 4, 1]);
    write_numbers(rt, &mut block, 240, &[1]);
    write_sum(rt, &mut block);
    write_at(rt, log, 0, &block);
}

// Writes checkpoint 1, from block 2, into block 2 of the file.
fn write_checkpoint(rt: &impl Abort, log: &mut [u8]) {
    let mut block = [0; 4096];
    write_at(rt, &mut block, 0, b"KEYCHK01");
    write_numbers(rt, &mut block, 8, &[0, 1, 0, 2]);
    write_sum(rt, &mut block);
    write_at(rt, log, 8192, &block);
}

/// The text of a page of space 5 with type 0 and zero bytes in its body, as one of this key version.
pub(crate) fn page_text(rt: &impl Abort, page: u32, version: u32, lsn: u32) -> [u8; 16384] {
    let mut text = [0; 16384];
    write_numbers(
        rt,
        &mut text,
        0,
        &[version, page, u32::MAX, u32::MAX, 0, lsn],
    );
    write_numbers(rt, &mut text, 34, &[5]);
    write_numbers(rt, &mut text, 16376, &[lsn]);
    write_sum(rt, &mut text);
    text
}

/// Page 0 at LSN 8192, with its crypt record at byte 10428.
pub(crate) fn first_page(rt: &impl Abort) -> [u8; 16384] {
    let mut text = page_text(rt, 0, 0, 8192);
    write_at(rt, &mut text, 24, &[0, 8]);
    write_numbers(rt, &mut text, 38, &[5]);
    write_numbers(rt, &mut text, 46, &[4]);
    write_numbers(rt, &mut text, 54, &[0x15]);
    write_at(rt, &mut text, 10428, b"\x73\x0e\x0c\x52\x45\x74\x00\x10");
    write_at(rt, &mut text, 10436, &[9; 16]);
    write_numbers(rt, &mut text, 10452, &[0, 1]);
    write_at(rt, &mut text, 10460, &[2]);
    write_sum(rt, &mut text);
    text
}

/// Writes another byte into a page text, and its checksum.
pub(crate) fn change_byte(rt: &impl Abort, text: &mut [u8], at: usize, byte: u8) {
    write_at(rt, text, at, &[byte]);
    write_sum(rt, text);
}

/// Writes the home of a page.
pub(crate) fn write_home(rt: &impl Abort, space: &mut [u8], page: usize, text: &[u8]) {
    write_at(rt, space, page.saturating_mul(16384), text);
}

/// Writes a slot of the doublewrite file, of a page of a space.
pub(crate) fn write_slot(
    rt: &impl Abort,
    double: &mut [u8],
    i: usize,
    space: u32,
    page: u32,
    text: &[u8],
) {
    let mut head = [0; 508];
    write_at(rt, &mut head, 0, b"DWSLOT01");
    write_numbers(rt, &mut head, 8, &[space, page, 0, 1]);
    let mut sum = Crc32c::new();
    sum.update(&head);
    sum.update(text);
    let place = i.saturating_mul(16896);
    write_at(rt, double, place, &head);
    write_at(
        rt,
        double,
        place.saturating_add(508),
        &sum.finish().to_be_bytes(),
    );
    write_at(rt, double, place.saturating_add(512), text);
}

/// A ring of these versions of key 1.
pub(crate) fn ring_of(alloc: Global, versions: &[u32]) -> Result<Ring, Fail> {
    let mut ring = Ring::new(alloc);
    for version in versions {
        if *version == 0 || ring.add(1, *version, &[3; 16]).is_err() {
            return Err(Fail::new("no key"));
        }
    }
    Ok(ring)
}

/// Writes the ring block of this number, the only one of its mini-transaction, with this text.
pub(crate) fn write_block(
    rt: &impl Abort,
    alloc: Global,
    log: &mut [u8],
    number: u8,
    version: u8,
    text: &[u8],
) -> Result<(), Fail> {
    let ring = ring_of(alloc, &[u32::from(version)])?;
    let Some(key) = ring
        .local(1, u32::from(version), &[7; 16])
        .and_then(|local| BlockKey::new(&local))
    else {
        return Err(Fail::new("no local key"));
    };
    assert!(rt; text.len() < 256);
    let used = text.len() as u8;
    let mut body = [0; 4076];
    write_at(rt, &mut body, 0, text);
    let iv = [
        0xf0, 0xff, 0xff, 0xff, 0, 0, 0, 0, number, 0, 0, 0, 0, 0, 0, 0,
    ];
    Algorithm::Cbc.encrypt(&key, &iv, &mut body);
    let mut block = [0; 4096];
    write_at(
        rt,
        &mut block,
        7,
        &[number, 0, 0, 0, version, 0, used, 0, 3],
    );
    write_at(rt, &mut block, 16, &body);
    write_sum(rt, &mut block);
    let place = 3 + usize::from(number) % 32;
    write_at(rt, log, place * 4096, &block);
    Ok(())
}

/// A store with one checkpoint, an empty run and page 0 alone.
pub(crate) fn store(rt: &impl Abort, alloc: Global) -> Result<LaidFiles, OutOfMemory> {
    let mut log = zero_bytes(alloc, 143_360)?;
    write_header(rt, &mut log);
    write_checkpoint(rt, &mut log);
    let mut space = zero_bytes(alloc, 65536)?;
    write_home(rt, &mut space, 0, &first_page(rt));
    Ok(LaidFiles {
        log,
        double: zero_bytes(alloc, 1_081_344)?,
        space,
    })
}
