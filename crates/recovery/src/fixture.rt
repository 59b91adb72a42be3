// A store's files, built by hand from the words of the formats: 32 ring blocks, and the plain space 5 of four pages, of which page 0 alone is used.
use byte_list::fields::put;
use byte_list::zero_bytes;
use bytes_core::crc32c;
use cause_core::OutOfMemory;
use disk_model::{FileName, MemDisk};
use std::alloc::Global;
use std::process::Abort;

/// The files of a store.
#[derive(Drop)]
pub(crate) struct Files {
    pub log: Vec<u8>,
    pub double: Vec<u8>,
    pub space: Vec<u8>,
}

pub(crate) fn write_at(rt: &impl Abort, file: &mut [u8], at: usize, bytes: &[u8]) {
    assert!(rt; at <= file.len() && bytes.len() <= file.len() - at);
    put(file, at, bytes);
}

fn write_numbers(rt: &impl Abort, file: &mut [u8], at: usize, numbers: &[u32]) {
    let mut place = at;
    for number in numbers {
        write_at(rt, file, place, &number.to_be_bytes());
        place = place.saturating_add(4);
    }
}

// Writes the checksum of all bytes but the last four into these.
fn write_sum(rt: &impl Abort, text: &mut [u8]) {
    assert!(rt; text.len() >= 4);
    let end = text.len() - 4;
    let sum = crc32c(&text[..end]).to_be_bytes();
    write_at(rt, text, end, &sum);
}

pub(crate) fn write_header(rt: &impl Abort, log: &mut [u8], magic: &[u8; 8]) {
    let mut block = [0; 4096];
    write_at(rt, &mut block, 0, magic);
    write_numbers(rt, &mut block, 8, &[2, 16384, 32, 1]);
    write_at(rt, &mut block, 24, &[7; 16]);
    write_numbers(rt, &mut block, 40, &[5, 4, 1]);
    write_numbers(rt, &mut block, 240, &[1]);
    write_sum(rt, &mut block);
    write_at(rt, log, 0, &block);
}

pub(crate) fn write_checkpoint(rt: &impl Abort, log: &mut [u8], sequence: u64, from: u64) {
    let mut block = [0; 4096];
    write_at(rt, &mut block, 0, b"KEYCHK01");
    write_at(rt, &mut block, 8, &sequence.to_be_bytes());
    write_at(rt, &mut block, 16, &from.to_be_bytes());
    write_sum(rt, &mut block);
    let place = 1 + (sequence % 2) as usize;
    write_at(rt, log, place.saturating_mul(4096), &block);
}

/// A store with one checkpoint and an empty run.
pub(crate) fn store(rt: &impl Abort, alloc: Global) -> Result<Files, OutOfMemory> {
    let mut log = zero_bytes(alloc, 143_360)?;
    write_header(rt, &mut log, b"KEYSTOR1");
    write_checkpoint(rt, &mut log, 1, 2);
    Ok(Files {
        log,
        double: zero_bytes(alloc, 1_081_344)?,
        space: zero_bytes(alloc, 65536)?,
    })
}

/// A disk with these files.
pub(crate) fn disk_of(alloc: Global, files: Files) -> Result<MemDisk, OutOfMemory> {
    let mut named = Vec::new(alloc);
    named.push((FileName::Log, files.log))?;
    named.push((FileName::Double, files.double))?;
    named.push((FileName::Space(5), files.space))?;
    Ok(MemDisk::holding(named, Vec::new(alloc)))
}

/// A disk with one of these files alone.
pub(crate) fn disk_with(
    alloc: Global,
    name: FileName,
    bytes: Vec<u8>,
) -> Result<MemDisk, OutOfMemory> {
    let mut named = Vec::new(alloc);
    named.push((name, bytes))?;
    Ok(MemDisk::holding(named, Vec::new(alloc)))
}
