// A store's files, built by hand from the words of the formats: 32 ring blocks, the ciphered space 1 of three pages and the plain space 2 of two.
use crate::{Recovered, Refusal, SpaceFile, StoreFiles, named, recover};
use aes_core::{Algorithm, BlockKey};
use byte_list::fields::put;
use byte_list::zero_bytes;
use bytes_core::crc32c;
use cause_core::OutOfMemory;
use key_ring::Ring;
use std::alloc::Global;
use std::process::Abort;
use std::test::Fail;

// The key of id 1, in both versions.
const KEY: [u8; 16] = [7; 16];

const LOG_SALT: [u8; 16] = [0x20; 16];

const SPACE_SALT: [u8; 16] = [0x31; 16];

const PLAIN_SALT: [u8; 16] = [0x42; 16];

#[derive(Drop)]
pub(crate) struct Fixture {
    pub log: Vec<u8>,
    pub double: Vec<u8>,
    pub one: Vec<u8>,
    pub two: Vec<u8>,
}

pub(crate) fn write_at(rt: &impl Abort, file: &mut [u8], at: usize, bytes: &[u8]) {
    assert!(rt; at <= file.len() && bytes.len() <= file.len() - at);
    put(file, at, bytes);
}

fn write_numbers(rt: &impl Abort, file: &mut [u8], at: usize, numbers: &[u32]) {
    let mut place = at;
    for number in numbers {
        write_at(rt, file, place, &number.to_be_bytes());
        place = place.saturating_add(4);
    }
}

// Writes the checksum of the first bytes into the four behind them.
pub(crate) fn write_sum(rt: &impl Abort, text: &mut [u8]) {
    assert!(rt; text.len() >= 4);
    let end = text.len() - 4;
    let sum = crc32c(&text[..end]).to_be_bytes();
    write_at(rt, text, end, &sum);
}

// Writes the checksum of the first 4092 bytes of a block behind them, and the block to its place.
fn write_summed(rt: &impl Abort, log: &mut [u8], place: usize, block: &mut [u8; 4096]) {
    let sum = crc32c(&block[..4092]).to_be_bytes();
    write_at(rt, block, 4092, &sum);
    write_at(rt, log, place.saturating_mul(4096), block);
}

pub(crate) fn write_header(rt: &impl Abort, log: &mut [u8], algorithm: Algorithm, magic: &[u8; 8]) {
    let mut block = [0; 4096];
    write_at(rt, &mut block, 0, magic);
    write_numbers(rt, &mut block, 8, &[2, 16384, 32, 2]);
    write_at(rt, &mut block, 24, &LOG_SALT);
    write_numbers(rt, &mut block, 40, &[1, 3, 1, 2, 2, 1]);
    let code = match algorithm {
        Algorithm::Cbc => 1,
        Algorithm::Ctr => 2,
    };
    write_numbers(rt, &mut block, 240, &[code]);
    write_sum(rt, &mut block);
    write_at(rt, log, 0, &block);
}

pub(crate) fn write_checkpoint(rt: &impl Abort, log: &mut [u8], sequence: u64, from: u64) {
    write_checkpoint_of(rt, log, b"KEYCHK01", sequence, from);
}

pub(crate) fn write_checkpoint_of(
    rt: &impl Abort,
    log: &mut [u8],
    magic: &[u8; 8],
    sequence: u64,
    from: u64,
) {
    let mut block = [0; 4096];
    write_at(rt, &mut block, 0, magic);
    write_at(rt, &mut block, 8, &sequence.to_be_bytes());
    write_at(rt, &mut block, 16, &from.to_be_bytes());
    write_sum(rt, &mut block);
    let place = 1 + (sequence % 2) as usize;
    write_at(rt, log, place.saturating_mul(4096), &block);
}

// Enciphers bytes under the local key of a salt.
fn encipher(
    rt: &impl Abort,
    algorithm: Algorithm,
    salt: &[u8; 16],
    iv: &[u8; 16],
    bytes: &mut [u8],
) {
    let mut local = *salt;
    match BlockKey::new(&KEY) {
        Some(key) => key.encrypt_block(&mut local),
        None => panic!(rt; "no key"),
    }
    match BlockKey::new(&local) {
        Some(key) => algorithm.encrypt(&key, iv, bytes),
        None => panic!(rt; "no local key"),
    }
}

// The ring block of this number, whose text is the first bytes of its body.
pub(crate) fn write_block(
    rt: &impl Abort,
    log: &mut [u8],
    algorithm: Algorithm,
    number: u64,
    flags: u16,
    text: &[u8],
) {
    write_block_of(rt, log, algorithm, number, 1, flags, text);
}

// The ring block that names this version.
pub(crate) fn write_block_of(
    rt: &impl Abort,
    log: &mut [u8],
    algorithm: Algorithm,
    number: u64,
    version: u32,
    flags: u16,
    text: &[u8],
) {
    assert!(rt; text.len() <= 4076);
    let mut block = [0; 4096];
    write_at(rt, &mut block, 0, &number.to_be_bytes());
    write_numbers(rt, &mut block, 8, &[version]);
    write_at(rt, &mut block, 12, &(text.len() as u16).to_be_bytes());
    write_at(rt, &mut block, 14, &flags.to_be_bytes());
    write_at(rt, &mut block, 16, text);
    let mut iv = [0; 16];
    write_at(rt, &mut iv, 0, &0xffff_fff0_u32.to_le_bytes());
    write_at(rt, &mut iv, 8, &number.to_le_bytes());
    encipher(rt, algorithm, &LOG_SALT, &iv, &mut block[16..4092]);
    write_summed(rt, log, 3 + (number % 32) as usize, &mut block);
}

// What stands in a page's text beside its head and its body.
#[derive(Clone, Copy)]
pub(crate) struct PageHead {
    pub space: u32,
    pub page: u32,
    pub lsn: u64,
    pub version: u32,
    pub kind: u16,
}

// The text of a page whose body begins with these bytes.
pub(crate) fn page_text(
    rt: &impl Abort,
    alloc: Global,
    algorithm: Algorithm,
    head: PageHead,
    body: &[u8],
) -> Result<Vec<u8>, OutOfMemory> {
    let mut page = [0; 16384];
    write_numbers(
        rt,
        &mut page,
        0,
        &[head.version, head.page, 0xffff_ffff, 0xffff_ffff],
    );
    write_at(rt, &mut page, 16, &head.lsn.to_be_bytes());
    write_at(rt, &mut page, 24, &head.kind.to_be_bytes());
    write_numbers(rt, &mut page, 34, &[head.space]);
    write_at(rt, &mut page, 38, body);
    write_numbers(rt, &mut page, 16376, &[(head.lsn % 0x1_0000_0000) as u32]);
    if head.version != 0 {
        let mut iv = [0; 16];
        write_at(rt, &mut iv, 0, &head.space.to_le_bytes());
        write_at(rt, &mut iv, 4, &head.page.to_le_bytes());
        write_at(rt, &mut iv, 8, &head.lsn.to_le_bytes());
        encipher(rt, algorithm, &SPACE_SALT, &iv, &mut page[26..16380]);
    }
    write_sum(rt, &mut page);
    Ok(page.to_vec(alloc)?)
}

// The body of the page 0 of a space.
fn head_body(
    rt: &impl Abort,
    body: &mut [u8],
    space: u32,
    pages: u32,
    ciphered: bool,
    salt: &[u8; 16],
) {
    write_numbers(rt, body, 0, &[space]);
    write_numbers(rt, body, 8, &[pages]);
    write_numbers(rt, body, 16, &[21]);
    let place = 10428 - 38;
    write_at(rt, body, place, &[0x73, 0x0e, 0x0c, 0x52, 0x45, 0x74]);
    write_at(rt, body, place + 6, &[u8::from(ciphered), 16]);
    write_at(rt, body, place + 8, salt);
    write_numbers(rt, body, place + 24, &[u32::from(ciphered), 1]);
    write_at(rt, body, place + 32, &[if ciphered { 1 } else { 2 }]);
}

fn write_head(
    rt: &impl Abort,
    alloc: Global,
    file: &mut [u8],
    space: u32,
    pages: u32,
    ciphered: bool,
    salt: &[u8; 16],
) -> Result<(), OutOfMemory> {
    let mut body = [0; 16338];
    head_body(rt, &mut body, space, pages, ciphered, salt);
    let head = PageHead {
        space,
        page: 0,
        lsn: 8192,
        version: 0,
        kind: 8,
    };
    let text = page_text(rt, alloc, Algorithm::Cbc, head, &body)?;
    write_at(rt, file, 0, &text);
    Ok(())
}

// Writes a page 0 of space 1 that says four pages, where the header says three.
pub(crate) fn write_other_head(
    rt: &impl Abort,
    alloc: Global,
    file: &mut [u8],
) -> Result<(), OutOfMemory> {
    write_head(rt, alloc, file, 1, 4, true, &SPACE_SALT)
}

// Writes a valid slot with this text.
pub(crate) fn write_slot(
    rt: &impl Abort,
    alloc: Global,
    double: &mut [u8],
    index: usize,
    space: u32,
    page: u32,
    text: &[u8],
) -> Result<(), OutOfMemory> {
    let mut head = [0; 508];
    write_at(rt, &mut head, 0, b"DWSLOT01");
    write_numbers(rt, &mut head, 8, &[space, page, 0, 1]);
    let mut joined = head.to_vec(alloc)?;
    joined.extend_from_slice(text)?;
    let sum = crc32c(&joined).to_be_bytes();
    let place = index.saturating_mul(16896);
    write_at(rt, double, place, &head);
    write_at(rt, double, place.saturating_add(508), &sum);
    write_at(rt, double, place.saturating_add(512), text);
    Ok(())
}

// An empty store at rest: its first checkpoint is from block 2.
pub(crate) fn empty_store(
    rt: &impl Abort,
    alloc: Global,
    algorithm: Algorithm,
) -> Result<Fixture, OutOfMemory> {
    let mut log = zero_bytes(alloc, 143_360)?;
    write_header(rt, &mut log, algorithm, b"KEYSTOR1");
    write_checkpoint(rt, &mut log, 1, 2);
    let double = zero_bytes(alloc, 1_081_344)?;
    let mut one = zero_bytes(alloc, 49_152)?;
    write_head(rt, alloc, &mut one, 1, 3, true, &SPACE_SALT)?;
    let mut two = zero_bytes(alloc, 32_768)?;
    write_head(rt, alloc, &mut two, 2, 2, false, &PLAIN_SALT)?;
    Ok(Fixture {
        log,
        double,
        one,
        two,
    })
}

// The keys of the store: the versions 1 and 2, of the same bytes.
fn keys(rt: &impl Abort, alloc: Global) -> Ring {
    let mut ring = Ring::new(alloc);
    for version in [1, 2] {
        if ring.add(1, version, &KEY).is_err() {
            panic!(rt; "no key");
        }
    }
    ring
}

fn files_of(alloc: Global, fixture: Fixture) -> Result<StoreFiles, Fail> {
    let mut spaces = Vec::new(alloc);
    spaces.push(SpaceFile::new(2, fixture.two))?;
    spaces.push(SpaceFile::new(1, fixture.one))?;
    Ok(StoreFiles::new(fixture.log, fixture.double, spaces))
}

// The keys that files which recover need, where this version is active.
pub(crate) fn needed(
    rt: &impl Abort,
    alloc: Global,
    fixture: Fixture,
    active: u32,
) -> Result<Vec<(u32, u32)>, Fail> {
    let files = files_of(alloc, fixture)?;
    match recover(alloc, &files, &keys(rt, alloc)) {
        Ok(found) => Ok(named(alloc, &files, &found.header, &found.log, active)?),
        Err(refusal) => panic!(rt; "refused: {refusal}"),
    }
}

// What the files recover to.
pub(crate) fn recovered(
    rt: &impl Abort,
    alloc: Global,
    fixture: Fixture,
) -> Result<Result<Recovered, Refusal>, Fail> {
    let files = files_of(alloc, fixture)?;
    Ok(recover(alloc, &files, &keys(rt, alloc)))
}

// A put of four bytes at the beginning of a page's body.
pub(crate) fn put_text(space: u8, page: u8, byte: u8) -> [u8; 21] {
    [
        1, 0, 0, 0, space, 0, 0, 0, page, 0, 0, 0, 38, 0, 0, 0, 4, byte, byte, byte, byte,
    ]
}
