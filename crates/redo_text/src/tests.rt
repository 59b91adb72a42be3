// The rows of the format, and blocks whose bytes were computed by OpenSSL and a CRC-32C bit by bit.
ghost use Rattle.std.specs.Prelude.{◌≡◌, ◌+◌, ◌<◌, ◌≤◌, length, IfOk};
ghost use Rattle.redo_text.specs.Text.{AreAllowed, IsAllowed};

use crate::block::write_sum;
use crate::key::log_iv;
use crate::{
    BadRecord, BlockFault, Change, ChangeView, Changes, Mtr, Piece, RedoKey, decipher_block,
    encode, mtr_blocks, read_block,
};
use aes_core::Algorithm;
use byte_list::fields::put;
use cause_core::OutOfMemory;
use std::alloc::{AllocError, Global};
use std::process::Abort;
use std::test::Fail;

fn key(algorithm: Algorithm) -> RedoKey
    ensures { 1 ≤ result.version }
{
    RedoKey {
        version: 7,
        local: [0x2b; 16],
        algorithm,
    }
}

fn repeated(alloc: Global, byte: u8, n: usize) -> Result<Vec<u8>, AllocError>
    ensures { IfOk result (λ v. length v.items ≡ n) }
{
    vec![in alloc; byte; n]
}

// A put of bytes aa at byte 38 of a page of space 5.
fn put_aa(alloc: Global, page: u32, size: usize) -> Result<Change, OutOfMemory>
    requires page { 0 < page }
    requires some { 0 < size }
    requires most { 38 + size ≤ 16376 }
    ensures { IfOk result (λ change. IsAllowed change) }
{
    let bytes = Piece::of(repeated(alloc, 0xaa, size)?);
    Ok(Change::Put {
        space: 5,
        page,
        at: 38,
        bytes,
    })
}

// A block of a mini-transaction is taken under its own number, its last byte inverted isn't, and it
// is deciphered to its text.
fn check_block(
    rt: &impl Abort,
    block: &mut [u8],
    number: u64,
    used: u16,
    flags: (bool, bool),
    key: &RedoKey,
    text: &[u8],
)
    requires { length block.old ≡ 4096 }
{
    assert!(rt; number < 100);
    match read_block(block, number) {
        Ok(view) => {
            assert_eq!(rt; view.version(), 7);
            assert_eq!(rt; view.used(), used);
            assert_eq!(rt; (view.first(), view.last()), flags);
            assert_eq!(rt; view.body().len(), 4076);
        }
        Err(_) => assert!(rt; false),
    }
    let other = read_block(block, number + 1).err();
    assert!(rt;
        other
            == Some(BlockFault::WrongNumber {
                wanted: number + 1,
                found: number
            })
    );
    block[4095] ^= 0xff;
    assert!(rt; matches!(read_block(block, number), Err(BlockFault::BadBlock { .. })));
    block[4095] ^= 0xff;
    decipher_block(block, key);
    assert!(rt; used <= 4076);
    assert!(rt; &block[16..16 + used as usize] == text);
}

// Block k of a text, whose block 0 is block 2 of the log.
fn check_nth(
    rt: &impl Abort,
    out: &mut [u8],
    k: usize,
    used: u16,
    flags: (bool, bool),
    key: &RedoKey,
    text: &[u8],
) {
    assert!(rt; k < 90);
    let at = 4096 * k;
    assert!(rt; at + 4096 <= out.len());
    let from = 4076 * k;
    let to = from + used as usize;
    assert!(rt; to <= text.len());
    check_block(
        rt,
        &mut out[at..at + 4096],
        2 + k as u64,
        used,
        flags,
        key,
        &text[from..to],
    );
}

// A block with other bytes at a place, under a right checksum, is refused so.
fn check_changed(rt: &impl Abort, block: &mut [u8], at: usize, new: &[u8], fault: BlockFault) {
    assert_eq!(rt; block.len(), 4096);
    put(block, 0, &[0, 0, 0, 0, 0, 0, 0, 2, 0, 0, 0, 7, 0, 36, 0, 3]);
    assert!(rt; at < 4000);
    assert!(rt; new.len() < 10);
    put(block, at, new);
    write_sum(block);
    assert!(rt; read_block(block, 2).err() == Some(fault));
}

#[test]
fn the_iv_of_block_2(rt: HostRuntime) {
    let iv = [0xf0, 0xff, 0xff, 0xff, 0, 0, 0, 0, 2, 0, 0, 0, 0, 0, 0, 0];
    assert_eq!(rt; log_iv(2), iv);
}

// The two puts in one block: its first 32 bytes and its last 20.
fn check_two_puts(
    rt: &impl Abort,
    alloc: Global,
    key: &RedoKey,
    start: &[u8],
    end: &[u8],
) -> Result<(), OutOfMemory>
    requires { 1 ≤ key.now.version }
{
    let mut list = Vec::new(alloc);
    list.push(put_aa(alloc, 1, 1)?)?;
    list.push(put_aa(alloc, 2, 1)?)?;
    let mtr = Mtr::of(list);
    let count = mtr_blocks(&mtr);
    assert_eq!(rt; count, 1);
    let mut out = encode(alloc, &mtr, 2, key)?;
    assert_eq!(rt; out.len(), 4096);
    assert!(rt; out.starts_with(start));
    assert!(rt; out.ends_with(end));
    let text = [
        1, 0, 0, 0, 5, 0, 0, 0, 1, 0, 0, 0, 38, 0, 0, 0, 1, 0xaa, 1, 0, 0, 0, 5, 0, 0, 0, 2, 0, 0,
        0, 38, 0, 0, 0, 1, 0xaa,
    ];
    check_block(rt, &mut out, 2, 36, (true, true), key, &text);
    Ok(())
}

#[test]
fn two_puts_are_one_block(rt: HostRuntime) -> Result<(), Fail> {
    let cbc_start = [
        0, 0, 0, 0, 0, 0, 0, 2, 0, 0, 0, 7, 0, 36, 0, 3, 0xb5, 0x31, 0x39, 0x49, 0x2e, 0x7c, 0x92,
        0x22, 0x48, 0x53, 0x09, 0xce, 0x6c, 0x20, 0x33, 0xbe,
    ];
    let cbc_end = [
        0x2f, 0xd8, 0xc2, 0xb3, 0x9a, 0xcc, 0x79, 0x45, 0xb3, 0x2c, 0xcd, 0xdc, 0x52, 0x74, 0x1a,
        0xb0, 0x6e, 0x79, 0xd8, 0xcd,
    ];
    let ctr_start = [
        0, 0, 0, 0, 0, 0, 0, 2, 0, 0, 0, 7, 0, 36, 0, 3, 0x9b, 0xcc, 0x79, 0x45, 0xb6, 0x2c, 0xcd,
        0xdc, 0x53, 0x74, 0x1a, 0xb0, 0x89, 0x04, 0x57, 0xbb,
    ];
    let ctr_end = [
        0xbd, 0xed, 0x91, 0x03, 0x76, 0x38, 0xf1, 0xa7, 0x18, 0xa3, 0x0b, 0x75, 0x9c, 0xfa, 0x86,
        0x2d, 0x6c, 0xb8, 0xd0, 0xbc,
    ];
    let alloc = rt.alloc();
    check_two_puts(&rt, alloc, &key(Algorithm::Cbc), &cbc_start, &cbc_end)?;
    check_two_puts(&rt, alloc, &key(Algorithm::Ctr), &ctr_start, &ctr_end)?;
    Ok(())
}

#[test]
fn three_blocks_of_9000_bytes(rt: HostRuntime) -> Result<(), Fail> {
    let alloc = rt.alloc();
    let key = key(Algorithm::Ctr);
    let mut list = Vec::new(alloc);
    list.push(put_aa(alloc, 1, 8983)?)?;
    let mtr = Mtr::of(list);
    let count = mtr_blocks(&mtr);
    assert_eq!(rt; count, 3);
    let mut out = encode(alloc, &mtr, 2, &key)?;
    assert_eq!(rt; out.len(), 3 * 4096);
    let mut text = repeated(alloc, 0xaa, 9000)?;
    text[..17].copy_from_slice(&[1, 0, 0, 0, 5, 0, 0, 0, 1, 0, 0, 0, 38, 0, 0, 0x23, 0x17]);
    let blocks = [
        (0, 4076, (true, false)),
        (1, 4076, (false, false)),
        (2, 848, (false, true)),
    ];
    for (k, used, flags) in blocks {
        check_nth(&rt, &mut out, k, used, flags, &key, &text);
    }
    Ok(())
}

#[test]
fn heads_that_the_format_does_not_allow(rt: HostRuntime) -> Result<(), Fail> {
    let mut block = repeated(rt.alloc(), 0, 4096)?;
    let heads: [(usize, u16, usize); 6] = [
        (12, 0, 12),
        (12, 4077, 12),
        (14, 1, 12),
        (14, 0, 12),
        (14, 4, 12),
        (14, 7, 14),
    ];
    for (at, value, fault) in heads {
        let [high, low] = value.to_be_bytes();
        check_changed(
            &rt,
            &mut block,
            at,
            &[high, low],
            BlockFault::BadHead { at: fault },
        );
    }
    check_changed(
        &rt,
        &mut block,
        8,
        &[0, 0, 0, 0],
        BlockFault::BadHead { at: 8 },
    );
    Ok(())
}

fn write_page(text: &mut Vec<u8>, kind: u8, space: u32, page: u32) -> Result<(), AllocError> {
    text.extend_from_slice(&[kind])?;
    text.extend_from_slice(&space.to_be_bytes())?;
    text.extend_from_slice(&page.to_be_bytes())
}

fn write_view(text: &mut Vec<u8>, view: &ChangeView) -> Result<(), AllocError> {
    match view {
        ChangeView::Put {
            space,
            page,
            at,
            bytes,
        } => {
            write_page(text, 1, *space, *page)?;
            text.extend_from_slice(&at.to_be_bytes())?;
            text.extend_from_slice(&(bytes.len() as u64).to_be_bytes()[4..])?;
            text.extend_from_slice(bytes)
        }
        ChangeView::Kind { space, page, kind } => {
            write_page(text, 2, *space, *page)?;
            text.extend_from_slice(&kind.to_be_bytes())
        }
        ChangeView::Touch { space, page } => write_page(text, 3, *space, *page),
        ChangeView::Floor { space, version } => write_page(text, 4, *space, *version),
        ChangeView::Encrypt { space } => {
            text.extend_from_slice(&[5])?;
            text.extend_from_slice(&space.to_be_bytes())
        }
    }
}

// Reads a text to its end or to the first place where no change begins: what was read is the text, up
// to that place. None where the whole was read.
fn read_all(rt: &impl Abort, alloc: Global, text: &[u8]) -> Result<Option<usize>, AllocError> {
    let mut changes = Changes::new(text);
    let mut read = Vec::new(alloc);
    for _ in 0..text.len() {
        match changes.next() {
            Ok(Some(view)) => write_view(&mut read, &view)?,
            Ok(None) => break,
            Err(BadRecord { at }) => {
                assert!(rt; at < text.len());
                assert!(rt; &read[..] == &text[..at]);
                return Ok(Some(at));
            }
        }
    }
    assert!(rt; &read[..] == text);
    Ok(None)
}

// Each prefix of a text, and the text with each of its bytes inverted.
fn check_text(rt: &impl Abort, alloc: Global, text: &[u8]) -> Result<(), AllocError> {
    assert!(rt; read_all(rt, alloc, text)?.is_none());
    for i in 0..text.len() {
        read_all(rt, alloc, &text[..i])?;
        let mut other = text.to_vec(alloc)?;
        other[i] ^= 0xff;
        read_all(rt, alloc, &other)?;
    }
    Ok(())
}

#[test]
fn texts_of_changes(rt: HostRuntime) -> Result<(), Fail> {
    let alloc = rt.alloc();
    let put = [1, 0, 0, 0, 5, 0, 0, 0, 1, 0, 0, 0, 38, 0, 0, 0, 1, 0xaa];
    let kind = [2, 0, 0, 0, 5, 0, 0, 0, 1, 0x45, 0xbf];
    let touch = [3, 0, 0, 0, 5, 0, 0, 0, 0];
    let floor = [4, 0, 0, 0, 5, 0, 0, 0, 7];
    let encrypt = [5, 0, 0, 0, 5];
    let texts: [&[u8]; 5] = [&put, &kind, &touch, &floor, &encrypt];
    for text in texts {
        check_text(&rt, alloc, text)?;
    }
    let bad: [(&[u8], usize, u8); 7] = [
        (&put, 0, 0),
        (&put, 0, 6),
        (&put, 8, 0),
        (&put, 12, 37),
        (&put, 16, 0),
        (&kind, 8, 0),
        (&encrypt, 0, 4),
    ];
    for (text, at, byte) in bad {
        let mut other = encrypt.to_vec(alloc)?;
        other.extend_from_slice(text)?;
        other[5 + at] = byte;
        assert!(rt; read_all(&rt, alloc, &other)? == Some(5));
    }
    Ok(())
}
