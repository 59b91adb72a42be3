// A page text, written over a plain page.

ghost use Rattle.std.specs.Prelude.{◌≡◌, ◌≢◌, ◌↔◌, ◌+◌, ◌-◌, ◌%◌, ◌<◌, ◌≤◌, ℕ, IsSome, length, slice_index, take};
ghost use Rattle.std.specs.Int.{to_be_bytes, w32};
ghost use Rattle.bytes_core.specs.Crc.{crc32c};
ghost use Rattle.byte_list.specs.Fields.{be16_at};
ghost use Rattle.byte_list.specs.Bytes.{put};
ghost use Rattle.space_head.specs.Sizes.{IsPageSize};
ghost use Rattle.page_text.specs.Parts.{cipher_part, page_cipher_at, page_frame_size, page_sum_size, page_type_at};
ghost use Rattle.page_text.specs.Text.{FitsPage, IsText, enciphered, inner_start, page_iv, plain_of, start, text};

use crate::layout::{CHECKSUM, CIPHERED, TRAILER, VERSION};
use crate::opening::known_fields;
use crate::{PageKey, PageMut, Seal};
use aes_core::BlockKey;
use byte_list::fields::put;
use bytes_core::crc32c;

// Bytes 0 to 24.
fn start(seal: &Seal) -> [u8; 24]
    ensures { result ≡ start seal.now.page seal.now.lsn seal.now.version }
{
    let v = seal.version.to_be_bytes();
    let p = seal.page.to_be_bytes();
    let l = seal.lsn.to_be_bytes();
    [
        v[0], v[1], v[2], v[3], p[0], p[1], p[2], p[3], 255, 255, 255, 255, 255, 255, 255, 255,
        l[0], l[1], l[2], l[3], l[4], l[5], l[6], l[7],
    ]
}

// Bytes 26 to 38 in clear.
fn inner_start(space: u32) -> [u8; 12]
    ensures { result ≡ inner_start space }
{
    let s = space.to_be_bytes();
    [0, 0, 0, 0, 0, 0, 0, 0, s[0], s[1], s[2], s[3]]
}

// The IV of a page, or its first counter.
pub(crate) fn page_iv(space: u32, page: u32, lsn: u64) -> [u8; 16]
    ensures { result ≡ page_iv space page lsn }
{
    let s = space.to_le_bytes();
    let p = page.to_le_bytes();
    let l = lsn.to_le_bytes();
    [
        s[0], s[1], s[2], s[3], p[0], p[1], p[2], p[3], l[0], l[1], l[2], l[3], l[4], l[5], l[6],
        l[7],
    ]
}

fn encipher(key: &Option<PageKey>, iv: &[u8; 16], bytes: &mut [u8])
    ensures { bytes.new ≡ enciphered key.now iv.now bytes.old }
{
    if let Some(page_key) = key {
        if let Some(block_key) = BlockKey::new(&page_key.local) {
            page_key.algorithm.encrypt(&block_key, iv, bytes);
        } else {
            unreachable!()
        }
    }
}

// Enciphers what stands from byte 26 to the checksum.
fn encipher_part(page: &mut [u8], key: &Option<PageKey>, iv: &[u8; 16])
    requires { page_frame_size ≤ length page.old }
    ensures value { page.new ≡ put page_cipher_at (enciphered key.now iv.now (cipher_part page.old)) page.old }
    ensures long { length (enciphered key.now iv.now (cipher_part page.old)) + 30 ≡ length page.old }
{
    let end = page.len() - CHECKSUM;
    encipher(key, iv, &mut page[CIPHERED..end]);
}

// Writes the checksum of all bytes before the last four into these.
fn write_sum(page: &mut [u8])
    requires { page_frame_size ≤ length page.old }
    ensures { page.new ≡ put (length page.old - page_sum_size) (to_be_bytes w32 (crc32c (take (length page.old - page_sum_size) page.old))) page.old }
{
    let end = page.len() - CHECKSUM;
    let sum = crc32c(&page[..end]);
    put(page, end, &sum.to_be_bytes());
}

// Each element of a page is a byte, and a page has room for its fields.
#[inline(always)]
pub(crate) fn known_page(page: &[u8])
    requires { IsPageSize (length page.now) }
    ensures bytes { (i : ℕ) → slice_index page.now i < 256 }
    ensures least { 4096 ≤ length page.now }
    ensures most { length page.now ≤ 65536 }
{
    let _ = page.len();
}

fn write_text(page: &mut [u8], seal: &Seal)
    requires sized { IsPageSize (length page.old) }
    requires keyed { IsSome seal.now.local ↔ (seal.now.version ≢ 0) }
    ensures { page.new ≡ text seal.now.space seal.now.page seal.now.lsn seal.now.version seal.now.local (plain_of page.old) }
{
    known_page(page);
    put(page, VERSION, &start(seal));
    put(page, CIPHERED, &inner_start(seal.space));
    let low = (seal.lsn % 0x1_0000_0000) as u32;
    let end = page.len() - TRAILER;
    put(page, end, &low.to_be_bytes());
    let iv = page_iv(seal.space, seal.page, seal.lsn);
    encipher_part(page, &seal.local, &iv);
    write_sum(page);
}

pub(crate) fn seal_bytes(page: &mut [u8], seal: &Seal)
    requires sized { IsPageSize (length page.old) }
    requires keyed { IsSome seal.now.local ↔ (seal.now.version ≢ 0) }
    requires fits { FitsPage seal.now.page (be16_at page.old page_type_at) seal.now.version }
    ensures { IsText (length page.old) seal.now.space seal.now.page seal.now.lsn seal.now.version seal.now.local (plain_of page.old) page.new }
{
    known_page(page);
    known_fields(page);
    let _lsn = seal.lsn;
    let _version = seal.version;
    write_text(page, seal);
}

/// Writes the page text over the page's type, in bytes 24 and 25, and its body; no other byte of the
/// page is read. A key must be there exactly where the version isn't 0, page 0 must have type 8 and
/// version 0, and no other page may have type 8 or 9.
pub fn seal(page: &mut PageMut, seal: &Seal)
    requires sized { IsPageSize (length page.old.bytes.now) }
    requires keyed { IsSome seal.now.local ↔ (seal.now.version ≢ 0) }
    requires fits { FitsPage seal.now.page (be16_at page.old.bytes.now page_type_at) seal.now.version }
    ensures text { IsText (length page.old.bytes.now) seal.now.space seal.now.page seal.now.lsn seal.now.version seal.now.local (plain_of page.old.bytes.now) page.new.bytes.now }
    ensures same_reference { page.new.bytes.ghost_name ≡ page.old.bytes.ghost_name }
{
    let bytes = &mut *page.bytes;
    seal_bytes(bytes, seal);
}
