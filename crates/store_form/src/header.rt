// The header of a store.
ghost use Rattle.std.specs.Prelude.{◌≡◌, ◌≤◌, IfSome, IfNone, Some, None, length, take, map, codes, true, nat_eq, nat_le, ◌&&◌};
ghost use Rattle.page_places.specs.Texts.{ends_in_sum, page_bytes};
ghost use Rattle.byte_list.specs.Fields.{be32_at};
ghost use Rattle.store_files.specs.Header.{are_in_order, header_in, pages_together, header_format_at, header_page_at, header_salt_at, least_ring_blocks, most_store_pages, most_ring_blocks, most_spaces};
ghost use Rattle.store_image.specs.View.{block_bytes};
ghost use Rattle.byte_list.specs.Bytes.{range};
ghost use Rattle.store_form.specs.Said.{algorithm_named, header_said, space_said};

use crate::space_list::{MOST_SPACES, are_in_order, pages_together, read_spaces};
use aes_core::Algorithm;
use byte_list::fields::be32_at;
use bytes_core::ends_in_crc32c;
use store_files::{
    HEADER_ALGORITHM_AT, HEADER_BLOCKS_AT, HEADER_COUNT_AT, HEADER_FORMAT_AT, HEADER_PAGE_AT,
    HEADER_SALT_AT, HEADER_SPACES_AT, LEAST_RING_BLOCKS, MOST_RING_BLOCKS,
};

/// A space, as the header of a store names it.
#[derive(Clone, Copy, Debug, PartialEq, Eq)]
pub struct HeaderSpace {
    /// Its id.
    pub space: u32,
    /// Its size in pages, page 0 included.
    pub pages: u32,
    /// The id of its key.
    pub key_id: u32,
}

/// What the header of a store says.
#[derive(Clone, Copy, Debug, PartialEq, Eq)]
pub struct Header {
    /// The format of the header.
    pub format: u32,
    /// How the store's pages and its log are ciphered.
    pub algorithm: Algorithm,
    /// The number of ring blocks of the log.
    pub blocks: u64,
    /// What the log's local keys are made from.
    pub salt: [u8; 16],
    /// How many of the spaces are the store's.
    pub count: usize,
    /// The spaces, in order of id; those from `count` on are none.
    pub spaces: [HeaderSpace; MOST_SPACES],
}

// The format that is read.
const FORMAT: u32 = 2;

// The bytes of a page.
const PAGE_BYTES: u32 = page_places::PAGE_BYTES as u32;

// The most pages of all spaces together.
const MOST_PAGES: u64 = store_files::MOST_PAGES;

// Whether the last four bytes are the checksum of those before them.
fn ends_in_sum(block: &[u8]) -> bool
    ensures { result ≡ ends_in_sum block.now }
{
    if !ends_in_crc32c(block) {
        return false;
    }
    true
}

fn has_magic(block: &[u8]) -> bool
    requires { length block.now ≡ block_bytes }
    ensures yes { result ≡ true → take 8 block.now ≡ codes "KEYSTOR1" }
    ensures no { take 8 block.now ≡ codes "KEYSTOR1" → result ≡ true }
{
    let (magic, _rest) = block.split_at(8);
    let wanted: &[u8] = b"KEYSTOR1";
    magic == wanted
}

// Whether format and page size are those that are read.
fn has_form(block: &[u8]) -> bool
    requires { length block.now ≡ block_bytes }
    ensures { result ≡ (nat_eq (be32_at block.now header_format_at) 2 && nat_eq (be32_at block.now header_page_at) page_bytes) }
{
    be32_at(block, HEADER_FORMAT_AT) == FORMAT && be32_at(block, HEADER_PAGE_AT) == PAGE_BYTES
}

// Whether a store has so many ring blocks and so many spaces.
fn are_counts(blocks: u32, count: u32) -> bool
    ensures { result ≡ (nat_le least_ring_blocks blocks && (nat_le blocks most_ring_blocks && (nat_le 1 count && nat_le count most_spaces))) }
{
    LEAST_RING_BLOCKS <= blocks
        && blocks <= MOST_RING_BLOCKS
        && 1 <= count
        && count <= MOST_SPACES as u32
}

// Whether the first spaces are in order, each within its limits, and have no more pages than a store.
fn are_spaces(spaces: &[HeaderSpace; MOST_SPACES], count: usize) -> bool
    requires { count ≤ most_spaces }
    ensures { result ≡ (are_in_order 0 (map space_said (take count spaces.now)) && nat_le (pages_together (map space_said (take count spaces.now))) most_store_pages) }
{
    let spaces = &spaces[..count];
    are_in_order(spaces) && pages_together(spaces) <= MOST_PAGES
}

// AES_CBC has the number 1, AES_CTR the number 2.
fn algorithm_of(code: u32) -> Option<Algorithm>
    ensures { result ≡ algorithm_named code }
{
    match code {
        1 => Some(Algorithm::Cbc),
        2 => Some(Algorithm::Ctr),
        _ => None,
    }
}

fn salt_of(block: &[u8]) -> [u8; 16]
    requires { length block.now ≡ block_bytes }
    ensures { result ≡ range header_salt_at 16 block.now }
{
    let mut salt = [0; 16];
    salt.copy_from_slice(&block[HEADER_SALT_AT..HEADER_SPACES_AT]);
    salt
}

/// The header in block 0 of a log, of 4096 bytes. There is none exactly where the block isn't a valid
/// header of format 2. It takes no memory.
pub fn read_header(block: &[u8]) -> Option<Header>
    requires { length block.now ≡ block_bytes }
    ensures some { IfSome result (λ header. header_in block.now ≡ Some (header_said header)) }
    ensures none { IfNone result (header_in block.now ≡ None) }
    ensures format { IfSome result (λ header. header.format ≡ 2) }
    ensures count { IfSome result (λ header. header.count ≤ most_spaces) }
{
    if !ends_in_sum(block) {
        return None;
    }
    if !has_magic(block) {
        return None;
    }
    if !has_form(block) {
        return None;
    }
    let Some(algorithm) = algorithm_of(be32_at(block, HEADER_ALGORITHM_AT)) else {
        return None;
    };
    let blocks = be32_at(block, HEADER_BLOCKS_AT);
    let count = be32_at(block, HEADER_COUNT_AT);
    if !are_counts(blocks, count) {
        return None;
    }
    let count = count as usize;
    let spaces = read_spaces(block, count);
    if !are_spaces(&spaces, count) {
        return None;
    }
    Some(Header {
        format: FORMAT,
        algorithm,
        blocks: u64::from(blocks),
        salt: salt_of(block),
        count,
        spaces,
    })
}
