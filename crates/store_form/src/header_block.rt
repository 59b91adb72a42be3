// The block of a store's header.
ghost use Rattle.std.specs.Prelude.{◌≡◌, ℕ, List, ◌+◌, ◌-◌, ◌*◌, ◌≤◌, ◌<◌, ◌++◌, [], ◌∷◌, length, map};
ghost use Rattle.byte_list.specs.Bytes.{put, zeros};
ghost use Rattle.store_files.specs.Header.{algorithm_code, header_bytes, space_words, header_spaces_at, held_space_bytes, most_ring_blocks, most_spaces};
ghost use Rattle.store_image.specs.View.{block_bytes};
ghost use Rattle.store_form.specs.HeaderParts.{first_words, with_checksum, space_part};
ghost use Rattle.store_form.specs.Said.{header_said, space_said};

use crate::first_page::clear;
use crate::{Header, HeaderSpace};
use aes_core::Algorithm;
use byte_list::fields::{put, put_be32};
use bytes_core::crc32c;
use store_files::{HEADER_ALGORITHM_AT, HEADER_SALT_AT, HEADER_SPACES_AT, HELD_SPACE_BYTES};

// AES_CBC has the number 1, AES_CTR the number 2.
#[tactic(auto, unfolding(store_files::specs::Header::algorithm_code))]
fn code_of(algorithm: Algorithm) -> u32
    ensures { result ≡ algorithm_code algorithm }
{
    match algorithm {
        Algorithm::Cbc => 1,
        Algorithm::Ctr => 2,
    }
}

// The magic, the format, the page size, the number of ring blocks and that of spaces.
#[tactic(auto, unfolding(crate::specs::HeaderParts::first_words))]
fn first_words(blocks: u32, count: u32) -> [u8; 24]
    ensures { result ≡ first_words blocks count }
{
    let [a, b, c, d] = blocks.to_be_bytes();
    let [e, f, g, h] = count.to_be_bytes();
    [
        b'K', b'E', b'Y', b'S', b'T', b'O', b'R', b'1', 0, 0, 0, 2, 0, 0, 0x40, 0, a, b, c, d, e,
        f, g, h,
    ]
}

#[tactic(auto, unfolding(crate::specs::HeaderParts::space_part))]
fn space_part(space: &HeaderSpace) -> [u8; 12]
    ensures { result ≡ space_part (space_said space.now) }
{
    let [a, b, c, d] = space.space.to_be_bytes();
    let [e, f, g, h] = space.pages.to_be_bytes();
    let [i, j, k, l] = space.key_id.to_be_bytes();
    [a, b, c, d, e, f, g, h, i, j, k, l]
}

fn fill_space(block: &mut [u8], i: usize, space: &HeaderSpace)
    requires long { length block.old ≡ block_bytes }
    requires few { i < most_spaces }
    ensures part { block.new ≡ put (header_spaces_at + held_space_bytes * i) (space_part (space_said space.now)) block.old }
    ensures long { length block.new ≡ block_bytes }
{
    put(
        block,
        HEADER_SPACES_AT + HELD_SPACE_BYTES * i,
        &space_part(space),
    );
}

// The spaces at their place in a block, the rest of which is zero bytes.
fn fill_spaces(block: &mut [u8], spaces: &[HeaderSpace])
    requires long { length block.old ≡ block_bytes }
    requires few { length spaces.now ≤ most_spaces }
    ensures words { (w : List ℕ) → length w ≡ header_spaces_at → block.old ≡ w ++ zeros (block_bytes - header_spaces_at) → block.new ≡ (w ++ space_words (map space_said spaces.now)) ++ zeros (block_bytes - header_spaces_at - held_space_bytes * length spaces.now) }
    ensures long { length block.new ≡ block_bytes }
{
    for i in 0..spaces.len() {
        fill_space(block, i, &spaces[i]);
    }
}

// The checksum of all bytes before it.
fn fill_sum(block: &mut [u8])
    requires { length block.old ≡ block_bytes }
    ensures { block.new ≡ with_checksum block.old }
{
    let end = block.len() - 4;
    let sum = crc32c(&block[..end]);
    put_be32(block, end, sum);
}

// Makes of 4096 bytes the block of a header.
pub(crate) fn fill_header(block: &mut [u8], header: &Header)
    requires long { length block.old ≡ block_bytes }
    requires blocks { header.now.blocks ≤ most_ring_blocks }
    requires count { header.now.count ≤ most_spaces }
    ensures { block.new ≡ header_bytes (header_said header.now) }
{
    clear(block);
    let spaces = &header.spaces[..header.count];
    put(
        block,
        0,
        &first_words(header.blocks as u32, spaces.len() as u32),
    );
    let salt = header.salt;
    put(block, HEADER_SALT_AT, &salt);
    fill_spaces(block, spaces);
    put_be32(block, HEADER_ALGORITHM_AT, code_of(header.algorithm));
    fill_sum(block);
}
