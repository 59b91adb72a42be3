// The bytes of a slot.
ghost use Rattle.std.specs.Prelude.{◌≡◌, ◌+◌, ◌≤◌, length, take, drop};
ghost use Rattle.byte_list.specs.Bytes.{put, zeros};
ghost use Rattle.doublewrite.specs.Text.{page_number_of};
ghost use Rattle.page_places.specs.Texts.{slot_words, slot_bytes, page_bytes, slot_size};

use byte_list::fields::{be32_at, put};
use bytes_core::Crc32c;
use page_places::{PAGE_NUMBER_AT, SLOT_HEAD_BYTES};

// A slot of the doublewrite file in bytes: a head, its checksum and a page text.
pub(crate) const SLOT: usize = page_places::SLOT_BYTES;
// How many slots the file has.
pub(crate) const SLOTS: usize = page_places::SLOTS;

// The same for places of slots in the file.
pub(crate) const SLOT_BYTES: u64 = page_places::SLOT_BYTES as u64;

// The bytes of the head that say something.
const WORDS: usize = page_places::SLOT_ZEROS_AT;

// Where the page text stands in a slot, behind the checksum of four bytes.
const TEXT: usize = SLOT_HEAD_BYTES + 4;

#[tactic(auto, unfolding(byte_list::specs::Bytes::zeros))]
fn clear_part(bytes: &mut [u8], at: usize, n: usize)
    requires { at + n ≤ length bytes.old }
    ensures { bytes.new ≡ put at (zeros n) bytes.old }
{
    bytes[at..at + n].fill(0);
}

fn part(bytes: &[u8], at: usize, n: usize) -> &[u8]
    requires { at + n ≤ length bytes.now }
    ensures { result.now ≡ take n (drop at bytes.now) }
{
    &bytes[at..at + n]
}

#[tactic(auto, unfolding(page_places::specs::Texts::slot_words))]
fn words(space: u32, page: u32, batch: u64) -> [u8; 24]
    ensures { result ≡ slot_words space page batch }
{
    let [a, b, c, d] = space.to_be_bytes();
    let [e, f, g, h] = page.to_be_bytes();
    let [i, j, k, l, m, n, o, p] = batch.to_be_bytes();
    [
        b'D', b'W', b'S', b'L', b'O', b'T', b'0', b'1', a, b, c, d, e, f, g, h, i, j, k, l, m, n,
        o, p,
    ]
}

// Makes of the bytes of a slot the one of a page text.
pub(crate) fn fill_slot(slot: &mut [u8], space: u32, batch: u64, text: &[u8])
    requires size { length slot.old ≡ slot_size }
    requires text { length text.now ≡ page_bytes }
    ensures { slot.new ≡ slot_bytes space (page_number_of text.now) batch text.now }
{
    put(slot, 0, &words(space, be32_at(text, PAGE_NUMBER_AT), batch));
    clear_part(slot, WORDS, SLOT_HEAD_BYTES - WORDS);
    let mut sum = Crc32c::new();
    sum.update(part(slot, 0, SLOT_HEAD_BYTES));
    sum.update(text);
    put(slot, SLOT_HEAD_BYTES, &sum.finish().to_be_bytes());
    put(slot, TEXT, text);
}
