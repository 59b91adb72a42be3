// Page texts and slots, by their bytes alone.
ghost use Rattle.std.specs.Prelude.{◌≡◌, ◌≤◌, ◌<◌, ◌+◌, ◌*◌, ◌++◌, length, true, All};
ghost use Rattle.std.specs.Int.{to_be_bytes, w32};
ghost use Rattle.std.specs.Str.{bytes_eq};
ghost use Rattle.bytes_core.specs.Crc.{crc32c};
ghost use Rattle.page_places.specs.Texts.{has_magic, is_page_text, is_slot, slot_size};

use byte_list::fields::be32_at;
use bytes_core::{Crc32c, ends_in_crc32c};
use page_places::{PAGE_NUMBER_AT, SLOT_HEAD_BYTES, SLOT_PAGE_AT};

#[tactic(auto, unfolding(page_places::specs::Texts::has_magic))]
fn has_magic(slot: &[u8]) -> bool
    requires { 8 ≤ length slot.now }
    ensures { result ≡ has_magic slot.now }
{
    let (magic, _rest) = slot.split_at(8);
    let wanted: &[u8] = b"DWSLOT01";
    magic == wanted
}

fn has_sum(head: &[u8], text: &[u8], sum: &[u8]) -> bool
    ensures { result ≡ bytes_eq sum.now (to_be_bytes w32 (crc32c (head.now ++ text.now))) }
{
    let mut wanted = Crc32c::new();
    wanted.update(head);
    wanted.update(text);
    let wanted = wanted.finish().to_be_bytes();
    let wanted: &[u8] = &wanted;
    sum == wanted
}

// Whether the text's checksum and its page number are right.
pub(crate) fn is_page_text(text: &[u8], number: u32) -> bool
    requires { 8 ≤ length text.now }
    ensures { result ≡ is_page_text number text.now }
{
    ends_in_crc32c(text) && be32_at(text, PAGE_NUMBER_AT) == number
}

pub(crate) fn is_slot(slot: &[u8]) -> bool
    requires { length slot.now ≡ slot_size }
    ensures { result ≡ is_slot slot.now }
{
    if !has_magic(slot) {
        return false;
    }
    let (head, rest) = slot.split_at(SLOT_HEAD_BYTES);
    let (sum, text) = rest.split_at(4);
    if !has_sum(head, text, sum) {
        return false;
    }
    is_page_text(text, be32_at(slot, SLOT_PAGE_AT))
}

pub(crate) fn are_zero(bytes: &[u8]) -> bool
    ensures yes { result ≡ true → All (λ byte. byte ≡ 0) bytes.now }
    ensures no { All (λ byte. byte ≡ 0) bytes.now → result ≡ true }
{
    bytes.iter().all(|byte| *byte == 0)
}
