// The copies of a page in the doublewrite file.
ghost use Rattle.std.specs.Prelude.{◌≡◌, ◌≤◌, ◌<◌, ◌+◌, ◌*◌, length};
ghost use Rattle.places.specs.Places.{place};
ghost use Rattle.page_places.specs.Texts.{slot_page, page_bytes, slot_size};
ghost use Rattle.image_pages.specs.Choosing.{Best, IsCopyIn, better};
ghost use Rattle.store_image.specs.View.{slot_count};

use crate::texts::is_slot;
use byte_list::fields::{be32_at, be64_at};
use image_log::place;
use page_places::{PAGE_LSN_AT, SLOT_BYTES, SLOT_HEAD_BYTES, SLOT_PAGE_AT, SLOT_SPACE_AT, SLOTS};

/// A copy of a page: its slot, 0 to 63, and its LSN.
#[derive(Clone, Copy, Debug, PartialEq, Eq)]
pub struct Newest {
    pub index: usize,
    pub lsn: u64,
}

// The LSN of the copy of a page in a slot, where the slot has one.
pub(crate) fn copy_in(slot: &[u8], space: u32, page: u32) -> Option<u64>
    requires { length slot.now ≡ slot_size }
    ensures { IsCopyIn slot.now space page result }
{
    if !is_slot(slot) {
        return None;
    }
    if be32_at(slot, SLOT_SPACE_AT) != space {
        return None;
    }
    if be32_at(slot, SLOT_PAGE_AT) != page {
        return None;
    }
    let (_head, rest) = slot.split_at(SLOT_HEAD_BYTES);
    let (_sum, text) = rest.split_at(4);
    Some(be64_at(text, PAGE_LSN_AT))
}

// Of two copies the newer, of two of one LSN the first.
fn better(best: Option<Newest>, copy: Option<u64>, index: usize) -> Option<Newest>
    ensures { result ≡ better best copy index }
{
    match (best, copy) {
        (best, None) => best,
        (None, Some(lsn)) => Some(Newest { index, lsn }),
        (Some(newest), Some(lsn)) => {
            if lsn <= newest.lsn {
                Some(newest)
            } else {
                Some(Newest { index, lsn })
            }
        }
    }
}

/// The page's valid copy of greatest LSN among the 64 slots of the doublewrite file, of several the
/// one of least index.
pub fn newest_copy(double: &[u8], space: u32, page: u32) -> Option<Newest>
    requires { length double.now ≡ slot_count * slot_size }
    ensures { Best double.now space page slot_count result }
{
    let mut best: Option<Newest> = None;
    for index in 0..SLOTS {
        best = better(
            best,
            copy_in(place(double, SLOT_BYTES, index), space, page),
            index,
        );
    }
    best
}

// The page text in a slot, whether or not it is a valid one.
pub(crate) fn slot_text(double: &[u8], index: usize) -> &[u8]
    requires double { length double.now ≡ slot_count * slot_size }
    requires index { index < slot_count }
    ensures bytes { result.now ≡ slot_page (place slot_size index double.now) }
    ensures long { length result.now ≡ page_bytes }
{
    let (_head, rest) = place(double, SLOT_BYTES, index).split_at(SLOT_HEAD_BYTES);
    let (_sum, text) = rest.split_at(4);
    text
}
