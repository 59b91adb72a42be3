// What a page is read from.
ghost use Rattle.std.specs.Prelude.{◌≡◌, ◌≤◌, ◌<◌, ◌*◌, length, true, false, not, ◌&&◌, nat_eq};
ghost use Rattle.page_places.specs.Placed.{IsPlaced};
ghost use Rattle.page_places.specs.Texts.{ends_in_sum, page_bytes, slot_size};
ghost use Rattle.byte_list.specs.Fields.{be32_at};
ghost use Rattle.image_pages.specs.Choosing.{IsTextChoice};
ghost use Rattle.store_image.specs.View.{slot_count};

use crate::copies::newest_copy;
use crate::texts::{are_zero, is_page_text};
use bytes_core::ends_in_crc32c;

/// What a page is read from.
#[derive(Clone, Copy, Debug, PartialEq, Eq)]
pub enum Chosen {
    /// Its home.
    Home,
    /// The copy in this slot of the doublewrite file, 0 to 63.
    Copy(usize),
    /// The page is unused: its home is zero bytes, and no slot has a copy.
    Unused,
    /// Nothing: it can't be read.
    Nothing,
}

/// Tells what a page is read from, by the 16384 bytes of its home and the bytes of the doublewrite
/// file.
pub fn chosen_text(home: &[u8], double: &[u8], space: u32, page: u32) -> Chosen
    requires home { length home.now ≡ page_bytes }
    requires double { length double.now ≡ slot_count * slot_size }
    ensures { IsTextChoice home.now double.now space page result }
{
    if is_page_text(home, page) {
        return Chosen::Home;
    }
    if let Some(newest) = newest_copy(double, space, page) {
        return Chosen::Copy(newest.index);
    }
    if are_zero(home) {
        return Chosen::Unused;
    }
    Chosen::Nothing
}

/// Whether a home's 16384 bytes aren't the text of another page: they are zero bytes or this page's
/// text, or their checksum doesn't match.
pub fn is_placed(home: &[u8], page: u32) -> bool
    requires { length home.now ≡ page_bytes }
    ensures yes { result ≡ true → IsPlaced page home.now }
    ensures no { result ≡ false → IsPlaced page home.now → ⊥ }
{
    if is_page_text(home, page) {
        return true;
    }
    if are_zero(home) {
        return true;
    }
    if ends_in_crc32c(home) {
        return false;
    }
    true
}
