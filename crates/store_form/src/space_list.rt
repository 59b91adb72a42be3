// The list of spaces in a header.
ghost use Rattle.std.specs.Prelude.{◌≡◌, ◌+◌, ◌≤◌, ◌<◌, length, take, map, nat_lt, nat_le, ◌&&◌};
ghost use Rattle.byte_list.specs.Fields.{be32_at};
ghost use Rattle.store_files.specs.Header.{are_in_order, pages_together, spaces_at, header_spaces_at, held_space_bytes, most_spaces};
ghost use Rattle.store_image.specs.View.{block_bytes};
ghost use Rattle.store_form.specs.Said.{space_said};
ghost use Rattle.store_image.specs.Ivs.{last_space};

use crate::HeaderSpace;
use byte_list::fields::be32_at;
use store_files::LAST_SPACE;

/// The most spaces that a store has.
pub(crate) const MOST_SPACES: usize = store_files::MOST_SPACES;

// The place of the first space in a header, and the bytes of one.
const SPACES_AT: usize = store_files::HEADER_SPACES_AT;

const SPACE_BYTES: usize = store_files::HELD_SPACE_BYTES;

fn read_space(block: &[u8], at: usize) -> HeaderSpace
    requires { at + held_space_bytes ≤ length block.now }
    ensures space { result.space ≡ be32_at block.now at }
    ensures pages { result.pages ≡ be32_at block.now (at + 4) }
    ensures key_id { result.key_id ≡ be32_at block.now (at + 8) }
{
    HeaderSpace {
        space: be32_at(block, at),
        pages: be32_at(block, at + 4),
        key_id: be32_at(block, at + 8),
    }
}

// The spaces of a header, and behind them none.
pub(crate) fn read_spaces(block: &[u8], count: usize) -> [HeaderSpace; MOST_SPACES]
    requires size { length block.now ≡ block_bytes }
    requires few { count ≤ most_spaces }
    ensures { map space_said (take count result) ≡ spaces_at block.now header_spaces_at count }
{
    let mut spaces = [HeaderSpace {
        space: 0,
        pages: 0,
        key_id: 0,
    }; MOST_SPACES];
    for i in 0..count {
        spaces[i] = read_space(block, SPACES_AT + SPACE_BYTES * i);
    }
    spaces
}

// Whether a space may stand behind one of this id.
fn is_behind(id: u32, space: &HeaderSpace) -> bool
    ensures { result ≡ (nat_lt id space.now.space && (nat_le space.now.space last_space && (nat_le 2 space.now.pages && nat_le 1 space.now.key_id))) }
{
    id < space.space && space.space <= LAST_SPACE && 2 <= space.pages && 1 <= space.key_id
}

// Whether each id is above the one before it, and ids, pages and key ids are within their limits.
pub(crate) fn are_in_order(spaces: &[HeaderSpace]) -> bool
    ensures { result ≡ are_in_order 0 (map space_said spaces.now) }
{
    let mut id = 0;
    for i in 0..spaces.len() {
        if !is_behind(id, &spaces[i]) {
            return false;
        }
        id = spaces[i].space;
    }
    true
}

// The pages of all spaces together.
pub(crate) fn pages_together(spaces: &[HeaderSpace]) -> u64
    requires { length spaces.now ≤ most_spaces }
    ensures { result ≡ pages_together (map space_said spaces.now) }
{
    let mut pages = 0u64;
    for i in 0..spaces.len() {
        pages += u64::from(spaces[i].pages);
    }
    pages
}
