// The space of a page is found among those of a header.
ghost use Rattle.std.specs.Prelude.{◌≡◌, false, map, IfSome, IfNone};
ghost use Rattle.store_files.specs.Pages.{has_page};
ghost use Rattle.store_form.specs.Said.{space_said};
ghost use Rattle.recovery.specs.SpaceList.{IsPlaceOf};

use store_form::HeaderSpace;

// The place of the space that has this page, where one of these has it.
pub(crate) fn place_of(spaces: &[HeaderSpace], space: u32, page: u32) -> Option<usize>
    ensures some { IfSome result (IsPlaceOf (map space_said spaces.now) space page) }
    ensures none { IfNone result (has_page (map space_said spaces.now) space page ≡ false) }
{
    for i in 0..spaces.len() {
        if spaces[i].space == space {
            if page < spaces[i].pages {
                return Some(i);
            }
            return None;
        }
    }
    None
}
