// The pages of a space with later changes are taken in ranges.
ghost use Rattle.std.specs.Prelude.{◌≡◌, ◌-◌, ◌≤◌, ◌<◌, true, length};
ghost use Rattle.recovery.specs.Rounds.{count_in, has_later};

use crate::notes::SpaceNotes;
use space_head::SpaceInfo;

/// Pages of a space, from one up to another.
#[derive(Clone, Copy, Debug, PartialEq, Eq)]
pub struct Round {
    /// The space, as its page 0 says.
    pub info: SpaceInfo,
    /// The first page.
    pub from: u32,
    /// The page behind the last.
    pub end: u32,
}

// Whether a page has changes later than its text.
pub(crate) fn has_later(notes: &SpaceNotes, last: &[u64], page: u32) -> bool
    requires noted { page < length notes.now }
    requires listed { page < length last.now }
    ensures { result ≡ has_later notes.now last.now page }
{
    notes.get(page as usize).lsn < last[page as usize]
}

/// The end of the longest range of pages from this one on, and up to `end` at most, of which at most so
/// many have changes later than their text. Of a space are told the notes of its pages and the LSN of
/// the last change of each in the run, 0 without one.
pub fn next_range(notes: &SpaceNotes, last: &[u64], from: u32, end: u32, most: usize) -> u32
    requires noted { end ≤ length notes.now }
    requires listed { end ≤ length last.now }
    requires order { from ≤ end }
    ensures begins { from ≤ result }
    ensures ends { result ≤ end }
    ensures few { count_in (has_later notes.now last.now) from (result - from) ≤ most }
    // The page behind it would be one too many.
    ensures longest { result < end → (count_in (has_later notes.now last.now) from (result - from) ≡ most) × (has_later notes.now last.now result ≡ true) }
{
    let mut count = 0;
    for page in from..end {
        if has_later(notes, last, page) {
            if count == most {
                return page;
            }
            count += 1;
        }
    }
    end
}
