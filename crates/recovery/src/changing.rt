// The changes of a mini-transaction are made in the pages of a round.
ghost use Rattle.std.specs.Prelude.{◌≡◌, ◌≤◌, ◌<◌, ◌∷◌, [], length, OnOk, IfErr};
ghost use Rattle.redo_text.specs.Changes.{change_of};
ghost use Rattle.redo_text.specs.Text.{IsAllowed};
ghost use Rattle.image_log.specs.Logs.{HasNoChangeAt};
ghost use Rattle.page_pool.specs.Changes.{page_of_change};
ghost use Rattle.recovery.specs.Changing.{ChangesByText, ChangesRange, is_wanted};
ghost use Rattle.recovery.specs.Loading.{HoldsRange};
ghost use Rattle.recovery.specs.Rounds.{has_later};

use crate::notes::SpaceNotes;
use crate::rounds::{Round, has_later};
use page_pool::{PageName, Pool};
use redo_text::{BadRecord, ChangeView, Changes};

// The page that a change names, page 0 for a change of the space itself.
fn name_of(change: &ChangeView) -> PageName
    ensures { result ≡ page_of_change (change_of change.now) }
{
    match *change {
        ChangeView::Put { space, page, .. } => PageName { space, page },
        ChangeView::Kind { space, page, .. } => PageName { space, page },
        ChangeView::Touch { space, page } => PageName { space, page },
        ChangeView::Floor { space, .. } => PageName { space, page: 0 },
        ChangeView::Encrypt { space } => PageName { space, page: 0 },
    }
}

// Whether a change of this page at an LSN is to be made.
fn is_wanted(round: &Round, notes: &SpaceNotes, last: &[u64], name: PageName, lsn: u64) -> bool
    requires noted { round.now.end ≤ length notes.now }
    requires listed { round.now.end ≤ length last.now }
    ensures { result ≡ is_wanted notes.now last.now round.now.info.space round.now.from round.now.end name lsn }
{
    name.space == round.info.space
        && round.from <= name.page
        && name.page < round.end
        && has_later(notes, last, name.page)
        && notes.get(name.page as usize).lsn < lsn
}

// Makes a change of a page of the round, where it is later than the page's text.
fn apply_change(
    pool: &mut Pool,
    round: &Round,
    notes: &SpaceNotes,
    last: &[u64],
    change: &ChangeView,
    lsn: u64,
)
    requires noted { round.now.end ≤ length notes.now }
    requires listed { round.now.end ≤ length last.now }
    requires allowed { IsAllowed (change_of change.now) }
    requires holds { HoldsRange (has_later notes.now last.now) round.now.info.space round.now.from round.now.end pool.old }
    ensures holds { HoldsRange (has_later notes.now last.now) round.now.info.space round.now.from round.now.end pool.new }
    ensures made { ChangesRange notes.now last.now round.now.info.space round.now.from round.now.end lsn (change_of change.now ∷ []) pool.old pool.new }
{
    if !is_wanted(round, notes, last, name_of(change), lsn) {
        return;
    }
    // The page is dirty already.
    let Ok(()) = pool.apply(change, lsn, 0) else {
        unreachable!();
    };
}

/// Makes the changes of a mini-transaction, by its text, in those pages of the round whose text is
/// older.
///
/// # Errors
/// [`BadRecord`] exactly where the text isn't one of changes, with the place in it at which none
/// begins.
pub fn apply_text(
    pool: &mut Pool,
    round: &Round,
    notes: &SpaceNotes,
    last: &[u64],
    text: &[u8],
    lsn: u64,
) -> Result<(), BadRecord>
    requires noted { round.now.end ≤ length notes.now }
    requires listed { round.now.end ≤ length last.now }
    requires holds { HoldsRange (has_later notes.now last.now) round.now.info.space round.now.from round.now.end pool.old }
    ensures holds { HoldsRange (has_later notes.now last.now) round.now.info.space round.now.from round.now.end pool.new }
    ensures made { OnOk result (ChangesByText notes.now last.now round.now.info.space round.now.from round.now.end lsn text.now pool.old pool.new) }
    ensures refused { IfErr result (λ bad. HasNoChangeAt text.now bad.at) }
{
    let mut changes = Changes::new(text);
    'changes: loop {
        match changes.next() {
            Ok(Some(change)) => apply_change(pool, round, notes, last, &change, lsn),
            Ok(None) => return Ok(()),
            Err(bad) => return Err(bad),
        }
    }
}
