// The changes of a text.
ghost use Rattle.std.specs.Prelude.{◌≡◌, List, IfOk};
ghost use Rattle.redo_text.specs.Changes.{change_of};
ghost use Rattle.image_log.specs.Logs.{AreChangesOf};

use cause_core::OutOfMemory;
use redo_text::{BadRecord, Change, ChangeView, Changes, Mtr, Piece};
use std::alloc::Global;

// A change with its own bytes.
fn owned(alloc: Global, view: ChangeView) -> Result<Change, OutOfMemory>
    ensures { IfOk result (λ change. change ≡ change_of view.entry) }
{
    Ok(match view {
        ChangeView::Put {
            space,
            page,
            at,
            bytes,
        } => Change::Put {
            space,
            page,
            at,
            bytes: Piece::of(bytes.to_vec(alloc)?),
        },
        ChangeView::Kind { space, page, kind } => Change::Kind { space, page, kind },
        ChangeView::Touch { space, page } => Change::Touch { space, page },
        ChangeView::Floor { space, version } => Change::Floor { space, version },
        ChangeView::Encrypt { space } => Change::Encrypt { space },
    })
}

// The changes whose text this is, or the first place in it where none begins.
pub(crate) fn changes_of(alloc: Global, text: &[u8]) -> Result<Result<Mtr, BadRecord>, OutOfMemory>
    ensures { IfOk result (AreChangesOf text.now) }
{
    let mut changes = Vec::new(alloc);
    let mut reader = Changes::new(text);
    'reading: loop {
        match reader.next() {
            Ok(Some(view)) => changes.push(owned(alloc, view)?)?,
            Ok(None) => return Ok(Ok(Mtr::of(changes))),
            Err(bad) => return Ok(Err(bad)),
        }
    }
}
