// Pages with later changes are taken in ranges.
use crate::{NoteSource, PageNote, SpaceNotes, next_range};
use std::test::Fail;

fn note(lsn: u64) -> PageNote {
    PageNote {
        source: NoteSource::Home(0),
        lsn,
    }
}

#[test]
fn ranges_end_before_one_page_too_many(rt: HostRuntime) -> Result<(), Fail> {
    let texts = [note(8), note(8), note(0), note(8), note(8)];
    let notes = SpaceNotes::of(Vec::from_slice(rt.alloc(), &texts)?);
    let last = [4, 12, 12, 0, 16];
    assert!(rt; notes.len() == 5);
    assert_eq!(rt; next_range(&notes, &last, 0, 5, 0), 1);
    assert_eq!(rt; next_range(&notes, &last, 0, 5, 1), 2);
    assert_eq!(rt; next_range(&notes, &last, 0, 5, 2), 4);
    assert_eq!(rt; next_range(&notes, &last, 0, 5, 3), 5);
    assert_eq!(rt; next_range(&notes, &last, 2, 4, 1), 4);
    Ok(())
}
