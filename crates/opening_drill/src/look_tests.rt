// What is found of a store before anything of it is written, and what it is refused for. The checksums
// that are told are those of a CRC-32C bit by bit.
use crate::laid::{
    change_byte, first_page, page_text, ring_of, store, write_block, write_home, write_slot,
};
use crate::{LaidFiles, disk_of};
use disk_model::FileName;
use doublewrite::OpenRefuse;
use recovery::{Analysis, NoteSource, PageNote, look};
use std::process::Abort;
use std::test::Fail;

// What looking at these files answers under these versions of key 1, of which the first is active.
fn answer(
    rt: &HostRuntime,
    files: LaidFiles,
    versions: &[u32],
) -> Result<Result<Analysis, OpenRefuse>, Fail> {
    let ring = ring_of(rt.alloc(), versions)?;
    let active = versions.first().copied().unwrap_or(1);
    let mut disk = disk_of(rt.alloc(), files)?;
    Ok(look(rt.alloc(), &mut disk, &ring, active))
}

fn refusal(rt: &HostRuntime, files: LaidFiles, versions: &[u32]) -> Result<OpenRefuse, Fail> {
    match answer(rt, files, versions)? {
        Ok(_) => Err(Fail::new("not refused")),
        Err(why) => Ok(why),
    }
}

fn found(rt: &HostRuntime, files: LaidFiles, versions: &[u32]) -> Result<Analysis, Fail> {
    match answer(rt, files, versions)? {
        Ok(found) => Ok(found),
        Err(_) => Err(Fail::new("refused")),
    }
}

// The note of a page of the store's space, and the LSN of its last change.
fn note_of(rt: &impl Abort, found: &Analysis, page: usize) -> (PageNote, u64) {
    assert!(rt; found.notes.len() == 1 && found.changes.last.len() == 1);
    let notes = found.notes.get(0);
    let last = found.changes.last.get(0);
    assert!(rt; page < notes.len() && page < last.len());
    (*notes.get(page), last.get(page))
}

fn note(source: NoteSource, lsn: u64) -> PageNote {
    PageNote { source, lsn }
}

// Page 1 has a torn home and a copy, page 2 a home; the run touches page 3 and lets the floor be 1.
#[test]
fn a_store_is_looked_at(rt: HostRuntime) -> Result<(), Fail> {
    let mut files = store(&rt, rt.alloc())?;
    let copy = page_text(&rt, 1, 0, 12288);
    write_home(&rt, &mut files.space, 1, &copy[1..]);
    write_slot(&rt, &mut files.double, 7, 5, 1, &copy);
    write_home(&rt, &mut files.space, 2, &page_text(&rt, 2, 2, 8193));
    write_block(
        &rt,
        rt.alloc(),
        &mut files.log,
        2,
        1,
        &[3, 0, 0, 0, 5, 0, 0, 0, 3],
    )?;
    write_block(
        &rt,
        rt.alloc(),
        &mut files.log,
        3,
        1,
        &[4, 0, 0, 0, 5, 0, 0, 0, 1],
    )?;
    let found = found(&rt, files, &[1, 2])?;
    assert!(rt; found.checkpoint.from == 2 && found.run.last == 3);
    assert!(rt; note_of(&rt, &found, 0) == (note(NoteSource::Home(0), 8192), 16384));
    assert!(rt; note_of(&rt, &found, 1) == (note(NoteSource::Copy(0), 12288), 0));
    assert!(rt; note_of(&rt, &found, 2) == (note(NoteSource::Home(2), 8193), 0));
    assert!(rt; note_of(&rt, &found, 3) == (note(NoteSource::Unused, 0), 12288));
    let spaces = found.changes.spaces.as_slice();
    assert!(rt; spaces.len() == 1 && spaces[0].floor == 1 && spaces[0].salt == [9; 16]);
    Ok(())
}

fn damaged(at: u64, stored: u32, computed: u32) -> OpenRefuse {
    OpenRefuse::Damaged {
        file: FileName::Space(5),
        at,
        stored,
        computed,
    }
}

fn mixed(at: u64, wanted: u64, found: u64) -> OpenRefuse {
    OpenRefuse::Mixed {
        file: FileName::Space(5),
        at,
        wanted,
        found,
    }
}

#[test]
fn the_first_page_that_cant_be_read_is_refused(rt: HostRuntime) -> Result<(), Fail> {
    let mut unused = store(&rt, rt.alloc())?;
    write_home(&rt, &mut unused.space, 0, &[0; 16384]);
    assert!(rt; refusal(&rt, unused, &[1])? == damaged(0, 0, 0xdd9e_4f5a));
    let mut torn = store(&rt, rt.alloc())?;
    let mut text = page_text(&rt, 1, 0, 12288);
    text[100] = 0x41;
    write_home(&rt, &mut torn.space, 1, &text);
    write_home(&rt, &mut torn.space, 2, &text);
    write_slot(&rt, &mut torn.double, 0, 6, 1, &page_text(&rt, 1, 0, 12288));
    let wanted = damaged(16384, 0xdbac_8fb2, 0x663e_6bdf);
    assert!(rt; refusal(&rt, torn, &[1])? == wanted);
    let mut other = store(&rt, rt.alloc())?;
    write_home(&rt, &mut other.space, 2, &page_text(&rt, 3, 0, 12288));
    write_slot(
        &rt,
        &mut other.double,
        0,
        5,
        2,
        &page_text(&rt, 2, 0, 12288),
    );
    assert!(rt; refusal(&rt, other, &[1])? == mixed(32772, 2, 3));
    Ok(())
}

// A byte of page 0, what it becomes, and the refusal: the field's place, the number that is wanted and
// the one that is found.
const WRONG_FIELDS: [(usize, u8, u64, u64, u64); 10] = [
    (3, 1, 0, 0, 1),
    (25, 9, 24, 8, 9),
    (41, 6, 38, 5, 6),
    (49, 5, 46, 4, 5),
    (57, 0x14, 54, 0x15, 0x14),
    (10433, 0x75, 10428, 0x730e_0c52_4574, 0x730e_0c52_4575),
    (10434, 2, 10434, 1, 2),
    (10435, 17, 10435, 16, 17),
    (10459, 2, 10456, 1, 2),
    (10460, 3, 10460, 2, 3),
];

#[test]
fn the_first_wrong_field_of_page_0_is_refused(rt: HostRuntime) -> Result<(), Fail> {
    for (place, byte, at, wanted, found) in WRONG_FIELDS {
        let mut files = store(&rt, rt.alloc())?;
        let mut text = first_page(&rt);
        change_byte(&rt, &mut text, place, byte);
        change_byte(&rt, &mut text, 10460, 3);
        write_home(&rt, &mut files.space, 0, &text);
        assert!(rt;
            refusal(&rt, files, &[1])? == mixed(at, wanted, found),
            "at {at}"
        );
    }
    Ok(())
}

fn missing(version: u32) -> OpenRefuse {
    OpenRefuse::MissingKey { id: 1, version }
}

// A page names version 2, a live copy of it version 4, the run version 3.
#[test]
fn the_least_key_that_is_missing_is_told(rt: HostRuntime) -> Result<(), Fail> {
    assert!(rt; refusal(&rt, store(&rt, rt.alloc())?, &[])? == missing(1));
    for (versions, lacks) in [([1, 5, 6, 7], 2), ([1, 2, 4, 5], 3), ([1, 2, 3, 5], 4)] {
        let mut files = store(&rt, rt.alloc())?;
        write_home(&rt, &mut files.space, 2, &page_text(&rt, 2, 2, 8193));
        write_slot(
            &rt,
            &mut files.double,
            63,
            5,
            2,
            &page_text(&rt, 2, 4, 8194),
        );
        write_slot(
            &rt,
            &mut files.double,
            62,
            5,
            2,
            &page_text(&rt, 2, 8, 8193),
        );
        write_block(
            &rt,
            rt.alloc(),
            &mut files.log,
            2,
            3,
            &[3, 0, 0, 0, 5, 0, 0, 0, 3],
        )?;
        assert!(rt; refusal(&rt, files, &versions)? == missing(lacks));
    }
    Ok(())
}

// The run's second mini-transaction doesn't say changes of the store's pages.
#[test]
fn a_text_of_no_changes_is_refused(rt: HostRuntime) -> Result<(), Fail> {
    let touch = [3, 0, 0, 0, 5, 0, 0, 0, 1];
    let texts: [(&[u8], usize); 5] = [
        (&[6], 0),
        (&[3, 0, 0, 0, 6, 0, 0, 0, 1], 0),
        (&[3, 0, 0, 0, 5, 0, 0, 0, 4], 0),
        (&[3, 0, 0, 0, 5, 0, 0, 0, 3, 5, 0, 0, 0, 6], 9),
        (&[2, 0, 0, 0, 5, 0, 0, 0, 3, 0, 0, 5, 0, 0, 0], 11),
    ];
    for (text, at) in texts {
        let mut files = store(&rt, rt.alloc())?;
        write_block(&rt, rt.alloc(), &mut files.log, 2, 1, &touch)?;
        write_block(&rt, rt.alloc(), &mut files.log, 3, 1, text)?;
        let wanted = OpenRefuse::BadRecord { number: 3, at };
        assert!(rt; refusal(&rt, files, &[1])? == wanted, "at {at}");
    }
    Ok(())
}

#[test]
fn a_floor_of_the_run_is_looked_at(rt: HostRuntime) -> Result<(), Fail> {
    let mut files = store(&rt, rt.alloc())?;
    write_block(
        &rt,
        rt.alloc(),
        &mut files.log,
        2,
        1,
        &[4, 0, 0, 0, 5, 0, 0, 0, 2],
    )?;
    let wanted = OpenRefuse::VersionBelowFloor {
        space: 5,
        floor: 2,
        version: 1,
    };
    assert!(rt; refusal(&rt, files, &[1])? == wanted);
    Ok(())
}
