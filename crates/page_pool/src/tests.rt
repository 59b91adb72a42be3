// The worked rows of the pool, and each call once.

ghost use Rattle.std.specs.Prelude.{IfOk};
ghost use Rattle.redo_text.specs.Text.{AreAllowed};

use crate::{DirtyPage, Pool, PoolFault};
use cause_core::OutOfMemory;
use redo_text::{Change, ChangeView, Mtr, Piece};
use std::alloc::Global;
use std::test::Fail;

fn touch(alloc: Global, page: u32) -> Result<Mtr, Fail>
    ensures { IfOk result AreAllowed }
{
    let mut changes = Vec::new(alloc);
    changes.push(Change::Touch { space: 5, page })?;
    Ok(Mtr::of(changes))
}

#[test]
fn pages_257_one_by_one(rt: HostRuntime) -> Result<(), Fail> {
    let mut pool = Pool::new(rt.alloc())?;
    for page in 1..257 {
        let mtr = touch(rt.alloc(), page)?;
        pool.change(&mtr, 4096 * u64::from(page), u64::from(page))?;
    }
    let mtr = touch(rt.alloc(), 257)?;
    let full = PoolFault::Full {
        dirty: 256,
        fresh: 1,
    };
    assert_eq!(rt; pool.change(&mtr, 4096 * 257, 257), Err(full));
    assert_eq!(rt; pool.dirty().len(), 256);
    assert!(rt; pool.find(5, 257).is_none());
    Ok(())
}

#[test]
fn pages_65_made_clean(rt: HostRuntime) -> Result<(), Fail> {
    let mut pool = Pool::new(rt.alloc())?;
    for page in 1..66 {
        let mtr = touch(rt.alloc(), page)?;
        pool.change(&mtr, 4096, 2)?;
        pool.clean(5, page, 4096);
    }
    assert_eq!(rt; pool.dirty().len(), 0);
    assert!(rt; pool.find(5, 1).is_none());
    assert!(rt; pool.find(5, 2).is_some());
    assert!(rt; pool.find(5, 65).is_some());
    Ok(())
}

// Puts to page 1, its type, a put to page 2.
fn three_changes(alloc: Global) -> Result<Mtr, Fail>
    ensures { IfOk result AreAllowed }
{
    let mut changes = Vec::new(alloc);
    let bytes = Piece::of(Vec::from_slice(alloc, &[0xaa, 0xbb])?);
    changes.push(Change::Put {
        space: 5,
        page: 1,
        at: 38,
        bytes,
    })?;
    changes.push(Change::Kind {
        space: 5,
        page: 1,
        kind: 17855,
    })?;
    let bytes = Piece::of(Vec::from_slice(alloc, &[0xcc])?);
    changes.push(Change::Put {
        space: 5,
        page: 2,
        at: 16375,
        bytes,
    })?;
    Ok(Mtr::of(changes))
}

#[test]
fn changes_of_two_pages(rt: HostRuntime) -> Result<(), Fail> {
    let mut pool = Pool::new(rt.alloc())?;
    pool.admit(5, 1, &[7; 16384])?;
    pool.change(&three_changes(rt.alloc())?, 12288, 2)?;
    let page = pool.find(5, 1).expect(&rt, "page 1");
    assert!(rt; &page[24..26] == [0x45, 0xbf].as_slice());
    assert!(rt; &page[38..41] == [0xaa, 0xbb, 7].as_slice());
    let page = pool.find(5, 2).expect(&rt, "page 2");
    assert!(rt; &page[24..40] == [0; 16].as_slice());
    assert!(rt; &page[16374..16376] == [0, 0xcc].as_slice());
    Ok(())
}

#[test]
fn the_list_of_dirty_pages(rt: HostRuntime) -> Result<(), Fail> {
    let mut pool = Pool::new(rt.alloc())?;
    assert_eq!(rt; pool.oldest(), None);
    pool.change(&touch(rt.alloc(), 9)?, 12288, 2)?;
    pool.change(&touch(rt.alloc(), 3)?, 16384, 3)?;
    pool.change(&touch(rt.alloc(), 9)?, 20480, 4)?;
    let dirty = [
        DirtyPage {
            space: 5,
            page: 9,
            first: 2,
            lsn: 20480,
        },
        DirtyPage {
            space: 5,
            page: 3,
            first: 3,
            lsn: 16384,
        },
    ];
    assert!(rt; pool.dirty() == dirty.as_slice());
    assert_eq!(rt; pool.oldest(), Some(2));
    pool.clean(5, 9, 12288);
    assert_eq!(rt; pool.oldest(), Some(2));
    pool.clean(5, 9, 20480);
    assert_eq!(rt; pool.oldest(), Some(3));
    Ok(())
}

#[test]
fn a_lent_change(rt: HostRuntime) -> Result<(), Fail> {
    let mut pool = Pool::new(rt.alloc())?;
    let change = ChangeView::Put {
        space: 5,
        page: 1,
        at: 40,
        bytes: &[1, 2, 3],
    };
    pool.apply(&change, 12288, 2)?;
    assert!(rt; &pool.find(5, 1).expect(&rt, "page 1")[38..44] == [0, 0, 1, 2, 3, 0].as_slice());
    assert_eq!(rt; pool.dirty().len(), 1);
    Ok(())
}

// A clean page gets dirty by a lent change, and a dirty one keeps its first block.
#[test]
fn lent_changes_of_a_held_page(rt: HostRuntime) -> Result<(), Fail> {
    let mut pool = Pool::new(rt.alloc())?;
    pool.admit(5, 1, &[7; 16384])?;
    let put = ChangeView::Put {
        space: 5,
        page: 1,
        at: 40,
        bytes: &[1, 2, 3],
    };
    pool.apply(&put, 12288, 2)?;
    let kind = ChangeView::Kind {
        space: 5,
        page: 1,
        kind: 17855,
    };
    pool.apply(&kind, 16384, 3)?;
    let page = pool.find(5, 1).expect(&rt, "page 1");
    assert!(rt; &page[24..26] == [0x45, 0xbf].as_slice());
    assert!(rt; &page[38..44] == [7, 7, 1, 2, 3, 7].as_slice());
    let dirty = DirtyPage {
        space: 5,
        page: 1,
        first: 2,
        lsn: 16384,
    };
    assert!(rt; pool.dirty() == [dirty].as_slice());
    Ok(())
}

// A floor, and a space that is ciphered from here on.
fn floor_and_encrypt(alloc: Global) -> Result<Mtr, Fail>
    ensures { IfOk result AreAllowed }
{
    let mut changes = Vec::new(alloc);
    changes.push(Change::Floor {
        space: 5,
        version: 0x01020304,
    })?;
    changes.push(Change::Encrypt { space: 5 })?;
    Ok(Mtr::of(changes))
}

// The crypt record in a page of sevens: six bytes of magic, type 1, a length, a salt of 16 bytes,
// the least version, a key id and mode 1, at byte 10428.
const RECORD: [u8; 35] = [
    7, 7, 7, 7, 7, 7, 7, 1, 7, 7, 7, 7, 7, 7, 7, 7, 7, 7, 7, 7, 7, 7, 7, 7, 7, 1, 2, 3, 4, 7, 7, 7,
    7, 1, 7,
];

#[test]
fn changes_of_a_space_in_its_page_0(rt: HostRuntime) -> Result<(), Fail> {
    let mut pool = Pool::new(rt.alloc())?;
    pool.admit(5, 0, &[7; 16384])?;
    pool.change(&floor_and_encrypt(rt.alloc())?, 12288, 2)?;
    assert!(rt; &pool.find(5, 0).expect(&rt, "page 0")[10427..10462] == RECORD.as_slice());
    let floor = ChangeView::Floor {
        space: 5,
        version: 9,
    };
    pool.apply(&floor, 16384, 3)?;
    assert!(rt; &pool.find(5, 0).expect(&rt, "page 0")[10452..10456] == [0, 0, 0, 9].as_slice());
    assert_eq!(rt; pool.dirty().len(), 1);
    Ok(())
}

// Changes of the pages 1 to 64.
fn kinds(alloc: Global) -> Result<Mtr, OutOfMemory>
    ensures { IfOk result AreAllowed }
{
    let mut changes = Vec::new(alloc);
    for page in 1..65 {
        changes.push(Change::Kind {
            space: 5,
            page,
            kind: 6,
        })?;
    }
    Ok(Mtr::of(changes))
}

// A pool with a clean page, and changes of the pages 1 to 64.
fn pool_and_changes(alloc: Global) -> Result<(Pool, Mtr), OutOfMemory>
    ensures { IfOk result (λ pair. AreAllowed pair.1) }
{
    let mut pool = Pool::new(alloc)?;
    pool.admit(5, 1, &[7; 16384])?;
    let changes = kinds(alloc)?;
    Ok((pool, changes))
}

// Run with each allocation refused in turn by tests/page_pool_memory.py.
#[test]
fn a_refused_change_changes_nothing(rt: HostRuntime) -> Result<(), Fail> {
    let Ok((mut pool, mtr)) = pool_and_changes(rt.alloc()) else {
        return Ok(());
    };
    match pool.change(&mtr, 8192, 3) {
        Ok(()) => assert_eq!(rt; pool.dirty().len(), 64),
        Err(fault) => {
            assert_eq!(rt; fault, PoolFault::OutOfMemory);
            assert_eq!(rt; pool.dirty().len(), 0);
            assert_eq!(rt; pool.find(5, 1).expect(&rt, "page 1")[24], 7);
            assert!(rt; pool.find(5, 2).is_none());
        }
    }
    Ok(())
}
