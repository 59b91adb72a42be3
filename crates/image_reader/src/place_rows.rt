// Rows of the places that are told: a refusal's page, slot, block and file, and the keys that are needed.
use crate::Refusal;
use crate::fixture::{
    Fixture, PageHead, empty_store, needed, page_text, put_text, recovered, write_at, write_block,
    write_block_of, write_other_head, write_slot,
};
use aes_core::Algorithm;
use cause_core::OutOfMemory;
use disk_model::FileName;
use image_pages::TextFault;
use std::alloc::Global;
use std::process::Abort;
use std::test::Fail;

const MODES: [Algorithm; 2] = [Algorithm::Cbc, Algorithm::Ctr];

// The place of page 1 of space 1.
const HOME: usize = 16384;

// The text of page 1 of space 1, of type 10, at an LSN, under a version.
fn text(
    rt: &impl Abort,
    alloc: Global,
    algorithm: Algorithm,
    lsn: u64,
    version: u32,
) -> Result<Vec<u8>, OutOfMemory> {
    let head = PageHead {
        space: 1,
        page: 1,
        lsn,
        version,
        kind: 10,
    };
    page_text(rt, alloc, algorithm, head, &[0x61])
}

// A store in whose run one mini-transaction puts bytes 61 into page 1 of space 1, at LSN 12288.
fn one_put(rt: &impl Abort, alloc: Global, algorithm: Algorithm) -> Result<Fixture, OutOfMemory> {
    let mut store = empty_store(rt, alloc, algorithm)?;
    write_block(rt, &mut store.log, algorithm, 2, 3, &put_text(1, 1, 0x61));
    Ok(store)
}

// The refusal of a store, or none.
fn refusal(rt: &impl Abort, alloc: Global, store: Fixture) -> Result<Option<Refusal>, Fail> {
    Ok(recovered(rt, alloc, store)?.err())
}

#[test]
fn the_keys_of_blocks_texts_and_the_active_version_are_needed(rt: HostRuntime) -> Result<(), Fail> {
    for algorithm in MODES {
        let mut store = one_put(&rt, rt.alloc(), algorithm)?;
        let page = text(&rt, rt.alloc(), algorithm, 12288, 2)?;
        write_slot(&rt, rt.alloc(), &mut store.double, 7, 1, 1, &page)?;
        let keys = needed(&rt, rt.alloc(), store, 3)?;
        // The block's, the active one of the log and of both spaces, and the copy's.
        assert!(rt; keys.as_slice() == [(1, 1), (1, 3), (1, 2)].as_slice());
    }
    Ok(())
}

#[test]
fn a_file_of_another_length_is_named(rt: HostRuntime) -> Result<(), Fail> {
    let lengths = [
        (12287, 1_081_344, 49_152, Refusal::NoHeader),
        (12288, 1_081_343, 49_151, Refusal::Length(FileName::Log)),
        (
            143_360,
            1_081_343,
            49_151,
            Refusal::Length(FileName::Double),
        ),
        (
            143_360,
            1_081_344,
            49_151,
            Refusal::Length(FileName::Space(1)),
        ),
    ];
    for (log, double, one, wanted) in lengths {
        let mut store = empty_store(&rt, rt.alloc(), Algorithm::Cbc)?;
        store.log.truncate(log);
        store.double.truncate(double);
        store.one.truncate(one);
        store.two.truncate(32_767);
        assert!(rt; refusal(&rt, rt.alloc(), store)? == Some(wanted));
    }
    Ok(())
}

#[test]
fn a_page_0_is_read_as_any_page_and_has_to_be_used(rt: HostRuntime) -> Result<(), Fail> {
    let unused = Refusal::NoText {
        space: 1,
        page: 0,
        fault: TextFault::UnusedHead,
    };
    let torn = Refusal::NotChosen { space: 1, page: 0 };
    let mut store = empty_store(&rt, rt.alloc(), Algorithm::Cbc)?;
    write_at(&rt, &mut store.one, 0, &[0; 16384]);
    assert!(rt; refusal(&rt, rt.alloc(), store)? == Some(unused));
    let mut store = empty_store(&rt, rt.alloc(), Algorithm::Cbc)?;
    write_at(&rt, &mut store.one, 16383, &[0]);
    write_at(&rt, &mut store.one, 16382, &[0]);
    assert!(rt; refusal(&rt, rt.alloc(), store)? == Some(torn));
    Ok(())
}

#[test]
fn a_torn_home_without_a_copy_is_read_from_nothing(rt: HostRuntime) -> Result<(), Fail> {
    for algorithm in MODES {
        let mut store = one_put(&rt, rt.alloc(), algorithm)?;
        write_at(&rt, &mut store.one, HOME, &[1]);
        let wanted = Refusal::NotChosen { space: 1, page: 1 };
        assert!(rt; refusal(&rt, rt.alloc(), store)? == Some(wanted));
    }
    Ok(())
}

#[test]
fn a_live_slot_of_an_lsn_that_is_in_no_run_is_refused(rt: HostRuntime) -> Result<(), Fail> {
    for algorithm in MODES {
        let mut store = one_put(&rt, rt.alloc(), algorithm)?;
        let page = text(&rt, rt.alloc(), algorithm, 8192, 1)?;
        write_slot(&rt, rt.alloc(), &mut store.double, 4, 1, 1, &page)?;
        let wanted = Refusal::Slot {
            space: 1,
            page: 1,
            slot: 4,
        };
        assert!(rt; refusal(&rt, rt.alloc(), store)? == Some(wanted));
    }
    Ok(())
}

#[test]
fn a_missing_key_is_named(rt: HostRuntime) -> Result<(), Fail> {
    let block = Refusal::NoKey {
        number: 3,
        version: 9,
    };
    let page = Refusal::NoText {
        space: 1,
        page: 1,
        fault: TextFault::NoKey { version: 8 },
    };
    for algorithm in MODES {
        let mut store = one_put(&rt, rt.alloc(), algorithm)?;
        write_block_of(
            &rt,
            &mut store.log,
            algorithm,
            3,
            9,
            3,
            &put_text(1, 1, 0x61),
        );
        assert!(rt; refusal(&rt, rt.alloc(), store)? == Some(block));
        let mut store = one_put(&rt, rt.alloc(), algorithm)?;
        let other = text(&rt, rt.alloc(), algorithm, 12288, 8)?;
        write_at(&rt, &mut store.one, HOME, &other);
        assert!(rt; refusal(&rt, rt.alloc(), store)? == Some(page));
    }
    Ok(())
}

#[test]
fn the_first_home_of_another_page_comes_before_any_page(rt: HostRuntime) -> Result<(), Fail> {
    for algorithm in MODES {
        // A torn page 1, and the text of page 1 in page 2.
        let mut store = one_put(&rt, rt.alloc(), algorithm)?;
        let page = text(&rt, rt.alloc(), algorithm, 12288, 1)?;
        write_at(&rt, &mut store.one, HOME, &[1]);
        write_at(&rt, &mut store.one, 2 * HOME, &page);
        let wanted = Refusal::Mixed { space: 1, page: 2 };
        assert!(rt; refusal(&rt, rt.alloc(), store)? == Some(wanted));
    }
    Ok(())
}

#[test]
fn a_home_of_another_page_is_refused_also_with_a_good_copy(rt: HostRuntime) -> Result<(), Fail> {
    let other = PageHead {
        space: 1,
        page: 2,
        lsn: 12288,
        version: 1,
        kind: 10,
    };
    for algorithm in MODES {
        // The text of page 1 in page 0.
        let mut store = one_put(&rt, rt.alloc(), algorithm)?;
        let page = text(&rt, rt.alloc(), algorithm, 12288, 1)?;
        write_at(&rt, &mut store.one, 0, &page);
        let wanted = Refusal::Mixed { space: 1, page: 0 };
        assert!(rt; refusal(&rt, rt.alloc(), store)? == Some(wanted));
        // The text of page 2 in page 1, whose own text is in a slot.
        let mut store = one_put(&rt, rt.alloc(), algorithm)?;
        let second = page_text(&rt, rt.alloc(), algorithm, other, &[0x61])?;
        write_slot(&rt, rt.alloc(), &mut store.double, 4, 1, 1, &page)?;
        write_at(&rt, &mut store.one, HOME, &second);
        let wanted = Refusal::Mixed { space: 1, page: 1 };
        assert!(rt; refusal(&rt, rt.alloc(), store)? == Some(wanted));
    }
    Ok(())
}

#[test]
fn of_several_pages_with_a_fault_the_first_is_named(rt: HostRuntime) -> Result<(), Fail> {
    let late = Refusal::NoText {
        space: 1,
        page: 1,
        fault: TextFault::BehindTheRun,
    };
    for algorithm in MODES {
        // A text behind the run in page 1, and a torn page 2.
        let mut store = one_put(&rt, rt.alloc(), algorithm)?;
        let page = text(&rt, rt.alloc(), algorithm, 12289, 1)?;
        write_at(&rt, &mut store.one, HOME, &page);
        write_at(&rt, &mut store.one, 2 * HOME, &[1]);
        assert!(rt; refusal(&rt, rt.alloc(), store)? == Some(late));
        // A torn page 1 of space 2, and a torn page 2 of space 1.
        let mut store = one_put(&rt, rt.alloc(), algorithm)?;
        write_at(&rt, &mut store.two, HOME, &[1]);
        write_at(&rt, &mut store.one, 2 * HOME, &[1]);
        let wanted = Refusal::NotChosen { space: 1, page: 2 };
        assert!(rt; refusal(&rt, rt.alloc(), store)? == Some(wanted));
    }
    Ok(())
}

#[test]
fn another_head_comes_before_the_pages_of_its_space(rt: HostRuntime) -> Result<(), Fail> {
    for algorithm in MODES {
        let mut store = one_put(&rt, rt.alloc(), algorithm)?;
        write_other_head(&rt, rt.alloc(), &mut store.one)?;
        write_at(&rt, &mut store.one, HOME, &[1]);
        let wanted = Refusal::Head { space: 1 };
        assert!(rt; refusal(&rt, rt.alloc(), store)? == Some(wanted));
    }
    Ok(())
}
