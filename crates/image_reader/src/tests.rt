// What images recover to: a row each, in both modes.
use crate::fixture::{
    Fixture, PageHead, empty_store, page_text, put_text, recovered, write_at, write_block,
    write_checkpoint, write_checkpoint_of, write_header, write_slot,
};
use crate::{Recovered, Refusal};
use aes_core::Algorithm;
use cause_core::OutOfMemory;
use image_pages::TextFault;
use std::alloc::Global;
use std::process::Abort;
use std::test::Fail;

const MODES: [Algorithm; 2] = [Algorithm::Cbc, Algorithm::Ctr];

// The place of page 1 of space 1.
const HOME: usize = 16384;

// The first byte of the body of a page of space 1 from page 1 on, its type, and that it is used.
fn first_byte(found: &Recovered, index: usize) -> Option<(u16, u8)> {
    if found.contents.len() < 2 {
        return None;
    }
    let space = found.contents.get(0);
    if space.pages.len() <= index {
        return None;
    }
    let page = space.pages.get(index).as_ref()?;
    let byte = page.body.bytes().first()?;
    Some((page.kind, *byte))
}

// What is looked at of an answer: the last block, and page 1 of space 1.
fn summary(found: &Result<Recovered, Refusal>) -> Result<(u64, Option<(u16, u8)>), Refusal> {
    match found {
        Ok(found) => Ok((found.last, first_byte(found, 0))),
        Err(refusal) => Err(*refusal),
    }
}

// The text of page 1 of space 1, of type 10, whose body begins with this byte.
fn text(
    rt: &impl Abort,
    alloc: Global,
    algorithm: Algorithm,
    lsn: u64,
    byte: u8,
) -> Result<Vec<u8>, OutOfMemory> {
    let head = PageHead {
        space: 1,
        page: 1,
        lsn,
        version: 1,
        kind: 10,
    };
    page_text(rt, alloc, algorithm, head, &[byte, byte, byte, byte])
}

// A store in whose run one mini-transaction puts bytes 61 into page 1 of space 1, at LSN 12288.
fn one_put(rt: &impl Abort, alloc: Global, algorithm: Algorithm) -> Result<Fixture, OutOfMemory> {
    let mut store = empty_store(rt, alloc, algorithm)?;
    write_block(rt, &mut store.log, algorithm, 2, 3, &put_text(1, 1, 0x61));
    Ok(store)
}

#[test]
fn an_empty_store_recovers_to_unused_pages(rt: HostRuntime) -> Result<(), Fail> {
    for algorithm in MODES {
        let store = empty_store(&rt, rt.alloc(), algorithm)?;
        match recovered(&rt, rt.alloc(), store)? {
            Err(refusal) => panic!(rt; "refused: {refusal}"),
            Ok(found) => {
                assert!(rt; found.last == 1 && found.log.run().is_empty());
                assert!(rt; found.contents.len() == 2);
                let one = found.contents.get(0);
                assert!(rt; one.info.space == 1 && one.info.ciphered && one.info.floor == 1);
                let two = found.contents.get(1);
                assert!(rt; two.info.space == 2 && !two.info.ciphered && two.info.floor == 0);
                assert!(rt; one.pages.len() == 2 && two.pages.len() == 1);
                assert!(rt; first_byte(&found, 0).is_none() && first_byte(&found, 1).is_none());
            }
        }
    }
    Ok(())
}

#[test]
fn a_run_makes_an_unused_page(rt: HostRuntime) -> Result<(), Fail> {
    for algorithm in MODES {
        let store = one_put(&rt, rt.alloc(), algorithm)?;
        let found = recovered(&rt, rt.alloc(), store)?;
        assert!(rt; summary(&found) == Ok((2, Some((0, 0x61)))));
    }
    Ok(())
}

#[test]
fn a_torn_home_is_read_from_its_copy(rt: HostRuntime) -> Result<(), Fail> {
    for algorithm in MODES {
        let mut store = one_put(&rt, rt.alloc(), algorithm)?;
        let page = text(&rt, rt.alloc(), algorithm, 12288, 0x61)?;
        write_slot(&rt, rt.alloc(), &mut store.double, 0, 1, 1, &page)?;
        // The home with its last byte inverted.
        write_at(&rt, &mut store.one, HOME, &page);
        let last = store.one.as_slice().get(2 * HOME - 1).copied().unwrap_or(0);
        write_at(&rt, &mut store.one, 2 * HOME - 1, &[!last]);
        let found = recovered(&rt, rt.alloc(), store)?;
        assert!(rt; summary(&found) == Ok((2, Some((10, 0x61)))));
    }
    Ok(())
}

#[test]
fn a_home_of_zero_bytes_is_read_from_its_copy(rt: HostRuntime) -> Result<(), Fail> {
    for algorithm in MODES {
        let mut store = one_put(&rt, rt.alloc(), algorithm)?;
        let page = text(&rt, rt.alloc(), algorithm, 12288, 0x61)?;
        write_slot(&rt, rt.alloc(), &mut store.double, 63, 1, 1, &page)?;
        let found = recovered(&rt, rt.alloc(), store)?;
        assert!(rt; summary(&found) == Ok((2, Some((10, 0x61)))));
    }
    Ok(())
}

#[test]
fn a_copy_of_an_older_lsn_than_its_home_is_not_read(rt: HostRuntime) -> Result<(), Fail> {
    for algorithm in MODES {
        let mut store = one_put(&rt, rt.alloc(), algorithm)?;
        // Of another type, which the run's put leaves as it is.
        let head = PageHead {
            space: 1,
            page: 1,
            lsn: 8192,
            version: 1,
            kind: 11,
        };
        let old = page_text(&rt, rt.alloc(), algorithm, head, &[0x55, 0x55, 0x55, 0x55])?;
        write_slot(&rt, rt.alloc(), &mut store.double, 1, 1, 1, &old)?;
        let page = text(&rt, rt.alloc(), algorithm, 12288, 0x61)?;
        write_at(&rt, &mut store.one, HOME, &page);
        let found = recovered(&rt, rt.alloc(), store)?;
        assert!(rt; summary(&found) == Ok((2, Some((10, 0x61)))));
    }
    Ok(())
}

#[test]
fn two_copies_of_one_lsn_give_the_same_page_or_none(rt: HostRuntime) -> Result<(), Fail> {
    let refused = Err(Refusal::Slot {
        space: 1,
        page: 1,
        slot: 9,
    });
    for algorithm in MODES {
        for (byte, wanted) in [(0x61, Ok((2, Some((10, 0x61))))), (0x62, refused)] {
            let mut store = one_put(&rt, rt.alloc(), algorithm)?;
            let page = text(&rt, rt.alloc(), algorithm, 12288, 0x61)?;
            write_slot(&rt, rt.alloc(), &mut store.double, 5, 1, 1, &page)?;
            let other = text(&rt, rt.alloc(), algorithm, 12288, byte)?;
            write_slot(&rt, rt.alloc(), &mut store.double, 9, 1, 1, &other)?;
            let found = recovered(&rt, rt.alloc(), store)?;
            assert!(rt; summary(&found) == wanted);
        }
    }
    Ok(())
}

#[test]
fn a_run_ends_before_part_of_a_mini_transaction(rt: HostRuntime) -> Result<(), Fail> {
    for algorithm in MODES {
        let mut store = one_put(&rt, rt.alloc(), algorithm)?;
        write_block(&rt, &mut store.log, algorithm, 3, 1, &[3; 4076]);
        let found = recovered(&rt, rt.alloc(), store)?;
        assert!(rt; summary(&found) == Ok((2, Some((0, 0x61)))));
    }
    Ok(())
}

#[test]
fn a_torn_checkpoint_is_passed_over(rt: HostRuntime) -> Result<(), Fail> {
    for algorithm in MODES {
        for (sum, wanted) in [(false, Ok((2, None))), (true, Ok((2, Some((0, 0x61)))))] {
            let mut store = one_put(&rt, rt.alloc(), algorithm)?;
            write_checkpoint(&rt, &mut store.log, 2, 3);
            if sum {
                // Its last byte is another.
                let last = store.log.as_slice().get(8191).copied().unwrap_or(0);
                write_at(&rt, &mut store.log, 8191, &[!last]);
            }
            let found = recovered(&rt, rt.alloc(), store)?;
            assert!(rt; summary(&found) == wanted);
        }
    }
    Ok(())
}

#[test]
fn a_home_with_the_text_of_another_page_is_refused(rt: HostRuntime) -> Result<(), Fail> {
    for algorithm in MODES {
        let mut store = one_put(&rt, rt.alloc(), algorithm)?;
        let page = text(&rt, rt.alloc(), algorithm, 12288, 0x61)?;
        write_at(&rt, &mut store.one, 2 * HOME, &page);
        let found = recovered(&rt, rt.alloc(), store)?;
        assert!(rt; summary(&found) == Err(Refusal::Mixed { space: 1, page: 2 }));
    }
    Ok(())
}

#[test]
fn a_log_without_checkpoint_is_refused(rt: HostRuntime) -> Result<(), Fail> {
    for algorithm in MODES {
        let mut store = one_put(&rt, rt.alloc(), algorithm)?;
        write_checkpoint_of(&rt, &mut store.log, b"KEYCHK02", 1, 2);
        let found = recovered(&rt, rt.alloc(), store)?;
        assert!(rt; summary(&found) == Err(Refusal::NoCheckpoint));
    }
    Ok(())
}

#[test]
fn a_block_of_a_lost_tail_may_be_within_a_ring(rt: HostRuntime) -> Result<(), Fail> {
    for algorithm in MODES {
        for (number, wanted) in [
            (34, Ok((2, None))),
            (
                35,
                Err(Refusal::LateBlock {
                    place: 3,
                    number: 35,
                }),
            ),
            (
                60,
                Err(Refusal::LateBlock {
                    place: 28,
                    number: 60,
                }),
            ),
        ] {
            let mut store = one_put(&rt, rt.alloc(), algorithm)?;
            if number == 34 {
                // Its place is that of block 2: the run begins behind it.
                write_checkpoint(&rt, &mut store.log, 2, 3);
            }
            let late = put_text(1, 1, 0x62);
            write_block(&rt, &mut store.log, algorithm, number, 3, &late);
            let found = recovered(&rt, rt.alloc(), store)?;
            assert!(rt; summary(&found) == wanted);
        }
    }
    Ok(())
}

#[test]
fn a_header_of_another_magic_is_none(rt: HostRuntime) -> Result<(), Fail> {
    for algorithm in MODES {
        let mut store = one_put(&rt, rt.alloc(), algorithm)?;
        write_header(&rt, &mut store.log, algorithm, b"KEYSTOR2");
        let found = recovered(&rt, rt.alloc(), store)?;
        assert!(rt; summary(&found) == Err(Refusal::NoHeader));
    }
    Ok(())
}

#[test]
fn changes_of_other_pages_and_no_changes_are_told_apart(rt: HostRuntime) -> Result<(), Fail> {
    // A put to page 3 of space 1, which has three pages.
    let other = put_text(1, 3, 0x61);
    for algorithm in MODES {
        let mut store = one_put(&rt, rt.alloc(), algorithm)?;
        write_block(&rt, &mut store.log, algorithm, 3, 3, &other);
        let found = recovered(&rt, rt.alloc(), store)?;
        assert!(rt; summary(&found) == Err(Refusal::OtherPages { first: 3 }));
        let mut store = one_put(&rt, rt.alloc(), algorithm)?;
        write_block(&rt, &mut store.log, algorithm, 3, 3, &[9, 0, 0]);
        let found = recovered(&rt, rt.alloc(), store)?;
        assert!(rt; summary(&found) == Err(Refusal::NoChanges { first: 3, at: 0 }));
    }
    Ok(())
}

#[test]
fn a_text_behind_the_run_is_none(rt: HostRuntime) -> Result<(), Fail> {
    for algorithm in MODES {
        let mut store = one_put(&rt, rt.alloc(), algorithm)?;
        let page = text(&rt, rt.alloc(), algorithm, 12289, 0x61)?;
        write_at(&rt, &mut store.one, HOME, &page);
        let found = recovered(&rt, rt.alloc(), store)?;
        let refused = Refusal::NoText {
            space: 1,
            page: 1,
            fault: TextFault::BehindTheRun,
        };
        assert!(rt; summary(&found) == Err(refused));
    }
    Ok(())
}
