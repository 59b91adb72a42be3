// Rows of what a run does to heads of spaces, and of a mini-transaction of two blocks.
use crate::fixture::{
    Fixture, empty_store, recovered, write_at, write_block, write_slot, write_sum,
};
use crate::{Recovered, Refusal};
use aes_core::Algorithm;
use cause_core::OutOfMemory;
use std::alloc::Global;
use std::process::Abort;
use std::test::Fail;

const MODES: [Algorithm; 2] = [Algorithm::Cbc, Algorithm::Ctr];

// The bytes of a page.
const PAGE: usize = 16384;

// Space 1 has floor 2 from LSN 12288 on, and space 2 is ciphered.
const FLOOR_AND_ENCRYPT: [u8; 14] = [4, 0, 0, 0, 1, 0, 0, 0, 2, 5, 0, 0, 0, 2];

// A store whose run is this one mini-transaction of one block.
fn one_change(
    rt: &impl Abort,
    alloc: Global,
    algorithm: Algorithm,
) -> Result<Fixture, OutOfMemory> {
    let mut store = empty_store(rt, alloc, algorithm)?;
    write_block(rt, &mut store.log, algorithm, 2, 3, &FLOOR_AND_ENCRYPT);
    Ok(store)
}

// The text of page 0 of space 1 at LSN 12288, with this floor.
fn head_text(
    rt: &impl Abort,
    alloc: Global,
    store: &Fixture,
    floor: u32,
) -> Result<Vec<u8>, OutOfMemory> {
    let mut page = [0; PAGE];
    for (byte, held) in page.iter_mut().zip(store.one.iter()) {
        *byte = *held;
    }
    write_at(rt, &mut page, 16, &12288_u64.to_be_bytes());
    write_at(rt, &mut page, 10428 + 24, &floor.to_be_bytes());
    write_at(rt, &mut page, 16376, &12288_u32.to_be_bytes());
    write_sum(rt, &mut page);
    Ok(page.to_vec(alloc)?)
}

// The floor of space 1, and whether space 2 is ciphered.
fn heads(found: &Result<Recovered, Refusal>) -> Result<(u32, bool), Refusal> {
    match found {
        Ok(found) => {
            if found.contents.len() < 2 {
                return Ok((0, false));
            }
            let one = found.contents.get(0);
            let two = found.contents.get(1);
            Ok((one.info.floor, two.info.ciphered))
        }
        Err(refusal) => Err(*refusal),
    }
}

#[test]
fn a_run_changes_heads_of_spaces(rt: HostRuntime) -> Result<(), Fail> {
    for algorithm in MODES {
        let store = one_change(&rt, rt.alloc(), algorithm)?;
        let found = recovered(&rt, rt.alloc(), store)?;
        assert!(rt; heads(&found) == Ok((2, true)));
    }
    Ok(())
}

#[test]
fn a_torn_page_0_is_read_from_its_copy(rt: HostRuntime) -> Result<(), Fail> {
    for algorithm in MODES {
        let mut store = one_change(&rt, rt.alloc(), algorithm)?;
        let page = head_text(&rt, rt.alloc(), &store, 2)?;
        write_slot(&rt, rt.alloc(), &mut store.double, 5, 1, 0, &page)?;
        let last = store.one.as_slice().get(PAGE - 1).copied().unwrap_or(0);
        write_at(&rt, &mut store.one, PAGE - 1, &[!last]);
        let found = recovered(&rt, rt.alloc(), store)?;
        assert!(rt; heads(&found) == Ok((2, true)));
    }
    Ok(())
}

#[test]
fn a_live_slot_of_page_0_with_another_head_is_refused(rt: HostRuntime) -> Result<(), Fail> {
    let refused = Err(Refusal::Slot {
        space: 1,
        page: 0,
        slot: 5,
    });
    for algorithm in MODES {
        let mut store = one_change(&rt, rt.alloc(), algorithm)?;
        let page = head_text(&rt, rt.alloc(), &store, 3)?;
        write_slot(&rt, rt.alloc(), &mut store.double, 5, 1, 0, &page)?;
        let found = recovered(&rt, rt.alloc(), store)?;
        assert!(rt; heads(&found) == refused);
    }
    Ok(())
}

// What a put of 5000 bytes at the beginning of the body of page 1 of space 1 begins with.
const LONG_PUT: [u8; 17] = [1, 0, 0, 0, 1, 0, 0, 0, 1, 0, 0, 0, 38, 0, 0, 0x13, 0x88];

#[test]
fn a_mini_transaction_of_two_blocks_is_read_whole(rt: HostRuntime) -> Result<(), Fail> {
    let mut first = [0x61; 4076];
    write_at(&rt, &mut first, 0, &LONG_PUT);
    let rest = [0x61; 941];
    for algorithm in MODES {
        let mut store = empty_store(&rt, rt.alloc(), algorithm)?;
        write_block(&rt, &mut store.log, algorithm, 2, 1, &first);
        write_block(&rt, &mut store.log, algorithm, 3, 2, &rest);
        match recovered(&rt, rt.alloc(), store)? {
            Err(refusal) => panic!(rt; "refused: {refusal}"),
            Ok(found) => {
                assert!(rt; found.last == 3 && found.contents.len() == 2);
                let pages = &found.contents.get(0).pages;
                assert!(rt; pages.len() == 2);
                let page = pages.get(0).as_ref().map(|page| page.body.bytes().len());
                assert!(rt; page == Some(16338));
            }
        }
    }
    Ok(())
}
