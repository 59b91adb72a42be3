// An engine over a store of 32 ring blocks and one space, 5, of 4 pages, ciphered under key 1, in memory.
ghost use Rattle.std.specs.Prelude.{◌≡◌, IfOk, length, replicate};
ghost use Rattle.session_core.specs.Committing.{AreOfPages};
ghost use Rattle.store_form.specs.Plan.{IsCreatable};

use crate::{Author, Engine, EngineFault, Receipt, SessionOptions, StartFault};
use aes_core::Algorithm;
use disk_model::MemDisk;
use key_ring::Ring;
use rand_core::Rng;
use redo_text::{Change, Mtr, Piece};
use std::alloc::{AllocError, Global};
use std::test::Fail;
use store_form::{AtRest, SpacePlan, SpacePlans, StorePlan, create};

// A generator of bytes 11 hex.
#[derive(Drop)]
struct Elevens;

impl Rng for Elevens {
    ghost stream = { λ _. record { u32_after = λ _. 286331153; u64_after = λ _. 1229782938247303441; bytes_after = λ _ n. replicate n 17 } };

    #[tactic(auto, unfolding(rand_core::specs::Stream::next_u32))]
    fn next_u32(&mut self) -> u32 {
        0x1111_1111
    }

    #[tactic(auto, unfolding(rand_core::specs::Stream::next_u64))]
    fn next_u64(&mut self) -> u64 {
        0x1111_1111_1111_1111
    }

    #[tactic(auto, unfolding(rand_core::specs::Stream::fill_bytes))]
    fn fill_bytes(&mut self, dst: &mut [u8]) {
        dst.fill(0x11);
    }
}

fn plan_of(alloc: Global) -> Result<StorePlan, AllocError>
    ensures can { IfOk result IsCreatable }
{
    let mut plans = Vec::new(alloc);
    plans.push(SpacePlan {
        space: 5,
        pages: 4,
        key_id: 1,
        ciphered: true,
    })?;
    Ok(StorePlan {
        blocks: 32,
        active: 1,
        algorithm: Algorithm::Ctr,
        spaces: SpacePlans::of(plans),
    })
}

// Versions 1 and 2 of key 1.
fn ring_of_two(alloc: Global) -> Result<Ring, Fail> {
    let mut ring = Ring::new(alloc);
    if ring.add(1, 1, &[7; 16]).is_err() || ring.add(1, 2, &[8; 16]).is_err() {
        return Err(Fail::new("no key"));
    }
    Ok(ring)
}

fn created(alloc: Global) -> Result<AtRest<MemDisk>, Fail> {
    let ring = ring_of_two(alloc)?;
    let plan = plan_of(alloc)?;
    match create(
        alloc,
        MemDisk::new(alloc, Vec::new(alloc)),
        &ring,
        &plan,
        &mut Elevens,
    ) {
        Ok(rest) => Ok(rest),
        Err(_refusal) => Err(Fail::new("no store")),
    }
}

fn started(alloc: Global, active: u32) -> Result<Result<Engine<MemDisk>, StartFault>, Fail> {
    let rest = created(alloc)?;
    let ring = ring_of_two(alloc)?;
    match Engine::start(alloc, rest, ring, SessionOptions { active, age: 0 }) {
        Ok(engine) => Ok(Ok(engine)),
        Err(refusal) => Ok(Err(refusal.why)),
    }
}

#[test]
fn an_engine_starts_reads_and_syncs(rt: HostRuntime) -> Result<(), Fail> {
    let Ok(mut engine) = started(rt.alloc(), 1)? else {
        panic!(rt; "no engine");
    };
    assert!(rt; engine.blocks() == 32 && engine.algorithm() == Algorithm::Ctr);
    assert!(rt; engine.spaces().len() == 1 && engine.journal().is_empty() && engine.acked() == 0);
    let mut bytes = [1; 4];
    assert!(rt; engine.read(5, 1, 38, &mut bytes) == Ok(()) && bytes == [0; 4]);
    assert!(rt; engine.page_kind(5, 1) == Ok(None));
    assert!(rt; engine.page_kind(5, 0) == Err(EngineFault::NoSuchPage { space: 5, page: 0 }));
    assert!(rt; engine.sync() == Ok(0) && engine.checkpoint() == Ok(2));
    assert!(rt; engine.disk().turns() == 0);
    assert!(rt; engine.halt().journal.len() == 0);
    Ok(())
}

// A mini-transaction of one byte in page 1.
fn mtr_of_one(alloc: Global) -> Result<Mtr, AllocError>
    ensures some { IfOk result (λ m. length m ≡ 1) }
    ensures forms { IfOk result AreOfPages }
{
    let mut bytes = Vec::new(alloc);
    bytes.push(7)?;
    let mut changes = Vec::new(alloc);
    let Ok(()) = changes.push(Change::Put {
        space: 5,
        page: 1,
        at: 100,
        bytes: Piece::of(bytes),
    }) else {
        return Err(AllocError);
    };
    Ok(Mtr::of(changes))
}

// The entry has one block, behind which the log goes on with block 3; page 1 is dirty from block 2 on.
#[test]
fn a_commit_is_read_and_acknowledged(rt: HostRuntime) -> Result<(), Fail> {
    let Ok(mut engine) = started(rt.alloc(), 1)? else {
        panic!(rt; "no engine");
    };
    let by = Author {
        session: 1,
        line: 1,
    };
    let mtr = mtr_of_one(rt.alloc())?;
    assert!(rt;
        engine.commit(by, mtr)
            == Ok(Receipt {
                place: 1,
                lsn: 12288
            })
    );
    let mut bytes = [1; 2];
    assert!(rt; engine.read(5, 1, 99, &mut bytes) == Ok(()) && bytes == [0, 7]);
    assert!(rt; engine.page_kind(5, 1) == Ok(Some(0)));
    assert!(rt; engine.acked() == 0 && engine.disk().turns() == 0);
    assert!(rt; engine.sync() == Ok(1) && engine.acked() == 1);
    assert!(rt; engine.disk().turns() == 2 && engine.checkpoint() == Ok(2));
    assert!(rt; engine.halt().journal.len() == 1);
    Ok(())
}

#[test]
fn a_newer_version_becomes_active_once(rt: HostRuntime) -> Result<(), Fail> {
    let Ok(mut engine) = started(rt.alloc(), 1)? else {
        panic!(rt; "no engine");
    };
    assert!(rt; engine.activate(2) == Ok(()));
    assert!(rt;
        engine.activate(2)
            == Err(EngineFault::NotNewer {
                active: 2,
                asked: 2
            })
    );
    Ok(())
}

#[test]
fn an_engine_needs_the_active_version(rt: HostRuntime) -> Result<(), Fail> {
    let refused = started(rt.alloc(), 3)?;
    assert!(rt; matches!(refused, Err(StartFault::NoVersion { id: 1, version: 3 })));
    Ok(())
}
