// A new store: 32 ring blocks, and the space 5 of 4 pages, ciphered under key 1, of which page 0 alone is
// used. Its keys are those of a ring with the versions 1 and 2 of the id 1.
ghost use Rattle.std.specs.Prelude.{replicate, IfOk};
ghost use Rattle.store_form.specs.Plan.{IsCreatable};

use crate::{SessionCore, SessionOptions, StartFault, StartRefusal};
use aes_core::Algorithm;
use disk_model::MemDisk;
use key_ring::Ring;
use rand_core::Rng;
use std::alloc::{AllocError, Global};
use std::test::Fail;
use store_form::{AtRest, SpacePlan, SpacePlans, StorePlan, create};

// A generator of bytes 11 hex.
#[derive(Drop)]
struct Elevens;

impl Rng for Elevens {
    ghost stream = { λ _. record { u32_after = λ _. 286331153; u64_after = λ _. 1229782938247303441; bytes_after = λ _ n. replicate n 17 } };

    #[tactic(auto, unfolding(rand_core::specs::Stream::next_u32))]
    fn next_u32(&mut self) -> u32 {
        0x1111_1111
    }

    #[tactic(auto, unfolding(rand_core::specs::Stream::next_u64))]
    fn next_u64(&mut self) -> u64 {
        0x1111_1111_1111_1111
    }

    #[tactic(auto, unfolding(rand_core::specs::Stream::fill_bytes))]
    fn fill_bytes(&mut self, dst: &mut [u8]) {
        dst.fill(0x11);
    }
}

fn plan(alloc: Global) -> Result<StorePlan, AllocError>
    ensures { IfOk result IsCreatable }
{
    let mut plans = Vec::new(alloc);
    plans.push(SpacePlan {
        space: 5,
        pages: 4,
        key_id: 1,
        ciphered: true,
    })?;
    Ok(StorePlan {
        blocks: 32,
        active: 1,
        algorithm: Algorithm::Ctr,
        spaces: SpacePlans::of(plans),
    })
}

fn ring(alloc: Global) -> Result<Ring, Fail> {
    let mut ring = Ring::new(alloc);
    if ring.add(1, 1, &[7; 16]).is_err() || ring.add(1, 2, &[8; 16]).is_err() {
        return Err(Fail::new("no key"));
    }
    Ok(ring)
}

/// The store, at rest.
pub(crate) fn store(rt: &HostRuntime) -> Result<AtRest<MemDisk>, Fail> {
    let plan = plan(rt.alloc())?;
    let ring = ring(rt.alloc())?;
    let disk = MemDisk::new(rt.alloc(), Vec::new(rt.alloc()));
    match create(rt.alloc(), disk, &ring, &plan, &mut Elevens) {
        Ok(rest) => Ok(rest),
        Err(_) => Err(Fail::new("not created")),
    }
}

/// What a session on it, begun at this version, answers.
pub(crate) fn start_at(
    rt: &HostRuntime,
    active: u32,
) -> Result<Result<SessionCore<MemDisk>, StartRefusal<MemDisk>>, Fail> {
    let rest = store(rt)?;
    let ring = ring(rt.alloc())?;
    let options = SessionOptions { active, age: 0 };
    Ok(SessionCore::start(rt.alloc(), rest, ring, options))
}

/// A session on it at version 1.
pub(crate) fn session(rt: &HostRuntime) -> Result<SessionCore<MemDisk>, Fail> {
    match start_at(rt, 1)? {
        Ok(session) => Ok(session),
        Err(_) => Err(Fail::new("not started")),
    }
}

/// Why there is none at this version.
pub(crate) fn refusal_at(rt: &HostRuntime, active: u32) -> Result<(StartFault, u64), Fail> {
    match start_at(rt, active)? {
        Ok(_) => Err(Fail::new("started")),
        Err(refusal) => Ok((refusal.why, refusal.rest.next())),
    }
}
