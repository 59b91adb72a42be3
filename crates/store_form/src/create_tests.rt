// A store of 32 ring blocks and one space, 5, of 4 pages, ciphered under key 1, salts of bytes 11 hex,
// is created. The checksums are those of a CRC-32C bit by bit.
ghost use Rattle.std.specs.Prelude.{◌≡◌, ◌<◌, ◌≤◌, ◌+◌, ◌∷◌, [], IfOk, length, replicate, true};
ghost use Rattle.store_form.specs.Plan.{IsCreatable};

use crate::{CreateFault, SpacePlan, SpacePlans, StorePlan, create};
use aes_core::Algorithm;
use byte_list::fields::{put, put_be32};
use disk_model::{Choice, Disk, DiskError, FileName, MemDisk};
use key_ring::Ring;
use rand_core::Rng;
use std::alloc::{AllocError, Global};
use std::test::Fail;

// A generator of bytes 11 hex.
#[derive(Drop)]
pub(crate) struct Elevens;

impl Rng for Elevens {
    ghost stream = { λ _. record { u32_after = λ _. 286331153; u64_after = λ _. 1229782938247303441; bytes_after = λ _ n. replicate n 17 } };

    #[tactic(auto, unfolding(rand_core::specs::Stream::next_u32))]
    fn next_u32(&mut self) -> u32 {
        0x1111_1111
    }

    #[tactic(auto, unfolding(rand_core::specs::Stream::next_u64))]
    fn next_u64(&mut self) -> u64 {
        0x1111_1111_1111_1111
    }

    #[tactic(auto, unfolding(rand_core::specs::Stream::fill_bytes))]
    fn fill_bytes(&mut self, dst: &mut [u8]) {
        dst.fill(0x11);
    }
}

pub(crate) fn plan_of(alloc: Global, algorithm: Algorithm) -> Result<StorePlan, AllocError>
    ensures can { IfOk result IsCreatable }
    ensures spaces { IfOk result (λ plan. plan.spaces ≡ record { space = 5; pages = 4; key_id = 1; ciphered = true } ∷ []) }
{
    let mut plans = Vec::new(alloc);
    plans.push(SpacePlan {
        space: 5,
        pages: 4,
        key_id: 1,
        ciphered: true,
    })?;
    Ok(StorePlan {
        blocks: 32,
        active: 1,
        algorithm,
        spaces: SpacePlans::of(plans),
    })
}

fn ring_of_one(alloc: Global) -> Result<Ring, Fail> {
    let mut ring = Ring::new(alloc);
    if ring.add(1, 1, &[7; 16]).is_err() {
        return Err(Fail::new("no key"));
    }
    Ok(ring)
}

// The header's block.
fn header_block(algorithm: Algorithm) -> [u8; 4096] {
    let (code, sum) = match algorithm {
        Algorithm::Cbc => (1, 0xe0a6_c0e3),
        Algorithm::Ctr => (2, 0x1675_f8ce),
    };
    let mut block = [0; 4096];
    put(&mut block, 0, b"KEYSTOR1");
    put_be32(&mut block, 8, 2);
    put_be32(&mut block, 12, 16384);
    put_be32(&mut block, 16, 32);
    put_be32(&mut block, 20, 1);
    put(&mut block, 24, &[0x11; 16]);
    put_be32(&mut block, 40, 5);
    put_be32(&mut block, 44, 4);
    put_be32(&mut block, 48, 1);
    put_be32(&mut block, 240, code);
    put_be32(&mut block, 4092, sum);
    block
}

// The first checkpoint, from block 2.
fn check_block() -> [u8; 4096] {
    let mut block = [0; 4096];
    put(&mut block, 0, b"KEYCHK01");
    put_be32(&mut block, 12, 1);
    put_be32(&mut block, 20, 2);
    put_be32(&mut block, 4092, 0x3ca9_d0ee);
    block
}

// Page 0, with its crypt record at byte 10428.
fn first_page() -> [u8; 16384] {
    let mut page = [0; 16384];
    put(&mut page, 8, &[0xff; 8]);
    put_be32(&mut page, 20, 8192);
    put(&mut page, 24, &[0, 8]);
    put_be32(&mut page, 34, 5);
    put_be32(&mut page, 38, 5);
    put_be32(&mut page, 46, 4);
    put_be32(&mut page, 54, 0x15);
    put(
        &mut page,
        10428,
        &[0x73, 0x0e, 0x0c, 0x52, 0x45, 0x74, 1, 16],
    );
    put(&mut page, 10436, &[0x11; 16]);
    put(&mut page, 10452, &[0, 0, 0, 1, 0, 0, 0, 1, 1]);
    put_be32(&mut page, 16376, 8192);
    put_be32(&mut page, 16380, 0x86e6_5f44);
    page
}

// Bytes of a file, which must have a length.
fn read_at<D: Disk>(
    disk: &mut D,
    file: FileName,
    long: u64,
    at: u64,
    into: &mut [u8],
) -> Result<(), Fail>
    requires { at + length into.old ≤ long }
{
    match disk.size(file)? {
        Some(size) if size == long => Ok(disk.read(file, at, into)?),
        _ => Err(Fail::new("another length")),
    }
}

// Whether block i of the log is this one.
fn has_block<D: Disk>(disk: &mut D, i: u64, wanted: &[u8]) -> Result<bool, Fail>
    requires { i < 35 }
{
    let mut block = [0; 4096];
    read_at(disk, FileName::Log, 143_360, i * 4096, &mut block)?;
    Ok(block.as_slice() == wanted)
}

// Whether page p of space 5 is this one.
fn has_home<D: Disk>(disk: &mut D, p: u64, wanted: &[u8]) -> Result<bool, Fail>
    requires { p < 4 }
{
    let mut page = [0; 16384];
    read_at(disk, FileName::Space(5), 65536, p * 16384, &mut page)?;
    Ok(page.as_slice() == wanted)
}

// Whether the log is that of a new store, behind its header.
fn has_log<D: Disk>(disk: &mut D) -> Result<bool, Fail> {
    let zeros = [0; 4096];
    let check = check_block();
    for i in 1..35 {
        let wanted: &[u8] = if i == 2 {
            check.as_slice()
        } else {
            zeros.as_slice()
        };
        if !has_block(disk, i, wanted)? {
            return Ok(false);
        }
    }
    Ok(true)
}

fn has_double<D: Disk>(disk: &mut D) -> Result<bool, Fail> {
    let zeros = [0; 16896];
    for i in 0..64 {
        let mut slot = [1; 16896];
        read_at(disk, FileName::Double, 1_081_344, i * 16896, &mut slot)?;
        if slot.as_slice() != zeros.as_slice() {
            return Ok(false);
        }
    }
    Ok(true)
}

fn has_space<D: Disk>(disk: &mut D) -> Result<bool, Fail> {
    let zeros = [0; 16384];
    let first = first_page();
    for p in 0..4 {
        let wanted: &[u8] = if p == 0 {
            first.as_slice()
        } else {
            zeros.as_slice()
        };
        if !has_home(disk, p, wanted)? {
            return Ok(false);
        }
    }
    Ok(true)
}

// Whether the files are those of a new store, byte by byte.
fn is_new_store<D: Disk>(disk: &mut D, algorithm: Algorithm) -> Result<bool, Fail> {
    Ok(
        has_block(disk, 0, &header_block(algorithm))?
            && has_log(disk)?
            && has_double(disk)?
            && has_space(disk)?,
    )
}

fn creates(rt: &HostRuntime, algorithm: Algorithm) -> Result<bool, Fail> {
    let plan = plan_of(rt.alloc(), algorithm)?;
    let ring = ring_of_one(rt.alloc())?;
    let disk = MemDisk::new(rt.alloc(), Vec::new(rt.alloc()));
    let Ok(rest) = create(rt.alloc(), disk, &ring, &plan, &mut Elevens) else {
        return Err(Fail::new("not created"));
    };
    if rest.next() != 2 || rest.sequence() != 1 || rest.log_salt() != [0x11; 16] {
        return Ok(false);
    }
    let mut disk = rest.into_disk();
    Ok(disk.turns() == 6 && is_new_store(&mut disk, algorithm)?)
}

#[test]
fn a_store_in_cbc_is_created(rt: HostRuntime) -> Result<(), Fail> {
    assert!(rt; creates(&rt, Algorithm::Cbc)?);
    Ok(())
}

#[test]
fn a_store_in_ctr_is_created(rt: HostRuntime) -> Result<(), Fail> {
    assert!(rt; creates(&rt, Algorithm::Ctr)?);
    Ok(())
}

// Why a store isn't created on a disk with these files.
fn refusal_of(rt: &HostRuntime, files: &[FileName], ring: &Ring) -> Result<CreateFault, Fail> {
    let plan = plan_of(rt.alloc(), Algorithm::Cbc)?;
    let mut disk = MemDisk::new(rt.alloc(), Vec::new(rt.alloc()));
    for file in files {
        if disk.size(*file)?.is_none() {
            disk.make(*file, 16384)?;
        }
    }
    match create(rt.alloc(), disk, ring, &plan, &mut Elevens) {
        Ok(_) => Err(Fail::new("created")),
        Err(refusal) => Ok(refusal.why),
    }
}

#[test]
fn what_is_in_the_way_is_told(rt: HostRuntime) -> Result<(), Fail> {
    let ring = ring_of_one(rt.alloc())?;
    let none = Ring::new(rt.alloc());
    let space = FileName::Space(5);
    let all = [space, FileName::Double, FileName::Log];
    let log = CreateFault::Exists(FileName::Log);
    assert!(rt; refusal_of(&rt, &all, &none)? == log);
    let double = CreateFault::Exists(FileName::Double);
    assert!(rt; refusal_of(&rt, &[space, FileName::Double], &ring)? == double);
    assert!(rt; refusal_of(&rt, &[space], &none)? == CreateFault::Exists(space));
    let missing = CreateFault::MissingKey { id: 1, version: 1 };
    assert!(rt; refusal_of(&rt, &[FileName::Space(6)], &none)? == missing);
    Ok(())
}

// Whether a crash of a creation whose turns from one on fail leaves no header or a new store.
fn stands_at(rt: &HostRuntime, turn: u64, letter: Choice) -> Result<bool, Fail>
    requires { turn ≤ 6 }
{
    let plan = plan_of(rt.alloc(), Algorithm::Cbc)?;
    let ring = ring_of_one(rt.alloc())?;
    let mut failing = Vec::new(rt.alloc());
    for t in turn..7 {
        failing.push(t)?;
    }
    let disk = MemDisk::new(rt.alloc(), failing);
    let Err(refusal) = create(rt.alloc(), disk, &ring, &plan, &mut Elevens) else {
        return Ok(false);
    };
    if refusal.why != CreateFault::DiskFault {
        return Ok(false);
    }
    let Ok(mut left) = refusal.disk.crash(&[letter]) else {
        return Err(Fail::new("no memory"));
    };
    let mut block = [0; 4096];
    read_at(&mut left, FileName::Log, 143_360, 0, &mut block)?;
    Ok(crate::read_header(&block).is_none() || is_new_store(&mut left, Algorithm::Cbc)?)
}

#[test]
fn a_crash_of_a_creation_leaves_no_header_or_a_new_store(rt: HostRuntime) -> Result<(), Fail> {
    for turn in 1..7 {
        assert!(rt; stands_at(&rt, turn, Choice::Lost)?);
        assert!(rt; stands_at(&rt, turn, Choice::Kept)?);
        assert!(rt; stands_at(&rt, turn, Choice::Torn)?);
    }
    Ok(())
}
