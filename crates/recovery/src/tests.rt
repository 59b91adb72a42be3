// What the stages find and refuse.
use crate::fixture::{Files, disk_of, disk_with, store, write_at, write_checkpoint, write_header};
use crate::{check_floors, check_lengths, check_numbers, find_checkpoint, find_header};
use disk_model::{FileName, MemDisk};
use doublewrite::OpenRefuse;
use redo_log::Checkpoint;
use space_head::SpaceInfo;
use std::test::Fail;

// The first three stages.
fn checkpoint_of(disk: &mut MemDisk) -> Result<Checkpoint, OpenRefuse> {
    let header = find_header(disk)?;
    check_lengths(disk, &header)?;
    find_checkpoint(disk)
}

// What they answer over these files.
fn answer(alloc: std::alloc::Global, files: Files) -> Result<Result<Checkpoint, OpenRefuse>, Fail> {
    let mut disk = disk_of(alloc, files)?;
    Ok(checkpoint_of(&mut disk))
}

fn first(sequence: u64, from: u64) -> Result<Checkpoint, OpenRefuse> {
    Ok(Checkpoint { sequence, from })
}

#[test]
fn header_lengths_and_checkpoint_are_found(rt: HostRuntime) -> Result<(), Fail> {
    let mut disk = disk_of(rt.alloc(), store(&rt, rt.alloc())?)?;
    let Ok(header) = find_header(&mut disk) else {
        panic!(rt; "no header");
    };
    assert!(rt; header.blocks == 32 && header.count == 1 && header.salt == [7; 16]);
    assert!(rt; check_lengths(&mut disk, &header) == Ok(()));
    assert!(rt; answer(rt.alloc(), store(&rt, rt.alloc())?)? == first(1, 2));
    Ok(())
}

#[test]
fn of_two_checkpoints_the_newer_valid_one_is_found(rt: HostRuntime) -> Result<(), Fail> {
    let mut newer = store(&rt, rt.alloc())?;
    write_checkpoint(&rt, &mut newer.log, 2, 7);
    assert!(rt; answer(rt.alloc(), newer)? == first(2, 7));
    let mut older = store(&rt, rt.alloc())?;
    write_checkpoint(&rt, &mut older.log, 3, 9);
    write_checkpoint(&rt, &mut older.log, 2, 7);
    assert!(rt; answer(rt.alloc(), older)? == first(3, 9));
    let mut torn = store(&rt, rt.alloc())?;
    write_checkpoint(&rt, &mut torn.log, 2, 7);
    write_at(&rt, &mut torn.log, 4096 + 23, &[8]);
    assert!(rt; answer(rt.alloc(), torn)? == first(1, 2));
    Ok(())
}

#[test]
fn a_log_without_header_is_refused(rt: HostRuntime) -> Result<(), Fail> {
    let mut short = store(&rt, rt.alloc())?;
    short.log.truncate(12287);
    assert!(rt; answer(rt.alloc(), short)? == Err(OpenRefuse::NotFormatted));
    let mut other = store(&rt, rt.alloc())?;
    write_header(&rt, &mut other.log, b"KEYSTOR2");
    assert!(rt; answer(rt.alloc(), other)? == Err(OpenRefuse::NotFormatted));
    let mut torn = store(&rt, rt.alloc())?;
    write_at(&rt, &mut torn.log, 19, &[33]);
    assert!(rt; answer(rt.alloc(), torn)? == Err(OpenRefuse::NotFormatted));
    let files = store(&rt, rt.alloc())?;
    let mut missing = disk_with(rt.alloc(), FileName::Double, files.double)?;
    assert!(rt; checkpoint_of(&mut missing) == Err(OpenRefuse::NotFormatted));
    Ok(())
}

// The refusal of a file of another length.
fn other_length(file: FileName, wanted: u64, found: u64) -> Result<Checkpoint, OpenRefuse> {
    Err(OpenRefuse::Mixed {
        file,
        at: 0,
        wanted,
        found,
    })
}

#[test]
fn the_first_file_of_another_length_is_refused(rt: HostRuntime) -> Result<(), Fail> {
    let mut log = store(&rt, rt.alloc())?;
    log.log.truncate(139_264);
    log.double.truncate(1);
    let wanted = other_length(FileName::Log, 143_360, 139_264);
    assert!(rt; answer(rt.alloc(), log)? == wanted);
    let mut double = store(&rt, rt.alloc())?;
    double.double.truncate(1_081_343);
    double.space.truncate(1);
    let wanted = other_length(FileName::Double, 1_081_344, 1_081_343);
    assert!(rt; answer(rt.alloc(), double)? == wanted);
    let mut space = store(&rt, rt.alloc())?;
    space.space.truncate(49152);
    let wanted = other_length(FileName::Space(5), 65536, 49152);
    assert!(rt; answer(rt.alloc(), space)? == wanted);
    let files = store(&rt, rt.alloc())?;
    let mut alone = disk_with(rt.alloc(), FileName::Log, files.log)?;
    let wanted = other_length(FileName::Double, 1_081_344, 0);
    assert!(rt; checkpoint_of(&mut alone) == wanted);
    Ok(())
}

#[test]
fn two_zero_checkpoints_are_refused(rt: HostRuntime) -> Result<(), Fail> {
    let mut files = store(&rt, rt.alloc())?;
    write_at(&rt, &mut files.log, 8192, &[0; 4096]);
    let wanted = Err(OpenRefuse::Damaged {
        file: FileName::Log,
        at: 4096,
        stored: 0,
        computed: 0xa732_586e,
    });
    assert!(rt; answer(rt.alloc(), files)? == wanted);
    Ok(())
}

#[test]
fn versions_below_a_floor_and_spent_numbers_are_refused(rt: HostRuntime) {
    let space = |space, floor| SpaceInfo {
        space,
        pages: 2,
        key_id: 1,
        salt: [0; 16],
        ciphered: true,
        floor,
    };
    let spaces = [space(3, 1), space(5, 2), space(7, 3)];
    assert!(rt; check_floors(&spaces, 3) == Ok(()));
    let wanted = Err(OpenRefuse::VersionBelowFloor {
        space: 5,
        floor: 2,
        version: 1,
    });
    assert!(rt; check_floors(&spaces, 1) == wanted);
    assert!(rt; check_numbers(34_359_738_335, 32) == Ok(()));
    let wanted = Err(OpenRefuse::Spent {
        last: 34_359_738_336,
    });
    assert!(rt; check_numbers(34_359_738_336, 32) == wanted);
}
