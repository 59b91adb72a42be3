// The table of crashes, a turn of the ring in each test: of each of four write outs nine turns and its
// end, of each checkpoint two turns and its end, in three ways each.
use crate::crashing::plain_round;
use crate::rows::{Expected, crash_rows, crashed, settled};
use crate::{CrashTally, DrillHalt, RING_BLOCKS, count_scan, drill_log, make_log};
use disk_model::{Choice, MemDisk};
use redo_log::Log;
use std::alloc::Global;
use std::test::Fail;

#[test]
fn first_turn_of_the_ring(rt: HostRuntime) -> Result<(), Fail> {
    let Ok(drilled) = drill_log(rt.alloc(), 0) else {
        return Err(Fail::from("no answer"));
    };
    let all = CrashTally {
        rows: 129,
        sound: 129,
    };
    assert_eq!(rt; drilled.tally, all);
    Ok(())
}

#[test]
fn second_turn_of_the_ring(rt: HostRuntime) -> Result<(), Fail> {
    let Ok(drilled) = drill_log(rt.alloc(), 1) else {
        return Err(Fail::from("no answer"));
    };
    let all = CrashTally {
        rows: 129,
        sound: 129,
    };
    assert_eq!(rt; drilled.tally, all);
    Ok(())
}

#[test]
fn third_turn_of_the_ring(rt: HostRuntime) -> Result<(), Fail> {
    let Ok(drilled) = drill_log(rt.alloc(), 2) else {
        return Err(Fail::from("no answer"));
    };
    let all = CrashTally {
        rows: 138,
        sound: 138,
    };
    assert_eq!(rt; drilled.tally, all);
    Ok(())
}

// A run of 0, 8 and 32 blocks: each is read once, and so is the block behind the run, which a full ring
// has not.
#[test]
fn scan_reads_each_block_once(rt: HostRuntime) -> Result<(), Fail> {
    for (rounds, blocks, calls) in [(0, 0, 1), (1, 8, 9), (4, 32, 32)] {
        let Ok(count) = count_scan(rt.alloc(), rounds) else {
            return Err(Fail::from("no answer"));
        };
        assert_eq!(rt; count.blocks, blocks);
        assert_eq!(rt; count.calls, calls);
    }
    Ok(())
}

// What is wrong in a row.
#[derive(Clone, Copy)]
enum Wrong {
    Nothing,
    // What is expected: another sequence or first block of the checkpoint, or another end of the run.
    Sequence,
    From,
    End,
    // A byte of a block that was appended.
    Byte,
    // The disk: it is the one before the last blocks were written out.
    Disk,
}

fn expect_wrong(expected: &mut Expected, wrong: Wrong) {
    match wrong {
        Wrong::Sequence => expected.checkpoint.sequence = 2,
        Wrong::From => expected.checkpoint.from = 3,
        Wrong::End => expected.end = 17,
        Wrong::Nothing | Wrong::Byte | Wrong::Disk => {}
    }
}

// The three rows of a disk after two rounds, where this is wrong.
fn wrong_rows(alloc: Global, wrong: Wrong) -> Result<CrashTally, DrillHalt> {
    let mut disk = MemDisk::new(alloc, Vec::new(alloc));
    make_log(&mut disk)?;
    let Ok(mut log) = Log::new(alloc, RING_BLOCKS, 2, 1) else {
        return Err(DrillHalt::OutOfMemory);
    };
    let mut blocks = Vec::new(alloc);
    plain_round(alloc, &mut disk, &mut log, &mut blocks, false)?;
    let before = crashed(&disk, Choice::Kept)?;
    plain_round(alloc, &mut disk, &mut log, &mut blocks, false)?;
    let mut expected = settled(&log);
    expect_wrong(&mut expected, wrong);
    if let Wrong::Byte = wrong
        && let Some(byte) = blocks.get_mut(20_000)
    {
        *byte ^= 1;
    }
    let image = if let Wrong::Disk = wrong {
        &before
    } else {
        &disk
    };
    let mut tally = CrashTally { rows: 0, sound: 0 };
    crash_rows(alloc, image, &blocks, expected, expected, &mut tally)?;
    Ok(tally)
}

// A row in which something is wrong isn't counted as sound.
#[test]
fn wrong_rows_are_not_sound(rt: HostRuntime) -> Result<(), Fail> {
    let table = [
        (Wrong::Nothing, 3),
        (Wrong::Sequence, 0),
        (Wrong::From, 0),
        (Wrong::End, 0),
        (Wrong::Byte, 0),
        (Wrong::Disk, 0),
    ];
    for (wrong, sound) in table {
        let Ok(tally) = wrong_rows(rt.alloc(), wrong) else {
            return Err(Fail::from("no answer"));
        };
        assert_eq!(rt; tally.rows, 3);
        assert_eq!(rt; tally.sound, sound);
    }
    Ok(())
}
