ghost use Rattle.std.specs.Prelude.{◌≡◌, [], IfOk};
ghost use Rattle.plain_engine.specs.Text.{IsSmall};

use crate::{Author, Engine, EngineFault, StartFault, State, create, scan};
use disk_model::{Choice, Disk, FileName, MemDisk};
use space_head::SpaceInfo;
use std::alloc::{AllocError, Global};
use std::test::Fail;
use store_model::{Change, Mtr, Piece};

const SPACE: SpaceInfo = SpaceInfo {
    space: 5,
    pages: 4,
    key_id: 1,
    salt: [0; 16],
    ciphered: false,
    floor: 0,
};

const AUTHOR: Author = Author {
    session: 1,
    line: 1,
};

fn one_put(alloc: Global) -> Result<Mtr, AllocError>
    ensures { IfOk result (λ mtr. IsSmall mtr) }
{
    let bytes = Piece::of(b"abc".to_vec(alloc)?);
    let change = Change::Put {
        space: 5,
        page: 1,
        at: 38,
        bytes,
    };
    let mut changes = Vec::new(alloc);
    let Ok(()) = changes.push(change) else {
        return Err(AllocError);
    };
    Ok(Mtr::of(changes))
}

fn started(alloc: Global, stop: u64) -> Result<Engine<MemDisk>, StartFault>
    ensures { IfOk result (λ e. e.journal ≡ []) }
{
    let mut disk = MemDisk::new(alloc, Vec::new(alloc));
    create(alloc, &mut disk, &[SPACE])?;
    disk.stop_at(stop);
    match Engine::start(alloc, disk) {
        Ok(engine) => Ok(engine),
        Err(refusal) => Err(refusal.why),
    }
}

// How many mini-transactions the log of the disk recovers to.
fn recovered<D: Disk>(alloc: Global, disk: &mut D) -> Result<usize, StartFault> {
    match disk.size(FileName::Log)? {
        Some(size) => {
            if size < 1_060_864 {
                return Ok(999);
            }
            Ok(scan(alloc, disk)?.len())
        }
        None => Ok(999),
    }
}

// The answer to the sync of one commit on a disk that stops, and to the call after it; and what the
// three choices of a crash recover.
fn kept(
    alloc: Global,
    stop: u64,
) -> Result<
    (
        Result<u64, EngineFault>,
        Result<u64, EngineFault>,
        [usize; 3],
    ),
    Fail,
> {
    let mut engine = started(alloc, stop)?;
    let receipt = engine.commit(AUTHOR, one_put(alloc)?)?;
    let _ = receipt;
    let first = engine.sync();
    let second = engine.sync();
    let halted = engine.halt();
    let mut lost = halted.disk.crash(&[Choice::Lost])?;
    let mut whole = halted.disk.crash(&[Choice::Kept])?;
    let mut torn = halted.disk.crash(&[Choice::Torn])?;
    let counts = [
        recovered(alloc, &mut lost)?,
        recovered(alloc, &mut whole)?,
        recovered(alloc, &mut torn)?,
    ];
    Ok((first, second, counts))
}

#[test]
fn a_commit_is_acknowledged_or_the_engine_is_down(rt: HostRuntime) -> Result<(), Fail> {
    let alloc = rt.alloc();
    let mut engine = started(alloc, 1_000_000)?;
    let receipt = engine.commit(AUTHOR, one_put(alloc)?)?;
    assert_eq!(rt; receipt.place, 1);
    assert_eq!(rt; receipt.lsn, 12288);
    assert_eq!(rt; engine.journal().len(), 1);
    assert!(rt; (engine.settled(), engine.acked(), engine.turns()) == (0, 0, 0));
    let synced = engine.sync()?;
    assert_eq!(rt; synced, 1);
    assert!(rt; (engine.settled(), engine.acked(), engine.turns()) == (1, 1, 2));
    assert!(rt; engine.state() == State::Up);
    let done = kept(alloc, 1_000_000)?;
    assert!(rt; done == (Ok(1), Ok(1), [1, 1, 1]));
    let fault = Err(EngineFault::DiskFault { turn: 1 });
    let down = Err(EngineFault::Down { turn: 1 });
    assert!(rt; kept(alloc, 1)? == (fault, down, [0, 1, 0]));
    let fault = Err(EngineFault::DiskFault { turn: 2 });
    let down = Err(EngineFault::Down { turn: 2 });
    assert!(rt; kept(alloc, 2)? == (fault, down, [0, 1, 0]));
    Ok(())
}
