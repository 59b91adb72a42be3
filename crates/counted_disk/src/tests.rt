// A counted disk over a disk in memory. The helpers ask for the size first, so that each call below meets
// what the disk needs.
use crate::{Counted, Stop};
use disk_model::{Disk, DiskError, FileName, Mark, MemDisk};
use std::test::Fail;

fn make<D: Disk>(disk: &mut D, file: FileName, length: u64) -> Result<(), DiskError> {
    match disk.size(file)? {
        None => disk.make(file, length),
        Some(_) => Err(DiskError::Failed),
    }
}

fn write<D: Disk>(disk: &mut D, file: FileName, at: u64, bytes: &[u8]) -> Result<(), DiskError> {
    match disk.size(file)? {
        Some(size) => {
            let count = bytes.len() as u64;
            if size < count || size - count < at {
                return Err(DiskError::Failed);
            }
            disk.write(file, at, bytes)
        }
        None => Err(DiskError::Failed),
    }
}

#[test]
fn counts_writes_and_syncs(rt: HostRuntime) -> Result<(), Fail> {
    let mut disk = Counted::new(MemDisk::new(rt.alloc(), Vec::new(rt.alloc())));
    assert_eq!(rt; make(&mut disk, FileName::Log, 4), Ok(()));
    assert_eq!(rt; disk.tell(Mark::Started), Ok(()));
    assert_eq!(rt; write(&mut disk, FileName::Log, 0, &[1, 2]), Ok(()));
    assert_eq!(rt; disk.sync(FileName::Log), Ok(()));
    assert_eq!(rt; disk.turns(), 2);
    assert_eq!(rt; disk.stop(), None);
    Ok(())
}

#[test]
fn stops_at_the_turn_that_fails(rt: HostRuntime) -> Result<(), Fail> {
    let mut disk = Counted::new(MemDisk::new(rt.alloc(), vec![in rt.alloc(); 2]?));
    assert_eq!(rt; disk.sync(FileName::Log), Ok(()));
    assert_eq!(rt; disk.sync(FileName::Log), Err(DiskError::Failed));
    let stop = Stop {
        error: DiskError::Failed,
        in_turn: true,
    };
    assert_eq!(rt; disk.stop(), Some(stop));
    assert_eq!(rt; disk.sync(FileName::Log), Err(DiskError::Failed));
    assert_eq!(rt; disk.tell(Mark::Started), Err(DiskError::Failed));
    assert_eq!(rt; disk.turns(), 2);
    // The turn behind it isn't to fail, and wasn't made.
    assert_eq!(rt; disk.into_disk().turns(), 2);
    Ok(())
}

#[test]
fn stops_where_memory_is_refused(rt: HostRuntime) -> Result<(), Fail> {
    let mut inner = MemDisk::new(rt.alloc(), Vec::new(rt.alloc()));
    inner.refuse_at(1);
    let mut disk = Counted::new(inner);
    assert_eq!(rt; disk.sync(FileName::Double), Err(DiskError::NoMemory));
    assert_eq!(rt; disk.size(FileName::Log), Err(DiskError::NoMemory));
    assert_eq!(rt; disk.turns(), 1);
    Ok(())
}
