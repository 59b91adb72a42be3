// What a session on a new store answers, and what it asks of its disk.
use crate::fixture::{refusal_at, session};
use crate::{EngineFault, SessionCore, StartFault};
use aes_core::Algorithm;
use disk_model::{DiskAct, DiskCall, Mark, MemDisk};
use std::test::Fail;

#[test]
fn a_session_begins_with_its_store(rt: HostRuntime) -> Result<(), Fail> {
    let session = session(&rt)?;
    assert!(rt; session.blocks() == 32 && session.algorithm() == Algorithm::Ctr);
    let spaces = session.spaces();
    assert!(rt; spaces.len() == 1);
    let space = spaces[0];
    assert!(rt; space.space == 5 && space.pages == 4 && space.ciphered && space.floor == 1);
    assert!(rt; session.journal().is_empty() && session.acked() == 0);
    assert!(rt; session.disk().turns() == 0 && session.disk().stop().is_none());
    Ok(())
}

#[test]
fn a_version_that_the_ring_lacks_is_refused(rt: HostRuntime) -> Result<(), Fail> {
    for version in [0, 3] {
        let wanted = StartFault::NoVersion { id: 1, version };
        assert!(rt; refusal_at(&rt, version)? == (wanted, 2), "at {version}");
    }
    Ok(())
}

// Whether the bytes from here on are zero.
fn are_zero(session: &mut SessionCore<MemDisk>, page: u32, at: u32) -> Result<bool, EngineFault> {
    let mut bytes = [1; 3];
    session.read(5, page, at, &mut bytes)?;
    Ok(bytes == [0; 3])
}

#[test]
fn pages_without_a_text_are_unused(rt: HostRuntime) -> Result<(), Fail> {
    let mut session = session(&rt)?;
    for page in 1..4 {
        assert!(rt; session.page_kind(5, page) == Ok(None), "at {page}");
        assert!(rt; are_zero(&mut session, page, 38) == Ok(true), "at {page}");
        assert!(rt;
            are_zero(&mut session, page, 16373) == Ok(true),
            "at {page}"
        );
    }
    Ok(())
}

#[test]
fn pages_that_are_not_there_are_refused(rt: HostRuntime) -> Result<(), Fail> {
    let mut session = session(&rt)?;
    for (space, page) in [(5, 0), (5, 4), (6, 1)] {
        let wanted = EngineFault::NoSuchPage { space, page };
        assert!(rt; session.page_kind(space, page) == Err(wanted), "at {page}");
        assert!(rt;
            session.read(space, page, 0, &mut [0; 1]) == Err(wanted),
            "at {page}"
        );
    }
    Ok(())
}

#[test]
fn ranges_outside_of_a_body_are_refused(rt: HostRuntime) -> Result<(), Fail> {
    let mut session = session(&rt)?;
    for at in [37, 16374, 4_294_967_295] {
        let wanted = EngineFault::BadRange { at, length: 3 };
        assert!(rt; are_zero(&mut session, 1, at) == Err(wanted), "at {at}");
    }
    let empty = EngineFault::BadRange { at: 38, length: 0 };
    assert!(rt; session.read(5, 1, 38, &mut []) == Err(empty));
    Ok(())
}

#[test]
fn a_greater_version_becomes_the_active_one(rt: HostRuntime) -> Result<(), Fail> {
    let mut session = session(&rt)?;
    let missing = EngineFault::NoVersion { id: 1, version: 3 };
    assert!(rt; session.activate(3) == Err(missing));
    assert!(rt; session.activate(2) == Ok(()));
    for asked in [1, 2] {
        let wanted = EngineFault::NotNewer { active: 2, asked };
        assert!(rt; session.activate(asked) == Err(wanted), "at {asked}");
    }
    Ok(())
}

// The marks among calls.
fn marks(rt: &HostRuntime, calls: &[DiskCall]) -> Result<Vec<Mark>, Fail> {
    let mut told = Vec::new(rt.alloc());
    for call in calls {
        if let DiskAct::Tell(mark) = &call.act {
            told.push(*mark)?;
        }
    }
    Ok(told)
}

// Where nothing was committed a sync and a checkpoint make no turn.
#[test]
fn an_empty_session_tells_its_marks(rt: HostRuntime) -> Result<(), Fail> {
    let mut session = session(&rt)?;
    assert!(rt; session.checkpoint() == Ok(2));
    assert!(rt; session.sync() == Ok(0));
    assert!(rt; session.checkpoint() == Ok(2));
    assert!(rt; session.disk().turns() == 0);
    let halted = session.halt();
    assert!(rt; halted.journal.len() == 0);
    // The six turns of the creation.
    assert!(rt; halted.disk.turns() == 6);
    let told = marks(&rt, halted.disk.calls())?;
    assert!(rt; told.as_slice() == [Mark::Started, Mark::Acked(0)].as_slice());
    Ok(())
}
