// The worked rows.
ghost use Rattle.std.specs.Prelude.{◌≡◌, ◌<◌, ◌≤◌, IfOk, length};
ghost use Rattle.redo_text.specs.Block.{block_count};
ghost use Rattle.redo_text.specs.Text.{text_of, change_text, AreAllowed, IsAllowed};

use crate::{Log, LogFault};
use aes_core::Algorithm;
use redo_text::{Change, Mtr, Piece, RedoKey};
use std::alloc::{AllocError, Global};
use std::test::Fail;

fn key() -> RedoKey
    ensures { 1 ≤ result.version }
{
    RedoKey {
        version: 3,
        local: [7; 16],
        algorithm: Algorithm::Ctr,
    }
}

fn bytes_of(alloc: Global, n: usize) -> Result<Vec<u8>, AllocError>
    ensures { IfOk result (λ v. length v.items ≡ n) }
{
    vec![in alloc; 0xaau8; n]
}

// A mini-transaction of one put of so many bytes.
fn put_of(alloc: Global, n: usize) -> Result<Mtr, AllocError>
    requires some { 0 < n }
    requires most { n ≤ 16338 }
    ensures some { IfOk result (λ m. length m ≡ 1) }
    ensures allowed { IfOk result (λ m. AreAllowed m) }
    ensures few { IfOk result (λ m. block_count (text_of m) ≤ 16) }
{
    let bytes = Piece::of(bytes_of(alloc, n)?);
    let mut changes = Vec::new(alloc);
    let Ok(()) = changes.push(Change::Put {
        space: 5,
        page: 1,
        at: 38,
        bytes,
    }) else {
        return Err(AllocError);
    };
    Ok(Mtr::of(changes))
}

fn put_at(alloc: Global, page: u32) -> Result<Change, AllocError>
    requires { 0 < page }
    ensures { IfOk result (λ change. IsAllowed change × (length (change_text change) ≡ 18)) }
{
    let bytes = Piece::of(bytes_of(alloc, 1)?);
    Ok(Change::Put {
        space: 5,
        page,
        at: 38,
        bytes,
    })
}

// The LSN of two puts in one block, and the numbers of the log behind them.
fn two_puts(alloc: Global) -> Result<Option<(u64, u64, u64)>, AllocError> {
    let Ok(mut log) = Log::new(alloc, 32, 2, 1) else {
        return Ok(None);
    };
    let one = put_at(alloc, 1)?;
    let two = put_at(alloc, 2)?;
    let mut changes = Vec::new(alloc);
    let Ok(()) = changes.push(one) else {
        return Err(AllocError);
    };
    let Ok(()) = changes.push(two) else {
        return Err(AllocError);
    };
    let mtr = Mtr::of(changes);
    match log.append(alloc, &mtr, &key()) {
        Ok(lsn) => Ok(Some((lsn, log.durable(), log.next()))),
        Err(_) => Ok(None),
    }
}

// Two mini-transactions of one block where one number is left: the first LSN, and the refusal.
fn spent(alloc: Global) -> Result<Option<(u64, LogFault)>, AllocError> {
    let Ok(mut log) = Log::new(alloc, 32, 34_359_738_367, 1) else {
        return Ok(None);
    };
    let mtr = put_of(alloc, 1)?;
    let Ok(lsn) = log.append(alloc, &mtr, &key()) else {
        return Ok(None);
    };
    match log.append(alloc, &mtr, &key()) {
        Ok(_) => Ok(None),
        Err(fault) => Ok(Some((lsn, fault))),
    }
}

// A mini-transaction is appended and taken back: the log is as it was.
fn try_append(alloc: Global, log: &mut Log, mtr: &Mtr) -> Result<(), LogFault>
    requires some { 0 < length mtr.now }
    requires many { length mtr.now ≤ 65536 }
    requires allowed { AreAllowed mtr.now }
    requires few { block_count (text_of mtr.now) ≤ 16 }
    ensures { log.new ≡ log.old }
{
    let lsn = log.append(alloc, mtr, &key())?;
    log.take_back(lsn);
    Ok(())
}

// How many mini-transactions of one block a log of 32 blocks takes, and the refusal behind them. One
// is taken back first.
fn filled(alloc: Global) -> Result<Option<(usize, LogFault)>, AllocError> {
    let Ok(mut log) = Log::new(alloc, 32, 2, 1) else {
        return Ok(None);
    };
    let mtr = put_of(alloc, 1)?;
    let Ok(()) = try_append(alloc, &mut log, &mtr) else {
        return Ok(None);
    };
    for i in 0..40 {
        let Err(fault) = log.append(alloc, &mtr, &key()) else {
            continue;
        };
        return Ok(Some((i, fault)));
    }
    Ok(None)
}

#[test]
fn numbers_end_at_the_last_block(rt: HostRuntime) -> Result<(), Fail> {
    let Ok(Some((lsn, fault))) = spent(rt.alloc()) else {
        return Err(Fail::from("no answer"));
    };
    assert_eq!(rt; lsn, 140_737_488_355_328);
    assert_eq!(rt;
        fault,
        LogFault::Spent {
            next: 34_359_738_368
        }
    );
    Ok(())
}

#[test]
fn two_puts_end_at_block_3(rt: HostRuntime) -> Result<(), Fail> {
    let Ok(Some(numbers)) = two_puts(rt.alloc()) else {
        return Err(Fail::from("no answer"));
    };
    assert_eq!(rt; numbers, (12_288, 2, 3));
    Ok(())
}

#[test]
fn a_full_log_refuses(rt: HostRuntime) -> Result<(), Fail> {
    let Ok(Some((taken, fault))) = filled(rt.alloc()) else {
        return Err(Fail::from("no answer"));
    };
    assert_eq!(rt; taken, 32);
    assert_eq!(rt; fault, LogFault::LogFull { needed: 1, free: 0 });
    Ok(())
}
