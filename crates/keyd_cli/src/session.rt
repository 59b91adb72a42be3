// A session of a drill: its statements in order, on an engine over a memory disk.
ghost use Rattle.std.specs.Prelude.{◌≡◌, ◌≢◌, ◌+◌, ◌<◌, ◌≤◌, [], ◌∷◌, ◌++◌, length, IfOk, Ok, Some, None, true, false, MatchOption};
ghost use Rattle.plain_engine.specs.declared.fault.State.TheVariants as state;
ghost use Rattle.keyd_cli.specs.Session.{IsSmallAct, AreRunnable, entry_of, reply_to, HasRun, acked_after, AreAckedWithin};
ghost use Rattle.keyd_cli.specs.Reads.{mtr_count, is_mtr};

use crate::act::{DrillAct, DrillStatement};
use crate::outcome::{Answer, Reply};
use cause_core::OutOfMemory;
use disk_model::{Disk, MemDisk};
use plain_engine::{Author, Engine, EngineFault};
use std::alloc::Global;

// Runs one statement. None where the disk was stopped.
fn answer<D: Disk + Drop>(
    engine: &mut Engine<D>,
    statement: DrillStatement,
) -> Result<Option<Reply>, OutOfMemory>
    requires small { IsSmallAct statement.act }
    requires room { length engine.old.journal + length (entry_of 0 0 statement.act) ≤ 256 }
    requires up { engine.old.state ≡ state.Up }
    ensures acked { IfOk result (λ o. engine.new.acked ≡ acked_after o engine.old.acked (length engine.new.journal)) }
    ensures later { D.is_later engine.old.disk engine.new.disk }
    ensures first { engine.new.first ≡ engine.old.first }
    ensures cause { IfOk result (λ o. o ≡ None → (1 ≤ D.faults engine.new.disk) × (engine.new.state ≢ state.OutOfMemory)) }
    ensures done { IfOk result (λ o. MatchOption o ((engine.new.journal ≡ engine.old.journal) × (engine.new.state ≢ state.Up)) (λ reply. (engine.new.journal ≡ engine.old.journal ++ entry_of (length engine.old.journal) statement.line statement.act) × (reply ≡ reply_to (length engine.old.journal) statement) × (engine.new.state ≡ state.Up))) }
{
    let line = statement.line;
    match statement.act {
        DrillAct::Mtr { session, mtr } => match engine.commit(Author { session, line }, mtr) {
            Ok(receipt) => Ok(Some(Reply {
                line,
                place: receipt.place,
                answer: Answer::Place(receipt.place, receipt.lsn),
            })),
            Err(_) => Err(OutOfMemory),
        },
        DrillAct::Sync => match engine.sync() {
            Ok(acked) => Ok(Some(Reply {
                line,
                place: acked,
                answer: Answer::Acked(acked),
            })),
            Err(EngineFault::DiskFault { .. }) => Ok(None),
            Err(_) => Err(OutOfMemory),
        },
    }
}

/// What was done of a session's statements.
#[derive(Drop)]
pub struct SessionOutcome {
    /// The replies to the statements that were done.
    pub replies: Vec<Reply>,
    /// Whether all were done. Else the disk was stopped in the next one.
    pub is_whole: bool,
}

/// Runs the statements in order, until the disk is stopped.
pub fn run_statements<D: Disk + Drop>(
    alloc: Global,
    engine: &mut Engine<D>,
    statements: Vec<DrillStatement>,
) -> Result<SessionOutcome, OutOfMemory>
    requires small { AreRunnable statements.items }
    requires room { mtr_count statements.items ≤ 256 }
    requires empty { engine.old.journal ≡ [] }
    requires up { engine.old.state ≡ state.Up }
    requires unacked { engine.old.acked ≡ 0 }
    ensures ran { IfOk result (λ r. HasRun statements.items r.is_whole engine.new.journal r.replies.items) }
    ensures acked { IfOk result (λ r. AreAckedWithin engine.new.acked r.replies.items) }
    ensures later { IfOk result (λ _. D.is_later engine.old.disk engine.new.disk) }
    ensures cause { IfOk result (λ r. r.is_whole ≡ false → (1 ≤ D.faults engine.new.disk) × (engine.new.state ≢ state.OutOfMemory)) }
    ensures whole { IfOk result (λ r. r.is_whole ≡ true → engine.new.state ≡ state.Up) }
    ensures stopped { IfOk result (λ r. r.is_whole ≡ false → engine.new.state ≢ state.Up) }
{
    let mut replies = Vec::new(alloc);
    for statement in statements {
        let Some(reply) = answer(engine, statement)? else {
            return Ok(SessionOutcome {
                replies,
                is_whole: false,
            });
        };
        replies.push(reply)?;
    }
    Ok(SessionOutcome {
        replies,
        is_whole: true,
    })
}
