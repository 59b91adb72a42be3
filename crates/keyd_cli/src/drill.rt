// A drill: a store on a memory disk, a session on it, the crash of its disk, and what is left.
ghost use Rattle.std.specs.Prelude.{◌≡◌, ◌≤◌, ◌<◌, ◌∷◌, [], ℕ, length, map, IfOk, Some, None};
ghost use Rattle.disk_model.specs.Contents.{events, calls_since};
ghost use Rattle.disk_model.specs.Crash.{crash_image};
ghost use Rattle.disk_model.specs.Image.{IsLucky};
ghost use Rattle.disk_model.specs.Past.{At};
ghost use Rattle.disk_model.specs.Turns.{turns_in};
ghost use Rattle.disk_model.specs.Log.{IsLaterLog};
ghost use Rattle.plain_engine.specs.Layer.{LogReady};
ghost use Rattle.plain_engine.specs.Made.{IsHeaded};
ghost use Rattle.plain_engine.specs.Kept.{IsExact};
ghost use Rattle.plain_engine.specs.Stands.{AllStand, AllRecover, AllRefusable, LogKeeps, passes, contents_after};
ghost use Rattle.plain_engine.specs.declared.fault.State.TheVariants as state;
ghost use Rattle.store_model.specs.Fold.{empty};
ghost use Rattle.store_model.specs.Report.{report_text};
ghost use Rattle.keyd_cli.specs.Reads.{mtr_count};
ghost use Rattle.keyd_cli.specs.Session.{AreRunnable};
ghost use Rattle.keyd_cli.specs.Drill.{info_of, stop_after, stopped_by, DrillBegins, AreLost, IsDrilled};

use crate::act::DrillStatement;
use crate::outcome::{DrillEnd, Reply};
use crate::plan::DrillPlan;
use crate::session::run_statements;
use crate::words::SpaceWords;
use cause_core::OutOfMemory;
use disk_model::{Choice, MemDisk};
use plain_engine::{Engine, Entry, Halted, Journal, create, scan};
use space_head::SpaceInfo;
use std::alloc::Global;
use store_model::{Contents, Mtr, fold, report};

/// How a drill ended.
#[derive(Drop)]
pub struct Drilled {
    pub journal: Journal,
    pub replies: Vec<Reply>,
    pub end: DrillEnd,
}

// The space of the store, as it is made.
fn space_info(space: &SpaceWords) -> SpaceInfo
    ensures { result ≡ info_of space.now }
{
    SpaceInfo {
        space: space.space,
        pages: space.pages,
        key_id: space.key_id,
        salt: [0; 16],
        ciphered: false,
        floor: 0,
    }
}

// The empty store on a memory disk, of which no turn is to fail, so that only memory can be refused.
fn created(alloc: Global, space: &SpaceWords) -> Result<MemDisk, OutOfMemory>
    ensures empty { IfOk result (λ disk. LogReady [] 0 0 0 (events disk.contents)) }
    ensures headed { IfOk result (λ disk. IsHeaded (info_of space.now ∷ []) (events disk.contents)) }
    ensures failing { IfOk result (λ disk. disk.contents.log.failing.items ≡ []) }
    ensures stop { IfOk result (λ disk. disk.contents.log.stop ≡ None) }
{
    let mut disk = MemDisk::new(alloc, Vec::new(alloc));
    match create(alloc, &mut disk, &[space_info(space)]) {
        Ok(()) => Ok(disk),
        Err(_) => Err(OutOfMemory),
    }
}

// The store as the session begins.
fn begun(alloc: Global, plan: &DrillPlan) -> Result<MemDisk, OutOfMemory>
    ensures { IfOk result (λ disk. DrillBegins plan.now.space plan.now.stop disk.contents) }
{
    let mut disk = created(alloc, &plan.space)?;
    if let Some(turn) = plan.stop {
        disk.stop_at(turn as u64);
    }
    Ok(disk)
}

// The session's stop, where that turn was made.
fn stopped_at(stop: Option<u32>, disk: &MemDisk) -> Option<u64>
    ensures { (begun : ℕ) → disk.now.contents.log.stop ≡ stop_after begun stop → result ≡ stopped_by begun (turns_in (calls_since disk.now.contents)) stop }
{
    let turn = stop?;
    if disk.stop()? <= disk.turns() {
        Some(turn as u64)
    } else {
        None
    }
}

// How many entries the image of the disk's crash recovers to. No turn of that image is to fail, so that only memory can be refused.
fn kept(alloc: Global, halted: &Halted<MemDisk>, choices: &[Choice]) -> Result<usize, OutOfMemory>
    requires choices { 0 < length choices.now }
    requires stands { AllStand halted.now.journal (events halted.now.disk.contents) }
    requires refusable { AllRefusable (events halted.now.disk.contents) }
    ensures keeps { IfOk result (LogKeeps halted.now.journal (crash_image choices.now (events halted.now.disk.contents))) }
    ensures lucky { IfOk result (λ _. IsLucky passes (crash_image choices.now (events halted.now.disk.contents))) }
    ensures settled { IfOk result (λ n. (settled : ℕ) → settled ≤ length halted.now.journal → AllRecover halted.now.journal settled (events halted.now.disk.contents) → n ≡ settled) }
    ensures lost { IfOk result (λ n. (settled acked : ℕ) → settled ≤ length halted.now.journal → AreLost choices.now → IsExact halted.now.journal settled acked (events halted.now.disk.contents) → n ≡ settled) }
{
    let mut image = halted.disk.crash(choices)?;
    match scan(alloc, &mut image) {
        Ok(texts) => Ok(texts.len()),
        Err(_) => Err(OutOfMemory),
    }
}

// A session on the store. No call of a disk in memory fails at the start, so that only memory can be refused.
fn started(alloc: Global, disk: MemDisk) -> Result<Engine<MemDisk>, OutOfMemory>
    requires { LogReady [] 0 0 0 (events disk.contents) }
    ensures journal { IfOk result (λ e. e.journal ≡ []) }
    ensures acked { IfOk result (λ e. e.acked ≡ 0) }
    ensures state { IfOk result (λ e. e.state ≡ state.Up) }
    ensures later { IfOk result (λ e. IsLaterLog disk.contents.log e.disk.contents.log) }
{
    match Engine::start(alloc, disk) {
        Ok(engine) => Ok(engine),
        Err(_) => Err(OutOfMemory),
    }
}

/// Runs the statements on the empty store and crashes its disk.
pub fn drill(
    alloc: Global,
    plan: &DrillPlan,
    statements: Vec<DrillStatement>,
) -> Result<Drilled, OutOfMemory>
    requires small { AreRunnable statements.items }
    requires room { mtr_count statements.items ≤ 256 }
    requires choices { 0 < length plan.now.choices.items }
    ensures { IfOk result (IsDrilled plan.now statements.items) }
{
    let mut engine = started(alloc, begun(alloc, plan)?)?;
    let ran = run_statements(alloc, &mut engine, statements)?;
    let acked = engine.acked();
    let halted = engine.halt();
    let kept = kept(alloc, &halted, &plan.choices)? as u64;
    let end = DrillEnd {
        stopped: stopped_at(plan.stop, &halted.disk),
        journal: halted.journal.len() as u64,
        acked,
        kept,
        disk: halted.disk,
        rest: None,
    };
    Ok(Drilled {
        journal: halted.journal,
        replies: ran.replies,
        end,
    })
}

// The mini-transactions of these entries once more.
fn copied(alloc: Global, entries: &[Entry]) -> Result<Vec<Mtr>, OutOfMemory>
    ensures { IfOk result (λ mtrs. mtrs.items ≡ map (λ e. e.mtr) entries.now) }
{
    let mut mtrs = Vec::new(alloc);
    for entry in entries {
        mtrs.push(entry.mtr.copy(alloc)?)?;
    }
    Ok(mtrs)
}

/// The report of the store's pages after the first so many entries of a journal.
pub fn report_after(
    alloc: Global,
    space: &SpaceWords,
    journal: &Journal,
    kept: u64,
) -> Result<Vec<u8>, OutOfMemory>
    requires { kept ≤ length journal.now }
    ensures { IfOk result (λ text. text.items ≡ report_text (contents_after kept journal.now (empty (info_of space.now ∷ [])))) }
{
    let mtrs = copied(alloc, &journal.entries()[..kept as usize])?;
    let first = Contents::empty(alloc, &[space_info(space)])?;
    let contents = fold(alloc, &mtrs, first)?;
    report(alloc, &contents)
}
