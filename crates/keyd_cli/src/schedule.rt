// The schedule of a drill.
ghost use Rattle.std.specs.Prelude.{◌≡◌, ◌≤◌, ◌∷◌, [], MatchOption, IfOk, codes, IsTrue, ◌↔◌, ◌+◌, IfNone, IfSome, true, if◌then◌else◌, length};
ghost use Rattle.keyd_cli.specs.Schedule.{schedule_bytes, statement_words, AreNumbers, IsPutLine, IsAct};
ghost use Rattle.keyd_cli.specs.Lines.{IsDrillLine};
ghost use Rattle.keyd_cli.specs.Reads.{is_mtr, HasRoom, IsSchedule, IsNotBuilt};

use crate::act::{DrillAct, DrillStatement};
use crate::number::number_within;
use crate::parts::DrillParts;
use crate::words::SpaceWords;
use cause_core::OutOfMemory;
use hex::FromHexError;
use std::alloc::Global;
use store_model::{Change, Mtr, Piece};
use thiserror::Error;

// The words of a line `mtr K put SPACE PAGE AT HEX`, but for its two names.
#[derive(Clone, Copy)]
struct PutWords<'a> {
    session: &'a [u8],
    space: &'a [u8],
    page: &'a [u8],
    at: &'a [u8],
    hex: &'a [u8],
}

fn put_words(line: &[u8]) -> Option<PutWords<'_>>
    ensures { MatchOption result ((a b d e f : _) → statement_words line.now ≡ codes "mtr" ∷ a ∷ codes "put" ∷ b ∷ d ∷ e ∷ f ∷ [] → ⊥) (λ w. statement_words line.now ≡ codes "mtr" ∷ w.session.now ∷ codes "put" ∷ w.space.now ∷ w.page.now ∷ w.at.now ∷ w.hex.now ∷ []) }
{
    let mut words = DrillParts::new(line, b' ');
    if words.next()? != b"mtr".as_slice() {
        return None;
    }
    let session = words.next()?;
    if words.next()? != b"put".as_slice() {
        return None;
    }
    let space = words.next()?;
    let page = words.next()?;
    let at = words.next()?;
    let hex = words.next()?;
    if words.next().is_some() {
        return None;
    }
    Some(PutWords {
        session,
        space,
        page,
        at,
        hex,
    })
}

// The numbers of such a line, and its digits.
#[derive(Clone, Copy)]
struct PutNumbers<'a> {
    session: u32,
    page: u32,
    at: u32,
    hex: &'a [u8],
}

fn put_numbers<'a>(line: &'a [u8], plan: &SpaceWords) -> Option<PutNumbers<'a>>
    requires { 2 ≤ plan.now.pages }
    ensures { MatchOption result ((session page at hex : _) → AreNumbers plan.now.space plan.now.pages line.now session page at hex → ⊥) (λ n. AreNumbers plan.now.space plan.now.pages line.now n.session n.page n.at n.hex.now) }
{
    let words = put_words(line)?;
    let session = number_within(words.session, 1, 16)?;
    let _space = number_within(words.space, plan.space, plan.space)?;
    let page = number_within(words.page, 1, plan.pages - 1)?;
    let at = number_within(words.at, 38, 16_375)?;
    Some(PutNumbers {
        session,
        page,
        at,
        hex: words.hex,
    })
}

// Whether so many bytes can be put at this place of a page, and one block holds the change.
fn is_fitting(at: u32, length: usize) -> bool
    ensures { IsTrue result ↔ (1 ≤ length) × (at + length ≤ 16376) × (17 + length ≤ 4076) }
{
    1 <= length && length <= 4_059 && at as usize + length <= 16_376
}

// The mini-transaction of such a line. None where the line isn't one that the store can take.
fn put_act(alloc: Global, line: &[u8], plan: &SpaceWords) -> Result<Option<DrillAct>, OutOfMemory>
    requires { 2 ≤ plan.now.pages }
    ensures { IfOk result (λ o. MatchOption o ((session page at bytes : _) → IsPutLine plan.now.space plan.now.pages line.now session page at bytes → ⊥) (λ act. IsAct plan.now.space plan.now.pages line.now act)) }
{
    let Some(numbers) = put_numbers(line, plan) else {
        return Ok(None);
    };
    let bytes = match hex::decode(alloc, numbers.hex) {
        Ok(bytes) => bytes,
        Err(FromHexError::OutOfMemory) => return Err(OutOfMemory),
        Err(_) => return Ok(None),
    };
    if !is_fitting(numbers.at, bytes.len()) {
        return Ok(None);
    }
    let change = Change::Put {
        space: plan.space,
        page: numbers.page,
        at: numbers.at,
        bytes: Piece::of(bytes),
    };
    let mtr = Mtr::of(vec![in alloc; change]?);
    Ok(Some(DrillAct::Mtr {
        session: numbers.session,
        mtr,
    }))
}

// What a line is.
#[derive(Drop)]
enum LineKind {
    Skipped,
    Act(DrillAct),
    Other,
}

fn read_line(alloc: Global, line: &[u8], plan: &SpaceWords) -> Result<LineKind, OutOfMemory>
    requires { 2 ≤ plan.now.pages }
    ensures { IfOk result (IsDrillLine plan.now.space plan.now.pages line.now) }
{
    if line.is_empty() || line[0] == b'#' {
        return Ok(LineKind::Skipped);
    }
    if line == b"sync".as_slice() {
        return Ok(LineKind::Act(DrillAct::Sync));
    }
    match put_act(alloc, line, plan)? {
        Some(act) => Ok(LineKind::Act(act)),
        None => Ok(LineKind::Other),
    }
}

/// Why a schedule isn't run.
#[derive(Clone, Copy, Debug, PartialEq, Eq, Error)]
pub enum ScheduleFault {
    /// The line with this number, from 1 on, is the first that isn't a statement of this form.
    #[error("line {0} not built")]
    NotBuilt(u32),
    #[error("out of memory")]
    OutOfMemory,
}

// How many mini-transactions there are with this statement. None where there is no room for it.
fn counted(act: &DrillAct, mtrs: usize) -> Option<usize>
    requires { mtrs ≤ 256 }
    ensures none { IfNone result ((is_mtr act.now ≡ true) × (mtrs ≡ 256)) }
    ensures some { IfSome result (λ n. (n ≡ mtrs + (if is_mtr act.now then 1 else 0)) × HasRoom mtrs act.now × (n ≤ 256)) }
{
    match act {
        DrillAct::Mtr { .. } => { if mtrs == 256 { None } else { Some(mtrs + 1) } }
        DrillAct::Sync => Some(mtrs),
    }
}

/// Reads the schedule of a drill over one space. The log holds 256 mini-transactions.
pub fn read_schedule(
    alloc: Global,
    text: &[u8],
    plan: &SpaceWords,
) -> Result<Vec<DrillStatement>, ScheduleFault>
    requires pages { 2 ≤ plan.now.pages }
    requires size { length text.now ≤ schedule_bytes }
    ensures ok { IfOk result (λ s. IsSchedule plan.now.space plan.now.pages text.now s.items) }
    ensures not_built { (line : _) → result ≡ Err (ScheduleFault.NotBuilt line) → IsNotBuilt plan.now.space plan.now.pages text.now line }
{
    let mut statements = Vec::new(alloc);
    let mut lines = DrillParts::new(text, b'\n');
    let mut number = 0;
    let mut mtrs = 0;
    while let Some(line) = lines.next() {
        number += 1;
        let Ok(line) = read_line(alloc, line, plan) else {
            return Err(ScheduleFault::OutOfMemory);
        };
        match line {
            LineKind::Skipped => {}
            LineKind::Act(act) => {
                let Some(count) = counted(&act, mtrs) else {
                    return Err(ScheduleFault::NotBuilt(number));
                };
                mtrs = count;
                let statement = DrillStatement { line: number, act };
                let Ok(()) = statements.push(statement) else {
                    return Err(ScheduleFault::OutOfMemory);
                };
            }
            LineKind::Other => return Err(ScheduleFault::NotBuilt(number)),
        }
    }
    Ok(statements)
}
