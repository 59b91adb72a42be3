// Whether a store can run a script.
ghost use Rattle.std.specs.Prelude.{◌≡◌, ◌≤◌, ◌<◌, ◌^◌, ℕ, length};
ghost use Rattle.redo_text.specs.Text.{change_text};
ghost use Rattle.script_core.specs.Checks as checks;
ghost use Rattle.script_core.specs.Checks.{unless_refused};

use crate::act::{Act, ScriptChange, ScriptChanges};
use crate::fault::{Refused, Why};
use crate::script::{Script, Statement};
use space_head::SpaceInfo;

// The first byte of a page's body.
const BODY_START: u32 = 38;

// The first byte behind it.
const BODY_END: usize = 16_376;

// How many bytes of a text a block of the log holds.
const BLOCK_TEXT: u128 = 4_076;

// How many bytes of the log a put takes beside those that it writes.
const PUT_LENGTH: u128 = 17;

// How many bytes of the log a change of a page's type takes.
const KIND_LENGTH: u128 = 11;

// How many blocks a mini-transaction has at most.
const MOST_BLOCKS: usize = 16;

// The number of pages of a tablespace.
fn page_count_of(spaces: &[SpaceInfo], space: u32) -> Option<u32>
    ensures { result ≡ checks.page_count_of spaces.now space }
{
    for info in spaces {
        if info.space == space {
            return Some(info.pages);
        }
    }
    None
}

fn missing_space(spaces: &[SpaceInfo], space: u32) -> Option<Why>
    ensures { result ≡ checks.missing_space spaces.now space }
{
    match page_count_of(spaces, space) {
        Some(_) => None,
        None => Some(Why::NoSuchSpace { space }),
    }
}

fn missing_page(spaces: &[SpaceInfo], space: u32, page: u32) -> Option<Why>
    ensures { result ≡ checks.missing_page spaces.now space page }
{
    let pages = page_count_of(spaces, space)?;
    if 1 <= page && page < pages {
        None
    } else {
        Some(Why::NoSuchPage { space, page })
    }
}

// A range is one of the body.
fn bad_range(at: u32, length: usize) -> Option<Why>
    ensures { result ≡ checks.bad_range at length }
{
    if 1 <= length && length <= BODY_END && BODY_START <= at && at as usize <= BODY_END - length {
        None
    } else {
        Some(Why::BadRange { at, length })
    }
}

// What is checked of all changes of a mini-transaction before the next is.
#[derive(Clone, Copy, Debug, PartialEq, Eq)]
pub(crate) enum ChangeCheck {
    Space,
    Page,
    Range,
}

#[tactic(auto, unfolding(crate::specs::Checks::changed_space))]
fn changed_space(change: &ScriptChange) -> u32
    ensures { result ≡ checks.changed_space change.now }
{
    match change {
        ScriptChange::Put { space, .. } => *space,
        ScriptChange::Fill { space, .. } => *space,
        ScriptChange::Kind { space, .. } => *space,
    }
}

#[tactic(auto, unfolding(crate::specs::Checks::page_of))]
fn page_of(change: &ScriptChange) -> u32
    ensures { result ≡ checks.page_of change.now }
{
    match change {
        ScriptChange::Put { page, .. } => *page,
        ScriptChange::Fill { page, .. } => *page,
        ScriptChange::Kind { page, .. } => *page,
    }
}

#[tactic(auto, unfolding(crate::specs::Checks::range_refusal))]
fn range_refusal(change: &ScriptChange) -> Option<Why>
    ensures { result ≡ checks.range_refusal change.now }
{
    match change {
        ScriptChange::Put { at, bytes, .. } => bad_range(*at, bytes.len()),
        ScriptChange::Fill { at, length, .. } => bad_range(*at, *length as usize),
        ScriptChange::Kind { .. } => None,
    }
}

#[tactic(auto, unfolding(crate::specs::Checks::change_refusal))]
fn change_refusal(spaces: &[SpaceInfo], check: ChangeCheck, change: &ScriptChange) -> Option<Why>
    ensures { result ≡ checks.change_refusal spaces.now check change.now }
{
    match check {
        ChangeCheck::Space => missing_space(spaces, changed_space(change)),
        ChangeCheck::Page => missing_page(spaces, changed_space(change), page_of(change)),
        ChangeCheck::Range => range_refusal(change),
    }
}

fn first_refusal(spaces: &[SpaceInfo], check: ChangeCheck, changes: &[ScriptChange]) -> Option<Why>
    ensures { result ≡ checks.first_refusal spaces.now check changes.now }
{
    for change in changes {
        if let Some(why) = change_refusal(spaces, check, change) {
            return Some(why);
        }
    }
    None
}

// How many bytes a change takes in the log.
#[tactic(auto, unfolding(crate::specs::Checks::log_change))]
fn change_length(change: &ScriptChange) -> u128
    ensures length { result ≡ length (change_text (checks.log_change change.now)) }
    ensures small { result < 2 ^ 65 }
{
    match change {
        ScriptChange::Put { bytes, .. } => PUT_LENGTH + bytes.len() as u128,
        ScriptChange::Fill { length, .. } => PUT_LENGTH + u128::from(*length),
        ScriptChange::Kind { .. } => KIND_LENGTH,
    }
}

// The sum of 64 lengths of 64 bits passes a u64.
fn text_length(changes: &[ScriptChange]) -> u128
    requires { length changes.now ≤ 64 }
    ensures length { result ≡ length (checks.log_text changes.now) }
    ensures small { result ≤ 2 ^ 71 }
{
    let mut sum = 0;
    for change in changes {
        sum += change_length(change);
    }
    sum
}

fn too_long(changes: &[ScriptChange]) -> Option<Why>
    requires { length changes.now ≤ 64 }
    ensures { result ≡ checks.too_long changes.now }
{
    let blocks = text_length(changes).div_ceil(BLOCK_TEXT) as usize;
    if blocks <= MOST_BLOCKS {
        None
    } else {
        Some(Why::TooLong { blocks })
    }
}

fn mtr_refusal(spaces: &[SpaceInfo], changes: &ScriptChanges) -> Option<Why>
    ensures { result ≡ checks.mtr_refusal spaces.now changes.now }
{
    let changes = changes.changes();
    if let Some(why) = first_refusal(spaces, ChangeCheck::Space, changes) {
        return Some(why);
    }
    if let Some(why) = first_refusal(spaces, ChangeCheck::Page, changes) {
        return Some(why);
    }
    if let Some(why) = first_refusal(spaces, ChangeCheck::Range, changes) {
        return Some(why);
    }
    too_long(changes)
}

fn read_refusal(spaces: &[SpaceInfo], space: u32, page: u32, at: u32, length: u32) -> Option<Why>
    ensures { result ≡ checks.read_refusal spaces.now space page at length }
{
    if let Some(why) = missing_space(spaces, space) {
        return Some(why);
    }
    if let Some(why) = missing_page(spaces, space, page) {
        return Some(why);
    }
    bad_range(at, length as usize)
}

fn not_in_run(running: bool) -> Option<Why>
    ensures { result ≡ checks.not_in_run running }
{
    if running { Some(Why::NotInRun) } else { None }
}

fn space_refusal(spaces: &[SpaceInfo], space: u32, running: bool) -> Option<Why>
    ensures { result ≡ checks.space_refusal spaces.now space running }
{
    if let Some(why) = missing_space(spaces, space) {
        return Some(why);
    }
    not_in_run(running)
}

#[tactic(auto, unfolding(crate::specs::Checks::refusal_of))]
fn refusal_of(spaces: &[SpaceInfo], running: bool, act: &Act) -> Option<Why>
    ensures { result ≡ checks.refusal_of spaces.now running act.now }
{
    match act {
        Act::Mtr { changes, .. } => mtr_refusal(spaces, changes),
        Act::Read {
            space,
            page,
            at,
            length,
            ..
        } => read_refusal(spaces, *space, *page, *at, *length),
        Act::Take { space, .. } => space_refusal(spaces, *space, running),
        Act::Encrypt { space } => space_refusal(spaces, *space, running),
        Act::Rotate { space } => space_refusal(spaces, *space, running),
        Act::Report { space } => space_refusal(spaces, *space, running),
        Act::Sync => not_in_run(running),
        Act::Flush => not_in_run(running),
        Act::Check => not_in_run(running),
        Act::Put { .. } => not_in_run(running),
        Act::Activate { .. } => not_in_run(running),
    }
}

fn refused_at(spaces: &[SpaceInfo], running: bool, statement: &Statement) -> Option<Refused>
    ensures { result ≡ checks.refused_at spaces.now running statement.now }
{
    let why = refusal_of(spaces, running, &statement.act)?;
    Some(Refused {
        line: statement.line,
        why,
    })
}

fn first_refused(spaces: &[SpaceInfo], running: bool, statements: &[Statement]) -> Option<Refused>
    ensures { result ≡ checks.refused_in spaces.now running statements.now }
{
    for statement in statements {
        if let Some(refused) = refused_at(spaces, running, statement) {
            return Some(refused);
        }
    }
    None
}

/// Whether a store of these tablespaces can run a script, by threads where it is `running`. Takes no
/// memory.
///
/// # Errors
/// The first line that is refused, with its first refusal in this order, each over all of its
/// changes: `NoSuchSpace`; `NoSuchPage` for page 0 and a page past the end, in `mtr` and `read`;
/// `BadRange` for a range that is empty or doesn't lie in bytes 38 to 16376; `TooLong` for more than
/// 16 blocks; `NotInRun`, where it is running, for a statement other than `mtr` and `read`. The rules
/// are this project's own.
pub fn check_script(script: &Script, spaces: &[SpaceInfo], running: bool) -> Result<(), Refused>
    ensures answer { result ≡ unless_refused (checks.refused_in spaces.now running script.now) }
    ensures ranges { (at : ℕ) (size : ℕ) → checks.TellsRange at size }
{
    match first_refused(spaces, running, script.statements()) {
        None => Ok(()),
        Some(refused) => Err(refused),
    }
}
