// The statement of a line.
ghost use Rattle.std.specs.Prelude.{◌≡◌, ℕ, List, [], ◌∷◌, OnOk, IfOk, IfErr};
ghost use Rattle.script_core.specs.declared.act.Act.{Act};
ghost use Rattle.script_core.specs.Words.{Word, words_of};
ghost use Rattle.script_core.specs.Batches.{Tells};
ghost use Rattle.script_core.specs.Fields.{ForFault, FaultIn, End};
ghost use Rattle.script_core.specs.Names.{any_u32, fields_of};
ghost use Rattle.script_core.specs.Statements.{IsU32, statement_name, AreArguments, IsStatement, ArgumentFault, IsLineFault};
ghost use Rattle.script_core.specs.declared.fault.LineError.{LineError};
ghost use Rattle.script_core.specs.declared.names.StatementName.TheVariants as name;

use crate::act::Act;
use crate::batches::Batches;
use crate::changes::read_changes;
use crate::fault::{LineError, LineFault};
use crate::fields::{take_end, take_free_batch, take_held_batch, take_number, take_u32, take_word};
use crate::names::StatementName;
use crate::parts::Parts;
use std::alloc::Global;

// The greatest number of a session.
const LAST_SESSION: u32 = 16;

// The most bytes of a read: those of a page's body.
const LONGEST_READ: u32 = 16_338;

// The most pages of a batch.
const MOST_TAKEN: u32 = 64;

// K CHANGE [; CHANGE]..
fn read_mtr(alloc: Global, words: &mut Parts<'_>) -> Result<Act, LineError>
    ensures ok { (before : List Act) → IfOk result (λ act. (statement_name act ≡ name.Mtr) × AreArguments before act words.old) }
    ensures err { (before : List Act) → IfErr result (λ e. ForFault e (ArgumentFault before name.Mtr words.old)) }
{
    let session = take_number(words, 1, LAST_SESSION)?;
    let changes = read_changes(alloc, words)?;
    Ok(Act::Mtr { session, changes })
}

// K SPACE PAGE AT LEN
fn read_read(words: &mut Parts<'_>) -> Result<Act, LineFault>
    ensures ok { (before : List Act) → IfOk result (λ act. (statement_name act ≡ name.Read) × AreArguments before act words.old) }
    ensures err { (before : List Act) → IfErr result (FaultIn before (fields_of name.Read) words.old) }
{
    let session = take_number(words, 1, LAST_SESSION)?;
    let space = take_u32(words)?;
    let page = take_u32(words)?;
    let at = take_u32(words)?;
    let length = take_number(words, 1, LONGEST_READ)?;
    take_end(words)?;
    Ok(Act::Read {
        session,
        space,
        page,
        at,
        length,
    })
}

// B SPACE N
fn read_take(words: &mut Parts<'_>, batches: &Batches) -> Result<Act, LineFault>
    ensures ok { (before : List Act) → Tells batches.now.out before → IfOk result (λ act. (statement_name act ≡ name.Take) × AreArguments before act words.old) }
    ensures err { (before : List Act) → Tells batches.now.out before → IfErr result (FaultIn before (fields_of name.Take) words.old) }
{
    let batch = take_free_batch(words, batches)?;
    let space = take_u32(words)?;
    let count = take_number(words, 1, MOST_TAKEN)?;
    take_end(words)?;
    Ok(Act::Take {
        batch,
        space,
        count,
    })
}

// B
fn read_put(words: &mut Parts<'_>, batches: &Batches) -> Result<Act, LineFault>
    ensures ok { (before : List Act) → Tells batches.now.out before → IfOk result (λ act. (statement_name act ≡ name.Put) × AreArguments before act words.old) }
    ensures err { (before : List Act) → Tells batches.now.out before → IfErr result (FaultIn before (fields_of name.Put) words.old) }
{
    let batch = take_held_batch(words, batches)?;
    take_end(words)?;
    Ok(Act::Put { batch })
}

// A number of a u32, and no word more.
fn read_u32(words: &mut Parts<'_>) -> Result<u32, LineFault>
    ensures ok { IfOk result (λ n. (word : Word) × (words.old ≡ word ∷ []) × IsU32 word n) }
    ensures err { (before : List Act) → IfErr result (FaultIn before (any_u32 ∷ End ∷ []) words.old) }
{
    let number = take_u32(words)?;
    take_end(words)?;
    Ok(number)
}

// No word more.
fn read_none(words: &mut Parts<'_>) -> Result<(), LineFault>
    ensures ok { OnOk result (words.old ≡ []) }
    ensures err { (before : List Act) → IfErr result (FaultIn before (End ∷ []) words.old) }
{
    take_end(words)
}

// The words behind a statement's name.
fn read_named(
    alloc: Global,
    name: StatementName,
    words: &mut Parts<'_>,
    batches: &Batches,
) -> Result<Act, LineError>
    ensures ok { (before : List Act) → Tells batches.now.out before → IfOk result (λ act. (statement_name act ≡ name) × AreArguments before act words.old) }
    ensures err { (before : List Act) → Tells batches.now.out before → IfErr result (λ e. ForFault e (ArgumentFault before name words.old)) }
{
    match name {
        StatementName::Mtr => read_mtr(alloc, words),
        StatementName::Read => Ok(read_read(words)?),
        StatementName::Sync => {
            read_none(words)?;
            Ok(Act::Sync)
        }
        StatementName::Flush => {
            read_none(words)?;
            Ok(Act::Flush)
        }
        StatementName::Check => {
            read_none(words)?;
            Ok(Act::Check)
        }
        StatementName::Take => Ok(read_take(words, batches)?),
        StatementName::Put => Ok(read_put(words, batches)?),
        StatementName::Activate => {
            let version = read_u32(words)?;
            Ok(Act::Activate { version })
        }
        StatementName::Encrypt => {
            let space = read_u32(words)?;
            Ok(Act::Encrypt { space })
        }
        StatementName::Rotate => {
            let space = read_u32(words)?;
            Ok(Act::Rotate { space })
        }
        StatementName::Report => {
            let space = read_u32(words)?;
            Ok(Act::Report { space })
        }
    }
}

// The statement of a line, behind those that left these batches outstanding.
pub(crate) fn read_statement(
    alloc: Global,
    line: &[u8],
    batches: &Batches,
) -> Result<Act, LineError>
    ensures ok { (before : List Act) → Tells batches.now.out before → IfOk result (IsStatement before (words_of line.now)) }
    ensures err { (before : List Act) → Tells batches.now.out before → IfErr result (λ e. ForFault e (IsLineFault before (words_of line.now))) }
{
    let mut words = Parts::new(line, b' ');
    let word = take_word(&mut words)?;
    let Some(name) = StatementName::named(word) else {
        return Err(LineError::Fault(LineFault::Word));
    };
    read_named(alloc, name, &mut words, batches)
}
