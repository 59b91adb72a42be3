// The changes of a mini-transaction on a line.
ghost use Rattle.std.specs.Prelude.{◌≡◌, ◌≢◌, ◌≤◌, ℕ, List, [], ◌∷◌, codes, length, OnOk, IfOk, IfErr, MatchBool};
ghost use Rattle.script_core.specs.Words.{Word};
ghost use Rattle.script_core.specs.Fields.{ForFault, FaultIn};
ghost use Rattle.script_core.specs.Names.{change_fields_of};
ghost use Rattle.script_core.specs.Statements.{change_name, AreChangeArguments, IsChange, AreChanges, ChangeFault, ChangesFault};
ghost use Rattle.script_core.specs.declared.fault.LineError.{LineError};
ghost use Rattle.script_core.specs.declared.names.ChangeName.TheVariants as name;

use crate::act::{ScriptChange, ScriptChanges};
use crate::fault::{LineError, LineFault};
use crate::fields::{take_byte, take_bytes, take_page_type, take_u32, take_word};
use crate::names::ChangeName;
use crate::parts::Parts;
use std::alloc::Global;

// How many changes a mini-transaction of a script has at most.
const MOST_CHANGES: usize = 64;

// SPACE PAGE AT HEX
fn read_put(alloc: Global, words: &mut Parts<'_>) -> Result<ScriptChange, LineError>
    ensures ok { IfOk result (λ change. (change_name change ≡ name.Put) × AreChangeArguments change words.old words.new) }
    ensures err { IfErr result (λ e. ForFault e (FaultIn [] (change_fields_of name.Put) words.old)) }
{
    let space = take_u32(words)?;
    let page = take_u32(words)?;
    let at = take_u32(words)?;
    let bytes = take_bytes(alloc, words)?;
    Ok(ScriptChange::Put {
        space,
        page,
        at,
        bytes,
    })
}

// SPACE PAGE AT LEN HH
fn read_fill(words: &mut Parts<'_>) -> Result<ScriptChange, LineFault>
    ensures ok { IfOk result (λ change. (change_name change ≡ name.Fill) × AreChangeArguments change words.old words.new) }
    ensures err { IfErr result (FaultIn [] (change_fields_of name.Fill) words.old) }
{
    let space = take_u32(words)?;
    let page = take_u32(words)?;
    let at = take_u32(words)?;
    let length = take_u32(words)?;
    let byte = take_byte(words)?;
    Ok(ScriptChange::Fill {
        space,
        page,
        at,
        length,
        byte,
    })
}

// SPACE PAGE TYPE
fn read_kind(words: &mut Parts<'_>) -> Result<ScriptChange, LineFault>
    ensures ok { IfOk result (λ change. (change_name change ≡ name.Kind) × AreChangeArguments change words.old words.new) }
    ensures err { IfErr result (FaultIn [] (change_fields_of name.Kind) words.old) }
{
    let space = take_u32(words)?;
    let page = take_u32(words)?;
    let kind = take_page_type(words)?;
    Ok(ScriptChange::Kind { space, page, kind })
}

// The words behind a change's name.
fn read_named(
    alloc: Global,
    name: ChangeName,
    words: &mut Parts<'_>,
) -> Result<ScriptChange, LineError>
    ensures ok { IfOk result (λ change. (change_name change ≡ name) × AreChangeArguments change words.old words.new) }
    ensures err { IfErr result (λ e. ForFault e (FaultIn [] (change_fields_of name) words.old)) }
{
    match name {
        ChangeName::Put => read_put(alloc, words),
        ChangeName::Fill => Ok(read_fill(words)?),
        ChangeName::Kind => Ok(read_kind(words)?),
    }
}

// The change that stands first.
fn read_change(alloc: Global, words: &mut Parts<'_>) -> Result<ScriptChange, LineError>
    ensures ok { IfOk result (λ change. IsChange change words.old words.new) }
    ensures err { IfErr result (λ e. ForFault e (ChangeFault words.old)) }
{
    let word = take_word(words)?;
    let Some(name) = ChangeName::named(word) else {
        return Err(LineError::Fault(LineFault::Word));
    };
    read_named(alloc, name, words)
}

// Whether a `;` follows; else no word may follow.
fn take_semicolon(words: &mut Parts<'_>) -> Result<bool, LineFault>
    ensures ok { IfOk result (λ more. MatchBool more (words.old ≡ codes ";" ∷ words.new) (words.old ≡ [])) }
    ensures err { IfErr result (λ kind. (kind ≡ LineFault.Extra) × ((word : Word) × (rest : List Word) × (words.old ≡ word ∷ rest) × (word ≢ codes ";"))) }
{
    let Some(word) = words.next() else {
        return Ok(false);
    };
    if word != b";".as_slice() {
        return Err(LineFault::Extra);
    }
    Ok(true)
}

// The changes up to the end of the line, 64 at most.
pub(crate) fn read_changes(alloc: Global, words: &mut Parts<'_>) -> Result<ScriptChanges, LineError>
    ensures ok { IfOk result (λ changes. AreChanges changes words.old × (length changes ≤ 64)) }
    ensures err { IfErr result (λ e. ForFault e (ChangesFault 0 words.old)) }
{
    let mut changes = Vec::new(alloc);
    loop {
        let change = read_change(alloc, words)?;
        changes.push(change)?;
        if !take_semicolon(words)? {
            return Ok(ScriptChanges::of(changes));
        }
        if changes.len() == MOST_CHANGES {
            return Err(LineError::Fault(LineFault::TooMany));
        }
    }
}
