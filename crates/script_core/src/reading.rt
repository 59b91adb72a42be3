// A text as a script, line by line.
ghost use Rattle.std.specs.Prelude.{◌≡◌, ◌≤◌, List, length, IsTrue, ◌↔◌, IfOk, IfErr};
ghost use Rattle.script_core.specs.declared.act.Act.{Act};
ghost use Rattle.script_core.specs.Batches.{Tells};
ghost use Rattle.script_core.specs.Printing.{printed};
ghost use Rattle.script_core.specs.Scripts.{IsSkipped, IsScript, IsOnlyScript, HasNoBadLine, IsScriptRefusal, Excludes, IsLine, IsLineRefusal};

use crate::batches::Batches;
use crate::fault::{LineError, ScriptFault};
use crate::parts::Parts;
use crate::script::{Script, Statement};
use crate::statements::read_statement;
use std::alloc::Global;

// How many statements a script has at most.
const MOST_STATEMENTS: usize = 10_000;

// Whether a line is empty or a comment.
fn is_skipped(line: &[u8]) -> bool
    ensures { IsTrue result ↔ IsSkipped line.now }
{
    line.is_empty() || line[0] == b'#'
}

// The statement of a line. None where the line is skipped.
fn statement_at(
    alloc: Global,
    number: u32,
    line: &[u8],
    batches: &Batches,
) -> Result<Option<Statement>, ScriptFault>
    ensures ok { (before : List Act) → Tells batches.now.out before → IfOk result (IsLine before number line.now) }
    ensures err { (before : List Act) → Tells batches.now.out before → IfErr result (IsLineRefusal before number line.now) }
{
    if is_skipped(line) {
        return Ok(None);
    }
    match read_statement(alloc, line, batches) {
        Ok(act) => Ok(Some(Statement { line: number, act })),
        Err(LineError::Fault(kind)) => Err(ScriptFault::BadLine { line: number, kind }),
        Err(LineError::OutOfMemory) => Err(ScriptFault::OutOfMemory),
    }
}

/// Reads a script of at most 1,048,576 bytes: lines that end with LF or at the end of the text, each
/// of words with one space between them. Empty lines and lines that begin with `#` are skipped, and
/// lines are counted from 1, skipped ones included.
///
/// ```text
/// mtr K CHANGE [; CHANGE]..    K a session, 1 to 16; `;` is a word of its own; 64 changes at most
///     put SPACE PAGE AT HEX    HEX one byte or more, in either case
///     fill SPACE PAGE AT LEN HH    a put of LEN bytes HH
///     kind SPACE PAGE TYPE     TYPE 0 to 65535, not 8 or 9
/// read K SPACE PAGE AT LEN     LEN 1 to 16338
/// sync | flush | check
/// take B SPACE N               B 1 to 16, not outstanding; N 1 to 64
/// put B                        B outstanding; it no longer is
/// activate V | encrypt SPACE | rotate SPACE | report SPACE
/// ```
///
/// # Errors
/// `BadLine` for the first bad line, with the first fault in order of its words. `TooMany` where no
/// line is bad and there are more than 10,000 statements. `OutOfMemory`. The language is this
/// project's own.
pub fn read_script(alloc: Global, bytes: &[u8]) -> Result<Script, ScriptFault>
    requires size { length bytes.now ≤ 1048576 }
    ensures ok { IfOk result (IsScript bytes.now) }
    ensures only { IfOk result (IsOnlyScript bytes.now) }
    ensures none_bad { IfOk result (λ script. HasNoBadLine bytes.now) }
    ensures prints { IfOk result (λ script. IsScript (printed script) script) }
    ensures err { IfErr result (IsScriptRefusal bytes.now) }
    ensures excludes { IfErr result (Excludes bytes.now) }
{
    let mut statements = Vec::new(alloc);
    let mut batches = Batches::none();
    let mut lines = Parts::new(bytes, b'\n');
    let mut number = 0;
    while let Some(line) = lines.next() {
        number += 1;
        let Some(statement) = statement_at(alloc, number, line, &batches)? else {
            continue;
        };
        batches.note(&statement.act);
        let Ok(()) = statements.push(statement) else {
            return Err(ScriptFault::OutOfMemory);
        };
    }
    if statements.len() > MOST_STATEMENTS {
        return Err(ScriptFault::TooMany);
    }
    Ok(Script::of(statements))
}
