// A script: its statements, each with its line.
use crate::act::Act;
use cause_core::OutOfMemory;
use std::alloc::Global;
use std::marker::Model;

/// A statement and its line, counted from 1.
#[derive(Debug, Drop)]
pub struct Statement {
    pub line: u32,
    pub act: Act,
}

/// The statements of a script, in order of their lines.
#[derive(Debug, Drop)]
pub struct Script {
    statements: Vec<Statement>,
}

impl Model for Script {
    ghost use Rattle.std.specs.Prelude.{List};
    ghost use Rattle.script_core.specs.declared.script.Statement.{Statement};

    ghost Value = { List Statement };

    ghost view = { λ s. s.statements.items };
}

impl Script {
    ghost use Rattle.std.specs.Prelude.{◌≡◌, ◌≤◌, ◌-◌, length, take, drop, IfOk};

    pub(crate) fn of(statements: Vec<Statement>) -> Script
        ensures { result ≡ statements.items }
    {
        Script { statements }
    }

    /// How many statements there are.
    pub fn count(&self) -> usize
        ensures { result ≡ length self.now }
    {
        self.statements.len()
    }

    /// All statements.
    pub fn statements(&self) -> &[Statement]
        ensures { result.now ≡ self.now }
    {
        &self.statements
    }

    /// The statements from one place up to another, counted from 0, with their lines.
    ///
    /// # Errors
    /// Want of memory alone.
    pub fn cut(&self, alloc: Global, from: usize, to: usize) -> Result<Script, OutOfMemory>
        requires order { from ≤ to }
        requires end { to ≤ length self.now }
        ensures { IfOk result (λ script. script ≡ take (to - from) (drop from self.now)) }
    {
        let statements = copy_statements(alloc, &self.statements[from..to])?;
        Ok(Script { statements })
    }
}

ghost use Rattle.std.specs.Prelude.{◌≡◌, IfOk};

fn copy_statement(alloc: Global, statement: &Statement) -> Result<Statement, OutOfMemory>
    ensures { IfOk result (λ copy. copy ≡ statement.now) }
{
    Ok(Statement {
        line: statement.line,
        act: statement.act.copy(alloc)?,
    })
}

fn copy_statements(alloc: Global, statements: &[Statement]) -> Result<Vec<Statement>, OutOfMemory>
    ensures { IfOk result (λ copy. copy.items ≡ statements.now) }
{
    let mut copy = Vec::new(alloc);
    for statement in statements {
        copy.push(copy_statement(alloc, statement)?)?;
    }
    Ok(copy)
}
