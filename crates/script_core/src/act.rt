// The statements of a script, and the changes of a mini-transaction.
use cause_core::OutOfMemory;
use redo_text::Piece;
use std::alloc::Global;
use std::marker::Model;

/// A change of a mini-transaction, as a script writes it. Whether the store has the page, and
/// whether the range lies in its body, is for the check of the script.
#[derive(Debug, Drop)]
pub enum ScriptChange {
    /// Writes these bytes, one at least, at a place of a page.
    Put {
        space: u32,
        page: u32,
        at: u32,
        bytes: Piece,
    },
    /// Writes one byte so many times from a place of a page on.
    Fill {
        space: u32,
        page: u32,
        at: u32,
        length: u32,
        byte: u8,
    },
    /// Sets the type of a page, neither 8 nor 9.
    Kind {
        space: u32,
        page: u32,
        kind: u16,
    },
}

/// The changes of a mini-transaction, in order.
#[derive(Debug, Drop)]
pub struct ScriptChanges {
    changes: Vec<ScriptChange>,
}

impl Model for ScriptChanges {
    ghost use Rattle.std.specs.Prelude.{List};
    ghost use Rattle.script_core.specs.declared.act.ScriptChange.{ScriptChange};

    ghost Value = { List ScriptChange };

    ghost view = { λ c. c.changes.items };

    ghost use Rattle.std.specs.Prelude.{◌≤◌, length};

    ghost invariant = { λ c. length c.changes.items ≤ 64 };
}

impl ScriptChanges {
    ghost use Rattle.std.specs.Prelude.{◌≡◌, ◌≤◌, length, IfOk};

    // These changes, 64 at most. Takes no memory.
    pub(crate) fn of(items: Vec<ScriptChange>) -> ScriptChanges
        requires { length items.items ≤ 64 }
        ensures { result ≡ items.items }
    {
        ScriptChanges { changes: items }
    }

    /// All changes.
    pub fn changes(&self) -> &[ScriptChange]
        ensures all { result.now ≡ self.now }
        ensures few { length self.now ≤ 64 }
    {
        &self.changes
    }

    // The same changes once more.
    pub(crate) fn copy(&self, alloc: Global) -> Result<ScriptChanges, OutOfMemory>
        ensures { IfOk result (λ copy. copy ≡ self.now) }
    {
        let changes = copy_changes(alloc, &self.changes)?;
        Ok(ScriptChanges { changes })
    }
}

ghost use Rattle.std.specs.Prelude.{◌≡◌, IfOk};

fn copy_change(alloc: Global, change: &ScriptChange) -> Result<ScriptChange, OutOfMemory>
    ensures { IfOk result (λ copy. copy ≡ change.now) }
{
    Ok(match change {
        ScriptChange::Put {
            space,
            page,
            at,
            bytes,
        } => ScriptChange::Put {
            space: *space,
            page: *page,
            at: *at,
            bytes: bytes.copy(alloc)?,
        },
        ScriptChange::Fill {
            space,
            page,
            at,
            length,
            byte,
        } => ScriptChange::Fill {
            space: *space,
            page: *page,
            at: *at,
            length: *length,
            byte: *byte,
        },
        ScriptChange::Kind { space, page, kind } => ScriptChange::Kind {
            space: *space,
            page: *page,
            kind: *kind,
        },
    })
}

fn copy_changes(alloc: Global, changes: &[ScriptChange]) -> Result<Vec<ScriptChange>, OutOfMemory>
    ensures { IfOk result (λ copy. copy.items ≡ changes.now) }
{
    let mut copy = Vec::new(alloc);
    for change in changes {
        copy.push(copy_change(alloc, change)?)?;
    }
    Ok(copy)
}

/// What a statement of a script asks for.
#[derive(Debug, Drop)]
pub enum Act {
    /// Commits a mini-transaction of a session, 1 to 16, of 1 to 64 changes.
    Mtr {
        session: u32,
        changes: ScriptChanges,
    },
    /// Reads 1 to 16338 bytes at a place of a page, for a session.
    Read {
        session: u32,
        space: u32,
        page: u32,
        at: u32,
        length: u32,
    },
    /// Writes the journal out and acknowledges it.
    Sync,
    /// Writes all dirty pages home.
    Flush,
    /// Writes a checkpoint.
    Check,
    /// Takes up to so many dirty pages of a tablespace, 1 to 64, as the batch of this number.
    Take {
        batch: u32,
        space: u32,
        count: u32,
    },
    /// Puts the batch of this number.
    Put {
        batch: u32,
    },
    /// Makes this key version the active one.
    Activate {
        version: u32,
    },
    /// Makes a tablespace a ciphered one.
    Encrypt {
        space: u32,
    },
    /// Touches the next page of a tablespace that needs rotation.
    Rotate {
        space: u32,
    },
    /// Reports the least key version that a tablespace needs.
    Report {
        space: u32,
    },
}

impl Act {
    ghost use Rattle.std.specs.Prelude.{◌≡◌, IfOk};

    // The same once more.
    pub(crate) fn copy(&self, alloc: Global) -> Result<Act, OutOfMemory>
        ensures { IfOk result (λ copy. copy ≡ self.now) }
    {
        Ok(match self {
            Act::Mtr { session, changes } => Act::Mtr {
                session: *session,
                changes: changes.copy(alloc)?,
            },
            Act::Read {
                session,
                space,
                page,
                at,
                length,
            } => Act::Read {
                session: *session,
                space: *space,
                page: *page,
                at: *at,
                length: *length,
            },
            Act::Sync => Act::Sync,
            Act::Flush => Act::Flush,
            Act::Check => Act::Check,
            Act::Take {
                batch,
                space,
                count,
            } => Act::Take {
                batch: *batch,
                space: *space,
                count: *count,
            },
            Act::Put { batch } => Act::Put { batch: *batch },
            Act::Activate { version } => Act::Activate { version: *version },
            Act::Encrypt { space } => Act::Encrypt { space: *space },
            Act::Rotate { space } => Act::Rotate { space: *space },
            Act::Report { space } => Act::Report { space: *space },
        })
    }
}
