// The journal: the mini-transactions in the order in which they were committed.
use redo_text::Mtr;
use std::alloc::Global;
use std::marker::Model;

/// Who commits: a session of a schedule, and the line of it.
#[derive(Clone, Copy, Debug, PartialEq, Eq)]
pub struct Author {
    /// The session's number.
    pub session: u32,
    /// The line.
    pub line: u32,
}

/// A committed mini-transaction. Its LSN is 4096 times the number of the block behind its last one.
#[derive(Debug, Drop)]
pub struct Entry {
    /// Who committed it, None where it is one of the store's own.
    pub by: Option<Author>,
    /// Its LSN.
    pub lsn: u64,
    /// Its changes.
    pub mtr: Mtr,
}

/// The answer to a commit.
#[derive(Clone, Copy, Debug, PartialEq, Eq)]
pub struct Receipt {
    /// How many entries the journal has with it.
    pub place: u64,
    /// Its LSN.
    pub lsn: u64,
}

/// The entries of a session, the oldest first. In contracts it is their list.
#[derive(Debug, Drop)]
pub struct Journal {
    entries: Vec<Entry>,
}

impl Model for Journal {
    ghost use Rattle.std.specs.Prelude.{List};
    ghost use Rattle.session_core.specs.declared.journal.Entry.{Entry};

    ghost Value = { List Entry };

    ghost view = { λ j. j.entries.items };
}

impl Journal {
    ghost use Rattle.std.specs.Prelude.{◌≡◌, ◌<◌, [], length, slice_index_or};

    pub(crate) fn of(entries: Vec<Entry>) -> Journal
        ensures { result ≡ entries.items }
    {
        Journal { entries }
    }

    /// The journal without entries. It takes no memory.
    pub fn empty(alloc: Global) -> Journal
        ensures { result ≡ [] }
    {
        Journal::of(Vec::new(alloc))
    }

    /// How many entries there are.
    pub fn len(&self) -> usize
        ensures { result ≡ length self.now }
    {
        self.entries.len()
    }

    /// The entry at this place, from 0.
    pub fn get(&self, i: usize) -> &Entry
        requires { i < length self.now }
        ensures { result.now ≡ slice_index_or self.now i result.now }
    {
        &self.entries[i]
    }

    /// All entries.
    pub fn entries(&self) -> &[Entry]
        ensures { result.now ≡ self.now }
    {
        &self.entries
    }
}
