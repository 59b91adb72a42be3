// The journal: the mini-transactions in the order of their commits.
use std::alloc::Global;
use std::marker::Model;
use store_model::Mtr;

/// Who commits: a session, and the line of its script.
#[derive(Clone, Copy, Debug, PartialEq, Eq)]
pub struct Author {
    pub session: u32,
    pub line: u32,
}

/// A committed mini-transaction. Its LSN is 4096 times the number of the block after its last one.
#[derive(Debug, Drop)]
pub struct Entry {
    pub by: Option<Author>,
    pub lsn: u64,
    pub mtr: Mtr,
}

/// The answer to a commit: how many entries the journal has then, and the entry's LSN.
#[derive(Clone, Copy, Debug, PartialEq, Eq)]
pub struct Receipt {
    pub place: u64,
    pub lsn: u64,
}

/// The entries of a session, the oldest first.
#[derive(Debug, Drop)]
pub struct Journal {
    entries: Vec<Entry>,
}

impl Model for Journal {
    ghost use Rattle.std.specs.Prelude.{List};
    ghost use Rattle.plain_engine.specs.declared.journal.Entry.{Entry};

    ghost Value = { List Entry };

    ghost view = { λ j. j.entries.items };
}

impl Journal {
    ghost use Rattle.std.specs.Prelude.{◌≡◌, ◌<◌, [], length, slice_index_or};

    pub(crate) fn of(entries: Vec<Entry>) -> Journal
        ensures { result ≡ entries.items }
    {
        Journal { entries }
    }

    /// The journal without entries. Takes no memory.
    pub fn empty(alloc: Global) -> Journal
        ensures { result ≡ [] }
    {
        Journal::of(Vec::new(alloc))
    }

    /// How many entries there are.
    pub fn len(&self) -> usize
        ensures { result ≡ length self.now }
    {
        self.entries.len()
    }

    /// The entry at this place, from 0.
    pub fn get(&self, i: usize) -> &Entry
        requires { i < length self.now }
        ensures { result.now ≡ slice_index_or self.now i result.now }
    {
        &self.entries[i]
    }

    /// All entries.
    pub fn entries(&self) -> &[Entry]
        ensures { result.now ≡ self.now }
    {
        &self.entries
    }
}
