// What is noted of the pages of a store.
use std::marker::Model;

/// What a page is read from, with the key version that its text names, 0 in clear.
#[derive(Clone, Copy, Debug, PartialEq, Eq)]
pub enum NoteSource {
    /// Nothing: the page is unused.
    Unused,
    /// The text in its home.
    Home(u32),
    /// Its newest copy in the doublewrite file, since its home is torn.
    Copy(u32),
}

/// What is noted of a page.
#[derive(Clone, Copy, Debug, PartialEq, Eq)]
pub struct PageNote {
    /// What it is read from.
    pub source: NoteSource,
    /// The LSN of its text, 0 of an unused page.
    pub lsn: u64,
}

/// What is noted of the pages of a space, from page 0 on. In contracts it is their list.
#[derive(Drop)]
pub struct SpaceNotes {
    items: Vec<PageNote>,
}

impl Model for SpaceNotes {
    ghost use Rattle.std.specs.Prelude.{List};
    ghost use Rattle.recovery.specs.declared.notes.PageNote.{PageNote};

    ghost Value = { List PageNote };

    ghost view = { λ notes. notes.items.items };
}

impl SpaceNotes {
    ghost use Rattle.std.specs.Prelude.{◌≡◌, ◌<◌, length, slice_index_or};
    ghost use Rattle.recovery.specs.Notes.{no_note};

    /// The list of these.
    pub fn of(items: Vec<PageNote>) -> SpaceNotes
        ensures { result ≡ items.items }
    {
        SpaceNotes { items }
    }

    /// How many there are.
    pub fn len(&self) -> usize
        ensures { result ≡ length self.now }
    {
        self.items.len()
    }

    /// That of a page.
    pub fn get(&self, page: usize) -> &PageNote
        requires { page < length self.now }
        ensures { result.now ≡ slice_index_or self.now page no_note }
    {
        &self.items[page]
    }
}

/// What is noted of the pages of each space, in the order of the spaces. In contracts it is the list of
/// their lists.
#[derive(Drop)]
pub struct PageNotes {
    items: Vec<SpaceNotes>,
}

impl Model for PageNotes {
    ghost use Rattle.std.specs.Prelude.{List};
    ghost use Rattle.recovery.specs.declared.notes.PageNote.{PageNote};

    ghost Value = { List (List PageNote) };

    ghost view = { λ notes. notes.items.items };
}

impl PageNotes {
    ghost use Rattle.std.specs.Prelude.{◌≡◌, ◌<◌, length, slice_index_or, []};

    /// The list of these.
    pub fn of(items: Vec<SpaceNotes>) -> PageNotes
        ensures { result ≡ items.items }
    {
        PageNotes { items }
    }

    /// Of how many spaces they are.
    pub fn len(&self) -> usize
        ensures { result ≡ length self.now }
    {
        self.items.len()
    }

    /// Those of the space at this place, from 0.
    pub fn get(&self, i: usize) -> &SpaceNotes
        requires { i < length self.now }
        ensures { result.now ≡ slice_index_or self.now i [] }
    {
        &self.items[i]
    }
}
