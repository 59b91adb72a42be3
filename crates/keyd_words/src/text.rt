// Texts and lists that a plan holds.
use cause_core::OutOfMemory;
use disk_model::Choice;
use std::alloc::Global;
use std::marker::Model;

/// A word that is taken as it is. Contracts see its bytes.
#[derive(Debug, Drop)]
pub struct OptionText {
    text: String,
}

impl Model for OptionText {
    ghost use Rattle.std.specs.Prelude.{ℕ, List, string_bytes};

    ghost Value = { List ℕ };

    ghost view = { λ t. string_bytes t.text };
}

impl OptionText {
    ghost use Rattle.std.specs.Prelude.{◌≡◌, IfOk, string_bytes};

    // A copy of a word.
    pub(crate) fn of(alloc: Global, word: &str) -> Result<OptionText, OutOfMemory>
        ensures { IfOk result (λ text. text ≡ word.now) }
    {
        let text = String::from_str(alloc, word)?;
        Ok(OptionText { text })
    }

    // The text itself.
    fn into_string(self) -> String
        ensures { string_bytes result ≡ self }
    {
        self.text
    }

    /// The text, lent.
    pub fn as_str(&self) -> &str
        ensures { result.now ≡ self.now }
    {
        self.text.as_str()
    }
}

/// The names of files, in order. Contracts see the list of their bytes.
#[derive(Debug, Drop)]
pub struct FileNames {
    names: Vec<String>,
}

impl Model for FileNames {
    ghost use Rattle.std.specs.Prelude.{ℕ, List, map, string_bytes};

    ghost Value = { List (List ℕ) };

    ghost view = { λ n. map string_bytes n.names.items };
}

impl FileNames {
    ghost use Rattle.std.specs.Prelude.{◌≡◌, [], ◌∷◌, ◌++◌, OnOk, map, string_bytes, length};

    pub(crate) fn none(alloc: Global) -> FileNames
        ensures { result ≡ [] }
    {
        FileNames {
            names: Vec::new(alloc),
        }
    }

    // One name more.
    pub(crate) fn push(&mut self, name: OptionText) -> Result<(), OutOfMemory>
        ensures { OnOk result (self.new ≡ self.old ++ name ∷ []) }
    {
        self.names.push(name.into_string())?;
        Ok(())
    }

    // How many there are.
    pub(crate) fn len(&self) -> usize
        ensures { result ≡ length self.now }
    {
        self.names.len()
    }

    /// The names.
    pub fn names(&self) -> &[String]
        ensures { map string_bytes result.now ≡ self.now }
    {
        &self.names
    }
}

/// A tablespace that a store is made with.
#[derive(Clone, Copy, Debug, PartialEq, Eq)]
pub struct NewSpace {
    /// Its id, 1 to 4294967279.
    pub space: u32,
    /// Its size in pages, page 0 included, 2 to 16384.
    pub pages: u32,
    /// The id of the key that its pages are ciphered with, at least 1.
    pub key_id: u32,
    /// Whether its pages are ciphered.
    pub ciphered: bool,
}

/// The tablespaces that a store is made with, in order of the words. Contracts see the list.
#[derive(Debug, Drop)]
pub struct NewSpaces {
    spaces: Vec<NewSpace>,
}

impl Model for NewSpaces {
    ghost use Rattle.std.specs.Prelude.{List};
    ghost use Rattle.keyd_words.specs.declared.text.NewSpace.{NewSpace};

    ghost Value = { List NewSpace };

    ghost view = { λ s. s.spaces.items };
}

impl NewSpaces {
    ghost use Rattle.std.specs.Prelude.{◌≡◌, [], ◌∷◌, ◌++◌, OnOk};

    pub(crate) fn none(alloc: Global) -> NewSpaces
        ensures { result ≡ [] }
    {
        NewSpaces {
            spaces: Vec::new(alloc),
        }
    }

    // One tablespace more.
    pub(crate) fn push(&mut self, space: NewSpace) -> Result<(), OutOfMemory>
        ensures { OnOk result (self.new ≡ self.old ++ space ∷ []) }
    {
        self.spaces.push(space)?;
        Ok(())
    }

    /// The tablespaces.
    pub fn spaces(&self) -> &[NewSpace]
        ensures { result.now ≡ self.now }
    {
        &self.spaces
    }
}

/// What a crash makes of the unsynced writes, in order; the last choice serves the rest. Contracts
/// see the list.
#[derive(Debug, Drop)]
pub struct CrashChoices {
    choices: Vec<Choice>,
}

impl Model for CrashChoices {
    ghost use Rattle.std.specs.Prelude.{List};
    ghost use Rattle.disk_model.specs.declared.calls.Choice.{Choice};

    ghost Value = { List Choice };

    ghost view = { λ c. c.choices.items };
}

impl CrashChoices {
    ghost use Rattle.std.specs.Prelude.{◌≡◌, [], ◌∷◌, IfOk};
    ghost use Rattle.disk_model.specs.declared.calls.Choice.TheVariants.{Lost};

    pub(crate) fn of(choices: Vec<Choice>) -> CrashChoices
        ensures { result ≡ choices.items }
    {
        CrashChoices { choices }
    }

    // One choice that loses every write.
    pub(crate) fn lost(alloc: Global) -> Result<CrashChoices, OutOfMemory>
        ensures { IfOk result (λ c. c ≡ Lost ∷ []) }
    {
        let choices = vec![in alloc; Choice::Lost]?;
        Ok(CrashChoices { choices })
    }

    /// The choices.
    pub fn choices(&self) -> &[Choice]
        ensures { result.now ≡ self.now }
    {
        &self.choices
    }
}
