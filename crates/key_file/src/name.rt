// The name of a file.

ghost use Rattle.std.specs.Prelude.{◌≡◌, Some, IfOk};

use std::alloc::{AllocError, Global};
use std::fmt;
use std::marker::Model;

/// The name of a file, as a fault keeps it. Contracts see its bytes.
#[derive(Debug, Drop)]
pub struct Name {
    text: String,
}

impl Model for Name {
    ghost use Rattle.std.specs.Prelude.{ℕ, List, string_bytes};

    ghost Value = { List ℕ };

    ghost view = { λ n. string_bytes n.text };
}

impl Name {
    // A copy of the name.
    pub(crate) fn of(alloc: Global, name: &str) -> Result<Name, AllocError>
        ensures { IfOk result (λ copy. copy ≡ name.now) }
    {
        let text = String::from_str(alloc, name)?;
        Ok(Name { text })
    }

    /// The bytes of the name, lent.
    pub fn bytes(&self) -> &[u8]
        ensures { result.now ≡ self.now }
    {
        self.text.as_bytes()
    }
}

impl fmt::Display for Name {
    ghost output = { λ name. Some name };

    fn fmt<W: fmt::Write>(&self, f: &mut fmt::Formatter<W>) -> fmt::Result {
        let text = self.text.as_str();
        write!(f, "{text}")
    }
}
