// A text cut at a byte, part after part.
ghost use Rattle.std.specs.Prelude.{MatchOption, All};
ghost use Rattle.script_core.specs.Parts.{IsNot, IsCut};

use std::marker::Model;

// The parts of a text that are left, as the text is cut at each separator. A text without one is
// one part, and two separators in a row have an empty part between them.
#[derive(Drop)]
pub(crate) struct Parts<'a> {
    separator: u8,
    rest: Option<&'a [u8]>,
}

impl<'a> Model for Parts<'a> {
    ghost use Rattle.std.specs.Prelude.{List, ℕ};

    ghost Value = { List (List ℕ) };

    ghost use Rattle.script_core.specs.Parts.{parts_left};

    ghost view = { λ p. parts_left p.separator p.rest };
}

impl<'a> Parts<'a> {
    ghost use Rattle.std.specs.Prelude.{◌≡◌, [], ◌∷◌, MatchOption};
    ghost use Rattle.script_core.specs.Parts.{parts_of};

    // All parts of a text.
    pub(crate) fn new(text: &'a [u8], separator: u8) -> Parts<'a>
        ensures { result ≡ parts_of separator text.now }
    {
        Parts {
            separator,
            rest: Some(text),
        }
    }

    // The next part. None where none is left.
    pub(crate) fn next(&mut self) -> Option<&'a [u8]>
        ensures { MatchOption result ((self.old ≡ []) × (self.new ≡ [])) (λ part. self.old ≡ part.now ∷ self.new) }
    {
        let rest = self.rest?;
        match cut_at(rest, self.separator) {
            Some((part, behind)) => {
                self.rest = Some(behind);
                Some(part)
            }
            None => {
                self.rest = None;
                Some(rest)
            }
        }
    }
}

// The text before the first such byte, and the text behind it. None where there is no such byte.
fn cut_at(text: &[u8], separator: u8) -> Option<(&[u8], &[u8])>
    ensures { MatchOption result (All (IsNot separator) text.now) (λ r. IsCut separator text.now r.0.now r.1.now) }
{
    let at = text.iter().position(|&byte| byte == separator)?;
    Some((&text[..at], &text[at + 1..]))
}
