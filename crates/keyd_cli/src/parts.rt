// A text cut at a byte, part after part.
ghost use Rattle.std.specs.Prelude.{MatchOption, All};
ghost use Rattle.keyd_cli.specs.Parts.{IsNotByte, IsDrillCut};

use std::marker::Model;

/// The parts of a text that are left, as the text is cut at each separator. A text without one is
/// one part, and two separators in a row have an empty part between them.
#[derive(Drop)]
pub struct DrillParts<'a> {
    separator: u8,
    rest: Option<&'a [u8]>,
}

impl<'a> Model for DrillParts<'a> {
    ghost use Rattle.std.specs.Prelude.{List, ℕ};

    ghost Value = { List (List ℕ) };

    ghost use Rattle.keyd_cli.specs.Parts.{drill_parts_left};

    ghost view = { λ p. drill_parts_left p.separator p.rest };
}

impl<'a> DrillParts<'a> {
    ghost use Rattle.std.specs.Prelude.{◌≡◌, [], ◌∷◌, MatchOption};
    ghost use Rattle.keyd_cli.specs.Parts.{drill_parts_of};

    /// All parts of a text.
    pub fn new(text: &'a [u8], separator: u8) -> DrillParts<'a>
        ensures { result ≡ drill_parts_of separator text.now }
    {
        DrillParts {
            separator,
            rest: Some(text),
        }
    }

    /// The next part. None where none is left.
    pub fn next(&mut self) -> Option<&'a [u8]>
        ensures { MatchOption result ((self.old ≡ []) × (self.new ≡ [])) (λ part. self.old ≡ part.now ∷ self.new) }
    {
        let rest = self.rest?;
        match cut_at(rest, self.separator) {
            Some((part, behind)) => {
                self.rest = Some(behind);
                Some(part)
            }
            None => {
                self.rest = None;
                Some(rest)
            }
        }
    }
}

/// The text before the first such byte, and the text behind it. None where there is no such byte.
pub fn cut_at(text: &[u8], separator: u8) -> Option<(&[u8], &[u8])>
    ensures { MatchOption result (All (IsNotByte separator) text.now) (λ r. IsDrillCut separator text.now r.0.now r.1.now) }
{
    let at = text.iter().position(|&byte| byte == separator)?;
    Some((&text[..at], &text[at + 1..]))
}
