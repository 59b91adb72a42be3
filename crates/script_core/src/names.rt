// The names of statements and of changes.
ghost use Rattle.std.specs.Prelude.{◌≡◌, ◌≢◌, MatchOption};

// The name of a statement, its first word.
#[derive(Clone, Copy, Debug, PartialEq, Eq)]
pub(crate) enum StatementName {
    Mtr,
    Read,
    Sync,
    Flush,
    Check,
    Take,
    Put,
    Activate,
    Encrypt,
    Rotate,
    Report,
}

impl StatementName {
    ghost use Rattle.script_core.specs.Names.{name_of};

    // The statement that a word names.
    pub(crate) fn named(word: &[u8]) -> Option<StatementName>
        ensures { MatchOption result ((name : _) → word.now ≢ name_of name) (λ name. word.now ≡ name_of name) }
    {
        let Ok(text) = str::from_utf8(word) else {
            return None;
        };
        statement_named(text)
    }
}

#[tactic(auto, unfolding(crate::specs::Names::name_of))]
fn statement_named(text: &str) -> Option<StatementName>
    ensures { MatchOption result ((name : _) → text.now ≢ name_of name) (λ name. text.now ≡ name_of name) }
{
    match text {
        "mtr" => Some(StatementName::Mtr),
        "read" => Some(StatementName::Read),
        "sync" => Some(StatementName::Sync),
        "flush" => Some(StatementName::Flush),
        "check" => Some(StatementName::Check),
        "take" => Some(StatementName::Take),
        "put" => Some(StatementName::Put),
        "activate" => Some(StatementName::Activate),
        "encrypt" => Some(StatementName::Encrypt),
        "rotate" => Some(StatementName::Rotate),
        "report" => Some(StatementName::Report),
        _ => None,
    }
}

ghost use Rattle.script_core.specs.Names.{name_of, change_name_of};

// The name of a change in a mini-transaction, its first word.
#[derive(Clone, Copy, Debug, PartialEq, Eq)]
pub(crate) enum ChangeName {
    Put,
    Fill,
    Kind,
}

impl ChangeName {
    ghost use Rattle.script_core.specs.Names.{change_name_of};

    // The change that a word names.
    pub(crate) fn named(word: &[u8]) -> Option<ChangeName>
        ensures { MatchOption result ((name : _) → word.now ≢ change_name_of name) (λ name. word.now ≡ change_name_of name) }
    {
        let Ok(text) = str::from_utf8(word) else {
            return None;
        };
        change_named(text)
    }
}

#[tactic(auto, unfolding(crate::specs::Names::change_name_of))]
fn change_named(text: &str) -> Option<ChangeName>
    ensures { MatchOption result ((name : _) → text.now ≢ change_name_of name) (λ name. text.now ≡ change_name_of name) }
{
    match text {
        "put" => Some(ChangeName::Put),
        "fill" => Some(ChangeName::Fill),
        "kind" => Some(ChangeName::Kind),
        _ => None,
    }
}
