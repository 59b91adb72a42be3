// The commands of `keyd`.
/// A command of `keyd`, the first of its words.
#[derive(Clone, Copy, Debug, PartialEq, Eq)]
pub enum Command {
    Create,
    Step,
    Run,
    Drill,
    Recover,
    Report,
    Make,
}

impl Command {
    ghost use Rattle.std.specs.Prelude.{◌≡◌, ◌≢◌, IsTrue, ◌↔◌, MatchOption};
    ghost use Rattle.keyd_words.specs.Table.{command_word};

    // Whether it is this command.
    pub(crate) fn is(self, other: Command) -> bool
        ensures { IsTrue result ↔ self ≡ other }
    {
        self == other
    }

    // The command that a word names.
    #[tactic(auto, unfolding(crate::specs::Table::command_word))]
    pub(crate) fn named(word: &str) -> Option<Command>
        ensures { MatchOption result ((c : _) → word.now ≢ command_word c) (λ c. word.now ≡ command_word c) }
    {
        match word {
            "create" => Some(Command::Create),
            "step" => Some(Command::Step),
            "run" => Some(Command::Run),
            "drill" => Some(Command::Drill),
            "recover" => Some(Command::Recover),
            "report" => Some(Command::Report),
            "make" => Some(Command::Make),
            _ => None,
        }
    }
}
