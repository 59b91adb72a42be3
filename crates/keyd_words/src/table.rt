// The table of the options of `keyd`'s commands.
ghost use Rattle.std.specs.Prelude.{◌≡◌, Some, None};
ghost use Rattle.keyd_words.specs.Table.{uses};

use crate::command::Command;

// The turns at which a disk can be stopped.
const TURNS: u32 = 1_000_000;

// The most tablespaces of a store, and the least and the most blocks of its log's ring.
const MOST_SPACES: usize = 16;

const LEAST_LOG_BLOCKS: u32 = 32;

const MOST_LOG_BLOCKS: u32 = 4096;

// An option of a command.
#[derive(Clone, Copy, Debug, PartialEq, Eq)]
pub(crate) enum OptionName {
    KeyFile,
    FileKey,
    Digest,
    Space,
    Log,
    Algorithm,
    Active,
    Age,
    Binlog,
    Flushers,
    Rotators,
    Stop,
    Choice,
    Reopen,
    Stop2,
    Choice2,
}

// How the value of an option reads.
#[derive(Clone, Copy, Debug, PartialEq, Eq)]
pub(crate) enum ValueForm {
    // Any word: the name of a key file.
    FileName,
    // Any word: the password of enciphered key files.
    FileKey,
    // A number from `low` to `high`, in decimal digits without a sign or a leading zero.
    Number { low: u32, high: u32 },
    // sha1 or sha256.
    Digest,
    // cbc or ctr.
    Algorithm,
    // ID:PAGES:KEY:plain or ID:PAGES:KEY:cipher.
    Space,
    // 1 to 64 letters of l, k and t, for the crash of the first session.
    FirstChoices,
    // The same for that of the second.
    SecondChoices,
}

// Whether a command takes an option.
#[derive(Clone, Copy, Debug, PartialEq, Eq)]
pub(crate) enum OptionUse {
    // It doesn't.
    No,
    // The option may stand.
    May,
    // It must.
    Must,
}

impl OptionUse {
    ghost use Rattle.std.specs.Prelude.{◌≡◌};
    ghost use Rattle.keyd_words.specs.Table.{is_taken, is_needed};

    // Whether the option may stand.
    #[tactic(auto, unfolding(crate::specs::Table::is_taken))]
    pub(crate) fn is_taken(self) -> bool
        ensures { result ≡ is_taken self }
    {
        match self {
            OptionUse::No => false,
            OptionUse::May => true,
            OptionUse::Must => true,
        }
    }

    // Whether it must.
    #[tactic(auto, unfolding(crate::specs::Table::is_needed))]
    pub(crate) fn is_needed(self) -> bool
        ensures { result ≡ is_needed self }
    {
        match self {
            OptionUse::No => false,
            OptionUse::May => false,
            OptionUse::Must => true,
        }
    }
}

// Which commands take an option. `make` takes none.
#[derive(Clone, Copy, Debug)]
pub(crate) struct OptionUses {
    pub create: OptionUse,
    pub step: OptionUse,
    pub run: OptionUse,
    pub drill: OptionUse,
    pub recover: OptionUse,
    pub report: OptionUse,
}

impl OptionUses {
    ghost use Rattle.std.specs.Prelude.{◌≡◌};
    ghost use Rattle.keyd_words.specs.Table.{use_by};

    // Whether the command takes it.
    #[tactic(auto, unfolding(crate::specs::Table::use_by))]
    pub(crate) fn of(self, command: Command) -> OptionUse
        ensures { result ≡ use_by self command }
    {
        match command {
            Command::Create => self.create,
            Command::Step => self.step,
            Command::Run => self.run,
            Command::Drill => self.drill,
            Command::Recover => self.recover,
            Command::Report => self.report,
            Command::Make => OptionUse::No,
        }
    }
}

// The columns of the table: create, step, run, drill, recover, report.
fn uses(
    create: OptionUse,
    step: OptionUse,
    run: OptionUse,
    drill: OptionUse,
    recover: OptionUse,
    report: OptionUse,
) -> OptionUses
    ensures { result ≡ uses create step run drill recover report }
{
    OptionUses {
        create,
        step,
        run,
        drill,
        recover,
        report,
    }
}

// The same for each command but `make`.
fn each(same: OptionUse) -> OptionUses
    ensures { result ≡ uses same same same same same same }
{
    uses(same, same, same, same, same, same)
}

// What the table says of an option.
#[derive(Clone, Copy, Debug)]
pub(crate) struct OptionRow {
    // Its word.
    pub word: &'static str,
    // How its value, the next word, reads; None where it has none.
    pub form: Option<ValueForm>,
    // How often it may stand.
    pub most: usize,
    // Which commands take it.
    pub uses: OptionUses,
}

fn row(word: &'static str, form: Option<ValueForm>, most: usize, uses: OptionUses) -> OptionRow
    ensures word { result.word.now ≡ word.now }
    ensures form { result.form ≡ form }
    ensures most { result.most ≡ most }
    ensures uses { result.uses ≡ uses }
{
    OptionRow {
        word,
        form,
        most,
        uses,
    }
}

// An option with a value that may stand so often.
fn often(word: &'static str, form: ValueForm, most: usize, uses: OptionUses) -> OptionRow
    ensures word { result.word.now ≡ word.now }
    ensures form { result.form ≡ Some form }
    ensures most { result.most ≡ most }
    ensures uses { result.uses ≡ uses }
{
    row(word, Some(form), most, uses)
}

// One with a value that may stand once.
fn once(word: &'static str, form: ValueForm, uses: OptionUses) -> OptionRow
    ensures word { result.word.now ≡ word.now }
    ensures form { result.form ≡ Some form }
    ensures most { result.most ≡ 1 }
    ensures uses { result.uses ≡ uses }
{
    row(word, Some(form), 1, uses)
}

// One without a value.
fn flag(word: &'static str, uses: OptionUses) -> OptionRow
    ensures word { result.word.now ≡ word.now }
    ensures form { result.form ≡ None }
    ensures most { result.most ≡ 1 }
    ensures uses { result.uses ≡ uses }
{
    row(word, None, 1, uses)
}

fn number(low: u32, high: u32) -> ValueForm
    ensures { result ≡ ValueForm.Number low high }
{
    ValueForm::Number { low, high }
}

impl OptionName {
    ghost use Rattle.std.specs.Prelude.{◌≡◌, ◌≢◌, IsTrue, ◌↔◌, MatchOption};
    ghost use Rattle.keyd_words.specs.Table.{row_of};

    // The table: an option's word, how its value reads, how often it may stand, and whether create,
    // step, run, drill, recover and report take it.
    #[tactic(auto, unfolding(crate::specs::Table::row_of))]
    pub(crate) fn row(self) -> OptionRow
        ensures word { result.word.now ≡ (row_of self).word }
        ensures form { result.form ≡ (row_of self).form }
        ensures most { result.most ≡ (row_of self).most }
        ensures uses { result.uses ≡ (row_of self).uses }
    {
        use OptionUse::{May, Must, No};
        use ValueForm::{Algorithm, Digest, FileKey, FileName, FirstChoices, SecondChoices, Space};
        match self {
            OptionName::KeyFile => often("--key-file", FileName, 64, each(Must)),
            OptionName::FileKey => once("--filekey", FileKey, each(May)),
            OptionName::Digest => once("--digest", Digest, each(May)),
            OptionName::Space => often(
                "--space",
                Space,
                MOST_SPACES,
                uses(Must, No, No, Must, No, No),
            ),
            OptionName::Log => once(
                "--log",
                number(LEAST_LOG_BLOCKS, MOST_LOG_BLOCKS),
                uses(May, No, No, May, No, No),
            ),
            OptionName::Algorithm => once("--algorithm", Algorithm, uses(May, No, No, May, No, No)),
            OptionName::Active => once("--active", number(1, u32::MAX), each(May)),
            OptionName::Age => once("--age", number(0, 1 << 31), uses(No, May, May, May, No, No)),
            OptionName::Binlog => flag("--binlog", uses(No, May, May, No, No, No)),
            OptionName::Flushers => once("--flushers", number(1, 4), uses(No, No, May, No, No, No)),
            OptionName::Rotators => once("--rotators", number(1, 4), uses(No, No, May, No, No, No)),
            OptionName::Stop => once("--stop", number(1, TURNS), uses(No, No, No, May, No, No)),
            OptionName::Choice => once("--choice", FirstChoices, uses(No, No, No, May, No, No)),
            OptionName::Reopen => once("--reopen", number(1, TURNS), uses(No, No, No, May, No, No)),
            OptionName::Stop2 => once("--stop2", number(1, TURNS), uses(No, No, No, May, No, No)),
            OptionName::Choice2 => once("--choice2", SecondChoices, uses(No, No, No, May, No, No)),
        }
    }

    // Whether it is this option.
    pub(crate) fn is(self, other: OptionName) -> bool
        ensures { IsTrue result ↔ self ≡ other }
    {
        self == other
    }

    // All options.
    pub(crate) const ALL: [OptionName; 16] = [
        OptionName::KeyFile,
        OptionName::FileKey,
        OptionName::Digest,
        OptionName::Space,
        OptionName::Log,
        OptionName::Algorithm,
        OptionName::Active,
        OptionName::Age,
        OptionName::Binlog,
        OptionName::Flushers,
        OptionName::Rotators,
        OptionName::Stop,
        OptionName::Choice,
        OptionName::Reopen,
        OptionName::Stop2,
        OptionName::Choice2,
    ];

    // The option that a word names.
    pub(crate) fn named(word: &str) -> Option<OptionName>
        ensures { MatchOption result ((f : _) → word.now ≢ (row_of f).word) (λ f. word.now ≡ (row_of f).word) }
    {
        for name in OptionName::ALL {
            if name.row().word == word {
                return Some(name);
            }
        }
        None
    }
}
