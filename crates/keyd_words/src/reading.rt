// A list of words, read once into what it asks for.
ghost use Rattle.std.specs.Prelude.{◌≡◌, ◌≢◌, ◌<◌, ◌≤◌, ℕ, List, [], ◌∷◌, Contains, MatchOption, IfOk, IfErr, IsTrue, ◌↔◌, Some, map, length, slice_index_or, string_bytes, Any};
ghost use Rattle.keyd_words.specs.Drafts.{IsDraftOf};
ghost use Rattle.keyd_words.specs.Limits.{IsWithinLimits};
ghost use Rattle.keyd_words.specs.Table.{Argument, command_word};
ghost use Rattle.keyd_words.specs.Words.{IsListOf, AsksToMake, Says, SaysOnly, IsValid, IsWordsFault, IsUsageAt, IsListFor, StartsWith};
ghost use Rattle.keyd_words.specs.declared.command.Command.TheVariants as command;

use crate::command::Command;
use crate::draft::Draft;
use crate::fault::{SettingFault, WordsFault};
use crate::number::{number_from, number_in};
use crate::plan::{MakeOptions, Plan};
use crate::setting::{has_needed, read_setting};
use std::alloc::Global;

// The most mini-transactions of `make`.
const MOST_MADE: u32 = 4_000;

// The word at a place, if there is one.
fn word_at(words: &[String], i: usize) -> Option<&str>
    ensures { MatchOption result (length words.now ≤ i) (λ word. (i < length words.now) × (slice_index_or (map string_bytes words.now) i [] ≡ word.now)) }
{
    if i < words.len() {
        Some(words[i].as_str())
    } else {
        None
    }
}

// The options behind a command's word.
fn read_options(alloc: Global, command: Command, words: &[String]) -> Result<Draft, WordsFault>
    requires { StartsWith command (map string_bytes words.now) }
    ensures ok { IfOk result (IsDraftOf command (map string_bytes words.now)) }
    ensures few { IfOk result (λ draft. length draft.key_files ≤ 64) }
    ensures err { IfErr result (IsWordsFault (IsListFor command) (map string_bytes words.now)) }
{
    let mut draft = Draft::empty(alloc);
    let mut at = 1;
    while at < words.len() {
        let next = word_at(words, at + 1);
        let word = words[at].as_str();
        match read_setting(
            alloc,
            command,
            &draft.names,
            draft.spaces.spaces(),
            word,
            next,
        ) {
            Ok(setting) => {
                at += if setting.value.is_some() { 2 } else { 1 };
                draft.note(setting)?;
            }
            Err(SettingFault::Name) => return Err(WordsFault::Usage(at)),
            Err(SettingFault::Value) => return Err(WordsFault::Usage(at + 1)),
            Err(SettingFault::OutOfMemory) => return Err(WordsFault::OutOfMemory),
        }
    }
    if !has_needed(command, &draft.names) {
        return Err(WordsFault::Usage(words.len()));
    }
    Ok(draft)
}

// The two numbers behind `make`.
fn read_make(words: &[String]) -> Result<MakeOptions, WordsFault>
    requires { StartsWith command.Make (map string_bytes words.now) }
    ensures ok { IfOk result (AsksToMake (map string_bytes words.now)) }
    ensures err { IfErr result (IsWordsFault (λ ws. (p : _) × AsksToMake ws p) (map string_bytes words.now)) }
{
    let Some(word) = word_at(words, 1) else {
        return Err(WordsFault::Usage(1));
    };
    let Some(number) = number_in(word.as_bytes()) else {
        return Err(WordsFault::Usage(1));
    };
    let Some(word) = word_at(words, 2) else {
        return Err(WordsFault::Usage(2));
    };
    let Some(count) = number_from(word.as_bytes(), 1, MOST_MADE) else {
        return Err(WordsFault::Usage(2));
    };
    if words.len() > 3 {
        return Err(WordsFault::Usage(3));
    }
    Ok(MakeOptions { number, count })
}

// Whether the command is one of these.
fn is_built(built: &[Command], command: Command) -> bool
    ensures { IsTrue result ↔ Contains built.now command }
{
    for known in built {
        if known.is(command) {
            return true;
        }
    }
    false
}

// The command that the first word names, where it is one of these.
fn command_in(built: &[Command], words: &[String]) -> Option<Command>
    ensures { MatchOption result ((c : _) → Contains built.now c → StartsWith c (map string_bytes words.now) → ⊥) (λ c. Contains built.now c × StartsWith c (map string_bytes words.now)) }
{
    let command = Command::named(word_at(words, 0)?)?;
    if !is_built(built, command) {
        return None;
    }
    Some(command)
}

// What the words behind a command ask for.
fn read_plan(alloc: Global, command: Command, words: &[String]) -> Result<Plan, WordsFault>
    requires { StartsWith command (map string_bytes words.now) }
    ensures ok { (built : List Command) → Contains built command → IfOk result (Says built (map string_bytes words.now)) }
    ensures err { (built : List Command) → Contains built command → IfErr result (IsWordsFault (IsValid built) (map string_bytes words.now)) }
{
    match command {
        Command::Create => {
            let draft = read_options(alloc, command, words)?;
            Ok(Plan::Create(draft.store()))
        }
        Command::Step => {
            let draft = read_options(alloc, command, words)?;
            Ok(Plan::Step(draft.step()))
        }
        Command::Run => {
            let draft = read_options(alloc, command, words)?;
            Ok(Plan::Run(draft.run()))
        }
        Command::Drill => {
            let draft = read_options(alloc, command, words)?;
            Ok(Plan::Drill(draft.drill(alloc)?))
        }
        Command::Recover => {
            let draft = read_options(alloc, command, words)?;
            Ok(Plan::Recover(draft.keys()))
        }
        Command::Report => {
            let draft = read_options(alloc, command, words)?;
            Ok(Plan::Report(draft.keys()))
        }
        Command::Make => Ok(Plan::Make(read_make(words)?)),
    }
}

/// Reads the words of `keyd`, without the program's name, into what they ask for. The first is a
/// command, one of those that are built; its options follow in any order, each a word and its value
/// word, but for `--binlog`, which has no value. `make` has two numbers in their place.
///
/// | Option | Value | May stand | Taken by |
/// |---|---|---|---|
/// | `--key-file` | a name | 64 times, at least once | each command but `make` |
/// | `--filekey` | a text | once | each but `make` |
/// | `--digest` | `sha1`, `sha256` | once | each but `make` |
/// | `--space` | `ID:PAGES:KEY:plain` or `..:cipher` | 16 times, at least once | create, drill |
/// | `--log` | 32 to 4096 | once | create, drill |
/// | `--algorithm` | `cbc`, `ctr` | once | create, drill |
/// | `--active` | 1 to 4294967295 | once | each but `make` |
/// | `--age` | 0 to 2147483648 | once | step, run, drill |
/// | `--binlog` | | once | step, run |
/// | `--flushers`, `--rotators` | 1 to 4 | once each | run |
/// | `--stop`, `--reopen`, `--stop2` | 1 to 1000000 | once each | drill |
/// | `--choice`, `--choice2` | 1 to 64 letters of `l`, `k`, `t` | once each | drill |
///
/// The ids of the tablespaces differ, and they have 16384 pages together at most. Numbers are
/// decimal digits without a sign and without a leading zero. The words are this project's own.
///
/// # Errors
/// `Usage(i)` where the list is not valid: i is the least such that no valid list begins with the
/// first i + 1 words, or the number of words. `OutOfMemory`.
pub fn read_words(alloc: Global, built: &[Command], words: &[String]) -> Result<Plan, WordsFault>
    ensures ok { IfOk result (Says built.now (map string_bytes words.now)) }
    ensures only { IfOk result (SaysOnly built.now (map string_bytes words.now)) }
    ensures limits { IfOk result IsWithinLimits }
    ensures err { IfErr result (IsWordsFault (IsValid built.now) (map string_bytes words.now)) }
{
    let Some(command) = command_in(built, words) else {
        return Err(WordsFault::Usage(0));
    };
    read_plan(alloc, command, words)
}
