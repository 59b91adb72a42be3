// The words of `drill`.
ghost use Rattle.std.specs.Prelude.{◌≡◌, ◌≢◌, ◌↔◌, IsTrue, MatchOption, All, OnOk, IfErr, map, string_bytes, length, ◌<◌, ◌%◌, ◌==◌, ◌&&◌, [], ◌∷◌, slice_index_or, codes};
ghost use Rattle.std.specs.Str.{bytes_eq};
ghost use Rattle.keyd_cli.specs.Words.{IsSpace, IsStopTurn, IsChoice, AreParts, occurrences, flag_word, IsDrill, IsUsage};

use crate::number::number_within;
use crate::parts::cut_at;

/// An option of `drill`. Each is a word and its value, the next word.
#[derive(Clone, Copy, Debug, PartialEq, Eq)]
pub enum Flag {
    KeyFile,
    FileKey,
    Digest,
    Space,
    Stop,
    Choice,
}

impl Flag {
    ghost use Rattle.std.specs.Prelude.{IsTrue, ◌↔◌};
    ghost use Rattle.keyd_cli.specs.Words.{flag_word, most_of, IsValue};

    // The option that a word names.
    #[tactic(auto, unfolding(crate::specs::Words::flag_word))]
    fn named(word: &str) -> Option<Flag>
        ensures { MatchOption result ((f : _) → word.now ≢ flag_word f) (λ f. word.now ≡ flag_word f) }
    {
        match word {
            "--key-file" => Some(Flag::KeyFile),
            "--filekey" => Some(Flag::FileKey),
            "--digest" => Some(Flag::Digest),
            "--space" => Some(Flag::Space),
            "--stop" => Some(Flag::Stop),
            "--choice" => Some(Flag::Choice),
            _ => None,
        }
    }

    #[tactic(auto, unfolding(crate::specs::Words::flag_word))]
    pub fn name(self) -> &'static str
        ensures { result.now ≡ flag_word self }
    {
        match self {
            Flag::KeyFile => "--key-file",
            Flag::FileKey => "--filekey",
            Flag::Digest => "--digest",
            Flag::Space => "--space",
            Flag::Stop => "--stop",
            Flag::Choice => "--choice",
        }
    }

    // How often it may stand.
    #[tactic(auto, unfolding(crate::specs::Words::most_of))]
    fn most(self) -> usize
        ensures { result ≡ most_of self }
    {
        match self {
            Flag::KeyFile => 64,
            _ => 1,
        }
    }

    // Whether the option takes this value.
    #[tactic(auto, unfolding(crate::specs::Words::IsValue))]
    fn takes(self, value: &str) -> bool
        ensures { IsTrue result ↔ IsValue self value.now }
    {
        match self {
            Flag::KeyFile | Flag::FileKey => true,
            Flag::Digest => value == "sha1" || value == "sha256",
            Flag::Space => space_of(value).is_some(),
            Flag::Stop => stop_of(value).is_some(),
            Flag::Choice => is_choice(value),
        }
    }
}

// The turn that a stop names.
pub fn stop_of(value: &str) -> Option<u32>
    ensures { MatchOption result ((turn : _) → IsStopTurn value.now turn → ⊥) (λ turn. IsStopTurn value.now turn) }
{
    number_within(value.as_bytes(), 1, 1_000_000)
}

fn is_choice(value: &str) -> bool
    ensures { IsTrue result ↔ IsChoice value.now }
{
    let letters = value.as_bytes();
    (1..=64).contains(&letters.len())
        && letters.iter().all(|&letter| letter == b'l' || letter == b'k' || letter == b't')
}

/// The space of `drill`: its id, its pages and its key id.
#[derive(Clone, Copy, Debug, PartialEq, Eq)]
pub struct SpaceWords {
    pub space: u32,
    pub pages: u32,
    pub key_id: u32,
}

// The four parts of a space's word.
#[derive(Clone, Copy)]
struct SpaceParts<'a> {
    space: &'a [u8],
    pages: &'a [u8],
    key_id: &'a [u8],
}

fn drill_parts_of(value: &[u8]) -> Option<SpaceParts<'_>>
    ensures { MatchOption result ((a b c : _) → AreParts value.now a b c → ⊥) (λ p. AreParts value.now p.space.now p.pages.now p.key_id.now) }
{
    let (space, rest) = cut_at(value, b':')?;
    let (pages, rest) = cut_at(rest, b':')?;
    let (key_id, kind) = cut_at(rest, b':')?;
    if kind != b"plain".as_slice() {
        return None;
    }
    Some(SpaceParts {
        space,
        pages,
        key_id,
    })
}

// A space's word, ID:PAGES:KEY:plain.
pub fn space_of(value: &str) -> Option<SpaceWords>
    ensures { MatchOption result ((id pages key : _) → IsSpace value.now id pages key → ⊥) (λ s. IsSpace value.now s.space s.pages s.key_id) }
{
    let parts = drill_parts_of(value.as_bytes())?;
    let space = number_within(parts.space, 1, 4_294_967_279)?;
    let pages = number_within(parts.pages, 2, 16_384)?;
    let key_id = number_within(parts.key_id, 1, 4_294_967_295)?;
    Some(SpaceWords {
        space,
        pages,
        key_id,
    })
}

// Whether an option's word stands at this place among options and their values.
fn stands_at(options: &[String], i: usize, flag: Flag) -> bool
    requires { i < length options.now }
    ensures { result ≡ ((i % 2 == 0) && bytes_eq (slice_index_or (map string_bytes options.now) i []) (flag_word flag)) }
{
    i % 2 == 0 && options[i].as_str() == flag.name()
}

// How often an option stands among options and their values, two by two.
fn times_of(options: &[String], flag: Flag) -> usize
    ensures { result ≡ occurrences flag (map string_bytes options.now) }
{
    let mut count = 0;
    for i in 0..options.len() {
        if stands_at(options, i, flag) {
            count += 1;
        }
    }
    count
}

// Whether these options follow the command. The refusal is an index into all words.
fn check_options(options: &[String]) -> Result<(), usize>
    ensures ok { OnOk result (IsDrill (codes "drill" ∷ map string_bytes options.now)) }
    ensures usage { IfErr result (λ i. IsUsage (codes "drill" ∷ map string_bytes options.now) i) }
{
    let mut at = 0;
    while at < options.len() {
        let Some(flag) = Flag::named(&options[at]) else {
            return Err(at + 1);
        };
        if times_of(&options[..at], flag) >= flag.most() {
            return Err(at + 1);
        }
        if at + 1 == options.len() {
            return Err(at + 2);
        }
        if !flag.takes(&options[at + 1]) {
            return Err(at + 2);
        }
        at += 2;
    }
    if times_of(options, Flag::KeyFile) == 0 {
        return Err(options.len() + 1);
    }
    if times_of(options, Flag::Space) == 0 {
        return Err(options.len() + 1);
    }
    Ok(())
}

/// Whether the words are a list of `drill`. The refusal is the index of the first word with which
/// no list goes on, or the number of words where more are needed.
pub fn check_words(words: &[String]) -> Result<(), usize>
    ensures ok { OnOk result (IsDrill (map string_bytes words.now)) }
    ensures usage { IfErr result (λ i. IsUsage (map string_bytes words.now) i) }
{
    let Some((command, options)) = words.split_first() else {
        return Err(0);
    };
    if command.as_str() != "drill" {
        return Err(0);
    }
    check_options(options)
}
