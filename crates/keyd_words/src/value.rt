// The value of an option.
ghost use Rattle.std.specs.Prelude.{◌≡◌, [], ◌∷◌, ◌⊎◌, MatchOption, IfOk, IfErr, length, map, All, Some};
ghost use Rattle.keyd_words.specs.Parts.{IsCutAt, HasNoByte, AreFourParts};
ghost use Rattle.keyd_words.specs.Values.{IsNewSpace, space_text, digest_word, algorithm_word, kind_word, choice_letter, value_word, AreChoices, IsValueOf, IsSetTo, AreWordsOf, ForMisfit};

use crate::fault::SettingFault;
use crate::number::number_from;
use crate::table::ValueForm;
use crate::text::{CrashChoices, NewSpace, OptionText};
use aes_core::Algorithm;
use disk_model::Choice;
use key_file::KeyDigest;
use std::alloc::Global;

// The greatest id of a tablespace.
const LAST_SPACE: u32 = 4_294_967_279;

// The fewest pages of a tablespace.
pub(crate) const FEWEST_PAGES: u32 = 2;

// The most pages of the tablespaces of a store, together.
pub(crate) const MOST_PAGES: u32 = 16_384;

// The most letters of a choice.
const MOST_CHOICES: usize = 64;

// A value, by its form.
#[derive(Debug, Drop)]
pub(crate) enum OptionValue {
    FileName(OptionText),
    FileKey(OptionText),
    Number(u32),
    Digest(KeyDigest),
    Algorithm(Algorithm),
    Space(NewSpace),
    FirstChoices(CrashChoices),
    SecondChoices(CrashChoices),
}

#[tactic(auto, unfolding(crate::specs::Values::digest_word))]
fn digest_of(word: &str) -> Option<KeyDigest>
    ensures { MatchOption result ((d : _) → word.now ≡ digest_word d → ⊥) (λ d. word.now ≡ digest_word d) }
{
    match word {
        "sha1" => Some(KeyDigest::Sha1),
        "sha256" => Some(KeyDigest::Sha256),
        _ => None,
    }
}

#[tactic(auto, unfolding(crate::specs::Values::algorithm_word))]
fn algorithm_of(word: &str) -> Option<Algorithm>
    ensures { MatchOption result ((a : _) → word.now ≡ algorithm_word a → ⊥) (λ a. word.now ≡ algorithm_word a) }
{
    match word {
        "cbc" => Some(Algorithm::Cbc),
        "ctr" => Some(Algorithm::Ctr),
        _ => None,
    }
}

// Whether pages are ciphered, by the last part of a space's word.
#[tactic(auto, unfolding(crate::specs::Values::kind_word))]
fn ciphered_of(kind: &[u8]) -> Option<bool>
    ensures { MatchOption result ((b : _) → kind.now ≡ kind_word b → ⊥) (λ b. kind.now ≡ kind_word b) }
{
    if kind == b"plain".as_slice() {
        return Some(false);
    }
    if kind == b"cipher".as_slice() {
        return Some(true);
    }
    None
}

// The text before the first such byte, and the text behind it. None where there is no such byte.
fn cut_at(text: &[u8], separator: u8) -> Option<(&[u8], &[u8])>
    ensures { MatchOption result (HasNoByte separator text.now) (λ r. IsCutAt separator text.now r.0.now r.1.now) }
{
    let at = text.iter().position(|&byte| byte == separator)?;
    Some((&text[..at], &text[at + 1..]))
}

// The four parts of a space's word.
#[derive(Clone, Copy)]
struct FourParts<'a> {
    space: &'a [u8],
    pages: &'a [u8],
    key_id: &'a [u8],
    kind: &'a [u8],
}

fn parts_of(value: &[u8]) -> Option<FourParts<'_>>
    ensures { MatchOption result ((a b c d : _) → AreFourParts value.now a b c d → ⊥) (λ p. AreFourParts value.now p.space.now p.pages.now p.key_id.now p.kind.now) }
{
    let (space, rest) = cut_at(value, b':')?;
    let (pages, rest) = cut_at(rest, b':')?;
    let (key_id, kind) = cut_at(rest, b':')?;
    Some(FourParts {
        space,
        pages,
        key_id,
        kind,
    })
}

// The tablespace of a word ID:PAGES:KEY:KIND.
fn space_of(value: &str) -> Option<NewSpace>
    ensures { MatchOption result ((s : _) → value.now ≡ space_text s → IsNewSpace s → ⊥) (λ s. (value.now ≡ space_text s) × IsNewSpace s) }
{
    let parts = parts_of(value.as_bytes())?;
    let space = number_from(parts.space, 1, LAST_SPACE)?;
    let pages = number_from(parts.pages, FEWEST_PAGES, MOST_PAGES)?;
    let key_id = number_from(parts.key_id, 1, u32::MAX)?;
    let ciphered = ciphered_of(parts.kind)?;
    Some(NewSpace {
        space,
        pages,
        key_id,
        ciphered,
    })
}

// The choice of a letter.
#[tactic(auto, unfolding(crate::specs::Values::choice_letter))]
fn choice_of(letter: u8) -> Option<Choice>
    ensures { MatchOption result ((c : _) → letter ≡ choice_letter c → ⊥) (λ c. letter ≡ choice_letter c) }
{
    match letter {
        b'l' => Some(Choice::Lost),
        b'k' => Some(Choice::Kept),
        b't' => Some(Choice::Torn),
        _ => None,
    }
}

// The choices of a word, 1 to 64.
fn choices_of(alloc: Global, word: &[u8]) -> Result<CrashChoices, SettingFault>
    ensures ok { IfOk result (λ cs. (word.now ≡ map choice_letter cs) × AreChoices cs) }
    ensures err { IfErr result (λ e. ForMisfit e ((cs : _) → word.now ≡ map choice_letter cs → AreChoices cs → ⊥)) }
{
    if word.is_empty() {
        return Err(SettingFault::Value);
    }
    if word.len() > MOST_CHOICES {
        return Err(SettingFault::Value);
    }
    let mut choices = Vec::new(alloc);
    for letter in word {
        let Some(choice) = choice_of(*letter) else {
            return Err(SettingFault::Value);
        };
        choices.push(choice)?;
    }
    Ok(CrashChoices::of(choices))
}

// The value of this form that a word writes.
fn value_of(alloc: Global, form: ValueForm, word: &str) -> Result<OptionValue, SettingFault>
    ensures ok { IfOk result (λ v. (word.now ≡ value_word v) × IsValueOf form v) }
    ensures err { IfErr result (λ e. ForMisfit e ((v : _) → word.now ≡ value_word v → IsValueOf form v → ⊥)) }
{
    match form {
        ValueForm::FileName => Ok(OptionValue::FileName(OptionText::of(alloc, word)?)),
        ValueForm::FileKey => Ok(OptionValue::FileKey(OptionText::of(alloc, word)?)),
        ValueForm::Number { low, high } => match number_from(word.as_bytes(), low, high) {
            Some(number) => Ok(OptionValue::Number(number)),
            None => Err(SettingFault::Value),
        },
        ValueForm::Digest => match digest_of(word) {
            Some(digest) => Ok(OptionValue::Digest(digest)),
            None => Err(SettingFault::Value),
        },
        ValueForm::Algorithm => match algorithm_of(word) {
            Some(algorithm) => Ok(OptionValue::Algorithm(algorithm)),
            None => Err(SettingFault::Value),
        },
        ValueForm::Space => match space_of(word) {
            Some(space) => Ok(OptionValue::Space(space)),
            None => Err(SettingFault::Value),
        },
        ValueForm::FirstChoices => match choices_of(alloc, word.as_bytes()) {
            Ok(choices) => Ok(OptionValue::FirstChoices(choices)),
            Err(fault) => Err(fault),
        },
        ValueForm::SecondChoices => match choices_of(alloc, word.as_bytes()) {
            Ok(choices) => Ok(OptionValue::SecondChoices(choices)),
            Err(fault) => Err(fault),
        },
    }
}

// The value that follows an option's word, if the option has one.
pub(crate) fn read_value(
    alloc: Global,
    form: Option<ValueForm>,
    word: Option<&str>,
) -> Result<Option<OptionValue>, SettingFault>
    ensures ok { IfOk result (λ v. AreWordsOf word.entry v × IsSetTo form v) }
    ensures err { IfErr result (λ e. ForMisfit e ((v : _) → AreWordsOf word.entry v → IsSetTo form v → ⊥)) }
{
    let Some(form) = form else {
        return Ok(None);
    };
    let Some(word) = word else {
        return Err(SettingFault::Value);
    };
    Ok(Some(value_of(alloc, form, word)?))
}
