// Options with their values, and which may stand behind others.
ghost use Rattle.std.specs.Prelude.{◌≡◌, ◌≤◌, IsTrue, ◌↔◌, MatchOption, IfOk, IfErr, Some};
ghost use Rattle.keyd_words.specs.Values.{AreWordsOf, pages_allowed};
ghost use Rattle.keyd_words.specs.Settings.{times_in, space_in_value, pages_of_spaces, IsFree, HasNeeded, MayStand, Joins, MayFollow, IsSettingFault};
ghost use Rattle.keyd_words.specs.Table.{row_of};

use crate::command::Command;
use crate::fault::SettingFault;
use crate::table::{OptionName, ValueForm};
use crate::text::NewSpace;
use crate::value::{FEWEST_PAGES, MOST_PAGES, OptionValue, read_value};
use std::alloc::Global;

// An option and its value, if it has one.
#[derive(Debug, Drop)]
pub(crate) struct OptionSetting {
    pub name: OptionName,
    pub value: Option<OptionValue>,
}

// The tablespace in an option's value.
#[tactic(auto, unfolding(crate::specs::Settings::space_in_value))]
fn space_in(value: &Option<OptionValue>) -> Option<NewSpace>
    ensures { result ≡ space_in_value value.now }
{
    match value {
        Some(OptionValue::Space(space)) => Some(*space),
        _ => None,
    }
}

// Whether a value is a tablespace.
fn is_space(form: Option<ValueForm>) -> bool
    ensures { IsTrue result ↔ form ≡ Some ValueForm.Space }
{
    match form {
        Some(form) => form == ValueForm::Space,
        None => false,
    }
}

// How often an option stands among these.
pub(crate) fn times_of(names: &[OptionName], name: OptionName) -> usize
    ensures { result ≡ times_in name names.now }
{
    let mut count = 0;
    for other in names {
        if other.is(name) {
            count += 1;
        }
    }
    count
}

// The pages of tablespaces, together.
fn pages_of(spaces: &[NewSpace]) -> u32
    requires { pages_of_spaces spaces.now ≤ pages_allowed }
    ensures { result ≡ pages_of_spaces spaces.now }
{
    let mut pages = 0;
    for space in spaces {
        pages += space.pages;
    }
    pages
}

// Whether no tablespace has this id.
fn is_free(spaces: &[NewSpace], id: u32) -> bool
    ensures { IsTrue result ↔ IsFree id spaces.now }
{
    for space in spaces {
        if space.space == id {
            return false;
        }
    }
    true
}

// Whether the option may stand once more behind options of these names and tablespaces.
fn has_room(command: Command, names: &[OptionName], spaces: &[NewSpace], name: OptionName) -> bool
    requires { pages_of_spaces spaces.now ≤ pages_allowed }
    ensures { IsTrue result ↔ MayStand command names.now spaces.now name }
{
    let row = name.row();
    if !row.uses.of(command).is_taken() {
        return false;
    }
    if times_of(names, name) >= row.most {
        return false;
    }
    !is_space(row.form) || FEWEST_PAGES <= MOST_PAGES - pages_of(spaces)
}

// The option that a word names, where it may stand behind these.
fn option_at(
    command: Command,
    names: &[OptionName],
    spaces: &[NewSpace],
    word: &str,
) -> Option<OptionName>
    requires { pages_of_spaces spaces.now ≤ pages_allowed }
    ensures { MatchOption result ((f : _) → word.now ≡ (row_of f).word → MayStand command names.now spaces.now f → ⊥) (λ f. (word.now ≡ (row_of f).word) × MayStand command names.now spaces.now f) }
{
    let name = OptionName::named(word)?;
    if !has_room(command, names, spaces, name) {
        return None;
    }
    Some(name)
}

// Whether a value that its form allows may stand behind these tablespaces.
fn joins(spaces: &[NewSpace], value: &Option<OptionValue>) -> bool
    requires { pages_of_spaces spaces.now ≤ pages_allowed }
    ensures { IsTrue result ↔ Joins spaces.now value.now }
{
    let Some(space) = space_in(value) else {
        return true;
    };
    is_free(spaces, space.space) && space.pages <= MOST_PAGES - pages_of(spaces)
}

// The option that stands behind options of these names and tablespaces, read from its word and the
// word after it.
pub(crate) fn read_setting(
    alloc: Global,
    command: Command,
    names: &[OptionName],
    spaces: &[NewSpace],
    word: &str,
    next: Option<&str>,
) -> Result<OptionSetting, SettingFault>
    requires { pages_of_spaces spaces.now ≤ pages_allowed }
    ensures ok { IfOk result (λ s. (word.now ≡ (row_of s.name).word) × AreWordsOf next.entry s.value × MayFollow command names.now spaces.now s) }
    ensures err { IfErr result (IsSettingFault command names.now spaces.now word.now next.entry) }
{
    let Some(name) = option_at(command, names, spaces, word) else {
        return Err(SettingFault::Name);
    };
    let value = read_value(alloc, name.row().form, next)?;
    if !joins(spaces, &value) {
        return Err(SettingFault::Value);
    }
    Ok(OptionSetting { name, value })
}

// Whether each option that the command needs stands among these.
pub(crate) fn has_needed(command: Command, names: &[OptionName]) -> bool
    ensures { IsTrue result ↔ HasNeeded command names.now }
{
    for name in OptionName::ALL {
        if name.row().uses.of(command).is_needed() && times_of(names, name) == 0 {
            return false;
        }
    }
    true
}
