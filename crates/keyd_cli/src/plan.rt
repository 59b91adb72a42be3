// What the words of `drill` ask for.
ghost use Rattle.std.specs.Prelude.{◌≡◌, ◌≤◌, ◌<◌, [], map, length, string_bytes, IfOk, Some, None, ◌⊎◌, MatchOption};
ghost use Rattle.keyd_cli.specs.Printed.{letter_of};
ghost use Rattle.keyd_cli.specs.Words.{AreOptions, IsChoice, occurrences};
ghost use Rattle.keyd_cli.specs.Plan.{value_in, IsSpaceIn, IsStopIn, AreChoicesIn};
ghost use Rattle.keyd_cli.specs.PlanOf.{IsPlan, IsFitting};

use crate::words::{Flag, SpaceWords, space_of, stop_of};
use cause_core::OutOfMemory;
use disk_model::Choice;
use std::alloc::Global;

/// What a drill is asked to do.
#[derive(Drop)]
pub struct DrillPlan {
    pub space: SpaceWords,
    /// The turn at which the disk stops, counted from the start of the session.
    pub stop: Option<u32>,
    /// What the crash makes of the unsynced writes, in order; the last choice serves the rest.
    pub choices: Vec<Choice>,
}

// The value of an option.
pub fn value_of(options: &[String], flag: Flag) -> Option<&str>
    ensures { MatchOption result (value_in flag (map string_bytes options.now) ≡ None) (λ v. value_in flag (map string_bytes options.now) ≡ Some v.now) }
{
    let mut at = 0;
    while at + 1 < options.len() {
        if options[at].as_str() == flag.name() {
            return Some(options[at + 1].as_str());
        }
        at += 2;
    }
    None
}

// The choice of a letter.
fn choice_of(letter: u8) -> Choice
    requires { (letter ≡ 108) ⊎ (letter ≡ 107) ⊎ (letter ≡ 116) }
    ensures { letter_of result ≡ letter }
{
    match letter {
        b'l' => Choice::Lost,
        b'k' => Choice::Kept,
        _ => Choice::Torn,
    }
}

fn choices_of(alloc: Global, value: &str) -> Result<Vec<Choice>, OutOfMemory>
    requires { IsChoice value.now }
    ensures { IfOk result (λ choices. (map letter_of choices.items ≡ value.now) × IsChoice value.now) }
{
    let mut choices = Vec::new(alloc);
    for letter in value.as_bytes() {
        choices.push(choice_of(*letter))?;
    }
    Ok(choices)
}

// The space, which stands among the options.
fn space_in(options: &[String]) -> SpaceWords
    requires are { AreOptions (map string_bytes options.now) }
    requires space { 1 ≤ occurrences Flag.Space (map string_bytes options.now) }
    ensures { IsSpaceIn (map string_bytes options.now) result }
{
    let Some(value) = value_of(options, Flag::Space) else {
        unreachable!();
    };
    let Some(space) = space_of(value) else {
        unreachable!();
    };
    space
}

fn stop_in(options: &[String]) -> Option<u32>
    requires { AreOptions (map string_bytes options.now) }
    ensures { IsStopIn (map string_bytes options.now) result }
{
    let value = value_of(options, Flag::Stop)?;
    let Some(turn) = stop_of(value) else {
        unreachable!();
    };
    Some(turn)
}

fn choices_in(alloc: Global, options: &[String]) -> Result<Vec<Choice>, OutOfMemory>
    requires { AreOptions (map string_bytes options.now) }
    ensures { IfOk result (λ choices. AreChoicesIn (map string_bytes options.now) choices.items) }
{
    let Some(value) = value_of(options, Flag::Choice) else {
        return Ok(vec![in alloc; Choice::Lost]?);
    };
    choices_of(alloc, value)
}

/// The plan of options that follow the command.
pub fn plan_of(alloc: Global, options: &[String]) -> Result<DrillPlan, OutOfMemory>
    requires are { AreOptions (map string_bytes options.now) }
    requires space { 1 ≤ occurrences Flag.Space (map string_bytes options.now) }
    ensures plan { IfOk result (IsPlan (map string_bytes options.now)) }
    ensures fits { IfOk result IsFitting }
{
    let space = space_in(options);
    let stop = stop_in(options);
    let choices = choices_in(alloc, options)?;
    Ok(DrillPlan {
        space,
        stop,
        choices,
    })
}
