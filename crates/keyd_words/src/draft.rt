// A plan while its options are read: what each that has stood so far is set to.
ghost use Rattle.std.specs.Prelude.{◌≡◌, ◌≤◌, length, IfOk};
ghost use Rattle.keyd_words.specs.Plans.{keys_with, crash_plan, second_plan};

use crate::plan::{CrashOptions, CreateOptions, DrillOptions, KeyOptions, RunOptions, StepOptions};
use crate::setting::{OptionSetting, times_of};
use crate::table::OptionName;
use crate::text::{CrashChoices, FileNames, NewSpaces, OptionText};
use crate::value::OptionValue;
use aes_core::Algorithm;
use cause_core::OutOfMemory;
use key_file::KeyDigest;
use std::alloc::Global;

// The blocks of a new log, where the words don't say.
const LOG_BLOCKS: u32 = 256;

// A number and the option that is set to it.
#[derive(Clone, Copy, Debug)]
pub(crate) struct NamedNumber {
    pub name: OptionName,
    pub number: u32,
}

// What the options so far are set to.
#[derive(Debug, Drop)]
pub(crate) struct Draft {
    // The names of all of them, in order.
    pub names: Vec<OptionName>,
    pub key_files: FileNames,
    pub filekey: Option<OptionText>,
    pub digest: Option<KeyDigest>,
    pub algorithm: Option<Algorithm>,
    pub spaces: NewSpaces,
    pub numbers: Vec<NamedNumber>,
    pub first: Option<CrashChoices>,
    pub second: Option<CrashChoices>,
}

impl Draft {
    ghost use Rattle.std.specs.Prelude.{◌≡◌, [], ◌∷◌, ◌++◌, ◌≤◌, OnOk, IfOk, length};
    ghost use Rattle.std.specs.List.{cons_option};
    ghost use Rattle.keyd_words.specs.Settings.{space_in_value};
    ghost use Rattle.keyd_words.specs.Plans.{first_of_two, file_name_in_value, file_key_in_value, digest_in_value, algorithm_in_value, first_choices_in_value, second_choices_in_value};
    ghost use Rattle.keyd_words.specs.Drafts.{number_among, number_named, TellsOptions, keys_drafted, store_drafted, step_drafted, run_drafted, drill_drafted};

    // No option has stood.
    #[tactic(auto, unfolding(crate::specs::Plans::last_found))]
    pub(crate) fn empty(alloc: Global) -> Draft
        ensures { TellsOptions result [] }
    {
        Draft {
            names: Vec::new(alloc),
            key_files: FileNames::none(alloc),
            filekey: None,
            digest: None,
            algorithm: None,
            spaces: NewSpaces::none(alloc),
            numbers: Vec::new(alloc),
            first: None,
            second: None,
        }
    }

    // One option more.
    #[tactic(auto, unfolding(crate::specs::Plans::file_name_in_value, crate::specs::Plans::file_key_in_value, crate::specs::Plans::digest_in_value, crate::specs::Plans::algorithm_in_value, crate::specs::Plans::first_choices_in_value, crate::specs::Plans::second_choices_in_value, crate::specs::Drafts::number_named, crate::specs::Settings::space_in_value))]
    pub(crate) fn note(&mut self, setting: OptionSetting) -> Result<(), OutOfMemory>
        ensures names { OnOk result (self.new.names.items ≡ self.old.names.items ++ setting.name ∷ []) }
        ensures key_files { OnOk result (self.new.key_files ≡ self.old.key_files ++ cons_option (file_name_in_value setting.value) []) }
        ensures filekey { OnOk result (self.new.filekey ≡ first_of_two (file_key_in_value setting.value) self.old.filekey) }
        ensures digest { OnOk result (self.new.digest ≡ first_of_two (digest_in_value setting.value) self.old.digest) }
        ensures algorithm { OnOk result (self.new.algorithm ≡ first_of_two (algorithm_in_value setting.value) self.old.algorithm) }
        ensures spaces { OnOk result (self.new.spaces ≡ self.old.spaces ++ cons_option (space_in_value setting.value) []) }
        ensures first { OnOk result (self.new.first ≡ first_of_two (first_choices_in_value setting.value) self.old.first) }
        ensures second { OnOk result (self.new.second ≡ first_of_two (second_choices_in_value setting.value) self.old.second) }
        ensures numbers { OnOk result (self.new.numbers.items ≡ self.old.numbers.items ++ cons_option (number_named setting.name setting.value) []) }
    {
        self.names.push(setting.name)?;
        match setting.value {
            None => {}
            Some(OptionValue::FileName(text)) => self.key_files.push(text)?,
            Some(OptionValue::FileKey(text)) => self.filekey = Some(text),
            Some(OptionValue::Number(number)) => {
                let name = setting.name;
                self.numbers.push(NamedNumber { name, number })?;
            }
            Some(OptionValue::Digest(digest)) => self.digest = Some(digest),
            Some(OptionValue::Algorithm(algorithm)) => self.algorithm = Some(algorithm),
            Some(OptionValue::Space(space)) => self.spaces.push(space)?,
            Some(OptionValue::FirstChoices(choices)) => self.first = Some(choices),
            Some(OptionValue::SecondChoices(choices)) => self.second = Some(choices),
        }
        Ok(())
    }

    // The number that an option is set to.
    fn number_of(&self, name: OptionName) -> Option<u32>
        ensures { result ≡ number_among name self.now.numbers.items }
    {
        let mut found = None;
        for set in &self.numbers {
            if set.name.is(name) {
                found = Some(set.number);
            }
        }
        found
    }

    // The keys that the options name.
    pub(crate) fn keys(self) -> KeyOptions
        requires { length self.key_files ≤ 64 }
        ensures { result ≡ keys_drafted self }
    {
        let active = self.number_of(OptionName::Active);
        key_options(self.key_files, self.filekey, self.digest, active)
    }

    // The store that they describe.
    pub(crate) fn store(self) -> CreateOptions
        requires { length self.key_files ≤ 64 }
        ensures { result ≡ store_drafted self }
    {
        let active = self.number_of(OptionName::Active);
        let log = self.number_of(OptionName::Log).unwrap_or(LOG_BLOCKS);
        CreateOptions {
            keys: key_options(self.key_files, self.filekey, self.digest, active),
            spaces: self.spaces,
            log,
            algorithm: self.algorithm.unwrap_or(Algorithm::Cbc),
        }
    }

    // The session that they describe.
    pub(crate) fn step(self) -> StepOptions
        requires { length self.key_files ≤ 64 }
        ensures { result ≡ step_drafted self }
    {
        let age = self.number_of(OptionName::Age).unwrap_or(1);
        let binlog = times_of(&self.names, OptionName::Binlog) > 0;
        let keys = self.keys();
        StepOptions { keys, age, binlog }
    }

    // The session of threads that they describe.
    pub(crate) fn run(self) -> RunOptions
        requires { length self.key_files ≤ 64 }
        ensures { result ≡ run_drafted self }
    {
        let flushers = self.number_of(OptionName::Flushers).unwrap_or(1);
        let rotators = self.number_of(OptionName::Rotators).unwrap_or(1);
        RunOptions {
            step: self.step(),
            flushers,
            rotators,
        }
    }

    // The drill that they describe.
    pub(crate) fn drill(mut self, alloc: Global) -> Result<DrillOptions, OutOfMemory>
        requires { length self.key_files ≤ 64 }
        ensures { IfOk result (λ plan. plan ≡ drill_drafted self) }
    {
        let age = self.number_of(OptionName::Age).unwrap_or(1);
        let reopen = self.number_of(OptionName::Reopen);
        let stop = self.number_of(OptionName::Stop);
        let first = crash_options(alloc, stop, self.first.take())?;
        let stop = self.number_of(OptionName::Stop2);
        let second = second_options(alloc, stop, self.second.take())?;
        let store = self.store();
        Ok(DrillOptions {
            store,
            age,
            first,
            reopen,
            second,
        })
    }
}

// The keys; the active version is by default the number of key files.
fn key_options(
    key_files: FileNames,
    filekey: Option<OptionText>,
    digest: Option<KeyDigest>,
    active: Option<u32>,
) -> KeyOptions
    requires { length key_files ≤ 64 }
    ensures { result ≡ keys_with key_files filekey digest active }
{
    let files = key_files.len() as u32;
    KeyOptions {
        key_files,
        filekey,
        digest: digest.unwrap_or(KeyDigest::Sha1),
        active: active.unwrap_or(files),
    }
}

// The end of a session: its stop, and the choices or one that loses all.
#[tactic(auto, unfolding(crate::specs::Plans::crash_plan))]
fn crash_options(
    alloc: Global,
    stop: Option<u32>,
    choices: Option<CrashChoices>,
) -> Result<CrashOptions, OutOfMemory>
    ensures { IfOk result (λ plan. plan ≡ crash_plan stop choices) }
{
    let choices = match choices {
        Some(choices) => choices,
        None => CrashChoices::lost(alloc)?,
    };
    Ok(CrashOptions { stop, choices })
}

// The end of a second session, where there is one.
#[tactic(auto, unfolding(crate::specs::Plans::second_plan))]
fn second_options(
    alloc: Global,
    stop: Option<u32>,
    choices: Option<CrashChoices>,
) -> Result<Option<CrashOptions>, OutOfMemory>
    ensures { IfOk result (λ plan. plan ≡ second_plan stop choices) }
{
    if stop.is_none() && choices.is_none() {
        return Ok(None);
    }
    Ok(Some(crash_options(alloc, stop, choices)?))
}
