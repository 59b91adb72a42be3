// Lists of words that are read, and lists that are not.
use crate::{Command, FileNames, NewSpace, OptionText, Plan, WordsFault, read_words};
use aes_core::Algorithm;
use disk_model::Choice;
use key_file::KeyDigest;
use std::alloc::{AllocError, Global};
use std::test::Fail;

const ALL: [Command; 7] = [
    Command::Create,
    Command::Step,
    Command::Run,
    Command::Drill,
    Command::Recover,
    Command::Report,
    Command::Make,
];

// The words of a line, with one space between them.
fn words_of(alloc: Global, line: &str) -> Result<Vec<String>, AllocError> {
    let mut words = Vec::new(alloc);
    if line.is_empty() {
        return Ok(words);
    }
    for word in line.split(' ') {
        words.push(String::from_str(alloc, word)?)?;
    }
    Ok(words)
}

// What a line says.
fn plan_of(alloc: Global, line: &str) -> Result<Plan, Fail> {
    let words = words_of(alloc, line)?;
    match read_words(alloc, &ALL, &words) {
        Ok(plan) => Ok(plan),
        Err(WordsFault::Usage(_)) => Err(Fail::from("the words are refused")),
        Err(WordsFault::OutOfMemory) => Err(Fail::from("out of memory")),
    }
}

// At which word a line is refused. None where it is valid.
fn refused_at(alloc: Global, line: &str) -> Result<Option<usize>, Fail> {
    let words = words_of(alloc, line)?;
    match read_words(alloc, &ALL, &words) {
        Ok(_) => Ok(None),
        Err(WordsFault::Usage(i)) => Ok(Some(i)),
        Err(WordsFault::OutOfMemory) => Err(Fail::from("out of memory")),
    }
}

// A line and the word at which it is refused.
#[derive(Clone, Copy)]
struct Case {
    line: &'static str,
    at: Option<usize>,
}

fn is_as_said(alloc: Global, case: &Case) -> Result<bool, Fail> {
    let at = refused_at(alloc, case.line)?;
    Ok(at == case.at)
}

fn refused(line: &'static str, at: usize) -> Case {
    Case { line, at: Some(at) }
}

fn valid(line: &'static str) -> Case {
    Case { line, at: None }
}

#[test]
fn drills_are_refused_at_the_word_that_no_list_goes_on_with(rt: HostRuntime) -> Result<(), Fail> {
    let cases = [
        refused("drill --key-file", 2),
        refused("drill --stop 01", 2),
        refused("", 0),
        refused("--key-file keys1 drill", 0),
        refused("drill --reopen 0", 2),
        refused("drill --choice ", 2),
        refused("drill --choice lkx", 2),
        refused("drill --choice L", 2),
        refused("drill --choice2 kt ", 3),
        refused("drill --choice l --choice k", 3),
        refused("drill --log 31", 2),
        refused("drill --log 32 --log", 3),
        refused("drill --log 4097", 2),
        refused("create --log 4096 --log 4096", 3),
        refused("drill --stop 1000001", 2),
        refused("drill --stop +1", 2),
        refused("drill --age 2147483649", 2),
        refused("drill --binlog", 1),
    ];
    for case in &cases {
        assert!(rt; is_as_said(rt.alloc(), case)?);
    }
    Ok(())
}

#[test]
fn tablespaces_differ_and_fit_together(rt: HostRuntime) -> Result<(), Fail> {
    let cases = [
        refused("drill --space 5:4:1:cipher --space 5:4:1:cipher", 4),
        refused("drill --space 5:4:1:cipher --space 5:4:2:plain", 4),
        refused("drill --space 1:16384:1:plain --space", 3),
        refused("drill --space 1:16383:1:plain --space 2:2:1:plain", 3),
        refused("drill --space 1:16382:1:plain --space 2:3:1:plain", 4),
        refused("drill --space 1:16382:1:plain --space", 4),
        refused("drill --space 1:16384:1:plain", 3),
        refused("drill --space 1:16385:1:plain", 2),
        refused("drill --space 0:4:1:plain", 2),
        refused("drill --space 4294967280:4:1:plain", 2),
        refused("drill --space 5:1:1:plain", 2),
        refused("drill --space 5:4:0:plain", 2),
        refused("drill --space 5:4:1:secret", 2),
        refused("drill --space 5:4:1:plain:", 2),
        refused("recover --space 5:4:1:plain", 1),
    ];
    for case in &cases {
        assert!(rt; is_as_said(rt.alloc(), case)?);
    }
    Ok(())
}

// Each option with a value, and whether create, step, run, drill, recover and report take it.
const OPTIONS: [(&str, &str, [bool; 6]); 15] = [
    ("--key-file", "k", [true, true, true, true, true, true]),
    ("--filekey", "k", [true, true, true, true, true, true]),
    ("--digest", "sha256", [true, true, true, true, true, true]),
    (
        "--active",
        "4294967295",
        [true, true, true, true, true, true],
    ),
    (
        "--space",
        "5:4:1:plain",
        [true, false, false, true, false, false],
    ),
    ("--log", "32", [true, false, false, true, false, false]),
    (
        "--algorithm",
        "ctr",
        [true, false, false, true, false, false],
    ),
    ("--age", "0", [false, true, true, true, false, false]),
    ("--flushers", "4", [false, false, true, false, false, false]),
    ("--rotators", "1", [false, false, true, false, false, false]),
    (
        "--stop",
        "1000000",
        [false, false, false, true, false, false],
    ),
    ("--choice", "lkt", [false, false, false, true, false, false]),
    ("--reopen", "1", [false, false, false, true, false, false]),
    ("--stop2", "1", [false, false, false, true, false, false]),
    ("--choice2", "t", [false, false, false, true, false, false]),
];

const COMMANDS: [&str; 6] = ["create", "step", "run", "drill", "recover", "report"];

// Whether an option behind a command's word is read where it is taken and refused where it isn't,
// with its value missing and with one that doesn't read too.
fn reads_option(
    alloc: Global,
    command: &str,
    option: &str,
    value: &str,
    taken: bool,
) -> Result<bool, Fail> {
    let whole = format!(in alloc; "{command} {option} {value}")?;
    let bare = format!(in alloc; "{command} {option}")?;
    let at = if taken { 3 } else { 1 };
    let short = if taken { 2 } else { 1 };
    let unneeded = refused_at(alloc, &whole)? == Some(at);
    let unvalued = refused_at(alloc, &bare)? == Some(short);
    Ok(unvalued && (unneeded || option == "--key-file"))
}

#[test]
fn each_command_takes_its_options_alone(rt: HostRuntime) -> Result<(), Fail> {
    for (option, value, taken) in &OPTIONS {
        for i in 0..6 {
            assert!(rt; reads_option(rt.alloc(), COMMANDS[i], option, value, taken[i])?);
        }
    }
    Ok(())
}

#[test]
fn options_stand_in_any_order(rt: HostRuntime) -> Result<(), Fail> {
    let cases = [
        valid("create --space 5:4:1:cipher --key-file a --log 4096 --key-file b --algorithm cbc"),
        valid("step --binlog --age 2147483648 --key-file a --active 1"),
        refused("step --key-file a --binlog --binlog", 4),
        valid("run --key-file a --flushers 4 --binlog --rotators 2"),
        refused("run --key-file a --flushers 5", 4),
        valid(
            "drill --key-file a --space 5:4:1:plain --stop2 1 --choice2 k --reopen 2 --digest sha1",
        ),
        valid("recover --key-file a --filekey FILE:b"),
        valid("report --filekey a --key-file b"),
        refused("report --filekey a --filekey b", 3),
        refused("report --digest sha2", 2),
        refused("report --algorithm cbc", 1),
        refused("report keys1", 1),
        refused("reports --key-file a", 0),
    ];
    for case in &cases {
        assert!(rt; is_as_said(rt.alloc(), case)?);
    }
    Ok(())
}

// At which word a command with so many options of one name is refused.
fn refused_with(
    alloc: Global,
    command: &str,
    options: &str,
    count: u32,
) -> Result<Option<usize>, Fail> {
    let mut line = String::from_str(alloc, command)?;
    for i in 0..count {
        let number = i + 1;
        let more = if options == "--space" {
            format!(in alloc; " --space {number}:2:1:plain")?
        } else {
            format!(in alloc; " {options} {number}")?
        };
        line.push_str(&more)?;
    }
    refused_at(alloc, &line)
}

#[test]
fn options_that_may_be_repeated_have_a_limit(rt: HostRuntime) -> Result<(), Fail> {
    assert_eq!(rt;
        refused_with(rt.alloc(), "recover", "--key-file", 64)?,
        None
    );
    assert_eq!(rt;
        refused_with(rt.alloc(), "recover", "--key-file", 65)?,
        Some(129)
    );
    assert_eq!(rt; refused_with(rt.alloc(), "drill", "--space", 16)?, Some(33));
    assert_eq!(rt;
        refused_with(rt.alloc(), "drill --key-file k", "--space", 16)?,
        None
    );
    assert_eq!(rt;
        refused_with(rt.alloc(), "drill --key-file k", "--space", 17)?,
        Some(35)
    );
    Ok(())
}

#[test]
fn make_has_two_numbers(rt: HostRuntime) -> Result<(), Fail> {
    let cases = [
        valid("make 7 300"),
        valid("make 18446744073709551615 4000"),
        refused("make", 1),
        refused("make 18446744073709551616 1", 1),
        refused("make 07", 1),
        refused("make 7", 2),
        refused("make 7 0", 2),
        refused("make 7 4001", 2),
        refused("make 7 1 --key-file", 3),
    ];
    for case in &cases {
        assert!(rt; is_as_said(rt.alloc(), case)?);
    }
    Ok(())
}

#[test]
fn a_command_that_is_not_built_is_refused(rt: HostRuntime) -> Result<(), Fail> {
    let words = words_of(rt.alloc(), "make 7 300")?;
    let read = read_words(rt.alloc(), &[Command::Drill], &words);
    assert!(rt; matches!(read, Err(WordsFault::Usage(0))));
    Ok(())
}

// Whether these are the names of the key files.
fn are_named(files: &FileNames, wanted: &[&str]) -> bool {
    let names = files.names();
    if names.len() != wanted.len() {
        return false;
    }
    for i in 0..names.len() {
        if names[i].as_str() != wanted[i] {
            return false;
        }
    }
    true
}

// Whether the password is this.
fn is_password(filekey: &Option<OptionText>, wanted: &str) -> bool {
    match filekey {
        Some(text) => text.as_str() == wanted,
        None => false,
    }
}

#[test]
fn create_asks_for_what_its_words_say(rt: HostRuntime) -> Result<(), Fail> {
    let line =
        "create --space 5:4:1:cipher --key-file a --log 4096 --key-file b --algorithm ctr --space 9:2:3:plain --filekey FILE:p --digest sha256";
    let Plan::Create(plan) = plan_of(rt.alloc(), line)? else {
        return Err(Fail::from("another command"));
    };
    let spaces = [
        NewSpace {
            space: 5,
            pages: 4,
            key_id: 1,
            ciphered: true,
        },
        NewSpace {
            space: 9,
            pages: 2,
            key_id: 3,
            ciphered: false,
        },
    ];
    assert!(rt; plan.spaces.spaces() == spaces.as_slice());
    assert!(rt; plan.log == 4096 && matches!(plan.algorithm, Algorithm::Ctr));
    assert!(rt; are_named(&plan.keys.key_files, &["a", "b"]) && plan.keys.active == 2);
    assert!(rt; is_password(&plan.keys.filekey, "FILE:p"));
    assert!(rt; matches!(plan.keys.digest, KeyDigest::Sha256));
    Ok(())
}

#[test]
fn create_has_defaults(rt: HostRuntime) -> Result<(), Fail> {
    let line = "create --key-file a --space 5:4:1:plain";
    let Plan::Create(plan) = plan_of(rt.alloc(), line)? else {
        return Err(Fail::from("another command"));
    };
    assert!(rt; plan.log == 256 && matches!(plan.algorithm, Algorithm::Cbc));
    assert!(rt; plan.keys.active == 1 && plan.keys.filekey.is_none());
    assert!(rt; matches!(plan.keys.digest, KeyDigest::Sha1));
    Ok(())
}

#[test]
fn step_asks_for_what_its_words_say(rt: HostRuntime) -> Result<(), Fail> {
    let line = "step --binlog --age 2147483648 --key-file a --active 7";
    let Plan::Step(plan) = plan_of(rt.alloc(), line)? else {
        return Err(Fail::from("another command"));
    };
    assert!(rt; plan.binlog && plan.age == 2_147_483_648);
    assert!(rt; are_named(&plan.keys.key_files, &["a"]) && plan.keys.active == 7);
    Ok(())
}

#[test]
fn run_asks_for_what_its_words_say(rt: HostRuntime) -> Result<(), Fail> {
    let line = "run --rotators 2 --key-file a --flushers 4";
    let Plan::Run(plan) = plan_of(rt.alloc(), line)? else {
        return Err(Fail::from("another command"));
    };
    assert!(rt; plan.flushers == 4 && plan.rotators == 2);
    assert!(rt; !plan.step.binlog && plan.step.age == 1);
    assert!(rt; are_named(&plan.step.keys.key_files, &["a"]));
    Ok(())
}

#[test]
fn recover_asks_for_what_its_words_say(rt: HostRuntime) -> Result<(), Fail> {
    let line = "recover --key-file a --active 3 --filekey b";
    let Plan::Recover(keys) = plan_of(rt.alloc(), line)? else {
        return Err(Fail::from("another command"));
    };
    assert!(rt; are_named(&keys.key_files, &["a"]) && keys.active == 3);
    assert!(rt; is_password(&keys.filekey, "b"));
    Ok(())
}

#[test]
fn report_asks_for_what_its_words_say(rt: HostRuntime) -> Result<(), Fail> {
    let line = "report --digest sha1 --key-file b --key-file a";
    let Plan::Report(keys) = plan_of(rt.alloc(), line)? else {
        return Err(Fail::from("another command"));
    };
    assert!(rt; are_named(&keys.key_files, &["b", "a"]) && keys.active == 2);
    assert!(rt; matches!(keys.digest, KeyDigest::Sha1));
    Ok(())
}

#[test]
fn make_asks_for_what_its_words_say(rt: HostRuntime) -> Result<(), Fail> {
    let Plan::Make(plan) = plan_of(rt.alloc(), "make 18446744073709551615 300")? else {
        return Err(Fail::from("another command"));
    };
    assert!(rt; plan.number == u64::MAX && plan.count == 300);
    Ok(())
}

#[test]
fn a_drill_asks_for_what_its_words_say(rt: HostRuntime) -> Result<(), Fail> {
    let line =
        "drill --key-file a --space 5:4:1:cipher --key-file b --stop 3 --choice lk --stop2 2 --reopen 9 --age 0";
    let Plan::Drill(plan) = plan_of(rt.alloc(), line)? else {
        return Err(Fail::from("another command"));
    };
    assert!(rt; are_named(&plan.store.keys.key_files, &["a", "b"]) && plan.store.log == 256);
    assert!(rt; plan.first.stop == Some(3) && plan.reopen == Some(9) && plan.age == 0);
    assert!(rt; plan.first.choices.choices() == [Choice::Lost, Choice::Kept].as_slice());
    let Some(second) = &plan.second else {
        return Err(Fail::from("no second session"));
    };
    assert!(rt; second.stop == Some(2));
    assert!(rt; second.choices.choices() == [Choice::Lost].as_slice());
    Ok(())
}

#[test]
fn a_drill_has_defaults(rt: HostRuntime) -> Result<(), Fail> {
    let line = "drill --key-file a --space 5:4:1:cipher --choice2 t";
    let Plan::Drill(plan) = plan_of(rt.alloc(), line)? else {
        return Err(Fail::from("another command"));
    };
    assert!(rt; plan.first.stop.is_none() && plan.reopen.is_none() && plan.age == 1);
    assert!(rt; plan.first.choices.choices() == [Choice::Lost].as_slice());
    let Some(second) = &plan.second else {
        return Err(Fail::from("no second session"));
    };
    assert!(rt; second.stop.is_none());
    assert!(rt; second.choices.choices() == [Choice::Torn].as_slice());
    Ok(())
}
