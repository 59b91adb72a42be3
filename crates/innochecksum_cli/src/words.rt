// The words of the command line.
ghost use Rattle.std.specs.Prelude.{◌≡◌, ◌∷◌, [], Some, IfOk, IfErr, OnOk, codes, map, string_bytes, true, false};
ghost use Rattle.clap.specs.Words.{app_of, fault_of, first_value, found_of, kind_of, rule_of, takes};
ghost use Rattle.innochecksum_cli.specs.Words.{command, file, flag, is_flagged, file_name_of, number, number_or, options_of, rules, values_in};

use crate::Options;
use clap::error::ErrorKind;
use clap::{Arg, ArgAction, ArgMatches, Command, Error, value_parser};
use std::alloc::{AllocError, Global};

/// What the words ask for: the file to inspect, and how.
#[derive(Clone, Copy, Debug, PartialEq, Eq)]
pub struct CheckRequest<'a> {
    /// The file's name.
    pub name: &'a str,
    /// How it is inspected.
    pub options: Options,
}

// An option without a value, whose long name is its id.
fn flag<'a>(alloc: Global, id: &'a str, short: char, help: &'a str) -> Arg<'a>
    ensures rule { rule_of result ≡ flag id.entry.now short }
    ensures local { result.global ≡ false }
{
    Arg::new(alloc, id)
        .short(short)
        .long(id)
        .action(ArgAction::SetTrue)
        .help(help)
}

// An option whose value is a number, whose long name is its id.
fn number<'a>(alloc: Global, id: &'a str, short: char, help: &'a str) -> Arg<'a>
    ensures rule { rule_of result ≡ number id.entry.now short }
    ensures local { result.global ≡ false }
{
    Arg::new(alloc, id)
        .short(short)
        .long(id)
        .value_name("N")
        .value_parser(value_parser!(u64))
        .help(help)
}

// How many mismatches are permitted.
fn allowance<'a>(alloc: Global) -> Arg<'a>
    ensures rule { rule_of result ≡ record (number (codes "allow-mismatches") 97) { defaults = codes "0" ∷ [] } }
    ensures local { result.global ≡ false }
{
    let help = "Go on up to this number of mismatches";
    number(alloc, "allow-mismatches", 'a', help).default_value("0")
}

// The file, which has to be there.
fn file<'a>(alloc: Global) -> Arg<'a>
    ensures rule { rule_of result ≡ file }
    ensures local { result.global ≡ false }
{
    Arg::new(alloc, "FILE")
        .required(true)
        .help("The tablespace file to check")
}

// The command with no argument yet. Its words come without the program's name.
fn bare<'a>(alloc: Global) -> Command<'a>
    ensures { app_of result ≡ record command { top = record command.top { rules = [] } } }
{
    Command::new(alloc, "innochecksum")
        .no_binary_name(true)
        .version("1.0.0")
        .about("Checks the pages of a tablespace in MariaDB's format full_crc32, ciphered or not")
}

// The program's command.
fn command<'a>(alloc: Global) -> Result<Command<'a>, AllocError>
    ensures { IfOk result (λ c. app_of c ≡ command) }
{
    let count = flag(
        alloc,
        "count",
        'c',
        "Print the number of whole pages and end",
    );
    let start = number(alloc, "start-page", 's', "The first page to check, from 0");
    let end = number(alloc, "end-page", 'e', "The last page to check");
    let page = number(
        alloc,
        "page",
        'p',
        "Check this page alone, whatever -s and -e say",
    );
    let summary = flag(
        alloc,
        "page-type-summary",
        'S',
        "End with a summary of the page types",
    );
    bare(alloc)
        .arg(count)?
        .arg(start)?
        .arg(end)?
        .arg(page)?
        .arg(allowance(alloc))?
        .arg(summary)?
        .arg(file(alloc))
}

// Whether an option without a value was given.
fn is_flagged(matches: &ArgMatches<'_>, id: &str) -> bool
    ensures { result ≡ is_flagged (first_value (found_of matches.now) id.now) }
{
    match matches.get_str(id) {
        Some(text) => text == "true",
        None => false,
    }
}

// The number that a text says, or another.
fn number_in(text: &str, other: u64) -> u64
    ensures { result ≡ number_or (Some text.now) other }
{
    match text.parse::<u64>() {
        Ok(number) => number,
        Err(_) => other,
    }
}

// The number that an option gives, or another where it wasn't given.
fn number_or(matches: &ArgMatches<'_>, id: &str, other: u64) -> u64
    ensures { result ≡ number_or (first_value (found_of matches.now) id.now) other }
{
    match matches.get_str(id) {
        Some(text) => number_in(text, other),
        None => other,
    }
}

fn asked_by<'a>(matches: &ArgMatches<'a>) -> CheckRequest<'a>
    ensures options { result.options ≡ options_of (first_value (found_of matches.now)) }
    ensures name { result.name.now ≡ file_name_of (first_value (found_of matches.now)) }
{
    let start = number_or(matches, "start-page", 0);
    let end = number_or(matches, "end-page", u64::MAX);
    let options = Options {
        count: is_flagged(matches, "count"),
        first: number_or(matches, "page", start),
        last: number_or(matches, "page", end),
        allowed: number_or(matches, "allow-mismatches", 0),
        summary: is_flagged(matches, "page-type-summary"),
    };
    CheckRequest {
        name: matches.get_str("FILE").unwrap_or(""),
        options,
    }
}

/// Reads the words, which come without the program's name.
///
/// # Errors
/// `clap`'s own: of kind `OutOfMemory` where the machine had no memory, else a mistake in the words, or
/// a call for help or for the version, with its text.
pub fn read_words<'a>(alloc: Global, words: &'a [String]) -> Result<CheckRequest<'a>, Error>
    ensures options { IfOk result (λ asked. asked.options ≡ options_of (values_in words.entry.now)) }
    ensures name { IfOk result (λ asked. asked.name.now ≡ file_name_of (values_in words.entry.now)) }
    ensures accepted { OnOk result (fault_of command (map string_bytes words.entry.now) ≡ []) }
    ensures refused { IfErr result (λ e. takes command (map string_bytes words.entry.now) ≡ true → kind_of e ≡ ErrorKind.OutOfMemory) }
{
    let matches = command(alloc)?.try_get_matches_from(words)?;
    Ok(asked_by(&matches))
}
