// The words of the command line.

ghost use Rattle.std.specs.Prelude.{◌≡◌, ◌≤◌, [], Some, true, false, IfOk, IfErr, OnOk, codes, is_some, map, string_bytes, unwrap_or};
ghost use Rattle.std.specs.Option.{option_copied, option_map};
ghost use Rattle.clap.specs.Words.{app_of, fault_of, first_value, found_of, kind_of, matched_of, raw_values, rule_of, takes};
ghost use Rattle.binlog_cli.specs.Words.{IsAskedBy, digest_by_name, digest_rule, hex_rule, is_true_text, is_within_limits, key_files_rule, list_command, list_values_in, log_rule, valued_rule};

use clap::error::ErrorKind;
use clap::{Arg, ArgAction, ArgMatches, Command, Error};
use key_file::KeyDigest;
use std::alloc::{AllocError, Global};

/// As many key files may be named.
const MOST_KEY_FILES: usize = 64;

/// What the words ask for: the log to list, the keys, and how.
#[derive(Debug, Drop)]
pub struct ListRequest<'a> {
    /// The log's name.
    pub name: &'a str,
    /// The names of the key files: the k-th, counted from 1, gives version k of its keys.
    pub key_files: Vec<String>,
    /// The password of key files that are enciphered, or `FILE:` and the name of the file that has it.
    pub filekey: Option<&'a str>,
    /// The digest of that password.
    pub digest: KeyDigest,
    /// Whether each event's bytes are printed too.
    pub is_hex: bool,
}

// An option with a value, whose long name is its id.
fn valued<'a>(alloc: Global, id: &'a str, name: &'a str, help: &'a str) -> Arg<'a>
    ensures rule { rule_of result ≡ valued_rule id.entry.now }
    ensures local { result.global ≡ false }
{
    Arg::new(alloc, id).long(id).value_name(name).help(help)
}

// The key files, which may be named several times.
fn key_files<'a>(alloc: Global) -> Arg<'a>
    ensures rule { rule_of result ≡ key_files_rule }
    ensures local { result.global ≡ false }
{
    let help = "A key file; the k-th that is named gives version k of its keys";
    valued(alloc, "key-file", "NAME", help).action(ArgAction::Append)
}

// The password of enciphered key files.
fn filekey<'a>(alloc: Global) -> Arg<'a>
    ensures rule { rule_of result ≡ valued_rule (codes "filekey") }
    ensures local { result.global ≡ false }
{
    let help = "The password of enciphered key files, or FILE:NAME for the file that has it";
    valued(alloc, "filekey", "TEXT", help)
}

// The digest of that password.
fn digest<'a>(alloc: Global) -> Arg<'a>
    ensures rule { rule_of result ≡ digest_rule }
    ensures local { result.global ≡ false }
{
    let help = "The digest of that password, sha1 or sha256";
    valued(alloc, "digest", "DIGEST", help).default_value("sha1")
}

// Whether each event's bytes are printed.
fn hex<'a>(alloc: Global) -> Arg<'a>
    ensures rule { rule_of result ≡ hex_rule }
    ensures local { result.global ≡ false }
{
    Arg::new(alloc, "hex")
        .long("hex")
        .action(ArgAction::SetTrue)
        .help("Print each event's bytes, deciphered, in a line after its own")
}

// The log, which has to be there.
fn log<'a>(alloc: Global) -> Arg<'a>
    ensures rule { rule_of result ≡ log_rule }
    ensures local { result.global ≡ false }
{
    Arg::new(alloc, "FILE")
        .required(true)
        .help("The binary log to list")
}

// The command with no argument yet. Its words come without the program's name.
fn bare<'a>(alloc: Global) -> Command<'a>
    ensures { app_of result ≡ record list_command { top = record list_command.top { rules = [] } } }
{
    Command::new(alloc, "binlog")
        .no_binary_name(true)
        .version("1.0.0")
        .about("Lists the events of a binary log that a MariaDB server wrote, ciphered or not")
}

// The program's command.
fn command<'a>(alloc: Global) -> Result<Command<'a>, AllocError>
    ensures { IfOk result (λ c. app_of c ≡ list_command) }
{
    bare(alloc)
        .arg(key_files(alloc))?
        .arg(filekey(alloc))?
        .arg(digest(alloc))?
        .arg(hex(alloc))?
        .arg(log(alloc))
}

// The error of words that the command takes, and the program doesn't.
fn refusal(alloc: Global, kind: ErrorKind, message: &str) -> Result<Error, AllocError> {
    let mut command = command(alloc)?;
    command.error(kind, message)
}

// Whether an option without a value was given.
fn is_given(matches: &ArgMatches<'_>, id: &str) -> bool
    ensures { result ≡ is_true_text (first_value (found_of matches.now) id.now) }
{
    match matches.get_str(id) {
        Some(text) => text == "true",
        None => false,
    }
}

// The digest of a name.
fn digest_by_name(name: &str) -> Option<KeyDigest>
    ensures { result ≡ digest_by_name name.now }
{
    if name == "sha1" {
        Some(KeyDigest::Sha1)
    } else if name == "sha256" {
        Some(KeyDigest::Sha256)
    } else {
        None
    }
}

// The digest that is named, sha1 where none is.
fn digest_in(matches: &ArgMatches<'_>) -> Option<KeyDigest>
    ensures { result ≡ digest_by_name (unwrap_or (first_value (found_of matches.now) (codes "digest")) []) }
{
    digest_by_name(matches.get_str("digest").unwrap_or(""))
}

// Copies of the texts.
fn copies(alloc: Global, texts: &[&str]) -> Result<Vec<String>, AllocError>
    ensures { IfOk result (λ names. map string_bytes names.items ≡ map (λ t. t.now) texts.now) }
{
    let mut names = Vec::new(alloc);
    for text in texts {
        let name = String::from_str(alloc, text)?;
        names.push(name).map_err(AllocError::from)?;
    }
    Ok(names)
}

// The names of the key files, in order.
fn key_files_in(alloc: Global, matches: &ArgMatches<'_>) -> Result<Vec<String>, AllocError>
    ensures { IfOk result (λ names. map string_bytes names.items ≡ unwrap_or (option_map raw_values (matched_of (found_of matches.now) (codes "key-file"))) []) }
{
    match matches.get_strs("key-file") {
        Some(texts) => copies(alloc, texts),
        None => Ok(Vec::new(alloc)),
    }
}

// The digest, where it is one of the two and there are no more key files than may be named.
fn within_limits(
    alloc: Global,
    digest: Option<KeyDigest>,
    key_files: usize,
) -> Result<KeyDigest, Error>
    ensures accepted { IfOk result (λ named. (digest ≡ Some named) × (key_files ≤ MOST_KEY_FILES)) }
    ensures refused { IfErr result (λ e. is_some digest ≡ true → key_files ≤ MOST_KEY_FILES → kind_of e ≡ ErrorKind.OutOfMemory) }
{
    if key_files > MOST_KEY_FILES {
        return Err(refusal(alloc, ErrorKind::TooManyValues, "more than 64 key files")?);
    }
    match digest {
        Some(digest) => Ok(digest),
        None => Err(refusal(
            alloc,
            ErrorKind::InvalidValue,
            "the digest is sha1 or sha256",
        )?),
    }
}

// What the matches ask for.
fn asked_by<'a>(
    matches: &ArgMatches<'a>,
    key_files: Vec<String>,
    digest: KeyDigest,
) -> ListRequest<'a>
    ensures name { result.name.now ≡ unwrap_or (first_value (found_of matches.now) (codes "FILE")) [] }
    ensures key_files { result.key_files ≡ key_files }
    ensures filekey { option_copied result.filekey ≡ first_value (found_of matches.now) (codes "filekey") }
    ensures digest { result.digest ≡ digest }
    ensures hex { result.is_hex ≡ is_true_text (first_value (found_of matches.now) (codes "hex")) }
{
    ListRequest {
        name: matches.get_str("FILE").unwrap_or(""),
        key_files,
        filekey: matches.get_str("filekey"),
        digest,
        is_hex: is_given(matches, "hex"),
    }
}

/// Reads the words, which come without the program's name.
///
/// # Errors
/// `clap`'s own: of kind `OutOfMemory` where the machine had no memory, else a mistake in the words, or
/// a call for help or for the version, with its text; `InvalidValue` for a digest of another name, and
/// `TooManyValues` for more than 64 key files.
pub fn read_words<'a>(alloc: Global, words: &'a [String]) -> Result<ListRequest<'a>, Error>
    ensures asked { IfOk result (IsAskedBy (list_values_in words.entry.now)) }
    ensures accepted { OnOk result (fault_of list_command (map string_bytes words.entry.now) ≡ []) }
    ensures within { OnOk result (is_within_limits (list_values_in words.entry.now) ≡ true) }
    ensures refused { IfErr result (λ e. takes list_command (map string_bytes words.entry.now) ≡ true → is_within_limits (list_values_in words.entry.now) ≡ true → kind_of e ≡ ErrorKind.OutOfMemory) }
{
    let matches = command(alloc)?.try_get_matches_from(words)?;
    let key_files = key_files_in(alloc, &matches)?;
    let digest = within_limits(alloc, digest_in(&matches), key_files.len())?;
    Ok(asked_by(&matches, key_files, digest))
}
