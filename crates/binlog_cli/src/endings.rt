// What the program ends with.

ghost use Rattle.std.specs.Prelude.{◌≡◌, ◌++◌, [], None, IfOk, codes, string_bytes};
ghost use Rattle.std.specs.Option.{option_copied};
ghost use Rattle.binlog_cli.specs.Stops.{list_exit_code};
ghost use Rattle.binlog_cli.specs.EndLines.{failed_file, file_fault_line, key_fault_text, log_fault_text, list_status_line, place_text, refusal_line};

use crate::{ListOutcome, ListStatus};
use binlog_text::BinlogFault;
use key_file::{KeyFault, LoadFault};
use std::alloc::{AllocError, Global};

/// What the program ends with.
#[derive(Drop)]
pub struct ListEnd {
    /// The number for the system.
    pub number: u8,
    /// The line for standard error, empty where there is none.
    pub line: String,
}

// The variant of a fault of a log, and its numbers.
fn log_fault_text(alloc: Global, fault: BinlogFault) -> Result<String, AllocError>
    ensures { IfOk result (λ text. string_bytes text ≡ log_fault_text fault) }
{
    match fault {
        BinlogFault::Missing => String::from_str(alloc, "Missing"),
        BinlogFault::BadMagic => String::from_str(alloc, "BadMagic"),
        BinlogFault::ShortEvent { at, wanted, found } => {
            format!(in alloc; "ShortEvent {at} {wanted} {found}")
        }
        BinlogFault::BadLength { at, length } => format!(in alloc; "BadLength {at} {length}"),
        BinlogFault::NoFormat { kind } => format!(in alloc; "NoFormat {kind}"),
        BinlogFault::Algorithm(number) => format!(in alloc; "Algorithm {number}"),
        BinlogFault::Scheme(number) => format!(in alloc; "Scheme {number}"),
        BinlogFault::MissingKey { version } => format!(in alloc; "MissingKey {version}"),
        BinlogFault::Checksum {
            at,
            stored,
            computed,
        } => format!(in alloc; "Checksum {at} {stored} {computed}"),
        BinlogFault::FileFault => String::from_str(alloc, "FileFault"),
        BinlogFault::OutOfMemory => String::from_str(alloc, "OutOfMemory"),
    }
}

// The variant of a fault of a key file, and its numbers.
fn key_fault_text(alloc: Global, fault: KeyFault) -> Result<String, AllocError>
    ensures { IfOk result (λ text. string_bytes text ≡ key_fault_text fault) }
{
    match fault {
        KeyFault::NoDigits(line) => format!(in alloc; "NoDigits {line}"),
        KeyFault::IdRange(line) => format!(in alloc; "IdRange {line}"),
        KeyFault::NoSemicolon(line) => format!(in alloc; "NoSemicolon {line}"),
        KeyFault::KeyLength(line, digits) => format!(in alloc; "KeyLength {line} {digits}"),
        KeyFault::NoKeyOne => String::from_str(alloc, "NoKeyOne"),
        KeyFault::TooLarge => String::from_str(alloc, "TooLarge"),
        KeyFault::NoSecret => String::from_str(alloc, "NoSecret"),
        KeyFault::SecretTooLarge => String::from_str(alloc, "SecretTooLarge"),
        KeyFault::BadSecret(bytes) => format!(in alloc; "BadSecret {bytes}"),
        KeyFault::ShortSalted(bytes) => format!(in alloc; "ShortSalted {bytes}"),
        KeyFault::CipherLength(bytes) => format!(in alloc; "CipherLength {bytes}"),
        KeyFault::Padding => String::from_str(alloc, "Padding"),
        KeyFault::OutOfMemory => String::from_str(alloc, "OutOfMemory"),
    }
}

// The place of the log that was reached.
fn place_text(alloc: Global, reached: Option<u64>) -> Result<String, AllocError>
    ensures { IfOk result (λ text. string_bytes text ≡ place_text reached) }
{
    match reached {
        Some(place) => format!(in alloc; " at {place}"),
        None => Ok(String::new(alloc)),
    }
}

// The line of a refusal of a log.
fn refusal_line(
    alloc: Global,
    fault: BinlogFault,
    reached: Option<u64>,
) -> Result<String, AllocError>
    ensures { IfOk result (λ line. string_bytes line ≡ refusal_line fault reached) }
{
    let place = place_text(alloc, reached)?;
    let text = log_fault_text(alloc, fault)?;
    format!(in alloc; "binlog: log{place}: {text}\n")
}

// The line of a fault of a log, which is named where it is missing.
fn log_line(
    alloc: Global,
    fault: BinlogFault,
    reached: Option<u64>,
    name: &str,
) -> Result<String, AllocError>
    ensures { IfOk result (λ line. string_bytes line ≡ list_status_line (ListStatus.Log fault) reached name.now None) }
{
    if let BinlogFault::Missing = fault {
        return format!(in alloc; "binlog: missing {name}\n");
    }
    refusal_line(alloc, fault, reached)
}

// The file that failed: by its name, where that is known, else the log, once that was reached.
fn failed_file<'a>(failed: Option<&'a str>, reached: Option<u64>, name: &'a str) -> &'a str
    ensures { result.now ≡ failed_file (option_copied failed.entry) reached name.entry.now }
{
    match (failed, reached) {
        (Some(failed), _) => failed,
        (None, Some(_)) => name,
        (None, None) => "the key files",
    }
}

// The line of a fault of a file.
fn file_line(
    alloc: Global,
    failed: Option<&str>,
    reached: Option<u64>,
    name: &str,
) -> Result<String, AllocError>
    ensures { IfOk result (λ line. string_bytes line ≡ file_fault_line (option_copied failed.entry) reached name.now) }
{
    let place = place_text(alloc, reached)?;
    let file = failed_file(failed, reached, name);
    format!(in alloc; "binlog: file fault in {file}{place}\n")
}

// The line of a cause that has no file, with the place of the log that was reached.
fn cause_line(alloc: Global, cause: &str, reached: Option<u64>) -> Result<String, AllocError>
    ensures { IfOk result (λ line. string_bytes line ≡ codes "binlog: " ++ (cause.now ++ (place_text reached ++ codes "\n"))) }
{
    let place = place_text(alloc, reached)?;
    format!(in alloc; "binlog: {cause}{place}\n")
}

// The line of a fault of the key files.
fn key_line(alloc: Global, fault: &LoadFault) -> Result<String, AllocError>
    ensures { IfOk result (λ line. string_bytes line ≡ list_status_line (ListStatus.Key fault.now) None [] None) }
{
    match fault {
        LoadFault::Missing(name) => format!(in alloc; "binlog: missing {name}\n"),
        LoadFault::FileFault => String::from_str(alloc, "binlog: file fault in the key files\n"),
        LoadFault::KeyFile { index, fault } => {
            let text = key_fault_text(alloc, *fault)?;
            format!(in alloc; "binlog: key file {index}: {text}\n")
        }
        LoadFault::OutOfMemory => String::from_str(alloc, "binlog: out of memory\n"),
    }
}

// The line of a status, `name` being the log's.
fn status_line(
    alloc: Global,
    status: &ListStatus,
    reached: Option<u64>,
    name: &str,
    failed: Option<&str>,
) -> Result<String, AllocError>
    ensures { IfOk result (λ line. string_bytes line ≡ list_status_line status.now reached name.now (option_copied failed.entry)) }
{
    match status {
        ListStatus::Done => Ok(String::new(alloc)),
        ListStatus::Log(fault) => log_line(alloc, *fault, reached, name),
        ListStatus::Usage => String::from_str(alloc, "binlog: usage\n"),
        ListStatus::Key(fault) => key_line(alloc, fault),
        ListStatus::FileFault => file_line(alloc, failed, reached, name),
        ListStatus::OutFault => cause_line(alloc, "output fault", reached),
        ListStatus::OutOfMemory => cause_line(alloc, "out of memory", reached),
    }
}

/// What an outcome comes to, `name` being the log's, and `failed` that of the file that failed, where it
/// is known. `Done` has no line.
pub fn end_with(
    alloc: Global,
    outcome: &ListOutcome,
    name: &str,
    failed: Option<&str>,
) -> Result<ListEnd, AllocError>
    ensures number { IfOk result (λ ended. ended.number ≡ list_exit_code outcome.now.status) }
    ensures line { IfOk result (λ ended. string_bytes ended.line ≡ list_status_line outcome.now.status outcome.now.reached name.now (option_copied failed.entry)) }
{
    let line = status_line(alloc, &outcome.status, outcome.reached, name, failed)?;
    Ok(ListEnd {
        number: outcome.status.number(),
        line,
    })
}
