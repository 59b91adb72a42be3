//! Drills a store: the program over `keyd_cli`. Its words name key files of the current folder and
//! what to drill, and the schedule is standard input. It prints on standard output, says how it ended
//! in a line on standard error where that isn't by being done, and ends with the status' number.
#![tactic(auto)]

use disk_model::FileDisk;
use io_core::{Folder, StdSink, StdSource};
use key_file::KeyFault;
use keyd_cli::{Status, check_words, keyd_now};
use rand::make_rng;
use rand::rngs::StdRng;
use std::alloc::{AllocError, Global};
use std::io::ErrorKind;
use std::process::ExitCode;
use std::rt::Env;
use std::{env, io};

const HELP: &str = "\
Usage: keyd drill --key-file NAME --space ID:PAGES:KEY:plain [OPTIONS]

Runs the statements of standard input on an empty store whose disk is in memory, crashes the disk,
and prints how the session ended and the pages that the store recovers.

Options of drill:
  --key-file NAME               a key file of the current folder, 1 to 64 times
  --filekey TEXT or FILE:NAME   the password of enciphered key files, or the file that has it
  --digest sha1|sha256          the digest of that password; sha1 where none is named
  --space ID:PAGES:KEY:plain    the tablespace: its id, its pages (2 to 16384) and its key id
  --stop TURN                   stops the disk at this write or sync of the session, from 1 on
  --choice LETTERS              what becomes of each unsynced write, in order: l lost, k kept,
                                t torn; the last letter serves the rest; l where none is named

  -h, --help                    prints this text
  -V, --version                 prints the version

Statements, a line each; lines that begin with # and empty lines are skipped:
  mtr SESSION put SPACE PAGE PLACE HEX
  sync
";

const VERSION: &str = "keyd 1.0.0\n";

fn main(rt: HostRuntime) -> ExitCode {
    let words = match words(&rt) {
        Ok(words) => words,
        Err(status) => return end(&rt, &status),
    };
    let status = match answer_to(&words) {
        Some(text) => tell(&rt, text),
        None => run(&rt, &words),
    };
    end(&rt, &status)
}

// The status of an error of the system, which is `fault` but for want of memory.
fn status_of(error: &io::Error, fault: Status) -> Status {
    if error.kind() == ErrorKind::OutOfMemory {
        Status::OutOfMemory
    } else {
        fault
    }
}

// The words without the program's name. The system tells that some word isn't UTF-8, and not which.
fn words(rt: &(impl Env + AllocGlobal)) -> Result<Vec<String>, Status> {
    let words = match env::args(rt) {
        Ok(words) => words,
        Err(error) => return Err(status_of(&error, Status::Usage(0))),
    };
    words
        .skip(1)
        .collect(rt.alloc())
        .map_err(|_: AllocError| Status::OutOfMemory)
}

// The text for a call for help or for the version.
fn answer_to(words: &[String]) -> Option<&'static str> {
    let [word] = words else {
        return None;
    };
    match word.as_str() {
        "--help" | "-h" => Some(HELP),
        "--version" | "-V" => Some(VERSION),
        _ => None,
    }
}

// Prints a text on standard output.
fn tell(rt: &impl Print, text: &str) -> Status {
    match rt.print(text) {
        Ok(()) => Status::Done,
        Err(error) => status_of(&error, Status::OutFault),
    }
}

// Does the command over the files of the current folder, standard input and standard output. A
// system without random bytes is a fault of the input, told only where the words are a command's.
fn run(rt: &HostRuntime, words: &[String]) -> Status {
    if let Err(index) = check_words(words) {
        return Status::Usage(index);
    }
    let mut rng: StdRng = match make_rng(rt) {
        Ok(rng) => rng,
        Err(error) => return status_of(&error, Status::InputFault),
    };
    let disk = FileDisk::new(rt.alloc(), rt);
    let mut files = Folder::new(rt.alloc(), rt);
    let mut input = StdSource::new(rt.stdin());
    let mut out = StdSink::new(io::writer(rt));
    let ended = keyd_now(
        rt.alloc(),
        words,
        disk,
        &mut files,
        &mut input,
        &mut out,
        &mut rng,
    );
    ended.status
}

// The name of a fault of a key file, and its numbers.
fn fault_text(alloc: Global, fault: KeyFault) -> Result<String, AllocError> {
    match fault {
        KeyFault::NoDigits(line) => format!(in alloc; "NoDigits {line}"),
        KeyFault::IdRange(line) => format!(in alloc; "IdRange {line}"),
        KeyFault::NoSemicolon(line) => format!(in alloc; "NoSemicolon {line}"),
        KeyFault::KeyLength(line, digits) => format!(in alloc; "KeyLength {line} {digits}"),
        KeyFault::NoKeyOne => String::from_str(alloc, "NoKeyOne"),
        KeyFault::TooLarge => String::from_str(alloc, "TooLarge"),
        KeyFault::NoSecret => String::from_str(alloc, "NoSecret"),
        KeyFault::SecretTooLarge => String::from_str(alloc, "SecretTooLarge"),
        KeyFault::BadSecret(bytes) => format!(in alloc; "BadSecret {bytes}"),
        KeyFault::ShortSalted(bytes) => format!(in alloc; "ShortSalted {bytes}"),
        KeyFault::CipherLength(bytes) => format!(in alloc; "CipherLength {bytes}"),
        KeyFault::Padding => String::from_str(alloc, "Padding"),
        KeyFault::OutOfMemory => String::from_str(alloc, "OutOfMemory"),
    }
}

// The line of a status, which is its `Display`, but that a key file's fault is told by its name.
fn status_line(alloc: Global, status: &Status) -> Result<String, AllocError> {
    match status {
        Status::KeyFile { index, fault } => {
            let fault = fault_text(alloc, *fault)?;
            format!(in alloc; "keyd: key file {index}: {fault}\n")
        }
        _ => format!(in alloc; "keyd: {status}\n"),
    }
}

// Prints the status' line where the status isn't Done, and answers its number.
fn end(rt: &(impl Eprint + AllocGlobal), status: &Status) -> ExitCode {
    if status.number() != 0 {
        match status_line(rt.alloc(), status) {
            Ok(line) => {
                let _ = rt.eprint(line.as_str());
            }
            Err(_) => return ExitCode::from(Status::OutOfMemory.number()),
        }
    }
    ExitCode::from(status.number())
}
