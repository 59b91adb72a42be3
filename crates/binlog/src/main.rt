//! Lists a binary log: the program over `binlog_cli`. Its words name the log and key files of the current
//! folder. It prints on standard output, says how it ended in a line on standard error where that isn't by
//! being done, and ends with the status' number.
#![tactic(auto)]

use binlog_cli::{ListOutcome, ListStatus, NamingLibrary, end_with, list_binlog, read_words};
use io_core::{Folder, StdSink};
use std::io::ErrorKind;
use std::process::ExitCode;
use std::rt::Env;
use std::{env, io};

fn main(rt: HostRuntime) -> ExitCode {
    let words = match words(&rt) {
        Ok(words) => words,
        Err(e) if e.kind() == ErrorKind::OutOfMemory => {
            return end_early(&rt, ListStatus::OutOfMemory);
        }
        Err(_) => return end_early(&rt, ListStatus::Usage),
    };
    let mut files = NamingLibrary::new(rt.alloc(), Folder::new(rt.alloc(), &rt));
    let mut out = StdSink::new(io::writer(&rt));
    let outcome = list_binlog(rt.alloc(), &words, &mut files, &mut out);
    match read_words(rt.alloc(), &words) {
        Ok(asked) => end(&rt, &outcome, asked.name, files.failed()),
        Err(e) if outcome.status.number() == ListStatus::Usage.number() => explain(&rt, &e),
        Err(_) => end(&rt, &outcome, "", files.failed()),
    }
}

// The words without the program's name.
fn words(rt: &(impl Env + AllocGlobal)) -> io::Result<Vec<String>> {
    let words = env::args(rt)?.skip(1).collect(rt.alloc())?;
    Ok(words)
}

// Prints the line of a status that the words came to, and answers its number.
fn end_early(rt: &(impl Eprint + AllocGlobal), status: ListStatus) -> ExitCode {
    let outcome = ListOutcome {
        status,
        reached: None,
    };
    end(rt, &outcome, "", None)
}

// Prints the outcome's line, and answers its number.
fn end(
    rt: &(impl Eprint + AllocGlobal),
    outcome: &ListOutcome,
    name: &str,
    failed: Option<&str>,
) -> ExitCode {
    match end_with(rt.alloc(), outcome, name, failed) {
        Ok(ended) => {
            let _ = rt.eprint(ended.line.as_str());
            ExitCode::from(ended.number)
        }
        Err(_) => ExitCode::from(ListStatus::OutOfMemory.number()),
    }
}

// Prints the text on a mistake in the words, on help or on the version, and answers its number.
fn explain(rt: &(impl Print + Eprint), e: &clap::Error) -> ExitCode {
    if e.print(rt).is_err() {
        return ExitCode::from(ListStatus::OutFault.number());
    }
    if e.use_stderr() {
        ExitCode::from(ListStatus::Usage.number())
    } else {
        ExitCode::SUCCESS
    }
}
