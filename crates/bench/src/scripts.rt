// The measurements of reading a script.
use crate::figure::timed;
use anyhow::{Result, bail};
use script_core::read_script;
use std::alloc::Global;
use std::io::Print;
use std::time::Clock;

/// The bytes of the longest script.
const LONGEST: usize = 1_048_576;

/// A statement of 105 bytes, which puts 43 bytes.
const LONG: &[u8] =
    b"mtr 10 put 5 1 38 41414141414141414141414141414141414141414141414141414141414141414141414141414141414141\n";

/// The same in 104 bytes.
const SHORT: &[u8] =
    b"mtr 1 put 5 1 38 41414141414141414141414141414141414141414141414141414141414141414141414141414141414141\n";

/// How many of each come to 5,000 statements and half of the longest script.
const LONG_LINES: usize = 4_288;

const SHORT_LINES: usize = 712;

fn push_lines(text: &mut Vec<u8>, line: &[u8], count: usize) -> Result<()> {
    for _ in 0..count {
        text.extend_from_slice(line)?;
    }
    Ok(())
}

fn push_half(text: &mut Vec<u8>) -> Result<()> {
    push_lines(text, LONG, LONG_LINES)?;
    push_lines(text, SHORT, SHORT_LINES)
}

// How many statements a script has.
fn statements_of(alloc: Global, text: &[u8]) -> Result<usize> {
    if text.len() > LONGEST {
        bail!("the script is too long");
    }
    let script = read_script(alloc, text)?;
    Ok(script.count())
}

/// Times the reading of a script of 5,000 statements in 524,288 bytes, and of one twice as long,
/// which has the most statements and the most bytes that a script may have.
pub fn measure(alloc: Global, rt: &(impl Print + Clock)) -> Result<()> {
    let mut text = Vec::new(alloc);
    push_half(&mut text)?;
    let half = timed!(
        rt,
        "script of 524288 bytes, read",
        text.len(),
        statements_of(alloc, &text)?
    );
    push_half(&mut text)?;
    let all = timed!(
        rt,
        "script of 1048576 bytes, read",
        text.len(),
        statements_of(alloc, &text)?
    );
    if half != 5_000 || all != 10_000 || text.len() != LONGEST {
        bail!("{half} and {all} statements are read");
    }
    Ok(())
}
