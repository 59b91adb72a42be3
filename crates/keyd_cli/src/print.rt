// What a drill prints.
ghost use Rattle.std.specs.Prelude.{◌≡◌, ◌++◌, IfOk, OnOk, map};
ghost use Rattle.std.specs.Fmt.{decimal};
ghost use Rattle.keyd_cli.specs.Printed.{letter_of, stop_text, session_text};

use cause_core::OutOfMemory;
use disk_model::Choice;
use std::alloc::{AllocError, Global};

fn push_number(text: &mut Vec<u8>, n: u64) -> Result<(), AllocError>
    ensures { OnOk result (text.new.items ≡ text.old.items ++ decimal n) }
{
    let mut buffer = itoa::Buffer::new();
    text.extend_from_slice(buffer.format(n).as_bytes())
}

fn push_stop(text: &mut Vec<u8>, stopped: Option<u64>) -> Result<(), AllocError>
    ensures { OnOk result (text.new.items ≡ text.old.items ++ stop_text stopped) }
{
    match stopped {
        Some(turn) => push_number(text, turn),
        None => text.extend_from_slice(b"end"),
    }
}

fn letter(choice: Choice) -> u8
    ensures { result ≡ letter_of choice }
{
    match choice {
        Choice::Lost => b'l',
        Choice::Kept => b'k',
        Choice::Torn => b't',
    }
}

fn push_choices(text: &mut Vec<u8>, choices: &[Choice]) -> Result<(), AllocError>
    ensures { OnOk result (text.new.items ≡ text.old.items ++ map letter_of choices.now) }
{
    for choice in choices {
        text.push(letter(*choice))?;
    }
    Ok(())
}

/// The lines of a session of a drill.
pub fn session_lines(
    alloc: Global,
    stopped: Option<u64>,
    choices: &[Choice],
    journal: u64,
    acked: u64,
    kept: u64,
) -> Result<Vec<u8>, OutOfMemory>
    ensures { IfOk result (λ text. text.items ≡ session_text stopped choices.now journal acked kept) }
{
    let mut text = b"crash ".to_vec(alloc)?;
    push_stop(&mut text, stopped)?;
    text.extend_from_slice(b" choice ")?;
    push_choices(&mut text, choices)?;
    text.extend_from_slice(b"\njournal ")?;
    push_number(&mut text, journal)?;
    text.extend_from_slice(b" acked ")?;
    push_number(&mut text, acked)?;
    text.extend_from_slice(b" kept ")?;
    push_number(&mut text, kept)?;
    text.extend_from_slice(b"\n")?;
    Ok(text)
}
