// What the program ends with.
ghost use Rattle.std.specs.Prelude.{◌≡◌, [], IfOk, string_bytes};
ghost use Rattle.innochecksum_cli.specs.Stops.{check_exit_code};
ghost use Rattle.innochecksum_cli.specs.StatusLines.{head_text, status_line};

use crate::CheckStatus;
use space_head::HeadFault;
use std::alloc::{AllocError, Global};

/// What the program ends with.
#[derive(Drop)]
pub struct ProgramEnd {
    /// The number for the system.
    pub number: u8,
    /// The line for standard error, empty where there is none.
    pub line: String,
}

// The variant of a fault of page 0, and its numbers.
fn head_text(alloc: Global, fault: HeadFault) -> Result<String, AllocError>
    ensures { IfOk result (λ text. string_bytes text ≡ head_text fault) }
{
    match fault {
        HeadFault::NoMarker(flags) => format!(in alloc; "NoMarker {flags}"),
        HeadFault::FlagBits(flags) => format!(in alloc; "FlagBits {flags}"),
        HeadFault::PageSize(code) => format!(in alloc; "PageSize {code}"),
        HeadFault::Length { wanted, found } => format!(in alloc; "Length {wanted} {found}"),
        HeadFault::RecordType(kind) => format!(in alloc; "RecordType {kind}"),
        HeadFault::RecordLength(length) => format!(in alloc; "RecordLength {length}"),
        HeadFault::Mode(mode) => format!(in alloc; "Mode {mode}"),
    }
}

// The line for a page 0 that is refused.
fn head_line(alloc: Global, fault: HeadFault) -> Result<String, AllocError>
    ensures { IfOk result (λ line. string_bytes line ≡ status_line (CheckStatus.Head fault) []) }
{
    let text = head_text(alloc, fault)?;
    format!(in alloc; "innochecksum: head {text}\n")
}

// The line of a status, `name` being the file's.
fn status_line(alloc: Global, status: CheckStatus, name: &str) -> Result<String, AllocError>
    ensures { IfOk result (λ line. string_bytes line ≡ status_line status name.now) }
{
    match status {
        CheckStatus::Done => Ok(String::new(alloc)),
        CheckStatus::Mismatch => format!(in alloc; "innochecksum: mismatch {name}\n"),
        CheckStatus::Truncated => format!(in alloc; "innochecksum: truncated {name}\n"),
        CheckStatus::Short(bytes) => format!(in alloc; "innochecksum: short {bytes}\n"),
        CheckStatus::Head(fault) => head_line(alloc, fault),
        CheckStatus::Usage => String::from_str(alloc, "innochecksum: usage\n"),
        CheckStatus::Missing => format!(in alloc; "innochecksum: missing {name}\n"),
        CheckStatus::FileFault => format!(in alloc; "innochecksum: file fault {name}\n"),
        CheckStatus::OutFault => String::from_str(alloc, "innochecksum: output fault\n"),
        CheckStatus::OutOfMemory => String::from_str(alloc, "innochecksum: out of memory\n"),
    }
}

/// What a status comes to, `name` being the file's. `Done` has no line.
pub fn end_with(alloc: Global, status: CheckStatus, name: &str) -> Result<ProgramEnd, AllocError>
    ensures number { IfOk result (λ ended. ended.number ≡ check_exit_code status) }
    ensures line { IfOk result (λ ended. string_bytes ended.line ≡ status_line status name.now) }
{
    let line = status_line(alloc, status, name)?;
    Ok(ProgramEnd {
        number: status.number(),
        line,
    })
}
