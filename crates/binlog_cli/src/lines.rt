// The lines that are printed.

ghost use Rattle.std.specs.Prelude.{◌≡◌, None, Some, IfOk, MatchOption, string_bytes};
ghost use Rattle.binlog_text.specs.Views.{event_of};
ghost use Rattle.binlog_cli.specs.EventLines.{cipher_label, end_line, event_line, event_lines, hex_line, known_type, type_text};

use binlog_text::EventView;
use std::alloc::{AllocError, Global};

// The name of an event's type, where it has one here.
fn known_type(kind: u8) -> Option<&'static str>
    ensures { MatchOption result (known_type kind ≡ None) (λ name. known_type kind ≡ Some name.now) }
{
    match kind {
        2 => Some("query"),
        3 => Some("stop"),
        4 => Some("rotate"),
        15 => Some("format_description"),
        16 => Some("xid"),
        160 => Some("annotate_rows"),
        161 => Some("checkpoint"),
        162 => Some("gtid"),
        163 => Some("gtid_list"),
        164 => Some("start_encryption"),
        _ => None,
    }
}

// The name of an event's type, or its number.
#[tactic(auto, unfolding(crate::specs::EventLines::type_text))]
fn type_text(alloc: Global, kind: u8) -> Result<String, AllocError>
    ensures { IfOk result (λ text. string_bytes text ≡ type_text kind) }
{
    match known_type(kind) {
        Some(name) => String::from_str(alloc, name),
        None => format!(in alloc; "type_{kind}"),
    }
}

// The version of the key under which an event is ciphered, or that it stands in clear.
fn cipher_label(alloc: Global, key: Option<u32>) -> Result<String, AllocError>
    ensures { IfOk result (λ text. string_bytes text ≡ cipher_label key) }
{
    match key {
        Some(version) => format!(in alloc; "key {version}"),
        None => String::from_str(alloc, "clear"),
    }
}

// The line of an event.
#[tactic(auto, unfolding(crate::specs::EventLines::event_line))]
fn event_line(alloc: Global, view: &EventView<'_>) -> Result<String, AllocError>
    ensures { IfOk result (λ line. string_bytes line ≡ event_line (event_of view.now)) }
{
    let kind = type_text(alloc, view.kind())?;
    let cipher = cipher_label(alloc, view.key())?;
    let place = view.place();
    let time = view.time();
    let server = view.server();
    let length = view.length();
    let next = view.next();
    let flags = view.flags();
    format!(in alloc;
        "{place} {kind} time {time} server {server} length {length} next {next} flags {flags} {cipher}\n"
    )
}

// The line of an event's bytes.
fn hex_line(alloc: Global, bytes: &[u8]) -> Result<String, AllocError>
    ensures { IfOk result (λ line. string_bytes line ≡ hex_line bytes.now) }
{
    let mut line = hex::encode(alloc, bytes)?;
    line.push_str("\n")?;
    Ok(line)
}

/// The lines of an event: with `is_hex` also its bytes.
#[tactic(auto, unfolding(crate::specs::EventLines::event_lines))]
pub(crate) fn event_lines(
    alloc: Global,
    view: &EventView<'_>,
    is_hex: bool,
) -> Result<String, AllocError>
    ensures { IfOk result (λ lines. string_bytes lines ≡ event_lines is_hex (event_of view.now)) }
{
    let mut lines = event_line(alloc, view)?;
    if is_hex {
        let bytes = hex_line(alloc, view.bytes())?;
        lines.push_str(bytes.as_str())?;
    }
    Ok(lines)
}

/// The last line of a log of this length in bytes.
pub(crate) fn end_line(alloc: Global, length: u64) -> Result<String, AllocError>
    ensures { IfOk result (λ line. string_bytes line ≡ end_line length) }
{
    format!(in alloc; "end {length}\n")
}
