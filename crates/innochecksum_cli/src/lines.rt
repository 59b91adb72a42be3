// The lines that are printed.
ghost use Rattle.std.specs.Prelude.{◌≡◌, ◌++◌, IfOk, OnOk, string_bytes};
ghost use Rattle.innochecksum_cli.specs.Lines.{checked_line, ciphered_line, kind_line, kind_name, mismatch_line, pages_line, stopped_line, truncated_line, unused_line};

use std::alloc::{AllocError, Global};

pub(crate) fn pages_line(alloc: Global, count: u64) -> Result<String, AllocError>
    ensures { IfOk result (λ line. string_bytes line ≡ pages_line count) }
{
    format!(in alloc; "pages {count}\n")
}

pub(crate) fn mismatch_line(
    alloc: Global,
    number: u64,
    stored: u32,
    computed: u32,
) -> Result<String, AllocError>
    ensures { IfOk result (λ line. string_bytes line ≡ mismatch_line number stored computed) }
{
    format!(in alloc; "page {number} stored {stored:08x} computed {computed:08x}\n")
}

pub(crate) fn stopped_line(
    alloc: Global,
    mismatches: u64,
    allowed: u64,
) -> Result<String, AllocError>
    ensures { IfOk result (λ line. string_bytes line ≡ stopped_line mismatches allowed) }
{
    format!(in alloc; "stopped mismatches {mismatches} allowed {allowed}\n")
}

pub(crate) fn checked_line(
    alloc: Global,
    checked: u64,
    mismatches: u64,
) -> Result<String, AllocError>
    ensures { IfOk result (λ line. string_bytes line ≡ checked_line checked mismatches) }
{
    format!(in alloc; "checked {checked} mismatches {mismatches}\n")
}

pub(crate) fn truncated_line(alloc: Global, number: u64, bytes: u64) -> Result<String, AllocError>
    ensures { IfOk result (λ line. string_bytes line ≡ truncated_line number bytes) }
{
    format!(in alloc; "truncated page {number} bytes {bytes}\n")
}

pub(crate) fn unused_line(alloc: Global, count: u64) -> Result<String, AllocError>
    ensures { IfOk result (λ line. string_bytes line ≡ unused_line count) }
{
    format!(in alloc; "unused {count}\n")
}

pub(crate) fn ciphered_line(alloc: Global, count: u64) -> Result<String, AllocError>
    ensures { IfOk result (λ line. string_bytes line ≡ ciphered_line count) }
{
    format!(in alloc; "ciphered {count}\n")
}

#[tactic(auto, unfolding(crate::specs::Lines::kind_name))]
fn kind_name(kind: usize) -> &'static str
    ensures { result.now ≡ kind_name kind }
{
    match kind {
        0 => "allocated",
        2 => "undo_log",
        3 => "inode",
        4 => "ibuf_free_list",
        5 => "ibuf_bitmap",
        6 => "sys",
        7 => "trx_sys",
        8 => "fsp_hdr",
        9 => "xdes",
        10 => "blob",
        17854 => "rtree",
        17855 => "index",
        _ => "other",
    }
}

pub(crate) fn kind_line(alloc: Global, kind: usize, count: u64) -> Result<String, AllocError>
    ensures { IfOk result (λ line. string_bytes line ≡ kind_line kind count) }
{
    let name = kind_name(kind);
    format!(in alloc; "type {kind} {name} {count}\n")
}
