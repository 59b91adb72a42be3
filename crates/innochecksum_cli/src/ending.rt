// What is printed past the mismatches.
ghost use Rattle.std.specs.Prelude.{◌≡◌, ◌<◌, ◌++◌, [], ℕ, List, IfOk, OnOk, length, count_by, slice_index, string_bytes, if◌then◌else◌};
ghost use Rattle.innochecksum_cli.specs.Pages.{FilePage, is_of_kind};
ghost use Rattle.innochecksum_cli.specs.Lines.{kind_lines, summary, truncated_line};
ghost use Rattle.innochecksum_cli.specs.Tallies.{IsTally};
ghost use Rattle.innochecksum_cli.specs.Inspection.{ending, is_cut};

use crate::Options;
use crate::lines::{checked_line, ciphered_line, kind_line, truncated_line, unused_line};
use crate::looks::PageScan;
use crate::tally::Tally;
use std::alloc::{AllocError, Global};

/// The lines of the page types, of which `kinds` has the counts.
fn kind_lines(alloc: Global, kinds: &[u64]) -> Result<String, AllocError>
    ensures { IfOk result (λ text. (pages : List FilePage) → ((kind : ℕ) → kind < length kinds.now → slice_index kinds.now kind ≡ count_by (is_of_kind kind) pages)
        → string_bytes text ≡ kind_lines (length kinds.now) pages) }
{
    let mut text = String::new(alloc);
    for (kind, count) in kinds.iter().enumerate() {
        if *count > 0 {
            let line = kind_line(alloc, kind, *count)?;
            text.push_str(line.as_str())?;
        }
    }
    Ok(text)
}

/// What the pages are.
fn summary(alloc: Global, tally: &Tally) -> Result<String, AllocError>
    ensures { IfOk result (λ text. (pages : List FilePage) → IsTally pages tally.now → string_bytes text ≡ summary pages) }
{
    let mut text = kind_lines(alloc, &tally.kinds)?;
    let unused = unused_line(alloc, tally.unused)?;
    let ciphered = ciphered_line(alloc, tally.ciphered)?;
    text.push_str(unused.as_str())?;
    text.push_str(ciphered.as_str())?;
    Ok(text)
}

/// What the pages are, where that is asked for.
fn asked_summary(alloc: Global, options: &Options, tally: &Tally) -> Result<String, AllocError>
    ensures { IfOk result (λ text. (pages : List FilePage) → IsTally pages tally.now
        → string_bytes text ≡ (if options.now.summary then summary pages else [])) }
{
    if options.summary {
        summary(alloc, tally)
    } else {
        Ok(String::new(alloc))
    }
}

/// Whether the file ends within a page that is asked for.
pub fn is_cut(options: &Options, whole: u64, rest: u64) -> bool
    ensures { result ≡ is_cut options.now whole rest }
{
    rest != 0 && options.first <= whole && whole <= options.last
}

/// That the file ends within a page, where it does.
fn cut_text(alloc: Global, options: &Options, whole: u64, rest: u64) -> Result<String, AllocError>
    ensures { IfOk result (λ text. string_bytes text ≡ (if is_cut options.now whole rest then truncated_line whole rest else [])) }
{
    if is_cut(options, whole, rest) {
        truncated_line(alloc, whole, rest)
    } else {
        Ok(String::new(alloc))
    }
}

/// The summary where it is asked for, how many pages were looked at, and whether the file ends within
/// a page that is asked for.
pub fn ending(alloc: Global, options: &Options, looked: &PageScan) -> Result<String, AllocError>
    ensures { IfOk result (λ text. (pages : List FilePage) → IsTally pages looked.now.tally
        → string_bytes text ≡ ending options.now pages looked.now.whole looked.now.rest) }
{
    let tally = &looked.tally;
    let mut text = asked_summary(alloc, options, tally)?;
    let checked = checked_line(alloc, tally.checked, tally.mismatches)?;
    let cut = cut_text(alloc, options, looked.whole, looked.rest)?;
    text.push_str(checked.as_str())?;
    text.push_str(cut.as_str())?;
    Ok(text)
}
