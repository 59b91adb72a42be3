// Reading the pages of a file one at a time, and checking each.
ghost use Rattle.std.specs.Prelude.{◌≡◌, ◌≢◌, ◌+◌, ◌*◌, ◌/◌, ◌%◌, ◌-◌, ◌^◌, ◌<◌, ◌≤◌, ◌++◌, ◌∷◌, [], ℕ, List, Ok, Err, length, take, drop, string_bytes, IfOk, IfErr, OnOk, OnErr, MatchResult};
ghost use Rattle.space_head.specs.Sizes.{IsPageSize};
ghost use Rattle.page_text.specs.State.{IsState};
ghost use Rattle.io_core.specs.Stream.{IsPartlyGiven, extended};
ghost use Rattle.innochecksum_cli.specs.Pages.{FilePage, nth_page, whole_pages};
ghost use Rattle.innochecksum_cli.specs.Lines.{line_of_page, stopped_line};
ghost use Rattle.innochecksum_cli.specs.Tallies.{IsTally};
ghost use Rattle.innochecksum_cli.specs.Inspection.{Agrees, report_of, selected};
ghost use Rattle.innochecksum_cli.specs.Looks.{IsPageScan};
ghost use Rattle.innochecksum_cli.specs.Stops.{IsOutsideStatus, LibraryCauses, OfFile, SinkCauses};

use crate::lines::{mismatch_line, stopped_line};
use crate::status::{file_stop, out_stop};
use crate::tally::Tally;
use crate::{CheckStatus, Options};
use io_core::{Library, Sink};
use page_text::{PageState, check};
use std::alloc::Global;

/// What the pages that were looked at add up to, and where the file ends.
#[derive(Drop)]
pub struct PageScan {
    pub tally: Tally,
    /// How many whole pages the file has.
    pub whole: u64,
    /// How many bytes follow them.
    pub rest: u64,
}

/// Gives a text to the sink.
pub fn give<K: Sink>(out: &mut K, text: &str) -> Result<(), CheckStatus>
    ensures ok { OnOk result (K.given out.new ≡ extended text.now (K.given out.old)) }
    ensures err { OnErr result (IsPartlyGiven text.now (K.given out.old) (K.given out.new)) }
    ensures stop { IfErr result IsOutsideStatus }
    ensures cause { SinkCauses (K.faults out.old) (K.faults out.new) result }
    ensures inside { (result ≢ Err CheckStatus.FileFault) }
{
    match out.give(text.as_bytes()) {
        Ok(()) => Ok(()),
        Err(e) => Err(out_stop(e)),
    }
}

/// Reads a page, and returns how many bytes of it the file has.
fn read_page<L: Library>(
    files: &mut L,
    name: &str,
    number: u64,
    page: &mut [u8],
) -> Result<usize, CheckStatus>
    requires { number * length page.old < 2 ^ 64 }
    ensures bytes { OfFile (λ file. (number + 1) * length page.old ≤ length file → IfOk result (λ n. (n ≡ length page.old) × (page.new ≡ (nth_page (length page.old) file number).bytes))) name.now (L.files files.old) }
    ensures same { L.files files.new ≡ L.files files.old }
    ensures stop { IfErr result IsOutsideStatus }
    ensures cause { LibraryCauses (L.faults files.old) (L.faults files.new) (L.absences files.old) (L.absences files.new) result }
    ensures inside { result ≢ Err CheckStatus.OutFault }
{
    let at = number * page.len() as u64;
    match files.read(name, at, page) {
        Ok(count) => Ok(count),
        Err(e) => Err(file_stop(e)),
    }
}

/// Checks a page, and prints its line where the checksum isn't its own.
fn look_at<K: Sink>(
    alloc: Global,
    number: u64,
    page: &[u8],
    tally: &mut Tally,
    out: &mut K,
) -> Result<(), CheckStatus>
    requires { IsPageSize (length page.now) }
    ensures ok { OnOk result (K.given out.new ≡ extended (line_of_page (record { number = number; bytes = page.now })) (K.given out.old)) }
    ensures err { OnErr result (IsPartlyGiven (line_of_page (record { number = number; bytes = page.now })) (K.given out.old) (K.given out.new)) }
    ensures counts { (pages : List FilePage) → length pages + 1 < 2 ^ 64 → IsTally pages tally.old
        → IsTally (pages ++ record { number = number; bytes = page.now } ∷ []) tally.new }
    ensures stop { IfErr result IsOutsideStatus }
    ensures cause { SinkCauses (K.faults out.old) (K.faults out.new) result }
    ensures inside { result ≢ Err CheckStatus.FileFault }
{
    let state = check(page);
    tally.add(page, state);
    if let PageState::Bad { stored, computed } = state {
        let line = mismatch_line(alloc, number, stored, computed)?;
        give(out, line.as_str())?;
    }
    Ok(())
}

/// Prints that more mismatches than the permitted number were met.
fn stop<K: Sink>(
    alloc: Global,
    mismatches: u64,
    allowed: u64,
    out: &mut K,
) -> Result<(), CheckStatus>
    ensures ok { OnOk result (K.given out.new ≡ extended (stopped_line mismatches allowed) (K.given out.old)) }
    ensures err { OnErr result (IsPartlyGiven (stopped_line mismatches allowed) (K.given out.old) (K.given out.new)) }
    ensures stop { IfErr result IsOutsideStatus }
    ensures cause { SinkCauses (K.faults out.old) (K.faults out.new) result }
    ensures inside { result ≢ Err CheckStatus.FileFault }
{
    let line = stopped_line(alloc, mismatches, allowed)?;
    give(out, line.as_str())
}

/// Looks at the pages that are asked for, in order, up to the first mismatch past the permitted
/// number. `page` is as long as the pages are, and `bytes` is the file's length. A file that gives
/// fewer bytes is taken to end there.
pub fn look<L: Library, K: Sink>(
    alloc: Global,
    options: &Options,
    name: &str,
    bytes: u64,
    page: &mut [u8],
    files: &mut L,
    out: &mut K,
) -> Result<PageScan, CheckStatus>
    requires { IsPageSize (length page.old) }
    ensures answer { OfFile (λ file. bytes ≡ length file
        → let size = length page.old in let count = length file / size in let rest = length file % size in
        let pages = selected options.now (whole_pages size file) in
        MatchResult result (IsPageScan pages count rest options.now.allowed (K.given out.old) (K.given out.new))
        (Agrees (report_of options.now pages count rest) (K.given out.old) (K.given out.new))) name.now (L.files files.old) }
    ensures same { L.files files.new ≡ L.files files.old }
    ensures library { LibraryCauses (L.faults files.old) (L.faults files.new) (L.absences files.old) (L.absences files.new) result }
    ensures sink { SinkCauses (K.faults out.old) (K.faults out.new) result }
    ensures words { result ≢ Err CheckStatus.Usage }
{
    let size = page.len() as u64;
    let whole = bytes / size;
    let end = options.last.saturating_add(1).min(whole);
    let mut tally = Tally::new(alloc)?;
    for number in options.first..end {
        let count = read_page(files, name, number, page)?;
        if count < page.len() {
            return Ok(PageScan {
                tally,
                whole: number,
                rest: count as u64,
            });
        }
        look_at(alloc, number, page, &mut tally, out)?;
        if tally.mismatches > options.allowed {
            stop(alloc, tally.mismatches, options.allowed, out)?;
            return Err(CheckStatus::Mismatch);
        }
    }
    Ok(PageScan {
        tally,
        whole,
        rest: bytes % size,
    })
}
