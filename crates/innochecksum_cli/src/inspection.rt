// The inspection of one file.
ghost use Rattle.std.specs.Prelude.{◌≡◌, ◌≢◌, ◌≤◌, ◌⊎◌, Err, ℕ, List, IsSome, IfOk, IfErr, length};
ghost use Rattle.space_head.specs.Head.{head_flags_at};
ghost use Rattle.space_head.specs.Sizes.{IsPageSize, page_size};
ghost use Rattle.io_core.specs.Told.{Told};
ghost use Rattle.innochecksum_cli.specs.Inspection.{Agrees, inspected, sized_report};
ghost use Rattle.innochecksum_cli.specs.Heads.{IsLengthAnswer, IsSizeAnswer};
ghost use Rattle.cause_core.specs.Counts.{Rose};
ghost use Rattle.byte_list.specs.Fields.{be32_at};
ghost use Rattle.innochecksum_cli.specs.Stops.{IsOutsideStatus, LibraryCauses, OfFile, SinkCauses, status_of};

use crate::ending::{ending, is_cut};
use crate::lines::pages_line;
use crate::looks::{give, look};
use crate::status::file_stop;
use crate::{CheckStatus, Options};
use byte_list::fields::be32_at;
use io_core::{Library, Sink};
use space_head::page_size;
use std::alloc::Global;

/// The least page size in bytes, of which a file has at least one page.
const LEAST: usize = 4096;

// Where the flags of a tablespace stand in its page 0, in bytes.
const FLAGS: usize = 54;

/// The greatest page size in bytes.
const MOST: usize = 65536;

/// The length of the file in bytes.
fn length_of<L: Library>(files: &mut L, name: &str) -> Result<u64, CheckStatus>
    ensures answer { Told (λ fs. IsLengthAnswer (fs name.now) result) (L.files files.old) }
    ensures statuses { IfErr result (λ status. (status ≡ CheckStatus.Missing) ⊎ IsOutsideStatus status) }
    ensures same { L.files files.new ≡ L.files files.old }
    ensures library { LibraryCauses (L.faults files.old) (L.faults files.new) (L.absences files.old) (L.absences files.new) result }
    ensures inside { result ≢ Err CheckStatus.OutFault }
{
    match files.length(name) {
        Ok(Some(bytes)) => Ok(bytes),
        Ok(None) => Err(CheckStatus::Missing),
        Err(e) => Err(file_stop(e)),
    }
}

/// The page size that the flags of page 0 name. `front` is as long as the least page.
fn size_of<L: Library>(files: &mut L, name: &str, front: &mut [u8]) -> Result<usize, CheckStatus>
    requires { length front.old ≡ LEAST }
    ensures answer { OfFile (λ file. LEAST ≤ length file → IsSizeAnswer (page_size (be32_at file head_flags_at)) result) name.now (L.files files.old) }
    ensures one_of_five { IfOk result IsPageSize }
    ensures words { result ≢ Err CheckStatus.Usage }
    ensures same { L.files files.new ≡ L.files files.old }
    ensures library { LibraryCauses (L.faults files.old) (L.faults files.new) (L.absences files.old) (L.absences files.new) result }
    ensures inside { result ≢ Err CheckStatus.OutFault }
{
    let count = match files.read(name, 0, front) {
        Ok(count) => count,
        Err(e) => return Err(file_stop(e)),
    };
    if count < front.len() {
        return Err(CheckStatus::Short(count as u64));
    }
    match page_size(be32_at(front, FLAGS)) {
        Ok(size) => Ok(size),
        Err(fault) => Err(CheckStatus::Head(fault)),
    }
}

/// Inspects a file whose page size is known, `page` being as long as the pages are.
fn inspect_pages<L: Library, K: Sink>(
    alloc: Global,
    options: &Options,
    name: &str,
    bytes: u64,
    page: &mut [u8],
    files: &mut L,
    out: &mut K,
) -> Result<(), CheckStatus>
    requires { IsPageSize (length page.old) }
    ensures answer { OfFile (λ file. bytes ≡ length file
        → Agrees (sized_report options.now file (length page.old)) (K.given out.old) (K.given out.new) (status_of result)) name.now (L.files files.old) }
    ensures same { L.files files.new ≡ L.files files.old }
    ensures library { LibraryCauses (L.faults files.old) (L.faults files.new) (L.absences files.old) (L.absences files.new) result }
    ensures sink { SinkCauses (K.faults out.old) (K.faults out.new) result }
    ensures words { result ≢ Err CheckStatus.Usage }
{
    let size = page.len() as u64;
    if bytes < size {
        return Err(CheckStatus::Short(bytes));
    }
    if options.count {
        let line = pages_line(alloc, bytes / size)?;
        return give(out, line.as_str());
    }
    let looked = look(alloc, options, name, bytes, page, files, out)?;
    let text = ending(alloc, options, &looked)?;
    give(out, text.as_str())?;
    if is_cut(options, looked.whole, looked.rest) {
        return Err(CheckStatus::Truncated);
    }
    Ok(())
}

fn inspect_file<L: Library, K: Sink>(
    alloc: Global,
    options: &Options,
    name: &str,
    files: &mut L,
    out: &mut K,
) -> Result<(), CheckStatus>
    ensures answer { Told (λ fs. Agrees (inspected options.now (fs name.now)) (K.given out.old) (K.given out.new) (status_of result)) (L.files files.old) }
    ensures same { L.files files.new ≡ L.files files.old }
    ensures library { LibraryCauses (L.faults files.old) (L.faults files.new) (L.absences files.old) (L.absences files.new) result }
    ensures sink { SinkCauses (K.faults out.old) (K.faults out.new) result }
    ensures words { result ≢ Err CheckStatus.Usage }
{
    let bytes = length_of(files, name)?;
    if bytes < LEAST as u64 {
        return Err(CheckStatus::Short(bytes));
    }
    let mut buffer = [0u8; MOST];
    let size = size_of(files, name, &mut buffer[..LEAST])?;
    let page = &mut buffer[..size];
    inspect_pages(alloc, options, name, bytes, page, files, out)
}

/// Inspects the file of a name as the options ask, and prints as it goes.
pub fn inspect<L: Library, K: Sink>(
    alloc: Global,
    options: &Options,
    name: &str,
    files: &mut L,
    out: &mut K,
) -> CheckStatus
    // The status is the report's and its text was given, or a fault or want of memory came after a front of it.
    ensures answer { Told (λ fs. Agrees (inspected options.now (fs name.now)) (K.given out.old) (K.given out.new) result) (L.files files.old) }
    // A file that is there, and no count that rose: the status is the report's, or memory was refused.
    ensures complete { Told (λ fs. IsSome (fs name.now) → ¬ Rose (L.faults files.old) (L.faults files.new) → ¬ Rose (K.faults out.old) (K.faults out.new)
        → (result ≡ (inspected options.now (fs name.now)).status) ⊎ (result ≡ CheckStatus.OutOfMemory)) (L.files files.old) }
    ensures same { L.files files.new ≡ L.files files.old }
    ensures library { LibraryCauses {T = Unit {0}} (L.faults files.old) (L.faults files.new) (L.absences files.old) (L.absences files.new) (Err result) }
    ensures sink { SinkCauses {T = Unit {0}} (K.faults out.old) (K.faults out.new) (Err result) }
    ensures words { result ≢ CheckStatus.Usage }
{
    match inspect_file(alloc, options, name, files, out) {
        Ok(()) => CheckStatus::Done,
        Err(status) => status,
    }
}
