// The listing of one log.

ghost use Rattle.std.specs.Prelude.{◌≡◌, ◌≢◌, ◌≤◌, ◌⊎◌, ◌++◌, [], ℕ, List, Ok, Err, Option, IfErr, IsErrAnd, IsErrOf, OnOk, MatchResult, string_bytes};
ghost use Rattle.io_core.specs.Told.{Told};
ghost use Rattle.io_core.specs.Stream.{IsPartlyGiven, extended};
ghost use Rattle.binlog_cli.specs.EventLines.{end_line};
ghost use Rattle.binlog_cli.specs.Printed.{IsPrinted};
ghost use Rattle.binlog_cli.specs.Listing.{HasLogListing, IsStoppedAt, refused_place};
ghost use Rattle.binlog_cli.specs.Stops.{FileCauses, IsListStop, IsLogStop, IsStatusOfPresent, PrintCauses, first_stop, list_status_of, log_stop};

use crate::ListStatus;
use crate::lines::{end_line, event_lines};
use crate::printing::{give_text, print_lines};
use crate::status::{first_stop, log_stop, refused_place};
use binlog_text::{BinlogFault, LogReader};
use io_core::{Library, Sink};
use key_ring::Ring;
use std::alloc::Global;

/// Where the first event of a log begins.
const FIRST_EVENT: u64 = 4;

// Gives what is left of the text, and the line of the end.
fn end_of_log<K: Sink>(
    alloc: Global,
    text: &mut String,
    length: u64,
    out: &mut K,
) -> Result<(), ListStatus>
    ensures printed { (before : Option (List ℕ)) (front : List ℕ) → IsPrinted front before (K.given out.old) (string_bytes text.old)
        → MatchResult result (λ _. K.given out.new ≡ extended (front ++ end_line length) before) (λ _. IsPartlyGiven (front ++ end_line length) before (K.given out.new)) }
    ensures stop { IfErr result IsListStop }
    ensures cause { PrintCauses (K.faults out.old) (K.faults out.new) result }
    ensures no_out_fault { list_status_of result ≢ ListStatus.OutFault → K.faults out.new ≡ K.faults out.old }
    ensures refusals_later { K.memory_refusals out.old ≤ K.memory_refusals out.new }
    ensures no_refusal { OnOk result (K.memory_refusals out.new ≡ K.memory_refusals out.old) }
    ensures inside { result ≢ Err ListStatus.FileFault }
{
    let line = end_line(alloc, length)?;
    text.push_str(line.as_str())?;
    give_text(out, text.as_str())
}

// Gives what is left of the text, and answers the fault. `reached`, where the event that is due begins,
// becomes the place of the refusal. A fault of the file stays the answer where the text can't be given.
fn end_by_fault<K: Sink>(
    text: &str,
    fault: BinlogFault,
    out: &mut K,
    reached: &mut u64,
) -> Result<(), ListStatus>
    ensures printed { (before : Option (List ℕ)) (front : List ℕ) → IsPrinted front before (K.given out.old) text.now
        → ((result ≡ Err (log_stop fault)) × (K.given out.new ≡ extended front before)) ⊎ (IsErrAnd result IsListStop × IsPartlyGiven front before (K.given out.new)) }
    ensures answer { ((result ≡ Err (log_stop fault)) × (reached.new ≡ refused_place reached.old fault)) ⊎ (((result ≡ Err ListStatus.OutFault) × (text.now ≢ []) × (reached.new ≡ reached.old)) ⊎ ((result ≡ Err ListStatus.OutOfMemory) × (reached.new ≡ reached.old))) }
    ensures cause { PrintCauses (K.faults out.old) (K.faults out.new) result }
    ensures no_out_fault { list_status_of result ≢ ListStatus.OutFault → list_status_of result ≢ ListStatus.FileFault → K.faults out.new ≡ K.faults out.old }
    ensures refusals_later { K.memory_refusals out.old ≤ K.memory_refusals out.new }
    ensures no_refusal { IsListStop (list_status_of result) ⊎ (K.memory_refusals out.new ≡ K.memory_refusals out.old) }
    ensures whole { text.now ≡ [] → result ≡ Err (log_stop fault) }
    ensures file_first { fault ≡ BinlogFault.FileFault → result ≡ Err ListStatus.FileFault }
{
    match give_text(out, text) {
        Ok(()) => {
            *reached = refused_place(*reached, fault);
            Err(log_stop(fault))
        }
        Err(stop) => Err(first_stop(fault, stop)),
    }
}

/// Lists the events of the log of a name, with their bytes where `is_hex` says so. `reached` becomes the
/// place where the listing stopped: behind the events that were read, or where the log is refused.
///
/// # Errors
/// `Log`, `FileFault`, `OutFault`, `OutOfMemory`.
pub(crate) fn list_log<L: Library, K: Sink>(
    alloc: Global,
    is_hex: bool,
    name: &str,
    ring: &Ring,
    files: &mut L,
    out: &mut K,
    reached: &mut u64,
) -> Result<(), ListStatus>
    ensures answer { Told (λ fs. HasLogListing is_hex ring.now (fs name.now) (K.given out.old) (K.given out.new) (list_status_of result)) (L.files files.old) }
    ensures stop { IfErr result IsLogStop }
    ensures same { L.files files.new ≡ L.files files.old }
    ensures library { FileCauses (L.faults files.old) (L.faults files.new) (L.absences files.old) (L.absences files.new) result }
    ensures sink { PrintCauses (K.faults out.old) (K.faults out.new) result }
    ensures no_file_fault { list_status_of result ≢ ListStatus.FileFault → L.faults files.new ≡ L.faults files.old }
    ensures no_out_fault { list_status_of result ≢ ListStatus.OutFault → list_status_of result ≢ ListStatus.FileFault → K.faults out.new ≡ K.faults out.old }
    ensures present { IsStatusOfPresent (list_status_of result) → L.absences files.new ≡ L.absences files.old }
    ensures refusals_later { L.memory_refusals files.old ≤ L.memory_refusals files.new }
    ensures out_refusals_later { K.memory_refusals out.old ≤ K.memory_refusals out.new }
    ensures no_refusal { IsListStop (list_status_of result) ⊎ (L.memory_refusals files.new ≡ L.memory_refusals files.old) }
    ensures no_out_refusal { IsListStop (list_status_of result) ⊎ (K.memory_refusals out.new ≡ K.memory_refusals out.old) }
    ensures due { IsErrOf result ListStatus.FileFault → L.failed_last files.new name.now }
    ensures reached { Told (λ fs. IsStoppedAt ring.now (fs name.now) (list_status_of result) reached.new) (L.files files.old) }
{
    let mut reader = LogReader::new(alloc);
    let mut text = String::new(alloc);
    *reached = FIRST_EVENT;
    'events: loop {
        match reader.next(files, name, ring) {
            Ok(Some(view)) => {
                *reached = view.end();
                let lines = event_lines(alloc, &view, is_hex)?;
                print_lines(&mut text, lines.as_str(), out)?;
            }
            Ok(None) => return end_of_log(alloc, &mut text, *reached, out),
            Err(fault) => return end_by_fault(text.as_str(), fault, out, reached),
        }
    }
}
