// The whole tool, from its words on.

ghost use Rattle.std.specs.Prelude.{◌≡◌, ◌≢◌, ◌≤◌, ◌⊎◌, ℕ, List, [], Ok, Err, Some, None, Option, map, string_bytes, true, false, vec_len};
ghost use Rattle.cause_core.specs.Counts.{Rose};
ghost use Rattle.io_core.specs.Told.{Told};
ghost use Rattle.clap.specs.Words.{fault_of, kind_of, takes};
ghost use Rattle.binlog_cli.specs.Listing.{HasLogListing, IsOnlyListing, IsStoppedAt, Listing, ListsOne};
ghost use Rattle.binlog_cli.specs.Stops.{FileCauses, IsListStop, IsStatusOfPresent, PrintCauses};
ghost use Rattle.binlog_cli.specs.Words.{IsAskedBy, IsDueAt, IsEndedAt, IsWordsListing, ListValues, is_within_limits, list_command, list_values_in};

use crate::keys::load_ring;
use crate::listing::list_log;
use crate::{ListOutcome, ListRequest, ListStatus, read_words};
use clap::Error;
use clap::error::ErrorKind;
use io_core::{Library, Sink};
use key_ring::Ring;
use std::alloc::Global;

// Lists the log under the keys of a ring.
fn list_keyed<L: Library, K: Sink>(
    alloc: Global,
    asked: &ListRequest<'_>,
    ring: &Ring,
    files: &mut L,
    out: &mut K,
) -> ListOutcome
    ensures answer { Told (λ fs. HasLogListing asked.now.is_hex ring.now (fs asked.now.name.now) (K.given out.old) (K.given out.new) result.status) (L.files files.old) }
    ensures words { result.status ≢ ListStatus.Usage }
    ensures same { L.files files.new ≡ L.files files.old }
    ensures library { FileCauses {T = Unit {0}} (L.faults files.old) (L.faults files.new) (L.absences files.old) (L.absences files.new) (Err result.status) }
    ensures sink { PrintCauses {T = Unit {0}} (K.faults out.old) (K.faults out.new) (Err result.status) }
    ensures no_file_fault { result.status ≢ ListStatus.FileFault → L.faults files.new ≡ L.faults files.old }
    ensures no_out_fault { result.status ≢ ListStatus.OutFault → result.status ≢ ListStatus.FileFault → K.faults out.new ≡ K.faults out.old }
    ensures present { IsStatusOfPresent result.status → L.absences files.new ≡ L.absences files.old }
    ensures refusals_later { L.memory_refusals files.old ≤ L.memory_refusals files.new }
    ensures out_refusals_later { K.memory_refusals out.old ≤ K.memory_refusals out.new }
    ensures no_refusal { IsListStop result.status ⊎ (L.memory_refusals files.new ≡ L.memory_refusals files.old) }
    ensures no_out_refusal { IsListStop result.status ⊎ (K.memory_refusals out.new ≡ K.memory_refusals out.old) }
    ensures due { result.status ≡ ListStatus.FileFault → L.failed_last files.new asked.now.name.now }
    ensures reached { (place : ℕ) × (result.reached ≡ Some place) × Told (λ fs. IsStoppedAt ring.now (fs asked.now.name.now) result.status place) (L.files files.old) }
{
    let mut reached = 0;
    match list_log(
        alloc,
        asked.is_hex,
        asked.name,
        ring,
        files,
        out,
        &mut reached,
    ) {
        Ok(()) => ListOutcome {
            status: ListStatus::Done,
            reached: Some(reached),
        },
        Err(status) => ListOutcome {
            status,
            reached: Some(reached),
        },
    }
}

// Loads the keys, and lists the log.
fn list_asked<L: Library, K: Sink>(
    alloc: Global,
    asked: &ListRequest<'_>,
    files: &mut L,
    out: &mut K,
) -> ListOutcome
    requires { vec_len asked.now.key_files ≤ 64 }
    ensures answer { (values : ListValues) → IsAskedBy values asked.now → Told (λ fs. ListsOne (IsWordsListing values fs) (K.given out.old) (K.given out.new) result.status) (L.files files.old) }
    ensures same { L.files files.new ≡ L.files files.old }
    ensures library { FileCauses {T = Unit {0}} (L.faults files.old) (L.faults files.new) (L.absences files.old) (L.absences files.new) (Err result.status) }
    ensures sink { PrintCauses {T = Unit {0}} (K.faults out.old) (K.faults out.new) (Err result.status) }
    ensures no_file_fault { result.status ≢ ListStatus.FileFault → L.faults files.new ≡ L.faults files.old }
    ensures no_out_fault { result.status ≢ ListStatus.OutFault → result.status ≢ ListStatus.FileFault → K.faults out.new ≡ K.faults out.old }
    ensures present { IsStatusOfPresent result.status → L.absences files.new ≡ L.absences files.old }
    ensures refusals_later { L.memory_refusals files.old ≤ L.memory_refusals files.new }
    ensures out_refusals_later { K.memory_refusals out.old ≤ K.memory_refusals out.new }
    ensures no_refusal { IsListStop result.status ⊎ (L.memory_refusals files.new ≡ L.memory_refusals files.old) }
    ensures no_out_refusal { IsListStop result.status ⊎ (K.memory_refusals out.new ≡ K.memory_refusals out.old) }
    ensures due { (values : ListValues) → IsAskedBy values asked.now → result.status ≡ ListStatus.FileFault → Told (λ fs. (due : List ℕ) × IsDueAt values fs result.reached due × L.failed_last files.new due) (L.files files.old) }
    ensures reached { (values : ListValues) → IsAskedBy values asked.now → Told (λ fs. IsEndedAt values fs result.status result.reached) (L.files files.old) }
    ensures words { result.status ≢ ListStatus.Usage }
{
    match load_ring(alloc, asked, files) {
        Ok(ring) => list_keyed(alloc, asked, &ring, files, out),
        Err(status) => ListOutcome {
            status,
            reached: None,
        },
    }
}

/// Lists the events of the log that the words name, under the keys of the key files that they name, and
/// prints as it goes. The words come without the program's name. Beside its status it answers how far
/// the log was reached. After a fault of the log what was gathered of the listing is still given: where the
/// sink fails at that, a fault of the file stays the status, and any other fault of the log gives way to
/// `OutFault`.
pub fn list_binlog<L: Library, K: Sink>(
    alloc: Global,
    words: &[String],
    files: &mut L,
    out: &mut K,
) -> ListOutcome
    // `Usage` comes only for words that the command doesn't take, or that are beyond the limits.
    ensures usage { takes list_command (map string_bytes words.now) ≡ true → is_within_limits (list_values_in words.now) ≡ true → result.status ≢ ListStatus.Usage }
    // Words in which `clap` finds a fault, a call for help among them, are answered so.
    ensures untaken { fault_of list_command (map string_bytes words.now) ≢ [] → (result.status ≡ ListStatus.Usage) ⊎ (result.status ≡ ListStatus.OutOfMemory) }
    // And so are a digest of another name, and more than 64 key files.
    ensures beyond { is_within_limits (list_values_in words.now) ≡ false → (result.status ≡ ListStatus.Usage) ⊎ (result.status ≡ ListStatus.OutOfMemory) }
    // The status is the one listing's and its text was given; or a fault or want of memory came after a front of it.
    ensures answer { result.status ≢ ListStatus.Usage → Told (λ fs. ListsOne (IsWordsListing (list_values_in words.now) fs) (K.given out.old) (K.given out.new) result.status) (L.files files.old) }
    // Words that are taken, and no count that rose: the status is the listing's, or memory was refused.
    ensures complete { takes list_command (map string_bytes words.now) ≡ true → is_within_limits (list_values_in words.now) ≡ true → Told (λ fs.
        ¬ Rose (L.faults files.old) (L.faults files.new) → ¬ Rose (K.faults out.old) (K.faults out.new)
        → (result.status ≡ ListStatus.OutOfMemory) ⊎ ((listing : Listing) × IsOnlyListing (IsWordsListing (list_values_in words.now) fs) listing × (result.status ≡ listing.status))) (L.files files.old) }
    // For words that aren't taken nothing is given.
    ensures silent { result.status ≡ ListStatus.Usage → K.given out.new ≡ K.given out.old }
    ensures same { L.files files.new ≡ L.files files.old }
    ensures library { FileCauses {T = Unit {0}} (L.faults files.old) (L.faults files.new) (L.absences files.old) (L.absences files.new) (Err result.status) }
    ensures sink { PrintCauses {T = Unit {0}} (K.faults out.old) (K.faults out.new) (Err result.status) }
    // No other status hides a fault: a count of faults of the library rises only where the status is `FileFault`, and one of the
    // sink only where it is `OutFault`, or where the file failed first.
    ensures no_file_fault { result.status ≢ ListStatus.FileFault → L.faults files.new ≡ L.faults files.old }
    ensures no_out_fault { result.status ≢ ListStatus.OutFault → result.status ≢ ListStatus.FileFault → K.faults out.new ≡ K.faults out.old }
    // The count of absences of the library rises only where a file that is asked for is missing, and its count of refused memory, as
    // that of the sink, only where the status is a fault of one of them or want of memory.
    ensures present { IsStatusOfPresent result.status → L.absences files.new ≡ L.absences files.old }
    ensures refusals_later { L.memory_refusals files.old ≤ L.memory_refusals files.new }
    ensures out_refusals_later { K.memory_refusals out.old ≤ K.memory_refusals out.new }
    ensures no_refusal { IsListStop result.status ⊎ (L.memory_refusals files.new ≡ L.memory_refusals files.old) }
    ensures no_out_refusal { IsListStop result.status ⊎ (K.memory_refusals out.new ≡ K.memory_refusals out.old) }
    // A fault of the library is that of a file that was due.
    ensures due { result.status ≡ ListStatus.FileFault → Told (λ fs. (due : List ℕ) × IsDueAt (list_values_in words.now) fs result.reached due × L.failed_last files.new due) (L.files files.old) }
    // Where the log was reached: at its end, at the event that is refused, or behind those that were read. Bytes of the log
    // were due at a fault of it, and text at one of the output.
    ensures reached { Told (λ fs. IsEndedAt (list_values_in words.now) fs result.status result.reached) (L.files files.old) }
{
    match read_words(alloc, words) {
        Ok(asked) => list_asked(alloc, &asked, files, out),
        Err(e) => ListOutcome {
            status: refused(&e),
            reached: None,
        },
    }
}

/// As [`list_binlog`], and its status alone.
pub fn binlog<L: Library, K: Sink>(
    alloc: Global,
    words: &[String],
    files: &mut L,
    out: &mut K,
) -> ListStatus
    // `Usage` comes only for words that the command doesn't take, or that are beyond the limits.
    ensures usage { takes list_command (map string_bytes words.now) ≡ true → is_within_limits (list_values_in words.now) ≡ true → result ≢ ListStatus.Usage }
    // Words in which `clap` finds a fault, a call for help among them, are answered so.
    ensures untaken { fault_of list_command (map string_bytes words.now) ≢ [] → (result ≡ ListStatus.Usage) ⊎ (result ≡ ListStatus.OutOfMemory) }
    // And so are a digest of another name, and more than 64 key files.
    ensures beyond { is_within_limits (list_values_in words.now) ≡ false → (result ≡ ListStatus.Usage) ⊎ (result ≡ ListStatus.OutOfMemory) }
    // The status is the one listing's and its text was given; or a fault or want of memory came after a front of it.
    ensures answer { result ≢ ListStatus.Usage → Told (λ fs. ListsOne (IsWordsListing (list_values_in words.now) fs) (K.given out.old) (K.given out.new) result) (L.files files.old) }
    // Words that are taken, and no count that rose: the status is the listing's, or memory was refused.
    ensures complete { takes list_command (map string_bytes words.now) ≡ true → is_within_limits (list_values_in words.now) ≡ true → Told (λ fs.
        ¬ Rose (L.faults files.old) (L.faults files.new) → ¬ Rose (K.faults out.old) (K.faults out.new)
        → (result ≡ ListStatus.OutOfMemory) ⊎ ((listing : Listing) × IsOnlyListing (IsWordsListing (list_values_in words.now) fs) listing × (result ≡ listing.status))) (L.files files.old) }
    // For words that aren't taken nothing is given.
    ensures silent { result ≡ ListStatus.Usage → K.given out.new ≡ K.given out.old }
    ensures same { L.files files.new ≡ L.files files.old }
    ensures library { FileCauses {T = Unit {0}} (L.faults files.old) (L.faults files.new) (L.absences files.old) (L.absences files.new) (Err result) }
    ensures sink { PrintCauses {T = Unit {0}} (K.faults out.old) (K.faults out.new) (Err result) }
    // No other status hides a fault: a count of faults of the library rises only where the status is `FileFault`, and one of the
    // sink only where it is `OutFault`, or where the file failed first.
    ensures no_file_fault { result ≢ ListStatus.FileFault → L.faults files.new ≡ L.faults files.old }
    ensures no_out_fault { result ≢ ListStatus.OutFault → result ≢ ListStatus.FileFault → K.faults out.new ≡ K.faults out.old }
    // The count of absences of the library rises only where a file that is asked for is missing, and its count of refused memory, as
    // that of the sink, only where the status is a fault of one of them or want of memory.
    ensures present { IsStatusOfPresent result → L.absences files.new ≡ L.absences files.old }
    ensures refusals_later { L.memory_refusals files.old ≤ L.memory_refusals files.new }
    ensures out_refusals_later { K.memory_refusals out.old ≤ K.memory_refusals out.new }
    ensures no_refusal { IsListStop result ⊎ (L.memory_refusals files.new ≡ L.memory_refusals files.old) }
    ensures no_out_refusal { IsListStop result ⊎ (K.memory_refusals out.new ≡ K.memory_refusals out.old) }
    // How far the log was reached, if at all, is one place for both: the listing stopped there, where bytes of the log were due at a
    // fault of it and text at one of the output; and a fault of the library is that of a file that was due there.
    ensures ends { Told (λ fs. (reached : Option ℕ) × IsEndedAt (list_values_in words.now) fs result reached
        × (result ≡ ListStatus.FileFault → (due : List ℕ) × IsDueAt (list_values_in words.now) fs reached due × L.failed_last files.new due)) (L.files files.old) }
{
    let outcome = list_binlog(alloc, words, files, out);
    outcome.status
}

// What a parse that gave no matches ends with.
fn refused(e: &Error) -> ListStatus
    ensures memory { kind_of e.now ≡ ErrorKind.OutOfMemory → result ≡ ListStatus.OutOfMemory }
    ensures either { (result ≡ ListStatus.OutOfMemory) ⊎ (result ≡ ListStatus.Usage) }
{
    if e.kind() == ErrorKind::OutOfMemory {
        ListStatus::OutOfMemory
    } else {
        ListStatus::Usage
    }
}
