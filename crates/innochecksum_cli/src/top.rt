// The whole tool, from its words on.
ghost use Rattle.std.specs.Prelude.{◌≡◌, ◌≢◌, ◌⊎◌, Err, [], map, string_bytes, true, IsSome};
ghost use Rattle.cause_core.specs.Counts.{Rose};
ghost use Rattle.io_core.specs.Told.{Told};
ghost use Rattle.clap.specs.Words.{fault_of, kind_of, takes};
ghost use Rattle.innochecksum_cli.specs.Inspection.{Agrees};
ghost use Rattle.innochecksum_cli.specs.Stops.{LibraryCauses, SinkCauses};
ghost use Rattle.innochecksum_cli.specs.Words.{command, inspect_words, file_name_of, values_in};

use crate::{CheckStatus, inspect, read_words};
use clap::Error;
use clap::error::ErrorKind;
use io_core::{Library, Sink};
use std::alloc::Global;

/// Inspects the file that the words name, as they ask for it, and prints as it goes. The words come
/// without the program's name.
pub fn innochecksum<L: Library, K: Sink>(
    alloc: Global,
    words: &[String],
    files: &mut L,
    out: &mut K,
) -> CheckStatus
    // `Usage` comes only for words that the command doesn't take.
    ensures usage { takes command (map string_bytes words.now) ≡ true → result ≢ CheckStatus.Usage }
    // Words in which `clap` finds a fault, a call for help among them, are answered so.
    ensures untaken { fault_of command (map string_bytes words.now) ≢ [] → (result ≡ CheckStatus.Usage) ⊎ (result ≡ CheckStatus.OutOfMemory) }
    // The status is the report's and its text was given, or a fault or want of memory came after a front of it.
    ensures answer { result ≢ CheckStatus.Usage → Told (λ fs. Agrees (inspect_words words.now fs) (K.given out.old) (K.given out.new) result) (L.files files.old) }
    // Words that are taken, a file that is there, and no count that rose: the status is the report's, or memory was refused.
    ensures complete { takes command (map string_bytes words.now) ≡ true → Told (λ fs. IsSome (fs (file_name_of (values_in words.now)))
        → ¬ Rose (L.faults files.old) (L.faults files.new) → ¬ Rose (K.faults out.old) (K.faults out.new)
        → (result ≡ (inspect_words words.now fs).status) ⊎ (result ≡ CheckStatus.OutOfMemory)) (L.files files.old) }
    // For words that aren't taken nothing is given.
    ensures silent { result ≡ CheckStatus.Usage → K.given out.new ≡ K.given out.old }
    ensures same { L.files files.new ≡ L.files files.old }
    ensures library { LibraryCauses {T = Unit {0}} (L.faults files.old) (L.faults files.new) (L.absences files.old) (L.absences files.new) (Err result) }
    ensures sink { SinkCauses {T = Unit {0}} (K.faults out.old) (K.faults out.new) (Err result) }
{
    match read_words(alloc, words) {
        Ok(asked) => inspect(alloc, &asked.options, asked.name, files, out),
        Err(e) => refused(&e),
    }
}

// What a parse that gave no matches ends with.
fn refused(e: &Error) -> CheckStatus
    ensures memory { kind_of e.now ≡ ErrorKind.OutOfMemory → result ≡ CheckStatus.OutOfMemory }
    ensures words { kind_of e.now ≢ ErrorKind.OutOfMemory → result ≡ CheckStatus.Usage }
    ensures either { (result ≡ CheckStatus.OutOfMemory) ⊎ (result ≡ CheckStatus.Usage) }
{
    if e.kind() == ErrorKind::OutOfMemory {
        CheckStatus::OutOfMemory
    } else {
        CheckStatus::Usage
    }
}
