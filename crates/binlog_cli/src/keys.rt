// The keys that the words name.

ghost use Rattle.std.specs.Prelude.{◌≡◌, ◌≢◌, ◌≤◌, ◌⊎◌, ℕ, List, Ok, Err, IfErr, MatchResult, OnOk, map, string_bytes, vec_len};
ghost use Rattle.std.specs.Option.{option_copied};
ghost use Rattle.io_core.specs.Told.{Told};
ghost use Rattle.key_file.specs.Loaded.{IsDue};
ghost use Rattle.key_file.specs.declared.load_fault.LoadFault.{LoadFault};
ghost use Rattle.binlog_cli.specs.Keys.{IsOneLoad};
ghost use Rattle.binlog_cli.specs.Stops.{FileCauses, IsKeyStop, IsListStop, IsStatusOfPresent};

use crate::status::key_stop;
use crate::{ListRequest, ListStatus};
use io_core::Library;
use key_file::load;
use key_ring::Ring;
use std::alloc::Global;

/// The ring of the keys of the key files that are asked for, which is empty where there are none.
///
/// # Errors
/// `Key`, `FileFault`, `OutOfMemory`.
pub(crate) fn load_ring<L: Library>(
    alloc: Global,
    asked: &ListRequest<'_>,
    files: &mut L,
) -> Result<Ring, ListStatus>
    requires { vec_len asked.now.key_files ≤ 64 }
    ensures loads { Told (λ fs. MatchResult result (λ ring. IsOneLoad fs (option_copied asked.now.filekey) asked.now.digest (map string_bytes asked.now.key_files.items) (Ok ring))
        (λ status. IsListStop status ⊎ ((fault : LoadFault) × (status ≡ ListStatus.Key fault) × IsOneLoad fs (option_copied asked.now.filekey) asked.now.digest (map string_bytes asked.now.key_files.items) (Err fault)))) (L.files files.old) }
    ensures stop { IfErr result IsKeyStop }
    ensures same { L.files files.new ≡ L.files files.old }
    ensures library { FileCauses (L.faults files.old) (L.faults files.new) (L.absences files.old) (L.absences files.new) result }
    ensures no_fault { OnOk result (L.faults files.new ≡ L.faults files.old) }
    ensures no_fault_at_refusal { IfErr result (λ status. status ≢ ListStatus.FileFault → L.faults files.new ≡ L.faults files.old) }
    ensures present { OnOk result (L.absences files.new ≡ L.absences files.old) }
    ensures present_at_refusal { IfErr result (λ status. IsStatusOfPresent status → L.absences files.new ≡ L.absences files.old) }
    ensures refusals_later { L.memory_refusals files.old ≤ L.memory_refusals files.new }
    ensures no_refusal { OnOk result (L.memory_refusals files.new ≡ L.memory_refusals files.old) }
    ensures no_refusal_at_fault { IfErr result (λ status. IsListStop status ⊎ (L.memory_refusals files.new ≡ L.memory_refusals files.old)) }
    ensures due { result ≡ Err ListStatus.FileFault → Told (λ fs. (due : List ℕ) × IsDue fs (option_copied asked.now.filekey) asked.now.digest 0 (map string_bytes asked.now.key_files.items) due × L.failed_last files.new due) (L.files files.old) }
{
    match load(alloc, files, &asked.key_files, asked.filekey, asked.digest) {
        Ok(ring) => Ok(ring),
        Err(fault) => Err(key_stop(fault)),
    }
}
