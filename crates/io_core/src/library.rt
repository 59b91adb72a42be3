// Named files that are read.
ghost use Rattle.std.specs.Prelude.{◌≡◌, ◌≢◌, ◌≤◌, ℕ, List, length, Option, None, Ok, IfOk, OnOk, IsErrOf};
ghost use Rattle.std.specs.Option.{option_map};
ghost use Rattle.io_core.specs.Told.{Told};
ghost use Rattle.io_core.specs.Files.{Files, bytes_from, IsFilled};
ghost use Rattle.io_core.specs.Cause.{HasIoCause, HasIoMemoryCause, HasAbsence};

use crate::IoError;

/// Files that are read by name. No call changes them.
pub trait Library {
    /// Its files, where the library tells them.
    ghost files: { Self → Option Files };

    /// How often it has failed. The count never falls.
    ghost faults: { Self → ℕ };

    /// How often it was refused memory. The count never falls.
    ghost memory_refusals: { Self → ℕ };

    /// How often the length of a file was asked for that wasn't there. The count never falls.
    ghost absences: { Self → ℕ };

    /// Whether the call that failed last was for the file of this name. A library that doesn't keep
    /// the name lets it be any; code over every library can show it only of a file that it called for.
    ghost failed_last: { Self → List ℕ → Type 0 };

    /// The length of a file in bytes, and `None` where there is none of that name.
    ///
    /// # Errors
    /// `Failed` where the outside failed, `NoMemory` where it had no memory.
    fn length(&mut self, name: &str) -> Result<Option<u64>, IoError>
        ensures length { IfOk result (λ n. Told (λ fs. n ≡ option_map length (fs name.now)) (files self.old)) }
        ensures same { files self.new ≡ files self.old }
        ensures absence { HasAbsence (absences self.old) (absences self.new) result }
        ensures present { result ≢ Ok None → absences self.new ≡ absences self.old }
        ensures cause { HasIoCause (faults self.old) (faults self.new) result }
        ensures memory { HasIoMemoryCause (memory_refusals self.old) (memory_refusals self.new) result }
        ensures no_fault { OnOk result (faults self.new ≡ faults self.old) }
        ensures no_fault_at_want { IsErrOf result IoError.NoMemory → faults self.new ≡ faults self.old }
        ensures no_refusal { OnOk result (memory_refusals self.new ≡ memory_refusals self.old) }
        ensures failed_last { IsErrOf result IoError.Failed → failed_last self.new name.now };

    /// Fills the front of `into` with as many bytes as the file has from byte `at` on, at most
    /// `into.len()`, and returns how many; a name that isn't there has none. A library that tells its
    /// files leaves the rest of `into` as it was. A file that gives fewer bytes than `length`
    /// answered is taken to end there.
    ///
    /// # Errors
    /// `Failed` where the outside failed, `NoMemory` where it had no memory; `into` then holds any
    /// bytes.
    fn read(&mut self, name: &str, at: u64, into: &mut [u8]) -> Result<usize, IoError>
        ensures within { IfOk result (λ n. n ≤ length into.old) }
        ensures bytes { IfOk result (λ n. Told (λ fs. IsFilled (bytes_from at name.now fs) into.old n into.new) (files self.old)) }
        ensures same { files self.new ≡ files self.old }
        ensures absences { absences self.new ≡ absences self.old }
        ensures cause { HasIoCause (faults self.old) (faults self.new) result }
        ensures memory { HasIoMemoryCause (memory_refusals self.old) (memory_refusals self.new) result }
        ensures no_fault { OnOk result (faults self.new ≡ faults self.old) }
        ensures no_fault_at_want { IsErrOf result IoError.NoMemory → faults self.new ≡ faults self.old }
        ensures no_refusal { OnOk result (memory_refusals self.new ≡ memory_refusals self.old) }
        ensures failed_last { IsErrOf result IoError.Failed → failed_last self.new name.now };
}
