// A library in memory.
ghost use Rattle.std.specs.Prelude.{◌≡◌, ◌≢◌, ◌↔◌, ◌≤◌, ℕ, Some, None, Ok, All, [], length, IfOk, OnOk, OnErr, IsErr, IsErrOf};
ghost use Rattle.std.specs.Option.{option_map, option_copied};
ghost use Rattle.io_core.specs.Told.{Told};
ghost use Rattle.io_core.specs.Files.{bytes_from, IsFilled};
ghost use Rattle.io_core.specs.Cause.{HasIoCause, HasIoMemoryCause, HasAbsence};
ghost use Rattle.io_core.specs.Calls.{IsToFail, IsOneMore};
ghost use Rattle.io_core.specs.Memory.{files_of, NamesDiffer, listed};

use crate::bytes::{fill, rest_from};
use crate::calls::CountedCalls;
use crate::{IoError, Library};
use std::marker::Model;

/// A library of files in memory, which fails at the calls that it is made with. It tells its files.
#[derive(Drop)]
pub struct Shelf {
    files: Vec<(String, Vec<u8>)>,
    calls: CountedCalls,
    absences: u64,
}

impl Model for Shelf {
    ghost use Rattle.io_core.specs.Memory.{ShelfState, listed};

    ghost Value = { ShelfState };

    ghost view = { λ s. record { files = listed s.files.items; calls = s.calls; absences = s.absences } };
}

impl Shelf {
    /// A library of these files, whose names differ. `failing` lists the calls of `length` and
    /// `read`, counted together from 1, that answer `Failed`.
    pub fn new(files: Vec<(String, Vec<u8>)>, failing: Vec<u64>) -> Shelf
        requires { NamesDiffer (listed files.items) }
        ensures made { result ≡ record { files = listed files.items; calls = record { failing = failing.items; made = 0; faults = 0 }; absences = 0 } }

        // Each file of the list is the file of its name.
        ensures each { All (λ file. files_of result.files file.0 ≡ Some file.1) result.files }
    {
        Shelf {
            files,
            calls: CountedCalls::new(failing),
            absences: 0,
        }
    }
}

// The bytes of the file of this name.
fn bytes_of<'a>(files: &'a [(String, Vec<u8>)], name: &str) -> Option<&'a [u8]>
    ensures { option_copied result ≡ files_of (listed files.now) name.now }
{
    for (i, file) in files.iter().enumerate() {
        if file.0.as_str() == name {
            return Some(file.1.as_slice());
        }
    }
    None
}

impl Library for Shelf {
    ghost files = { λ s. Some (files_of s.files) };

    ghost faults = { λ s. s.calls.faults };

    ghost memory_refusals = { λ _. 0 };

    ghost absences = { λ s. s.absences };

    ghost failed_last = { λ _ _. Unit {0} };

    /// It answers `Failed` exactly at the listed calls, and never `NoMemory`.
    fn length(&mut self, name: &str) -> Result<Option<u64>, IoError>
        ensures length { IfOk result (λ n. Told (λ fs. n ≡ option_map length (fs name.now)) (Some (files_of self.old.files))) }
        ensures same { Some (files_of self.new.files) ≡ Some (files_of self.old.files) }
        ensures absence { HasAbsence self.old.absences self.new.absences result }
        ensures present { result ≢ Ok None → self.new.absences ≡ self.old.absences }
        ensures cause { HasIoCause self.old.calls.faults self.new.calls.faults result }
        ensures memory { HasIoMemoryCause 0 0 result }
        ensures no_fault { OnOk result (self.new.calls.faults ≡ self.old.calls.faults) }
        ensures no_fault_at_want { IsErrOf result IoError.NoMemory → self.new.calls.faults ≡ self.old.calls.faults }
        ensures no_refusal { OnOk result (◌≡◌ {A = ℕ} 0 0) }
        ensures failed_last { IsErrOf result IoError.Failed → Unit {0} }
        ensures failed { IsErr result ↔ IsToFail self.old.calls }
        ensures only { result ≢ Err IoError.NoMemory }
        ensures kept { self.new.files ≡ self.old.files }
        ensures one_more { IsOneMore self.old.calls self.new.calls }
    {
        self.calls.begin()?;
        let Some(bytes) = bytes_of(&self.files, name) else {
            self.absences = self.absences.saturating_add(1);
            return Ok(None);
        };
        Ok(Some(bytes.len() as u64))
    }

    /// A name that isn't there gives 0 bytes. It answers `Failed` exactly at the listed calls, which
    /// leave `into` as it was, and never `NoMemory`.
    fn read(&mut self, name: &str, at: u64, into: &mut [u8]) -> Result<usize, IoError>
        ensures within { IfOk result (λ n. n ≤ length into.old) }
        ensures bytes { IfOk result (λ n. Told (λ fs. IsFilled (bytes_from at name.now fs) into.old n into.new) (Some (files_of self.old.files))) }
        ensures same { Some (files_of self.new.files) ≡ Some (files_of self.old.files) }
        ensures absences { self.new.absences ≡ self.old.absences }
        ensures cause { HasIoCause self.old.calls.faults self.new.calls.faults result }
        ensures memory { HasIoMemoryCause 0 0 result }
        ensures no_fault { OnOk result (self.new.calls.faults ≡ self.old.calls.faults) }
        ensures no_fault_at_want { IsErrOf result IoError.NoMemory → self.new.calls.faults ≡ self.old.calls.faults }
        ensures no_refusal { OnOk result (◌≡◌ {A = ℕ} 0 0) }
        ensures failed_last { IsErrOf result IoError.Failed → Unit {0} }
        ensures failed { IsErr result ↔ IsToFail self.old.calls }
        ensures only { result ≢ Err IoError.NoMemory }
        ensures unread { OnErr result (into.new ≡ into.old) }
        ensures kept { self.new.files ≡ self.old.files }
        ensures one_more { IsOneMore self.old.calls self.new.calls }
    {
        self.calls.begin()?;
        let bytes = bytes_of(&self.files, name).unwrap_or(&[]);
        Ok(fill(into, rest_from(bytes, at as usize)))
    }
}
