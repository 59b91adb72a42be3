// A library that keeps the name of the file at which it failed last.

ghost use Rattle.std.specs.Prelude.{◌≡◌, ℕ, List, IfSome, string_bytes};
ghost use Rattle.std.specs.Option.{option_copied};

use io_core::{IoError, Library};
use std::alloc::Global;

/// A library over another that keeps the name of the file whose call failed last, so that it can be told.
/// It is as the other in all else.
#[derive(Drop)]
pub struct NamingLibrary<L> {
    alloc: Global,
    files: L,
    failed: Option<String>,
}

impl<L: Library> NamingLibrary<L> {
    /// The same files. None has failed yet.
    pub fn new(alloc: Global, files: L) -> NamingLibrary<L>
        ensures files { ⟦<NamingLibrary<L> as Library>⟧.files result ≡ L.files files }
        ensures faults { ⟦<NamingLibrary<L> as Library>⟧.faults result ≡ L.faults files }
        ensures memory_refusals { ⟦<NamingLibrary<L> as Library>⟧.memory_refusals result ≡ L.memory_refusals files }
        ensures absences { ⟦<NamingLibrary<L> as Library>⟧.absences result ≡ L.absences files }
    {
        NamingLibrary {
            alloc,
            files,
            failed: None,
        }
    }

    /// The name of the file whose call failed last. None where none has failed, and where there was no
    /// memory for the name.
    pub fn failed(&self) -> Option<&str>
        ensures { (name : List ℕ) → ⟦<NamingLibrary<L> as Library>⟧.failed_last self.now name → IfSome (option_copied result) (λ kept. kept ≡ name) }
    {
        match &self.failed {
            Some(name) => Some(name.as_str()),
            None => None,
        }
    }
}

// A copy of a name, where there is memory for it.
fn copied(alloc: Global, name: &str) -> Option<String>
    ensures { IfSome result (λ kept. string_bytes kept ≡ name.now) }
{
    match String::from_str(alloc, name) {
        Ok(copy) => Some(copy),
        Err(_) => None,
    }
}

impl<L: Library> Library for NamingLibrary<L> {
    ghost files = { λ s. L.files s.files };

    ghost faults = { λ s. L.faults s.files };

    ghost memory_refusals = { λ s. L.memory_refusals s.files };

    ghost absences = { λ s. L.absences s.files };

    ghost failed_last = { λ s name. IfSome s.failed (λ kept. string_bytes kept ≡ name) };

    fn length(&mut self, name: &str) -> Result<Option<u64>, IoError> {
        match self.files.length(name) {
            Ok(length) => Ok(length),
            Err(IoError::Failed) => {
                self.failed = copied(self.alloc, name);
                Err(IoError::Failed)
            }
            Err(IoError::NoMemory) => Err(IoError::NoMemory),
        }
    }

    fn read(&mut self, name: &str, at: u64, into: &mut [u8]) -> Result<usize, IoError> {
        match self.files.read(name, at, into) {
            Ok(count) => Ok(count),
            Err(IoError::Failed) => {
                self.failed = copied(self.alloc, name);
                Err(IoError::Failed)
            }
            Err(IoError::NoMemory) => Err(IoError::NoMemory),
        }
    }
}
