// How an adapter over std answers for what std answered.
ghost use Rattle.std.specs.Prelude.{◌≡◌, ◌↔◌, ◌≤◌, ◌<◌, length, take, IfOk, IfErr, IsErr, IsErrOf, OnOk};
ghost use Rattle.std.specs.IoError.{error_kind};
ghost use Rattle.std.specs.Io.KnownBytes.{Consumes, IsAtEnd, ReadConsumes};
ghost use Rattle.io_core.specs.Cause.{HasIoCause, HasIoMemoryCause};

use crate::IoError;
use std::io;
use std::io::{ErrorKind, Read};

/// How often an adapter over std has failed, and how often the system had no memory for it.
#[derive(Clone, Copy)]
pub struct Counts {
    pub faults: u64,
    pub memory_refusals: u64,
}

impl Counts {
    /// Both at 0.
    pub fn zero() -> Counts
        ensures faults { result.faults ≡ 0 }
        ensures memory_refusals { result.memory_refusals ≡ 0 }
    {
        Counts {
            faults: 0,
            memory_refusals: 0,
        }
    }

    /// Counts a failure of the outside.
    pub fn failed(&mut self) -> IoError
        ensures is { result ≡ IoError.Failed }
        ensures cause { HasIoCause {T = Unit {0}} self.old.faults self.new.faults (Err result) }
        ensures memory_refusals { self.new.memory_refusals ≡ self.old.memory_refusals }
    {
        self.faults = self.faults.saturating_add(1);
        IoError::Failed
    }

    /// Gives std's answer on, and counts its error. An error of kind `OutOfMemory` is `NoMemory`,
    /// every other one `Failed`.
    pub fn answer<T>(&mut self, outcome: io::Result<T>) -> Result<T, IoError>
        ensures ok { IfOk result (λ value. outcome ≡ Ok value) }
        ensures err { IsErr result ↔ IsErr outcome }
        ensures kind { IfErr outcome (λ e. (result ≡ Err IoError.NoMemory) ↔ (error_kind e ≡ ErrorKind.OutOfMemory)) }
        ensures unchanged { OnOk result (self.new ≡ self.old) }
        ensures cause { HasIoCause self.old.faults self.new.faults result }
        ensures memory { HasIoMemoryCause self.old.memory_refusals self.new.memory_refusals result }
        ensures no_fault_at_want { IsErrOf result IoError.NoMemory → self.new.faults ≡ self.old.faults }
    {
        match outcome {
            Ok(value) => Ok(value),
            Err(e) => {
                if e.kind() == ErrorKind::OutOfMemory {
                    self.memory_refusals = self.memory_refusals.saturating_add(1);
                    Err(IoError::NoMemory)
                } else {
                    Err(self.failed())
                }
            }
        }
    }
}

/// How often a read is tried that a signal interrupts.
const TRIES: u32 = 64;

/// Reads once, and again where a signal interrupted the read, `TRIES` times at most. Of a reader
/// that tells std its bytes, it takes those that it returns, and none at an error.
pub fn read_some<R: Read>(reader: &mut R, into: &mut [u8]) -> io::Result<usize>
    ensures within { IfOk result (λ n. n ≤ length into.old) }
    ensures bytes { ReadConsumes (R.remaining reader.old) (R.remaining reader.new) result into.new }
{
    for _ in 1..TRIES {
        match reader.read(into) {
            Err(e) if e.kind() == ErrorKind::Interrupted => {}
            outcome => return outcome,
        }
    }
    reader.read(into)
}

/// Reads until `into` is full or the reader ends, and returns how many bytes that were. Of a reader
/// that tells std its bytes, it takes those, and fewer than fit only where no more are left.
pub fn read_full<R: Read>(reader: &mut R, into: &mut [u8]) -> io::Result<usize>
    ensures within { IfOk result (λ n. n ≤ length into.old) }
    ensures bytes { IfOk result (λ n. Consumes (R.remaining reader.old) (R.remaining reader.new) (take n into.new)) }
    ensures full { IfOk result (λ n. n < length into.old → IsAtEnd (R.remaining reader.new)) }
{
    let mut filled = 0;
    while filled < into.len() {
        let count = read_some(reader, &mut into[filled..])?;
        if count == 0 {
            return Ok(filled);
        }
        filled += count;
    }
    Ok(filled)
}
