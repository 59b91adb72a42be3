// Reading a whole source or file, up to a limit of bytes.
ghost use Rattle.std.specs.Prelude.{◌≡◌, ◌≢◌, ◌≤◌, IfOk, OnOk, Ok, IsErrOf};
ghost use Rattle.cause_core.specs.Counts.{Rose};
ghost use Rattle.io_core.specs.Told.{Told};
ghost use Rattle.io_core.specs.Cause.{HasIoCause};
ghost use Rattle.io_core.specs.Stream.{IsLeftOf};
ghost use Rattle.io_core.specs.Whole.{IsOfSource, IsWithin, IsDrained, IsOfFile, IsFileWithin};

use crate::{IoError, Library, Source};
use std::alloc::Global;

/// What a source had.
#[derive(Debug, PartialEq, Eq, Drop)]
pub enum SourceContents {
    /// All its bytes.
    Whole(Vec<u8>),
    /// More bytes than the limit.
    TooLarge,
}

/// What a library had under a name.
#[derive(Debug, PartialEq, Eq, Drop)]
pub enum FileContents {
    /// All bytes of the file.
    Whole(Vec<u8>),
    /// The file has more bytes than the limit.
    TooLarge,
    /// There is no file of that name.
    Missing,
}

/// Takes all bytes of a source, of which there may be `limit`. After `TooLarge` at least one byte
/// past the limit was taken.
///
/// # Errors
/// `Failed` where the source failed, `NoMemory` where it or this call had no memory. Bytes that were
/// taken by then are lost.
pub fn read_all<S: Source>(
    alloc: Global,
    source: &mut S,
    limit: usize,
) -> Result<SourceContents, IoError>
    ensures contents { IfOk result (λ c. Told (λ bytes. IsOfSource limit bytes c) (S.left source.old)) }
    ensures within { IfOk result (IsWithin limit) }
    ensures drained { IfOk result (IsDrained (S.left source.new)) }
    ensures left { IsLeftOf (S.left source.old) (S.left source.new) }
    ensures cause { HasIoCause (S.faults source.old) (S.faults source.new) result }
    ensures memory_refusals { S.memory_refusals source.old ≤ S.memory_refusals source.new }
    ensures no_fault { OnOk result (S.faults source.new ≡ S.faults source.old) }
    ensures no_fault_at_want { IsErrOf result IoError.NoMemory → S.faults source.new ≡ S.faults source.old }
    ensures no_refusal { OnOk result (S.memory_refusals source.new ≡ S.memory_refusals source.old) }
{
    let mut bytes = Vec::new(alloc);
    let mut piece = [0u8; 4096];
    'pieces: loop {
        let count = source.take(&mut piece)?;
        if count == 0 {
            return Ok(SourceContents::Whole(bytes));
        }
        if count > limit - bytes.len() {
            return Ok(SourceContents::TooLarge);
        }
        bytes.extend_from_slice(&piece[..count])?;
    }
}

/// Reads the whole file of a name, which may have `limit` bytes. A file that gives fewer bytes than
/// its length is taken to end there.
///
/// # Errors
/// `Failed` where the library failed, `NoMemory` where it or this call had no memory.
pub fn read_file<L: Library>(
    alloc: Global,
    files: &mut L,
    name: &str,
    limit: usize,
) -> Result<FileContents, IoError>
    ensures contents { IfOk result (λ c. Told (λ fs. IsOfFile limit (fs name.now) c) (L.files files.old)) }
    ensures within { IfOk result (IsFileWithin limit) }
    ensures absent { result ≡ Ok FileContents.Missing → Rose (L.absences files.old) (L.absences files.new) }
    ensures same { L.files files.new ≡ L.files files.old }
    ensures absences { L.absences files.old ≤ L.absences files.new }
    ensures present { result ≢ Ok FileContents.Missing → L.absences files.new ≡ L.absences files.old }
    ensures cause { HasIoCause (L.faults files.old) (L.faults files.new) result }
    ensures memory_refusals { L.memory_refusals files.old ≤ L.memory_refusals files.new }
    ensures no_fault { OnOk result (L.faults files.new ≡ L.faults files.old) }
    ensures no_fault_at_want { IsErrOf result IoError.NoMemory → L.faults files.new ≡ L.faults files.old }
    ensures no_refusal { OnOk result (L.memory_refusals files.new ≡ L.memory_refusals files.old) }
    ensures failed_last { IsErrOf result IoError.Failed → L.failed_last files.new name.now }
{
    let Some(length) = files.length(name)? else {
        return Ok(FileContents::Missing);
    };
    if length > limit as u64 {
        return Ok(FileContents::TooLarge);
    }
    let mut bytes = vec![in alloc; 0u8; length as usize]?;
    let count = files.read(name, 0, &mut bytes)?;
    bytes.truncate(count);
    Ok(FileContents::Whole(bytes))
}
