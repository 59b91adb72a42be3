// A library over the files of the current folder.
ghost use Rattle.std.specs.Prelude.{◌≡◌, ◌≤◌, None, length, IfOk};

use crate::counts::{Counts, read_full};
use crate::{IoError, Library};
use std::alloc::Global;
use std::fs::OpenFile;
use std::io::{ErrorKind, Read, Seek, SeekFrom};
use std::rt::Files;
use std::{fs, io};

/// A library over the files of the current folder: a name is a path from there. It tells nothing of
/// its files. A file is opened at its first call, and stays open up to the next call for another
/// name or an error. What is there but is no regular file, as a folder, is answered `Failed`; so is a
/// read of a file that isn't there. An error of kind `OutOfMemory` is answered `NoMemory`, every
/// other one `Failed`.
#[derive(Drop)]
pub struct Folder<'a, R: Files> {
    alloc: Global,
    rt: &'a R,
    counts: Counts,
    absences: u64,
    opened: Option<Opened<R::File>>,
}

// A file that is open.
#[derive(Drop)]
struct Opened<F> {
    name: String,
    file: F,
    // Where its next read begins, where that is known.
    place: Option<u64>,
}

impl<'a, R: Files> Folder<'a, R> {
    /// The files that this runtime reaches. None is opened yet.
    pub fn new(alloc: Global, rt: &'a R) -> Folder<'a, R>
        ensures faults { ⟦<Folder<'a, R> as Library>⟧.faults result ≡ 0 }
        ensures memory_refusals { ⟦<Folder<'a, R> as Library>⟧.memory_refusals result ≡ 0 }
        ensures absences { ⟦<Folder<'a, R> as Library>⟧.absences result ≡ 0 }
    {
        Folder {
            alloc,
            rt,
            counts: Counts::zero(),
            absences: 0,
            opened: None,
        }
    }
}

// Opens a regular file. Nothing else is opened, since that may wait or have effects.
fn open<R: Files>(alloc: Global, rt: &R, name: &str) -> io::Result<Opened<R::File>> {
    if !fs::metadata(rt, name)?.is_file() {
        return Err(io::Error::from(ErrorKind::InvalidInput));
    }
    let copy = String::from_str(alloc, name)?;
    let file = fs::open(rt, name)?;
    if !file.metadata()?.is_file() {
        return Err(io::Error::from(ErrorKind::InvalidInput));
    }
    Ok(Opened {
        name: copy,
        file,
        place: Some(0),
    })
}

// The file of a name: the one that is open, or opened now.
fn file_of<R: Files>(
    alloc: Global,
    rt: &R,
    held: Option<Opened<R::File>>,
    name: &str,
) -> io::Result<Opened<R::File>> {
    if let Some(opened) = held {
        if opened.name.as_str() == name {
            return Ok(opened);
        }
    }
    open(alloc, rt, name)
}

// Reads from a place of a file on.
fn read_at<F: Read + Seek + OpenFile>(
    opened: &mut Opened<F>,
    at: u64,
    into: &mut [u8],
) -> io::Result<usize>
    ensures { IfOk result (λ n. n ≤ length into.old) }
{
    if opened.place.take() != Some(at) {
        // Some systems refuse to go far past the end.
        if at >= opened.file.metadata()?.len() {
            return Ok(0);
        }
        opened.file.seek(SeekFrom::Start(at))?;
    }
    let count = read_full(&mut opened.file, into)?;
    opened.place = at.checked_add(count as u64);
    Ok(count)
}

// The length of the file of a name.
fn measure<R: Files>(
    alloc: Global,
    rt: &R,
    held: &mut Option<Opened<R::File>>,
    name: &str,
) -> io::Result<u64> {
    let opened = file_of(alloc, rt, held.take(), name)?;
    let length = opened.file.metadata()?.len();
    *held = Some(opened);
    Ok(length)
}

// Reads from a place of the file of a name on.
fn fill<R: Files>(
    alloc: Global,
    rt: &R,
    held: &mut Option<Opened<R::File>>,
    name: &str,
    at: u64,
    into: &mut [u8],
) -> io::Result<usize>
    ensures { IfOk result (λ n. n ≤ length into.old) }
{
    let mut opened = file_of(alloc, rt, held.take(), name)?;
    let count = read_at(&mut opened, at, into)?;
    *held = Some(opened);
    Ok(count)
}

impl<'a, R: Files> Library for Folder<'a, R> {
    ghost files = { λ _. None };

    ghost faults = { λ s. s.counts.faults };

    ghost memory_refusals = { λ s. s.counts.memory_refusals };

    ghost absences = { λ s. s.absences };

    ghost failed_last = { λ _ _. Unit {0} };

    fn length(&mut self, name: &str) -> Result<Option<u64>, IoError> {
        match measure(self.alloc, self.rt, &mut self.opened, name) {
            Err(e) if e.kind() == ErrorKind::NotFound => {
                self.absences = self.absences.saturating_add(1);
                Ok(None)
            }
            outcome => Ok(Some(self.counts.answer(outcome)?)),
        }
    }

    fn read(&mut self, name: &str, at: u64, into: &mut [u8]) -> Result<usize, IoError> {
        let outcome = fill(self.alloc, self.rt, &mut self.opened, name, at, into);
        self.counts.answer(outcome)
    }
}
