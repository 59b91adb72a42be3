// The files of a disk over the current folder, which stay open from their first use on.
ghost use Rattle.std.specs.Prelude.{◌<◌, IfOk, vec_len};

use crate::{FileName, Mark};
use std::alloc::{AllocError, Global};
use std::fs::{self, OpenFile, OpenOptions};
use std::io::{self, ErrorKind, Read, Seek, SeekFrom, Write};
use std::rt::Files;

// A file that stays open from its first use on.
#[derive(Drop)]
pub struct Kept<F> {
    pub file: Option<F>,
    // Whether a sync of it failed.
    pub is_lost: bool,
}

// A file of the store that was asked for.
#[derive(Drop)]
pub struct KeptFile<F> {
    pub name: FileName,
    pub kept: Kept<F>,
}

pub fn path_of(alloc: Global, file: FileName) -> Result<String, AllocError> {
    match file {
        FileName::Log => format!(in alloc; "store.log"),
        FileName::Double => format!(in alloc; "store.double"),
        FileName::Space(id) => format!(in alloc; "space-{id}.ibd"),
    }
}

// Where a file is written before it gets its name.
pub fn draft_of(alloc: Global, file: FileName) -> Result<String, AllocError> {
    match file {
        FileName::Log => format!(in alloc; "store.log.new"),
        FileName::Double => format!(in alloc; "store.double.new"),
        FileName::Space(id) => format!(in alloc; "space-{id}.ibd.new"),
    }
}

pub fn line_of(alloc: Global, mark: Mark) -> Result<String, AllocError> {
    match mark {
        Mark::Started => format!(in alloc; "started\n"),
        Mark::Acked(count) => format!(in alloc; "acked {count}\n"),
        Mark::Minimum(space, version) => format!(in alloc; "minimum {space} {version}\n"),
    }
}

// The length of a file, where there is one. Whatever else stands at its name is refused.
fn length_of(files: &impl Files, path: &str) -> io::Result<Option<u64>> {
    match fs::symlink_metadata(files, path) {
        Ok(found) => {
            if !found.is_file() {
                return Err(ErrorKind::Unsupported.into());
            }
            Ok(Some(found.len()))
        }
        Err(error) => {
            if error.kind() == ErrorKind::NotFound {
                return Ok(None);
            }
            Err(error)
        }
    }
}

// Opens a file for reading and writing, unless it is open.
fn open_once<R: Files>(files: &R, kept: &mut Option<R::File>, path: &str) -> io::Result<()> {
    if kept.is_some() {
        return Ok(());
    }
    if length_of(files, path)?.is_none() {
        return Err(ErrorKind::NotFound.into());
    }
    let mut how = OpenOptions::new();
    how.read(true).write(true);
    let file = how.open(files, path)?;
    if !file.metadata()?.is_file() {
        return Err(ErrorKind::Unsupported.into());
    }
    *kept = Some(file);
    Ok(())
}

fn sync_folder(files: &impl Files) -> io::Result<()> {
    fs::open(files, ".")?.sync_all()
}

// It gets its name when all its bytes are durable.
pub fn make_file<R: Files>(files: &R, path: &str, draft: &str, length: u64) -> io::Result<R::File> {
    if length_of(files, path)?.is_some() {
        return Err(ErrorKind::AlreadyExists.into());
    }
    length_of(files, draft)?;
    let mut how = OpenOptions::new();
    how.read(true).write(true).create(true).truncate(true);
    let file = how.open(files, draft)?;
    file.set_len(length)?;
    file.sync_all()?;
    fs::rename(files, draft, path)?;
    sync_folder(files)?;
    Ok(file)
}

pub fn measure<R: Files>(
    files: &R,
    kept: &mut Option<R::File>,
    path: &str,
) -> io::Result<Option<u64>> {
    if kept.is_none() && length_of(files, path)?.is_none() {
        return Ok(None);
    }
    open_once(files, kept, path)?;
    match kept {
        Some(file) => Ok(Some(file.metadata()?.len())),
        None => Ok(None),
    }
}

pub fn read_file<R: Files>(
    files: &R,
    kept: &mut Option<R::File>,
    path: &str,
    at: u64,
    into: &mut [u8],
) -> io::Result<()> {
    open_once(files, kept, path)?;
    let Some(file) = kept else {
        return Err(ErrorKind::NotFound.into());
    };
    file.seek(SeekFrom::Start(at))?;
    file.read_exact(into)
}

// A file never grows.
pub fn write_file<R: Files>(
    files: &R,
    kept: &mut Option<R::File>,
    path: &str,
    at: u64,
    bytes: &[u8],
) -> io::Result<()> {
    open_once(files, kept, path)?;
    let Some(file) = kept else {
        return Err(ErrorKind::NotFound.into());
    };
    let end = at.saturating_add(bytes.len() as u64);
    if file.metadata()?.len() < end {
        return Err(ErrorKind::InvalidInput.into());
    }
    file.seek(SeekFrom::Start(at))?;
    file.write_all(bytes)
}

fn sync_open<R: Files>(files: &R, kept: &mut Option<R::File>, path: &str) -> io::Result<()> {
    open_once(files, kept, path)?;
    match kept {
        Some(file) => file.sync_data(),
        None => Err(ErrorKind::NotFound.into()),
    }
}

// After an error every later sync of the file fails.
pub fn sync_file<R: Files>(files: &R, kept: &mut Kept<R::File>, path: &str) -> io::Result<()> {
    if kept.is_lost {
        return Err(ErrorKind::BrokenPipe.into());
    }
    let done = sync_open(files, &mut kept.file, path);
    kept.is_lost = done.is_err();
    done
}

// Opens the file of the marks at its end, unless it is open. It is made where it isn't there, durably.
fn open_marks<R: Files>(files: &R, kept: &mut Option<R::File>, path: &str) -> io::Result<()> {
    if kept.is_some() {
        return Ok(());
    }
    length_of(files, path)?;
    let mut how = OpenOptions::new();
    how.append(true).create(true);
    let file = how.open(files, path)?;
    if !file.metadata()?.is_file() {
        return Err(ErrorKind::Unsupported.into());
    }
    sync_folder(files)?;
    *kept = Some(file);
    Ok(())
}

pub fn append_line<R: Files>(
    files: &R,
    marks: &mut Kept<R::File>,
    path: &str,
    line: &str,
) -> io::Result<()> {
    if marks.is_lost {
        return Err(ErrorKind::BrokenPipe.into());
    }
    open_marks(files, &mut marks.file, path)?;
    if let Some(file) = &mut marks.file {
        file.write_all(line.as_bytes())?;
    }
    sync_file(files, marks, path)
}

// Where the file of a name stands among those that were asked for, as the last where it is new.
pub fn slot_of<F: Drop>(kept: &mut Vec<KeptFile<F>>, name: FileName) -> Result<usize, AllocError>
    ensures { IfOk result (λ slot. slot < vec_len kept.new) }
{
    for (slot, file) in kept.iter().enumerate() {
        if file.name == name {
            return Ok(slot);
        }
    }
    let slot = kept.len();
    kept.push(KeptFile {
        name,
        kept: Kept {
            file: None,
            is_lost: false,
        },
    })?;
    Ok(slot)
}
