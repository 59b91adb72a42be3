// Files of the system, for tests: they count how many were opened, and a sync of each fails.

use std::alloc::Allocator;
use std::cell::Cell;
use std::fs::{Metadata, OpenFile, OpenOptions};
use std::io::{self, ErrorKind, Read, Seek, SeekFrom, Write};
use std::rt::Files;

/// The files of another runtime, and how many were opened. Folders that were opened don't count.
#[derive(Drop)]
pub struct Watched<'a, R> {
    rt: &'a R,
    opened: Cell<u64>,
    failing: u64,
}

/// An open file, whose sync of a number from 1 on fails.
#[derive(Drop)]
pub struct WatchedFile<F> {
    file: F,
    syncs: Cell<u64>,
    failing: u64,
}

impl<'a, R> Watched<'a, R> {
    /// None was opened yet. `failing` is the number of the sync that fails, of each file.
    pub fn new(rt: &'a R, failing: u64) -> Watched<'a, R> {
        Watched {
            rt,
            opened: Cell::new(0),
            failing,
        }
    }

    /// How many files were opened.
    pub fn opened(&self) -> u64 {
        self.opened.get()
    }
}

impl<F: OpenFile> WatchedFile<F> {
    fn sync(&self) -> io::Result<()> {
        let count = self.syncs.get().saturating_add(1);
        self.syncs.set(count);
        if count == self.failing {
            return Err(ErrorKind::BrokenPipe.into());
        }
        self.file.sync_data()
    }
}

impl<F: OpenFile> OpenFile for WatchedFile<F> {
    fn metadata(&self) -> io::Result<Metadata> {
        self.file.metadata()
    }

    fn set_len(&self, size: u64) -> io::Result<()> {
        self.file.set_len(size)
    }

    fn sync_all(&self) -> io::Result<()> {
        self.file.sync_all()
    }

    fn sync_data(&self) -> io::Result<()> {
        self.sync()
    }
}

impl<F: Read> Read for WatchedFile<F> {
    fn read(&mut self, buf: &mut [u8]) -> io::Result<usize> {
        self.file.read(buf)
    }
}

impl<F: Write> Write for WatchedFile<F> {
    fn write(&mut self, buf: &[u8]) -> io::Result<usize> {
        self.file.write(buf)
    }

    fn flush(&mut self) -> io::Result<()> {
        self.file.flush()
    }
}

impl<F: Seek> Seek for WatchedFile<F> {
    fn seek(&mut self, to: SeekFrom) -> io::Result<u64> {
        self.file.seek(to)
    }
}

impl<R: Files> Files for Watched<'_, R> {
    type File = WatchedFile<R::File>;

    type Dir = R::Dir;

    fn open_file(&self, how: &OpenOptions, path: &str) -> io::Result<WatchedFile<R::File>> {
        let file = self.rt.open_file(how, path)?;
        if path != "." {
            self.opened.set(self.opened.get().saturating_add(1));
        }
        Ok(WatchedFile {
            file,
            syncs: Cell::new(0),
            failing: self.failing,
        })
    }

    fn open_dir(&self, path: &str) -> io::Result<R::Dir> {
        self.rt.open_dir(path)
    }

    fn metadata(&self, path: &str) -> io::Result<Metadata> {
        self.rt.metadata(path)
    }

    fn symlink_metadata(&self, path: &str) -> io::Result<Metadata> {
        self.rt.symlink_metadata(path)
    }

    fn copy(&self, from: &str, to: &str) -> io::Result<u64> {
        self.rt.copy(from, to)
    }

    fn rename(&self, from: &str, to: &str) -> io::Result<()> {
        self.rt.rename(from, to)
    }

    fn remove_file(&self, path: &str) -> io::Result<()> {
        self.rt.remove_file(path)
    }

    fn create_dir(&self, path: &str) -> io::Result<()> {
        self.rt.create_dir(path)
    }

    fn remove_dir(&self, path: &str) -> io::Result<()> {
        self.rt.remove_dir(path)
    }

    fn remove_dir_all<B: Allocator>(&self, alloc: B, path: &str) -> io::Result<()> {
        self.rt.remove_dir_all(alloc, path)
    }
}
