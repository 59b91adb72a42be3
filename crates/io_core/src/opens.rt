// Files of the system, for tests, that count how many were opened.

use std::alloc::Allocator;
use std::cell::Cell;
use std::fs::{Metadata, OpenOptions};
use std::io;
use std::rt::Files;

/// The files of another runtime, and how many were opened.
#[derive(Drop)]
pub struct Opens<'a, R> {
    rt: &'a R,
    count: Cell<u64>,
}

impl<'a, R> Opens<'a, R> {
    /// None was opened yet.
    pub fn new(rt: &'a R) -> Opens<'a, R> {
        Opens {
            rt,
            count: Cell::new(0),
        }
    }

    /// How many were opened.
    pub fn count(&self) -> u64 {
        self.count.get()
    }
}

impl<R: Files> Files for Opens<'_, R> {
    type File = R::File;

    type Dir = R::Dir;

    fn open_file(&self, how: &OpenOptions, path: &str) -> io::Result<R::File> {
        self.count.set(self.count.get().saturating_add(1));
        self.rt.open_file(how, path)
    }

    fn open_dir(&self, path: &str) -> io::Result<R::Dir> {
        self.rt.open_dir(path)
    }

    fn metadata(&self, path: &str) -> io::Result<Metadata> {
        self.rt.metadata(path)
    }

    fn symlink_metadata(&self, path: &str) -> io::Result<Metadata> {
        self.rt.symlink_metadata(path)
    }

    fn copy(&self, from: &str, to: &str) -> io::Result<u64> {
        self.rt.copy(from, to)
    }

    fn rename(&self, from: &str, to: &str) -> io::Result<()> {
        self.rt.rename(from, to)
    }

    fn remove_file(&self, path: &str) -> io::Result<()> {
        self.rt.remove_file(path)
    }

    fn create_dir(&self, path: &str) -> io::Result<()> {
        self.rt.create_dir(path)
    }

    fn remove_dir(&self, path: &str) -> io::Result<()> {
        self.rt.remove_dir(path)
    }

    fn remove_dir_all<B: Allocator>(&self, alloc: B, path: &str) -> io::Result<()> {
        self.rt.remove_dir_all(alloc, path)
    }
}
