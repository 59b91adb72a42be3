// A source over a reader of std.
ghost use Rattle.std.specs.Prelude.{◌≡◌, None};

use crate::counts::{Counts, read_some};
use crate::{IoError, Source};
use std::io::Read;

/// A source over a reader of std: standard input, a file, a slice. It tells nothing of its bytes.
/// A read that a signal interrupts is tried again, 64 times in all, and then answered `Failed`; an
/// error of kind `OutOfMemory` is answered `NoMemory`, every other one `Failed`.
#[derive(Drop)]
pub struct StdSource<R> {
    reader: R,
    counts: Counts,
}

impl<R: Read> StdSource<R> {
    /// A source over this reader, which is not read yet.
    pub fn new(reader: R) -> StdSource<R>
        ensures faults { ⟦<StdSource<R> as Source>⟧.faults result ≡ 0 }
        ensures memory_refusals { ⟦<StdSource<R> as Source>⟧.memory_refusals result ≡ 0 }
    {
        StdSource {
            reader,
            counts: Counts::zero(),
        }
    }
}

impl<R: Read> Source for StdSource<R> {
    ghost left = { λ _. None };

    ghost faults = { λ s. s.counts.faults };

    ghost memory_refusals = { λ s. s.counts.memory_refusals };

    fn take(&mut self, into: &mut [u8]) -> Result<usize, IoError> {
        let outcome = read_some(&mut self.reader, into);
        self.counts.answer(outcome)
    }
}
