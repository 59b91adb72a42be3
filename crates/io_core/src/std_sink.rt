// A sink over a writer of std.
ghost use Rattle.std.specs.Prelude.{◌≡◌, None};

use crate::counts::Counts;
use crate::{IoError, Sink};
use std::io::Write;

/// A sink over a writer of std: standard output, a file. It tells nothing of its bytes. Each `give`
/// writes all its bytes and flushes the writer, so that a fault of either is that call's answer. An
/// error of kind `OutOfMemory` is answered `NoMemory`, every other one `Failed`.
#[derive(Drop)]
pub struct StdSink<W> {
    writer: W,
    counts: Counts,
}

impl<W: Write> StdSink<W> {
    /// A sink over this writer, to which nothing is written yet.
    pub fn new(writer: W) -> StdSink<W>
        ensures faults { ⟦<StdSink<W> as Sink>⟧.faults result ≡ 0 }
        ensures memory_refusals { ⟦<StdSink<W> as Sink>⟧.memory_refusals result ≡ 0 }
    {
        StdSink {
            writer,
            counts: Counts::zero(),
        }
    }
}

impl<W: Write> Sink for StdSink<W> {
    ghost given = { λ _. None };

    ghost faults = { λ s. s.counts.faults };

    ghost memory_refusals = { λ s. s.counts.memory_refusals };

    fn give(&mut self, bytes: &[u8]) -> Result<(), IoError> {
        let written = self.writer.write_all(bytes);
        self.counts.answer(written)?;
        let flushed = self.writer.flush();
        self.counts.answer(flushed)
    }
}
