// A reader of a binary log, event by event.

ghost use Rattle.std.specs.Prelude.{◌≡◌, ⊤, true};
ghost use Rattle.binlog_text.specs.Stages.{holds_within, is_settled};

use crate::answering::{answer, forget_start};
use crate::buffer::EventBuffer;
use crate::fault::is_outside;
use crate::stage::{Position, Stage};
use crate::view::EventMark;
use crate::{BinlogFault, EventView};
use io_core::Library;
use key_ring::Ring;
use std::alloc::Global;

/// Reads a binary log event by event.
#[derive(Drop)]
pub struct LogReader {
    stage: Stage,
    buffer: EventBuffer,
    ghost settled: { is_settled stage ≡ true },
    ghost within: { holds_within stage buffer.rest ≡ true },
}

impl LogReader {
    ghost use Rattle.std.specs.Prelude.{◌≢◌, ◌≤◌, [], Ok, Err, IfOk, IfSome, IsErrOf, false};
    ghost use Rattle.std.specs.Borrow.{sem, follows_so};
    ghost use mathlib.Core.Option.{none};
    ghost use Rattle.io_core.specs.Told.{Told};
    ghost use Rattle.binlog_text.specs.Faults.{is_outside_fault};
    ghost use Rattle.binlog_text.specs.Reading.{FitsMark, Keeps, WantsFile, marked, viewed};
    ghost use Rattle.binlog_text.specs.Advances.{Advances, ReaderCauses};
    ghost use Rattle.binlog_text.specs.contracts.reader.LogReader.{the_row};

    /// A reader that has read nothing.
    pub fn new(alloc: Global) -> LogReader
        ensures stage { result.stage ≡ Stage.Start }
        ensures rest { result.buffer.rest ≡ [] }
        ensures room { result.buffer.room ≡ 0 }
    {
        LogReader {
            stage: Stage::Start,
            buffer: EventBuffer::new(alloc),
        }
    }

    // The next event, which is passed.
    fn advance<L: Library>(
        &mut self,
        files: &mut L,
        name: &str,
        ring: &Ring,
    ) -> Result<Option<EventMark>, BinlogFault>
        requires { Told (λ fs. Keeps (fs name.now) self.old.stage self.old.buffer.rest) (L.files files.old) }
        ensures advances { Advances ring.now (L.files files.old) name.now self.old self.new (marked self.new.buffer.event result) }
        ensures fits { IfOk result (λ found. IfSome found (λ mark. FitsMark mark self.new.buffer.event)) }
        ensures again { (fault : BinlogFault) → self.old.stage ≡ Stage.Refused fault → result ≡ Err fault }
        ensures same { L.files files.new ≡ L.files files.old }
        ensures causes { ReaderCauses self.old.stage (L.faults files.old) (L.faults files.new) (L.absences files.old) (L.absences files.new) result }
        ensures no_fault { is_outside_fault result ≡ false → L.faults files.new ≡ L.faults files.old }
        ensures no_fault_at_want { IsErrOf result BinlogFault.OutOfMemory → L.faults files.new ≡ L.faults files.old }
        ensures present { (result ≡ Err BinlogFault.Missing → self.old.stage ≡ Stage.Refused BinlogFault.Missing) → L.absences files.new ≡ L.absences files.old }
        ensures missing_first { (position : Position) → self.old.stage ≡ Stage.Events position → result ≢ Err BinlogFault.Missing }
        ensures refusals_later { L.memory_refusals files.old ≤ L.memory_refusals files.new }
        ensures no_refusal { is_outside_fault result ≡ false → L.memory_refusals files.new ≡ L.memory_refusals files.old }
        ensures failed { IsErrOf result BinlogFault.FileFault → L.failed_last files.new name.now }
        ensures wanted { IsErrOf result BinlogFault.FileFault → WantsFile self.old.stage self.old.buffer.rest }
    {
        match answer(&mut self.buffer, self.stage, files, name, ring) {
            Ok(Some(step)) => {
                self.stage = Stage::Events(step.next);
                Ok(Some(step.mark))
            }
            Ok(None) => {
                forget_start(&mut self.buffer, self.stage);
                Ok(None)
            }
            Err(fault) => {
                forget_start(&mut self.buffer, self.stage);
                if !is_outside(fault) {
                    self.stage = Stage::Refused(fault);
                }
                Err(fault)
            }
        }
    }

    /// The next event, in clear, and None at the file's end. From the second call on the name is that
    /// of the first, and a library that tells its files has the same bytes under it.
    ///
    /// # Errors
    /// The first refusal in the file, which is answered again from then on; `FileFault` and
    /// `OutOfMemory`, after which the reader stands where it stood, with the bytes that it held: at its start
    /// it holds none, and reads the file's beginning again. A fault of the file is one of this name, and comes
    /// only where the reader doesn't hold all bytes of the next event, or of its header, that the file has.
    pub fn next<L: Library>(
        &mut self,
        files: &mut L,
        name: &str,
        ring: &Ring,
    ) -> Result<Option<EventView<'_>>, BinlogFault>
        requires { Told (λ fs. Keeps (fs name.now) self.old.stage self.old.buffer.rest) (L.files files.old) }
        // Once the event is let go of, the reader stands behind it, or where it stood, or at the refusal.
        ensures* advances { sem 𝓛 (follows_so the_row the_row self.entry.ghost_name none (λ _ _. ⊤) (λ new. Advances ring.now (L.files files.old) name.now self.old new (viewed result))) }
        ensures again { (fault : BinlogFault) → self.old.stage ≡ Stage.Refused fault → result ≡ Err fault }
        ensures same { L.files files.new ≡ L.files files.old }
        ensures causes { ReaderCauses self.old.stage (L.faults files.old) (L.faults files.new) (L.absences files.old) (L.absences files.new) result }
        ensures no_fault { is_outside_fault result ≡ false → L.faults files.new ≡ L.faults files.old }
        ensures no_fault_at_want { IsErrOf result BinlogFault.OutOfMemory → L.faults files.new ≡ L.faults files.old }
        ensures present { (result ≡ Err BinlogFault.Missing → self.old.stage ≡ Stage.Refused BinlogFault.Missing) → L.absences files.new ≡ L.absences files.old }
        ensures missing_first { (position : Position) → self.old.stage ≡ Stage.Events position → result ≢ Err BinlogFault.Missing }
        ensures refusals_later { L.memory_refusals files.old ≤ L.memory_refusals files.new }
        ensures no_refusal { is_outside_fault result ≡ false → L.memory_refusals files.new ≡ L.memory_refusals files.old }
        ensures failed { IsErrOf result BinlogFault.FileFault → L.failed_last files.new name.now }
        ensures wanted { IsErrOf result BinlogFault.FileFault → WantsFile self.old.stage self.old.buffer.rest }
    {
        match self.advance(files, name, ring)? {
            Some(mark) => Ok(Some(EventView {
                mark,
                bytes: self.buffer.event(),
            })),
            None => Ok(None),
        }
    }
}
