// A sink in memory.
ghost use Rattle.std.specs.Prelude.{◌≡◌, ◌≢◌, ◌↔◌, ℕ, Some, [], ◌++◌, OnOk, OnErr, IsErrOf};
ghost use Rattle.io_core.specs.Stream.{extended, IsPartlyGiven};
ghost use Rattle.io_core.specs.Cause.{HasIoCause, HasIoMemoryCause};
ghost use Rattle.io_core.specs.Calls.{IsToFail, IsOneMore};

use crate::calls::CountedCalls;
use crate::{IoError, Sink};
use std::alloc::Global;
use std::marker::Model;

/// A sink that keeps its bytes in memory, and fails at the calls that it is made with. It tells its
/// bytes.
#[derive(Drop)]
pub struct ByteSink {
    bytes: Vec<u8>,
    calls: CountedCalls,
    memory_refusals: u64,
}

impl Model for ByteSink {
    ghost use Rattle.io_core.specs.Memory.{SinkState};

    ghost Value = { SinkState };

    ghost view = { λ s. record { given = s.bytes.items; calls = s.calls; memory_refusals = s.memory_refusals } };
}

impl ByteSink {
    /// An empty sink, which takes no memory yet. `failing` lists the calls of `give`, from 1, that
    /// answer `Failed`.
    pub fn new(alloc: Global, failing: Vec<u64>) -> ByteSink
        ensures { result ≡ record { given = []; calls = record { failing = failing.items; made = 0; faults = 0 }; memory_refusals = 0 } }
    {
        ByteSink {
            bytes: Vec::new(alloc),
            calls: CountedCalls::new(failing),
            memory_refusals: 0,
        }
    }

    /// The bytes that it was given, in order.
    pub fn bytes(&self) -> &[u8]
        ensures { result.now ≡ self.now.given }
    {
        &self.bytes
    }
}

impl Sink for ByteSink {
    ghost given = { λ s. Some s.given };

    ghost faults = { λ s. s.calls.faults };

    ghost memory_refusals = { λ s. s.memory_refusals };

    /// Appends the bytes. It answers `Failed` exactly at the listed calls, and `NoMemory` only where
    /// its memory can't grow; either leaves the bytes as they were.
    fn give(&mut self, bytes: &[u8]) -> Result<(), IoError>
        ensures ok { OnOk result (Some self.new.given ≡ extended bytes.now (Some self.old.given)) }
        ensures err { OnErr result (IsPartlyGiven bytes.now (Some self.old.given) (Some self.new.given)) }
        ensures cause { HasIoCause self.old.calls.faults self.new.calls.faults result }
        ensures memory { HasIoMemoryCause self.old.memory_refusals self.new.memory_refusals result }
        ensures no_fault { OnOk result (self.new.calls.faults ≡ self.old.calls.faults) }
        ensures no_fault_at_want { IsErrOf result IoError.NoMemory → self.new.calls.faults ≡ self.old.calls.faults }
        ensures no_refusal { OnOk result (self.new.memory_refusals ≡ self.old.memory_refusals) }
        ensures failed { (result ≡ Err IoError.Failed) ↔ IsToFail self.old.calls }
        ensures kept { OnErr result (self.new.given ≡ self.old.given) }
        ensures granted { result ≢ Err IoError.NoMemory → self.new.memory_refusals ≡ self.old.memory_refusals }
        ensures one_more { IsOneMore self.old.calls self.new.calls }
    {
        self.calls.begin()?;
        if self.bytes.extend_from_slice(bytes).is_err() {
            self.memory_refusals = self.memory_refusals.saturating_add(1);
            return Err(IoError::NoMemory);
        }
        Ok(())
    }
}
