// A source in memory.
ghost use Rattle.std.specs.Prelude.{◌≡◌, ◌≢◌, ◌↔◌, ◌+◌, ◌≤◌, ◌<◌, ℕ, min, Some, [], length, take, drop, IfOk, OnOk, OnErr, IsErr, IsErrOf};
ghost use Rattle.io_core.specs.Told.{Told};
ghost use Rattle.io_core.specs.Stream.{prefixed};
ghost use Rattle.io_core.specs.Cause.{HasIoCause, HasIoMemoryCause};
ghost use Rattle.io_core.specs.Calls.{IsToFail, IsOneMore};

use crate::bytes::{fill, rest_from};
use crate::calls::CountedCalls;
use crate::{IoError, Source};
use std::marker::Model;

/// A source over bytes in memory, which fails at the calls that it is made with. It tells its bytes.
#[derive(Drop)]
pub struct ByteSource {
    bytes: Vec<u8>,
    at: usize,
    calls: CountedCalls,
}

impl Model for ByteSource {
    ghost use Rattle.std.specs.Prelude.{◌≤◌, drop, vec_len};
    ghost use Rattle.io_core.specs.Memory.{SourceState};

    ghost Value = { SourceState };

    ghost view = { λ s. record { left = drop s.at s.bytes.items; calls = s.calls } };

    ghost invariant = { λ s. s.at ≤ vec_len s.bytes };
}

impl ByteSource {
    /// A source of these bytes. `failing` lists the calls of `take`, from 1, that answer `Failed`.
    pub fn new(bytes: Vec<u8>, failing: Vec<u64>) -> ByteSource
        ensures { result ≡ record { left = bytes.items; calls = record { failing = failing.items; made = 0; faults = 0 } } }
    {
        ByteSource {
            bytes,
            at: 0,
            calls: CountedCalls::new(failing),
        }
    }
}

impl Source for ByteSource {
    ghost left = { λ s. Some s.left };

    ghost faults = { λ s. s.calls.faults };

    ghost memory_refusals = { λ _. 0 };

    /// Takes as many bytes as are left or as fit. It answers `Failed` exactly at the listed calls,
    /// which change neither the bytes to come nor `into`, and never `NoMemory`.
    fn take(&mut self, into: &mut [u8]) -> Result<usize, IoError>
        ensures within { IfOk result (λ n. n ≤ length into.old) }
        ensures next { IfOk result (λ n. Some self.old.left ≡ prefixed (take n into.new) (Some self.new.left)) }
        ensures rest { IfOk result (λ n. Told (λ _. drop n into.new ≡ drop n into.old) (Some self.old.left)) }
        ensures end { IfOk result (λ n. n ≡ 0 → 0 < length into.old → Told (λ bytes. bytes ≡ []) (Some self.old.left)) }
        ensures err { OnErr result (Some self.new.left ≡ Some self.old.left) }
        ensures cause { HasIoCause self.old.calls.faults self.new.calls.faults result }
        ensures memory { HasIoMemoryCause 0 0 result }
        ensures no_fault { OnOk result (self.new.calls.faults ≡ self.old.calls.faults) }
        ensures no_fault_at_want { IsErrOf result IoError.NoMemory → self.new.calls.faults ≡ self.old.calls.faults }
        ensures no_refusal { OnOk result (◌≡◌ {A = ℕ} 0 0) }
        ensures count { IfOk result (λ n. n ≡ min (length into.old) (length self.old.left)) }
        ensures failed { IsErr result ↔ IsToFail self.old.calls }
        ensures only { result ≢ Err IoError.NoMemory }
        ensures unread { OnErr result (into.new ≡ into.old) }
        ensures one_more { IsOneMore self.old.calls self.new.calls }
    {
        self.calls.begin()?;
        let count = fill(into, rest_from(&self.bytes, self.at));
        self.at += count;
        Ok(count)
    }
}
