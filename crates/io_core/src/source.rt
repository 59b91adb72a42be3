// A source of bytes.
ghost use Rattle.std.specs.Prelude.{◌≡◌, ◌≤◌, ◌<◌, ℕ, List, [], length, take, drop, Option, IfOk, OnOk, OnErr, IsErrOf};
ghost use Rattle.io_core.specs.Told.{Told};
ghost use Rattle.io_core.specs.Stream.{prefixed};
ghost use Rattle.io_core.specs.Cause.{HasIoCause, HasIoMemoryCause};

use crate::IoError;

/// A stream of bytes that are handed out once, in order.
pub trait Source {
    /// The bytes that are still to come, where the source tells them.
    ghost left: { Self → Option (List ℕ) };

    /// How often it has failed. The count never falls.
    ghost faults: { Self → ℕ };

    /// How often it was refused memory. The count never falls.
    ghost memory_refusals: { Self → ℕ };

    /// Moves the next bytes to the front of `into` and returns how many, at least one where `into`
    /// isn't empty and bytes are left. So 0 for a buffer that isn't empty is the end of input. A
    /// source that tells its bytes leaves the rest of `into` as it was.
    ///
    /// # Errors
    /// `Failed` where the outside failed, `NoMemory` where it had no memory; what is left to come
    /// stays as it was, and `into` holds any bytes.
    fn take(&mut self, into: &mut [u8]) -> Result<usize, IoError>
        ensures within { IfOk result (λ n. n ≤ length into.old) }

        // What was to come is what was taken, followed by what is to come now.
        ensures next { IfOk result (λ n. left self.old ≡ prefixed (take n into.new) (left self.new)) }
        ensures rest { IfOk result (λ n. Told (λ _. drop n into.new ≡ drop n into.old) (left self.old)) }
        ensures end { IfOk result (λ n. n ≡ 0 → 0 < length into.old → Told (λ bytes. bytes ≡ []) (left self.old)) }
        ensures err { OnErr result (left self.new ≡ left self.old) }
        ensures cause { HasIoCause (faults self.old) (faults self.new) result }
        ensures memory { HasIoMemoryCause (memory_refusals self.old) (memory_refusals self.new) result }
        ensures no_fault { OnOk result (faults self.new ≡ faults self.old) }
        ensures no_fault_at_want { IsErrOf result IoError.NoMemory → faults self.new ≡ faults self.old }
        ensures no_refusal { OnOk result (memory_refusals self.new ≡ memory_refusals self.old) };
}
