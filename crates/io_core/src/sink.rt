// A sink for bytes.
ghost use Rattle.std.specs.Prelude.{◌≡◌, ℕ, List, Option, OnOk, OnErr, IsErrOf};
ghost use Rattle.io_core.specs.Stream.{extended, IsPartlyGiven};
ghost use Rattle.io_core.specs.Cause.{HasIoCause, HasIoMemoryCause};

use crate::IoError;

/// A stream that bytes are appended to.
pub trait Sink {
    /// The bytes that it was given so far, where the sink tells them.
    ghost given: { Self → Option (List ℕ) };

    /// How often it has failed. The count never falls.
    ghost faults: { Self → ℕ };

    /// How often it was refused memory. The count never falls.
    ghost memory_refusals: { Self → ℕ };

    /// Appends all the bytes.
    ///
    /// # Errors
    /// `Failed` where the outside failed, `NoMemory` where it had no memory; some of the bytes,
    /// from their front on, were appended, or none.
    fn give(&mut self, bytes: &[u8]) -> Result<(), IoError>
        ensures ok { OnOk result (given self.new ≡ extended bytes.now (given self.old)) }
        ensures err { OnErr result (IsPartlyGiven bytes.now (given self.old) (given self.new)) }
        ensures cause { HasIoCause (faults self.old) (faults self.new) result }
        ensures memory { HasIoMemoryCause (memory_refusals self.old) (memory_refusals self.new) result }
        ensures no_fault { OnOk result (faults self.new ≡ faults self.old) }
        ensures no_fault_at_want { IsErrOf result IoError.NoMemory → faults self.new ≡ faults self.old }
        ensures no_refusal { OnOk result (memory_refusals self.new ≡ memory_refusals self.old) };
}
