// The calls of an object in memory, some of which are to fail.
ghost use Rattle.std.specs.Prelude.{◌≡◌, ◌≢◌, ◌↔◌, IsErr, OnOk};
ghost use Rattle.io_core.specs.Calls.{IsToFail, IsOneMore};
ghost use Rattle.io_core.specs.Cause.{HasIoCause};

use crate::IoError;
use std::marker::Model;

/// Counts the calls of an object in memory, and fails those that are listed.
#[derive(Drop)]
pub struct CountedCalls {
    failing: Vec<u64>,
    made: u64,
    faults: u64,
}

impl Model for CountedCalls {
    ghost use Rattle.io_core.specs.Calls.{Calls};

    ghost Value = { Calls };

    ghost view = { λ c. record { failing = c.failing.items; made = c.made; faults = c.faults } };
}

impl CountedCalls {
    /// No call was made yet. `failing` lists, from 1, the calls that are to fail.
    pub fn new(failing: Vec<u64>) -> CountedCalls
        ensures { result ≡ record { failing = failing.items; made = 0; faults = 0 } }
    {
        CountedCalls {
            failing,
            made: 0,
            faults: 0,
        }
    }

    /// Begins the next call.
    ///
    /// # Errors
    /// `Failed` exactly where the call is listed.
    pub fn begin(&mut self) -> Result<(), IoError>
        ensures failed { IsErr result ↔ IsToFail self.old }
        ensures only { result ≢ Err IoError.NoMemory }
        ensures one_more { IsOneMore self.old self.new }
        ensures cause { HasIoCause self.old.faults self.new.faults result }
        ensures no_fault { OnOk result (self.new.faults ≡ self.old.faults) }
    {
        self.made = self.made.saturating_add(1);
        if self.failing.contains(&self.made) {
            self.faults = self.faults.saturating_add(1);
            return Err(IoError::Failed);
        }
        Ok(())
    }
}
