// How a command ends.
ghost use Rattle.std.specs.Prelude.{◌≡◌};
ghost use Rattle.keyd_cli.specs.Status.{keyd_exit_code};

use cause_core::OutOfMemory;
use key_file::{KeyFault, Name};
use thiserror::Error;

/// How a command ends.
#[derive(Debug, Drop, Error)]
pub enum Status {
    /// All was done and printed.
    #[error("done")]
    Done,
    /// The word at this index, from 0 on, is the first with which no list of words goes on; or the
    /// words end too early, and it is their number.
    #[error("usage at word {0}")]
    Usage(usize),
    /// The key file at this place, from 0 on, does not read.
    #[error("key file {index}: {fault}")]
    KeyFile { index: usize, fault: KeyFault },
    /// There is no file of this name.
    #[error("missing {0}")]
    Missing(Name),
    /// The schedule has more than 1,048,576 bytes.
    #[error("script too large")]
    ScriptTooLarge,
    /// This line of the schedule, from 1 on, is no statement that is built.
    #[error("line {0} not built")]
    NotBuilt(u32),
    /// The input failed: its count of faults rose.
    #[error("input fault")]
    InputFault,
    /// The library of files failed: its count of faults rose.
    #[error("file fault")]
    FileFault,
    /// The output failed: its count of faults rose.
    #[error("output fault")]
    OutFault,
    #[error("out of memory")]
    OutOfMemory,
}

impl From<OutOfMemory> for Status {
    ghost use Rattle.std.specs.Prelude.{◌≡◌};
    ghost use Rattle.keyd_cli.specs.declared.status.Status.TheVariants as status;

    ghost from_gives = { λ _ s. s ≡ status.OutOfMemory };

    fn from(_e: OutOfMemory) -> Status {
        Status::OutOfMemory
    }
}

impl Status {
    /// The number that the program ends with.
    pub fn number(&self) -> u8
        ensures { result ≡ keyd_exit_code self.now }
    {
        match self {
            Status::Done => 0,
            Status::Usage(_) => 2,
            Status::KeyFile { .. } => 3,
            Status::Missing(_) => 3,
            Status::ScriptTooLarge => 4,
            Status::NotBuilt(_) => 4,
            Status::InputFault => 7,
            Status::FileFault => 7,
            Status::OutFault => 7,
            Status::OutOfMemory => 8,
        }
    }
}
