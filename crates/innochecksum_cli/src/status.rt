// How an inspection ends.
ghost use Rattle.std.specs.Prelude.{◌≡◌};
ghost use Rattle.innochecksum_cli.specs.Stops.{file_stop, check_exit_code, out_stop};

use io_core::IoError;
use space_head::HeadFault;
use std::alloc::AllocError;

/// How an inspection ends.
#[derive(Clone, Copy, Debug, PartialEq, Eq)]
pub enum CheckStatus {
    /// All that was asked for was checked, and no more than the permitted number of mismatches was
    /// met; or the pages were counted.
    Done,
    /// More mismatches than the permitted number were met.
    Mismatch,
    /// All was checked, and the file ends within a page that was asked for.
    Truncated,
    /// The file has too few bytes, this many: fewer than the least page, or fewer than its own.
    Short(u64),
    /// The flags of page 0 name no page size that is known.
    Head(HeadFault),
    /// The words aren't ones that the program takes.
    Usage,
    /// There is no such file.
    Missing,
    /// The library failed.
    FileFault,
    /// The sink failed.
    OutFault,
    /// The machine had no memory.
    OutOfMemory,
}

impl From<AllocError> for CheckStatus {
    ghost use Rattle.innochecksum_cli.specs.declared.status.CheckStatus.TheVariants.{OutOfMemory};

    ghost from_gives = { λ _ e. e ≡ OutOfMemory };

    fn from(_e: AllocError) -> CheckStatus {
        CheckStatus::OutOfMemory
    }
}

/// What an error of a library stops an inspection with.
pub(crate) fn file_stop(e: IoError) -> CheckStatus
    ensures { result ≡ file_stop e }
{
    match e {
        IoError::Failed => CheckStatus::FileFault,
        IoError::NoMemory => CheckStatus::OutOfMemory,
    }
}

/// What an error of a sink stops an inspection with.
pub(crate) fn out_stop(e: IoError) -> CheckStatus
    ensures { result ≡ out_stop e }
{
    match e {
        IoError::Failed => CheckStatus::OutFault,
        IoError::NoMemory => CheckStatus::OutOfMemory,
    }
}

impl CheckStatus {
    /// The number that the program ends with.
    pub fn number(self) -> u8
        ensures { result ≡ check_exit_code self }
    {
        match self {
            CheckStatus::Done => 0,
            CheckStatus::Mismatch
            | CheckStatus::Truncated
            | CheckStatus::Short(_)
            | CheckStatus::Head(_) => 1,
            CheckStatus::Usage => 2,
            CheckStatus::Missing => 3,
            CheckStatus::FileFault | CheckStatus::OutFault => 7,
            CheckStatus::OutOfMemory => 8,
        }
    }
}
