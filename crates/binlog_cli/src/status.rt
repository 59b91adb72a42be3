// How a listing ends.

ghost use Rattle.std.specs.Prelude.{◌≡◌};
ghost use Rattle.binlog_cli.specs.Listing.{refused_place};
ghost use Rattle.binlog_cli.specs.Stops.{first_stop, key_stop, list_exit_code, log_stop, print_stop};

use binlog_text::BinlogFault;
use io_core::IoError;
use key_file::LoadFault;
use std::alloc::AllocError;

/// How a listing ends.
#[derive(Debug, Drop)]
pub enum ListStatus {
    /// All events were listed.
    Done,
    /// The log does not read on: what it has before this was listed.
    Log(BinlogFault),
    /// The words aren't ones that the program takes.
    Usage,
    /// The key files do not load.
    Key(LoadFault),
    /// The library failed.
    FileFault,
    /// The sink failed.
    OutFault,
    /// The machine had no memory.
    OutOfMemory,
}

/// How a listing ends, and how far it came.
#[derive(Debug, Drop)]
pub struct ListOutcome {
    /// How it ends.
    pub status: ListStatus,
    /// Where the log was reached, in bytes from the file's beginning: at its end, where it is done; at
    /// the event that is refused, or at 0 where there is no such log or the file is no binary log; and
    /// else behind the events that were read. None where the log wasn't reached.
    pub reached: Option<u64>,
}

impl From<AllocError> for ListStatus {
    ghost use Rattle.binlog_cli.specs.declared.status.ListStatus.TheVariants.{OutOfMemory};

    ghost from_gives = { λ _ e. e ≡ OutOfMemory };

    fn from(_e: AllocError) -> ListStatus {
        ListStatus::OutOfMemory
    }
}

/// What a fault of the log ends a listing with.
pub(crate) fn log_stop(fault: BinlogFault) -> ListStatus
    ensures { result ≡ log_stop fault }
{
    match fault {
        BinlogFault::FileFault => ListStatus::FileFault,
        BinlogFault::OutOfMemory => ListStatus::OutOfMemory,
        BinlogFault::Missing
        | BinlogFault::BadMagic
        | BinlogFault::ShortEvent { .. }
        | BinlogFault::BadLength { .. }
        | BinlogFault::NoFormat { .. }
        | BinlogFault::Algorithm(_)
        | BinlogFault::Scheme(_)
        | BinlogFault::MissingKey { .. }
        | BinlogFault::Checksum { .. } => ListStatus::Log(fault),
    }
}

/// What a listing ends with where the log had a fault and then the text so far couldn't be given, which
/// stops with `stop`. A fault of the file came first, and stays the answer.
pub(crate) fn first_stop(fault: BinlogFault, stop: ListStatus) -> ListStatus
    ensures { result ≡ first_stop fault stop }
{
    match fault {
        BinlogFault::FileFault => ListStatus::FileFault,
        BinlogFault::OutOfMemory
        | BinlogFault::Missing
        | BinlogFault::BadMagic
        | BinlogFault::ShortEvent { .. }
        | BinlogFault::BadLength { .. }
        | BinlogFault::NoFormat { .. }
        | BinlogFault::Algorithm(_)
        | BinlogFault::Scheme(_)
        | BinlogFault::MissingKey { .. }
        | BinlogFault::Checksum { .. } => stop,
    }
}

/// Where a log is refused, the event that is due beginning at a place.
pub(crate) fn refused_place(begins: u64, fault: BinlogFault) -> u64
    ensures { result ≡ refused_place begins fault }
{
    match fault {
        BinlogFault::Missing | BinlogFault::BadMagic => 0,
        BinlogFault::FileFault
        | BinlogFault::OutOfMemory
        | BinlogFault::ShortEvent { .. }
        | BinlogFault::BadLength { .. }
        | BinlogFault::NoFormat { .. }
        | BinlogFault::Algorithm(_)
        | BinlogFault::Scheme(_)
        | BinlogFault::MissingKey { .. }
        | BinlogFault::Checksum { .. } => begins,
    }
}

/// What a fault of the key files ends a listing with.
pub(crate) fn key_stop(fault: LoadFault) -> ListStatus
    ensures { result ≡ key_stop fault }
{
    match fault {
        LoadFault::FileFault => ListStatus::FileFault,
        LoadFault::OutOfMemory => ListStatus::OutOfMemory,
        LoadFault::Missing(name) => ListStatus::Key(LoadFault::Missing(name)),
        LoadFault::KeyFile { index, fault } => {
            ListStatus::Key(LoadFault::KeyFile { index, fault })
        }
    }
}

/// What an error of a sink ends a listing with.
pub(crate) fn print_stop(e: IoError) -> ListStatus
    ensures { result ≡ print_stop e }
{
    match e {
        IoError::Failed => ListStatus::OutFault,
        IoError::NoMemory => ListStatus::OutOfMemory,
    }
}

impl ListStatus {
    /// The number that the program ends with.
    pub fn number(&self) -> u8
        ensures { result ≡ list_exit_code self.now }
    {
        match self {
            ListStatus::Done => 0,
            ListStatus::Log(_) => 1,
            ListStatus::Usage => 2,
            ListStatus::Key(_) => 3,
            ListStatus::FileFault | ListStatus::OutFault => 7,
            ListStatus::OutOfMemory => 8,
        }
    }
}
