// Why a binary log does not read on.

ghost use Rattle.std.specs.Prelude.{◌≡◌};
ghost use Rattle.binlog_text.specs.Faults.{is_outside};

use thiserror::Error;

/// Why a binary log does not read on. Places are counted in bytes from the file's beginning.
#[derive(Clone, Copy, Debug, PartialEq, Eq, Error)]
pub enum BinlogFault {
    /// The library has no such file.
    #[error("missing")]
    Missing,
    /// The file doesn't begin with the four bytes fe 62 69 6e.
    #[error("no binary log")]
    BadMagic,
    /// The file ends within an event: fewer bytes are left than a header has, or than the event's
    /// length says.
    #[error("event at {at}: {found} of {wanted} bytes")]
    ShortEvent {
        /// Where the event begins.
        at: u64,
        /// How many bytes it has.
        wanted: u64,
        /// How many the file has from there on.
        found: u64,
    },
    /// The event's length isn't one that its type may have, or is above 16,777,216.
    #[error("event at {at}: length {length}")]
    BadLength {
        /// Where the event begins.
        at: u64,
        /// The length.
        length: u32,
    },
    /// The first event is of this type, and no format description.
    #[error("no format description: first event of type {kind}")]
    NoFormat {
        /// The type.
        kind: u8,
    },
    /// The format description names this checksum algorithm, and not 0 or 1.
    #[error("checksum algorithm {0}")]
    Algorithm(u8),
    /// A start encryption names this scheme, and not 1.
    #[error("encryption scheme {0}")]
    Scheme(u8),
    /// The ring has no key of id 1 and this version, under which an event is ciphered.
    #[error("missing key 1 version {version}")]
    MissingKey {
        /// The version.
        version: u32,
    },
    /// The event's checksum isn't that of its bytes.
    #[error("event at {at}: checksum {stored:08x}, computed {computed:08x}")]
    Checksum {
        /// Where the event begins.
        at: u64,
        /// The checksum that the event has.
        stored: u32,
        /// The checksum of its bytes.
        computed: u32,
    },
    /// The library failed: its count of faults rose.
    #[error("file fault")]
    FileFault,
    /// The machine had no memory for the call.
    #[error("out of memory")]
    OutOfMemory,
}

/// Whether a fault comes from outside: the file may read on at a later call.
pub(crate) fn is_outside(fault: BinlogFault) -> bool
    ensures { result ≡ is_outside fault }
{
    match fault {
        BinlogFault::FileFault | BinlogFault::OutOfMemory => true,
        BinlogFault::Missing
        | BinlogFault::BadMagic
        | BinlogFault::ShortEvent { .. }
        | BinlogFault::BadLength { .. }
        | BinlogFault::NoFormat { .. }
        | BinlogFault::Algorithm(_)
        | BinlogFault::Scheme(_)
        | BinlogFault::MissingKey { .. }
        | BinlogFault::Checksum { .. } => false,
    }
}
